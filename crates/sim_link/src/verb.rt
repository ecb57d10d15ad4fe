//! The first words of lines.
ghost use Rattle.std.specs.Prelude.{◌≡◌};
ghost use Rattle.sim_link.specs.Verbs.{name_of, verb_of};

/// What a line begins with.
#[derive(Clone, Copy)]
pub enum Verb {
    World,
    Socket,
    Start,
    Stream(StreamVerb),
    Datagram(DatagramVerb),
    Host(HostVerb),
    Link(LinkVerb),
}

/// Calls on a TCP socket; `close` is a UDP socket's too.
#[derive(Clone, Copy)]
pub enum StreamVerb {
    Listen,
    Connect,
    Send,
    Recv,
    Close,
    Abort,
    State,
}

/// Calls on a UDP, an ICMP or a raw socket.
#[derive(Clone, Copy)]
pub enum DatagramVerb {
    Bind,
    Ident,
    SendTo,
    SendIcmp,
    SendRaw,
    RecvFrom,
}

/// Settings and polls of a host.
#[derive(Clone, Copy)]
pub enum HostVerb {
    Addrs,
    Hw,
    Route,
    Poll,
    PollAt,
    Room,
}

/// Acts of the link.
#[derive(Clone, Copy)]
pub enum LinkVerb {
    Deliver,
    Damage,
    Noise,
    Cut,
}

impl Verb {
    /// All of them.
    pub const ALL: [Verb; 26] = [
        Verb::World,
        Verb::Socket,
        Verb::Start,
        Verb::Stream(StreamVerb::Listen),
        Verb::Stream(StreamVerb::Connect),
        Verb::Stream(StreamVerb::Send),
        Verb::Stream(StreamVerb::Recv),
        Verb::Stream(StreamVerb::Close),
        Verb::Stream(StreamVerb::Abort),
        Verb::Stream(StreamVerb::State),
        Verb::Datagram(DatagramVerb::Bind),
        Verb::Datagram(DatagramVerb::Ident),
        Verb::Datagram(DatagramVerb::SendTo),
        Verb::Datagram(DatagramVerb::SendIcmp),
        Verb::Datagram(DatagramVerb::SendRaw),
        Verb::Datagram(DatagramVerb::RecvFrom),
        Verb::Host(HostVerb::Addrs),
        Verb::Host(HostVerb::Hw),
        Verb::Host(HostVerb::Route),
        Verb::Host(HostVerb::Poll),
        Verb::Host(HostVerb::PollAt),
        Verb::Host(HostVerb::Room),
        Verb::Link(LinkVerb::Deliver),
        Verb::Link(LinkVerb::Damage),
        Verb::Link(LinkVerb::Noise),
        Verb::Link(LinkVerb::Cut),
    ];

    /// The word itself.
    pub fn name(self) -> &'static str
        ensures { result.now ≡ name_of self }
    {
        match self {
            Verb::World => "world",
            Verb::Socket => "socket",
            Verb::Start => "start",
            Verb::Stream(StreamVerb::Listen) => "listen",
            Verb::Stream(StreamVerb::Connect) => "connect",
            Verb::Stream(StreamVerb::Send) => "send",
            Verb::Stream(StreamVerb::Recv) => "recv",
            Verb::Stream(StreamVerb::Close) => "close",
            Verb::Stream(StreamVerb::Abort) => "abort",
            Verb::Stream(StreamVerb::State) => "state",
            Verb::Datagram(DatagramVerb::Bind) => "bind",
            Verb::Datagram(DatagramVerb::Ident) => "ident",
            Verb::Datagram(DatagramVerb::SendTo) => "sendto",
            Verb::Datagram(DatagramVerb::SendIcmp) => "sendicmp",
            Verb::Datagram(DatagramVerb::SendRaw) => "sendraw",
            Verb::Datagram(DatagramVerb::RecvFrom) => "recvfrom",
            Verb::Host(HostVerb::Addrs) => "addrs",
            Verb::Host(HostVerb::Hw) => "hw",
            Verb::Host(HostVerb::Route) => "route",
            Verb::Host(HostVerb::Poll) => "poll",
            Verb::Host(HostVerb::PollAt) => "pollat",
            Verb::Host(HostVerb::Room) => "room",
            Verb::Link(LinkVerb::Deliver) => "deliver",
            Verb::Link(LinkVerb::Damage) => "damage",
            Verb::Link(LinkVerb::Noise) => "noise",
            Verb::Link(LinkVerb::Cut) => "cut",
        }
    }

    /// The verb that a word is.
    #[tactic(auto, unfolding(crate::specs::Verbs::verb_of))]
    pub fn from_name(word: &str) -> Option<Verb>
        ensures { result ≡ verb_of word.now }
    {
        Verb::ALL.iter().copied().find(|v| v.name() == word)
    }
}
