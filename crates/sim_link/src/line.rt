//! The lines of a script.
ghost use Rattle.std.specs.Prelude.{◌≡◌, ℕ, List, Some, IfSome, OnSome, drop};
ghost use Rattle.sim_link.specs.Words.{Ends};
ghost use Rattle.sim_link.specs.Lines.{AreQueueSizes, IsLine, IsSocket, IsStream, IsDatagram, IsHost, IsLink, SaysWords, SaysLine};
ghost use Rattle.sim_link.specs.declared.kinds.QueueSizes.{QueueSizes};
ghost use Rattle.sim_link.specs.declared.line.Line.{Line};

use crate::cidrs::Blocks;
use crate::hex_bytes::HexBytes;
use crate::kinds::{QueueSizes, Side, SocketKind, SocketSpec, StreamSizes};
use crate::verb::{DatagramVerb, HostVerb, LinkVerb, StreamVerb, Verb};
use crate::words::Words;
use ip_wire::{EthernetAddress, IpAddress, IpEndpoint};
use net_base::{Instant, Medium};

/// What a line of a script says, word by word. A socket is named by its offset among its host's, a frame by its offset among those that
/// its host sent.
#[derive(Drop)]
pub enum Line<'a> {
    /// The medium of the link, and the longest frame of both devices.
    World(Medium, usize),
    /// One socket more on a host.
    Socket(Side, SocketSpec),
    /// The hosts and sockets are made now.
    Start,
    /// Opens a TCP socket passively at a local port.
    Listen(Side, usize, u16),
    /// Opens a TCP socket actively to an endpoint, from a local port.
    Connect(Side, usize, IpEndpoint, u16),
    /// Queues bytes at a TCP socket.
    Send(Side, usize, HexBytes<'a>),
    /// Reads at most so many bytes from a TCP socket.
    Recv(Side, usize, usize),
    /// Closes a TCP or a UDP socket.
    Close(Side, usize),
    /// Aborts a TCP connection.
    Abort(Side, usize),
    /// Asks for the state of a TCP socket.
    State(Side, usize),
    /// Binds a UDP socket to a local port.
    Bind(Side, usize, u16),
    /// Binds an ICMP socket to an identifier.
    Ident(Side, usize, u16),
    /// Queues a datagram for an endpoint.
    SendTo(Side, usize, IpEndpoint, HexBytes<'a>),
    /// Queues an ICMP message for an address.
    SendIcmp(Side, usize, IpAddress, HexBytes<'a>),
    /// Queues an IP packet.
    SendRaw(Side, usize, HexBytes<'a>),
    /// Reads one datagram, message or packet of at most so many bytes.
    RecvFrom(Side, usize, usize),
    /// The host's addresses, in place of those that it had.
    Addrs(Side, Blocks),
    /// The host's hardware address.
    Hw(Side, EthernetAddress),
    /// A default route by this router.
    Route(Side, IpAddress),
    /// Polls a host at an instant, with a budget.
    Poll(Side, Instant, u16),
    /// Asks a host at an instant when it wants to be polled.
    PollAt(Side, Instant),
    /// Hands a sent frame to the other host, with padding after it.
    Deliver(Side, usize, HexBytes<'a>),
    /// The same, with the word at this place of its TCP segment exchanged.
    Damage(Side, usize, usize, u16, HexBytes<'a>),
    /// Hands bytes to a host.
    Noise(Side, HexBytes<'a>),
    /// Room for so many frames more in a host's device.
    Room(Side, usize),
    /// Cuts a sent frame in two at this place of its payload.
    Cut(Side, usize, usize),
}

impl<'a> Line<'a> {
    /// What a line says, without the byte 0a that ends it; None outside the grammar. It takes no memory.
    pub fn read(text: &'a [u8]) -> Option<Line<'a>>
        ensures found { IfSome result (SaysLine text.now) }
        ensures only { (line : Line) → SaysLine text.now line → result ≡ Some line }
    {
        if !text.is_ascii() {
            return None;
        }
        let Ok(text) = str::from_utf8(text) else {
            return None;
        };
        from_words(&mut Words::new(text, ' '))
    }
}

fn from_words<'a>(words: &mut Words<'a>) -> Option<Line<'a>>
    ensures found { IfSome result (SaysWords words.old) }
    ensures only { (line : Line) → SaysWords words.old line → result ≡ Some line }
{
    let verb = words.verb()?;
    arguments(verb, words)
}

// What stands after a verb.
fn arguments<'a>(verb: Verb, words: &mut Words<'a>) -> Option<Line<'a>>
    ensures found { IfSome result (IsLine verb words.old) }
    ensures only { (line : Line) → IsLine verb words.old line → result ≡ Some line }
{
    match verb {
        Verb::World => ended(Line::World(words.medium()?, words.size()?), words),
        Verb::Socket => socket(words.side()?, words.kind()?, words),
        Verb::Start => ended(Line::Start, words),
        Verb::Stream(verb) => stream(verb, words.side()?, words.size()?, words),
        Verb::Datagram(verb) => datagram(verb, words.side()?, words.size()?, words),
        Verb::Host(verb) => host(verb, words.side()?, words),
        Verb::Link(verb) => link(verb, words.side()?, words),
    }
}

// After `H S` of a call on a TCP socket: a row for each verb.
fn stream<'a>(
    verb: StreamVerb,
    side: Side,
    offset: usize,
    words: &mut Words<'a>,
) -> Option<Line<'a>>
    ensures found { IfSome result (IsStream verb side offset words.old) }
    ensures only { (line : Line) → IsStream verb side offset words.old line → result ≡ Some line }
{
    let line = match verb {
        StreamVerb::Listen => Line::Listen(side, offset, words.short()?),
        StreamVerb::Connect => Line::Connect(side, offset, words.endpoint()?, words.short()?),
        StreamVerb::Send => Line::Send(side, offset, words.bytes()?),
        StreamVerb::Recv => Line::Recv(side, offset, words.size()?),
        StreamVerb::Close => Line::Close(side, offset),
        StreamVerb::Abort => Line::Abort(side, offset),
        StreamVerb::State => Line::State(side, offset),
    };
    ended(line, words)
}

// After `H S` of a call on another socket.
fn datagram<'a>(
    verb: DatagramVerb,
    side: Side,
    offset: usize,
    words: &mut Words<'a>,
) -> Option<Line<'a>>
    ensures found { IfSome result (IsDatagram verb side offset words.old) }
    ensures only { (line : Line) → IsDatagram verb side offset words.old line → result ≡ Some line }
{
    let line = match verb {
        DatagramVerb::Bind => Line::Bind(side, offset, words.short()?),
        DatagramVerb::Ident => Line::Ident(side, offset, words.short()?),
        DatagramVerb::SendTo => Line::SendTo(side, offset, words.endpoint()?, words.bytes()?),
        DatagramVerb::SendIcmp => Line::SendIcmp(side, offset, words.address()?, words.bytes()?),
        DatagramVerb::SendRaw => Line::SendRaw(side, offset, words.bytes()?),
        DatagramVerb::RecvFrom => Line::RecvFrom(side, offset, words.size()?),
    };
    ended(line, words)
}

// After `H` of a setting or a poll.
fn host<'a>(verb: HostVerb, side: Side, words: &mut Words<'a>) -> Option<Line<'a>>
    ensures found { IfSome result (IsHost verb side words.old) }
    ensures only { (line : Line) → IsHost verb side words.old line → result ≡ Some line }
{
    let line = match verb {
        HostVerb::Addrs => Line::Addrs(side, words.blocks()?),
        HostVerb::Hw => Line::Hw(side, words.ethernet()?),
        HostVerb::Route => Line::Route(side, words.address()?),
        HostVerb::Poll => Line::Poll(side, words.instant()?, words.short()?),
        HostVerb::PollAt => Line::PollAt(side, words.instant()?),
        HostVerb::Room => Line::Room(side, words.size()?),
    };
    ended(line, words)
}

// After `H` of an act of the link.
fn link<'a>(verb: LinkVerb, side: Side, words: &mut Words<'a>) -> Option<Line<'a>>
    ensures found { IfSome result (IsLink verb side words.old) }
    ensures only { (line : Line) → IsLink verb side words.old line → result ≡ Some line }
{
    let line = match verb {
        LinkVerb::Deliver => Line::Deliver(side, words.size()?, words.bytes()?),
        LinkVerb::Damage => Line::Damage(
            side,
            words.size()?,
            words.size()?,
            words.four_digits()?,
            words.bytes()?,
        ),
        LinkVerb::Noise => Line::Noise(side, words.bytes()?),
        LinkVerb::Cut => Line::Cut(side, words.size()?, words.size()?),
    };
    ended(line, words)
}

// What stands after a socket's kind.
fn socket<'a>(side: Side, kind: SocketKind, words: &mut Words<'a>) -> Option<Line<'a>>
    ensures found { IfSome result (IsSocket side kind words.old) }
    ensures only { (line : Line) → IsSocket side kind words.old line → result ≡ Some line }
{
    let spec = match kind {
        SocketKind::Udp => SocketSpec::Udp(queue_sizes(words)?),
        SocketKind::Icmp => SocketSpec::Icmp(queue_sizes(words)?),
        SocketKind::Raw => {
            SocketSpec::Raw(words.version()?, words.protocol()?, queue_sizes(words)?)
        }
        SocketKind::Tcp => SocketSpec::Tcp(StreamSizes {
            receive_bytes: words.size()?,
            send_bytes: words.size()?,
        }),
    };
    ended(Line::Socket(side, spec), words)
}

// `RP RB TP TB`.
fn queue_sizes(words: &mut Words<'_>) -> Option<QueueSizes>
    ensures found { IfSome result (AreQueueSizes words.old) }
    ensures only { (x : QueueSizes) → AreQueueSizes words.old x → result ≡ Some x }
    ensures rest { OnSome result (words.new ≡ drop 1 (drop 1 (drop 1 (drop 1 words.old)))) }
{
    Some(QueueSizes {
        receive_packets: words.size()?,
        receive_bytes: words.size()?,
        send_packets: words.size()?,
        send_bytes: words.size()?,
    })
}

// What was said, where no word is left.
fn ended<'a>(line: Line<'a>, words: &Words<'_>) -> Option<Line<'a>>
    ensures found { IfSome result (Ends line.entry words.now) }
    ensures only { (x : Line) → Ends line.entry words.now x → result ≡ Some x }
{
    if words.is_empty() { Some(line) } else { None }
}
