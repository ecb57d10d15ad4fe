//! What a message is for.
ghost use Rattle.std.specs.Prelude.{◌≡◌, ◌<◌, ◌↔◌, IsTrue, Some};
ghost use Rattle.wire_icmpv6.specs.Message.{message_number, message_of, header_len_of, IsKnown, is_neighbor_number, message_text};

use std::fmt;

/// What a message is for, by its type.
#[derive(Clone, Copy, Debug, PartialEq, Eq, PartialOrd, Ord, Hash)]
pub enum Icmpv6Message {
    DstUnreachable,
    PktTooBig,
    TimeExceeded,
    ParamProblem,
    EchoRequest,
    EchoReply,
    MldQuery,
    RouterSolicit,
    RouterAdvert,
    NeighborSolicit,
    NeighborAdvert,
    Redirect,
    MldReport,
    RplControl,
    /// Any other type. A known one here stands for the same messages as its own variant, and is
    /// not equal to it.
    Unknown(u8),
}

impl Icmpv6Message {
    /// Whether the message tells of an error, and doesn't only give information (RFC 4443, section
    /// 2.1).
    pub fn is_error(&self) -> bool
        ensures { IsTrue result ↔ (message_number self.now < 128) }
    {
        u8::from(*self) < 0x80
    }

    /// Whether this is a message of neighbour discovery, whatever it is called by: `Unknown(135)` is a
    /// neighbour solicitation too.
    pub const fn is_ndisc(&self) -> bool
        ensures { result ≡ is_neighbor_number (message_number self.now) }
    {
        match self {
            Icmpv6Message::RouterSolicit
            | Icmpv6Message::RouterAdvert
            | Icmpv6Message::NeighborSolicit
            | Icmpv6Message::NeighborAdvert
            | Icmpv6Message::Redirect => true,
            Icmpv6Message::Unknown(number) => *number >= 133 && *number <= 137,
            _ => false,
        }
    }

    /// Whether a length is known for the header of such messages.
    pub(crate) const fn is_known(&self) -> bool
        ensures { IsTrue result ↔ IsKnown self.now }
    {
        match self {
            Icmpv6Message::Unknown(_) => false,
            _ => true,
        }
    }

    /// The length of the header of such messages.
    pub(crate) const fn header_len(&self) -> usize
        ensures { result ≡ header_len_of self.now }
    {
        match self {
            Icmpv6Message::DstUnreachable
            | Icmpv6Message::PktTooBig
            | Icmpv6Message::TimeExceeded
            | Icmpv6Message::ParamProblem
            | Icmpv6Message::EchoRequest
            | Icmpv6Message::EchoReply
            | Icmpv6Message::RouterSolicit
            | Icmpv6Message::MldReport => 8,
            Icmpv6Message::RouterAdvert => 16,
            Icmpv6Message::NeighborSolicit | Icmpv6Message::NeighborAdvert => 24,
            Icmpv6Message::MldQuery => 28,
            Icmpv6Message::Redirect => 40,
            Icmpv6Message::RplControl | Icmpv6Message::Unknown(_) => 4,
        }
    }
}

impl From<u8> for Icmpv6Message {
    ghost from_gives = { λ n message. message ≡ message_of n };

    fn from(value: u8) -> Icmpv6Message {
        match value {
            0x01 => Icmpv6Message::DstUnreachable,
            0x02 => Icmpv6Message::PktTooBig,
            0x03 => Icmpv6Message::TimeExceeded,
            0x04 => Icmpv6Message::ParamProblem,
            0x80 => Icmpv6Message::EchoRequest,
            0x81 => Icmpv6Message::EchoReply,
            0x82 => Icmpv6Message::MldQuery,
            0x85 => Icmpv6Message::RouterSolicit,
            0x86 => Icmpv6Message::RouterAdvert,
            0x87 => Icmpv6Message::NeighborSolicit,
            0x88 => Icmpv6Message::NeighborAdvert,
            0x89 => Icmpv6Message::Redirect,
            0x8f => Icmpv6Message::MldReport,
            0x9b => Icmpv6Message::RplControl,
            other => Icmpv6Message::Unknown(other),
        }
    }
}

impl From<Icmpv6Message> for u8 {
    ghost from_gives = { λ message n. n ≡ message_number message };

    fn from(value: Icmpv6Message) -> u8 {
        match value {
            Icmpv6Message::DstUnreachable => 0x01,
            Icmpv6Message::PktTooBig => 0x02,
            Icmpv6Message::TimeExceeded => 0x03,
            Icmpv6Message::ParamProblem => 0x04,
            Icmpv6Message::EchoRequest => 0x80,
            Icmpv6Message::EchoReply => 0x81,
            Icmpv6Message::MldQuery => 0x82,
            Icmpv6Message::RouterSolicit => 0x85,
            Icmpv6Message::RouterAdvert => 0x86,
            Icmpv6Message::NeighborSolicit => 0x87,
            Icmpv6Message::NeighborAdvert => 0x88,
            Icmpv6Message::Redirect => 0x89,
            Icmpv6Message::MldReport => 0x8f,
            Icmpv6Message::RplControl => 0x9b,
            Icmpv6Message::Unknown(other) => other,
        }
    }
}

impl fmt::Display for Icmpv6Message {
    ghost output = { λ message. Some (message_text message) };

    fn fmt<W: fmt::Write>(&self, f: &mut fmt::Formatter<W>) -> fmt::Result {
        match self {
            Icmpv6Message::DstUnreachable => write!(f, "destination unreachable"),
            Icmpv6Message::PktTooBig => write!(f, "packet too big"),
            Icmpv6Message::TimeExceeded => write!(f, "time exceeded"),
            Icmpv6Message::ParamProblem => write!(f, "parameter problem"),
            Icmpv6Message::EchoRequest => write!(f, "echo request"),
            Icmpv6Message::EchoReply => write!(f, "echo reply"),
            Icmpv6Message::MldQuery => write!(f, "multicast listener query"),
            Icmpv6Message::RouterSolicit => write!(f, "router solicitation"),
            Icmpv6Message::RouterAdvert => write!(f, "router advertisement"),
            Icmpv6Message::NeighborSolicit => write!(f, "neighbor solicitation"),
            Icmpv6Message::NeighborAdvert => write!(f, "neighbor advertisement"),
            Icmpv6Message::Redirect => write!(f, "redirect"),
            Icmpv6Message::MldReport => write!(f, "multicast listener report"),
            Icmpv6Message::RplControl => write!(f, "RPL control"),
            Icmpv6Message::Unknown(number) => write!(f, "{number}"),
        }
    }
}
