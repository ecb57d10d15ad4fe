//! What a message is, by its type, and why an error was sent, by its code.
ghost use Rattle.std.specs.Prelude.{◌≡◌, Some};
ghost use Rattle.wire_icmpv4.specs.Icmpv4Codes.{message_number, message_of, unreachable_number, unreachable_of, exceeded_number, exceeded_of, message_text};
ghost use Rattle.wire_icmpv4.specs.Icmpv4Codes.{unreachable_text, exceeded_text};

use std::fmt;

/// What a message is, by its type.
#[derive(Clone, Copy, Debug, PartialEq, Eq, PartialOrd, Ord, Hash)]
pub enum Icmpv4Message {
    EchoReply,
    DstUnreachable,
    Redirect,
    EchoRequest,
    RouterAdvert,
    RouterSolicit,
    TimeExceeded,
    ParamProblem,
    Timestamp,
    TimestampReply,
    /// Any other number. A known one here stands for the same message as its own variant, and is
    /// not equal to it.
    Unknown(u8),
}

impl From<u8> for Icmpv4Message {
    ghost from_gives = { λ n message. message ≡ message_of n };

    fn from(value: u8) -> Icmpv4Message {
        match value {
            0 => Icmpv4Message::EchoReply,
            3 => Icmpv4Message::DstUnreachable,
            5 => Icmpv4Message::Redirect,
            8 => Icmpv4Message::EchoRequest,
            9 => Icmpv4Message::RouterAdvert,
            10 => Icmpv4Message::RouterSolicit,
            11 => Icmpv4Message::TimeExceeded,
            12 => Icmpv4Message::ParamProblem,
            13 => Icmpv4Message::Timestamp,
            14 => Icmpv4Message::TimestampReply,
            other => Icmpv4Message::Unknown(other),
        }
    }
}

impl From<Icmpv4Message> for u8 {
    ghost from_gives = { λ message n. n ≡ message_number message };

    fn from(value: Icmpv4Message) -> u8 {
        match value {
            Icmpv4Message::EchoReply => 0,
            Icmpv4Message::DstUnreachable => 3,
            Icmpv4Message::Redirect => 5,
            Icmpv4Message::EchoRequest => 8,
            Icmpv4Message::RouterAdvert => 9,
            Icmpv4Message::RouterSolicit => 10,
            Icmpv4Message::TimeExceeded => 11,
            Icmpv4Message::ParamProblem => 12,
            Icmpv4Message::Timestamp => 13,
            Icmpv4Message::TimestampReply => 14,
            Icmpv4Message::Unknown(other) => other,
        }
    }
}

impl fmt::Display for Icmpv4Message {
    ghost output = { λ message. Some (message_text message) };

    fn fmt<W: fmt::Write>(&self, f: &mut fmt::Formatter<W>) -> fmt::Result {
        match self {
            Icmpv4Message::EchoReply => write!(f, "echo reply"),
            Icmpv4Message::DstUnreachable => write!(f, "destination unreachable"),
            Icmpv4Message::Redirect => write!(f, "redirect"),
            Icmpv4Message::EchoRequest => write!(f, "echo request"),
            Icmpv4Message::RouterAdvert => write!(f, "router advertisement"),
            Icmpv4Message::RouterSolicit => write!(f, "router solicitation"),
            Icmpv4Message::TimeExceeded => write!(f, "time exceeded"),
            Icmpv4Message::ParamProblem => write!(f, "parameter problem"),
            Icmpv4Message::Timestamp => write!(f, "timestamp"),
            Icmpv4Message::TimestampReply => write!(f, "timestamp reply"),
            Icmpv4Message::Unknown(number) => write!(f, "{number}"),
        }
    }
}

/// Why a destination can't be reached, by the code of the message.
#[derive(Clone, Copy, Debug, PartialEq, Eq, PartialOrd, Ord, Hash)]
pub enum Icmpv4DstUnreachable {
    NetUnreachable,
    HostUnreachable,
    ProtoUnreachable,
    PortUnreachable,
    /// The packet had to be cut, and its don't-fragment flag was set.
    FragRequired,
    SrcRouteFailed,
    DstNetUnknown,
    DstHostUnknown,
    SrcHostIsolated,
    NetProhibited,
    HostProhibited,
    /// The network can't be reached for this type of service.
    NetUnreachToS,
    /// The host can't be reached for this type of service.
    HostUnreachToS,
    /// Communication is prohibited by a filter.
    CommProhibited,
    HostPrecedViol,
    PrecedCutoff,
    /// Any other number. A known one here stands for the same reason as its own variant, and is
    /// not equal to it.
    Unknown(u8),
}

impl From<u8> for Icmpv4DstUnreachable {
    ghost from_gives = { λ n reason. reason ≡ unreachable_of n };

    fn from(value: u8) -> Icmpv4DstUnreachable {
        match value {
            0 => Icmpv4DstUnreachable::NetUnreachable,
            1 => Icmpv4DstUnreachable::HostUnreachable,
            2 => Icmpv4DstUnreachable::ProtoUnreachable,
            3 => Icmpv4DstUnreachable::PortUnreachable,
            4 => Icmpv4DstUnreachable::FragRequired,
            5 => Icmpv4DstUnreachable::SrcRouteFailed,
            6 => Icmpv4DstUnreachable::DstNetUnknown,
            7 => Icmpv4DstUnreachable::DstHostUnknown,
            8 => Icmpv4DstUnreachable::SrcHostIsolated,
            9 => Icmpv4DstUnreachable::NetProhibited,
            10 => Icmpv4DstUnreachable::HostProhibited,
            11 => Icmpv4DstUnreachable::NetUnreachToS,
            12 => Icmpv4DstUnreachable::HostUnreachToS,
            13 => Icmpv4DstUnreachable::CommProhibited,
            14 => Icmpv4DstUnreachable::HostPrecedViol,
            15 => Icmpv4DstUnreachable::PrecedCutoff,
            other => Icmpv4DstUnreachable::Unknown(other),
        }
    }
}

impl From<Icmpv4DstUnreachable> for u8 {
    ghost from_gives = { λ reason n. n ≡ unreachable_number reason };

    fn from(value: Icmpv4DstUnreachable) -> u8 {
        match value {
            Icmpv4DstUnreachable::NetUnreachable => 0,
            Icmpv4DstUnreachable::HostUnreachable => 1,
            Icmpv4DstUnreachable::ProtoUnreachable => 2,
            Icmpv4DstUnreachable::PortUnreachable => 3,
            Icmpv4DstUnreachable::FragRequired => 4,
            Icmpv4DstUnreachable::SrcRouteFailed => 5,
            Icmpv4DstUnreachable::DstNetUnknown => 6,
            Icmpv4DstUnreachable::DstHostUnknown => 7,
            Icmpv4DstUnreachable::SrcHostIsolated => 8,
            Icmpv4DstUnreachable::NetProhibited => 9,
            Icmpv4DstUnreachable::HostProhibited => 10,
            Icmpv4DstUnreachable::NetUnreachToS => 11,
            Icmpv4DstUnreachable::HostUnreachToS => 12,
            Icmpv4DstUnreachable::CommProhibited => 13,
            Icmpv4DstUnreachable::HostPrecedViol => 14,
            Icmpv4DstUnreachable::PrecedCutoff => 15,
            Icmpv4DstUnreachable::Unknown(other) => other,
        }
    }
}

impl fmt::Display for Icmpv4DstUnreachable {
    ghost output = { λ reason. Some (unreachable_text reason) };

    fn fmt<W: fmt::Write>(&self, f: &mut fmt::Formatter<W>) -> fmt::Result {
        match self {
            Icmpv4DstUnreachable::NetUnreachable => write!(f, "network unreachable"),
            Icmpv4DstUnreachable::HostUnreachable => write!(f, "host unreachable"),
            Icmpv4DstUnreachable::ProtoUnreachable => write!(f, "protocol unreachable"),
            Icmpv4DstUnreachable::PortUnreachable => write!(f, "port unreachable"),
            Icmpv4DstUnreachable::FragRequired => write!(f, "fragmentation needed and DF set"),
            Icmpv4DstUnreachable::SrcRouteFailed => write!(f, "source route failed"),
            Icmpv4DstUnreachable::DstNetUnknown => write!(f, "destination network unknown"),
            Icmpv4DstUnreachable::DstHostUnknown => write!(f, "destination host unknown"),
            Icmpv4DstUnreachable::SrcHostIsolated => write!(f, "source host isolated"),
            Icmpv4DstUnreachable::NetProhibited => write!(f, "network administratively prohibited"),
            Icmpv4DstUnreachable::HostProhibited => write!(f, "host administratively prohibited"),
            Icmpv4DstUnreachable::NetUnreachToS => write!(
                f,
                "network unreachable for type of service"
            ),
            Icmpv4DstUnreachable::HostUnreachToS => write!(
                f,
                "host unreachable for type of service"
            ),
            Icmpv4DstUnreachable::CommProhibited => write!(
                f,
                "communication administratively prohibited"
            ),
            Icmpv4DstUnreachable::HostPrecedViol => write!(f, "host precedence violation"),
            Icmpv4DstUnreachable::PrecedCutoff => write!(f, "precedence cutoff in effect"),
            Icmpv4DstUnreachable::Unknown(number) => write!(f, "{number}"),
        }
    }
}

/// Which time was exceeded, by the code of the message.
#[derive(Clone, Copy, Debug, PartialEq, Eq, PartialOrd, Ord, Hash)]
pub enum Icmpv4TimeExceeded {
    /// The time to live ended on the way.
    TtlExpired,
    /// The pieces of a datagram weren't all there in time.
    FragExpired,
    /// Any other number. A known one here stands for the same reason as its own variant, and is
    /// not equal to it.
    Unknown(u8),
}

impl From<u8> for Icmpv4TimeExceeded {
    ghost from_gives = { λ n reason. reason ≡ exceeded_of n };

    fn from(value: u8) -> Icmpv4TimeExceeded {
        match value {
            0 => Icmpv4TimeExceeded::TtlExpired,
            1 => Icmpv4TimeExceeded::FragExpired,
            other => Icmpv4TimeExceeded::Unknown(other),
        }
    }
}

impl From<Icmpv4TimeExceeded> for u8 {
    ghost from_gives = { λ reason n. n ≡ exceeded_number reason };

    fn from(value: Icmpv4TimeExceeded) -> u8 {
        match value {
            Icmpv4TimeExceeded::TtlExpired => 0,
            Icmpv4TimeExceeded::FragExpired => 1,
            Icmpv4TimeExceeded::Unknown(other) => other,
        }
    }
}

impl fmt::Display for Icmpv4TimeExceeded {
    ghost output = { λ reason. Some (exceeded_text reason) };

    fn fmt<W: fmt::Write>(&self, f: &mut fmt::Formatter<W>) -> fmt::Result {
        match self {
            Icmpv4TimeExceeded::TtlExpired => write!(f, "time to live exceeded in transit"),
            Icmpv4TimeExceeded::FragExpired => write!(f, "fragment reassembly time exceeded"),
            Icmpv4TimeExceeded::Unknown(number) => write!(f, "{number}"),
        }
    }
}
