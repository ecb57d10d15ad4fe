//! What events answer, and why one isn't taken.
ghost use Rattle.std.specs.Prelude.{◌≡◌};
ghost use Rattle.lan.specs.Worlds.AtLink.ErrorTexts.{fault_text, refused_text};

use crate::at_link::history::owned::Bytes;
use ip_wire::{IpAddress, IpEndpoint};
use net_base::Instant;
use std::fmt;
use tcp_block::State;

/// What an event answered.
#[derive(Debug, Drop)]
pub enum Answer {
    Done,
    /// How many bytes were queued.
    Count(usize),
    /// Bytes that were read.
    Bytes(Bytes),
    State(State),
    /// A datagram, and the endpoint that it came from.
    FromEndpoint(IpEndpoint, Bytes),
    /// An ICMP message, and the address that it came from.
    FromAddr(IpAddress, Bytes),
    /// Of a poll: whether a socket's state or queue may have changed.
    Poll(bool),
    /// When the host wants to be polled, if ever.
    At(Option<Instant>),
    /// The call's own refusal.
    Error(Fault),
}

/// A call's own refusal.
#[derive(Clone, Copy, Debug, PartialEq, Eq)]
pub enum Fault {
    /// The socket's state doesn't permit the call.
    InvalidState,
    /// An endpoint isn't specified, or the socket is unbound.
    Unaddressable,
    /// The datagram doesn't fit the queue.
    BufferFull,
    /// No datagram waits.
    Exhausted,
    /// The datagram was longer than asked for, and is gone.
    Truncated,
    /// The remote has closed, and all that it sent was read.
    Finished,
    /// The hardware address isn't of the device's medium.
    Medium,
    /// The address isn't that of one host.
    NotUnicast,
    /// All routes are in use.
    RouteTableFull,
}

impl fmt::Display for Fault {
    ghost use Rattle.std.specs.Prelude.{Some};
    ghost use Rattle.lan.specs.Worlds.AtLink.ErrorTexts.{fault_text};

    ghost output = { λ fault. Some (fault_text fault) };

    fn fmt<W: fmt::Write>(&self, f: &mut fmt::Formatter<W>) -> fmt::Result {
        f.write_str(fault_text(*self))
    }
}

impl std::error::Error for Fault {}

fn fault_text(fault: Fault) -> &'static str
    ensures { result.now ≡ fault_text fault }
{
    match fault {
        Fault::InvalidState => "invalid state",
        Fault::Unaddressable => "unaddressable",
        Fault::BufferFull => "buffer full",
        Fault::Exhausted => "exhausted",
        Fault::Truncated => "truncated",
        Fault::Finished => "operation finished",
        Fault::Medium => "another medium",
        Fault::NotUnicast => "not unicast",
        Fault::RouteTableFull => "route table full",
    }
}

/// Why an event wasn't taken. All is as it was. Where several apply, the first of this list is the answer, and a cut is tested for memory
/// last.
#[derive(Clone, Copy, Debug, PartialEq, Eq)]
pub enum Refused {
    /// The host has no such socket.
    NoSocket,
    /// The socket is of a kind that hasn't this call.
    WrongKind,
    /// The host hasn't sent that frame.
    NoFrame,
    /// The frame isn't a whole TCP segment.
    NotTcp,
    /// No word of the segment stands there.
    Place,
    /// The word's remainder by 65535 would stay.
    SameSum,
    /// The bytes say that they carry TCP or UDP.
    NamesTcpOrUdp,
    /// The TCP socket was opened before.
    OpenedTwice,
    /// Another TCP socket of the host was opened at the local port or to the remote port.
    PortTaken,
    /// The socket would have accepted 2^29 bytes.
    TooManyBytes,
    /// The host might run out of identifications.
    TooManyCut,
    /// The packet says that it carries TCP or UDP.
    RawProtocol,
    /// The time isn't an instant, or lies before the host's last.
    Moment,
    /// A growth was refused.
    Memory,
    /// The frame to be cut isn't an IPv4 packet.
    NotIpv4,
    /// The frame can't be cut there.
    CutPlace,
}

impl fmt::Display for Refused {
    ghost use Rattle.std.specs.Prelude.{Some};
    ghost use Rattle.lan.specs.Worlds.AtLink.ErrorTexts.{refused_text};

    ghost output = { λ refused. Some (refused_text refused) };

    fn fmt<W: fmt::Write>(&self, f: &mut fmt::Formatter<W>) -> fmt::Result {
        f.write_str(refused_text(*self))
    }
}

impl std::error::Error for Refused {}

fn refused_text(refused: Refused) -> &'static str
    ensures { result.now ≡ refused_text refused }
{
    match refused {
        Refused::NoSocket => "no such socket",
        Refused::WrongKind => "wrong kind of socket",
        Refused::NoFrame => "no such frame",
        Refused::NotTcp => "no TCP segment",
        Refused::Place => "no such place",
        Refused::SameSum => "same sum",
        Refused::NamesTcpOrUdp => "names TCP or UDP",
        Refused::OpenedTwice => "opened twice",
        Refused::PortTaken => "port taken",
        Refused::TooManyBytes => "too many bytes",
        Refused::TooManyCut => "too many datagrams",
        Refused::RawProtocol => "raw TCP or UDP",
        Refused::Moment => "no moment, or before the host's last",
        Refused::Memory => "out of memory",
        Refused::NotIpv4 => "no IPv4 packet",
        Refused::CutPlace => "no place for a cut",
    }
}
