//! What a socket has offered and was not told the end of, and what it answers to a segment.
use ip_wire::{IpRepr, TcpHeader};
use net_base::Instant;

/// Why a segment is offered.
#[derive(Clone, Copy, Debug, PartialEq, Eq)]
pub enum OfferKind {
    /// An abort, or a user timeout.
    Reset,
    /// A SYN, or a SYN and ACK.
    Syn,
    /// The third duplicate acknowledgement.
    FastRetransmission,
    /// Bytes, or a FIN, or both.
    Payload,
    /// The window is closed.
    Probe,
    /// An acknowledgement is due.
    Ack,
    WindowUpdate,
    KeepAlive,
}

/// An offer that isn't settled: what it is for, when it was made, and its packet, whose payload is this
/// part of the send queue, or of a keep-alive one byte 0.
#[derive(Clone, Copy, Debug, PartialEq, Eq)]
pub struct OpenOffer {
    pub kind: OfferKind,
    pub instant: Instant,
    pub header: IpRepr,
    pub segment: TcpHeader,
    pub offset: usize,
    pub len: usize,
}

/// A segment without payload that answers one that came.
#[derive(Clone, Copy, PartialEq, Eq)]
pub struct Reply {
    pub header: IpRepr,
    pub segment: TcpHeader,
}
