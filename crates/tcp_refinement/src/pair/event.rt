//! What can happen to two sockets, what each event answers, and why one is refused.
use crate::pair::Bytes;
use ip_wire::{IpEndpoint, IpListenEndpoint, IpRepr, TcpHeader, TcpTimestampGenerator};
use net_base::{Duration, Instant};
use tcp_block::CongestionControl;
use thiserror::Error;

/// One of the two sockets.
#[derive(Clone, Copy, Debug, PartialEq, Eq)]
pub enum Side {
    A,
    B,
}

/// What a user sets of a socket.
#[derive(Clone, Copy, Debug, PartialEq, Eq)]
pub enum TcpSetting {
    Timeout(Option<Duration>),
    AckDelay(Option<Duration>),
    KeepAlive(Option<Duration>),
    NagleEnabled(bool),
    /// A limit of 0 counts as none.
    HopLimit(Option<u8>),
    TsvalGenerator(Option<TcpTimestampGenerator>),
    CongestionControl(CongestionControl),
    PauseSynack(bool),
    /// After how many timeouts without an answer it gives up.
    Retries(Option<u8>),
    /// The least retransmission timeout.
    MinRto(Duration),
    /// Whether round trips are taken in microseconds.
    FineTimer(bool),
}

/// What happens to the pair: a call of a user on one socket, time that passes at a host, an offer with its settling, or a delivery.
#[derive(Debug, Drop)]
pub enum PairEvent {
    Listen(Side, IpListenEndpoint),
    /// To the remote endpoint, from the local one.
    Connect(Side, IpEndpoint, IpListenEndpoint),
    Send(Side, Bytes),
    /// Reads at most so many bytes.
    Recv(Side, usize),
    Close(Side),
    Abort(Side),
    TcpSetting(Side, TcpSetting),
    /// The clock of the side's host goes on to this instant. The socket isn't asked.
    Clock(Side, Instant),
    /// The socket is asked for a segment at this instant, and told whether it was sent.
    Offer(Side, Instant, bool),
    /// Hands the segment of this number, of those that the named side sent, to the other side.
    Deliver(Side, usize),
}

/// What an event answered.
#[derive(Debug, Drop)]
pub enum PairAnswer {
    Done,
    /// So many bytes were taken for sending.
    Count(usize),
    /// These bytes were read.
    Bytes(Bytes),
    /// The call's own refusal.
    Error(TcpFault),
}

/// A call's own refusal.
#[derive(Clone, Copy, Debug, PartialEq, Eq, Error)]
pub enum TcpFault {
    /// The state of the socket doesn't allow the call.
    #[error("invalid state")]
    InvalidState,
    /// An endpoint names no port, or no address to go from or to.
    #[error("unaddressable destination")]
    Unaddressable,
    /// The peer has closed its way, and all that it wrote was read.
    #[error("operation finished")]
    Finished,
}

/// Why an event wasn't taken. Nothing has changed.
#[derive(Clone, Copy, Debug, PartialEq, Eq, Error)]
pub enum PairRefused {
    /// The side has sent no segment of this number.
    #[error("no such segment")]
    NoSegment,
    /// The socket was opened before.
    #[error("opened twice")]
    OpenedTwice,
    /// The bytes that it accepted and these would be 2^29 or more.
    #[error("too many bytes")]
    TooManyBytes,
    /// Out of range, or before the side's last instant.
    #[error("moment out of range")]
    Moment,
    /// A growth was refused.
    #[error("out of memory")]
    Memory,
}

/// A segment that a side sent.
#[derive(Debug, Drop)]
pub struct SentSegment {
    pub header: IpRepr,
    pub segment: TcpHeader,
    pub bytes: Bytes,
}
