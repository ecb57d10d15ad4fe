//! Why a socket refused, whatever kind it is of.
ghost use Rattle.std.specs.Prelude.{◌≡◌};
ghost use Rattle.socket_datagram.specs.declared.error.SendError.TheVariants as Send;

use net_base::Full;
use thiserror::Error;

/// Why `bind` refused.
#[derive(Clone, Copy, Debug, PartialEq, Eq, Error)]
pub enum BindError {
    /// The socket is bound already.
    #[error("invalid state")]
    InvalidState,
    /// Nothing can be for the endpoint.
    #[error("unaddressable")]
    Unaddressable,
}

/// Why a datagram wasn't queued.
#[derive(Clone, Copy, Debug, PartialEq, Eq, Error)]
pub enum SendError {
    /// The socket is unbound where it has to be bound, or the receiver has no port or no address.
    #[error("unaddressable")]
    Unaddressable,
    /// The datagram doesn't fit the queue.
    #[error("buffer full")]
    BufferFull,
}

impl From<Full> for SendError {
    ghost from_gives = { λ full error. error ≡ Send.BufferFull };

    fn from(_value: Full) -> SendError {
        SendError::BufferFull
    }
}

/// Why no datagram was read.
#[derive(Clone, Copy, Debug, PartialEq, Eq, Error)]
pub enum RecvError {
    /// No datagram waits.
    #[error("exhausted")]
    Exhausted,
    /// The datagram is longer than the slice.
    #[error("truncated")]
    Truncated,
}
