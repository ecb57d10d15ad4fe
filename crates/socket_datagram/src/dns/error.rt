//! What is refused.
ghost use Rattle.std.specs.Prelude.{◌≡◌};
ghost use Rattle.socket_datagram.specs.DnsClient.Starts.{refusal_of};

use thiserror::Error;
use wire_dns::DnsNameError;

/// Why a query isn't started.
#[derive(Clone, Copy, Debug, PartialEq, Eq, Error)]
pub enum StartQueryError {
    /// The socket has a query.
    #[error("no free slot")]
    NoFreeSlot,
    /// A label of the name has no bytes, or more than 63.
    #[error("invalid name")]
    InvalidName,
    /// The name has more than 255 bytes.
    #[error("name too long")]
    NameTooLong,
}

impl From<DnsNameError> for StartQueryError {
    ghost from_gives = { λ why error. error ≡ refusal_of why };

    fn from(value: DnsNameError) -> StartQueryError {
        match value {
            DnsNameError::Invalid => StartQueryError::InvalidName,
            DnsNameError::TooLong => StartQueryError::NameTooLong,
        }
    }
}

/// Why there is no result.
#[derive(Clone, Copy, Debug, PartialEq, Eq, Error)]
pub enum GetQueryResultError {
    /// No answer came yet.
    #[error("pending")]
    Pending,
    /// The name has no address, or there is no query; without the host requirements also that no server answered.
    #[error("failed")]
    Failed,
    /// No server said whether the name has an address: each refused, failed, cut its answer short, or was silent. It is told under the host
    /// requirements alone.
    #[error("no server answered")]
    Unanswered,
}
