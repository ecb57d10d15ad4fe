//! Why a call of a socket is refused.
use thiserror::Error;

/// Why `listen` refused.
#[derive(Clone, Copy, Debug, PartialEq, Eq, Error)]
pub enum ListenError {
    /// The socket is open.
    #[error("invalid state")]
    InvalidState,
    /// The endpoint names no port.
    #[error("unaddressable destination")]
    Unaddressable,
}

/// Why `connect` refused.
#[derive(Clone, Copy, Debug, PartialEq, Eq, Error)]
pub enum ConnectError {
    /// The socket is open.
    #[error("invalid state")]
    InvalidState,
    /// A port is 0, an address is unspecified, or there is no source address of the family.
    #[error("unaddressable destination")]
    Unaddressable,
}

/// Why no bytes were taken for sending.
#[derive(Clone, Copy, Debug, PartialEq, Eq, Error)]
pub enum SendError {
    /// The egress path isn't open.
    #[error("invalid state")]
    InvalidState,
}

/// Why no bytes were read.
#[derive(Clone, Copy, Debug, PartialEq, Eq, Error)]
pub enum RecvError {
    /// The ingress path isn't open.
    #[error("invalid state")]
    InvalidState,
    /// The remote has closed its way, and all that it sent was read.
    #[error("operation finished")]
    Finished,
}
