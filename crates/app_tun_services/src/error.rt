//! How serving ends early.
use crate::link::TurnError;
use thiserror::Error;

/// Why a host ended before its input.
#[derive(Clone, Copy, Debug, PartialEq, Eq, Drop, Error)]
pub enum ServeError {
    /// A turn couldn't be read.
    #[error("{0}")]
    Turn(TurnError),
    /// The first turn doesn't bring settings.
    #[error("the first turn has no settings")]
    Settings,
    /// One of the settings' addresses is none that a host can have.
    #[error("an address isn't a host's")]
    Address,
    /// The settings' hardware address isn't that of one hardware address.
    #[error("the hardware address isn't a station's")]
    Hardware,
    /// There is no memory for the host's buffers.
    #[error("out of memory")]
    Memory,
    /// The writer failed.
    #[error("the writer failed")]
    Writer,
    /// More turns came than are counted: 2^64 - 1.
    #[error("too many turns")]
    Turns,
}
