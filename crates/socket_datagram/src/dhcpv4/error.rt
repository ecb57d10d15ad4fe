//! What is refused.
use thiserror::Error;

/// Why options, or a list of codes, aren't taken.
#[derive(Clone, Copy, Debug, PartialEq, Eq, Error)]
pub enum OptionsError {
    /// The client writes the option of this code itself, or the code is that of no option that may be given: 0 is a pad and 255
    /// the end, and 52 gives other fields over to options.
    #[error("reserved code")]
    Reserved,
    /// What is inside an option has more than 255 bytes.
    #[error("option too long")]
    TooLong,
    /// The message would be longer than the 548 bytes that each server takes.
    #[error("no room")]
    NoRoom,
}
