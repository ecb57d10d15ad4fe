//! Why a frame is neither taken nor handed out.
use thiserror::Error;

/// Why a frame wasn't pushed.
#[derive(Clone, Copy, Debug, Error)]
pub enum PushError {
    /// It is longer than any frame that is read.
    #[error("the frame is too long")]
    TooLong,
    /// As many frames wait as may.
    #[error("as many frames wait as may")]
    Full,
    /// There is no memory for it.
    #[error("out of memory")]
    Memory,
}

/// Why no frame was fetched.
#[derive(Clone, Copy, Debug, Error)]
pub enum FetchError {
    /// No frame is to go.
    #[error("no frame is to go")]
    Empty,
    /// The first frame is longer than the slice. It stays.
    #[error("the slice is too short for the frame")]
    TooShort,
}
