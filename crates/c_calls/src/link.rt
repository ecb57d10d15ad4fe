//! A device in memory: its caller pushes the frames in that came, and fetches those that are to go.

mod device;
mod error;
mod frame;
mod queue;

pub use device::{FrameLink, FrameTxToken};
pub use error::{FetchError, PushError};
pub use frame::FrameRxToken;
