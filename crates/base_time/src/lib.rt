//! Time in whole numbers of microseconds, and random words.
#![tactic(auto)]

mod duration;
mod instant;
pub mod laws;
mod rand;
mod text;

pub use duration::Duration;
pub use instant::Instant;
pub use rand::Rand;
