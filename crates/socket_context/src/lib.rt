//! What the sockets share with the interface that polls them: what they may ask of it, the packets that
//! they offer, and when they want to be polled.
#![tactic(auto)]

pub mod addresses;
mod context;
pub mod laws;
mod offer;
mod packet;
mod poll_at;
mod segment_payload;
pub mod widths;

pub use context::Context;
pub use offer::Offer;
pub use packet::{IpPayload, Packet};
pub use poll_at::PollAt;
pub use segment_payload::SegmentPayload;
