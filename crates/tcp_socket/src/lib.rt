//! A TCP socket (RFC 9293).
#![tactic(auto)]

mod calls;
mod ends;
mod fast_path;
mod getters;
mod offer;
mod on_segment;
mod payload;
mod receive_buffer;
mod settings;
mod socket;

pub use fast_path::NotInFastPath;
pub use offer::OfferedSegment;
pub use on_segment::Due;
pub use receive_buffer::ReceiveBuffer;
pub use socket::{Socket, SocketBuffer};
pub use socket_context::SegmentPayload;
pub use tcp_block::{
    CongestionControl, ConnectError, EndReason, ListenError, RecvError, Reno, Reply, SendError,
    State,
};
