//! Two TCP sockets over whatever lies between: the events that can happen to them, what each does, and what holds of every list of them.

mod bytes;
mod event;
pub mod examples;
pub mod laws;

pub use bytes::Bytes;
pub use event::{PairAnswer, PairEvent, PairRefused, SentSegment, Side, TcpFault, TcpSetting};
