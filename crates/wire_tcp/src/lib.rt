//! TCP segments: views of their bytes, their options, and their headers as values (RFC 9293).
#![tactic(auto)]

mod control;
mod emit;
pub mod field;
mod header;
pub mod laws;
mod option;
mod packet;
mod packet_mut;
mod repr;
mod timestamp;

pub use control::TcpControl;
pub use header::TcpHeader;
pub use option::{MAX_WINDOW_SCALE, TcpOption, TcpOptions};
pub use packet::TcpPacket;
pub use packet_mut::TcpPacketMut;
pub use repr::TcpRepr;
pub use timestamp::{TcpTimestampGenerator, TcpTimestampRepr};
