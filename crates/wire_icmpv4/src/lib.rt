//! Control messages of IPv4 (RFC 792): views of their bytes, and echo and error messages as values.
#![tactic(auto)]

pub mod field;
mod header;
pub mod laws;
mod message;
mod packet;
mod packet_mut;
mod repr;

pub use header::Icmpv4Header;
pub use message::{Icmpv4DstUnreachable, Icmpv4Message, Icmpv4TimeExceeded};
pub use packet::Icmpv4Packet;
pub use packet_mut::Icmpv4PacketMut;
pub use repr::Icmpv4Repr;
