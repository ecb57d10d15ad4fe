//! IPv6 packets (RFC 8200). Extension headers are part of the payload.

pub mod field;
pub mod laws;
mod packet;
mod packet_mut;
mod repr;

pub use packet::Ipv6Packet;
pub use packet_mut::Ipv6PacketMut;
pub use repr::Ipv6Repr;
