//! User datagrams (RFC 768).

pub mod field;
pub mod laws;
mod packet;
mod packet_mut;
mod repr;

pub use packet::UdpPacket;
pub use packet_mut::UdpPacketMut;
pub use repr::UdpRepr;
