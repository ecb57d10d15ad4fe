//! IPv4 packets (RFC 791). Options are read past and never written.

pub mod field;
mod fragment;
pub mod laws;
mod packet;
mod packet_mut;
mod repr;

pub use fragment::Ipv4Fragment;
pub use packet::Ipv4Packet;
pub use packet_mut::Ipv4PacketMut;
pub use repr::Ipv4Repr;
