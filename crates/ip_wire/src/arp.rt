//! ARP packets (RFC 826).

pub mod field;
mod kinds;
pub mod laws;
mod packet;
mod packet_mut;
mod repr;

pub use kinds::{ArpHardware, ArpOperation};
pub use packet::ArpPacket;
pub use packet_mut::ArpPacketMut;
pub use repr::ArpRepr;
