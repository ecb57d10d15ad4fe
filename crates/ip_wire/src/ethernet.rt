//! Ethernet II frames (RFC 894).

pub mod field;
pub mod laws;
mod packet;
mod packet_mut;
mod repr;

pub use packet::EthernetFrame;
pub use packet_mut::EthernetFrameMut;
pub use repr::EthernetRepr;
