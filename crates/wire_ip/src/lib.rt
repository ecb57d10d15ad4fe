//! Packets of the Internet protocols: user datagrams, IPv4 and IPv6.
#![tactic(auto)]

pub mod ip;
pub mod ipv4;
pub mod ipv6;
mod parts;
mod pseudo_sums;
pub mod udp;

pub use ip::IpRepr;
pub use ipv4::{Ipv4Fragment, Ipv4Packet, Ipv4PacketMut, Ipv4Repr};
pub use ipv6::{Ipv6Packet, Ipv6PacketMut, Ipv6Repr};
use std::ops::Range;
pub use udp::{UdpPacket, UdpPacketMut, UdpRepr};

/// The offsets of a field in a header.
pub type Field = Range<usize>;
