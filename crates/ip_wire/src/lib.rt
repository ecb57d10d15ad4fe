//! Packet formats, addresses, their texts and checksums.
//!
//! Its own are the formats of a link: Ethernet frames, ARP packets and the header of a fragment of an IPv6
//! datagram. It re-exports the items of its members: `wire_address`, `wire_ip` and `wire_tcp`. A crate
//! above names `ip_wire` alone, in `crates.txt` and in its code, as `ip_wire::Ipv4Packet`. In clauses,
//! `specs/` and `proofs/` all definitions are `Rattle.ip_wire.specs.Udp`, `.Ipv4`, `.Address` and so
//! on, one file a format, and each type of a member that a definition names is a module of its own
//! name, as `Rattle.ip_wire.specs.UdpRepr.{UdpRepr}` and `Rattle.ip_wire.specs.IpAddress.TheVariants`.
#![tactic(auto)]

pub mod arp;
pub mod ethernet;
pub mod ipv6_fragment;
pub mod laws;
mod parts;

pub use arp::{
    ArpHardware, ArpOperation, ArpPacket, ArpPacketMut, ArpRepr, field as arp_field,
    laws as arp_laws,
};
pub use ethernet::field::HEADER_LEN as ETHERNET_HEADER_LEN;
pub use ethernet::{
    EthernetFrame, EthernetFrameMut, EthernetRepr, field as ethernet_field, laws as ethernet_laws,
};
pub use ipv6_fragment::field::HEADER_LEN as IPV6_FRAGMENT_HEADER_LEN;
pub use ipv6_fragment::{
    Ipv6FragmentHeader, Ipv6FragmentHeaderMut, Ipv6FragmentRepr, field as ipv6_fragment_field,
    laws as ipv6_fragment_laws,
};
use std::ops::{Range, RangeFrom};
pub use wire_address::{
    AddressExt, Error, EthernetAddress, EthernetProtocol, HardwareAddress, IPV4_MIN_MTU,
    IPV4_MULTICAST_ALL_ROUTERS, IPV4_MULTICAST_ALL_SYSTEMS, IPV6_LINK_LOCAL_ALL_MLDV2_ROUTERS,
    IPV6_LINK_LOCAL_ALL_NODES, IPV6_LINK_LOCAL_ALL_ROUTERS, IPV6_MIN_MTU, IpAddress, IpCidr,
    IpEndpoint, IpListenEndpoint, IpProtocol, IpVersion, Ipv4Address, Ipv4Cidr, Ipv4FragKey,
    Ipv6Address, Ipv6Cidr, MAX_HARDWARE_ADDRESS_LEN, RawHardwareAddress, SeqNumber, checksum,
    laws as address_laws, network_order, seq_number, text,
};
pub use wire_ip::ip::laws as ip_laws;
pub use wire_ip::ipv4::field::HEADER_LEN as IPV4_HEADER_LEN;
pub use wire_ip::ipv4::{field as ipv4_field, laws as ipv4_laws};
pub use wire_ip::ipv6::field::HEADER_LEN as IPV6_HEADER_LEN;
pub use wire_ip::ipv6::{field as ipv6_field, laws as ipv6_laws};
pub use wire_ip::udp::field::HEADER_LEN as UDP_HEADER_LEN;
pub use wire_ip::udp::{field as udp_field, laws as udp_laws};
pub use wire_ip::{
    IpRepr, Ipv4Fragment, Ipv4Packet, Ipv4PacketMut, Ipv4Repr, Ipv6Packet, Ipv6PacketMut, Ipv6Repr,
    UdpPacket, UdpPacketMut, UdpRepr,
};
pub use wire_tcp::field::HEADER_LEN as TCP_HEADER_LEN;
pub use wire_tcp::{
    MAX_WINDOW_SCALE, TcpControl, TcpHeader, TcpOption, TcpOptions, TcpPacket, TcpPacketMut,
    TcpRepr, TcpTimestampGenerator, TcpTimestampRepr, field as tcp_field, laws as tcp_laws,
};

/// The offsets of a field in a header.
pub type Field = Range<usize>;
/// The offsets after a header.
pub type Rest = RangeFrom<usize>;
