//! Addresses, blocks, endpoints, protocol numbers and checksums of the Internet protocols: what
//! every packet format above is made of.
#![tactic(auto)]

ghost use Rattle.std.specs.Prelude.{Some, codes};

pub mod checksum;
pub mod ethernet;
pub mod hardware;
pub mod ip;
pub mod ipv4;
pub mod ipv6;
pub mod laws;
pub mod network_order;
pub mod seq_number;
pub mod text;

pub use ethernet::{EthernetAddress, EthernetProtocol};
pub use hardware::{HardwareAddress, MAX_HARDWARE_ADDRESS_LEN, RawHardwareAddress};
pub use ip::{AddressExt, IpAddress, IpCidr, IpEndpoint, IpListenEndpoint, IpProtocol, IpVersion};
pub use ipv4::{
    IPV4_MIN_MTU, IPV4_MULTICAST_ALL_ROUTERS, IPV4_MULTICAST_ALL_SYSTEMS, Ipv4Address, Ipv4Cidr,
    Ipv4FragKey,
};
pub use ipv6::{
    IPV6_LINK_LOCAL_ALL_MLDV2_ROUTERS, IPV6_LINK_LOCAL_ALL_NODES, IPV6_LINK_LOCAL_ALL_ROUTERS,
    IPV6_MIN_MTU, Ipv6Address, Ipv6Cidr,
};
pub use seq_number::SeqNumber;
use std::fmt;

/// The refusal of every reader of a format: the bytes are no packet, or the text no address, of
/// the kind that was asked for.
#[derive(Clone, Copy, Debug, PartialEq, Eq)]
pub struct Error;

impl fmt::Display for Error {
    ghost output = { λ _. Some (codes "wire::Error") };

    fn fmt<W: fmt::Write>(&self, f: &mut fmt::Formatter<W>) -> fmt::Result {
        write!(f, "wire::Error")
    }
}

impl std::error::Error for Error {}
