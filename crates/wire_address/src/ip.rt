//! What holds for both families: versions, protocol numbers, addresses, blocks and endpoints.
ghost use Rattle.std.specs.Prelude.{◌≡◌, ◌≢◌, ◌↔◌, Bool, ℕ, ◌/◌, ◌≤◌, ◌∷◌, slice_index, [], IsTrue, IfSome, Some, None};
ghost use Rattle.std.specs.Net.Addr.{octets_of};
ghost use Rattle.wire_address.specs.declared.ip.IpAddress.TheVariants as Address;
ghost use Rattle.wire_address.specs.declared.ip.IpCidr.TheVariants as Cidr;
ghost use Rattle.wire_address.specs.Address.{version_of, IsUnspecified, IsMulticast, IsBroadcast, IsUnicast, IsMask};
ghost use Rattle.wire_address.specs.AddressTests.{is_unspecified, is_multicast, is_broadcast, is_unicast, is_in_cidr};
ghost use Rattle.wire_address.specs.Cidr.{width_of, cidr_address, cidr_prefix_len, IsCidr, IsIn, IsWithin};
ghost use Rattle.wire_address.specs.Protocol.{protocol_number, protocol_of};
ghost use Rattle.wire_address.specs.Text.{Reads, IsIpText, ReadsIpCidr, IsEndpointText, ip_text, cidr_text, endpoint_text, listen_endpoint_text, version_text};
ghost use Rattle.wire_address.specs.Text.{protocol_text};

use crate::Error;
use crate::ipv4::{Ipv4Address, Ipv4Cidr};
use crate::ipv6::{Ipv6Address, Ipv6Cidr};
use crate::text::{HexPair, ip_address, ip_cidr, ip_endpoint};
use std::fmt;
use std::str::FromStr;

/// The family of an address or a packet.
#[derive(Clone, Copy, Debug, PartialEq, Eq, PartialOrd, Ord, Hash)]
pub enum IpVersion {
    Ipv4,
    Ipv6,
}

impl IpVersion {
    /// The family of a packet, by the first four bits of its bytes: an `Error` where they are
    /// neither 4 nor 6, or where there are no bytes.
    pub const fn of_packet(bytes: &[u8]) -> Result<IpVersion, Error>
        ensures ipv4 { (result ≡ Ok IpVersion.Ipv4) ↔ (slice_index bytes.now 0 / 16 ≡ 4) }
        ensures ipv6 { (result ≡ Ok IpVersion.Ipv6) ↔ (slice_index bytes.now 0 / 16 ≡ 6) }
    {
        let [first, ..] = bytes else {
            return Err(Error);
        };
        match *first >> 4 {
            4 => Ok(IpVersion::Ipv4),
            6 => Ok(IpVersion::Ipv6),
            _ => Err(Error),
        }
    }
}

impl fmt::Display for IpVersion {
    ghost output = { λ version. Some (version_text version) };

    fn fmt<W: fmt::Write>(&self, f: &mut fmt::Formatter<W>) -> fmt::Result {
        match self {
            IpVersion::Ipv4 => write!(f, "IPv4"),
            IpVersion::Ipv6 => write!(f, "IPv6"),
        }
    }
}

/// What an IP packet carries, by its number in the header.
#[derive(Clone, Copy, Debug, PartialEq, Eq, PartialOrd, Ord, Hash)]
pub enum IpProtocol {
    HopByHop,
    Icmp,
    Igmp,
    Tcp,
    Udp,
    Ipv6Route,
    Ipv6Frag,
    IpSecEsp,
    IpSecAh,
    Icmpv6,
    Ipv6NoNxt,
    Ipv6Opts,
    /// Any other number. A known one here stands for the same protocol as its own variant, and
    /// is not equal to it.
    Unknown(u8),
}

impl From<u8> for IpProtocol {
    ghost from_gives = { λ n protocol. protocol ≡ protocol_of n };

    fn from(value: u8) -> IpProtocol {
        match value {
            0x00 => IpProtocol::HopByHop,
            0x01 => IpProtocol::Icmp,
            0x02 => IpProtocol::Igmp,
            0x06 => IpProtocol::Tcp,
            0x11 => IpProtocol::Udp,
            0x2b => IpProtocol::Ipv6Route,
            0x2c => IpProtocol::Ipv6Frag,
            0x32 => IpProtocol::IpSecEsp,
            0x33 => IpProtocol::IpSecAh,
            0x3a => IpProtocol::Icmpv6,
            0x3b => IpProtocol::Ipv6NoNxt,
            0x3c => IpProtocol::Ipv6Opts,
            other => IpProtocol::Unknown(other),
        }
    }
}

impl From<IpProtocol> for u8 {
    ghost from_gives = { λ protocol n. n ≡ protocol_number protocol };

    fn from(value: IpProtocol) -> u8 {
        match value {
            IpProtocol::HopByHop => 0x00,
            IpProtocol::Icmp => 0x01,
            IpProtocol::Igmp => 0x02,
            IpProtocol::Tcp => 0x06,
            IpProtocol::Udp => 0x11,
            IpProtocol::Ipv6Route => 0x2b,
            IpProtocol::Ipv6Frag => 0x2c,
            IpProtocol::IpSecEsp => 0x32,
            IpProtocol::IpSecAh => 0x33,
            IpProtocol::Icmpv6 => 0x3a,
            IpProtocol::Ipv6NoNxt => 0x3b,
            IpProtocol::Ipv6Opts => 0x3c,
            IpProtocol::Unknown(other) => other,
        }
    }
}

impl fmt::Display for IpProtocol {
    ghost output = { λ protocol. Some (protocol_text protocol) };

    fn fmt<W: fmt::Write>(&self, f: &mut fmt::Formatter<W>) -> fmt::Result {
        match self {
            IpProtocol::HopByHop => write!(f, "Hop-by-Hop"),
            IpProtocol::Icmp => write!(f, "ICMP"),
            IpProtocol::Igmp => write!(f, "IGMP"),
            IpProtocol::Tcp => write!(f, "TCP"),
            IpProtocol::Udp => write!(f, "UDP"),
            IpProtocol::Ipv6Route => write!(f, "IPv6-Route"),
            IpProtocol::Ipv6Frag => write!(f, "IPv6-Frag"),
            IpProtocol::IpSecEsp => write!(f, "IPsec-ESP"),
            IpProtocol::IpSecAh => write!(f, "IPsec-AH"),
            IpProtocol::Icmpv6 => write!(f, "ICMPv6"),
            IpProtocol::Ipv6NoNxt => write!(f, "IPv6-NoNxt"),
            IpProtocol::Ipv6Opts => write!(f, "IPv6-Opts"),
            IpProtocol::Unknown(number) => write!(f, "0x{}", HexPair(*number)),
        }
    }
}

/// What an address answers in either family, alongside the tests that each family names itself.
pub trait AddressExt {
    /// the address of one host
    ghost is_unicast: { Self → Type 0 };

    /// the same as a truth value
    ghost unicast: { Self → Bool };

    /// so many ones, then zeros
    ghost is_mask: { Self → ℕ → Type 0 };

    /// Whether this is the address of one host.
    fn x_is_unicast(&self) -> bool
        ensures value { result ≡ unicast self.now }
        ensures meaning { IsTrue result ↔ is_unicast self.now };

    /// How many ones the address has, if they come before all zeros: the length of the prefix
    /// that it stands for as a network mask.
    fn prefix_len(&self) -> Option<u8>
        ensures found { IfSome result (is_mask self.now) }
        ensures only { (n : ℕ) → is_mask self.now n → result ≡ Some n };
}

/// An address of either family.
#[derive(Clone, Copy, Debug, PartialEq, Eq, PartialOrd, Ord, Hash)]
pub enum IpAddress {
    Ipv4(Ipv4Address),
    Ipv6(Ipv6Address),
}

impl IpAddress {
    /// The IPv4 address `a.b.c.d`.
    pub const fn v4(a: u8, b: u8, c: u8, d: u8) -> IpAddress
        ensures { result ≡ IpAddress.Ipv4 (record { 0 = a ∷ b ∷ c ∷ d ∷ [] }) }
    {
        IpAddress::Ipv4(Ipv4Address::new(a, b, c, d))
    }

    /// The IPv6 address `a:b:c:d:e:f:g:h`.
    pub const fn v6(a: u16, b: u16, c: u16, d: u16, e: u16, f: u16, g: u16, h: u16) -> IpAddress
        ensures { result ≡ IpAddress.Ipv6 (record { 0 = octets_of (a ∷ b ∷ c ∷ d ∷ e ∷ f ∷ g ∷ h ∷ []) }) }
    {
        IpAddress::Ipv6(Ipv6Address::new(a, b, c, d, e, f, g, h))
    }

    /// The family of the address.
    pub const fn version(&self) -> IpVersion
        ensures { result ≡ version_of self.now }
    {
        match self {
            IpAddress::Ipv4(_) => IpVersion::Ipv4,
            IpAddress::Ipv6(_) => IpVersion::Ipv6,
        }
    }

    /// Whether this is the address of one host.
    pub fn is_unicast(&self) -> bool
        ensures value { result ≡ is_unicast self.now }
        ensures meaning { IsTrue result ↔ IsUnicast self.now }
    {
        match self {
            IpAddress::Ipv4(address) => address.x_is_unicast(),
            IpAddress::Ipv6(address) => address.x_is_unicast(),
        }
    }

    /// Whether this is the address of a group.
    pub const fn is_multicast(&self) -> bool
        ensures value { result ≡ is_multicast self.now }
        ensures meaning { IsTrue result ↔ IsMulticast self.now }
    {
        match self {
            IpAddress::Ipv4(address) => address.is_multicast(),
            IpAddress::Ipv6(address) => address.is_multicast(),
        }
    }

    /// Whether this is the address of all hosts of the local network, which IPv4 alone has.
    pub fn is_broadcast(&self) -> bool
        ensures value { result ≡ is_broadcast self.now }
        ensures meaning { IsTrue result ↔ IsBroadcast self.now }
    {
        match self {
            IpAddress::Ipv4(address) => address.is_broadcast(),
            IpAddress::Ipv6(_) => false,
        }
    }

    /// Whether this is the unspecified address of its family.
    pub fn is_unspecified(&self) -> bool
        ensures value { result ≡ is_unspecified self.now }
        ensures meaning { IsTrue result ↔ IsUnspecified self.now }
    {
        match self {
            IpAddress::Ipv4(address) => address.is_unspecified(),
            IpAddress::Ipv6(address) => address.is_unspecified(),
        }
    }

    /// How many ones the address has, if they come before all zeros.
    pub fn prefix_len(&self) -> Option<u8>
        ensures found { IfSome result (IsMask self.now) }
        ensures only { (n : ℕ) → IsMask self.now n → result ≡ Some n }
    {
        match self {
            IpAddress::Ipv4(address) => address.prefix_len(),
            IpAddress::Ipv6(address) => address.prefix_len(),
        }
    }
}

impl From<Ipv4Address> for IpAddress {
    ghost from_gives = { λ a address. address ≡ Address.Ipv4 a };

    fn from(value: Ipv4Address) -> IpAddress {
        IpAddress::Ipv4(value)
    }
}

impl From<Ipv6Address> for IpAddress {
    ghost from_gives = { λ a address. address ≡ Address.Ipv6 a };

    fn from(value: Ipv6Address) -> IpAddress {
        IpAddress::Ipv6(value)
    }
}

impl fmt::Display for IpAddress {
    ghost output = { λ a. Some (ip_text a) };

    fn fmt<W: fmt::Write>(&self, f: &mut fmt::Formatter<W>) -> fmt::Result {
        match self {
            IpAddress::Ipv4(address) => write!(f, "{address}"),
            IpAddress::Ipv6(address) => write!(f, "{address}"),
        }
    }
}

/// Reads an IPv4 or an IPv6 address.
impl FromStr for IpAddress {
    type Err = ();

    ghost from_str_gives = { Reads IsIpText };

    fn from_str(s: &str) -> Result<IpAddress, ()> {
        ip_address(s).ok_or(())
    }
}

/// A block of addresses of either family.
#[derive(Clone, Copy, Debug, PartialEq, Eq, PartialOrd, Ord, Hash)]
pub enum IpCidr {
    Ipv4(Ipv4Cidr),
    Ipv6(Ipv6Cidr),
}

impl IpCidr {
    /// The block of the addresses of the family that begin with the first `prefix_len` bits of
    /// `address`.
    pub const fn new(address: IpAddress, prefix_len: u8) -> IpCidr
        requires { prefix_len ≤ width_of address }
        ensures address { cidr_address result ≡ address }
        ensures prefix_len { cidr_prefix_len result ≡ prefix_len }
    {
        match address {
            IpAddress::Ipv4(address) => IpCidr::Ipv4(Ipv4Cidr::new(address, prefix_len)),
            IpAddress::Ipv6(address) => IpCidr::Ipv6(Ipv6Cidr::new(address, prefix_len)),
        }
    }

    /// The address that the block was made with, its host bits too.
    pub const fn address(&self) -> IpAddress
        ensures { result ≡ cidr_address self.now }
    {
        match self {
            IpCidr::Ipv4(cidr) => IpAddress::Ipv4(cidr.address),
            IpCidr::Ipv6(cidr) => IpAddress::Ipv6(cidr.address),
        }
    }

    /// How many first bits the addresses of the block have in common.
    pub const fn prefix_len(&self) -> u8
        ensures value { result ≡ cidr_prefix_len self.now }
        ensures in_range { result ≤ width_of (cidr_address self.now) }
    {
        match self {
            IpCidr::Ipv4(cidr) => cidr.prefix_len,
            IpCidr::Ipv6(cidr) => cidr.prefix_len,
        }
    }

    /// Whether the address is in the block.
    pub fn contains_addr(&self, address: &IpAddress) -> bool
        ensures value { result ≡ is_in_cidr self.now address.now }
        ensures meaning { IsTrue result ↔ IsIn self.now address.now }
    {
        match (self, address) {
            (IpCidr::Ipv4(cidr), IpAddress::Ipv4(address)) => cidr.contains_addr(address),
            (IpCidr::Ipv6(cidr), IpAddress::Ipv6(address)) => cidr.contains_addr(address),
            _ => false,
        }
    }

    /// Whether each address of the other block is in this one.
    pub fn contains_subnet(&self, subnet: &IpCidr) -> bool
        ensures { IsTrue result ↔ IsWithin self.now subnet.now }
    {
        match (self, subnet) {
            (IpCidr::Ipv4(outer), IpCidr::Ipv4(inner)) => outer.contains_subnet(inner),
            (IpCidr::Ipv6(outer), IpCidr::Ipv6(inner)) => outer.contains_subnet(inner),
            _ => false,
        }
    }
}

impl From<Ipv4Cidr> for IpCidr {
    ghost from_gives = { λ b cidr. cidr ≡ Cidr.Ipv4 b };

    fn from(value: Ipv4Cidr) -> IpCidr {
        IpCidr::Ipv4(value)
    }
}

impl From<Ipv6Cidr> for IpCidr {
    ghost from_gives = { λ b cidr. cidr ≡ Cidr.Ipv6 b };

    fn from(value: Ipv6Cidr) -> IpCidr {
        IpCidr::Ipv6(value)
    }
}

impl fmt::Display for IpCidr {
    ghost output = { λ b. Some (cidr_text b) };

    fn fmt<W: fmt::Write>(&self, f: &mut fmt::Formatter<W>) -> fmt::Result {
        match self {
            IpCidr::Ipv4(cidr) => write!(f, "{cidr}"),
            IpCidr::Ipv6(cidr) => write!(f, "{cidr}"),
        }
    }
}

/// The block of all IPv4 addresses, `0.0.0.0/0`: what stands in the unused offsets of a vector of
/// fixed capacity.
impl Default for IpCidr {
    ghost is_default = { λ b. IsCidr b (0 ∷ 0 ∷ 0 ∷ 0 ∷ []) 0 };

    fn default() -> IpCidr {
        IpCidr::Ipv4(Ipv4Cidr::new(Ipv4Address::UNSPECIFIED, 0))
    }
}

/// Reads an address of either family, a slash and a decimal number up to the address's bits.
impl FromStr for IpCidr {
    type Err = ();

    ghost from_str_gives = { ReadsIpCidr };

    fn from_str(s: &str) -> Result<IpCidr, ()> {
        ip_cidr(s).ok_or(())
    }
}

/// Where a datagram or a segment goes to or comes from: an address and a port.
#[derive(Clone, Copy, Debug, PartialEq, Eq, PartialOrd, Ord, Hash)]
pub struct IpEndpoint {
    pub addr: IpAddress,
    pub port: u16,
}

impl IpEndpoint {
    /// The endpoint of this address and port.
    pub const fn new(addr: IpAddress, port: u16) -> IpEndpoint
        ensures { result ≡ record { addr = addr; port = port } }
    {
        IpEndpoint { addr, port }
    }
}

impl From<(IpAddress, u16)> for IpEndpoint {
    ghost from_gives = { λ pair endpoint. endpoint ≡ record { addr = pair.0; port = pair.1 } };

    fn from(value: (IpAddress, u16)) -> IpEndpoint {
        IpEndpoint {
            addr: value.0,
            port: value.1,
        }
    }
}

impl From<(Ipv4Address, u16)> for IpEndpoint {
    ghost from_gives = { λ pair endpoint. endpoint ≡ record { addr = Address.Ipv4 pair.0; port = pair.1 } };

    fn from(value: (Ipv4Address, u16)) -> IpEndpoint {
        IpEndpoint {
            addr: IpAddress::Ipv4(value.0),
            port: value.1,
        }
    }
}

impl From<(Ipv6Address, u16)> for IpEndpoint {
    ghost from_gives = { λ pair endpoint. endpoint ≡ record { addr = Address.Ipv6 pair.0; port = pair.1 } };

    fn from(value: (Ipv6Address, u16)) -> IpEndpoint {
        IpEndpoint {
            addr: IpAddress::Ipv6(value.0),
            port: value.1,
        }
    }
}

impl fmt::Display for IpEndpoint {
    ghost output = { λ e. Some (endpoint_text e) };

    fn fmt<W: fmt::Write>(&self, f: &mut fmt::Formatter<W>) -> fmt::Result {
        write!(f, "{}:{}", self.addr, self.port)
    }
}

/// Reads `a.b.c.d:port` or `[v6]:port`.
impl FromStr for IpEndpoint {
    type Err = ();

    ghost from_str_gives = { Reads IsEndpointText };

    fn from_str(s: &str) -> Result<IpEndpoint, ()> {
        ip_endpoint(s).ok_or(())
    }
}

/// Where a socket waits: a port, on one address of its own or on all of them.
#[derive(Clone, Copy, Debug, Default, PartialEq, Eq, PartialOrd, Ord, Hash)]
pub struct IpListenEndpoint {
    pub addr: Option<IpAddress>,
    pub port: u16,
}

impl IpListenEndpoint {
    /// Whether a port is named. Port 0 names none.
    pub const fn is_specified(&self) -> bool
        ensures { IsTrue result ↔ (self.now.port ≢ 0) }
    {
        self.port != 0
    }
}

impl From<u16> for IpListenEndpoint {
    ghost from_gives = { λ port endpoint. endpoint ≡ record { addr = None; port = port } };

    fn from(value: u16) -> IpListenEndpoint {
        IpListenEndpoint {
            addr: None,
            port: value,
        }
    }
}

impl From<(IpAddress, u16)> for IpListenEndpoint {
    ghost from_gives = { λ pair endpoint. endpoint ≡ record { addr = Some pair.0; port = pair.1 } };

    fn from(value: (IpAddress, u16)) -> IpListenEndpoint {
        IpListenEndpoint {
            addr: Some(value.0),
            port: value.1,
        }
    }
}

impl From<(Ipv4Address, u16)> for IpListenEndpoint {
    ghost from_gives = { λ pair endpoint. endpoint ≡ record { addr = Some (Address.Ipv4 pair.0); port = pair.1 } };

    fn from(value: (Ipv4Address, u16)) -> IpListenEndpoint {
        IpListenEndpoint {
            addr: Some(IpAddress::Ipv4(value.0)),
            port: value.1,
        }
    }
}

impl From<(Ipv6Address, u16)> for IpListenEndpoint {
    ghost from_gives = { λ pair endpoint. endpoint ≡ record { addr = Some (Address.Ipv6 pair.0); port = pair.1 } };

    fn from(value: (Ipv6Address, u16)) -> IpListenEndpoint {
        IpListenEndpoint {
            addr: Some(IpAddress::Ipv6(value.0)),
            port: value.1,
        }
    }
}

impl From<IpEndpoint> for IpListenEndpoint {
    ghost from_gives = { λ e endpoint. endpoint ≡ record { addr = Some e.addr; port = e.port } };

    fn from(value: IpEndpoint) -> IpListenEndpoint {
        IpListenEndpoint {
            addr: Some(value.addr),
            port: value.port,
        }
    }
}

impl fmt::Display for IpListenEndpoint {
    ghost output = { λ e. Some (listen_endpoint_text e.addr e.port) };

    fn fmt<W: fmt::Write>(&self, f: &mut fmt::Formatter<W>) -> fmt::Result {
        match self.addr {
            Some(address) => write!(f, "{}:{}", address, self.port),
            None => write!(f, "*:{}", self.port),
        }
    }
}
