//! IPv6 addresses and blocks of them.
ghost use Rattle.std.specs.Prelude.{◌≡◌, ◌↔◌, ◌-◌, ◌^◌, ◌≤◌, ◌==◌, ◌/◌, ◌%◌, ◌∷◌, [], IsTrue, Some};
ghost use Rattle.std.specs.Net.Addr.{octets_of};
ghost use Rattle.wire_address.specs.Address.{v6_number, IsIpv6Address, IsUnspecifiedV6, IsLoopbackV6, IsMulticastV6, IsLinkLocal, IsUnicastV6, IsMaskV6};
ghost use Rattle.wire_address.specs.Address.{scope_of, IsSolicitedNode, solicited_of};

use crate::ip::AddressExt;
use crate::text::{colon_hex, ipv6_cidr};
use byteorder::{BigEndian, ByteOrder};
use std::fmt;
use std::net::Ipv6Addr;
use std::str::FromStr;

/// The length of packet that every IPv6 link takes whole (RFC 8200, section 5).
pub const IPV6_MIN_MTU: usize = 1280;
/// All nodes on the link (RFC 4291, section 2.7.1).
pub const IPV6_LINK_LOCAL_ALL_NODES: Ipv6Address = Ipv6Address([
    0xff, 2, 0, 0, 0, 0, 0, 0, 0, 0, 0, 0, 0, 0, 0, 1,
]);
/// All routers on the link.
pub const IPV6_LINK_LOCAL_ALL_ROUTERS: Ipv6Address = Ipv6Address([
    0xff, 2, 0, 0, 0, 0, 0, 0, 0, 0, 0, 0, 0, 0, 0, 2,
]);
/// All routers on the link that listen for multicast reports (RFC 3810, section 5.2.14).
pub const IPV6_LINK_LOCAL_ALL_MLDV2_ROUTERS: Ipv6Address = Ipv6Address([
    0xff, 2, 0, 0, 0, 0, 0, 0, 0, 0, 0, 0, 0, 0, 0, 0x16,
]);

/// An IPv6 address: sixteen bytes, the most significant first.
#[derive(Clone, Copy, Debug, PartialEq, Eq, PartialOrd, Ord, Hash)]
pub struct Ipv6Address(pub [u8; 16]);

impl Ipv6Address {
    ghost use Rattle.wire_address.specs.AddressTests.{is_unspecified_v6, is_loopback_v6, is_multicast_v6, is_link_local, is_solicited_node, common_prefix_len};

    /// `::`, which a host without an address sends from.
    pub const UNSPECIFIED: Ipv6Address = Ipv6Address([0; 16]);
    /// `::1`.
    pub const LOCALHOST: Ipv6Address = Ipv6Address([
        0, 0, 0, 0, 0, 0, 0, 0, 0, 0, 0, 0, 0, 0, 0, 1,
    ]);

    /// The address `a:b:c:d:e:f:g:h`.
    pub const fn new(a: u16, b: u16, c: u16, d: u16, e: u16, f: u16, g: u16, h: u16) -> Ipv6Address
        ensures { result.0 ≡ octets_of (a ∷ b ∷ c ∷ d ∷ e ∷ f ∷ g ∷ h ∷ []) }
    {
        let [a0, a1] = halves(a);
        let [b0, b1] = halves(b);
        let [c0, c1] = halves(c);
        let [d0, d1] = halves(d);
        let [e0, e1] = halves(e);
        let [f0, f1] = halves(f);
        let [g0, g1] = halves(g);
        let [h0, h1] = halves(h);
        Ipv6Address([
            a0, a1, b0, b1, c0, c1, d0, d1, e0, e1, f0, f1, g0, g1, h0, h1,
        ])
    }

    /// The sixteen bytes of the address.
    pub const fn octets(&self) -> [u8; 16]
        ensures { result ≡ self.now.0 }
    {
        self.0
    }

    /// Whether this is `::`.
    pub fn is_unspecified(&self) -> bool
        ensures value { result ≡ is_unspecified_v6 self.now }
        ensures meaning { IsTrue result ↔ IsUnspecifiedV6 self.now }
    {
        *self == Ipv6Address::UNSPECIFIED
    }

    /// Whether this is `::1`, by which a host reaches itself.
    pub fn is_loopback(&self) -> bool
        ensures value { result ≡ is_loopback_v6 self.now }
        ensures meaning { IsTrue result ↔ IsLoopbackV6 self.now }
    {
        *self == Ipv6Address::LOCALHOST
    }

    /// Whether this is the address of a group.
    pub const fn is_multicast(&self) -> bool
        ensures value { result ≡ is_multicast_v6 self.now }
        ensures meaning { IsTrue result ↔ IsMulticastV6 self.now }
    {
        self.0[0] == 0xff
    }

    /// Whether the address is one of `fe80::/10`, which no router passes on.
    pub const fn is_link_local(&self) -> bool
        ensures value { result ≡ is_link_local self.now }
        ensures meaning { IsTrue result ↔ IsLinkLocal self.now }
    {
        self.0[0] == 0xfe && self.0[1] >> 6 == 2
    }

    /// How far the address is known, by the numbers of multicast scopes: 2 is the link, 14 is
    /// everywhere. An address that is no multicast address has one of these two; `::1` is of the
    /// link (RFC 4007, section 4).
    pub fn x_multicast_scope(&self) -> u8
        ensures { result ≡ scope_of self.now }
    {
        if self.is_multicast() {
            self.0[1] & 0x0f
        } else if self.is_link_local() || self.is_loopback() {
            2
        } else {
            14
        }
    }

    /// Whether neighbours' solicitations go to this address.
    pub fn is_solicited_node_multicast(&self) -> bool
        ensures value { result ≡ is_solicited_node self.now }
        ensures meaning { IsTrue result ↔ IsSolicitedNode self.now }
    {
        self.0[..13] == [0xff, 2, 0, 0, 0, 0, 0, 0, 0, 0, 0, 1, 0xff]
    }

    /// The address to which solicitations for this one go.
    pub fn solicited_node(&self) -> Ipv6Address
        requires { IsUnicastV6 self.now }
        ensures { result.0 ≡ solicited_of self.now }
    {
        let [.., a, b, c] = self.0;
        Ipv6Address([0xff, 2, 0, 0, 0, 0, 0, 0, 0, 0, 0, 1, 0xff, a, b, c])
    }

    /// How many first bits the two addresses have in common.
    pub fn common_prefix_len(&self, other: &Ipv6Address) -> u8
        ensures value { result ≡ common_prefix_len self.now other.now }
        ensures in_range { result ≤ 128 }
    {
        (self.to_bits() ^ other.to_bits()).leading_zeros() as u8
    }

    /// The address as a number, its first byte the most significant.
    pub(crate) fn to_bits(self) -> u128
        ensures value { result ≡ v6_number self }
        ensures whole { IsIpv6Address self }
    {
        BigEndian::read_u128(&self.0)
    }
}

impl AddressExt for Ipv6Address {
    ghost use Rattle.wire_address.specs.AddressTests.{is_unicast_v6};

    ghost is_unicast = { IsUnicastV6 };

    ghost unicast = { is_unicast_v6 };

    ghost is_mask = { IsMaskV6 };

    fn x_is_unicast(&self) -> bool {
        !(self.is_unspecified() || self.is_multicast())
    }

    fn prefix_len(&self) -> Option<u8> {
        let bits = self.to_bits();
        let ones = bits.leading_ones();
        if bits == mask_of(ones as u8) {
            Some(ones as u8)
        } else {
            None
        }
    }
}

impl fmt::Display for Ipv6Address {
    ghost use Rattle.std.specs.Net.Addr.{segments_of};
    ghost use Rattle.std.specs.Net.Text.{ipv6_text};

    ghost output = { λ a. Some (ipv6_text (segments_of a.0)) };

    fn fmt<W: fmt::Write>(&self, f: &mut fmt::Formatter<W>) -> fmt::Result {
        let address = Ipv6Addr::from_octets(self.0);
        write!(f, "{address}")
    }
}

/// Reads eight groups of one to four hex digits, `::` in place of one or more groups that are
/// zero, and the last two groups as an IPv4 address too.
impl FromStr for Ipv6Address {
    ghost use Rattle.wire_address.specs.Text.{Reads, IsIpv6Text};

    type Err = ();

    ghost from_str_gives = { Reads IsIpv6Text };

    fn from_str(s: &str) -> Result<Ipv6Address, ()> {
        colon_hex(s).ok_or(())
    }
}

/// The number of `ones` ones, then zeros.
fn mask_of(ones: u8) -> u128
    requires { ones ≤ 128 }
    ensures { result ≡ 2 ^ 128 - 2 ^ (128 - ones) }
{
    if ones == 0 {
        0
    } else {
        u128::MAX - (1u128 << (128 - ones)) + 1
    }
}

/// The two bytes of a group.
const fn halves(group: u16) -> [u8; 2]
    ensures { result ≡ group / 256 ∷ group % 256 ∷ [] }
{
    group.to_be_bytes()
}

/// A block of IPv6 addresses: those whose first `prefix_len` bits are the address's. The
/// address keeps its host bits, so one value also says which address a host has in its network.
#[derive(Clone, Copy, Debug, PartialEq, Eq, PartialOrd, Ord, Hash)]
pub struct Ipv6Cidr {
    pub address: Ipv6Address,
    pub prefix_len: u8,
    ghost in_range: { prefix_len ≤ 128 },
}

impl Ipv6Cidr {
    ghost use Rattle.wire_address.specs.Cidr.{IsInV6, IsWithinV6};
    ghost use Rattle.wire_address.specs.AddressTests.{is_in_v6};

    /// The block of all solicited-node addresses, `ff02::1:ff00:0/104`.
    pub const SOLICITED_NODE_PREFIX: Ipv6Cidr = Ipv6Cidr {
        address: Ipv6Address([0xff, 2, 0, 0, 0, 0, 0, 0, 0, 0, 0, 1, 0xff, 0, 0, 0]),
        prefix_len: 104,
    };
    /// The block of the addresses that no router passes on, `fe80::/10`.
    pub const LINK_LOCAL_PREFIX: Ipv6Cidr = Ipv6Cidr {
        address: Ipv6Address([0xfe, 0x80, 0, 0, 0, 0, 0, 0, 0, 0, 0, 0, 0, 0, 0, 0]),
        prefix_len: 10,
    };

    /// The block of the addresses that begin with the first `prefix_len` bits of `address`.
    pub const fn new(address: Ipv6Address, prefix_len: u8) -> Ipv6Cidr
        requires { prefix_len ≤ 128 }
        ensures address { result.address ≡ address }
        ensures prefix_len { result.prefix_len ≡ prefix_len }
    {
        Ipv6Cidr {
            address,
            prefix_len,
        }
    }

    /// The address that the block was made with, its host bits too.
    pub const fn address(&self) -> Ipv6Address
        ensures { result ≡ self.now.address }
    {
        self.address
    }

    /// How many first bits the addresses of the block have in common.
    pub const fn prefix_len(&self) -> u8
        ensures value { result ≡ self.now.prefix_len }
        ensures in_range { result ≤ 128 }
    {
        self.prefix_len
    }

    /// Whether the address is in the block.
    pub fn contains_addr(&self, address: &Ipv6Address) -> bool
        ensures value { result ≡ is_in_v6 self.now address.now }
        ensures meaning { IsTrue result ↔ IsInV6 self.now address.now }
    {
        self.contains_bits(address.to_bits())
    }

    /// Whether each address of the other block is in this one.
    pub fn contains_subnet(&self, subnet: &Ipv6Cidr) -> bool
        ensures { IsTrue result ↔ IsWithinV6 self.now subnet.now }
    {
        let bits = subnet.address.to_bits();
        self.prefix_len <= subnet.prefix_len && self.contains_bits(bits)
    }

    /// Whether the address that is this number is in the block.
    fn contains_bits(&self, bits: u128) -> bool
        ensures value { result ≡ bits / 2 ^ (128 - self.now.prefix_len) == v6_number self.now.address / 2 ^ (128 - self.now.prefix_len) }
        ensures meaning { IsTrue result ↔ (bits / 2 ^ (128 - self.now.prefix_len) ≡ v6_number self.now.address / 2 ^ (128 - self.now.prefix_len)) }
    {
        leading_bits(bits, self.prefix_len) == leading_bits(self.address.to_bits(), self.prefix_len)
    }
}

impl fmt::Display for Ipv6Cidr {
    ghost use Rattle.wire_address.specs.Text.{ipv6_cidr_text};

    ghost output = { λ b. Some (ipv6_cidr_text b) };

    fn fmt<W: fmt::Write>(&self, f: &mut fmt::Formatter<W>) -> fmt::Result {
        write!(f, "{}/{}", self.address, self.prefix_len)
    }
}

/// Reads an IPv6 address, a slash and a decimal number up to 128.
impl FromStr for Ipv6Cidr {
    ghost use Rattle.wire_address.specs.Text.{ReadsIpv6Cidr};

    type Err = ();

    ghost from_str_gives = { ReadsIpv6Cidr };

    fn from_str(s: &str) -> Result<Ipv6Cidr, ()> {
        ipv6_cidr(s).ok_or(())
    }
}

/// The first `count` bits of 128.
fn leading_bits(bits: u128, count: u8) -> u128
    requires { count ≤ 128 }
    ensures { result ≡ bits / 2 ^ (128 - count) }
{
    if count == 0 { 0 } else { bits >> (128 - count) }
}
