//! IPv4 addresses and blocks of them.
ghost use Rattle.std.specs.Prelude.{◌≡◌, ◌↔◌, ℕ, ◌+◌, ◌-◌, ◌/◌, ◌^◌, ◌<◌, ◌≤◌, ◌==◌, ◌∷◌, [], IsTrue, IfOk, IsOk, IfSome, IsNone, Some};
ghost use Rattle.byteorder.specs.Endian.{big_bytes};
ghost use Rattle.wire_address.specs.Address.{v4_number, IsIpv4Address, IsUnspecifiedV4, IsLoopbackV4, IsMulticastV4, IsBroadcastV4, IsUnicastV4, IsMaskV4};

use crate::Error;
use crate::ip::{AddressExt, IpProtocol};
use crate::text::{dotted, ipv4_cidr};
use byteorder::{BigEndian, ByteOrder};
use std::fmt;
use std::str::FromStr;

/// The length of packet that every IPv4 link takes whole (RFC 791, section 3.2).
pub const IPV4_MIN_MTU: usize = 576;
/// All systems on the link (RFC 1112, section 4).
pub const IPV4_MULTICAST_ALL_SYSTEMS: Ipv4Address = Ipv4Address([224, 0, 0, 1]);
/// All routers on the link.
pub const IPV4_MULTICAST_ALL_ROUTERS: Ipv4Address = Ipv4Address([224, 0, 0, 2]);

/// An IPv4 address: four bytes, the most significant first.
#[derive(Clone, Copy, Debug, PartialEq, Eq, PartialOrd, Ord, Hash)]
pub struct Ipv4Address(pub [u8; 4]);

impl Ipv4Address {
    ghost use Rattle.wire_address.specs.AddressTests.{is_unspecified_v4, is_loopback_v4, is_multicast_v4, is_broadcast_v4};

    /// `0.0.0.0`, which a host without an address sends from.
    pub const UNSPECIFIED: Ipv4Address = Ipv4Address([0; 4]);
    /// `127.0.0.1`.
    pub const LOCALHOST: Ipv4Address = Ipv4Address([127, 0, 0, 1]);
    /// `255.255.255.255`, all hosts of the local network.
    pub const BROADCAST: Ipv4Address = Ipv4Address([255; 4]);

    /// The address `a.b.c.d`.
    pub const fn new(a: u8, b: u8, c: u8, d: u8) -> Ipv4Address
        ensures { result.0 ≡ a ∷ b ∷ c ∷ d ∷ [] }
    {
        Ipv4Address([a, b, c, d])
    }

    /// The four bytes of the address.
    pub const fn octets(&self) -> [u8; 4]
        ensures { result ≡ self.now.0 }
    {
        self.0
    }

    /// Whether this is `0.0.0.0`.
    pub fn is_unspecified(&self) -> bool
        ensures value { result ≡ is_unspecified_v4 self.now }
        ensures meaning { IsTrue result ↔ IsUnspecifiedV4 self.now }
    {
        self.to_bits() == 0
    }

    /// Whether this is an address by which a host reaches itself.
    pub const fn is_loopback(&self) -> bool
        ensures value { result ≡ is_loopback_v4 self.now }
        ensures meaning { IsTrue result ↔ IsLoopbackV4 self.now }
    {
        self.0[0] == 127
    }

    /// Whether this is the address of a group.
    pub const fn is_multicast(&self) -> bool
        ensures value { result ≡ is_multicast_v4 self.now }
        ensures meaning { IsTrue result ↔ IsMulticastV4 self.now }
    {
        self.0[0] >> 4 == 14
    }

    /// Whether this is `255.255.255.255`.
    pub fn is_broadcast(&self) -> bool
        ensures value { result ≡ is_broadcast_v4 self.now }
        ensures meaning { IsTrue result ↔ IsBroadcastV4 self.now }
    {
        self.to_bits() == u32::MAX
    }

    /// The address as a number, its first byte the most significant.
    pub(crate) fn to_bits(self) -> u32
        ensures value { result ≡ v4_number self }
        ensures whole { IsIpv4Address self }
    {
        BigEndian::read_u32(&self.0)
    }

    /// The address that is this number.
    pub(crate) fn from_bits(bits: u32) -> Ipv4Address
        ensures { result.0 ≡ big_bytes 4 bits }
    {
        Ipv4Address(bits.to_be_bytes())
    }
}

impl AddressExt for Ipv4Address {
    ghost use Rattle.wire_address.specs.AddressTests.{is_unicast_v4};

    ghost is_unicast = { IsUnicastV4 };

    ghost unicast = { is_unicast_v4 };

    ghost is_mask = { IsMaskV4 };

    fn x_is_unicast(&self) -> bool {
        !(self.is_unspecified() || self.is_multicast() || self.is_broadcast())
    }

    fn prefix_len(&self) -> Option<u8> {
        let bits = self.to_bits();
        let ones = bits.leading_ones();
        if bits == mask_of(ones as u8) {
            Some(ones as u8)
        } else {
            None
        }
    }
}

impl fmt::Display for Ipv4Address {
    ghost use Rattle.std.specs.Net.Text.{ipv4_text};

    ghost output = { λ a. Some (ipv4_text a.0) };

    fn fmt<W: fmt::Write>(&self, f: &mut fmt::Formatter<W>) -> fmt::Result {
        let [a, b, c, d] = self.0;
        write!(f, "{a}.{b}.{c}.{d}")
    }
}

/// Reads four decimal numbers of one to three digits with dots between them.
impl FromStr for Ipv4Address {
    ghost use Rattle.wire_address.specs.Text.{Reads, IsIpv4Text};

    type Err = ();

    ghost from_str_gives = { Reads IsIpv4Text };

    fn from_str(s: &str) -> Result<Ipv4Address, ()> {
        dotted(s).ok_or(())
    }
}

/// The number of `ones` ones, then zeros.
fn mask_of(ones: u8) -> u32
    requires { ones ≤ 32 }
    ensures { result ≡ 2 ^ 32 - 2 ^ (32 - ones) }
{
    ((1u64 << 32) - (1u64 << (32 - ones))) as u32
}

/// A block of IPv4 addresses: those whose first `prefix_len` bits are the address's. The
/// address keeps its host bits, so one value also says which address a host has in its network.
#[derive(Clone, Copy, Debug, PartialEq, Eq, PartialOrd, Ord, Hash)]
pub struct Ipv4Cidr {
    pub address: Ipv4Address,
    pub prefix_len: u8,
    ghost in_range: { prefix_len ≤ 32 },
}

impl Ipv4Cidr {
    ghost use Rattle.wire_address.specs.Cidr.{IsInV4, IsWithinV4, network_number, broadcast_number, netmask_number};
    ghost use Rattle.wire_address.specs.AddressTests.{is_in_v4, broadcast_in};

    /// The block of the addresses that begin with the first `prefix_len` bits of `address`.
    pub const fn new(address: Ipv4Address, prefix_len: u8) -> Ipv4Cidr
        requires { prefix_len ≤ 32 }
        ensures address { result.address ≡ address }
        ensures prefix_len { result.prefix_len ≡ prefix_len }
    {
        Ipv4Cidr {
            address,
            prefix_len,
        }
    }

    /// The address that the block was made with, its host bits too.
    pub const fn address(&self) -> Ipv4Address
        ensures { result ≡ self.now.address }
    {
        self.address
    }

    /// How many first bits the addresses of the block have in common.
    pub const fn prefix_len(&self) -> u8
        ensures value { result ≡ self.now.prefix_len }
        ensures in_range { result ≤ 32 }
    {
        self.prefix_len
    }

    /// The block of the addresses that agree with `address` where the mask has ones. The mask is
    /// one or more ones, then zeros, else the answer is an `Error`.
    pub fn from_netmask(address: Ipv4Address, netmask: Ipv4Address) -> Result<Ipv4Cidr, Error>
        ensures found { IfOk result (λ b. (b.address ≡ address) × (0 < b.prefix_len) × IsMaskV4 netmask b.prefix_len) }
        ensures only { (n : ℕ) → 0 < n → IsMaskV4 netmask n → IfOk result (λ b. b.prefix_len ≡ n) × IsOk result }
    {
        match netmask.prefix_len() {
            Some(ones) if ones > 0 => Ok(Ipv4Cidr::new(address, ones)),
            _ => Err(Error),
        }
    }

    /// The mask of the block: `prefix_len` ones, then zeros.
    pub fn netmask(&self) -> Ipv4Address
        ensures { result.0 ≡ big_bytes 4 (netmask_number self.now) }
    {
        Ipv4Address::from_bits(mask_of(self.prefix_len))
    }

    /// The block with the host bits of its address zero.
    pub fn network(&self) -> Ipv4Cidr
        ensures address { result.address.0 ≡ big_bytes 4 (network_number self.now) }
        ensures prefix_len { result.prefix_len ≡ self.now.prefix_len }
    {
        Ipv4Cidr::new(Ipv4Address::from_bits(self.network_bits()), self.prefix_len)
    }

    /// The address of all hosts of the block: its host bits are one. Blocks of one or two
    /// addresses have none.
    pub fn broadcast(&self) -> Option<Ipv4Address>
        ensures value { result ≡ broadcast_in self.now }
        ensures none { IsNone result ↔ (31 ≤ self.now.prefix_len) }
        ensures address { IfSome result (λ a. a.0 ≡ big_bytes 4 (broadcast_number self.now)) }
    {
        if self.prefix_len >= 31 {
            None
        } else {
            let hosts = (host_count(self.prefix_len) - 1) as u32;
            Some(Ipv4Address::from_bits(self.network_bits() + hosts))
        }
    }

    /// Whether the address is in the block.
    pub fn contains_addr(&self, address: &Ipv4Address) -> bool
        ensures value { result ≡ is_in_v4 self.now address.now }
        ensures meaning { IsTrue result ↔ IsInV4 self.now address.now }
    {
        self.contains_bits(address.to_bits())
    }

    /// Whether each address of the other block is in this one.
    pub fn contains_subnet(&self, subnet: &Ipv4Cidr) -> bool
        ensures { IsTrue result ↔ IsWithinV4 self.now subnet.now }
    {
        let bits = subnet.address.to_bits();
        self.prefix_len <= subnet.prefix_len && self.contains_bits(bits)
    }

    /// Whether the address that is this number is in the block.
    fn contains_bits(&self, bits: u32) -> bool
        ensures value { result ≡ bits / 2 ^ (32 - self.now.prefix_len) == v4_number self.now.address / 2 ^ (32 - self.now.prefix_len) }
        ensures meaning { IsTrue result ↔ (bits / 2 ^ (32 - self.now.prefix_len) ≡ v4_number self.now.address / 2 ^ (32 - self.now.prefix_len)) }
    {
        let host = 32 - self.prefix_len;
        u64::from(bits) >> host == u64::from(self.address.to_bits()) >> host
    }

    /// The block's address as a number, its host bits zero.
    fn network_bits(&self) -> u32
        ensures value { result ≡ network_number self.now }
        ensures room { result + 2 ^ (32 - self.now.prefix_len) ≤ 2 ^ 32 }
    {
        let bits = u64::from(self.address.to_bits());
        (bits - bits % host_count(self.prefix_len)) as u32
    }
}

impl fmt::Display for Ipv4Cidr {
    ghost use Rattle.wire_address.specs.Text.{ipv4_cidr_text};

    ghost output = { λ b. Some (ipv4_cidr_text b) };

    fn fmt<W: fmt::Write>(&self, f: &mut fmt::Formatter<W>) -> fmt::Result {
        write!(f, "{}/{}", self.address, self.prefix_len)
    }
}

/// Reads an IPv4 address, a slash and a decimal number up to 32.
impl FromStr for Ipv4Cidr {
    ghost use Rattle.wire_address.specs.Text.{ReadsIpv4Cidr};

    type Err = ();

    ghost from_str_gives = { ReadsIpv4Cidr };

    fn from_str(s: &str) -> Result<Ipv4Cidr, ()> {
        ipv4_cidr(s).ok_or(())
    }
}

/// How many addresses agree in the first `prefix_len` bits.
fn host_count(prefix_len: u8) -> u64
    requires { prefix_len ≤ 32 }
    ensures value { result ≡ 2 ^ (32 - prefix_len) }
    ensures room { result ≤ 2 ^ 32 }
    ensures some { 0 < result }
{
    1u64 << (32 - prefix_len)
}

/// What tells the pieces of one cut IPv4 packet from those of others (RFC 791, section 3.2).
#[derive(Clone, Copy, Debug, PartialEq, Eq, PartialOrd, Ord, Hash)]
pub struct Ipv4FragKey {
    pub id: u16,
    pub src_addr: Ipv4Address,
    pub dst_addr: Ipv4Address,
    pub protocol: IpProtocol,
}
