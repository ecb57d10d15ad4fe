//! What an address is to a host with these addresses.
ghost use Rattle.std.specs.Prelude.{◌≡◌, drop};
ghost use Rattle.std.specs.List.{list_any};
ghost use Rattle.ip_wire.specs.AddressTests.{is_loopback};
ghost use Rattle.iface_tables.specs.Inner.{is_address_of, is_this, is_broadcast_of, solicits, solicits_cidr, is_loopback_in, is_in_link_prefix};
ghost use Rattle.iface_tables.specs.Inner.{is_limited_broadcast, is_mapped, is_loopback_of, group_hardware_addr};
ghost use Rattle.iface_tables.specs.Settings.{is_stranger};

use ip_wire::{AddressExt, EthernetAddress, IpAddress, IpCidr, Ipv4Address, Ipv6Address};
use socket_context::addresses::{are_of_one_family, is_same_address};

/// The first half of each link-local address, `fe80::/64`.
const LINK_PREFIX: [u8; 8] = [0xfe, 0x80, 0, 0, 0, 0, 0, 0];

/// The first bytes of each IPv6 address that stands for an IPv4 one, `::ffff:0:0/96`.
const MAPPED_PREFIX: [u8; 12] = [0, 0, 0, 0, 0, 0, 0, 0, 0, 0, 0xff, 0xff];

/// Whether this is one of the addresses.
pub(crate) fn is_in_list(addresses: &[IpCidr], address: &IpAddress) -> bool
    ensures { result ≡ list_any (is_address_of address.now) addresses.now }
{
    addresses
        .iter()
        .any(|cidr| is_same_address(&cidr.address(), address))
}

/// Whether this is the broadcast address of one of the networks.
pub(crate) fn is_broadcast_in(addresses: &[IpCidr], address: &Ipv4Address) -> bool
    ensures { result ≡ list_any (is_broadcast_of address.now) addresses.now }
{
    addresses.iter().any(|cidr| is_broadcast_of(address, cidr))
}

fn is_broadcast_of(address: &Ipv4Address, cidr: &IpCidr) -> bool
    ensures { result ≡ is_broadcast_of address.now cidr.now }
{
    match cidr {
        IpCidr::Ipv4(cidr) => is_this(cidr.broadcast(), address),
        IpCidr::Ipv6(_) => false,
    }
}

fn is_this(other: Option<Ipv4Address>, address: &Ipv4Address) -> bool
    ensures { result ≡ is_this other address.now }
{
    match other {
        Some(other) => {
            u32::from_le_bytes(address.octets()) == u32::from_le_bytes(other.octets())
        }
        None => false,
    }
}

/// Whether this is the solicited-node address of the block's address, which isn't `::1`.
pub(crate) fn solicits_cidr(group: &Ipv6Address, cidr: &IpCidr) -> bool
    ensures { result ≡ solicits_cidr group.now cidr.now }
{
    match cidr {
        IpCidr::Ipv4(_) => false,
        IpCidr::Ipv6(cidr) => !cidr.address.is_loopback() && solicits(group, &cidr.address),
    }
}

/// Whether the group's last 24 bits are the address's, after the solicited-node prefix.
pub(crate) fn solicits(group: &Ipv6Address, address: &Ipv6Address) -> bool
    ensures { result ≡ solicits group.now address.now }
{
    group.is_solicited_node_multicast() && last_bits(group) == last_bits(address)
}

/// The last 24 bits.
fn last_bits(address: &Ipv6Address) -> &[u8]
    ensures { result.now ≡ drop 13 address.now.0 }
{
    let (_, last) = address.0.split_at(13);
    last
}

pub(crate) fn is_loopback_in(address: &IpAddress) -> bool
    ensures { result ≡ is_loopback_in address.now }
{
    match address {
        IpAddress::Ipv4(_) => false,
        IpAddress::Ipv6(address) => address.is_loopback(),
    }
}

/// Whether this is a link-local address.
pub(crate) fn is_in_link_prefix(address: &IpAddress) -> bool
    ensures { result ≡ is_in_link_prefix address.now }
{
    match address {
        IpAddress::Ipv4(_) => false,
        IpAddress::Ipv6(address) => {
            let (prefix, _) = address.0.split_at(8);
            prefix == LINK_PREFIX.as_slice()
        }
    }
}

pub(crate) fn is_loopback(address: &IpAddress) -> bool
    ensures { result ≡ is_loopback address.now }
{
    match address {
        IpAddress::Ipv4(address) => address.is_loopback(),
        IpAddress::Ipv6(address) => address.is_loopback(),
    }
}

/// Whether this is the address of all hosts of the network that the packet is in.
pub(crate) fn is_limited_broadcast(address: &IpAddress) -> bool
    ensures { result ≡ is_limited_broadcast address.now }
{
    match address {
        IpAddress::Ipv4(address) => address.is_broadcast(),
        IpAddress::Ipv6(_) => false,
    }
}

/// Whether this IPv6 address stands for an IPv4 one.
pub(crate) fn is_mapped(address: &IpAddress) -> bool
    ensures { result ≡ is_mapped address.now }
{
    match address {
        IpAddress::Ipv4(_) => false,
        IpAddress::Ipv6(address) => {
            let (prefix, _) = address.0.split_at(12);
            prefix == MAPPED_PREFIX.as_slice()
        }
    }
}

/// Whether one of the addresses is a loopback address of this one's family.
pub(crate) fn has_loopback_of(addresses: &[IpCidr], address: &IpAddress) -> bool
    ensures { result ≡ list_any (is_loopback_of address.now) addresses.now }
{
    addresses.iter().any(|cidr| is_loopback_of(address, cidr))
}

/// Whether the block's address is a loopback address of this one's family.
fn is_loopback_of(address: &IpAddress, cidr: &IpCidr) -> bool
    ensures { result ≡ is_loopback_of address.now cidr.now }
{
    let local = cidr.address();
    is_loopback(&local) && are_of_one_family(address, &local)
}

/// The Ethernet address of a group.
pub(crate) fn group_hardware_addr(group: &IpAddress) -> EthernetAddress
    ensures { result ≡ group_hardware_addr group.now }
{
    match group {
        IpAddress::Ipv4(group) => {
            let [_, b, c, d] = group.0;
            EthernetAddress([0x01, 0x00, 0x5e, b % 128, c, d])
        }
        IpAddress::Ipv6(group) => {
            let tail = &group.0[12..];
            EthernetAddress([0x33, 0x33, tail[0], tail[1], tail[2], tail[3]])
        }
    }
}

/// Whether one of the addresses can't be set.
pub(crate) fn has_stranger(addresses: &[IpCidr]) -> bool
    ensures { result ≡ list_any is_stranger addresses.now }
{
    addresses.iter().any(|cidr| is_stranger(cidr))
}

/// Whether this is neither one host's address nor unspecified.
fn is_stranger(cidr: &IpCidr) -> bool
    ensures { result ≡ is_stranger cidr.now }
{
    let address = cidr.address();
    !(address.is_unicast() || address.is_unspecified())
}
