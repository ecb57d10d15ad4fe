//! What the comparisons and hashes of addresses, blocks and endpoints mean: two values are equal
//! exactly where they are the same value, and orders and hashes agree with that. And what the
//! constants are.
ghost use Rattle.std.specs.Prelude.{◌≡◌, ◌↔◌, ℕ, IsTrue, None, ◌∷◌, ◌++◌, []};
ghost use Rattle.std.specs.Cmp.{IsTotalOrder};
ghost use Rattle.std.specs.Net.Addr.{octets_of};
ghost use Rattle.wire_address.specs.Address.{IsEthernetBroadcast, IsEthernetMulticast, IsEthernetUnicast, IsHardwareUnicast, version_of, IsUnspecified};
ghost use Rattle.wire_address.specs.Address.{IsMulticast, IsBroadcast, IsUnicast, IsUnspecifiedV4, IsLoopbackV4, IsBroadcastV4, IsUnspecifiedV6, IsLoopbackV6};
ghost use Rattle.wire_address.specs.Address.{solicited_prefix};
ghost use Rattle.wire_address.specs.AddressTests.{is_ethernet_broadcast, is_ethernet_multicast, is_ethernet_unicast, is_hardware_unicast, is_same_hardware};
ghost use Rattle.wire_address.specs.AddressTests.{is_unspecified, is_multicast, is_broadcast, is_unicast, is_loopback, is_in_cidr, are_of_one_family};
ghost use Rattle.wire_address.specs.AddressTests.{is_same_address};
ghost use Rattle.wire_address.specs.Cidr.{IsCidr, IsIn};
ghost use Rattle.wire_address.specs.Hardware.{raw_bytes};
ghost use Rattle.wire_address.specs.Order.{Agree, hash_after};
ghost use Rattle.wire_address.specs.Protocol.{ether_number, ether_of, protocol_number, protocol_of};

use crate::ethernet::{EthernetAddress, EthernetProtocol};
use crate::hardware::{HardwareAddress, MAX_HARDWARE_ADDRESS_LEN, RawHardwareAddress};
use crate::ip::{IpAddress, IpCidr, IpEndpoint, IpListenEndpoint, IpProtocol, IpVersion};
use crate::ipv4::{
    IPV4_MIN_MTU, IPV4_MULTICAST_ALL_ROUTERS, IPV4_MULTICAST_ALL_SYSTEMS, Ipv4Address, Ipv4Cidr,
    Ipv4FragKey,
};
use crate::ipv6::{
    IPV6_LINK_LOCAL_ALL_MLDV2_ROUTERS, IPV6_LINK_LOCAL_ALL_NODES, IPV6_LINK_LOCAL_ALL_ROUTERS,
    IPV6_MIN_MTU, Ipv6Address, Ipv6Cidr,
};
use crate::seq_number::SeqNumber;
use std::cmp::Ordering;
use std::hash::{DefaultHasher, Hash, Hasher};

/// What `==`, `cmp` and the standard hasher say of two values.
#[derive(Clone, Copy, Debug, PartialEq, Eq)]
pub struct Comparison {
    pub equal: bool,
    pub order: Ordering,
    pub hashes: (u64, u64),
}

/// Compares two values in all three ways.
pub fn compare<T: Ord + Hash>(a: &T, b: &T) -> Comparison
    ensures equal { result.equal ≡ T.eq a.now b.now }
    ensures order { result.order ≡ T.cmp a.now b.now }
    ensures first { result.hashes.0 ≡ hash_after (T.hash_input a.now) }
    ensures second { result.hashes.1 ≡ hash_after (T.hash_input b.now) }
    ensures tie { (result.order ≡ Ordering.Equal) ↔ IsTrue result.equal }
    ensures alike { IsTrue result.equal → result.hashes.0 ≡ result.hashes.1 }
{
    Comparison {
        equal: *a == *b,
        order: a.cmp(b),
        hashes: (hash_of(a), hash_of(b)),
    }
}

/// What the standard hasher gives for the value.
pub fn hash_of<T: Hash>(value: &T) -> u64
    ensures { result ≡ hash_after (T.hash_input value.now) }
{
    let mut state = DefaultHasher::new();
    value.hash(&mut state);
    state.finish()
}

/// Law: `cmp` is a total order: antisymmetric, transitive, and one for equal values.
pub fn is_total_order<T: Ord>()
    ensures { IsTotalOrder T.cmp }
{}

/// Compares Ethernet addresses.
pub fn compare_ethernet_addresses(a: &EthernetAddress, b: &EthernetAddress) -> Comparison
    ensures agree { Agree a.now b.now result }
    ensures order { result.order ≡ ⟦<EthernetAddress as Ord>⟧.cmp a.now b.now }
{
    compare(a, b)
}

/// Compares the hardware addresses of interfaces.
pub fn compare_hardware_addresses(a: &HardwareAddress, b: &HardwareAddress) -> Comparison
    ensures agree { Agree a.now b.now result }
    ensures order { result.order ≡ ⟦<HardwareAddress as Ord>⟧.cmp a.now b.now }
{
    compare(a, b)
}

/// Compares hardware addresses of any kind.
pub fn compare_raw_hardware_addresses(a: &RawHardwareAddress, b: &RawHardwareAddress) -> Comparison
    ensures agree { Agree (raw_bytes a.now) (raw_bytes b.now) result }
    ensures order { result.order ≡ ⟦<RawHardwareAddress as Ord>⟧.cmp a.now b.now }
{
    compare(a, b)
}

/// Compares IPv4 addresses.
pub fn compare_ipv4_addresses(a: &Ipv4Address, b: &Ipv4Address) -> Comparison
    ensures agree { Agree a.now b.now result }
    ensures order { result.order ≡ ⟦<Ipv4Address as Ord>⟧.cmp a.now b.now }
{
    compare(a, b)
}

/// Compares IPv6 addresses.
pub fn compare_ipv6_addresses(a: &Ipv6Address, b: &Ipv6Address) -> Comparison
    ensures agree { Agree a.now b.now result }
    ensures order { result.order ≡ ⟦<Ipv6Address as Ord>⟧.cmp a.now b.now }
{
    compare(a, b)
}

/// Compares addresses of either family.
pub fn compare_ip_addresses(a: &IpAddress, b: &IpAddress) -> Comparison
    ensures agree { Agree a.now b.now result }
    ensures order { result.order ≡ ⟦<IpAddress as Ord>⟧.cmp a.now b.now }
{
    compare(a, b)
}

/// Compares IPv4 blocks: with their host bits, so two that hold the same addresses may differ.
pub fn compare_ipv4_blocks(a: &Ipv4Cidr, b: &Ipv4Cidr) -> Comparison
    ensures agree { Agree a.now b.now result }
    ensures order { result.order ≡ ⟦<Ipv4Cidr as Ord>⟧.cmp a.now b.now }
{
    compare(a, b)
}

/// Compares IPv6 blocks, with their host bits.
pub fn compare_ipv6_blocks(a: &Ipv6Cidr, b: &Ipv6Cidr) -> Comparison
    ensures agree { Agree a.now b.now result }
    ensures order { result.order ≡ ⟦<Ipv6Cidr as Ord>⟧.cmp a.now b.now }
{
    compare(a, b)
}

/// Compares blocks of either family, with their host bits.
pub fn compare_ip_blocks(a: &IpCidr, b: &IpCidr) -> Comparison
    ensures agree { Agree a.now b.now result }
    ensures order { result.order ≡ ⟦<IpCidr as Ord>⟧.cmp a.now b.now }
{
    compare(a, b)
}

/// Compares endpoints.
pub fn compare_endpoints(a: &IpEndpoint, b: &IpEndpoint) -> Comparison
    ensures agree { Agree a.now b.now result }
    ensures order { result.order ≡ ⟦<IpEndpoint as Ord>⟧.cmp a.now b.now }
{
    compare(a, b)
}

/// Compares endpoints that may name no address.
pub fn compare_listen_endpoints(a: &IpListenEndpoint, b: &IpListenEndpoint) -> Comparison
    ensures agree { Agree a.now b.now result }
    ensures order { result.order ≡ ⟦<IpListenEndpoint as Ord>⟧.cmp a.now b.now }
{
    compare(a, b)
}

/// Compares what tells the pieces of one cut packet from those of others.
pub fn compare_fragment_keys(a: &Ipv4FragKey, b: &Ipv4FragKey) -> Comparison
    ensures agree { Agree a.now b.now result }
    ensures order { result.order ≡ ⟦<Ipv4FragKey as Ord>⟧.cmp a.now b.now }
{
    compare(a, b)
}

/// Compares what IP packets carry: a known number by its variant and as `Unknown` are two values.
pub fn compare_ip_protocols(a: &IpProtocol, b: &IpProtocol) -> Comparison
    ensures agree { Agree a.now b.now result }
    ensures order { result.order ≡ ⟦<IpProtocol as Ord>⟧.cmp a.now b.now }
{
    compare(a, b)
}

/// Compares what Ethernet frames carry, in the same way.
pub fn compare_ethernet_protocols(a: &EthernetProtocol, b: &EthernetProtocol) -> Comparison
    ensures agree { Agree a.now b.now result }
    ensures order { result.order ≡ ⟦<EthernetProtocol as Ord>⟧.cmp a.now b.now }
{
    compare(a, b)
}

/// Compares families.
pub fn compare_versions(a: &IpVersion, b: &IpVersion) -> Comparison
    ensures agree { Agree a.now b.now result }
    ensures order { result.order ≡ ⟦<IpVersion as Ord>⟧.cmp a.now b.now }
{
    compare(a, b)
}

/// Compares sequence numbers by `==` and by their hashes. They go round, so they have no `cmp`.
pub fn compare_sequence_numbers(a: SeqNumber, b: SeqNumber) -> (bool, u64, u64)
    ensures same { IsTrue result.0 ↔ (a ≡ b) }
    ensures first { result.1 ≡ hash_after (⟦<SeqNumber as Hash>⟧.hash_input a) }
    ensures second { result.2 ≡ hash_after (⟦<SeqNumber as Hash>⟧.hash_input b) }
    ensures alike { a ≡ b → result.1 ≡ result.2 }
{
    (a == b, hash_of(&a), hash_of(&b))
}

/// Law: what a number names has that number.
pub fn number_reads_back()
    ensures ether { (n : ℕ) → ether_number (ether_of n) ≡ n }
    ensures ip { (n : ℕ) → protocol_number (protocol_of n) ≡ n }
{}

/// Law: what the tests of hardware addresses, as truth values, mean.
pub fn hardware_tests()
    ensures broadcast { (a : EthernetAddress) → IsTrue (is_ethernet_broadcast a) ↔ IsEthernetBroadcast a }
    ensures multicast { (a : EthernetAddress) → IsTrue (is_ethernet_multicast a) ↔ IsEthernetMulticast a }
    ensures unicast { (a : EthernetAddress) → IsTrue (is_ethernet_unicast a) ↔ IsEthernetUnicast a }
    ensures hardware_unicast { (a : HardwareAddress) → IsTrue (is_hardware_unicast a) ↔ IsHardwareUnicast a }
    ensures equal { (a b : HardwareAddress) → ⟦<HardwareAddress as PartialEq>⟧.eq a b ≡ is_same_hardware a b }
    ensures same { (a b : HardwareAddress) → IsTrue (is_same_hardware a b) ↔ (a ≡ b) }
{}

/// Law: what the tests of addresses of both families, as truth values, mean.
pub fn address_tests()
    ensures unspecified { (a : IpAddress) → IsTrue (is_unspecified a) ↔ IsUnspecified a }
    ensures multicast { (a : IpAddress) → IsTrue (is_multicast a) ↔ IsMulticast a }
    ensures broadcast { (a : IpAddress) → IsTrue (is_broadcast a) ↔ IsBroadcast a }
    ensures unicast { (a : IpAddress) → IsTrue (is_unicast a) ↔ IsUnicast a }
    ensures loopback_v4 { (a : Ipv4Address) → IsTrue (is_loopback (IpAddress.Ipv4 a)) ↔ IsLoopbackV4 a }
    ensures loopback_v6 { (a : Ipv6Address) → IsTrue (is_loopback (IpAddress.Ipv6 a)) ↔ IsLoopbackV6 a }
    ensures in_cidr { (b : IpCidr) (a : IpAddress) → IsTrue (is_in_cidr b a) ↔ IsIn b a }
    ensures family { (a b : IpAddress) → IsTrue (are_of_one_family a b) ↔ (version_of a ≡ version_of b) }
    ensures equal { (a b : IpAddress) → ⟦<IpAddress as PartialEq>⟧.eq a b ≡ is_same_address a b }
    ensures same { (a b : IpAddress) → IsTrue (is_same_address a b) ↔ (a ≡ b) }
{}

/// Law: the values of the constants of hardware addresses.
pub fn hardware_constants()
    ensures most { MAX_HARDWARE_ADDRESS_LEN ≡ 6 }
    ensures broadcast { IsEthernetBroadcast EthernetAddress.BROADCAST }
{}

/// Law: the values of the constants of IPv4.
pub fn ipv4_constants()
    ensures min_mtu { IPV4_MIN_MTU ≡ 576 }
    ensures all_systems { IPV4_MULTICAST_ALL_SYSTEMS.0 ≡ 224 ∷ 0 ∷ 0 ∷ 1 ∷ [] }
    ensures all_routers { IPV4_MULTICAST_ALL_ROUTERS.0 ≡ 224 ∷ 0 ∷ 0 ∷ 2 ∷ [] }
    ensures unspecified { IsUnspecifiedV4 Ipv4Address.UNSPECIFIED }
    ensures localhost { Ipv4Address.LOCALHOST.0 ≡ 127 ∷ 0 ∷ 0 ∷ 1 ∷ [] }
    ensures broadcast { IsBroadcastV4 Ipv4Address.BROADCAST }
{}

/// Law: the values of the constants of IPv6.
pub fn ipv6_constants()
    ensures min_mtu { IPV6_MIN_MTU ≡ 1280 }
    ensures all_nodes { IPV6_LINK_LOCAL_ALL_NODES.0 ≡ octets_of (0xff02 ∷ 0 ∷ 0 ∷ 0 ∷ 0 ∷ 0 ∷ 0 ∷ 1 ∷ []) }
    ensures all_routers { IPV6_LINK_LOCAL_ALL_ROUTERS.0 ≡ octets_of (0xff02 ∷ 0 ∷ 0 ∷ 0 ∷ 0 ∷ 0 ∷ 0 ∷ 2 ∷ []) }
    ensures all_mldv2_routers { IPV6_LINK_LOCAL_ALL_MLDV2_ROUTERS.0 ≡ octets_of (0xff02 ∷ 0 ∷ 0 ∷ 0 ∷ 0 ∷ 0 ∷ 0 ∷ 0x16 ∷ []) }
    ensures unspecified { IsUnspecifiedV6 Ipv6Address.UNSPECIFIED }
    ensures localhost { IsLoopbackV6 Ipv6Address.LOCALHOST }
{}

/// The listen endpoint that a default is: no address and no port.
pub fn default_listen_endpoint() -> IpListenEndpoint
    ensures { result ≡ record { addr = None; port = 0 } }
{
    IpListenEndpoint::default()
}

/// The sequence number that a default is: 0.
pub fn default_sequence_number() -> SeqNumber
    ensures { result.0 ≡ 0 }
{
    SeqNumber::default()
}

/// The blocks that have a constant: of solicited-node addresses, and of link-local ones.
pub fn ipv6_prefixes() -> (Ipv6Cidr, Ipv6Cidr)
    ensures solicited_node { IsCidr (IpCidr.Ipv6 result.0) (solicited_prefix ++ 0 ∷ 0 ∷ 0 ∷ []) 104 }
    ensures link_local { IsCidr (IpCidr.Ipv6 result.1) (octets_of (0xfe80 ∷ 0 ∷ 0 ∷ 0 ∷ 0 ∷ 0 ∷ 0 ∷ 0 ∷ [])) 10 }
{
    (Ipv6Cidr::SOLICITED_NODE_PREFIX, Ipv6Cidr::LINK_LOCAL_PREFIX)
}
