//! Values of `ip_wire`, by its own path.
ghost use Rattle.std.specs.Prelude.{◌≡◌, ◌↔◌, IsTrue, ◌∷◌, []};
ghost use Rattle.std.specs.Net.Addr.{octets_of};
ghost use Rattle.ip_wire.specs.declared.arp.repr.ArpRepr.{ArpRepr};
ghost use Rattle.ip_wire.specs.declared.ethernet.repr.EthernetRepr.{EthernetRepr};
ghost use Rattle.ip_wire.specs.IpRepr.{IpRepr};
ghost use Rattle.ip_wire.specs.Ipv4Repr.{Ipv4Repr};
ghost use Rattle.ip_wire.specs.Ipv4Fragment.{Ipv4Fragment};
ghost use Rattle.ip_wire.specs.declared.ipv6_fragment.repr.Ipv6FragmentRepr.{Ipv6FragmentRepr};
ghost use Rattle.ip_wire.specs.Ipv6Repr.{Ipv6Repr};
ghost use Rattle.ip_wire.specs.Tcp.{header_of};
ghost use Rattle.ip_wire.specs.Options.{value_of};
ghost use Rattle.ip_wire.specs.TcpControl.{TcpControl};
ghost use Rattle.ip_wire.specs.TcpHeader.{TcpHeader};
ghost use Rattle.ip_wire.specs.TcpOption.{TcpOption};
ghost use Rattle.ip_wire.specs.TcpOptions.{TcpOptions};
ghost use Rattle.ip_wire.specs.TcpRepr.{TcpRepr};
ghost use Rattle.ip_wire.specs.TcpTimestampGenerator.{TcpTimestampGenerator};
ghost use Rattle.ip_wire.specs.TcpTimestampRepr.{TcpTimestampRepr};
ghost use Rattle.ip_wire.specs.UdpRepr.{UdpRepr};

use ip_wire::{
    ArpRepr, Error, EthernetRepr, IPV4_MIN_MTU, IPV4_MULTICAST_ALL_ROUTERS,
    IPV4_MULTICAST_ALL_SYSTEMS, IPV6_LINK_LOCAL_ALL_MLDV2_ROUTERS, IPV6_LINK_LOCAL_ALL_NODES,
    IPV6_LINK_LOCAL_ALL_ROUTERS, IPV6_MIN_MTU, IpRepr, Ipv4Fragment, Ipv4Repr, Ipv6FragmentRepr,
    Ipv6Repr, MAX_HARDWARE_ADDRESS_LEN, MAX_WINDOW_SCALE, TcpControl, TcpHeader, TcpOption,
    TcpOptions, TcpRepr, TcpTimestampGenerator, TcpTimestampRepr, UdpRepr, address_laws, arp_laws,
    ethernet_laws, ip_laws, ipv4_laws, ipv6_fragment_laws, ipv6_laws, tcp_laws, udp_laws,
};

/// Law: `==` of headers under the names that the crate passes on says whether they are the same.
pub fn headers_are_equated()
    ensures ethernet { (a b : EthernetRepr) → IsTrue (⟦<EthernetRepr as PartialEq>⟧.eq a b) ↔ (a ≡ b) }
    ensures arp { (a b : ArpRepr) → IsTrue (⟦<ArpRepr as PartialEq>⟧.eq a b) ↔ (a ≡ b) }
    ensures ipv6_fragment { (a b : Ipv6FragmentRepr) → IsTrue (⟦<Ipv6FragmentRepr as PartialEq>⟧.eq a b) ↔ (a ≡ b) }
    ensures ipv4 { (a b : Ipv4Repr) → IsTrue (⟦<Ipv4Repr as PartialEq>⟧.eq a b) ↔ (a ≡ b) }
    ensures fragment { (a b : Ipv4Fragment) → IsTrue (⟦<Ipv4Fragment as PartialEq>⟧.eq a b) ↔ (a ≡ b) }
    ensures ipv6 { (a b : Ipv6Repr) → IsTrue (⟦<Ipv6Repr as PartialEq>⟧.eq a b) ↔ (a ≡ b) }
    ensures ip { (a b : IpRepr) → IsTrue (⟦<IpRepr as PartialEq>⟧.eq a b) ↔ (a ≡ b) }
    ensures udp { (a b : UdpRepr) → IsTrue (⟦<UdpRepr as PartialEq>⟧.eq a b) ↔ (a ≡ b) }
{
    ethernet_laws::ethernet_equal();
    arp_laws::arp_equal();
    ipv6_fragment_laws::ipv6_fragment_equal();
    ipv4_laws::ipv4_equal();
    ipv6_laws::ipv6_equal();
    ip_laws::ip_equal();
    udp_laws::udp_equal();
}

/// Law: the same of what makes up TCP segments.
pub fn segments_are_equated<'a>()
    ensures control { (a b : TcpControl) → IsTrue (⟦<TcpControl as PartialEq>⟧.eq a b) ↔ (a ≡ b) }
    ensures timestamps { (a b : TcpTimestampRepr) → IsTrue (⟦<TcpTimestampRepr as PartialEq>⟧.eq a b) ↔ (a ≡ b) }
    ensures generators { (a b : TcpTimestampGenerator) → IsTrue (⟦<TcpTimestampGenerator as PartialEq>⟧.eq a b) ↔ (a ≡ b) }
    ensures options { (a b : TcpOptions) → IsTrue (⟦<TcpOptions as PartialEq>⟧.eq a b) ↔ (a ≡ b) }
    ensures header { (a b : TcpHeader) → IsTrue (⟦<TcpHeader as PartialEq>⟧.eq a b) ↔ (a ≡ b) }
    ensures option { (a b : TcpOption) → IsTrue (⟦<TcpOption<'a> as PartialEq>⟧.eq a b) ↔ (value_of a ≡ value_of b) }
    ensures segment { (a b : TcpRepr) → IsTrue (⟦<TcpRepr<'a> as PartialEq>⟧.eq a b)
        ↔ ((header_of a ≡ header_of b) × (a.payload.now ≡ b.payload.now)) }
{
    tcp_laws::tcp_equal();
    tcp_laws::tcp_borrowed_equal();
}

/// Law: the refusal of every reader is always equal.
pub fn refusals_are_equated(one: Error, other: Error) -> bool
    ensures { IsTrue result }
{
    one == other
}

/// Law: the constants of addresses (RFC 1112, section 4; RFC 4291, section 2.7.1; RFC 3810, section 10).
pub fn constants()
    ensures hardware_len { MAX_HARDWARE_ADDRESS_LEN ≡ 6 }
    ensures ipv4_mtu { IPV4_MIN_MTU ≡ 576 }
    ensures all_systems { IPV4_MULTICAST_ALL_SYSTEMS.0 ≡ 224 ∷ 0 ∷ 0 ∷ 1 ∷ [] }
    ensures all_ipv4_routers { IPV4_MULTICAST_ALL_ROUTERS.0 ≡ 224 ∷ 0 ∷ 0 ∷ 2 ∷ [] }
    ensures ipv6_mtu { IPV6_MIN_MTU ≡ 1280 }
    ensures all_nodes { IPV6_LINK_LOCAL_ALL_NODES.0 ≡ octets_of (0xff02 ∷ 0 ∷ 0 ∷ 0 ∷ 0 ∷ 0 ∷ 0 ∷ 1 ∷ []) }
    ensures all_routers { IPV6_LINK_LOCAL_ALL_ROUTERS.0 ≡ octets_of (0xff02 ∷ 0 ∷ 0 ∷ 0 ∷ 0 ∷ 0 ∷ 0 ∷ 2 ∷ []) }
    ensures all_mldv2_routers { IPV6_LINK_LOCAL_ALL_MLDV2_ROUTERS.0 ≡ octets_of (0xff02 ∷ 0 ∷ 0 ∷ 0 ∷ 0 ∷ 0 ∷ 0 ∷ 0x16 ∷ []) }
    ensures window_scale { MAX_WINDOW_SCALE ≡ 14 }
{
    address_laws::ipv6_constants();
}

/// Law: a clone is the value.
pub fn clones()
    ensures ethernet { (a b : EthernetRepr) → ⟦<EthernetRepr as Clone>⟧.is_clone a b → b ≡ a }
    ensures arp { (a b : ArpRepr) → ⟦<ArpRepr as Clone>⟧.is_clone a b → b ≡ a }
    ensures ipv4 { (a b : Ipv4Repr) → ⟦<Ipv4Repr as Clone>⟧.is_clone a b → b ≡ a }
    ensures udp { (a b : UdpRepr) → ⟦<UdpRepr as Clone>⟧.is_clone a b → b ≡ a }
{}
