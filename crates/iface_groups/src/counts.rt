//! Which groups are told of, and which queries count.
ghost use Rattle.std.specs.Prelude.{◌≡◌};
ghost use Rattle.iface_groups.specs.Counts.{is_reported_v4, is_reported_v6, counts_v4, counts_v6};

use wire_address::{
    IPV4_MULTICAST_ALL_SYSTEMS, IPV6_LINK_LOCAL_ALL_NODES, Ipv4Address, Ipv6Address,
};

/// The first byte from which on an address is none of one host (RFC 1122, section 3.2.1.3).
const CLASS_D: u8 = 224;

/// The narrowest scope whose groups are told of: the link.
const LINK_LOCAL_SCOPE: u8 = 2;

/// Whether a host that listens to this group tells it. All systems of the link is never told of
/// (RFC 3376, section 5).
pub fn is_reported_v4(group: &Ipv4Address) -> bool
    ensures { result ≡ is_reported_v4 group.now }
{
    group.is_multicast() && *group != IPV4_MULTICAST_ALL_SYSTEMS
}

/// The same of IPv6: all nodes of the link and what is narrower than the link are never told of
/// (RFC 3810, section 6).
pub fn is_reported_v6(group: &Ipv6Address) -> bool
    ensures { result ≡ is_reported_v6 group.now }
{
    group.is_multicast()
        && group.octets()[1] % 16 >= LINK_LOCAL_SCOPE
        && *group != IPV6_LINK_LOCAL_ALL_NODES
}

/// Whether a query of IGMP counts that came from `src_addr` to `dst_addr` and asks for `group_addr`,
/// `0.0.0.0` where for all groups: it comes from another host, and to the host alone, to all systems,
/// or to the group that it asks for (RFC 3376, sections 4.1.12 and 9.1).
pub fn counts_v4(
    src_addr: &Ipv4Address,
    dst_addr: &Ipv4Address,
    group_addr: &Ipv4Address,
    is_own_source: bool,
    is_own_destination: bool,
) -> bool
    ensures { result ≡ counts_v4 src_addr.now dst_addr.now group_addr.now is_own_source is_own_destination }
{
    let from_host = !is_own_source && src_addr.octets()[0] < CLASS_D;
    let to_host = is_own_destination || *dst_addr == IPV4_MULTICAST_ALL_SYSTEMS;
    let to_group = !group_addr.is_unspecified() && dst_addr == group_addr;
    from_host && (to_host || to_group)
}

/// Whether a query of MLD counts: it comes from another node's link-local address with hop limit 1
/// behind a router alert of value 0, and to the host alone, to all nodes, or to the group that it
/// asks for (RFC 3810, sections 5.1.14, 5.1.15 and 6.2).
pub fn counts_v6(
    src_addr: &Ipv6Address,
    dst_addr: &Ipv6Address,
    mcast_addr: &Ipv6Address,
    hop_limit: u8,
    has_router_alert: bool,
    is_own_source: bool,
    is_own_destination: bool,
) -> bool
    ensures { result
        ≡ counts_v6 src_addr.now dst_addr.now mcast_addr.now hop_limit has_router_alert is_own_source is_own_destination }
{
    let from_node = !is_own_source && src_addr.is_link_local();
    let on_link = hop_limit == 1 && has_router_alert;
    let to_host = is_own_destination || *dst_addr == IPV6_LINK_LOCAL_ALL_NODES;
    let to_group = !mcast_addr.is_unspecified() && dst_addr == mcast_addr;
    from_node && on_link && (to_host || to_group)
}
