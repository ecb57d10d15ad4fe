//! What is to be done with a packet that wants to be transmitted.
ghost use Rattle.std.specs.Prelude.{◌≡◌, ◌≤◌, nat_le};
ghost use Rattle.iface_egress.specs.Plan.{longest_cut, total_len, has_extensions, can_be_cut, long_plan, plan_to};
ghost use Rattle.iface_egress.specs.Plan.{solicit_v4, solicit_on, may_solicit, solicit_if, plan_by, stays, plan_from, plan_of};

use crate::frame::NeighborQuery;
use iface_tables::{InterfaceInner, LinkAddress};
use ip_wire::{EthernetAddress, HardwareAddress, IpAddress, IpProtocol, IpRepr, Ipv4Address};
use socket_context::Context;
use socket_context::addresses::is_unspecified;
use wire_ipv6_headers::is_extension;

/// The longest datagram that is cut.
const LONGEST_CUT: usize = 4_096;

/// What is to be done with a packet.
#[derive(Clone, Copy, Debug, PartialEq, Eq)]
pub enum Plan {
    /// It can't go at all.
    Drop,
    /// Nothing serves its destination.
    NoRoute,
    /// Its next hop's hardware address isn't known, and no neighbour may be asked for now.
    Wait,
    /// It has to be cut, and fragments of another datagram wait.
    Busy,
    /// Its next hop's hardware address has to be asked for.
    Ask(NeighborQuery),
    /// It goes to this hardware address.
    Go(HardwareAddress),
    /// It goes there in fragments.
    Cut(HardwareAddress),
}

/// What is to be done with a packet of this header. `busy` says that fragments of a datagram wait. A packet that goes whole is
/// no longer than its length field can say.
pub fn plan_for(inner: &InterfaceInner, busy: bool, header: &IpRepr) -> Plan
    ensures value { result ≡ plan_of inner.now busy header.now }
    ensures mtu { inner.now.mtu ≤ 65535 }
{
    let from_here = inner.may_be_source(&header.src_addr(), &header.dst_addr());
    plan_from(inner, from_here, busy, header)
}

/// The same where it is known whether the packet may come from its source.
pub fn plan_from(inner: &InterfaceInner, from_here: bool, busy: bool, header: &IpRepr) -> Plan
    ensures value { result ≡ plan_from inner.now from_here busy header.now }
    ensures mtu { inner.now.mtu ≤ 65535 }
{
    let _mtu = inner.mtu();
    let destination = header.dst_addr();
    if stays(inner, from_here, &destination) {
        return Plan::Drop;
    }
    match inner.link_address(&destination) {
        LinkAddress::Known(to) => plan_to(to, inner.mtu_to(&destination), busy, header),
        LinkAddress::NoRoute => Plan::NoRoute,
        LinkAddress::Silent => Plan::Wait,
        LinkAddress::Unanswered => Plan::Drop,
        LinkAddress::Unknown(hop) => ask_if_possible(inner, &hop),
    }
}

/// Whether a packet is for the unspecified address or a loopback address that isn't here, or from what can't be a source.
fn stays(inner: &InterfaceInner, from_here: bool, destination: &IpAddress) -> bool
    ensures { result ≡ stays inner.now from_here destination.now }
{
    is_unspecified(destination) || inner.is_foreign_loopback(destination) || !from_here
}

/// The packet's next hop is known, and so its length counts.
fn plan_to(to: HardwareAddress, mtu: usize, busy: bool, header: &IpRepr) -> Plan
    ensures { result ≡ plan_to to mtu busy header.now }
{
    if is_within(header, mtu) {
        Plan::Go(to)
    } else {
        long_plan(to, busy, header)
    }
}

/// Whether a packet is no longer than this.
fn is_within(header: &IpRepr, mtu: usize) -> bool
    ensures { result ≡ nat_le (total_len header.now) mtu }
{
    match header.header_len().checked_add(header.payload_len()) {
        Some(total) => total <= mtu,
        None => false,
    }
}

/// The packet is too long for one frame, or for the path to its destination.
fn long_plan(to: HardwareAddress, busy: bool, header: &IpRepr) -> Plan
    ensures { result ≡ long_plan busy to header.now }
{
    if !can_be_cut(header) {
        Plan::Drop
    } else if busy {
        Plan::Busy
    } else {
        Plan::Cut(to)
    }
}

/// Whether a packet may go in fragments.
fn can_be_cut(header: &IpRepr) -> bool
    ensures { result ≡ can_be_cut header.now }
{
    is_within(header, LONGEST_CUT) && !has_extensions(header)
}

/// Whether an extension header stands after the IPv6 header.
fn has_extensions(header: &IpRepr) -> bool
    ensures { result ≡ has_extensions header.now }
{
    match header {
        IpRepr::Ipv4(_) => false,
        IpRepr::Ipv6(header) => is_extension(IpProtocol::from(u8::from(header.next_header))),
    }
}

/// A next hop's hardware address isn't known. It is asked for, if the host has an address to ask from.
fn ask_if_possible(inner: &InterfaceInner, hop: &IpAddress) -> Plan
    ensures { result ≡ solicit_if (may_solicit inner.now hop.now) inner.now hop.now }
{
    if may_solicit(inner, hop) {
        solicit_on(inner, hop)
    } else {
        Plan::NoRoute
    }
}

/// Whether the address that a packet for a next hop would be sent from may be a source.
fn may_solicit(inner: &InterfaceInner, hop: &IpAddress) -> bool
    ensures { result ≡ may_solicit inner.now hop.now }
{
    match inner.get_source_address(hop) {
        Some(source) => inner.may_be_source(&source, hop),
        None => false,
    }
}

/// A next hop's hardware address isn't known.
fn solicit_on(inner: &InterfaceInner, hop: &IpAddress) -> Plan
    ensures { result ≡ solicit_on inner.now.hardware inner.now hop.now }
{
    match (inner.hardware_addr(), hop) {
        (HardwareAddress::Ip, _) => Plan::NoRoute,
        (HardwareAddress::Ethernet(local), IpAddress::Ipv4(hop)) => {
            solicit_v4(local, inner.get_source_address_ipv4(hop), hop)
        }
        (HardwareAddress::Ethernet(local), IpAddress::Ipv6(hop)) => Plan::Ask(
            NeighborQuery::Neighbor {
                local,
                source: inner.get_source_address_ipv6(hop),
                target: *hop,
            },
        ),
    }
}

/// The question for an IPv4 neighbour, if there is an address to ask from.
fn solicit_v4(local: EthernetAddress, source: Option<Ipv4Address>, hop: &Ipv4Address) -> Plan
    ensures { result ≡ solicit_v4 local source hop.now }
{
    match source {
        Some(source) => Plan::Ask(NeighborQuery::Arp {
            local,
            source,
            target: *hop,
        }),
        None => Plan::NoRoute,
    }
}
