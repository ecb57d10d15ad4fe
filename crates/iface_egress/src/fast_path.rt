//! A packet that goes whole and at once, as nearly all do: from this host, to a hardware address that is known, in one frame.
ghost use Rattle.std.specs.Prelude.{◌≡◌, nat_le, IfSome};
ghost use Rattle.ip_wire.specs.IpAddress.TheVariants as Address;
ghost use Rattle.ip_wire.specs.IpRepr.TheVariants as Ip;
ghost use Rattle.socket_context.specs.Packet.{packet_of};
ghost use Rattle.iface_tables.specs.Inner.{link_address, mtu_to};
ghost use Rattle.iface_tables.specs.declared.link.LinkAddress.TheVariants as Link;
ghost use Rattle.iface_egress.specs.FastPath.{direct_packet};
ghost use Rattle.iface_egress.specs.Plan.{total_len, is_ordinary, GoesDirect};

use crate::payload::{Carried, Direct};
use iface_tables::{InterfaceInner, LinkAddress};
use ip_wire::{HardwareAddress, IPV4_HEADER_LEN, IpAddress, IpRepr, Ipv4Repr};
use socket_context::Context;

/// A packet of this header, if it goes straight to a hardware address. One of which nothing is said here goes as `plan_for` says.
pub fn direct_route<'a, P: Carried>(
    inner: &InterfaceInner,
    header: &'a IpRepr,
    carried: P,
) -> Option<Direct<'a, P>>
    ensures packet { IfSome result (λ s. direct_packet P.value s ≡ packet_of header.now (P.value carried)) }
    ensures direct { IfSome result (λ s. GoesDirect inner.now (direct_packet P.value s).header s.to) }
{
    let IpRepr::Ipv4(header) = header else {
        return None;
    };
    match direct_v4(inner, header) {
        Some(to) => Some(Direct {
            to,
            header,
            carried,
        }),
        None => None,
    }
}

/// The hardware address that an IPv4 packet goes to whole, as its plan says, where that is seen at once: its addresses are compared as
/// words.
#[tactic(auto, using(crate::proofs::GoesWhole::direct_if))]
fn direct_v4(inner: &InterfaceInner, header: &Ipv4Repr) -> Option<HardwareAddress>
    ensures { IfSome result (λ to. GoesDirect inner.now (Ip.Ipv4 header.now) to) }
{
    if is_ordinary(inner, header) && is_short(inner, header) {
        hardware_addr_of(inner, header)
    } else {
        None
    }
}

/// Whether a packet stays out of the host: it is neither from nor for a loopback address, for some host, and from one.
fn is_ordinary(inner: &InterfaceInner, header: &Ipv4Repr) -> bool
    ensures { result ≡ is_ordinary inner.now header.now }
{
    let (source, destination) = (header.src_addr, header.dst_addr);
    !(source.is_loopback() || destination.is_loopback())
        && !destination.is_unspecified()
        && !(inner.is_broadcast(&IpAddress::Ipv4(source))
            || source.is_multicast()
            || source.is_unspecified())
}

/// Whether a packet is no longer than the path to its destination carries.
fn is_short(inner: &InterfaceInner, header: &Ipv4Repr) -> bool
    ensures { result ≡ nat_le (total_len (Ip.Ipv4 header.now)) (mtu_to inner.now (Address.Ipv4 header.now.dst_addr)) }
{
    let mtu = inner.mtu_to(&IpAddress::Ipv4(header.dst_addr));
    match IPV4_HEADER_LEN.checked_add(header.payload_len) {
        Some(total) => total <= mtu,
        None => false,
    }
}

/// Where a packet's frame goes, if that is known.
fn hardware_addr_of(inner: &InterfaceInner, header: &Ipv4Repr) -> Option<HardwareAddress>
    ensures { IfSome result (λ to. link_address inner.now (Address.Ipv4 header.now.dst_addr) ≡ Link.Known to) }
{
    match inner.hardware_addr() {
        HardwareAddress::Ip => Some(HardwareAddress::Ip),
        HardwareAddress::Ethernet(_) => known_hardware_addr(
            inner,
            &IpAddress::Ipv4(header.dst_addr),
        ),
    }
}

/// The same on a medium that has hardware addresses.
fn known_hardware_addr(inner: &InterfaceInner, destination: &IpAddress) -> Option<HardwareAddress>
    ensures { IfSome result (λ to. link_address inner.now destination.now ≡ Link.Known to) }
{
    match inner.link_address(destination) {
        LinkAddress::Known(to) => Some(to),
        _ => None,
    }
}
