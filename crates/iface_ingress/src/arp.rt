//! ARP packets that arrive (RFC 826, RFC 5227).
ghost use Rattle.std.specs.Prelude.{◌≡◌};
ghost use Rattle.std.specs.List.{list_any};
ghost use Rattle.iface_egress.specs.Inner.{is_address_of};
ghost use Rattle.iface_ingress.specs.Arp.{is_known, is_sound, is_for_local, is_from_known, counts};
ghost use Rattle.iface_ingress.specs.Arp.{teaches, probes, learned, answer_at, arp_arrived, arp_answer};

use crate::neighbor_state::{knows, seeks};
use iface_egress::InterfaceInner;
use ip_wire::{AddressExt, ArpOperation, ArpRepr, HardwareAddress, IpAddress, IpCidr};
use sockets::Context;
use sockets::addresses::is_same_address;

/// Takes in an ARP packet: the sender's addresses are kept where it is one hardware address of a local network that asks for or answers
/// a local address, or that the host knows or asks for. Returns what a request for a local address is answered, also where its
/// sender only looks whether the address is in use.
pub fn process(inner: &mut InterfaceInner, packet: &ArpRepr) -> Option<ArpRepr>
    ensures host { inner.new ≡ arp_arrived inner.old packet.now }
    ensures answer { result ≡ arp_answer inner.old packet.now }
{
    let answered = counts(inner, packet) || probes(inner, packet);
    if teaches(inner, packet) {
        learn(inner, packet);
    }
    if answered {
        answer_at(&inner.hardware_addr(), packet)
    } else {
        None
    }
}

/// Whether the packet counts.
fn counts(inner: &InterfaceInner, packet: &ArpRepr) -> bool
    ensures { result ≡ counts inner.now packet.now }
{
    is_for_local(inner, packet) && is_sound(inner, packet)
}

/// Whether the packet teaches of its sender.
fn teaches(inner: &InterfaceInner, packet: &ArpRepr) -> bool
    ensures { result ≡ teaches inner.now packet.now }
{
    (is_for_local(inner, packet) || is_from_known(inner, packet)) && is_sound(inner, packet)
}

/// Whether the packet is from one hardware address of a local network.
fn is_sound(inner: &InterfaceInner, packet: &ArpRepr) -> bool
    ensures { result ≡ is_sound inner.now packet.now }
{
    let ArpRepr::EthernetIpv4 {
        operation,
        source_hardware_addr,
        source_protocol_addr,
        ..
    } = packet;
    is_known(*operation)
        && (source_protocol_addr.x_is_unicast() && source_hardware_addr.is_unicast())
        && inner.in_same_network(&IpAddress::Ipv4(*source_protocol_addr))
}

/// Whether the packet asks or answers a local address.
fn is_for_local(inner: &InterfaceInner, packet: &ArpRepr) -> bool
    ensures { result ≡ is_for_local inner.now packet.now }
{
    let ArpRepr::EthernetIpv4 {
        target_protocol_addr,
        ..
    } = packet;
    inner.has_ip_addr(&IpAddress::Ipv4(*target_protocol_addr))
}

/// Whether the packet's sender is one that the host knows or asks for.
fn is_from_known(inner: &InterfaceInner, packet: &ArpRepr) -> bool
    ensures { result ≡ is_from_known inner.now packet.now }
{
    let ArpRepr::EthernetIpv4 {
        source_protocol_addr,
        ..
    } = packet;
    let source = IpAddress::Ipv4(*source_protocol_addr);
    knows(inner, &source) || seeks(inner, &source)
}

/// Whether a hardware address that has no address yet looks whether an own one is in use.
fn probes(inner: &InterfaceInner, packet: &ArpRepr) -> bool
    ensures { result ≡ probes inner.now packet.now }
{
    match packet {
        ArpRepr::EthernetIpv4 {
            operation: ArpOperation::Request,
            source_hardware_addr,
            source_protocol_addr,
            target_protocol_addr,
            ..
        } => {
            source_protocol_addr.is_unspecified()
                && source_hardware_addr.is_unicast()
                && is_assigned(inner.ip_addrs(), &IpAddress::Ipv4(*target_protocol_addr))
        }
        _ => false,
    }
}

/// Whether this is one of the local addresses that were set.
fn is_assigned(addresses: &[IpCidr], address: &IpAddress) -> bool
    ensures { result ≡ list_any (is_address_of address.now) addresses.now }
{
    addresses
        .iter()
        .any(|cidr| is_same_address(&cidr.address(), address))
}

/// Whether this is a request or a reply.
fn is_known(operation: ArpOperation) -> bool
    ensures { result ≡ is_known operation }
{
    match operation {
        ArpOperation::Request | ArpOperation::Reply => true,
        ArpOperation::Unknown(_) => false,
    }
}

/// Keeps the sender's addresses.
fn learn(inner: &mut InterfaceInner, packet: &ArpRepr)
    ensures { inner.new ≡ learned inner.old packet.now }
{
    let ArpRepr::EthernetIpv4 {
        source_hardware_addr,
        source_protocol_addr,
        ..
    } = packet;
    inner.fill_neighbor(
        IpAddress::Ipv4(*source_protocol_addr),
        HardwareAddress::Ethernet(*source_hardware_addr),
    );
}

/// What a request is answered at this hardware address.
fn answer_at(hardware: &HardwareAddress, packet: &ArpRepr) -> Option<ArpRepr>
    ensures { result ≡ answer_at hardware.now packet.now }
{
    match (hardware, packet) {
        (
            HardwareAddress::Ethernet(local),
            ArpRepr::EthernetIpv4 {
                operation: ArpOperation::Request,
                source_hardware_addr,
                source_protocol_addr,
                target_protocol_addr,
                ..
            },
        ) => Some(ArpRepr::EthernetIpv4 {
            operation: ArpOperation::Reply,
            source_hardware_addr: *local,
            source_protocol_addr: *target_protocol_addr,
            target_hardware_addr: *source_hardware_addr,
            target_protocol_addr: *source_protocol_addr,
        }),
        _ => None,
    }
}
