//! Neighbour messages that arrive.
ghost use Rattle.std.specs.Prelude.{◌≡◌, IsTrue, IfSome};
ghost use Rattle.wire_icmpv6.specs.Ndisc.{neighbor_message};
ghost use Rattle.wire_icmpv6.specs.NdiscOption.{link_bytes};
ghost use Rattle.sockets.specs.Packet.{packet_value, option_value, IsSendable};
ghost use Rattle.iface_ingress.specs.Ndisc.{neighbor_learned, is_one_hardware_addr, is_sender_of, counts, asks_host, tells, learned, replaces, advertised, is_asked};
ghost use Rattle.iface_ingress.specs.Ndisc.{told_at, flags_for, advertisement};

use crate::neighbor_state::{knows, seeks};
use iface_egress::InterfaceInner;
use ip_wire::{
    AddressExt, EthernetAddress, HardwareAddress, IPV6_LINK_LOCAL_ALL_NODES, IpAddress, IpProtocol,
    IpRepr, Ipv6Address, Ipv6Repr, RawHardwareAddress,
};
use sockets::{Context, IpPayload, Packet};
use wire_icmpv6::{Icmpv6Repr, NdiscNeighborFlags, NdiscRepr};

/// The hop limit of a packet that no router passed on.
const HOP_LIMIT: u8 = 255;

/// Takes in the neighbour message of a packet with this header. Where it gives a link address, that
/// of a solicitation's sender is kept, and that of an advertisement's target where the host asks for
/// it or knows another that the advertisement replaces; a solicitation for a local address is
/// answered, also where its sender only looks whether the address is in use, and one for another's
/// address teaches nothing. A message counts on
/// Ethernet alone, where no router passed it on (RFC 4861, section 7.1), its link address is one
/// hardware address's and its target one host's.
pub fn hear(
    inner: &mut InterfaceInner,
    header: &Ipv6Repr,
    message: &NdiscRepr,
) -> Option<Packet<'static>>
    ensures host { inner.new ≡ (neighbor_learned inner.old header.now (neighbor_message message.now)).inner }
    ensures reply { option_value result ≡ (neighbor_learned inner.old header.now (neighbor_message message.now)).reply }
    ensures sendable { IfSome (option_value result) IsSendable }
{
    let HardwareAddress::Ethernet(local) = inner.hardware_addr() else {
        return None;
    };
    match message {
        NdiscRepr::NeighborSolicit {
            target_addr,
            lladdr,
        } => {
            if !asks_host(inner, header, target_addr, lladdr) {
                return None;
            }
            let asked = is_asked(inner, header, target_addr);
            let overrides = inner.host_requirements();
            learn(inner, header.src_addr, lladdr);
            if asked {
                Some(advertisement(overrides, &local, *target_addr, header.src_addr))
            } else {
                None
            }
        }
        NdiscRepr::NeighborAdvert {
            flags,
            target_addr,
            lladdr,
        } => {
            if tells(header, *flags, target_addr, lladdr) {
                take_advertisement(inner, *flags, *target_addr, lladdr);
            }
            None
        }
    }
}

/// Whether a message with this target and link address counts.
fn counts(header: &Ipv6Repr, target_addr: &Ipv6Address, lladdr: &Option<RawHardwareAddress>) -> bool
    ensures { result ≡ counts header.now target_addr.now (link_bytes lladdr.now) }
{
    header.hop_limit == HOP_LIMIT
        && is_one_hardware_addr(lladdr)
        && target_addr.x_is_unicast()
        && is_sender_of(&header.src_addr, lladdr)
}

/// Whether a solicitation with this target and link address counts: it asks for a local address (RFC 4861,
/// section 7.2.3).
fn asks_host(
    inner: &InterfaceInner,
    header: &Ipv6Repr,
    target_addr: &Ipv6Address,
    lladdr: &Option<RawHardwareAddress>,
) -> bool
    ensures { result ≡ asks_host inner.now header.now target_addr.now (link_bytes lladdr.now) }
{
    counts(header, target_addr, lladdr) && inner.has_ip_addr(&IpAddress::Ipv6(*target_addr))
}

/// Whether a link address, if there is one, is that of one Ethernet hardware address.
fn is_one_hardware_addr(lladdr: &Option<RawHardwareAddress>) -> bool
    ensures { result ≡ is_one_hardware_addr (link_bytes lladdr.now) }
{
    match lladdr {
        None => true,
        Some(address) => {
            address.len() == 6 && EthernetAddress::from_bytes(address.as_bytes()).is_unicast()
        }
    }
}

/// Whether an advertisement counts, which answers a solicitation only where it went to one host.
fn tells(
    header: &Ipv6Repr,
    flags: NdiscNeighborFlags,
    target_addr: &Ipv6Address,
    lladdr: &Option<RawHardwareAddress>,
) -> bool
    ensures { result ≡ tells header.now flags target_addr.now (link_bytes lladdr.now) }
{
    counts(header, target_addr, lladdr) && !(flags.solicited && header.dst_addr.is_multicast())
}

/// Whether a link address, if there is one, is that of a sender that has an address.
fn is_sender_of(source: &Ipv6Address, lladdr: &Option<RawHardwareAddress>) -> bool
    ensures { result ≡ is_sender_of source.now (link_bytes lladdr.now) }
{
    match lladdr {
        None => true,
        Some(_) => !source.is_unspecified(),
    }
}

/// Keeps a neighbour's link address, if there is one.
fn learn(inner: &mut InterfaceInner, neighbor: Ipv6Address, lladdr: &Option<RawHardwareAddress>)
    requires { IsTrue (is_one_hardware_addr (link_bytes lladdr.now)) }
    ensures { inner.new ≡ learned inner.old neighbor (link_bytes lladdr.now) }
{
    if let Some(address) = lladdr {
        let hardware_addr = EthernetAddress::from_bytes(address.as_bytes());
        inner.fill_neighbor(
            IpAddress::Ipv6(neighbor),
            HardwareAddress::Ethernet(hardware_addr),
        );
    }
}

/// Keeps the link address that an advertisement gives of its target, where the host asks for it or
/// knows another that is to be replaced.
fn take_advertisement(
    inner: &mut InterfaceInner,
    flags: NdiscNeighborFlags,
    target: Ipv6Address,
    lladdr: &Option<RawHardwareAddress>,
)
    requires { IsTrue (is_one_hardware_addr (link_bytes lladdr.now)) }
    ensures { inner.new ≡ advertised inner.old flags target (link_bytes lladdr.now) }
{
    if replaces(inner, flags, target) {
        learn(inner, target, lladdr);
    }
}

/// Whether an advertisement with these flags counts alongside what is known of its target.
fn replaces(inner: &InterfaceInner, flags: NdiscNeighborFlags, target: Ipv6Address) -> bool
    ensures { result ≡ replaces inner.now flags target }
{
    let target = IpAddress::Ipv6(target);
    if knows(inner, &target) {
        flags.overrides
    } else {
        seeks(inner, &target)
    }
}

/// Whether a solicitation in a packet with this header for this target is to be answered.
fn is_asked(inner: &InterfaceInner, header: &Ipv6Repr, target_addr: &Ipv6Address) -> bool
    ensures { result ≡ is_asked inner.now header.now target_addr.now }
{
    let destination = &header.dst_addr;
    if header.src_addr.is_unspecified() {
        return inner.is_probed(destination, target_addr);
    }
    (inner.has_solicited_node(destination) || inner.has_ip_addr(&IpAddress::Ipv6(*destination)))
        && inner.has_ip_addr(&IpAddress::Ipv6(*target_addr))
}

/// Where who asked hears the answer: who has no address yet hears what goes to all nodes.
fn told_at(asker: Ipv6Address) -> Ipv6Address
    ensures { result ≡ told_at asker }
{
    if asker.is_unspecified() {
        IPV6_LINK_LOCAL_ALL_NODES
    } else {
        asker
    }
}

/// What is said of an answer to who asked.
fn flags_for(overrides: bool, asker: &Ipv6Address) -> NdiscNeighborFlags
    ensures { result ≡ flags_for overrides asker.now }
{
    NdiscNeighborFlags {
        router: false,
        solicited: !asker.is_unspecified(),
        overrides,
    }
}

/// The packet that tells who asked the link address of a target, which is the own one.
fn advertisement(
    overrides: bool,
    local: &EthernetAddress,
    target_addr: Ipv6Address,
    asker: Ipv6Address,
) -> Packet<'static>
    ensures packet { packet_value result ≡ advertisement overrides local.now target_addr asker }
    ensures sendable { IsSendable (packet_value result) }
{
    let message = Icmpv6Repr::Ndisc(NdiscRepr::NeighborAdvert {
        flags: flags_for(overrides, &asker),
        target_addr,
        lladdr: Some(RawHardwareAddress::from(*local)),
    });
    let header = Ipv6Repr {
        src_addr: target_addr,
        dst_addr: told_at(asker),
        next_header: IpProtocol::Icmpv6,
        payload_len: message.buffer_len(),
        hop_limit: HOP_LIMIT,
    };
    Packet::new(IpRepr::Ipv6(header), IpPayload::Icmpv6(message))
}
