//! The egress path of a packet.
ghost use Rattle.std.specs.Prelude.{◌≡◌, ◌+◌, ◌<◌, ◌≤◌, ◌^◌, is_some, IsSome, IfSome};
ghost use Rattle.socket_context.specs.Packet.{packet_value, IsSendable};
ghost use Rattle.iface_egress.specs.Plan.{plan_of, IsPacket, CanBeCarried};
ghost use Rattle.iface_egress.specs.Plan.{CanBeCut};
ghost use Rattle.iface_tables.specs.Inner.{mtu_to};
ghost use Rattle.ip_wire.specs.Ip.{destination_of};
ghost use Rattle.iface_egress.specs.Departure as Departures;
ghost use Rattle.iface_egress.specs.FastPath.{direct_packet};
ghost use Rattle.iface_egress.specs.IsTransmitted.{IsTransmitted, FragmentIsTransmitted, Asked, WasSent, WasCut, is_never_cut, numbered_v4, numbered_header, numbered, after_header, cut_header, cut_of};

use crate::fill::send;
use crate::fragmenter::{Cut, Fragmenter};
use crate::frame::{CutHeader, DirectFrame, NeighborQuery, Whole, ask};
use crate::payload::{Carried, Direct};
use crate::plan::{Plan, plan_for};
use iface_tables::InterfaceInner;
use ip_wire::{HardwareAddress, IpAddress, IpProtocol, IpRepr, Ipv4Repr};
use net_base::Device;
use socket_context::{Context, Packet};

/// What became of a packet.
#[derive(Clone, Copy, Debug, PartialEq, Eq)]
pub enum Sent {
    /// It went, whole or as a first fragment.
    Gone,
    /// It can't go at all.
    Dropped,
    /// It has to wait for its next hop.
    Waits,
    /// It has to wait until the fragments of another datagram went.
    Busy,
    /// The device refused a frame.
    Refused,
}

/// Sends a packet, or a question for its next hop, if either can go now.
pub fn dispatch<D: Device>(
    inner: &mut InterfaceInner,
    fragmenter: &mut Fragmenter,
    device: &mut D,
    token: D::TxToken,
    packet: &Packet<'_>,
) -> Sent
    requires room { D.refused device.old + 1 < 2 ^ 64 }
    requires packet { IsPacket (packet_value packet.now) }
    ensures out { IsTransmitted D.moves device.old inner.old fragmenter.old (packet_value packet.now)
        (plan_of inner.old (is_some fragmenter.old) (packet_value packet.now).header) result device.new inner.new fragmenter.new }
    ensures capabilities { D.described device.new ≡ D.described device.old }
{
    let plan = plan_for(inner, fragmenter.is_waiting(), &packet.ip_repr());
    dispatch_by(inner, fragmenter, device, token, packet, plan)
}

/// Does what is to be done with a packet, which `plan_for` said.
pub fn dispatch_by<D: Device>(
    inner: &mut InterfaceInner,
    fragmenter: &mut Fragmenter,
    device: &mut D,
    token: D::TxToken,
    packet: &Packet<'_>,
    plan: Plan,
) -> Sent
    requires room { D.refused device.old + 1 < 2 ^ 64 }
    requires packet { IsPacket (packet_value packet.now) }
    requires plan { plan ≡ plan_of inner.old (is_some fragmenter.old) (packet_value packet.now).header }
    ensures out { IsTransmitted D.moves device.old inner.old fragmenter.old (packet_value packet.now)
        (plan_of inner.old (is_some fragmenter.old) (packet_value packet.now).header) result device.new inner.new fragmenter.new }
    ensures capabilities { D.described device.new ≡ D.described device.old }
{
    let _mtu = inner.mtu();
    carry(inner, fragmenter, device, token, packet, plan)
}

/// Does what is to be done with a packet.
fn carry<D: Device>(
    inner: &mut InterfaceInner,
    fragmenter: &mut Fragmenter,
    device: &mut D,
    token: D::TxToken,
    packet: &Packet<'_>,
    plan: Plan,
) -> Sent
    requires room { D.refused device.old + 1 < 2 ^ 64 }
    requires fits { CanBeCarried inner.old fragmenter.old (packet_value packet.now) plan }
    ensures out { IsTransmitted D.moves device.old inner.old fragmenter.old (packet_value packet.now) plan result device.new inner.new fragmenter.new }
    ensures capabilities { D.described device.new ≡ D.described device.old }
{
    match plan {
        Plan::Drop => Sent::Dropped,
        Plan::NoRoute | Plan::Wait => Sent::Waits,
        Plan::Busy => Sent::Busy,
        Plan::Ask(neighbor_query) => send_solicitation(inner, device, token, &neighbor_query),
        Plan::Go(to) => send_whole(inner, device, token, to, packet),
        Plan::Cut(to) => send_first(inner, fragmenter, device, token, to, packet),
    }
}

/// Sends a question, which counts, and begins the time in which no neighbour is asked for.
fn send_solicitation<D: Device>(
    inner: &mut InterfaceInner,
    device: &mut D,
    token: D::TxToken,
    neighbor_query: &NeighborQuery,
) -> Sent
    requires room { D.refused device.old + 1 < 2 ^ 64 }
    ensures out { Asked D.moves device.old inner.old neighbor_query.now result device.new inner.new }
    ensures capabilities { D.described device.new ≡ D.described device.old }
{
    if !ask(device, token, neighbor_query, &inner.checksum_caps()) {
        return Sent::Refused;
    }
    inner.request_neighbor(neighbor_query.target());
    Sent::Waits
}

/// Sends a packet in one frame.
fn send_whole<D: Device>(
    inner: &mut InterfaceInner,
    device: &mut D,
    token: D::TxToken,
    to: HardwareAddress,
    packet: &Packet<'_>,
) -> Sent
    requires room { D.refused device.old + 1 < 2 ^ 64 }
    requires fits { IsSendable (packet_value packet.now) }
    ensures out { WasSent D.moves device.old inner.old (packet_value packet.now).header
        (Departures.Whole to (numbered inner.old (packet_value packet.now))) result device.new inner.new }
    ensures capabilities { D.described device.new ≡ D.described device.old }
{
    let header = numbered_header(inner, &packet.ip_repr());
    let frame = Whole {
        from: inner.hardware_addr(),
        to,
        header: &header,
        payload: packet.payload(),
        checksums: inner.checksum_caps(),
    };
    if !send(device, token, &frame) {
        return Sent::Refused;
    }
    take_number(inner, &packet.ip_repr());
    Sent::Gone
}

/// Sends an IPv4 packet in one frame, whose header and payload aren't copied before they are written.
pub fn transmit_direct<D: Device, P: Carried>(
    inner: &mut InterfaceInner,
    device: &mut D,
    token: D::TxToken,
    packet: &Direct<'_, P>,
) -> Sent
    requires room { D.refused device.old + 1 < 2 ^ 64 }
    requires fits { IsSendable (direct_packet P.value packet.now) }
    ensures out { WasSent D.moves device.old inner.old (direct_packet P.value packet.now).header
        (Departures.Whole packet.now.to (numbered inner.old (direct_packet P.value packet.now))) result device.new inner.new }
    ensures capabilities { D.described device.new ≡ D.described device.old }
{
    let frame = DirectFrame {
        from: inner.hardware_addr(),
        header: numbered_v4(inner, packet.header),
        packet,
        checksums: inner.checksum_caps(),
    };
    if send(device, token, &frame) {
        let _ = inner.take_ident();
        Sent::Gone
    } else {
        Sent::Refused
    }
}

/// Sends the first fragment of a packet.
fn send_first<D: Device>(
    inner: &mut InterfaceInner,
    fragmenter: &mut Fragmenter,
    device: &mut D,
    token: D::TxToken,
    to: HardwareAddress,
    packet: &Packet<'_>,
) -> Sent
    requires room { D.refused device.old + 1 < 2 ^ 64 }
    requires fits { CanBeCut (mtu_to inner.old (destination_of (packet_value packet.now).header)) fragmenter.old (packet_value packet.now) }
    ensures out { WasCut D.moves device.old inner.old fragmenter.old (cut_of inner.old to (packet_value packet.now))
        result device.new inner.new fragmenter.new }
    ensures capabilities { D.described device.new ≡ D.described device.old }
{
    let header = packet.ip_repr();
    let cut = cut_from(inner, header.dst_addr());
    let header = cut_header(inner, &header);
    let packet = numbered(inner, packet);
    if !fragmenter.send_first(device, token, &cut, to, &header, &packet) {
        return Sent::Refused;
    }
    let _ = inner.take_ident();
    Sent::Gone
}

/// Sends the next fragment of the datagram that is half sent. Says whether the device took it.
pub fn send_next<D: Device>(
    inner: &InterfaceInner,
    fragmenter: &mut Fragmenter,
    device: &mut D,
    token: D::TxToken,
) -> bool
    requires room { D.refused device.old + 1 < 2 ^ 64 }
    requires waits { IsSome fragmenter.old }
    ensures out { IfSome fragmenter.old (λ l. FragmentIsTransmitted D.moves device.old inner.now l result device.new fragmenter.new) }
    ensures capabilities { D.described device.new ≡ D.described device.old }
{
    let cut = cut_from(inner, fragmenter.destination());
    fragmenter.send_next(device, token, &cut)
}

/// How fragments go from this host to this destination.
fn cut_from(inner: &InterfaceInner, destination: IpAddress) -> Cut
    ensures value { result ≡ record { from = inner.now.hardware; mtu = mtu_to inner.now destination; checksums = inner.now.checksums } }
    ensures low { 576 ≤ result.mtu }
    ensures high { result.mtu ≤ 65535 }
{
    Cut {
        from: inner.hardware_addr(),
        mtu: inner.mtu_to(&destination),
        checksums: inner.checksum_caps(),
    }
}

/// The packet with the host's next number.
fn numbered<'a>(inner: &InterfaceInner, packet: &Packet<'a>) -> Packet<'a>
    requires { IsSendable (packet_value packet.now) }
    ensures value { packet_value result ≡ numbered inner.now (packet_value packet.now) }
    ensures fits { IsSendable (packet_value result) }
{
    Packet::new(numbered_header(inner, &packet.ip_repr()), *packet.payload())
}

/// The header of a datagram that goes in fragments, with the host's next number.
fn cut_header(inner: &InterfaceInner, header: &IpRepr) -> CutHeader
    ensures { result ≡ cut_header inner.now header.now }
{
    match header {
        IpRepr::Ipv4(header) => CutHeader::Ipv4(numbered_v4(inner, header)),
        IpRepr::Ipv6(header) => CutHeader::Ipv6(*header, u32::from(inner.ident())),
    }
}

/// Whether no router may cut a packet: a segment of TCP on a network of many, where a path that can't
/// carry it says so (RFC 1191, section 3). A firewall may drop the fragments that were made of it.
fn is_never_cut(inner: &InterfaceInner, header: &Ipv4Repr) -> bool
    ensures { result ≡ is_never_cut inner.now header.now }
{
    inner.host_requirements() && matches!(header.next_header, IpProtocol::Tcp)
}

/// The header with the host's next number.
fn numbered_v4(inner: &InterfaceInner, header: &Ipv4Repr) -> Ipv4Repr
    ensures { result ≡ numbered_v4 inner.now header.now }
{
    Ipv4Repr {
        ident: inner.ident(),
        dont_frag: is_never_cut(inner, header),
        ..*header
    }
}

/// The header with the host's next number, if it is one of IPv4.
fn numbered_header(inner: &InterfaceInner, header: &IpRepr) -> IpRepr
    ensures { result ≡ numbered_header inner.now header.now }
{
    match header {
        IpRepr::Ipv4(header) => IpRepr::Ipv4(numbered_v4(inner, header)),
        IpRepr::Ipv6(header) => IpRepr::Ipv6(*header),
    }
}

/// A packet of this header went whole.
fn take_number(inner: &mut InterfaceInner, header: &IpRepr)
    ensures { inner.new ≡ after_header header.now inner.old }
{
    if let IpRepr::Ipv4(_) = header {
        let _ = inner.take_ident();
    }
}
