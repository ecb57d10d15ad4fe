//! Packets that wait for their next hop beside its search.
ghost use Rattle.std.specs.Prelude.{◌≡◌, ◌+◌, ◌<◌, ◌^◌, [], is_some};
ghost use Rattle.ip_wire.specs.Ip as Ips;
ghost use Rattle.socket_context.specs.Packet.{packet_value};
ghost use Rattle.iface_egress.specs.Parked.{is_searched, parks, outcome_of, inner_after, Leaves, ServesEach, ServesIfMany, Tries};
ghost use Rattle.iface_egress.specs.Plan.{IsPacket, plan_of};
ghost use Rattle.iface_egress.specs.Sender.{sender};

use crate::egress_path::{Sent, dispatch_by};
use crate::fragmenter::Fragmenter;
use crate::plan::{Plan, plan_for};
use iface_tables::{InterfaceInner, Parking};
use net_base::Device;
use socket_context::{Context, IpPayload, Packet};

/// Puts a packet that waits aside, on a network of many, where it is no segment and its next hop is searched for: then it doesn't stand
/// before others, and counts as sent. One that has no room is dropped.
pub fn park_if_searched(
    inner: &mut InterfaceInner,
    packet: &Packet<'_>,
    plan: &Plan,
    sent: Sent,
) -> Sent
    requires packet { IsPacket (packet_value packet.now) }
    ensures sent { result ≡ outcome_of (parks inner.old (packet_value packet.now) plan.now sent) sent }
    ensures after { inner.new ≡ inner_after (parks inner.old (packet_value packet.now) plan.now sent) inner.old (packet_value packet.now) }
{
    if parks(inner, packet, plan, sent) {
        inner.park(packet);
        Sent::Gone
    } else {
        sent
    }
}

/// Whether a packet is put aside.
fn parks(inner: &InterfaceInner, packet: &Packet<'_>, plan: &Plan, sent: Sent) -> bool
    ensures { result ≡ parks inner.now (packet_value packet.now) plan.now sent }
{
    let is_segment = matches!(packet.payload(), IpPayload::Tcp(..));
    inner.host_requirements() && sent == Sent::Waits && is_searched(plan) && !is_segment
}

/// Whether a packet waits for its next hop.
fn is_searched(plan: &Plan) -> bool
    ensures { result ≡ is_searched plan.now }
{
    matches!(plan, Plan::Ask(_) | Plan::Wait)
}

/// On a network of many sends the packets whose next hops are known by now, asks for those that may be asked for again, and drops those
/// whose search has ended. Says whether the device took all that went.
pub fn send_parked<D: Device>(
    inner: &mut InterfaceInner,
    fragmenter: &mut Fragmenter,
    device: &mut D,
) -> bool
    ensures serves { ServesIfMany D.moves inner.old.host_requirements (sender device.old inner.old fragmenter.old) result
        (sender device.new inner.new fragmenter.new) }
    ensures capabilities { D.described device.new ≡ D.described device.old }
{
    if !inner.host_requirements() {
        return true;
    }
    let mut parking = inner.lend_parking();
    let all = send_each(inner, fragmenter, device, &mut parking);
    inner.set_parking(parking);
    all
}

/// The same of packets that were lent.
fn send_each<D: Device>(
    inner: &mut InterfaceInner,
    fragmenter: &mut Fragmenter,
    device: &mut D,
    parking: &mut Parking,
) -> bool
    ensures serves { ServesEach D.moves parking.old.packets [] (sender device.old inner.old fragmenter.old) result
        (sender device.new inner.new fragmenter.new) parking.new.packets }
    ensures room { parking.new.room ≡ parking.old.room }
    ensures capabilities { D.described device.new ≡ D.described device.old }
{
    let mut at = 0;
    while at < parking.len() {
        let (parked, payload) = parking.packet(at);
        let packet = Packet::new(parked.header, IpPayload::Raw(payload));
        match send_one(inner, fragmenter, device, &packet) {
            Sent::Gone | Sent::Dropped => parking.remove(at),
            Sent::Waits | Sent::Busy => at += 1,
            Sent::Refused => return false,
        }
    }
    true
}

/// What becomes of a packet that waited.
fn send_one<D: Device>(
    inner: &mut InterfaceInner,
    fragmenter: &mut Fragmenter,
    device: &mut D,
    packet: &Packet<'_>,
) -> Sent
    requires packet { IsPacket (packet_value packet.now) }
    ensures leaves { Leaves D.moves (sender device.old inner.old fragmenter.old) (packet_value packet.now) result
        (sender device.new inner.new fragmenter.new) }
    ensures capabilities { D.described device.new ≡ D.described device.old }
{
    let plan = plan_for(inner, fragmenter.is_waiting(), &packet.ip_repr());
    match plan {
        Plan::Wait => Sent::Waits,
        Plan::Busy => Sent::Busy,
        Plan::NoRoute | Plan::Drop => Sent::Dropped,
        Plan::Ask(_) | Plan::Go(_) | Plan::Cut(_) => {
            try_one(inner, fragmenter, device, packet, plan)
        }
    }
}

/// Sends a packet that waited, or a question for its next hop, if the device takes a frame.
fn try_one<D: Device>(
    inner: &mut InterfaceInner,
    fragmenter: &mut Fragmenter,
    device: &mut D,
    packet: &Packet<'_>,
    plan: Plan,
) -> Sent
    requires packet { IsPacket (packet_value packet.now) }
    requires plan { plan ≡ plan_of inner.old (is_some fragmenter.old) (packet_value packet.now).header }
    ensures tries { Tries D.moves (sender device.old inner.old fragmenter.old) (packet_value packet.now) plan result
        (sender device.new inner.new fragmenter.new) }
    ensures capabilities { D.described device.new ≡ D.described device.old }
{
    match device.transmit(inner.now()) {
        Some(token) => dispatch_by(inner, fragmenter, device, token, packet, plan),
        None => Sent::Refused,
    }
}
