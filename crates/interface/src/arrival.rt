//! One step of the ingress path.
ghost use Rattle.std.specs.Prelude.{◌≡◌, ◌&&◌, ◌+◌, ◌<◌, ◌^◌, false, is_some, None, Some};
ghost use Rattle.iface_ingress.specs.Incoming.{AreMeasured, content_of};
ghost use Rattle.iface_ingress.specs.Arrives.{Answers, IfCanGo, reply_of};
ghost use Rattle.iface_ingress.specs.Packet.{packet_value, IsSendable};
ghost use Rattle.iface_ingress.specs.WellFormed.{IsWellFormed};
ghost use Rattle.interface.specs.Awaited.{turn_of};
ghost use Rattle.interface.specs.Host.{sender};
ghost use Rattle.interface.specs.State.{state, host, telling, KeepsSettings};
ghost use Rattle.interface.specs.Reports.{heard_if};
ghost use Rattle.interface.specs.Ingress.{is_read, is_solicitation, Replied, Receives, Reads, Takes};

use crate::awaited::turn_of;
use iface_egress::{
    ArpFrame, Fragmenter, InterfaceInner, PacketAssemblerSet, Plan, Slots, direct_route,
    dispatch_by, park_if_searched, plan_for, send, transmit_direct,
};
use iface_ingress::laws::same_settings;
use iface_ingress::widths::fields_have_widths;
use iface_ingress::{
    Context, Incoming, Packet, Reply, Socket, bring, keep, process_frame_fast, read_into, release,
    take_in,
};
use iface_reports::Reporter;
use net_base::{Device, Duration, RxToken};

/// The longest frame that is read: an Ethernet header before the longest IP packet.
const LONGEST_FRAME: usize = 65_549;

/// Takes in the next frame, and answers it. Answers nothing where none came, else whether the frame was read.
pub fn ingress<D: Device>(
    inner: &mut InterfaceInner,
    fragmenter: &mut Fragmenter,
    assemblers: &mut PacketAssemblerSet,
    timeout: Duration,
    reporter: &mut Option<Reporter>,
    device: &mut D,
    slots: &mut Slots<Socket>,
) -> Option<bool>
    ensures takes { Takes D.moves (state device.old (telling (host inner.old fragmenter.old assemblers.old timeout) reporter.old) slots.old) result
        (state device.new (telling (host inner.new fragmenter.new assemblers.new timeout) reporter.new) slots.new) }
    ensures settings { KeepsSettings inner.old inner.new }
    ensures capabilities { D.described device.new ≡ D.described device.old }
{
    let Some((frame, token)) = device.receive(inner.now()) else {
        return None;
    };
    if !is_read(frame.bytes()) {
        return Some(false);
    }
    hear(reporter, inner, frame.bytes());
    process_frame(
        inner,
        fragmenter,
        assemblers,
        timeout,
        device,
        token,
        slots,
        frame.bytes(),
    );
    Some(true)
}

/// What a frame says of multicast groups is heard, where anything is told of them.
fn hear(reporter: &mut Option<Reporter>, inner: &InterfaceInner, frame: &[u8])
    ensures { reporter.new ≡ heard_if inner.now frame.now reporter.old }
{
    if let Some(reporter) = reporter {
        reporter.process_frame(inner, frame);
    }
}

/// Whether a frame of this length is read.
fn is_read(frame: &[u8]) -> bool
    ensures { result ≡ is_read frame.now }
{
    0 < frame.len() && !(LONGEST_FRAME < frame.len())
}

/// Takes in what a frame carries, and answers it.
fn process_frame<D: Device>(
    inner: &mut InterfaceInner,
    fragmenter: &mut Fragmenter,
    assemblers: &mut PacketAssemblerSet,
    timeout: Duration,
    device: &mut D,
    token: D::TxToken,
    slots: &mut Slots<Socket>,
    frame: &[u8],
)
    requires room { D.refused device.old + 1 < 2 ^ 64 }
    ensures reads { Reads D.moves frame.now (state device.old (host inner.old fragmenter.old assemblers.old timeout) slots.old)
        (state device.new (host inner.new fragmenter.new assemblers.new timeout) slots.new) }
    ensures settings { KeepsSettings inner.old inner.new }
    ensures capabilities { D.described device.new ≡ D.described device.old }
{
    same_settings();
    let mut reply = None;
    if process_frame_fast(inner, slots, frame, &mut reply) {
        answer_if_any(inner, fragmenter, device, token, slots, &reply);
    } else {
        process_any_frame(
            inner, fragmenter, assemblers, timeout, device, token, slots, frame,
        );
    }
}

/// Takes in what any frame carries, and answers it. It stands apart, so that its content isn't made ready for a frame that goes the short
/// way.
#[inline(never)]
fn process_any_frame<D: Device>(
    inner: &mut InterfaceInner,
    fragmenter: &mut Fragmenter,
    assemblers: &mut PacketAssemblerSet,
    timeout: Duration,
    device: &mut D,
    token: D::TxToken,
    slots: &mut Slots<Socket>,
    frame: &[u8],
)
    requires room { D.refused device.old + 1 < 2 ^ 64 }
    ensures reads { Reads D.moves frame.now (state device.old (host inner.old fragmenter.old assemblers.old timeout) slots.old)
        (state device.new (host inner.new fragmenter.new assemblers.new timeout) slots.new) }
    ensures settings { KeepsSettings inner.old inner.new }
    ensures capabilities { D.described device.new ≡ D.described device.old }
{
    let mut content = None;
    read_into(
        &inner.hardware_addr(),
        frame,
        &inner.checksum_caps(),
        &mut content,
    );
    receive(
        inner, fragmenter, assemblers, timeout, device, token, slots, &content,
    );
}

/// Takes in a frame's content, and answers it.
fn receive<D: Device>(
    inner: &mut InterfaceInner,
    fragmenter: &mut Fragmenter,
    assemblers: &mut PacketAssemblerSet,
    timeout: Duration,
    device: &mut D,
    token: D::TxToken,
    slots: &mut Slots<Socket>,
    content: &Option<Incoming<'_>>,
)
    requires room { D.refused device.old + 1 < 2 ^ 64 }
    requires measured { AreMeasured (content_of content.now) }
    ensures receives { Receives D.moves (content_of content.now) (state device.old (host inner.old fragmenter.old assemblers.old timeout) slots.old)
        (state device.new (host inner.new fragmenter.new assemblers.new timeout) slots.new) }
    ensures settings { KeepsSettings inner.old inner.new }
    ensures capabilities { D.described device.new ≡ D.described device.old }
{
    same_settings();
    let taken = take_in(inner, content);
    let slot = keep(inner, assemblers, timeout, taken);
    let mut reply = None;
    bring(inner, slots, assemblers, slot, taken, &mut reply);
    answer(inner, fragmenter, device, token, slots, &reply);
    release(assemblers, slot);
}

/// Sends an answer, if it can go now.
fn answer<D: Device>(
    inner: &mut InterfaceInner,
    fragmenter: &mut Fragmenter,
    device: &mut D,
    token: D::TxToken,
    slots: &Slots<Socket>,
    reply: &Option<Reply<'_>>,
)
    requires room { D.refused device.old + 1 < 2 ^ 64 }
    requires fits { IfCanGo (reply_of reply.now) }
    ensures replied { Replied D.moves (is_some (turn_of inner.old slots.now)) (reply_of reply.now) (sender device.old inner.old fragmenter.old)
        (sender device.new inner.new fragmenter.new) }
    ensures settings { KeepsSettings inner.old inner.new }
    ensures capabilities { D.described device.new ≡ D.described device.old }
{
    match reply {
        Some(Reply::Arp(packet)) => {
            let _ = send(device, token, &ArpFrame { packet: *packet });
        }
        Some(Reply::Packet(packet)) => {
            answer_with(inner, fragmenter, device, token, slots, packet);
        }
        None => {}
    }
}

/// The same where mostly there is no answer: then nothing is called.
fn answer_if_any<D: Device>(
    inner: &mut InterfaceInner,
    fragmenter: &mut Fragmenter,
    device: &mut D,
    token: D::TxToken,
    slots: &Slots<Socket>,
    reply: &Option<Reply<'_>>,
)
    requires room { D.refused device.old + 1 < 2 ^ 64 }
    requires fits { IfCanGo (reply_of reply.now) }
    ensures replied { Replied D.moves (is_some (turn_of inner.old slots.now)) (reply_of reply.now) (sender device.old inner.old fragmenter.old)
        (sender device.new inner.new fragmenter.new) }
    ensures settings { KeepsSettings inner.old inner.new }
    ensures capabilities { D.described device.new ≡ D.described device.old }
{
    match reply {
        Some(_) => answer(inner, fragmenter, device, token, slots, reply),
        None => {}
    }
}

/// Sends a packet that answers, if it can go now: straight to a hardware address, as nearly each does, else by its plan.
fn answer_with<D: Device>(
    inner: &mut InterfaceInner,
    fragmenter: &mut Fragmenter,
    device: &mut D,
    token: D::TxToken,
    slots: &Slots<Socket>,
    packet: &Packet<'_>,
)
    requires room { D.refused device.old + 1 < 2 ^ 64 }
    requires fits { IsSendable (packet_value packet.now) }
    ensures replied { Replied D.moves (is_some (turn_of inner.old slots.now)) (Some (Answers (packet_value packet.now)))
        (sender device.old inner.old fragmenter.old) (sender device.new inner.new fragmenter.new) }
    ensures settings { KeepsSettings inner.old inner.new }
    ensures capabilities { D.described device.new ≡ D.described device.old }
{
    fields_have_widths(packet);
    match direct_route(inner, &packet.ip_repr(), packet.payload()) {
        Some(direct) => {
            let _ = transmit_direct(inner, device, token, &direct);
        }
        None => answer_planned(inner, fragmenter, device, token, slots, packet),
    }
}

/// Sends a packet that answers by its plan. Its next hop is asked for only where no socket waits for a neighbour. It stands apart, so that
/// its plan isn't made ready where none is needed.
#[inline(never)]
fn answer_planned<D: Device>(
    inner: &mut InterfaceInner,
    fragmenter: &mut Fragmenter,
    device: &mut D,
    token: D::TxToken,
    slots: &Slots<Socket>,
    packet: &Packet<'_>,
)
    requires room { D.refused device.old + 1 < 2 ^ 64 }
    requires fits { IsSendable (packet_value packet.now) }
    requires formed { IsWellFormed (packet_value packet.now) }
    ensures replied { Replied D.moves (is_some (turn_of inner.old slots.now)) (Some (Answers (packet_value packet.now)))
        (sender device.old inner.old fragmenter.old) (sender device.new inner.new fragmenter.new) }
    ensures settings { KeepsSettings inner.old inner.new }
    ensures capabilities { D.described device.new ≡ D.described device.old }
{
    let plan = plan_for(inner, fragmenter.is_waiting(), &packet.ip_repr());
    if is_kept_back(inner, slots, &plan) {
        return;
    }
    let sent = dispatch_by(inner, fragmenter, device, token, packet, plan);
    let _ = park_if_searched(inner, packet, &plan, sent);
}

/// Whether a packet's next hop has to be asked for, and a socket waits for a neighbour, which goes first.
fn is_kept_back(inner: &InterfaceInner, slots: &Slots<Socket>, plan: &Plan) -> bool
    ensures { result ≡ (is_solicitation plan.now && is_some (turn_of inner.now slots.now)) }
{
    is_solicitation(plan) && turn_of(inner, slots).is_some()
}

/// Whether a packet's next hop has to be asked for.
fn is_solicitation(plan: &Plan) -> bool
    ensures { result ≡ is_solicitation plan.now }
{
    matches!(plan, Plan::Ask(_))
}
