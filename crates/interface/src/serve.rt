//! A socket's turn.
ghost use Rattle.std.specs.Prelude.{◌≡◌, is_some, Some, IsSome, IfSome};
ghost use Rattle.net_base.specs.Time.{IsMoment};
ghost use Rattle.ip_wire.specs.Ip.{destination_of};
ghost use Rattle.iface_ingress.specs.Packet.{packet_value, payload_value, IsSendable};
ghost use Rattle.iface_ingress.specs.Offer.TheVariants as Answer;
ghost use Rattle.iface_ingress.specs.Offers.{HasPacket};
ghost use Rattle.iface_ingress.specs.WellFormed.{IsWellFormed};
ghost use Rattle.iface_ingress.specs.Sockets.{Offers, offered_by, IfSendable};
ghost use Rattle.iface_ingress.specs.TcpOffers.{offered_packet};
ghost use Rattle.iface_egress.specs.FastPath.{segment_in, datagram_in, direct_packet};
ghost use Rattle.iface_egress.specs.Plan.{IsPacket, GoesDirect, comes_from_here, plan_of};
ghost use Rattle.interface.specs.Host.{sender};
ghost use Rattle.interface.specs.Remote.{context_for};
ghost use Rattle.interface.specs.Serve.{is_known, passes_filter, is_waiting, is_given_up, is_other, is_out_of_turn, held, waits_until, is_done, marked};
ghost use Rattle.interface.specs.Serve.{is_raw, keeps_source, with_source, sourced_header, sourced};
ghost use Rattle.interface.specs.Serve.{turned_by, Leaves, LeavesAs, LeavesDirect, HasLeft, OfferLeaves, Sends, Turns, ServesSlot};
ghost use Rattle.iface_egress.specs.Meta.{freed};

use crate::remote::remote_of;
use crate::widths::{datagram_has_widths, segment_has_widths};
use iface_egress::{
    Carried, Direct, Fragmenter, InterfaceInner, Item, LentDatagram, LentSegment, Meta, Plan, Sent,
    SocketStorage, direct_route, dispatch_by, park_if_searched, plan_from, transmit_direct,
};
use iface_ingress::addresses::is_same_address;
use iface_ingress::socket_laws::unsent_is_offered_again;
use iface_ingress::widths::fields_have_widths;
use iface_ingress::{Context, IpPayload, Offer, Packet, Socket, tcp, udp};
use iface_tables::Look;
use ip_wire::{IpAddress, IpRepr, Ipv4Repr, Ipv6Repr};
use net_base::{Device, Duration, Instant};

/// How long a packet waits for a route, in milliseconds.
const LOST_MILLIS: u64 = 3_000;

/// How long a packet waits for its neighbour where more are asked for than the host keeps count of, in milliseconds.
const CROWDED_MILLIS: u64 = 30_000;

/// What a socket's turn came to. Each says whether the socket or a queue changed.
#[derive(Clone, Copy, Debug, PartialEq, Eq)]
pub enum Served {
    /// The next socket has its turn.
    Next(bool),
    /// The device took no frame: the pass ends.
    Stop(bool),
}

/// Gives the socket at a slot its turn, if there is one. `turn` is the neighbour whose turn it is to be asked for.
pub fn serve_slot<D: Device>(
    turn: &Option<IpAddress>,
    inner: &mut InterfaceInner,
    fragmenter: &mut Fragmenter,
    device: &mut D,
    slot: &mut SocketStorage<Socket>,
) -> Served
    ensures turn { ServesSlot D.moves turn.now (sender device.old inner.old fragmenter.old) slot.old result
        (sender device.new inner.new fragmenter.new) slot.new }
    ensures capabilities { D.described device.new ≡ D.described device.old }
{
    match &mut slot.inner {
        Some(item) => serve_socket(turn, inner, fragmenter, device, item),
        None => Served::Next(false),
    }
}

/// Asks a socket that doesn't wait for a packet, which is transmitted or stays with it. `turn` is the neighbour whose turn it is to be asked
/// for, if a socket waits for one.
pub fn serve_socket<D: Device>(
    turn: &Option<IpAddress>,
    inner: &mut InterfaceInner,
    fragmenter: &mut Fragmenter,
    device: &mut D,
    item: &mut Item<Socket>,
) -> Served
    ensures turn { Turns D.moves turn.now (sender device.old inner.old fragmenter.old) item.old result (sender device.new inner.new fragmenter.new) item.new }
    ensures capabilities { D.described device.new ≡ D.described device.old }
{
    if waits(inner, &mut item.meta) {
        return Served::Next(false);
    }
    unsent_is_offered_again();
    match ask(inner, item) {
        Offer::Silent { changed } => {
            item.meta.unmark();
            Served::Next(changed)
        }
        Offer::Packet { changed } => send_offered(turn, inner, fragmenter, device, item, changed),
    }
}

/// Asks a socket for a packet. It sees the host as it is towards the one destination of what it sends, if there is one.
fn ask(inner: &InterfaceInner, item: &mut Item<Socket>) -> Offer
    ensures offers { Offers (context_for inner.now item.old.socket) item.old.socket result item.new.socket }
    ensures rest { item.new ≡ record item.old { socket = item.new.socket } }
    ensures sendable { IfSendable (offered_by item.new.socket) }
{
    let remote = remote_of(&item.socket);
    item.socket.offer(&Look::towards(inner, &remote))
}

/// Whether the socket waits for its neighbour. Its mark goes where that is known. Mostly there is none.
fn waits(inner: &InterfaceInner, meta: &mut Meta) -> bool
    ensures waits { result ≡ is_waiting inner.now meta.old }
    ensures after { meta.new ≡ freed meta.old (passes_filter inner.now meta.old) }
{
    match meta.waiting {
        Some(_) => waits_marked(inner, meta),
        None => false,
    }
}

/// The same of any mark.
#[inline(never)]
fn waits_marked(inner: &InterfaceInner, meta: &mut Meta) -> bool
    ensures waits { result ≡ is_waiting inner.now meta.old }
    ensures after { meta.new ≡ freed meta.old (passes_filter inner.now meta.old) }
{
    let known = is_known(inner, meta.neighbor());
    !meta.egress_permitted(inner.now(), known)
}

/// Whether the socket waits for its neighbour. Its mark stays.
pub(crate) fn is_waiting(inner: &InterfaceInner, meta: &Meta) -> bool
    ensures { result ≡ is_waiting inner.now meta.now }
{
    let mut mark = *meta;
    waits(inner, &mut mark)
}

/// Whether this neighbour is known.
pub(crate) fn is_known(inner: &InterfaceInner, neighbor: Option<IpAddress>) -> bool
    ensures { result ≡ is_known inner.now neighbor }
{
    match neighbor {
        Some(neighbor) => inner.has_neighbor(&neighbor),
        None => false,
    }
}

/// Sends the packet of the open offer, and tells the socket what became of it.
fn send_offered<D: Device>(
    turn: &Option<IpAddress>,
    inner: &mut InterfaceInner,
    fragmenter: &mut Fragmenter,
    device: &mut D,
    item: &mut Item<Socket>,
    changed: bool,
) -> Served
    requires offered { HasPacket (Answer.Packet changed) (offered_by item.old.socket) }
    requires sendable { IfSendable (offered_by item.old.socket) }
    ensures sends { Sends D.moves turn.now (sender device.old inner.old fragmenter.old) item.old changed result
        (sender device.new inner.new fragmenter.new) item.new }
    ensures capabilities { D.described device.new ≡ D.described device.old }
{
    let sent = transmit_offered(
        turn,
        inner,
        fragmenter,
        device,
        &mut item.meta,
        &item.socket,
    );
    item.socket.settle(is_done(sent));
    turned_by(sent, changed)
}

/// Transmits the packet of the open offer. A segment and a datagram that go straight to a hardware address are sent from where they lie in
/// their sockets.
fn transmit_offered<D: Device>(
    turn: &Option<IpAddress>,
    inner: &mut InterfaceInner,
    fragmenter: &mut Fragmenter,
    device: &mut D,
    meta: &mut Meta,
    socket: &Socket,
) -> Sent
    requires offered { IsSome (offered_by socket.now) }
    requires sendable { IfSendable (offered_by socket.now) }
    ensures left { OfferLeaves D.moves turn.now (offered_by socket.now) (sender device.old inner.old fragmenter.old) meta.old result
        (sender device.new inner.new fragmenter.new) meta.new }
    ensures capabilities { D.described device.new ≡ D.described device.old }
{
    match socket {
        Socket::Tcp(tcp) => {
            let Some(packet) = direct_segment(inner, tcp) else {
                return transmit_any(turn, inner, fragmenter, device, meta, socket);
            };
            segment_has_widths(&packet);
            transmit_direct_segment(inner, device, meta, &packet)
        }
        Socket::Udp(udp) => {
            let Some(packet) = direct_datagram(inner, udp) else {
                return transmit_any(turn, inner, fragmenter, device, meta, socket);
            };
            datagram_has_widths(&packet);
            transmit_direct_segment(inner, device, meta, &packet)
        }
        _ => transmit_any(turn, inner, fragmenter, device, meta, socket),
    }
}

/// The segment that a TCP socket offers, as it lies there, where it goes straight to a hardware address.
fn direct_segment<'a>(
    inner: &InterfaceInner,
    socket: &'a tcp::Socket,
) -> Option<Direct<'a, LentSegment<'a>>>
    ensures offered { IfSome result (λ s. offered_packet socket.now ≡ Some (direct_packet segment_in s)) }
    ensures direct { IfSome result (λ s. GoesDirect inner.now (direct_packet segment_in s).header s.to) }
{
    match socket.offered_segment() {
        Some(offered) => direct_route(
            inner,
            offered.header,
            LentSegment {
                header: offered.segment,
                payload: offered.payload,
            },
        ),
        None => None,
    }
}

/// The datagram that a UDP socket offers, as it lies there, where it goes straight to a hardware address.
fn direct_datagram<'a>(
    inner: &InterfaceInner,
    socket: &'a udp::Socket,
) -> Option<Direct<'a, LentDatagram<'a>>>
    ensures offered { IfSome result (λ s. socket.now.offered ≡ Some (direct_packet datagram_in s)) }
    ensures direct { IfSome result (λ s. GoesDirect inner.now (direct_packet datagram_in s).header s.to) }
{
    match socket.offered_datagram() {
        Some(offered) => direct_route(
            inner,
            offered.header,
            LentDatagram {
                header: offered.ports,
                bytes: offered.bytes,
            },
        ),
        None => None,
    }
}

/// The same of a packet that is lent as a value of its own. It stands apart, so that this isn't made ready for one that is sent from
/// where it lies.
#[inline(never)]
fn transmit_any<D: Device>(
    turn: &Option<IpAddress>,
    inner: &mut InterfaceInner,
    fragmenter: &mut Fragmenter,
    device: &mut D,
    meta: &mut Meta,
    socket: &Socket,
) -> Sent
    requires offered { IsSome (offered_by socket.now) }
    requires sendable { IfSendable (offered_by socket.now) }
    ensures left { OfferLeaves D.moves turn.now (offered_by socket.now) (sender device.old inner.old fragmenter.old) meta.old result
        (sender device.new inner.new fragmenter.new) meta.new }
    ensures capabilities { D.described device.new ≡ D.described device.old }
{
    let Some(packet) = socket.offered() else {
        unreachable!()
    };
    fields_have_widths(&packet);
    transmit(turn, inner, fragmenter, device, meta, &packet)
}

/// Transmits a packet from its source, if the device has a transmit token: straight to a hardware address, as nearly each goes, else
/// by its plan.
fn transmit<D: Device>(
    turn: &Option<IpAddress>,
    inner: &mut InterfaceInner,
    fragmenter: &mut Fragmenter,
    device: &mut D,
    meta: &mut Meta,
    packet: &Packet<'_>,
) -> Sent
    requires sendable { IsSendable (packet_value packet.now) }
    requires formed { IsWellFormed (packet_value packet.now) }
    ensures left { HasLeft D.moves turn.now (sender device.old inner.old fragmenter.old) meta.old (packet_value packet.now)
        result (sender device.new inner.new fragmenter.new) meta.new }
    ensures capabilities { D.described device.new ≡ D.described device.old }
{
    match direct_route(inner, &packet.ip_repr(), packet.payload()) {
        Some(direct) => transmit_direct_segment(inner, device, meta, &direct),
        None => transmit_planned(turn, inner, fragmenter, device, meta, packet),
    }
}

/// Transmits a packet whose hardware address is known, if the device has a transmit token.
pub(crate) fn transmit_direct_segment<D: Device, P: Carried>(
    inner: &mut InterfaceInner,
    device: &mut D,
    meta: &mut Meta,
    packet: &Direct<'_, P>,
) -> Sent
    requires sendable { IsSendable (direct_packet P.value packet.now) }
    ensures left { LeavesDirect D.moves packet.now.to (direct_packet P.value packet.now) device.old inner.old meta.old result
        device.new inner.new meta.new }
    ensures capabilities { D.described device.new ≡ D.described device.old }
{
    match device.transmit(inner.now()) {
        Some(token) => {
            let sent = transmit_direct(inner, device, token, packet);
            if is_done(sent) {
                meta.unmark();
            }
            sent
        }
        None => Sent::Refused,
    }
}

/// Transmits a packet from its source by its plan, if the device has a transmit token. One that keeps its source isn't copied. Not inlined,
/// so that its plan isn't made ready where none is needed.
#[inline(never)]
fn transmit_planned<D: Device>(
    turn: &Option<IpAddress>,
    inner: &mut InterfaceInner,
    fragmenter: &mut Fragmenter,
    device: &mut D,
    meta: &mut Meta,
    packet: &Packet<'_>,
) -> Sent
    requires sendable { IsSendable (packet_value packet.now) }
    requires formed { IsWellFormed (packet_value packet.now) }
    ensures left { HasLeft D.moves turn.now (sender device.old inner.old fragmenter.old) meta.old (packet_value packet.now)
        result (sender device.new inner.new fragmenter.new) meta.new }
    ensures capabilities { D.described device.new ≡ D.described device.old }
{
    let from_here = comes_from_here(inner, &packet.ip_repr());
    if is_raw(packet.payload()) || from_here {
        transmit_as_is(turn, inner, fragmenter, device, meta, packet, from_here)
    } else {
        transmit_sourced(turn, inner, fragmenter, device, meta, packet)
    }
}

/// Transmits a packet from the address that is chosen for its destination. Not inlined, so that its copy isn't made ready where
/// none is needed.
#[inline(never)]
fn transmit_sourced<D: Device>(
    turn: &Option<IpAddress>,
    inner: &mut InterfaceInner,
    fragmenter: &mut Fragmenter,
    device: &mut D,
    meta: &mut Meta,
    packet: &Packet<'_>,
) -> Sent
    requires sendable { IsSendable (packet_value packet.now) }
    ensures left { HasLeft D.moves turn.now (sender device.old inner.old fragmenter.old) meta.old (packet_value packet.now)
        result (sender device.new inner.new fragmenter.new) meta.new }
    ensures capabilities { D.described device.new ≡ D.described device.old }
{
    let leaving = sourced(inner, packet);
    fields_have_widths(&leaving);
    let from_here = comes_from_here(inner, &leaving.ip_repr());
    transmit_as_is(turn, inner, fragmenter, device, meta, &leaving, from_here)
}

/// Transmits a packet as it is, of which it is known whether it may come from its source.
fn transmit_as_is<D: Device>(
    turn: &Option<IpAddress>,
    inner: &mut InterfaceInner,
    fragmenter: &mut Fragmenter,
    device: &mut D,
    meta: &mut Meta,
    leaving: &Packet<'_>,
    from_here: bool,
) -> Sent
    requires sendable { IsSendable (packet_value leaving.now) }
    requires formed { IsWellFormed (packet_value leaving.now) }
    requires known { from_here ≡ comes_from_here inner.old (packet_value leaving.now).header }
    ensures left { LeavesAs D.moves turn.now (sender device.old inner.old fragmenter.old) meta.old (packet_value leaving.now)
        result (sender device.new inner.new fragmenter.new) meta.new }
    ensures capabilities { D.described device.new ≡ D.described device.old }
{
    let now = inner.now();
    let header = leaving.ip_repr();
    let plan = plan_from(inner, from_here, fragmenter.is_waiting(), &header);
    let destination = header.dst_addr();
    let held = held(turn, meta, inner, &destination, &plan);
    let sent = send_packet(turn, inner, fragmenter, device, meta, leaving, plan, held);
    let sent = park_if_searched(inner, leaving, &plan, sent);
    mark(meta, now, inner, sent, &plan, &destination);
    sent
}

/// Whether the source of a header may be that of a packet to its destination.
fn comes_from_here(inner: &InterfaceInner, header: &IpRepr) -> bool
    ensures { result ≡ comes_from_here inner.now header.now }
{
    inner.may_be_source(&header.src_addr(), &header.dst_addr())
}

/// Whether the packet's source stays: a raw socket's does, and one that can be a source.
fn keeps_source(inner: &InterfaceInner, packet: &Packet<'_>) -> bool
    ensures { result ≡ keeps_source inner.now (packet_value packet.now) }
{
    is_raw(packet.payload()) || comes_from_here(inner, &packet.ip_repr())
}

/// The packet from the address that is chosen for its destination, where its own source can't be one.
fn sourced<'a>(inner: &InterfaceInner, packet: &Packet<'a>) -> Packet<'a>
    requires { IsSendable (packet_value packet.now) }
    ensures value { packet_value result ≡ sourced inner.now (packet_value packet.now) }
    ensures fits { IsSendable (packet_value result) }
{
    Packet::new(sourced_header(inner, packet), *packet.payload())
}

/// The header of a packet as it leaves.
fn sourced_header(inner: &InterfaceInner, packet: &Packet<'_>) -> IpRepr
    ensures { result ≡ sourced_header inner.now (packet_value packet.now) }
{
    let header = packet.ip_repr();
    if keeps_source(inner, packet) {
        return header;
    }
    with_source(&header, &inner.get_source_address(&header.dst_addr()))
}

/// Whether a raw socket wrote the packet's header.
fn is_raw(payload: &IpPayload<'_>) -> bool
    ensures { result ≡ is_raw (payload_value payload.now) }
{
    matches!(payload, IpPayload::Raw(_))
}

/// The header with another source of its family.
fn with_source(header: &IpRepr, source: &Option<IpAddress>) -> IpRepr
    ensures { result ≡ with_source header.now source.now }
{
    match (header, source) {
        (IpRepr::Ipv4(header), Some(IpAddress::Ipv4(source))) => IpRepr::Ipv4(Ipv4Repr {
            src_addr: *source,
            ..*header
        }),
        (IpRepr::Ipv6(header), Some(IpAddress::Ipv6(source))) => IpRepr::Ipv6(Ipv6Repr {
            src_addr: *source,
            ..*header
        }),
        (header, _) => *header,
    }
}

/// Transmits a packet that isn't held, if the device has a transmit token. Without one it counts as refused.
fn send_packet<D: Device>(
    turn: &Option<IpAddress>,
    inner: &mut InterfaceInner,
    fragmenter: &mut Fragmenter,
    device: &mut D,
    meta: &Meta,
    packet: &Packet<'_>,
    plan: Plan,
    fate: Option<Sent>,
) -> Sent
    requires packet { IsPacket (packet_value packet.now) }
    requires plan { plan ≡ plan_of inner.old (is_some fragmenter.old) (packet_value packet.now).header }
    requires fate { fate ≡ held turn.now meta.now inner.old (destination_of (packet_value packet.now).header) plan }
    ensures leaves { Leaves D.moves turn.now (sender device.old inner.old fragmenter.old) meta.now (packet_value packet.now) result
        (sender device.new inner.new fragmenter.new) }
    ensures capabilities { D.described device.new ≡ D.described device.old }
{
    let Some(token) = device.transmit(inner.now()) else {
        return Sent::Refused;
    };
    match fate {
        Some(sent) => sent,
        None => dispatch_by(inner, fragmenter, device, token, packet, plan),
    }
}

/// What becomes of a packet that doesn't go, though the device has a transmit token: it is given up, or waits for its neighbour's turn to be
/// asked for.
fn held(
    turn: &Option<IpAddress>,
    meta: &Meta,
    inner: &InterfaceInner,
    destination: &IpAddress,
    plan: &Plan,
) -> Option<Sent>
    ensures { result ≡ held turn.now meta.now inner.now destination.now plan.now }
{
    if is_given_up(meta, inner, destination, plan) {
        Some(Sent::Dropped)
    } else if is_out_of_turn(turn, plan) {
        Some(Sent::Waits)
    } else {
        None
    }
}

/// Whether a packet is given up that has had no route, or whose neighbour hasn't been asked for often enough, for long.
fn is_given_up(meta: &Meta, inner: &InterfaceInner, destination: &IpAddress, plan: &Plan) -> bool
    ensures { result ≡ is_given_up meta.now inner.now destination.now plan.now }
{
    match plan {
        Plan::NoRoute => {
            inner.host_requirements()
                || meta.has_waited(destination, Duration::from_millis(LOST_MILLIS), inner.now())
        }
        Plan::Wait | Plan::Ask(_) => {
            inner.is_crowded()
                && meta.has_waited(
                    destination,
                    Duration::from_millis(CROWDED_MILLIS),
                    inner.now(),
                )
        }
        _ => false,
    }
}

/// Whether it isn't the turn of the neighbour that a packet would ask for.
fn is_out_of_turn(turn: &Option<IpAddress>, plan: &Plan) -> bool
    ensures { result ≡ is_out_of_turn turn.now plan.now }
{
    match plan {
        Plan::Ask(neighbor_query) => is_other(turn, &neighbor_query.target()),
        _ => false,
    }
}

fn is_other(turn: &Option<IpAddress>, hop: &IpAddress) -> bool
    ensures { result ≡ is_other turn.now hop.now }
{
    match turn {
        Some(turn) => !is_same_address(turn, hop),
        None => false,
    }
}

/// Until when a packet waits that has no route, or waits for its neighbour.
fn waits_until(plan: &Plan, inner: &InterfaceInner) -> Instant
    ensures { result ≡ waits_until plan.now inner.now }
{
    match plan {
        Plan::NoRoute => inner.now() + Meta::discovery_silent_time(),
        _ => inner.next_request(),
    }
}

/// Marks a socket whose packet has to wait for its next hop. One whose packet is done with doesn't wait any more.
fn mark(
    meta: &mut Meta,
    now: Instant,
    inner: &InterfaceInner,
    sent: Sent,
    plan: &Plan,
    destination: &IpAddress,
)
    ensures { meta.new ≡ marked sent now (waits_until plan.now inner.now) destination.now meta.old }
{
    match sent {
        Sent::Waits => {
            meta.neighbor_missing(now, *destination, waits_until(plan, inner));
        }
        Sent::Gone | Sent::Dropped => meta.unmark(),
        Sent::Busy | Sent::Refused => {}
    }
}

/// Whether a packet leaves its socket.
pub(crate) fn is_done(sent: Sent) -> bool
    ensures { result ≡ is_done sent }
{
    match sent {
        Sent::Gone | Sent::Dropped => true,
        Sent::Waits | Sent::Busy | Sent::Refused => false,
    }
}

/// What the turn of a socket came to whose packet came to this.
fn turned_by(sent: Sent, changed: bool) -> Served
    ensures { result ≡ turned_by sent changed }
{
    match sent {
        Sent::Gone | Sent::Dropped => Served::Next(true),
        Sent::Waits | Sent::Busy => Served::Next(changed),
        Sent::Refused => Served::Stop(changed),
    }
}
