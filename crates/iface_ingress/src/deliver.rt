//! What arrived, given to the sockets that it is for.
ghost use Rattle.std.specs.Prelude.{◌≡◌, ◌<◌, length, is_some, not, None, Some};
ghost use Rattle.wire_icmpv4.specs.Icmpv4 as Icmpv4;
ghost use Rattle.wire_icmpv6.specs.Icmpv6 as Icmpv6;
ghost use Rattle.ip_wire.specs.IpAddress.TheVariants as Address;
ghost use Rattle.iface_egress.specs.Inner.{context_of};
ghost use Rattle.iface_ingress.specs.Arrives.{IfCanGo, answered, reply_of};
ghost use Rattle.iface_ingress.specs.Datagrams.{TakesDatagram, SlotTakes, GivenAt, IsDelivered};
ghost use Rattle.iface_ingress.specs.Delivered.{is_taken_raw, packet_delivered, icmpv4_delivered, icmpv6_delivered, datagram_slot};
ghost use Rattle.iface_ingress.specs.Delivered.{with_change, with_segment, answer_of, answer_in, answer_at, draws_of, drawn_if, passes, passes_at};
ghost use Rattle.iface_ingress.specs.Delivered.{changed_at, segment_slot, segment_delivered, segment_answer, segment_draws};
ghost use Rattle.iface_ingress.specs.Delivered.{reset_for};
ghost use Rattle.iface_ingress.specs.Processed.{if_it_may, counted_in, let_go, counted};

use crate::receivers::{Arrival, give_all, is_for_any};
use crate::reply::Reply;
use crate::search::{PLAIN, TESTED, datagram_slot, segment_slot};
use crate::stream::process_segment;
use iface_egress::{InterfaceInner, Slots, SocketStorage};
use ip_wire::{IpRepr, Ipv4Repr, Ipv6Repr, TcpControl, TcpHeader, TcpRepr, UdpRepr};
use net_base::PacketMeta;
use sockets::{IpPayload, Packet, Socket, keys, tcp};
use wire_icmpv4::Icmpv4Repr;
use wire_icmpv6::Icmpv6Repr;

/// A packet, as raw sockets get it. Each ingress path has its own search for them, as it has for others (`search`).
#[derive(Drop)]
struct RawPacket<'a, const WAY: usize> {
    header: &'a IpRepr,
    payload: &'a [u8],
}

impl<'a, const WAY: usize> Arrival for RawPacket<'a, WAY> {
    ghost use Rattle.sockets.specs.Socket.{accepts_packet};
    ghost use Rattle.iface_ingress.specs.Delivered.{with_packet};

    ghost accepted = { λ a s. accepts_packet s a.header.now };

    ghost taken = { λ a. with_packet a.header.now a.payload.now };

    fn is_for(&self, socket: &Socket) -> bool {
        match socket {
            Socket::Raw(socket) => socket.accepts(self.header),
            _ => false,
        }
    }

    fn give(&self, socket: &mut Socket) {
        if let Socket::Raw(socket) = socket {
            socket.process(self.header, self.payload);
        }
    }
}

/// Gives a packet to every raw socket that asks for it, and says whether there is one.
pub fn deliver_packet<const WAY: usize>(
    slots: &mut Slots<Socket>,
    header: &IpRepr,
    payload: &[u8],
) -> bool
    ensures taken { result ≡ is_taken_raw header.now slots.old }
    ensures slots { slots.new ≡ packet_delivered header.now payload.now slots.old }
{
    let packet: RawPacket<'_, WAY> = RawPacket { header, payload };
    let is_taken = is_for_any(slots, keys::of_raw(), &packet);
    if is_taken {
        give_all(slots.all_mut(), &packet);
    }
    is_taken
}

/// Whether a raw socket asks for a packet.
pub(crate) fn is_taken_raw(slots: &Slots<Socket>, header: &IpRepr) -> bool
    ensures { result ≡ is_taken_raw header.now slots.now }
{
    let packet: RawPacket<'_, PLAIN> = RawPacket {
        header,
        payload: &[],
    };
    is_for_any(slots, keys::of_raw(), &packet)
}

/// An ICMPv4 message with the header of its packet.
#[derive(Drop)]
struct Icmpv4Arrival<'a> {
    header: &'a Ipv4Repr,
    message: &'a Icmpv4Repr<'a>,
}

impl<'a> Arrival for Icmpv4Arrival<'a> {
    ghost use Rattle.wire_icmpv4.specs.Icmpv4 as Icmpv4;
    ghost use Rattle.ip_wire.specs.IpAddress.TheVariants as Address;
    ghost use Rattle.sockets.specs.Socket.{accepts_icmpv4};
    ghost use Rattle.iface_ingress.specs.Delivered.{with_icmpv4};

    ghost accepted = { λ a s. accepts_icmpv4 s (Address.Ipv4 a.header.now.dst_addr) (Icmpv4.header_of a.message.now) (Icmpv4.payload_of a.message.now) };

    ghost taken = { λ a. with_icmpv4 a.header.now (Icmpv4.header_of a.message.now) (Icmpv4.payload_of a.message.now) };

    fn is_for(&self, socket: &Socket) -> bool {
        match socket {
            Socket::Icmp(socket) => socket.accepts_v4(self.header, self.message),
            _ => false,
        }
    }

    fn give(&self, socket: &mut Socket) {
        if let Socket::Icmp(socket) = socket {
            socket.process_v4(self.header, self.message);
        }
    }
}

/// Gives an ICMPv4 message to every socket that accepts it.
pub fn deliver_icmpv4(slots: &mut Slots<Socket>, header: &Ipv4Repr, message: &Icmpv4Repr<'_>)
    ensures { slots.new ≡ icmpv4_delivered header.now (Icmpv4.header_of message.now) (Icmpv4.payload_of message.now) slots.old }
{
    let arrival = Icmpv4Arrival { header, message };
    if is_for_any(slots, keys::of_icmp(), &arrival) {
        give_all(slots.all_mut(), &arrival);
    }
}

/// An ICMPv6 message with the header of its packet.
#[derive(Drop)]
struct Icmpv6Arrival<'a> {
    header: &'a Ipv6Repr,
    message: &'a Icmpv6Repr<'a>,
}

impl<'a> Arrival for Icmpv6Arrival<'a> {
    ghost use Rattle.wire_icmpv6.specs.Icmpv6 as Icmpv6;
    ghost use Rattle.ip_wire.specs.IpAddress.TheVariants as Address;
    ghost use Rattle.sockets.specs.Socket.{accepts_icmpv6};
    ghost use Rattle.iface_ingress.specs.Delivered.{with_icmpv6};

    ghost accepted = { λ a s. accepts_icmpv6 s (Address.Ipv6 a.header.now.dst_addr) (Icmpv6.value_of (Icmpv6.header_of a.message.now))
        (Icmpv6.carried_by a.message.now) };

    ghost taken = { λ a. with_icmpv6 a.header.now (Icmpv6.value_of (Icmpv6.header_of a.message.now)) (Icmpv6.carried_by a.message.now) };

    fn is_for(&self, socket: &Socket) -> bool {
        match socket {
            Socket::Icmp(socket) => socket.accepts_v6(self.header, self.message),
            _ => false,
        }
    }

    fn give(&self, socket: &mut Socket) {
        if let Socket::Icmp(socket) = socket {
            socket.process_v6(self.header, self.message);
        }
    }
}

/// Gives an ICMPv6 message to every socket that accepts it.
pub fn deliver_icmpv6(slots: &mut Slots<Socket>, header: &Ipv6Repr, message: &Icmpv6Repr<'_>)
    ensures { slots.new ≡ icmpv6_delivered header.now (Icmpv6.value_of (Icmpv6.header_of message.now)) (Icmpv6.carried_by message.now) slots.old }
{
    let arrival = Icmpv6Arrival { header, message };
    if is_for_any(slots, keys::of_icmp(), &arrival) {
        give_all(slots.all_mut(), &arrival);
    }
}

/// Gives a datagram to a socket: a UDP socket queues it, a client reads it.
fn process_datagram(
    inner: &InterfaceInner,
    socket: &mut Socket,
    header: &IpRepr,
    udp: &UdpRepr,
    bytes: &[u8],
)
    ensures { TakesDatagram (context_of inner.now) header.now udp.now bytes.now socket.old socket.new }
{
    match socket {
        Socket::Udp(socket) => socket.process(PacketMeta {}, header, udp, bytes),
        Socket::Dhcpv4(socket) => socket.process(inner, header, udp, bytes),
        Socket::Dns(socket) => socket.process(inner, header, udp, bytes),
        Socket::Raw(_) | Socket::Icmp(_) | Socket::Tcp(_) => {}
    }
}

/// Gives a datagram to the socket, if there is one at this slot.
fn process_datagram_in(
    inner: &InterfaceInner,
    slot: &mut SocketStorage<Socket>,
    header: &IpRepr,
    udp: &UdpRepr,
    bytes: &[u8],
)
    ensures { SlotTakes (context_of inner.now) header.now udp.now bytes.now slot.old slot.new }
{
    if let Some(item) = &mut slot.inner {
        process_datagram(inner, &mut item.socket, header, udp, bytes);
    }
}

/// Gives a datagram to the socket at this slot.
#[tactic(auto, using(crate::proofs::AtSlot::given_here))]
fn process_datagram_at(
    inner: &InterfaceInner,
    slots: &mut Slots<Socket>,
    at: usize,
    header: &IpRepr,
    udp: &UdpRepr,
    bytes: &[u8],
)
    requires { at < length slots.old }
    ensures { GivenAt (context_of inner.now) header.now udp.now bytes.now (Some at) slots.old slots.new }
{
    process_datagram_in(inner, slots.slot_mut(at), header, udp, bytes);
    slots.file(at);
}

/// Gives a user datagram to the first socket that accepts it, and says whether there is one.
#[tactic(auto, using(crate::proofs::AtSlot::delivered_at, crate::proofs::AtSlot::delivered_nowhere))]
pub fn deliver_datagram(
    inner: &InterfaceInner,
    slots: &mut Slots<Socket>,
    header: &IpRepr,
    udp: &UdpRepr,
    bytes: &[u8],
) -> bool
    ensures taken { result ≡ is_some (datagram_slot (context_of inner.now) header.now udp.now slots.old) }
    ensures slots { IsDelivered (context_of inner.now) header.now udp.now bytes.now slots.old slots.new }
{
    match datagram_slot::<TESTED>(inner, slots, header, udp) {
        Some(at) => {
            process_datagram_at(inner, slots, at, header, udp, bytes);
            true
        }
        None => false,
    }
}

/// Gives a segment to the socket, if there is one at this slot.
fn process_in<'a>(
    inner: &mut InterfaceInner,
    slot: &mut SocketStorage<Socket>,
    header: &IpRepr,
    segment: &TcpHeader,
    bytes: &[u8],
    reply: &mut Option<Reply<'a>>,
)
    requires { reply.old ≡ None }
    ensures answer { reply_of reply.new ≡
        answered (answer_in (answer_of (context_of inner.old) header.now segment.now bytes.now) slot.old.inner) }
    ensures sendable { IfCanGo (reply_of reply.new) }
    ensures slot { slot.new ≡ with_change (with_segment (context_of inner.old) header.now segment.now bytes.now) slot.old }
    ensures host { inner.new ≡
        drawn_if (passes (draws_of (context_of inner.old) header.now segment.now bytes.now) slot.old) inner.old }
{
    if let Some(item) = &mut slot.inner {
        process_segment(inner, &mut item.socket, header, segment, bytes, reply);
    }
}

/// Gives a segment to the socket at this slot.
#[tactic(auto, using(crate::proofs::AtSlot::changed_here, crate::proofs::AtSlot::answer_here, crate::proofs::AtSlot::passes_here))]
fn process_at<'a>(
    inner: &mut InterfaceInner,
    slots: &mut Slots<Socket>,
    at: usize,
    header: &IpRepr,
    segment: &TcpHeader,
    bytes: &[u8],
    reply: &mut Option<Reply<'a>>,
)
    requires in_range { at < length slots.old }
    requires none { reply.old ≡ None }
    ensures answer { reply_of reply.new ≡
        answered (answer_at (answer_of (context_of inner.old) header.now segment.now bytes.now) (Some at) slots.old) }
    ensures sendable { IfCanGo (reply_of reply.new) }
    ensures slots { slots.new ≡
        changed_at (with_segment (context_of inner.old) header.now segment.now bytes.now) (Some at) slots.old }
    ensures host { inner.new ≡
        drawn_if (passes_at (draws_of (context_of inner.old) header.now segment.now bytes.now) (Some at) slots.old) inner.old }
{
    process_in(inner, slots.slot_mut(at), header, segment, bytes, reply);
    slots.file(at);
}

/// The reset that answers a segment which no socket accepts, as far as the limit on errors allows, but for a reset and a segment
/// that a raw socket took. It has a place of its own, which isn't made ready where a socket accepts the segment.
#[inline(never)]
fn reset<'a>(
    inner: &mut InterfaceInner,
    header: &IpRepr,
    segment: &TcpHeader,
    bytes: &[u8],
    is_taken: bool,
    reply: &mut Option<Reply<'a>>,
)
    requires { reply.old ≡ None }
    ensures answer { reply_of reply.new ≡
        answered (if_it_may inner.old (reset_for header.now segment.now bytes.now is_taken)) }
    ensures sendable { IfCanGo (reply_of reply.new) }
    ensures host { inner.new ≡
        counted_in inner.old (reset_for header.now segment.now bytes.now is_taken) inner.old }
{
    if is_taken || segment.control == TcpControl::Rst || !inner.count_error() {
        return;
    }
    let (header, segment) = tcp::Socket::rst_reply(header, &TcpRepr::new(segment, bytes));
    *reply = Some(Reply::Packet(Packet::new(header, IpPayload::segment(&segment))));
}

/// Gives a segment to the socket of its connection, else to the first that accepts it, and writes the packet that answers it: the
/// socket's, or a reset where no socket accepts it and the limit on errors allows one. `is_taken` says that a raw socket took it.
pub fn deliver_segment<'a>(
    inner: &mut InterfaceInner,
    slots: &mut Slots<Socket>,
    header: &IpRepr,
    segment: &TcpHeader,
    bytes: &[u8],
    is_taken: bool,
    reply: &mut Option<Reply<'a>>,
)
    requires { reply.old ≡ None }
    ensures answer { reply_of reply.new ≡
        answered (let_go (not (is_some (segment_slot header.now segment.now slots.old))) inner.old
        (segment_answer (context_of inner.old) header.now segment.now bytes.now is_taken slots.old)) }
    ensures sendable { IfCanGo (reply_of reply.new) }
    ensures slots { slots.new ≡ segment_delivered (context_of inner.old) header.now segment.now bytes.now slots.old }
    ensures host { inner.new ≡
        counted (not (is_some (segment_slot header.now segment.now slots.old))) inner.old
        (segment_answer (context_of inner.old) header.now segment.now bytes.now is_taken slots.old)
        (drawn_if (segment_draws (context_of inner.old) header.now segment.now bytes.now slots.old) inner.old) }
{
    match segment_slot::<TESTED>(slots, header, segment) {
        Some(at) => process_at(inner, slots, at, header, segment, bytes, reply),
        None => reset(inner, header, segment, bytes, is_taken, reply),
    }
}
