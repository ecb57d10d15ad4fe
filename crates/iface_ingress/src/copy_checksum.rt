//! One pass over what is long: the header alone is read, and the bytes after it are summed while their socket copies them.
ghost use Rattle.std.specs.Prelude.{◌≡◌, ◌+◌, ◌%◌, ◌<◌, ◌≤◌, ◌^◌, ℕ, Bool, true, false, List, length, drop, None, Some};
ghost use Rattle.net_base.specs.ChecksumCapabilities.{ChecksumCapabilities};
ghost use Rattle.ip_wire.specs.Fields.{be16};
ghost use Rattle.ip_wire.specs.Ip.{source_of, destination_of, carried_in};
ghost use Rattle.ip_wire.specs.IpProtocol.TheVariants as Protocol;
ghost use Rattle.ip_wire.specs.Pseudo.{covered};
ghost use Rattle.ip_wire.specs.Sum.{word_sum, folded};
ghost use Rattle.ip_wire.specs.Tcp as Tcp;
ghost use Rattle.ip_wire.specs.Udp as Udp;
ghost use Rattle.ip_wire.specs.Protocol.{protocol_number};
ghost use Rattle.sockets.specs.Packet.{Datagram, Segment};
ghost use Rattle.sockets.specs.TcpArrival.{arrives};
ghost use Rattle.iface_egress.specs.Inner.{context_of};
ghost use Rattle.iface_ingress.specs.Arrives.{HandsUpper, IfCanGo, IsHanded, answered, arrived, reply_of};
ghost use Rattle.iface_ingress.specs.UpperLayer.{IsDatagram, IsSegment};
ghost use Rattle.iface_ingress.specs.Datagrams.{TakesDatagram, SlotTakes, GivenAt};
ghost use Rattle.iface_ingress.specs.Delivered.{packet_by, with_change, with_segment, answer_of, answer_in, answer_at, draws_of};
ghost use Rattle.iface_ingress.specs.Delivered.{passes, passes_at, changed_at};
ghost use Rattle.iface_ingress.specs.Processed.{names_no_endpoint};

use crate::process::names_no_endpoint;
use crate::reply::Reply;
use crate::search::{IN_ONE_PASS, datagram_slot, segment_slot};
use crate::stream::write_answer;
use crate::upper_layer::{ReadDatagram, read_tcp, read_udp};
use iface_egress::{InterfaceInner, Slots, SocketStorage};
use ip_wire::{IpProtocol, IpRepr, TcpHeader, TcpPacket, UdpPacket, UdpRepr, checksum};
use net_base::{ChecksumCapabilities, PacketMeta};
use sockets::tcp::NotInFastPath;
use sockets::{Context, Socket, tcp};

/// Below so many bytes two passes are as quick.
pub const WORTH_ONE_PASS: usize = 4096;

/// The sum of what a checksum covers before the bytes from `front` on: the pseudo header and the packet's front.
fn sum_before(header: &IpRepr, protocol: IpProtocol, packet: &[u8], front: usize) -> u16
    requires within { front ≤ length packet.now }
    requires even { front % 2 ≡ 0 }
    requires short { length packet.now < 2 ^ 16 }
    ensures { folded (result + word_sum (drop front packet.now)) ≡
        folded (covered (source_of header.now) (destination_of header.now) (protocol_number protocol) packet.now) }
{
    let (source, destination) = (header.src_addr(), header.dst_addr());
    let pseudo = checksum::pseudo_header(&source, &destination, protocol, packet.len() as u32);
    let (head, _following) = packet.split_at(front);
    checksum::add(pseudo, checksum::data(head))
}

/// The sum of all but its text that a segment's checksum covers.
fn sum_before_text(header: &IpRepr, segment: &[u8]) -> u16
    requires whole { Tcp.IsWhole segment.now }
    requires short { length segment.now < 2 ^ 16 }
    ensures { folded (result + word_sum (Tcp.payload_of segment.now)) ≡
        folded (covered (source_of header.now) (destination_of header.now) 6 segment.now) }
{
    let front = TcpPacket::new_unchecked(segment).header_len() as usize;
    sum_before(header, IpProtocol::Tcp, segment, front)
}

/// Gives a segment to a TCP socket in one pass, if it goes so, and writes the packet that answers it.
#[inline(always)]
fn take_by_stream<'a>(
    inner: &InterfaceInner,
    socket: &mut tcp::Socket,
    header: &IpRepr,
    segment: &TcpHeader,
    bytes: &[u8],
    rest: u16,
    reply: &mut Option<Reply<'a>>,
) -> bool
    requires { reply.old ≡ None }
    ensures sum { result ≡ true → folded (rest + word_sum bytes.now) ≡ 65535 }
    ensures answer { result ≡ true → reply_of reply.new ≡
        answered (packet_by (arrives (context_of inner.now) socket.old header.now segment.now bytes.now).answer) }
    ensures socket { result ≡ true → socket.new ≡ (arrives (context_of inner.now) socket.old header.now segment.now bytes.now).socket }
    ensures quiet { result ≡ true → (arrives (context_of inner.now) socket.old header.now segment.now bytes.now).draws ≡ false }
    ensures other { result ≡ false → (socket.new ≡ socket.old) × (reply.new ≡ None) }
    ensures sendable { IfCanGo (reply_of reply.new) }
{
    let now = inner.now();
    match socket.on_segment_fast(inner, header, segment, bytes, rest) {
        Ok(Some(due)) => {
            write_answer(socket, due, now, header, segment, bytes.len(), reply);
            true
        }
        Ok(None) => true,
        Err(NotInFastPath) => false,
    }
}

/// Gives a segment to a socket so.
#[inline(always)]
fn take_by_socket<'a>(
    inner: &InterfaceInner,
    socket: &mut Socket,
    header: &IpRepr,
    segment: &TcpHeader,
    bytes: &[u8],
    rest: u16,
    reply: &mut Option<Reply<'a>>,
) -> bool
    requires { reply.old ≡ None }
    ensures sum { result ≡ true → folded (rest + word_sum bytes.now) ≡ 65535 }
    ensures answer { result ≡ true → reply_of reply.new ≡
        answered (answer_of (context_of inner.now) header.now segment.now bytes.now socket.old) }
    ensures socket { result ≡ true → socket.new ≡ with_segment (context_of inner.now) header.now segment.now bytes.now socket.old }
    ensures quiet { result ≡ true → draws_of (context_of inner.now) header.now segment.now bytes.now socket.old ≡ false }
    ensures other { result ≡ false → (socket.new ≡ socket.old) × (reply.new ≡ None) }
    ensures sendable { IfCanGo (reply_of reply.new) }
{
    match socket {
        Socket::Tcp(socket) => take_by_stream(inner, socket, header, segment, bytes, rest, reply),
        _ => false,
    }
}

/// Gives a segment so to the socket, if there is one at this slot.
#[inline(always)]
fn take_in<'a>(
    inner: &InterfaceInner,
    slot: &mut SocketStorage<Socket>,
    header: &IpRepr,
    segment: &TcpHeader,
    bytes: &[u8],
    rest: u16,
    reply: &mut Option<Reply<'a>>,
) -> bool
    requires { reply.old ≡ None }
    ensures sum { result ≡ true → folded (rest + word_sum bytes.now) ≡ 65535 }
    ensures answer { result ≡ true → reply_of reply.new ≡
        answered (answer_in (answer_of (context_of inner.now) header.now segment.now bytes.now) slot.old.inner) }
    ensures slot { result ≡ true → slot.new ≡
        with_change (with_segment (context_of inner.now) header.now segment.now bytes.now) slot.old }
    ensures quiet { result ≡ true → passes (draws_of (context_of inner.now) header.now segment.now bytes.now) slot.old ≡ false }
    ensures other { result ≡ false → (slot.new ≡ slot.old) × (reply.new ≡ None) }
    ensures sendable { IfCanGo (reply_of reply.new) }
{
    match &mut slot.inner {
        Some(item) => take_by_socket(inner, &mut item.socket, header, segment, bytes, rest, reply),
        None => false,
    }
}

/// Gives a segment so to the socket at this slot.
#[tactic(auto, using(crate::proofs::AtSlot::same_here))]
#[inline(always)]
pub(crate) fn take_at<'a>(
    inner: &InterfaceInner,
    slots: &mut Slots<Socket>,
    at: usize,
    header: &IpRepr,
    segment: &TcpHeader,
    bytes: &[u8],
    rest: u16,
    reply: &mut Option<Reply<'a>>,
) -> bool
    requires in_range { at < length slots.old }
    requires none { reply.old ≡ None }
    ensures sum { result ≡ true → folded (rest + word_sum bytes.now) ≡ 65535 }
    ensures answer { result ≡ true → reply_of reply.new ≡
        answered (answer_at (answer_of (context_of inner.now) header.now segment.now bytes.now) (Some at) slots.old) }
    ensures slots { result ≡ true → slots.new ≡
        changed_at (with_segment (context_of inner.now) header.now segment.now bytes.now) (Some at) slots.old }
    ensures quiet { result ≡ true →
        passes_at (draws_of (context_of inner.now) header.now segment.now bytes.now) (Some at) slots.old ≡ false }
    ensures unchanged { result ≡ false → slots.new ≡ slots.old }
    ensures unanswered { result ≡ false → reply.new ≡ None }
    ensures sendable { IfCanGo (reply_of reply.new) }
{
    let is_taken = take_in(
        inner,
        slots.slot_mut(at),
        header,
        segment,
        bytes,
        rest,
        reply,
    );
    slots.file(at);
    is_taken
}

/// Gives a segment so to the socket that gets it.
fn take_found<'a>(
    inner: &InterfaceInner,
    slots: &mut Slots<Socket>,
    header: &IpRepr,
    segment: &TcpHeader,
    bytes: &[u8],
    rest: u16,
    reply: &mut Option<Reply<'a>>,
) -> bool
    requires somebody { names_no_endpoint inner.now header.now ≡ false }
    requires none { reply.old ≡ None }
    ensures sum { result ≡ true → folded (rest + word_sum bytes.now) ≡ 65535 }
    ensures handed { result ≡ true → (payload : List ℕ) (is_taken : Bool) → IsHanded inner.now slots.old header.now payload is_taken
        (Some (Segment segment.now bytes.now)) (arrived inner.now slots.new (reply_of reply.new)) }
    ensures unchanged { result ≡ false → slots.new ≡ slots.old }
    ensures unanswered { result ≡ false → reply.new ≡ None }
    ensures sendable { IfCanGo (reply_of reply.new) }
{
    match segment_slot::<IN_ONE_PASS>(slots, header, segment) {
        Some(at) => take_at(inner, slots, at, header, segment, bytes, rest, reply),
        None => false,
    }
}

/// Gives the segment that was read so to the socket that gets it.
fn take_read<'a>(
    inner: &InterfaceInner,
    slots: &mut Slots<Socket>,
    header: &IpRepr,
    upper: &IpRepr,
    packet: &[u8],
    segment: &TcpHeader,
    bytes: &[u8],
    reply: &mut Option<Reply<'a>>,
) -> bool
    requires somebody { names_no_endpoint inner.now header.now ≡ false }
    requires short { length packet.now < 2 ^ 16 }
    requires read { (caps : ChecksumCapabilities) × IsSegment caps upper.now packet.now segment.now bytes.now }
    requires none { reply.old ≡ None }
    ensures taken { result ≡ true → (payload : List ℕ) (is_taken : Bool)
        → HandsUpper inner.now slots.old header.now payload is_taken upper.now packet.now
        (arrived inner.now slots.new (reply_of reply.new)) }
    ensures unchanged { result ≡ false → slots.new ≡ slots.old }
    ensures unanswered { result ≡ false → reply.new ≡ None }
    ensures sendable { IfCanGo (reply_of reply.new) }
{
    let rest = sum_before_text(upper, packet);
    take_found(inner, slots, header, segment, bytes, rest, reply)
}

/// Reads a segment without its checksum, and gives it so to the socket that gets it.
fn read_and_take<'a>(
    inner: &InterfaceInner,
    slots: &mut Slots<Socket>,
    header: &IpRepr,
    upper: &IpRepr,
    packet: &[u8],
    reply: &mut Option<Reply<'a>>,
) -> bool
    requires protocol { carried_in upper.now ≡ Protocol.Tcp }
    requires somebody { names_no_endpoint inner.now header.now ≡ false }
    requires short { length packet.now < 2 ^ 16 }
    requires none { reply.old ≡ None }
    ensures taken { result ≡ true → (payload : List ℕ) (is_taken : Bool)
        → HandsUpper inner.now slots.old header.now payload is_taken upper.now packet.now
        (arrived inner.now slots.new (reply_of reply.new)) }
    ensures unchanged { result ≡ false → slots.new ≡ slots.old }
    ensures unanswered { result ≡ false → reply.new ≡ None }
    ensures sendable { IfCanGo (reply_of reply.new) }
{
    let mut segment = TcpHeader::BLANK;
    let untested = ChecksumCapabilities::ignored();
    match read_tcp(upper, packet, &untested, &mut segment) {
        Some(text) => take_read(inner, slots, header, upper, packet, &segment, text, reply),
        None => false,
    }
}

/// Gives a segment for the host in one pass to its socket, if it goes so, and writes the packet that answers it. Says whether it went so:
/// it is then as if it had been read and its checksum tested first. Otherwise nothing changes.
#[inline(never)]
fn on_segment<'a>(
    inner: &InterfaceInner,
    slots: &mut Slots<Socket>,
    header: &IpRepr,
    upper: &IpRepr,
    packet: &[u8],
    reply: &mut Option<Reply<'a>>,
) -> bool
    requires protocol { carried_in upper.now ≡ Protocol.Tcp }
    requires short { length packet.now < 2 ^ 16 }
    requires none { reply.old ≡ None }
    ensures taken { result ≡ true → (payload : List ℕ) (is_taken : Bool)
        → HandsUpper inner.now slots.old header.now payload is_taken upper.now packet.now
        (arrived inner.now slots.new (reply_of reply.new)) }
    ensures unchanged { result ≡ false → slots.new ≡ slots.old }
    ensures unanswered { result ≡ false → reply.new ≡ None }
    ensures sendable { IfCanGo (reply_of reply.new) }
{
    if !inner.checksum_caps().tcp.rx() || names_no_endpoint(inner, header) {
        return false;
    }
    read_and_take(inner, slots, header, upper, packet, reply)
}

/// The same of a segment that is long. It has its slot apart from `on_segment`, so that a short one goes past that without a call.
pub(crate) fn process_tcp_copy_checksum<'a>(
    inner: &InterfaceInner,
    slots: &mut Slots<Socket>,
    header: &IpRepr,
    upper: &IpRepr,
    packet: &[u8],
    reply: &mut Option<Reply<'a>>,
) -> bool
    requires protocol { carried_in upper.now ≡ Protocol.Tcp }
    requires short { length packet.now < 2 ^ 16 }
    requires none { reply.old ≡ None }
    ensures taken { result ≡ true → (payload : List ℕ) (is_taken : Bool)
        → HandsUpper inner.now slots.old header.now payload is_taken upper.now packet.now
        (arrived inner.now slots.new (reply_of reply.new)) }
    ensures unchanged { result ≡ false → slots.new ≡ slots.old }
    ensures unanswered { result ≡ false → reply.new ≡ None }
    ensures sendable { IfCanGo (reply_of reply.new) }
{
    if packet.len() < WORTH_ONE_PASS {
        return false;
    }
    on_segment(inner, slots, header, upper, packet, reply)
}

/// The length of a datagram's header.
const UDP_HEADER_LEN: usize = 8;

/// The sum of all but its payload that a datagram's checksum covers.
fn sum_before_payload(header: &IpRepr, packet: &[u8]) -> u16
    requires { Udp.IsWhole packet.now }
    ensures sum { folded (result + word_sum (Udp.payload_of packet.now)) ≡
        folded (covered (source_of header.now) (destination_of header.now) 17 (Udp.datagram_of packet.now)) }
    ensures short { be16 packet.now 4 < 2 ^ 16 }
{
    let size = UdpPacket::new_unchecked(packet).len() as usize;
    let (datagram, _padding) = packet.split_at(size);
    sum_before(header, IpProtocol::Udp, datagram, UDP_HEADER_LEN)
}

/// Gives a datagram to a UDP socket in one pass.
fn queue_by_socket(
    inner: &InterfaceInner,
    socket: &mut Socket,
    header: &IpRepr,
    udp: &UdpRepr,
    bytes: &[u8],
    rest: u16,
) -> bool
    requires { length bytes.now < 2 ^ 32 }
    ensures sum { result ≡ true → folded (rest + word_sum bytes.now) ≡ 65535 }
    ensures queued { result ≡ true → TakesDatagram (context_of inner.now) header.now udp.now bytes.now socket.old socket.new }
    ensures unchanged { result ≡ false → socket.new ≡ socket.old }
{
    match socket {
        Socket::Udp(socket) => {
            socket.process_in_one_pass(PacketMeta {}, header, udp, bytes, rest)
        }
        _ => false,
    }
}

/// Gives a datagram so to the socket, if there is one at this slot.
fn queue_in(
    inner: &InterfaceInner,
    slot: &mut SocketStorage<Socket>,
    header: &IpRepr,
    udp: &UdpRepr,
    bytes: &[u8],
    rest: u16,
) -> bool
    requires { length bytes.now < 2 ^ 32 }
    ensures sum { result ≡ true → folded (rest + word_sum bytes.now) ≡ 65535 }
    ensures queued { result ≡ true → SlotTakes (context_of inner.now) header.now udp.now bytes.now slot.old slot.new }
    ensures unchanged { result ≡ false → slot.new ≡ slot.old }
{
    match &mut slot.inner {
        Some(item) => queue_by_socket(inner, &mut item.socket, header, udp, bytes, rest),
        None => false,
    }
}

/// Gives a datagram so to the socket at this slot.
#[tactic(auto, using(crate::proofs::AtSlot::given_here, crate::proofs::AtSlot::same_here))]
fn queue_at(
    inner: &InterfaceInner,
    slots: &mut Slots<Socket>,
    at: usize,
    header: &IpRepr,
    udp: &UdpRepr,
    bytes: &[u8],
    rest: u16,
) -> bool
    requires in_range { at < length slots.old }
    requires fits { length bytes.now < 2 ^ 32 }
    ensures sum { result ≡ true → folded (rest + word_sum bytes.now) ≡ 65535 }
    ensures queued { result ≡ true → GivenAt (context_of inner.now) header.now udp.now bytes.now (Some at) slots.old slots.new }
    ensures unchanged { result ≡ false → slots.new ≡ slots.old }
{
    let is_taken = queue_in(inner, slots.slot_mut(at), header, udp, bytes, rest);
    slots.file(at);
    is_taken
}

/// Gives a datagram so to the socket that gets it.
fn queue_found(
    inner: &InterfaceInner,
    slots: &mut Slots<Socket>,
    header: &IpRepr,
    udp: &UdpRepr,
    bytes: &[u8],
    rest: u16,
) -> bool
    requires { length bytes.now < 2 ^ 32 }
    ensures sum { result ≡ true → folded (rest + word_sum bytes.now) ≡ 65535 }
    ensures handed { result ≡ true → (payload : List ℕ) (is_taken : Bool) → IsHanded inner.now slots.old header.now payload is_taken
        (Some (Datagram udp.now bytes.now)) (arrived inner.now slots.new None) }
    ensures unchanged { result ≡ false → slots.new ≡ slots.old }
{
    match datagram_slot::<IN_ONE_PASS>(inner, slots, header, udp) {
        Some(at) => queue_at(inner, slots, at, header, udp, bytes, rest),
        None => false,
    }
}

/// Gives the datagram that was read so to the socket that gets it.
fn queue_read(
    inner: &InterfaceInner,
    slots: &mut Slots<Socket>,
    header: &IpRepr,
    upper: &IpRepr,
    packet: &[u8],
    datagram: &ReadDatagram<'_>,
) -> bool
    requires { (caps : ChecksumCapabilities) × IsDatagram caps upper.now packet.now datagram.now.header datagram.now.bytes.now }
    ensures taken { result ≡ true → (payload : List ℕ) (is_taken : Bool)
        → HandsUpper inner.now slots.old header.now payload is_taken upper.now packet.now (arrived inner.now slots.new None) }
    ensures unchanged { result ≡ false → slots.new ≡ slots.old }
{
    if UdpPacket::new_unchecked(packet).checksum() == 0 {
        return false;
    }
    let rest = sum_before_payload(upper, packet);
    queue_found(inner, slots, header, &datagram.header, datagram.bytes, rest)
}

/// Gives a datagram for the host in one pass to its socket, if that is a UDP socket and the datagram has a checksum that holds. Says
/// whether it went so: it is then as if it had been read and its checksum tested first, and nothing answers it. Otherwise nothing
/// changes.
#[inline(never)]
fn take_datagram(
    inner: &InterfaceInner,
    slots: &mut Slots<Socket>,
    header: &IpRepr,
    upper: &IpRepr,
    packet: &[u8],
) -> bool
    requires { carried_in upper.now ≡ Protocol.Udp }
    ensures taken { result ≡ true → (payload : List ℕ) (is_taken : Bool)
        → HandsUpper inner.now slots.old header.now payload is_taken upper.now packet.now (arrived inner.now slots.new None) }
    ensures unchanged { result ≡ false → slots.new ≡ slots.old }
{
    if !inner.checksum_caps().udp.rx() {
        return false;
    }
    let untested = ChecksumCapabilities::ignored();
    match read_udp(upper, packet, &untested) {
        Some(datagram) => queue_read(inner, slots, header, upper, packet, &datagram),
        None => false,
    }
}

/// The same of a datagram that is long, apart from `take_datagram` as that of a segment is.
pub(crate) fn process_udp_copy_checksum(
    inner: &InterfaceInner,
    slots: &mut Slots<Socket>,
    header: &IpRepr,
    upper: &IpRepr,
    packet: &[u8],
) -> bool
    requires { carried_in upper.now ≡ Protocol.Udp }
    ensures taken { result ≡ true → (payload : List ℕ) (is_taken : Bool)
        → HandsUpper inner.now slots.old header.now payload is_taken upper.now packet.now (arrived inner.now slots.new None) }
    ensures unchanged { result ≡ false → slots.new ≡ slots.old }
{
    if packet.len() < WORTH_ONE_PASS {
        return false;
    }
    take_datagram(inner, slots, header, upper, packet)
}
