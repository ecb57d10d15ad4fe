//! The short ingress path, which nearly every frame goes: a whole IPv4 packet from one host, for a local address.
ghost use Rattle.std.specs.Prelude.{◌≡◌, ◌==◌, ◌||◌, ℕ, ◌+◌, ◌<◌, ◌≤◌, ◌^◌, length, true, false, None, IfSome};
ghost use Rattle.std.specs.List.{list_any};
ghost use Rattle.ip_wire.specs.IpAddress.TheVariants as Address;
ghost use Rattle.ip_wire.specs.IpRepr.TheVariants as Ip;
ghost use Rattle.ip_wire.specs.Ipv4 as Ipv4;
ghost use Rattle.ip_wire.specs.Pseudo.{pseudo_of};
ghost use Rattle.ip_wire.specs.Sum.{word_sum, folded};
ghost use Rattle.iface_tables.specs.Inner.{is_address_of, is_local};
ghost use Rattle.iface_ingress.specs.Arrives.{Arrives, Hands, IfCanGo, arrived, renewed, reply_of};
ghost use Rattle.iface_ingress.specs.Delivered.{is_taken_raw, packet_delivered};
ghost use Rattle.iface_ingress.specs.Reassembled.{Assemblers};
ghost use Rattle.iface_ingress.specs.FastPath.{StandsFollowing, StandsIn, is_fast, is_fast_frame, is_plain, TakesPacket};
ghost use Rattle.iface_ingress.specs.FastPath.{IsTakenFast, has_plain_words, is_plain_header, is_plain_segment, plain_header, plain_segment};
ghost use Rattle.iface_ingress.specs.Processed.{names_no_endpoint};

use crate::copy_checksum::take_at;
use crate::deliver::{deliver_packet, is_taken_raw};
use crate::icmp_reply::is_one_host;
use crate::ip::refresh_at;
use crate::process::process_ipv4_payload;
use crate::reassemble::{is_fragment, is_group_frame, is_sender, passes_filter};
use crate::reply::Reply;
use crate::search::{PLAIN, SHORT, connection_slot};
use iface_egress::{InterfaceInner, Slots};
use ip_wire::network_order::{read_u16, read_u32};
use ip_wire::{
    EthernetFrame, EthernetProtocol, EthernetRepr, HardwareAddress, IpAddress, IpCidr, IpProtocol,
    IpRepr, Ipv4Address, Ipv4Fragment, Ipv4Packet, Ipv4Repr, SeqNumber, TcpControl, TcpHeader,
    TcpOptions, checksum,
};
use sockets::{Context, Socket};

/// Takes in a frame that goes the short way, and writes what answers it: it brings what `read`, `take_in`, `keep`, `bring` and
/// `release` would make of it. Says whether it was such a frame; any other one changes nothing.
pub fn process_frame_fast<'a>(
    inner: &mut InterfaceInner,
    slots: &mut Slots<Socket>,
    frame: &'a [u8],
    reply: &mut Option<Reply<'a>>,
) -> bool
    requires none { reply.old ≡ None }
    ensures taken { result ≡ true → (timeout : ℕ) (assemblers : Assemblers)
        → Arrives inner.old timeout assemblers slots.old frame.now assemblers (arrived inner.new slots.new (reply_of reply.new)) }
    ensures other { result ≡ false → (inner.new ≡ inner.old) × (slots.new ≡ slots.old) × (reply.new ≡ None) }
    ensures sendable { IfCanGo (reply_of reply.new) }
{
    let mut link = None;
    match packet_in(inner, frame, &mut link) {
        Some(bytes) => process_bytes_fast(inner, slots, &link, bytes, reply),
        None => false,
    }
}

/// The bytes of a frame that are an IPv4 packet, if any are: on a medium of bare packets all. The link header is written where the caller
/// wants it.
fn packet_in<'a>(
    inner: &InterfaceInner,
    frame: &'a [u8],
    link: &mut Option<EthernetRepr>,
) -> Option<&'a [u8]>
    requires none { link.old ≡ None }
    ensures { IfSome result (λ bytes. StandsIn inner.now.hardware inner.now frame.now link.new bytes.now) }
{
    match inner.hardware_addr() {
        HardwareAddress::Ip => Some(frame),
        HardwareAddress::Ethernet(_) => packet_after_header(inner, frame, link),
    }
}

/// The same of an Ethernet frame: those after a link header that names IPv4, if the frame is received.
fn packet_after_header<'a>(
    inner: &InterfaceInner,
    frame: &'a [u8],
    link: &mut Option<EthernetRepr>,
) -> Option<&'a [u8]>
    ensures { IfSome result (λ bytes. StandsFollowing inner.now frame.now link.new bytes.now) }
{
    let frame = EthernetFrame::new_unchecked(frame);
    let Ok(header) = EthernetRepr::parse(&frame) else {
        return None;
    };
    *link = Some(header);
    match header.ethertype {
        EthernetProtocol::Ipv4 if is_fast_frame(inner, link) => Some(frame.payload()),
        _ => None,
    }
}

/// Whether a frame is received, whomever the packet in it is for.
fn is_fast_frame(inner: &InterfaceInner, link: &Option<EthernetRepr>) -> bool
    ensures { result ≡ is_fast_frame inner.now link.now }
{
    match link {
        Some(header) => {
            let to = header.dst_addr;
            passes_filter(inner, link) && !is_group_frame(inner, &to)
        }
        None => true,
    }
}

/// The same of what stands after a link header that is for this host, or without one: a plain segment by its words, else any packet.
#[inline(always)]
fn process_bytes_fast<'a>(
    inner: &mut InterfaceInner,
    slots: &mut Slots<Socket>,
    link: &Option<EthernetRepr>,
    bytes: &'a [u8],
    reply: &mut Option<Reply<'a>>,
) -> bool
    requires none { reply.old ≡ None }
    ensures taken { result ≡ true → TakesPacket inner.old slots.old link.now bytes.now (arrived inner.new slots.new (reply_of reply.new)) }
    ensures other { result ≡ false → (inner.new ≡ inner.old) × (slots.new ≡ slots.old) × (reply.new ≡ None) }
    ensures sendable { IfCanGo (reply_of reply.new) }
{
    process_tcp_fast(inner, slots, link, bytes, reply)
        || process_packet_fast(inner, slots, link, bytes, reply)
}

/// The same of any packet.
fn process_packet_fast<'a>(
    inner: &mut InterfaceInner,
    slots: &mut Slots<Socket>,
    link: &Option<EthernetRepr>,
    bytes: &'a [u8],
    reply: &mut Option<Reply<'a>>,
) -> bool
    requires none { reply.old ≡ None }
    ensures taken { result ≡ true → TakesPacket inner.old slots.old link.now bytes.now (arrived inner.new slots.new (reply_of reply.new)) }
    ensures other { result ≡ false → (inner.new ≡ inner.old) × (slots.new ≡ slots.old) × (reply.new ≡ None) }
    ensures sendable { IfCanGo (reply_of reply.new) }
{
    let packet = Ipv4Packet::new_unchecked(bytes);
    let Ok(header) = Ipv4Repr::parse(&packet, &inner.checksum_caps()) else {
        return false;
    };
    if is_fast(inner, &header, packet.fragment()) {
        process_ipv4_fast(inner, slots, link, &header, packet.payload(), reply);
        true
    } else {
        false
    }
}

/// Takes in a whole packet for the host: raw sockets get it first.
fn process_ipv4_fast<'a>(
    inner: &mut InterfaceInner,
    slots: &mut Slots<Socket>,
    link: &Option<EthernetRepr>,
    header: &Ipv4Repr,
    payload: &'a [u8],
    reply: &mut Option<Reply<'a>>,
)
    requires fits { Ipv4.Fits header.now }
    requires len { length payload.now ≡ header.now.payload_len }
    requires none { reply.old ≡ None }
    ensures hands { Hands (renewed inner.old link.now (Ip.Ipv4 header.now)) (packet_delivered (Ip.Ipv4 header.now) payload.now slots.old)
        (Ip.Ipv4 header.now) payload.now (is_taken_raw (Ip.Ipv4 header.now) slots.old) (arrived inner.new slots.new (reply_of reply.new)) }
    ensures sendable { IfCanGo (reply_of reply.new) }
{
    let ip = IpRepr::Ipv4(*header);
    let is_taken = deliver_packet::<SHORT>(slots, &ip, payload);
    refresh_sender_fast(inner, link, &ip);
    process_ipv4_payload(
        inner,
        slots,
        header.next_header,
        &ip,
        payload,
        is_taken,
        reply,
    );
}

/// Believes the sender of a packet after a link header again, as `renew` does. It stands here, so that a packet without one goes past it
/// without a call.
#[inline(always)]
fn refresh_sender_fast(inner: &mut InterfaceInner, link: &Option<EthernetRepr>, header: &IpRepr)
    ensures { inner.new ≡ renewed inner.old link.now header.now }
{
    if let Some(link) = link {
        refresh_at(inner, link, header);
    }
}

/// Whether a packet is whole and plain.
fn is_fast(inner: &InterfaceInner, header: &Ipv4Repr, fragment: Ipv4Fragment) -> bool
    ensures { result ≡ is_fast inner.now header.now fragment }
{
    !is_fragment(fragment) && is_plain(inner, header)
}

/// Whether a packet comes from one other host for a local address, and no loopback address is in it.
#[inline(always)]
fn is_plain(inner: &InterfaceInner, header: &Ipv4Repr) -> bool
    ensures { result ≡ is_plain inner.now header.now }
{
    !(header.src_addr.is_loopback() || header.dst_addr.is_loopback())
        && is_sender(inner, &header.src_addr)
        && is_local(inner, &header.dst_addr)
        && !inner.never_comes(
            &IpAddress::Ipv4(header.src_addr),
            &IpAddress::Ipv4(header.dst_addr),
        )
}

/// Whether this is a local address, without making one of either family of it.
#[inline(always)]
fn is_local(inner: &InterfaceInner, address: &Ipv4Address) -> bool
    ensures { result ≡ is_local inner.now (Address.Ipv4 address.now) }
{
    inner.any_ip() || is_in_list(inner.ip_addrs(), address)
}

fn is_in_list(addresses: &[IpCidr], address: &Ipv4Address) -> bool
    ensures { result ≡ list_any (is_address_of (Address.Ipv4 address.now)) addresses.now }
{
    addresses.iter().any(|cidr| is_address_of(address, cidr))
}

fn is_address_of(address: &Ipv4Address, cidr: &IpCidr) -> bool
    ensures { result ≡ is_address_of (Address.Ipv4 address.now) cidr.now }
{
    match cidr {
        IpCidr::Ipv4(cidr) => cidr.address.octets() == address.octets(),
        IpCidr::Ipv6(_) => false,
    }
}

/// The length of either header without options.
const HEADER_LEN: usize = 20;

/// The same of a packet that may carry a plain segment, with room for both headers: any other one goes past it without a call.
#[inline(always)]
fn process_tcp_fast<'a>(
    inner: &mut InterfaceInner,
    slots: &mut Slots<Socket>,
    link: &Option<EthernetRepr>,
    bytes: &'a [u8],
    reply: &mut Option<Reply<'a>>,
) -> bool
    requires none { reply.old ≡ None }
    ensures taken { result ≡ true → TakesPacket inner.old slots.old link.now bytes.now (arrived inner.new slots.new (reply_of reply.new)) }
    ensures other { result ≡ false → (inner.new ≡ inner.old) × (slots.new ≡ slots.old) × (reply.new ≡ None) }
    ensures sendable { IfCanGo (reply_of reply.new) }
{
    if bytes.len() < 2 * HEADER_LEN {
        return false;
    }
    if bytes[9] != 6 {
        return false;
    }
    process_segment_fast(inner, slots, link, bytes, reply)
}

/// The same of a plain segment of an open connection, which nearly every packet carries: the words of both headers are compared, and no
/// other packet is looked at further. A segment that doesn't come next isn't taken.
#[inline(never)]
fn process_segment_fast<'a>(
    inner: &mut InterfaceInner,
    slots: &mut Slots<Socket>,
    link: &Option<EthernetRepr>,
    bytes: &'a [u8],
    reply: &mut Option<Reply<'a>>,
) -> bool
    requires room { 40 ≤ length bytes.now }
    requires none { reply.old ≡ None }
    ensures taken { result ≡ true → TakesPacket inner.old slots.old link.now bytes.now (arrived inner.new slots.new (reply_of reply.new)) }
    ensures other { result ≡ false → (inner.new ≡ inner.old) × (slots.new ≡ slots.old) × (reply.new ≡ None) }
    ensures sendable { IfCanGo (reply_of reply.new) }
{
    if !is_plain_header(bytes) {
        return false;
    }
    let (_front, packet) = bytes.split_at(HEADER_LEN);
    if !is_plain_segment(packet) {
        return false;
    }
    let ipv4 = plain_header(bytes);
    let header = IpRepr::Ipv4(ipv4);
    if !joins_hosts(inner, &ipv4) {
        return false;
    }
    if !take_segment_fast(inner, slots, &ipv4, &header, packet, reply) {
        return false;
    }
    refresh_sender_fast(inner, link, &header);
    true
}

/// Whether a packet is plain, and both its addresses are those of one host.
#[tactic(auto, using(crate::proofs::PlainSegments::between_hosts))]
#[inline(always)]
fn joins_hosts(inner: &InterfaceInner, header: &Ipv4Repr) -> bool
    ensures plain { result ≡ true → is_plain inner.now header.now ≡ true }
    ensures ends { result ≡ true → names_no_endpoint inner.now (Ip.Ipv4 header.now) ≡ false }
{
    is_plain(inner, header)
        && !header.src_addr.is_unspecified()
        && is_one_host(inner, &header.dst_addr)
}

/// Gives a plain segment to the socket of its connection, if it goes so and no raw socket asks for it.
#[inline(always)]
fn take_segment_fast<'a>(
    inner: &InterfaceInner,
    slots: &mut Slots<Socket>,
    ipv4: &Ipv4Repr,
    header: &IpRepr,
    packet: &[u8],
    reply: &mut Option<Reply<'a>>,
) -> bool
    requires header { header.now ≡ Ip.Ipv4 ipv4.now }
    requires room { 20 ≤ length packet.now }
    requires short { length packet.now < 2 ^ 16 }
    requires none { reply.old ≡ None }
    ensures taken { result ≡ true → IsTakenFast inner.now slots.old ipv4.now packet.now slots.new (reply_of reply.new) }
    ensures other { result ≡ false → (slots.new ≡ slots.old) × (reply.new ≡ None) }
    ensures sendable { IfCanGo (reply_of reply.new) }
{
    if is_taken_raw(slots, header) {
        return false;
    }
    let segment = plain_segment(packet);
    let (head, payload) = packet.split_at(HEADER_LEN);
    let rest = sum_of_head(ipv4, head, packet.len());
    match connection_slot::<PLAIN>(slots, header, &segment) {
        Some(at) => take_at(inner, slots, at, header, &segment, payload, rest, reply),
        None => false,
    }
}

/// Whether bytes are a whole IPv4 packet that carries a segment: it has no options and no padding, it is no fragment, and the checksum of its
/// header holds.
#[inline(always)]
fn is_plain_header(bytes: &[u8]) -> bool
    requires { 20 ≤ length bytes.now }
    ensures { result ≡ is_plain_header bytes.now }
{
    has_plain_words(bytes) && folded(sum_of_twenty(&bytes[..HEADER_LEN])) == 0xffff
}

/// The same but for the checksum.
#[inline(always)]
fn has_plain_words(bytes: &[u8]) -> bool
    requires { 20 ≤ length bytes.now }
    ensures { result ≡ has_plain_words bytes.now }
{
    bytes[0] == 0x45
        && read_u16(bytes, 2) as usize == bytes.len()
        && is_whole(read_u16(bytes, 6))
        && bytes[9] == 6
}

/// Whether the field of flags and offset is that of a packet which is no fragment.
#[inline(always)]
fn is_whole(flags: u16) -> bool
    ensures { result ≡ ((flags == 0) || (flags == 0x4000)) }
{
    flags == 0 || flags == 0x4000
}

/// Whether bytes are a segment without options, of whose flags ACK is set, and none else but PSH, between ports that aren't 0.
#[inline(always)]
fn is_plain_segment(packet: &[u8]) -> bool
    requires { 20 ≤ length packet.now }
    ensures { result ≡ is_plain_segment packet.now }
{
    acknowledges_alone(read_u16(packet, 12)) && read_u16(packet, 0) != 0 && read_u16(packet, 2) != 0
}

/// Whether the field of header length and flags is that of such a segment.
#[inline(always)]
fn acknowledges_alone(flags: u16) -> bool
    ensures { result ≡ ((flags == 0x5010) || (flags == 0x5018)) }
{
    flags == 0x5010 || flags == 0x5018
}

/// The sum of the words of twenty bytes.
#[inline(always)]
fn sum_of_twenty(bytes: &[u8]) -> u32
    requires { length bytes.now ≡ 20 }
    ensures same { result ≡ word_sum bytes.now }
    ensures room { result < 2 ^ 20 }
{
    read_u16(bytes, 0) as u32
        + read_u16(bytes, 2) as u32
        + read_u16(bytes, 4) as u32
        + read_u16(bytes, 6) as u32
        + read_u16(bytes, 8) as u32
        + read_u16(bytes, 10) as u32
        + read_u16(bytes, 12) as u32
        + read_u16(bytes, 14) as u32
        + read_u16(bytes, 16) as u32
        + read_u16(bytes, 18) as u32
}

/// The sum brought to 16 bits.
#[inline(always)]
fn folded(sum: u32) -> u16
    ensures { result ≡ folded sum }
{
    checksum::add((sum / 0x1_0000) as u16, (sum % 0x1_0000) as u16)
}

/// The sum of all but its payload that the checksum of a segment of so many bytes covers, which begins with this header.
#[inline(always)]
fn sum_of_head(ipv4: &Ipv4Repr, head: &[u8], len: usize) -> u16
    requires head { length head.now ≡ 20 }
    requires short { len < 2 ^ 16 }
    ensures { result ≡ folded (folded (word_sum (pseudo_of (Address.Ipv4 ipv4.now.src_addr) (Address.Ipv4 ipv4.now.dst_addr) 6 len))
        + folded (word_sum head.now)) }
{
    let (source, destination) = (&ipv4.src_addr, &ipv4.dst_addr);
    let pseudo = checksum::pseudo_header_v4(source, destination, IpProtocol::Tcp, len as u32);
    checksum::add(pseudo, folded(sum_of_twenty(head)))
}

/// The header of such a packet.
#[inline(always)]
fn plain_header(bytes: &[u8]) -> Ipv4Repr
    requires { 20 ≤ length bytes.now }
    ensures { result ≡ plain_header bytes.now }
{
    Ipv4Repr {
        src_addr: Ipv4Address([bytes[12], bytes[13], bytes[14], bytes[15]]),
        dst_addr: Ipv4Address([bytes[16], bytes[17], bytes[18], bytes[19]]),
        next_header: IpProtocol::Tcp,
        payload_len: bytes.len() - HEADER_LEN,
        hop_limit: bytes[8],
        ident: read_u16(bytes, 4),
        dont_frag: read_u16(bytes, 6) == 0x4000,
    }
}

/// The header of such a segment.
#[inline(always)]
fn plain_segment(packet: &[u8]) -> TcpHeader
    requires { 20 ≤ length packet.now }
    ensures { result ≡ plain_segment packet.now }
{
    TcpHeader {
        src_port: read_u16(packet, 0),
        dst_port: read_u16(packet, 2),
        control: if read_u16(packet, 12) == 0x5018 {
            TcpControl::Psh
        } else {
            TcpControl::None
        },
        seq_number: SeqNumber(read_u32(packet, 4)),
        ack_number: Some(SeqNumber(read_u32(packet, 8))),
        window_len: read_u16(packet, 14),
        options: TcpOptions::NONE,
    }
}
