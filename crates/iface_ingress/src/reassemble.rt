//! What the host takes in of a frame's content, and datagrams that come in fragments (RFC 791, section 3.2).
ghost use Rattle.std.specs.Prelude.{◌≡◌, ◌<◌, ◌≤◌, ◌^◌, length, Some};
ghost use Rattle.std.specs.Option.{ForSome, option_copied};
ghost use Rattle.net_base.specs.Time.{IsMoment};
ghost use Rattle.ip_wire.specs.AddressTests.{is_same_hardware};
ghost use Rattle.ip_wire.specs.HardwareAddress.TheVariants as Hardware;
ghost use Rattle.iface_ingress.specs.Incoming.{AreMeasured, content_of, incoming_value};
ghost use Rattle.iface_ingress.specs.Reassembled.{passes_filter, is_group_frame, is_misframed, is_sender, is_control_v6, is_probe, is_sender_v6, is_astray, is_ipv4_taken_in, is_ipv6_taken_in, is_taken_in, taken_in, is_fragment};
ghost use Rattle.iface_ingress.specs.Reassembled.{is_fragment_v6, following_headers, part_of, part_v4, part_v6, part_following, whole_header, is_within, is_strict};
ghost use Rattle.iface_ingress.specs.Reassembled.{is_unfit, given_up_at, slot_of, slot_in, with_fragment, kept, bytes_at, finds_room, reassembled, reassembled_v6, released, room_for, with_room};
ghost use Rattle.iface_ingress.specs.Parts.{front_bytes, part_if, part_value};

use crate::icmp_reply::is_one_host;
use crate::incoming::Incoming;
use iface_egress::{InterfaceInner, PacketAssemblerSet};
use iface_tables::{FragKey, Ipv6FragKey, REASSEMBLY_SIZE};
use ip_wire::{
    AddressExt, EthernetAddress, EthernetRepr, HardwareAddress, IPV4_HEADER_LEN, IpAddress,
    IpProtocol, Ipv4Address, Ipv4Fragment, Ipv4Repr, Ipv6Repr,
};
use net_base::{Duration, Instant};
use sockets::Context;
use wire_address::network_order::read_u32;
use wire_ipv6_headers::{Following, fragment_offset, go_through, has_more};

/// The longest that a duration counts as where it is added to an instant, in microseconds.
const LONGEST: u64 = 1 << 61;

/// How many lengths a header's field can say.
const LENGTHS: usize = 1 << 16;

/// How many bytes a fragment header has.
const FRAGMENT_HEADER_LEN: usize = 8;

/// The hop limit of a packet that no router passed on.
const UNROUTED: u8 = 255;

/// A whole datagram.
const UNCUT: Ipv4Fragment = Ipv4Fragment {
    offset: 0,
    more: false,
};

/// Lends what the host takes in of a frame's content: a frame for this hardware address, for all or for a group, and an IP packet from
/// one host.
pub fn take_in<'a, 'b>(
    inner: &InterfaceInner,
    content: &'b Option<Incoming<'a>>,
) -> Option<&'b Incoming<'a>>
    requires { AreMeasured (content_of content.now) }
    ensures content { content_of (option_copied result) ≡ taken_in inner.now (content_of content.now) }
    ensures measured { AreMeasured (content_of (option_copied result)) }
{
    match content {
        Some(incoming) => {
            if is_taken_in(inner, incoming) {
                Some(incoming)
            } else {
                None
            }
        }
        None => None,
    }
}

fn is_taken_in(inner: &InterfaceInner, incoming: &Incoming<'_>) -> bool
    ensures { result ≡ is_taken_in inner.now (incoming_value incoming.now) }
{
    match incoming {
        Incoming::Arp { link, .. } => passes_filter(inner, &Some(*link)),
        Incoming::Ipv4 { link, header, .. } => is_ipv4_taken_in(inner, link, header),
        Incoming::Ipv6 { link, header, .. } => is_ipv6_taken_in(inner, link, header),
    }
}

fn is_ipv4_taken_in(inner: &InterfaceInner, link: &Option<EthernetRepr>, header: &Ipv4Repr) -> bool
    ensures { result ≡ is_ipv4_taken_in inner.now link.now header.now }
{
    let source = IpAddress::Ipv4(header.src_addr);
    let destination = IpAddress::Ipv4(header.dst_addr);
    let astray = is_astray(inner, &source, &destination);
    passes_filter(inner, link)
        && is_sender(inner, &header.src_addr)
        && !astray
        && !is_misframed(inner, link, &header.dst_addr)
}

fn is_ipv6_taken_in(inner: &InterfaceInner, link: &Option<EthernetRepr>, header: &Ipv6Repr) -> bool
    ensures { result ≡ is_ipv6_taken_in inner.now link.now header.now }
{
    let source = IpAddress::Ipv6(header.src_addr);
    let destination = IpAddress::Ipv6(header.dst_addr);
    let astray = is_astray(inner, &source, &destination);
    passes_filter(inner, link) && is_ipv6_sender(inner, header) && !astray
}

/// Whether the frame is for this hardware address, for all hardware addresses or for a group.
pub(crate) fn passes_filter(inner: &InterfaceInner, link: &Option<EthernetRepr>) -> bool
    ensures { result ≡ passes_filter inner.now link.now }
{
    match link {
        Some(link) => {
            let target = link.dst_addr;
            is_unicast_hardware(&inner.hardware_addr(), &target)
                || (target.is_broadcast() || target.is_multicast())
        }
        None => true,
    }
}

/// Whether a frame to this hardware address may bring no packet to one host: a host on a network of many hears such packets in frames to
/// itself alone.
pub(crate) fn is_group_frame(inner: &InterfaceInner, to: &EthernetAddress) -> bool
    ensures { result ≡ is_group_frame inner.now to.now }
{
    inner.host_requirements() && (to.is_broadcast() || to.is_multicast())
}

/// Whether a packet for this destination comes in such a frame, though it is to one host.
fn is_misframed(
    inner: &InterfaceInner,
    link: &Option<EthernetRepr>,
    destination: &Ipv4Address,
) -> bool
    ensures { result ≡ is_misframed inner.now link.now destination.now }
{
    match link {
        Some(link) => {
            let to = link.dst_addr;
            is_group_frame(inner, &to) && is_one_host(inner, destination)
        }
        None => false,
    }
}

/// Whether this is the address of the hardware address itself.
fn is_unicast_hardware(local: &HardwareAddress, address: &EthernetAddress) -> bool
    ensures { result ≡ is_same_hardware local.now (Hardware.Ethernet address.now) }
{
    match local {
        HardwareAddress::Ethernet(local) => local.0 == address.0,
        HardwareAddress::Ip => false,
    }
}

/// Whether an IPv4 packet comes from one host, or from one that has no address yet.
#[inline(always)]
pub(crate) fn is_sender(inner: &InterfaceInner, address: &Ipv4Address) -> bool
    ensures { result ≡ is_sender inner.now address.now }
{
    is_one_host(inner, address) || address.is_unspecified()
}

/// Whether an IPv6 packet comes from one host, or from one that looks whether a local address is in use.
fn is_ipv6_sender(inner: &InterfaceInner, header: &Ipv6Repr) -> bool
    ensures { result ≡ is_sender_v6 inner.now header.now }
{
    header.src_addr.x_is_unicast() || is_probe(inner, header)
}

/// Whether a packet comes from one that looks whether a local address is in use.
fn is_probe(inner: &InterfaceInner, header: &Ipv6Repr) -> bool
    ensures { result ≡ is_probe inner.now header.now }
{
    header.src_addr.is_unspecified()
        && inner.has_solicited_node(&header.dst_addr)
        && is_control(header.next_header)
        && header.hop_limit == UNROUTED
}

pub(crate) fn is_control(protocol: IpProtocol) -> bool
    ensures { result ≡ is_control_v6 protocol }
{
    match protocol {
        IpProtocol::Icmpv6 => true,
        _ => false,
    }
}

/// Whether one of a packet's addresses is a loopback address of a family of which the host has none, or the two are never seen on a link.
fn is_astray(inner: &InterfaceInner, source: &IpAddress, destination: &IpAddress) -> bool
    ensures { result ≡ is_astray inner.now source.now destination.now }
{
    inner.is_foreign_loopback(source)
        || inner.is_foreign_loopback(destination)
        || inner.never_comes(source, destination)
}

/// Whether an IPv4 packet is one fragment of its datagram.
pub(crate) fn is_fragment(fragment: Ipv4Fragment) -> bool
    ensures { result ≡ is_fragment fragment }
{
    fragment.more || fragment.offset != 0
}

/// Whether an IPv6 packet is one fragment of its datagram.
pub(crate) fn is_fragment_v6(header: &Ipv6Repr, payload: &[u8]) -> bool
    requires { length payload.now < 2 ^ 16 }
    ensures { result ≡ is_fragment_v6 header.now payload.now }
{
    match go_through(header.next_header, payload) {
        Following::FragmentPart { .. } => true,
        _ => false,
    }
}

/// A fragment of a datagram: of which, where its bytes stand in a slot, whether more come after them, and the bytes, which lie in two
/// parts.
#[derive(Clone, Copy)]
pub(crate) struct Part<'a> {
    key: FragKey,
    offset: usize,
    more: bool,
    front: Option<[u8; FRAGMENT_HEADER_LEN]>,
    bytes: &'a [u8],
}

impl Part<'_> {
    /// The first part of the bytes.
    fn front(&self) -> &[u8]
        ensures { result.now ≡ front_bytes self.now.front }
    {
        match &self.front {
            Some(front) => front,
            None => &[],
        }
    }
}

/// An IPv4 packet as the fragment that it is.
fn part_v4<'a>(header: &Ipv4Repr, fragment: Ipv4Fragment, payload: &'a [u8]) -> Part<'a>
    ensures { part_value result ≡ part_v4 header.now fragment payload.now }
{
    Part {
        key: FragKey::Ipv4(header.key()),
        offset: fragment.offset as usize,
        more: fragment.more,
        front: None,
        bytes: payload,
    }
}

/// An IPv6 packet as the fragment that it is. `rest` is its payload from its fragment header on.
fn part_v6<'a>(header: &Ipv6Repr, rest: &'a [u8]) -> Part<'a>
    requires { 8 ≤ length rest.now }
    ensures { part_value result ≡ part_v6 header.now rest.now }
{
    let (_header, bytes) = rest.split_at(FRAGMENT_HEADER_LEN);
    let key = FragKey::Ipv6(Ipv6FragKey {
        id: read_u32(rest, 4),
        src_addr: header.src_addr,
        dst_addr: header.dst_addr,
    });
    let more = has_more(rest);
    let at = fragment_offset(rest);
    if at == 0 {
        Part {
            key,
            offset: 0,
            more,
            front: Some(whole_header(rest)),
            bytes,
        }
    } else {
        Part {
            key,
            offset: FRAGMENT_HEADER_LEN + at,
            more,
            front: None,
            bytes,
        }
    }
}

/// The fragment header that stands in a slot: of a whole datagram, with the first fragment's next header.
fn whole_header(rest: &[u8]) -> [u8; FRAGMENT_HEADER_LEN]
    requires { 8 ≤ length rest.now }
    ensures { result ≡ whole_header rest.now }
{
    [rest[0], 0, 0, 0, rest[4], rest[5], rest[6], rest[7]]
}

/// Whether a fragment lies within the bytes of a slot.
fn is_within(part: &Part<'_>) -> bool
    ensures { result ≡ is_within (part_value part.now) }
{
    match part
        .offset
        .checked_add(part.front().len() + part.bytes.len())
    {
        Some(end) => end <= REASSEMBLY_SIZE,
        None => false,
    }
}

/// Whether fragments of such a datagram may not overlap.
fn is_strict(key: &FragKey) -> bool
    ensures { result ≡ is_strict key.now }
{
    match key {
        FragKey::Ipv4(_) => false,
        FragKey::Ipv6(_) => true,
    }
}

/// Whether no slot's bytes hold a fragment, or it overlaps others though it may not.
fn is_unfit(assemblers: &PacketAssemblerSet, part: &Part<'_>) -> bool
    ensures { result ≡ is_unfit assemblers.now (part_value part.now) }
{
    if !is_within(part) {
        return true;
    }
    is_strict(&part.key) && assemblers.overlaps(&part.key, part.front(), part.bytes, part.offset)
}

/// When a slot is given up that is taken now.
fn given_up_at(inner: &InterfaceInner, timeout: Duration) -> Instant
    ensures { result ≡ given_up_at inner.now timeout }
{
    inner.now() + Duration::from_micros(timeout.total_micros().min(LONGEST))
}

/// Takes a fragment into its datagram's slot, and returns the place of the slot. Other content changes nothing. A slot that is
/// taken for it is given up after this time. The datagram is given up of a fragment that ends past a slot's bytes, and of one of IPv6
/// that overlaps others.
pub fn keep(
    inner: &InterfaceInner,
    assemblers: &mut PacketAssemblerSet,
    timeout: Duration,
    content: Option<&Incoming<'_>>,
) -> Option<usize>
    requires measured { AreMeasured (content_of (option_copied content)) }
    ensures slot { result ≡ slot_in (with_room inner.now assemblers.old (content_of (option_copied content.entry))) (content_of (option_copied content.entry)) }
    ensures in_range { ForSome result (λ at. at < length assemblers.new) }
    ensures after { assemblers.new ≡
        kept inner.now timeout (with_room inner.now assemblers.old (content_of (option_copied content.entry))) (content_of (option_copied content.entry)) }
{
    let part = part_in(content);
    keep_if(inner, assemblers, timeout, &part)
}

/// The fragment that a content is, if it is one.
fn part_in<'a>(content: Option<&'a Incoming<'_>>) -> Option<Part<'a>>
    requires { AreMeasured (content_of (option_copied content)) }
    ensures { part_if result ≡ part_of (content_of (option_copied content.entry)) }
{
    match content {
        Some(
            Incoming::Ipv4 {
                header,
                fragment,
                payload,
                ..
            },
        ) if is_fragment(*fragment) => Some(part_v4(header, *fragment, payload)),
        Some(
            Incoming::Ipv6 {
                header,
                payload,
                ..
            },
        ) => part_in_v6(header, payload),
        _ => None,
    }
}

/// The fragment that an IPv6 packet is, if it is one.
fn part_in_v6<'a>(header: &Ipv6Repr, payload: &'a [u8]) -> Option<Part<'a>>
    requires { length payload.now < 2 ^ 16 }
    ensures { part_if result ≡ part_following header.now payload.now (following_headers header.now payload.now) }
{
    match go_through(header.next_header, payload) {
        Following::FragmentPart { at } => {
            let (_headers, rest) = payload.split_at(at);
            Some(part_v6(header, rest))
        }
        _ => None,
    }
}

/// Takes a fragment into its datagram's slot, if there is one.
fn keep_if(
    inner: &InterfaceInner,
    assemblers: &mut PacketAssemblerSet,
    timeout: Duration,
    part: &Option<Part<'_>>,
) -> Option<usize>
    ensures slot { result ≡ slot_of (room_for inner.now assemblers.old (part_if part.now)) (part_if part.now) }
    ensures in_range { ForSome result (λ at. at < length assemblers.new) }
    ensures after { assemblers.new ≡ with_fragment inner.now timeout (room_for inner.now assemblers.old (part_if part.now)) (part_if part.now) }
{
    match part {
        Some(part) => keep_part(inner, assemblers, timeout, part),
        None => None,
    }
}

/// Whether there is room for a fragment, whoever has the slots.
fn finds_room(inner: &InterfaceInner, part: &Part<'_>) -> bool
    ensures { result ≡ finds_room inner.now (part_value part.now) }
{
    inner.host_requirements() && is_within(part)
}

/// Makes room for a fragment's datagram, where a fragment finds room.
fn make_room(inner: &InterfaceInner, assemblers: &mut PacketAssemblerSet, part: &Part<'_>)
    ensures { assemblers.new ≡ room_for inner.now assemblers.old (Some (part_value part.now)) }
{
    if finds_room(inner, part) {
        assemblers.make_room(&part.key);
    }
}

/// Takes a fragment into its datagram's slot, for which there may be room to make, or gives its datagram up.
fn keep_part(
    inner: &InterfaceInner,
    assemblers: &mut PacketAssemblerSet,
    timeout: Duration,
    part: &Part<'_>,
) -> Option<usize>
    ensures slot { result ≡ slot_of (room_for inner.now assemblers.old (Some (part_value part.now))) (Some (part_value part.now)) }
    ensures in_range { ForSome result (λ at. at < length assemblers.new) }
    ensures after { assemblers.new ≡ with_fragment inner.now timeout (room_for inner.now assemblers.old (Some (part_value part.now))) (Some (part_value part.now)) }
{
    make_room(inner, assemblers, part);
    if is_unfit(assemblers, part) {
        assemblers.remove(&part.key);
        return None;
    }
    assemblers.insert_following(
        &part.key,
        given_up_at(inner, timeout),
        part.front(),
        part.bytes,
        part.offset,
        part.more,
    )
}

/// A datagram of these bytes, if there are some and their length fits the header's field.
pub(crate) fn reassembled<'a>(
    link: &Option<EthernetRepr>,
    header: &Ipv4Repr,
    bytes: &Option<&'a [u8]>,
) -> Option<Incoming<'a>>
    ensures content { content_of result ≡ reassembled link.now header.now (option_copied bytes.now) }
    ensures measured { AreMeasured (content_of result) }
{
    match *bytes {
        Some(bytes) if bytes.len() < LENGTHS - IPV4_HEADER_LEN => Some(Incoming::Ipv4 {
            link: *link,
            header: Ipv4Repr {
                payload_len: bytes.len(),
                ..*header
            },
            fragment: UNCUT,
            payload: bytes,
        }),
        _ => None,
    }
}

/// The same of IPv6, where a fragment header stands before the datagram's bytes.
pub(crate) fn reassembled_v6<'a>(
    link: &Option<EthernetRepr>,
    header: &Ipv6Repr,
    bytes: &Option<&'a [u8]>,
) -> Option<Incoming<'a>>
    ensures content { content_of result ≡ reassembled_v6 link.now header.now (option_copied bytes.now) }
    ensures measured { AreMeasured (content_of result) }
{
    match *bytes {
        Some(bytes) if bytes.len() < LENGTHS => Some(Incoming::Ipv6 {
            link: *link,
            header: Ipv6Repr {
                next_header: IpProtocol::Ipv6Frag,
                payload_len: bytes.len(),
                ..*header
            },
            payload: bytes,
        }),
        _ => None,
    }
}

/// The datagram at a slot, if every byte of it came.
pub(crate) fn bytes_at(assemblers: &PacketAssemblerSet, slot: Option<usize>) -> Option<&[u8]>
    ensures { option_copied result ≡ bytes_at slot assemblers.now }
{
    match slot {
        Some(at) => assemblers.completed(at),
        None => None,
    }
}

/// Frees the slot at this slot, if its datagram is whole. `slot` is what `keep` returned.
pub fn release(assemblers: &mut PacketAssemblerSet, slot: Option<usize>)
    requires { ForSome slot (λ at. at < length assemblers.old) }
    ensures { assemblers.new ≡ released slot assemblers.old }
{
    if let Some(at) = slot {
        if assemblers.completed(at).is_some() {
            assemblers.free(at);
        }
    }
}
