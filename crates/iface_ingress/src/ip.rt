//! What a frame's content brings to a host.
ghost use Rattle.std.specs.Prelude.{◌≡◌, ◌+◌, ◌<◌, ◌^◌, length, None, Some};
ghost use Rattle.std.specs.Option.{option_copied};
ghost use Rattle.ip_wire.specs.Ip.{Fits, payload_len_of};
ghost use Rattle.ip_wire.specs.Ipv4 as Ipv4;
ghost use Rattle.ip_wire.specs.Ipv6 as Ipv6;
ghost use Rattle.ip_wire.specs.IpAddress.TheVariants as Address;
ghost use Rattle.ip_wire.specs.IpRepr.TheVariants as Ip;
ghost use Rattle.iface_ingress.specs.Incoming.{IsMeasured, AreMeasured, incoming_value, content_of};
ghost use Rattle.iface_ingress.specs.Reassembled.{whole_of};
ghost use Rattle.iface_egress.specs.Inner.{is_for_us};
ghost use Rattle.iface_ingress.specs.Arrives.{Hands, ArrivesV4, ArrivesV6, Brings, IfCanGo, arrived, is_direct, renewed_by, renewed, reply_of, sender_of};

use crate::arp;
use crate::deliver::deliver_packet;
use crate::icmp_reply::is_one_host;
use crate::incoming::Incoming;
use crate::process::process_payload;
use crate::reassemble::{bytes_at, is_fragment, is_fragment_v6, reassembled, reassembled_v6};
use crate::reply::{Reply, arp_reply};
use crate::search::TESTED;
use iface_egress::{InterfaceInner, PacketAssemblerSet, Slots};
use ip_wire::{AddressExt, EthernetRepr, HardwareAddress, IpAddress, IpRepr, Ipv4Repr, Ipv6Repr};
use sockets::Socket;

/// Whether a packet is for one host.
fn is_direct(inner: &InterfaceInner, header: &IpRepr) -> bool
    ensures { result ≡ is_direct inner.now header.now }
{
    match header {
        IpRepr::Ipv4(header) => is_one_host(inner, &header.dst_addr),
        IpRepr::Ipv6(header) => header.dst_addr.x_is_unicast(),
    }
}

fn sender_of(header: &IpRepr) -> IpAddress
    ensures { result ≡ sender_of header.now }
{
    header.src_addr()
}

/// Believes the sender of a packet for one host again, if its hardware address is the one that is known.
fn renew(inner: &mut InterfaceInner, link: &Option<EthernetRepr>, header: &IpRepr)
    ensures { inner.new ≡ renewed inner.old link.now header.now }
{
    if let Some(link) = link {
        refresh_at(inner, link, header);
    }
}

/// The same where there is a link header. It stands apart, so that a packet without one goes past it.
#[inline(never)]
pub(crate) fn refresh_at(inner: &mut InterfaceInner, link: &EthernetRepr, header: &IpRepr)
    ensures { inner.new ≡ renewed inner.old (Some link.now) header.now }
{
    if is_direct(inner, header) {
        inner.refresh_neighbor(sender_of(header), HardwareAddress::Ethernet(link.src_addr));
    }
}

/// Takes in the payload of a packet for the host.
fn accept<'a>(
    inner: &mut InterfaceInner,
    slots: &mut Slots<Socket>,
    link: &Option<EthernetRepr>,
    header: &IpRepr,
    payload: &'a [u8],
    is_taken: bool,
    reply: &mut Option<Reply<'a>>,
)
    requires fits { Fits header.now }
    requires len { length payload.now ≡ payload_len_of header.now }
    requires short { length payload.now < 2 ^ 16 }
    requires none { reply.old ≡ None }
    ensures hands { Hands (renewed inner.old link.now header.now) slots.old header.now payload.now is_taken
        (arrived inner.new slots.new (reply_of reply.new)) }
    ensures sendable { IfCanGo (reply_of reply.new) }
{
    renew(inner, link, header);
    process_payload(inner, slots, header, payload, is_taken, reply);
}

/// Takes in a whole IPv4 packet: raw sockets get it first, whomever it is for.
fn process_ipv4<'a>(
    inner: &mut InterfaceInner,
    slots: &mut Slots<Socket>,
    link: &Option<EthernetRepr>,
    header: &Ipv4Repr,
    payload: &'a [u8],
    reply: &mut Option<Reply<'a>>,
)
    requires fits { Ipv4.Fits header.now }
    requires len { length payload.now ≡ header.now.payload_len }
    requires none { reply.old ≡ None }
    ensures arrives { ArrivesV4 (is_for_us inner.old (Address.Ipv4 header.now.dst_addr)) inner.old slots.old link.now (Ip.Ipv4 header.now) payload.now
        (arrived inner.new slots.new (reply_of reply.new)) }
    ensures sendable { IfCanGo (reply_of reply.new) }
{
    let ip = IpRepr::Ipv4(*header);
    let is_taken = deliver_packet::<TESTED>(slots, &ip, payload);
    if inner.is_for_us(&IpAddress::Ipv4(header.dst_addr)) {
        accept(inner, slots, link, &ip, payload, is_taken, reply);
    }
}

/// Takes in an IPv6 packet, if it is for the host.
fn process_ipv6<'a>(
    inner: &mut InterfaceInner,
    slots: &mut Slots<Socket>,
    link: &Option<EthernetRepr>,
    header: &Ipv6Repr,
    payload: &'a [u8],
    reply: &mut Option<Reply<'a>>,
)
    requires fits { Ipv6.Fits header.now }
    requires len { length payload.now ≡ header.now.payload_len }
    requires none { reply.old ≡ None }
    ensures arrives { ArrivesV6 (is_for_us inner.old (Address.Ipv6 header.now.dst_addr)) inner.old slots.old link.now (Ip.Ipv6 header.now) payload.now
        (arrived inner.new slots.new (reply_of reply.new)) }
    ensures sendable { IfCanGo (reply_of reply.new) }
{
    if !inner.is_for_us(&IpAddress::Ipv6(header.dst_addr)) {
        return;
    }
    let ip = IpRepr::Ipv6(*header);
    let is_taken = deliver_packet::<TESTED>(slots, &ip, payload);
    accept(inner, slots, link, &ip, payload, is_taken, reply);
}

/// Takes in what a frame carries, and writes what answers it.
#[inline(always)]
fn process_content<'a>(
    inner: &mut InterfaceInner,
    slots: &mut Slots<Socket>,
    incoming: &Incoming<'a>,
    reply: &mut Option<Reply<'a>>,
)
    requires measured { IsMeasured (incoming_value incoming.now) }
    requires none { reply.old ≡ None }
    ensures brings { Brings inner.old slots.old (Some (incoming_value incoming.now)) (arrived inner.new slots.new (reply_of reply.new)) }
    ensures sendable { IfCanGo (reply_of reply.new) }
{
    match incoming {
        Incoming::Arp { packet, .. } => *reply = arp_reply(&arp::process(inner, packet)),
        Incoming::Ipv4 {
            link,
            header,
            payload,
            ..
        } => process_ipv4(inner, slots, link, header, payload, reply),
        Incoming::Ipv6 {
            link,
            header,
            payload,
        } => process_ipv6(inner, slots, link, header, payload, reply),
    }
}

/// Takes in the datagram that a fragment completed, if it did, and writes what answers it.
fn process_reassembled<'a>(
    inner: &mut InterfaceInner,
    slots: &mut Slots<Socket>,
    datagram: &Option<Incoming<'a>>,
    reply: &mut Option<Reply<'a>>,
)
    requires measured { AreMeasured (content_of datagram.now) }
    requires none { reply.old ≡ None }
    ensures brings { Brings inner.old slots.old (content_of datagram.now) (arrived inner.new slots.new (reply_of reply.new)) }
    ensures sendable { IfCanGo (reply_of reply.new) }
{
    if let Some(incoming) = datagram {
        process_content(inner, slots, incoming, reply);
    }
}

/// Takes in what is whole of a frame's content, and writes what answers it: the content itself, or in place of a fragment the
/// datagram that it completes. A fragment that completes none brings nothing. `slot` is what `keep` returned.
pub fn bring<'a>(
    inner: &mut InterfaceInner,
    slots: &mut Slots<Socket>,
    assemblers: &'a PacketAssemblerSet,
    slot: Option<usize>,
    content: Option<&Incoming<'a>>,
    reply: &mut Option<Reply<'a>>,
)
    requires measured { AreMeasured (content_of (option_copied content)) }
    requires none { reply.old ≡ None }
    ensures brings { Brings inner.old slots.old (whole_of assemblers.now slot (content_of (option_copied content.entry)))
        (arrived inner.new slots.new (reply_of reply.new)) }
    ensures sendable { IfCanGo (reply_of reply.new) }
{
    match content {
        Some(
            Incoming::Ipv4 {
                link,
                header,
                fragment,
                ..
            },
        ) if is_fragment(*fragment) => {
            let datagram = reassembled(link, header, &bytes_at(assemblers, slot));
            process_reassembled(inner, slots, &datagram, reply);
        }
        Some(
            Incoming::Ipv6 {
                link,
                header,
                payload,
            },
        ) if is_fragment_v6(header, payload) => {
            let datagram = reassembled_v6(link, header, &bytes_at(assemblers, slot));
            process_reassembled(inner, slots, &datagram, reply);
        }
        Some(incoming) => process_content(inner, slots, incoming, reply),
        None => {}
    }
}
