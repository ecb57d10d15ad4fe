//! What a packet for the host carries, given to sockets and tables.
ghost use Rattle.std.specs.Prelude.{◌≡◌, ◌≢◌, ◌+◌, ◌<◌, ◌≤◌, ◌^◌, length, is_some, not, None, IsTrue, IfSome};
ghost use Rattle.ip_wire.specs.Ip.{Fits, payload_len_of, carried_in};
ghost use Rattle.ip_wire.specs.IpProtocol.TheVariants as Protocol;
ghost use Rattle.wire_icmpv4.specs.Icmpv4 as Icmpv4;
ghost use Rattle.wire_icmpv6.specs.Icmpv6 as Icmpv6;
ghost use Rattle.sockets.specs.Packet.{option_value, IsSendable};
ghost use Rattle.iface_ingress.specs.UpperLayer.{carried_of};
ghost use Rattle.iface_ingress.specs.Read.{IsControl, datagram_of, segment_of};
ghost use Rattle.iface_egress.specs.Inner.{context_of};
ghost use Rattle.iface_ingress.specs.Datagrams.{IsDelivered};
ghost use Rattle.iface_ingress.specs.Delivered.{datagram_slot};
ghost use Rattle.iface_ingress.specs.Processed.{control_v4_host, control_v4_slots, control_v4_reply};
ghost use Rattle.iface_ingress.specs.Processed.{message_host, message_reply, control_v6_host, control_v6_slots};
ghost use Rattle.iface_ingress.specs.Processed.{control_v6_reply, is_for_many, names_no_endpoint, datagram_reply, segment_host, segment_slots, segment_reply};
ghost use Rattle.iface_ingress.specs.Processed.{is_known_v4, is_known_v6, is_unknown, is_bare, unread_v6, unread_reply};
ghost use Rattle.iface_ingress.specs.Processed.{is_stray, if_it_may, counted_in, let_go, counted, limited_host, limited_reply, HandsTo, FitsBack};
ghost use Rattle.wire_ipv6_headers.specs.Headers.{StopsWithin, upper_of, upper_bytes_of};
ghost use Rattle.ip_wire.specs.IpRepr.TheVariants as Ip;
ghost use Rattle.ip_wire.specs.Ipv6 as Ipv6;
ghost use Rattle.iface_ingress.specs.Replies.{port_unreachable};
ghost use Rattle.iface_ingress.specs.Arrives.{Hands, HandsUpper, IfCanGo, answered, arrived, reply_of};

use crate::copy_checksum::{process_tcp_copy_checksum, process_udp_copy_checksum};
use crate::deliver::{deliver_datagram, deliver_icmpv4, deliver_icmpv6, deliver_segment};
use crate::icmp_reply::{
    echo_ipv4, echo_ipv6, parameter_problem, port_unreachable, protocol_unreachable,
};
use crate::ndisc::hear;
use crate::path::{process_path_mtu_v4, process_path_mtu_v6};
use crate::reassemble::is_control;
use crate::reply::{Reply, packet_reply};
use crate::upper_layer::{ReadDatagram, read_payload, read_tcp, read_udp};
use iface_egress::{InterfaceInner, Slots, SocketStorage};
use ip_wire::{IpAddress, IpProtocol, IpRepr, Ipv6Repr, TcpHeader};
use sockets::addresses::{is_multicast, is_unspecified};
use sockets::{Context, IpPayload, Packet, Socket};
use wire_icmpv4::Icmpv4Repr;
use wire_icmpv6::Icmpv6Repr;
use wire_ipv6_headers::{Following, Problem, carries_error, go_through};

/// Gives an ICMPv4 message, which these bytes are, to the sockets that accept it, takes in what it tells of a path, and answers it.
fn process_icmpv4<'a>(
    inner: &mut InterfaceInner,
    slots: &mut Slots<Socket>,
    header: &IpRepr,
    bytes: &[u8],
    message: &Icmpv4Repr<'a>,
) -> Option<Packet<'a>>
    requires { 28 + length (Icmpv4.payload_of message.now) < 2 ^ 16 }
    ensures host { inner.new ≡
        control_v4_host inner.old slots.old header.now bytes.now (Icmpv4.header_of message.now) (Icmpv4.payload_of message.now) }
    ensures slots { slots.new ≡ control_v4_slots header.now (Icmpv4.header_of message.now) (Icmpv4.payload_of message.now) slots.old }
    ensures reply { option_value result ≡ control_v4_reply inner.old header.now (Icmpv4.header_of message.now) (Icmpv4.payload_of message.now) }
    ensures sendable { IfSome (option_value result) IsSendable }
{
    let IpRepr::Ipv4(header) = header else {
        return None;
    };
    let answer = echo_ipv4(inner, header, message);
    process_path_mtu_v4(inner, slots.as_slice(), bytes, message);
    deliver_icmpv4(slots, header, message);
    answer
}

/// Learns from a neighbour message right after the IPv6 header and from what tells of a path, and answers neighbour messages and echo
/// requests.
fn answer_icmpv6<'a>(
    inner: &mut InterfaceInner,
    slots: &[SocketStorage<Socket>],
    header: &Ipv6Repr,
    message: &Icmpv6Repr<'a>,
) -> Option<Packet<'a>>
    requires { 8 + length (Icmpv6.carried_by message.now) < 2 ^ 16 }
    ensures host { inner.new ≡ message_host inner.old slots.now header.now (Icmpv6.value_of (Icmpv6.header_of message.now)) (Icmpv6.carried_by message.now) }
    ensures reply { option_value result ≡ message_reply inner.old header.now (Icmpv6.value_of (Icmpv6.header_of message.now)) (Icmpv6.carried_by message.now) }
    ensures sendable { IfSome (option_value result) IsSendable }
{
    match message {
        Icmpv6Repr::Ndisc(message) => {
            if is_control(header.next_header) {
                hear(inner, header, message)
            } else {
                None
            }
        }
        _ => {
            let answer = echo_ipv6(inner, header, message);
            process_path_mtu_v6(inner, slots, message);
            answer
        }
    }
}

/// Gives an ICMPv6 message to the sockets that accept it, and answers it.
fn process_icmpv6<'a>(
    inner: &mut InterfaceInner,
    slots: &mut Slots<Socket>,
    header: &IpRepr,
    message: &Icmpv6Repr<'a>,
) -> Option<Packet<'a>>
    requires { 8 + length (Icmpv6.carried_by message.now) < 2 ^ 16 }
    ensures host { inner.new ≡
        control_v6_host inner.old slots.old header.now (Icmpv6.value_of (Icmpv6.header_of message.now)) (Icmpv6.carried_by message.now) }
    ensures slots { slots.new ≡ control_v6_slots header.now (Icmpv6.value_of (Icmpv6.header_of message.now)) (Icmpv6.carried_by message.now) slots.old }
    ensures reply { option_value result ≡
        control_v6_reply inner.old header.now (Icmpv6.value_of (Icmpv6.header_of message.now)) (Icmpv6.carried_by message.now) }
    ensures sendable { IfSome (option_value result) IsSendable }
{
    let IpRepr::Ipv6(header) = header else {
        return None;
    };
    let answer = answer_icmpv6(inner, slots.as_slice(), header, message);
    deliver_icmpv6(slots, header, message);
    answer
}

/// Whether a packet for this destination is for all hosts of a network, or for a group.
fn is_for_many(inner: &InterfaceInner, address: &IpAddress) -> bool
    ensures { result ≡ is_for_many inner.now address.now }
{
    inner.is_broadcast(address) || is_multicast(address)
}

/// Whether an address of the packet names no end of a connection.
#[inline(always)]
pub(crate) fn names_no_endpoint(inner: &InterfaceInner, header: &IpRepr) -> bool
    ensures { result ≡ names_no_endpoint inner.now header.now }
{
    let destination = header.dst_addr();
    is_unspecified(&header.src_addr())
        || is_unspecified(&destination)
        || is_for_many(inner, &destination)
}

/// Whether the host knows what an IPv4 header names.
fn is_known_v4(protocol: IpProtocol) -> bool
    ensures { result ≡ is_known_v4 protocol }
{
    match protocol {
        IpProtocol::Icmp | IpProtocol::Udp | IpProtocol::Tcp => true,
        _ => false,
    }
}

/// Whether the host knows what an IPv6 header names, and it is no extension header.
fn is_known_v6(protocol: IpProtocol) -> bool
    ensures { result ≡ is_known_v6 protocol }
{
    match protocol {
        IpProtocol::Icmpv6 | IpProtocol::Udp | IpProtocol::Tcp => true,
        _ => false,
    }
}

/// Whether the problem is one of a header that the host doesn't know.
fn is_unknown(problem: Problem) -> bool
    ensures { result ≡ is_unknown problem }
{
    match problem {
        Problem::NextHeader => true,
        _ => false,
    }
}

/// What answers an IPv6 packet that has this after its extension headers, where nothing was read of that.
fn reply_to_headers<'a>(
    inner: &InterfaceInner,
    header: &Ipv6Repr,
    payload: &'a [u8],
    is_taken: bool,
    following: Following,
) -> Option<Packet<'a>>
    requires fits { Ipv6.Fits header.now }
    requires within { StopsWithin (length payload.now) following }
    requires short { length payload.now < 2 ^ 16 }
    ensures reply { option_value result ≡ unread_v6 inner.now header.now payload.now is_taken following }
    ensures sendable { IfSome (option_value result) IsSendable }
{
    match following {
        Following::Problem { problem, pointer } => {
            if (is_unknown(problem) && is_taken) || carries_error(header.next_header, payload) {
                return None;
            }
            parameter_problem(inner, header, payload, problem, pointer)
        }
        _ => None,
    }
}

/// What answers a packet of which nothing was read.
fn reply_to_unread<'a>(
    inner: &InterfaceInner,
    header: &IpRepr,
    payload: &'a [u8],
    is_taken: bool,
) -> Option<Packet<'a>>
    requires fits { Fits header.now }
    requires short { length payload.now < 2 ^ 16 }
    ensures reply { option_value result ≡ unread_reply inner.now header.now payload.now is_taken }
    ensures sendable { IfSome (option_value result) IsSendable }
{
    match header {
        IpRepr::Ipv4(header) => {
            if is_known_v4(header.next_header) || is_taken {
                return None;
            }
            protocol_unreachable(inner, header, payload)
        }
        IpRepr::Ipv6(header) => {
            let following = go_through(header.next_header, payload);
            reply_to_headers(inner, header, payload, is_taken, following)
        }
    }
}

/// The answer to what nobody takes, if the limit on errors lets it go.
fn limited<'a>(inner: &mut InterfaceInner, answer: &Option<Packet<'a>>) -> Option<Packet<'a>>
    requires { IfSome (option_value answer.now) IsSendable }
    ensures host { inner.new ≡ counted_in inner.old (option_value answer.now) inner.old }
    ensures reply { option_value result ≡ if_it_may inner.old (option_value answer.now) }
    ensures sendable { IfSome (option_value result) IsSendable }
{
    match answer {
        Some(packet) => {
            if inner.count_error() {
                Some(*packet)
            } else {
                None
            }
        }
        None => None,
    }
}

/// Answers a packet of which nothing was read, as far as the limit on errors allows.
fn answer_unread<'a>(
    inner: &mut InterfaceInner,
    header: &IpRepr,
    payload: &'a [u8],
    is_taken: bool,
) -> Option<Packet<'a>>
    requires fits { Fits header.now }
    requires short { length payload.now < 2 ^ 16 }
    ensures host { inner.new ≡ counted_in inner.old (unread_reply inner.old header.now payload.now is_taken) inner.old }
    ensures reply { option_value result ≡ if_it_may inner.old (unread_reply inner.old header.now payload.now is_taken) }
    ensures sendable { IfSome (option_value result) IsSendable }
{
    let answer = reply_to_unread(inner, header, payload, is_taken);
    limited(inner, &answer)
}

/// Answers a packet of which nothing was read, in a place of its own: so its packet isn't made ready where all was read.
#[inline(never)]
fn reply_unread<'a>(
    inner: &mut InterfaceInner,
    header: &IpRepr,
    payload: &'a [u8],
    is_taken: bool,
    reply: &mut Option<Reply<'a>>,
)
    requires fits { Fits header.now }
    requires short { length payload.now < 2 ^ 16 }
    ensures host { inner.new ≡ counted_in inner.old (unread_reply inner.old header.now payload.now is_taken) inner.old }
    ensures reply { reply_of reply.new ≡ answered (if_it_may inner.old (unread_reply inner.old header.now payload.now is_taken)) }
    ensures sendable { IfCanGo (reply_of reply.new) }
{
    *reply = packet_reply(&answer_unread(inner, header, payload, is_taken));
}

/// What counts of a packet: the bytes of an upper-layer protocol, after a header that names it.
#[derive(Clone, Copy)]
struct Upper<'b, 'a> {
    header: &'b IpRepr,
    bytes: &'a [u8],
}

/// Answers a datagram that nobody takes, as far as the limit on errors allows, in a place of its own as well.
#[inline(never)]
fn reply_unreached<'a>(
    inner: &mut InterfaceInner,
    header: &IpRepr,
    payload: &'a [u8],
    reply: &mut Option<Reply<'a>>,
)
    requires fits { Fits header.now }
    requires short { length payload.now < 2 ^ 16 }
    ensures host { inner.new ≡ counted_in inner.old (port_unreachable inner.old header.now payload.now) inner.old }
    ensures reply { reply_of reply.new ≡ answered (if_it_may inner.old (port_unreachable inner.old header.now payload.now)) }
    ensures sendable { IfCanGo (reply_of reply.new) }
{
    let error = port_unreachable(inner, header, payload);
    *reply = packet_reply(&limited(inner, &error));
}

/// Gives a datagram to the first socket that accepts it. Without one, and where no raw socket took it, an error answers it, as far as
/// the limit on errors allows.
fn dispatch_datagram<'a>(
    inner: &mut InterfaceInner,
    slots: &mut Slots<Socket>,
    header: &IpRepr,
    payload: &'a [u8],
    is_taken: bool,
    datagram: &ReadDatagram<'_>,
    reply: &mut Option<Reply<'a>>,
)
    requires fits { Fits header.now }
    requires short { length payload.now < 2 ^ 16 }
    requires none { reply.old ≡ None }
    ensures host { inner.new ≡
        counted (not (is_some (datagram_slot (context_of inner.old) header.now datagram.now.header slots.old))) inner.old
        (datagram_reply inner.old slots.old header.now payload.now is_taken datagram.now.header) inner.old }
    ensures slots { IsDelivered (context_of inner.old) header.now datagram.now.header datagram.now.bytes.now slots.old slots.new }
    ensures reply { reply_of reply.new ≡
        answered (let_go (not (is_some (datagram_slot (context_of inner.old) header.now datagram.now.header slots.old))) inner.old
        (datagram_reply inner.old slots.old header.now payload.now is_taken datagram.now.header)) }
    ensures sendable { IfCanGo (reply_of reply.new) }
{
    if deliver_datagram(inner, slots, header, &datagram.header, datagram.bytes) || is_taken {
        return;
    }
    reply_unreached(inner, header, payload, reply);
}

/// Gives the datagram of a packet to whom it concerns, and answers it.
fn process_udp_datagram<'a>(
    inner: &mut InterfaceInner,
    slots: &mut Slots<Socket>,
    header: &IpRepr,
    payload: &'a [u8],
    is_taken: bool,
    datagram: &Option<ReadDatagram<'_>>,
    reply: &mut Option<Reply<'a>>,
)
    requires fits { Fits header.now }
    requires short { length payload.now < 2 ^ 16 }
    requires none { reply.old ≡ None }
    ensures host { inner.new ≡ limited_host inner.old slots.old header.now payload.now is_taken (datagram_of datagram.now) }
    ensures slots { HandsTo inner.old slots.old header.now (datagram_of datagram.now) slots.new }
    ensures reply { reply_of reply.new ≡ answered (limited_reply inner.old slots.old header.now payload.now is_taken (datagram_of datagram.now)) }
    ensures sendable { IfCanGo (reply_of reply.new) }
{
    match datagram {
        Some(datagram) => dispatch_datagram(
            inner, slots, header, payload, is_taken, datagram, reply,
        ),
        None => reply_unread(inner, header, payload, is_taken, reply),
    }
}

/// Reads the datagram of a packet for the host, its checksum too, gives it to whom it concerns, and answers it.
fn process_parsed_udp<'a>(
    inner: &mut InterfaceInner,
    slots: &mut Slots<Socket>,
    header: &IpRepr,
    payload: &'a [u8],
    is_taken: bool,
    upper: &Upper<'_, 'a>,
    reply: &mut Option<Reply<'a>>,
)
    requires protocol { carried_in upper.now.header.now ≡ Protocol.Udp }
    requires fits { Fits header.now }
    requires short { length payload.now < 2 ^ 16 }
    requires none { reply.old ≡ None }
    ensures hands { HandsUpper inner.old slots.old header.now payload.now is_taken upper.now.header.now upper.now.bytes.now
        (arrived inner.new slots.new (reply_of reply.new)) }
    ensures sendable { IfCanGo (reply_of reply.new) }
{
    let datagram = read_udp(upper.header, upper.bytes, &inner.checksum_caps());
    process_udp_datagram(inner, slots, header, payload, is_taken, &datagram, reply);
}

/// Reads the datagram of a packet for the host, gives it to whom it concerns, and answers it: a long one in one pass, if it goes so.
fn process_udp<'a>(
    inner: &mut InterfaceInner,
    slots: &mut Slots<Socket>,
    header: &IpRepr,
    payload: &'a [u8],
    is_taken: bool,
    upper: &Upper<'_, 'a>,
    reply: &mut Option<Reply<'a>>,
)
    requires protocol { carried_in upper.now.header.now ≡ Protocol.Udp }
    requires fits { Fits header.now }
    requires short { length payload.now < 2 ^ 16 }
    requires none { reply.old ≡ None }
    ensures hands { HandsUpper inner.old slots.old header.now payload.now is_taken upper.now.header.now upper.now.bytes.now
        (arrived inner.new slots.new (reply_of reply.new)) }
    ensures sendable { IfCanGo (reply_of reply.new) }
{
    if process_udp_copy_checksum(inner, slots, header, upper.header, upper.bytes) {
        return;
    }
    process_parsed_udp(inner, slots, header, payload, is_taken, upper, reply);
}

/// Gives a segment to its connection, else to the first socket that accepts it, and answers it.
fn dispatch_segment<'a>(
    inner: &mut InterfaceInner,
    slots: &mut Slots<Socket>,
    header: &IpRepr,
    is_taken: bool,
    segment: &TcpHeader,
    bytes: &[u8],
    reply: &mut Option<Reply<'a>>,
)
    requires { reply.old ≡ None }
    ensures host { inner.new ≡ counted (is_stray inner.old slots.old header.now segment.now) inner.old
        (segment_reply inner.old slots.old header.now is_taken segment.now bytes.now)
        (segment_host inner.old slots.old header.now segment.now bytes.now) }
    ensures slots { slots.new ≡ segment_slots inner.old slots.old header.now segment.now bytes.now }
    ensures reply { reply_of reply.new ≡ answered (let_go (is_stray inner.old slots.old header.now segment.now) inner.old
        (segment_reply inner.old slots.old header.now is_taken segment.now bytes.now)) }
    ensures sendable { IfCanGo (reply_of reply.new) }
{
    if names_no_endpoint(inner, header) {
        return;
    }
    deliver_segment(inner, slots, header, segment, bytes, is_taken, reply);
}

/// Gives the segment of a packet to whom it concerns, and answers it.
fn process_tcp_segment<'a>(
    inner: &mut InterfaceInner,
    slots: &mut Slots<Socket>,
    header: &IpRepr,
    payload: &'a [u8],
    is_taken: bool,
    segment: &TcpHeader,
    bytes: Option<&[u8]>,
    reply: &mut Option<Reply<'a>>,
)
    requires fits { Fits header.now }
    requires short { length payload.now < 2 ^ 16 }
    requires none { reply.old ≡ None }
    ensures host { inner.new ≡ limited_host inner.old slots.old header.now payload.now is_taken (segment_of segment.now bytes.entry) }
    ensures slots { HandsTo inner.old slots.old header.now (segment_of segment.now bytes.entry) slots.new }
    ensures reply { reply_of reply.new ≡ answered (limited_reply inner.old slots.old header.now payload.now is_taken (segment_of segment.now bytes.entry)) }
    ensures sendable { IfCanGo (reply_of reply.new) }
{
    match bytes {
        Some(bytes) => dispatch_segment(inner, slots, header, is_taken, segment, bytes, reply),
        None => reply_unread(inner, header, payload, is_taken, reply),
    }
}

/// Reads the segment of a packet for the host, its checksum too, gives it to whom it concerns, and answers it.
fn process_parsed_tcp<'a>(
    inner: &mut InterfaceInner,
    slots: &mut Slots<Socket>,
    header: &IpRepr,
    payload: &'a [u8],
    is_taken: bool,
    upper: &Upper<'_, 'a>,
    reply: &mut Option<Reply<'a>>,
)
    requires protocol { carried_in upper.now.header.now ≡ Protocol.Tcp }
    requires fits { Fits header.now }
    requires short { length payload.now < 2 ^ 16 }
    requires upper_short { length upper.now.bytes.now < 2 ^ 16 }
    requires none { reply.old ≡ None }
    ensures hands { HandsUpper inner.old slots.old header.now payload.now is_taken upper.now.header.now upper.now.bytes.now
        (arrived inner.new slots.new (reply_of reply.new)) }
    ensures sendable { IfCanGo (reply_of reply.new) }
{
    let mut segment = TcpHeader::BLANK;
    let checksums = inner.checksum_caps();
    let bytes = read_tcp(upper.header, upper.bytes, &checksums, &mut segment);
    process_tcp_segment(
        inner, slots, header, payload, is_taken, &segment, bytes, reply,
    );
}

/// Reads the segment of a packet for the host, gives it to whom it concerns, and answers it: a long one in one pass, if it goes so.
fn process_tcp<'a>(
    inner: &mut InterfaceInner,
    slots: &mut Slots<Socket>,
    header: &IpRepr,
    payload: &'a [u8],
    is_taken: bool,
    upper: &Upper<'_, 'a>,
    reply: &mut Option<Reply<'a>>,
)
    requires protocol { carried_in upper.now.header.now ≡ Protocol.Tcp }
    requires fits { Fits header.now }
    requires short { length payload.now < 2 ^ 16 }
    requires upper_short { length upper.now.bytes.now < 2 ^ 16 }
    requires none { reply.old ≡ None }
    ensures hands { HandsUpper inner.old slots.old header.now payload.now is_taken upper.now.header.now upper.now.bytes.now
        (arrived inner.new slots.new (reply_of reply.new)) }
    ensures sendable { IfCanGo (reply_of reply.new) }
{
    if process_tcp_copy_checksum(inner, slots, header, upper.header, upper.bytes, reply) {
        return;
    }
    process_parsed_tcp(inner, slots, header, payload, is_taken, upper, reply);
}

/// Gives a packet's control message to whom it concerns, and answers it, or answers that nothing was read.
fn process_icmp_message<'a>(
    inner: &mut InterfaceInner,
    slots: &mut Slots<Socket>,
    header: &IpRepr,
    payload: &'a [u8],
    is_taken: bool,
    carried: &Option<IpPayload<'a>>,
) -> Option<Packet<'a>>
    requires fits { Fits header.now }
    requires short { length payload.now < 2 ^ 16 }
    requires back { FitsBack (carried_of carried.now) }
    requires control { IsControl (carried_of carried.now) }
    ensures host { inner.new ≡ limited_host inner.old slots.old header.now payload.now is_taken (carried_of carried.now) }
    ensures slots { HandsTo inner.old slots.old header.now (carried_of carried.now) slots.new }
    ensures reply { option_value result ≡ limited_reply inner.old slots.old header.now payload.now is_taken (carried_of carried.now) }
    ensures sendable { IfSome (option_value result) IsSendable }
{
    match carried {
        Some(IpPayload::Icmpv4(message)) => process_icmpv4(inner, slots, header, payload, message),
        Some(IpPayload::Icmpv6(message)) => process_icmpv6(inner, slots, header, message),
        Some(IpPayload::Raw(_)) => None,
        Some(IpPayload::Udp(..) | IpPayload::Tcp(..)) => unreachable!(),
        None => answer_unread(inner, header, payload, is_taken),
    }
}

/// Reads what counts of a packet for the host that carries neither a datagram nor a segment, gives it to whom it concerns, and
/// answers it.
#[inline(never)]
fn process_icmp<'a>(
    inner: &mut InterfaceInner,
    slots: &mut Slots<Socket>,
    header: &IpRepr,
    payload: &'a [u8],
    is_taken: bool,
    upper: &Upper<'_, 'a>,
    reply: &mut Option<Reply<'a>>,
)
    requires udp { carried_in upper.now.header.now ≢ Protocol.Udp }
    requires tcp { carried_in upper.now.header.now ≢ Protocol.Tcp }
    requires fits { Fits header.now }
    requires short { length payload.now < 2 ^ 16 }
    requires upper_fits { Fits upper.now.header.now }
    requires len { length upper.now.bytes.now ≤ payload_len_of upper.now.header.now }
    requires upper_short { length upper.now.bytes.now < 2 ^ 16 }
    ensures hands { HandsUpper inner.old slots.old header.now payload.now is_taken upper.now.header.now upper.now.bytes.now
        (arrived inner.new slots.new (reply_of reply.new)) }
    ensures sendable { IfCanGo (reply_of reply.new) }
{
    let carried = read_payload(upper.header, upper.bytes, &inner.checksum_caps());
    *reply = packet_reply(&process_icmp_message(inner, slots, header, payload, is_taken, &carried));
}

/// Reads what counts of a packet for the host, gives it to whom it concerns, and writes what answers it.
///
/// Datagrams and segments go ways of their own, by values of their own size: `IpPayload` is as large as all that it can be.
/// So is a reply, which nearly always is none: it is written where the caller wants it, in place of going up through each call.
fn process_upper<'a>(
    inner: &mut InterfaceInner,
    slots: &mut Slots<Socket>,
    header: &IpRepr,
    payload: &'a [u8],
    is_taken: bool,
    upper: &Upper<'_, 'a>,
    reply: &mut Option<Reply<'a>>,
)
    requires fits { Fits header.now }
    requires short { length payload.now < 2 ^ 16 }
    requires upper_fits { Fits upper.now.header.now }
    requires len { length upper.now.bytes.now ≤ payload_len_of upper.now.header.now }
    requires upper_short { length upper.now.bytes.now < 2 ^ 16 }
    requires none { reply.old ≡ None }
    ensures hands { HandsUpper inner.old slots.old header.now payload.now is_taken upper.now.header.now upper.now.bytes.now
        (arrived inner.new slots.new (reply_of reply.new)) }
    ensures sendable { IfCanGo (reply_of reply.new) }
{
    match upper.header.next_header() {
        IpProtocol::Udp => process_udp(inner, slots, header, payload, is_taken, upper, reply),
        IpProtocol::Tcp => process_tcp(inner, slots, header, payload, is_taken, upper, reply),
        _ => process_icmp(inner, slots, header, payload, is_taken, upper, reply),
    }
}

/// The protocol that stands after the extension headers, if there is one.
fn upper_protocol(following: &Following) -> IpProtocol
    ensures { result ≡ upper_of following.now }
{
    match following {
        Following::Upper { protocol, .. } => *protocol,
        _ => IpProtocol::Ipv6NoNxt,
    }
}

/// The header that names what stands after the extension headers.
fn upper_header(header: &Ipv6Repr, following: &Following) -> IpRepr
    ensures { result ≡ Ip.Ipv6 (record header.now { next_header = upper_of following.now }) }
{
    IpRepr::Ipv6(Ipv6Repr {
        next_header: upper_protocol(following),
        ..*header
    })
}

/// The bytes that stand after the extension headers.
fn upper_bytes<'a>(payload: &'a [u8], following: &Following) -> &'a [u8]
    requires { StopsWithin (length payload.now) following.now }
    ensures bytes { result.now ≡ upper_bytes_of payload.now following.now }
    ensures short { length result.now ≤ length payload.now }
{
    match following {
        Following::Upper { at, .. } => {
            let (_headers, bytes) = payload.split_at(*at);
            bytes
        }
        _ => &[],
    }
}

/// Hands on the payload of a packet for the host that has no extension headers.
pub(crate) fn process_ip_payload<'a>(
    inner: &mut InterfaceInner,
    slots: &mut Slots<Socket>,
    header: &IpRepr,
    payload: &'a [u8],
    is_taken: bool,
    reply: &mut Option<Reply<'a>>,
)
    requires bare { IsTrue (is_bare header.now) }
    requires fits { Fits header.now }
    requires len { length payload.now ≡ payload_len_of header.now }
    requires short { length payload.now < 2 ^ 16 }
    requires none { reply.old ≡ None }
    ensures hands { Hands inner.old slots.old header.now payload.now is_taken (arrived inner.new slots.new (reply_of reply.new)) }
    ensures sendable { IfCanGo (reply_of reply.new) }
{
    let upper = Upper {
        header,
        bytes: payload,
    };
    process_upper(inner, slots, header, payload, is_taken, &upper, reply);
}

/// Hands on the payload of an IPv4 packet for the host, whose header says what that is: its family isn't asked for again.
pub(crate) fn process_ipv4_payload<'a>(
    inner: &mut InterfaceInner,
    slots: &mut Slots<Socket>,
    protocol: IpProtocol,
    header: &IpRepr,
    payload: &'a [u8],
    is_taken: bool,
    reply: &mut Option<Reply<'a>>,
)
    requires protocol { protocol ≡ carried_in header.now }
    requires bare { IsTrue (is_bare header.now) }
    requires fits { Fits header.now }
    requires len { length payload.now ≡ payload_len_of header.now }
    requires short { length payload.now < 2 ^ 16 }
    requires none { reply.old ≡ None }
    ensures hands { Hands inner.old slots.old header.now payload.now is_taken (arrived inner.new slots.new (reply_of reply.new)) }
    ensures sendable { IfCanGo (reply_of reply.new) }
{
    let upper = Upper {
        header,
        bytes: payload,
    };
    match protocol {
        IpProtocol::Udp => process_udp(inner, slots, header, payload, is_taken, &upper, reply),
        IpProtocol::Tcp => process_tcp(inner, slots, header, payload, is_taken, &upper, reply),
        _ => process_icmp(inner, slots, header, payload, is_taken, &upper, reply),
    }
}

/// Goes through the extension headers of an IPv6 packet for the host, and hands on what stands after them.
fn process_ipv6_headers<'a>(
    inner: &mut InterfaceInner,
    slots: &mut Slots<Socket>,
    header: &Ipv6Repr,
    payload: &'a [u8],
    is_taken: bool,
    reply: &mut Option<Reply<'a>>,
)
    requires fits { Ipv6.Fits header.now }
    requires len { length payload.now ≡ header.now.payload_len }
    requires none { reply.old ≡ None }
    ensures hands { Hands inner.old slots.old (Ip.Ipv6 header.now) payload.now is_taken (arrived inner.new slots.new (reply_of reply.new)) }
    ensures sendable { IfCanGo (reply_of reply.new) }
{
    let following = go_through(header.next_header, payload);
    let upper = Upper {
        header: &upper_header(header, &following),
        bytes: upper_bytes(payload, &following),
    };
    let header = IpRepr::Ipv6(*header);
    process_upper(inner, slots, &header, payload, is_taken, &upper, reply);
}

/// Reads what is after the headers of a packet for the host, gives it to whom it concerns, and writes what answers it.
/// `is_taken` says that a raw socket took the packet.
pub(crate) fn process_payload<'a>(
    inner: &mut InterfaceInner,
    slots: &mut Slots<Socket>,
    header: &IpRepr,
    payload: &'a [u8],
    is_taken: bool,
    reply: &mut Option<Reply<'a>>,
)
    requires fits { Fits header.now }
    requires len { length payload.now ≡ payload_len_of header.now }
    requires short { length payload.now < 2 ^ 16 }
    requires none { reply.old ≡ None }
    ensures hands { Hands inner.old slots.old header.now payload.now is_taken (arrived inner.new slots.new (reply_of reply.new)) }
    ensures sendable { IfCanGo (reply_of reply.new) }
{
    match header {
        IpRepr::Ipv4(_) => process_ip_payload(inner, slots, header, payload, is_taken, reply),
        IpRepr::Ipv6(v6) => {
            if is_known_v6(v6.next_header) {
                process_ip_payload(inner, slots, header, payload, is_taken, reply);
            } else {
                process_ipv6_headers(inner, slots, v6, payload, is_taken, reply);
            }
        }
    }
}
