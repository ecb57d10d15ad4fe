//! Control messages that answer a packet (RFC 1122, section 3.2.2; RFC 4443, section 2.4).
ghost use Rattle.std.specs.Prelude.{◌≡◌, ◌+◌, ◌<◌, ◌≤◌, ◌^◌, take, length, None, Some, IfSome};
ghost use Rattle.wire_icmpv4.specs.Icmpv4 as Icmpv4;
ghost use Rattle.wire_icmpv6.specs.Icmpv6 as Icmpv6;
ghost use Rattle.ip_wire.specs.Ip.{Fits};
ghost use Rattle.ip_wire.specs.Ipv4 as Ipv4;
ghost use Rattle.ip_wire.specs.Ipv6 as Ipv6;
ghost use Rattle.sockets.specs.Packet.{packet_value, option_value, IsSendable};
ghost use Rattle.iface_ingress.specs.Replies.{is_one_host, is_echo_reply, source_of_reply, reply_v4, source_of_v6_reply, reply_v6, echo_v4, echo_v6};
ghost use Rattle.iface_ingress.specs.Replies.{is_between_hosts, error_v4, error_v6, port_unreachable, protocol_unreachable, reason_of, is_told};
ghost use Rattle.iface_ingress.specs.Replies.{parameter_problem};

use iface_egress::InterfaceInner;
use ip_wire::{
    AddressExt, IPV4_HEADER_LEN, IPV4_MIN_MTU, IPV6_HEADER_LEN, IPV6_MIN_MTU, IpAddress,
    IpProtocol, IpRepr, Ipv4Address, Ipv4Repr, Ipv6Address, Ipv6Repr,
};
use sockets::{Context, IpPayload, Packet};
use wire_icmpv4::{Icmpv4DstUnreachable, Icmpv4Repr};
use wire_icmpv6::{Icmpv6DstUnreachable, Icmpv6ParamProblem, Icmpv6Repr};
use wire_ipv6_headers::Problem;

/// The hop limit of a message.
const HOP_LIMIT: u8 = 64;

/// How many bytes of a payload an error quotes, so that a packet of the smallest MTU holds it.
const QUOTED_IPV4: usize = IPV4_MIN_MTU - 2 * IPV4_HEADER_LEN - 8;

const QUOTED_IPV6: usize = IPV6_MIN_MTU - 2 * IPV6_HEADER_LEN - 8;

/// Whether this is one host's address: neither a group's nor that of all hosts of a local network.
#[inline(always)]
pub fn is_one_host(inner: &InterfaceInner, address: &Ipv4Address) -> bool
    ensures { result ≡ is_one_host inner.now address.now }
{
    address.x_is_unicast() && !inner.is_broadcast(&IpAddress::Ipv4(*address))
}

/// The address that a message is sent from in answer to a packet with this header, if one may be sent.
fn source_of_reply(
    inner: &InterfaceInner,
    header: &Ipv4Repr,
    message: &Icmpv4Repr<'_>,
) -> Option<Ipv4Address>
    ensures { result ≡ source_of_reply inner.now header.now (Icmpv4.header_of message.now) }
{
    if !is_one_host(inner, &header.src_addr) {
        return None;
    }
    if is_one_host(inner, &header.dst_addr) {
        return Some(header.dst_addr);
    }
    if is_echo_reply(message) && inner.is_broadcast(&IpAddress::Ipv4(header.dst_addr)) {
        return inner.ipv4_addr();
    }
    None
}

fn is_echo_reply(message: &Icmpv4Repr<'_>) -> bool
    ensures { result ≡ is_echo_reply (Icmpv4.header_of message.now) }
{
    match message {
        Icmpv4Repr::EchoReply { .. } => true,
        _ => false,
    }
}

/// The packet of a message that answers one with this header.
fn reply_ipv4<'a>(
    inner: &InterfaceInner,
    header: &Ipv4Repr,
    message: &Icmpv4Repr<'a>,
) -> Option<Packet<'a>>
    requires fits { Icmpv4.Fits (Icmpv4.header_of message.now) }
    requires room { 20 + (Icmpv4.header_len (Icmpv4.header_of message.now) + length (Icmpv4.payload_of message.now)) < 2 ^ 16 }
    ensures packet { option_value result ≡ reply_v4 inner.now header.now (Icmpv4.header_of message.now) (Icmpv4.payload_of message.now) }
    ensures sendable { IfSome (option_value result) IsSendable }
{
    match source_of_reply(inner, header, message) {
        Some(src_addr) => {
            let header = Ipv4Repr {
                src_addr,
                dst_addr: header.src_addr,
                next_header: IpProtocol::Icmp,
                payload_len: message.buffer_len(),
                hop_limit: HOP_LIMIT,
                ident: 0,
                dont_frag: false,
            };
            Some(Packet::new(IpRepr::Ipv4(header), IpPayload::Icmpv4(*message)))
        }
        None => None,
    }
}

/// The address that a message is sent from in answer to a packet with this header.
fn source_of_ipv6_reply(inner: &InterfaceInner, header: &Ipv6Repr) -> Ipv6Address
    ensures { result ≡ source_of_v6_reply inner.now header.now }
{
    if header.dst_addr.x_is_unicast() {
        header.dst_addr
    } else {
        inner.get_source_address_ipv6(&header.src_addr)
    }
}

/// The packet of a message that answers one with this header.
fn reply_ipv6<'a>(inner: &InterfaceInner, header: &Ipv6Repr, message: &Icmpv6Repr<'a>) -> Packet<'a>
    requires fits { Icmpv6.Fits (Icmpv6.value_of (Icmpv6.header_of message.now)) }
    requires room { Icmpv6.header_len (Icmpv6.value_of (Icmpv6.header_of message.now)) + length (Icmpv6.carried_by message.now) < 2 ^ 16 }
    ensures packet { packet_value result ≡ reply_v6 inner.now header.now (Icmpv6.value_of (Icmpv6.header_of message.now)) (Icmpv6.carried_by message.now) }
    ensures sendable { IsSendable (packet_value result) }
{
    let header = Ipv6Repr {
        src_addr: source_of_ipv6_reply(inner, header),
        dst_addr: header.src_addr,
        next_header: IpProtocol::Icmpv6,
        payload_len: message.buffer_len(),
        hop_limit: HOP_LIMIT,
    };
    Packet::new(IpRepr::Ipv6(header), IpPayload::Icmpv6(*message))
}

/// What answers an ICMPv4 message: an echo request is sent back with its data.
pub fn echo_ipv4<'a>(
    inner: &InterfaceInner,
    header: &Ipv4Repr,
    message: &Icmpv4Repr<'a>,
) -> Option<Packet<'a>>
    requires { 28 + length (Icmpv4.payload_of message.now) < 2 ^ 16 }
    ensures packet { option_value result ≡ echo_v4 inner.now header.now (Icmpv4.header_of message.now) (Icmpv4.payload_of message.now) }
    ensures sendable { IfSome (option_value result) IsSendable }
{
    match *message {
        Icmpv4Repr::EchoRequest {
            ident,
            seq_no,
            bytes,
        } => {
            let reply = Icmpv4Repr::EchoReply {
                ident,
                seq_no,
                bytes,
            };
            reply_ipv4(inner, header, &reply)
        }
        _ => None,
    }
}

/// What answers an ICMPv6 message: an echo request is sent back with its data.
pub fn echo_ipv6<'a>(
    inner: &InterfaceInner,
    header: &Ipv6Repr,
    message: &Icmpv6Repr<'a>,
) -> Option<Packet<'a>>
    requires { 8 + length (Icmpv6.carried_by message.now) < 2 ^ 16 }
    ensures packet { option_value result ≡ echo_v6 inner.now header.now (Icmpv6.value_of (Icmpv6.header_of message.now)) (Icmpv6.carried_by message.now) }
    ensures sendable { IfSome (option_value result) IsSendable }
{
    match *message {
        Icmpv6Repr::EchoRequest {
            ident,
            seq_no,
            bytes,
        } => {
            let reply = Icmpv6Repr::EchoReply {
                ident,
                seq_no,
                bytes,
            };
            Some(reply_ipv6(inner, header, &reply))
        }
        _ => None,
    }
}

/// The first bytes, at most so many.
fn first_bytes(bytes: &[u8], count: usize) -> &[u8]
    ensures bytes { result.now ≡ take count bytes.now }
    ensures few { length result.now ≤ count }
{
    if bytes.len() <= count {
        return bytes;
    }
    &bytes[..count]
}

/// The error that a packet with this header and payload can't be delivered.
fn error_ipv4<'a>(
    inner: &InterfaceInner,
    header: &Ipv4Repr,
    reason: Icmpv4DstUnreachable,
    payload: &'a [u8],
) -> Option<Packet<'a>>
    requires { Ipv4.Fits header.now }
    ensures packet { option_value result ≡ error_v4 inner.now header.now reason payload.now }
    ensures sendable { IfSome (option_value result) IsSendable }
{
    let message = Icmpv4Repr::DstUnreachable {
        reason,
        header: *header,
        bytes: first_bytes(payload, QUOTED_IPV4),
    };
    reply_ipv4(inner, header, &message)
}

/// Whether an error may answer a packet with this header: it is for one host, and from one.
fn is_between_hosts(header: &Ipv6Repr) -> bool
    ensures { result ≡ is_between_hosts header.now }
{
    header.src_addr.x_is_unicast() && header.dst_addr.x_is_unicast()
}

/// The error that a packet with this header can't be delivered, if one may be sent.
fn error_ipv6<'a>(
    inner: &InterfaceInner,
    header: &Ipv6Repr,
    message: &Icmpv6Repr<'a>,
) -> Option<Packet<'a>>
    requires fits { Icmpv6.Fits (Icmpv6.value_of (Icmpv6.header_of message.now)) }
    requires room { Icmpv6.header_len (Icmpv6.value_of (Icmpv6.header_of message.now)) + length (Icmpv6.carried_by message.now) < 2 ^ 16 }
    ensures packet { option_value result ≡ error_v6 inner.now header.now (Icmpv6.value_of (Icmpv6.header_of message.now)) (Icmpv6.carried_by message.now) }
    ensures sendable { IfSome (option_value result) IsSendable }
{
    if is_between_hosts(header) {
        Some(reply_ipv6(inner, header, message))
    } else {
        None
    }
}

/// The error that no socket takes a datagram.
pub fn port_unreachable<'a>(
    inner: &InterfaceInner,
    header: &IpRepr,
    payload: &'a [u8],
) -> Option<Packet<'a>>
    requires { Fits header.now }
    ensures packet { option_value result ≡ port_unreachable inner.now header.now payload.now }
    ensures sendable { IfSome (option_value result) IsSendable }
{
    match header {
        IpRepr::Ipv4(header) => error_ipv4(
            inner,
            header,
            Icmpv4DstUnreachable::PortUnreachable,
            payload,
        ),
        IpRepr::Ipv6(header) => {
            let message = Icmpv6Repr::DstUnreachable {
                reason: Icmpv6DstUnreachable::PortUnreachable,
                header: *header,
                bytes: first_bytes(payload, QUOTED_IPV6),
            };
            error_ipv6(inner, header, &message)
        }
    }
}

/// The error that the host doesn't know what an IPv4 packet carries.
pub fn protocol_unreachable<'a>(
    inner: &InterfaceInner,
    header: &Ipv4Repr,
    payload: &'a [u8],
) -> Option<Packet<'a>>
    requires { Ipv4.Fits header.now }
    ensures packet { option_value result ≡ protocol_unreachable inner.now header.now payload.now }
    ensures sendable { IfSome (option_value result) IsSendable }
{
    error_ipv4(
        inner,
        header,
        Icmpv4DstUnreachable::ProtoUnreachable,
        payload,
    )
}

/// The code of a problem with extension headers.
fn reason_of(problem: Problem) -> Icmpv6ParamProblem
    ensures { result ≡ reason_of problem }
{
    match problem {
        Problem::Field => Icmpv6ParamProblem::ErroneousHdrField,
        Problem::NextHeader => Icmpv6ParamProblem::UnrecognizedNxtHdr,
        Problem::Option | Problem::OptionToAny => Icmpv6ParamProblem::UnrecognizedOption,
    }
}

/// Whether the source of a packet with this header is told of a problem.
fn is_told(problem: Problem, header: &Ipv6Repr) -> bool
    ensures { result ≡ is_told problem header.now }
{
    match problem {
        Problem::OptionToAny => header.src_addr.x_is_unicast(),
        _ => is_between_hosts(header),
    }
}

/// The error that a packet's extension headers have a problem, at this place of the packet.
pub fn parameter_problem<'a>(
    inner: &InterfaceInner,
    header: &Ipv6Repr,
    payload: &'a [u8],
    problem: Problem,
    pointer: usize,
) -> Option<Packet<'a>>
    requires fits { Ipv6.Fits header.now }
    requires slot { pointer < 2 ^ 32 }
    ensures packet { option_value result ≡ parameter_problem inner.now header.now payload.now problem pointer }
    ensures sendable { IfSome (option_value result) IsSendable }
{
    if !is_told(problem, header) {
        return None;
    }
    let message = Icmpv6Repr::ParamProblem {
        reason: reason_of(problem),
        pointer: pointer as u32,
        header: *header,
        bytes: first_bytes(payload, QUOTED_IPV6),
    };
    Some(reply_ipv6(inner, header, &message))
}
