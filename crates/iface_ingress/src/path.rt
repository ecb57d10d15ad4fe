//! Messages that a packet was too long for its path (RFC 8201, section 4; RFC 1191, sections 3 to 5).
ghost use Rattle.std.specs.Prelude.{◌≡◌, ◌≤◌, nat_le, nat_lt, ◌&&◌, length, find};
ghost use Rattle.std.specs.List.{list_any};
ghost use Rattle.wire_icmpv4.specs.Icmpv4 as Icmpv4;
ghost use Rattle.wire_icmpv6.specs.Icmpv6 as Icmpv6;
ghost use Rattle.wire_address.specs.Fields.{be16, be32};
ghost use Rattle.sockets.specs.TcpSocket as Tcps;
ghost use Rattle.iface_ingress.specs.Delivered.{passes};
ghost use Rattle.iface_ingress.specs.PathTold.{has_sent, was_sent, can_have_gone, told_host, needs_cut, plateau_below, told_by, path_host_v4, path_host_v6};

use iface_egress::{InterfaceInner, Item, SocketStorage};
use ip_wire::network_order::{read_u16, read_u32};
use ip_wire::{IpAddress, IpEndpoint, IpProtocol, SeqNumber};
use sockets::{Context, Socket, tcp};
use wire_icmpv4::{Icmpv4DstUnreachable, Icmpv4Repr};
use wire_icmpv6::Icmpv6Repr;

/// A packet that a message quotes: its protocol, its ends, and what is quoted after its header.
#[derive(Clone, Copy)]
struct Quoted<'a> {
    protocol: IpProtocol,
    source: IpAddress,
    destination: IpAddress,
    bytes: &'a [u8],
}

/// Whether a connection sent the quoted segment, which isn't acknowledged.
fn is_sent_by(socket: &tcp::Socket, quoted: &Quoted<'_>) -> bool
    ensures { result ≡ nat_le 8 (length quoted.now.bytes.now) && Tcps.has_sent socket.now.tcb
        (record { addr = quoted.now.source; port = be16 quoted.now.bytes.now 0 })
        (record { addr = quoted.now.destination; port = be16 quoted.now.bytes.now 2 })
        (record { 0 = be32 quoted.now.bytes.now 4 }) }
{
    if quoted.bytes.len() < 8 {
        return false;
    }
    let local = IpEndpoint {
        addr: quoted.source,
        port: read_u16(quoted.bytes, 0),
    };
    let remote = IpEndpoint {
        addr: quoted.destination,
        port: read_u16(quoted.bytes, 2),
    };
    socket.has_sent(&local, &remote, SeqNumber(read_u32(quoted.bytes, 4)))
}

/// Whether the socket at a slot sent the quoted segment.
fn has_sent(slot: &SocketStorage<Socket>, quoted: &Quoted<'_>) -> bool
    ensures { result ≡ passes (has_sent quoted.now.source quoted.now.destination quoted.now.bytes.now) slot.now }
{
    match &slot.inner {
        Some(
            Item {
                socket: Socket::Tcp(socket),
                ..
            },
        ) => is_sent_by(socket, quoted),
        _ => false,
    }
}

/// Whether some socket sent the quoted segment.
fn some_has_sent(slots: &[SocketStorage<Socket>], quoted: &Quoted<'_>) -> bool
    ensures { result ≡ list_any (passes (has_sent quoted.now.source quoted.now.destination quoted.now.bytes.now)) slots.now }
{
    slots.iter().any(|slot| has_sent(slot, quoted))
}

/// Whether a socket sent the quoted packet, as far as the host keeps that.
fn was_sent(slots: &[SocketStorage<Socket>], quoted: &Quoted<'_>) -> bool
    ensures { result ≡ was_sent slots.now quoted.now.protocol quoted.now.source quoted.now.destination quoted.now.bytes.now }
{
    match quoted.protocol {
        IpProtocol::Tcp => some_has_sent(slots, quoted),
        _ => true,
    }
}

/// Takes in that the path of the quoted packet carries packets of so many bytes, where that can have been sent from here.
fn take_in(
    inner: &mut InterfaceInner,
    slots: &[SocketStorage<Socket>],
    quoted: &Quoted<'_>,
    told: usize,
)
    ensures { inner.new ≡
        told_host inner.old slots.now quoted.now.protocol quoted.now.source quoted.now.destination quoted.now.bytes.now told }
{
    if inner.has_ip_addr(&quoted.source) && was_sent(slots, quoted) {
        inner.lower_path(quoted.destination, told);
    }
}

fn needs_cut(reason: Icmpv4DstUnreachable) -> bool
    ensures { result ≡ needs_cut reason }
{
    match reason {
        Icmpv4DstUnreachable::FragRequired => true,
        _ => false,
    }
}

/// The plateaus, near which the MTUs of links lie, the highest first (RFC 1191, section 7.1).
const PLATEAUS: [usize; 10] = [
    32_000, 17_914, 8_166, 4_352, 2_002, 1_492, 1_006, 508, 296, 68,
];

/// The lowest of them.
const LOWEST_PLATEAU: usize = 68;

/// The highest plateau below this length, else the lowest.
fn plateau_below(len: usize) -> usize
    ensures { result ≡ plateau_below len }
{
    match first_below(&PLATEAUS, len) {
        Some(plateau) => plateau,
        None => LOWEST_PLATEAU,
    }
}

/// The first length below this one.
fn first_below(lengths: &[usize], len: usize) -> Option<usize>
    ensures { result ≡ find (λ l. nat_lt l len) lengths.now }
{
    lengths.iter().copied().find(|length| *length < len)
}

/// The next hop's MTU as a message tells it, which these bytes are. An old router tells 0: then it is the plateau below the length of
/// the packet that it quotes.
fn told_by(bytes: &[u8]) -> usize
    requires { 12 ≤ length bytes.now }
    ensures { result ≡ told_by bytes.now }
{
    match read_u16(bytes, 6) {
        0 => plateau_below(read_u16(bytes, 10) as usize),
        mtu => mtu as usize,
    }
}

/// Takes in what an ICMPv4 message, which these bytes are, tells of a path.
pub fn process_path_mtu_v4(
    inner: &mut InterfaceInner,
    slots: &[SocketStorage<Socket>],
    bytes: &[u8],
    message: &Icmpv4Repr<'_>,
)
    ensures { inner.new ≡ path_host_v4 inner.old slots.now bytes.now (Icmpv4.header_of message.now) (Icmpv4.payload_of message.now) }
{
    if let Icmpv4Repr::DstUnreachable {
        reason,
        header,
        bytes: data,
    } = message
    {
        if needs_cut(*reason) && 12 <= bytes.len() {
            let quoted = Quoted {
                protocol: header.next_header,
                source: IpAddress::Ipv4(header.src_addr),
                destination: IpAddress::Ipv4(header.dst_addr),
                bytes: data,
            };
            take_in(inner, slots, &quoted, told_by(bytes));
        }
    }
}

/// Takes in what an ICMPv6 message tells of a path.
pub fn process_path_mtu_v6(
    inner: &mut InterfaceInner,
    slots: &[SocketStorage<Socket>],
    message: &Icmpv6Repr<'_>,
)
    ensures { inner.new ≡
        path_host_v6 inner.old slots.now (Icmpv6.value_of (Icmpv6.header_of message.now)) (Icmpv6.carried_by message.now) }
{
    if let Icmpv6Repr::PktTooBig { mtu, header, bytes } = message {
        let quoted = Quoted {
            protocol: header.next_header,
            source: IpAddress::Ipv6(header.src_addr),
            destination: IpAddress::Ipv6(header.dst_addr),
            bytes,
        };
        take_in(inner, slots, &quoted, *mtu as usize);
    }
}
