//! For which socket something arrived. Each way in has copies of its own (`WAY`), which the compiler makes parts of it: what is called
//! from two ways is part of neither.
ghost use Rattle.std.specs.Prelude.{◌≡◌, ◌<◌, length};
ghost use Rattle.std.specs.Option.{ForSome};
ghost use Rattle.sockets.specs.Socket.{accepts_segment};
ghost use Rattle.iface_egress.specs.Inner.{context_of};
ghost use Rattle.iface_ingress.specs.Delivered.{datagram_slot, first_slot, is_connected, segment_slot};

use iface_egress::{InterfaceInner, Slots, Wanted};
use ip_wire::{IpRepr, TcpHeader, UdpRepr};
use sockets::{Socket, keys};

/// The way on which a checksum is tested first.
pub(crate) const TESTED: usize = 0;

/// The ingress path one pass.
pub(crate) const IN_ONE_PASS: usize = 1;

/// That of a plain segment.
pub(crate) const PLAIN: usize = 2;

/// The short one of any other packet.
pub(crate) const SHORT: usize = 3;

/// Whom a datagram is for: a UDP socket, or a client of DHCP or DNS.
#[derive(Drop)]
struct Readers<'a, const WAY: usize> {
    inner: &'a InterfaceInner,
    header: &'a IpRepr,
    udp: &'a UdpRepr,
}

impl<'a, const WAY: usize> Wanted for Readers<'a, WAY> {
    ghost use Rattle.iface_egress.specs.Inner.{context_of};
    ghost use Rattle.sockets.specs.Socket.{accepts_datagram};

    type Socket = Socket;

    ghost wants = { λ r s. accepts_datagram (context_of r.inner.now) s r.header.now r.udp.now };

    fn wants(&self, socket: &Socket) -> bool {
        match socket {
            Socket::Udp(socket) => socket.accepts(self.inner, self.header, self.udp),
            Socket::Dhcpv4(socket) => socket.accepts(self.inner, self.header, self.udp),
            Socket::Dns(socket) => socket.accepts(self.inner, self.header, self.udp),
            Socket::Raw(_) | Socket::Icmp(_) | Socket::Tcp(_) => false,
        }
    }
}

/// The first slot whose socket accepts a datagram.
#[tactic(auto, using(crate::proofs::Sought::of_readers))]
pub(crate) fn datagram_slot<const WAY: usize>(
    inner: &InterfaceInner,
    slots: &Slots<Socket>,
    header: &IpRepr,
    udp: &UdpRepr,
) -> Option<usize>
    ensures slot { result ≡ datagram_slot (context_of inner.now) header.now udp.now slots.now }
    ensures in_range { ForSome result (λ at. at < length slots.now) }
{
    let readers: Readers<'_, WAY> = Readers { inner, header, udp };
    slots.find(
        keys::of_port(udp.dst_port),
        Some(keys::of_clients()),
        &readers,
    )
}

/// The sockets that have a segment's connection.
#[derive(Drop)]
struct Connected<'a, const WAY: usize> {
    header: &'a IpRepr,
    segment: &'a TcpHeader,
}

impl<'a, const WAY: usize> Wanted for Connected<'a, WAY> {
    ghost use Rattle.iface_ingress.specs.Delivered.{is_connected};

    type Socket = Socket;

    ghost wants = { λ c s. is_connected s c.header.now c.segment.now };

    fn wants(&self, socket: &Socket) -> bool {
        match socket {
            Socket::Tcp(socket) => {
                !socket.is_listening() && socket.accepts_header(self.header, self.segment)
            }
            _ => false,
        }
    }
}

/// The first slot whose socket has a segment's connection.
#[tactic(auto, using(crate::proofs::Sought::of_connected))]
pub(crate) fn connection_slot<const WAY: usize>(
    slots: &Slots<Socket>,
    header: &IpRepr,
    segment: &TcpHeader,
) -> Option<usize>
    ensures slot { result ≡ first_slot (λ s. is_connected s header.now segment.now) slots.now }
    ensures in_range { ForSome result (λ at. at < length slots.now) }
{
    let connected: Connected<'_, WAY> = Connected { header, segment };
    slots.find(
        keys::of_ports(segment.dst_port, segment.src_port),
        None,
        &connected,
    )
}

/// The sockets that accept a segment.
#[derive(Drop)]
struct Acceptors<'a, const WAY: usize> {
    header: &'a IpRepr,
    segment: &'a TcpHeader,
}

impl<'a, const WAY: usize> Wanted for Acceptors<'a, WAY> {
    ghost use Rattle.sockets.specs.Socket.{accepts_segment};

    type Socket = Socket;

    ghost wants = { λ a s. accepts_segment s a.header.now a.segment.now };

    fn wants(&self, socket: &Socket) -> bool {
        match socket {
            Socket::Tcp(socket) => socket.accepts_header(self.header, self.segment),
            _ => false,
        }
    }
}

/// The first slot whose socket accepts a segment.
#[tactic(auto, using(crate::proofs::Sought::of_acceptors))]
fn accepting_slot<const WAY: usize>(
    slots: &Slots<Socket>,
    header: &IpRepr,
    segment: &TcpHeader,
) -> Option<usize>
    ensures slot { result ≡ first_slot (λ s. accepts_segment s header.now segment.now) slots.now }
    ensures in_range { ForSome result (λ at. at < length slots.now) }
{
    let acceptors: Acceptors<'_, WAY> = Acceptors { header, segment };
    slots.find(
        keys::of_ports(segment.dst_port, segment.src_port),
        Some(keys::of_listeners(segment.dst_port)),
        &acceptors,
    )
}

/// The slot whose socket gets a segment: that of its connection, else the first that accepts it.
pub(crate) fn segment_slot<const WAY: usize>(
    slots: &Slots<Socket>,
    header: &IpRepr,
    segment: &TcpHeader,
) -> Option<usize>
    ensures slot { result ≡ segment_slot header.now segment.now slots.now }
    ensures in_range { ForSome result (λ at. at < length slots.now) }
{
    match connection_slot::<WAY>(slots, header, segment) {
        Some(at) => Some(at),
        None => accepting_slot::<WAY>(slots, header, segment),
    }
}
