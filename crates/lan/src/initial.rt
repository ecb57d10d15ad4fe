//! Whether two hosts make a world.
ghost use Rattle.std.specs.Prelude.{◌≡◌, [], IsNone, IsTrue};
ghost use Rattle.interface.specs.Made.{IsIdle};
ghost use Rattle.iface_tables.specs.Settings.{is_of_medium};
ghost use Rattle.std.specs.List.{list_all};
ghost use Rattle.iface_egress.specs.Set.{slots};
ghost use Rattle.sockets.specs.TcpStates.{is_closed};
ghost use Rattle.sockets.specs.TcpCalls.{recv_refusal};
ghost use Rattle.lan.specs.Worlds.New.{new_error, has_one_medium, is_both, are_on, has_checksums, has_mtu, has_buffers, is_ingress, is_no_socket, is_unopened};
ghost use Rattle.lan.specs.Worlds.New.{is_unused, of_slot, of_each, is_fresh};

use crate::at_link::{Host, Interface, SocketSet, SocketStorage};
use crate::error::WorldError;
use ip_wire::HardwareAddress;
use net_base::{Checksum, ChecksumCapabilities, Device, Medium};
use sockets::{Context, PollAt, Socket, tcp};

/// Why two hosts make no world, but for lack of memory.
pub(crate) fn new_error(a: &Host, b: &Host) -> Option<WorldError>
    ensures value { result ≡ new_error a.now b.now }
    ensures idle_a { IsNone result → IsIdle a.now.host.left a.now.host.assemblers }
    ensures idle_b { IsNone result → IsIdle b.now.host.left b.now.host.assemblers }
    ensures unknown_a { IsNone result → a.now.host.inner.neighbors.entries ≡ [] }
    ensures unknown_b { IsNone result → b.now.host.inner.neighbors.entries ≡ [] }
{
    if !has_one_medium(a, b) {
        Some(WorldError::Media)
    } else if !(has_checksums(a) && has_checksums(b)) {
        Some(WorldError::Checksums)
    } else if !(has_mtu(a) && has_mtu(b)) {
        Some(WorldError::Mtu)
    } else if !(has_buffers(a) && has_buffers(b)) {
        Some(WorldError::Buffers)
    } else if !(is_fresh(a) && is_fresh(b)) {
        Some(WorldError::NotFresh)
    } else {
        None
    }
}

fn has_one_medium(a: &Host, b: &Host) -> bool
    ensures { result ≡ has_one_medium a.now b.now }
{
    let medium_a = a.port.capabilities().medium;
    let medium_b = b.port.capabilities().medium;
    is_of_medium(&a.interface, medium_a)
        && is_of_medium(&a.interface, medium_b)
        && is_of_medium(&b.interface, medium_b)
}

// Whether an interface's hardware address is of this medium.
fn is_of_medium(interface: &Interface, medium: Medium) -> bool
    ensures { result ≡ is_of_medium interface.now.inner.hardware medium }
{
    match (interface.hardware_addr(), medium) {
        (HardwareAddress::Ip, Medium::Ip) => true,
        (HardwareAddress::Ethernet(_), Medium::Ethernet) => true,
        _ => false,
    }
}

fn has_checksums(host: &Host) -> bool
    ensures { result ≡ has_checksums host.now }
{
    are_on(host.port.capabilities().checksum) && are_on(host.interface.checksum_caps())
}

fn are_on(c: ChecksumCapabilities) -> bool
    ensures { result ≡ are_on c }
{
    is_both(c.ipv4) && is_both(c.udp) && is_both(c.tcp) && is_both(c.icmpv4) && is_both(c.icmpv6)
}

fn is_both(checksum: Checksum) -> bool
    ensures { result ≡ is_both checksum }
{
    matches!(checksum, Checksum::Both)
}

fn has_mtu(host: &Host) -> bool
    ensures { result ≡ has_mtu host.now }
{
    let mtu = host.port.capabilities().ip_mtu();
    576 <= mtu && mtu <= 65535 && host.interface.ip_mtu() == mtu
}

fn has_buffers(host: &Host) -> bool
    ensures { result ≡ of_each has_buffers host.now }
{
    host.sockets.slots.as_slice().iter().all(has_buffers_at)
}

fn has_buffers_at(slot: &SocketStorage<Socket>) -> bool
    ensures { result ≡ of_slot has_buffers slot.now }
{
    match &slot.inner {
        Some(item) => has_buffers_in(&item.socket),
        None => true,
    }
}

fn has_buffers_in(socket: &Socket) -> bool
    ensures { result ≡ has_buffers socket.now }
{
    match socket {
        Socket::Tcp(socket) => socket.recv_capacity() != 0 && socket.send_capacity() != 0,
        Socket::Raw(_) | Socket::Icmp(_) | Socket::Udp(_) | Socket::Dhcpv4(_) | Socket::Dns(_) =>
            true,
    }
}

fn is_fresh(host: &Host) -> bool
    ensures value { result ≡ is_fresh host.now }
    ensures idle { IsTrue result → IsIdle host.now.host.left host.now.host.assemblers }
    ensures unknown { IsTrue result → host.now.host.inner.neighbors.entries ≡ [] }
{
    host.interface.is_fresh()
        && host.port.sent().is_empty()
        && host.port.waiting().is_empty()
        && are_unused(&host.sockets)
        && !host.interface.host_requirements()
}

fn are_unused(sockets: &SocketSet<Socket>) -> bool
    ensures { result ≡ list_all (of_slot is_unused) (slots sockets.now) }
{
    sockets.slots.as_slice().iter().all(is_unused_at)
}

fn is_unused_at(slot: &SocketStorage<Socket>) -> bool
    ensures { result ≡ of_slot is_unused slot.now }
{
    match &slot.inner {
        Some(item) => is_unused(&item.socket),
        None => true,
    }
}

fn is_unused(socket: &Socket) -> bool
    ensures { result ≡ is_unused socket.now }
{
    match socket {
        Socket::Raw(socket) => !socket.can_recv() && is_ingress(socket.poll_at()),
        Socket::Icmp(socket) => !socket.can_recv() && is_ingress(socket.poll_at()),
        Socket::Udp(socket) => !socket.can_recv() && is_ingress(socket.poll_at()),
        Socket::Tcp(socket) => is_unopened(socket),
        Socket::Dhcpv4(_) | Socket::Dns(_) => false,
    }
}

// A datagram socket with nothing to send needn't be polled.
fn is_ingress(poll_at: PollAt) -> bool
    ensures { result ≡ is_ingress poll_at }
{
    matches!(poll_at, PollAt::Ingress)
}

// CLOSED, without endpoints, with nothing queued; and its stream hasn't ended.
fn is_unopened(socket: &tcp::Socket) -> bool
    ensures { result ≡ is_unopened socket.now }
{
    is_closed(socket.state())
        && socket.listen_endpoint().port == 0
        && socket.local_endpoint().is_none()
        && socket.send_queue() == 0
        && has_no_connection(socket)
}

fn is_closed(state: tcp::State) -> bool
    ensures { result ≡ is_closed state }
{
    matches!(state, tcp::State::Closed)
}

fn has_no_connection(socket: &tcp::Socket) -> bool
    ensures { result ≡ is_no_socket (recv_refusal socket.now) }
{
    matches!(socket.peek(0), Err(tcp::RecvError::InvalidState))
}
