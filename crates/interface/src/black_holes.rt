//! Paths that lose packets over a length and tell nobody (RFC 2923, section 2.1; RFC 4821, section 7.7).
ghost use Rattle.std.specs.Prelude.{◌≡◌, ◌<◌, ◌^◌, nat_lt, find, Some};
ghost use Rattle.interface.specs.BlackHoles.{tried_below, headers_to, flight_len, is_swallowed, tried_next, paths_towards, paths_by, paths_in, paths_of_all, paths_checked, with_paths};

use crate::remote::remote_of;
use crate::serve::is_waiting;
use iface_egress::{InterfaceInner, Item, Slots, SocketStorage};
use iface_ingress::socket_laws::idle_is_at_rest;
use iface_ingress::{Context, Socket, tcp};
use ip_wire::IpAddress;

/// The lengths that are tried, near which the MTUs of links lie (RFC 1191, section 7.1).
const IPV4_LENGTHS: [usize; 5] = [1_492, 1_400, 1_280, 1_024, 576];

/// Every link of IPv6 carries as much (RFC 8200, section 5).
const IPV6_LENGTHS: [usize; 1] = [1_280];

/// The headers of IP and TCP without options.
const IPV4_HEADERS: usize = 40;

const IPV6_HEADERS: usize = 60;

/// Takes in what the retransmission timers of connections tell of their paths, with host requirements: where a segment wasn't acknowledged
/// twice, its path carries less. Sockets idle aren't looked at.
pub fn check_paths(inner: &mut InterfaceInner, slots: &Slots<Socket>)
    ensures { inner.new ≡ paths_checked inner.old slots.now }
{
    if inner.host_requirements() {
        check_busy(inner, slots);
    }
}

/// The same of a host of many.
fn check_busy(inner: &mut InterfaceInner, slots: &Slots<Socket>)
    ensures { inner.new ≡ with_paths inner.old (paths_of_all inner.old slots.now) }
{
    idle_is_at_rest();
    let mut from = 0;
    while let Some(at) = slots.next_busy(from) {
        check_slot(inner, slots.slot(at));
        from = at + 1;
    }
}

/// The same of the socket at a slot, if there is one.
fn check_slot(inner: &mut InterfaceInner, slot: &SocketStorage<Socket>)
    ensures { inner.new ≡ with_paths inner.old (paths_in inner.old slot.now.inner) }
{
    if let Some(item) = &slot.inner {
        check_item(inner, item);
    }
}

/// The same of a socket, unless it waits for its neighbour.
fn check_item(inner: &mut InterfaceInner, item: &Item<Socket>)
    ensures { inner.new ≡ with_paths inner.old (paths_in inner.old (Some item.now)) }
{
    if !is_waiting(inner, &item.meta) {
        check_socket(inner, &item.socket);
    }
}

/// The same of a socket that doesn't wait.
fn check_socket(inner: &mut InterfaceInner, socket: &Socket)
    ensures { inner.new ≡ with_paths inner.old (paths_by inner.old socket.now) }
{
    let remote = remote_of(socket);
    if let Socket::Tcp(socket) = socket {
        check_towards(inner, &remote, socket);
    }
}

/// The same of a connection with this remote.
fn check_towards(inner: &mut InterfaceInner, remote: &Option<IpAddress>, socket: &tcp::Socket)
    ensures { inner.new ≡ with_paths inner.old (paths_towards inner.old remote.now socket.now) }
{
    if let Some(address) = remote
        && let Some(len) = tried_next(inner, address, socket)
    {
        inner.lower_path(*address, len);
    }
}

/// The length that is tried on a connection's path, if one that is shorter than what is in flight is to be.
fn tried_next(inner: &InterfaceInner, address: &IpAddress, socket: &tcp::Socket) -> Option<usize>
    ensures { result ≡ tried_next inner.now address.now socket.now }
{
    if is_swallowed(inner, address, socket) {
        tried_below(address, flight_len(address, socket))
    } else {
        None
    }
}

/// Whether the timer of a packet in flight runs out again, one that the path is taken to carry.
fn is_swallowed(inner: &InterfaceInner, address: &IpAddress, socket: &tcp::Socket) -> bool
    ensures { result ≡ is_swallowed inner.now address.now socket.now }
{
    socket.times_out_after(1, inner.now()) && flight_len(address, socket) <= inner.mtu_to(address)
}

/// At least how long the packet in flight is, where it's one.
fn flight_len(address: &IpAddress, socket: &tcp::Socket) -> usize
    ensures { result ≡ flight_len address.now socket.now }
{
    socket.flight_size() as usize + headers_to(address)
}

fn headers_to(address: &IpAddress) -> usize
    ensures value { result ≡ headers_to address.now }
    ensures few { result < 2 ^ 8 }
{
    match address {
        IpAddress::Ipv4(_) => IPV4_HEADERS,
        IpAddress::Ipv6(_) => IPV6_HEADERS,
    }
}

/// The longest of the lengths that are tried that is shorter than a packet, if one is.
fn tried_below(address: &IpAddress, len: usize) -> Option<usize>
    ensures { result ≡ tried_below address.now len }
{
    match address {
        IpAddress::Ipv4(_) => first_below(&IPV4_LENGTHS, len),
        IpAddress::Ipv6(_) => first_below(&IPV6_LENGTHS, len),
    }
}

/// The first of these that is below a length.
fn first_below(lengths: &[usize], len: usize) -> Option<usize>
    ensures { result ≡ find (λ tried. nat_lt tried len) lengths.now }
{
    lengths.iter().copied().find(|tried| *tried < len)
}
