//! Which ports and connections are in use, and a port that is free.
ghost use Rattle.std.specs.Prelude.{◌≡◌, ◌∷◌, [], ◌++◌, Some};
ghost use Rattle.std.specs.List.{list_any};
ghost use Rattle.net_base.specs.Time.{IsMoment};
ghost use Rattle.c_calls.specs.Ports.{overlaps, has_port, is_end, has_ends, uses_port, in_slot, some_other, is_bound_elsewhere, is_port_used, next_port, free_port};
ghost use Rattle.c_calls.specs.Ports.{words_of, hash_by, first_port, port_from, port_for, port_in, is_no_route, own_address, refusal_from, refusal_of};
ghost use Rattle.interface.specs.Inner.{context_of, link_address};
ghost use Rattle.tcp_state.specs.SipHash.{hash_of_words};

use crate::code::Code;
use crate::slots::{Slots, slot_of};
use iface_egress::{InterfaceInner, LinkAddress};
use interface::SocketStorage;
use ip_wire::{IpAddress, IpEndpoint, IpListenEndpoint, Ipv4Address, Ipv6Address};
use net_base::Instant;
use sockets::addresses::is_same_address;
use sockets::tcp::{self, State};
use sockets::{Context, Socket};
use tcp_state::sip_hash;

/// The first of the ports that a connection may have that names none, the last, and how many they are.
const FIRST: u16 = 49_152;

const LAST: u16 = 65_535;

const PORTS: u64 = 16_384;

/// Whether a datagram could be for both.
fn overlaps(one: &Option<IpAddress>, other: &Option<IpAddress>) -> bool
    ensures { result ≡ overlaps one.now other.now }
{
    match (one, other) {
        (Some(one), Some(other)) => is_same_address(one, other),
        _ => true,
    }
}

/// Whether the socket is bound to this port, so that a datagram could be for both.
fn has_port(socket: &Socket, endpoint: &IpListenEndpoint) -> bool
    ensures { result ≡ has_port endpoint.now socket.now }
{
    match socket {
        Socket::Udp(socket) => {
            let bound = socket.endpoint();
            bound.port == endpoint.port && overlaps(&bound.addr, &endpoint.addr)
        }
        _ => false,
    }
}

fn is_end(end: &Option<IpEndpoint>, other: &IpEndpoint) -> bool
    ensures { result ≡ is_end end.now other.now }
{
    match end {
        Some(end) => end.port == other.port && is_same_address(&end.addr, &other.addr),
        None => false,
    }
}

/// Whether the socket has a connection between these endpoints, or one that is opened or waits to be over.
fn has_ends(socket: &Socket, own: &IpEndpoint, remote: &IpEndpoint) -> bool
    ensures { result ≡ has_ends own.now remote.now socket.now }
{
    match socket {
        Socket::Tcp(socket) => {
            !matches!(socket.state(), State::Closed)
                && (is_end(&socket.local_endpoint(), own)
                    && is_end(&socket.remote_endpoint(), remote))
        }
        _ => false,
    }
}

fn port_in(end: &Option<IpEndpoint>, port: u16) -> bool
    ensures { result ≡ port_in end.now port }
{
    match end {
        Some(end) => end.port == port,
        None => false,
    }
}

/// Whether the socket listens on this port or has a connection from it.
fn uses_port(socket: &Socket, port: u16) -> bool
    ensures { result ≡ uses_port port socket.now }
{
    match socket {
        Socket::Tcp(socket) => {
            socket.listen_endpoint().port == port || port_in(&socket.local_endpoint(), port)
        }
        _ => false,
    }
}

fn is_bound_in(slot: &SocketStorage<Socket>, endpoint: &IpListenEndpoint) -> bool
    ensures { result ≡ in_slot (has_port endpoint.now) slot.now }
{
    match &slot.inner {
        Some(item) => has_port(&item.socket, endpoint),
        None => false,
    }
}

fn has_ends_in(slot: &SocketStorage<Socket>, own: &IpEndpoint, remote: &IpEndpoint) -> bool
    ensures { result ≡ in_slot (has_ends own.now remote.now) slot.now }
{
    match &slot.inner {
        Some(item) => has_ends(&item.socket, own, remote),
        None => false,
    }
}

fn uses_port_in(slot: &SocketStorage<Socket>, port: u16) -> bool
    ensures { result ≡ in_slot (uses_port port) slot.now }
{
    match &slot.inner {
        Some(item) => uses_port(&item.socket, port),
        None => false,
    }
}

fn any_bound(slots: &[SocketStorage<Socket>], endpoint: &IpListenEndpoint) -> bool
    ensures { result ≡ list_any (in_slot (has_port endpoint.now)) slots.now }
{
    slots.iter().any(|slot| is_bound_in(slot, endpoint))
}

/// Whether another slot's socket is bound so.
#[tactic(auto, using(crate::proofs::FreePorts::other_two, crate::proofs::FreePorts::other_first, crate::proofs::FreePorts::other_none))]
fn other_bound(slots: &[SocketStorage<Socket>], at: usize, endpoint: &IpListenEndpoint) -> bool
    ensures { result ≡ some_other (has_port endpoint.now) at slots.now }
{
    if at < slots.len() {
        any_bound(&slots[..at], endpoint) || any_bound(&slots[at + 1..], endpoint)
    } else {
        any_bound(slots, endpoint)
    }
}

fn any_ends(slots: &[SocketStorage<Socket>], own: &IpEndpoint, remote: &IpEndpoint) -> bool
    ensures { result ≡ list_any (in_slot (has_ends own.now remote.now)) slots.now }
{
    slots.iter().any(|slot| has_ends_in(slot, own, remote))
}

/// Whether another slot's socket has such a connection.
#[tactic(auto, using(crate::proofs::FreePorts::other_two, crate::proofs::FreePorts::other_first, crate::proofs::FreePorts::other_none))]
fn other_ends(
    slots: &[SocketStorage<Socket>],
    at: usize,
    own: &IpEndpoint,
    remote: &IpEndpoint,
) -> bool
    ensures { result ≡ some_other (has_ends own.now remote.now) at slots.now }
{
    if at < slots.len() {
        any_ends(&slots[..at], own, remote) || any_ends(&slots[at + 1..], own, remote)
    } else {
        any_ends(slots, own, remote)
    }
}

fn any_uses(slots: &[SocketStorage<Socket>], port: u16) -> bool
    ensures { result ≡ list_any (in_slot (uses_port port)) slots.now }
{
    slots.iter().any(|slot| uses_port_in(slot, port))
}

/// Whether another slot's socket uses the port.
#[tactic(auto, using(crate::proofs::FreePorts::other_two, crate::proofs::FreePorts::other_first, crate::proofs::FreePorts::other_none))]
fn other_uses(slots: &[SocketStorage<Socket>], at: usize, port: u16) -> bool
    ensures { result ≡ some_other (uses_port port) at slots.now }
{
    if at < slots.len() {
        any_uses(&slots[..at], port) || any_uses(&slots[at + 1..], port)
    } else {
        any_uses(slots, port)
    }
}

/// Whether another socket is bound to this port, so that a datagram could be for both.
pub(crate) fn is_bound_elsewhere(
    sockets: &Slots,
    number: usize,
    endpoint: &IpListenEndpoint,
) -> bool
    ensures { result ≡ is_bound_elsewhere sockets.now number endpoint.now }
{
    endpoint.port != 0 && other_bound(sockets.as_slice(), slot_of(number), endpoint)
}

/// Whether another socket uses this port for TCP.
fn is_port_used(sockets: &Slots, number: usize, port: u16) -> bool
    ensures { result ≡ is_port_used sockets.now number port }
{
    other_uses(sockets.as_slice(), slot_of(number), port)
}

fn next_port(port: u16) -> u16
    ensures { result ≡ next_port port }
{
    if port == LAST { FIRST } else { port + 1 }
}

/// The first port from this one on that no other socket uses, of so many.
#[tactic(auto, using(crate::proofs::FreePorts::passed_over, crate::proofs::FreePorts::found_free))]
fn free_port(sockets: &Slots, number: usize, port: u16, tries: u64) -> Option<u16>
    ensures { result ≡ free_port sockets.now number port tries }
{
    let mut port = port;
    let mut left = tries;
    while left > 0 {
        if !is_port_used(sockets, number, port) {
            return Some(port);
        }
        port = next_port(port);
        left -= 1;
    }
    None
}

fn hash_v4(key: [u8; 16], addr: &Ipv4Address, port: u16) -> u64
    ensures { result ≡ hash_of_words key (addr.now.0 ++ port ∷ []) }
{
    let [a, b, c, d] = addr.0;
    sip_hash(key, &[a as u64, b as u64, c as u64, d as u64, port as u64])
}

fn hash_v6(key: [u8; 16], addr: &Ipv6Address, port: u16) -> u64
    ensures { result ≡ hash_of_words key (addr.now.0 ++ port ∷ []) }
{
    let [a, b, c, d, e, f, g, h, i, j, k, l, m, n, o, p] = addr.0;
    sip_hash(
        key,
        &[
            a as u64,
            b as u64,
            c as u64,
            d as u64,
            e as u64,
            f as u64,
            g as u64,
            h as u64,
            i as u64,
            j as u64,
            k as u64,
            l as u64,
            m as u64,
            n as u64,
            o as u64,
            p as u64,
            port as u64,
        ],
    )
}

fn hash_of(key: [u8; 16], remote: &IpEndpoint) -> u64
    ensures { result ≡ hash_of_words key (words_of remote.now.addr remote.now.port) }
{
    match &remote.addr {
        IpAddress::Ipv4(addr) => hash_v4(key, addr, remote.port),
        IpAddress::Ipv6(addr) => hash_v6(key, addr, remote.port),
    }
}

/// The hash of a remote by the host's key, if it has one.
fn hash_by(key: Option<[u8; 16]>, remote: &IpEndpoint) -> u64
    ensures { result ≡ hash_by key remote.now }
{
    match key {
        None => 0,
        Some(key) => hash_of(key, remote),
    }
}

/// The port where the search for a free one begins.
fn first_port(key: Option<[u8; 16]>, now: Instant, remote: &IpEndpoint) -> u16
    requires { IsMoment now }
    ensures { result ≡ first_port key now remote.now }
{
    let ticks = now.total_micros() as u64 / 4;
    FIRST + ((ticks + hash_by(key, remote) % PORTS) % PORTS) as u16
}

/// A port that no other socket uses, if there is one.
fn port_from(
    inner: &InterfaceInner,
    sockets: &Slots,
    number: usize,
    remote: &IpEndpoint,
) -> Option<u16>
    ensures { result ≡ port_from inner.now sockets.now number remote.now }
{
    let first = first_port(inner.isn_key(), inner.now(), remote);
    free_port(sockets, number, first, PORTS)
}

/// The named port, or one that is free where none is named.
pub(crate) fn port_for(
    inner: &InterfaceInner,
    sockets: &Slots,
    number: usize,
    remote: &IpEndpoint,
    port: u16,
) -> Option<u16>
    ensures { result ≡ port_for inner.now sockets.now number remote.now port }
{
    if port == 0 {
        port_from(inner, sockets, number, remote)
    } else {
        Some(port)
    }
}

fn is_no_route(link: LinkAddress) -> bool
    ensures { result ≡ is_no_route link }
{
    matches!(link, LinkAddress::NoRoute)
}

/// The address that a connection has here.
fn own_address(
    named: &Option<IpAddress>,
    inner: &InterfaceInner,
    remote: &IpAddress,
) -> Option<IpAddress>
    ensures { result ≡ own_address named.now (context_of inner.now) remote.now }
{
    match named {
        Some(address) => Some(*address),
        None => inner.get_source_address(remote),
    }
}

fn refusal_from(
    own: &IpEndpoint,
    inner: &InterfaceInner,
    sockets: &Slots,
    number: usize,
    remote: &IpEndpoint,
) -> Option<Code>
    ensures { result ≡ refusal_from (Some own.now.addr) inner.now sockets.now number remote.now own.now.port }
{
    if is_no_route(inner.link_address(&remote.addr)) {
        Some(Code::NoRoute)
    } else if other_ends(sockets.as_slice(), slot_of(number), own, remote) {
        Some(Code::AddressInUse)
    } else {
        None
    }
}

/// Why a connection can't be opened: no route leads to the remote, or another socket has the four numbers. What names no remote is refused
/// by the socket.
pub(crate) fn refusal_of(
    inner: &InterfaceInner,
    sockets: &Slots,
    number: usize,
    remote: &IpEndpoint,
    local: &IpListenEndpoint,
) -> Option<Code>
    ensures { result ≡ refusal_of inner.now sockets.now number remote.now local.now }
{
    if remote.port == 0 || remote.addr.is_unspecified() {
        return None;
    }
    match own_address(&local.addr, inner, &remote.addr) {
        Some(addr) => refusal_from(
            &IpEndpoint {
                addr,
                port: local.port,
            },
            inner,
            sockets,
            number,
            remote,
        ),
        None => None,
    }
}
