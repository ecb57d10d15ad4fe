//! The sockets of a host that begins.
ghost use Rattle.std.specs.Prelude.{◌≡◌, ◌≤◌, [], IfOk};
ghost use Rattle.net_base.specs.Packets.{packets_in};
ghost use Rattle.interface.specs.Set.{slots};
ghost use Rattle.app_tun_services.specs.Begins.{stream_room, echo_socket, IsUnopened, IsServer, watchful, prompt, careful, IsInitialAs, IsInitialSlot, AreInitial};

use crate::slot::{DATAGRAMS, ECHO_PORT, ECHOES, PAGES, Service, service_at};
use interface::{Item, Meta, SocketSet, SocketStorage};
use ip_wire::{IpListenEndpoint, TcpTimestampGenerator};
use net_base::{Duration, ManagedSlice, PacketBuffer, PacketMetadata, RingBuffer};
use sockets::{AnySocket, Socket, tcp, udp};
use std::alloc::{AllocError, Global};

/// How many bytes of datagrams a socket keeps each way, and how many of a stream are echoed in a turn at most.
pub const ROOM: usize = 65_536;

/// How many bytes a stream's socket keeps each way: no more of them are on their way in a round trip.
const STREAM_ROOM: usize = 262_144;

/// How many bytes a keeper keeps each way: it never has a connection.
const KEEPER_ROOM: usize = 1;

/// How many sockets a host has.
const SLOTS: usize = 3 + ECHOES + PAGES;

/// How long a peer may say nothing until it is asked whether it is there, in seconds.
const KEEP_ALIVE_SECS: u64 = 30;

/// How long it may say nothing at all while something waits for it, in seconds.
const TIMEOUT_SECS: u64 = 120;

/// How long a segment waits for its acknowledgement at least until it goes again, in milliseconds: Linux's least, too.
const MIN_RTO_MILLIS: u64 = 200;

/// A queue for so many datagrams of so many bytes together.
fn queue<H: Drop>(alloc: Global, count: usize, room: usize) -> Result<PacketBuffer<H>, AllocError>
    ensures { IfOk result (λ queue. queue ≡ packets_in [] 0 count room) }
{
    let mut entries = Vec::new(alloc);
    for _ in 0..count {
        entries.push(PacketMetadata::EMPTY)?;
    }
    Ok(PacketBuffer::new(
        ManagedSlice::Fixed(entries),
        ManagedSlice::Fixed(vec![in alloc; 0; room]?),
    ))
}

fn datagrams(alloc: Global) -> Result<udp::Socket, AllocError>
    ensures { IfOk result (λ socket. socket ≡ echo_socket) }
{
    let received = queue(alloc, DATAGRAMS, ROOM)?;
    let queued = queue(alloc, DATAGRAMS, ROOM)?;
    let mut socket = udp::Socket::new(received, queued);
    let _ = socket.bind(IpListenEndpoint {
        addr: None,
        port: ECHO_PORT,
    });
    Ok(socket)
}

/// A stream's socket with room for so many bytes each way.
fn stream(alloc: Global, room: usize) -> Result<tcp::Socket, AllocError>
    requires { room ≤ 262144 }
    ensures { IfOk result (IsUnopened room) }
{
    let rx = RingBuffer::new(ManagedSlice::Owned(vec![in alloc; 0u8; room]?));
    let tx = RingBuffer::new(ManagedSlice::Owned(vec![in alloc; 0u8; room]?));
    Ok(tcp::Socket::new(rx, tx))
}

/// A connection whose peer vanishes ends.
fn watch(socket: &mut tcp::Socket)
    ensures { socket.new ≡ watchful socket.old }
{
    socket.set_keep_alive(Some(Duration::from_secs(KEEP_ALIVE_SECS)));
    socket.set_timeout(Some(Duration::from_secs(TIMEOUT_SECS)));
}

/// A segment that is lost goes again soon, also where a round trip takes less than a millisecond. The last segment of an answer, which is
/// seldom full, waits for no acknowledgement, which the peer may delay.
fn hasten(socket: &mut tcp::Socket)
    ensures { socket.new ≡ prompt socket.old }
{
    socket.set_min_rto(Duration::from_millis(MIN_RTO_MILLIS));
    socket.set_fine_timer(true);
    socket.set_nagle_enabled(false);
}

/// A loss leaves more of the window than with Reno, and by timestamps both ends tell it from a segment that is late.
fn take_care(socket: &mut tcp::Socket)
    ensures { socket.new ≡ careful socket.old }
{
    socket.set_congestion_control(tcp::CongestionControl::Cubic);
    socket.set_tsval_generator(Some(TcpTimestampGenerator(0)));
}

/// A socket that serves connections.
fn server(alloc: Global) -> Result<tcp::Socket, AllocError>
    ensures { IfOk result (IsServer stream_room) }
{
    let mut socket = stream(alloc, STREAM_ROOM)?;
    watch(&mut socket);
    hasten(&mut socket);
    take_care(&mut socket);
    Ok(socket)
}

fn socket(alloc: Global, service: Service) -> Result<Socket, AllocError>
    ensures { IfOk result (IsInitialAs service) }
{
    match service {
        Service::Datagrams => Ok(datagrams(alloc)?.upcast(alloc)?),
        Service::Streams => Ok(server(alloc)?.upcast(alloc)?),
        Service::Page => Ok(server(alloc)?.upcast(alloc)?),
        Service::Keeper => Ok(stream(alloc, KEEPER_ROOM)?.upcast(alloc)?),
    }
}

fn slot(alloc: Global, service: Service) -> Result<SocketStorage<Socket>, AllocError>
    ensures { IfOk result (IsInitialSlot service) }
{
    let socket = socket(alloc, service)?;
    Ok(SocketStorage {
        inner: Some(Item {
            meta: Meta::default(),
            socket,
        }),
    })
}

/// The sockets, each for the service of its slot.
#[tactic(auto, using(crate::proofs::Initial::initial_none, crate::proofs::Initial::initial_more, crate::proofs::Initial::initial_all))]
pub fn sockets(alloc: Global) -> Result<SocketSet<Socket>, AllocError>
    ensures { IfOk result (λ set. AreInitial (slots set)) }
{
    let mut all = Vec::new(alloc);
    for i in 0..SLOTS {
        all.push(slot(alloc, service_at(i))?)?;
    }
    Ok(SocketSet::new(ManagedSlice::Owned(all)))
}
