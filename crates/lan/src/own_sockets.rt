//! The sockets that a header asks for.
ghost use Rattle.std.specs.Prelude.{◌≡◌, ◌⊎◌, ◌+◌, [], ◌∷◌, ◌++◌, true, false, None, IfOk, OnOk, IfErr, length, replicate};
ghost use Rattle.lan.specs.Worlds.Set.{slots, free_slot, is_fixed, unmarked};
ghost use Rattle.lan.specs.Worlds.AtLink.Kinds.{same_side};
ghost use Rattle.lan.specs.declared.at_link.history.answer.Refused.TheVariants.{Memory};
ghost use Rattle.lan.specs.declared.error.WorldError.TheVariants.{Buffers};
ghost use Rattle.net_base.specs.Ring.{ring};
ghost use Rattle.lan.specs.declared.end.End.TheVariants.{Refusal, World};
ghost use Rattle.sim_link.specs.declared.kinds.SocketSpec.TheVariants as Asks;
ghost use Rattle.lan.specs.Worlds.AtLink.Value.{new_socket};
ghost use Rattle.lan.specs.Hosts.{queue, received, queued, socket_of, with_sockets, is_large, has_large};

use crate::at_link::{Refused, Side, SocketSet};
use crate::end::End;
use crate::error::WorldError;
use net_base::{ManagedSlice, PacketBuffer, PacketMetadata, RingBuffer};
use sim_link::{QueueSizes, SocketSpec, StreamSizes};
use sockets::{AnySocket, Socket, icmp, raw, tcp, udp};
use std::alloc::{AllocError, Global};
use wire_address::IpProtocol;

/// A host's own of these sockets, in order.
pub fn own_sockets_of(
    alloc: Global,
    side: Side,
    specs: &[(Side, SocketSpec)],
) -> Result<SocketSet<Socket>, End>
    ensures made { IfOk result (λ set. slots set ≡ with_sockets side [] specs.now) }
    ensures small { OnOk result (has_large side specs.now ≡ false) }
    ensures ends { IfErr result (λ end. ((has_large side specs.now ≡ true) × (end ≡ World Buffers)) ⊎ (end ≡ Refusal Memory)) }
{
    let mut sockets = SocketSet::new(ManagedSlice::Owned(Vec::new(alloc)));
    add_own(alloc, &mut sockets, side, specs)?;
    Ok(sockets)
}

// Adds a host's own of these sockets, in order, after those that there are. (What owns a set has no loop: that keeps its proof short.)
fn add_own(
    alloc: Global,
    sockets: &mut SocketSet<Socket>,
    side: Side,
    specs: &[(Side, SocketSpec)],
) -> Result<(), End>
    requires used { free_slot (slots sockets.old) ≡ None }
    requires grows { is_fixed sockets.old ≡ false }
    ensures made { OnOk result (slots sockets.new ≡ with_sockets side (slots sockets.old) specs.now) }
    ensures small { OnOk result (has_large side specs.now ≡ false) }
    ensures ends { IfErr result (λ end. ((has_large side specs.now ≡ true) × (end ≡ World Buffers)) ⊎ (end ≡ Refusal Memory)) }
{
    for spec in specs {
        let (owner, spec) = *spec;
        if is_same(owner, side) {
            add_socket(alloc, sockets, spec)?;
        }
    }
    Ok(())
}

// One socket more.
fn add_socket(alloc: Global, sockets: &mut SocketSet<Socket>, spec: SocketSpec) -> Result<(), End>
    requires used { free_slot (slots sockets.old) ≡ None }
    requires grows { is_fixed sockets.old ≡ false }
    ensures made { OnOk result (slots sockets.new ≡ slots sockets.old ++ unmarked (socket_of spec) ∷ []) }
    ensures used { OnOk result (free_slot (slots sockets.new) ≡ None) }
    ensures grows { OnOk result (is_fixed sockets.new ≡ false) }
    ensures small { OnOk result (is_large spec ≡ false) }
    ensures ends { IfErr result (λ end. ((is_large spec ≡ true) × (end ≡ World Buffers)) ⊎ (end ≡ Refusal Memory)) }
{
    let socket = socket_of(alloc, spec)?;
    put(sockets, socket)?;
    Ok(())
}

// Puts a socket after the others.
fn put(sockets: &mut SocketSet<Socket>, socket: Socket) -> Result<(), End>
    requires used { free_slot (slots sockets.old) ≡ None }
    requires grows { is_fixed sockets.old ≡ false }
    ensures made { OnOk result (slots sockets.new ≡ slots sockets.old ++ unmarked socket ∷ []) }
    ensures grows { is_fixed sockets.new ≡ false }
    ensures ends { IfErr result (λ end. end ≡ Refusal Memory) }
{
    match sockets.add(socket).ok() {
        Some(_) => Ok(()),
        None => Err(End::Refusal(Refused::Memory)),
    }
}

fn is_same(owner: Side, side: Side) -> bool
    ensures { result ≡ same_side owner side }
{
    match (owner, side) {
        (Side::A, Side::A) | (Side::B, Side::B) => true,
        _ => false,
    }
}

fn socket_of(alloc: Global, spec: SocketSpec) -> Result<Socket, End>
    ensures made { IfOk result (λ socket. socket ≡ socket_of spec) }
    ensures small { OnOk result (is_large spec ≡ false) }
    ensures ends { IfErr result (λ end. ((is_large spec ≡ true) × (end ≡ World Buffers)) ⊎ (end ≡ Refusal Memory)) }
{
    Ok(match spec {
        SocketSpec::Udp(sizes) => {
            let (received, queued) = queues(alloc, sizes)?;
            of_any_kind(alloc, udp::Socket::new(received, queued))?
        }
        SocketSpec::Icmp(sizes) => {
            let (received, queued) = queues(alloc, sizes)?;
            of_any_kind(alloc, icmp::Socket::new(received, queued))?
        }
        SocketSpec::Raw(version, protocol, sizes) => {
            let (received, queued) = queues(alloc, sizes)?;
            let protocol = protocol.map(IpProtocol::from);
            let socket = raw::Socket::new(version, protocol, received, queued);
            of_any_kind(alloc, socket)?
        }
        SocketSpec::Tcp(sizes) => of_any_kind(alloc, stream(alloc, sizes)?)?,
    })
}

// The socket as one of any kind.
fn of_any_kind<K: AnySocket + Drop>(alloc: Global, socket: K) -> Result<Socket, End>
    ensures made { IfOk result (λ any. any ≡ K.upcast_of socket) }
    ensures ends { IfErr result (λ end. end ≡ Refusal Memory) }
{
    match socket.upcast(alloc) {
        Ok(any) => Ok(any),
        Err(_) => Err(End::Refusal(Refused::Memory)),
    }
}

// The queue of what is received, and that of what is to be sent.
fn queues<H: Drop>(
    alloc: Global,
    sizes: QueueSizes,
) -> Result<(PacketBuffer<H>, PacketBuffer<H>), AllocError>
    ensures received { IfOk result (λ made. made.0 ≡ received sizes) }
    ensures queued { IfOk result (λ made. made.1 ≡ queued sizes) }
{
    let received = queue(alloc, sizes.receive_packets, sizes.receive_bytes)?;
    let queued = queue(alloc, sizes.send_packets, sizes.send_bytes)?;
    Ok((received, queued))
}

// A queue of so many entries and bytes.
fn queue<H: Drop>(
    alloc: Global,
    packets: usize,
    bytes: usize,
) -> Result<PacketBuffer<H>, AllocError>
    ensures { IfOk result (λ q. q ≡ queue packets bytes) }
{
    Ok(PacketBuffer::new(
        ManagedSlice::Fixed(entries(alloc, packets)?),
        ManagedSlice::Fixed(vec![in alloc; 0; bytes]?),
    ))
}

// So many free entries.
fn entries<H: Drop>(alloc: Global, count: usize) -> Result<Vec<PacketMetadata<H>>, AllocError>
    ensures { IfOk result (λ entries. length entries.items ≡ count) }
{
    let mut entries = Vec::with_capacity(alloc, count)?;
    for _ in 0..count {
        entries.push(PacketMetadata::EMPTY)?;
    }
    Ok(entries)
}

const MOST_BYTES: usize = 1 << 30;

// A TCP socket, whose buffers hold 2^30 bytes at most.
fn stream(alloc: Global, sizes: StreamSizes) -> Result<tcp::Socket, End>
    ensures made { IfOk result (λ socket. socket ≡ new_socket sizes.receive_bytes (ring [] (replicate sizes.send_bytes 0) 0)) }
    ensures small { OnOk result (is_large (Asks.Tcp sizes) ≡ false) }
    ensures ends { IfErr result (λ end. ((is_large (Asks.Tcp sizes) ≡ true) × (end ≡ World Buffers)) ⊎ (end ≡ Refusal Memory)) }
{
    if sizes.receive_bytes > MOST_BYTES || sizes.send_bytes > MOST_BYTES {
        return Err(End::World(WorldError::Buffers));
    }
    let received = buffer(alloc, sizes.receive_bytes)?;
    let queued = buffer(alloc, sizes.send_bytes)?;
    Ok(tcp::Socket::new(received, queued))
}

fn buffer(alloc: Global, bytes: usize) -> Result<RingBuffer<u8>, AllocError>
    ensures buffer { IfOk result (λ buffer. buffer ≡ ring [] (replicate bytes 0) 0) }
    ensures room { IfOk result (λ buffer. length buffer.queue + length buffer.free ≡ bytes) }
{
    Ok(RingBuffer::new(ManagedSlice::Fixed(vec![in alloc; 0; bytes]?)))
}
