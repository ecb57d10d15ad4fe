//! Buffers of sockets.
ghost use Rattle.std.specs.Prelude.{◌≡◌, ◌≢◌, [], replicate, IfSome, Some};
ghost use Rattle.net_base.specs.Packets.{packets_in};
ghost use Rattle.net_base.specs.Ring.{ring};
ghost use Rattle.c_calls.specs.Streams.{limit_of};

use net_base::{ManagedSlice, PacketBuffer, PacketMetadata, RingBuffer};
use std::alloc::Global;

/// Two queues, each of so many packets, of so many bytes together: what came, and what is to go.
pub fn queues<H: Drop>(
    alloc: Global,
    packets: usize,
    bytes: usize,
) -> Option<(PacketBuffer<H>, PacketBuffer<H>)>
    ensures { IfSome result (λ made. (made.0 ≡ packets_in [] 0 packets bytes) × (made.1 ≡ packets_in [] 0 packets bytes)) }
{
    let received = queue(alloc, packets, bytes)?;
    let queued = queue(alloc, packets, bytes)?;
    Some((received, queued))
}

/// A queue of so many packets, of so many bytes together.
fn queue<H: Drop>(alloc: Global, packets: usize, bytes: usize) -> Option<PacketBuffer<H>>
    ensures { IfSome result (λ queue. queue ≡ packets_in [] 0 packets bytes) }
{
    let mut slots = Vec::with_capacity(alloc, packets).ok()?;
    for _ in 0..packets {
        slots.push(PacketMetadata::EMPTY).ok()?;
    }
    let bytes = Vec::from_elem(alloc, 0, bytes).ok()?;
    Some(PacketBuffer::new(ManagedSlice::Fixed(slots), ManagedSlice::Fixed(bytes)))
}

/// Two rings of so many bytes: what came, and what is to go.
pub fn rings(
    alloc: Global,
    received: usize,
    queued: usize,
) -> Option<(RingBuffer<u8>, RingBuffer<u8>)>
    ensures { IfSome result (λ made. (made.0 ≡ ring [] (replicate received 0) 0) × (made.1 ≡ ring [] (replicate queued 0) 0)) }
{
    let received = ring(alloc, received)?;
    let queued = ring(alloc, queued)?;
    Some((received, queued))
}

/// A ring of so many bytes.
fn ring(alloc: Global, bytes: usize) -> Option<RingBuffer<u8>>
    ensures { IfSome result (λ made. made ≡ ring [] (replicate bytes 0) 0) }
{
    let bytes = Vec::from_elem(alloc, 0u8, bytes).ok()?;
    Some(RingBuffer::new(ManagedSlice::Fixed(bytes)))
}

/// The hop limit, none where it is 0.
pub(crate) fn limit_of(limit: u8) -> Option<u8>
    ensures value { result ≡ limit_of limit }
    ensures some { result ≢ Some 0 }
{
    if limit == 0 { None } else { Some(limit) }
}
