//! A ring of bytes and a queue of packets, in storage that is handed in once.
ghost use Rattle.std.specs.Prelude.{◌≡◌, ◌++◌, length, min, take, drop, IfOk, OnErr};

use net_base::{ManagedSlice, PacketBuffer, PacketMetadata, RingBuffer};
use std::alloc::{AllocError, Global};

/// Sends a text through a ring of `capacity` bytes, and reads back as much of it as fits `front`.
/// Returns how many bytes that is.
pub fn through_a_ring(
    alloc: Global,
    capacity: usize,
    text: &[u8],
    front: &mut [u8],
) -> Result<usize, AllocError>
    ensures count { IfOk result (λ n. n ≡ min (length front.old) (min (length text.now) capacity)) }
    ensures read { IfOk result (λ n. front.new ≡ take n text.now ++ drop n front.old) }
    ensures unchanged { OnErr result (front.new ≡ front.old) }
{
    let mut ring = RingBuffer::new(ManagedSlice::Fixed(vec![in alloc; 0; capacity]?));
    ring.enqueue_slice(text);
    Ok(ring.dequeue_slice(front))
}
