//! What takes the bytes of frames that are watched.
ghost use Rattle.std.specs.Prelude.{◌≡◌, ℕ, List, [], ◌++◌, if◌then◌else◌, nat_le, length, take, drop, min};
ghost use Rattle.base_buffer.specs.ManagedSlice.{storage_items};

use base_buffer::{ManagedSlice, RingBuffer};
use std::alloc::Global;
use std::marker::Model;

/// What takes the bytes of frames that are watched.
pub trait Sink {
    /// all that was put and not yet read, the oldest first
    ghost taken: { Self → List ℕ };

    /// Takes all of it, or nothing. Whether it did.
    fn put(&mut self, bytes: &[u8]) -> bool
        ensures { taken self.new ≡ if result then taken self.old ++ bytes.now else taken self.old };
}

/// A sink in memory that was handed in: what is put waits until it is read. A contract sees the bytes that wait, and how many
/// more there is room for.
#[derive(Drop)]
pub struct RingSink {
    ring: RingBuffer<u8>,
}

impl Model for RingSink {
    ghost use Rattle.std.specs.Prelude.{length};
    ghost use Rattle.base_wrappers.specs.Sink.{Waiting};

    ghost Value = { Waiting };

    ghost view = { λ s. record { bytes = s.ring.queue; room = length s.ring.free } };
}

impl RingSink {
    /// A sink over this memory, with nothing in it.
    pub fn new(storage: ManagedSlice<u8>) -> RingSink
        ensures { result ≡ record { bytes = []; room = length (storage_items storage) } }
    {
        RingSink {
            ring: RingBuffer::new(storage),
        }
    }

    /// Moves the oldest bytes that wait to the front of the slice. How many they are.
    pub fn read(&mut self, out: &mut [u8]) -> usize
        ensures count { result ≡ min (length out.old) (length self.old.bytes) }
        ensures read { out.new ≡ take result self.old.bytes ++ drop result out.old }
        ensures rest { self.new.bytes ≡ drop result self.old.bytes }
    {
        self.ring.dequeue_slice(out)
    }
}

impl Sink for RingSink {
    ghost taken = { λ s. s.bytes };

    fn put(&mut self, bytes: &[u8]) -> bool
        ensures taken { self.new.bytes ≡ if result then self.old.bytes ++ bytes.now else self.old.bytes }
        ensures room { result ≡ nat_le (length bytes.now) self.old.room }
    {
        if self.ring.window() < bytes.len() {
            return false;
        }
        self.ring.enqueue_slice(bytes);
        true
    }
}

/// A sink that takes memory for what is put. A contract sees the bytes.
#[derive(Debug, Drop)]
pub struct VecSink {
    bytes: Vec<u8>,
}

impl Model for VecSink {
    ghost Value = { List ℕ };

    ghost view = { λ s. s.bytes.items };
}

impl VecSink {
    /// A sink with nothing in it. It allocates nothing: `alloc` serves later calls.
    pub fn new(alloc: Global) -> VecSink
        ensures { result ≡ [] }
    {
        VecSink {
            bytes: Vec::new(alloc),
        }
    }

    /// What was put.
    pub fn bytes(&self) -> &[u8]
        ensures { result.now ≡ self.now }
    {
        self.bytes.as_slice()
    }
}

impl Sink for VecSink {
    ghost taken = { λ s. s };

    fn put(&mut self, bytes: &[u8]) -> bool {
        self.bytes.extend_from_slice(bytes).is_ok()
    }
}
