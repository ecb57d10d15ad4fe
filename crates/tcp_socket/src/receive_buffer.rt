//! The receive buffer of a socket.
ghost use Rattle.std.specs.Prelude.{◌≡◌, ℕ, ◌==◌, ◌↔◌, ◌+◌, ◌≤◌, ◌<◌, ◌^◌, ◌++◌, not, IsTrue, is_ok, is_some, IfOk, IfSome, OnErr, OnSome, None, length, take, drop, min, []};
ghost use Rattle.std.specs.Fn.{FnOnceTakesAt, FnOnceReturnsAt};
ghost use Rattle.tcp_socket.specs.Receive.{most_bytes, FitsBuffer, in_order, can_hold, early, unbroken, lent};
ghost use Rattle.tcp_socket.specs.FastPath.{IsStoredAs};
ghost use Rattle.tcp_block.specs.Value.{received_of, room_of, emptied};
ghost use Rattle.tcp_block.specs.Calls.{read_from};
ghost use Rattle.tcp_block.specs.Answers.{run_at, others, first_two};
ghost use Rattle.tcp_ranges.specs.ReceiveMap.{space, store, front};
ghost use Rattle.tcp_ranges.specs.OutOfOrder.{runs_of};
ghost use Rattle.ip_wire.specs.Sum.{word_sum, folded};
ghost use Rattle.net_base.specs.Ring.{overwritten, unbroken_free};

use crate::fast_path::NotInFastPath;
use ip_wire::checksum;
use net_base::{Assembler, RingBuffer, TooManyHolesError};
use std::marker::Model;

/// The most bytes that a buffer may hold: the largest window that a shift of 14 can say (RFC 7323, 2.3).
const MOST_BYTES: usize = 1 << 30;

/// What came to a socket. Bytes that came in order wait in the ring. Those that came out of order
/// lie in its free offsets, and the assembler keeps which.
#[derive(Debug, Drop)]
pub struct ReceiveBuffer {
    ring: RingBuffer<u8>,
    held: Assembler<32>,
}

impl Model for ReceiveBuffer {
    ghost use Rattle.tcp_socket.specs.Receive.{received, IsHeldBy};
    ghost use Rattle.tcp_block.specs.Value.{Received};

    ghost Value = { Received };

    ghost view = { λ b. received b.ring b.held };

    ghost invariant = { λ b. IsHeldBy b.ring b.held };
}

impl ReceiveBuffer {
    /// Whether a buffer can be made of this ring: it has room for at most 2^30 bytes.
    pub fn fits_buffer(ring: &RingBuffer<u8>) -> bool
        ensures { IsTrue result ↔ FitsBuffer ring.now }
    {
        ring.capacity() <= MOST_BYTES
    }

    /// A buffer over the ring, with nothing in it. What the ring holds is forgotten.
    pub fn new(mut ring: RingBuffer<u8>) -> ReceiveBuffer
        requires { FitsBuffer ring }
        ensures { result ≡ received_of [] (space (length ring.queue + length ring.free)) 0 }
    {
        ring.clear();
        ReceiveBuffer {
            ring,
            held: Assembler::new(),
        }
    }

    /// Forgets all bytes.
    pub fn clear(&mut self)
        ensures { self.new ≡ emptied self.old }
    {
        self.ring.clear();
        self.held.clear();
    }

    /// How many bytes there is room for in all.
    pub fn capacity(&self) -> usize
        ensures value { result ≡ room_of self.now }
        ensures small { result ≤ most_bytes }
    {
        self.ring.capacity()
    }

    /// How many bytes wait to be read.
    pub fn len(&self) -> usize
        ensures { result ≡ length self.now.waiting }
    {
        self.ring.len()
    }

    /// How many bytes there is room for after those that wait.
    pub fn window(&self) -> usize
        ensures value { result ≡ length self.now.map }
        ensures small { result ≤ most_bytes }
    {
        self.ring.window()
    }

    /// The waiting bytes from the offset on, at most `size` and up to the end of the storage.
    pub fn get(&self, offset: usize, size: usize) -> &[u8]
        ensures { result.now ≡ take (unbroken self.now offset size) (drop offset self.now.waiting) }
    {
        self.ring.get_allocated(offset, size)
    }

    /// Copies waiting bytes into the slice, and returns how many.
    pub fn read(&self, slice: &mut [u8]) -> usize
        ensures count { result ≡ min (length slice.old) (length self.now.waiting) }
        ensures read { slice.new ≡ take result self.now.waiting ++ drop result slice.old }
    {
        self.ring.read_allocated(0, slice)
    }

    /// Gives up the first waiting bytes.
    pub fn release(&mut self, count: usize)
        requires { count ≤ length self.old.waiting }
        ensures { self.new ≡ read_from self.old count }
    {
        self.ring.dequeue_allocated(count);
    }

    /// Lends the waiting bytes, as many as lie after one another, and gives up as many as `f` answers. The
    /// other value of its answer is passed on.
    pub(crate) fn read_with<R, F: FnOnce(&[u8]) -> (usize, R)>(&mut self, f: F) -> R
        requires callable { FnOnceTakesAt F.FnOnce f (lent self.old) }
        requires within { (answer : _) → FnOnceReturnsAt F.FnOnce f (lent self.old) answer → answer.0 ≤ length (lent self.old) }
        ensures { (count : ℕ) × FnOnceReturnsAt F.FnOnce f (lent self.old) (record { 0 = count; 1 = result }) × (self.new ≡ read_from self.old count) }
    {
        let (count, answer) = f(self.get(0, self.len()));
        self.release(count);
        answer
    }

    /// Takes bytes that come in order, and returns how many can be read then: these, and those held
    /// that follow without a gap.
    pub fn store(&mut self, bytes: &[u8]) -> usize
        requires { length bytes.now ≤ length self.old.map }
        ensures count { result ≡ length (front (store self.old.map 0 bytes.now)) }
        ensures stored { self.new ≡ in_order self.old bytes.now }
    {
        self.ring.write_unallocated(0, bytes);
        let count = self.held.add_then_remove_front(0, bytes.len()).unwrap_or(0);
        self.ring.enqueue_unallocated(count);
        count
    }

    /// Takes bytes that come in order, as `store` does, where nothing is held and the checksum over them and all else, whose sum is
    /// `rest`, holds. Else nothing changes. They are summed as they are copied.
    pub(crate) fn store_summed(&mut self, bytes: &[u8], rest: u16) -> Option<usize>
        requires fits { length bytes.now ≤ length self.old.map }
        requires nothing_held { length (runs_of self.old.map) ≡ 0 }
        ensures sum { is_some result ≡ (folded (rest + word_sum bytes.now) == 65535) }
        ensures count { IfSome result (λ n. n ≡ length (front (store self.old.map 0 bytes.now))) }
        ensures small { IfSome result (λ n. n ≤ most_bytes) }
        ensures stored { OnSome result (self.new ≡ in_order self.old bytes.now) }
        ensures refused { result ≡ None → self.new ≡ self.old }
    {
        let sum = copy_summed(&mut self.ring, bytes);
        if checksum::add(rest, sum) != 0xffff {
            return None;
        }
        let count = self.held.add_then_remove_front(0, bytes.len()).unwrap_or(0);
        self.ring.enqueue_unallocated(count);
        Some(count)
    }

    /// The same of the payload of a segment, which may be none: then nothing is stored, and the checksum is looked at alone.
    pub(crate) fn store_tested(
        &mut self,
        bytes: &[u8],
        rest: u16,
    ) -> Result<Option<usize>, NotInFastPath>
        requires fits { length bytes.now ≤ length self.old.map }
        requires nothing_held { length (runs_of self.old.map) ≡ 0 }
        ensures sum { is_ok result ≡ (folded (rest + word_sum bytes.now) == 65535) }
        ensures stored { IfOk result (λ s. IsStoredAs s self.old bytes.now self.new) }
        ensures refused { OnErr result (self.new ≡ self.old) }
    {
        if bytes.is_empty() {
            return if checksum::add(rest, 0) == 0xffff {
                Ok(None)
            } else {
                Err(NotInFastPath)
            };
        }
        match self.store_summed(bytes, rest) {
            Some(count) => Ok(Some(count)),
            None => Err(NotInFastPath),
        }
    }

    /// Holds bytes that come so far past the next in order, where not too many runs are held with
    /// them. Else nothing changes.
    pub fn hold(&mut self, past: usize, bytes: &[u8]) -> Result<(), TooManyHolesError>
        requires past { 1 ≤ past }
        requires fits { past + length bytes.now ≤ length self.old.map }
        ensures held { is_ok result ≡ can_hold self.old past bytes.now }
        ensures early { self.new ≡ early self.old past bytes.now }
    {
        self.held.add(past, bytes.len())?;
        self.ring.write_unallocated(past, bytes);
        Ok(())
    }

    /// Whether bytes are held out of order.
    pub fn has_out_of_order(&self) -> bool
        ensures { result ≡ not (length (runs_of self.now.map) == 0) }
    {
        !self.held.is_empty()
    }

    /// The run of held bytes with this offset, from its first offset to the one after its last.
    pub fn run_at(&self, offset: usize) -> Option<(usize, usize)>
        ensures { result ≡ run_at (runs_of self.now.map) offset }
    {
        run_at(&self.held, offset)
    }

    /// Of the runs without this offset the two highest, the highest first.
    pub fn others_than(&self, offset: usize) -> [Option<(usize, usize)>; 2]
        ensures { result ≡ first_two (others offset (runs_of self.now.map)) }
    {
        others_than(&self.held, offset)
    }
}

/// Copies bytes over the first free ones, which may go round the end of the storage, and answers their sum. It goes over them once,
/// and queues nothing.
fn copy_summed(ring: &mut RingBuffer<u8>, bytes: &[u8]) -> u16
    requires fits { length bytes.now ≤ length ring.old.free }
    requires small { length bytes.now < 2 ^ 32 }
    ensures copied { ring.new ≡ overwritten ring.old 0 bytes.now }
    ensures sum { result ≡ folded (word_sum bytes.now) }
{
    let first = bytes.len().min(ring.contiguous_window());
    let front = copy_unbroken(ring, 0, &bytes[..first]);
    if first == bytes.len() {
        return front;
    }
    let back = copy_unbroken(ring, first, &bytes[first..]);
    checksum::join(front, first, back)
}

/// The same of bytes from an offset on, whose offsets lie after one another.
#[inline(always)]
fn copy_unbroken(ring: &mut RingBuffer<u8>, offset: usize, bytes: &[u8]) -> u16
    requires unbroken { unbroken_free ring.old offset (length bytes.now) ≡ length bytes.now }
    requires small { length bytes.now < 2 ^ 32 }
    ensures copied { ring.new ≡ overwritten ring.old offset bytes.now }
    ensures sum { result ≡ folded (word_sum bytes.now) }
{
    checksum::copy(ring.get_unallocated(offset, bytes.len()), bytes)
}

/// The run with this offset.
fn run_at(held: &Assembler<32>, offset: usize) -> Option<(usize, usize)>
    ensures { result ≡ run_at held.now offset }
{
    for (start, end) in held.iter_data() {
        if start <= offset && offset < end {
            return Some((start, end));
        }
    }
    None
}

/// The two highest runs without this offset, the highest first.
#[tactic(auto, using(crate::proofs::Others::told_is))]
fn others_than(held: &Assembler<32>, offset: usize) -> [Option<(usize, usize)>; 2]
    ensures { result ≡ first_two (others offset held.now) }
{
    let (mut highest, mut second) = (None, None);
    for (start, end) in held.iter_data() {
        let is_met = start <= offset && offset < end;
        if !is_met {
            second = highest;
            highest = Some((start, end));
        }
    }
    [highest, second]
}
