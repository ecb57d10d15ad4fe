//! Values from outside: the worked examples of the original crate's tests.
use crate::cases::{self, Goes, Life, all, all_live, first_wrong};
use net_base::{Empty, Full, ManagedSlice, Resettable, RingBuffer};
use std::alloc::Global;

/// A call of a ring, and what it must answer.
enum Step {
    /// These bytes are queued: of them so many fit.
    Queues(&'static [u8], usize),
    /// Eight bytes are copied out, and these.
    CopiesOut(&'static [u8; 8]),
    /// Whether it is full, and whether it is empty.
    IsFull(bool, bool),
    HasCapacity(usize),
    HasLength(usize),
    /// For so many bytes there is room, and for so many of them in one fragment.
    HasRoom(usize, usize),
    /// These bytes are written ahead, from this offset on: so many of them fit.
    WritesAhead(usize, &'static [u8], usize),
    /// So many that were written ahead are taken over.
    TakesOver(usize),
    /// So many are let go.
    LetsGo(usize),
    /// After so many, at most so many bytes are these.
    Holds(usize, usize, &'static [u8]),
    /// The same of what was written ahead.
    HoldsAhead(usize, usize, &'static [u8]),
    /// After so many, four offsets 0 are filled with so many bytes, and are these.
    Reads(usize, usize, &'static [u8; 4]),
    /// Three bytes are written into a part that it lends.
    WritesThree,
    /// It lends at most so many bytes and lets them go: these.
    Lends(usize, &'static [u8]),
    /// The first element is taken.
    Takes(Result<u8, Empty>),
    /// An element is added.
    Adds(u8, Result<(), Full>),
    Clears,
    /// A closure writes two bytes where there is room for so many.
    WritesTwo(usize),
    /// A closure writes an element and refuses it.
    Refuses,
    /// A closure takes the first element, and another one all: of so many.
    Gives(u8, usize),
    Prints(&'static str),
}

use Step::{
    Adds, Clears, CopiesOut, Gives, HasCapacity, HasLength, HasRoom, Holds, HoldsAhead, IsFull,
    Lends, LetsGo, Prints, Queues, Reads, Refuses, Takes, TakesOver, WritesAhead, WritesThree,
    WritesTwo,
};

impl Goes<RingBuffer<u8>> for Step {
    fn goes(&self, alloc: Global, ring: &mut RingBuffer<u8>) -> bool {
        match self {
            Queues(bytes, count) => ring.enqueue_slice(bytes) == *count,
            CopiesOut(bytes) => copies_out(ring, bytes),
            Adds(element, answer) => adds(ring, *element) == *answer,
            Takes(answer) => taken(ring) == *answer,
            Prints(text) => cases::shows(alloc, ring, text),
            _ => says(ring, self) || writes(ring, self) || lends(ring, self),
        }
    }
}

/// Whether the step is one that asks, and goes as it says.
fn says(ring: &RingBuffer<u8>, step: &Step) -> bool {
    match step {
        IsFull(is_full, is_empty) => (ring.is_full(), ring.is_empty()) == (*is_full, *is_empty),
        HasCapacity(count) => ring.capacity() == *count,
        HasLength(count) => ring.len() == *count,
        HasRoom(all, part) => (ring.window(), ring.contiguous_window()) == (*all, *part),
        Holds(offset, size, bytes) => ring.get_allocated(*offset, *size) == *bytes,
        Reads(offset, count, bytes) => reads(ring, *offset, *count, bytes),
        _ => false,
    }
}

/// Whether the step is one of what is written ahead, and goes as it says.
fn writes(ring: &mut RingBuffer<u8>, step: &Step) -> bool {
    match step {
        WritesAhead(offset, bytes, count) => ring.write_unallocated(*offset, bytes) == *count,
        HoldsAhead(offset, size, bytes) => holds_ahead(ring, *offset, *size, bytes),
        TakesOver(count) => takes_over(ring, *count),
        LetsGo(count) => lets_go(ring, *count),
        Clears => {
            ring.clear();
            true
        }
        _ => false,
    }
}

/// Whether the step is one that lends, or that calls a closure, and goes as it says.
fn lends(ring: &mut RingBuffer<u8>, step: &Step) -> bool {
    match step {
        WritesThree => writes_three(ring),
        Lends(size, bytes) => lends_part(ring, *size, bytes),
        WritesTwo(room) => writes_two(ring) == (2, *room),
        Refuses => writes_and_refuses(ring) == Ok(Err(7)),
        Gives(first, rest) => {
            gives_one(ring) == Ok(Ok(*first)) && gives_all(ring) == (*rest, *rest)
        }
        _ => false,
    }
}

/// Whether eight bytes are copied out, and these.
fn copies_out(ring: &mut RingBuffer<u8>, bytes: &[u8; 8]) -> bool {
    let mut eight = [0; 8];
    ring.dequeue_slice(&mut eight) == 8 && eight == *bytes
}

/// Whether four offsets are filled with so many bytes, and are these.
fn reads(ring: &RingBuffer<u8>, offset: usize, count: usize, bytes: &[u8; 4]) -> bool {
    let mut four = [0; 4];
    ring.read_allocated(offset, &mut four) == count && four == *bytes
}

fn takes_over(ring: &mut RingBuffer<u8>, count: usize) -> bool {
    if count <= ring.window() {
        ring.enqueue_unallocated(count);
        true
    } else {
        false
    }
}

fn lets_go(ring: &mut RingBuffer<u8>, count: usize) -> bool {
    if count <= ring.len() {
        ring.dequeue_allocated(count);
        true
    } else {
        false
    }
}

/// Whether these bytes were written ahead.
fn holds_ahead(ring: &mut RingBuffer<u8>, offset: usize, size: usize, bytes: &[u8]) -> bool {
    let part = ring.get_unallocated(offset, size);
    &*part == bytes
}

/// Whether these bytes are lent, and let go.
fn lends_part(ring: &mut RingBuffer<u8>, size: usize, bytes: &[u8]) -> bool {
    let part = ring.dequeue_many(size);
    &*part == bytes
}

/// Writes three bytes into a part that the ring lends.
fn writes_three(ring: &mut RingBuffer<u8>) -> bool {
    let part = ring.enqueue_many(3);
    if part.len() == 3 {
        part.copy_from_slice(b"abc");
        true
    } else {
        false
    }
}

/// The first element, taken.
fn taken(ring: &mut RingBuffer<u8>) -> Result<u8, Empty> {
    match ring.dequeue_one() {
        Ok(first) => Ok(*first),
        Err(Empty) => Err(Empty),
    }
}

/// Adds an element by the offset that the ring lends.
fn adds(ring: &mut RingBuffer<u8>, element: u8) -> Result<(), Full> {
    match ring.enqueue_one() {
        Ok(offset) => {
            *offset = element;
            Ok(())
        }
        Err(Full) => Err(Full),
    }
}

/// How many bytes a closure wrote, and for how many it had room.
fn writes_two(ring: &mut RingBuffer<u8>) -> (usize, usize) {
    ring.enqueue_many_with(|part: &mut [u8]| {
        let room = part.len();
        if room > 1 {
            part[0] = b'a';
            part[1] = b'b';
            (2, room)
        } else {
            (0, room)
        }
    })
}

/// What a closure says that writes an element and refuses it.
fn writes_and_refuses(ring: &mut RingBuffer<u8>) -> Result<Result<(), u8>, Full> {
    ring.enqueue_one_with(|x: &mut u8| {
        *x = b'c';
        Err(7)
    })
}

/// The first element, which a closure takes.
fn gives_one(ring: &mut RingBuffer<u8>) -> Result<Result<u8, ()>, Empty> {
    ring.dequeue_one_with(|x: &mut u8| Ok(*x))
}

/// How many elements a closure took, and how many it saw.
fn gives_all(ring: &mut RingBuffer<u8>) -> (usize, usize) {
    ring.dequeue_many_with(|part: &mut [u8]| {
        let seen = part.len();
        (seen, seen)
    })
}

/// A ring of so many offsets, from its beginning on.
struct Ring(usize, &'static [Step]);

impl Life for Ring {
    fn stops_at(&self, alloc: Global) -> Option<usize> {
        match vec![in alloc; 0; self.0] {
            Ok(bytes) => first_wrong(
                alloc,
                &mut RingBuffer::new(ManagedSlice::Fixed(bytes)),
                self.1,
            ),
            Err(_) => Some(0),
        }
    }
}

static LIVES: [Ring; 7] = [
    // Bytes are copied round the end.
    Ring(
        12,
        &[
            Queues(b"abcdefghijkl", 12),
            IsFull(true, false),
            CopiesOut(b"abcdefgh"),
            Queues(b"abcd", 4),
            CopiesOut(b"ijklabcd"),
            IsFull(false, true),
            HasCapacity(12),
        ],
    ),
    // What was written ahead is taken over.
    Ring(
        12,
        &[
            WritesAhead(6, b"ghi", 3),
            WritesAhead(0, b"abcdef", 6),
            IsFull(false, true),
            HasRoom(12, 12),
            TakesOver(9),
            Holds(0, 20, b"abcdefghi"),
            Reads(7, 2, b"hi\0\0"),
            HasLength(9),
            // It is written ahead round the end.
            LetsGo(8),
            HasRoom(11, 3),
            WritesAhead(0, b"0123456789abcde", 11),
            HoldsAhead(3, 20, b"3456789a"),
        ],
    ),
    // Parts are lent.
    Ring(
        4,
        &[
            WritesThree,
            Lends(2, b"ab"),
            Queues(b"def", 3),
            Lends(8, b"cd"),
        ],
    ),
    // Elements are lent.
    Ring(
        2,
        &[
            Takes(Err(Empty)),
            Adds(b'y', Ok(())),
            Adds(b'z', Ok(())),
            Adds(b'!', Err(Full)),
            Takes(Ok(b'y')),
            Holds(0, 1, b"z"),
        ],
    ),
    // A cleared ring is empty.
    Ring(4, &[Queues(b"def", 3), Clears, Takes(Err(Empty))]),
    // Closures are called.
    Ring(
        4,
        &[
            WritesTwo(4),
            Refuses,
            HasLength(2),
            HoldsAhead(0, 1, b"c"),
            Gives(b'a', 1),
            IsFull(false, true),
        ],
    ),
    Ring(
        3,
        &[
            Queues(b"ab", 2),
            Prints("RingBuffer { storage: [97, 98, 0], read_at: 0, length: 2 }"),
        ],
    ),
];

#[test]
fn rings_live(rt: HostRuntime) {
    all_live(&rt, &LIVES);
}

/// An element that counts what it was given.
#[derive(Clone, Copy, PartialEq)]
struct Counter {
    count: u8,
}

impl Resettable for Counter {
    ghost reset_to = { λ _. record { count = 0 } };

    fn reset(&mut self) {
        self.count = 0;
    }
}

fn reset_all<T: Resettable>(ring: &mut RingBuffer<T>) {
    ring.reset();
}

/// How many of the counters are queued, and whether all are reset after that, of a ring that is empty.
fn resets(alloc: Global) -> Option<(usize, bool)> {
    let counters = vec![in alloc; Counter { count: 7 }; 3].ok()?;
    let mut ring = RingBuffer::new(ManagedSlice::Fixed(counters));
    Some(counted(&mut ring))
}

fn counted(ring: &mut RingBuffer<Counter>) -> (usize, bool) {
    let count = ring.enqueue_slice(&[Counter { count: 1 }]);
    reset_all(ring);
    let are_reset = &*ring.get_unallocated(0, 3) == [Counter { count: 0 }; 3].as_slice();
    (count, are_reset && ring.is_empty())
}

/// The length of storage that may grow, and whether it is empty or holds 1 and 2.
fn grows(alloc: Global) -> Option<(usize, bool, bool)> {
    let bytes = vec![in alloc; 1, 2].ok()?;
    let storage: ManagedSlice<u8> = ManagedSlice::Owned(bytes);
    Some(said(&storage))
}

fn said(storage: &ManagedSlice<u8>) -> (usize, bool, bool) {
    (
        storage.len(),
        storage.is_empty(),
        storage.as_slice() == [1, 2].as_slice(),
    )
}

#[test]
fn elements_are_reset_and_storage_may_grow(rt: HostRuntime) {
    all(
        &rt,
        &[
            resets(rt.alloc()) == Some((1, true)),
            grows(rt.alloc()) == Some((2, false, true)),
        ],
    );
}
