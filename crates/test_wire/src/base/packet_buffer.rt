//! Values from outside: the worked examples of the original crate's tests.
ghost use Rattle.std.specs.Prelude.{◌≡◌, ℕ, List, length, IfOk, OnOk, OnErr, Some};
ghost use Rattle.net_base.specs.Packets.{first, unpadded, without_first};

use crate::cases::{self, Goes, Life, all_live, first_wrong};
use net_base::{Empty, Full, ManagedSlice, PacketBuffer, PacketMetadata, container_laws};
use std::alloc::{AllocError, Global};

fn made(alloc: Global, positions: usize, room: usize) -> Result<PacketBuffer<u16>, AllocError> {
    let entries = vec![in alloc; PacketMetadata::EMPTY; positions]?;
    let bytes = vec![in alloc; 0; room]?;
    Ok(PacketBuffer::new(ManagedSlice::Fixed(entries), ManagedSlice::Fixed(bytes)))
}

fn put(queue: &mut PacketBuffer<u16>, header: u16, bytes: &[u8]) -> bool {
    match queue.enqueue(bytes.len(), header) {
        Ok(room) => {
            room.copy_from_slice(bytes);
            true
        }
        Err(Full) => false,
    }
}

fn gives(queue: &mut PacketBuffer<u16>, header: u16, bytes: &[u8]) -> bool {
    match queue.dequeue() {
        Ok((first, room)) => first == header && &*room == bytes,
        Err(Empty) => false,
    }
}

fn shows(queue: &mut PacketBuffer<u16>, header: u16, bytes: &[u8]) -> bool {
    match queue.peek() {
        Ok((first, room)) => *first == header && room == bytes,
        Err(Empty) => false,
    }
}

fn is_empty(queue: &mut PacketBuffer<u16>) -> bool {
    queue.is_empty() && queue.peek().is_err() && queue.dequeue().is_err()
}

/// What a closure queues that writes three bytes into room for four.
fn writes(queue: &mut PacketBuffer<u16>, header: u16) -> Result<usize, Full> {
    queue.enqueue_with_infallible(4, header, |bytes: &mut [u8]| {
        bytes.copy_from_slice(b"wxyz");
        3
    })
}

/// What a closure queues that copies these bytes, and lets them be queued or not.
fn lets(
    queue: &mut PacketBuffer<u16>,
    header: u16,
    data: &[u8],
    is_kept: bool,
) -> Result<bool, Full> {
    queue.enqueue_if(data.len(), header, |bytes: &mut [u8]| {
        bytes.copy_from_slice(data);
        is_kept
    })
}

/// What a closure says that writes into the first packet and refuses it.
fn refused(queue: &mut PacketBuffer<u16>) -> Result<Result<(), u8>, Empty> {
    queue.dequeue_with(|header: &mut u16, bytes: &mut [u8]| {
        *header = 7;
        if let Some(first) = bytes.first_mut() {
            *first = b'W';
        }
        Err(9)
    })
}

/// The header and the length of the first packet, which a closure takes.
fn given_up(queue: &mut PacketBuffer<u16>) -> Result<Result<(u16, usize), ()>, Empty> {
    queue.dequeue_with(|header: &mut u16, bytes: &mut [u8]| Ok((*header, bytes.len())))
}

/// An offer by `peek`, settled by `discard_first`.
fn offers_and_settles(queue: &mut PacketBuffer<u16>) -> Result<usize, Empty>
    ensures settled { OnOk result (queue.new ≡ without_first queue.old) }
    ensures nothing { OnErr result (queue.new ≡ unpadded queue.old) }
    ensures offered { IfOk result (λ n. (header : ℕ) × (bytes : List ℕ) × (first queue.old ≡ Some (header, bytes)) × (n ≡ length bytes)) }
{
    container_laws::unpadding_keeps_the_packets::<u16>();
    let (_, bytes) = queue.peek()?;
    let size = bytes.len();
    let _ = queue.discard_first()?;
    Ok(size)
}

/// A packet read where it lies.
fn takes(queue: &mut PacketBuffer<u16>, bytes: &[u8]) -> Result<bool, Empty>
    ensures taken { OnOk result (queue.new ≡ without_first queue.old) }
    ensures refused { OnErr result (queue.new ≡ queue.old) }
{
    let taken = queue.take_bytes()?;
    Ok(taken == bytes)
}

/// The first packet's header and length, and what is copied of it into three bytes.
fn copied(queue: &mut PacketBuffer<u16>) -> Result<((u16, usize), [u8; 3]), Empty> {
    let mut slice = [b'.'; 3];
    let first = queue.dequeue_slice(&mut slice)?;
    Ok((first, slice))
}

/// Whether nothing is read, let go or copied.
fn has_none(queue: &mut PacketBuffer<u16>) -> bool {
    takes(queue, b"") == Err(Empty)
        && queue.discard_first() == Err(Empty)
        && copied(queue) == Err(Empty)
}

/// One step of a queue's life, and what it must answer.
enum Step {
    /// A packet of this header and these bytes is queued.
    Puts(u16, &'static [u8]),
    /// There is no room for it.
    Refuses(u16, &'static [u8]),
    /// The first packet is this one, and it stays.
    Shows(u16, &'static [u8]),
    /// The first packet is this one, and it is taken.
    Gives(u16, &'static [u8]),
    /// There is no packet.
    IsEmpty,
    /// Whether no entry is free.
    IsFull(bool),
    /// So many bytes are taken, padding among them.
    Counts(usize),
    /// For so many packets and bytes there are offsets.
    Capacities(usize, usize),
    /// It is emptied.
    Resets,
    /// Of a packet of this header a closure writes the bytes wxy.
    Writes(u16, Result<usize, Full>),
    /// A closure copies these bytes, and a packet of this header and them is queued.
    Lets(u16, &'static [u8]),
    /// A closure copies these bytes, and nothing is queued.
    LetsNot(u16, &'static [u8]),
    /// There is no room for a closure to copy them.
    LetsNone(u16, &'static [u8]),
    /// A closure gives the first packet the header 7 and the first byte W, and refuses it.
    Keeps,
    /// A closure takes the first packet, of this header and length.
    GivesUp(Result<Result<(u16, usize), ()>, Empty>),
    /// A packet of this header and these bytes is copied into the queue.
    Copies(u16, &'static [u8], Result<(), Full>),
    /// The first packet has these bytes, and it is taken.
    Reads(&'static [u8]),
    /// The first packet has this header and length, and begins so.
    Copied(u16, usize, [u8; 3]),
    /// The first packet has this header, and it is let go.
    Discards(u16),
    /// The first packet, of so many bytes, is offered and then let go.
    Settles(usize),
    /// There is nothing to read, to let go or to copy.
    HasNone,
    Prints(&'static str),
}

use Step::{
    Capacities, Copied, Copies, Counts, Discards, Gives, GivesUp, HasNone, IsEmpty, IsFull, Keeps,
    Lets, LetsNone, LetsNot, Prints, Puts, Reads, Refuses, Resets, Settles, Shows, Writes,
};

impl Goes<PacketBuffer<u16>> for Step {
    fn goes(&self, alloc: Global, queue: &mut PacketBuffer<u16>) -> bool {
        match self {
            Puts(header, bytes) => put(queue, *header, bytes),
            Refuses(header, bytes) => !put(queue, *header, bytes),
            Shows(header, bytes) => shows(queue, *header, bytes),
            Gives(header, bytes) => gives(queue, *header, bytes),
            Prints(text) => cases::shows(alloc, queue, text),
            _ => says(queue, self),
        }
    }
}

/// The same of a step that asks for numbers.
fn says(queue: &mut PacketBuffer<u16>, step: &Step) -> bool {
    match step {
        IsEmpty => is_empty(queue),
        IsFull(is_full) => queue.is_full() == *is_full,
        Counts(bytes) => queue.payload_bytes_count() == *bytes,
        Capacities(positions, room) => {
            (queue.packet_capacity(), queue.payload_capacity()) == (*positions, *room)
        }
        Resets => {
            queue.reset();
            true
        }
        _ => runs(queue, step),
    }
}

/// The same of a step that calls a closure.
fn runs(queue: &mut PacketBuffer<u16>, step: &Step) -> bool {
    match step {
        Writes(header, answer) => writes(queue, *header) == *answer,
        Keeps => refused(queue) == Ok(Err(9)),
        GivesUp(answer) => given_up(queue) == *answer,
        Lets(header, bytes) => lets(queue, *header, bytes, true) == Ok(true),
        LetsNot(header, bytes) => lets(queue, *header, bytes, false) == Ok(false),
        LetsNone(header, bytes) => lets(queue, *header, bytes, true) == Err(Full),
        _ => copies(queue, step),
    }
}

/// The same of a step that copies or reads.
fn copies(queue: &mut PacketBuffer<u16>, step: &Step) -> bool {
    match step {
        Copies(header, bytes, answer) => queue.enqueue_slice(*header, bytes) == *answer,
        Reads(bytes) => takes(queue, bytes) == Ok(true),
        Copied(header, size, bytes) => copied(queue) == Ok(((*header, *size), *bytes)),
        Discards(header) => queue.discard_first() == Ok(*header),
        Settles(size) => offers_and_settles(queue) == Ok(*size),
        HasNone => has_none(queue),
        _ => false,
    }
}

/// A queue with so many offsets and room for so many bytes, from its beginning on.
struct Queue(usize, usize, &'static [Step]);

impl Life for Queue {
    fn stops_at(&self, alloc: Global) -> Option<usize> {
        match made(alloc, self.0, self.1) {
            Ok(mut queue) => first_wrong(alloc, &mut queue, self.2),
            Err(AllocError) => Some(0),
        }
    }
}

static LIVES: [Queue; 14] = [
    // Nothing is queued at the beginning.
    Queue(
        2,
        16,
        &[Capacities(2, 16), Resets, IsEmpty, IsFull(false), Counts(0)],
    ),
    // A packet that doesn't fit at the end is padded.
    Queue(
        4,
        16,
        &[
            IsEmpty,
            Puts(1, b"abcdef"),
            Shows(1, b"abcdef"),
            Puts(2, b"12345678"),
            Gives(1, b"abcdef"),
            Puts(3, b"abcd"),
            // Two bytes of padding lie between.
            Counts(14),
            Puts(4, b""),
            IsFull(true),
            Gives(2, b"12345678"),
            Shows(3, b"abcd"),
            Counts(4),
            Gives(3, b"abcd"),
            Gives(4, b""),
            IsEmpty,
            Puts(5, b"abcdefghijklmno"),
            Gives(5, b"abcdefghijklmno"),
            Puts(6, b"0123456789abcdef"),
            Resets,
            IsEmpty,
            Counts(0),
        ],
    ),
    // What has no room is refused.
    Queue(
        2,
        16,
        &[
            Refuses(1, b"0123456789abcdefg"),
            Puts(1, b"abcdef"),
            Refuses(2, b"0123456789a"),
            Puts(2, b"12345678"),
            Refuses(3, b""),
            Gives(1, b"abcdef"),
            // Padding would need an entry of its own.
            Refuses(3, b"abc"),
            Counts(8),
            Puts(3, b"ab"),
            Gives(2, b"12345678"),
            Gives(3, b"ab"),
        ],
    ),
    // What the padding leaves no room for is refused.
    Queue(
        4,
        16,
        &[
            Puts(1, b"abcd"),
            Puts(2, b"12345678"),
            Gives(1, b"abcd"),
            Refuses(3, b"abcdefgh"),
            Refuses(3, b"abcde"),
            Puts(3, b"abcd"),
            Puts(4, b"efgh"),
            Counts(16),
            Gives(2, b"12345678"),
            Gives(3, b"abcd"),
            Gives(4, b"efgh"),
        ],
    ),
    // A queue stays as it was where it refuses.
    Queue(
        2,
        16,
        &[
            Puts(1, b"abcdef"),
            // There is no room for so many bytes, and then no entry.
            Refuses(2, b"0123456789a"),
            Shows(1, b"abcdef"),
            Counts(6),
            Puts(2, b"ghi"),
            Refuses(3, b""),
            Counts(9),
            Gives(1, b"abcdef"),
            Gives(2, b"ghi"),
            IsEmpty,
            Puts(4, b"0123456789abcdef"),
            Gives(4, b"0123456789abcdef"),
            Capacities(2, 16),
        ],
    ),
    // What closures write is queued.
    Queue(
        2,
        4,
        &[
            Writes(3, Ok(3)),
            Writes(4, Err(Full)),
            Counts(3),
            Gives(3, b"wxy"),
            IsEmpty,
        ],
    ),
    // What a closure copies is queued where it says so, after padding too; else the queue stays as it was.
    Queue(
        4,
        16,
        &[
            Lets(1, b"abcdef"),
            LetsNot(2, b"12345678"),
            Counts(6),
            Lets(2, b"12345678"),
            Gives(1, b"abcdef"),
            LetsNot(3, b"abcd"),
            Counts(8),
            LetsNone(3, b"abcdefg"),
            Lets(3, b"abcd"),
            Counts(14),
            Gives(2, b"12345678"),
            LetsNot(4, b"xyz"),
            Gives(3, b"abcd"),
            IsEmpty,
        ],
    ),
    // An empty queue begins at the storage's first place where something is queued, and only then.
    Queue(
        2,
        8,
        &[
            Puts(1, b"abcde"),
            Gives(1, b"abcde"),
            LetsNot(2, b"12345678"),
            IsEmpty,
            LetsNone(2, b"123456789"),
            Lets(2, b"12345678"),
            Lets(3, b""),
            LetsNone(4, b""),
            Gives(2, b"12345678"),
            Gives(3, b""),
            HasNone,
        ],
    ),
    // What a closure refused is kept. The first packet has two bytes of padding before it.
    Queue(
        4,
        16,
        &[
            Puts(1, b"abcdef"),
            Puts(2, b"12345678"),
            Gives(1, b"abcdef"),
            Puts(3, b"wxy"),
            Gives(2, b"12345678"),
            Counts(5),
            Keeps,
            Counts(3),
            Shows(7, b"Wxy"),
        ],
    ),
    // What a closure took is given up. The first packet has two bytes of padding before it.
    Queue(
        4,
        16,
        &[
            Puts(1, b"abcdef"),
            Puts(2, b"12345678"),
            Gives(1, b"abcdef"),
            Puts(3, b"wxy"),
            Gives(2, b"12345678"),
            Counts(5),
            GivesUp(Ok(Ok((3, 3)))),
            IsEmpty,
            GivesUp(Err(Empty)),
        ],
    ),
    // Packets are read where they lie.
    Queue(
        4,
        8,
        &[
            Copies(1, b"abcde", Ok(())),
            Copies(2, b"fg", Ok(())),
            Reads(b"abcde"),
            // One byte of padding comes before it.
            Copies(3, b"hij", Ok(())),
            Counts(6),
            Reads(b"fg"),
            Reads(b"hij"),
            Counts(0),
        ],
    ),
    // Packets are copied.
    Queue(
        3,
        8,
        &[
            Copies(1, b"abcde", Ok(())),
            Copies(2, b"fghi", Err(Full)),
            Copies(2, b"fg", Ok(())),
            Copied(1, 5, *b"abc"),
            Copies(3, b"hij", Ok(())),
            Counts(6),
            Copied(2, 2, *b"fg."),
            Copies(4, b"kl", Ok(())),
            Discards(3),
            Settles(2),
            Counts(0),
        ],
    ),
    // An empty queue has nothing to read.
    Queue(4, 8, &[HasNone]),
    Queue(
        1,
        2,
        &[
            Puts(7, b"a"),
            Prints(concat!(
                "PacketBuffer { metadata: RingBuffer { storage: [PacketMetadata { size: 1, header: Some(7) }], read_at: 0, length: 1 }, ",
                "payload: RingBuffer { storage: [97, 0], read_at: 0, length: 1 } }"
            )),
        ],
    ),
];

#[test]
fn queues_live(rt: HostRuntime) {
    all_live(&rt, &LIVES);
}
