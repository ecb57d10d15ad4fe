//! Tests of datagrams that are put together from fragments.
use crate::cases::{Goes, Life, all_live, first_wrong};
use iface_tables::{AssemblerError, FragKey, Ipv6FragKey, PacketAssembler, PacketAssemblerSet};
use ip_wire::{IpProtocol, Ipv4Address, Ipv4FragKey, Ipv6Address};
use net_base::Instant;
use std::alloc::Global;

type Assembler = PacketAssembler<u8, 16, 4>;

type Answer = Result<(), AssemblerError>;

/// A call of a slot, and what it must answer.
enum Step {
    /// Bytes come, from this slot on.
    Adds(&'static [u8], usize, Answer),
    /// The same, and more is to come after them, or not.
    Inserts(&'static [u8], usize, bool),
    HasSize(usize, Answer),
    IsComplete(bool),
    Completed(Option<&'static [u8]>),
    /// Whether bytes in two parts would overlap what came, from this slot on.
    Overlaps(&'static [u8], &'static [u8], usize, bool),
    Resets,
}

use Step::{Adds, Completed, HasSize, Inserts, IsComplete, Overlaps, Resets};

impl Goes<Assembler> for Step {
    fn goes(&self, _alloc: Global, packet: &mut Assembler) -> bool {
        match self {
            Adds(bytes, at, answer) => packet.add(bytes, *at) == *answer,
            Inserts(bytes, at, more) => packet.insert(bytes, *at, *more).is_ok(),
            HasSize(size, answer) => packet.set_total_size(*size) == *answer,
            _ => says(packet, self),
        }
    }
}

/// Whether the bytes are these, or both are none.
fn is_same(found: Option<&[u8]>, wanted: Option<&[u8]>) -> bool {
    match (found, wanted) {
        (Some(found), Some(wanted)) => found == wanted,
        (None, None) => true,
        _ => false,
    }
}

/// The same of a step that asks, or resets.
fn says(packet: &mut Assembler, step: &Step) -> bool {
    match step {
        IsComplete(answer) => packet.is_complete() == *answer,
        Completed(bytes) => is_same(packet.completed(), *bytes),
        Overlaps(front, bytes, at, answer) => {
            front.len() <= 4
                && bytes.len() <= 4
                && *at <= 8
                && packet.overlaps(front, bytes, *at) == *answer
        }
        Resets => {
            packet.reset();
            true
        }
        _ => false,
    }
}

/// A slot, from its beginning on.
struct Slot(&'static [Step]);

impl Life for Slot {
    fn stops_at(&self, alloc: Global) -> Option<usize> {
        let mut packet: Assembler = PacketAssembler::new();
        first_wrong(alloc, &mut packet, self.0)
    }
}

static SLOTS: [Slot; 6] = [
    // Bytes that arrive again overwrite those that came before.
    Slot(&[
        HasSize(5, Ok(())),
        Adds(b"Rust", 0, Ok(())),
        IsComplete(false),
        Adds(b"Rust", 1, Ok(())),
        Completed(Some(b"RRust")),
    ]),
    // A fragment past the slot's bytes is refused.
    Slot(&[
        Adds(b"Rust", 14, Err(AssemblerError)),
        Adds(b"Rust", usize::MAX, Err(AssemblerError)),
        HasSize(17, Err(AssemblerError)),
    ]),
    // Fragments come in any order.
    Slot(&[
        Adds(b" is", 6, Ok(())),
        Adds(b"Hello!", 0, Ok(())),
        Completed(None),
        HasSize(9, Ok(())),
        Completed(Some(b"Hello! is")),
    ]),
    // One size counts.
    Slot(&[
        Adds(b"Hello! is", 0, Ok(())),
        HasSize(9, Ok(())),
        HasSize(8, Err(AssemblerError)),
        IsComplete(true),
        Resets,
        Completed(None),
    ]),
    // What touches, and what came as it is, overlaps nothing; another byte, or a new slot alongside one that came, does.
    Slot(&[
        Inserts(b"abcd", 4, true),
        Overlaps(b"", b"wxyz", 0, false),
        Overlaps(b"", b"wxyz", 8, false),
        Overlaps(b"ab", b"cd", 4, false),
        Overlaps(b"", b"bc", 5, false),
        Overlaps(b"", b"abce", 4, true),
        Overlaps(b"xb", b"cd", 4, true),
        Overlaps(b"cd", b"ef", 6, true),
        Overlaps(b"xx", b"xa", 1, true),
    ]),
    // A fragment that would leave a fifth run is written and not marked.
    Slot(&[
        Inserts(b"x", 1, true),
        Inserts(b"x", 3, true),
        Inserts(b"x", 5, true),
        Inserts(b"x", 7, true),
        Inserts(b"x", 9, true),
        Inserts(b"abcdefghij", 0, true),
        Inserts(b"kl", 10, false),
        Completed(Some(b"abcdefghijkl")),
    ]),
];

#[test]
fn slots_live(rt: HostRuntime) {
    all_live(&rt, &SLOTS);
}

/// A datagram from 10.0.0.1 to 10.0.0.2.
const FIRST: Ipv4FragKey = Ipv4FragKey {
    id: 1,
    src_addr: Ipv4Address([10, 0, 0, 1]),
    dst_addr: Ipv4Address([10, 0, 0, 2]),
    protocol: IpProtocol::Udp,
};

const ONE: FragKey = FragKey::Ipv4(FIRST);

const ONE_OF_TCP: FragKey = FragKey::Ipv4(Ipv4FragKey {
    protocol: IpProtocol::Tcp,
    ..FIRST
});

const ZERO: FragKey = FragKey::Ipv4(Ipv4FragKey { id: 0, ..FIRST });

/// The same number of an IPv6 datagram, and another.
const ONE_OF_V6: FragKey = FragKey::Ipv6(FIRST_OF_V6);

const TWO_OF_V6: FragKey = FragKey::Ipv6(Ipv6FragKey {
    id: 0x0100_0001,
    ..FIRST_OF_V6
});

const FIRST_OF_V6: Ipv6FragKey = Ipv6FragKey {
    id: 1,
    src_addr: Ipv6Address([0xfd, 0, 0, 0, 0, 0, 0, 0, 0, 0, 0, 0, 0, 0, 0, 1]),
    dst_addr: Ipv6Address([0xfd, 0, 0, 0, 0, 0, 0, 0, 0, 0, 0, 0, 0, 0, 0, 2]),
};

const TWO: FragKey = FragKey::Ipv4(Ipv4FragKey { id: 2, ..FIRST });

/// A call of slots, and what it must answer. An instant is so many microseconds after the start.
enum Call {
    /// At an instant the first two bytes of a datagram come: which slot has it.
    Begins(FragKey, u8, Option<usize>),
    /// At an instant bytes of a datagram come, from this slot on, the last ones.
    Ends(FragKey, u8, &'static [u8], usize, Option<usize>),
    /// At an instant there is no slot for a datagram.
    HasNone(FragKey, u8),
    /// The datagram of a slot, if it is whole.
    Holds(usize, Option<&'static [u8]>),
    Frees(usize),
    /// An instant comes.
    Expires(u8),
    /// A datagram of no bytes is put together.
    Assembles(FragKey),
}

use Call::{Assembles, Begins, Ends, Expires, Frees, HasNone, Holds};

fn at(micros: u8) -> Instant {
    Instant::from_micros(i64::from(micros))
}

impl Goes<PacketAssemblerSet> for Call {
    fn goes(&self, _alloc: Global, set: &mut PacketAssemblerSet) -> bool {
        match self {
            Begins(key, micros, slot) => set.insert(key, at(*micros), b"ab", 0, true) == *slot,
            Ends(key, micros, bytes, from, slot) => {
                set.insert(key, at(*micros), bytes, *from, false) == *slot
            }
            HasNone(key, micros) => set.get(key, at(*micros)).is_err(),
            Holds(slot, bytes) => is_same(set.completed(*slot), *bytes),
            _ => changes(set, self),
        }
    }
}

/// The same of a call that answers nothing.
fn changes(set: &mut PacketAssemblerSet, call: &Call) -> bool {
    match call {
        Frees(slot) if *slot < set.capacity() => {
            set.free(*slot);
            true
        }
        Expires(micros) => {
            set.remove_expired(at(*micros));
            true
        }
        Assembles(key) => assembles(set, key),
        _ => false,
    }
}

/// Whether a datagram of no bytes is put together.
fn assembles(set: &mut PacketAssemblerSet, key: &FragKey) -> bool {
    match set.get(key, Instant::ZERO) {
        Ok(slot) => {
            slot.assemble().is_none()
                && slot.set_total_size(0).is_ok()
                && slot.assemble() == Some(b"".as_slice())
        }
        Err(_) => false,
    }
}

/// So many slots, from their beginning on.
struct Slots(usize, &'static [Call]);

impl Life for Slots {
    fn stops_at(&self, alloc: Global) -> Option<usize> {
        match PacketAssemblerSet::new(alloc, self.0) {
            Ok(mut set) => first_wrong(alloc, &mut set, self.1),
            Err(_) => Some(0),
        }
    }
}

static SETS: [Slots; 7] = [
    // A slot for each datagram, also where only the protocol differs: a third one finds none.
    Slots(
        2,
        &[
            Begins(ONE, 60, Some(0)),
            Begins(ONE_OF_TCP, 60, Some(1)),
            Begins(TWO, 60, None),
            HasNone(TWO, 60),
        ],
    ),
    // Datagrams of both families have slots of their own.
    Slots(
        2,
        &[
            Begins(ONE, 60, Some(0)),
            Begins(ONE_OF_V6, 60, Some(1)),
            HasNone(TWO_OF_V6, 60),
            Ends(ONE_OF_V6, 60, b"cd", 2, Some(1)),
            Holds(0, None),
            Holds(1, Some(b"abcd")),
        ],
    ),
    // One datagram is whole, and gives up its slot.
    Slots(
        2,
        &[
            Begins(ONE, 60, Some(0)),
            Begins(ONE_OF_TCP, 60, Some(1)),
            Ends(ONE, 60, b"cd", 2, Some(0)),
            Holds(0, Some(b"abcd")),
            Holds(1, None),
            Frees(0),
            Begins(TWO, 70, Some(0)),
        ],
    ),
    // A slot is given up when its instant is over.
    Slots(
        2,
        &[
            Begins(TWO, 70, Some(0)),
            Begins(ONE_OF_TCP, 60, Some(1)),
            Expires(60),
            Begins(ONE, 60, None),
            Expires(61),
            Begins(ONE, 60, Some(1)),
        ],
    ),
    // A fragment past the slot's bytes is refused, and leaves the slot taken.
    Slots(
        1,
        &[
            Ends(ONE, 0, b"ab", 4095, Some(0)),
            Ends(TWO, 0, b"ab", 0, None),
        ],
    ),
    // What was put together is gone: the slot begins again.
    Slots(1, &[Assembles(ZERO), Assembles(ZERO), Assembles(ONE)]),
    // Without slots no datagram comes in fragments.
    Slots(0, &[Begins(ONE, 60, None), HasNone(TWO, 60), Expires(61)]),
];

#[test]
fn sets_of_slots_live(rt: HostRuntime) {
    all_live(&rt, &SETS);
}
