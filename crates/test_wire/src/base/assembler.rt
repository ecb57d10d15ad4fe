//! Ranges and in-order bytes of an assembler, on rows worked out by hand.
use crate::cases::{Goes, Life, all_live, first_wrong, prints};
use net_base::Assembler;
use std::alloc::Global;

/// A call of an assembler, and what it must answer. A range is its first position and how many.
enum Step {
    /// A range is added.
    Adds(u8, u8),
    /// The same, and so many positions from 0 on are removed.
    Passes(u8, u8, usize),
    /// A range is refused, and the error has this text.
    Refuses(u8, u8, &'static str),
    /// The runs that are held, each as its first position and the one after its last.
    Holds(&'static [(usize, usize)]),
    /// So many positions from 0 on are held.
    HasFront(usize),
    /// So many are removed.
    RemovesFront(usize),
    IsEmpty,
    Clears,
    /// Whether it equals one to which these ranges were added.
    IsLike(&'static [(u8, u8)], bool),
    Prints(&'static str),
}

use Step::{Adds, Clears, HasFront, Holds, IsEmpty, IsLike, Passes, Prints, Refuses, RemovesFront};

impl Goes<Assembler<4>> for Step {
    fn goes(&self, alloc: Global, held: &mut Assembler<4>) -> bool {
        match self {
            Adds(offset, size) => adds(held, *offset, *size),
            Refuses(offset, size, text) => refuses(alloc, held, *offset, *size, text),
            RemovesFront(count) => held.remove_front() == *count,
            Prints(text) => prints(alloc, held, text),
            _ => changes(held, self) || says(held, self),
        }
    }
}

/// Whether the step is one that changes it besides, and goes as it says.
fn changes(held: &mut Assembler<4>, step: &Step) -> bool {
    match step {
        Passes(offset, size, count) => {
            held.add_then_remove_front(usize::from(*offset), usize::from(*size)) == Ok(*count)
        }
        Clears => {
            held.clear();
            true
        }
        _ => false,
    }
}

/// Whether the step is one that asks, and goes as it says.
fn says(held: &Assembler<4>, step: &Step) -> bool {
    match step {
        Holds(runs) => holds(held, runs),
        HasFront(count) => held.peek_front() == *count,
        IsEmpty => held.is_empty(),
        IsLike(ranges, answer) => (*held == made(ranges)) == *answer,
        _ => false,
    }
}

fn adds(held: &mut Assembler<4>, offset: u8, size: u8) -> bool {
    held.add(usize::from(offset), usize::from(size)).is_ok()
}

fn refuses(alloc: Global, held: &mut Assembler<4>, offset: u8, size: u8, text: &str) -> bool {
    match held.add(usize::from(offset), usize::from(size)) {
        Ok(()) => false,
        Err(error) => prints(alloc, &error, text),
    }
}

/// Whether the runs held are these.
fn holds(held: &Assembler<4>, runs: &[(usize, usize)]) -> bool {
    let mut found = held.iter_data();
    for run in runs {
        if found.next() != Some(*run) {
            return false;
        }
    }
    found.next().is_none()
}

/// One to which these ranges were added.
fn made(ranges: &[(u8, u8)]) -> Assembler<4> {
    let mut held = Assembler::new();
    for (offset, size) in ranges {
        let _ = adds(&mut held, *offset, *size);
    }
    held
}

/// An assembler that begins with these ranges, and what it is asked.
struct Held(&'static [(u8, u8)], &'static [Step]);

impl Life for Held {
    fn stops_at(&self, alloc: Global) -> Option<usize> {
        first_wrong(alloc, &mut made(self.0), self.1)
    }
}

const FOUR: &[(u8, u8)] = &[(4, 4), (12, 4), (20, 4), (1, 1)];

const FOUR_RUNS: Step = Holds(&[(1, 2), (4, 8), (12, 16), (20, 24)]);

static LIVES: [Held; 6] = [
    // A filled front is removed.
    Held(&[], &[Adds(50, 10), Passes(0, 50, 60), IsEmpty]),
    // A fifth run is refused.
    Held(
        FOUR,
        &[
            FOUR_RUNS,
            Refuses(30, 1, "too many holes"),
            FOUR_RUNS,
            HasFront(0),
        ],
    ),
    // A filled gap joins runs.
    Held(
        FOUR,
        &[
            Adds(8, 4),
            Holds(&[(1, 2), (4, 16), (20, 24)]),
            Adds(0, 1),
            HasFront(2),
            RemovesFront(2),
            Holds(&[(2, 14), (18, 22)]),
        ],
    ),
    // The order of additions is forgotten.
    Held(
        &[(2, 12), (18, 4)],
        &[IsLike(&[(18, 4)], false), IsLike(&[(18, 4), (2, 12)], true)],
    ),
    // A cleared one holds nothing.
    Held(FOUR, &[Clears, IsEmpty, RemovesFront(0)]),
    // Runs and holes are printed.
    Held(
        &[],
        &[
            Prints("[ ]"),
            Adds(6, 3),
            Prints("[ (6) 3 ]"),
            Adds(0, 4),
            Adds(12, 1),
            Prints("[ 4 (2) 3 (3) 1 ]"),
        ],
    ),
];

#[test]
fn assemblers_live(rt: HostRuntime) {
    all_live(&rt, &LIVES);
}
