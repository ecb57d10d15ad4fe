//! Tests of a host's set of sockets.
use crate::cases::{Goes, Life, all_live, first_wrong};
use iface_egress::{AddError, Idle, SocketHandle, SocketSet, SocketStorage};
use net_base::ManagedSlice;
use std::alloc::Global;

/// A socket that is a number, and never idle.
#[derive(Clone, Copy, Debug, Drop)]
struct Number(u32);

impl Idle for Number {
    ghost use Rattle.std.specs.Prelude.{false};

    ghost idle = { λ number. false };

    ghost key = { λ number. 0 };

    fn is_idle(&self) -> bool {
        false
    }

    fn key(&self) -> u64 {
        0
    }
}

type Sockets = SocketSet<Number>;

/// A call of a set, and what it must answer. A handle is named by its slot.
enum Step {
    /// This socket is added, at this slot.
    Adds(u32, usize),
    /// This socket comes back.
    Refuses(u32),
    /// This socket is added, and its handle is printed so.
    Prints(u32, &'static str),
    /// The socket of this slot is removed.
    Removes(usize, Option<u32>),
    Holds(usize, Option<u32>),
    /// The used slots in order with their sockets, and the end.
    Lists(&'static [(usize, u32)]),
    /// The used slots in order, and the end.
    Handles(&'static [usize]),
    /// Each socket is lent and gets ten more, and the slots are these digits.
    AddsTen(usize),
    /// A loop puts its slot into each socket.
    WritesPlaces,
    /// A loop reads the sockets, which are these digits.
    HasDigits(u32),
    /// The socket of this slot is lent, is the first number, and becomes the second.
    Lends(usize, u32, u32),
    /// There is nothing to lend at this slot.
    LendsNone(usize),
    /// The socket of this slot is updated and becomes 1. What it was.
    Updates(usize, Option<u32>),
}

use Step::{
    Adds, AddsTen, Handles, HasDigits, Holds, Lends, LendsNone, Lists, Prints, Refuses, Removes,
    Updates, WritesPlaces,
};

impl Goes<Sockets> for Step {
    fn goes(&self, alloc: Global, set: &mut Sockets) -> bool {
        match self {
            Adds(socket, slot) => adds(set, *socket, *slot),
            Refuses(socket) => refuses(set, *socket),
            Prints(socket, text) => prints(alloc, set, *socket, text),
            Removes(slot, socket) => number_in(set.remove(SocketHandle::at(*slot))) == *socket,
            _ => reads(set, self) || writes(set, self),
        }
    }
}

fn number_in(socket: Option<Number>) -> Option<u32> {
    match socket {
        Some(Number(number)) => Some(number),
        None => None,
    }
}

/// Whether the step is one that reads, and goes as it says.
fn reads(set: &Sockets, step: &Step) -> bool {
    match step {
        Holds(slot, socket) => number_in(set.get(SocketHandle::at(*slot)).copied()) == *socket,
        Lists(sockets) => lists(set, sockets),
        Handles(slots) => has_handles(set, slots),
        HasDigits(digits) => digits_of(set) == *digits,
        _ => false,
    }
}

/// Whether the step is one that writes, and goes as it says.
fn writes(set: &mut Sockets, step: &Step) -> bool {
    match step {
        AddsTen(slots) => adds_ten(set) == *slots,
        WritesPlaces => {
            write_slots(set);
            true
        }
        Lends(slot, from, to) => lends(set, *slot, *from, *to),
        LendsNone(slot) => set.get_mut(SocketHandle::at(*slot)).is_none(),
        Updates(slot, old) => updated(set, *slot) == *old,
        _ => false,
    }
}

fn adds(set: &mut Sockets, socket: u32, slot: usize) -> bool {
    match set.add(Number(socket)) {
        Ok(handle) => handle == SocketHandle::at(slot) && handle.slot() == slot,
        Err(_) => false,
    }
}

fn refuses(set: &mut Sockets, socket: u32) -> bool {
    match set.add(Number(socket)) {
        Err(AddError::Full(back)) => back.0 == socket,
        _ => false,
    }
}

fn prints(alloc: Global, set: &mut Sockets, socket: u32, text: &str) -> bool {
    let Ok(handle) = set.add(Number(socket)) else {
        return false;
    };
    match handle.to_string(alloc) {
        Ok(found) => found.as_str() == text,
        Err(_) => false,
    }
}

fn lists(set: &Sockets, wanted: &[(usize, u32)]) -> bool {
    let mut found = set.iter();
    for (slot, socket) in wanted {
        match found.next() {
            Some((handle, lent)) if handle == SocketHandle::at(*slot) && lent.0 == *socket => {}
            _ => return false,
        }
    }
    found.next().is_none() && found.next().is_none()
}

fn has_handles(set: &Sockets, wanted: &[usize]) -> bool {
    let mut found = set.handles();
    for slot in wanted {
        if found.next() != Some(SocketHandle::at(*slot)) {
            return false;
        }
    }
    found.next().is_none()
}

/// Adds 10 to each socket, and tells their slots as digits.
fn adds_ten(set: &mut Sockets) -> usize {
    let mut slots = 0usize;
    for (handle, socket) in set.iter_mut() {
        slots = slots.wrapping_mul(10).wrapping_add(handle.slot());
        socket.0 = socket.0.wrapping_add(10);
    }
    slots
}

/// Puts its slot into each socket.
fn write_slots(set: &mut Sockets) {
    for (handle, socket) in set {
        socket.0 = u32::try_from(handle.slot()).unwrap_or(9);
    }
}

/// The sockets as digits.
fn digits_of(set: &Sockets) -> u32 {
    let mut sum = 0u32;
    for (_, socket) in set {
        sum = sum.wrapping_mul(10).wrapping_add(socket.0);
    }
    sum
}

/// Whether the socket of this slot is the one number. It becomes the other.
fn lends(set: &mut Sockets, slot: usize, from: u32, to: u32) -> bool {
    match set.get_mut(SocketHandle::at(slot)) {
        Some(socket) if socket.0 == from => {
            socket.0 = to;
            true
        }
        _ => false,
    }
}

/// What the socket of this slot was. It becomes 1.
fn updated(set: &mut Sockets, slot: usize) -> Option<u32> {
    set.update(SocketHandle::at(slot), |socket| {
        let old = socket.0;
        socket.0 = 1;
        old
    })
}

/// Storage for one socket, or storage that grows.
enum Storage {
    OneSlot,
    Growing,
}

/// A set, from its beginning on.
struct Set(Storage, &'static [Step]);

fn made(alloc: Global, storage: &Storage) -> Option<Sockets> {
    let storage = match storage {
        Storage::OneSlot => {
            let one = Vec::from_array(alloc, [SocketStorage { inner: None }]).ok()?;
            ManagedSlice::Fixed(one)
        }
        Storage::Growing => ManagedSlice::Owned(Vec::new(alloc)),
    };
    Some(SocketSet::new(storage))
}

impl Life for Set {
    fn stops_at(&self, alloc: Global) -> Option<usize> {
        match made(alloc, &self.0) {
            Some(mut set) => first_wrong(alloc, &mut set, self.1),
            None => Some(0),
        }
    }
}

static IN_ONE_SLOT: [Set; 4] = [
    // A second socket comes back.
    Set(
        Storage::OneSlot,
        &[Adds(7, 0), Refuses(8), Holds(0, Some(7))],
    ),
    // A removed socket is gone.
    Set(
        Storage::OneSlot,
        &[
            Adds(7, 0),
            Removes(0, Some(7)),
            Removes(0, None),
            Holds(0, None),
        ],
    ),
    // A handle is printed by its slot.
    Set(Storage::OneSlot, &[Prints(7, "#0")]),
    // The handle of a slot is the one that a socket there has.
    Set(
        Storage::OneSlot,
        &[Adds(7, 0), Holds(0, Some(7)), Holds(1, None)],
    ),
];

/// All but the first have sockets 7 and 9, with an unused slot between them.
static GROWING: [Set; 7] = [
    // A slot that becomes free is taken first.
    Set(
        Storage::Growing,
        &[
            Adds(7, 0),
            Adds(8, 1),
            Removes(0, Some(7)),
            Adds(9, 0),
            Holds(1, Some(8)),
            Holds(0, Some(9)),
        ],
    ),
    // The used slots are in order.
    Set(
        Storage::Growing,
        &[
            Adds(7, 0),
            Adds(8, 1),
            Adds(9, 2),
            Removes(1, Some(8)),
            Lists(&[(0, 7), (2, 9)]),
        ],
    ),
    // Each socket is lent once, at its handle, and keeps what is written.
    Set(
        Storage::Growing,
        &[
            Adds(7, 0),
            Adds(8, 1),
            Adds(9, 2),
            Removes(1, Some(8)),
            AddsTen(2),
            Holds(0, Some(17)),
            Holds(2, Some(19)),
            Holds(1, None),
        ],
    ),
    // A loop goes through its sockets, read or lent.
    Set(
        Storage::Growing,
        &[
            Adds(7, 0),
            Adds(8, 1),
            Adds(9, 2),
            Removes(1, Some(8)),
            WritesPlaces,
            HasDigits(2),
            Holds(2, Some(2)),
        ],
    ),
    // So are the handles.
    Set(
        Storage::Growing,
        &[
            Adds(7, 0),
            Adds(8, 1),
            Adds(9, 2),
            Removes(1, Some(8)),
            Handles(&[0, 2]),
        ],
    ),
    // A socket is lent where it stands.
    Set(
        Storage::Growing,
        &[
            Adds(7, 0),
            Adds(8, 1),
            Adds(9, 2),
            Removes(1, Some(8)),
            Lends(2, 9, 19),
            Holds(2, Some(19)),
            LendsNone(1),
        ],
    ),
    // A socket is updated where it stands.
    Set(
        Storage::Growing,
        &[
            Adds(7, 0),
            Adds(8, 1),
            Adds(9, 2),
            Removes(1, Some(8)),
            Updates(2, Some(9)),
            Holds(2, Some(1)),
            Updates(1, None),
        ],
    ),
];

#[test]
fn sets_live(rt: HostRuntime) {
    all_live(&rt, &IN_ONE_SLOT);
    all_live(&rt, &GROWING);
}
