//! The slots of a set, which of them have something to do, and which of them what arrives is for.
ghost use Rattle.std.specs.Prelude.{◌≡◌, ◌⊎◌, ◌+◌, ◌<◌, ◌≤◌, ◌^◌, ◌++◌, ◌∷◌, [], true, length, position, slice_set, slice_get, Some, MatchResult};
ghost use Rattle.std.specs.Option.{ForSome};
ghost use Rattle.std.specs.Borrow.{Array, Lends, sem};
ghost use Rattle.iface_egress.specs.IdleSlots.{IsFirstBusy, IsNextBusy, first_of, is_some_idle, with_first};
ghost use Rattle.iface_egress.specs.KeyIndex.{has, key_in};
ghost use Rattle.iface_egress.specs.contracts.slots.Slots.{the_row};
ghost use Rattle.iface_egress.specs.contracts.socket_set.SocketStorage.{the_row as storage_row};

use crate::key_index::{Wanted, first_among, first_loose, first_with, nearer};
use crate::socket_set::{Item, SocketStorage};
use base_index::{Agenda, Idle, Index};
use std::alloc::{AllocError, Global};
use std::marker::Model;

/// Up to so many slots a look at each of them costs less than keys and an agenda do: none is filed, and each has a mark of its own.
const FEW: usize = 4;

/// The slots of a set, each with a socket or free. Who is off the agenda is idle: its socket has nothing to do until it is called or
/// something arrives for it, and waits for no neighbour. Who isn't loose is filed under its socket's key. A slot that is lent is on the agenda
/// and loose, and stays so until `let_rest`. Of few slots those that aren't busy are idle, and the agenda stays empty. Room for a mark and a
/// key of each slot is made before the slot is: whoever is filed or let rest takes no memory.
#[derive(Debug, Drop)]
pub struct Slots<T: Idle> {
    storage: Vec<SocketStorage<T>>,
    busy: [bool; FEW],
    agenda: Agenda,
    loose: Agenda,
    index: Index,
}

impl<T: Idle> Model for Slots<T> {
    ghost use Rattle.std.specs.Prelude.{List};
    ghost use Rattle.iface_egress.specs.declared.socket_set.SocketStorage.{SocketStorage};
    ghost use Rattle.iface_egress.specs.IdleSlots.{AreIdle, FewAreIdle};
    ghost use Rattle.iface_egress.specs.KeyIndex.{AreFiled};

    ghost Value = { List (SocketStorage T) };

    ghost view = { λ p. p.storage.items };

    ghost invariant = { λ p. AreIdle T.idle p.agenda p.storage.items × AreFiled T.key p.loose p.index p.storage.items
        × FewAreIdle T.idle p.busy p.storage.items };
}

impl<T: Drop + Idle> Slots<T> {
    /// The slots of this storage, all on the agenda and loose. Without memory for marks and keys they stay so.
    #[tactic(auto, using(crate::proofs::Resting::few_busy))]
    pub fn of(storage: Vec<SocketStorage<T>>) -> Slots<T>
        ensures { result ≡ storage.items }
    {
        let alloc = *storage.allocator();
        let count = storage.len();
        let mut slots = Slots {
            storage,
            busy: all_busy(),
            agenda: Agenda::new(alloc),
            loose: Agenda::new(alloc),
            index: Index::new(alloc),
        };
        let _ = slots.make_room(count);
        slots
    }

    /// The allocator of the storage.
    pub fn allocator(&self) -> Global {
        *self.storage.allocator()
    }

    /// Adds a slot with this socket, if there is memory for it, its mark and its key.
    pub fn push(&mut self, item: Item<T>) -> Result<(), Item<T>>
        ensures { MatchResult result (λ u. self.new ≡ self.old ++ record { inner = Some item } ∷ []) (λ e. (e ≡ item) × (self.new ≡ self.old)) }
    {
        let count = self.storage.len().saturating_add(1);
        if self.make_room(count).is_err() {
            return Err(item);
        }
        if self.storage.reserve(1).is_err() {
            return Err(item);
        }
        mark(&mut self.busy, self.storage.len(), true);
        match self.storage.push(SocketStorage { inner: Some(item) }) {
            Ok(()) => Ok(()),
            Err(_) => unreachable!(),
        }
    }
}

impl<T: Idle> Slots<T> {
    /// Makes room for the marks and keys of so many slots, unless they are few.
    fn make_room(&mut self, slots: usize) -> Result<(), AllocError>
        ensures { self.new ≡ self.old }
    {
        if slots <= FEW {
            return Ok(());
        }
        self.agenda.reserve(slots)?;
        self.loose.reserve(slots)?;
        self.index.reserve(slots)
    }

    /// How many slots there are.
    pub fn len(&self) -> usize
        ensures { result ≡ length self.now }
    {
        self.storage.len()
    }

    /// The slots.
    pub fn as_slice(&self) -> &[SocketStorage<T>]
        ensures { result.now ≡ self.now }
    {
        self.storage.as_slice()
    }

    /// The place of this number.
    pub fn slot(&self, at: usize) -> &SocketStorage<T>
        requires { at < length self.now }
        ensures { slice_get self.now at ≡ Some result.now }
    {
        &self.storage[at]
    }

    /// Lends a slot, which is on the agenda and loose from now on.
    pub fn slot_mut(&mut self, at: usize) -> &mut SocketStorage<T>
        requires { at < length self.old }
        ensures* lends { sem 𝓛 (Lends (the_row T.row T.Idle) (storage_row T.row) self.entry result (λ w. slice_set self.old at w)) }
        ensures value { slice_get self.old at ≡ Some result.now }
    {
        mark(&mut self.busy, at, true);
        self.agenda.put_on(at);
        self.loose.put_on(at);
        &mut self.storage[at]
    }

    /// Lends all slots, which are on the agenda and loose from now on.
    #[tactic(auto, using(crate::proofs::Resting::few_busy))]
    pub fn all_mut(&mut self) -> &mut [SocketStorage<T>]
        ensures* lends { sem 𝓛 (Lends (the_row T.row T.Idle) (Array (storage_row T.row) 0) self.entry result (with_first self.old)) }
        ensures value { result.now ≡ self.old }
    {
        self.busy = all_busy();
        self.agenda.clear();
        self.loose.clear();
        self.storage.as_mut_slice()
    }

    /// The first slot from this one on that isn't known to be idle.
    #[tactic(auto, using(crate::proofs::Resting::none_following))]
    pub fn next_busy(&self, from: usize) -> Option<usize>
        ensures next { IsNextBusy T.idle from self.now result }
        ensures fits { ForSome result (λ at. at + 1 < 2 ^ 64) }
    {
        if self.storage.len() <= FEW {
            return self.next_of_few(from);
        }
        if from < self.storage.len() {
            self.next_from(from)
        } else {
            None
        }
    }

    /// The same where there is such a slot.
    fn next_from(&self, from: usize) -> Option<usize>
        ensures next { IsNextBusy T.idle from self.now result }
        ensures fits { ForSome result (λ at. at + 1 < 2 ^ 64) }
    {
        first_of(
            self.agenda.next(from),
            from,
            self.agenda.len(),
            self.storage.len(),
        )
    }

    /// The same of few slots.
    #[tactic(auto, using(crate::proofs::Resting::busy_of_few))]
    fn next_of_few(&self, from: usize) -> Option<usize>
        requires { length self.now ≤ 4 }
        ensures next { IsNextBusy T.idle from self.now result }
        ensures fits { ForSome result (λ at. at + 1 < 2 ^ 64) }
    {
        first_busy(&self.busy, from, self.storage.len())
    }

    /// The first slot whose socket is wanted, where each such socket has one of these keys. Among more slots than four, sockets that are
    /// filed under other keys aren't looked at.
    pub fn find<W: Wanted<Socket = T>>(
        &self,
        key: u64,
        other: Option<u64>,
        wanted: &W,
    ) -> Option<usize>
        requires { (s : T) → W.wants wanted.now s ≡ true → (T.Idle.key s ≡ key) ⊎ (other ≡ Some (T.Idle.key s)) }
        ensures slot { result ≡ position (has (W.wants wanted.now)) self.now }
        ensures in_range { ForSome result (λ at. at < length self.now) }
    {
        let slots = self.storage.as_slice();
        if slots.len() <= FEW {
            return first_among(slots, wanted);
        }
        let found = nearer(
            first_loose(&self.loose, slots, wanted),
            first_with(&self.index, slots, key, wanted),
        );
        match other {
            Some(other) => nearer(found, first_with(&self.index, slots, other, wanted)),
            None => found,
        }
    }

    /// Files a slot under its socket's key, unless there are few. Without room for that it stays loose. It takes no memory.
    pub fn file(&mut self, at: usize)
        ensures { self.new ≡ self.old }
    {
        if self.storage.len() > FEW {
            self.file_one(at);
        }
    }

    /// The same of one among many.
    #[inline(never)]
    fn file_one(&mut self, at: usize)
        ensures { self.new ≡ self.old }
    {
        if at >= self.storage.len() {
            return;
        }
        if self.index.note(at, key_in(&self.storage[at])) {
            self.loose.rest(at);
        }
    }

    /// Files a slot, and takes it off the agenda if it is idle. Without room for its mark it stays there. It takes no memory.
    pub fn let_rest(&mut self, at: usize)
        ensures { self.new ≡ self.old }
    {
        if self.storage.len() > FEW {
            self.let_one_rest(at);
        } else {
            self.let_few_rest(at);
        }
    }

    /// The same of one of few: it isn't busy any more if it is idle.
    #[tactic(auto, using(crate::proofs::Resting::few_with))]
    fn let_few_rest(&mut self, at: usize)
        ensures { self.new ≡ self.old }
    {
        let rests = is_socket_idle(self.storage.as_slice(), at);
        mark(&mut self.busy, at, !rests);
    }

    /// The same of one among many.
    #[inline(never)]
    fn let_one_rest(&mut self, at: usize)
        ensures { self.new ≡ self.old }
    {
        self.file_one(at);
        if at == self.agenda.len() && at < self.storage.len() && self.agenda.push().is_err() {
            return;
        }
        if is_socket_idle(self.storage.as_slice(), at) {
            self.agenda.take_off(at);
        }
    }
}

/// Whether there is such a slot, and it is idle.
fn is_socket_idle<T: Idle>(slots: &[SocketStorage<T>], at: usize) -> bool
    ensures { result ≡ is_some_idle T.idle (slice_get slots.now at) }
{
    match slots.get(at) {
        Some(SocketStorage { inner: Some(item) }) => {
            item.meta.waiting.is_none() && item.socket.is_idle()
        }
        Some(SocketStorage { inner: None }) => true,
        None => false,
    }
}

/// The first slot that is on the agenda, or else that has no mark, if there is one.
pub(crate) fn first_of(
    next: Option<usize>,
    from: usize,
    marks: usize,
    slots: usize,
) -> Option<usize>
    ensures { result ≡ first_of next from marks slots }
{
    match next {
        Some(at) => Some(at),
        None if from.max(marks) < slots => Some(from.max(marks)),
        None => None,
    }
}

/// Few slots, all of them busy.
fn all_busy() -> [bool; FEW]
    ensures { result ≡ true ∷ true ∷ true ∷ true ∷ [] }
{
    [true; FEW]
}

/// Says of one of few slots whether it is busy. Of another one nothing is said.
fn mark(busy: &mut [bool; FEW], at: usize, is_busy: bool)
    ensures { busy.new ≡ slice_set busy.old at is_busy }
{
    if at < FEW {
        busy[at] = is_busy;
    }
}

/// The first busy slot from this one on, if there is one.
fn first_busy(busy: &[bool; FEW], from: usize, slots: usize) -> Option<usize>
    requires { slots ≤ 4 }
    ensures { IsFirstBusy busy.now from slots result }
{
    let mut at = from;
    while at < slots {
        if busy[at] {
            return Some(at);
        }
        at += 1;
    }
    None
}

/// The key of the socket at a slot. A free one has any.
fn key_in<T: Idle>(slot: &SocketStorage<T>) -> u64
    ensures { result ≡ key_in T.key slot.now }
{
    match &slot.inner {
        Some(item) => item.socket.key(),
        None => 0,
    }
}
