//! The sockets of a host, each at its slot.
ghost use Rattle.std.specs.Prelude.{◌≡◌, ◌<◌, ◌∷◌, ◌++◌, [], length, map, slice_get, slice_set, Some, MatchResult};
ghost use Rattle.std.specs.Borrow.{sem};
ghost use Rattle.std.specs.Fn.{FnOnceReturnsAtMut};
ghost use Rattle.std.specs.Option.{ForSome, option_copied, option_copied_mut};
ghost use Rattle.net_base.specs.ManagedSlice.{storage_items};
ghost use Rattle.iface_egress.specs.Set.{slots, is_fixed, is_fixed_storage, is_full, free, socket_at, free_slot, Adds, Updates};
ghost use Rattle.iface_egress.specs.SlotBorrow.{LendsSlot, LendsSocket};
ghost use Rattle.iface_egress.specs.Used.{used, used_left, lent_left, CanLend, handles_left, handle_of};

use crate::slots::Slots;
use crate::socket_meta::Meta;
use base_index::Idle;
use net_base::ManagedSlice;
use std::alloc::Global;
use std::{fmt, mem, slice};

/// The place of a socket in its set.
#[derive(Clone, Copy, Debug, Default, PartialEq, Eq, PartialOrd, Ord, Hash)]
pub struct SocketHandle(usize);

impl SocketHandle {
    /// The handle of the slot with this number, from 0.
    pub const fn at(slot: usize) -> SocketHandle
        ensures { result.0 ≡ slot }
    {
        SocketHandle(slot)
    }

    /// The number of the slot, from 0.
    pub const fn slot(&self) -> usize
        ensures { result ≡ self.now.0 }
    {
        self.0
    }
}

impl fmt::Display for SocketHandle {
    fn fmt<W: fmt::Write>(&self, f: &mut fmt::Formatter<W>) -> fmt::Result {
        write!(f, "#{}", self.0)
    }
}

/// A socket, and what the interface keeps alongside it.
#[derive(Debug, Drop)]
pub struct Item<T> {
    pub meta: Meta,
    pub socket: T,
}

/// Storage for one socket.
#[derive(Debug, Drop)]
pub struct SocketStorage<T> {
    pub inner: Option<Item<T>>,
}

impl<T> SocketStorage<T> {
    /// Storage without a socket.
    pub const EMPTY: SocketStorage<T> = SocketStorage { inner: None };
}

/// Why a socket wasn't added. Both hand it back.
#[derive(Debug, Drop)]
pub enum AddError<T> {
    /// Each place of the fixed storage has a socket.
    Full(T),
    /// There was no memory: the storage couldn't grow, or, where the set makes a room of its own for the socket, there was none for that.
    Memory(T),
}

/// Sockets by their handles: in fixed storage, or in storage that grows.
#[derive(Debug, Drop)]
pub struct SocketSet<T: Idle> {
    pub slots: Slots<T>,
    /// The storage never grows.
    pub fixed: bool,
}

impl<T: Drop + Idle> SocketSet<T> {
    /// A set in this storage, with the sockets that are in it.
    pub fn new(sockets: ManagedSlice<SocketStorage<T>>) -> SocketSet<T>
        ensures slots { slots result ≡ storage_items sockets }
        ensures fixed { is_fixed result ≡ is_fixed_storage sockets }
    {
        match sockets {
            ManagedSlice::Fixed(storage) => SocketSet {
                slots: Slots::of(storage),
                fixed: true,
            },
            ManagedSlice::Owned(storage) => SocketSet {
                slots: Slots::of(storage),
                fixed: false,
            },
        }
    }

    /// The allocator of the storage.
    pub fn allocator(&self) -> Global {
        self.slots.allocator()
    }

    /// Whether the storage never grows, and each slot has a socket.
    pub fn is_full(&self) -> bool
        ensures { result ≡ is_full (slots self.now) (is_fixed self.now) }
    {
        self.fixed && free_slot(self.slots.as_slice()).is_none()
    }

    /// Puts a socket into the first free slot, or after the others where the storage grows.
    pub fn add(&mut self, socket: T) -> Result<SocketHandle, AddError<T>>
        ensures added { Adds (free_slot (slots self.old)) (is_fixed self.old) (slots self.old) socket result (slots self.new) }
        ensures fixed { is_fixed self.new ≡ is_fixed self.old }
    {
        let item = Item {
            meta: Meta::default(),
            socket,
        };
        match free_slot(self.slots.as_slice()) {
            Some(at) => Ok(put(&mut self.slots, at, item)),
            None if self.fixed => Err(AddError::Full(item.socket)),
            None => append(&mut self.slots, item),
        }
    }

    /// The sockets with their handles, from the lowest slot on.
    pub fn iter(&self) -> Iter<'_, T>
        ensures { used_left result ≡ used 0 (slots self.now) }
    {
        Iter {
            slots: self.slots.as_slice(),
            at: 0,
        }
    }

    /// Lends the sockets with their handles, from the lowest slot on.
    pub fn iter_mut(&mut self) -> IterMut<'_, T>
        ensures left { lent_left result ≡ used 0 (slots self.old) }
        ensures ready { CanLend result }
    {
        IterMut {
            slots: self.slots.all_mut().iter_mut(),
            at: 0,
        }
    }

    /// The handles of the sockets, from the lowest slot on.
    pub fn handles(&self) -> Handles<'_, T>
        ensures { handles_left result ≡ map handle_of (used 0 (slots self.now)) }
    {
        Handles {
            sockets: self.iter(),
        }
    }

    /// The socket of this handle.
    pub fn get(&self, handle: SocketHandle) -> Option<&T>
        ensures { option_copied result ≡ socket_at (slots self.now) handle.0 }
    {
        socket_in(self.slots.as_slice(), handle.0)
    }

    /// Lends the socket of this handle. Its mark, and what the other slots hold, stay as they are.
    pub fn get_mut(&mut self, handle: SocketHandle) -> Option<&mut T>
        ensures* lends { sem 𝓛 (LendsSocket T.row T.Idle self.entry self.old handle.0 result) }
        ensures value { option_copied_mut result ≡ socket_at (slots self.old) handle.0 }
    {
        socket_mut(&mut self.slots, handle.0)
    }

    /// Calls `f` on the socket of this handle, if there is one, and answers what it answers.
    pub fn update<R: Drop, F: FnOnce(&mut T) -> R>(
        &mut self,
        handle: SocketHandle,
        f: F,
    ) -> Option<R>
        requires { F.IsAlwaysCallable f }
        ensures after { Updates (FnOnceReturnsAtMut F.FnOnce f) (slice_get (slots self.old) handle.0) (slots self.old) handle.0 result (slots self.new) }
        ensures fixed { is_fixed self.new ≡ is_fixed self.old }
    {
        update_in(&mut self.slots, handle.0, f)
    }

    /// Takes the socket of this handle out.
    pub fn remove(&mut self, handle: SocketHandle) -> Option<T>
        ensures value { result ≡ socket_at (slots self.old) handle.0 }
        ensures after { slots self.new ≡ slice_set (slots self.old) handle.0 free }
        ensures fixed { is_fixed self.new ≡ is_fixed self.old }
    {
        take(&mut self.slots, handle.0)
    }
}

/// The sockets of a set with their handles, from the lowest slot on.
#[derive(Drop)]
pub struct Iter<'a, T> {
    slots: &'a [SocketStorage<T>],
    at: usize,
}

impl<'a, T> Iterator for Iter<'a, T> {
    ghost use Rattle.std.specs.Iterator.{YieldsFirstBy, item_count};
    ghost use Rattle.iface_egress.specs.Used.{used_left, used_item};

    type Item = (SocketHandle, &'a T);

    ghost next_gives = { YieldsFirstBy used_item used_left };

    ghost remaining = { item_count used_left };

    #[tactic(auto, using(crate::proofs::Used::used_skip, crate::proofs::Used::used_end))]
    fn next(&mut self) -> Option<(SocketHandle, &'a T)> {
        while self.at < self.slots.len() {
            let at = self.at;
            self.at += 1;
            if let Some(socket) = socket_in(self.slots, at) {
                return Some((SocketHandle(at), socket));
            }
        }
        None
    }
}

/// The sockets of a set with their handles, each lent, from the lowest slot on.
#[derive(Drop)]
pub struct IterMut<'a, T> {
    slots: slice::IterMut<'a, SocketStorage<T>>,
    at: usize,
}

impl<'a, T> Iterator for IterMut<'a, T> {
    ghost use Rattle.std.specs.Iterator.{item_count};
    ghost use Rattle.iface_egress.specs.Used.{lent_left, LendsFirst, CanLend};

    type Item = (SocketHandle, &'a mut T);

    ghost can_next = { CanLend };

    ghost next_gives = { LendsFirst };

    ghost remaining = { item_count lent_left };

    fn next(&mut self) -> Option<(SocketHandle, &'a mut T)> {
        while let Some(slot) = self.slots.next() {
            let at = self.at;
            self.at += 1;
            if let Some(item) = &mut slot.inner {
                return Some((SocketHandle(at), &mut item.socket));
            }
        }
        None
    }
}

impl<'a, T: Drop + Idle> IntoIterator for &'a SocketSet<T> {
    type Item = (SocketHandle, &'a T);

    type IntoIter = Iter<'a, T>;

    ghost into_iter_gives = { λ set i. used_left i ≡ used 0 (slots set.now) };

    fn into_iter(self) -> Iter<'a, T> {
        self.iter()
    }
}

impl<'a, T: Drop + Idle> IntoIterator for &'a mut SocketSet<T> {
    type Item = (SocketHandle, &'a mut T);

    type IntoIter = IterMut<'a, T>;

    ghost into_iter_gives = { λ set i. (lent_left i ≡ used 0 (slots set.now)) × CanLend i };

    fn into_iter(self) -> IterMut<'a, T> {
        self.iter_mut()
    }
}

/// The handles of a set's sockets, from the lowest slot on.
#[derive(Drop)]
pub struct Handles<'a, T> {
    sockets: Iter<'a, T>,
}

impl<'a, T> Iterator for Handles<'a, T> {
    ghost use Rattle.std.specs.Iterator.{YieldsFirst, item_count};
    ghost use Rattle.iface_egress.specs.Used.{handles_left};

    type Item = SocketHandle;

    ghost next_gives = { YieldsFirst handles_left };

    ghost remaining = { item_count handles_left };

    fn next(&mut self) -> Option<SocketHandle> {
        match self.sockets.next() {
            Some((handle, _)) => Some(handle),
            None => None,
        }
    }
}

/// Where the first place without a socket is.
fn free_slot<T>(slots: &[SocketStorage<T>]) -> Option<usize>
    ensures slot { result ≡ free_slot slots.now }
    ensures in_range { ForSome result (λ at. at < length slots.now) }
{
    slots.iter().position(|slot| slot.inner.is_none())
}

/// Puts a socket into this slot.
fn put<T: Drop + Idle>(slots: &mut Slots<T>, at: usize, item: Item<T>) -> SocketHandle
    requires { at < length slots.old }
    ensures handle { result ≡ record { 0 = at } }
    ensures after { slots.new ≡ slice_set slots.old at (record { inner = Some item }) }
{
    *slots.slot_mut(at) = SocketStorage { inner: Some(item) };
    SocketHandle(at)
}

/// Adds a slot with this socket, if there is memory for it.
fn append<T: Drop + Idle>(slots: &mut Slots<T>, item: Item<T>) -> Result<SocketHandle, AddError<T>>
    ensures { MatchResult result (λ h. (h ≡ record { 0 = length slots.old }) ×
        (slots.new ≡ slots.old ++ record { inner = Some item } ∷ [])) (λ e. (e ≡ AddError.Memory item.socket) ×
        (slots.new ≡ slots.old)) }
{
    let at = slots.len();
    match slots.push(item) {
        Ok(()) => Ok(SocketHandle(at)),
        Err(item) => Err(AddError::Memory(item.socket)),
    }
}

/// The socket at this slot.
fn socket_in<T>(slots: &[SocketStorage<T>], at: usize) -> Option<&T>
    ensures { option_copied result ≡ socket_at slots.now at }
{
    match slots.get(at) {
        Some(SocketStorage { inner: Some(item) }) => Some(&item.socket),
        _ => None,
    }
}

/// Lends the socket at this slot.
fn socket_mut<T: Idle>(slots: &mut Slots<T>, at: usize) -> Option<&mut T>
    ensures* lends { sem 𝓛 (LendsSlot T.row T.Idle slots.entry slots.old at result) }
    ensures value { option_copied_mut result ≡ socket_at slots.old at }
{
    if at >= slots.len() {
        return None;
    }
    match &mut slots.slot_mut(at).inner {
        Some(item) => {
            return Some(&mut item.socket);
        }
        None => {
            return None;
        }
    }
}

/// Calls `f` on the socket at this slot, if there is one.
fn update_in<T: Idle, R: Drop, F: FnOnce(&mut T) -> R>(
    slots: &mut Slots<T>,
    at: usize,
    f: F,
) -> Option<R>
    requires { F.IsAlwaysCallable f }
    ensures { Updates (FnOnceReturnsAtMut F.FnOnce f) (slice_get slots.old at) slots.old at result slots.new }
{
    if at >= slots.len() {
        return None;
    }
    match &mut slots.slot_mut(at).inner {
        Some(item) => Some(f(&mut item.socket)),
        None => None,
    }
}

/// Takes the socket out of this slot, if there is one.
fn take<T: Drop + Idle>(slots: &mut Slots<T>, at: usize) -> Option<T>
    ensures value { result ≡ socket_at slots.old at }
    ensures after { slots.new ≡ slice_set slots.old at free }
{
    if at >= slots.len() {
        return None;
    }
    match mem::replace(slots.slot_mut(at), SocketStorage { inner: None }).inner {
        Some(item) => Some(item.socket),
        None => None,
    }
}
