//! What is looked for among the slots of a set.
ghost use Rattle.std.specs.Prelude.{◌≡◌, ◌≤◌, length, position};
ghost use Rattle.iface_egress.specs.KeyIndex.{IsFirstAmong, IsLoose, IsUnder, has, nearer};

use crate::slots::first_of;
use crate::socket_set::SocketStorage;
use base_index::{Agenda, Idle, Index};

/// What is looked for among sockets.
pub trait Wanted {
    ghost use Rattle.std.specs.Prelude.{Bool};

    /// The sockets among which it is looked for.
    type Socket: Idle;

    /// the socket is wanted
    ghost wants: { Self → Self.Socket → Bool };

    /// Whether a socket is wanted.
    fn wants(&self, socket: &Self::Socket) -> bool
        ensures { result ≡ wants self.now socket.now };
}

/// Whether there is a socket at the slot that is wanted.
fn has<W: Wanted>(slot: &SocketStorage<W::Socket>, wanted: &W) -> bool
    ensures { result ≡ has (W.wants wanted.now) slot.now }
{
    match &slot.inner {
        Some(item) => wanted.wants(&item.socket),
        None => false,
    }
}

/// The first of all slots whose socket is wanted.
pub(crate) fn first_among<W: Wanted>(
    slots: &[SocketStorage<W::Socket>],
    wanted: &W,
) -> Option<usize>
    ensures { result ≡ position (has (W.wants wanted.now)) slots.now }
{
    slots.iter().position(|slot| has(slot, wanted))
}

/// The first of the loose slots whose socket is wanted.
pub(crate) fn first_loose<W: Wanted>(
    loose: &Agenda,
    slots: &[SocketStorage<W::Socket>],
    wanted: &W,
) -> Option<usize>
    requires { length loose.now ≤ length slots.now }
    ensures { IsFirstAmong (IsLoose loose.now) (W.wants wanted.now) slots.now result }
{
    let mut from = 0;
    while let Some(at) = first_of(loose.next(from), from, loose.len(), slots.len()) {
        if has(&slots[at], wanted) {
            return Some(at);
        }
        from = at + 1;
    }
    None
}

/// The first of the slots under this key whose socket is wanted.
pub(crate) fn first_with<W: Wanted>(
    index: &Index,
    slots: &[SocketStorage<W::Socket>],
    key: u64,
    wanted: &W,
) -> Option<usize>
    requires { length index.now ≤ length slots.now }
    ensures { IsFirstAmong (IsUnder key index.now) (W.wants wanted.now) slots.now result }
{
    let mut next = index.first(key);
    while let Some(at) = next {
        if has(&slots[at], wanted) {
            break;
        }
        next = index.next(at);
    }
    next
}

/// The first of two slots.
pub(crate) fn nearer(a: Option<usize>, b: Option<usize>) -> Option<usize>
    ensures { result ≡ nearer a b }
{
    match (a, b) {
        (None, b) => b,
        (a, None) => a,
        (Some(a), Some(b)) => Some(a.min(b)),
    }
}
