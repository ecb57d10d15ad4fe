//! Sockets at their slots, to which something that arrived is given.
ghost use Rattle.std.specs.Prelude.{◌≡◌, true};
ghost use Rattle.std.specs.List.{list_any};
ghost use Rattle.sockets.specs.Keys.{key_of};
ghost use Rattle.sockets.specs.declared.socket.Socket.{Socket};
ghost use Rattle.iface_ingress.specs.Delivered.{given, with_change, passes, all_given};

use iface_egress::{Slots, SocketStorage, Wanted};
use sockets::Socket;

/// Something that arrived for sockets of one kind.
pub trait Arrival {
    ghost use Rattle.std.specs.Prelude.{Bool};
    ghost use Rattle.sockets.specs.declared.socket.Socket.{Socket};

    /// the socket accepts it
    ghost accepted: { Self → Socket → Bool };

    /// the socket with it
    ghost taken: { Self → Socket → Socket };

    /// Whether a socket accepts it.
    fn is_for(&self, socket: &Socket) -> bool
        ensures { result ≡ accepted self.now socket.now };

    /// Gives it to a socket.
    fn give(&self, socket: &mut Socket)
        ensures { socket.new ≡ taken self.now socket.old };
}

/// Whoever accepts something that arrived.
#[derive(Drop)]
struct Takers<'a, A: Arrival> {
    arrival: &'a A,
}

impl<'a, A: Arrival> Wanted for Takers<'a, A> {
    type Socket = Socket;

    ghost wants = { λ t s. A.accepted t.arrival.now s };

    fn wants(&self, socket: &Socket) -> bool {
        self.arrival.is_for(socket)
    }
}

/// Whether a socket accepts it, where whoever does has this key.
#[tactic(auto, using(crate::proofs::Sought::found_any))]
pub(crate) fn is_for_any<A: Arrival>(slots: &Slots<Socket>, key: u64, arrival: &A) -> bool
    requires { (s : Socket) → A.accepted arrival.now s ≡ true → key_of s ≡ key }
    ensures { result ≡ list_any (passes (A.accepted arrival.now)) slots.now }
{
    slots.find(key, None, &Takers { arrival }).is_some()
}

/// Gives it to the socket at this slot, if that accepts it.
fn give_slot_if<A: Arrival>(slot: &mut SocketStorage<Socket>, arrival: &A)
    ensures { slot.new ≡ with_change (given (A.accepted arrival.now) (A.taken arrival.now)) slot.old }
{
    if let Some(item) = &mut slot.inner {
        if arrival.is_for(&item.socket) {
            arrival.give(&mut item.socket);
        }
    }
}

/// Gives it to every socket that accepts it.
pub(crate) fn give_all<A: Arrival>(slots: &mut [SocketStorage<Socket>], arrival: &A)
    ensures { slots.new ≡ all_given (A.accepted arrival.now) (A.taken arrival.now) slots.old }
{
    for slot in slots.iter_mut() {
        give_slot_if(slot, arrival);
    }
}
