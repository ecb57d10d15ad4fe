//! Tests of slots that are found by a key, and of how many sockets a search looks at.
use iface_egress::{Idle, SocketSet, SocketStorage, Wanted};
use net_base::ManagedSlice;
use std::alloc::Global;
use std::cell::Cell;
use std::test::Fail;

/// A socket that is a number, always idle, and found by a key.
#[derive(Debug, Drop)]
struct Keyed {
    key: u64,
    number: u32,
}

impl Idle for Keyed {
    ghost use Rattle.std.specs.Prelude.{true};

    ghost idle = { λ k. true };

    ghost key = { λ k. k.key };

    fn is_idle(&self) -> bool {
        true
    }

    fn key(&self) -> u64 {
        self.key
    }
}

/// The socket of this key that is this number. It counts those that it looks at.
#[derive(Drop)]
struct Seeks<'a> {
    key: u64,
    number: u32,
    looks: &'a Cell<u32>,
}

impl<'a> Wanted for Seeks<'a> {
    ghost use Rattle.std.specs.Prelude.{◌==◌, ◌&&◌};

    type Socket = Keyed;

    ghost wants = { λ w s. (s.key == w.key) && (s.number == w.number) };

    fn wants(&self, socket: &Keyed) -> bool {
        self.looks.set(self.looks.get().saturating_add(1));
        socket.key == self.key && socket.number == self.number
    }
}

/// Where the socket of this key is that is this number, and at how many the search looked.
fn found(set: &SocketSet<Keyed>, key: u64, number: u32) -> (Option<usize>, u32) {
    let looks = Cell::new(0);
    let seeks = Seeks {
        key,
        number,
        looks: &looks,
    };
    let at = set.slots.find(key, None, &seeks);
    (at, looks.get())
}

/// Adds sockets of ten keys: the key of a number is its last digit.
fn add(set: &mut SocketSet<Keyed>, from: u32, to: u32) -> Option<()> {
    for number in from..to {
        let key = number % 10;
        set.add(Keyed {
            key: key as u64,
            number,
        })
        .ok()?;
    }
    Some(())
}

/// A hundred such sockets: that of slot n is number n.
fn hundred(alloc: Global) -> Option<SocketSet<Keyed>> {
    let mut set = SocketSet::new(ManagedSlice::Owned(Vec::new(alloc)));
    add(&mut set, 0, 100)?;
    Some(set)
}

/// Each slot on the agenda has its turn, after which it is filed.
fn all_rest(set: &mut SocketSet<Keyed>) {
    for at in 0..set.slots.len() {
        if set.slots.next_busy(at) == Some(at) {
            set.slots.let_rest(at);
        }
    }
}

/// A search looks at all sockets until they were filed, and then at those of its key alone, in their order.
#[test]
fn a_search_looks_at_the_sockets_of_its_key_alone(rt: HostRuntime) -> Result<(), Fail> {
    let mut set = hundred(rt.alloc()).expect(&rt, "memory");
    assert!(rt; found(&set, 3, 43) == (Some(43), 44));
    all_rest(&mut set);
    assert!(rt; set.slots.next_busy(0).is_none());
    assert!(rt; found(&set, 3, 43) == (Some(43), 5));
    assert!(rt; found(&set, 0, 0) == (Some(0), 1));
    assert!(rt; found(&set, 9, 99) == (Some(99), 10));
    assert!(rt; found(&set, 3, 44) == (None, 10));
    assert!(rt; found(&set, 10, 10) == (None, 0));
    Ok(())
}

/// A socket that was lent is found by any key, and once its slot had its turn by the one that it has then.
#[test]
fn who_was_lent_is_found_by_a_new_key(rt: HostRuntime) -> Result<(), Fail> {
    let mut set = hundred(rt.alloc()).expect(&rt, "memory");
    all_rest(&mut set);
    for at in [13, 3, 93, 50] {
        assert!(rt; at < set.slots.len());
        if let Some(item) = &mut set.slots.slot_mut(at).inner {
            item.socket.key = 77;
        }
    }
    assert!(rt; found(&set, 77, 50) == (Some(50), 3));
    for at in [13, 3, 93, 50] {
        set.slots.let_rest(at);
    }
    assert!(rt; found(&set, 77, 50) == (Some(50), 3));
    assert!(rt; found(&set, 77, 93) == (Some(93), 4));
    assert!(rt; found(&set, 3, 43) == (Some(43), 3));
    assert!(rt; found(&set, 3, 13) == (None, 7));
    Ok(())
}

/// Of up to four sockets each is looked at; those that rest then are filed once there are more.
#[test]
fn few_are_looked_at_one_by_one(rt: HostRuntime) -> Result<(), Fail> {
    let mut set = SocketSet::new(ManagedSlice::Owned(Vec::new(rt.alloc())));
    assert!(rt; add(&mut set, 0, 4).is_some());
    all_rest(&mut set);
    assert!(rt; found(&set, 3, 3) == (Some(3), 4));
    assert!(rt; found(&set, 7, 7) == (None, 4));
    assert!(rt; add(&mut set, 4, 100).is_some());
    all_rest(&mut set);
    assert!(rt; found(&set, 3, 3) == (Some(3), 1));
    assert!(rt; found(&set, 7, 7) == (Some(7), 1));
    Ok(())
}

/// Of storage that never grows, too, the slots are filed once they had their turn.
#[test]
fn fixed_slots_are_filed(rt: HostRuntime) -> Result<(), Fail> {
    let eight = [
        SocketStorage::EMPTY,
        SocketStorage::EMPTY,
        SocketStorage::EMPTY,
        SocketStorage::EMPTY,
        SocketStorage::EMPTY,
        SocketStorage::EMPTY,
        SocketStorage::EMPTY,
        SocketStorage::EMPTY,
    ];
    let storage = Vec::from_array(rt.alloc(), eight)
        .ok()
        .expect(&rt, "memory");
    let mut set = SocketSet::new(ManagedSlice::Fixed(storage));
    assert!(rt; add(&mut set, 0, 8).is_some());
    assert!(rt; found(&set, 7, 7) == (Some(7), 8));
    all_rest(&mut set);
    assert!(rt; set.slots.next_busy(0).is_none());
    assert!(rt; found(&set, 7, 7) == (Some(7), 1));
    assert!(rt; add(&mut set, 8, 9).is_none());
    Ok(())
}
