//! A listener with a backlog: sockets of a set that listen on one endpoint, and wait to be accepted once they have a connection.
//!
//! Each socket of the backlog is at a stage. `refresh`, to be called after each poll, sees how far each came. A socket that took a
//! SYN is half open; one whose connection is open waits for `accept`, and is its user's from then on, until `give_back`. Where none is
//! free to take a SYN, one gives way: the one that has been in TIME-WAIT for longest, else the one that has been half open for
//! longest. A SYN for which there is none falls to a keeper, which takes it and says nothing: so it is dropped, not
//! reset.

mod entry;
mod keepers;
mod longest;
mod noting;
mod stage;
mod way;

ghost use Rattle.std.specs.Prelude.{◌≡◌, ◌∷◌, ◌++◌, [], map, IfOk, OnErr};
ghost use Rattle.iface_egress.specs.Set.{slots, is_fixed};
ghost use Rattle.interface.specs.Backlog.Calls.{initial_entry, micros_of, Refreshes, Accepts, accepted, given_back};

use crate::listener::keepers::keep_all;
use crate::listener::longest::oldest;
use crate::listener::noting::note_all;
use crate::listener::way::give_way;
pub use entry::Entry;
use iface_egress::{Slots, SocketHandle, SocketSet};
use iface_ingress::Socket;
use ip_wire::IpListenEndpoint;
use net_base::Instant;
pub use stage::Stage;
use std::alloc::{AllocError, Global};

/// An endpoint, a backlog of sockets that listen on it, and keepers for what is beyond it. The keepers' slots in the set lie after
/// those of the backlog.
#[derive(Debug, Drop)]
pub struct Listener {
    pub endpoint: IpListenEndpoint,
    pub entries: Vec<Entry>,
    pub keepers: Vec<SocketHandle>,
}

/// The instant in microseconds, 0 for one before the start.
fn micros_of(instant: Instant) -> u64
    ensures { result ≡ micros_of instant }
{
    u64::try_from(instant.total_micros()).unwrap_or(0)
}

/// What a refresh makes of the sockets of a set.
fn refresh_slots(
    slots: &mut Slots<Socket>,
    entries: &mut Vec<Entry>,
    keepers: &[SocketHandle],
    endpoint: IpListenEndpoint,
    now: u64,
)
    ensures { Refreshes endpoint now keepers.now slots.old entries.old.items slots.new entries.new.items }
{
    note_all(slots, entries, endpoint, now);
    give_way(slots, entries, endpoint, now);
    keep_all(slots, keepers, endpoint);
}

impl Listener {
    /// A listener without sockets.
    pub fn new(alloc: Global, endpoint: IpListenEndpoint) -> Listener
        ensures endpoint { result.endpoint ≡ endpoint }
        ensures entries { result.entries.items ≡ [] }
        ensures keepers { result.keepers.items ≡ [] }
    {
        Listener {
            endpoint,
            entries: Vec::new(alloc),
            keepers: Vec::new(alloc),
        }
    }

    /// Takes a closed socket of the set into the backlog. It listens from the next refresh on.
    pub fn add(&mut self, handle: SocketHandle) -> Result<(), AllocError>
        ensures added { IfOk result (λ u. self.new.entries.items ≡ self.old.entries.items ++ initial_entry handle ∷ []) }
        ensures refused { OnErr result (self.new.entries.items ≡ self.old.entries.items) }
        ensures keepers { self.new.keepers.items ≡ self.old.keepers.items }
        ensures endpoint { self.new.endpoint ≡ self.old.endpoint }
    {
        self.entries.push(Entry {
            handle,
            stage: Stage::Free,
            since: 0,
        })?;
        Ok(())
    }

    /// Takes a closed socket of the set, after those of the backlog, for a keeper. It needs no room for bytes.
    pub fn add_keeper(&mut self, handle: SocketHandle) -> Result<(), AllocError>
        ensures added { IfOk result (λ u. self.new.keepers.items ≡ self.old.keepers.items ++ handle ∷ []) }
        ensures refused { OnErr result (self.new.keepers.items ≡ self.old.keepers.items) }
        ensures entries { self.new.entries.items ≡ self.old.entries.items }
        ensures endpoint { self.new.endpoint ≡ self.old.endpoint }
    {
        self.keepers.push(handle)?;
        Ok(())
    }

    /// Sees how far each socket came, to be called after each poll, at its instant.
    pub fn refresh(&mut self, set: &mut SocketSet<Socket>, now: Instant)
        ensures refreshed { Refreshes self.old.endpoint (micros_of now) self.old.keepers.items (slots set.old) self.old.entries.items (slots set.new)
            self.new.entries.items }
        ensures endpoint { self.new.endpoint ≡ self.old.endpoint }
        ensures keepers { self.new.keepers.items ≡ self.old.keepers.items }
        ensures fixed { is_fixed set.new ≡ is_fixed set.old }
    {
        let now = micros_of(now);
        let keepers = self.keepers.as_slice();
        refresh_slots(
            &mut set.slots,
            &mut self.entries,
            keepers,
            self.endpoint,
            now,
        );
    }

    /// The socket whose connection has waited for longest. It is its user's until `give_back`.
    pub fn accept(&mut self) -> Option<SocketHandle>
        ensures accepted { Accepts self.old.entries.items result self.new.entries.items }
        ensures rest { self.new ≡ record self.old { entries = self.new.entries } }
    {
        let at = oldest(self.entries.as_slice(), Stage::Open)?;
        self.entries[at].stage = Stage::Accepted;
        Some(self.entries[at].handle)
    }

    /// Accepts each connection that waits, for a user that sees which sockets are its own by the stages of the entries.
    pub fn accept_all(&mut self)
        ensures accepted { self.new.entries.items ≡ map accepted self.old.entries.items }
        ensures rest { self.new ≡ record self.old { entries = self.new.entries } }
    {
        accept_entries(&mut self.entries);
    }

    /// Takes an accepted socket back, which its user closed or aborted. It listens again when its connection has ended.
    pub fn give_back(&mut self, handle: SocketHandle)
        ensures back { self.new.entries.items ≡ map (given_back handle) self.old.entries.items }
        ensures rest { self.new ≡ record self.old { entries = self.new.entries } }
    {
        give_back_all(&mut self.entries, handle);
    }
}

/// Accepts each connection that waits.
fn accept_entries(entries: &mut Vec<Entry>)
    ensures { entries.new.items ≡ map accepted entries.old.items }
{
    for i in 0..entries.len() {
        accept_entry(&mut entries[i]);
    }
}

/// Accepts a connection, if it waits.
fn accept_entry(entry: &mut Entry)
    ensures { entry.new ≡ accepted entry.old }
{
    if entry.stage.is_open() {
        entry.stage = Stage::Accepted;
    }
}

/// Takes the socket of this handle back, in each entry that has it as accepted.
fn give_back_all(entries: &mut Vec<Entry>, handle: SocketHandle)
    ensures { entries.new.items ≡ map (given_back handle) entries.old.items }
{
    for i in 0..entries.len() {
        give_back_entry(&mut entries[i], handle);
    }
}

/// Takes the socket of this handle back, if it is this accepted one.
fn give_back_entry(entry: &mut Entry, handle: SocketHandle)
    ensures { entry.new ≡ given_back handle entry.old }
{
    if entry.stage.is_accepted() && entry.handle == handle {
        entry.stage = Stage::Ending;
    }
}
