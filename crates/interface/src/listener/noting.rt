//! How far each socket of a backlog came.
ghost use Rattle.std.specs.Prelude.{◌≡◌};
ghost use Rattle.iface_ingress.specs.TcpStates.{is_closed};
ghost use Rattle.interface.specs.Backlog.Noted.{relisted, unmarked_if, state_at, relisted_slot, IsNoted, NotesOne, AreNoted};

use crate::listener::entry::Entry;
use crate::listener::stage::Stage;
use iface_egress::{Meta, Slots, SocketStorage};
use iface_ingress::tcp::State;
use iface_ingress::{Socket, tcp};
use ip_wire::IpListenEndpoint;

/// Listens on this endpoint, where the socket is closed. Then it waits for no neighbour any more.
fn relist(socket: &mut tcp::Socket, meta: &mut Meta, endpoint: IpListenEndpoint)
    ensures socket { socket.new ≡ relisted endpoint socket.old }
    ensures mark { meta.new ≡ unmarked_if (is_closed socket.old.tcb.state) meta.old }
{
    if socket.state() == State::Closed {
        let _ = socket.listen(endpoint);
        meta.unmark();
    }
}

/// The state of the socket of a slot, which listens from now on if it was closed.
fn relist_slot(slot: &mut SocketStorage<Socket>, endpoint: IpListenEndpoint) -> Option<State>
    ensures state { result ≡ state_at slot.old }
    ensures slot { slot.new ≡ relisted_slot endpoint slot.old }
{
    match &mut slot.inner {
        Some(item) => match &mut item.socket {
            Socket::Tcp(socket) => {
                let state = socket.state();
                relist(socket, &mut item.meta, endpoint);
                Some(state)
            }
            _ => None,
        },
        None => None,
    }
}

/// The entry of a socket in this state, at this time.
fn noted(entry: &Entry, state: Option<State>, now: u64) -> Entry
    ensures { IsNoted now state entry.now result }
{
    let Some(state) = state else {
        return *entry;
    };
    let stage = entry.stage.after(state);
    if stage == entry.stage {
        return *entry;
    }
    Entry {
        handle: entry.handle,
        stage,
        since: now,
    }
}

/// Sees how far the socket of an entry came, unless it is its user's.
fn note(slots: &mut Slots<Socket>, entry: &mut Entry, endpoint: IpListenEndpoint, now: u64)
    ensures { NotesOne endpoint now slots.old entry.old slots.new entry.new }
{
    let at = entry.handle.slot();
    if entry.stage.is_accepted() || at >= slots.len() {
        return;
    }
    let state = relist_slot(slots.slot_mut(at), endpoint);
    slots.let_rest(at);
    *entry = noted(entry, state, now);
}

/// Sees how far each socket of a backlog came, at this time. A closed one listens again.
#[tactic(auto, using(crate::proofs::Backlog::Seen::noted_none, crate::proofs::Backlog::Seen::noted_all))]
pub(crate) fn note_all(
    slots: &mut Slots<Socket>,
    entries: &mut Vec<Entry>,
    endpoint: IpListenEndpoint,
    now: u64,
)
    ensures { AreNoted endpoint now slots.old entries.old.items slots.new entries.new.items }
{
    for i in 0..entries.len() {
        note(slots, &mut entries[i], endpoint, now);
    }
}
