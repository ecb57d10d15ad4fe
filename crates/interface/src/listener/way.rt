//! Which socket of a backlog gives way, where none is free.
ghost use Rattle.std.specs.Prelude.{◌≡◌, ◌<◌, length};
ghost use Rattle.std.specs.List.{list_any};
ghost use Rattle.interface.specs.Backlog.GivesWay.{restarted, restarted_slot, restarted_at, is_other_half_open, may_give_way, IsHalfOpenNext, IsNext, GivesWay};

use crate::listener::entry::Entry;
use crate::listener::longest::oldest;
use crate::listener::stage::Stage;
use iface_egress::{Slots, SocketStorage};
use iface_ingress::{Socket, tcp};
use ip_wire::IpListenEndpoint;

/// Drops what the socket has, without a word to its remote, and listens on this endpoint.
pub(crate) fn restart(socket: &mut tcp::Socket, endpoint: IpListenEndpoint)
    ensures { socket.new ≡ restarted endpoint socket.old }
{
    socket.abort();
    let _ = socket.listen(endpoint);
}

/// The same of a slot. It waits for no neighbour any more: that was on the way to the remote.
fn restart_slot(slot: &mut SocketStorage<Socket>, endpoint: IpListenEndpoint)
    ensures { slot.new ≡ restarted_slot endpoint slot.old }
{
    if let Some(item) = &mut slot.inner {
        if let Socket::Tcp(socket) = &mut item.socket {
            restart(socket, endpoint);
            item.meta.unmark();
        }
    }
}

fn restart_at(slots: &mut Slots<Socket>, at: usize, endpoint: IpListenEndpoint)
    ensures { slots.new ≡ restarted_at endpoint at slots.old }
{
    if at < slots.len() {
        restart_slot(slots.slot_mut(at), endpoint);
    }
}

/// How long the only socket that is half open stays so at least, in microseconds: a client whose SYN is dropped says it again after a second.
pub const PATIENCE: u64 = 500_000;

/// Whether some other socket than that of this slot is half open.
fn has_other_half_open(entries: &[Entry], slot: usize) -> bool
    ensures { result ≡ list_any (is_other_half_open slot) entries.now }
{
    entries.iter().any(|entry| is_other_half_open(entry, slot))
}

fn is_other_half_open(entry: &Entry, slot: usize) -> bool
    ensures { result ≡ is_other_half_open slot entry.now }
{
    entry.stage.is_half_open() && entry.handle.slot() != slot
}

/// Whether the half open socket of this entry may give way: another one is half open, or it is so for long.
fn may_give_way(entries: &[Entry], at: usize, now: u64) -> bool
    requires { at < length entries.now }
    ensures { result ≡ may_give_way now entries.now at }
{
    let entry = entries[at];
    has_other_half_open(entries, entry.handle.slot()) || PATIENCE <= now.saturating_sub(entry.since)
}

/// Where the entry is that has been half open for longest, if it may give way.
fn half_open(entries: &[Entry], now: u64) -> Option<usize>
    ensures { IsHalfOpenNext now entries.now result }
{
    let at = oldest(entries, Stage::HalfOpen)?;
    if may_give_way(entries, at, now) {
        Some(at)
    } else {
        None
    }
}

/// Where the entry is that gives way: the one that has been in TIME-WAIT for longest, else the one that has been half open for longest, if it
/// may.
fn next(entries: &[Entry], now: u64) -> Option<usize>
    ensures { IsNext now entries.now result }
{
    match oldest(entries, Stage::TimeWait) {
        Some(at) => Some(at),
        None => half_open(entries, now),
    }
}

/// Where no socket of the backlog is free, the next one gives way.
pub(crate) fn give_way(
    slots: &mut Slots<Socket>,
    entries: &mut Vec<Entry>,
    endpoint: IpListenEndpoint,
    now: u64,
)
    ensures { GivesWay endpoint now slots.old entries.old.items slots.new entries.new.items }
{
    if oldest(entries.as_slice(), Stage::Free).is_some() {
        return;
    }
    let Some(at) = next(entries.as_slice(), now) else {
        return;
    };
    let handle = entries[at].handle;
    restart_at(slots, handle.slot(), endpoint);
    entries[at] = Entry {
        handle,
        stage: Stage::Free,
        since: now,
    };
}
