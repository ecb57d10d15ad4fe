//! Listeners with a backlog.
ghost use Rattle.std.specs.Prelude.{◌≡◌, ◌==◌, position, is_none, IfOk, Err, Ok};
ghost use Rattle.std.specs.List.{list_any};
ghost use Rattle.interface.specs.Backlog.Calls.{micros_of};
ghost use Rattle.interface.specs.declared.listener.entry.Entry.{Entry};
ghost use Rattle.interface.specs.SocketHandle.{SocketHandle as Handle};
ghost use Rattle.sockets.specs.AnySocket.{as_tcp};
ghost use Rattle.c_calls.specs.Slots.{answer_at};
ghost use Rattle.c_calls.specs.Backlogs.{RefreshesAt, RefreshesAll, MakesListener, IsPut, listener_slot, is_there, without_listener, listener_at, has_slot};
ghost use Rattle.c_calls.specs.Backlogs.{is_in_backlog, closed_in, may_be_taken, Takes, Has, HasEntry, HasKeeper, Grows, Grown, WhereThere, Accepted};
ghost use Rattle.c_calls.specs.Backlogs.{GivenBack, IsGivenBack, AcceptsFrom, GivesBack, OnSlot, OnListener, listener_refusal};
ghost use Rattle.c_calls.specs.Numbers.{is_some_socket, number_of, socket_named};

use crate::code::Code;
use crate::host::Host;
use crate::looks;
use crate::slots::{Slots, slot_of};
use interface::listener::Entry;
use interface::{Listener, SocketHandle};
use ip_wire::IpListenEndpoint;
use net_base::Instant;
use sockets::tcp::State;

/// How many listeners a host has at most.
const MOST_LISTENERS: usize = 16;

/// What a listener takes a socket for.
#[derive(Clone, Copy)]
enum Role {
    /// One of its backlog.
    Entry,
    /// A keeper.
    Keeper,
}

fn refresh_one(listener: &mut Option<Listener>, sockets: &mut Slots, now: Instant)
    ensures seen { RefreshesAt (micros_of now) listener.old sockets.old.sockets listener.new sockets.new.sockets }
    ensures tags { sockets.new.tags ≡ sockets.old.tags }
{
    match listener {
        Some(listener) => listener.refresh(&mut sockets.set, now),
        None => {}
    }
}

/// Each listener in turn sees how far its sockets came.
pub(crate) fn refresh_all(listeners: &mut [Option<Listener>], sockets: &mut Slots, now: Instant)
    ensures seen { RefreshesAll (micros_of now) listeners.old sockets.old.sockets listeners.new sockets.new.sockets }
    ensures tags { sockets.new.tags ≡ sockets.old.tags }
{
    if let Some((first, rest)) = listeners.split_first_mut() {
        refresh_one(first, sockets, now);
        refresh_all(rest, sockets, now);
    }
}

fn free_listener(listeners: &[Option<Listener>]) -> Option<usize>
    ensures { result ≡ position is_none listeners.now }
{
    listeners.iter().position(|listener| listener.is_none())
}

fn listener_slot(listeners: &[Option<Listener>]) -> usize
    ensures { result ≡ listener_slot listeners.now }
{
    match free_listener(listeners) {
        Some(slot) => slot,
        None => listeners.len(),
    }
}

/// Why there can be no further listener, but for memory.
fn listener_refusal(endpoint: &IpListenEndpoint, listeners: &[Option<Listener>]) -> Option<Code>
    ensures { result ≡ listener_refusal endpoint.now listeners.now }
{
    if endpoint.port == 0 {
        Some(Code::Unaddressable)
    } else if MOST_LISTENERS <= listener_slot(listeners) {
        Some(Code::TableFull)
    } else {
        None
    }
}

/// Puts a listener at the first free slot, or after the others.
fn put_listener(listeners: &mut Vec<Option<Listener>>, listener: Listener) -> Result<usize, Code>
    ensures { IsPut listeners.old.items listener result listeners.new.items }
{
    match free_listener(listeners.as_slice()) {
        Some(slot) => {
            listeners[slot] = Some(listener);
            Ok(slot)
        }
        None => {
            let slot = listeners.len();
            match listeners.push(Some(listener)) {
                Ok(()) => Ok(slot),
                Err(_) => Err(Code::Memory),
            }
        }
    }
}

fn entry_has(entry: &Entry, slot: usize) -> bool
    ensures { result ≡ (entry.now.handle.0 == slot) }
{
    entry.handle.slot() == slot
}

fn keeper_is(keeper: &SocketHandle, slot: usize) -> bool
    ensures { result ≡ (keeper.now.0 == slot) }
{
    keeper.slot() == slot
}

fn entries_have(entries: &[Entry], slot: usize) -> bool
    ensures { result ≡ list_any (λ (e : Entry). e.handle.0 == slot) entries.now }
{
    entries.iter().any(|entry| entry_has(entry, slot))
}

fn keepers_have(keepers: &[SocketHandle], slot: usize) -> bool
    ensures { result ≡ list_any (λ (h : Handle). h.0 == slot) keepers.now }
{
    keepers.iter().any(|keeper| keeper_is(keeper, slot))
}

fn has_slot(listener: &Option<Listener>, slot: usize) -> bool
    ensures { result ≡ has_slot slot listener.now }
{
    match listener {
        Some(listener) => {
            entries_have(listener.entries.as_slice(), slot)
                || keepers_have(listener.keepers.as_slice(), slot)
        }
        None => false,
    }
}

/// Whether a listener has the socket at the slot.
pub(crate) fn is_in_backlog(listeners: &[Option<Listener>], slot: usize) -> bool
    ensures { result ≡ is_in_backlog listeners.now slot }
{
    listeners.iter().any(|listener| has_slot(listener, slot))
}

impl Host {
    /// A listener without sockets, of one own address or of any.
    pub fn listener_new(&mut self, endpoint: IpListenEndpoint) -> Result<usize, Code>
        ensures { MakesListener endpoint self.old result self.new }
    {
        if let Some(code) = listener_refusal(&endpoint, self.seen_listeners()) {
            return Err(code);
        }
        let made = Listener::new(self.alloc(), endpoint);
        put_listener(self.listeners(), made)
    }

    /// Gives a listener up. Its sockets stay as they are.
    pub fn listener_remove(&mut self, listener: usize) -> Result<(), Code>
        ensures answer { result ≡ is_there (listener_at self.old.listeners listener) }
        ensures after { self.new ≡ without_listener (listener_at self.old.listeners listener) self.old listener }
    {
        let listeners = self.listeners();
        if listener >= listeners.len() || listeners[listener].is_none() {
            return Err(Code::NoListener);
        }
        listeners[listener] = None;
        Ok(())
    }

    /// Whether the socket may be taken into a backlog.
    fn may_be_taken(&self, socket: usize) -> Result<(), Code>
        ensures { result ≡ may_be_taken self.now socket }
    {
        match looks::state(self.seen_sockets(), socket) {
            Ok(State::Closed) => {
                if is_in_backlog(self.seen_listeners(), slot_of(socket)) {
                    Err(Code::InBacklog)
                } else {
                    Ok(())
                }
            }
            Ok(_) => Err(Code::InvalidState),
            Err(code) => Err(code),
        }
    }

    /// Takes a closed TCP socket into the backlog of a listener. It listens once the host is polled.
    pub fn listener_add(&mut self, listener: usize, socket: usize) -> Result<(), Code>
        ensures { Takes (HasEntry socket) self.old listener socket result self.new }
    {
        self.take_in(listener, socket, Role::Entry)
    }

    /// Takes a closed TCP socket for a keeper of a listener, which drops what is beyond the backlog. It needs no room for bytes.
    pub fn listener_add_keeper(&mut self, listener: usize, socket: usize) -> Result<(), Code>
        ensures { Takes (HasKeeper socket) self.old listener socket result self.new }
    {
        self.take_in(listener, socket, Role::Keeper)
    }

    /// Takes a closed TCP socket into a listener.
    fn take_in(&mut self, listener: usize, socket: usize, role: Role) -> Result<(), Code>
        ensures { Takes (Has role socket) self.old listener socket result self.new }
    {
        let taken = self.may_be_taken(socket);
        take_at(self.listeners(), listener, socket, role, taken)
    }

    /// The number of the socket whose connection has waited for longest. It is its user's until `listener_give_back`.
    pub fn listener_accept(&mut self, listener: usize) -> Result<usize, Code>
        ensures { AcceptsFrom self.old listener result self.new }
    {
        match self.accepted_slot(listener) {
            Ok(slot) => Ok(self.number_at(slot)),
            Err(code) => Err(code),
        }
    }

    /// The slot of that socket.
    fn accepted_slot(&mut self, listener: usize) -> Result<usize, Code>
        ensures { OnListener Accepted (listener_at self.old.listeners listener) self.old listener result self.new }
    {
        accept_at(self.listeners(), listener)
    }

    /// The number of the socket in this slot.
    fn number_at(&self, slot: usize) -> usize
        ensures { result ≡ number_of self.now.slots.tags slot }
    {
        self.seen_sockets().number_of(slot)
    }

    /// Takes an accepted socket back, which its user closed or aborted. It listens again when its connection has ended.
    pub fn listener_give_back(&mut self, listener: usize, socket: usize) -> Result<(), Code>
        ensures { GivesBack self.old listener socket result self.new }
    {
        let there = self.seen_sockets().is_some_socket(socket);
        give_back_at(self.listeners(), listener, socket, there)
    }
}

fn added(listener: &mut Listener, socket: usize, role: Role) -> Result<(), Code>
    ensures { Grows (Has role socket) listener.old result listener.new }
{
    let handle = SocketHandle::at(slot_of(socket));
    match role {
        Role::Entry => match listener.add(handle) {
            Ok(()) => Ok(()),
            Err(_) => Err(Code::Memory),
        },
        Role::Keeper => match listener.add_keeper(handle) {
            Ok(()) => Ok(()),
            Err(_) => Err(Code::Memory),
        },
    }
}

fn add_to(
    listener: &mut Option<Listener>,
    socket: usize,
    role: Role,
    taken: Result<(), Code>,
) -> Result<(), Code>
    ensures { WhereThere (Grown (Has role socket) taken) listener.old result listener.new }
{
    match listener {
        Some(listener) => match taken {
            Ok(()) => added(listener, socket, role),
            Err(code) => Err(code),
        },
        None => Err(Code::NoListener),
    }
}

/// The listener at the slot takes a socket in.
fn take_at(
    listeners: &mut Vec<Option<Listener>>,
    listener: usize,
    socket: usize,
    role: Role,
    taken: Result<(), Code>,
) -> Result<(), Code>
    ensures { OnSlot (Grown (Has role socket) taken) (listener_at listeners.old.items listener) listeners.old.items listener result listeners.new.items }
{
    if listener >= listeners.len() {
        return Err(Code::NoListener);
    }
    add_to(&mut listeners[listener], socket, role, taken)
}

fn accept_of(listener: &mut Option<Listener>) -> Result<usize, Code>
    ensures { WhereThere Accepted listener.old result listener.new }
{
    match listener {
        Some(listener) => match listener.accept() {
            Some(handle) => Ok(handle.slot()),
            None => Err(Code::Empty),
        },
        None => Err(Code::NoListener),
    }
}

/// The listener at the slot has a connection accepted.
fn accept_at(listeners: &mut Vec<Option<Listener>>, listener: usize) -> Result<usize, Code>
    ensures { OnSlot Accepted (listener_at listeners.old.items listener) listeners.old.items listener result listeners.new.items }
{
    if listener >= listeners.len() {
        return Err(Code::NoListener);
    }
    accept_of(&mut listeners[listener])
}

fn give_back(listener: &mut Listener, socket: usize)
    ensures { IsGivenBack socket listener.old listener.new }
{
    listener.give_back(SocketHandle::at(slot_of(socket)));
}

fn give_back_to(
    listener: &mut Option<Listener>,
    socket: usize,
    there: Result<(), Code>,
) -> Result<(), Code>
    ensures { WhereThere (GivenBack there socket) listener.old result listener.new }
{
    match listener {
        Some(listener) => match there {
            Ok(()) => {
                give_back(listener, socket);
                Ok(())
            }
            Err(code) => Err(code),
        },
        None => Err(Code::NoListener),
    }
}

/// The listener at the slot takes a socket back.
fn give_back_at(
    listeners: &mut Vec<Option<Listener>>,
    listener: usize,
    socket: usize,
    there: Result<(), Code>,
) -> Result<(), Code>
    ensures { OnSlot (GivenBack there socket) (listener_at listeners.old.items listener) listeners.old.items listener result listeners.new.items }
{
    if listener >= listeners.len() {
        return Err(Code::NoListener);
    }
    give_back_to(&mut listeners[listener], socket, there)
}
