//! The connections of a service: its listener, and what the service makes of those that were accepted.
ghost use Rattle.std.specs.Prelude.{◌≡◌, ◌<◌, length, map, slice_set, IfOk};
ghost use Rattle.interface.specs.Backlog.Calls.{accepted};
ghost use Rattle.app_tun_services.specs.Services.{echo_room, most_request, first_slot, socket_count, FirstServes};
ghost use Rattle.app_tun_services.specs.Backlogs.{StandAt, IsInitialListener, session_at, session_after, back_if, ServesAt, OneServes, BacklogServes};

use crate::idle::Moment;
use crate::site::Session;
use crate::slot::{Service, first_slot, is_over, keeper_slot, port_of, serve_slot, socket_count};
use interface::{Listener, SocketHandle, SocketStorage};
use ip_wire::IpListenEndpoint;
use sockets::Socket;
use std::alloc::{AllocError, Global};

/// The listener of a service at its slots, with its keeper.
pub fn listener(alloc: Global, service: Service) -> Result<Listener, AllocError>
    ensures { IfOk result (IsInitialListener service) }
{
    let endpoint = IpListenEndpoint {
        addr: None,
        port: port_of(service),
    };
    let mut made = Listener::new(alloc, endpoint);
    let first = first_slot(service);
    for i in 0..socket_count(service) {
        made.add(SocketHandle::at(first + i))?;
    }
    made.add_keeper(SocketHandle::at(keeper_slot(service)))?;
    Ok(made)
}

/// The datagrams at the first place are served.
pub fn serve_first(
    slots: &mut [SocketStorage<Socket>],
    moment: &Moment,
    buffer: &mut [u8],
    request: &mut [u8],
)
    requires buffer { length buffer.old ≡ echo_room }
    requires request { length request.old ≡ most_request }
    ensures { FirstServes moment.now slots.old slots.new }
{
    if let [slot, ..] = slots {
        let mut session = Session::INITIAL;
        serve_slot(
            Service::Datagrams,
            slot,
            &mut session,
            moment,
            buffer,
            request,
        );
    }
}

/// The session of an entry, a new one where none is kept.
fn session_at(sessions: &[Session], at: usize) -> Session
    ensures { result ≡ session_at sessions.now at }
{
    if at < sessions.len() {
        sessions[at]
    } else {
        Session::INITIAL
    }
}

fn put_session(sessions: &mut [Session], at: usize, session: Session)
    ensures { sessions.new ≡ slice_set sessions.old at session }
{
    if at < sessions.len() {
        sessions[at] = session;
    }
}

/// A session of a connection that is over is new, but for what it counted.
fn session_after(is_over: bool, session: Session) -> Session
    ensures { result ≡ session_after is_over session }
{
    if is_over {
        Session {
            answered: session.answered,
            declined: session.declined,
            ..Session::INITIAL
        }
    } else {
        session
    }
}

/// The connection at a slot is served. Whether it is over.
fn serve_at(
    service: Service,
    at: usize,
    slots: &mut [SocketStorage<Socket>],
    session: &mut Session,
    moment: &Moment,
    buffer: &mut [u8],
    request: &mut [u8],
) -> bool
    requires buffer { length buffer.old ≡ echo_room }
    requires request { length request.old ≡ most_request }
    ensures { ServesAt moment.now service at slots.old session.old slots.new session.new result }
{
    if at >= slots.len() {
        return false;
    }
    let slot = &mut slots[at];
    serve_slot(service, slot, session, moment, buffer, request);
    is_over(slot)
}

/// Gives the socket of a connection that is over back.
fn give_back_if(listener: &mut Listener, is_over: bool, handle: SocketHandle)
    ensures entries { listener.new.entries.items ≡ back_if is_over handle listener.old.entries.items }
    ensures rest { listener.new ≡ record listener.old { entries = listener.new.entries } }
{
    if is_over {
        listener.give_back(handle);
    }
}

/// The connection of an entry is served, if it was accepted, and given back once no more can be written to it.
fn serve_one(
    service: Service,
    at: usize,
    slots: &mut [SocketStorage<Socket>],
    sessions: &mut [Session],
    listener: &mut Listener,
    moment: &Moment,
    buffer: &mut [u8],
    request: &mut [u8],
)
    requires buffer { length buffer.old ≡ echo_room }
    requires request { length request.old ≡ most_request }
    requires within { at < length listener.old.entries.items }
    requires sessions { length sessions.old ≡ length listener.old.entries.items }
    ensures served { OneServes moment.now service at slots.old sessions.old listener.old.entries.items slots.new sessions.new listener.new.entries.items }
    ensures rest { listener.new ≡ record listener.old { entries = listener.new.entries } }
{
    let entry = listener.entries[at];
    if !entry.stage.is_accepted() {
        return;
    }
    let mut session = session_at(sessions, at);
    let over = serve_at(
        service,
        entry.handle.slot(),
        slots,
        &mut session,
        moment,
        buffer,
        request,
    );
    put_session(sessions, at, session_after(over, session));
    give_back_if(listener, over, entry.handle);
}

/// Each connection that was accepted is served.
fn serve_accepted(
    service: Service,
    slots: &mut [SocketStorage<Socket>],
    sessions: &mut [Session],
    listener: &mut Listener,
    moment: &Moment,
    buffer: &mut [u8],
    request: &mut [u8],
)
    requires buffer { length buffer.old ≡ echo_room }
    requires request { length request.old ≡ most_request }
    requires stands { StandAt service listener.old.entries.items }
    requires sessions { length sessions.old ≡ socket_count service }
    ensures served { BacklogServes moment.now (first_slot service) service slots.old sessions.old listener.old.entries.items slots.new sessions.new
        listener.new.entries.items }
    ensures rest { listener.new ≡ record listener.old { entries = listener.new.entries } }
{
    for at in 0..listener.entries.len() {
        serve_one(
            service, at, slots, sessions, listener, moment, buffer, request,
        );
    }
}

/// The connections that wait are accepted, and each that was accepted is served.
pub fn serve_backlog(
    service: Service,
    slots: &mut [SocketStorage<Socket>],
    sessions: &mut [Session],
    listener: &mut Listener,
    moment: &Moment,
    buffer: &mut [u8],
    request: &mut [u8],
)
    requires buffer { length buffer.old ≡ echo_room }
    requires request { length request.old ≡ most_request }
    requires stands { StandAt service listener.old.entries.items }
    requires sessions { length sessions.old ≡ socket_count service }
    ensures served { BacklogServes moment.now (first_slot service) service slots.old sessions.old (map accepted listener.old.entries.items) slots.new
        sessions.new listener.new.entries.items }
    ensures rest { listener.new ≡ record listener.old { entries = listener.new.entries } }
{
    listener.accept_all();
    serve_accepted(service, slots, sessions, listener, moment, buffer, request);
}
