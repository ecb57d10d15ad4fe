//! A host with its services.
ghost use Rattle.std.specs.Prelude.{◌≡◌, ℕ, List, length, vec_len, replicate, IfOk, IfErr, OnOk};
ghost use Rattle.std.specs.Io.KnownBytes.{Appends};
ghost use Rattle.interface.specs.Set.{slots};
ghost use Rattle.net_base.specs.Time.{IsMoment};
ghost use Rattle.app_tun_services.specs.Begins.{Begins, RefusesSettings};
ghost use Rattle.app_tun_services.specs.Settings.{HasPrefixes};
ghost use Rattle.app_tun_services.specs.Backlogs.{StandAt, IsListener};
ghost use Rattle.app_tun_services.specs.Services.{echo_room, most_request, socket_count};
ghost use Rattle.app_tun_services.specs.Turns.{state_of, IsSetUp, budget, served_of, ServicesServe, AreServed, TakesTurn, Answers};
ghost use Rattle.interface.specs.State.{state};
ghost use Rattle.app_tun_services.specs.Site.{initial_session};
ghost use Rattle.interface.specs.Polls.{HostPolls, is_change};
ghost use Rattle.app_tun_services.specs.Link.Drain.{DrainMove};

use crate::backlog::{listener, serve_backlog, serve_first};
use crate::error::ServeError;
use crate::idle::{Moment, moment_at};
use crate::interface_of::{capabilities, interface};
use crate::link::{Drain, write_answer};
use crate::settings::Settings;
use crate::site::Session;
use crate::slot::{Service, socket_count};
use crate::sockets_of::{ROOM, sockets};
use crate::tally::Tally;
use crate::watch::Watch;
use interface::{Interface, Listener, PollResult, SocketSet, SocketStorage};
use net_base::Instant;
use sockets::Socket;
use std::alloc::{AllocError, Global};
use std::io::Write;

/// How many frames a poll takes, and how many passes over the sockets it makes, at most.
const BUDGET: u16 = 64;

/// How many bytes of a request are looked at.
const MOST_REQUEST: usize = 4096;

/// A host on a link of packets, with its sockets, and buffers for its services.
#[derive(Drop)]
pub struct Host {
    pub interface: Interface,
    pub sockets: SocketSet<Socket>,
    pub drain: Drain,
    pub buffer: Vec<u8>,
    pub request: Vec<u8>,
    pub echoes: Listener,
    pub pages: Listener,
    /// Those of the echo's connections stay as they are.
    pub echo_sessions: Vec<Session>,
    /// Those of the page's connections.
    pub sessions: Vec<Session>,
    pub tally: Tally,
}

#[tactic(auto, unfolding(crate::specs::Turns::budget))]
fn budget() -> u16
    ensures { result ≡ budget }
{
    BUDGET
}

/// A poll of a host's interface.
fn poll<V: Watch>(
    interface: &mut Interface,
    drain: &mut Drain,
    sockets: &mut SocketSet<Socket>,
    watch: &mut V,
    now: Instant,
) -> PollResult
    requires { IsMoment now }
    ensures { HostPolls DrainMove now budget (state drain.old interface.old (slots sockets.old)) (is_change result)
        (state drain.new interface.new (slots sockets.new)) }
{
    watch.poll(interface, drain, sockets, now, budget())
}

/// The services do what can be done now.
fn serve_slots(
    slots: &mut [SocketStorage<Socket>],
    echo_sessions: &mut [Session],
    sessions: &mut [Session],
    echoes: &mut Listener,
    pages: &mut Listener,
    moment: &Moment,
    buffer: &mut [u8],
    request: &mut [u8],
)
    requires buffer { length buffer.old ≡ echo_room }
    requires request { length request.old ≡ most_request }
    requires echoes { StandAt Service.Streams echoes.old.entries.items }
    requires pages { StandAt Service.Page pages.old.entries.items }
    requires echo_sessions { length echo_sessions.old ≡ socket_count Service.Streams }
    requires sessions { length sessions.old ≡ socket_count Service.Page }
    ensures serve { ServicesServe moment.now (served_of slots.old echoes.old.entries.items pages.old.entries.items echo_sessions.old sessions.old)
        (served_of slots.new echoes.new.entries.items pages.new.entries.items echo_sessions.new sessions.new) }
    ensures echoes { echoes.new ≡ record echoes.old { entries = echoes.new.entries } }
    ensures pages { pages.new ≡ record pages.old { entries = pages.new.entries } }
{
    serve_first(slots, moment, buffer, request);
    serve_backlog(
        Service::Streams,
        slots,
        echo_sessions,
        echoes,
        moment,
        buffer,
        request,
    );
    serve_backlog(
        Service::Page,
        slots,
        sessions,
        pages,
        moment,
        buffer,
        request,
    );
}

/// The services do what can be done now, on a set of sockets.
fn serve_set(
    sockets: &mut SocketSet<Socket>,
    echo_sessions: &mut [Session],
    sessions: &mut [Session],
    echoes: &mut Listener,
    pages: &mut Listener,
    moment: &Moment,
    buffer: &mut [u8],
    request: &mut [u8],
)
    requires buffer { length buffer.old ≡ echo_room }
    requires request { length request.old ≡ most_request }
    requires echoes { StandAt Service.Streams echoes.old.entries.items }
    requires pages { StandAt Service.Page pages.old.entries.items }
    requires echo_sessions { length echo_sessions.old ≡ socket_count Service.Streams }
    requires sessions { length sessions.old ≡ socket_count Service.Page }
    ensures serve { ServicesServe moment.now (served_of (slots sockets.old) echoes.old.entries.items pages.old.entries.items echo_sessions.old sessions.old)
        (served_of (slots sockets.new) echoes.new.entries.items pages.new.entries.items echo_sessions.new sessions.new) }
    ensures echoes { echoes.new ≡ record echoes.old { entries = echoes.new.entries } }
    ensures pages { pages.new ≡ record pages.old { entries = pages.new.entries } }
{
    serve_slots(
        sockets.slots.all_mut(),
        echo_sessions,
        sessions,
        echoes,
        pages,
        moment,
        buffer,
        request,
    )
}

/// The listeners see how far their sockets came, and the services do what can be done now.
fn serve(
    sockets: &mut SocketSet<Socket>,
    echo_sessions: &mut [Session],
    sessions: &mut [Session],
    echoes: &mut Listener,
    pages: &mut Listener,
    tally: &mut Tally,
    device: &Drain,
    buffer: &mut [u8],
    request: &mut [u8],
    now: Instant,
)
    requires buffer { length buffer.old ≡ echo_room }
    requires request { length request.old ≡ most_request }
    requires echoes { IsListener Service.Streams echoes.old }
    requires pages { IsListener Service.Page pages.old }
    requires echo_sessions { length echo_sessions.old ≡ socket_count Service.Streams }
    requires sessions { length sessions.old ≡ socket_count Service.Page }
    ensures serve { AreServed now device.now (served_of (slots sockets.old) echoes.old.entries.items pages.old.entries.items echo_sessions.old sessions.old)
        tally.old (served_of (slots sockets.new) echoes.new.entries.items pages.new.entries.items echo_sessions.new sessions.new) tally.new }
    ensures echoes { IsListener Service.Streams echoes.new }
    ensures pages { IsListener Service.Page pages.new }
{
    echoes.refresh(sockets, now);
    pages.refresh(sockets, now);
    tally.count_waiting(echoes, pages);
    let moment = moment_at(
        now,
        pages.entries.as_slice(),
        sessions,
        tally.counts(device),
    );
    serve_set(
        sockets,
        echo_sessions,
        sessions,
        echoes,
        pages,
        &moment,
        buffer,
        request,
    );
    tally.collect(sessions);
}

/// The sessions of a service's connections before any was accepted.
fn initial_sessions(alloc: Global, service: Service) -> Result<Vec<Session>, AllocError>
    ensures initial { IfOk result (λ ss. ss.items ≡ replicate (socket_count service) initial_session) }
    ensures len { IfOk result (λ ss. vec_len ss ≡ socket_count service) }
{
    vec![in alloc; Session::INITIAL; socket_count(service)]
}

impl Host {
    /// A host of these settings, from this instant on.
    pub fn new(alloc: Global, settings: &Settings, now: Instant) -> Result<Host, ServeError>
        requires instant { IsMoment now }
        requires prefixes { HasPrefixes settings.now }
        ensures begins { IfOk result (λ host. Begins settings.now now (state_of host)) }
        ensures set_up { IfOk result IsSetUp }
        ensures refused { IfErr result (RefusesSettings settings.now) }
    {
        let drain = Drain::new(alloc, capabilities(settings));
        let interface = interface(alloc, settings, &drain, now)?;
        let buffer = vec![in alloc; 0; ROOM];
        let request = vec![in alloc; 0; MOST_REQUEST];
        let echoes = listener(alloc, Service::Streams);
        let pages = listener(alloc, Service::Page);
        let echo_sessions = initial_sessions(alloc, Service::Streams);
        let sessions = initial_sessions(alloc, Service::Page);
        match (
            sockets(alloc),
            buffer,
            request,
            echoes,
            pages,
            echo_sessions,
            sessions,
        ) {
            (
                Ok(sockets),
                Ok(buffer),
                Ok(request),
                Ok(echoes),
                Ok(pages),
                Ok(echo_sessions),
                Ok(sessions),
            ) => Ok(Host {
                interface,
                sockets,
                drain,
                buffer,
                request,
                echoes,
                pages,
                echo_sessions,
                sessions,
                tally: Tally::NONE,
            }),
            _ => Err(ServeError::Memory),
        }
    }

    /// One turn: the packet comes, is answered, and the services do what can be done now. It returns when the host wants its next
    /// turn.
    pub fn take_turn<V: Watch>(
        &mut self,
        watch: &mut V,
        packet: Vec<u8>,
        now: Instant,
    ) -> Option<Instant>
        requires instant { IsMoment now }
        requires set_up { IsSetUp self.old }
        ensures turn { TakesTurn (state_of self.old) now packet.items result (state_of self.new) }
        ensures set_up { IsSetUp self.new }
    {
        self.drain.put(packet);
        let _ = poll(
            &mut self.interface,
            &mut self.drain,
            &mut self.sockets,
            watch,
            now,
        );
        serve(
            &mut self.sockets,
            self.echo_sessions.as_mut_slice(),
            self.sessions.as_mut_slice(),
            &mut self.echoes,
            &mut self.pages,
            &mut self.tally,
            &self.drain,
            self.buffer.as_mut_slice(),
            self.request.as_mut_slice(),
            now,
        );
        let _ = poll(
            &mut self.interface,
            &mut self.drain,
            &mut self.sockets,
            watch,
            now,
        );
        self.interface.poll_at(now, &self.sockets)
    }

    /// One turn, and its answer: what was sent, and the instant of the next turn.
    pub fn answer_turn<W: Write, V: Watch>(
        &mut self,
        writer: &mut W,
        watch: &mut V,
        packet: Vec<u8>,
        now: Instant,
    ) -> Result<(), ServeError>
        requires instant { IsMoment now }
        requires set_up { IsSetUp self.old }
        ensures answers { OnOk result ((said : List ℕ) × Answers (state_of self.old) now packet.items said (state_of self.new) ×
            Appends (W.contents writer.old) (W.contents writer.new) said) }
        ensures set_up { IsSetUp self.new }
        ensures error { IfErr result (λ e. e ≡ ServeError.Writer) }
    {
        let next = self.take_turn(watch, packet, now);
        match write_answer(&mut self.drain, writer, next) {
            Ok(()) => Ok(()),
            Err(_) => Err(ServeError::Writer),
        }
    }
}
