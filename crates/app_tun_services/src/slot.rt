//! The services, each at its slots among a host's sockets.
ghost use Rattle.std.specs.Prelude.{◌≡◌, ◌≤◌, length};
ghost use Rattle.app_tun_services.specs.Echo.{datagram_echoed};
ghost use Rattle.app_tun_services.specs.Services.{service_at, first_slot, socket_count, keeper_slot, port_of, echo_room, most_request, datagram_count, times};
ghost use Rattle.app_tun_services.specs.Services.{datagrams_served, stream_served, PageServed, ServesAs, SlotServes, is_over};

use crate::datagram::echo_datagram;
use crate::idle::{Moment, watch};
use crate::site::{Session, serve_site};
use crate::stream::echo_stream;
use interface::{Item, SocketStorage};
use sockets::{Socket, udp};

/// How many streams are echoed at a time.
pub const ECHOES: usize = 4;

/// How many connections ask for the page at a time. Each of them waits for ten seconds after its end (TIME-WAIT), if it isn't needed
/// before.
pub const PAGES: usize = 64;

/// How many datagrams wait for their echo, at most, and how many are sent back in a turn.
pub const DATAGRAMS: usize = 64;

pub const ECHO_PORT: u16 = 7;

pub const PAGE_PORT: u16 = 80;

/// What a socket is for.
#[derive(Clone, Copy, Debug, PartialEq, Eq)]
pub enum Service {
    /// The echo of datagrams.
    Datagrams,
    /// The echo of streams.
    Streams,
    /// The page.
    Page,
    /// It takes a SYN that falls to no other, one for streams and one for the page.
    Keeper,
}

/// What the socket at a slot is for: one for datagrams, then those that echo streams, those that serve the page, and the keepers.
pub fn service_at(slot: usize) -> Service
    ensures { result ≡ service_at slot }
{
    if slot == 0 {
        Service::Datagrams
    } else if slot <= ECHOES {
        Service::Streams
    } else if slot <= ECHOES + PAGES {
        Service::Page
    } else {
        Service::Keeper
    }
}

/// The first of a service's slots, which stand one after the other.
pub fn first_slot(service: Service) -> usize
    ensures slot { result ≡ first_slot service }
    ensures small { result ≤ 69 }
{
    match service {
        Service::Datagrams => 0,
        Service::Streams => 1,
        Service::Page => 1 + ECHOES,
        Service::Keeper => 1 + ECHOES + PAGES,
    }
}

/// How many sockets a service has.
pub fn socket_count(service: Service) -> usize
    ensures count { result ≡ socket_count service }
    ensures small { result ≤ 64 }
{
    match service {
        Service::Datagrams => 1,
        Service::Streams => ECHOES,
        Service::Page => PAGES,
        Service::Keeper => 2,
    }
}

/// Where the socket is that takes the SYNs for this service's port that fall to none of its own.
pub fn keeper_slot(service: Service) -> usize
    ensures { result ≡ keeper_slot service }
{
    match service {
        Service::Page => 2 + ECHOES + PAGES,
        _ => 1 + ECHOES + PAGES,
    }
}

pub fn port_of(service: Service) -> u16
    ensures { result ≡ port_of service }
{
    match service {
        Service::Page => PAGE_PORT,
        _ => ECHO_PORT,
    }
}

/// How many datagrams are sent back in a turn, at most.
#[tactic(auto, unfolding(crate::specs::Services::datagram_count))]
fn datagram_count() -> usize
    ensures { result ≡ datagram_count }
{
    DATAGRAMS
}

/// Sends back so many of the datagrams that wait.
fn echo_datagrams(socket: &mut udp::Socket, count: usize, buffer: &mut [u8])
    ensures { socket.new ≡ times count (datagram_echoed (length buffer.old)) socket.old }
{
    for _ in 0..count {
        echo_datagram(socket, buffer);
    }
}

fn serve_datagrams(socket: &mut Socket, buffer: &mut [u8])
    ensures { socket.new ≡ datagrams_served (length buffer.old) socket.old }
{
    if let Socket::Udp(socket) = socket {
        echo_datagrams(socket, datagram_count(), buffer);
    }
}

fn serve_stream(socket: &mut Socket, buffer: &mut [u8])
    ensures { socket.new ≡ stream_served (length buffer.old) socket.old }
{
    if let Socket::Tcp(socket) = socket {
        echo_stream(socket, buffer);
    }
}

fn serve_request(socket: &mut Socket, session: &mut Session, moment: &Moment, request: &mut [u8])
    ensures { PageServed moment.now (length request.old) socket.old session.old socket.new session.new }
{
    if let Socket::Tcp(socket) = socket {
        serve_site(socket, session, &moment.counts, request);
        watch(socket, session, moment);
    }
}

/// A service does what can be done now.
fn serve_socket(
    service: Service,
    socket: &mut Socket,
    session: &mut Session,
    moment: &Moment,
    buffer: &mut [u8],
    request: &mut [u8],
)
    requires buffer { length buffer.old ≡ echo_room }
    requires request { length request.old ≡ most_request }
    ensures { ServesAs moment.now service socket.old session.old socket.new session.new }
{
    match service {
        Service::Datagrams => serve_datagrams(socket, buffer),
        Service::Streams => serve_stream(socket, buffer),
        Service::Page => serve_request(socket, session, moment, request),
        Service::Keeper => {}
    }
}

/// A service does what can be done now, if there is a socket.
pub fn serve_slot(
    service: Service,
    slot: &mut SocketStorage<Socket>,
    session: &mut Session,
    moment: &Moment,
    buffer: &mut [u8],
    request: &mut [u8],
)
    requires buffer { length buffer.old ≡ echo_room }
    requires request { length request.old ≡ most_request }
    ensures { SlotServes moment.now service slot.old session.old slot.new session.new }
{
    if let Some(item) = &mut slot.inner {
        serve_socket(service, &mut item.socket, session, moment, buffer, request);
    }
}

/// Whether there is a stream's socket to which no more can be written: its service is done with it.
pub fn is_over(slot: &SocketStorage<Socket>) -> bool
    ensures { result ≡ is_over slot.now }
{
    match &slot.inner {
        Some(
            Item {
                socket: Socket::Tcp(socket),
                ..
            },
        ) => !socket.may_send(),
        _ => false,
    }
}
