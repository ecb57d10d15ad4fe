//! Which sockets have nothing to do until they are called, or something arrives, and by which key they are found then.
ghost use Rattle.std.specs.Prelude.{◌≡◌};
ghost use Rattle.sockets.specs.Idle.{waits_for_arrival, is_idle_connection, is_idle_port};

use crate::socket::Socket;
use crate::{keys, tcp, udp};
use base_index::Idle;
use ip_wire::IpAddress;
use net_base::{ChecksumCapabilities, Instant, Rand};
use socket_context::{Context, PollAt};

/// When a connection with nothing queued wants to be polled is the same at each IP MTU.
const SOME_IP_MTU: usize = 1500;

impl Idle for Socket {
    ghost use Rattle.sockets.specs.Idle.{is_idle};
    ghost use Rattle.sockets.specs.Keys.{key_of};

    ghost idle = { is_idle };

    ghost key = { key_of };

    fn is_idle(&self) -> bool {
        match self {
            Socket::Udp(socket) => is_idle_port(socket),
            Socket::Tcp(socket) => is_idle_connection(socket),
            Socket::Raw(_) | Socket::Icmp(_) | Socket::Dhcpv4(_) | Socket::Dns(_) => false,
        }
    }

    fn key(&self) -> u64 {
        match self {
            Socket::Raw(_) => keys::of_raw(),
            Socket::Icmp(_) => keys::of_icmp(),
            Socket::Udp(socket) => keys::of_port(socket.endpoint().port),
            Socket::Tcp(socket) => keys::of_connection(socket),
            Socket::Dhcpv4(_) | Socket::Dns(_) => keys::of_clients(),
        }
    }
}

/// Whether nothing is queued or offered.
fn is_idle_port(socket: &udp::Socket) -> bool
    ensures { result ≡ is_idle_port socket.now }
{
    waits_for_arrival(socket.poll_at()) && socket.offered().is_none()
}

/// Whether nothing is queued or offered, and it waits for an arrival.
fn is_idle_connection(socket: &tcp::Socket) -> bool
    ensures { result ≡ is_idle_connection socket.now }
{
    socket.send_queue() == 0
        && socket.offered().is_none()
        && waits_for_arrival(socket.poll_at(&SomeLink::new()))
}

/// Whether nothing but an arrival makes a socket want to be polled.
fn waits_for_arrival(at: PollAt) -> bool
    ensures { result ≡ waits_for_arrival at }
{
    match at {
        PollAt::Ingress => true,
        PollAt::Now | PollAt::Time(_) => false,
    }
}

/// A link with nobody on it, for a connection whose answer doesn't depend on the link.
#[derive(Drop)]
struct SomeLink {
    words: Rand,
}

impl SomeLink {
    fn new() -> SomeLink {
        SomeLink {
            words: Rand::new(0),
        }
    }
}

impl Context for SomeLink {
    ghost use Rattle.std.specs.Prelude.{refl, false, None, pos};
    ghost use Rattle.net_base.specs.RandomWords.{next_state};
    ghost use Rattle.net_base.specs.Capabilities.{all_checksums};
    ghost use Rattle.net_base.specs.Checksum.TheVariants as checksum;
    ghost use Rattle.sockets.specs.Idle.{some_ip_mtu};

    ghost context = { λ c. record {
      instant = pos 0;
      has_ip_addr = λ a. false;
      source_for = λ a. None;
      is_broadcast = λ a. false;
      ip_mtu = some_ip_mtu;
      checksums = all_checksums checksum.Both;
      isn_key = None;
      random = c.words;
    } };

    ghost drawn = { λ c. record c { words = next_state c.words } };

    fn now(&self) -> Instant {
        Instant::ZERO
    }

    fn has_ip_addr(&self, _addr: &IpAddress) -> bool {
        false
    }

    fn get_source_address(&self, _dst_addr: &IpAddress) -> Option<IpAddress> {
        None
    }

    fn is_broadcast(&self, _addr: &IpAddress) -> bool {
        false
    }

    fn ip_mtu(&self) -> usize {
        SOME_IP_MTU
    }

    fn checksum_caps(&self) -> ChecksumCapabilities {
        ChecksumCapabilities::default()
    }

    fn isn_key(&self) -> Option<[u8; 16]> {
        None
    }

    fn rand_u32(&mut self) -> u32 {
        self.words.rand_u32()
    }

    ghost drawn_context = { λ c. refl };
}
