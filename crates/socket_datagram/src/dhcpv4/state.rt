//! The client's states (RFC 2131, figure 5), and what time does to them.
ghost use Rattle.std.specs.Prelude.{◌≡◌};
ghost use Rattle.socket_datagram.specs.DhcpClient.States.{lease_of, turn_before, turn_of, turn_with, poll_before, poll_of, is_asked, is_same};

use crate::dhcpv4::config::ServerInfo;
use crate::dhcpv4::instants::earlier;
use crate::dhcpv4::lease::Lease;
use crate::dhcpv4::request::Kind;
use ip_wire::Ipv4Address;
use net_base::{Duration, Instant};
use socket_context::PollAt;

/// The client asked for offers.
#[derive(Clone, Copy, Debug)]
pub struct Selecting {
    /// When it asks again.
    pub retry_at: Instant,
    /// How long it waits then.
    pub wait: Duration,
}

/// The client asks for what a server offered.
#[derive(Clone, Copy, Debug)]
pub struct Requesting {
    /// When it asks, or asks again.
    pub retry_at: Instant,
    /// How long it waits then.
    pub wait: Duration,
    /// How often it asked.
    pub retry: u16,
    pub server: ServerInfo,
    pub requested_ip: Ipv4Address,
}

/// A state of the client.
#[derive(Clone, Copy, Debug)]
pub enum ClientState {
    /// Nothing was asked yet; with an instant, nothing is before it.
    Init(Option<Instant>),
    Selecting(Selecting),
    Requesting(Requesting),
    /// There is a lease, and nothing to ask.
    Bound(Lease),
    /// The server of the lease was asked for more; it is asked again at this instant.
    Renewing(Lease, Instant),
    /// All servers were asked for more; they are asked again at this instant.
    Rebinding(Lease, Instant),
}

/// What a state does at an instant.
#[derive(Clone, Copy, Debug)]
pub enum Turn {
    /// Nothing.
    Wait,
    /// It begins again: the lease is over, or a server doesn't answer.
    GiveUp,
    /// It sends this.
    Send(Kind),
}

impl ClientState {
    /// The lease, if there is one.
    pub fn lease(&self) -> Option<Lease>
        ensures { result ≡ lease_of self.now }
    {
        match self {
            ClientState::Bound(lease) => Some(*lease),
            ClientState::Renewing(lease, _) => Some(*lease),
            ClientState::Rebinding(lease, _) => Some(*lease),
            ClientState::Init(_) => None,
            ClientState::Selecting(_) => None,
            ClientState::Requesting(_) => None,
        }
    }

    /// What is done at an instant by a client that begins again after so many requests.
    pub fn turn(&self, now: Instant, retries: u16) -> Turn
        ensures { result ≡ turn_of now retries self.now }
    {
        match self {
            ClientState::Init(begins_at) => turn_before(now, *begins_at),
            ClientState::Selecting(state) => {
                if now < state.retry_at {
                    Turn::Wait
                } else {
                    Turn::Send(Kind::Discover)
                }
            }
            ClientState::Requesting(state) => {
                if now < state.retry_at {
                    Turn::Wait
                } else if state.retry >= retries {
                    Turn::GiveUp
                } else {
                    Turn::Send(Kind::Request(*state))
                }
            }
            ClientState::Bound(lease) => turn_with(now, lease, lease.refresh_at),
            ClientState::Renewing(lease, retry_at) => turn_with(now, lease, *retry_at),
            ClientState::Rebinding(lease, retry_at) => turn_with(now, lease, *retry_at),
        }
    }

    /// When there is something to do next.
    pub fn poll_at(&self) -> PollAt
        ensures { result ≡ poll_of self.now }
    {
        match self {
            ClientState::Init(begins_at) => poll_before(*begins_at),
            ClientState::Selecting(state) => PollAt::Time(state.retry_at),
            ClientState::Requesting(state) => PollAt::Time(state.retry_at),
            ClientState::Bound(lease) => PollAt::Time(earlier(lease.expires_at, lease.refresh_at)),
            ClientState::Renewing(lease, retry_at) => {
                PollAt::Time(earlier(lease.expires_at, *retry_at))
            }
            ClientState::Rebinding(lease, retry_at) => {
                PollAt::Time(earlier(lease.expires_at, *retry_at))
            }
        }
    }

    /// Whether the client waits for an acknowledgement of this server.
    pub fn is_asked(&self, server: &ServerInfo) -> bool
        ensures { result ≡ is_asked self.now server.now }
    {
        match self {
            ClientState::Requesting(state) => is_same(&state.server, server),
            ClientState::Renewing(lease, _) => is_same(&lease.config.server, server),
            ClientState::Rebinding(_, _) => true,
            ClientState::Init(_) => false,
            ClientState::Selecting(_) => false,
            ClientState::Bound(_) => false,
        }
    }
}

/// What a client does at an instant that may begin at another, if there is one, else at once.
fn turn_before(now: Instant, begins_at: Option<Instant>) -> Turn
    ensures { result ≡ turn_before now begins_at }
{
    match begins_at {
        Some(begins_at) => {
            if now < begins_at {
                Turn::Wait
            } else {
                Turn::Send(Kind::Discover)
            }
        }
        None => Turn::Send(Kind::Discover),
    }
}

/// When it wants to be polled.
fn poll_before(begins_at: Option<Instant>) -> PollAt
    ensures { result ≡ poll_before begins_at }
{
    match begins_at {
        Some(begins_at) => PollAt::Time(begins_at),
        None => PollAt::Now,
    }
}

/// Whether two servers have one identifier.
fn is_same(one: &ServerInfo, other: &ServerInfo) -> bool
    ensures { result ≡ is_same one.now other.now }
{
    one.identifier.octets() == other.identifier.octets()
}

/// What is done with a lease that is asked for more at an instant.
fn turn_with(now: Instant, lease: &Lease, ask_at: Instant) -> Turn
    ensures { result ≡ turn_with now lease.now ask_at }
{
    if lease.expires_at <= now {
        Turn::GiveUp
    } else if now < ask_at {
        Turn::Wait
    } else if now < lease.rebind_at {
        Turn::Send(Kind::Renew(*lease))
    } else {
        Turn::Send(Kind::Rebind(*lease))
    }
}
