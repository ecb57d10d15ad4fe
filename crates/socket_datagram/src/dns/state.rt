//! How the last query of a socket stands.
ghost use Rattle.std.specs.Prelude.{◌≡◌};
ghost use Rattle.net_base.specs.Time.{IsMoment};
ghost use Rattle.socket_datagram.specs.DnsClient.Processed.{accepts};
ghost use Rattle.socket_datagram.specs.DnsClient.Turns.{poll_of};
ghost use Rattle.socket_datagram.specs.DnsClient.Value.{is_pending, result_of, server_at, has_next, ask_next, sent_by};

use crate::dns::error::GetQueryResultError;
use crate::dns::query::{Query, Sending};
use crate::dns::records::Addresses;
use ip_wire::{IpAddress, IpRepr, UdpRepr};
use net_base::Instant;
use socket_context::PollAt;

/// How many servers a socket asks.
pub const MAX_SERVERS: usize = 3;
/// The port of servers.
pub(crate) const DNS_PORT: u16 = 53;

/// How the last query stands.
#[derive(Debug, Drop)]
pub enum State {
    /// There is none, or its result was told.
    Idle,
    Pending(Query),
    Completed(Addresses),
    /// The name has no address, or no server answered.
    Failed,
    /// No server answered, and that is told.
    Unanswered,
}

impl State {
    /// Whether no answer came yet.
    pub fn is_pending(&self) -> bool
        ensures { result ≡ is_pending self.now }
    {
        match self {
            State::Pending(_) => true,
            State::Idle => false,
            State::Completed(_) => false,
            State::Failed => false,
            State::Unanswered => false,
        }
    }

    /// The addresses that were found.
    pub(crate) fn result(&self) -> Result<Addresses, GetQueryResultError>
        ensures { result ≡ result_of self.now }
    {
        match self {
            State::Completed(addresses) => Ok(*addresses),
            State::Pending(_) => Err(GetQueryResultError::Pending),
            State::Idle => Err(GetQueryResultError::Failed),
            State::Failed => Err(GetQueryResultError::Failed),
            State::Unanswered => Err(GetQueryResultError::Unanswered),
        }
    }

    /// Whether a datagram is for the query.
    pub(crate) fn accepts(&self, ip_repr: &IpRepr, repr: &UdpRepr) -> bool
        ensures { result ≡ accepts self.now ip_repr.now repr.now }
    {
        match self {
            State::Pending(query) => query.is_for(ip_repr, repr),
            State::Idle => false,
            State::Completed(_) => false,
            State::Failed => false,
            State::Unanswered => false,
        }
    }

    /// When there is something to do.
    pub(crate) fn poll_at(&self) -> PollAt
        ensures { result ≡ poll_of self.now }
    {
        match self {
            State::Pending(query) => PollAt::Time(query.due_at()),
            State::Idle => PollAt::Ingress,
            State::Completed(_) => PollAt::Ingress,
            State::Failed => PollAt::Ingress,
            State::Unanswered => PollAt::Ingress,
        }
    }

    /// Whether there is another server to ask.
    pub(crate) fn has_next(&self, servers: &[Option<IpAddress>; MAX_SERVERS]) -> bool
        ensures { result ≡ has_next servers.now self.now }
    {
        match self {
            State::Pending(query) => server_at(servers, query.next_offset()).is_some(),
            State::Idle => false,
            State::Completed(_) => false,
            State::Failed => false,
            State::Unanswered => false,
        }
    }

    /// Asks the next server.
    pub(crate) fn ask_next(&mut self, now: Instant)
        requires { IsMoment now }
        ensures { self.new ≡ ask_next now self.old }
    {
        match self {
            State::Pending(query) => query.ask_next(now),
            State::Idle => {}
            State::Completed(_) => {}
            State::Failed => {}
            State::Unanswered => {}
        }
    }

    /// The query was sent.
    pub(crate) fn record_sent(&mut self, sending: &Sending)
        ensures { self.new ≡ sent_by self.old sending.now }
    {
        match self {
            State::Pending(query) => query.record_sent(sending),
            State::Idle => {}
            State::Completed(_) => {}
            State::Failed => {}
            State::Unanswered => {}
        }
    }
}

/// The server at a slot, if there is one.
pub(crate) fn server_at(servers: &[Option<IpAddress>; MAX_SERVERS], slot: u8) -> Option<IpAddress>
    ensures { result ≡ server_at servers.now slot }
{
    match servers.get(slot as usize) {
        Some(server) => *server,
        None => None,
    }
}
