//! A query, and how it stands.
ghost use Rattle.std.specs.Prelude.{◌≡◌};
ghost use Rattle.net_base.specs.Time.{IsMoment};
ghost use Rattle.socket_datagram.specs.DnsClient.Turns.{query_of, next_offset, asked_next, sent_as, due_at, doubled, retry_after};
ghost use Rattle.socket_datagram.specs.DnsClient.Processed.{is_for};

use crate::dns::state::DNS_PORT;
use ip_wire::{IpAddress, IpRepr, UdpRepr};
use net_base::{Duration, Instant};
use socket_context::addresses::is_same_address;
use wire_dns::DnsQuestion;

/// How long the client waits for an answer at first, in microseconds.
pub(crate) const FIRST_WAIT: u64 = 1_000_000;
/// How long it waits at most.
const LONGEST_WAIT: u64 = 10_000_000;
/// How long one server is asked.
const PATIENCE: u64 = 10_000_000;

/// A query that has no answer yet.
#[derive(Debug, Drop)]
pub struct Query {
    /// What is asked. An answer repeats it.
    pub question: DnsQuestion,
    /// The number that an answer names.
    pub transaction_id: u16,
    /// The port that the query is sent from, and that an answer comes to.
    pub port: u16,
    /// The place of the server that is asked.
    pub server: u8,
    /// The server that the query was sent to.
    pub asked: Option<IpAddress>,
    /// When it is sent, or sent again.
    pub retry_at: Instant,
    /// How long the client waits then.
    pub wait: Duration,
    /// From when on the next server is asked.
    pub next_at: Instant,
}

impl Query {
    /// A query that begins at this instant with the first server.
    pub(crate) fn begun(
        now: Instant,
        question: DnsQuestion,
        transaction_id: u16,
        port: u16,
    ) -> Query
        requires { IsMoment now }
        ensures { result ≡ query_of now question transaction_id port }
    {
        Query {
            question,
            transaction_id,
            port,
            server: 0,
            asked: None,
            retry_at: now,
            wait: Duration::from_micros(FIRST_WAIT),
            next_at: now + Duration::from_micros(PATIENCE),
        }
    }

    /// The place of the next server.
    pub(crate) fn next_offset(&self) -> u8
        ensures { result ≡ next_offset self.now }
    {
        self.server.saturating_add(1)
    }

    /// Begins with the next server.
    pub(crate) fn ask_next(&mut self, now: Instant)
        requires { IsMoment now }
        ensures { self.new ≡ asked_next now self.old }
    {
        self.server = self.next_offset();
        self.asked = None;
        self.retry_at = now;
        self.wait = Duration::from_micros(FIRST_WAIT);
        self.next_at = now + Duration::from_micros(PATIENCE);
    }

    /// It was sent.
    pub(crate) fn record_sent(&mut self, sending: &Sending)
        ensures { self.new ≡ sent_as self.old sending.now }
    {
        self.asked = Some(sending.server);
        self.retry_at = sending.retry_at;
        self.wait = sending.wait;
    }

    /// Whether a datagram comes from the server that it was sent to, and goes to the port that it was sent from.
    pub(crate) fn is_for(&self, ip_repr: &IpRepr, repr: &UdpRepr) -> bool
        ensures { result ≡ is_for self.now ip_repr.now repr.now }
    {
        match &self.asked {
            Some(server) => {
                repr.src_port == DNS_PORT
                    && repr.dst_port == self.port
                    && is_same_address(server, &ip_repr.src_addr())
            }
            None => false,
        }
    }

    /// When there is something to do.
    pub(crate) fn due_at(&self) -> Instant
        ensures { result ≡ due_at self.now }
    {
        if self.next_at < self.retry_at {
            self.next_at
        } else {
            self.retry_at
        }
    }
}

/// When a query is sent again that is sent at this instant.
pub(crate) fn retry_after(now: Instant, wait: Duration) -> Instant
    requires { IsMoment now }
    ensures { result ≡ retry_after now wait }
{
    now + Duration::from_micros(wait.total_micros().min(LONGEST_WAIT))
}

/// The wait after a wait: twice as long, and at most ten seconds.
pub(crate) fn doubled(wait: Duration) -> Duration
    ensures { result ≡ doubled wait }
{
    let wait = wait.total_micros().min(LONGEST_WAIT);
    Duration::from_micros((wait + wait).min(LONGEST_WAIT))
}

/// What sending the query makes of it.
#[derive(Clone, Copy, Debug)]
pub struct Sending {
    pub header: IpRepr,
    pub server: IpAddress,
    pub retry_at: Instant,
    pub wait: Duration,
}

/// What a query does at an instant.
#[derive(Clone, Copy)]
pub enum Turn {
    /// Nothing.
    Wait,
    /// It turns to the next server.
    Next,
    /// It is sent.
    Send(Sending),
}
