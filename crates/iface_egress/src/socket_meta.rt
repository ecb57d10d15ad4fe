//! What the interface keeps alongside a socket: whether it waits for a neighbour.
ghost use Rattle.std.specs.Prelude.{◌≡◌, ◌≤◌, ◌^◌, not};
ghost use Rattle.net_base.specs.Time.{IsMoment};
ghost use Rattle.iface_egress.specs.Meta.{waits, poll_at, freed, neighbor_of, silent_time, since_by, missed, has_waited, unmarked};

use ip_wire::IpAddress;
use net_base::{Duration, Instant};
use socket_context::PollAt;
use socket_context::addresses::is_same_address;

/// How long a socket waits before its neighbour is asked for again, in milliseconds.
const SILENT_MILLIS: u64 = 1_000;

/// The neighbour that a socket waits for, since when, and until when before it is asked again.
#[derive(Clone, Copy, Debug)]
pub struct Waiting {
    pub neighbor: IpAddress,
    pub since: Instant,
    pub silent_until: Instant,
}

/// The mark of a socket that waits for a neighbour.
#[derive(Clone, Copy, Debug, Default)]
pub struct Meta {
    pub waiting: Option<Waiting>,
}

impl Meta {
    /// How long a socket waits before its neighbour is asked for again.
    pub fn discovery_silent_time() -> Duration
        ensures { result ≡ silent_time }
    {
        Duration::from_millis(SILENT_MILLIS)
    }

    /// The neighbour that the socket waits for.
    pub fn neighbor(&self) -> Option<IpAddress>
        ensures { result ≡ neighbor_of self.now }
    {
        match &self.waiting {
            Some(waiting) => Some(waiting.neighbor),
            None => None,
        }
    }

    /// Whether the socket waits at this instant, where `has_neighbor` says whether its neighbour is found.
    fn waits(&self, has_neighbor: bool, timestamp: Instant) -> bool
        ensures { result ≡ waits self.now has_neighbor timestamp }
    {
        match &self.waiting {
            Some(waiting) => !has_neighbor && timestamp < waiting.silent_until,
            None => false,
        }
    }

    /// When the socket wants to be polled, where it says so itself and `has_neighbor` says whether its neighbour is found.
    pub fn poll_at(&self, socket_poll_at: PollAt, has_neighbor: bool, timestamp: Instant) -> PollAt
        ensures { result ≡ poll_at self.now socket_poll_at has_neighbor timestamp }
    {
        match &self.waiting {
            Some(waiting) if self.waits(has_neighbor, timestamp) => {
                PollAt::Time(waiting.silent_until)
            }
            _ => socket_poll_at,
        }
    }

    /// Whether the socket may send at this instant. Its mark goes where its neighbour is found.
    pub fn egress_permitted(&mut self, timestamp: Instant, has_neighbor: bool) -> bool
        ensures permitted { result ≡ not (waits self.old has_neighbor timestamp) }
        ensures after { self.new ≡ freed self.old has_neighbor }
    {
        let permitted = !self.waits(has_neighbor, timestamp);
        if has_neighbor {
            self.waiting = None;
        }
        permitted
    }

    /// Lets the socket wait for this neighbour, until this instant before it is asked again.
    pub fn neighbor_missing(
        &mut self,
        timestamp: Instant,
        neighbor: IpAddress,
        silent_until: Instant,
    )
        ensures { self.new ≡ missed self.old timestamp neighbor silent_until }
    {
        self.waiting = Some(Waiting {
            neighbor,
            since: self.since(&neighbor, timestamp),
            silent_until,
        });
    }

    /// Since when the socket waits for this neighbour: it keeps that as long as it waits for the same.
    fn since(&self, neighbor: &IpAddress, timestamp: Instant) -> Instant
        ensures { result ≡ since_by self.now.waiting neighbor.now timestamp }
    {
        match &self.waiting {
            Some(waiting) if is_same_address(&waiting.neighbor, neighbor) => waiting.since,
            _ => timestamp,
        }
    }

    /// Whether the socket has waited so long for this neighbour.
    pub fn has_waited(&self, neighbor: &IpAddress, span: Duration, timestamp: Instant) -> bool
        requires instant { IsMoment timestamp }
        requires short { span ≤ 2 ^ 61 }
        ensures { result ≡ has_waited self.now neighbor.now span timestamp }
    {
        match &self.waiting {
            Some(waiting) => {
                is_same_address(&waiting.neighbor, neighbor) && !(timestamp - span < waiting.since)
            }
            None => false,
        }
    }

    /// The socket doesn't wait any more.
    pub fn unmark(&mut self)
        ensures { self.new ≡ unmarked }
    {
        self.waiting = None;
    }
}
