//! Tests of the mark of a socket that waits for its neighbour.
use crate::cases::{Goes, Life, all_live, first_wrong};
use iface_egress::Meta;
use ip_wire::{IpAddress, Ipv4Address};
use net_base::{Duration, Instant};
use socket_context::PollAt;
use std::alloc::Global;

const NEIGHBOR: IpAddress = IpAddress::Ipv4(Ipv4Address([192, 168, 1, 2]));

/// When a socket is polled: now, so many microseconds after the start, or when a packet comes.
enum When {
    Now,
    At(u32),
    Ingress,
}

fn at(micros: u32) -> Instant {
    Instant::from_micros(i64::from(micros))
}

fn poll_at(when: &When) -> PollAt {
    match when {
        When::Now => PollAt::Now,
        When::At(micros) => PollAt::Time(at(*micros)),
        When::Ingress => PollAt::Ingress,
    }
}

/// A call of a mark, and what it must answer. Instants are microseconds after the start.
enum Step {
    /// The neighbour is missing at 1 s, until 2 s.
    Misses,
    /// Which neighbour it waits for.
    Has(Option<IpAddress>),
    /// When to poll a socket that says this, with its neighbour there or not, asked at this instant.
    Polls(When, bool, u32, When),
    /// Whether the socket may send at this instant, with its neighbour there or not.
    Sends(u32, bool, bool),
    /// It waits for so many microseconds.
    WaitsFor(u64),
}

use Step::{Has, Misses, Polls, Sends, WaitsFor};

impl Goes<Meta> for Step {
    fn goes(&self, _alloc: Global, meta: &mut Meta) -> bool {
        match self {
            Misses => {
                meta.neighbor_missing(at(1_000_000), NEIGHBOR, at(2_000_000));
                true
            }
            Has(neighbor) => meta.neighbor() == *neighbor,
            Polls(said, is_there, now, when) => {
                meta.poll_at(poll_at(said), *is_there, at(*now)) == poll_at(when)
            }
            Sends(now, is_there, answer) => meta.egress_permitted(at(*now), *is_there) == *answer,
            WaitsFor(micros) => Meta::discovery_silent_time() == Duration::from_micros(*micros),
        }
    }
}

/// A mark, from its beginning on.
struct Mark(&'static [Step]);

impl Life for Mark {
    fn stops_at(&self, alloc: Global) -> Option<usize> {
        first_wrong(alloc, &mut Meta::default(), self.0)
    }
}

static MARKS: [Mark; 4] = [
    // A new socket doesn't wait.
    Mark(&[
        Polls(When::Now, false, 1_500_000, When::Now),
        Sends(1_500_000, false, true),
        Has(None),
    ]),
    // It waits for a second.
    Mark(&[
        Misses,
        Has(Some(NEIGHBOR)),
        Polls(When::Ingress, false, 1_500_000, When::At(2_000_000)),
        Polls(When::Now, false, 1_500_000, When::At(2_000_000)),
        Sends(1_500_000, false, false),
        Polls(When::Now, true, 1_500_000, When::Now),
    ]),
    // It asks again after a second.
    Mark(&[
        Misses,
        Polls(When::Ingress, false, 2_000_000, When::Ingress),
        Sends(2_000_000, false, true),
        Has(Some(NEIGHBOR)),
        WaitsFor(1_000_000),
    ]),
    // A found neighbour ends the wait.
    Mark(&[Misses, Sends(1_500_000, true, true), Has(None)]),
];

#[test]
fn marks_live(rt: HostRuntime) {
    all_live(&rt, &MARKS);
}
