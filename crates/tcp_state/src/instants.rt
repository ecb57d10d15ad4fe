//! Instants, and when something is due.
ghost use Rattle.std.specs.Prelude.{◌≡◌};
ghost use Rattle.net_base.specs.Time.{IsMoment};
ghost use Rattle.tcp_state.specs.Moments.{later, later_by, timeout_from, time_wait_from, next_challenge_from, tsval_end_from, is_due, is_over, earlier};

use crate::RoundTrip;
use net_base::{Duration, Instant};

/// The longest that a duration counts as where it is added to an instant, in microseconds.
const LONGEST: u64 = 1 << 61;
/// How long TIME-WAIT lasts, in microseconds.
const TIME_WAIT: u64 = 10_000_000;
/// How long after an answer to a segment that isn't acceptable no other goes, in microseconds.
const BETWEEN_DRAWS: u64 = 1_000_000;
/// How long a timestamp that came counts, 24 days, in microseconds.
const TSVAL_LIFE: u64 = 2_073_600_000_000;

/// The instant after a duration that the user set.
pub fn later(now: Instant, duration: Duration) -> Instant
    requires { IsMoment now }
    ensures { result ≡ later now duration }
{
    now + Duration::from_micros(duration.total_micros().min(LONGEST))
}

/// The instant after a duration that may be set.
pub fn later_by(now: Instant, duration: Option<Duration>) -> Option<Instant>
    requires { IsMoment now }
    ensures { result ≡ later_by now duration }
{
    match duration {
        None => None,
        Some(duration) => Some(later(now, duration)),
    }
}

/// The instant after the retransmission timeout.
pub fn timeout_from(now: Instant, round_trip: &RoundTrip) -> Instant
    requires { IsMoment now }
    ensures { result ≡ timeout_from now round_trip.now }
{
    now + Duration::from_micros(round_trip.timeout() as u64)
}

/// The end of TIME-WAIT that begins now.
pub fn time_wait_from(now: Instant) -> Instant
    requires { IsMoment now }
    ensures { result ≡ time_wait_from now }
{
    now + Duration::from_micros(TIME_WAIT)
}

/// When an answer to a segment that isn't acceptable may are retransmitted after one that goes now.
pub fn next_challenge_from(now: Instant) -> Instant
    requires { IsMoment now }
    ensures { result ≡ next_challenge_from now }
{
    now + Duration::from_micros(BETWEEN_DRAWS)
}

/// Until when a timestamp that comes now counts.
pub fn tsval_end_from(now: Instant) -> Instant
    requires { IsMoment now }
    ensures { result ≡ tsval_end_from now }
{
    now + Duration::from_micros(TSVAL_LIFE)
}

/// Whether the instant has come.
pub fn is_due(now: Instant, instant: Option<Instant>) -> bool
    ensures { result ≡ is_due now instant }
{
    match instant {
        None => false,
        Some(instant) => instant <= now,
    }
}

/// Whether a pause that ends at an instant is over, or there is none.
pub fn is_over(now: Instant, instant: Option<Instant>) -> bool
    ensures { result ≡ is_over now instant }
{
    instant.is_none() || is_due(now, instant)
}

/// The earlier of two instants.
pub fn earlier(one: Instant, other: Instant) -> Instant
    ensures { result ≡ earlier one other }
{
    if other < one { other } else { one }
}
