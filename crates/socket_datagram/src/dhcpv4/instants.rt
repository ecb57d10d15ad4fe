//! Instants and waits.
ghost use Rattle.std.specs.Prelude.{◌≡◌};
ghost use Rattle.net_base.specs.Time.{IsMoment};
ghost use Rattle.socket_datagram.specs.DhcpClient.Moments.{later, earlier, at_least, doubled, first_wait, spread, renew_wait};

use net_base::{Duration, Instant};

/// The longest that a duration counts as where it is added to an instant, in microseconds.
const LONGEST: u64 = 1 << 61;
/// The longest wait between requests, in microseconds (RFC 2131, section 4.1).
const LONGEST_WAIT: u64 = 64_000_000;
/// How much earlier or later than its wait a request may go, in microseconds (RFC 2131, section 4.1).
const SPREAD: u64 = 1_000_000;

/// The instant after a duration, which counts as at most 2^61 microseconds.
pub fn later(now: Instant, duration: Duration) -> Instant
    requires { IsMoment now }
    ensures { result ≡ later now duration }
{
    now + Duration::from_micros(duration.total_micros().min(LONGEST))
}

/// The earlier of two instants.
pub fn earlier(one: Instant, other: Instant) -> Instant
    ensures { result ≡ earlier one other }
{
    if other < one { other } else { one }
}

/// The longer of two durations.
pub fn at_least(one: Duration, other: Duration) -> Duration
    ensures { result ≡ at_least one other }
{
    Duration::from_micros(one.total_micros().max(other.total_micros()))
}

/// The wait that comes first.
pub fn first_wait(duration: Duration) -> Duration
    ensures { result ≡ first_wait duration }
{
    Duration::from_micros(duration.total_micros().min(LONGEST_WAIT))
}

/// The wait after a wait.
pub fn doubled(wait: Duration) -> Duration
    ensures { result ≡ doubled wait }
{
    let wait = wait.total_micros().min(LONGEST_WAIT);
    Duration::from_micros((wait + wait).min(LONGEST_WAIT))
}

/// A wait that a random word makes up to a second shorter or longer.
pub fn spread(wait: Duration, word: u32) -> Duration
    ensures { result ≡ spread wait word }
{
    let wait = wait.total_micros().min(LONGEST_WAIT);
    let random = word as u64 % (2 * SPREAD + 1);
    Duration::from_micros(wait.saturating_sub(SPREAD) + random)
}

/// How long a client waits that has so long until an instant of its lease: half of it, between the bounds, but never past
/// that instant.
pub fn renew_wait(rest: Duration, least: Duration, most: Duration) -> Duration
    ensures { result ≡ renew_wait rest least most }
{
    let half = rest.total_micros() / 2;
    let wait = half.min(most.total_micros()).max(least.total_micros());
    Duration::from_micros(wait.min(rest.total_micros()))
}
