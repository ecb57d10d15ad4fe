//! The retransmission timeout (RFC 6298), by a clock of milliseconds, or of microseconds where a setting asks
//! so.
ghost use Rattle.std.specs.Prelude.{◌≡◌, ◌<◌, ◌≤◌, ◌^◌, ◌+◌, ◌-◌, ◌*◌, ◌/◌, ℕ, pos, min, max, Some, None, Bool, true, false};
ghost use Rattle.net_base.specs.Time.{IsMoment, last_instant};
ghost use Rattle.tcp_state.specs.RoundTrip.{IsTimed, shortest_timeout, most_timeout, initial, least_of, probe_wait, with_least, clocked, smoothed, timeout_of};
ghost use Rattle.tcp_state.specs.RoundTrip.{srtt, shortest, late_wait, measured, micros_between, millis_between, advanced, is_reached, counts_tsecr};
ghost use Rattle.tcp_state.specs.RoundTrip.{tsecr_micros, echoed, timing, untimed, begun_late, backed_off, RoundTripValue, in_micros, distance, slack};

use net_base::{Duration, Instant};
use std::marker::Model;

/// The smoothed round trip, its variation and the shortest one, in microseconds.
#[derive(Clone, Copy, Debug, PartialEq, Eq)]
pub struct Estimate {
    pub smoothed: u64,
    pub variation: u64,
    pub shortest: u64,
}

/// The segment that is timed: how far past SND.UNA it ends, and when it was sent.
#[derive(Clone, Copy, Debug, PartialEq, Eq)]
pub struct Sample {
    pub ends: u32,
    pub since: Instant,
}

/// The round trip of a connection as far as it is known, and the timeout that it gives. One segment
/// at a time is timed.
#[derive(Clone, Copy, Debug, PartialEq, Eq)]
pub struct RoundTrip {
    estimate: Option<Estimate>,
    timeout: u32,
    least: u32,
    sample: Option<Sample>,
}

impl Model for RoundTrip {
    ghost use Rattle.tcp_state.specs.RoundTrip.{RoundTripValue, IsTimed};

    ghost Value = { RoundTripValue };

    ghost view = { λ r. record { estimate = r.estimate; timeout = r.timeout; least = r.least; sample = r.sample } };

    ghost invariant = { λ r. IsTimed (record { estimate = r.estimate; timeout = r.timeout; least = r.least; sample = r.sample }) };

    ghost inverse = { λ v. record { estimate = v.estimate; timeout = v.timeout; least = v.least; sample = v.sample } };
}

/// Before the first sample, and the least as long as no other is set, in microseconds, as all that follow.
const FIRST_TIMEOUT: u32 = 1_000_000;

/// The least timeout isn't set below it.
const SHORTEST_TIMEOUT: u64 = 10_000;

const MOST_TIMEOUT: u32 = 60_000_000;

/// The timeout lies above the smoothed round trip by this at least, or by the least timeout.
const MOST_SLACK: u32 = 200_000;

/// A loss probe waits no less.
const LEAST_PROBE_WAIT: u64 = 20_000;

/// How long the remote may delay the acknowledgement of one segment.
const DELAYED_ACK: u64 = 200_000;

const LATE_TIMEOUT: u32 = 3_000_000;

/// A unit of the coarse clock.
const MILLISECOND: u64 = 1000;

impl RoundTrip {
    /// Nothing is known at the start of a connection: the timeout is a second.
    pub const fn new() -> RoundTrip
        ensures { result ≡ initial }
    {
        RoundTrip {
            estimate: None,
            timeout: FIRST_TIMEOUT,
            least: FIRST_TIMEOUT,
            sample: None,
        }
    }

    /// The retransmission timeout in microseconds.
    pub const fn timeout(&self) -> u32
        ensures value { result ≡ self.now.timeout }
        ensures timed { IsTimed self.now }
    {
        self.timeout
    }

    /// The least timeout.
    pub const fn least(&self) -> Duration
        ensures value { result ≡ self.now.least }
    {
        Duration::from_micros(self.least as u64)
    }

    /// The smoothed round trip in microseconds, 0 where none is known.
    pub fn smoothed(&self) -> u64
        ensures value { result ≡ srtt self.now }
        ensures small { result ≤ last_instant }
    {
        match self.estimate {
            None => 0,
            Some(estimate) => estimate.smoothed,
        }
    }

    /// The shortest round trip that was measured, in microseconds, 0 where none was.
    pub fn shortest(&self) -> u64
        ensures value { result ≡ shortest self.now }
        ensures small { result ≤ last_instant }
    {
        match self.estimate {
            None => 0,
            Some(estimate) => estimate.shortest,
        }
    }

    /// How long a loss probe waits, in microseconds, where a round trip is known. `alone` says that no more
    /// than a segment is in flight, whose acknowledgement the remote may delay.
    pub fn probe_wait(&self, alone: bool) -> Option<u64>
        ensures { result ≡ probe_wait self.now alone }
    {
        let delay = if alone { DELAYED_ACK } else { 0 };
        match self.estimate {
            None => None,
            Some(estimate) => Some((2 * estimate.smoothed).max(LEAST_PROBE_WAIT) + delay),
        }
    }

    /// How long what may only be late is waited for, in microseconds: so many quarters of the shortest round
    /// trip, but no longer than the smoothed one.
    pub fn late_wait(&self, quarters: u8) -> u64
        ensures value { result ≡ late_wait self.now quarters }
        ensures small { result < 2 ^ 62 }
    {
        (self.shortest() / 4)
            .saturating_mul(quarters as u64)
            .min(self.smoothed())
    }

    /// Sets the least timeout, in whole milliseconds between 10 and a minute. One that is higher than
    /// the timeout counts at once, another from the next round trip on.
    pub fn set_least(&mut self, least: Duration)
        ensures { self.new ≡ with_least least self.old }
    {
        self.least = least_of(least);
        self.timeout = self.timeout.max(self.least);
    }

    /// SND.UNA rose by so much. `fine` says that the clock is one of microseconds.
    pub fn advance(&mut self, by: u32, now: Instant, fine: bool)
        requires { IsMoment now }
        ensures { self.new ≡ advanced fine self.old by now }
    {
        let Some(sample) = self.sample else {
            return;
        };
        if sample.ends <= by {
            self.measure(clocked(micros_between(sample.since, now), fine), fine);
        } else {
            self.sample = Some(Sample {
                ends: sample.ends - by,
                since: sample.since,
            });
        }
    }

    /// SND.UNA rises by so much, and an echo tells of a round trip of so many milliseconds. It counts
    /// where what is timed is acknowledged, or nothing is timed; with a fine clock where nothing is.
    pub fn take_rtt_of_tsecr(&mut self, by: u32, millis: u32, fine: bool)
        ensures { self.new ≡ echoed fine self.old by millis }
    {
        if self.counts_tsecr(by, fine) {
            self.measure(tsecr_micros(millis, fine), fine);
        }
    }

    /// Whether an echo counts where SND.UNA rises by so much.
    fn counts_tsecr(&self, by: u32, fine: bool) -> bool
        ensures { result ≡ counts_tsecr fine self.now.sample by }
    {
        if fine {
            self.sample.is_none()
        } else {
            self.is_reached(by)
        }
    }

    /// Whether nothing is timed that ends past so much.
    fn is_reached(&self, by: u32) -> bool
        ensures { result ≡ is_reached self.now.sample by }
    {
        match self.sample {
            None => true,
            Some(sample) => sample.ends <= by,
        }
    }

    /// A segment that ends so far past SND.UNA is sent: it is timed, if none is.
    pub fn time(&mut self, ends: u32, now: Instant)
        requires { IsMoment now }
        ensures { self.new ≡ timing self.old ends now }
    {
        if self.sample.is_none() {
            self.sample = Some(Sample { ends, since: now });
        }
    }

    /// What was sent is sent again: it is timed no longer.
    pub const fn forget_sample(&mut self)
        ensures { self.new ≡ untimed self.old }
    {
        self.sample = None;
    }

    /// Data begins to go after the SYN was lost: the timeout is three seconds, if no round trip is
    /// known.
    pub fn begin_late(&mut self)
        ensures { self.new ≡ begun_late self.old }
    {
        if self.estimate.is_none() {
            self.timeout = LATE_TIMEOUT.max(self.least);
        }
    }

    /// Doubles the timeout.
    pub fn back_off(&mut self)
        ensures { self.new ≡ backed_off self.old }
    {
        self.timeout = (2 * self.timeout).min(MOST_TIMEOUT);
    }

    /// Takes a round trip of so many microseconds into account.
    fn measure(&mut self, micros: u64, fine: bool)
        requires { micros ≤ last_instant }
        ensures { self.new ≡ measured fine self.old micros }
    {
        let estimate = match self.estimate {
            None => Estimate {
                smoothed: micros,
                variation: clocked(micros / 2, fine),
                shortest: micros,
            },
            Some(old) => Estimate {
                smoothed: clocked(smoothed_with(old.smoothed, micros), fine),
                variation: clocked(
                    (3 * old.variation + old.smoothed.abs_diff(micros)) / 4,
                    fine,
                ),
                shortest: old.shortest.min(micros),
            },
        };
        self.timeout = timeout_of(self.least, &estimate);
        self.estimate = Some(estimate);
        self.sample = None;
    }
}

/// So many microseconds as a clock counts them, in whole milliseconds if it isn't fine.
fn clocked(micros: u64, fine: bool) -> u64
    ensures value { result ≡ clocked fine micros }
    ensures no_more { result ≤ micros }
{
    if fine {
        micros
    } else {
        micros / MILLISECOND * MILLISECOND
    }
}

/// What an echo tells that is so many milliseconds old, in microseconds.
fn tsecr_micros(millis: u32, fine: bool) -> u64
    ensures { result ≡ tsecr_micros fine millis }
{
    (millis as u64 + fine as u64) * MILLISECOND
}

/// An eighth of the way from a smoothed round trip to this one.
fn smoothed_with(smoothed: u64, micros: u64) -> u64
    requires { (smoothed ≤ last_instant) × (micros ≤ last_instant) }
    ensures value { result ≡ (7 * smoothed + micros) / 8 }
    ensures small { result ≤ last_instant }
{
    ((7 * smoothed as u128 + micros as u128) / 8) as u64
}

/// The least timeout where a user asks for this one.
fn least_of(duration: Duration) -> u32
    ensures value { result ≡ least_of duration }
    ensures bounded { (shortest_timeout ≤ result) × (result ≤ most_timeout) }
{
    (duration.total_millis() * MILLISECOND)
        .max(SHORTEST_TIMEOUT)
        .min(MOST_TIMEOUT as u64) as u32
}

/// The timeout that an estimate gives.
fn timeout_of(least: u32, estimate: &Estimate) -> u32
    requires { (estimate.now.smoothed ≤ last_instant) × (estimate.now.variation ≤ last_instant) }
    ensures { result ≡ timeout_of least estimate.now }
{
    (estimate.smoothed + (4 * estimate.variation).max(least.min(MOST_SLACK) as u64))
        .max(least as u64)
        .min(MOST_TIMEOUT as u64) as u32
}

/// The microseconds from one instant to another, none where that isn't later.
fn micros_between(since: Instant, now: Instant) -> u64
    requires { IsMoment since × IsMoment now }
    ensures value { result ≡ micros_between since now }
    ensures small { result ≤ last_instant }
{
    if since < now {
        (now - since).total_micros()
    } else {
        0
    }
}

/// The whole milliseconds.
pub(crate) fn millis_between(since: Instant, now: Instant) -> u64
    requires { IsMoment since × IsMoment now }
    ensures value { result ≡ millis_between since now }
    ensures small { result < 2 ^ 52 }
{
    micros_between(since, now) / MILLISECOND
}

/// Runs on numerals: the timeout doubles up to a minute, and follows the round trips, in whole milliseconds.
pub fn timeouts()
    ensures first { initial.timeout ≡ 1_000_000 }
    ensures doubled { (backed_off initial).timeout ≡ 2_000_000 }
    ensures twice { (backed_off (backed_off initial)).timeout ≡ 4_000_000 }
    ensures fifth { (backed_off (backed_off (backed_off (backed_off (backed_off initial))))).timeout ≡ 32_000_000 }
    ensures last { (backed_off (backed_off (backed_off (backed_off (backed_off (backed_off initial)))))).timeout ≡ 60_000_000 }
    ensures short { (measured false initial 100_000).timeout ≡ 1_000_000 }
    ensures long { (measured false initial 801_000).timeout ≡ 2_401_000 }
    ensures second { measured false (measured false initial 801_000) 700_000 ≡
        record initial { estimate = Some (record { smoothed = 788_000; variation = 325_000; shortest = 700_000 }); timeout = 2_088_000 } }
    ensures whole { millis_between (pos 1_500) (pos 4_499) ≡ 2 }
    ensures timed { advanced false (advanced false (timing initial 10 (pos 0)) 4 (pos 500_000)) 6 (pos 801_999) ≡ measured false initial 801_000 }
{}

/// Runs on numerals with a least timeout of 200 ms: the first timeout is a second, then it lies 200 ms
/// above round trips of 100 ms, however steady they are, and each more costs the doubling. What may be
/// set lies between 10 ms and a minute.
pub fn least_timeouts()
    ensures first { (with_least 200_000 initial).timeout ≡ 1_000_000 }
    ensures one { measured false (with_least 200_000 initial) 100_000 ≡
        record initial { estimate = Some (record { smoothed = 100_000; variation = 50_000; shortest = 100_000 }); timeout = 300_000; least = 200_000 } }
    ensures two { (measured false (measured false (with_least 200_000 initial) 100_000) 100_000).timeout ≡ 300_000 }
    ensures moved { (measured false (measured false (with_least 200_000 initial) 100_000) 300_000).timeout ≡ 473_000 }
    ensures short { (measured false (with_least 200_000 initial) 1000).timeout ≡ 201_000 }
    ensures steady { (timeout_of 10_000 (record { smoothed = 100_000; variation = 0; shortest = 100_000 })) ≡ 110_000 }
    ensures long { (timeout_of 1_000_000 (record { smoothed = 1_300_000; variation = 0; shortest = 1_300_000 })) ≡ 1_500_000 }
    ensures doubled { (backed_off (measured false (with_least 200_000 initial) 100_000)).timeout ≡ 600_000 }
    ensures raised { (with_least 5_000_000 initial).timeout ≡ 5_000_000 }
    ensures late { (begun_late (with_least 200_000 initial)).timeout ≡ 3_000_000 }
    ensures later { (begun_late (with_least 5_000_000 initial)).timeout ≡ 5_000_000 }
    ensures lowest { least_of 9_999 ≡ 10_000 }
    ensures between { least_of 200_999 ≡ 200_000 }
    ensures highest { least_of 90_000_000 ≡ 60_000_000 }
{}

/// Runs on numerals with a clock of microseconds, over a path of 0.3 ms and one of 25 ms, with a least timeout
/// of 10 ms.
pub fn fine_timeouts()
    ensures first { measured true (with_least 10_000 initial) 301 ≡
        record initial { estimate = Some (record { smoothed = 301; variation = 150; shortest = 301 }); timeout = 10_301; least = 10_000 } }
    ensures second { measured true (measured true (with_least 10_000 initial) 301) 287 ≡
        record initial { estimate = Some (record { smoothed = 299; variation = 116; shortest = 287 }); timeout = 10_299; least = 10_000 } }
    ensures third { measured true (measured true (measured true (with_least 10_000 initial) 301) 287) 5412 ≡
        record initial { estimate = Some (record { smoothed = 938; variation = 1365; shortest = 287 }); timeout = 10_938; least = 10_000 } }
    ensures long { (measured true (with_least 10_000 initial) 25_301).timeout ≡ 75_901 }
    ensures longer { measured true (measured true (with_least 10_000 initial) 25_301) 31_007 ≡
        record initial { estimate = Some (record { smoothed = 26_014; variation = 10_914; shortest = 25_301 }); timeout = 69_670; least = 10_000 } }
    ensures timed { advanced true (advanced true (timing initial 10 (pos 0)) 4 (pos 500_000)) 6 (pos 801_999) ≡ measured true initial 801_999 }
    ensures most { (measured true initial 70_000_000).timeout ≡ 60_000_000 }
    ensures timed_first { echoed true (timing initial 10 (pos 0)) 10 1 ≡ timing initial 10 (pos 0) }
    ensures echoed { echoed true initial 10 0 ≡ measured true initial 1000 }
    ensures echoed_whole { echoed false (timing initial 10 (pos 0)) 10 1 ≡ measured false initial 1000 }
{}

/// With the clock of milliseconds the estimates and the timeout are what whole milliseconds give, each division
/// dropping its rest. With either clock the timeout isn't less than SRTT and G or four times RTTVAR, if those
/// are no more than a minute. With the one of microseconds an echo counts for no less than the time since it
/// went.
pub fn timeout_laws()
    ensures first_whole { (millis : ℕ)
        → smoothed false None (millis * 1000) ≡ in_micros (record { smoothed = millis; variation = millis / 2; shortest = millis }) }
    ensures next_whole { (e : Estimate) (millis : ℕ) → smoothed false (Some (in_micros e)) (millis * 1000) ≡
        in_micros (record {
          smoothed = (7 * e.smoothed + millis) / 8;
          variation = (3 * e.variation + distance e.smoothed millis) / 4;
          shortest = min e.shortest millis;
        }) }
    ensures timeout_whole { (least : ℕ) (e : Estimate) → timeout_of (least * 1000) (in_micros e) ≡
        min 60_000 (max least (e.smoothed + max (min least 200) (4 * e.variation))) * 1000 }
    ensures above { (fine : Bool) (r : RoundTripValue) (micros : ℕ) → let e = smoothed fine r.estimate micros in
        min most_timeout (e.smoothed + max (slack r.least) (4 * e.variation)) ≤ (measured fine r micros).timeout }
    ensures tsecr { (sent now : ℕ) → now - sent ≤ tsecr_micros true (now / 1000 - sent / 1000) }
{}
