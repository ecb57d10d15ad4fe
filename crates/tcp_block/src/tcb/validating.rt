//! Congestion window validation.
ghost use Rattle.std.specs.Prelude.{◌≡◌, ◌<◌, ◌≤◌, ◌/◌, ◌^◌};
ghost use Rattle.net_base.specs.Time.{IsMoment};
ghost use Rattle.tcp_state.specs.RoundTrip.{srtt};
ghost use Rattle.tcp_block.specs.Validation.{is_used, grown_if_used, validates, validation_after, periods, periods_ended, data_sent};

use crate::{Tcb, Validation};
use net_base::Instant;

/// After so long without validation the window lapses, in microseconds.
const PERIOD: u64 = 300_000_000;

/// So many periods leave nothing of any window to halve.
const MOST_PERIODS: u64 = 31;

impl Validation {
    /// Before the connection is there.
    pub const NONE: Validation = Validation {
        flight: 0,
        since: None,
    };
}

/// How many periods ended since an instant, if there is one.
fn periods(since: Option<Instant>, now: Instant) -> u32
    ensures value { result ≡ periods since now }
    ensures small { result ≤ 31 }
{
    match since {
        Some(since) if since < now => {
            ((now - since).total_micros() / PERIOD).min(MOST_PERIODS) as u32
        }
        _ => 0,
    }
}

impl Tcb {
    /// Whether half of the congestion window at least is used.
    fn is_used(&self) -> bool
        ensures { result ≡ is_used self.now }
    {
        self.reno.window() as u64 <= 2 * self.validation.flight as u64
    }

    /// SRTT in whole milliseconds.
    fn srtt_millis(&self) -> u64
        ensures value { result ≡ srtt self.now.round_trip / 1000 }
        ensures small { result < 2 ^ 52 }
    {
        self.round_trip.smoothed() / 1000
    }

    /// So many bytes of the window are acknowledged now, outside of fast recovery: it grows if it is used.
    pub fn grow_if_used(&mut self, count: usize, now: Instant)
        requires { IsMoment now }
        ensures { self.new ≡ record self.old { reno = grown_if_used self.old count now (srtt self.old.round_trip / 1000) } }
    {
        if self.is_used() {
            let rtt = self.srtt_millis();
            self.reno.acknowledged(count, now, rtt);
        } else {
            self.reno.preserve(count);
        }
    }

    /// Whether an acknowledgement of so much validates the window.
    fn validates(&self, by: u32) -> bool
        ensures { result ≡ validates self.now by }
    {
        by != 0 && (self.sender.syn_unacked || self.reno.recovers() || self.is_used())
    }

    /// The validation of the window where SND.UNA rises by so much now.
    pub fn validation_after(&self, by: u32, now: Instant) -> Validation
        ensures { result ≡ validation_after self.now by now }
    {
        let mut validation = self.validation;
        if self.validates(by) {
            validation.since = Some(now);
        }
        validation
    }

    /// How many periods count where payload went, and what was sent before ended so far past SND.UNA.
    fn periods_ended(&self, snd_max: u32, now: Instant) -> u32
        ensures value { result ≡ periods_ended self.now snd_max now }
        ensures small { result ≤ 31 }
    {
        if snd_max < self.sender.snd_max {
            periods(self.validation.since, now)
        } else {
            0
        }
    }

    /// Payload went, and what was sent before ended so far past SND.UNA.
    pub fn data_sent(&mut self, snd_max: u32, now: Instant)
        ensures { self.new ≡ data_sent self.old snd_max now }
    {
        let periods = self.periods_ended(snd_max, now);
        self.reno.lapse(periods);
        self.validation.flight = self.sender.flight_size;
        if periods != 0 {
            self.validation.since = Some(now);
        }
    }
}
