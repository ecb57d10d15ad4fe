//! When a connection gives up.
ghost use Rattle.std.specs.Prelude.{◌≡◌, ◌+◌};
ghost use Rattle.net_base.specs.Time.{IsMoment};
ghost use Rattle.tcp_block.specs.Retries.{one_more, reaches, retries_of, heard, asked, is_last_timeout, is_last_probe, gives_up};

use crate::Tcb;
use net_base::Instant;
use tcp_state::instants::{is_due, is_over, timeout_from};

/// One more, as far as the count goes.
pub fn one_more(count: u8) -> u8
    ensures { result ≡ one_more count }
{
    count.saturating_add(1)
}

/// Whether so many are as many as the limit, if there is one.
fn reaches(limit: Option<u8>, count: u32) -> bool
    ensures { result ≡ reaches limit count }
{
    match limit {
        None => false,
        Some(limit) => limit as u32 <= count,
    }
}

impl Tcb {
    /// How many timeouts end the connection.
    fn retries(&self) -> Option<u8>
        ensures { result ≡ retries_of self.now }
    {
        if self.state.is_opening() || self.state.is_answering() {
            self.settings.opening_retries
        } else {
            self.settings.retries
        }
    }

    /// A segment that passes the tests came: nothing is unanswered.
    pub fn hear(&mut self)
        ensures { self.new ≡ heard self.old }
    {
        self.sender.timeouts = 0;
        self.sender.unanswered = 0;
    }

    /// A probe or a keep-alive went: it counts, at most once in each timeout.
    pub fn ask(&mut self, now: Instant)
        requires { IsMoment now }
        ensures { self.new ≡ asked self.old now }
    {
        if is_over(now, self.timers.counts_from) {
            self.sender.unanswered = one_more(self.sender.unanswered);
            self.timers.counts_from = Some(timeout_from(now, &self.round_trip));
        }
    }

    /// Whether the retransmission timer runs out for the last time.
    fn is_last_timeout(&self, now: Instant) -> bool
        ensures { result ≡ is_last_timeout now self.now }
    {
        is_due(now, self.timers.retransmit_at)
            && reaches(self.retries(), self.sender.timeouts as u32 + 1)
    }

    /// Whether a probe or a keep-alive is due, and too many weren't answered.
    fn is_last_probe(&self, now: Instant, queued: usize) -> bool
        ensures { result ≡ is_last_probe now self.now queued }
    {
        is_due(now, self.timers.counts_from)
            && reaches(self.settings.retries, self.sender.unanswered as u32)
            && (is_due(now, self.probe_deadline(queued)) || is_due(now, self.keep_alive_deadline()))
    }

    /// Whether the connection gives up.
    pub fn gives_up(&self, now: Instant, queued: usize) -> bool
        ensures { result ≡ gives_up now self.now queued }
    {
        self.is_last_timeout(now) || self.is_last_probe(now, queued)
    }
}
