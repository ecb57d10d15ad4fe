//! The user timeout, and probes of a closed window.
ghost use Rattle.std.specs.Prelude.{◌≡◌, ◌≤◌, ◌^◌, IfSome};
ghost use Rattle.net_base.specs.Time.{IsMoment};
ghost use Rattle.tcp_block.specs.Timeout.{waits_for_remote, timeout_runs, timeout_restarted, timeout_kept, is_timeout_unset, timeout_started, timeout_end};
ghost use Rattle.tcp_block.specs.Timeout.{timed_out};
ghost use Rattle.tcp_block.specs.Probing.{is_window_small, is_probing, may_probe, probe_kept, is_probe_unset, probe_started, probe_deadline};

use crate::{State, Tcb};
use net_base::Instant;
use tcp_state::instants::{later, timeout_from};

impl Tcb {
    /// Whether something isn't acknowledged, the connection isn't there yet, or keep-alives go.
    fn waits_for_remote(&self, queued: usize) -> bool
        requires { queued ≤ 2 ^ 30 }
        ensures { result ≡ waits_for_remote self.now queued }
    {
        self.state.is_opening()
            || self.state.is_answering()
            || self.unacked(queued) != 0
            || self.settings.keep_alive.is_some()
    }

    /// Whether the user timeout runs. TIME-WAIT ends by its own instant alone.
    pub fn timeout_runs(&self, queued: usize) -> bool
        requires { queued ≤ 2 ^ 30 }
        ensures { result ≡ timeout_runs self.now queued }
    {
        self.settings.timeout.is_some()
            && !(self.state.is_closed() || self.state.is_time_wait())
            && self.waits_for_remote(queued)
    }

    /// An accepted segment starts the user timeout again, if it still runs.
    pub fn restart_timeout(&mut self, now: Instant, queued: usize)
        requires { queued ≤ 2 ^ 30 }
        ensures { self.new ≡ timeout_restarted self.old now queued }
    {
        self.timers.timeout_since = if self.timeout_runs(queued) {
            Some(now)
        } else {
            None
        };
    }

    /// Forgets the start of the user timeout where it doesn't run any more.
    pub fn keep_timeout(&mut self, queued: usize)
        requires { queued ≤ 2 ^ 30 }
        ensures { self.new ≡ timeout_kept self.old queued }
    {
        if !self.timeout_runs(queued) {
            self.timers.timeout_since = None;
        }
    }

    /// Whether the user timeout runs and has no start.
    pub fn is_timeout_unset(&self, queued: usize) -> bool
        requires { queued ≤ 2 ^ 30 }
        ensures { result ≡ is_timeout_unset self.now queued }
    {
        self.timeout_runs(queued) && self.timers.timeout_since.is_none()
    }

    /// Starts the user timeout if it runs and has no start.
    pub fn start_timeout(&mut self, now: Instant, queued: usize)
        requires { queued ≤ 2 ^ 30 }
        ensures { self.new ≡ timeout_started now queued self.old }
    {
        if self.is_timeout_unset(queued) {
            self.timers.timeout_since = Some(now);
        }
    }

    /// When the user timeout ends.
    pub fn timeout_end(&self, queued: usize) -> Option<Instant>
        requires queued { queued ≤ 2 ^ 30 }
        requires since { IfSome self.now.timers.timeout_since IsMoment }
        ensures { result ≡ timeout_end self.now queued }
    {
        if !self.timeout_runs(queued) {
            return None;
        }
        match (self.timers.timeout_since, self.settings.timeout) {
            (Some(since), Some(timeout)) => Some(later(since, timeout)),
            _ => None,
        }
    }

    /// The user timeout ended: CLOSED, and a reset is due.
    pub fn time_out(&mut self)
        ensures { self.new ≡ timed_out self.old }
    {
        self.state = State::Closed;
        self.sender.reset_due = true;
    }

    /// Whether the window is closed, or takes neither all that is queued nor half of the largest window
    /// that the remote named.
    fn is_window_small(&self, queued: usize) -> bool
        ensures { result ≡ is_window_small self.now queued }
    {
        let enough = (self.peer.largest_window as usize / 2).max(1);
        queued != 0 && self.window_limit(queued) < queued.min(enough)
    }

    /// Whether bytes are queued, nothing is in flight, and the window holds them back.
    pub fn is_probing(&self, queued: usize) -> bool
        ensures { result ≡ is_probing self.now queued }
    {
        self.sender.flight_size == 0 && self.state.may_send_data() && self.is_window_small(queued)
    }

    /// Whether bytes are queued and nothing is in flight, whatever the window says.
    fn may_probe(&self, queued: usize) -> bool
        ensures { result ≡ may_probe self.now queued }
    {
        self.sender.flight_size == 0 && self.state.may_send_data() && queued != 0
    }

    /// Forgets the instant of the next probe where nothing can be probed for. A window that opens leaves it: it may close again before
    /// the side is asked.
    pub fn keep_probe(&mut self, queued: usize)
        ensures { self.new ≡ probe_kept self.old queued }
    {
        if !self.may_probe(queued) {
            self.timers.probe_at = None;
        }
    }

    /// Whether the window is probed and no probe has an instant.
    pub fn is_probe_unset(&self, queued: usize) -> bool
        ensures { result ≡ is_probe_unset self.now queued }
    {
        self.is_probing(queued) && self.timers.probe_at.is_none()
    }

    /// Sets the instant of the first probe.
    pub fn start_probe(&mut self, now: Instant, queued: usize)
        requires { IsMoment now }
        ensures { self.new ≡ probe_started now queued self.old }
    {
        if self.is_probe_unset(queued) {
            self.timers.probe_at = Some(timeout_from(now, &self.round_trip));
        }
    }

    /// When the next probe is due.
    pub fn probe_deadline(&self, queued: usize) -> Option<Instant>
        ensures { result ≡ probe_deadline self.now queued }
    {
        if self.is_probing(queued) {
            self.timers.probe_at
        } else {
            None
        }
    }
}
