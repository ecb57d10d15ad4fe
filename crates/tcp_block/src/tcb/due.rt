//! When a socket wants to be polled.
ghost use Rattle.std.specs.Prelude.{◌≡◌, ◌≤◌, ◌^◌, ◌∷◌, [], IfSome};
ghost use Rattle.net_base.specs.Time.{IsMoment};
ghost use Rattle.tcp_block.specs.Due.{instants, earlier_of, earliest, any};
ghost use Rattle.tcp_block.specs.Rules.{owes_syn, resends_beside, updates_window};
ghost use Rattle.tcp_block.specs.Timeout.{is_timeout_unset};
ghost use Rattle.tcp_block.specs.Probing.{is_probe_unset};

use crate::Tcb;
use net_base::Instant;
use tcp_state::instants::earlier;

/// The earlier of two instants, if there are any.
fn earlier_of(one: Option<Instant>, other: Option<Instant>) -> Option<Instant>
    ensures { result ≡ earlier_of one other }
{
    match (one, other) {
        (None, other) => other,
        (one, None) => one,
        (Some(one), Some(other)) => Some(earlier(one, other)),
    }
}

impl Tcb {
    /// Whether the socket wants to be polled at once, where `has_payload` says that payload may go.
    pub fn has_wish(&self, has_payload: bool, queued: usize, capacity: usize, free: usize) -> bool
        requires queued { queued ≤ 2 ^ 30 }
        requires capacity { capacity ≤ 2 ^ 30 }
        ensures { result ≡ any (owes_syn self.now ∷ resends_beside self.now has_payload ∷ has_payload ∷ updates_window self.now capacity free
            ∷ is_timeout_unset self.now queued ∷ is_probe_unset self.now queued ∷ []) }
    {
        self.owes_syn()
            || self.resends(has_payload)
            || has_payload
            || self.updates_window(capacity, free)
            || self.is_timeout_unset(queued)
            || self.is_probe_unset(queued)
    }

    /// When something is due first.
    pub fn earliest_deadline(&self, queued: usize) -> Option<Instant>
        requires queued { queued ≤ 2 ^ 30 }
        requires since { IfSome self.now.timers.timeout_since IsMoment }
        ensures { result ≡ earliest (instants self.now queued) }
    {
        let last = earlier_of(self.keep_alive_deadline(), None);
        let last = earlier_of(self.ack_deadline(), last);
        let last = earlier_of(self.probe_deadline(queued), last);
        let last = earlier_of(self.loss_probe_deadline(), last);
        let last = earlier_of(self.timers.retransmit_at, last);
        let last = earlier_of(self.timeout_end(queued), last);
        earlier_of(self.time_wait_end(), last)
    }
}
