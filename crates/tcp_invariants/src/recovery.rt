//! Fast recovery, what is retransmitted, and the least retransmission timeout.

ghost use Rattle.std.specs.Prelude.{◌≡◌, ◌≤◌, ◌<◌, ◌-◌, ◌||◌, ℕ, ℤ, true, false, List, Some, None, is_some};
ghost use Rattle.tcp_state.specs.Reno.{most};
ghost use Rattle.net_base.specs.Ring.{Ring};
ghost use Rattle.tcp_block.specs.Context.{ContextValue};
ghost use Rattle.tcp_state.specs.RoundTrip.{least_of};
ghost use Rattle.tcp_state.specs.declared.offer.OfferKind.TheVariants as Kind;
ghost use Rattle.tcp_state.specs.declared.offer.OpenOffer.{OpenOffer};
ghost use Rattle.ip_wire.specs.TcpHeader.{TcpHeader};
ghost use Rattle.tcp_block.specs.Acknowledged.{is_blind, una_moved, begins_recovery, counted};
ghost use Rattle.tcp_block.specs.Rules.{backed_off_now};
ghost use Rattle.tcp_block.specs.Undone.{is_needless, undone};
ghost use Rattle.tcp_block.specs.LossRecovery.{is_first_lost};
ghost use Rattle.tcp_block.specs.Offers.{offer_of};
ghost use Rattle.tcp_block.specs.Settled.{end_of, sent_as};
ghost use Rattle.tcp_block.specs.Value.{TcpValue, new_socket};
ghost use Rattle.tcp_block.specs.declared.tcb.Tcb.{Tcb};
ghost use Rattle.tcp_block.specs.declared.tcb.Undo.{Undo};
ghost use Rattle.tcp_invariants.specs.Blind.{Acked, AreBlind, after_all};
ghost use Rattle.tcp_invariants.specs.Events.{Event, led};
ghost use Rattle.tcp_invariants.specs.InOrder.{IsInOrder, sending_of};
ghost use Rattle.tcp_invariants.specs.Recovery.{IsPaced, recovery_of};
ghost use Rattle.tcp_invariants.specs.Undoing.{Between, with_all};

/// Of each socket that events lead to: fast recovery lasts only until more is acknowledged than was sent when it began, and the
/// retransmission timeout isn't below the least that the user set.
pub fn recovery_ends_and_the_timer_keeps_to_its_least()
    ensures lasts { (capacity : ℕ) (queued : Ring ℕ) (events : List Event)
        → (led (new_socket capacity queued) events).tcb.reno.recovers ≡ true → 1 ≤ (led (new_socket capacity queued) events).tcb.sender.recover }
    ensures least { (capacity : ℕ) (queued : Ring ℕ) (events : List Event)
        → least_of (led (new_socket capacity queued) events).tcb.settings.min_rto ≤ (led (new_socket capacity queued) events).tcb.round_trip.timeout }
{}

/// What is retransmitted at once was sent before: it ends no further than anything that was ever sent.
pub fn what_goes_again_was_sent()
    ensures again { (cx : ContextValue) (v : TcpValue) (o : OpenOffer) → IsInOrder (sending_of v) → v.tcb.sender.syn_unacked ≡ false
        → (offer_of cx v).socket.offered ≡ Some o → o.kind ≡ Kind.FastRetransmission
        → end_of (offer_of cx v).socket.tcb o ≤ v.tcb.sender.snd_max }
{}

/// Blind acknowledgements don't put the timer off, however many come: after the first one, which is on record, it runs out when it
/// would have without them. Nor does what is retransmitted between them put it off.
pub fn blind_acknowledgements_leave_the_timer()
    ensures first { (b : Tcb) (ack : Acked) → is_blind b ack.by ≡ true → (una_moved b ack.by ack.queued ack.instant).sender.partial ≡ true }
    ensures leave { (b : Tcb) (acks : List Acked) → b.sender.partial ≡ true → AreBlind acks b
        → (after_all acks b).timers.retransmit_at ≡ b.timers.retransmit_at }
    ensures again { (b : Tcb) (o : OpenOffer) (queued : ℕ) (instant : ℤ) → is_first_lost b ≡ false → b.timers.retransmit_at ≡ Some instant
        → (sent_as Kind.FastRetransmission b o queued).timers.retransmit_at ≡ Some instant }
{}

/// A loss that was none leaves the congestion window as it was, of Reno and of CUBIC, whatever went and came between: where recovery began,
/// or the timer ran out, and the first acknowledgement of payload since then answers what was sent first (RFC 4015). Nothing of it is to go
/// again then, and no more has to be acknowledged before recovery may begin again.
pub fn a_loss_that_was_none_is_undone()
    ensures recovery { (b : Tcb) (count : ℕ) (at : ℤ) (between : List Between) (header : TcpHeader) (by queued : ℕ) → b.sender.syn_unacked ≡ false
        → (b.reno.recovers || b.reno.timed_out) ≡ false → begins_recovery b count ≡ true
        → is_needless (with_all between (counted b count at)) header by queued ≡ true
        → (undone (with_all between (counted b count at)) header by queued).reno ≡ b.reno }
    ensures timeout { (b : Tcb) (between : List Between) (header : TcpHeader) (by queued : ℕ) → b.sender.syn_unacked ≡ false
        → (b.reno.recovers || b.reno.timed_out) ≡ false
        → is_needless (with_all between (backed_off_now b)) header by queued ≡ true
        → (undone (with_all between (backed_off_now b)) header by queued).reno ≡ b.reno }
    ensures over { (b : Tcb) (header : TcpHeader) (by queued : ℕ) → is_needless b header by queued ≡ true
        → ((undone b header by queued).sender.resend ≡ false) × ((undone b header by queued).sender.recover ≡ 0) }
{}

/// A loss is undone on evidence alone. Where something was retransmitted since it began, and a segment has no timestamp, nothing is undone, however
/// soon it comes: what it acknowledges is no longer in flight, and nothing else is in flight that wasn't. In slow start, as after a timeout,
/// the congestion window doesn't shrink, either, so that at least as much may go as was acknowledged (RFC 5681, 3.1): a path that becomes
/// faster after a loss doesn't leave what was lost to one timeout for each segment.
pub fn a_loss_is_undone_on_evidence_alone()
    ensures silent { (b : Tcb) (header : TcpHeader) (by queued : ℕ) (u : Undo) → b.loss.undo ≡ Some u → is_some u.tsval ≡ true
        → header.options.timestamp ≡ None → undone b header by queued ≡ b }
    ensures flight { (b : Tcb) (header : TcpHeader) (by queued : ℕ) (now : ℤ) (u : Undo) → b.loss.undo ≡ Some u → is_some u.tsval ≡ true
        → header.options.timestamp ≡ None
        → (una_moved (undone b header by queued) by queued now).sender.flight_size ≡ b.sender.flight_size - by }
    ensures window { (b : Tcb) (header : TcpHeader) (by queued : ℕ) (now : ℤ) (u : Undo) → b.loss.undo ≡ Some u → is_some u.tsval ≡ true
        → header.options.timestamp ≡ None → b.sender.syn_unacked ≡ false → b.reno.recovers ≡ false → b.reno.cwnd < b.reno.ssthresh
        → b.reno.ssthresh ≤ most → b.reno.cwnd ≤ (una_moved (undone b header by queued) by queued now).reno.cwnd }
{}
