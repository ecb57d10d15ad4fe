//! The congestion window after a timeout, and the one that a connection begins with.

ghost use Rattle.std.specs.Prelude.{◌≡◌, ℕ, ℤ, true, false, List, Some};
ghost use Rattle.net_base.specs.Ring.{Ring};
ghost use Rattle.tcp_block.specs.Context.{ContextValue};
ghost use Rattle.tcp_state.specs.Moments.{is_due};
ghost use Rattle.tcp_state.specs.Reno.{first_window};
ghost use Rattle.tcp_state.specs.declared.endpoints.FourTuple.{FourTuple};
ghost use Rattle.tcp_state.specs.declared.offer.OfferKind.TheVariants as Kind;
ghost use Rattle.tcp_state.specs.declared.offer.OpenOffer.{OpenOffer};
ghost use Rattle.tcp_block.specs.Acknowledged.{acks_local_syn, una_moved};
ghost use Rattle.tcp_block.specs.Offers.{offer_of};
ghost use Rattle.tcp_block.specs.Rules.{backed_off_now};
ghost use Rattle.tcp_block.specs.Settled.{sent_as};
ghost use Rattle.tcp_block.specs.Value.{TcpValue, new_socket};
ghost use Rattle.tcp_block.specs.declared.tcb.Tcb.{Tcb};
ghost use Rattle.tcp_invariants.specs.Congestion.{IsHeld, control_of, renews, StaysOut};
ghost use Rattle.tcp_invariants.specs.Ends.{Proceeds};
ghost use Rattle.tcp_invariants.specs.Events.{Event, led};
ghost use Rattle.tcp_invariants.specs.InOrder.{IsInOrder, sending_of};

/// Of each socket that events lead to: where the retransmission timer ran out and nothing new was acknowledged since, the congestion
/// window is one segment, whatever else comes.
pub fn the_window_after_a_timeout_is_one_segment()
    ensures window { (capacity : ℕ) (queued : Ring ℕ) (events : List Event)
        → (led (new_socket capacity queued) events).tcb.reno.timed_out ≡ true
        → (led (new_socket capacity queued) events).tcb.reno.cwnd ≡ (led (new_socket capacity queued) events).tcb.reno.mss }
    ensures counts { (cx : ContextValue) (v : TcpValue) (pair : FourTuple) → v.tcb.names.pair ≡ Some pair → Proceeds cx v
        → is_due cx.instant v.tcb.timers.retransmit_at ≡ true → v.tcb.sender.syn_unacked ≡ false
        → (offer_of cx v).socket.tcb.reno.timed_out ≡ true }
    ensures stays { (v : TcpValue) (it : Event) → IsInOrder (sending_of v) → IsHeld (control_of v.tcb) → renews it ≡ false
        → v.tcb.reno.timed_out ≡ true → StaysOut v it }
{}

/// A connection begins with ten segments, as far as RFC 6928, 2, lets it, and with one where the timer of its SYN ran out: so it had to go
/// again (RFC 5681, 3.1).
pub fn a_connection_begins_with_one_segment_where_a_syn_was_lost()
    ensures first { (b : Tcb) (by queued : ℕ) (now : ℤ) → acks_local_syn b by ≡ true → b.sender.syn_lost ≡ false
        → (una_moved b by queued now).reno.cwnd ≡ first_window b.reno.mss }
    ensures one { (b : Tcb) (by queued : ℕ) (now : ℤ) → acks_local_syn b by ≡ true → b.sender.syn_lost ≡ true
        → (una_moved b by queued now).reno.cwnd ≡ b.reno.mss }
    ensures noted { (b : Tcb) → b.sender.syn_unacked ≡ true → (backed_off_now b).sender.syn_lost ≡ true }
    ensures leaves { (b : Tcb) (o : OpenOffer) (queued : ℕ) → (sent_as Kind.Syn b o queued).sender.syn_lost ≡ b.sender.syn_lost }
{}
