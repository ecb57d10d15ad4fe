//! What is retransmitted.

ghost use Rattle.std.specs.Prelude.{◌≡◌, ◌≤◌, ℕ, false, List, Some};
ghost use Rattle.net_base.specs.Ring.{Ring};
ghost use Rattle.tcp_state.specs.declared.offer.OfferKind.TheVariants as Kind;
ghost use Rattle.tcp_state.specs.declared.offer.OpenOffer.{OpenOffer};
ghost use Rattle.tcp_block.specs.Context.{ContextValue};
ghost use Rattle.tcp_block.specs.Offers.{offer_of};
ghost use Rattle.tcp_block.specs.Value.{new_socket};
ghost use Rattle.tcp_invariants.specs.Retransmission.{GoOnce, no_marks};
ghost use Rattle.tcp_invariants.specs.Events.{Event, led};
ghost use Rattle.tcp_invariants.specs.Timing.{start_of};
ghost use Rattle.tcp_invariants.specs.Unheld.{AreUnheld};

/// Of each socket that events lead to: what is retransmitted isn't held by the remote, as far as that said so, be it the segment at SND.UNA, the
/// next hole, or the last segment as a probe or as a rescue. Nor is the first byte of payload, which after a timeout may are retransmitted, too; after that it may run
/// into what is held. The FIN may go with the bytes before it, or alone after them, though it is held itself.
pub fn what_goes_again_is_not_held()
    ensures again { (capacity : ℕ) (queued : Ring ℕ) (events : List Event) (cx : ContextValue) (o : OpenOffer)
        → (led (new_socket capacity queued) events).tcb.sender.syn_unacked ≡ false
        → (offer_of cx (led (new_socket capacity queued) events)).socket.offered ≡ Some o → o.kind ≡ Kind.FastRetransmission
        → AreUnheld (start_of (offer_of cx (led (new_socket capacity queued) events)).socket.tcb o) o.len
        (offer_of cx (led (new_socket capacity queued) events)).socket.tcb.loss.board.runs }
    ensures payload { (capacity : ℕ) (queued : Ring ℕ) (events : List Event) (cx : ContextValue) (o : OpenOffer)
        → (led (new_socket capacity queued) events).tcb.sender.syn_unacked ≡ false
        → (offer_of cx (led (new_socket capacity queued) events)).socket.offered ≡ Some o → o.kind ≡ Kind.Payload → 1 ≤ o.len
        → AreUnheld (start_of (offer_of cx (led (new_socket capacity queued) events)).socket.tcb o) 1
        (offer_of cx (led (new_socket capacity queued) events)).socket.tcb.loss.board.runs }
{}

/// No position is retransmitted twice for one loss, nor as payload for one timeout: whatever comes, however a socket is asked and whatever its
/// user calls, a segment that mends a loss begins where what was retransmitted since the last loss was told ends, or after, and payload where
/// payload ends that went since the timer ran out last. A loss is told where a recovery begins, where what was retransmitted is lost once more,
/// by a third duplicate after a timeout, by the timer and by a loss probe. The last segment is none of these: as a probe it goes once for
/// each piece of news, as a rescue once in a recovery.
pub fn a_position_goes_again_once_for_each_loss()
    ensures once { (capacity : ℕ) (queued : Ring ℕ) (events : List Event) → GoOnce (new_socket capacity queued) no_marks events }
{}
