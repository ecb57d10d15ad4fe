//! What a socket believes of its losses.

ghost use Rattle.std.specs.Prelude.{◌≡◌, ◌≤◌, ◌<◌, ◌+◌, ◌-◌, ◌*◌, ◌/◌, ◌==◌, ◌||◌, ℕ, ℤ, min, max, true, false, List, None};
ghost use Rattle.ip_wire.specs.TcpHeader.{TcpHeader};
ghost use Rattle.net_base.specs.Ring.{Ring};
ghost use Rattle.tcp_state.specs.Scoreboard.{sacked_from, missing};
ghost use Rattle.tcp_state.specs.declared.offer.OfferKind.{OfferKind};
ghost use Rattle.tcp_state.specs.declared.offer.OfferKind.TheVariants as Kind;
ghost use Rattle.tcp_state.specs.declared.offer.OpenOffer.{OpenOffer};
ghost use Rattle.tcp_block.specs.Acknowledged.{is_partial, una_moved, begins_recovery, counted};
ghost use Rattle.tcp_block.specs.LossRecovery.{loss_deadline, loss_probed, probe_begins, next_hole, fills_hole, is_lost_again};
ghost use Rattle.tcp_block.specs.Rules.{backed_off_now};
ghost use Rattle.tcp_block.specs.Settled.{end_of, sent_as};
ghost use Rattle.tcp_block.specs.Undone.{undone};
ghost use Rattle.tcp_block.specs.Value.{new_socket};
ghost use Rattle.tcp_block.specs.declared.tcb.Tcb.{Tcb};
ghost use Rattle.tcp_invariants.specs.Events.{Event, led};
ghost use Rattle.tcp_invariants.specs.Losses.{AreWithin};

/// Of each socket that events lead to: what it believes that the remote holds lies in what was ever sent.
pub fn what_is_held_was_sent()
    ensures held { (capacity : ℕ) (queued : Ring ℕ) (events : List Event)
        → AreWithin (led (new_socket capacity queued) events).tcb.sender.snd_max (led (new_socket capacity queued) events).tcb.loss.board.runs }
{}

/// A loss probe that was due isn't due any more, and nothing that is sent makes another one due: that takes news.
pub fn a_probe_goes_once()
    ensures over { (b : Tcb) → b.loss.reorder_until ≡ None → (loss_probed b).loss.probed ≡ true }
    ensures unset { (b : Tcb) → loss_deadline (loss_probed b).loss ≡ None }
    ensures once { (kind : OfferKind) (b : Tcb) (o : OpenOffer) (queued : ℕ) → b.loss.probed ≡ true
        → (sent_as kind b o queued).loss.probe_at ≡ b.loss.probe_at }
{}

/// An acknowledgement of what was retransmitted, but not of all that was sent when the recovery began, lets two segments more go; what
/// ends the recovery lets none. Each segment that is retransmitted takes one of them. The next hole goes then whatever ranges say of it, if it was
/// sent before the recovery began and half of the window has room for it alongside what was retransmitted.
pub fn two_segments_go_for_each_partial_acknowledgement()
    ensures lets { (b : Tcb) (by queued : ℕ) (now : ℤ) → is_partial b by ≡ true → (b.loss.resent == 0) ≡ false
        → (una_moved b by queued now).loss.credit ≡ 2 }
    ensures ends { (b : Tcb) (by queued : ℕ) (now : ℤ) → (by == 0) ≡ false → is_partial b by ≡ false → (una_moved b by queued now).loss.credit ≡ 0 }
    ensures takes { (b : Tcb) (o : OpenOffer) (queued : ℕ) → (sent_as Kind.FastRetransmission b o queued).loss.credit ≡ b.loss.credit - 1 }
    ensures goes { (b : Tcb) → b.peer.sack ≡ true → b.reno.recovers ≡ true → b.sender.syn_unacked ≡ false → next_hole b < b.sender.flight_size
        → (b.loss.credit == 0) ≡ false → next_hole b + 1 < b.sender.recover
        → missing b.loss.board.runs (min b.loss.resent b.sender.flight_size) + b.reno.mss ≤ b.reno.cwnd / 2 → fills_hole b ≡ true }
{}

/// Once more than two segments are held of what was first sent after something was retransmitted, that is lost once more, wherever the runs
/// begin that hold them; and after a timeout, of what was sent since then, a recovery begins.
pub fn what_went_later_says_that_what_went_again_is_lost()
    ensures again { (b : Tcb) → b.peer.sack ≡ true → b.reno.recovers ≡ true → (b.loss.resent == 0) ≡ false
        → 2 * b.reno.mss < sacked_from b.loss.board.runs b.loss.mark → is_lost_again b ≡ true }
    ensures since { (b : Tcb) (count : ℕ) → b.peer.sack ≡ true → b.reno.recovers ≡ false → (b.sender.recover == 0) ≡ false
        → 2 * b.reno.mss < sacked_from b.loss.board.runs b.sender.recover → begins_recovery b count ≡ true }
{}

/// No loss is undone, of a recovery, of the timer or of a probe, where what stands at SND.UNA was retransmitted before: what is acknowledged next may
/// answer that (RFC 3522, 3.2; RFC 4015, 3.2). What was retransmitted stays known after an undo, too, and the segment at SND.UNA that is retransmitted
/// counts also where no recovery is.
pub fn no_loss_is_undone_while_an_earlier_resend_is_on_its_way()
    ensures recovery { (b : Tcb) (count : ℕ) (now : ℤ) → (b.reno.recovers || b.reno.timed_out) ≡ false → (b.loss.resent == 0) ≡ false
        → begins_recovery b count ≡ true → (counted b count now).loss.undo ≡ None }
    ensures timeout { (b : Tcb) → b.sender.syn_unacked ≡ false → (b.reno.recovers || b.reno.timed_out) ≡ false → (b.loss.resent == 0) ≡ false
        → (backed_off_now b).loss.undo ≡ None }
    ensures probe { (b : Tcb) → (b.reno.recovers || b.reno.timed_out) ≡ false → (b.loss.resent == 0) ≡ false → probe_begins b ≡ true
        → (loss_probed b).loss.undo ≡ None }
    ensures known { (b : Tcb) (header : TcpHeader) (by queued : ℕ) → (undone b header by queued).loss.resent ≡ b.loss.resent }
    ensures noted { (b : Tcb) (o : OpenOffer) (queued : ℕ) → b.sender.resend ≡ true
        → (sent_as Kind.FastRetransmission b o queued).loss.resent ≡ max b.loss.resent (end_of b o) }
{}
