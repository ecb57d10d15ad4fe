//! That what comes late counts, too.

ghost use Rattle.std.specs.Prelude.{◌≡◌, ◌⊎◌, ℕ, ◌≤◌, ℤ, true, false, List, length, Some, slice_get};
ghost use Rattle.ip_wire.specs.SeqNumber.{SeqNumber};
ghost use Rattle.tcp_invariants.specs.Controls.{is_rst, is_syn};
ghost use Rattle.tcp_invariants.specs.OpenOffer.{OpenOffer};
ghost use Rattle.tcp_invariants.specs.Timing.{carries};
ghost use Rattle.tcp_block.specs.Names.{accepts};
ghost use Rattle.tcp_block.specs.Offers.{offer_of};
ghost use Rattle.tcp_block.specs.Segments.{segment_len};
ghost use Rattle.tcp_refinement.specs.Pair.Sides.{at, other};
ghost use Rattle.tcp_refinement.specs.Pair.Steps.{Steps};
ghost use Rattle.tcp_block.specs.Value.{room_of};
ghost use Rattle.tcp_refinement.specs.Pair.Values.{PairValue, past_at};
ghost use Rattle.tcp_refinement.specs.declared.pair.event.PairEvent.{PairEvent};
ghost use Rattle.tcp_refinement.specs.declared.pair.event.PairEvent.TheVariants.{Offer};
ghost use Rattle.tcp_refinement.specs.declared.pair.event.SentSegment.{SentSegment};
ghost use Rattle.tcp_refinement.specs.declared.pair.event.Side.{Side};
ghost use Rattle.tcp_liveness.specs.StartsOver.{StartsOver};
ghost use Rattle.tcp_liveness.specs.Arrivals.{IsNearWindow, is_synchronized};
ghost use Rattle.tcp_liveness.specs.Exchange.{IsOpen, data_of};
ghost use Rattle.tcp_liveness.specs.DelayedSegment.{CountsIn, GoesFrom, ProceedsIn, IsAckedTo, MayCome, TakesTime, come_in, sent_by};
ghost use Rattle.tcp_liveness.specs.Onward.{AreOpen, HasRisen, Lasts, acked_in};
ghost use Rattle.tcp_liveness.specs.Pair.{HasStream, context_of, next_sent, socket_of};
ghost use Rattle.tcp_liveness.specs.Reached.{IsReached};
ghost use Rattle.tcp_liveness.specs.Rounds.{takes};
ghost use Rattle.tcp_liveness.specs.Sent.{taken_in};

/// Whatever comes, in whatever order and however often, and whatever is asked and called: what is acknowledged of a side stays so, and what it
/// took stays taken.
pub fn what_was_reached_stays_so()
    ensures acknowledged { (p q : PairValue) (events : List PairEvent) (side : Side) → IsReached p → AreOpen p → Steps p events q
        → acked_in p side ≤ acked_in q side }
    ensures taken { (p q : PairValue) (events : List PairEvent) (side : Side) → IsReached p → AreOpen p → Steps p events q
        → taken_in p side ≤ taken_in q side }
{}

/// A segment with payload or a FIN goes from SND.UNA of a side on, and comes to the other at any later time, whatever happened since. Then SND.UNA or
/// RCV.NXT of the other has risen since it went; or it counts as if it came at once: it raises RCV.NXT, or it is answered by RCV.NXT, unless
/// the window is closed and the last answer was drawn less than a second ago; or it ends LAST-ACK.
pub fn payload_that_comes_late_counts()
    ensures counts { (p q : PairValue) (side : Side) (k : ℕ) (x : SentSegment) → IsReached p → Lasts p q → HasStream (past_at p side)
        → 1 ≤ room_of (socket_of p (other side)).received → GoesFrom p side x → MayCome q side k x
        → HasRisen p q (other side) ⊎ CountsIn q side k }
{}

/// Each acknowledgement that a side ever sent, an answer or any other segment, counts whenever it comes: after it SND.UNA of the other lies at its
/// number or past it, if the segment lies in the window or before it, no further than a receive buffer reaches.
pub fn an_answer_that_comes_late_counts()
    ensures counts { (p : PairValue) (side : Side) (k : ℕ) (x : SentSegment) (number : SeqNumber) → IsReached p → AreOpen p
        → HasStream (past_at p (other side)) → MayCome p side k x → is_syn x.segment.control ≡ false → is_rst x.segment.control ≡ false
        → x.segment.ack_number ≡ Some number → IsNearWindow (socket_of p (other side)) x.segment (length x.bytes)
        → IsAckedTo number (socket_of (come_in p side k) (other side)).tcb.sender.una }
{}

/// An exchange that takes time. A side that starts over sends from SND.UNA on (`goes`, and `last`: it is the next segment that the side sends). That
/// comes at any later time, and what answers it, if anything does, at any time after that; between, whatever events there are, both
/// connections stay. Then RCV.NXT or SND.UNA of the other has risen, or SND.UNA or RCV.NXT of the side has; or the other's window was
/// closed, so that it is for its user to read; or the answer ended the side's connection.
pub fn an_exchange_that_takes_time_proceeds()
    ensures goes { (p : PairValue) (side : Side) (instant : ℤ) (o : OpenOffer) → IsReached p → IsOpen (socket_of p side).tcb
        → StartsOver (context_of p side instant) (socket_of p side) → (offer_of (context_of p side instant) (socket_of p side)).socket.offered ≡ Some o
        → carries o.kind ≡ true → 1 ≤ segment_len o.segment (length (data_of (socket_of p side) o))
        → GoesFrom (takes p (Offer side instant true)) side (sent_by p side o) }
    ensures last { (p : PairValue) (side : Side) (instant : ℤ) (o : OpenOffer) → IsReached p → IsOpen (socket_of p side).tcb
        → StartsOver (context_of p side instant) (socket_of p side) → (offer_of (context_of p side instant) (socket_of p side)).socket.offered ≡ Some o
        → carries o.kind ≡ true → slice_get (at (takes p (Offer side instant true)).sides side).sent (next_sent p side) ≡ Some (sent_by p side o) }
    ensures moves { (p q s : PairValue) (side : Side) (k j : ℕ) (x : SentSegment) → IsReached p → TakesTime p q s side k j x
        → ProceedsIn p q s side k j }
{}

/// Of a connection the other side accepts whatever a side ever sent, however late it comes, be it that the side called, that it listened, or that
/// both called.
pub fn what_was_sent_is_accepted()
    ensures accepted { (p : PairValue) (side : Side) (k : ℕ) (x : SentSegment) → IsReached p → is_synchronized (socket_of p side).tcb.state ≡ true
        → is_synchronized (socket_of p (other side)).tcb.state ≡ true → slice_get (at p.sides side).sent k ≡ Some x
        → accepts (socket_of p (other side)).tcb x.header x.segment ≡ true }
{}
