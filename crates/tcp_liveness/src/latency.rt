//! That a connection goes on within a span of time.

ghost use Rattle.std.specs.Prelude.{◌≡◌, ◌⊎◌, ℕ, suc, ◌+◌, ◌-◌, ◌*◌, ◌==◌, ◌<◌, ◌≤◌, ℤ, pos, ◌+ℤ◌, ◌≤ℤ◌, ◌<ℤ◌, true, false, List, None, Some, slice_get};
ghost use Rattle.tcp_invariants.specs.Ends.{Proceeds};
ghost use Rattle.tcp_invariants.specs.Moments.{is_due};
ghost use Rattle.tcp_refinement.specs.Pair.Sides.{at, other};
ghost use Rattle.tcp_refinement.specs.Pair.Steps.{Steps};
ghost use Rattle.tcp_block.specs.Value.{room_of};
ghost use Rattle.tcp_refinement.specs.Pair.Values.{PairValue, past_at};
ghost use Rattle.tcp_refinement.specs.declared.pair.event.PairEvent.{PairEvent};
ghost use Rattle.tcp_refinement.specs.declared.pair.event.SentSegment.{SentSegment};
ghost use Rattle.tcp_refinement.specs.declared.pair.event.Side.{Side};
ghost use Rattle.tcp_liveness.specs.Anew.{BeginsAnewAmong, put_off_in};
ghost use Rattle.tcp_liveness.specs.Arrivals.{is_synchronized};
ghost use Rattle.tcp_liveness.specs.BothWays.{AreThere};
ghost use Rattle.tcp_liveness.specs.Clocks.{HasDays};
ghost use Rattle.tcp_liveness.specs.Course.{AsksWithin, DeliversWithin, IsSentInTime, IsClocked, IsHeardBy, IsHinderedAmong, IsShutAmong, KeepsOrder};
ghost use Rattle.tcp_liveness.specs.Course.{end_of, events_of, span_of};
ghost use Rattle.tcp_liveness.specs.Exchange.{IsOpen};
ghost use Rattle.tcp_liveness.specs.DelayedSegment.{GoesFrom};
ghost use Rattle.tcp_liveness.specs.Onward.{AreOpen, HasRisen, acked_in};
ghost use Rattle.tcp_liveness.specs.Pair.{HasStream, context_of, left_in, socket_of};
ghost use Rattle.tcp_liveness.specs.PutOff.{IsAskedFromAmong, ProbesAt, RunsOutAmong};
ghost use Rattle.tcp_liveness.specs.Reached.{IsReached};
ghost use Rattle.tcp_liveness.specs.Restart.{Sends};
ghost use Rattle.tcp_liveness.specs.Spans.{IsHeldAmong, IsThroughAmong, most_reached, reached_in};

/// Of a side with something in flight that is asked as many minutes later as positions may be sent past SND.UNA, and two more, or later still,
/// SND.UNA has risen; or it was asked when its timer had run out; or a segment was retransmitted from SND.UNA on. A recovery puts the timer off no
/// longer than that: each segment that is retransmitted takes a position after those that did, or begins at SND.UNA.
pub fn a_side_begins_at_snd_una_in_time()
    ensures minutes { (p q : PairValue) (side : Side) (events : List PairEvent) → IsReached p → AreOpen p → Steps p events q
        → ((socket_of p side).tcb.sender.flight_size == 0) ≡ false
        → IsAskedFromAmong ((at p.sides side).instant +ℤ pos (put_off_in p side)) side events
        → is_synchronized (socket_of q side).tcb.state ≡ true
        → (acked_in p side < acked_in q side) ⊎ (RunsOutAmong p side events ⊎ BeginsAnewAmong p side events) }
{}

/// In a course with one clock in which each side is asked in time: within that span, and as long as a side is let wait, SND.UNA of a side with
/// something in flight rises; or the side is asked when its timer has run out; or a segment is retransmitted from SND.UNA on.
pub fn a_side_that_is_asked_in_time_begins_at_snd_una()
    ensures span { (p q : PairValue) (side : Side) (course : List (ℤ × PairEvent)) (wait : ℕ) (now : ℤ) → IsReached p → AreOpen p
        → Steps p (events_of course) q → is_synchronized (socket_of q side).tcb.state ≡ true
        → ((socket_of p side).tcb.sender.flight_size == 0) ≡ false → (at p.sides side).instant ≤ℤ now → IsClocked now course
        → AsksWithin wait now p course → ((now +ℤ pos (put_off_in p side)) +ℤ pos wait) <ℤ end_of now course
        → (acked_in p side < acked_in q side) ⊎ (RunsOutAmong p side (events_of course) ⊎ BeginsAnewAmong p side (events_of course)) }
{}

/// In a course in which each segment is heard in time an exchange takes twice as long at most: where a segment of a side went from SND.UNA on, and
/// is heard in time, as what answers it is, SND.UNA or RCV.NXT of a side has risen by then; or the segment, or one that equals it, came while the
/// other's window was closed, so that it is for its user to read.
pub fn an_exchange_takes_no_longer_than_its_segments()
    ensures twice { (p q : PairValue) (side : Side) (k : ℕ) (x : SentSegment) (course : List (ℤ × PairEvent)) (delay : ℕ) (now : ℤ) → IsReached p
        → AreOpen p → Steps p (events_of course) q → AreThere q → HasStream (past_at p side)
        → 1 ≤ room_of (socket_of p (other side)).received → GoesFrom p side x → slice_get (at p.sides side).sent k ≡ Some x
        → IsHeardBy (now +ℤ pos delay) side k p course → IsClocked now course → DeliversWithin delay p course
        → ((now +ℤ pos delay) +ℤ pos delay) <ℤ end_of now course
        → HasRisen p q side ⊎ (HasRisen p q (other side) ⊎ IsShutAmong p side k course) }
{}

/// A due probe goes: a side that owes payload or a FIN, with nothing in flight and no timer, and is asked when the instant has come at which what a
/// window holds back goes, sends a position at least, whatever its windows are.
pub fn a_due_probe_goes()
    ensures goes { (p : PairValue) (side : Side) (instant at : ℤ) → IsReached p → IsOpen (socket_of p side).tcb → 1 ≤ left_in p side
        → Proceeds (context_of p side instant) (socket_of p side) → (socket_of p side).tcb.sender.flight_size ≡ 0
        → (socket_of p side).tcb.timers.retransmit_at ≡ None → ProbesAt at (socket_of p side) → is_due instant (Some at) ≡ true
        → Sends (context_of p side instant) (socket_of p side) }
{}

/// A connection goes on in time. In a course in which each side is asked in time, what it offers goes, and each segment is heard in time:
/// within a span that these times and the other's buffer make, SND.UNA or RCV.NXT of a side rises, where a side has something in flight;
/// or a window stood in its way meanwhile: the other's was closed as a segment of it came; or the one that it knows, or that of congestion
/// control, took neither a full segment nor all that was queued as its timer had run out. Where a side owes something, in flight or not, the
/// same is so within as long as it is let wait and a span, or such a window held it back while it had nothing in flight.
pub fn a_connection_proceeds_in_time()
    ensures goes { (p q : PairValue) (side : Side) (course : List (ℤ × PairEvent)) (wait delay : ℕ) (now : ℤ) → IsReached p → AreOpen p
        → Steps p (events_of course) q → AreThere q → ((socket_of p side).tcb.sender.flight_size == 0) ≡ false
        → IsSentInTime wait delay now p side course → (now +ℤ pos (span_of wait delay p side)) <ℤ end_of now course
        → HasRisen p q side ⊎ (HasRisen p q (other side) ⊎ IsHinderedAmong p side (events_of course)) }
    ensures owes { (p q : PairValue) (side : Side) (course : List (ℤ × PairEvent)) (wait delay : ℕ) (now : ℤ) → IsReached p → AreOpen p
        → Steps p (events_of course) q → AreThere q → 1 ≤ left_in p side → IsSentInTime wait delay now p side course
        → (now +ℤ pos (wait + span_of wait delay p side)) <ℤ end_of now course
        → HasRisen p q side
        ⊎ (HasRisen p q (other side) ⊎ (IsHinderedAmong p side (events_of course) ⊎ IsHeldAmong p side (events_of course))) }
{}

/// So it goes on, a position after the other, each by an acknowledgement or in what a side takes: in a course of so many times two such spans as
/// many positions of the two streams are reached; or a window stood in the way of a side; or at some time all that its user wrote is
/// acknowledged. One of the last two is so where the course is longer than there are positions to reach.
pub fn all_is_acknowledged_in_time()
    ensures reached { (n : ℕ) (p q : PairValue) (side : Side) (course : List (ℤ × PairEvent)) (wait delay : ℕ) (now : ℤ) → IsReached p → AreOpen p
        → Steps p (events_of course) q → AreThere q → IsSentInTime wait delay now p side course
        → (now +ℤ pos (n * (2 * (wait + span_of wait delay p side)))) <ℤ end_of now course
        → (reached_in p + n ≤ reached_in q)
        ⊎ (IsHinderedAmong p side (events_of course) ⊎ (IsHeldAmong p side (events_of course) ⊎ IsThroughAmong p side (events_of course))) }
    ensures through { (p q : PairValue) (side : Side) (course : List (ℤ × PairEvent)) (wait delay : ℕ) (now : ℤ) → IsReached p → AreOpen p
        → Steps p (events_of course) q → AreThere q → IsSentInTime wait delay now p side course
        → (now +ℤ pos (suc (most_reached q - reached_in p) * (2 * (wait + span_of wait delay p side)))) <ℤ end_of now course
        → IsHinderedAmong p side (events_of course) ⊎ (IsHeldAmong p side (events_of course) ⊎ IsThroughAmong p side (events_of course)) }
{}

/// A link that keeps order: where each segment comes in time, and before those that its side sends later, each is heard, within 24 days.
pub fn what_comes_in_order_is_heard()
    ensures heard { (p q : PairValue) (course : List (ℤ × PairEvent)) (delay : ℕ) → IsReached p → Steps p (events_of course) q
        → ((side : Side) → HasDays q side (at q.sides side).instant) → KeepsOrder delay p course → DeliversWithin delay p course }
{}
