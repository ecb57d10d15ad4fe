//! That a connection goes on whatever its windows are, where users read.

ghost use Rattle.std.specs.Prelude.{◌≡◌, ◌⊎◌, ℕ, suc, ◌+◌, ◌-◌, ◌*◌, ◌==◌, ◌<◌, ◌≤◌, ℤ, pos, ◌+ℤ◌, ◌<ℤ◌, true, false, List};
ghost use Rattle.tcp_refinement.specs.Pair.Sides.{other};
ghost use Rattle.tcp_refinement.specs.Pair.Steps.{Steps};
ghost use Rattle.tcp_block.specs.Value.{free_in, room_of};
ghost use Rattle.tcp_refinement.specs.Pair.Values.{PairValue};
ghost use Rattle.tcp_refinement.specs.declared.pair.event.PairEvent.{PairEvent};
ghost use Rattle.tcp_refinement.specs.declared.pair.event.Side.{Side};
ghost use Rattle.tcp_liveness.specs.Arrivals.{is_synchronized};
ghost use Rattle.tcp_liveness.specs.BothWays.{AreThere};
ghost use Rattle.tcp_liveness.specs.Course.{IsSentInTime, end_of, events_of};
ghost use Rattle.tcp_liveness.specs.Onward.{AreOpen, HasRisen};
ghost use Rattle.tcp_liveness.specs.Pair.{left_in, socket_of};
ghost use Rattle.tcp_liveness.specs.Reached.{IsReached};
ghost use Rattle.tcp_liveness.specs.Readers.{Reads, ReadsWithin, whole_span};
ghost use Rattle.tcp_liveness.specs.Rounds.{takes};
ghost use Rattle.tcp_liveness.specs.Sent.{taken_in};
ghost use Rattle.tcp_liveness.specs.Spans.{IsThroughAmong, most_reached, reached_in};

/// Space that is free in the receive buffer of a side with its connection stays so with each event, unless more is taken; and a user that reads
/// a byte at least frees one.
pub fn free_space_stays_free()
    ensures stays { (p : PairValue) (event : PairEvent) (side : Side) → is_synchronized (socket_of p side).tcb.state ≡ true
        → (free_in (socket_of p side) ≤ free_in (socket_of (takes p event) side)) ⊎ (taken_in p side < taken_in (takes p event) side) }
    ensures reads { (p : PairValue) (event : PairEvent) (side : Side) → Reads side event → 1 ≤ room_of (socket_of p side).received
        → 1 ≤ free_in (socket_of (takes p event) side) }
{}

/// A connection goes on in time, whatever its windows are. In a course in which each side is asked in time, what it offers goes, and each segment
/// comes in time, and is heard; and in which the other's user reads in time where its buffer is full: within a span SND.UNA or RCV.NXT of a side
/// rises, where the side owes something.
pub fn a_connection_proceeds_whatever_its_windows_are()
    ensures owes { (p q : PairValue) (side : Side) (course : List (ℤ × PairEvent)) (read wait delay : ℕ) (now : ℤ) → IsReached p → AreOpen p
        → Steps p (events_of course) q → AreThere q → 1 ≤ left_in p side → IsSentInTime wait delay now p side course
        → ReadsWithin read now p (other side) course
        → (now +ℤ pos (whole_span read wait delay p side)) <ℤ end_of now course → HasRisen p q side ⊎ HasRisen p q (other side) }
{}

/// So it goes on, and no window stands in the way: in a course of so many times two such spans as many positions of the two streams are reached,
/// or at some time all that the side's user wrote is acknowledged. The last is so where the course is longer than there are positions to reach.
pub fn all_is_acknowledged_whatever_the_windows_are()
    ensures reached { (n : ℕ) (p q : PairValue) (side : Side) (course : List (ℤ × PairEvent)) (read wait delay : ℕ) (now : ℤ) → IsReached p
        → AreOpen p → Steps p (events_of course) q → AreThere q → IsSentInTime wait delay now p side course
        → ReadsWithin read now p (other side) course
        → (now +ℤ pos (n * (2 * whole_span read wait delay p side))) <ℤ end_of now course
        → (reached_in p + n ≤ reached_in q) ⊎ IsThroughAmong p side (events_of course) }
    ensures through { (p q : PairValue) (side : Side) (course : List (ℤ × PairEvent)) (read wait delay : ℕ) (now : ℤ) → IsReached p → AreOpen p
        → Steps p (events_of course) q → AreThere q → IsSentInTime wait delay now p side course → ReadsWithin read now p (other side) course
        → (now +ℤ pos (suc (most_reached q - reached_in p) * (2 * whole_span read wait delay p side))) <ℤ end_of now course
        → IsThroughAmong p side (events_of course) }
{}
