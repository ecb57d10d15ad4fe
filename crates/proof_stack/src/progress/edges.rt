//! Acknowledgements that come at the right edge of a window, or past it, where they aren't taken.

ghost use Rattle.std.specs.Prelude.{◌≡◌, ◌⊎◌, ℕ, suc, ◌+◌, ◌-◌, ◌*◌, ◌≤◌, ℤ, pos, ◌+ℤ◌, ◌<ℤ◌, List};
ghost use Rattle.ip_wire.specs.SeqNumber.{SeqNumber};
ghost use Rattle.tcp_block.specs.TcbRules.{snd_max};
ghost use Rattle.tcp_refinement.specs.Pair.Sides.{other};
ghost use Rattle.tcp_refinement.specs.Pair.Steps.{Steps};
ghost use Rattle.tcp_refinement.specs.Pair.Values.{PairValue};
ghost use Rattle.tcp_refinement.specs.declared.pair.event.PairEvent.{PairEvent};
ghost use Rattle.tcp_refinement.specs.declared.pair.event.Side.{Side};
ghost use Rattle.tcp_refinement.specs.declared.pair.event.Side.TheVariants.{A, B};
ghost use Rattle.tcp_liveness.specs.BothWays.{AreThere};
ghost use Rattle.tcp_liveness.specs.Course.{DeliversWithin, end_of, events_of};
ghost use Rattle.tcp_liveness.specs.Met.{gone, mended, mending};
ghost use Rattle.tcp_liveness.specs.Onward.{AreOpen, HasRisen, Lasts};
ghost use Rattle.tcp_liveness.specs.Pair.{left_in, socket_of};
ghost use Rattle.tcp_liveness.specs.Reached.{IsReached};
ghost use Rattle.tcp_liveness.specs.Spans.{IsThroughAmong, most_reached, reached_in};
ghost use Rattle.proof_stack.specs.Progress.Edges.{ArrivesInTime, ArrivesWithin, HasMoreSent, LiesAtEdge, edge_span};
ghost use Rattle.proof_stack.specs.Progress.EdgesMet.{filled, untold};

use tcp_liveness::met::what_a_course_asks_for_is_met;

/// Law: where a bare acknowledgement, which goes past all that its side ever sent, comes at the right edge of the other's window, or past it, that
/// side sent what the other hasn't taken, and it isn't acknowledged; or SND.UNA of the side has risen since.
pub fn what_lies_at_the_edge_follows_more()
    ensures { (p q : PairValue) (side : Side) (number : SeqNumber) → IsReached p → Lasts p q → number ≡ snd_max (socket_of p side).tcb
        → LiesAtEdge q (other side) number
        → HasRisen p q side ⊎ (HasMoreSent q side × (1 ≤ left_in q side)) }
{}

/// Law: a connection goes on in time, whatever its windows are, and wherever acknowledgements come. In a course in which each side is asked in
/// time, what it offers goes, each segment comes in time, be it inside the window or not, and both users read in time: within a span of each side
/// SND.UNA or RCV.NXT of a side has risen, where a side owes something.
pub fn a_connection_proceeds_wherever_acknowledgements_come()
    ensures owes { (p q : PairValue) (side : Side) (course : List (ℤ × PairEvent)) (read wait delay : ℕ) (now : ℤ) → IsReached p → AreOpen p
        → Steps p (events_of course) q → AreThere q → 1 ≤ left_in p side → ArrivesInTime read wait delay now p course
        → (now +ℤ pos (edge_span read wait delay p side)) <ℤ end_of now course → HasRisen p q side ⊎ HasRisen p q (other side) }
    ensures weaker { (p : PairValue) (course : List (ℤ × PairEvent)) (delay : ℕ) → DeliversWithin delay p course → ArrivesWithin delay p course }
{}

/// Law: so it goes on: in a course of so many times twice these two spans as many positions of the two streams are reached, or at some time all that
/// the side's user wrote is acknowledged. The last is so where the course is longer than there are positions to reach.
pub fn all_is_acknowledged_wherever_acknowledgements_come()
    ensures reached { (n : ℕ) (p q : PairValue) (side : Side) (course : List (ℤ × PairEvent)) (read wait delay : ℕ) (now : ℤ) → IsReached p
        → AreOpen p → Steps p (events_of course) q → AreThere q → ArrivesInTime read wait delay now p course
        → (now +ℤ pos (n * (2 * edge_span read wait delay p side))) <ℤ end_of now course
        → (reached_in p + n ≤ reached_in q) ⊎ IsThroughAmong p side (events_of course) }
    ensures through { (p q : PairValue) (side : Side) (course : List (ℤ × PairEvent)) (read wait delay : ℕ) (now : ℤ) → IsReached p → AreOpen p
        → Steps p (events_of course) q → AreThere q → ArrivesInTime read wait delay now p course
        → (now +ℤ pos (suc (most_reached q - reached_in p) * (2 * edge_span read wait delay p side))) <ℤ end_of now course
        → IsThroughAmong p side (events_of course) }
{}

/// Law: what such courses ask for is met where three bytes have gone and were lost, and where each buffer holds a byte and is full an acknowledgement lies at
/// the edge: B took A's byte, and its own, which A hasn't taken, lies before it. It comes, and A doesn't learn of its byte.
pub fn what_an_edge_asks_for_is_met()
    ensures course { ArrivesInTime 1_000 1_000 1_000 (pos 0) gone mending }
    ensures long { (pos 0 +ℤ pos (suc (most_reached mended - reached_in gone) * (2 * edge_span 1_000 1_000 1_000 gone A))) <ℤ end_of (pos 0) mending }
    ensures reached { IsReached filled }
    ensures rcv_adv { LiesAtEdge filled A (snd_max (socket_of filled B).tcb) }
    ensures more { HasMoreSent filled B }
    ensures took { HasMoreSent filled A → ⊥ }
    ensures comes { IsReached untold }
    ensures untaken { left_in untold A ≡ 1 }
{
    what_a_course_asks_for_is_met();
}
