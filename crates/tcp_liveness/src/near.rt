//! That what a side waits for of itself is near.

ghost use Rattle.std.specs.Prelude.{ℤ, pos, ◌+ℤ◌, ◌≤ℤ◌};
ghost use Rattle.tcp_refinement.specs.Pair.Sides.{at};
ghost use Rattle.tcp_refinement.specs.Pair.Values.{PairValue};
ghost use Rattle.tcp_refinement.specs.declared.pair.event.Side.{Side};
ghost use Rattle.tcp_liveness.specs.Near.{IsNear};
ghost use Rattle.tcp_liveness.specs.Pair.{socket_of};
ghost use Rattle.tcp_liveness.specs.Reached.{IsReached};
ghost use Rattle.tcp_liveness.specs.Settle.{restart_in};

/// Whatever happened to two sockets: the retransmission timer of a side runs out within a minute of its last instant, the instant of a probe
/// comes within a minute, too, and the pause between the answers that it draws is over within a second. So the instant at which a side starts
/// over lies within a minute.
pub fn what_a_side_waits_for_is_near()
    ensures timer { (p : PairValue) (side : Side) → IsReached p
        → IsNear (at p.sides side).instant 60_000_000 (socket_of p side).tcb.timers.retransmit_at }
    ensures probe { (p : PairValue) (side : Side) → IsReached p
        → IsNear (at p.sides side).instant 60_000_000 (socket_of p side).tcb.timers.probe_at }
    ensures pause { (p : PairValue) (side : Side) → IsReached p
        → IsNear (at p.sides side).instant 1_000_000 (socket_of p side).tcb.timers.challenges_from }
    ensures restart { (p : PairValue) (side : Side) → IsReached p → restart_in p side ≤ℤ ((at p.sides side).instant +ℤ pos 60_000_000) }
{}
