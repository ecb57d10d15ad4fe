//! That one way of a connection gets through.

ghost use Rattle.std.specs.Prelude.{◌≡◌, suc, ◌*◌};
ghost use Rattle.tcp_refinement.specs.Pair.Safe.{read, written};
ghost use Rattle.tcp_refinement.specs.Pair.Sides.{other};
ghost use Rattle.tcp_refinement.specs.Pair.Values.{PairValue};
ghost use Rattle.tcp_refinement.specs.declared.pair.event.Side.{Side};
ghost use Rattle.tcp_liveness.specs.Pair.{left_in};
ghost use Rattle.tcp_liveness.specs.Reached.{IsReached};
ghost use Rattle.tcp_liveness.specs.Settle.{MaySettle, read_in, settled_in};

/// Of a pair that events led to: rounds, in each of which the peer's user reads and the side has an exchange at the instant that its timer
/// names, two for each position that isn't acknowledged. As long as the side may have an exchange in each round in which it owes something,
/// all is acknowledged after them, and the peer's user reads all that the side's wrote.
pub fn one_way_gets_through()
    ensures acknowledged { (p : PairValue) (side : Side) → IsReached p → MaySettle (suc (2 * left_in p side)) p side
        → left_in (settled_in (2 * left_in p side) p side) side ≡ 0 }
    ensures read { (p : PairValue) (side : Side) → IsReached p → MaySettle (suc (2 * left_in p side)) p side
        → read (read_in (settled_in (2 * left_in p side) p side) side) (other side) ≡ written p side }
    ensures leads { (p : PairValue) (side : Side) → IsReached p → MaySettle (suc (2 * left_in p side)) p side
        → IsReached (settled_in (2 * left_in p side) p side) }
{}
