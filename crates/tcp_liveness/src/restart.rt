//! That a side which starts over sends of itself.

ghost use Rattle.std.specs.Prelude.{◌≡◌, ℤ, true, None};
ghost use Rattle.tcp_refinement.specs.Pair.Steps.{refusal};
ghost use Rattle.tcp_refinement.specs.Pair.Sides.{other};
ghost use Rattle.tcp_refinement.specs.Pair.Values.{PairValue, past_at};
ghost use Rattle.tcp_refinement.specs.declared.pair.event.PairEvent.TheVariants.{Offer};
ghost use Rattle.tcp_refinement.specs.declared.pair.event.Side.{Side};
ghost use Rattle.tcp_liveness.specs.Exchange.{CanHear};
ghost use Rattle.tcp_liveness.specs.Pair.{HasStream, MovesIn, context_of, exchanged_in, socket_of};
ghost use Rattle.tcp_liveness.specs.Reached.{IsReached};
ghost use Rattle.tcp_liveness.specs.Restart.{MayProceed, MaySend, Sends};

/// Of a pair that events led to, a side that owes payload or a FIN, with nothing in flight or whose timer has run out, sends of itself: what
/// it offers takes a position at least, where both windows take a full segment or all that is queued. So an exchange goes on whatever the
/// side offers.
pub fn a_side_that_starts_over_sends()
    ensures sends { (p : PairValue) (side : Side) (instant : ℤ) → IsReached p → MaySend (context_of p side instant) (socket_of p side)
        → Sends (context_of p side instant) (socket_of p side) }
    ensures moves { (p : PairValue) (side : Side) (instant : ℤ) → IsReached p → HasStream (past_at p side) → MayProceed p side instant
        → CanHear (socket_of p side) (socket_of p (other side)) → MovesIn p side instant }
    ensures leads { (p : PairValue) (side : Side) (instant : ℤ) → IsReached p → HasStream (past_at p side) → MayProceed p side instant
        → refusal p (Offer side instant true) ≡ None → IsReached (exchanged_in p side instant) }
{}
