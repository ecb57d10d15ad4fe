//! What settling asks for is met.
ghost use Rattle.std.specs.Prelude.{List};
ghost use Rattle.tcp_refinement.specs.Pair.Values.{PairValue};
ghost use Rattle.tcp_refinement.specs.declared.pair.event.PairEvent.{PairEvent};
ghost use Rattle.tcp_refinement.specs.declared.pair.event.Side.{Side};
ghost use Rattle.tcp_liveness.specs.Connection.{Course, MayConverse};
ghost use Rattle.tcp_liveness.specs.Met.{conversing, conversing_across, timed_conversing};
ghost use Rattle.tcp_liveness.specs.Reached.{IsReached};
ghost use Rattle.tcp_pair.specs.Settling.{CanSettle};

use tcp_liveness::{connection, met};

/// By each connection that opened, though segments of its handshake were lost or its SYNs crossed, and in which both users wrote, and closed if
/// they liked (`MayConverse`): so `settle` brings all of it. Such ones are those of two sockets with room for 64 bytes, of which each user writes
/// three and closes: one calls the other, without timestamps or with them, or each calls the other.
pub fn what_settling_asks_for_is_met()
    ensures connection { (p q : PairValue) (side : Side) (course : Course) (calls : List PairEvent) → IsReached p
        → MayConverse p side course calls q → CanSettle q }
    ensures numerals { CanSettle conversing }
    ensures timed { CanSettle timed_conversing }
    ensures across { CanSettle conversing_across }
{
    connection::a_connection_gets_through();
    met::what_a_connection_asks_for_is_met();
    met::what_a_connection_with_timestamps_asks_for_is_met();
    met::what_crossed_syns_ask_for_is_met();
}
