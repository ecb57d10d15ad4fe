//! That a whole connection gets through.

ghost use Rattle.std.specs.Prelude.{◌≡◌, true, List};
ghost use Rattle.tcp_refinement.specs.Pair.Safe.{read, written};
ghost use Rattle.tcp_refinement.specs.Pair.Sides.{other};
ghost use Rattle.tcp_refinement.specs.Pair.Values.{PairValue, past_at};
ghost use Rattle.tcp_refinement.specs.declared.pair.event.PairEvent.{PairEvent};
ghost use Rattle.tcp_refinement.specs.declared.pair.event.Side.{Side};
ghost use Rattle.tcp_liveness.specs.BothWays.{IsThrough, bound, both_read, rounds_in};
ghost use Rattle.tcp_liveness.specs.Connection.{Course, MayConverse};
ghost use Rattle.tcp_liveness.specs.Pair.{socket_of};
ghost use Rattle.tcp_liveness.specs.Reached.{IsReached};
ghost use Rattle.tcp_liveness.specs.Talking.{AreTalking, HaveTries};

/// From a call and a listener on, or a handshake that lost its answer or its last acknowledgement, or SYNs that cross: the connection opens, both
/// users write, and close if they like; then rounds bring all that each wrote to the other's user, and the end of each stream that was closed.
/// Nothing is asked for on the way.
pub fn a_connection_gets_through()
    ensures talking { (p q : PairValue) (side : Side) (course : Course) (calls : List PairEvent) → IsReached p
        → MayConverse p side course calls q → AreTalking (bound q) q }
    ensures tries { (p q : PairValue) (side : Side) (course : Course) (calls : List PairEvent) → IsReached p
        → MayConverse p side course calls q → HaveTries q }
    ensures through { (p q : PairValue) (side : Side) (course : Course) (calls : List PairEvent) → IsReached p
        → MayConverse p side course calls q → (of : Side) → IsThrough (rounds_in (bound q) q) of }
    ensures read { (p q : PairValue) (side : Side) (course : Course) (calls : List PairEvent) → IsReached p
        → MayConverse p side course calls q → (of : Side) → read (both_read (rounds_in (bound q) q)) (other of) ≡ written q of }
    ensures ends { (p q : PairValue) (side : Side) (course : Course) (calls : List PairEvent) → IsReached p
        → MayConverse p side course calls q → (of : Side) → (past_at q of).closed ≡ true
        → (socket_of (rounds_in (bound q) q) (other of)).tcb.receiver.took_fin ≡ true }
{}
