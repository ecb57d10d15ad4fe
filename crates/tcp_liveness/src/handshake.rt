//! That a handshake opens a connection.

ghost use Rattle.std.specs.Prelude.{ℤ};
ghost use Rattle.tcp_invariants.specs.OpenOffer.{OpenOffer};
ghost use Rattle.tcp_refinement.specs.Pair.Sides.{other};
ghost use Rattle.tcp_refinement.specs.Pair.Values.{PairValue};
ghost use Rattle.tcp_refinement.specs.declared.pair.event.Side.{Side};
ghost use Rattle.tcp_liveness.specs.Exchange.{IsOpen};
ghost use Rattle.tcp_liveness.specs.Handshake.{AreConnected, AreOpened, MayShake, called_in, shaken_in};
ghost use Rattle.tcp_liveness.specs.HandshakeOn.{AreTold, HasCrossed, IsUnanswered, MayAnswer, MayCallAgain, MayConfirm, MayCross, MayMeet, MayTell};
ghost use Rattle.tcp_liveness.specs.HandshakeOn.{acked_in, confirmed_in, crossed_in, met_in};
ghost use Rattle.tcp_liveness.specs.Pair.{AreMirrored, offered_in, socket_of};
ghost use Rattle.tcp_liveness.specs.Reached.{IsReached};

/// Of a pair that events led to, one side calls and the other listens. The caller is asked, and its SYN comes; the listener, and its answer
/// comes; the caller, and its acknowledgement comes. Then both are ESTABLISHED, and each knows that its SYN came. Both may exchange payload
/// from there on, since events led to this pair, too, each has its SYN counted, and each accepts what the other sends.
pub fn three_segments_open_a_connection()
    ensures opened { (p : PairValue) (side : Side) (first second third : ℤ) → IsReached p → MayShake p side first second third
        → AreOpened (shaken_in p side first second third) side }
    ensures leads { (p : PairValue) (side : Side) (first second third : ℤ) → IsReached p → MayShake p side first second third
        → IsReached (shaken_in p side first second third) }
    ensures own { (p : PairValue) (side : Side) (first second third : ℤ) → IsReached p → MayShake p side first second third
        → IsOpen (socket_of (shaken_in p side first second third) side).tcb }
    ensures theirs { (p : PairValue) (side : Side) (first second third : ℤ) → IsReached p → MayShake p side first second third
        → IsOpen (socket_of (shaken_in p side first second third) (other side)).tcb }
    ensures mirrored { (p : PairValue) (side : Side) (first second third : ℤ) → IsReached p → MayShake p side first second third
        → AreMirrored (socket_of (shaken_in p side first second third) side).tcb (socket_of (shaken_in p side first second third) (other side)).tcb }
{}

/// The answer to a SYN was lost: one side calls still, and the other, in SYN-RECEIVED, has taken its SYN. That one is asked when its timer has
/// run out: its answer is retransmitted, and the acknowledgement of it opens both. If the caller is asked first, its SYN is retransmitted, too, and
/// changes nothing. This is how a handshake stands once its SYN has come.
pub fn an_answer_that_was_lost_goes_again()
    ensures answered { (p : PairValue) (side : Side) (second third : ℤ) → IsReached p → MayAnswer p side second third
        → AreConnected (acked_in p side second third) side }
    ensures called { (p : PairValue) (side : Side) (first second third : ℤ) → IsReached p → MayCallAgain p side first second third
        → AreConnected (shaken_in p side first second third) side }
    ensures begins { (p : PairValue) (side : Side) (first second third : ℤ) → IsReached p → MayShake p side first second third
        → IsUnanswered (called_in p side first) side }
{}

/// The last acknowledgement was lost: one side is ESTABLISHED, and the other in SYN-RECEIVED still. That one is asked when its timer has run
/// out: its answer is retransmitted, the first side elicits an acknowledgement, and this opens the other.
pub fn an_acknowledgement_that_was_lost_is_drawn()
    ensures confirmed { (p : PairValue) (side : Side) (instant : ℤ) → IsReached p → MayConfirm p side instant
        → AreConnected (confirmed_in p side instant) side }
{}

/// Or payload of the first side comes before that, from SND.UNA on: it opens the other, too, which takes all of it that it has room for.
pub fn payload_opens_a_connection()
    ensures told { (p : PairValue) (side : Side) (instant : ℤ) (o : OpenOffer) → IsReached p → MayTell p side instant o
        → AreTold p (offered_in p side instant) side o }
{}

/// Both sides call each other, and their SYNs cross: each takes the other's. When the timer of a side has run out its SYN is retransmitted, with an
/// acknowledgement, and what the other draws opens the side; so do two exchanges, one of each side, open both.
pub fn syns_that_cross_open_a_connection()
    ensures leads { (p : PairValue) (side : Side) (first second : ℤ) → IsReached p → MayCross p side first second
        → IsReached (crossed_in p side first second) }
    ensures own { (p : PairValue) (side : Side) (first second : ℤ) → IsReached p → MayCross p side first second
        → HasCrossed (crossed_in p side first second) side }
    ensures theirs { (p : PairValue) (side : Side) (first second : ℤ) → IsReached p → MayCross p side first second
        → HasCrossed (crossed_in p side first second) (other side) }
    ensures met { (p : PairValue) (side : Side) (third fourth : ℤ) → IsReached p → MayMeet p side third fourth
        → AreConnected (met_in p side third fourth) side }
{}
