//! That both ways of a connection get through.

ghost use Rattle.std.specs.Prelude.{◌≡◌, ℕ, true};
ghost use Rattle.tcp_invariants.specs.State.TheVariants as In;
ghost use Rattle.tcp_refinement.specs.Pair.Safe.{read, written};
ghost use Rattle.tcp_refinement.specs.Pair.Sides.{other};
ghost use Rattle.tcp_refinement.specs.Pair.Values.{PairValue, past_at};
ghost use Rattle.tcp_refinement.specs.declared.pair.event.SentSegment.{SentSegment};
ghost use Rattle.tcp_refinement.specs.declared.pair.event.Side.{Side};
ghost use Rattle.tcp_liveness.specs.BothWays.{AreThere, IsThrough, MayRounds, bound, both_read, rounds_in};
ghost use Rattle.tcp_liveness.specs.LastAck.{EndsAt};
ghost use Rattle.tcp_liveness.specs.Pair.{socket_of};
ghost use Rattle.tcp_liveness.specs.Reached.{IsReached};
ghost use Rattle.tcp_liveness.specs.Talking.{AreTalking, HaveTries, MayTalk, NeverGiveUp};

/// Of a pair that events led to, with both connections: rounds, in each of which both users read and each side that waits has an exchange when
/// what it waits for has come. As long as it may, all that either user wrote is acknowledged, or taken, after as many rounds as there are
/// positions that aren't acknowledged or weren't taken, both ways together; and both users read all that the other wrote.
pub fn both_ways_get_through()
    ensures through { (p : PairValue) → IsReached p → AreThere p → MayRounds (bound p) p → (side : Side) → IsThrough (rounds_in (bound p) p) side }
    ensures read { (p : PairValue) → IsReached p → AreThere p → MayRounds (bound p) p → (side : Side)
        → read (both_read (rounds_in (bound p) p)) (other side) ≡ written p side }
    ensures leads { (p : PairValue) → IsReached p → AreThere p → MayRounds (bound p) p → IsReached (rounds_in (bound p) p) }
{}

/// What a turn asks for follows from the beginning, but for what may fail on the way: of two sides with their connections,
/// with receive buffers, no user timeout and clocks that don't end, each may have its exchange in every round in which it doesn't
/// give up, whatever both windows are. So both ways get through; and the other has taken the FIN of each stream that was closed, whichever
/// connection is over by then.
pub fn two_sides_that_talk_get_through()
    ensures may { (n : ℕ) (p : PairValue) → IsReached p → AreTalking n p → MayTalk n p → MayRounds n p }
    ensures through { (p : PairValue) → IsReached p → AreTalking (bound p) p → MayTalk (bound p) p → (side : Side)
        → IsThrough (rounds_in (bound p) p) side }
    ensures read { (p : PairValue) → IsReached p → AreTalking (bound p) p → MayTalk (bound p) p → (side : Side)
        → read (both_read (rounds_in (bound p) p)) (other side) ≡ written p side }
    ensures ends { (p : PairValue) → IsReached p → AreTalking (bound p) p → MayTalk (bound p) p → (side : Side) → (past_at p side).closed ≡ true
        → (socket_of (rounds_in (bound p) p) (other side)).tcb.receiver.took_fin ≡ true }
{}

/// Nothing fails on the way: where each side has four tries left at the beginning, neither gives up in any round, since of four turns of a
/// side in a row one is answered. So the same follows from the beginning alone.
pub fn two_sides_with_tries_left_get_through()
    ensures talk { (n : ℕ) (p : PairValue) → IsReached p → AreTalking n p → HaveTries p → MayTalk n p }
    ensures patient { (p : PairValue) → NeverGiveUp p → HaveTries p }
    ensures through { (p : PairValue) → IsReached p → AreTalking (bound p) p → HaveTries p → (side : Side) → IsThrough (rounds_in (bound p) p) side }
    ensures read { (p : PairValue) → IsReached p → AreTalking (bound p) p → HaveTries p → (side : Side)
        → read (both_read (rounds_in (bound p) p)) (other side) ≡ written p side }
    ensures ends { (p : PairValue) → IsReached p → AreTalking (bound p) p → HaveTries p → (side : Side) → (past_at p side).closed ≡ true
        → (socket_of (rounds_in (bound p) p) (other side)).tcb.receiver.took_fin ≡ true }
{}

/// Whatever happened to a pair, and however late it comes: where a segment that is no reset ends a connection, its side was in LAST-ACK, and
/// the other has taken its FIN, and so all that its user wrote.
pub fn what_ends_a_connection_was_taken()
    ensures last { (p : PairValue) (side : Side) (k : ℕ) (x : SentSegment) → IsReached p → EndsAt p side k x
        → (socket_of p side).tcb.state ≡ In.LastAck }
    ensures taken { (p : PairValue) (side : Side) (k : ℕ) (x : SentSegment) → IsReached p → EndsAt p side k x
        → (socket_of p (other side)).tcb.receiver.took_fin ≡ true }
{}
