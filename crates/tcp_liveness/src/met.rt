//! What the laws ask for is met, on numerals.

ghost use Rattle.std.specs.Prelude.{◌≡◌, suc, ◌-◌, ◌*◌, pos, ◌+ℤ◌, ◌<ℤ◌, true, [], ◌∷◌, length, IfSome};
ghost use Rattle.tcp_liveness.specs.BothWays.{bound};
ghost use Rattle.tcp_liveness.specs.Arrivals.{Counts, IsNew, IsAgain};
ghost use Rattle.tcp_refinement.specs.Pair.Values.{past_at};
ghost use Rattle.tcp_refinement.specs.declared.pair.event.Side.TheVariants.{A, B};
ghost use Rattle.tcp_refinement.specs.Pair.Steps.{Steps};
ghost use Rattle.tcp_liveness.specs.Connection.{MayConverse};
ghost use Rattle.tcp_liveness.specs.Connection.Course.{ByCall, ByCrossing};
ghost use Rattle.tcp_liveness.specs.Course.{IsSentInTime, end_of, events_of};
ghost use Rattle.tcp_liveness.specs.Handshake.{MayShake};
ghost use Rattle.tcp_liveness.specs.HandshakeOn.{MayAnswer, MayCallAgain, MayConfirm, MayCross, MayMeet, MayTell};
ghost use Rattle.tcp_liveness.specs.Met.{both_called, both_gone, both_timed, timed_called, timed_conversing, called, conversing, conversing_across, crossed, spoken, unanswered, unconfirmed, unheard, gone, mended, mending, come, told, payload, late, later, again_in, writing};
ghost use Rattle.tcp_liveness.specs.Pair.{Exchanges, HasStream, MayExchangeIn, MovesIn, exchanged_in, left_in};
ghost use Rattle.tcp_liveness.specs.Reached.{IsReached, Owes};
ghost use Rattle.tcp_liveness.specs.Readers.{ReadsWithin, whole_span};
ghost use Rattle.tcp_liveness.specs.Settle.{MaySettle};
ghost use Rattle.tcp_liveness.specs.Spans.{most_reached, reached_in};
ghost use Rattle.tcp_liveness.specs.Talking.{AreTalking, HaveTries, MayTalk};

/// Three bytes that have gone: their side waits, and they count and are new to the other; once they have come, they are old to it.
pub fn what_the_laws_ask_for_is_met()
    ensures reached { IsReached gone }
    ensures owes { Owes gone.sides.a.socket }
    ensures counts { IfSome payload (λ x. IfSome x.segment.ack_number (λ number. Counts gone.sides.b.socket.tcb x.segment number)) }
    ensures new { IfSome payload (λ x. IsNew gone.sides.b.socket x.segment (length x.bytes)) }
    ensures again { IfSome payload (λ x. IsAgain come.sides.b.socket x.segment (length x.bytes)) }
{}

/// An exchange is met where the bytes were lost, and where they came but the other didn't tell.
pub fn what_an_exchange_asks_for_is_met()
    ensures reached { IsReached come }
    ensures stream { HasStream (past_at gone A) }
    ensures lost { IfSome (again_in gone) (λ o. MayExchangeIn gone A late o) }
    ensures untold { IfSome (again_in come) (λ o. MayExchangeIn come A late o) }
    ensures moves { MovesIn gone A late }
    ensures tells { MovesIn come A late }
{}

/// After two exchanges, one after the other, nothing is unacknowledged: in the first the bytes come, in the second that is told.
pub fn two_exchanges_are_enough()
    ensures one { IfSome (again_in gone) (λ o. Exchanges gone A ((late, o) ∷ [])) }
    ensures some { left_in gone A ≡ 3 }
    ensures none { left_in (exchanged_in told A later) A ≡ 0 }
{}

/// A handshake is met where the SYN is to go, and where it was lost and its timer has run out; both of default sockets.
pub fn what_a_handshake_asks_for_is_met()
    ensures reached { IsReached unheard }
    ensures first { MayShake called A (pos 0) (pos 0) (pos 0) }
    ensures lost { MayShake unheard A late late late }
{}

/// A handshake goes on that lost its answer, of default sockets: where the timer of the listener has run out, or both timers have.
pub fn what_a_lost_answer_asks_for_is_met()
    ensures reached { IsReached unanswered }
    ensures answers { MayAnswer unanswered A late late }
    ensures calls { MayCallAgain unanswered A late late late }
{}

/// And one that lost its last acknowledgement; also where the caller's user writes then.
pub fn what_a_lost_acknowledgement_asks_for_is_met()
    ensures reached { IsReached unconfirmed }
    ensures confirms { MayConfirm unconfirmed A late }
    ensures tells { IfSome (again_in spoken) (λ o. MayTell spoken A late o) }
{}

/// Two default sockets that call each other meet what crossed SYNs ask for: as they begin, and once their SYNs came and both timers have run
/// out.
pub fn what_crossed_syns_ask_for_is_met()
    ensures reached { IsReached both_called }
    ensures crosses { MayCross both_called A (pos 0) (pos 0) }
    ensures meets { MayMeet crossed A late late }
{}

/// Rounds of one way are met where three bytes have gone and were lost, of default sockets.
pub fn what_rounds_ask_for_is_met()
    ensures settles { MaySettle (suc (2 * left_in gone A)) gone A }
{}

/// Both ways at once are met where three bytes of each side have gone and were lost, of default sockets: twelve rounds are enough.
pub fn what_talking_asks_for_is_met()
    ensures enough { bound both_gone ≡ 12 }
    ensures talking { AreTalking 12 both_gone }
    ensures tries { HaveTries both_gone }
    ensures turns { MayTalk 12 both_gone }
{}

/// So they are with timestamps, one side's of which go round meanwhile.
pub fn what_timestamps_ask_for_is_met()
    ensures reached { IsReached both_timed }
    ensures agreed { both_timed.sides.a.socket.tcb.peer.timestamps ≡ true }
    ensures peer_side_agreed { both_timed.sides.b.socket.tcb.peer.timestamps ≡ true }
    ensures enough { bound both_timed ≡ 12 }
    ensures talking { AreTalking 12 both_timed }
    ensures tries { HaveTries both_timed }
{}

/// So is a whole connection with timestamps.
pub fn what_a_connection_with_timestamps_asks_for_is_met()
    ensures reached { IsReached timed_called }
    ensures agreed { timed_conversing.sides.b.socket.tcb.peer.timestamps ≡ true }
    ensures converses { MayConverse timed_called A (ByCall (pos 0) (pos 0) (pos 0)) writing timed_conversing }
{}

/// A whole connection is met by default sockets: one calls the other, or both call, each user writes three bytes, and both close.
pub fn what_a_connection_asks_for_is_met()
    ensures reached { IsReached called }
    ensures converses { MayConverse called A (ByCall (pos 0) (pos 0) (pos 0)) writing conversing }
    ensures across { MayConverse both_called A (ByCrossing (pos 0) (pos 0) late late) writing conversing_across }
{}

/// A course is met where three bytes have gone and were lost: each segment takes half a millisecond, each side is asked at once, and the other's
/// buffer is never full. It is longer than there are positions to reach; and all is acknowledged in it.
pub fn what_a_course_asks_for_is_met()
    ensures course { IsSentInTime 1_000 1_000 (pos 0) gone A mending }
    ensures reads { ReadsWithin 1_000 (pos 0) gone B mending }
    ensures takes { Steps gone (events_of mending) mended }
    ensures long { (pos 0 +ℤ pos (suc (most_reached mended - reached_in gone) * (2 * whole_span 1_000 1_000 1_000 gone A))) <ℤ end_of (pos 0) mending }
    ensures some { left_in gone A ≡ 3 }
    ensures none { left_in mended A ≡ 0 }
{}
