//! That a connection goes on.

ghost use Rattle.std.specs.Prelude.{◌≡◌, ◌⊎◌, ℕ, ◌+◌, ◌-◌, ◌*◌, ◌^◌, ◌<◌, ◌≤◌, ℤ, true, false, List, length, Some, None};
ghost use Rattle.ip_wire.specs.IpRepr.{IpRepr};
ghost use Rattle.ip_wire.specs.Seq.{distance_of};
ghost use Rattle.ip_wire.specs.SeqNumber.{SeqNumber};
ghost use Rattle.ip_wire.specs.TcpHeader.{TcpHeader};
ghost use Rattle.tcp_refinement.specs.Context.{ContextValue};
ghost use Rattle.tcp_refinement.specs.Offers.{IsBefore, offered_as};
ghost use Rattle.tcp_refinement.specs.Offer.TheVariants as Answer;
ghost use Rattle.tcp_refinement.specs.PollAt.TheVariants as At;
ghost use Rattle.tcp_theory.specs.Invariant.{IsInStep};
ghost use Rattle.tcp_block.specs.Answers.{may_challenge};
ghost use Rattle.tcp_block.specs.Arrival.{arrives};
ghost use Rattle.tcp_block.specs.Due.{poll_of};
ghost use Rattle.tcp_block.specs.Offers.{offer_of};
ghost use Rattle.tcp_block.specs.TcbRules.{unacked};
ghost use Rattle.tcp_block.specs.Segments.{segment_len};
ghost use Rattle.tcp_block.specs.Value.{TcpValue, unoffered, free_in, queued_in, room_of};
ghost use Rattle.tcp_refinement.specs.Pair.Sides.{at, other};
ghost use Rattle.tcp_refinement.specs.Pair.Values.{PairValue, past_at};
ghost use Rattle.tcp_refinement.specs.Pair.Steps.{refusal};
ghost use Rattle.tcp_refinement.specs.declared.pair.event.PairEvent.TheVariants.{Offer};
ghost use Rattle.tcp_refinement.specs.declared.pair.event.Side.{Side};
ghost use Rattle.tcp_invariants.specs.Controls.{is_rst, is_syn};
ghost use Rattle.tcp_invariants.specs.Ends.{is_over};
ghost use Rattle.tcp_invariants.specs.Offsets.{advanced_by};
ghost use Rattle.tcp_invariants.specs.OpenOffer.{OpenOffer};
ghost use Rattle.tcp_invariants.specs.Timing.{carries};
ghost use Rattle.tcp_liveness.specs.StartsOver.{StartsOver};
ghost use Rattle.tcp_liveness.specs.Arrivals.{is_synchronized, Counts, EndsLastAck, IsNearWindow, IsNew, Rises, IsAgain, IsAnswered, IsShutOut};
ghost use Rattle.tcp_liveness.specs.Clocks.{arrives_stale};
ghost use Rattle.tcp_liveness.specs.Exchange.{FitsBuffer, GoesFromUna, HasMoved, IsOpen, MayExchange, TookWhatWasSent, left_of};
ghost use Rattle.tcp_liveness.specs.Pair.{AreMirrored, Exchanges, HasStream, MayExchangeIn, MovesIn, exchanged_in, has_heard, left_in, socket_of};
ghost use Rattle.tcp_liveness.specs.Positions.{LiesWithin};
ghost use Rattle.tcp_liveness.specs.Reached.{IsReached, Owes};
ghost use Rattle.tcp_liveness.specs.Sent.{SendsAll, sent_in, taken_in};
ghost use Rattle.tcp_refinement.specs.Tie.{Past, Keeps};

/// Whatever happened to two sockets: a side with a SYN, payload or a FIN that isn't acknowledged, sent or not, names an instant; and an offer
/// at that instant or later isn't a silence that leaves all as it is: a segment goes, or a timer is set or runs out, or the connection ends.
pub fn no_side_waits_for_ever()
    ensures names { (p : PairValue) (side : Side) (cx : ContextValue) → IsReached p → Owes (at p.sides side).socket
        → poll_of cx.ip_mtu (at p.sides side).socket ≡ At.Ingress → ⊥ }
    ensures acts { (p : PairValue) (side : Side) (cx : ContextValue) → IsReached p → Owes (at p.sides side).socket
        → (IsBefore cx.instant (poll_of cx.ip_mtu (at p.sides side).socket) → ⊥)
        → offer_of cx (at p.sides side).socket ≡ offered_as (Answer.Silent false) (unoffered (at p.sides side).socket) → ⊥ }
{}

/// Where nothing is in flight, or the retransmission timer has run out, what goes of the send queue begins at SND.UNA, by whichever rule.
pub fn what_goes_again_begins_at_snd_una()
    ensures begins { (cx : ContextValue) (v : TcpValue) (o : OpenOffer) → v.tcb.sender.una.0 < 2 ^ 32
        → v.tcb.sender.syn_unacked ≡ false → StartsOver cx v → (offer_of cx v).socket.offered ≡ Some o → carries o.kind ≡ true
        → o.segment.seq_number.0 ≡ v.tcb.sender.una.0 }
{}

/// An acknowledgement of what was sent, on a segment inside the receive window or on an old one just before it, raises SND.UNA to its
/// number.
pub fn an_acknowledgement_raises_snd_una()
    ensures rises { (cx : ContextValue) (v : TcpValue) (ip : IpRepr) (header : TcpHeader) (bytes : List ℕ) (number : SeqNumber)
        → Counts v.tcb header number → IsNearWindow v header (length bytes)
        → (arrives cx v ip header bytes).socket.tcb.sender.una.0 ≡ number.0 }
{}

/// A segment that begins at RCV.NXT or before it, and ends past it, raises it: by a position at least, by all of its new payload that the
/// window has room for, and it is acknowledged at once, or its acknowledgement is due within the delay.
pub fn payload_in_order_raises_rcv_nxt()
    ensures rises { (cx : ContextValue) (v : TcpValue) (ip : IpRepr) (header : TcpHeader) (bytes : List ℕ) (number : SeqNumber)
        → Counts v.tcb header number → IsNew v header (length bytes) → Rises cx v header (length bytes) (arrives cx v ip header bytes) }
{}

/// A segment that was taken already is answered at once with RCV.NXT, past all that was ever sent; or its acknowledgement ends LAST-ACK.
pub fn old_payload_is_answered()
    ensures answered { (cx : ContextValue) (v : TcpValue) (ip : IpRepr) (header : TcpHeader) (bytes : List ℕ) (number : SeqNumber)
        → Counts v.tcb header number → IsAgain v header (length bytes)
        → EndsLastAck v (arrives cx v ip header bytes) ⊎ IsAnswered v (arrives cx v ip header bytes) }
{}

/// What comes while the window is closed, as a probe does, is answered with RCV.NXT, too; nothing of it is taken.
pub fn a_probe_of_a_closed_window_is_answered()
    ensures answered { (cx : ContextValue) (v : TcpValue) (ip : IpRepr) (header : TcpHeader) (bytes : List ℕ) (number : SeqNumber)
        → Counts v.tcb header number → IsShutOut v header (length bytes) → may_challenge cx.instant v.tcb.timers.challenges_from ≡ true
        → IsAnswered v (arrives cx v ip header bytes) }
{}

/// Either way its acknowledgement counts: it lies inside the window, or just before it.
pub fn what_begins_before_the_window_counts()
    ensures inside { (v : TcpValue) (header : TcpHeader) (size : ℕ) → IsNew v header size → IsNearWindow v header size }
    ensures before { (v : TcpValue) (header : TcpHeader) (size : ℕ) → IsAgain v header size → IsNearWindow v header size }
{}

/// Of two sockets that keep the invariant and are in step: RCV.NXT of the peer lies as far past SND.UNA as their numbers say, and within
/// what may be acknowledged.
pub fn rcv_nxt_lies_in_what_was_written()
    ensures within { (v w : TcpValue) (p q : Past) (k : Keeps v p w q) → is_synchronized v.tcb.state ≡ true
        → is_synchronized w.tcb.state ≡ true → IsInStep k.side k.peer_side → LiesWithin v w k.side k.peer_side }
{}

/// What begins at SND.UNA, and ends no further than what was written, is new to the peer, or was taken already.
pub fn what_begins_at_snd_una_is_new_or_was_taken()
    ensures either { (v w : TcpValue) (p q : Past) (k : Keeps v p w q) (header : TcpHeader) (size : ℕ) → is_synchronized v.tcb.state ≡ true
        → is_synchronized w.tcb.state ≡ true → IsInStep k.side k.peer_side → header.seq_number ≡ v.tcb.sender.una → 1 ≤ segment_len header size
        → segment_len header size ≤ unacked v.tcb (queued_in v) → 1 ≤ free_in w
        → distance_of v.tcb.sender.una w.tcb.receiver.next ≤ room_of w.received + 2
        → IsNew w header size ⊎ IsAgain w header size }
    ensures goes { (cx : ContextValue) (v : TcpValue) (o : OpenOffer) → v.tcb.sender.una.0 < 2 ^ 32 → v.tcb.sender.syn_unacked ≡ false
        → StartsOver cx v → (offer_of cx v).socket.offered ≡ Some o → carries o.kind ≡ true → GoesFromUna v o }
{}

/// Whatever the peer sends, but a SYN and a reset, that lies in the window or just before it, raises SND.UNA to the peer's RCV.NXT.
pub fn what_a_peer_side_says_raises_snd_una()
    ensures rises { (cx : ContextValue) (v w : TcpValue) (p q : Past) (k : Keeps v p w q) (ip : IpRepr) (header : TcpHeader) (bytes : List ℕ)
        → IsOpen v.tcb → is_synchronized w.tcb.state ≡ true → TookWhatWasSent v w → is_syn header.control ≡ false
        → is_rst header.control ≡ false → arrives_stale v.tcb header.options.timestamp ≡ false
        → header.ack_number ≡ Some w.tcb.receiver.next → IsNearWindow v header (length bytes)
        → (arrives cx v ip header bytes).socket.tcb.sender.una
        ≡ advanced_by v.tcb.sender.una (distance_of v.tcb.sender.una w.tcb.receiver.next) }
{}

/// Where all that was written was sent, the peer took only what was sent; and where it fits the peer's buffer, so does what was taken.
pub fn where_all_was_sent_no_more_was_taken()
    ensures sent { (v w : TcpValue) (p q : Past) (k : Keeps v p w q) → is_synchronized v.tcb.state ≡ true
        → is_synchronized w.tcb.state ≡ true → IsInStep k.side k.peer_side → v.tcb.sender.snd_max ≡ left_of v → TookWhatWasSent v w }
    ensures near { (v w : TcpValue) (p q : Past) (k : Keeps v p w q) → is_synchronized v.tcb.state ≡ true
        → is_synchronized w.tcb.state ≡ true → IsInStep k.side k.peer_side → left_of v ≤ room_of w.received + 2
        → distance_of v.tcb.sender.una w.tcb.receiver.next ≤ room_of w.received + 2 }
{}

/// Whatever happened to two sockets: each segment of a side with a connection lies within what it sent, and its peer can't tell it from
/// one whose user wrote no more than was sent. So what the other took, with the FIN, is no more than that; its RCV.NXT lies between SND.UNA
/// and all that was ever sent; and no further than a buffer that holds all that was sent past SND.UNA, a SYN and a FIN.
pub fn a_side_takes_only_what_was_sent()
    ensures invariant { (p : PairValue) (side : Side) → IsReached p
        → SendsAll (socket_of p side) (past_at p side) (socket_of p (other side)) (past_at p (other side)) }
    ensures taken { (p : PairValue) (side : Side) → IsReached p → is_synchronized (socket_of p side).tcb.state ≡ true
        → taken_in p (other side) ≤ sent_in (socket_of p side) (past_at p side) - 1 }
    ensures sent { (p : PairValue) (side : Side) → IsReached p → IsOpen (socket_of p side).tcb
        → is_synchronized (socket_of p (other side)).tcb.state ≡ true → TookWhatWasSent (socket_of p side) (socket_of p (other side)) }
    ensures near { (p : PairValue) (side : Side) → IsReached p → IsOpen (socket_of p side).tcb
        → is_synchronized (socket_of p (other side)).tcb.state ≡ true
        → (socket_of p side).tcb.sender.snd_max ≤ room_of (socket_of p (other side)).received + 2
        → distance_of (socket_of p side).tcb.sender.una (socket_of p (other side)).tcb.receiver.next
        ≤ room_of (socket_of p (other side)).received + 2 }
{}

/// An exchange: a side with nothing in flight, or whose timer has run out, offers payload or a FIN, and it comes. Then RCV.NXT of the peer
/// rises, and it is acknowledged at once, or an acknowledgement is due; or the peer has it already, and its answer, as soon as it comes, raises SND.UNA; or it ends
/// LAST-ACK of the peer.
pub fn an_exchange_proceeds()
    ensures moved { (cx cy cz : ContextValue) (v w : TcpValue) (p q : Past) (k : Keeps v p w q) (o : OpenOffer)
        → IsInStep k.side k.peer_side → TookWhatWasSent v w → FitsBuffer v w → TookWhatWasSent w v → MayExchange cx cy v w o
        → HasMoved cx cy cz v w o }
{}

/// Of two sockets whose streams keep the invariant: they are in step where the side's user hasn't closed it, or wrote something.
pub fn a_side_with_a_stream_is_in_step()
    ensures step { (v w : TcpValue) (p q : Past) (k : Keeps v p w q) → is_synchronized v.tcb.state ≡ true → HasStream p
        → IsInStep k.side k.peer_side }
{}

/// Of a pair that events led to, in which one side has taken a SYN of the other, and the other is neither closed nor listens, their endpoints
/// mirror each other: a side that called sends between its own, and what came to it came between them; a listener has those of a segment
/// that came. So each accepts what the other sends, whether one of them listened or their SYNs crossed.
pub fn endpoints_mirror_each_other()
    ensures mirrored { (p : PairValue) (side : Side) → IsReached p → has_heard (socket_of p side).tcb.state ≡ true
        → is_over (socket_of p (other side)).tcb.state ≡ false
        → AreMirrored (socket_of p side).tcb (socket_of p (other side)).tcb }
{}

/// No deadlock, of a pair: a side that has something unacknowledged is asked at an instant at which nothing is in flight or its timer has run
/// out, and sends payload or a FIN. Its segment comes, and what answers it comes. Then RCV.NXT of the other rises, or SND.UNA of the side does,
/// or the other was in LAST-ACK, which the segment ends.
pub fn an_exchange_of_a_pair_proceeds()
    ensures kept { (p : PairValue) (side : Side) (instant : ℤ) (o : OpenOffer)
        (k : Keeps (socket_of p side) (past_at p side) (socket_of p (other side)) (past_at p (other side)))
        → IsInStep k.side k.peer_side → TookWhatWasSent (socket_of p side) (socket_of p (other side))
        → FitsBuffer (socket_of p side) (socket_of p (other side)) → TookWhatWasSent (socket_of p (other side)) (socket_of p side)
        → AreMirrored (socket_of p side).tcb (socket_of p (other side)).tcb → MayExchangeIn p side instant o → MovesIn p side instant }
    ensures reached { (p : PairValue) (side : Side) (instant : ℤ) (o : OpenOffer) → IsReached p → HasStream (past_at p side)
        → MayExchangeIn p side instant o → MovesIn p side instant }
    ensures leads { (p : PairValue) (side : Side) (instant : ℤ) (o : OpenOffer) → IsReached p → HasStream (past_at p side)
        → MayExchangeIn p side instant o → refusal p (Offer side instant true) ≡ None → IsReached (exchanged_in p side instant) }
{}

/// Of a pair that events led to: a side past SYN-RECEIVED whose SYN was acknowledged has counted it.
pub fn a_side_of_a_pair_is_open()
    ensures counts { (p : PairValue) (side : Side) → IsReached p → is_synchronized (socket_of p side).tcb.state ≡ true
        → (socket_of p side).tcb.sender.syn_unacked ≡ false → IsOpen (socket_of p side).tcb }
{}

/// So exchanges come to an end: as long as nothing else happens, a side has at most two for each position that isn't acknowledged.
pub fn exchanges_come_to_an_end()
    ensures few { (p : PairValue) (side : Side) (exchanges : List (ℤ × OpenOffer)) → Exchanges p side exchanges
        → length exchanges ≤ 2 * left_in p side }
{}
