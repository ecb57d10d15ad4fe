//! That no segment of a side is older than what its peer had of it.

ghost use Rattle.std.specs.Prelude.{◌≡◌, ℕ, ◌≤◌, ℤ, true, false, List, Some, None, slice_get};
ghost use Rattle.ip_wire.specs.IpRepr.{IpRepr};
ghost use Rattle.ip_wire.specs.TcpHeader.{TcpHeader};
ghost use Rattle.tcp_invariants.specs.OpenOffer.{OpenOffer};
ghost use Rattle.tcp_invariants.specs.Reply.{Reply};
ghost use Rattle.tcp_block.specs.Arrival.{arrives};
ghost use Rattle.tcp_block.specs.Offers.{offer_of};
ghost use Rattle.tcp_refinement.specs.Pair.Sides.{at, other};
ghost use Rattle.tcp_refinement.specs.Pair.Steps.{Steps, refusal};
ghost use Rattle.tcp_refinement.specs.Pair.Values.{PairValue, context_at};
ghost use Rattle.tcp_refinement.specs.declared.pair.event.PairEvent.{PairEvent};
ghost use Rattle.tcp_refinement.specs.declared.pair.event.PairEvent.TheVariants.{Offer};
ghost use Rattle.tcp_refinement.specs.declared.pair.event.SentSegment.{SentSegment};
ghost use Rattle.tcp_refinement.specs.declared.pair.event.Side.{Side};
ghost use Rattle.tcp_liveness.specs.Clocks.{HasDays, IsOvertakenAmong, IsTimed, WasShown, arrives_stale};
ghost use Rattle.tcp_liveness.specs.Pair.{context_of, next_sent, socket_of};
ghost use Rattle.tcp_liveness.specs.Reached.{IsReached};
ghost use Rattle.tcp_liveness.specs.Rounds.{takes};

/// Of a pair that events led to, and a side that was asked only since some instant, whose clock was set before it was opened: where the
/// other takes timestamps, its TS.Recent is what that clock showed since then, up to the side's last instant.
pub fn ts_recent_was_shown_by_the_peer_sides_clock()
    ensures shown { (p : PairValue) (side : Side) (since : ℤ) → IsReached p → IsTimed since side p.history
        → (socket_of p (other side)).tcb.peer.timestamps ≡ true
        → WasShown (socket_of p side).tcb.settings.timestamps since (at p.sides side).instant (socket_of p (other side)).tcb.peer.recent }
{}

/// So within 24 days no segment of the side is older: neither what it offers, nor what answers a segment.
pub fn no_segment_is_older_than_ts_recent()
    ensures offered { (p : PairValue) (side : Side) (instant : ℤ) (o : OpenOffer) → IsReached p → HasDays p side instant
        → refusal p (Offer side instant true) ≡ None → (offer_of (context_of p side instant) (socket_of p side)).socket.offered ≡ Some o
        → arrives_stale (socket_of p (other side)).tcb o.segment.options.timestamp ≡ false }
    ensures answered { (p : PairValue) (side : Side) (ip : IpRepr) (header : TcpHeader) (bytes : List ℕ) (reply : Reply) → IsReached p
        → HasDays p (other side) (at p.sides (other side)).instant
        → (arrives (context_at (other side) (at p.sides (other side))) (socket_of p (other side)) ip header bytes).answer ≡ Some reply
        → arrives_stale (socket_of p side).tcb reply.segment.options.timestamp ≡ false }
{}

/// A segment that a side sends with an event, within 24 days, isn't older whenever it comes, unless one that the side sent later comes before it
/// (RFC 7323, 5.3).
pub fn what_nothing_overtook_is_initial()
    ensures initial { (p q : PairValue) (side : Side) (event : PairEvent) (events : List PairEvent) (k : ℕ) (x : SentSegment) → IsReached p
        → refusal p event ≡ None → next_sent p side ≤ k → slice_get (at (takes p event).sides side).sent k ≡ Some x
        → HasDays (takes p event) side (at (takes p event).sides side).instant → Steps (takes p event) events q → (IsOvertakenAmong side k events → ⊥)
        → arrives_stale (socket_of q (other side)).tcb x.segment.options.timestamp ≡ false }
{}
