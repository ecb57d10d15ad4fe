//! Round trips.

ghost use Rattle.std.specs.Prelude.{◌≡◌, ◌<◌, ◌≤◌, ℕ, true, false, List, Some, None};
ghost use Rattle.net_base.specs.Ring.{Ring};
ghost use Rattle.tcp_block.specs.Context.{ContextValue};
ghost use Rattle.tcp_state.specs.declared.offer.OpenOffer.{OpenOffer};
ghost use Rattle.tcp_state.specs.declared.round_trip.Sample.{Sample};
ghost use Rattle.tcp_block.specs.Offers.{offer_of};
ghost use Rattle.tcp_block.specs.Settled.{settled, end_of};
ghost use Rattle.tcp_block.specs.Value.{TcpValue, new_socket};
ghost use Rattle.tcp_invariants.specs.Events.{Event, led};
ghost use Rattle.tcp_invariants.specs.Timing.{IsTimedRight, timing_of, carries, start_of};

/// A round trip is taken only of what was sent once: while a position is timed, each segment that goes begins at it or past it, or ends the
/// timing; and a timing begins only with a segment that reaches past all that was sent before.
pub fn what_is_timed_was_sent_once()
    ensures kept { (capacity : ℕ) (queued : Ring ℕ) (events : List Event) → IsTimedRight (timing_of (led (new_socket capacity queued) events).tcb) }
    ensures begins { (cx : ContextValue) (v : TcpValue) (o : OpenOffer) (s : Sample) → (offer_of cx v).socket.offered ≡ Some o
        → (offer_of cx v).socket.tcb.round_trip.sample ≡ None → (settled true (offer_of cx v).socket).tcb.round_trip.sample ≡ Some s
        → (offer_of cx v).socket.tcb.sender.snd_max < end_of (offer_of cx v).socket.tcb o }
    ensures once { (cx : ContextValue) (v : TcpValue) (o : OpenOffer) (s : Sample) → IsTimedRight (timing_of v.tcb) → (offer_of cx v).socket.offered ≡ Some o
        → carries o.kind ≡ true → (offer_of cx v).socket.tcb.round_trip.sample ≡ Some s
        → (settled true (offer_of cx v).socket).tcb.round_trip.sample ≡ Some s → s.ends ≤ start_of (offer_of cx v).socket.tcb o }
{}
