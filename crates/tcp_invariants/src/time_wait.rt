//! How TIME-WAIT ends.

ghost use Rattle.std.specs.Prelude.{◌≡◌, true, false, Some};
ghost use Rattle.tcp_block.specs.Context.{ContextValue};
ghost use Rattle.tcp_block.specs.BaseOffers.{offered_as};
ghost use Rattle.tcp_block.specs.Offer.TheVariants as Answer;
ghost use Rattle.tcp_state.specs.Moments.{is_due};
ghost use Rattle.tcp_state.specs.declared.endpoints.FourTuple.{FourTuple};
ghost use Rattle.tcp_state.specs.declared.state.State.TheVariants as In;
ghost use Rattle.tcp_block.specs.Offers.{offer_of};
ghost use Rattle.tcp_block.specs.Value.{TcpValue, unoffered, ended};
ghost use Rattle.tcp_invariants.specs.Events.{Event, after};
ghost use Rattle.tcp_invariants.specs.InOrder.{IsInOrder, sending_of};
ghost use Rattle.tcp_invariants.specs.TimeWait.{ends_wait};

/// No segment, no timer and no setting ends TIME-WAIT, neither a reset nor the user timeout, a keep-alive or the limit of retries: it
/// ends where it is asked at or after its instant, without a word to the remote, or where its user aborts.
pub fn time_wait_ends_by_its_own_instant_alone()
    ensures stays { (v : TcpValue) (it : Event) → IsInOrder (sending_of v) → v.tcb.state ≡ In.TimeWait → ends_wait v it ≡ false
        → (after v it).tcb.state ≡ In.TimeWait }
    ensures ends { (cx : ContextValue) (v : TcpValue) (pair : FourTuple) → v.tcb.names.pair ≡ Some pair → v.tcb.state ≡ In.TimeWait
        → is_due cx.instant v.tcb.timers.time_wait_ends ≡ true → offer_of cx v ≡ offered_as (Answer.Silent true) (ended (unoffered v)) }
{}
