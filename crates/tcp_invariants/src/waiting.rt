//! No socket waits for ever.

ghost use Rattle.std.specs.Prelude.{◌≡◌, false};
ghost use Rattle.tcp_block.specs.Context.{ContextValue};
ghost use Rattle.tcp_block.specs.BaseOffers.{IsBefore, offered_as};
ghost use Rattle.tcp_block.specs.Offer.TheVariants as Answer;
ghost use Rattle.tcp_state.specs.PollAt.TheVariants as At;
ghost use Rattle.tcp_state.specs.declared.endpoints.FourTuple.{FourTuple};
ghost use Rattle.tcp_block.specs.Due.{poll_of};
ghost use Rattle.tcp_block.specs.Offers.{offer_of};
ghost use Rattle.tcp_block.specs.Value.{TcpValue, unoffered};
ghost use Rattle.tcp_invariants.specs.Waiting.{IsWaiting};

/// What has a SYN, payload or a FIN that isn't acknowledged, sent or not, names an instant; and an offer at that instant or later isn't a silence
/// that leaves all as it is: a segment goes, or a timer is set or runs out, or the connection ends.
pub fn what_waits_names_a_instant_and_acts_at_it()
    ensures names { (cx : ContextValue) (v : TcpValue) (pair : FourTuple) → IsWaiting v pair → poll_of cx.ip_mtu v ≡ At.Ingress → ⊥ }
    ensures acts { (cx : ContextValue) (v : TcpValue) (pair : FourTuple) → IsWaiting v pair → (IsBefore cx.instant (poll_of cx.ip_mtu v) → ⊥)
        → offer_of cx v ≡ offered_as (Answer.Silent false) (unoffered v) → ⊥ }
{}
