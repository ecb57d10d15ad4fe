//! A socket is asked for a segment, and the offer is settled: the invariant between two sockets stays.

ghost use Rattle.std.specs.Prelude.{true, false};
ghost use Rattle.tcp_block.specs.Context.{ContextValue};
ghost use Rattle.tcp_block.specs.Offers.{offer_of};
ghost use Rattle.tcp_block.specs.Settled.{settled};
ghost use Rattle.tcp_block.specs.Value.{TcpValue};
ghost use Rattle.tcp_refinement.specs.Tie.{Past, Keeps};
ghost use Rattle.tcp_refinement.specs.History.{with_offer};

/// A socket may be asked at any instant, in any state. What it offers, a segment or none, is settled as sent or not; a segment counts
/// as sent only then.
#[tactic(auto, using(crate::proofs::OfferLaws::keeps_sent_offer, crate::proofs::OfferLaws::keeps_unsent_offer))]
pub fn offers_keep_the_invariant()
    ensures sent { (cx : ContextValue) (v w : TcpValue) (p q : Past) → Keeps v p w q
        → Keeps (settled true (offer_of cx v).socket)
        (with_offer p (offer_of cx v).socket.offered (offer_of cx v).socket.queued.queue) w q }
    ensures withheld { (cx : ContextValue) (v w : TcpValue) (p q : Past) → Keeps v p w q
        → Keeps (settled false (offer_of cx v).socket) p w q }
{}
