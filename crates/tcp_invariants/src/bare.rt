//! Where segments lie that carry neither payload nor SYN nor FIN.

ghost use Rattle.std.specs.Prelude.{◌≡◌, ℕ, true, List, Some};
ghost use Rattle.ip_wire.specs.IpRepr.{IpRepr};
ghost use Rattle.ip_wire.specs.TcpHeader.{TcpHeader};
ghost use Rattle.tcp_block.specs.Context.{ContextValue};
ghost use Rattle.tcp_state.specs.declared.offer.OpenOffer.{OpenOffer};
ghost use Rattle.tcp_state.specs.declared.offer.Reply.{Reply};
ghost use Rattle.tcp_block.specs.Arrival.{arrives};
ghost use Rattle.tcp_block.specs.TcbRules.{snd_max};
ghost use Rattle.tcp_block.specs.Offers.{offer_of};
ghost use Rattle.tcp_block.specs.Value.{TcpValue};
ghost use Rattle.tcp_invariants.specs.Flight.{IsPastAll, is_bare};

/// An acknowledgement without payload, a window update, and the reset after an abort lie past all that was ever sent, so none of them is old
/// to the remote, whatever the timer set back.
#[tactic(auto, using(crate::proofs::OfferRules::offers_past_all))]
pub fn bare_segments_lie_past_all_that_was_sent()
    ensures answers { (cx : ContextValue) (v : TcpValue) (ip : IpRepr) (header : TcpHeader) (bytes : List ℕ) (reply : Reply)
        → (arrives cx v ip header bytes).answer ≡ Some reply → IsPastAll (arrives cx v ip header bytes).socket.tcb reply }
    ensures offers { (cx : ContextValue) (v : TcpValue) (o : OpenOffer) → (offer_of cx v).socket.offered ≡ Some o
        → is_bare o.kind ≡ true → o.segment.seq_number ≡ snd_max (offer_of cx v).socket.tcb }
{}
