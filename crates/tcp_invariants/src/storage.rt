//! No segment of payload is short because the storage of its queue ends.

ghost use Rattle.std.specs.Prelude.{◌≡◌, ◌≤◌, Some};
ghost use Rattle.tcp_state.specs.declared.endpoints.FourTuple.{FourTuple};
ghost use Rattle.tcp_state.specs.declared.offer.OfferKind.TheVariants as Kind;
ghost use Rattle.tcp_state.specs.declared.offer.OpenOffer.{OpenOffer};
ghost use Rattle.tcp_block.specs.Context.{ContextValue};
ghost use Rattle.tcp_block.specs.Offers.{offer_of, offered_packet};
ghost use Rattle.tcp_block.specs.Value.{TcpValue};
ghost use Rattle.tcp_invariants.specs.Storage.{AreAlike, most_from};

/// Where a send queue lies in its storage isn't seen: two sockets that differ in that alone answer the same and offer the same packet, byte
/// for byte, also where the one's queue goes round the storage's end. They differ in no more after it.
pub fn the_storage_is_not_seen()
    ensures answer { (cx : ContextValue) (v w : TcpValue) → AreAlike v w → (offer_of cx v).answer ≡ (offer_of cx w).answer }
    ensures packet { (cx : ContextValue) (v w : TcpValue) → AreAlike v w
        → offered_packet (offer_of cx v).socket ≡ offered_packet (offer_of cx w).socket }
    ensures alike { (cx : ContextValue) (v w : TcpValue) → AreAlike v w → AreAlike (offer_of cx v).socket (offer_of cx w).socket }
{}

/// Payload that goes from SND.NXT is as long as a segment's size, the send queue and both windows allow.
pub fn payload_is_as_long_as_it_may_be()
    ensures { (cx : ContextValue) (v : TcpValue) (pair : FourTuple) (o : OpenOffer) → v.tcb.names.pair ≡ Some pair
        → (offer_of cx v).socket.offered ≡ Some o → o.kind ≡ Kind.Payload
        → most_from (offer_of cx v).socket pair.addresses cx.ip_mtu o.offset ≤ o.len }
{}
