//! What a reader makes of the segments that a socket makes.

ghost use Rattle.std.specs.Prelude.{◌≡◌, ℕ, List, Some};
ghost use Rattle.ip_wire.specs.IpRepr.{IpRepr};
ghost use Rattle.ip_wire.specs.Tcp.{normal};
ghost use Rattle.ip_wire.specs.TcpHeader.{TcpHeader};
ghost use Rattle.tcp_state.specs.declared.offer.OpenOffer.{OpenOffer};
ghost use Rattle.tcp_state.specs.declared.offer.Reply.{Reply};
ghost use Rattle.tcp_block.specs.Arrival.{arrives};
ghost use Rattle.tcp_block.specs.Context.{ContextValue};
ghost use Rattle.tcp_block.specs.Offers.{offer_of};
ghost use Rattle.tcp_block.specs.Value.{TcpValue};

/// A reader has the header of each segment that a socket makes as it was made: a SYN's scale is at most 14 (RFC 7323, 2.3), and ranges go in an
/// acknowledgement alone, closed up, since the run that the payload came into is always there (RFC 2018, 4).
pub fn segments_are_read_as_made()
    ensures offers { (cx : ContextValue) (v : TcpValue) (o : OpenOffer) → (offer_of cx v).socket.offered ≡ Some o → normal o.segment ≡ o.segment }
    ensures answers { (cx : ContextValue) (v : TcpValue) (ip : IpRepr) (header : TcpHeader) (bytes : List ℕ) (reply : Reply)
        → (arrives cx v ip header bytes).answer ≡ Some reply → normal reply.segment ≡ reply.segment }
{}
