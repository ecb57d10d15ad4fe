//! Acknowledgements that are due.

ghost use Rattle.std.specs.Prelude.{◌≡◌, ℕ, ℤ, true, List, Some};
ghost use Rattle.ip_wire.specs.IpRepr.{IpRepr};
ghost use Rattle.ip_wire.specs.TcpHeader.{TcpHeader};
ghost use Rattle.tcp_block.specs.Context.{ContextValue};
ghost use Rattle.tcp_block.specs.BaseOffers.{IsBefore};
ghost use Rattle.tcp_state.specs.declared.endpoints.FourTuple.{FourTuple};
ghost use Rattle.tcp_block.specs.Answers.{delayed};
ghost use Rattle.tcp_block.specs.Arrival.{arrives};
ghost use Rattle.tcp_block.specs.Due.{poll_of};
ghost use Rattle.tcp_block.specs.Offers.{offer_of};
ghost use Rattle.tcp_block.specs.Value.{TcpValue};
ghost use Rattle.tcp_invariants.specs.Acks.{IsAcknowledgedBy, IsAcknowledgedTwice, OffersAck, IsBy, IsDueBy, StaysDue};
ghost use Rattle.tcp_invariants.specs.Ends.{Proceeds};
ghost use Rattle.tcp_invariants.specs.Events.{Event, is_past};

/// Where a segment moves RCV.NXT, it is acknowledged at once, or an acknowledgement is due within the delay; less than two full segments
/// are left unacknowledged; what is due stays due until one goes; and the first poll at or after its instant offers one, with whatever
/// else goes.
pub fn an_acknowledgement_that_is_due_goes()
    ensures due { (cx : ContextValue) (v : TcpValue) (ip : IpRepr) (header : TcpHeader) (bytes : List ℕ)
        → is_past v.tcb.state ≡ true → is_past (arrives cx v ip header bytes).socket.tcb.state ≡ true
        → ((arrives cx v ip header bytes).socket.tcb.receiver.next ≡ v.tcb.receiver.next → ⊥)
        → IsAcknowledgedBy (arrives cx v ip header bytes) (delayed cx.instant v.tcb.settings.ack_delay) }
    ensures twice { (cx : ContextValue) (v : TcpValue) (ip : IpRepr) (header : TcpHeader) (bytes : List ℕ)
        → is_past v.tcb.state ≡ true → is_past (arrives cx v ip header bytes).socket.tcb.state ≡ true
        → ((arrives cx v ip header bytes).socket.tcb.receiver.next ≡ v.tcb.receiver.next → ⊥)
        → IsAcknowledgedTwice cx ip (arrives cx v ip header bytes) }
    ensures stays { (v : TcpValue) (it : Event) (t : ℤ) → is_past v.tcb.state ≡ true → IsBy t it → IsDueBy t v.tcb → StaysDue t v it }
    ensures goes { (cx : ContextValue) (v : TcpValue) (pair : FourTuple) → v.tcb.names.pair ≡ Some pair → v.tcb.receiver.took_syn ≡ true
        → Proceeds cx v → IsDueBy cx.instant v.tcb → OffersAck (offer_of cx v).socket v.tcb }
{}
