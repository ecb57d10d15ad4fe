//! That a bare acknowledgement counts, though it is old, and isn't answered.

ghost use Rattle.std.specs.Prelude.{◌≡◌, true, [], None};
ghost use Rattle.ip_wire.specs.IpRepr.{IpRepr};
ghost use Rattle.ip_wire.specs.SeqNumber.{SeqNumber};
ghost use Rattle.ip_wire.specs.TcpHeader.{TcpHeader};
ghost use Rattle.tcp_refinement.specs.Context.{ContextValue};
ghost use Rattle.tcp_block.specs.Arrival.{arrives};
ghost use Rattle.tcp_block.specs.Checks.{is_in_window};
ghost use Rattle.tcp_block.specs.Segments.{segment_len};
ghost use Rattle.tcp_block.specs.Value.{TcpValue, free_in};
ghost use Rattle.tcp_liveness.specs.Arrivals.{Counts};
ghost use Rattle.tcp_liveness.specs.Bare.{IsBareBefore};

/// Where both sides sent again what the other took, each segment of either lies before the other's RCV.NXT, also one without payload. Its
/// acknowledgement of what was sent raises SND.UNA to its number all the same: dropped with the segment, neither side would ever learn of
/// it.
pub fn a_bare_old_acknowledgement_counts()
    ensures rises { (cx : ContextValue) (v : TcpValue) (ip : IpRepr) (header : TcpHeader) (number : SeqNumber) → Counts v.tcb header number
        → IsBareBefore v header → (arrives cx v ip header []).socket.tcb.sender.una.0 ≡ number.0 }
{}

/// However much came since the last acknowledgement, a bare one in the window isn't answered: else two sides would answer each other's
/// for ever.
pub fn a_bare_acknowledgement_is_not_answered()
    ensures silent { (cx : ContextValue) (v : TcpValue) (ip : IpRepr) (header : TcpHeader) (number : SeqNumber) → Counts v.tcb header number
        → segment_len header 0 ≡ 0 → is_in_window v.tcb (free_in v) header 0 ≡ true → (arrives cx v ip header []).answer ≡ None }
{}
