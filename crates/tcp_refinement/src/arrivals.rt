//! A segment that the peer sent comes: whatever it is and whenever it comes, the invariant between two sockets stays.

ghost use Rattle.std.specs.Prelude.{◌≡◌, ℕ, List, Some, slice_get};
ghost use Rattle.ip_wire.specs.IpRepr.{IpRepr};
ghost use Rattle.ip_wire.specs.TcpHeader.{TcpHeader};
ghost use Rattle.tcp_block.specs.Context.{ContextValue};
ghost use Rattle.tcp_block.specs.Arrival.{arrives};
ghost use Rattle.tcp_block.specs.Value.{TcpValue};
ghost use Rattle.tcp_refinement.specs.Tie.{Past, Keeps, segment_of};
ghost use Rattle.tcp_refinement.specs.History.{with_answer};

/// Each segment that the peer ever sent may come, at any instant, late, again, or never, in any state. The socket is as the rules
/// say (`arrives`), and what answers the segment counts as sent.
#[tactic(auto, using(crate::proofs::ArrivalLaws::keeps_arrival))]
pub fn arrivals_keep_the_invariant()
    ensures arrival { (cx : ContextValue) (v w : TcpValue) (p q : Past) (ip : IpRepr) (header : TcpHeader) (bytes : List ℕ) (k : ℕ)
        → Keeps v p w q → slice_get q.sent k ≡ Some (segment_of header bytes)
        → Keeps (arrives cx v ip header bytes).socket (with_answer p (arrives cx v ip header bytes).answer) w q }
{}
