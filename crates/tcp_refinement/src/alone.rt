//! A socket without a peer.

ghost use Rattle.std.specs.Prelude.{◌≡◌, ℕ, List};
ghost use Rattle.ip_wire.specs.IpRepr.{IpRepr};
ghost use Rattle.ip_wire.specs.TcpHeader.{TcpHeader};
ghost use Rattle.tcp_block.specs.Context.{ContextValue};
ghost use Rattle.tcp_theory.specs.Segment.Control.{Rst};
ghost use Rattle.tcp_block.specs.Arrival.{arrives};
ghost use Rattle.tcp_block.specs.Value.{TcpValue};
ghost use Rattle.tcp_refinement.specs.History.{with_answer};
ghost use Rattle.tcp_refinement.specs.Promises.{KeepsAlone};
ghost use Rattle.tcp_refinement.specs.Tie.{Past, Keeps, segment_of};

/// What keeps the invariant alongside any peer keeps a socket alone: each call, each offer with its settling, each reset that is sent.
/// Of segments only a reset may come, from a host that has no socket for it.
#[tactic(auto, using(crate::proofs::AloneLaws::stays_alone, crate::proofs::AloneLaws::reset_arrives))]
pub fn a_lone_socket_stays_alone()
    ensures step { (v new : TcpValue) (p after : Past) → KeepsAlone v p
        → ((w : TcpValue) (q : Past) → Keeps v p w q → Keeps new after w q) → KeepsAlone new after }
    ensures reset { (cx : ContextValue) (v : TcpValue) (p : Past) (ip : IpRepr) (header : TcpHeader) (bytes : List ℕ) → KeepsAlone v p
        → (segment_of header bytes).control ≡ Rst
        → KeepsAlone (arrives cx v ip header bytes).socket (with_answer p (arrives cx v ip header bytes).answer) }
{}
