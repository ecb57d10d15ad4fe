//! A reset that isn't the remote's.

ghost use Rattle.std.specs.Prelude.{◌≡◌, ◌==◌, ℕ, true, false, List, None};
ghost use Rattle.ip_wire.specs.IpRepr.{IpRepr};
ghost use Rattle.ip_wire.specs.TcpHeader.{TcpHeader};
ghost use Rattle.tcp_block.specs.Context.{ContextValue};
ghost use Rattle.tcp_state.specs.Controls.{is_rst};
ghost use Rattle.tcp_block.specs.Arrival.{arrives};
ghost use Rattle.tcp_block.specs.Value.{TcpValue, unoffered};
ghost use Rattle.tcp_invariants.specs.Events.{is_past};
ghost use Rattle.tcp_invariants.specs.Forged.{IsUntouched};

/// A reset whose number isn't RCV.NXT changes nothing of a connection, from SYN-RECEIVED on, wherever it lies: at most it is answered.
#[tactic(auto, using(crate::proofs::ForgedRules::untouched, crate::proofs::ForgedRules::ignored))]
pub fn a_reset_elsewhere_changes_nothing()
    ensures untouched { (cx : ContextValue) (v : TcpValue) (ip : IpRepr) (header : TcpHeader) (bytes : List ℕ)
        → is_past v.tcb.state ≡ true → is_rst header.control ≡ true → (v.tcb.receiver.next.0 == header.seq_number.0) ≡ false
        → IsUntouched v (arrives cx v ip header bytes).socket }
    ensures unanswered { (cx : ContextValue) (v : TcpValue) (ip : IpRepr) (header : TcpHeader) (bytes : List ℕ)
        → is_past v.tcb.state ≡ true → is_rst header.control ≡ true → (v.tcb.receiver.next.0 == header.seq_number.0) ≡ false
        → (arrives cx v ip header bytes).answer ≡ None → (arrives cx v ip header bytes).socket ≡ unoffered v }
{}
