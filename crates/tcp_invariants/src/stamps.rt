//! Timestamps.

ghost use Rattle.std.specs.Prelude.{◌≡◌, ℕ, true, false, List, None};
ghost use Rattle.ip_wire.specs.IpRepr.{IpRepr};
ghost use Rattle.ip_wire.specs.TcpHeader.{TcpHeader};
ghost use Rattle.tcp_block.specs.Context.{ContextValue};
ghost use Rattle.tcp_state.specs.Controls.{is_rst};
ghost use Rattle.tcp_block.specs.Arrival.{arrives};
ghost use Rattle.tcp_block.specs.Value.{TcpValue, unoffered};
ghost use Rattle.tcp_invariants.specs.Events.{is_past};
ghost use Rattle.tcp_invariants.specs.Forged.{IsUntouched};
ghost use Rattle.tcp_invariants.specs.Stamps.{IsTooOld, RisesOrListens};

/// No segment takes TS.Recent back, from SYN-RECEIVED on: it stays, or becomes a timestamp that isn't older, unless it wasn't set for
/// 24 days.
#[tactic(auto, using(crate::proofs::TsvalRules::recent_rises))]
pub fn ts_recent_never_falls()
    ensures { (cx : ContextValue) (v : TcpValue) (ip : IpRepr) (header : TcpHeader) (bytes : List ℕ) → is_past v.tcb.state ≡ true
        → RisesOrListens v.tcb (arrives cx v ip header bytes).socket.tcb cx.instant }
{}

/// A segment with a timestamp that is too old, unless it is a reset, changes nothing of a connection, from SYN-RECEIVED on: at most it
/// is answered.
#[tactic(auto, using(crate::proofs::TsvalRules::old_untouched, crate::proofs::TsvalRules::old_ignored))]
pub fn an_old_timestamp_changes_nothing()
    ensures untouched { (cx : ContextValue) (v : TcpValue) (ip : IpRepr) (header : TcpHeader) (bytes : List ℕ)
        → is_past v.tcb.state ≡ true → is_rst header.control ≡ false → IsTooOld v.tcb header cx.instant
        → IsUntouched v (arrives cx v ip header bytes).socket }
    ensures unanswered { (cx : ContextValue) (v : TcpValue) (ip : IpRepr) (header : TcpHeader) (bytes : List ℕ)
        → is_past v.tcb.state ≡ true → is_rst header.control ≡ false → IsTooOld v.tcb header cx.instant
        → (arrives cx v ip header bytes).answer ≡ None → (arrives cx v ip header bytes).socket ≡ unoffered v }
{}
