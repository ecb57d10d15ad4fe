//! Where the invariant begins, and what it promises.

ghost use Rattle.std.specs.Prelude.{◌≡◌, true, List};
ghost use Rattle.tcp_theory.specs.Alone.{AreResets};
ghost use Rattle.tcp_theory.specs.Segment.{Segment};
ghost use Rattle.tcp_theory.specs.Segment.Control.{Rst};
ghost use Rattle.tcp_theory.specs.Side.Opening.{NotYet};
ghost use Rattle.tcp_block.specs.States.{is_closed};
ghost use Rattle.tcp_block.specs.Value.{TcpValue};
ghost use Rattle.tcp_refinement.specs.Tie.{Past, Keeps, no_past};
ghost use Rattle.tcp_refinement.specs.Promises.{IsInitial, AreSafeSockets, KeepsAlone, HasTakenNothing};
ghost use Rattle.tcp_refinement.specs.History.{with_sent};

/// Two sockets that weren't opened keep the invariant, whatever resets their hosts sent; and it goes both ways.
#[tactic(auto, using(crate::proofs::PromiseLemmas::keeps_initial, crate::proofs::PromiseLemmas::keeps_turned))]
pub fn initial_sockets_keep_the_invariant()
    ensures initial { (v w : TcpValue) (resets others : List Segment) → IsInitial v → IsInitial w → AreResets resets
        → AreResets others → Keeps v (no_past resets) w (no_past others) }
    ensures either_way { (v w : TcpValue) (p q : Past) → Keeps v p w q → Keeps w q v p }
{}

/// What was read and waits begins what was written, only bytes that were taken in are freed, and the end of the stream means closed
/// and complete.
#[tactic(auto, using(crate::proofs::PromiseLemmas::safe_sockets))]
pub fn sockets_are_safe()
    ensures safe { (v w : TcpValue) (p q : Past) → Keeps v p w q → AreSafeSockets v p w q }
{}

/// A reset that is sent for a socket, by itself or by its host, whatever numbers it has.
#[tactic(auto, using(crate::proofs::PromiseLemmas::keeps_reset))]
pub fn resets_keep_the_invariant()
    ensures sent { (v w : TcpValue) (p q : Past) (x : Segment) → x.control ≡ Rst → Keeps v p w q
        → Keeps v (with_sent p x) w q }
{}

/// A socket without a peer has taken nothing; it can get any peer that isn't opened yet, and lose it again.
#[tactic(auto, using(crate::proofs::PromiseLemmas::peer_side_promises))]
pub fn a_socket_may_be_alone()
    ensures initial { (v : TcpValue) (resets : List Segment) → IsInitial v → AreResets resets
        → KeepsAlone v (no_past resets) }
    ensures comes { (v w : TcpValue) (p : Past) (resets : List Segment) → KeepsAlone v p → IsInitial w → AreResets resets
        → Keeps v p w (no_past resets) }
    ensures goes { (v w : TcpValue) (p q : Past) → Keeps v p w q → is_closed w.tcb.state ≡ true → q.opening ≡ NotYet
        → KeepsAlone v p }
    ensures nothing { (v : TcpValue) (p : Past) → KeepsAlone v p → HasTakenNothing v p }
{}
