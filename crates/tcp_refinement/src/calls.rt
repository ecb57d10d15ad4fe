//! Each call of a user keeps the invariant between two sockets.

ghost use Rattle.std.specs.Prelude.{◌≡◌, ◌==◌, ◌++◌, ◌^◌, ◌<◌, ℕ, true, List, length, take};
ghost use Rattle.ip_wire.specs.IpListenEndpoint.{IpListenEndpoint};
ghost use Rattle.net_base.specs.Ring.{Ring};
ghost use Rattle.tcp_theory.specs.Side.Opening.{NotYet};
ghost use Rattle.tcp_block.specs.FourTuple.{FourTuple};
ghost use Rattle.tcp_block.specs.Calls.{listening, connecting, sent_more, recv_after, close_after, abort_after};
ghost use Rattle.tcp_block.specs.States.{is_closed, takes_writes};
ghost use Rattle.tcp_block.specs.Value.{TcpValue};
ghost use Rattle.tcp_refinement.specs.Tie.{Past, Keeps, core_of};
ghost use Rattle.tcp_refinement.specs.History.{listened, called, with_written, with_read, closes_in, closed_by};

/// A socket is opened once, by a listen or a connect that is accepted. The initial sequence number of a connect is any of 32 bits.
#[tactic(auto, using(crate::proofs::CallLaws::keeps_listening, crate::proofs::CallLaws::keeps_connecting))]
pub fn opening_keeps_the_invariant()
    ensures listening { (v w : TcpValue) (p q : Past) (endpoint : IpListenEndpoint) → Keeps v p w q
        → is_closed v.tcb.state ≡ true → p.opening ≡ NotYet → Keeps (listening v endpoint) (listened p) w q }
    ensures connecting { (v w : TcpValue) (p q : Past) (pair : FourTuple) (number : ℕ) → Keeps v p w q
        → is_closed v.tcb.state ≡ true → p.opening ≡ NotYet → number < 2 ^ 32
        → Keeps (connecting v pair number) (called p) w q }
{}

/// Bytes that are taken for sending, whichever way they come into the send queue, and bytes that are read, in any state.
#[tactic(auto, using(crate::proofs::CallMoves::keeps_writes, crate::proofs::CallLaws::keeps_read))]
pub fn bytes_keep_the_invariant()
    ensures sent { (v w : TcpValue) (p q : Past) (queued : Ring ℕ) (bytes : List ℕ) → Keeps v p w q
        → takes_writes v.tcb.state ≡ true → queued.queue ≡ v.queued.queue ++ bytes
        → length (p.written ++ bytes) < 2 ^ 29 → Keeps (sent_more v queued) (with_written p bytes) w q }
    ensures read { (v w : TcpValue) (p q : Past) (count : ℕ) → Keeps v p w q
        → Keeps (recv_after v count) (with_read p (take count v.received.waiting)) w q }
{}

/// A close and an abort, in any state; and whatever changes nothing that the tie reads, as a setting or a refused call.
#[tactic(auto, using(crate::proofs::CallLaws::keeps_close, crate::proofs::CallLaws::keeps_abort, crate::proofs::CallLaws::keeps_same))]
pub fn the_other_calls_keep_the_invariant()
    ensures close { (v w : TcpValue) (p q : Past) → Keeps v p w q
        → Keeps (close_after v) (closed_by (closes_in v.tcb.state) p) w q }
    ensures abort { (v w : TcpValue) (p q : Past) → Keeps v p w q → Keeps (abort_after v) p w q }
    ensures same { (v new w : TcpValue) (p q : Past) → core_of new ≡ core_of v → Keeps v p w q → Keeps new p w q }
{}
