//! The theorem of two TCP sockets: whatever their users, their hosts and the network do, both streams are safe.

ghost use Rattle.std.specs.Prelude.{List};
ghost use Rattle.tcp_theory.specs.Alone.{AreResets};
ghost use Rattle.tcp_theory.specs.Segment.{Segment};
ghost use Rattle.tcp_block.specs.Value.{TcpValue};
ghost use Rattle.tcp_refinement.specs.Promises.{IsInitial};
ghost use Rattle.tcp_refinement.specs.Run.{Step, IsRun, AreSafe, run, start};

/// After each run of two sockets that weren't opened: what was read and waits begins what the peer's user wrote, only bytes that
/// were taken in are freed, and a FIN that was taken means closed and complete.
#[tactic(auto, using(crate::proofs::RunLaws::runs_safe))]
pub fn runs_are_safe()
    ensures safe { (v w : TcpValue) (resets others : List Segment) (steps : List Step) → IsInitial v → IsInitial w → AreResets resets
        → AreResets others → IsRun (start v w resets others) steps → AreSafe (run (start v w resets others) steps) }
{}
