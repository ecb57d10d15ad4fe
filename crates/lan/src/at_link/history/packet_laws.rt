//! The theorem.
ghost use Rattle.std.specs.Prelude.{◌≡◌, ◌-◌, ◌≤◌, ◌++◌, ℕ, Bool, List, length};
ghost use Rattle.lan.specs.declared.at_link.history.event.Side.{Side};
ghost use Rattle.lan.specs.Worlds.AtLink.Moves.{Step, IsRun, run};
ghost use Rattle.lan.specs.Worlds.AtLink.Parties.{Net};
ghost use Rattle.lan.specs.Worlds.AtLink.PacketsSafe.{IsInitialNet, IsSafe, HoldsRest, HasNothing};
ghost use Rattle.lan.specs.Worlds.AtLink.History.{written};
ghost use Rattle.tcp_block.specs.Value.{TcpValue};

/// After each run of two new hosts, whatever their applications and the network do: what a socket took in begins what its peer
/// wrote, only bytes that were taken in have left the send queue, which holds the rest, a socket without a peer has nothing, the end of a stream means
/// closed and complete,
/// and each datagram read was accepted with these bytes and ports.
#[tactic(auto, using(crate::proofs::Worlds::AtLink::Runs::runs_safe))]
pub fn runs_are_safe()
    ensures safe { (starts : Side → ℕ → ℕ) (names : List ℕ → Bool) (net : Net) (steps : List Step)
        → IsInitialNet starts net → IsRun names net steps → IsSafe starts (run net steps) }
{}

/// What has left a send queue that holds the rest of what was written is counted: no more than was taken in, and nothing where the queue
/// holds all.
#[tactic(auto, using(crate::proofs::Worlds::AtLink::SendQueues::counts_of_rest, crate::proofs::Worlds::AtLink::SendQueues::count_of_nothing))]
pub fn the_rest_is_counted()
    ensures peer_side { (written queue taken : List ℕ) → HoldsRest written queue taken → length written - length queue ≤ length taken }
    ensures alone { (net : Net) (side : Side) (i : ℕ) (v : TcpValue) → HasNothing net side i v
        → length (written net.history side i) - length v.queued.queue ≡ 0 }
{}

/// A run may go on where it ended.
pub fn runs_proceed()
    ensures runs { (names : List ℕ → Bool) (net : Net) (steps more : List Step)
        → IsRun names net steps → IsRun names (run net steps) more → IsRun names net (steps ++ more) }
    ensures end { (net : Net) (steps more : List Step) → run net (steps ++ more) ≡ run (run net steps) more }
{}
