//! What links hand over is heard.

ghost use Rattle.std.specs.Prelude.{◌++◌, ℕ, ℤ, List};
ghost use Rattle.lan.specs.declared.at_link.history.event.Side.{Side};
ghost use Rattle.lan.specs.declared.at_link.history.event.Side.TheVariants.{A, B};
ghost use Rattle.lan.specs.Worlds.AtLink.Initial.{IsInitialWorld};
ghost use Rattle.lan.specs.Worlds.AtLink.Happening.{Happening};
ghost use Rattle.lan.specs.Worlds.AtLink.History.{Entry};
ghost use Rattle.lan.specs.Worlds.AtLink.Moves.{IsRun, Step, run};
ghost use Rattle.lan.specs.Worlds.AtLink.Parties.{Net};
ghost use Rattle.lan.specs.Worlds.AtLink.PeerSides.{ArePartners};
ghost use Rattle.lan.specs.Worlds.AtLink.Runs.{Starts};
ghost use Rattle.lan.specs.Worlds.AtLink.Node.{Nodes};
ghost use Rattle.lan.specs.Worlds.Events.{AreTyped};
ghost use Rattle.lan.specs.Worlds.Moves.Joined.{first_net};
ghost use Rattle.lan.specs.Worlds.Still.{StillRun, seats_of};
ghost use Rattle.sim_link.specs.PacketInFrame.{names_tcp_or_udp};
ghost use Rattle.sim_link.specs.Medium.TheVariants as Medium;
ghost use Rattle.proof_stack.specs.Progress.Ends.{AreUnstamped};
ghost use Rattle.proof_stack.specs.Progress.Events.{MoveBy};
ghost use Rattle.proof_stack.specs.Progress.Hearing.{AreSo};
ghost use Rattle.proof_stack.specs.Progress.Linked.{AreLinked};
ghost use Rattle.proof_stack.specs.Progress.Moving.{AreHeard, ComeInitial, IsInitialFor, IsHeardBy};
ghost use Rattle.proof_stack.specs.Progress.OneClock.{timed};

/// Law: over a medium that has no hardware addresses, where each frame that a host sends is taken in time by a poll of the other, and each link gives leave
/// to send after each poll of its host, each segment that one end of a connection sends in the moves of the events comes to the other end in time: what its
/// socket offers, and what it answers. It is no older than TS.Recent says where no segment that comes is.
pub fn what_links_hand_over_arrives_in_time()
    ensures { (starts : Starts) (so_far : List Step) (past more : List Entry) (hosts : Nodes) (still : StillRun starts (more ++ past) hosts)
        (slots : Side → ℕ) (moves : List (ℤ × Happening)) (delay : ℕ)
        → IsInitialWorld starts
        → AreTyped (more ++ past)
        → IsRun (names_tcp_or_udp Medium.Ip) (first_net starts) so_far
        → ArePartners past A (slots A) (slots B)
        → MoveBy starts (run (first_net starts) so_far) past more hosts still (timed moves)
        → AreLinked starts slots delay past more hosts still
        → AreSo IsInitialFor (seats_of starts slots) moves
        → ComeInitial (seats_of starts slots) delay (run (first_net starts) so_far) moves }
{}

/// Law: where no timestamps were agreed on for a connection, no segment that comes in the moves of the events is older than TS.Recent.
pub fn without_timestamps_nothing_is_old()
    ensures { (starts : Starts) (net : Net) (past more : List Entry) (hosts : Nodes) (still : StillRun starts (more ++ past) hosts) (slots : Side → ℕ)
        (moves : List (ℤ × Happening)) → MoveBy starts net past more hosts still (timed moves) → AreUnstamped starts slots past more hosts still
        → AreSo IsInitialFor (seats_of starts slots) moves }
{}

/// Law: so each is heard in time where each that comes is heard.
pub fn what_links_hand_over_is_heard()
    ensures { (starts : Starts) (so_far : List Step) (past more : List Entry) (hosts : Nodes) (still : StillRun starts (more ++ past) hosts)
        (slots : Side → ℕ) (moves : List (ℤ × Happening)) (delay : ℕ)
        → IsInitialWorld starts
        → AreTyped (more ++ past)
        → IsRun (names_tcp_or_udp Medium.Ip) (first_net starts) so_far
        → ArePartners past A (slots A) (slots B)
        → MoveBy starts (run (first_net starts) so_far) past more hosts still (timed moves)
        → AreLinked starts slots delay past more hosts still
        → AreSo IsHeardBy (seats_of starts slots) moves
        → AreHeard (seats_of starts slots) delay (run (first_net starts) so_far) moves }
{}
