//! Two peers at hosts whose connection goes on.

ghost use Rattle.std.specs.Prelude.{◌≡◌, ℕ, ℤ, Bool, List, ◌++◌};
ghost use Rattle.lan.specs.declared.at_link.history.event.Side.{Side};
ghost use Rattle.lan.specs.declared.at_link.history.event.Side.TheVariants.{A, B};
ghost use Rattle.lan.specs.Worlds.AtLink.Initial.{IsInitialWorld};
ghost use Rattle.lan.specs.Worlds.AtLink.Happening.{AreNumbered, Happening, steps_of};
ghost use Rattle.lan.specs.Worlds.AtLink.History.{Entry};
ghost use Rattle.lan.specs.Worlds.AtLink.Moves.{Step, IsRun, run};
ghost use Rattle.lan.specs.Worlds.AtLink.PacketsSafe.{IsInitialNet};
ghost use Rattle.lan.specs.Worlds.AtLink.Paired.{AreHosted, AreNew, HaveKeys, NewSocket, Seat, Shows, at_zero, clocks_in};
ghost use Rattle.lan.specs.Worlds.AtLink.Parties.{Net};
ghost use Rattle.lan.specs.Worlds.AtLink.PeerSides.{ArePartners};
ghost use Rattle.lan.specs.Worlds.AtLink.Runs.{Starts};
ghost use Rattle.lan.specs.Worlds.AtLink.Node.{Nodes};
ghost use Rattle.lan.specs.Worlds.Events.{AreTyped};
ghost use Rattle.lan.specs.Worlds.Moves.Joined.{first_net};
ghost use Rattle.lan.specs.Worlds.Still.{StillRun, seats_of};
ghost use Rattle.tcp_refinement.specs.Pair.Values.{PairValue};
ghost use Rattle.tcp_liveness.specs.Reached.{IsReached};
ghost use Rattle.proof_stack.specs.Progress.Moving.{ProceedByMoves, moves_of};
ghost use Rattle.proof_stack.specs.Progress.PeerSides.{ProceedBetween, ProceedsInTime, HoldText, ShowsReached};

use super::edges::{
    a_connection_proceeds_wherever_acknowledgements_come,
    all_is_acknowledged_wherever_acknowledgements_come,
};
use lan::at_link::history::pair_laws::peer_sides_are_a_pair;
use tcp_liveness::readers::{
    a_connection_proceeds_whatever_its_windows_are, all_is_acknowledged_whatever_the_windows_are,
};

/// Law: after a plain run over packets of two hosts, in which new TCP sockets of theirs became peers, a pair that events led to shows them: so
/// each law on such pairs is one on them.
pub fn peer_sides_are_reached()
    ensures { (starts : Side → ℕ → ℕ) (names : List ℕ → Bool) (first : Net) (steps : List Step) (seats : Side → Seat) (news : Side → NewSocket)
        → IsInitialNet starts first → AreNew seats news first → IsRun names first steps → AreHosted seats at_zero first steps → HaveKeys seats
        → HoldText seats → ArePartners (run first steps).history A (seats A).slot (seats B).slot
        → ShowsReached seats (clocks_in seats at_zero steps) (run first steps) }
{
    peer_sides_are_a_pair();
}

/// Law: and their connection goes on, whatever its windows are, where from some net on hosts are polled in time, segments come in time, and users
/// read.
pub fn peer_sides_proceed()
    ensures { (starts : Side → ℕ → ℕ) (names : List ℕ → Bool) (first : Net) (before steps : List Step) (seats : Side → Seat) (clocks : Side → ℤ)
        (p : PairValue) → IsInitialNet starts first → IsRun names first before → IsReached p → Shows seats clocks (run first before) p
        → IsRun names (run first before) steps → AreHosted seats clocks (run first before) steps → HaveKeys seats
        → ArePartners (run (run first before) steps).history A (seats A).slot (seats B).slot
        → ProceedsInTime seats (clocks_in seats clocks steps) (run (run first before) steps) p }
{
    peer_sides_are_a_pair();
    a_connection_proceeds_whatever_its_windows_are();
    all_is_acknowledged_whatever_the_windows_are();
}

/// Law: and it goes on by the events of its hosts' moves, with whatever numbers fit the segments that come. So the moves, each at an instant of one
/// clock, say whether this happens in time: where each socket is asked in time, each segment that is sent comes in time, or one that equals it, and users
/// read. Where both do, it doesn't matter whether a segment that comes lies in the window.
pub fn moves_proceed()
    ensures { (starts : Side → ℕ → ℕ) (names : List ℕ → Bool) (first : Net) (before : List Step) (moves : List (ℤ × Happening)) (seats : Side → Seat)
        (clocks : Side → ℤ) (p : PairValue) → IsInitialNet starts first → IsRun names first before → IsReached p
        → Shows seats clocks (run first before) p → IsRun names (run first before) (steps_of (moves_of moves))
        → AreHosted seats clocks (run first before) (steps_of (moves_of moves)) → HaveKeys seats
        → ArePartners (run (run first before) (steps_of (moves_of moves))).history A (seats A).slot (seats B).slot
        → AreNumbered seats (run first before) (moves_of moves) → ProceedByMoves seats clocks (run first before) p moves }
{
    peer_sides_are_a_pair();
    a_connection_proceeds_whatever_its_windows_are();
    all_is_acknowledged_whatever_the_windows_are();
    a_connection_proceeds_wherever_acknowledgements_come();
    all_is_acknowledged_wherever_acknowledgements_come();
}

/// Law: in a world whose hosts stay as they showed themselves to their sockets at first, two TCP sockets that were peers before some last events
/// were a pair that events led to; and their connection goes on through those events, whatever its windows are, where hosts are polled in time,
/// segments come in time, and users read. Of what the hosts do nothing else is asked. It goes on by the events of some plain moves, whatever instants
/// and numbers they are given.
pub fn peer_sides_in_a_still_world_proceed()
    ensures { (starts : Starts) (past more : List Entry) (hosts : Nodes) (slots : Side → ℕ) (news : Side → NewSocket)
        → IsInitialWorld starts → AreTyped (more ++ past) → StillRun starts (more ++ past) hosts
        → AreNew (seats_of starts slots) news (first_net starts) → HaveKeys (seats_of starts slots) → HoldText (seats_of starts slots)
        → ArePartners past A (slots A) (slots B)
        → (between : Nodes) × ProceedBetween starts past between (more ++ past) hosts (seats_of starts slots) }
{
    lan::move_laws::still_hosts_move_plainly();
    peer_sides_are_reached();
    peer_sides_proceed();
    moves_proceed();
}
