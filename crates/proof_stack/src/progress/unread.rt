//! Users whose buffers don't fill needn't read.

ghost use Rattle.std.specs.Prelude.{◌++◌, ℕ, ℤ, List};
ghost use Rattle.lan.specs.declared.at_link.history.event.Side.{Side};
ghost use Rattle.lan.specs.declared.at_link.history.event.Side.TheVariants.{A, B};
ghost use Rattle.lan.specs.Worlds.AtLink.Initial.{IsInitialWorld};
ghost use Rattle.lan.specs.Worlds.AtLink.Happening.{Happening};
ghost use Rattle.lan.specs.Worlds.AtLink.History.{Entry};
ghost use Rattle.lan.specs.Worlds.AtLink.Paired.{Seat};
ghost use Rattle.lan.specs.Worlds.AtLink.Parties.{Net};
ghost use Rattle.lan.specs.Worlds.AtLink.PeerSides.{ArePartners};
ghost use Rattle.lan.specs.Worlds.AtLink.Runs.{Starts};
ghost use Rattle.lan.specs.Worlds.AtLink.Node.{Nodes};
ghost use Rattle.lan.specs.Worlds.Events.{AreTyped};
ghost use Rattle.lan.specs.Worlds.Still.{StillRun};
ghost use Rattle.proof_stack.specs.Progress.Events.{MoveBy, clock_in};
ghost use Rattle.proof_stack.specs.Progress.Moving.{IsReadInTime};
ghost use Rattle.proof_stack.specs.Progress.OneClock.{timed};
ghost use Rattle.proof_stack.specs.Progress.Serving.{HasSpaceThroughout};
ghost use Rattle.proof_stack.specs.Progress.Unread.{HasRoomThroughout};

/// Law: where a connection's receive buffer isn't full at first and after each event, it is full before none of their moves: in a poll it fills. So its user
/// reads in time, whether it reads or not.
pub fn users_of_buffers_with_space_read_in_time()
    ensures { (starts : Starts) (net : Net) (past more : List Entry) (hosts : Nodes) (still : StillRun starts (more ++ past) hosts)
        (seats : Side → Seat) (moves : List (ℤ × Happening)) (side : Side) (read : ℕ)
        → MoveBy starts net past more hosts still (timed moves) → HasSpaceThroughout starts (seats side).slot side past more hosts still
        → IsReadInTime seats read (clock_in past) net side moves }
{}

/// Law: the receive buffer of a peer isn't full that is for more than the other's user wrote so far and its own didn't read: what waits in it was written.
pub fn buffers_with_room_for_all_that_is_written_have_space()
    ensures { (starts : Starts) (past more : List Entry) (hosts : Nodes) (still : StillRun starts (more ++ past) hosts) (slots : Side → ℕ)
        (side : Side) → IsInitialWorld starts → AreTyped (more ++ past) → ArePartners past A (slots A) (slots B)
        → HasRoomThroughout starts slots side past more hosts still
        → HasSpaceThroughout starts (slots side) side past more hosts still }
{}
