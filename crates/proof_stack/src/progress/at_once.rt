//! Hosts that are polled when they want to be serve their sockets at once.

ghost use Rattle.std.specs.Prelude.{◌≡◌, ◌⊎◌, ◌∷◌, ◌++◌, ℕ, ℤ, pos, ◌≤ℤ◌, List, Option};
ghost use Rattle.interface.specs.QuietStep.{IsEarlier};
ghost use Rattle.lan.specs.declared.at_link.history.event.Side.{Side};
ghost use Rattle.lan.specs.declared.at_link.history.event.Side.TheVariants.{A, B};
ghost use Rattle.lan.specs.Worlds.AtLink.Initial.{IsInitialWorld};
ghost use Rattle.lan.specs.Worlds.AtLink.Happening.{Happening};
ghost use Rattle.lan.specs.Worlds.AtLink.History.{Entry};
ghost use Rattle.lan.specs.Worlds.AtLink.Parties.{Net};
ghost use Rattle.lan.specs.Worlds.AtLink.Runs.{Starts, start};
ghost use Rattle.lan.specs.Worlds.AtLink.Node.{Nodes, node};
ghost use Rattle.lan.specs.Worlds.Events.{AreTyped};
ghost use Rattle.lan.specs.Worlds.Settling.{WasAsked};
ghost use Rattle.lan.specs.Worlds.Still.{StillRun, seats_of};
ghost use Rattle.sim_link.specs.Medium.TheVariants as Medium;
ghost use Rattle.proof_stack.specs.Progress.AtOnce.{AreUnmarked, IsByThen};
ghost use Rattle.proof_stack.specs.Progress.Events.{MoveBy, clock_in};
ghost use Rattle.proof_stack.specs.Progress.Moving.{AreAsked};
ghost use Rattle.proof_stack.specs.Progress.OneClock.{timed};
ghost use Rattle.proof_stack.specs.Progress.Serving.{AreServedAtOnce, IsIdle, WaitsForNone};

/// Law: where a host was asked last, each TCP socket of its that waits for no neighbor is at rest at every instant before the one at which the host wants to be
/// polled, and at every instant if it doesn't want to be.
pub fn sockets_rest_until_their_host_wants_to_be_polled()
    ensures { (starts : Starts) (past history : List Entry) (hosts : Nodes) (side : Side) (instant due : ℤ) (at : Option ℤ) (slot : ℕ)
        → StillRun starts history hosts → WasAsked side instant at past history → pos 0 ≤ℤ due → IsEarlier due at
        → WaitsForNone slot (node hosts side) → IsIdle due slot (node hosts side) }
{}

/// Law: over a medium that has no hardware addresses no socket ever waits for a neighbor, where none was marked at first.
pub fn nobody_waits_without_hardware_addresses()
    ensures { (starts : Starts) (history : List Entry) (hosts : Nodes) (side : Side) (slot : ℕ) → IsInitialWorld starts
        → starts.a.capabilities.medium ≡ Medium.Ip → ((of : Side) → AreUnmarked (start starts of).slots) → AreTyped history
        → StillRun starts history hosts → WaitsForNone slot (node hosts side) }
{}

/// Law: so where both hosts were asked last, at one instant, and the clock goes on no further than to the earlier of the instants that they answered, sockets
/// that were served at once still are. It may stay where it is, whatever they answered.
pub fn hosts_that_are_asked_serve_at_once()
    ensures { (starts : Starts) (slots : Side → ℕ) (past more first between : List Entry) (e : Entry) (hosts : Nodes)
        (still : StillRun starts (e ∷ more ++ past) hosts) (instant : ℤ) (a b : Option ℤ)
        → AreServedAtOnce starts slots past more still.0 still.1
        → WasAsked A instant a first between → WasAsked B instant b between (more ++ past)
        → ((side : Side) → WaitsForNone (slots side) (node still.0 side))
        → (clock_in (e ∷ more ++ past) ≤ℤ instant) ⊎ (IsByThen (clock_in (e ∷ more ++ past)) a × IsByThen (clock_in (e ∷ more ++ past)) b)
        → AreServedAtOnce starts slots past (e ∷ more) hosts still }
{
    sockets_rest_until_their_host_wants_to_be_polled();
}

/// Law: they are by any event at which the clock stays where it is.
pub fn events_of_one_instant_serve_at_once()
    ensures { (starts : Starts) (slots : Side → ℕ) (past more : List Entry) (e : Entry) (hosts : Nodes) (still : StillRun starts (e ∷ more ++ past) hosts)
        → AreServedAtOnce starts slots past more still.0 still.1 → clock_in (e ∷ more ++ past) ≤ℤ clock_in (more ++ past)
        → AreServedAtOnce starts slots past (e ∷ more) hosts still }
{}

/// Law: the moves of events that serve two sockets at once ask them in time, however short that is.
pub fn sockets_that_are_served_at_once_are_asked()
    ensures { (starts : Starts) (net : Net) (past more : List Entry) (hosts : Nodes) (still : StillRun starts (more ++ past) hosts)
        (slots : Side → ℕ) (moves : List (ℤ × Happening)) (wait : ℕ) → MoveBy starts net past more hosts still (timed moves)
        → AreServedAtOnce starts slots past more hosts still → AreAsked (seats_of starts slots) wait (clock_in past) net moves }
{}
