//! Connections are at home at their hosts. Peers that are open, and stay, are connected throughout, and linked where their hosts reach each other.

ghost use Rattle.std.specs.Prelude.{◌≡◌, ◌++◌, ℕ, true, List, IfSome};
ghost use Rattle.tcp_state.specs.declared.endpoints.FourTuple.{FourTuple};
ghost use Rattle.tcp_liveness.specs.Arrivals.{is_synchronized};
ghost use Rattle.tcp_liveness.specs.Exchange.{IsOpen};
ghost use Rattle.tcp_invariants.specs.Events.{is_past};
ghost use Rattle.lan.specs.declared.at_link.history.event.Side.{Side};
ghost use Rattle.lan.specs.declared.at_link.history.event.Side.TheVariants.{A, B};
ghost use Rattle.lan.specs.Worlds.AtLink.Initial.{IsInitialWorld};
ghost use Rattle.lan.specs.Worlds.AtLink.History.{Entry};
ghost use Rattle.lan.specs.Worlds.AtLink.Paired.{AreNew, HaveKeys, NewSocket};
ghost use Rattle.lan.specs.Worlds.AtLink.PeerSides.{ArePartners};
ghost use Rattle.lan.specs.Worlds.AtLink.Runs.{Starts, start};
ghost use Rattle.lan.specs.Worlds.AtLink.Node.{Nodes, node};
ghost use Rattle.lan.specs.Worlds.Events.{AreTyped};
ghost use Rattle.lan.specs.Worlds.Moves.Joined.{first_net};
ghost use Rattle.lan.specs.Worlds.Still.{StillRun, seats_of};
ghost use Rattle.proof_stack.specs.Progress.Ends.{AreBoth, AreConnected};
ghost use Rattle.proof_stack.specs.Progress.Linked.{AreLinked};
ghost use Rattle.proof_stack.specs.Progress.PeerSides.{HoldText};
ghost use Rattle.proof_stack.specs.Progress.Reach.{AreInReach, IsAtHome, hosts_before};
ghost use Rattle.proof_stack.specs.Progress.Serving.{IsAtHost};
ghost use Rattle.proof_stack.specs.Progress.SettledNumerals as Numerals;
ghost use Rattle.proof_stack.specs.Progress.SettledNumerals.{slot};

/// Law: in a world whose hosts stay, a TCP socket that is past SYN-SENT has an own address of its host as its local one, and one host's as the remote one: it
/// is no broadcast address of its host's networks, and no group. For a segment was taken that came from there.
pub fn a_connection_is_at_home()
    ensures { (starts : Starts) (history : List Entry) (hosts : Nodes) (side : Side) (slot : ℕ)
        → IsInitialWorld starts
        → AreTyped history
        → StillRun starts history hosts
        → IsAtHost slot (node hosts side) (λ v. is_past v.tcb.state ≡ true)
        → IsAtHost slot (node hosts side) (λ v. IfSome v.tcb.names.pair (IsAtHome (start starts side).host.inner)) }
{}

/// Law: of two peers in a world whose hosts stay, where both are open after some event and have their connection after the last one, both have it
/// after each event between, with the same endpoints.
pub fn what_stays_was_connected_throughout()
    ensures { (starts : Starts) (past more : List Entry) (hosts : Nodes) (slots : Side → ℕ) (news : Side → NewSocket)
        → IsInitialWorld starts
        → AreTyped (more ++ past)
        → (still : StillRun starts (more ++ past) hosts)
        → AreNew (seats_of starts slots) news (first_net starts)
        → HaveKeys (seats_of starts slots)
        → HoldText (seats_of starts slots)
        → ArePartners past A (slots A) (slots B)
        → AreBoth (λ side v. IsOpen v.tcb) slots (hosts_before starts past more hosts still)
        → AreBoth (λ side v. is_synchronized v.tcb.state ≡ true) slots hosts
        → (pairs : Side → FourTuple) × AreConnected starts slots pairs past more hosts still }
{}

/// Law: so over links which bring what is sent they are linked. What is local to the one is remote to the other; each host lets go what goes to the other, and
/// takes in what comes from there.
pub fn what_stays_in_reach_is_linked()
    ensures { (starts : Starts) (past more : List Entry) (hosts : Nodes) (slots : Side → ℕ) (news : Side → NewSocket) (delay : ℕ)
        → IsInitialWorld starts
        → AreTyped (more ++ past)
        → (still : StillRun starts (more ++ past) hosts)
        → AreNew (seats_of starts slots) news (first_net starts)
        → HaveKeys (seats_of starts slots)
        → HoldText (seats_of starts slots)
        → ArePartners past A (slots A) (slots B)
        → AreBoth (λ side v. IsOpen v.tcb) slots (hosts_before starts past more hosts still)
        → AreBoth (λ side v. is_synchronized v.tcb.state ≡ true) slots hosts
        → AreInReach starts delay past more hosts still
        → AreLinked starts slots delay past more hosts still }
{
    what_stays_was_connected_throughout();
}

/// Law: the world on numerals that settles meets what is asked of links, and of the sockets, since both are open.
pub fn a_world_that_settles_is_in_reach()
    ensures { (still : StillRun Numerals.starts (Numerals.since_open ++ Numerals.both_open) Numerals.hosts)
        × AreBoth (λ side v. IsOpen v.tcb) slot (hosts_before Numerals.starts Numerals.both_open Numerals.since_open Numerals.hosts still)
        × AreBoth (λ side v. is_synchronized v.tcb.state ≡ true) slot Numerals.hosts
        × AreInReach Numerals.starts 0 Numerals.both_open Numerals.since_open Numerals.hosts still }
{}
