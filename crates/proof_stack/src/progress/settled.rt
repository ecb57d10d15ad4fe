//! What is at rest has arrived.

ghost use Rattle.std.specs.Prelude.{◌≡◌, ◌++◌, ℕ, ℤ, List};
ghost use Rattle.iface_ingress.specs.PollAt.TheVariants as At;
ghost use Rattle.tcp_block.specs.Due.{poll_of};
ghost use Rattle.tcp_block.specs.Value.{TcpValue};
ghost use Rattle.lan.specs.declared.at_link.history.event.Side.{Side};
ghost use Rattle.lan.specs.declared.at_link.history.event.Side.TheVariants.{A, B};
ghost use Rattle.lan.specs.Worlds.AtLink.Initial.{IsInitialWorld};
ghost use Rattle.lan.specs.Worlds.AtLink.History.{Entry};
ghost use Rattle.lan.specs.Worlds.AtLink.Kinds.{other};
ghost use Rattle.lan.specs.Worlds.AtLink.PacketsSafe.{IsTcpAt};
ghost use Rattle.lan.specs.Worlds.AtLink.Paired.{AreNew, HaveKeys, NewSocket};
ghost use Rattle.lan.specs.Worlds.AtLink.PeerSides.{ArePartners};
ghost use Rattle.lan.specs.Worlds.AtLink.Runs.{Starts, WorldRun, unused_both};
ghost use Rattle.lan.specs.Worlds.AtLink.Safe.{net_of};
ghost use Rattle.lan.specs.Worlds.AtLink.Node.{Nodes};
ghost use Rattle.lan.specs.Worlds.Events.{AreTyped};
ghost use Rattle.lan.specs.Worlds.Moves.Joined.{first_net};
ghost use Rattle.lan.specs.Worlds.Settling.{AreIdle};
ghost use Rattle.lan.specs.Worlds.Still.{StillRun, seats_of};
ghost use Rattle.proof_stack.specs.Progress.Ends.{AreUnstamped};
ghost use Rattle.proof_stack.specs.Progress.Linked.{AreLinked};
ghost use Rattle.proof_stack.specs.Progress.PeerSides.{HoldText};
ghost use Rattle.proof_stack.specs.Progress.Settled.{HasArrived, IsConnected};
ghost use Rattle.proof_stack.specs.Progress.SettledNumerals as Numerals;
ghost use Rattle.proof_stack.specs.Progress.SettledNumerals.{later, news, slot, through};
ghost use Rattle.proof_stack.specs.Worlds.Hosts.{text};

/// Law: where both hosts of a world were asked last, and neither wants to be polled any more, no TCP socket of theirs wants to be asked, but for what
/// comes.
pub fn sockets_of_hosts_idle_want_nothing()
    ensures { (starts : Starts) (history : List Entry) (hosts : Nodes) (instant : ℤ) (side : Side) (slot : ℕ) (v : TcpValue)
        → WorldRun history (unused_both starts) hosts → AreIdle instant history
        → IsTcpAt (net_of (record { hosts = hosts; starts = starts; history = history })) side slot v
        → (mtu : ℕ) × (poll_of mtu v ≡ At.Ingress) }
{}

/// Law: what is at rest has arrived. In a world whose hosts stay, whatever its link did, where one of two peers that is connected waits for nothing but
/// what comes, all that its user wrote has come to the other, and so has the end of its stream, if it closed it.
pub fn what_waits_for_nothing_has_arrived()
    ensures { (starts : Starts) (history : List Entry) (hosts : Nodes) (slots : Side → ℕ) (news : Side → NewSocket) (side : Side) (v w : TcpValue)
        (mtu : ℕ) → IsInitialWorld starts → AreTyped history → StillRun starts history hosts
        → AreNew (seats_of starts slots) news (first_net starts) → HaveKeys (seats_of starts slots) → HoldText (seats_of starts slots)
        → ArePartners history A (slots A) (slots (other A))
        → IsTcpAt (net_of (record { hosts = hosts; starts = starts; history = history })) side (slots side) v
        → IsTcpAt (net_of (record { hosts = hosts; starts = starts; history = history })) (other side) (slots (other side)) w
        → IsConnected v → poll_of mtu v ≡ At.Ingress
        → HasArrived (net_of (record { hosts = hosts; starts = starts; history = history })) side (slots side) (slots (other side)) v w }
{}

/// Law: so where `World::settle` answers an instant, each of two peers that is connected has all that the other's user wrote.
pub fn what_has_settled_has_arrived()
    ensures { (starts : Starts) (history : List Entry) (hosts : Nodes) (slots : Side → ℕ) (news : Side → NewSocket) (side : Side) (v w : TcpValue)
        (instant : ℤ) → IsInitialWorld starts → AreTyped history → StillRun starts history hosts
        → AreNew (seats_of starts slots) news (first_net starts) → HaveKeys (seats_of starts slots) → HoldText (seats_of starts slots)
        → ArePartners history A (slots A) (slots (other A))
        → IsTcpAt (net_of (record { hosts = hosts; starts = starts; history = history })) side (slots side) v
        → IsTcpAt (net_of (record { hosts = hosts; starts = starts; history = history })) (other side) (slots (other side)) w
        → IsConnected v → AreIdle instant history
        → HasArrived (net_of (record { hosts = hosts; starts = starts; history = history })) side (slots side) (slots (other side)) v w }
{
    sockets_of_hosts_idle_want_nothing();
    what_waits_for_nothing_has_arrived();
}

/// Law: there is a world that settles, and meets all that this asks for, of both sides: two hosts with keys on a medium of bare packets. B listens, A connects
/// and then writes abc, each segment is handed over as it goes, and ten milliseconds later neither wants to be polled any more: abc waits at B to be read. Since
/// both are open, its link brought each frame at once, and no timestamps were agreed on.
pub fn a_world_that_settles_meets_what_is_asked()
    ensures initial { IsInitialWorld Numerals.starts }
    ensures typed { AreTyped Numerals.history }
    ensures still { StillRun Numerals.starts Numerals.history Numerals.hosts }
    ensures new { AreNew (seats_of Numerals.starts slot) news (first_net Numerals.starts) }
    ensures keys { HaveKeys (seats_of Numerals.starts slot) }
    ensures text { HoldText (seats_of Numerals.starts slot) }
    ensures peer_sides { ArePartners Numerals.history A (slot A) (slot B) }
    ensures caller { IsTcpAt (net_of (record { hosts = Numerals.hosts; starts = Numerals.starts; history = Numerals.history })) A (slot A) (through A) }
    ensures listener { IsTcpAt (net_of (record { hosts = Numerals.hosts; starts = Numerals.starts; history = Numerals.history })) B (slot B) (through B) }
    ensures connected { (side : Side) → IsConnected (through side) }
    ensures rest { AreIdle later Numerals.history }
    ensures arrived { (through B).received.waiting ≡ text }
    ensures linked { (still : StillRun Numerals.starts (Numerals.since_open ++ Numerals.both_open) Numerals.hosts)
        × AreLinked Numerals.starts slot 0 Numerals.both_open Numerals.since_open Numerals.hosts still
        × AreUnstamped Numerals.starts slot Numerals.both_open Numerals.since_open Numerals.hosts still }
{}
