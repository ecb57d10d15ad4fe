//! What honesty alone doesn't say, and two clients of one server, on numerals.

ghost use Rattle.std.specs.Prelude.{◌≡◌, [], ◌∷◌};
ghost use Rattle.tcp_theory.specs.Safe.{AreSafe};
ghost use Rattle.tcp_theory.specs.Side.{taken_in, initial};
ghost use Rattle.tcp_theory.specs.Move.{after};
ghost use Rattle.tcp_theory.specs.Move.Move.{Connects};
ghost use Rattle.tcp_theory.specs.Examples.{at, syn};
ghost use Rattle.tcp_peer.specs.Examples.{server};
ghost use Rattle.tcp_peer.specs.Peer.{IsHonest, as_end};
ghost use Rattle.tcp_peer.specs.Safe.{IsSafeBeside};
ghost use Rattle.tcp_net.specs.Examples.{too_soon, two_clients, nothing_yet};
ghost use Rattle.tcp_net.specs.Net.{IsNetHistory, play_all};
ghost use Rattle.tcp_net.specs.Peers.{world_of};

/// Two clients of one server, whose listener falls back in between.
pub fn two_clients_are_served()
    ensures happens { IsNetHistory nothing_yet two_clients }
    ensures outcome { taken_in (play_all nothing_yet two_clients 80 2).side ≡ 9 ∷ [] }
{}

/// That both are safe alongside one another doesn't say that what is freed was taken in: an end may acknowledge what it has thrown away. The
/// joint theorem also needs that each side acknowledges only what it has reached.
pub fn honesty_does_not_say_what_was_taken_in()
    ensures one { IsSafeBeside (as_end too_soon.b.side) too_soon.a }
    ensures other { IsSafeBeside (as_end too_soon.a.side) too_soon.b }
    ensures breaks { AreSafe (world_of too_soon) → ⊥ }
{}

/// What is honest of an end needn't be so later: a SYN at the number that a side has before it is opened. So a step of a joint history
/// keeps it only of segments that this side sent.
pub fn honesty_alone_does_not_grow()
    ensures now { IsHonest (as_end (initial 8)) server [] (syn 0) }
    ensures later { IsHonest (as_end (after (initial 8) (Connects (at 100)))) server [] (syn 0) → ⊥ }
{}
