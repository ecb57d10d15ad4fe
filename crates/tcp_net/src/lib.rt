//! Connections, each told by its two ends: each side is a conforming peer to the other, since what comes for it was sent by the other or is a
//! reset. So the theorem of one side alongside a conforming peer (`tcp_peer`) gives the one of two sides (`tcp_theory`), and of as many
//! connections as there are.
#![tactic(auto)]

pub mod examples;

ghost use Rattle.std.specs.Prelude.{ℕ, List};
ghost use Rattle.tcp_theory.specs.Segment.{Segment};
ghost use Rattle.tcp_theory.specs.Alone.{AreResets};
ghost use Rattle.tcp_theory.specs.Safe.{AreSafe};
ghost use Rattle.tcp_theory.specs.Run as two;
ghost use Rattle.tcp_net.specs.Joint.{Step, IsHistory, play, begin};
ghost use Rattle.tcp_net.specs.Net.{NetEvent, AllResets, IsNetHistory, play_all, begin_all};
ghost use Rattle.tcp_net.specs.NetTaken.{IsTakenNet};
ghost use Rattle.tcp_net.specs.Peers.{ArePeers};

/// After each joint history both sides are safe alongside the end that the other is, and honest to it, and both streams are safe. Nothing is
/// assumed to be honest.
pub fn peers_are_honest()
    ensures peers { (room_a room_b : ℕ) (resets_a resets_b : List Segment) (history : List Step) → AreResets resets_a → AreResets resets_b
        → IsHistory (begin room_a room_b resets_a resets_b) history → ArePeers (play (begin room_a room_b resets_a resets_b) history) }
{}

/// The same of many connections: of any two whose ends are each other's, whatever all others do; also of one whose ends are the same, which
/// is its own peer.
pub fn connections_are_safe()
    ensures peers { (rooms : ℕ → ℕ → ℕ) (resets : ℕ → ℕ → List Segment) (history : List NetEvent) → AllResets resets
        → IsNetHistory (begin_all rooms resets) history → (l r : ℕ)
        → ArePeers (record { a = play_all (begin_all rooms resets) history l r; b = play_all (begin_all rooms resets) history r l }) }
{}

/// Many connections, where only what is taken has to be sent by the peer, or be a reset: what is thrown away may be of an older connection.
pub fn connections_are_safe_where_it_counts()
    ensures safe { (rooms : ℕ → ℕ → ℕ) (resets : ℕ → ℕ → List Segment) (history : List NetEvent) → AllResets resets
        → IsTakenNet (begin_all rooms resets) history → (l r : ℕ)
        → AreSafe (record { a = (play_all (begin_all rooms resets) history l r).side; b = (play_all (begin_all rooms resets) history r l).side }) }
{}

/// The theorem of two sides, in its own words, a second time.
pub fn streams_are_safe_again()
    ensures safe { (space_a space_b : ℕ) (events : List two.Event) → two.IsRun (two.start space_a space_b) events
        → AreSafe (two.run (two.start space_a space_b) events) }
{}
