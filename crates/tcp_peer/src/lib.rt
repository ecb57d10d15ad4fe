//! One side of TCP alongside a conforming peer, whatever runs there: the machine of `tcp_theory` with its peer replaced by a definition of what a
//! peer may say. `specs/Peer.antt` is that definition, and each function here is a law.
#![tactic(auto)]

pub mod examples;

ghost use Rattle.std.specs.Prelude.{ℕ, suc, ◌+◌, ◌≡◌, List, ◌++◌, Some, slice_get};
ghost use Rattle.tcp_theory.specs.Segment.{Segment};
ghost use Rattle.tcp_theory.specs.Side.{Side, taken_in};
ghost use Rattle.tcp_theory.specs.Move.{Move, MayAll, after_all};
ghost use Rattle.tcp_theory.specs.Alone.{AreResets, unopened};
ghost use Rattle.tcp_peer.specs.Peer.{End, IsEnd};
ghost use Rattle.tcp_peer.specs.Run.{Event, IsRun, run, start};
ghost use Rattle.tcp_peer.specs.Taken.{IsTakenRun};
ghost use Rattle.tcp_peer.specs.Safe.{IsSafeBeside};
ghost use Rattle.tcp_peer.specs.Window.{CameInTheWindow, IsKept};

/// After each run of one side in which all segments that come are a conforming peer's: what was read and waits begins the peer's stream,
/// the end of stream means that it ended and all was taken in, what was freed was acknowledged, and this side is a conforming peer, too.
pub fn streams_are_safe_beside_an_honest_peer()
    ensures safe { (peer : End) (room : ℕ) (resets : List Segment) (events : List Event) → IsEnd peer → AreResets resets
        → IsRun peer (start room resets) events → IsSafeBeside peer (run (start room resets) events) }
{}

/// The same of a peer that is honest where the side takes something, and at that moment: what a rule throws away may say anything, as a
/// challenge ACK does that still names an old connection (RFC 9293, 3.5.1).
pub fn honest_where_it_counts_is_enough()
    ensures safe { (peer : End) (room : ℕ) (resets : List Segment) (events : List Event) → IsEnd peer → AreResets resets
        → IsTakenRun peer (start room resets) events → IsSafeBeside peer (run (start room resets) events) }
{}

/// Whatever comes, honest or not: the byte that a side took in as its nth stood in a segment that came, n positions after the SYN, inside
/// the receive window of that instant. So nothing is taken in twice or skipped; and what was taken in stays, more comes only after it.
pub fn bytes_come_in_the_window()
    ensures each { (room : ℕ) (resets : List Segment) (peer_side : Side) (moves : List Move) → MayAll (unopened room resets) peer_side moves
        → (n byte : ℕ) → slice_get (taken_in (after_all (unopened room resets) moves)) n ≡ Some byte
        → CameInTheWindow (unopened room resets) peer_side moves (suc (after_all (unopened room resets) moves).irs + n) byte }
    ensures order { (room : ℕ) (resets : List Segment) (peer_side : Side) (before later : List Move)
        → MayAll (unopened room resets) peer_side (before ++ later)
        → IsKept (after_all (unopened room resets) before) (after_all (unopened room resets) (before ++ later)) }
{}
