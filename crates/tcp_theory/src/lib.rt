//! The two-socket theorem of TCP, on a pure machine: whatever the network loses, repeats, delays or reorders, two sides keep one
//! byte stream each way. `specs/` has the machine and its invariant, each function here is a law about them, and docs/TCP.md says
//! which rule of a socket is which move, and why each move keeps the invariant.
#![tactic(auto)]

pub mod examples;
pub mod wrong_rules;

ghost use Rattle.std.specs.Prelude.{Some, ℕ, List, [], ◌<◌, ◌≤◌, ◌≡◌, ◌≢◌, ◌^◌};
ghost use Rattle.tcp_theory.specs.Numbers.{wire, nearest, IsNear};
ghost use Rattle.tcp_theory.specs.Segment.{Segment, IsData, IsNoReset};
ghost use Rattle.tcp_theory.specs.Segment.Control.{Rst};
ghost use Rattle.tcp_theory.specs.Side.{Side, initial, freed};
ghost use Rattle.tcp_theory.specs.Side.Phase.{Unopened, SynReceived};
ghost use Rattle.tcp_theory.specs.Side.Opening.{Passive};
ghost use Rattle.tcp_theory.specs.Move.{Move, Comes, May, sends, after, MayAll, after_all};
ghost use Rattle.tcp_theory.specs.Move.Move.{Ends, FallsBack};
ghost use Rattle.tcp_theory.specs.Run.{World, Event, MayHappen, happens, IsRun, run, start};
ghost use Rattle.tcp_theory.specs.Safe.{IsSafe, AreSafe};
ghost use Rattle.tcp_theory.specs.Decoded.{IsAtItsOffset, IsAckedSoFar};
ghost use Rattle.tcp_theory.specs.Alone.{HasNothing, AreResets, unopened};
ghost use Rattle.tcp_theory.specs.Invariant.{IsInStep, HoldsBetween, Kept};

/// A wire number stands for one position near its reference: a sent position that is near is decoded to itself.
pub fn numbers_decode()
    ensures sent { (reference position : ℕ) → 2 ^ 31 ≤ reference → IsNear reference position
        → nearest reference (wire position) ≡ position }
    ensures one { (reference p q : ℕ) → IsNear reference p → IsNear reference q → wire p ≡ wire q → p ≡ q }
    ensures near { (reference number : ℕ) → 2 ^ 31 ≤ reference → IsNear reference (nearest reference number) }
    ensures number { (reference number : ℕ) → 2 ^ 31 ≤ reference → number < 2 ^ 32
        → wire (nearest reference number) ≡ number }
{}

/// Two new sides keep the invariant, each move of either keeps it, and it makes both streams safe.
pub fn moves_keep_the_invariant()
    ensures initial_sides { (m n : ℕ) → HoldsBetween (initial m) (initial n) }
    ensures either_way { (s t : Side) → HoldsBetween s t → HoldsBetween t s }
    ensures each_move { (s t : Side) (move : Move) → HoldsBetween s t → May s t move → HoldsBetween (after s move) t }
    ensures moves { (s t : Side) (moves : List Move) → HoldsBetween s t → MayAll s t moves
        → HoldsBetween (after_all s moves) t }
    ensures events { (w : World) (event : Event) → Kept w → MayHappen w event → Kept (happens w event) }
    ensures safe { (s t : Side) → HoldsBetween s t → IsSafe s t }
{}

/// What is freed stays freed, since no acknowledgement goes back.
pub fn what_is_freed_stays_freed()
    ensures freed { (s t : Side) (move : Move) → HoldsBetween s t → May s t move → freed s ≤ freed (after s move) }
{}

/// A reset keeps the invariant, whoever sent it, whatever numbers it has, and whenever it is sent or taken.
pub fn resets_keep_the_invariant()
    ensures sent { (s t : Side) (x : Segment) → x.control ≡ Rst → HoldsBetween s t → HoldsBetween (sends s x) t }
    ensures ends { (s t : Side) → s.phase ≢ Unopened → HoldsBetween s t → HoldsBetween (after s Ends) t }
    ensures falls_back { (s t : Side) → s.phase ≡ SynReceived → s.opening ≡ Passive → HoldsBetween s t
        → HoldsBetween (after s FallsBack) t }
{}

/// The theorem: after each run of two new sides both streams are safe.
pub fn streams_are_safe()
    ensures safe { (space_a space_b : ℕ) (events : List Event) → IsRun (start space_a space_b) events
        → AreSafe (run (start space_a space_b) events) }
{}

/// Between sides in step each number that comes is decoded to the position that was sent: bytes stand at their offset, or are old,
/// and an acknowledgement is of what the peer has reached.
pub fn what_comes_is_decoded()
    ensures bytes { (s t : Side) (x : Segment) → HoldsBetween s t → IsInStep s t → Comes s x → IsData x.control
        → x.bytes ≢ [] → IsAtItsOffset s t x }
    ensures acknowledgements { (s t : Side) (x : Segment) (number : ℕ) → HoldsBetween s t → IsInStep s t → Comes t x
        → IsNoReset x.control → x.ack ≡ Some number → IsAckedSoFar s t number }
{}

/// Where only one side is ever opened, it reads nothing and frees nothing.
pub fn a_lone_side_has_nothing()
    ensures unopened_peer_side { (s t : Side) → HoldsBetween s t → t.phase ≡ Unopened → HasNothing s }
    ensures run_of_a { (space_a space_b : ℕ) (events : List Event) → IsRun (start space_a space_b) events
        → (run (start space_a space_b) events).b.phase ≡ Unopened
        → HasNothing (run (start space_a space_b) events).a }
    ensures run_of_b { (space_a space_b : ℕ) (events : List Event) → IsRun (start space_a space_b) events
        → (run (start space_a space_b) events).a.phase ≡ Unopened
        → HasNothing (run (start space_a space_b) events).b }
{}

/// A peer that isn't opened may be any: a host can give a side the peer that it will have only when that one is opened.
pub fn an_unopened_peer_side_may_be_any()
    ensures exchanged { (s t : Side) (space : ℕ) (resets : List Segment) → HoldsBetween s t → t.phase ≡ Unopened
        → AreResets resets → HoldsBetween s (unopened space resets) }
{}
