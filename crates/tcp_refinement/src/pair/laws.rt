//! What holds of two sockets after every list of events.

ghost use Rattle.std.specs.Prelude.{◌≡◌, ◌++◌, ℕ, List, None};
ghost use Rattle.tcp_block.specs.Value.{TcpValue};
ghost use Rattle.tcp_refinement.specs.Promises.{IsInitial};
ghost use Rattle.tcp_refinement.specs.declared.pair.event.PairEvent.{PairEvent};
ghost use Rattle.tcp_refinement.specs.declared.pair.event.Side.{Side};
ghost use Rattle.tcp_refinement.specs.Pair.Safe.{IsKept, IsSafe};
ghost use Rattle.tcp_refinement.specs.Pair.Sides.{at};
ghost use Rattle.tcp_refinement.specs.Pair.Steps.{Steps, refusal, happens};
ghost use Rattle.tcp_refinement.specs.Pair.Values.{HostContext, PairValue, beginning, new_side};

/// The invariant of a pair: two sockets that weren't opened have it, on any two hosts, and each event that isn't refused keeps it.
pub fn pairs_keep_the_invariant()
    ensures new { (host peer_side : HostContext) (m n : ℕ) (a b : TcpValue) → IsInitial a → IsInitial b
        → IsKept (beginning (new_side host m a) (new_side peer_side n b)) }
    ensures step { (p : PairValue) (event : PairEvent) → IsKept p → refusal p event ≡ None → IsKept (happens p event).pair }
{}

/// What a side read and has waiting begins what the other wrote, only bytes that were taken in are freed, and each read that was
/// answered by the end of the stream had read all that the other wrote, after it was closed.
#[tactic(auto, using(crate::proofs::PairLaws::kept_is_safe))]
pub fn kept_pairs_are_safe()
    ensures safe { (p : PairValue) → IsKept p → IsSafe p }
{}

/// So after every list of events, whichever sent segments are delivered, how often and in which order.
#[tactic(auto, using(crate::proofs::PairLaws::steps_are_safe))]
pub fn pairs_are_safe()
    ensures safe { (host peer_side : HostContext) (m n : ℕ) (a b : TcpValue) (events : List PairEvent) (p : PairValue) → IsInitial a → IsInitial b
        → Steps (beginning (new_side host m a) (new_side peer_side n b)) events p → IsSafe p }
{}

/// No event changes what a side knows of its host.
#[tactic(auto, using(crate::proofs::SideHosts::event_host))]
pub fn hosts_stay()
    ensures event { (p : PairValue) (event : PairEvent) (side : Side) → (at (happens p event).pair.sides side).host ≡ (at p.sides side).host }
{}

/// A list of events has one outcome. And it may be taken in pieces: so a run that was refused for lack of memory, and taken up
/// again at the event that was refused, ends as the whole run does.
#[tactic(auto, using(crate::proofs::OutcomeLaws::one_outcome, crate::proofs::OutcomeLaws::proceeds))]
pub fn events_have_one_outcome()
    ensures one { (old p q : PairValue) (events : List PairEvent) → Steps old events p → Steps old events q → p ≡ q }
    ensures pieces { (old middle new : PairValue) (events more : List PairEvent) → Steps old events middle → Steps middle more new
        → Steps old (events ++ more) new }
{}
