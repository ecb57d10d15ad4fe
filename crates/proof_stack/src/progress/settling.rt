//! What rounds of a world bring, and by when.

ghost use Rattle.std.specs.Prelude.{◌≡◌, ◌⊎◌, ◌++◌, ℕ, ◌≤◌, ℤ, pos, ◌+ℤ◌, ◌<ℤ◌, Bool, true, false, List, length, Option, Some, None};
ghost use Rattle.std.specs.List.{AllByRecursion};
ghost use Rattle.interface.specs.Ingress.{is_read};
ghost use Rattle.tcp_block.specs.Value.{TcpValue};
ghost use Rattle.lan.specs.declared.at_link.history.event.Side.{Side};
ghost use Rattle.lan.specs.declared.at_link.history.event.Side.TheVariants.{A, B};
ghost use Rattle.lan.specs.Worlds.AtLink.History.{Entry};
ghost use Rattle.lan.specs.Worlds.AtLink.Kinds.{other};
ghost use Rattle.lan.specs.Worlds.AtLink.PacketsSafe.{IsTcpAt};
ghost use Rattle.lan.specs.Worlds.AtLink.Paired.{NewSocket};
ghost use Rattle.lan.specs.Worlds.AtLink.Runs.{WorldRun, WorldValue, unused_both};
ghost use Rattle.lan.specs.Worlds.AtLink.Safe.{net_of};
ghost use Rattle.lan.specs.Worlds.AtLink.Node.{NodeValue};
ghost use Rattle.lan.specs.Worlds.AtLink.Steps.{PollsAt};
ghost use Rattle.lan.specs.Worlds.Events.{AreTyped};
ghost use Rattle.lan.specs.Worlds.Settling.{AreIdle, IsService, Settles};
ghost use Rattle.lan.specs.Worlds.Still.{StillRun};
ghost use Rattle.proof_stack.specs.Progress.Days.{HasDays};
ghost use Rattle.proof_stack.specs.Progress.Events.{clock_in};
ghost use Rattle.proof_stack.specs.Progress.KeepAliveNumerals as Late;
ghost use Rattle.proof_stack.specs.Progress.Parked.{WaitWhole};
ghost use Rattle.proof_stack.specs.Progress.Settled.{HasArrived};
ghost use Rattle.proof_stack.specs.Progress.SettledNumerals as Numerals;
ghost use Rattle.proof_stack.specs.Progress.SettledNumerals.{news, slot};
ghost use Rattle.proof_stack.specs.Progress.Within.{AskForNone, GoAtOnce, MayBegin, MaySettle, NobodyWaits, StayAcquainted, enough_for};
ghost use Rattle.proof_stack.specs.Worlds.Hosts.{text};

use super::at_once::nobody_waits_without_hardware_addresses;
use super::events::peer_sides_proceed_by_their_events;
use super::known_hops::nobody_waits_where_hosts_know_each_other;
use lan::host_laws::one_outcome;

/// Law: a poll takes the first of the frames that wait for its host, and no more of them than its budget. None that it sends is empty, or too long to be
/// read. With host requirements so it is where each packet that waits has as many bytes as its header says, and then each that waits afterwards does.
pub fn polls_take_no_more_than_their_budget()
    ensures taken { (s s' : NodeValue) (instant : ℤ) (budget : ℕ) (changed : Bool) → PollsAt s instant budget changed s'
        → (frames : List (List ℕ)) × (s.link.waiting ≡ frames ++ s'.link.waiting) × (length frames ≤ budget) }
    ensures sent { (s s' : NodeValue) (instant : ℤ) (budget : ℕ) (changed : Bool) → s.host.inner.host_requirements ≡ false
        → 576 ≤ s.host.inner.mtu → s.host.inner.mtu ≤ 65_535 → PollsAt s instant budget changed s'
        → (frames : List (List ℕ)) × (s'.link.sent ≡ s.link.sent ++ frames) × AllByRecursion (λ frame. is_read frame ≡ true) frames }
    ensures sent_with { (s s' : NodeValue) (instant : ℤ) (budget : ℕ) (changed : Bool) → WaitWhole s.host.inner → 576 ≤ s.host.inner.mtu
        → s.host.inner.mtu ≤ 65_535 → PollsAt s instant budget changed s'
        → (frames : List (List ℕ)) × (s'.link.sent ≡ s.link.sent ++ frames) × AllByRecursion (λ frame. is_read frame ≡ true) frames
        × WaitWhole s'.host.inner }
{}

/// Law: rounds are services alone, which keep one clock. Each frame that a host sends in one is taken by the other before the clock goes on, whatever waited
/// before and however few frames a poll takes; and both sockets are served at once. So it is on any medium where neither waits for a neighbor after any of
/// the events.
pub fn rounds_serve_at_once_who_waits_for_none()
    ensures { (old new : WorldValue) (slots : Side → ℕ) (budget : ℕ) (from : ℤ) (rounds : ℕ) (rested : Option ℤ) → MayBegin slots from old
        → Settles budget from rounds rested old new
        → (more : List Entry) × (new.history ≡ more ++ old.history) × AllByRecursion (λ e. IsService e.event) more × AreTyped (more ++ old.history)
        × WorldRun (more ++ old.history) (unused_both old.starts) new.hosts × (new.starts ≡ old.starts)
        × ((still : StillRun old.starts (more ++ old.history) new.hosts) → NobodyWaits old.starts slots old.history more new.hosts still
        → GoAtOnce old.starts slots old.history more new.hosts still) }
{
    one_outcome();
    polls_take_no_more_than_their_budget();
}

/// Law: over a medium that has no hardware addresses nobody waits for a neighbor, so there rounds bring each frame, and serve both sockets, at once.
pub fn rounds_bring_frames_and_serve_sockets_at_once()
    ensures { (old new : WorldValue) (slots : Side → ℕ) (budget : ℕ) (from : ℤ) (rounds : ℕ) (rested : Option ℤ) → MayBegin slots from old
        → AskForNone old.starts → Settles budget from rounds rested old new
        → (more : List Entry) × (new.history ≡ more ++ old.history) × AllByRecursion (λ e. IsService e.event) more × AreTyped (more ++ old.history)
        × WorldRun (more ++ old.history) (unused_both old.starts) new.hosts × (new.starts ≡ old.starts)
        × ((still : StillRun old.starts (more ++ old.history) new.hosts) → GoAtOnce old.starts slots old.history more new.hosts still) }
{
    one_outcome();
    rounds_serve_at_once_who_waits_for_none();
    nobody_waits_without_hardware_addresses();
}

/// Law: so on any medium, between hosts that know each other throughout the polls of the rounds, where the clock went on further than what is enough for all
/// that both users wrote, since the last instant that a host was told before, all that either wrote has come to its peer, whatever `World::settle` answers:
/// at rest, or that its rounds are over.
pub fn what_settles_between_known_hosts_arrives_in_time()
    ensures { (old new : WorldValue) (slots : Side → ℕ) (news : Side → NewSocket) (sockets : Side → TcpValue) (budget : ℕ) (from : ℤ) (rounds : ℕ)
        (rested : Option ℤ) (side : Side) (v w : TcpValue) → MaySettle slots news from sockets old new → StayAcquainted slots old new
        → Settles budget from rounds rested old new
        → (clock_in old.history +ℤ pos (enough_for old.history slots sockets)) <ℤ clock_in new.history
        → IsTcpAt (net_of new) side (slots side) v → IsTcpAt (net_of new) (other side) (slots (other side)) w
        → HasArrived (net_of new) side (slots side) (slots (other side)) v w }
{
    one_outcome();
    rounds_serve_at_once_who_waits_for_none();
    nobody_waits_where_hosts_know_each_other();
    peer_sides_proceed_by_their_events();
}

/// Law: so it is over a medium that has no hardware addresses.
pub fn what_settles_arrives_in_time()
    ensures { (old new : WorldValue) (slots : Side → ℕ) (news : Side → NewSocket) (sockets : Side → TcpValue) (budget : ℕ) (from : ℤ) (rounds : ℕ)
        (rested : Option ℤ) (side : Side) (v w : TcpValue) → MaySettle slots news from sockets old new → AskForNone old.starts
        → Settles budget from rounds rested old new
        → (clock_in old.history +ℤ pos (enough_for old.history slots sockets)) <ℤ clock_in new.history
        → IsTcpAt (net_of new) side (slots side) v → IsTcpAt (net_of new) (other side) (slots (other side)) w
        → HasArrived (net_of new) side (slots side) (slots (other side)) v w }
{
    one_outcome();
    rounds_serve_at_once_who_waits_for_none();
    what_settles_between_known_hosts_arrives_in_time();
}

/// Law: where it answers an instant, it is at rest, and all has arrived however far its clock went on. So all has arrived either way: at rest, or late enough.
pub fn what_settles_arrives_idle_or_in_time()
    ensures rest { (old new : WorldValue) (budget : ℕ) (from : ℤ) (rounds : ℕ) (instant : ℤ) → Settles budget from rounds (Some instant) old new
        → AreIdle instant new.history }
    ensures arrived { (old new : WorldValue) (slots : Side → ℕ) (news : Side → NewSocket) (sockets : Side → TcpValue) (budget : ℕ) (from : ℤ) (rounds : ℕ)
        (rested : Option ℤ) (side : Side) (v w : TcpValue) → MaySettle slots news from sockets old new
        → AskForNone old.starts ⊎ StayAcquainted slots old new → Settles budget from rounds rested old new
        → ((instant : ℤ) × (rested ≡ Some instant))
        ⊎ ((clock_in old.history +ℤ pos (enough_for old.history slots sockets)) <ℤ clock_in new.history)
        → v.tcb.settings.synack_paused ≡ false → IsTcpAt (net_of new) side (slots side) v → IsTcpAt (net_of new) (other side) (slots (other side)) w
        → HasArrived (net_of new) side (slots side) (slots (other side)) v w }
{
    one_outcome();
    what_settles_arrives_in_time();
    what_settles_between_known_hosts_arrives_in_time();
}

/// Law: there are two worlds that meet all that this asks for of worlds: as A's user has written in the world on numerals that settles, and as all has come.
pub fn a_world_that_settles_may_settle()
    ensures { (old new : WorldValue) × (sockets : Side → TcpValue) × MaySettle slot news (pos 0) sockets old new × AskForNone old.starts
        × ((side : Side) → HasDays new.history (slot side) side)
        × (new.history ≡ Numerals.history) × (old.history ≡ Numerals.told_to_send) }
{}

/// Law: there are worlds of which it is so: the world on numerals that is at rest runs one round, in which both hosts are polled and have nothing to do, and then
/// both are asked.
pub fn a_world_idle_settles()
    ensures { (new : WorldValue) × Settles 1 Numerals.later 1 (Some Numerals.later)
        (record { hosts = Numerals.hosts; starts = Numerals.starts; history = Numerals.history }) new }
{}

/// Law: there are worlds of which it is all so at once. A's user has written abc, which hasn't gone yet, and asked for a keep-alive every seven hours. Five
/// rounds begin there, the first four within ten milliseconds, and the fifth at seven hours: that is further on than what is enough, which is 364
/// minutes. So abc has come to B by what is said of rounds whose clock went on so far; they are over before the world is at rest.
pub fn a_world_settles_in_time()
    ensures under_way { Late.kept.queued.queue ≡ text }
    ensures may { MaySettle slot news (pos 0) Late.sockets Late.before Late.following }
    ensures none { AskForNone Late.before.starts }
    ensures settles { Settles 1 (pos 0) 5 None Late.before Late.following }
    ensures enough { enough_for Late.before.history slot Late.sockets ≡ 21_840_000_000 }
    ensures clock { (clock_in Late.before.history +ℤ pos (enough_for Late.before.history slot Late.sockets)) <ℤ clock_in Late.following.history }
    ensures arrived { HasArrived (net_of Late.following) A (slot A) (slot B) Late.kept_asking Late.answering }
{
    what_settles_arrives_in_time();
}
