//! The hosts of a world as machines: each is a run, sends nothing when it is polled too early, and waits a second between its own requests.
ghost use Rattle.std.specs.Prelude.{◌≡◌, ℕ, ℤ, Bool, List, false};
ghost use Rattle.lan.specs.Worlds.AtLink.History.{Entry};
ghost use Rattle.lan.specs.Worlds.AtLink.Event.{Event};
ghost use Rattle.lan.specs.Worlds.AtLink.Side.{Side};
ghost use Rattle.lan.specs.Worlds.AtLink.Runs.{Starts, Steps, unused_both, WorldValue, WorldRun, counts_of};
ghost use Rattle.lan.specs.Worlds.AtLink.Node.{NodeValue, Nodes, node};
ghost use Rattle.lan.specs.Worlds.AtLink.Steps.{PollsAt};
ghost use Rattle.lan.specs.Worlds.Hosts.RequestSilence.{requests, AreApart};
ghost use Rattle.lan.specs.Worlds.Hosts.Damage.{IsHarmless, BringsNoSegment, WasHarmless, HaveWords, DamageIsHarmless};
ghost use Rattle.sim_link.specs.Medium.{Medium};
ghost use Rattle.lan.specs.Worlds.Hosts.Proceeds.{Proceeds};
ghost use Rattle.lan.specs.Worlds.Hosts.HostRuns.{IsHostRun};
ghost use Rattle.lan.specs.Worlds.Hosts.Machine.{Turn, Machine, HostRun};
ghost use Rattle.lan.specs.Worlds.Hosts.Quiet.{PollsWereQuiet};

use sockets::laws::{due_as_before, one_offer};

/// Law: wherever a history led, each host is a run of its machine from what it was at first. Its turns are its acts with their
/// answers; they sent all that it sent, but for the link's fragments; and they took what the link handed over, but for what waits.
pub fn hosts_run()
    ensures { (starts : Starts) (history : List Entry) (hosts : Nodes) (side : Side)
        → WorldRun history (unused_both starts) hosts
        → IsHostRun (record { hosts = hosts; starts = starts; history = history }) side }
{}

/// Law: a machine's own requests for neighbours are a second apart, however many polls come between.
pub fn requests_are_apart()
    ensures { (start : Machine) (room : ℕ) (turns : List Turn) (now : Machine)
        → HostRun start room turns now
        → AreApart (requests turns) }
{}

/// Law: at each end of the link more may be sent and time goes on, but nothing that was sent goes, and medium, MTU, checksums and
/// what the port says of itself stay as they were.
pub fn runs_only_grow()
    ensures { (history : List Entry) (from to : Nodes) (side : Side)
        → WorldRun history from to
        → Proceeds (node from side) (node to side) }
{}

/// Law: wherever a history led, a host that was asked when to poll and left alone since, and that is polled before its answer, sends
/// nothing.
pub fn polls_are_quiet()
    ensures { (starts : Starts) (history : List Entry) (hosts : Nodes)
        → WorldRun history (unused_both starts) hosts
        → PollsWereQuiet starts history (counts_of hosts) }
{
    due_as_before();
}

/// Law: a poll of a host at its end of the link, one without host requirements as each of a world is, has one end, however many buffers lay
/// ready.
pub fn polls_have_one_end()
    ensures { (s one other : NodeValue) (instant : ℤ) (budget : ℕ) (a b : Bool)
        → s.host.inner.host_requirements ≡ false
        → PollsAt s instant budget a one
        → PollsAt s instant budget b other
        → (a ≡ b) × (one ≡ other) }
{
    one_offer();
}

/// Law: a list of events leads from one world to one world.
pub fn one_outcome()
    ensures { (old one other : WorldValue) (events : List Event)
        → Steps old events one
        → Steps old events other
        → one ≡ other }
{
    one_offer();
}

/// Law: a frame in which a host of its medium reads nothing but a packet of TCP that is no segment does no harm, whenever and by
/// whichever host it is taken. What did none as it was handed over does none ever after.
pub fn damage_is_harmless()
    ensures frame { (medium : Medium) (frame : List ℕ) → BringsNoSegment medium frame → IsHarmless medium frame }
    ensures history { (from : Nodes) → WasHarmless from
        → (history : List Entry) (to : Nodes) → HaveWords history → WorldRun history from to → DamageIsHarmless to history }
{}
