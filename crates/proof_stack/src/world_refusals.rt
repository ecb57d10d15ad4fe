//! When a world isn't made and when it refuses an event, and that a refused event leaves it as it was: each function makes one
//! call, and says again what the call promises.
ghost use Rattle.std.specs.Prelude.{◌≡◌, ◌<◌, [], take, length, slice_get, IfOk, IfErr, OnOk, OnErr, IfSome, Err};
ghost use Rattle.lan.specs.Worlds.AtLink.Kinds.{kind_of};
ghost use Rattle.lan.specs.Worlds.AtLink.Refusals.{MayRefuse};
ghost use Rattle.lan.specs.Worlds.AtLink.Runs.{Step, Steps, answers_of, refusal_in, tables_in};
ghost use Rattle.lan.specs.Provenance.{both, starts_of};
ghost use Rattle.lan.specs.New.{new_error, MayFail};

use lan::{Answer, Event, Host, Refused, World, WorldError};
use std::alloc::Global;

/// Two hosts make a world, or the first reason says why not, or there is no memory.
pub fn begin(alloc: Global, a: Host, b: Host) -> Result<World, WorldError>
    ensures hosts { IfOk result (λ world. world.hosts ≡ both a b) }
    ensures starts { IfOk result (λ world. world.starts ≡ starts_of a b) }
    ensures history { IfOk result (λ world. world.history ≡ []) }
    ensures exact { IfSome (new_error a b) (λ error. result ≡ Err error) }
    ensures memory { IfErr result (MayFail a b) }
{
    World::new(alloc, a, b)
}

/// An event is taken, or refused by the first reason that there is, or there is no memory.
pub fn step(world: &mut World, event: Event) -> Result<Answer, Refused>
    ensures step { IfOk result (λ answer. Step world.old event answer world.new) }
    ensures exact { IfSome (refusal_in world.old.history world.old.hosts event) (λ refused. result ≡ Err refused) }
    ensures memory { IfErr result (MayRefuse world.old.hosts (tables_in world.old.history world.old.hosts) (kind_of event)) }
    ensures unchanged { OnErr result (world.new ≡ world.old) }
{
    world.step(event)
}

/// Events are taken in order, up to the first that is refused, whose slot comes with the refusal.
pub fn run(world: &mut World, events: Vec<Event>) -> Result<(), (usize, Refused)>
    ensures ok { OnOk result (Steps world.old events.items world.new) }
    ensures err { IfErr result (λ e. Steps world.old (take e.0 events.items) world.new) }
    ensures slot { IfErr result (λ e. e.0 < length events.items) }
    ensures refused { IfErr result (λ e. IfSome (slice_get events.items e.0)
        (λ event. MayRefuse world.new.hosts (tables_in world.new.history world.new.hosts) (kind_of event) e.1)) }
    ensures starts { world.new.starts ≡ world.old.starts }
{
    world.run(events)
}

/// The answers are those of the history.
pub fn answers(world: &World) -> &[Answer]
    ensures { result.now ≡ answers_of world.now.history }
{
    world.answers()
}
