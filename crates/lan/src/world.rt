//! Two hosts at a link.
ghost use Rattle.std.specs.Prelude.{◌≡◌, ◌<◌, [], take, length, replicate, slice_get, IfOk, IfErr, OnOk, OnErr, IfSome, None, Some, Err};
ghost use Rattle.net_base.specs.Device.{frames_of};
ghost use Rattle.interface.specs.Made.{IsIdle};
ghost use Rattle.lan.specs.Worlds.AtLink.Refusals.{MayRefuse};
ghost use Rattle.lan.specs.Worlds.AtLink.Runs.{Step, Steps, answers_of, refusal_in, tables_in};
ghost use Rattle.lan.specs.Worlds.AtLink.Node.{node};
ghost use Rattle.lan.specs.Worlds.AtLink.Kinds.{kind_of};
ghost use Rattle.lan.specs.Worlds.AtLink.Tables.{no_record};
ghost use Rattle.lan.specs.Worlds.Provenance.{both, starts_of, world};
ghost use Rattle.lan.specs.Worlds.New.{new_error, MayFail};
ghost use Rattle.lan.specs.Worlds.Promises.{IsSafeWorld};

use crate::at_link::laws::{numbers_are_few, tables_proceed};
use crate::at_link::{Answer, Event, Host, Records, Refused, Side, refusal_of, take};
use crate::error::WorldError;
use crate::history::{Counts, History, Note};
use crate::host_laws::{hosts_run, polls_are_quiet, requests_are_apart};
use crate::initial::new_error;
use crate::laws::{
    damage_was_harmless, frames_are_apart, reassembled_was_made, reassembled_was_sent,
    worlds_are_safe,
};
use crate::stored::Kept;
use crate::typed::{event_is_typed, host_is_typed};
use std::alloc::{AllocError, Global};
use std::marker::Model;

mod settle;

/// Two hosts, the link between them, and all that has happened so far.
#[derive(Drop)]
pub struct World {
    a: Host,
    b: Host,
    start_a: Kept<Host>,
    start_b: Kept<Host>,
    records_a: Records,
    records_b: Records,
    history: History,
    alloc: Global,
}

impl Model for World {
    ghost use Rattle.lan.specs.Worlds.AtLink.Runs.{WorldValue};
    ghost use Rattle.lan.specs.Worlds.Provenance.{HasCome, world};

    ghost Value = { WorldValue };

    ghost view = { λ w. world w.start_a.value w.start_b.value w.a w.b w.history.entries };

    ghost invariant = { λ w. HasCome w.start_a.value w.start_b.value w.a w.b w.records_a w.records_b w.history.entries };
}

// The records of two hosts at which nothing happened yet. (A function that owns hosts and ends in several slots is dear to check.)
fn no_records(alloc: Global, a: &Host, b: &Host) -> Result<(Records, Records), AllocError>
    ensures a { IfOk result (λ both. both.0 ≡ record { records = replicate (length a.now.slots) no_record; numbered = 0 }) }
    ensures b { IfOk result (λ both. both.1 ≡ record { records = replicate (length b.now.slots) no_record; numbered = 0 }) }
{
    Ok((Records::new(alloc, a)?, Records::new(alloc, b)?))
}

impl World {
    /// A world of two hosts, in which nothing has happened. A refusal drops both.
    pub fn new(alloc: Global, a: Host, b: Host) -> Result<World, WorldError>
        ensures hosts { IfOk result (λ world. world.hosts ≡ both a b) }
        ensures starts { IfOk result (λ world. world.starts ≡ starts_of a b) }
        ensures history { IfOk result (λ world. world.history ≡ []) }
        ensures exact { IfSome (new_error a b) (λ error. result ≡ Err error) }
        ensures memory { IfErr result (MayFail a b) }
    {
        match new_error(&a, &b) {
            Some(error) => Err(error),
            None => World::begin(alloc, a, b).map_err(|_| WorldError::Memory),
        }
    }

    // Two hosts of which nothing says that they make no world.
    fn begin(alloc: Global, a: Host, b: Host) -> Result<World, AllocError>
        requires initial { new_error a b ≡ None }
        requires idle_a { IsIdle a.host.left a.host.assemblers }
        requires idle_b { IsIdle b.host.left b.host.assemblers }
        requires unknown_a { a.host.inner.neighbors.entries ≡ [] }
        requires unknown_b { b.host.inner.neighbors.entries ≡ [] }
        ensures hosts { IfOk result (λ world. world.hosts ≡ both a b) }
        ensures starts { IfOk result (λ world. world.starts ≡ starts_of a b) }
        ensures history { IfOk result (λ world. world.history ≡ []) }
    {
        host_is_typed(&a);
        host_is_typed(&b);
        let (records_a, records_b) = no_records(alloc, &a, &b)?;
        Ok(World {
            start_a: Kept::of(&a),
            start_b: Kept::of(&b),
            a,
            b,
            records_a,
            records_b,
            history: History::new(alloc),
            alloc,
        })
    }

    /// Takes one event, or refuses it.
    ///
    /// Room is made before anything happens, so that lack of memory refuses the event whole: for the event, its answer, what is read, and a
    /// frame that the link hands over or cuts. Of a poll it is room for all that it may send, in frames of the device's MTU: as many as
    /// there are frames that it may take, and in each of its passes over the sockets one for each of them and one more. That may be a
    /// hundred megabytes at the largest budget; buffers that weren't used stay for the next poll.
    pub fn step(&mut self, event: Event) -> Result<Answer, Refused>
        ensures step { IfOk result (λ answer. Step self.old event answer self.new) }
        ensures exact { IfSome (refusal_in self.old.history self.old.hosts event) (λ refused. result ≡ Err refused) }
        ensures memory { IfErr result (MayRefuse self.old.hosts (tables_in self.old.history self.old.hosts) (kind_of event)) }
        ensures unchanged { OnErr result (self.new ≡ self.old) }
        ensures promises { IsSafeWorld self.new }
    {
        let answer = match self.refusal(&event) {
            Some(refused) => Err(refused),
            None => self.take_event(event).map_err(|_| Refused::Memory),
        };
        self.well_run();
        answer
    }

    // What holds wherever the events led.
    fn well_run(&self)
        ensures { IsSafeWorld self.now }
    {
        hosts_run();
        requests_are_apart();
        polls_are_quiet();
        worlds_are_safe();
        reassembled_was_made();
        reassembled_was_sent();
        damage_was_harmless();
        frames_are_apart();
        // (a look at a field makes known what a world keeps)
        let _ = &self.history;
    }

    // Why an event isn't taken, but for lack of memory.
    fn refusal(&self, event: &Event) -> Option<Refused>
        ensures { result ≡ refusal_in self.now.history self.now.hosts event.now }
    {
        refusal_of(&self.a, &self.b, &self.records_a, &self.records_b, event)
    }

    // An event that isn't refused but for lack of memory.
    fn take_event(&mut self, event: Event) -> Result<Answer, AllocError>
        requires { refusal_in self.old.history self.old.hosts event ≡ None }
        ensures step { IfOk result (λ answer. Step self.old event answer self.new) }
        ensures unchanged { OnErr result (self.new ≡ self.old) }
    {
        tables_proceed();
        numbers_are_few();
        event_is_typed(&event);
        self.history.make_room()?;
        let before = Counts::of(&self.a, &self.b);
        let taken = take(
            self.alloc,
            &mut self.a,
            &mut self.b,
            &mut self.records_a,
            &mut self.records_b,
            &event,
        )?;
        let note = Note {
            before,
            found: taken.found,
        };
        self.history.push(event, note, taken.kept);
        Ok(taken.answer)
    }

    /// Takes events in order, up to the first that is refused: its slot among them comes with the refusal, and the steps before it stay.
    pub fn run(&mut self, events: Vec<Event>) -> Result<(), (usize, Refused)>
        ensures ok { OnOk result (Steps self.old events.items self.new) }
        ensures err { IfErr result (λ e. Steps self.old (take e.0 events.items) self.new) }
        ensures slot { IfErr result (λ e. e.0 < length events.items) }
        ensures refused { IfErr result (λ e. IfSome (slice_get events.items e.0)
            (λ event. MayRefuse self.new.hosts (tables_in self.new.history self.new.hosts) (kind_of event) e.1)) }
        ensures starts { self.new.starts ≡ self.old.starts }
        ensures promises { IsSafeWorld self.new }
    {
        let outcome = self.step_all(events);
        self.well_run();
        outcome
    }

    // The steps of a run.
    fn step_all(&mut self, events: Vec<Event>) -> Result<(), (usize, Refused)>
        ensures ok { OnOk result (Steps self.old events.items self.new) }
        ensures err { IfErr result (λ e. Steps self.old (take e.0 events.items) self.new) }
        ensures slot { IfErr result (λ e. e.0 < length events.items) }
        ensures refused { IfErr result (λ e. IfSome (slice_get events.items e.0)
            (λ event. MayRefuse self.new.hosts (tables_in self.new.history self.new.hosts) (kind_of event) e.1)) }
        ensures starts { self.new.starts ≡ self.old.starts }
    {
        let _ = &self.history;
        let mut slot = 0;
        for event in events {
            if let Err(refused) = self.step(event) {
                return Err((slot, refused));
            }
            slot += 1;
        }
        Ok(())
    }

    /// The answers so far, the oldest first.
    pub fn answers(&self) -> &[Answer]
        ensures { result.now ≡ answers_of self.now.history }
    {
        self.history.answers()
    }

    /// The frames that a host has sent, and the fragments into which the link cut some of them, the oldest first.
    pub fn sent(&self, side: Side) -> &[Vec<u8>]
        ensures { frames_of result.now ≡ (node self.now.hosts side).link.sent }
    {
        match side {
            Side::A => self.a.port.sent(),
            Side::B => self.b.port.sent(),
        }
    }
}
