//! A script as far as it has come, line by line.
ghost use Rattle.std.specs.Prelude.{◌≡◌, ◌⊎◌, Some, None, IfOk, OnOk, IfErr, option_map};
ghost use Rattle.std.specs.String.{string_bytes};
ghost use Rattle.lan.specs.declared.at_link.history.answer.Refused.TheVariants.{Memory};
ghost use Rattle.lan.specs.Worlds.AtLink.Runs.{refusal_in};
ghost use Rattle.lan.specs.declared.end.End.TheVariants.{Refusal};
ghost use Rattle.lan.specs.Scripts.{Takes, MayEnd, event_end, EventLeads};
ghost use Rattle.lan.specs.Events.{event_of};
ghost use Rattle.lan.specs.declared.session.Session.TheVariants.{Running};

use crate::answer::{answer_line, push_sent};
use crate::at_link::{Event, Side};
use crate::end::End;
use crate::event::{event_of, side_of};
use crate::header::Header;
use crate::world::World;
use sim_link::Line;
use std::alloc::Global;
use std::mem::replace;

/// How far a script has come.
#[derive(Drop)]
pub enum Session {
    /// No line has been read.
    Begun,
    /// The header is being read.
    Header(Header),
    /// The hosts run.
    Running(World),
}

impl Session {
    ghost use Rattle.std.specs.Prelude.{◌≡◌, None, Some, IfOk, OnOk, IfErr};
    ghost use Rattle.std.specs.String.{string_bytes};
    ghost use Rattle.sim_link.specs.declared.line.Line.TheVariants.{Start};
    ghost use Rattle.lan.specs.Scripts.{end_of, Leads, LineLeads, LineEnds, Ends};

    /// Takes one line, without the byte 0a that ends it: what it writes.
    pub fn take_line(&mut self, alloc: Global, text: &[u8]) -> Result<String, End>
        ensures leads { IfOk result (λ output. LineLeads self.old text.now (string_bytes output) self.new) }
        ensures ends { IfErr result (LineEnds self.old text.now) }
    {
        match Line::read(text) {
            Some(line) => self.take(alloc, &line),
            None => Err(End::BadEvent),
        }
    }

    // Takes what a line says.
    #[tactic(auto, using(crate::proofs::BytesLemmas::ends_so))]
    fn take(&mut self, alloc: Global, line: &Line<'_>) -> Result<String, End>
        ensures allowed { OnOk result (end_of self.old (Some line.now) ≡ None) }
        ensures leads { IfOk result (λ text. Leads self.old (Some line.now) (string_bytes text) self.new) }
        ensures ends { IfErr result (Ends self.old (Some line.now)) }
    {
        match self {
            Session::Begun => {
                let Line::World(medium, mtu) = line else {
                    return Err(End::BadEvent);
                };
                self.set(Session::Header(Header::new(alloc, *medium, *mtu)));
                Ok(String::new(alloc))
            }
            Session::Header(header) => match line {
                Line::Socket(side, spec) => {
                    header.push(side_of(*side), *spec)?;
                    Ok(String::new(alloc))
                }
                Line::Start => self.start(alloc),
                _ => Err(End::BadEvent),
            },
            Session::Running(world) => proceed(alloc, world, line),
        }
    }

    // What comes next. (An assignment would do, but its proof follows each part of the world that it lets go.)
    fn set(&mut self, next: Session)
        ensures { self.new ≡ next }
    {
        drop(replace(self, next));
    }

    // Takes the line `start`: the hosts of the header run from now on.
    #[tactic(auto, using(crate::proofs::EndLemmas::start_end))]
    fn start(&mut self, alloc: Global) -> Result<String, End>
        ensures allowed { OnOk result (end_of self.old (Some Start) ≡ None) }
        ensures leads { IfOk result (λ text. Leads self.old (Some Start) (string_bytes text) self.new) }
        ensures ends { IfErr result (Ends self.old (Some Start)) }
    {
        let Session::Header(header) = self else {
            return Err(End::BadEvent);
        };
        let world = header.start(alloc)?;
        self.set(Session::Running(world));
        Ok(String::from_str(alloc, "ok\n")?)
    }
}

// Takes a line once the hosts run: what it writes.
fn proceed(alloc: Global, world: &mut World, line: &Line<'_>) -> Result<String, End>
    ensures allowed { OnOk result (event_end world.old (event_of line.now) ≡ None) }
    ensures leads { IfOk result (λ text. EventLeads world.old (event_of line.now) (string_bytes text) (Running world.new)) }
    ensures ends { IfErr result (MayEnd world.old line.now) }
{
    let Some(event) = event_of(alloc, line)? else {
        return Err(End::BadEvent);
    };
    take_event(alloc, world, event)
}

// Takes one event: what it writes.
fn take_event(alloc: Global, world: &mut World, event: Event) -> Result<String, End>
    ensures takes { IfOk result (λ text. Takes world.old event (string_bytes text) world.new) }
    ensures allowed { IfOk result (λ text. refusal_in world.old.history world.old.hosts event ≡ None) }
    ensures ends { IfErr result (λ end. (option_map Refusal (refusal_in world.old.history world.old.hosts event) ≡ Some end) ⊎
        ((refusal_in world.old.history world.old.hosts event ≡ None) × (end ≡ Refusal Memory))) }
{
    let sent_by_a = world.sent(Side::A).len();
    let sent_by_b = world.sent(Side::B).len();
    let answer = world.step(event)?;
    let mut text = answer_line(alloc, &answer)?;
    push_sent(alloc, &mut text, Side::A, sent_by_a, world.sent(Side::A))?;
    push_sent(alloc, &mut text, Side::B, sent_by_b, world.sent(Side::B))?;
    Ok(text)
}
