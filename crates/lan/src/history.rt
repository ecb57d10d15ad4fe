//! What has happened, in the order in which it did.
ghost use Rattle.std.specs.Prelude.{◌≡◌, ◌≤◌, [], ◌∷◌, length, OnOk};
ghost use Rattle.lan.specs.Worlds.AtLink.Runs.{answers_of, counts_of};
ghost use Rattle.lan.specs.Worlds.EventHistory.{counts_in, entry};

use crate::at_link::{Answer, Event, Host};
use sockets::tcp::State;
use std::alloc::{AllocError, Global};
use std::marker::Model;

/// How many frames the hosts had sent, and how many waited for them.
#[derive(Clone, Copy)]
pub(crate) struct Counts {
    pub(crate) sent_a: usize,
    pub(crate) sent_b: usize,
    pub(crate) waiting_a: usize,
    pub(crate) waiting_b: usize,
}

impl Counts {
    /// The counts of two hosts.
    pub(crate) fn of(a: &Host, b: &Host) -> Counts
        ensures { counts_in result ≡ counts_of (record { a = a.now; b = b.now }) }
    {
        Counts {
            sent_a: sent_count(a),
            sent_b: sent_count(b),
            waiting_a: waiting_count(a),
            waiting_b: waiting_count(b),
        }
    }
}

fn sent_count(host: &Host) -> usize
    ensures { result ≡ length host.now.link.sent }
{
    host.port.sent().len()
}

fn waiting_count(host: &Host) -> usize
    ensures { result ≡ length host.now.link.waiting }
{
    host.port.waiting().len()
}

/// What is kept of an event alongside it and its answer: the counts as it came, and of a close of a TCP socket the state that it found. No
/// code reads it; the definitions of what a world promises do.
#[derive(Clone, Copy)]
pub(crate) struct Note {
    pub(crate) before: Counts,
    pub(crate) found: Option<State>,
}

/// Events that were taken, with their notes and answers. A contract sees the history, the newest first, and for how many events more there
/// is room.
#[derive(Drop)]
pub(crate) struct History {
    events: Vec<Event>,
    notes: Vec<Note>,
    answers: Vec<Answer>,
}

impl Model for History {
    ghost use Rattle.std.specs.Prelude.{[], min};
    ghost use Rattle.lan.specs.Worlds.EventHistory.{PastValue, AreAsMany, history_from, spare};

    ghost Value = { PastValue };

    ghost view = { λ h. record {
      entries = history_from [] h.events.items h.notes.items h.answers.items;
      room = min (spare h.events) (min (spare h.notes) (spare h.answers));
    } };

    ghost invariant = { λ h. AreAsMany h.events.items h.notes.items h.answers.items };
}

impl History {
    /// Nothing has happened.
    pub(crate) fn new(alloc: Global) -> History
        ensures { result.entries ≡ [] }
    {
        History {
            events: Vec::new(alloc),
            notes: Vec::new(alloc),
            answers: Vec::new(alloc),
        }
    }

    /// Makes room for one event more.
    pub(crate) fn make_room(&mut self) -> Result<(), AllocError>
        ensures same { self.new.entries ≡ self.old.entries }
        ensures room { OnOk result (1 ≤ self.new.room) }
    {
        self.events.try_reserve(1)?;
        self.notes.try_reserve(1)?;
        self.answers.try_reserve(1)?;
        Ok(())
    }

    /// Keeps an event, for which there is room.
    pub(crate) fn push(&mut self, event: Event, note: Note, answer: Answer)
        requires { 1 ≤ self.old.room }
        ensures { self.new.entries ≡ entry event note answer ∷ self.old.entries }
    {
        self.events.push_reserved(event);
        self.notes.push_reserved(note);
        self.answers.push_reserved(answer);
    }

    /// The answers, the oldest first.
    pub(crate) fn answers(&self) -> &[Answer]
        ensures { result.now ≡ answers_of self.now.entries }
    {
        self.answers.as_slice()
    }
}
