//! A mark for each slot.
ghost use Rattle.std.specs.Prelude.{◌≡◌, ◌⊎◌, Bool, ◌++◌, ◌∷◌, [], ◌/◌, ◌<◌, ◌≤◌, IfOk, true, false, length, slice_set, MatchResult};
ghost use Rattle.base_index.specs.Bits.{AreLengthened};
ghost use Rattle.base_index.specs.Marks.{IsNext};
ghost use Rattle.base_index.specs.Put.{put};

use crate::bits;
use std::alloc::{AllocError, Global};
use std::marker::Model;

/// A mark for each of the first slots, which says whether it is on the agenda.
///
/// A mark is a bit of a word, and so is whether a word has one that is set: so who is next is found among thousands of slots without a look
/// at each. How many are set is counted: so that none is, is seen at once. `reserve` alone takes memory.
#[derive(Debug, Drop)]
pub struct Agenda {
    len: usize,
    marked: usize,
    words: Vec<u64>,
    groups: Vec<u64>,
}

impl Model for Agenda {
    ghost use Rattle.std.specs.Prelude.{Bool, List};
    ghost use Rattle.base_index.specs.Bits.{AreCounted, HaveRoom, marks_of};

    ghost Value = { List Bool };

    ghost view = { λ a. marks_of a.words.items a.len };

    ghost invariant = { λ a. HaveRoom a.len a.words.items a.groups.items × AreCounted a.len a.marked a.words.items };
}

impl Agenda {
    /// An agenda of no slots.
    pub fn new(alloc: Global) -> Agenda
        ensures { result ≡ [] }
    {
        Agenda {
            len: 0,
            marked: 0,
            words: Vec::new(alloc),
            groups: Vec::new(alloc),
        }
    }

    /// How many slots have a mark.
    pub fn len(&self) -> usize
        ensures { result ≡ length self.now }
    {
        self.len
    }

    /// Forgets all slots.
    pub fn clear(&mut self)
        ensures { self.new ≡ [] }
    {
        self.len = 0;
        self.marked = 0;
        self.words.clear();
        self.groups.clear();
    }

    /// Makes room for the marks of so many slots, so that no mark of theirs takes memory.
    pub fn reserve(&mut self, slots: usize) -> Result<(), AllocError>
        ensures { self.new ≡ self.old }
    {
        make_room(&mut self.groups, slots / 64)?;
        make_room(&mut self.words, slots)
    }

    /// Adds the next slot, which is on the agenda. Without room for its mark nothing changes.
    pub fn push(&mut self) -> Result<(), AllocError>
        ensures { MatchResult result (λ u. self.new ≡ self.old ++ true ∷ []) (λ e. self.new ≡ self.old) }
    {
        self.add()?;
        self.put_on(self.len - 1);
        Ok(())
    }

    /// Puts a slot on the agenda. One without a mark stays without.
    pub fn put_on(&mut self, at: usize)
        ensures { self.new ≡ slice_set self.old at true }
    {
        if at >= self.len {
            return;
        }
        if bits::contains(&self.words, at) {
            return;
        }
        bits::insert(&mut self.words, at);
        bits::insert(&mut self.groups, at / 64);
        self.marked += 1;
    }

    /// Takes a place off the agenda. One without a mark stays without.
    pub fn take_off(&mut self, at: usize)
        ensures { self.new ≡ slice_set self.old at false }
    {
        if at >= self.len {
            return;
        }
        if !bits::contains(&self.words, at) {
            return;
        }
        self.marked -= 1;
        if bits::remove(&mut self.words, at) {
            bits::remove(&mut self.groups, at / 64);
        }
    }

    /// Takes a place off the agenda; the one after the last is added so. Without room for that nothing changes.
    pub fn rest(&mut self, at: usize)
        ensures known { at < length self.old → self.new ≡ slice_set self.old at false }
        ensures added { (self.new ≡ put at false self.old) ⊎ (self.new ≡ self.old) }
    {
        if at == self.len {
            let _ = self.add();
        } else {
            self.take_off(at);
        }
    }

    /// The first slot on the agenda from this one on.
    pub fn next(&self, from: usize) -> Option<usize>
        ensures { IsNext from self.now result }
    {
        if self.marked == 0 {
            return None;
        }
        bits::next_grouped(&self.words, &self.groups, from)
    }

    /// Adds the next slot, which isn't on the agenda. Without room for its mark nothing changes.
    fn add(&mut self) -> Result<(), AllocError>
        ensures { MatchResult result (λ u. self.new ≡ self.old ++ false ∷ []) (λ e. self.new ≡ self.old) }
    {
        let len = self.len.checked_add(1).ok_or(AllocError)?;
        lengthen(&mut self.groups, self.len / 64)?;
        lengthen(&mut self.words, self.len)?;
        self.len = len;
        Ok(())
    }
}

/// Makes room for a word of this number, and of those before it.
fn make_room(words: &mut Vec<u64>, at: usize) -> Result<(), AllocError>
    ensures { words.new.items ≡ words.old.items }
{
    words.reserve((at / 64 + 1).saturating_sub(words.len()))
}

/// Adds a word, if there is none for this number. It takes no memory: there has to be room.
fn lengthen(words: &mut Vec<u64>, at: usize) -> Result<(), AllocError>
    ensures lengthened { AreLengthened at words.old.items words.new.items }
    ensures room { at / 64 ≤ length words.old.items → IfOk result (λ u. at / 64 < length words.new.items) }
{
    if at / 64 < words.len() {
        return Ok(());
    }
    if words.len() >= words.capacity() {
        return Err(AllocError);
    }
    match words.push(0) {
        Ok(()) => Ok(()),
        Err(_) => unreachable!(),
    }
}
