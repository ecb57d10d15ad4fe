//! Slots by key.
ghost use Rattle.std.specs.Prelude.{◌≡◌, ℕ, ◌<◌, ◌≤◌, ◌+◌, ◌++◌, ◌∷◌, [], if◌then◌else◌, true, length, slice_get, slice_set, Some, MatchResult};
ghost use Rattle.base_index.specs.Keys.{IsNextWith};
ghost use Rattle.base_index.specs.Put.{put};

use crate::chains::Chains;
use std::alloc::{AllocError, Global};
use std::marker::Model;

/// Slots, each with a key: those that have a key are found without a look at the others.
///
/// The keys fall into more buckets than there are slots, up to twice as many and one, and the slots of a bucket are linked in their order.
/// So a search takes as long as its bucket is, and a change of a slot's key as long as two are. `reserve` alone takes memory.
#[derive(Debug, Drop)]
pub struct Index {
    keys: Vec<u64>,
    chains: Chains,
}

impl Model for Index {
    ghost use Rattle.std.specs.Prelude.{List, ℕ, length, ◌<◌};
    ghost use Rattle.base_index.specs.Links.{AreChained};

    ghost Value = { List ℕ };

    ghost view = { λ x. x.keys.items };

    ghost invariant = { λ x.
        AreChained x.keys.items x.chains.first.items x.chains.links.items
        × ((at : ℕ) → at < length x.keys.items → 0 < length x.chains.first.items) };
}

impl Index {
    /// An index of no slots.
    pub fn new(alloc: Global) -> Index
        ensures { result ≡ [] }
    {
        Index {
            keys: Vec::new(alloc),
            chains: Chains::new(alloc),
        }
    }

    /// Makes room for so many slots, so that none of them takes memory when it is added.
    pub fn reserve(&mut self, slots: usize) -> Result<(), AllocError>
        ensures { self.new ≡ self.old }
    {
        self.keys.reserve(slots.saturating_sub(self.keys.len()))?;
        self.chains.reserve(self.keys.as_slice(), slots)
    }

    /// The first slot that has this key.
    pub fn first(&self, key: u64) -> Option<usize>
        ensures { IsNextWith key 0 self.now result }
    {
        if self.keys.is_empty() {
            return None;
        }
        let bucket = self.chains.bucket_of(key);
        self.chains
            .with_key(self.keys.as_slice(), key, self.chains.first[bucket])
    }

    /// The next slot after this one that has its key.
    pub fn next(&self, at: usize) -> Option<usize>
        requires { at < length self.now }
        ensures { (key : ℕ) → slice_get self.now at ≡ Some key → IsNextWith key (at + 1) self.now result }
    {
        self.chains
            .with_key(self.keys.as_slice(), self.keys[at], self.chains.links[at])
    }

    /// Gives a slot this key; the one after the last is added with it. Says whether the slot has it then: not without room for it, nor
    /// where it lies further after.
    #[tactic(auto, using(crate::proofs::Puts::put_within, crate::proofs::Puts::put_following, crate::proofs::Puts::put_same))]
    pub fn note(&mut self, at: usize, key: u64) -> bool
        ensures value { self.new ≡ (if result then put at key self.old else self.old) }
        ensures is_slot { result ≡ true → at ≤ length self.old }
        ensures within { at < length self.old → result ≡ true }
    {
        if at < self.keys.len() {
            if self.keys[at] != key {
                self.set(at, key);
            }
            return true;
        }
        if at > self.keys.len() {
            return false;
        }
        match self.push(key) {
            Ok(()) => true,
            Err(_) => false,
        }
    }

    /// Gives a slot another key.
    fn set(&mut self, at: usize, key: u64)
        requires { at < length self.old }
        ensures { self.new ≡ slice_set self.old at key }
    {
        let from = self.chains.bucket_of(self.keys[at]);
        let to = self.chains.bucket_of(key);
        if from != to {
            self.chains.change(self.keys.as_slice(), at, from, to);
        }
        self.keys[at] = key;
    }

    /// Adds a slot with this key. Without room for it nothing changes.
    fn push(&mut self, key: u64) -> Result<(), AllocError>
        ensures { MatchResult result (λ u. self.new ≡ self.old ++ key ∷ []) (λ e. self.new ≡ self.old) }
    {
        if self.keys.len() >= self.keys.capacity() || self.keys.len() >= self.chains.first.len() {
            return Err(AllocError);
        }
        let bucket = self.chains.bucket_of(key);
        self.chains.push(self.keys.as_slice(), bucket)?;
        match self.keys.push(key) {
            Ok(()) => Ok(()),
            Err(_) => unreachable!(),
        }
    }
}
