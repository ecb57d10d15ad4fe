//! Slots in buckets.
ghost use Rattle.std.specs.Prelude.{◌≡◌, ◌≢◌, ℕ, ◌<◌, ◌≤◌, ◌++◌, ◌∷◌, [], length, slice_get, slice_set, Option, Some, None, MatchResult, OnOk};
ghost use Rattle.std.specs.Option.{ForSome};
ghost use Rattle.base_index.specs.Links.{AreChained, AreLinked, BeginsAt, IsLastBefore, IsIn, bucket_of, buckets, first_with, link_following, links_with};

use std::alloc::{AllocError, Global};

/// The first place of each bucket, and after each slot the next one of its bucket.
#[derive(Debug, Drop)]
pub(crate) struct Chains {
    pub(crate) first: Vec<Option<usize>>,
    pub(crate) links: Vec<Option<usize>>,
}

impl Chains {
    /// No slot, and no bucket.
    pub(crate) fn new(alloc: Global) -> Chains
        ensures first { result.first.items ≡ [] }
        ensures links { result.links.items ≡ [] }
    {
        Chains {
            first: Vec::new(alloc),
            links: Vec::new(alloc),
        }
    }

    /// The bucket of a key.
    pub(crate) fn bucket_of(&self, key: u64) -> usize
        requires { 0 < length self.now.first.items }
        ensures bucket { result ≡ bucket_of (length self.now.first.items) key }
        ensures in_range { result < length self.now.first.items }
    {
        (key % self.first.len() as u64) as usize
    }

    /// The first slot that has this key, of this one and those that it leads to.
    pub(crate) fn with_key(&self, keys: &[u64], key: u64, begin: Option<usize>) -> Option<usize>
        requires some { 0 < length self.now.first.items }
        requires linked { AreChained keys.now self.now.first.items self.now.links.items }
        requires begin { ForSome begin (IsIn (buckets (length self.now.first.items) keys.now) (bucket_of (length self.now.first.items) key)) }
        ensures { BeginsAt key keys.now begin result }
    {
        let mut link = begin;
        while let Some(at) = link {
            if keys[at] == key {
                break;
            }
            link = self.links[at];
        }
        link
    }

    /// The last place of a bucket before this one.
    pub(crate) fn last_before(&self, keys: &[u64], bucket: usize, at: usize) -> Option<usize>
        requires linked { AreChained keys.now self.now.first.items self.now.links.items }
        requires bucket { bucket < length self.now.first.items }
        requires at { at ≤ length keys.now }
        ensures { IsLastBefore (buckets (length self.now.first.items) keys.now) bucket at result }
    {
        let mut last = None;
        let mut link = self.first[bucket];
        while let Some(slot) = link {
            if slot >= at {
                break;
            }
            last = link;
            link = self.links[slot];
        }
        last
    }

    /// Where a slot leads, or where the bucket begins.
    fn link_following(&self, bucket: usize, slot: Option<usize>) -> Option<usize>
        requires bucket { bucket < length self.now.first.items }
        requires slot { ForSome slot (λ at. at < length self.now.links.items) }
        ensures { link_following bucket slot self.now.first.items self.now.links.items ≡ Some result }
    {
        match slot {
            None => self.first[bucket],
            Some(at) => self.links[at],
        }
    }

    /// Lets a slot, or the beginning of the bucket, lead here.
    fn lead(&mut self, bucket: usize, slot: Option<usize>, link: Option<usize>)
        requires bucket { bucket < length self.old.first.items }
        requires slot { ForSome slot (λ at. at < length self.old.links.items) }
        ensures first { self.new.first.items ≡ first_with bucket slot link self.old.first.items }
        ensures links { self.new.links.items ≡ links_with slot link self.old.links.items }
    {
        match slot {
            None => self.first[bucket] = link,
            Some(at) => self.links[at] = link,
        }
    }

    /// Takes a slot from one bucket into another.
    pub(crate) fn change(&mut self, keys: &[u64], at: usize, from: usize, to: usize)
        requires linked { AreChained keys.now self.old.first.items self.old.links.items }
        requires is_in { IsIn (buckets (length self.old.first.items) keys.now) from at }
        requires other { from ≢ to }
        requires from { from < length self.old.first.items }
        requires to { to < length self.old.first.items }
        ensures size { length self.new.first.items ≡ length self.old.first.items }
        ensures linked { AreLinked (slice_set (buckets (length self.old.first.items) keys.now) at to) self.new.first.items self.new.links.items }
    {
        let left = self.last_before(keys, from, at);
        let right = self.last_before(keys, to, at);
        let next = self.links[at];
        let following = self.link_following(to, right);
        self.lead(from, left, next);
        self.links[at] = following;
        self.lead(to, right, Some(at));
    }

    /// Adds a slot to a bucket, after all others. Without room for its link nothing changes.
    pub(crate) fn push(&mut self, keys: &[u64], bucket: usize) -> Result<(), AllocError>
        requires linked { AreChained keys.now self.old.first.items self.old.links.items }
        requires bucket { bucket < length self.old.first.items }
        ensures size { length self.new.first.items ≡ length self.old.first.items }
        ensures linked { MatchResult result
            (λ u. AreLinked (buckets (length self.old.first.items) keys.now ++ bucket ∷ []) self.new.first.items self.new.links.items)
            (λ e. (self.new.first.items ≡ self.old.first.items) × (self.new.links.items ≡ self.old.links.items)) }
    {
        if self.links.len() >= self.links.capacity() {
            return Err(AllocError);
        }
        let at = keys.len();
        let last = self.last_before(keys, bucket, at);
        let link = self.link_following(bucket, last);
        match self.links.push(link) {
            Ok(()) => self.lead(bucket, last, Some(at)),
            Err(_) => unreachable!(),
        }
        Ok(())
    }

    /// Makes room for so many slots, and more buckets than that, if there is memory for them.
    pub(crate) fn reserve(&mut self, keys: &[u64], slots: usize) -> Result<(), AllocError>
        requires linked { AreChained keys.now self.old.first.items self.old.links.items }
        ensures linked { AreChained keys.now self.new.first.items self.new.links.items }
        ensures size { length self.old.first.items ≤ length self.new.first.items }
    {
        self.links.reserve(slots.saturating_sub(self.links.len()))?;
        if slots < self.first.len() {
            return Ok(());
        }
        let count = slots.saturating_mul(2).saturating_add(1);
        self.first = Vec::from_elem(*self.first.allocator(), None, count)?;
        self.link_all(keys);
        Ok(())
    }

    /// Links all slots again, where no bucket leads to any.
    fn link_all(&mut self, keys: &[u64])
        requires some { 0 < length self.old.first.items }
        requires each { length self.old.links.items ≡ length keys.now }
        requires none { (bucket : ℕ) (link : Option ℕ) → slice_get self.old.first.items bucket ≡ Some link → link ≡ None }
        ensures size { length self.new.first.items ≡ length self.old.first.items }
        ensures linked { AreLinked (buckets (length self.old.first.items) keys.now) self.new.first.items self.new.links.items }
    {
        let mut from = keys.len();
        while from > 0 {
            from -= 1;
            let bucket = self.bucket_of(keys[from]);
            self.links[from] = self.first[bucket];
            self.first[bucket] = Some(from);
        }
    }
}
