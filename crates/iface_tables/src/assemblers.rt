//! Slots for datagrams that come in fragments, each of another datagram (RFC 815).
ghost use Rattle.std.specs.Prelude.{◌≡◌, ◌↔◌, ◌≤◌, ◌<◌, ◌+◌, ◌++◌, length, position, None, Some, IfOk, IsErr};
ghost use Rattle.iface_tables.specs.Best.{at_index};
ghost use Rattle.std.specs.Option.{ForSome, option_copied};
ghost use Rattle.iface_tables.specs.Reassembly.{placed, freed, is_free, is_key, is_of, assembler_index_for};
ghost use Rattle.iface_tables.specs.Assemblers.{free_assemblers, opened, with_assembler_for, changed_at, completed_at, is_expired, unless_expired, without_expired};
ghost use Rattle.iface_tables.specs.Assemblers.{with_fragment_of, assembler_of, overlaps_datagram, without_datagram};
ghost use Rattle.iface_tables.specs.Room.{any_slot, given_up_for, goes_before, has_share, held_by, is_same_source, oldest, place_given_up, with_room_for};

use crate::fragmentation::{AssemblerFullError, PacketAssembler};
use crate::key::FragKey;
use net_base::Instant;
use std::alloc::{AllocError, Global};
use std::marker::Model;

/// The most bytes of a datagram that comes in fragments, and the most runs that are kept of it.
pub const REASSEMBLY_SIZE: usize = 4096;

const REASSEMBLY_RUNS: usize = 4;

type Assembler = PacketAssembler<FragKey, REASSEMBLY_SIZE, REASSEMBLY_RUNS>;

/// The fragments of so many datagrams at most, as there are slots: of at most 4096 bytes each, in at most 4 runs each.
#[derive(Debug, Drop)]
pub struct PacketAssemblerSet {
    assemblers: Vec<Assembler>,
}

impl Model for PacketAssemblerSet {
    ghost use Rattle.std.specs.Prelude.{List};
    ghost use Rattle.iface_tables.specs.declared.key.FragKey.{FragKey};
    ghost use Rattle.iface_tables.specs.Reassembly.{AssemblerValue};

    ghost Value = { List (AssemblerValue FragKey) };

    ghost view = { λ s. s.assemblers.items };
}

impl PacketAssemblerSet {
    /// So many free slots.
    pub fn new(alloc: Global, count: usize) -> Result<PacketAssemblerSet, AllocError>
        ensures { IfOk result (λ s. s ≡ free_assemblers count 4096) }
    {
        let mut assemblers = Vec::with_capacity(alloc, count)?;
        while assemblers.len() < count {
            assemblers.push(PacketAssembler::new())?;
        }
        Ok(PacketAssemblerSet { assemblers })
    }

    /// How many slots there are.
    pub fn capacity(&self) -> usize
        ensures { result ≡ length self.now }
    {
        self.assemblers.len()
    }

    /// Takes in a fragment of this datagram, which ends it unless more come after it. A datagram that has no slot yet gets a free
    /// one, which is given up after the instant; without one, the fragment is dropped. Answers the slot's place.
    pub fn insert(
        &mut self,
        key: &FragKey,
        expires_at: Instant,
        fragment: &[u8],
        offset: usize,
        more_frags: bool,
    ) -> Option<usize>
        ensures index { result ≡ assembler_index_for ⟦<FragKey as PartialEq>⟧.eq self.old key.now }
        ensures in_range { ForSome result (λ at. at < length self.new) }
        ensures after { self.new ≡ with_fragment_of 4 ⟦<FragKey as PartialEq>⟧.eq self.old key.now expires_at fragment.now offset more_frags }
    {
        self.insert_following(key, expires_at, &[], fragment, offset, more_frags)
    }

    /// The same of a fragment that lies in two parts.
    pub fn insert_following(
        &mut self,
        key: &FragKey,
        expires_at: Instant,
        front: &[u8],
        fragment: &[u8],
        offset: usize,
        more_frags: bool,
    ) -> Option<usize>
        ensures index { result ≡ assembler_index_for ⟦<FragKey as PartialEq>⟧.eq self.old key.now }
        ensures in_range { ForSome result (λ at. at < length self.new) }
        ensures after { self.new ≡
            with_fragment_of 4 ⟦<FragKey as PartialEq>⟧.eq self.old key.now expires_at (front.now ++ fragment.now) offset more_frags }
    {
        let index = self.assembler_index_for(key);
        if let Some(at) = index {
            put_at(
                self.assemblers.as_mut_slice(),
                at,
                key,
                expires_at,
                front,
                fragment,
                offset,
                more_frags,
            );
        }
        index
    }

    /// Whether a fragment of this datagram, which lies in two parts, overlaps what came of it.
    pub fn overlaps(&self, key: &FragKey, front: &[u8], fragment: &[u8], offset: usize) -> bool
        requires { offset + length (front.now ++ fragment.now) ≤ REASSEMBLY_SIZE }
        ensures { result ≡ overlaps_datagram ⟦<FragKey as PartialEq>⟧.eq self.now key.now (front.now ++ fragment.now) offset }
    {
        match assembler_of(self.assemblers.as_slice(), key) {
            Some(assembler) => assembler.overlaps(front, fragment, offset),
            None => false,
        }
    }

    /// The slot of this datagram; one that has none yet gets a free one, which is given up after the instant.
    pub fn get(
        &mut self,
        key: &FragKey,
        expires_at: Instant,
    ) -> Result<&mut Assembler, AssemblerFullError>
        ensures full { IsErr result ↔ (assembler_index_for ⟦<FragKey as PartialEq>⟧.eq self.old key.now ≡ None) }
        ensures lent { IfOk result (λ assembler. Some assembler.now ≡ at_index (assembler_index_for ⟦<FragKey as PartialEq>⟧.eq self.old key.now)
            (with_assembler_for ⟦<FragKey as PartialEq>⟧.eq self.old key.now expires_at)) }
    {
        match self.assembler_index_for(key) {
            Some(at) => {
                let assembler = &mut self.assemblers[at];
                open(assembler, key, expires_at);
                Ok(assembler)
            }
            None => Err(AssemblerFullError),
        }
    }

    /// The datagram at this place, if every byte of it came.
    pub fn completed(&self, at: usize) -> Option<&[u8]>
        ensures { option_copied result ≡ completed_at at self.now }
    {
        completed_in(self.assemblers.as_slice(), at)
    }

    /// Frees the slot at this place.
    pub fn free(&mut self, at: usize)
        requires { at < length self.old }
        ensures { self.new ≡ changed_at freed (Some at) self.old }
    {
        free_at(self.assemblers.as_mut_slice(), at);
    }

    /// Gives up this datagram, if it has a slot.
    pub fn remove(&mut self, key: &FragKey)
        ensures { self.new ≡ without_datagram ⟦<FragKey as PartialEq>⟧.eq self.old key.now }
    {
        if let Some(at) = assembler_index_of(self.assemblers.as_slice(), key) {
            free_at(self.assemblers.as_mut_slice(), at);
        }
    }

    /// Makes room for this datagram, unless it has a slot. Where its source has half of the slots, or the only one, the source's oldest
    /// datagram is given up; else the oldest of all is, where no slot is free.
    pub fn make_room(&mut self, key: &FragKey)
        ensures { self.new ≡ with_room_for ⟦<FragKey as PartialEq>⟧.eq is_same_source self.old key.now }
    {
        make_room_in(self.assemblers.as_mut_slice(), key);
    }

    /// Frees the slots whose instant has passed.
    pub fn remove_expired(&mut self, timestamp: Instant)
        ensures { self.new ≡ without_expired self.old timestamp }
    {
        free_expired(self.assemblers.as_mut_slice(), timestamp);
    }

    /// The place of this datagram's slot: its own, else the first free one.
    fn assembler_index_for(&self, key: &FragKey) -> Option<usize>
        ensures index { result ≡ assembler_index_for ⟦<FragKey as PartialEq>⟧.eq self.now key.now }
        ensures in_range { ForSome result (λ at. at < length self.now) }
    {
        match assembler_index_of(self.assemblers.as_slice(), key) {
            Some(at) => Some(at),
            None => free_assembler(self.assemblers.as_slice()),
        }
    }
}

/// Where the slot of this datagram is.
fn assembler_index_of(assemblers: &[Assembler], key: &FragKey) -> Option<usize>
    ensures index { result ≡ position (is_of ⟦<FragKey as PartialEq>⟧.eq key.now) assemblers.now }
    ensures in_range { ForSome result (λ at. at < length assemblers.now) }
{
    assemblers.iter().position(|assembler| assembler.is_of(key))
}

/// The slot of this datagram.
fn assembler_of<'a>(assemblers: &'a [Assembler], key: &FragKey) -> Option<&'a Assembler>
    ensures { option_copied result ≡ assembler_of ⟦<FragKey as PartialEq>⟧.eq assemblers.now key.now }
{
    assemblers.iter().find(|assembler| assembler.is_of(key))
}

/// Where the first free slot is.
fn free_assembler(assemblers: &[Assembler]) -> Option<usize>
    ensures index { result ≡ position is_free assemblers.now }
    ensures in_range { ForSome result (λ at. at < length assemblers.now) }
{
    assemblers.iter().position(|assembler| assembler.is_free())
}

/// Makes room for a datagram.
#[tactic(auto, using(crate::proofs::Changed::changed_length))]
fn make_room_in(assemblers: &mut [Assembler], key: &FragKey)
    ensures value { assemblers.new ≡ with_room_for ⟦<FragKey as PartialEq>⟧.eq is_same_source assemblers.old key.now }
    ensures len { length assemblers.new ≡ length assemblers.old }
{
    if let Some(at) = place_given_up(assemblers, key) {
        free_at(assemblers, at);
    }
}

/// Where the slot is that is given up for a datagram, which may have its own, and there may be none.
fn place_given_up(assemblers: &[Assembler], key: &FragKey) -> Option<usize>
    ensures index { result ≡ place_given_up ⟦<FragKey as PartialEq>⟧.eq is_same_source assemblers.now key.now }
    ensures in_range { ForSome result (λ at. at < length assemblers.now) }
{
    if assembler_index_of(assemblers, key).is_some() || assemblers.len() == 0 {
        return None;
    }
    given_up_for(assemblers, key)
}

/// Where the slot is that is given up for a new datagram.
fn given_up_for(assemblers: &[Assembler], key: &FragKey) -> Option<usize>
    requires { 0 < length assemblers.now }
    ensures index { result ≡ given_up_for is_same_source assemblers.now key.now }
    ensures in_range { ForSome result (λ at. at < length assemblers.now) }
{
    if has_share(assemblers, key) {
        return Some(oldest_from(assemblers, key));
    }
    match free_assembler(assemblers) {
        Some(_) => None,
        None => Some(oldest(assemblers)),
    }
}

/// Whether the source of this datagram has half of the slots, or the only one.
fn has_share(assemblers: &[Assembler], key: &FragKey) -> bool
    ensures { result ≡ has_share is_same_source key.now assemblers.now }
{
    let share = (assemblers.len() / 2).max(1);
    share <= held_by(assemblers, key)
}

/// How many slots have a datagram from the source of this one.
fn held_by(assemblers: &[Assembler], key: &FragKey) -> usize
    ensures { result ≡ held_by is_same_source key.now assemblers.now }
{
    assemblers
        .iter()
        .filter(|assembler| is_from(assembler, key))
        .count()
}

/// Whether a slot has a datagram from the source of this one.
fn is_from(assembler: &Assembler, key: &FragKey) -> bool
    ensures { result ≡ is_of is_same_source key.now assembler.now }
{
    match assembler.key() {
        Some(held) => held.has_source_of(key),
        None => false,
    }
}

/// Where the oldest datagram from the source of this one is, the first place if there is none.
#[tactic(auto, using(crate::proofs::Oldest::in_order))]
fn oldest_from(assemblers: &[Assembler], key: &FragKey) -> usize
    requires { 0 < length assemblers.now }
    ensures index { result ≡ oldest (is_of is_same_source key.now) assemblers.now }
    ensures in_range { result < length assemblers.now }
{
    let mut at = 0;
    for i in 1..assemblers.len() {
        if goes_before(&assemblers[i], &assemblers[at], key) {
            at = i;
        }
    }
    at
}

/// Whether the first slot has a datagram from the source of this one, and the second a later one or another's.
fn goes_before(one: &Assembler, other: &Assembler, key: &FragKey) -> bool
    ensures { result ≡ goes_before (is_of is_same_source key.now) one.now other.now }
{
    is_from(one, key) && (!is_from(other, key) || one.expires_at() < other.expires_at())
}

/// Where the oldest datagram is.
#[tactic(auto, using(crate::proofs::Oldest::in_order))]
fn oldest(assemblers: &[Assembler]) -> usize
    requires { 0 < length assemblers.now }
    ensures index { result ≡ oldest any_slot assemblers.now }
    ensures in_range { result < length assemblers.now }
{
    let mut at = 0;
    for i in 1..assemblers.len() {
        if assemblers[i].expires_at() < assemblers[at].expires_at() {
            at = i;
        }
    }
    at
}

/// The datagram at this place, if there is one and every byte of it came.
fn completed_in(assemblers: &[Assembler], at: usize) -> Option<&[u8]>
    ensures { option_copied result ≡ completed_at at assemblers.now }
{
    match assemblers.get(at) {
        Some(assembler) => assembler.completed(),
        None => None,
    }
}

/// A slot that isn't the datagram's yet becomes it.
fn open(assembler: &mut Assembler, key: &FragKey, expires_at: Instant)
    ensures { assembler.new ≡ opened ⟦<FragKey as PartialEq>⟧.eq key.now expires_at assembler.old }
{
    if !assembler.is_of(key) {
        assembler.take(*key, expires_at);
    }
}

/// Takes a fragment of this datagram into the slot at this place.
#[tactic(auto, using(crate::proofs::Changed::changed_here))]
fn put_at(
    assemblers: &mut [Assembler],
    at: usize,
    key: &FragKey,
    expires_at: Instant,
    front: &[u8],
    fragment: &[u8],
    offset: usize,
    more_frags: bool,
)
    requires { at < length assemblers.old }
    ensures { assemblers.new ≡ changed_at (λ s. placed 4 (opened ⟦<FragKey as PartialEq>⟧.eq key.now expires_at s) (front.now ++ fragment.now) offset more_frags)
        (Some at) assemblers.old }
{
    put(
        &mut assemblers[at],
        key,
        expires_at,
        front,
        fragment,
        offset,
        more_frags,
    );
}

/// Frees the slot at this place.
#[tactic(auto, using(crate::proofs::Changed::changed_here))]
fn free_at(assemblers: &mut [Assembler], at: usize)
    requires { at < length assemblers.old }
    ensures { assemblers.new ≡ changed_at freed (Some at) assemblers.old }
{
    assemblers[at].reset();
}

/// Takes a fragment of this datagram into a slot.
fn put(
    assembler: &mut Assembler,
    key: &FragKey,
    expires_at: Instant,
    front: &[u8],
    fragment: &[u8],
    offset: usize,
    more_frags: bool,
)
    ensures { assembler.new ≡ placed 4 (opened ⟦<FragKey as PartialEq>⟧.eq key.now expires_at assembler.old) (front.now ++ fragment.now) offset more_frags }
{
    open(assembler, key, expires_at);
    let _ = assembler.insert_following(front, fragment, offset, more_frags);
}

/// Frees the slots whose instant has passed.
fn free_expired(assemblers: &mut [Assembler], timestamp: Instant)
    ensures { assemblers.new ≡ without_expired assemblers.old timestamp }
{
    for assembler in assemblers.iter_mut() {
        free_if_expired(assembler, timestamp);
    }
}

fn free_if_expired(assembler: &mut Assembler, timestamp: Instant)
    ensures { assembler.new ≡ unless_expired timestamp assembler.old }
{
    if !assembler.is_free() && assembler.expires_at() < timestamp {
        assembler.reset();
    }
}
