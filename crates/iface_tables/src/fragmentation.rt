//! Datagrams that are put together from their fragments (RFC 791, section 3.2; RFC 815).
ghost use Rattle.std.specs.Prelude.{◌≡◌, ◌+◌, ◌≤◌, ◌↔◌, ◌++◌, nat_le, length, take, drop, IsTrue, is_ok, Some, codes};
ghost use Rattle.std.specs.Str.{bytes_eq};
ghost use Rattle.std.specs.Option.{option_copied};
ghost use Rattle.iface_tables.specs.Reassembly.{is_known_as, overwritten, meets, covers};

use net_base::{Assembler, Instant};
use std::fmt;
use std::marker::Model;

/// A fragment doesn't fit: it lies past the slot's bytes, or ends the datagram elsewhere than an earlier one.
#[derive(Clone, Copy, Debug, PartialEq, Eq)]
pub struct AssemblerError;

impl fmt::Display for AssemblerError {
    ghost output = { λ _. Some (codes "AssemblerError") };

    fn fmt<W: fmt::Write>(&self, f: &mut fmt::Formatter<W>) -> fmt::Result {
        write!(f, "AssemblerError")
    }
}

impl std::error::Error for AssemblerError {}

/// Each slot holds fragments of another datagram.
#[derive(Clone, Copy, Debug, PartialEq, Eq)]
pub struct AssemblerFullError;

impl fmt::Display for AssemblerFullError {
    ghost output = { λ _. Some (codes "AssemblerFullError") };

    fn fmt<W: fmt::Write>(&self, f: &mut fmt::Formatter<W>) -> fmt::Result {
        write!(f, "AssemblerFullError")
    }
}

impl std::error::Error for AssemblerFullError {}

/// The fragments of one datagram of at most `SIZE` bytes, which are kept in at most `HOLES` runs.
#[derive(Debug, Drop)]
pub struct PacketAssembler<K, const SIZE: usize, const HOLES: usize> {
    key: Option<K>,
    buffer: [u8; SIZE],
    assembler: Assembler<HOLES>,
    total_size: Option<usize>,
    expires_at: Instant,
}

impl<K, const SIZE: usize, const HOLES: usize> Model for PacketAssembler<K, SIZE, HOLES> {
    ghost use Rattle.std.specs.Prelude.{◌≤◌};
    ghost use Rattle.std.specs.Option.{ForSome};
    ghost use Rattle.iface_tables.specs.Reassembly.{AssemblerValue, assembler_of, assembler_code};

    ghost Value = { AssemblerValue K };

    ghost coded = { assembler_code K.code };

    ghost view = { λ a. assembler_of a.key a.buffer a.assembler a.total_size a.expires_at };

    ghost invariant = { λ a. ForSome a.total_size (λ total. total ≤ SIZE) };
}

impl<K: Drop, const SIZE: usize, const HOLES: usize> PacketAssembler<K, SIZE, HOLES> {
    ghost use Rattle.iface_tables.specs.Reassembly.{empty, initial, freed, taken, is_free, takes_total, with_total, takes_fragment, with_fragment, is_complete};
    ghost use Rattle.iface_tables.specs.Reassembly.{completed, placed, is_placed, overlaps};

    /// A free slot.
    pub fn new() -> PacketAssembler<K, SIZE, HOLES>
        requires { 1 ≤ HOLES }
        ensures { result ≡ initial SIZE }
    {
        PacketAssembler::with_key(None)
    }

    /// A slot that nothing came into.
    pub(crate) fn with_key(key: Option<K>) -> PacketAssembler<K, SIZE, HOLES>
        requires { 1 ≤ HOLES }
        ensures { result ≡ empty key SIZE }
    {
        PacketAssembler {
            key,
            buffer: [0; SIZE],
            assembler: Assembler::new(),
            total_size: None,
            expires_at: Instant::ZERO,
        }
    }

    /// Frees the slot.
    pub fn reset(&mut self)
        ensures { self.new ≡ freed self.old }
    {
        self.key = None;
        self.assembler.clear();
        self.total_size = None;
        self.expires_at = Instant::ZERO;
    }

    /// Learns the datagram's length, if it fits and no other is known.
    pub fn set_total_size(&mut self, size: usize) -> Result<(), AssemblerError>
        ensures after { self.new ≡ with_total self.old size }
        ensures ok { is_ok result ≡ takes_total self.old size }
    {
        if !is_known_as(self.total_size, size) || SIZE < size {
            return Err(AssemblerError);
        }
        self.total_size = Some(size);
        Ok(())
    }

    /// Writes a fragment over what came before, if it fits. A fragment that would leave more than `HOLES` runs is not marked as come.
    pub fn add(&mut self, fragment: &[u8], offset: usize) -> Result<(), AssemblerError>
        ensures after { self.new ≡ with_fragment HOLES self.old fragment.now offset }
        ensures ok { is_ok result ≡ takes_fragment self.old fragment.now offset }
    {
        self.add_following(&[], fragment, offset)
    }

    /// The same of a fragment that lies in two parts.
    pub fn add_following(
        &mut self,
        front: &[u8],
        fragment: &[u8],
        offset: usize,
    ) -> Result<(), AssemblerError>
        ensures after { self.new ≡ with_fragment HOLES self.old (front.now ++ fragment.now) offset }
        ensures ok { is_ok result ≡ takes_fragment self.old (front.now ++ fragment.now) offset }
    {
        let len = front.len() + fragment.len();
        if !fits(offset, len, self.buffer.as_slice().len()) {
            return Err(AssemblerError);
        }
        write_following(&mut self.buffer, offset, front, fragment);
        let _ = self.assembler.add(offset, len);
        Ok(())
    }

    /// Takes in a fragment, which ends the datagram unless more come after it.
    pub fn insert(
        &mut self,
        fragment: &[u8],
        offset: usize,
        more_frags: bool,
    ) -> Result<(), AssemblerError>
        ensures after { self.new ≡ placed HOLES self.old fragment.now offset more_frags }
        ensures ok { is_ok result ≡ is_placed self.old fragment.now offset more_frags }
    {
        self.insert_following(&[], fragment, offset, more_frags)
    }

    /// The same of a fragment that lies in two parts.
    pub fn insert_following(
        &mut self,
        front: &[u8],
        fragment: &[u8],
        offset: usize,
        more_frags: bool,
    ) -> Result<(), AssemblerError>
        ensures after { self.new ≡ placed HOLES self.old (front.now ++ fragment.now) offset more_frags }
        ensures ok { is_ok result ≡ is_placed self.old (front.now ++ fragment.now) offset more_frags }
    {
        if more_frags {
            return self.add_following(front, fragment, offset);
        }
        let len = front.len() + fragment.len();
        if !fits(offset, len, self.buffer.as_slice().len()) {
            return Err(AssemblerError);
        }
        match self.set_total_size(offset + len) {
            Ok(()) => self.add_following(front, fragment, offset),
            Err(error) => Err(error),
        }
    }

    /// Whether some of a fragment that lies in two parts came before, and not as it is now.
    pub fn overlaps(&self, front: &[u8], fragment: &[u8], offset: usize) -> bool
        requires { offset + length (front.now ++ fragment.now) ≤ SIZE }
        ensures { result ≡ overlaps self.now (front.now ++ fragment.now) offset }
    {
        let end = offset + (front.len() + fragment.len());
        if !meets(&self.assembler, offset, end) {
            return false;
        }
        !(covers(&self.assembler, offset, end) && repeats(&self.buffer, offset, front, fragment))
    }

    /// Whether every byte of the datagram came.
    pub fn is_complete(&self) -> bool
        ensures { result ≡ is_complete self.now }
    {
        match self.total_size {
            Some(total) => total == self.assembler.peek_front(),
            None => false,
        }
    }

    /// When the slot is given up.
    pub fn expires_at(&self) -> Instant
        ensures { result ≡ self.now.expires }
    {
        self.expires_at
    }

    /// The datagram that has the slot, if one has.
    pub fn key(&self) -> Option<&K>
        ensures { option_copied result ≡ self.now.key }
    {
        self.key.as_ref()
    }

    /// Whether no datagram has the slot.
    pub fn is_free(&self) -> bool
        ensures { result ≡ is_free self.now }
    {
        self.key.is_none()
    }

    /// The slot is this datagram's from now on, and nothing of it came; it is given up after the instant.
    pub fn take(&mut self, key: K, expires_at: Instant)
        ensures { self.new ≡ taken key expires_at self.old }
    {
        self.reset();
        self.key = Some(key);
        self.expires_at = expires_at;
    }

    /// The datagram, if every byte of it came.
    pub fn completed(&self) -> Option<&[u8]>
        ensures { option_copied result ≡ completed self.now }
    {
        if !self.is_complete() {
            return None;
        }
        let bytes: &[u8] = &self.buffer;
        Some(&bytes[..self.assembler.peek_front()])
    }

    /// Gives the datagram, if every byte of it came, and frees the slot.
    pub fn assemble(&mut self) -> Option<&[u8]>
        ensures { option_copied result ≡ completed self.old }
    {
        if !self.is_complete() {
            return None;
        }
        let len = self.assembler.peek_front();
        self.reset();
        let bytes: &[u8] = &self.buffer;
        Some(&bytes[..len])
    }
}

impl<K: Eq + Copy, const SIZE: usize, const HOLES: usize> PacketAssembler<K, SIZE, HOLES> {
    ghost use Rattle.iface_tables.specs.Reassembly.{is_of};

    /// Whether the slot is this datagram's.
    pub fn is_of(&self, key: &K) -> bool
        ensures { result ≡ is_of K.eq key.now self.now }
    {
        match &self.key {
            Some(held) => held == key,
            None => false,
        }
    }
}

/// Whether the datagram can have this length, by what is known of it.
fn is_known_as(total: Option<usize>, size: usize) -> bool
    ensures { result ≡ is_known_as total size }
{
    match total {
        Some(total) => total == size,
        None => true,
    }
}

/// Whether so many bytes from the offset on lie within this many.
fn fits(offset: usize, len: usize, size: usize) -> bool
    ensures value { result ≡ nat_le (offset + len) size }
    ensures fits { IsTrue result → offset + len ≤ size }
{
    match offset.checked_add(len) {
        Some(end) => end <= size,
        None => false,
    }
}

/// Whether some of these places are in a run.
fn meets<const N: usize>(held: &Assembler<N>, start: usize, end: usize) -> bool
    ensures { result ≡ meets held.now start end }
{
    for (first, following) in held.iter_data() {
        if first < end && start < following {
            return true;
        }
    }
    false
}

/// Whether all of these places are in one run.
fn covers<const N: usize>(held: &Assembler<N>, start: usize, end: usize) -> bool
    ensures { result ≡ covers held.now start end }
{
    for (first, following) in held.iter_data() {
        if first <= start && end <= following {
            return true;
        }
    }
    false
}

/// Whether these bytes stand there from the offset on.
fn repeats(bytes: &[u8], offset: usize, front: &[u8], fragment: &[u8]) -> bool
    requires { offset + length (front.now ++ fragment.now) ≤ length bytes.now }
    ensures { result ≡ bytes_eq (take (length (front.now ++ fragment.now)) (drop offset bytes.now)) (front.now ++ fragment.now) }
{
    let (_, rest) = bytes.split_at(offset);
    let (there, _) = rest.split_at(front.len() + fragment.len());
    let (begin, end) = there.split_at(front.len());
    if begin != front {
        return false;
    }
    end == fragment
}

/// Writes a fragment that lies in two parts over the bytes from the offset on.
fn write_following(bytes: &mut [u8], offset: usize, front: &[u8], fragment: &[u8])
    requires { offset + length (front.now ++ fragment.now) ≤ length bytes.old }
    ensures { bytes.new ≡ overwritten bytes.old offset (front.now ++ fragment.now) }
{
    write_at(bytes, offset, front);
    write_at(bytes, offset + front.len(), fragment);
}

/// Writes a fragment over the bytes from the offset on.
fn write_at(bytes: &mut [u8], offset: usize, fragment: &[u8])
    requires { offset + length fragment.now ≤ length bytes.old }
    ensures { bytes.new ≡ overwritten bytes.old offset fragment.now }
{
    let (_, rest) = bytes.split_at_mut(offset);
    let (target, _) = rest.split_at_mut(fragment.len());
    target.copy_from_slice(fragment);
}
