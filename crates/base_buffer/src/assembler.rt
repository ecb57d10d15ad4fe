//! Which positions after a front have come, as a set with few runs.
ghost use Rattle.std.specs.Prelude.{◌≡◌, ℕ, ◌+◌, ◌-◌, ◌≤◌, ◌<◌, ◌^◌, ◌↔◌, List, [], ◌∷◌, ◌++◌, length, take, drop, replicate, IsTrue, IsErr, OnOk, OnErr, IfOk};
ghost use Rattle.base_buffer.specs.Assembler.{AreRuns, HoldSame, IsUnion, added, front, lowered, without_front};
ghost use Rattle.base_buffer.specs.Contigs.{begun, ended};

use std::fmt;
use std::marker::Model;

/// The positions would have more runs than the assembler keeps.
#[derive(Debug, Clone, Copy, PartialEq, Eq)]
pub struct TooManyHolesError;

impl fmt::Display for TooManyHolesError {
    ghost use Rattle.std.specs.Prelude.{Some, codes};

    ghost output = { λ _. Some (codes "too many holes") };

    fn fmt<W: fmt::Write>(&self, f: &mut fmt::Formatter<W>) -> fmt::Result {
        write!(f, "too many holes")
    }
}

impl std::error::Error for TooManyHolesError {}

/// A set of positions with at most `N` maximal runs.
#[derive(Debug, Drop)]
pub struct Assembler<const N: usize> {
    // The maximal runs, each as its first position and the one after its last, and after them `(0, 0)`.
    ranges: [(usize, usize); N],
    count: usize,
}

impl<const N: usize> Model for Assembler<N> {
    ghost use Rattle.std.specs.Prelude.{List, ℕ, take};

    ghost Value = { List (ℕ × ℕ) };

    ghost use Rattle.base_buffer.specs.Contigs.{AreKept};

    ghost view = { λ a. take a.count a.ranges };

    ghost invariant = { λ a. AreKept N a.count a.ranges };
}

/// The maximal runs of an assembler, from the lowest on.
#[derive(Debug, Drop)]
pub struct AssemblerIter<'a> {
    ranges: &'a [(usize, usize)],
}

impl<'a> Model for AssemblerIter<'a> {
    ghost use Rattle.std.specs.Prelude.{List, ℕ};

    ghost Value = { List (ℕ × ℕ) };

    ghost view = { λ s. s.ranges.now };
}

impl<'a> Iterator for AssemblerIter<'a> {
    ghost use Rattle.std.specs.Iterator.{YieldsFirst, item_count};

    type Item = (usize, usize);

    ghost next_gives = { YieldsFirst (λ s. s) };

    ghost remaining = { item_count (λ s. s) };

    fn next(&mut self) -> Option<(usize, usize)> {
        let (first, others) = self.ranges.split_first()?;
        self.ranges = others;
        Some(*first)
    }
}

impl<const N: usize> Assembler<N> {
    /// Makes an assembler that holds nothing.
    pub fn new() -> Assembler<N>
        requires { 1 ≤ N }
        ensures { result ≡ [] }
    {
        Assembler {
            ranges: [(0, 0); N],
            count: 0,
        }
    }

    /// Forgets every position.
    pub fn clear(&mut self)
        ensures { self.new ≡ [] }
    {
        let ranges = [(0, 0); N];
        self.ranges = ranges;
        self.count = 0;
    }

    /// Returns the maximal runs in rising order, each as its first position and the one after its last.
    pub fn iter_data(&self) -> AssemblerIter<'_>
        ensures runs { result ≡ self.now }
        ensures maximal { AreRuns self.now }
        // Two assemblers that hold the same positions are equal.
        ensures unique { (others : List (ℕ × ℕ)) → AreRuns others → HoldSame self.now others
            → self.now ≡ others }
        ensures few { length self.now ≤ N }
        ensures room { 1 ≤ N }
    {
        AssemblerIter {
            ranges: &self.ranges[..self.count],
        }
    }

    /// Returns how many positions from 0 on are held without a gap.
    pub fn peek_front(&self) -> usize
        ensures { result ≡ front self.now }
    {
        let (start, end) = self.ranges[0];
        if start == 0 { end } else { 0 }
    }

    /// Returns whether no position is held.
    pub fn is_empty(&self) -> bool
        ensures { IsTrue result ↔ (self.now ≡ []) }
    {
        self.count == 0
    }

    /// Adds `size` positions from `offset` on, if what is then held has no more than `N` runs. Nothing changes otherwise.
    pub fn add(&mut self, offset: usize, size: usize) -> Result<(), TooManyHolesError>
        requires { offset + size < 2 ^ 64 }
        ensures union { IsUnion self.old offset size (added self.old offset size) }
        ensures refused { IsErr result ↔ (N < length (added self.old offset size)) }
        ensures ok { OnOk result (self.new ≡ added self.old offset size) }
        ensures err { OnErr result (self.new ≡ self.old) }
    {
        let runs = &self.ranges[..self.count];
        if size == 0 {
            return Ok(());
        }
        let (start, end) = (offset, offset + size);
        let (first, following) = (ended_before(runs, start), begun_by(runs, end));
        if first < following {
            let run = (runs[first].0.min(start), runs[following - 1].1.max(end));
            self.ranges[first] = run;
            remove(&mut self.ranges, first + 1, following);
            self.count -= following - first - 1;
        } else if self.count < N {
            insert(&mut self.ranges, first, (start, end));
            self.count += 1;
        } else {
            return Err(TooManyHolesError);
        }
        Ok(())
    }

    /// Gives up the run at 0, lowers every other position by its length, and returns that length, or 0 where there is none.
    pub fn remove_front(&mut self) -> usize
        ensures length { result ≡ front self.old }
        ensures rest { self.new ≡ without_front self.old }
        ensures runs { AreRuns self.new }
    {
        let size = self.peek_front();
        if size > 0 {
            // The run at 0 becomes an unused pair.
            lower(&mut self.ranges[..self.count], size);
            self.ranges.rotate_left(1);
            self.count -= 1;
        }
        size
    }

    /// Adds positions and then gives up the run at 0. With an `offset` of 0 it is never refused.
    pub fn add_then_remove_front(
        &mut self,
        offset: usize,
        size: usize,
    ) -> Result<usize, TooManyHolesError>
        requires { offset + size < 2 ^ 64 }
        ensures union { IsUnion self.old offset size (added self.old offset size) }
        ensures refused { IsErr result ↔ ((0 < offset) × (N < length (added self.old offset size))) }
        ensures ok { IfOk result (λ n. (n ≡ front (added self.old offset size))
            × (self.new ≡ without_front (added self.old offset size))) }
        ensures err { OnErr result (self.new ≡ self.old) }
    {
        // Positions that reach no run need no offset.
        if offset == 0 && begun_by(&self.ranges[..self.count], size) == 0 {
            lower(&mut self.ranges[..self.count], size);
            return Ok(size);
        }
        self.add(offset, size)?;
        Ok(self.remove_front())
    }
}

/// Counts the runs that end before a position and don't touch it.
fn ended_before(runs: &[(usize, usize)], position: usize) -> usize
    ensures value { result ≡ ended runs.now position }
    ensures within { result ≤ length runs.now }
{
    runs.iter().take_while(|run| run.1 < position).count()
}

/// Counts the runs that begin at a position or before it.
fn begun_by(runs: &[(usize, usize)], position: usize) -> usize
    ensures value { result ≡ begun runs.now position }
    ensures within { result ≤ length runs.now }
{
    runs.iter().take_while(|run| run.0 <= position).count()
}

/// Lowers every run by a distance, down to 0 at most.
fn lower(runs: &mut [(usize, usize)], by: usize)
    ensures { runs.new ≡ lowered by runs.old }
{
    for run in runs.iter_mut() {
        *run = (run.0.saturating_sub(by), run.1.saturating_sub(by));
    }
}

/// Puts a pair in its offset and moves those after it on; the last one is lost.
fn insert(ranges: &mut [(usize, usize)], position: usize, range: (usize, usize))
    requires { position < length ranges.old }
    ensures { ranges.new ≡ take position ranges.old ++ range ∷ take (length ranges.old - 1 - position) (drop position ranges.old) }
{
    ranges[position..].rotate_right(1);
    ranges[position] = range;
}

/// Takes the pairs from `start` to `end` out and moves those after them up, with `(0, 0)` at the end.
fn remove(ranges: &mut [(usize, usize)], start: usize, end: usize)
    requires order { start ≤ end }
    requires within { end ≤ length ranges.old }
    ensures { ranges.new ≡ take start ranges.old ++ drop end ranges.old ++ replicate (end - start) (0, 0) }
{
    let kept = ranges.len() - (end - start);
    ranges[start..].rotate_left(end - start);
    ranges[kept..].fill((0, 0));
}

// Assemblers that hold the same positions are equal.
impl<const N: usize> PartialEq for Assembler<N> {
    ghost use Rattle.std.specs.Prelude.{◌≡◌, ◌↔◌, IsTrue};
    ghost use Rattle.std.specs.Cmp.{partial_equiv_from_equiv};
    ghost use Rattle.base_buffer.specs.Assembler.{HoldSame};
    ghost use Rattle.base_buffer.specs.AssemblerEq.{same_run_lists, same_runs_equiv};

    ghost eq = { same_run_lists };

    ghost laws = { partial_equiv_from_equiv same_runs_equiv };

    fn eq(&self, other: &Assembler<N>) -> bool
        ensures value { result ≡ same_run_lists self.now other.now }
        ensures positions { IsTrue result ↔ HoldSame self.now other.now }
    {
        self.ranges == other.ranges
    }
}

impl<const N: usize> Eq for Assembler<N> {
    ghost use Rattle.base_buffer.specs.AssemblerEq.{same_runs_equiv};

    ghost laws = { same_runs_equiv };
}

// `[ 4 (2) 3 ]` holds the positions 0 to 3 and 6 to 8.
impl<const N: usize> fmt::Display for Assembler<N> {
    ghost use Rattle.std.specs.Prelude.{Some};
    ghost use Rattle.base_buffer.specs.Text.{assembler_text};

    ghost output = { λ runs. Some (assembler_text runs) };

    fn fmt<W: fmt::Write>(&self, f: &mut fmt::Formatter<W>) -> fmt::Result {
        write!(f, "[ {}]", Runs(&self.ranges[..self.count]))
    }
}

/// Runs, each after what is missing before it.
#[derive(Clone, Copy)]
struct Runs<'a>(&'a [(usize, usize)]);

impl fmt::Display for Runs<'_> {
    ghost use Rattle.std.specs.Prelude.{Some};
    ghost use Rattle.base_buffer.specs.Text.{runs_text};

    ghost output = { λ runs. Some (runs_text 0 runs.0.now) };

    fn fmt<W: fmt::Write>(&self, f: &mut fmt::Formatter<W>) -> fmt::Result {
        let mut reached = 0;
        for (start, end) in self.0 {
            let hole = Hole(start.saturating_sub(reached));
            write!(f, "{hole}{} ", end.saturating_sub(*start))?;
            reached = *end;
        }
        Ok(())
    }
}

/// How many positions are missing before a run, printed where any are.
#[derive(Clone, Copy)]
struct Hole(usize);

impl fmt::Display for Hole {
    ghost use Rattle.std.specs.Prelude.{Some};
    ghost use Rattle.base_buffer.specs.Text.{hole_text};

    ghost output = { λ hole. Some (hole_text hole.0) };

    fn fmt<W: fmt::Write>(&self, f: &mut fmt::Formatter<W>) -> fmt::Result {
        match self.0 {
            0 => Ok(()),
            size => write!(f, "({size}) "),
        }
    }
}
