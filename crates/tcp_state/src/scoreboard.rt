//! What the remote holds of what was sent past SND.UNA, as its selective acknowledgements say (RFC 2018): the scoreboard of RFC 6675.
ghost use Rattle.std.specs.Prelude.{◌≡◌, ◌-◌, ◌&&◌, nat_lt, min, if◌then◌else◌};
ghost use Rattle.tcp_state.specs.Scoreboard.{is_run, lies_in, meets, hull, lowered, hull_of, apart, without, free_offset, placed};
ghost use Rattle.tcp_state.specs.Scoreboard.{noted, reneges, after_ack, is_empty, sum_of, held, sacked_from, sacked_below, missing};
ghost use Rattle.tcp_state.specs.Scoreboard.{first_missing, gap_end, runs_above, octets_above, is_lost, lost_end, runs_end, no_runs, no_run};

/// Positions after one another, as distances from SND.UNA: the first, and the one after the last. Where
/// they are equal it is none.
#[derive(Clone, Copy, Debug, PartialEq, Eq)]
pub struct Run {
    pub start: u32,
    pub end: u32,
}

/// What the remote holds past SND.UNA, in no order. What doesn't fit isn't noted.
#[derive(Clone, Copy, Debug, PartialEq, Eq)]
pub struct Scoreboard {
    pub runs: [Run; 32],
}

impl Run {
    pub const NONE: Run = Run { start: 0, end: 0 };

    /// Whether it has a position.
    pub fn is_run(&self) -> bool
        ensures { result ≡ is_run self.now }
    {
        self.start < self.end
    }

    /// Whether it lies after this position.
    fn lies_following(&self, offset: u32) -> bool
        ensures { result ≡ (is_run self.now && nat_lt offset self.now.start) }
    {
        self.is_run() && offset < self.start
    }

    fn lies_in(&self, offset: u32) -> bool
        ensures { result ≡ lies_in offset self.now }
    {
        self.start <= offset && offset < self.end
    }

    /// Whether the two have a position in common, or one begins where the other ends.
    fn meets(&self, other: &Run) -> bool
        ensures { result ≡ meets other.now self.now }
    {
        self.is_run() && self.start <= other.end && other.start <= self.end
    }

    /// It, unless the other meets it.
    fn apart(&self, other: &Run) -> Run
        ensures { result ≡ apart other.now self.now }
    {
        if self.meets(other) { Run::NONE } else { *self }
    }

    /// The positions from the first of either to the last of either.
    fn hull(&self, other: &Run) -> Run
        ensures { result ≡ hull self.now other.now }
    {
        Run {
            start: self.start.min(other.start),
            end: self.end.max(other.end),
        }
    }

    /// The hull of a run and this one, if the other meets this one; else the run.
    fn joined(&self, all: &Run, other: &Run) -> Run
        ensures { result ≡ (if meets other.now self.now then hull all.now self.now else all.now) }
    {
        if self.meets(other) {
            all.hull(self)
        } else {
            *all
        }
    }

    /// A count together with the positions of this run below another, as far as 32 bits tell.
    fn counted_below(&self, offset: u32, count: u32) -> u32
        ensures { result ≡ sum_of (min self.now.end offset - min self.now.start offset) count }
    {
        self.end
            .min(offset)
            .saturating_sub(self.start.min(offset))
            .saturating_add(count)
    }

    /// A count together with the positions of this run, if it begins after another.
    fn counted_following(&self, offset: u32, count: u32) -> u32
        ensures { result ≡ (if nat_lt offset self.now.start then sum_of (self.now.end - self.now.start) count else count) }
    {
        if offset < self.start {
            self.end.saturating_sub(self.start).saturating_add(count)
        } else {
            count
        }
    }

    /// The same positions where SND.UNA rose by so much.
    fn lowered(&self, by: u32) -> Run
        ensures { result ≡ lowered by self.now }
    {
        Run {
            start: self.start.saturating_sub(by),
            end: self.end.saturating_sub(by),
        }
    }
}

impl Scoreboard {
    /// Nothing is held.
    pub const EMPTY: Scoreboard = Scoreboard {
        runs: [Run::NONE; 32],
    };

    /// The remote said that it holds this run, too.
    pub fn note(&mut self, run: Run)
        ensures { self.new.runs ≡ noted self.old.runs run }
    {
        let hull = self.hull_of(&run);
        self.take_out(&run);
        self.offset(hull);
    }

    /// A run together with those that it meets.
    fn hull_of(&self, run: &Run) -> Run
        ensures { result ≡ hull_of self.now.runs run.now }
    {
        self.runs
            .iter()
            .fold(*run, |all, other| other.joined(&all, run))
    }

    /// Takes out those that a run meets.
    fn take_out(&mut self, run: &Run)
        ensures { self.new.runs ≡ without self.old.runs run.now }
    {
        for other in self.runs.iter_mut() {
            *other = other.apart(run);
        }
    }

    /// Puts a run where there is none.
    fn offset(&mut self, run: Run)
        ensures { self.new.runs ≡ placed self.old.runs run }
    {
        if let Some(offset) = self.free_offset() {
            self.runs[offset] = run;
        }
    }

    /// Where there is no run.
    fn free_offset(&self) -> Option<usize>
        ensures { result ≡ free_offset self.now.runs }
    {
        self.runs.iter().position(|other| !other.is_run())
    }

    /// Whether there is no run, as where nothing was lost: what looks for runs asks this first. The words are
    /// put together without a branch, so several at a time.
    pub fn is_empty(&self) -> bool
        ensures { result ≡ is_empty self.now.runs }
    {
        self.runs
            .iter()
            .fold(0, |all, run| all | run.start | run.end)
            == 0
    }

    /// SND.UNA rose by so much. A run that then begins there was given up by the remote: then none is
    /// believed any more.
    #[tactic(auto, using(crate::proofs::NothingHeld::none_after_ack))]
    pub fn acknowledge(&mut self, by: u32)
        ensures { self.new.runs ≡ after_ack self.old.runs by }
    {
        if self.is_empty() {
            return;
        }
        if self.reneges(by) {
            *self = Scoreboard::EMPTY;
            return;
        }
        for run in self.runs.iter_mut() {
            *run = run.lowered(by);
        }
    }

    /// Whether the position so far past SND.UNA is held.
    fn reneges(&self, by: u32) -> bool
        ensures { result ≡ reneges self.now.runs by }
    {
        self.runs.iter().any(|run| run.lies_in(by))
    }

    /// How many positions are held.
    pub fn held(&self) -> u32
        ensures { result ≡ held self.now.runs }
    {
        self.sacked_below(u32::MAX)
    }

    /// How many positions below this one are held.
    fn sacked_below(&self, offset: u32) -> u32
        ensures { result ≡ sacked_below self.now.runs offset }
    {
        self.runs
            .iter()
            .fold(0, |count, run| run.counted_below(offset, count))
    }

    /// How many positions from this one on are held.
    pub fn sacked_from(&self, offset: u32) -> u32
        ensures { result ≡ sacked_from self.now.runs offset }
    {
        self.held().saturating_sub(self.sacked_below(offset))
    }

    /// How many positions below this one aren't held.
    #[tactic(auto, using(crate::proofs::NothingHeld::none_missing))]
    pub fn missing(&self, offset: u32) -> u32
        ensures { result ≡ missing self.now.runs offset }
    {
        if self.is_empty() {
            return offset;
        }
        offset.saturating_sub(self.sacked_below(offset))
    }

    /// The first position from this one on that isn't held.
    #[tactic(auto, using(crate::proofs::NothingHeld::first_of_none))]
    pub fn first_missing(&self, offset: u32) -> u32
        ensures { result ≡ first_missing self.now.runs offset }
    {
        if self.is_empty() {
            return offset;
        }
        self.runs.iter().fold(offset, |offset, run| {
            if run.lies_in(offset) { run.end } else { offset }
        })
    }

    /// How far what is held reaches.
    pub fn end(&self) -> u32
        ensures { result ≡ runs_end self.now.runs }
    {
        self.runs.iter().fold(0, |end, run| end.max(run.end))
    }

    /// Where the first run after this position begins, at most this one.
    pub fn gap_end(&self, offset: u32, most: u32) -> u32
        ensures { result ≡ gap_end self.now.runs offset most }
    {
        self.runs.iter().fold(most, |end, run| {
            if run.lies_following(offset) {
                end.min(run.start)
            } else {
                end
            }
        })
    }

    /// How many runs lie after this position.
    fn runs_above(&self, offset: u32) -> u8
        ensures { result ≡ runs_above self.now.runs offset }
    {
        self.runs.iter().fold(0u8, |count, run| {
            if run.lies_following(offset) {
                count.saturating_add(1)
            } else {
                count
            }
        })
    }

    /// How many positions they have.
    fn octets_above(&self, offset: u32) -> u32
        ensures { result ≡ octets_above self.now.runs offset }
    {
        self.runs
            .iter()
            .fold(0, |count, run| run.counted_following(offset, count))
    }

    /// Whether the position is lost (RFC 6675, 4): so many runs after it are held, or more than one
    /// less of segments.
    #[tactic(auto, using(crate::proofs::NothingHeld::none_lost))]
    pub fn is_lost(&self, threshold: u8, mss: u16, offset: u32) -> bool
        ensures { result ≡ is_lost self.now.runs threshold mss offset }
    {
        if self.is_empty() {
            return threshold == 0;
        }
        threshold <= self.runs_above(offset)
            || threshold.saturating_sub(1) as u32 * (mss as u32) < self.octets_above(offset)
    }

    /// Whether what lies right before a run is lost.
    fn is_lost_before(&self, threshold: u8, mss: u16, run: &Run) -> bool
        ensures { result ≡ (is_run run.now && is_lost self.now.runs threshold mss (run.now.start - 1)) }
    {
        run.is_run() && self.is_lost(threshold, mss, run.start.saturating_sub(1))
    }

    /// The position after the last one that is lost.
    pub fn lost_end(&self, threshold: u8, mss: u16) -> u32
        ensures { result ≡ lost_end self.now.runs threshold mss }
    {
        self.runs.iter().fold(0, |end, run| {
            if self.is_lost_before(threshold, mss, run) {
                end.max(run.start)
            } else {
                end
            }
        })
    }
}
