//! What a host is to tell of one group.
ghost use Rattle.std.specs.Prelude.{◌≡◌, ◌↔◌, ◌≤◌, ◌^◌, None, IsTrue};
ghost use Rattle.iface_groups.specs.Member.{absent, joined, left_group, queried, heard, due_at, is_due, next_told, after_told, change_told, answer_told, IsForgotten};

use crate::mode::{CompatibilityMode, Told};
use wire_igmp::RecordType;

/// How often a change is told where nothing is lost: the robustness variable (RFC 3376, section 8.1;
/// RFC 3810, section 9.1).
const ROBUSTNESS: u8 = 2;

/// What a host is to tell of one group.
#[derive(Clone, Copy, Debug, PartialEq, Eq)]
pub struct Member {
    /// Whether the host listens to the group.
    listens: bool,
    /// How many times the last change is still to be told.
    changes: u8,
    /// When it is told next.
    change_at: u64,
    /// How long after that once more.
    gap: u32,
    /// When a query is to be answered.
    answer_at: Option<u64>,
    /// Whether the last report of the group came from another host.
    is_others: bool,
}

impl Member {
    /// Of a group that the host doesn't listen to, and of which nothing is to be told.
    pub const ABSENT: Member = Member {
        listens: false,
        changes: 0,
        change_at: 0,
        gap: 0,
        answer_at: None,
        is_others: false,
    };

    /// Whether the host listens to the group.
    pub const fn listens(&self) -> bool
        ensures { result ≡ self.now.listens }
    {
        self.listens
    }

    /// Whether the host doesn't listen to the group and has nothing left to tell of it.
    pub fn is_forgotten(&self) -> bool
        ensures { IsTrue result ↔ IsForgotten self.now }
    {
        !self.listens && self.changes == 0
    }

    /// The host listens to the group from now on. It is told at once, and `gap` later once more.
    pub const fn join(&mut self, now: u64, gap: u32)
        ensures { self.new ≡ joined now gap self.old }
    {
        if !self.listens {
            *self = Member {
                listens: true,
                changes: ROBUSTNESS,
                change_at: now,
                gap,
                answer_at: None,
                is_others: false,
            };
        }
    }

    /// The host no longer listens to the group. That is told at once, and in version 3 `gap` later
    /// once more; in version 2 only where the last report was the host's; in version 1 not at all.
    pub const fn leave(&mut self, mode: CompatibilityMode, now: u64, gap: u32)
        ensures { self.new ≡ left_group mode now gap self.old }
    {
        if self.listens {
            let changes = match mode {
                CompatibilityMode::Igmpv1 => 0,
                CompatibilityMode::Igmpv2 => if self.is_others { 0 } else { 1 },
                CompatibilityMode::Igmpv3 => ROBUSTNESS,
            };
            *self = Member {
                listens: false,
                changes,
                change_at: now,
                gap,
                answer_at: None,
                is_others: false,
            };
        }
    }

    /// A query that counts came: it is answered at `at`, or when an earlier one is.
    pub const fn query(&mut self, at: u64)
        ensures { self.new ≡ queried at self.old }
    {
        if self.listens {
            self.answer_at = Some(match self.answer_at {
                Some(pending) if pending < at => pending,
                _ => at,
            });
        }
    }

    /// Another host's report of version 1 or 2 came: no query is to be answered any more.
    pub const fn hear(&mut self)
        ensures { self.new ≡ heard self.old }
    {
        if self.listens {
            self.answer_at = None;
            self.is_others = true;
        }
    }

    /// A querier of another version took over: no query is to be answered any more.
    pub const fn forget_query(&mut self)
        ensures { self.new ≡ record self.old { answer_at = None } }
    {
        self.answer_at = None;
    }

    /// When something is to be told next.
    pub const fn due_at(&self) -> Option<u64>
        ensures { result ≡ due_at self.now }
    {
        match (self.changes, self.answer_at) {
            (0, answer_at) => answer_at,
            (_, Some(answer_at)) if answer_at < self.change_at => Some(answer_at),
            _ => Some(self.change_at),
        }
    }

    /// Whether a change is to be told now.
    const fn is_change_due(&self, now: u64) -> bool
        ensures { result ≡ is_due now self.now }
    {
        self.changes != 0 && self.change_at <= now
    }

    /// What is to be told now, if anything.
    pub fn next_told(&self, mode: CompatibilityMode, now: u64) -> Option<Told>
        ensures { result ≡ next_told mode now self.now }
    {
        if self.is_change_due(now) {
            return Some(change_told(mode, self.listens));
        }
        match self.answer_at {
            Some(at) if at <= now => Some(answer_told(mode)),
            _ => None,
        }
    }

    /// That was told.
    pub const fn tell(&mut self, now: u64)
        requires { now ≤ 2 ^ 61 }
        ensures { self.new ≡ after_told now self.old }
    {
        if self.is_change_due(now) {
            self.changes -= 1;
            self.change_at = now + self.gap as u64;
        }
        self.answer_at = None;
        self.is_others = false;
    }
}

/// What tells a change: of a group that the host listens to now, or not.
const fn change_told(mode: CompatibilityMode, listens: bool) -> Told
    ensures { result ≡ change_told mode listens }
{
    match (mode, listens) {
        (CompatibilityMode::Igmpv3, true) => Told::Record(RecordType::ChangeToExclude),
        (CompatibilityMode::Igmpv3, false) => Told::Record(RecordType::ChangeToInclude),
        (_, true) => Told::Report,
        (_, false) => Told::Leave,
    }
}

/// What answers a query.
const fn answer_told(mode: CompatibilityMode) -> Told
    ensures { result ≡ answer_told mode }
{
    match mode {
        CompatibilityMode::Igmpv3 => Told::Record(RecordType::ModeIsExclude),
        _ => Told::Report,
    }
}
