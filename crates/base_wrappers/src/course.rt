//! Chance, and what it did.
ghost use Rattle.std.specs.Prelude.{◌≡◌};
ghost use Rattle.base_wrappers.specs.Course.{begun_at, drawn, hits, next_word, rx_counted, tx_counted};

use base_time::Rand;
use std::marker::Model;

/// A generator, and how many frames were spoilt by what it drew.
#[derive(Debug, Drop)]
pub(crate) struct Course {
    rand: Rand,
    rx: u64,
    tx: u64,
}

impl Model for Course {
    ghost use Rattle.base_wrappers.specs.Course.{CourseValue};

    ghost Value = { CourseValue };

    ghost view = { λ c. record { draws = c.rand; rx = c.rx; tx = c.tx } };
}

impl Course {
    /// The course of this seed, before its first draw.
    pub(crate) fn new(seed: u64) -> Course
        ensures { result ≡ begun_at seed }
    {
        Course {
            rand: Rand::new(seed),
            rx: 0,
            tx: 0,
        }
    }

    /// Draws whether something happens, by a chance in percent.
    pub(crate) fn hits(&mut self, chance: u8) -> bool
        ensures hits { result ≡ hits chance self.old }
        ensures drawn { self.new ≡ drawn self.old }
    {
        self.rand.rand_u32() % 100 < u32::from(chance)
    }

    /// Draws a word.
    pub(crate) fn word(&mut self) -> u32
        ensures word { result ≡ next_word self.old }
        ensures drawn { self.new ≡ drawn self.old }
    {
        self.rand.rand_u32()
    }

    /// Counts a frame that came and was spoilt.
    pub(crate) fn count_rx(&mut self)
        ensures { self.new ≡ rx_counted self.old }
    {
        self.rx = self.rx.saturating_add(1);
    }

    /// Counts a frame that was sent and spoilt.
    pub(crate) fn count_tx(&mut self)
        ensures { self.new ≡ tx_counted self.old }
    {
        self.tx = self.tx.saturating_add(1);
    }

    /// How many frames that came were spoilt.
    pub(crate) fn rx(&self) -> u64
        ensures { result ≡ self.now.rx }
    {
        self.rx
    }

    /// How many frames that were sent were spoilt.
    pub(crate) fn tx(&self) -> u64
        ensures { result ≡ self.now.tx }
    {
        self.tx
    }
}
