//! How many frames go in an interval.
ghost use Rattle.std.specs.Prelude.{◌≡◌};
ghost use Rattle.base_wrappers.specs.Bucket.{end_of, is_over, lets, lets_at, spent, refilled, unbegun};

use base_time::{Duration, Instant};
use std::marker::Model;

/// How many frames may go in an interval, which begins with the first frame in it.
#[derive(Debug, Drop)]
pub(crate) struct Bucket {
    begun: Option<Instant>,
    left: u64,
}

impl Model for Bucket {
    ghost use Rattle.base_wrappers.specs.Bucket.{Level};

    ghost Value = { Level };

    ghost view = { λ b. record { begun = b.begun; left = b.left } };
}

/// Whether an interval is over, or none was begun.
fn is_over(begun: Option<Instant>, interval: Duration, now: Instant) -> bool
    ensures { result ≡ is_over interval begun now }
{
    let Some(begun) = begun else {
        return true;
    };
    i128::from(begun.total_micros()) + i128::from(interval.total_micros())
        <= i128::from(now.total_micros())
}

/// The end of the interval that runs, if an instant can hold it.
fn end_of(begun: Option<Instant>, interval: Duration) -> Option<Instant>
    ensures { result ≡ end_of interval begun }
{
    let begun = begun?;
    if begun.fits_add(interval) {
        Some(begun + interval)
    } else {
        None
    }
}

impl Bucket {
    /// One whose first frame begins an interval.
    pub(crate) const fn new() -> Bucket
        ensures { result ≡ unbegun }
    {
        Bucket {
            begun: None,
            left: 0,
        }
    }

    /// Begins a new interval, where the last one is over.
    fn refill(&mut self, rate: u64, interval: Duration, now: Instant)
        ensures { self.new ≡ refilled rate interval now self.old }
    {
        if is_over(self.begun, interval, now) {
            self.begun = Some(now);
            self.left = rate;
        }
    }

    /// Whether one more frame may go, which then counts. A rate of 0 stands for no limit.
    pub(crate) fn take(&mut self, rate: u64, interval: Duration, now: Instant) -> bool
        ensures lets { result ≡ lets rate interval now self.old }
        ensures spent { self.new ≡ spent rate interval now self.old }
    {
        if rate == 0 {
            return true;
        }
        self.refill(rate, interval, now);
        if self.left == 0 {
            return false;
        }
        self.left -= 1;
        true
    }

    /// Whether one more frame may go.
    pub(crate) fn lets(&self, rate: u64, interval: Duration, now: Instant) -> bool
        ensures { result ≡ lets rate interval now self.now }
    {
        rate == 0 || self.left > 0 || is_over(self.begun, interval, now)
    }

    /// When a frame may go again, where none may go before.
    pub(crate) fn lets_at(&self, rate: u64, interval: Duration) -> Option<Instant>
        ensures { result ≡ lets_at rate interval self.now }
    {
        if rate == 0 || self.left > 0 {
            return None;
        }
        end_of(self.begun, interval)
    }
}
