//! Instants, in microseconds before or after an instant that the caller chooses.
ghost use Rattle.std.specs.Prelude.{◌≡◌, ℤ, pos, ◌≤ℤ◌, ◌+ℤ◌, ◌-ℤ◌, ◌*ℤ◌, ◌^◌, ◌↔◌, IsTrue, int_div, int_rem, unsigned_abs};
ghost use Rattle.base_time.specs.Text.{signed_seconds_text};
ghost use Rattle.base_time.specs.Time.{IsMoment, FitsInstant};

use crate::duration::Duration;
use crate::text::write_seconds;
use std::fmt;
use std::marker::Model;
use std::ops::{Add, AddAssign, Sub, SubAssign};

/// A point in time, as a signed count of microseconds since a start that the caller chooses.
///
/// A contract sees the count. The stack's own calls take instants alone, which are the instants
/// from 0 to 2^61 microseconds: `is_moment` tells them.
#[derive(Clone, Copy, Debug, PartialEq, Eq, PartialOrd, Ord, Hash, Default)]
pub struct Instant {
    micros: i64,
}

impl Model for Instant {
    ghost Value = { ℤ };

    ghost view = { λ i. i.micros };

    ghost inverse = { λ t. record { micros = t } };
}

const LAST_MOMENT: i64 = 1 << 61;

impl Instant {
    /// The start.
    pub const ZERO: Instant = Instant { micros: 0 };

    /// The instant so many microseconds after the start, or before it if the count is negative.
    pub const fn from_micros(micros: i64) -> Instant
        ensures { result ≡ micros }
    {
        Instant { micros }
    }

    /// `from_micros`, under the name that callers in constants use.
    pub const fn from_micros_const(micros: i64) -> Instant
        ensures { result ≡ micros }
    {
        Instant { micros }
    }

    /// The instant so many milliseconds after the start.
    pub const fn from_millis(millis: i64) -> Instant
        requires { FitsInstant (millis *ℤ pos 1000) }
        ensures { result ≡ millis *ℤ pos 1000 }
    {
        Instant {
            micros: millis * 1000,
        }
    }

    /// `from_millis`, under the name that callers in constants use.
    pub const fn from_millis_const(millis: i64) -> Instant
        requires { FitsInstant (millis *ℤ pos 1000) }
        ensures { result ≡ millis *ℤ pos 1000 }
    {
        Instant {
            micros: millis * 1000,
        }
    }

    /// The instant so many seconds after the start.
    pub const fn from_secs(secs: i64) -> Instant
        requires { FitsInstant (secs *ℤ pos 1_000_000) }
        ensures { result ≡ secs *ℤ pos 1_000_000 }
    {
        Instant {
            micros: secs * 1_000_000,
        }
    }

    /// The microseconds past the last whole second, cut towards zero: negative before the start.
    pub const fn micros(&self) -> i64
        ensures { result ≡ int_rem self.now (pos 1_000_000) }
    {
        self.micros % 1_000_000
    }

    /// The milliseconds past the last whole second, cut towards zero: negative before the start.
    pub const fn millis(&self) -> i64
        ensures { result ≡ int_div (int_rem self.now (pos 1_000_000)) (pos 1000) }
    {
        self.micros % 1_000_000 / 1000
    }

    /// The whole seconds since the start, cut towards zero.
    pub const fn secs(&self) -> i64
        ensures { result ≡ int_div self.now (pos 1_000_000) }
    {
        self.micros / 1_000_000
    }

    /// The whole milliseconds since the start, cut towards zero.
    pub const fn total_millis(&self) -> i64
        ensures { result ≡ int_div self.now (pos 1000) }
    {
        self.micros / 1000
    }

    /// The microseconds since the start.
    pub const fn total_micros(&self) -> i64
        ensures { result ≡ self.now }
    {
        self.micros
    }

    /// Whether the stack takes this instant as an instant: from 0 to 2^61 microseconds.
    pub const fn is_moment(&self) -> bool
        ensures { IsTrue result ↔ (IsMoment self.now) }
    {
        0 <= self.micros && self.micros <= LAST_MOMENT
    }

    /// Whether `self + duration` is an instant.
    pub fn fits_add(&self, duration: Duration) -> bool
        ensures { IsTrue result ↔ (FitsInstant (self.now +ℤ pos duration)) }
    {
        let sum = self.micros as i128 + duration.total_micros() as i128;
        i64::MIN as i128 <= sum && sum <= i64::MAX as i128
    }

    /// Whether `self - duration` is an instant.
    pub fn fits_sub(&self, duration: Duration) -> bool
        ensures { IsTrue result ↔ (FitsInstant (self.now -ℤ pos duration)) }
    {
        let difference = self.micros as i128 - duration.total_micros() as i128;
        i64::MIN as i128 <= difference && difference <= i64::MAX as i128
    }
}

impl fmt::Display for Instant {
    ghost use Rattle.std.specs.Prelude.{Some};

    ghost output = { λ t. Some (signed_seconds_text t) };

    fn fmt<W: fmt::Write>(&self, f: &mut fmt::Formatter<W>) -> fmt::Result {
        if self.micros < 0 {
            f.write_str("-")?;
        }
        write_seconds(f, self.micros.unsigned_abs())
    }
}

impl Add<Duration> for Instant {
    type Output = Instant;

    ghost can_add = { λ t d. FitsInstant (t +ℤ pos d) };

    ghost add_gives = { λ t d sum. sum ≡ t +ℤ pos d };

    fn add(self, rhs: Duration) -> Instant {
        let sum = self.micros as i128 + rhs.total_micros() as i128;
        Instant { micros: sum as i64 }
    }
}

impl AddAssign<Duration> for Instant {
    ghost can_add_assign = { λ t d. FitsInstant (t +ℤ pos d) };

    ghost add_assign_gives = { λ t d sum. sum ≡ t +ℤ pos d };

    fn add_assign(&mut self, rhs: Duration) {
        *self = *self + rhs;
    }
}

impl Sub<Duration> for Instant {
    type Output = Instant;

    ghost can_sub = { λ t d. FitsInstant (t -ℤ pos d) };

    ghost sub_gives = { λ t d difference. difference ≡ t -ℤ pos d };

    fn sub(self, rhs: Duration) -> Instant {
        let difference = self.micros as i128 - rhs.total_micros() as i128;
        Instant {
            micros: difference as i64,
        }
    }
}

impl SubAssign<Duration> for Instant {
    ghost can_sub_assign = { λ t d. FitsInstant (t -ℤ pos d) };

    ghost sub_assign_gives = { λ t d difference. difference ≡ t -ℤ pos d };

    fn sub_assign(&mut self, rhs: Duration) {
        *self = *self - rhs;
    }
}

/// The distance between two instants, whichever is the later.
impl Sub<Instant> for Instant {
    type Output = Duration;

    ghost sub_gives = { λ t u distance. distance ≡ unsigned_abs (t -ℤ u) };

    fn sub(self, rhs: Instant) -> Duration {
        Duration::from_micros(self.micros.abs_diff(rhs.micros))
    }
}
