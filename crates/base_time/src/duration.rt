//! Lengths of time, in microseconds.
ghost use Rattle.std.specs.Prelude.{◌≡◌, ℕ, ◌+◌, ◌-◌, ◌*◌, ◌/◌, ◌%◌, ◌^◌, ◌<◌, ◌≤◌, ◌↔◌, IsTrue};
ghost use Rattle.base_time.specs.Text.{seconds_text};
ghost use Rattle.base_time.specs.Time.{FitsDuration, micros_of_nanos};

use crate::text::write_seconds;
use std::marker::Model;
use std::ops::{
    Add, AddAssign, Div, DivAssign, Mul, MulAssign, Shl, ShlAssign, Shr, ShrAssign, Sub, SubAssign,
};
use std::{fmt, time};

/// A length of time, as a count of microseconds. A contract sees the count.
#[derive(Clone, Copy, Debug, PartialEq, Eq, PartialOrd, Ord, Hash, Default)]
pub struct Duration {
    micros: u64,
}

impl Model for Duration {
    ghost Value = { ℕ };

    ghost view = { λ d. d.micros };

    ghost inverse = { λ n. record { micros = n } };
}

impl Duration {
    /// No time at all.
    pub const ZERO: Duration = Duration { micros: 0 };

    /// The longest duration, 2^64 - 1 microseconds.
    pub const MAX: Duration = Duration { micros: u64::MAX };

    /// A duration of so many microseconds.
    pub const fn from_micros(micros: u64) -> Duration
        ensures { result ≡ micros }
    {
        Duration { micros }
    }

    /// A duration of so many milliseconds.
    pub const fn from_millis(millis: u64) -> Duration
        requires { FitsDuration (millis * 1000) }
        ensures { result ≡ millis * 1000 }
    {
        Duration {
            micros: millis * 1000,
        }
    }

    /// A duration of so many seconds.
    pub const fn from_secs(secs: u64) -> Duration
        requires { FitsDuration (secs * 1_000_000) }
        ensures { result ≡ secs * 1_000_000 }
    {
        Duration {
            micros: secs * 1_000_000,
        }
    }

    /// The microseconds past the last whole second.
    pub const fn micros(&self) -> u64
        ensures { result ≡ self.now % 1_000_000 }
    {
        self.micros % 1_000_000
    }

    /// The whole milliseconds past the last whole second.
    pub const fn millis(&self) -> u64
        ensures { result ≡ self.now % 1_000_000 / 1000 }
    {
        self.micros % 1_000_000 / 1000
    }

    /// The whole seconds.
    pub const fn secs(&self) -> u64
        ensures { result ≡ self.now / 1_000_000 }
    {
        self.micros / 1_000_000
    }

    /// The whole duration in milliseconds, the rest dropped.
    pub const fn total_millis(&self) -> u64
        ensures { result ≡ self.now / 1000 }
    {
        self.micros / 1000
    }

    /// The whole duration in microseconds.
    pub const fn total_micros(&self) -> u64
        ensures { result ≡ self.now }
    {
        self.micros
    }

    /// Whether `self + duration` is a duration.
    pub fn fits_add(&self, duration: Duration) -> bool
        ensures { IsTrue result ↔ (FitsDuration (self.now + duration)) }
    {
        self.micros.checked_add(duration.micros).is_some()
    }

    /// Whether `self - duration` is a duration: whether `duration` is the shorter or as long.
    pub fn fits_sub(&self, duration: Duration) -> bool
        ensures { IsTrue result ↔ (duration ≤ self.now) }
    {
        duration.micros <= self.micros
    }

    /// Whether `self * factor` is a duration.
    pub fn fits_mul(&self, factor: u32) -> bool
        ensures { IsTrue result ↔ (FitsDuration (self.now * factor)) }
    {
        self.micros.checked_mul(factor as u64).is_some()
    }
}

impl fmt::Display for Duration {
    ghost use Rattle.std.specs.Prelude.{Some};

    ghost output = { λ d. Some (seconds_text d) };

    fn fmt<W: fmt::Write>(&self, f: &mut fmt::Formatter<W>) -> fmt::Result {
        write_seconds(f, self.micros)
    }
}

impl Add<Duration> for Duration {
    type Output = Duration;

    ghost can_add = { λ d e. FitsDuration (d + e) };

    ghost add_gives = { λ d e sum. sum ≡ d + e };

    fn add(self, rhs: Duration) -> Duration {
        Duration {
            micros: self.micros + rhs.micros,
        }
    }
}

impl AddAssign<Duration> for Duration {
    ghost can_add_assign = { λ d e. FitsDuration (d + e) };

    ghost add_assign_gives = { λ d e sum. sum ≡ d + e };

    fn add_assign(&mut self, rhs: Duration) {
        self.micros += rhs.micros;
    }
}

impl Sub<Duration> for Duration {
    type Output = Duration;

    ghost can_sub = { λ d e. e ≤ d };

    ghost sub_gives = { λ d e difference. difference ≡ d - e };

    fn sub(self, rhs: Duration) -> Duration {
        Duration {
            micros: self.micros - rhs.micros,
        }
    }
}

impl SubAssign<Duration> for Duration {
    ghost can_sub_assign = { λ d e. e ≤ d };

    ghost sub_assign_gives = { λ d e difference. difference ≡ d - e };

    fn sub_assign(&mut self, rhs: Duration) {
        self.micros -= rhs.micros;
    }
}

impl Mul<u32> for Duration {
    type Output = Duration;

    ghost can_mul = { λ d k. FitsDuration (d * k) };

    ghost mul_gives = { λ d k product. product ≡ d * k };

    fn mul(self, rhs: u32) -> Duration {
        Duration {
            micros: self.micros * rhs as u64,
        }
    }
}

impl MulAssign<u32> for Duration {
    ghost can_mul_assign = { λ d k. FitsDuration (d * k) };

    ghost mul_assign_gives = { λ d k product. product ≡ d * k };

    fn mul_assign(&mut self, rhs: u32) {
        self.micros *= rhs as u64;
    }
}

impl Div<u32> for Duration {
    type Output = Duration;

    ghost can_div = { λ _ k. 0 < k };

    ghost div_gives = { λ d k quotient. quotient ≡ d / k };

    fn div(self, rhs: u32) -> Duration {
        Duration {
            micros: self.micros / rhs as u64,
        }
    }
}

impl DivAssign<u32> for Duration {
    ghost can_div_assign = { λ _ k. 0 < k };

    ghost div_assign_gives = { λ d k quotient. quotient ≡ d / k };

    fn div_assign(&mut self, rhs: u32) {
        self.micros /= rhs as u64;
    }
}

/// The count times a power of two, of which the low 64 bits are kept: by 64 offsets or more nothing
/// is left.
impl Shl<u32> for Duration {
    type Output = Duration;

    ghost shl_gives = { λ d k shifted. shifted ≡ d * 2 ^ k % 2 ^ 64 };

    #[tactic(auto, using(crate::proofs::Shifts::shifted_out))]
    fn shl(self, rhs: u32) -> Duration {
        if rhs < u64::BITS {
            Duration {
                micros: self.micros << rhs,
            }
        } else {
            Duration::ZERO
        }
    }
}

impl ShlAssign<u32> for Duration {
    ghost shl_assign_gives = { λ d k shifted. shifted ≡ d * 2 ^ k % 2 ^ 64 };

    fn shl_assign(&mut self, rhs: u32) {
        *self = *self << rhs;
    }
}

/// The count divided by a power of two, the rest dropped: by 64 offsets or more nothing is left.
impl Shr<u32> for Duration {
    type Output = Duration;

    ghost shr_gives = { λ d k shifted. shifted ≡ d / 2 ^ k };

    #[tactic(auto, using(crate::proofs::Shifts::shifted_away))]
    fn shr(self, rhs: u32) -> Duration {
        if rhs < u64::BITS {
            Duration {
                micros: self.micros >> rhs,
            }
        } else {
            Duration::ZERO
        }
    }
}

impl ShrAssign<u32> for Duration {
    ghost shr_assign_gives = { λ d k shifted. shifted ≡ d / 2 ^ k };

    fn shr_assign(&mut self, rhs: u32) {
        *self = *self >> rhs;
    }
}

/// What is less than a microsecond is dropped, and what is longer than `Duration::MAX` becomes it.
impl From<time::Duration> for Duration {
    ghost use Rattle.std.specs.Duration.{as_nanos};

    ghost from_gives = { λ other d. d ≡ micros_of_nanos (as_nanos other) };

    fn from(other: time::Duration) -> Duration {
        let micros = other.as_micros().min(u64::MAX as u128);
        Duration {
            micros: micros as u64,
        }
    }
}

impl From<Duration> for time::Duration {
    ghost use Rattle.std.specs.Duration.{as_nanos};

    ghost from_gives = { λ d other. as_nanos other ≡ d * 1000 };

    fn from(duration: Duration) -> time::Duration {
        time::Duration::from_micros(duration.micros)
    }
}
