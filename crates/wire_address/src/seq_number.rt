//! TCP sequence numbers.
ghost use Rattle.std.specs.Prelude.{◌≡◌, ◌≢◌, ◌↔◌, ℕ, ◌≤◌, ◌<◌, ◌^◌, ◌⊎◌, IsTrue, Some, decimal};
ghost use Rattle.wire_address.specs.Seq.{distance_of, advanced, receded, ComesBefore};

use std::fmt;
use std::ops::{Add, AddAssign, Sub};

/// A TCP sequence number. The numbers go round: the one above `0xffff_ffff` is 0, and a number is
/// before those up to half the circle ahead of it.
#[derive(Clone, Copy, Debug, Default, PartialEq, Eq, Hash)]
pub struct SeqNumber(pub u32);

impl SeqNumber {
    /// Whether `other` is ahead by at most half the circle. Two numbers that are half the circle
    /// apart come before each other.
    pub fn comes_before(self, other: SeqNumber) -> bool
        ensures { IsTrue result ↔ ComesBefore self other }
    {
        let distance = self.distance(other);
        0 < distance && distance <= 1 << 31
    }

    /// How far it is from this number up to `other`, modulo 2^32.
    pub fn distance(self, other: SeqNumber) -> u32
        ensures { result ≡ distance_of self other }
    {
        other.0.wrapping_sub(self.0)
    }

    /// The other number if this one comes before it, else this one.
    pub fn max(self, other: SeqNumber) -> SeqNumber
        ensures other { ComesBefore self other → result ≡ other }
        ensures own { ¬ (ComesBefore self other) → result ≡ self }
    {
        if self.comes_before(other) {
            other
        } else {
            self
        }
    }

    /// This number if it comes before the other one, else that.
    pub fn min(self, other: SeqNumber) -> SeqNumber
        ensures own { ComesBefore self other → result ≡ self }
        ensures other { ¬ (ComesBefore self other) → result ≡ other }
    {
        if self.comes_before(other) {
            self
        } else {
            other
        }
    }
}

/// The number in decimal digits.
impl fmt::Display for SeqNumber {
    ghost output = { λ n. Some (decimal n.0) };

    fn fmt<W: fmt::Write>(&self, f: &mut fmt::Formatter<W>) -> fmt::Result {
        write!(f, "{}", self.0)
    }
}

/// The number so many ahead, fewer than half the circle.
impl Add<usize> for SeqNumber {
    type Output = SeqNumber;

    ghost can_add = { λ _ n. n < 2 ^ 31 };

    ghost add_gives = { λ a n sum. sum.0 ≡ advanced a n };

    fn add(self, rhs: usize) -> SeqNumber {
        SeqNumber(self.0.wrapping_add(rhs as u32))
    }
}

impl AddAssign<usize> for SeqNumber {
    ghost can_add_assign = { λ _ n. n < 2 ^ 31 };

    ghost add_assign_gives = { λ a n sum. sum.0 ≡ advanced a n };

    fn add_assign(&mut self, rhs: usize) {
        *self = *self + rhs;
    }
}

/// The number so many after, fewer than half the circle.
impl Sub<usize> for SeqNumber {
    type Output = SeqNumber;

    ghost can_sub = { λ _ n. n < 2 ^ 31 };

    ghost sub_gives = { λ a n difference. difference.0 ≡ receded a n };

    fn sub(self, rhs: usize) -> SeqNumber {
        SeqNumber(self.0.wrapping_sub(rhs as u32))
    }
}

/// How far this number is ahead of one that it is or that comes before it.
impl Sub for SeqNumber {
    type Output = usize;

    ghost can_sub = { λ a b. (a ≡ b) ⊎ ComesBefore b a };

    ghost sub_gives = { λ a b n. n ≡ distance_of b a };

    fn sub(self, rhs: SeqNumber) -> usize {
        rhs.distance(self) as usize
    }
}

/// Law: a number so many ahead is at that distance and comes after, and two numbers half the
/// circle apart come before each other.
pub fn sum_comes_after()
    ensures distance { (a sum : SeqNumber) (n : ℕ) → a.0 < 2 ^ 32 → n < 2 ^ 31 → sum.0 ≡ advanced a n → distance_of a sum ≡ n }
    ensures order { (a sum : SeqNumber) (n : ℕ) → a.0 < 2 ^ 32 → 0 < n → n < 2 ^ 31 → sum.0 ≡ advanced a n → ComesBefore a sum }
    ensures opposite { (a b : SeqNumber) → a.0 < 2 ^ 32 → b.0 < 2 ^ 32 → distance_of a b ≡ 2 ^ 31 → ComesBefore a b × ComesBefore b a }
{}
