//! What the comparisons, constants and defaults of instants and durations mean.
ghost use Rattle.std.specs.Prelude.{◌≡◌, ◌↔◌, ℕ, ℤ, pos, IsTrue};
ghost use Rattle.std.specs.Cmp.{IsTotalOrder};
ghost use Rattle.std.specs.Hash as fed;
ghost use Rattle.std.specs.Ordering.{nat_cmp, int_cmp};
ghost use Rattle.std.specs.declared.cmp.Ordering.TheVariants.{Equal};
ghost use Rattle.base_time.specs.Time.{longest};

use crate::duration::Duration;
use crate::instant::Instant;
use std::cmp::Ordering;
use std::hash::Hash;

/// Instants are ordered as their counts are.
pub fn orders_instants(a: Instant, b: Instant) -> Ordering
    ensures { result ≡ int_cmp a b }
{
    a.cmp(&b)
}

/// Instants are equal where their counts are.
pub fn equates_instants(a: Instant, b: Instant) -> bool
    ensures { IsTrue result ↔ (a ≡ b) }
{
    a == b
}

/// Durations are ordered as their counts are.
pub fn orders_durations(a: Duration, b: Duration) -> Ordering
    ensures { result ≡ nat_cmp a b }
{
    a.cmp(&b)
}

/// Durations are equal where their counts are.
pub fn equates_durations(a: Duration, b: Duration) -> bool
    ensures { IsTrue result ↔ (a ≡ b) }
{
    a == b
}

/// The order of instants is total, and two are equal exactly where neither comes first. Their hash is fed the count, so equal
/// ones hash alike.
pub fn instants_are_ordered()
    ensures total { IsTotalOrder ⟦<Instant as Ord>⟧.cmp }
    ensures equal { (a b : ℤ) → IsTrue (⟦<Instant as PartialEq>⟧.eq a b) ↔ (⟦<Instant as Ord>⟧.cmp a b ≡ Equal) }
    ensures hashed { (a : ℤ) → ⟦<Instant as Hash>⟧.hash_input a ≡ fed.i64 a }
    ensures alike { (a b : ℤ) → IsTrue (⟦<Instant as PartialEq>⟧.eq a b)
        → ⟦<Instant as Hash>⟧.hash_input a ≡ ⟦<Instant as Hash>⟧.hash_input b }
{}

/// The order of durations is total, and two are equal exactly where neither comes first. Their hash is fed the count, so
/// equal ones hash alike.
pub fn durations_are_ordered()
    ensures total { IsTotalOrder ⟦<Duration as Ord>⟧.cmp }
    ensures equal { (a b : ℕ) → IsTrue (⟦<Duration as PartialEq>⟧.eq a b) ↔ (⟦<Duration as Ord>⟧.cmp a b ≡ Equal) }
    ensures hashed { (a : ℕ) → ⟦<Duration as Hash>⟧.hash_input a ≡ fed.u64 a }
    ensures alike { (a b : ℕ) → IsTrue (⟦<Duration as PartialEq>⟧.eq a b)
        → ⟦<Duration as Hash>⟧.hash_input a ≡ ⟦<Duration as Hash>⟧.hash_input b }
{}

/// The constants are the start, no time, and the longest duration.
pub fn constants() -> (Instant, Duration, Duration)
    ensures start { result.0 ≡ pos 0 }
    ensures no_time { result.1 ≡ 0 }
    ensures longest { result.2 ≡ longest }
{
    (Instant::ZERO, Duration::ZERO, Duration::MAX)
}

/// By default an instant is the start, and a duration no time.
pub fn defaults_are_zero()
    ensures instants { (t : ℤ) → ⟦<Instant as Default>⟧.is_default t → t ≡ pos 0 }
    ensures durations { (d : ℕ) → ⟦<Duration as Default>⟧.is_default d → d ≡ 0 }
{}
