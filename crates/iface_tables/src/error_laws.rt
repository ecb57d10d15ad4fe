//! What follows from how errors are counted.
ghost use Rattle.std.specs.Prelude.{◌≡◌, ℕ, ℤ, ◌+◌, ◌/◌, ◌≤◌, ◌≤ℤ◌, ◌+ℤ◌, pos, List, ◌++◌, ◌∷◌, [], length, replicate, true, false};
ghost use Rattle.std.specs.List.{AllByRecursion};
ghost use Rattle.iface_tables.specs.ErrorLimit.{answered_at, may_answer, all_go, answer_time, burst_time};

/// Law: within any time at most sixteen answers go, and one more for each 125 ms of it: in a second at most 24.
pub fn errors_are_few()
    ensures within { (until from : ℤ) (time : ℕ) (instants : List ℤ)
        → AllByRecursion (λ m. (from ≤ℤ m) × (m ≤ℤ (from +ℤ pos time))) instants
        → all_go until instants ≡ true → length instants ≤ 16 + time / answer_time }
    ensures second { (until from : ℤ) (instants : List ℤ)
        → AllByRecursion (λ m. (from ≤ℤ m) × (m ≤ℤ (from +ℤ pos 1_000_000))) instants
        → all_go until instants ≡ true → length instants ≤ 24 }
{}

/// Law: two seconds after the last answer sixteen go at once, whatever went before, and a seventeenth doesn't.
pub fn quiet_refills()
    ensures sixteen { (until last now : ℤ)
        → may_answer until last ≡ true → (last +ℤ pos burst_time) ≤ℤ now → all_go (answered_at until last) (replicate 16 now) ≡ true }
    ensures seventeen { (until now : ℤ) → all_go until (replicate 17 now) ≡ false }
{}

/// Law: a host that begins at instant 0 may answer sixteen times then, once more 125 ms later, and not before.
pub fn the_first_answers()
    ensures sixteen { all_go (pos 0) (replicate 16 (pos 0)) ≡ true }
    ensures seventeenth { all_go (pos 0) (replicate 17 (pos 0)) ≡ false }
    ensures too_early { all_go (pos 0) (replicate 16 (pos 0) ++ (pos 124_999 ∷ [])) ≡ false }
    ensures then { all_go (pos 0) (replicate 16 (pos 0) ++ (pos 125_000 ∷ [])) ≡ true }
    ensures one_alone { all_go (pos 0) (replicate 16 (pos 0) ++ (pos 125_000 ∷ pos 125_000 ∷ [])) ≡ false }
{}
