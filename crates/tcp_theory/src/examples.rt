//! Runs on numerals, which the check computes.

ghost use Rattle.std.specs.Prelude.{ℕ, List, [], ◌∷◌, true, ◌≡◌};
ghost use Rattle.tcp_theory.specs.Side.{taken_in, freed};
ghost use Rattle.tcp_theory.specs.Side.Phase.{SynReceived, Synchronized, Ended};
ghost use Rattle.tcp_theory.specs.Examples.{LeadsTo, passive_first, active_first, out_of_order, keep_alive, zero_window, close_both_ways, simultaneous_open};
ghost use Rattle.tcp_theory.specs.Examples.{fallback, old_answer, wrap};

/// Both orders of opening, both sides at once, and a listener that falls back and takes the old SYN again.
pub fn connections_open()
    ensures passive_first { LeadsTo passive_first (λ w. (w.a.phase ≡ Synchronized) × (w.b.phase ≡ Synchronized)) }
    ensures active_first { LeadsTo active_first (λ w. (w.a.phase ≡ Synchronized) × (w.b.phase ≡ Synchronized)) }
    ensures simultaneous_open { LeadsTo simultaneous_open (λ w. (w.a.phase ≡ Synchronized) × (w.b.phase ≡ Synchronized)) }
    ensures fallback { LeadsTo fallback (λ w. (w.b.phase ≡ Synchronized) × (taken_in w.a ≡ 1 ∷ 2 ∷ [])) }
    ensures old_answer { LeadsTo old_answer (λ w. (w.a.phase ≡ Ended) × (w.b.phase ≡ SynReceived) × (freed w.a ≡ 0)) }
{}

/// Bytes out of order and twice, a keep-alive, numbers that wrap, and a close both ways.
pub fn bytes_arrive()
    ensures out_of_order { LeadsTo out_of_order (λ w. (w.b.read ≡ 1 ∷ 2 ∷ []) × (w.b.waiting ≡ 3 ∷ 4 ∷ 5 ∷ []) × (freed w.a ≡ 5)) }
    ensures keep_alive { LeadsTo keep_alive (λ w. taken_in w.b ≡ 1 ∷ []) }
    ensures zero_window { LeadsTo zero_window (λ w. (w.b.waiting ≡ 4 ∷ 5 ∷ 6 ∷ 7 ∷ 8 ∷ 9 ∷ []) × (freed w.a ≡ 8)) }
    ensures wrap { LeadsTo wrap (λ w. (taken_in w.b ≡ 1 ∷ 2 ∷ 3 ∷ []) × (w.b.took_fin ≡ true) × (freed w.a ≡ 3)) }
    ensures close_both_ways { LeadsTo close_both_ways (λ w. (w.b.read ≡ 7 ∷ []) × (w.a.waiting ≡ 8 ∷ []) × (w.a.took_fin ≡ true) × (w.b.took_fin ≡ true)) }
{}
