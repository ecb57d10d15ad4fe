//! Laws of the congestion window that no run ends in: while duplicates come, where a timer ran out, and where an equation gives nothing.
ghost use Rattle.std.specs.Prelude.{◌≡◌, ◌≤◌, ◌*◌, ◌+◌, ℕ, pos, min, true, false, Some, None};
ghost use Rattle.tcp_state.specs.Cubic.{CubicValue};
ghost use Rattle.tcp_state.specs.Reno.{RenoValue, acknowledged, avoidance, hundred_segments, inflated, initial, lost, most, timed_out};
ghost use Rattle.proof_stack.specs.Duplicates.{inflated_by};

/// Law: each further duplicate acknowledgement in fast recovery widens the window by a segment (RFC 5681, 3.2, step 4), up to the largest
/// window, and leaves the threshold.
#[tactic(auto, using(crate::proofs::Duplicates::widened, crate::proofs::Duplicates::kept))]
pub fn each_further_duplicate_widens_the_window()
    ensures one { inflated (lost (record initial { cwnd = 32_768 }) 16_384) ≡ record initial { cwnd = 12_288; ssthresh = 8192; recovers = true } }
    ensures many { (r : RenoValue) (n : ℕ) → r.cwnd ≤ most
        → (inflated_by (record r { recovers = true }) n).cwnd ≡ min most (r.cwnd + n * r.mss) }
    ensures threshold { (r : RenoValue) (n : ℕ) → (inflated_by (record r { recovers = true }) n).ssthresh ≡ r.ssthresh }
{}

/// Law: after a timeout CUBIC forgets W_max, and the stage that follows begins with the window that it finds as W_max, and K is 0 (RFC 9438, 4.8).
#[tactic(auto, unfolding(tcp_state::specs::Cubic::cube_root))]
pub fn a_stage_behind_a_timeout_has_its_own_w_max()
    ensures timeout { timed_out hundred_segments 146_000 ≡ record hundred_segments {
      cwnd = 1460;
      ssthresh = 102_200;
      timed_out = true;
      cubic = Some (record { w_max = 0; cwnd_prior = 146_000; epoch = None });
    } }
    ensures stage { (acknowledged (record (timed_out hundred_segments 146_000) { cwnd = 102_200 }) 1460 (pos 0) 100).cubic
        ≡ Some (record { w_max = 102_200; cwnd_prior = 146_000; epoch = Some (record { since = pos 0; k = 0; w_est = 102_211 }) }) }
{}

/// Law: in congestion avoidance an acknowledgement widens the window by a byte at least, where equation 3 gives none (RFC 5681, 3.1).
pub fn avoidance_adds_a_byte_at_least()
    ensures one_byte { avoidance 1460 146_000 1 ≡ 1 }
    ensures hundred_bytes { avoidance 1460 146_000 100 ≡ 1 }
    ensures segment { avoidance 1460 146_000 1460 ≡ 14 }
{}
