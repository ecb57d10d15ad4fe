//! Congestion window validation.

ghost use Rattle.std.specs.Prelude.{◌≡◌, ◌<◌, ◌≤◌, ◌+◌, ◌*◌, ◌/◌, ◌^◌, ◌==◌, ℕ, ℤ, pos, ◌+ℤ◌, ◌<ℤ◌, ◌≤ℤ◌, min, max, true, false, Some, None};
ghost use Rattle.tcp_state.specs.Reno as reno;
ghost use Rattle.tcp_state.specs.Reno.{RenoValue, first_window, lapsed};
ghost use Rattle.tcp_state.specs.declared.offer.OfferKind.TheVariants as Kind;
ghost use Rattle.tcp_state.specs.declared.offer.OpenOffer.{OpenOffer};
ghost use Rattle.tcp_block.specs.Acknowledged.{una_moved};
ghost use Rattle.tcp_block.specs.Settled.{end_of, settled};
ghost use Rattle.tcp_block.specs.Validation.{periods, data_sent};
ghost use Rattle.tcp_block.specs.Value.{TcpValue};
ghost use Rattle.tcp_block.specs.declared.tcb.Tcb.{Tcb};
ghost use Rattle.tcp_invariants.specs.Validation.{IsNewPayload, IsPast, IsWithin, idled, used};

/// Where less than half of the congestion window was in flight when payload last went, an acknowledgement outside of fast recovery leaves
/// the window as it is; where half of it was or more, it says that the window is used.
pub fn a_window_that_is_not_used_does_not_grow()
    ensures stays { (b : Tcb) (by queued : ℕ) (now : ℤ) → b.sender.syn_unacked ≡ false → b.reno.recovers ≡ false
        → 2 * b.validation.flight < b.reno.cwnd → (una_moved b by queued now).reno.cwnd ≡ b.reno.cwnd }
    ensures counts { (b : Tcb) (by queued : ℕ) (now : ℤ) → 1 ≤ by → b.reno.cwnd ≤ 2 * b.validation.flight
        → (una_moved b by queued now).validation.since ≡ Some now }
    ensures flight { (v : TcpValue) (o : OpenOffer) → v.offered ≡ Some o → o.kind ≡ Kind.Payload
        → (settled true v).tcb.validation.flight ≡ (settled true v).tcb.sender.flight_size }
{}

/// Where new payload goes and the window wasn't used for so many periods of five minutes, each of them halved it, to no less than the first
/// window of a connection; so after an hour the first window is left, unless the window was 4096 times as large, or less than it. The
/// window is never less than it was and than the first one. Where it was used within five minutes, nothing changes.
pub fn a_window_that_is_not_used_lapses()
    ensures halves { (v : TcpValue) (o : OpenOffer) (n : ℕ) → IsNewPayload v o → n ≤ 31 → IsPast v.tcb.validation.since n o.instant
        → (settled true v).tcb.reno.cwnd ≤ max (v.tcb.reno.cwnd / 2 ^ n) (first_window v.tcb.reno.mss) }
    ensures hour { (v : TcpValue) (o : OpenOffer) → IsNewPayload v o → IsPast v.tcb.validation.since 12 o.instant
        → v.tcb.reno.cwnd ≤ 4096 * first_window v.tcb.reno.mss → (settled true v).tcb.reno.cwnd ≤ first_window v.tcb.reno.mss }
    ensures least { (v : TcpValue) (o : OpenOffer) → IsNewPayload v o
        → min v.tcb.reno.cwnd (first_window v.tcb.reno.mss) ≤ (settled true v).tcb.reno.cwnd }
    ensures most { (v : TcpValue) (o : OpenOffer) → IsNewPayload v o → (settled true v).tcb.reno.cwnd ≤ v.tcb.reno.cwnd }
    ensures keeps { (v : TcpValue) (o : OpenOffer) → IsNewPayload v o → IsWithin v.tcb.validation.since o.instant
        → (settled true v).tcb.reno ≡ v.tcb.reno }
{}

/// Periods count one by one: so many of them, and then one, are as many and one.
pub fn periods_count_one_by_one()
    ensures none { (r : RenoValue) → lapsed r 0 ≡ r }
    ensures one { (r : RenoValue) (n : ℕ) → lapsed (lapsed r n) 1 ≡ lapsed r (n + 1) }
{}

/// Runs on numerals: when a period ends; what some of them leave of a hundred segments, of which half were the threshold, and of one
/// segment; and a window of which a segment is used, and one of which half is.
pub fn windows_in_time()
    ensures before { periods (Some (pos 7)) (pos 300_000_006) ≡ 0 }
    ensures first { periods (Some (pos 7)) (pos 300_000_007) ≡ 1 }
    ensures hour { periods (Some (pos 0)) (pos 3_600_000_000) ≡ 12 }
    ensures years { periods (Some (pos 0)) (pos 315_360_000_000_000) ≡ 31 }
    ensures unset { periods None (pos 300_000_000) ≡ 0 }
    ensures half { lapsed idled 1 ≡ record idled { cwnd = 73_000; ssthresh = 109_500 } }
    ensures eighth { lapsed idled 3 ≡ record idled { cwnd = 18_250; ssthresh = 109_500 } }
    ensures fourth { lapsed idled 4 ≡ record idled { cwnd = 14_600; ssthresh = 109_500 } }
    ensures one_segment { lapsed (record idled { cwnd = 1460 }) 12 ≡ record idled { cwnd = 1460 } }
    ensures new_payload { (data_sent (used 1460) 0 (pos 300_000_000)).reno ≡ record idled { cwnd = 73_000; ssthresh = 109_500 } }
    ensures instant { (data_sent (used 1460) 0 (pos 300_000_000)).validation ≡ record { flight = 1460; since = Some (pos 300_000_000) } }
    ensures again { (data_sent (used 1460) 1460 (pos 300_000_000)).reno ≡ idled }
    ensures a_segment { (una_moved (used 1460) 1460 1460 (pos 9)).reno ≡ idled }
    ensures half_used { (una_moved (used 73_000) 1460 1460 (pos 9)).reno ≡ record idled { cwnd = 146_014 } }
{}
