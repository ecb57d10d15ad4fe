//! Runs on numerals, which the check computes.

ghost use Rattle.std.specs.Prelude.{◌≡◌, pos, true, [], ◌∷◌, Some, None, is_some};
ghost use Rattle.tcp_state.specs.PollAt.TheVariants as At;
ghost use Rattle.tcp_state.specs.declared.offer.OfferKind.TheVariants as Kind;
ghost use Rattle.tcp_state.specs.declared.state.State.TheVariants as In;
ghost use Rattle.tcp_block.specs.Due.{poll_of};
ghost use Rattle.tcp_block.specs.Examples.{caller_a, sends};
ghost use Rattle.tcp_block.specs.Runs.{handshake, syns_crossed, crossed, early, three_early, repaired, kind_at, ranges_in, filled, blocked, waits_to_probe};
ghost use Rattle.tcp_block.specs.Runs.{probe_arrives, probed, relieved, closed};

/// The three segments of a handshake, and two sockets that connect to each other at once.
pub fn connections_open()
    ensures caller { handshake.one.tcb.state ≡ In.Established }
    ensures listener { handshake.other.tcb.state ≡ In.Established }
    ensures crossed_syns { syns_crossed.one.tcb.state ≡ In.SynReceived }
    ensures crossed_one { crossed.one.tcb.state ≡ In.Established }
    ensures crossed_other { crossed.other.tcb.state ≡ In.Established }
{}

/// Payload that comes early is held, and its range told; the third duplicate makes the lost payload are retransmitted.
pub fn lost_payload_is_repaired()
    ensures held { early.socket.received.waiting ≡ [] }
    ensures told { ranges_in early.answer ≡ Some (103, 104) ∷ None ∷ None ∷ [] }
    ensures third { three_early.one.tcb.sender.resend ≡ true }
    ensures again { kind_at (pos 0) three_early.one ≡ Some Kind.FastRetransmission }
    ensures taken { repaired.other.received.waiting ≡ 1 ∷ 2 ∷ 3 ∷ 4 ∷ 5 ∷ [] }
{}

/// A first SYN is retransmitted after one second, and then after two.
pub fn syns_back_off()
    ensures first { poll_of 1500 (sends (pos 0) caller_a) ≡ At.Time (pos 1_000_000) }
    ensures second { poll_of 1500 (sends (pos 1_000_000) (sends (pos 0) caller_a)) ≡ At.Time (pos 3_000_000) }
{}

/// Eight bytes fill a receive buffer, whose user reads nothing. The ninth waits for a second, the timeout, and goes as a probe; the next
/// one would go two seconds later. The probe is answered and not taken. When the buffer is read, the byte goes at once.
pub fn a_closed_window_is_probed()
    ensures shut { filled.other.received.map ≡ [] }
    ensures told { blocked.one.tcb.peer.window ≡ 0 }
    ensures unset { poll_of 1500 blocked.one ≡ At.Now }
    ensures silent { kind_at (pos 10_000) blocked.one ≡ None }
    ensures due { poll_of 1500 waits_to_probe ≡ At.Time (pos 1_010_000) }
    ensures early { kind_at (pos 1_009_999) waits_to_probe ≡ None }
    ensures probe { kind_at (pos 1_010_000) waits_to_probe ≡ Some Kind.Probe }
    ensures answered { is_some probe_arrives.answer ≡ true }
    ensures kept { probed.other.received.waiting ≡ 1 ∷ 2 ∷ 3 ∷ 4 ∷ 5 ∷ 6 ∷ 7 ∷ 8 ∷ [] }
    ensures again { poll_of 1500 probed.one ≡ At.Time (pos 3_010_000) }
    ensures opened { relieved.other.received.waiting ≡ 9 ∷ [] }
{}

/// The side that closed first waits for ten seconds in TIME-WAIT, and then forgets its endpoints.
pub fn time_wait_ends()
    ensures first { closed.other.tcb.state ≡ In.TimeWait }
    ensures second { closed.one.tcb.state ≡ In.Closed }
    ensures due { poll_of 1500 closed.other ≡ At.Time (pos 10_000_000) }
    ensures early { (sends (pos 9_999_999) closed.other).tcb.state ≡ In.TimeWait }
    ensures ended { (sends (pos 10_000_000) closed.other).tcb.state ≡ In.Closed }
    ensures forgotten { (sends (pos 10_000_000) closed.other).tcb.names.pair ≡ None }
{}
