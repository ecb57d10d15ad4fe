//! Two sides that each took what the other doesn't know of, on numerals, which the check computes.

ghost use Rattle.std.specs.Prelude.{◌≡◌, suc, pos, [], ◌∷◌, length, Some};
ghost use Rattle.tcp_refinement.specs.Pair.Safe.{read};
ghost use Rattle.tcp_refinement.specs.declared.pair.event.Side.TheVariants.{A, B};
ghost use Rattle.tcp_block.specs.Value.{free_in};
ghost use Rattle.tcp_liveness.specs.Standstill.{crossed, healed, heard, window_limited, probed, waiting};

/// Each has two bytes of the other, and knows that one of its own was taken. After six rounds of a good link all has been read, and
/// both sides know it.
pub fn sides_that_both_send_again_proceed()
    ensures unknown_a { length crossed.sides.a.socket.queued.queue ≡ 2 }
    ensures unknown_b { length crossed.sides.b.socket.queued.queue ≡ 2 }
    ensures read_a { read healed A ≡ 120 ∷ 121 ∷ 122 ∷ [] }
    ensures read_b { read healed B ≡ 97 ∷ 98 ∷ 99 ∷ [] }
    ensures known_a { healed.sides.a.socket.queued.queue ≡ [] }
    ensures known_b { healed.sides.b.socket.queued.queue ≡ [] }
{}

/// No window delays a probe. Where the link repeats an old segment that opens a window and one that closes it, so that neither the one nor the
/// other lasts until the side is asked, the probe waits for the instant that was set, and goes then; and its byte is taken. The other's user has
/// read, and its buffer is free.
pub fn windows_that_close_again_delay_no_probe()
    ensures free { free_in window_limited.sides.b.socket ≡ 1 }
    ensures waits { window_limited.sides.a.socket.tcb.timers.probe_at ≡ Some (pos 1_010_000) }
    ensures stays { waiting.sides.a.socket.tcb.timers.probe_at ≡ Some (pos 1_010_000) }
    ensures none { length waiting.sides.a.sent ≡ length window_limited.sides.a.sent }
    ensures goes { length probed.sides.a.sent ≡ suc (length window_limited.sides.a.sent) }
    ensures taken { read heard B ≡ 97 ∷ 98 ∷ [] }
{}
