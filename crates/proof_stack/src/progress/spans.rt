//! By when, on numerals: how long the laws let a connection take. They are about a receive buffer with room for eight bytes.

ghost use Rattle.std.specs.Prelude.{◌≡◌, ◌*◌, ℕ, true, [], ◌∷◌, replicate, Some};
ghost use Rattle.tcp_state.specs.declared.state.State.TheVariants as In;
ghost use Rattle.tcp_block.specs.Value.{TcpValue, room_of};
ghost use Rattle.tcp_liveness.specs.Anew.{put_off_in};
ghost use Rattle.tcp_liveness.specs.Arrivals.{is_synchronized};
ghost use Rattle.tcp_liveness.specs.Course.{span_of};
ghost use Rattle.tcp_liveness.specs.Pair.{socket_of};
ghost use Rattle.tcp_liveness.specs.Readers.{whole_span, windows_in};
ghost use Rattle.tcp_refinement.specs.Pair.Sides as Sides;
ghost use Rattle.tcp_refinement.specs.Pair.Values.{PairValue};
ghost use Rattle.tcp_refinement.specs.declared.pair.event.Side as Pairs;
ghost use Rattle.lan.specs.declared.at_link.history.answer.Answer.TheVariants as To;
ghost use Rattle.lan.specs.declared.at_link.history.event.Event.TheVariants as E;
ghost use Rattle.lan.specs.declared.at_link.history.event.Side.{Side};
ghost use Rattle.lan.specs.declared.at_link.history.event.Side.TheVariants.{A, B};
ghost use Rattle.proof_stack.specs.Progress.SettledNumerals.{counts, entry, slot, told_to_send};
ghost use Rattle.proof_stack.specs.Progress.Unread.{HasRoomForAll};
ghost use Rattle.proof_stack.specs.Progress.Within.{enough_for, minutes_for};

/// Law: ten positions may be under way to a buffer for eight bytes, the SYN and the FIN with them, and three to one for none, where a byte probes it. A timer
/// isn't put off for longer than a minute for each, and two more. A window stands in the way until its user reads, for a minute, in which a probe goes, and
/// for as long as a side is let wait before it and after it.
pub fn spans_of_a_pair_on_numerals()
    ensures put_off { (p : PairValue) (side : Pairs.Side) → room_of (socket_of p (Sides.other side)).received ≡ 8 → put_off_in p side ≡ 720_000_000 }
    ensures put_off_by_probes { (p : PairValue) (side : Pairs.Side) → room_of (socket_of p (Sides.other side)).received ≡ 0 → put_off_in p side ≡ 300_000_000 }
    ensures span { (p : PairValue) (side : Pairs.Side) → room_of (socket_of p (Sides.other side)).received ≡ 8 → span_of 500 7 p side ≡ 720_000_514 }
    ensures windows { windows_in 30_000_000 500 ≡ 90_001_000 }
    ensures whole { (p : PairValue) (side : Pairs.Side) → room_of (socket_of p (Sides.other side)).received ≡ 8
        → whole_span 30_000_000 500 7 p side ≡ 810_001_514 }
{}

/// Law: where A's user wrote three bytes, and both buffers are for eight, 364 minutes are enough: 52, which is twice the 13 of each side, two times for each
/// byte, and once more. An end counts as a byte does.
pub fn what_is_enough_on_numerals()
    ensures minutes { (v : TcpValue) → room_of v.received ≡ 8 → minutes_for v ≡ 13 }
    ensures minutes_without_room { (v : TcpValue) → room_of v.received ≡ 0 → minutes_for v ≡ 6 }
    ensures three_bytes { (sockets : Side → TcpValue) → minutes_for (sockets A) ≡ 13 → minutes_for (sockets B) ≡ 13
        → enough_for told_to_send slot sockets ≡ 364 * 60_000_000 }
    ensures and_the_end { (sockets : Side → TcpValue) → minutes_for (sockets A) ≡ 13 → minutes_for (sockets B) ≡ 13
        → enough_for (record (entry (E.Close A 0) To.Done (counts 2 1 0 0)) { found = Some In.Established } ∷ told_to_send) slot sockets ≡ 468 * 60_000_000 }
    ensures nothing { (sockets : Side → TcpValue) → minutes_for (sockets A) ≡ 13 → minutes_for (sockets B) ≡ 13
        → enough_for [] slot sockets ≡ 52 * 60_000_000 }
{}

/// Law: seven bytes that A's user wrote have room in a buffer for eight, and eight have none. Where one was read, eight have, too.
pub fn room_for_all_on_numerals()
    ensures seven { (v : TcpValue) → is_synchronized v.tcb.state ≡ true → room_of v.received ≡ 8
        → HasRoomForAll (entry (E.Send A 0 (replicate 7 1)) (To.Count 7) (counts 0 0 0 0) ∷ []) slot B v }
    ensures not_eight { (v : TcpValue) → room_of v.received ≡ 8
        → HasRoomForAll (entry (E.Send A 0 (replicate 8 1)) (To.Count 8) (counts 0 0 0 0) ∷ []) slot B v → ⊥ }
    ensures eight_where_one_was_read { (v : TcpValue) → is_synchronized v.tcb.state ≡ true → room_of v.received ≡ 8
        → HasRoomForAll (entry (E.Recv B 0 1) (To.Bytes (1 ∷ [])) (counts 1 0 0 0) ∷ entry (E.Send A 0 (replicate 8 1)) (To.Count 8) (counts 0 0 0 0) ∷ [])
        slot B v }
{}
