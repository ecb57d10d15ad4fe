//! The promise is not empty: wrong rules break it.

ghost use Rattle.std.specs.Prelude.{ℕ, List, [], ◌∷◌, ◌++◌};
ghost use Rattle.tcp_theory.specs.Move.Move.{SendsReset, TakesBytes};
ghost use Rattle.tcp_theory.specs.Run.Event.{A, B};
ghost use Rattle.tcp_theory.specs.Examples.{at, piece, last_piece, bare_ack, reset, passive_first};
ghost use Rattle.tcp_theory.specs.WrongRules.{Breaks, before_any_ack, after_any_ack, before_fin, before_drop, before_unaccepted, after_unaccepted};
ghost use Rattle.tcp_theory.specs.WrongRules.WrongRule.{AnyAckOpens, FinTakenAnywhere, UnreadDropped, AckForUnaccepted, ResetReadAsFinished, KeepAliveAtUna};

/// With one wrong rule, followed once, the theorem is false.
pub fn wrong_rules_break_the_promise()
    ensures any_ack_opens { Breaks before_any_ack (AnyAckOpens (bare_ack 101 301)) after_any_ack }
    ensures fin_taken_anywhere { Breaks before_fin (FinTakenAnywhere (last_piece 102 301 [])) [] }
    ensures unread_bytes_dropped { Breaks before_drop UnreadDropped [] }
    ensures ack_for_unaccepted_segment { Breaks before_unaccepted (AckForUnaccepted (piece 101 301 (7 ∷ []))) after_unaccepted }
    ensures reset_read_as_finished { Breaks (passive_first ++ A (SendsReset (reset 101)) ∷ []) (ResetReadAsFinished (reset 101)) [] }
    ensures keep_alive_at_una { Breaks passive_first KeepAliveAtUna (A (TakesBytes (piece 301 101 (0 ∷ [])) (at 301)) ∷ []) }
{}
