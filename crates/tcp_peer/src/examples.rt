//! A connection on numerals: a run alongside a conforming peer, what liars say, and histories that the promise excludes.

ghost use Rattle.std.specs.Prelude.{◌≡◌, true, false, List, [], ◌∷◌};
ghost use Rattle.tcp_theory.specs.Side.{freed};
ghost use Rattle.tcp_theory.specs.Examples.{at, syn, syn_ack, piece, last_piece, bare_ack, reset};
ghost use Rattle.tcp_peer.specs.Peer.{IsHonest};
ghost use Rattle.tcp_peer.specs.Run.{IsRun, run, start};
ghost use Rattle.tcp_peer.specs.Taken.{IsTakenRun};
ghost use Rattle.tcp_peer.specs.Examples.{peer, this, told, Says, exchange, took, Cannot, server, recovery, other_client, first_client_first};

/// What a conforming peer may say, and a run in which it does.
pub fn a_peer_may_be_honest()
    ensures syn { Says (syn_ack 300 101) }
    ensures payload { Says (piece 302 103 (2 ∷ 3 ∷ [])) }
    ensures end { Says (last_piece 303 101 (3 ∷ [])) }
    ensures keep_alive { IsHonest peer this (bare_ack 101 303 ∷ []) (piece 302 101 (0 ∷ [])) }
    ensures reset { Says (reset 77) }
    ensures exchange { IsRun peer (start 8 []) exchange }
    ensures outcome { ((run (start 8 []) exchange).side.read ≡ 1 ∷ 2 ∷ [])
        × ((run (start 8 []) exchange).side.waiting ≡ 3 ∷ [])
        × ((run (start 8 []) exchange).side.took_fin ≡ true)
        × (freed (run (start 8 []) exchange).side ≡ 2) }
{}

/// What no conforming peer says: another byte, bytes in another order, a byte too many, a byte of any value that wasn't acknowledged, a FIN
/// before the end or of a stream that doesn't end, an acknowledgement of what wasn't written or of what lies before the SYN, a SYN at
/// another number, and payload to an end that counts from another SYN.
pub fn liars_are_not_honest()
    ensures other_byte { Says (piece 301 101 (1 ∷ 9 ∷ [])) → ⊥ }
    ensures swapped { Says (piece 301 101 (2 ∷ 1 ∷ [])) → ⊥ }
    ensures past_the_end { Says (piece 303 101 (3 ∷ 4 ∷ [])) → ⊥ }
    ensures not_acknowledged { Says (piece 302 101 (0 ∷ [])) → ⊥ }
    ensures early_fin { Says (last_piece 301 101 (1 ∷ [])) → ⊥ }
    ensures endless { IsHonest (record peer { ends = false }) this told (last_piece 303 101 (3 ∷ [])) → ⊥ }
    ensures unsent { Says (bare_ack 304 104) → ⊥ }
    ensures before_syn { Says (bare_ack 304 100) → ⊥ }
    ensures other_first { Says (syn 301) → ⊥ }
    ensures unheard { IsHonest peer (record this { heard = at 299 }) told (piece 301 101 (1 ∷ [])) → ⊥ }
{}

/// What no side comes to alongside this peer: it reads another byte, bytes in another order, a byte too many; the stream ends too early;
/// bytes are freed that weren't acknowledged; it sends a byte that its user didn't write, or acknowledges one that the peer doesn't send.
pub fn bad_histories_are_excluded()
    ensures other_byte { Cannot (took (1 ∷ 9 ∷ [])) [] }
    ensures swapped { Cannot (took (2 ∷ 1 ∷ [])) [] }
    ensures skipped { Cannot (took (2 ∷ 3 ∷ [])) [] }
    ensures twice { Cannot (took (1 ∷ 1 ∷ 2 ∷ [])) [] }
    ensures past_the_end { Cannot (took (1 ∷ 2 ∷ 3 ∷ 4 ∷ [])) [] }
    ensures early_end { Cannot (record (took (1 ∷ 2 ∷ [])) { took_fin = true }) [] }
    ensures freed_unasked { Cannot (record (took []) { una = at 103 }) [] }
    ensures freed_more { Cannot (record (took []) { una = at 103 }) (bare_ack 301 102 ∷ []) }
    ensures sent_other { Cannot (record (took []) { sent = piece 101 301 (9 ∷ []) ∷ [] }) [] }
    ensures acknowledged_more { Cannot (record (took []) { sent = bare_ack 101 306 ∷ [] }) [] }
{}

/// A half-open connection: the server first answers a SYN for an old connection, and is reset. The whole is no run beside an honest peer,
/// but it is one where the peer is honest of what is taken.
pub fn an_old_answer_does_not_count()
    ensures counts { IsTakenRun server (start 8 []) recovery }
    ensures before { IsRun server (start 8 []) recovery → ⊥ }
{}

/// A listener that took one client's SYN and fell back is beside no other client in the same run, for it did take the first one's.
pub fn another_clients_syn_counts()
    ensures counts { IsTakenRun other_client (start 8 []) first_client_first → ⊥ }
{}
