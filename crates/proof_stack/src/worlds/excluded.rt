//! What the headline excludes: histories to which no two hosts come.
ghost use Rattle.std.specs.Prelude.{ℕ, List, [], ◌∷◌};
ghost use Rattle.proof_stack.specs.Worlds.Excluded.{Cannot, listened, spoken, lonely, ended, waits, queues, with_sockets, bound, and_sent, and_read, only};
ghost use Rattle.proof_stack.specs.Worlds.Hosts.{text};
ghost use Rattle.proof_stack.specs.Worlds.Streams.{initial};

/// B wrote abc. A takes in another byte, or the bytes in another order, or one more; bytes leave the send queue that A didn't take in, or it
/// holds another byte, with a peer and without one; A is told the end of the stream though B didn't close; and a socket that nobody
/// connected to has a byte.
pub fn bad_streams_are_excluded()
    ensures other_byte { Cannot (with_sockets (waits (97 ∷ 98 ∷ 100 ∷ [])) (queues text) spoken) }
    ensures swapped { Cannot (with_sockets (waits (98 ∷ 97 ∷ [])) (queues text) spoken) }
    ensures one_more { Cannot (with_sockets (waits (97 ∷ 98 ∷ 99 ∷ 100 ∷ [])) (queues text) spoken) }
    ensures freed_early { Cannot (with_sockets (waits (97 ∷ [])) (queues (99 ∷ [])) spoken) }
    ensures queued_otherwise { Cannot (with_sockets initial (queues (97 ∷ 98 ∷ 100 ∷ [])) spoken) }
    ensures queued_otherwise_alone { Cannot (with_sockets initial (queues (97 ∷ 98 ∷ 100 ∷ [])) lonely) }
    ensures ended_early { Cannot (with_sockets initial (queues text) ended) }
    ensures alone { Cannot (with_sockets (waits (97 ∷ [])) initial listened) }
{}

/// B reads a datagram that A never sent, or sends only later, or one that is cut short, or says that it came from another port.
pub fn bad_datagrams_are_excluded()
    ensures never_sent { Cannot (only (and_read 48_896 text bound)) }
    ensures sent_later { Cannot (only (and_sent (and_read 48_896 text bound))) }
    ensures cut_short { Cannot (only (and_read 48_896 (97 ∷ 98 ∷ []) (and_sent bound))) }
    ensures other_port { Cannot (only (and_read 7 text (and_sent bound))) }
{}
