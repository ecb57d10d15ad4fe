//! That the statement isn't empty: histories that a wrong rule would lead to.
ghost use Rattle.std.specs.Prelude.{◌≡◌, ℕ, [], ◌∷◌, Some};
ghost use Rattle.lan.specs.declared.at_link.history.event.Side.{Side};
ghost use Rattle.lan.specs.Worlds.AtLink.Reads.{ReadsWereAccepted, EndsWereTrue};
ghost use Rattle.lan.specs.Worlds.AtLink.State.TheVariants as In;
ghost use Rattle.lan.specs.Worlds.AtLink.Value.{TcpValue};
ghost use Rattle.lan.specs.Worlds.AtLink.Examples.{datagram_read_at, unbound, end_without_close, end_after_close, taken_at, text};
ghost use Rattle.lan.specs.Worlds.AtLink.Parties.{Party, socket_at};
ghost use Rattle.lan.specs.Worlds.AtLink.Parties.Socket.{Tcp};
ghost use Rattle.lan.specs.Worlds.AtLink.PacketsSafe.{IsSafe};

/// A datagram that is handed to another port breaks the promise on datagrams, and a reset that is read as the end breaks that on streams.
#[tactic(auto, using(crate::proofs::Worlds::AtLink::HistoryLemmas::ports_and_ends))]
pub fn wrong_histories_break_the_promises()
    ensures right_port { ReadsWereAccepted unbound (datagram_read_at 53) }
    ensures wrong_port { ¬ (ReadsWereAccepted unbound (datagram_read_at 54)) }
    ensures no_close { ¬ (EndsWereTrue end_without_close) }
    ensures closed { EndsWereTrue (end_after_close In.Established) }
{}

/// A listener that takes in what was sent to another port, as with ports unread, breaks the promise on sockets without a peer. One that
/// takes a stream from its second byte on, as where any acknowledgement opens it, breaks that on prefixes.
pub fn wrong_reads_break_the_promises()
    ensures ports_unread { (starts : Side → ℕ → ℕ) (a b : Party) (v : TcpValue) → socket_at b 0 ≡ Some (Tcp v)
        → ¬ (IsSafe starts (record { a = a; b = b; history = taken_at 81 text })) }
    ensures any_acknowledgement { (starts : Side → ℕ → ℕ) (a b : Party) (v : TcpValue) → socket_at b 0 ≡ Some (Tcp v)
        → ¬ (IsSafe starts (record { a = a; b = b; history = taken_at 80 (98 ∷ 99 ∷ []) })) }
{}
