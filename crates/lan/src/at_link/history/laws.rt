//! Laws of histories.
ghost use Rattle.std.specs.Prelude.{◌≡◌, ◌<◌, ℕ, List, Some, ◌∷◌};
ghost use Rattle.lan.specs.declared.at_link.history.event.Side.{Side};
ghost use Rattle.lan.specs.declared.at_link.history.record.Opening.{Opening};
ghost use Rattle.lan.specs.Worlds.AtLink.Kinds.{other};
ghost use Rattle.lan.specs.Worlds.AtLink.History.{Entry, opening};
ghost use Rattle.lan.specs.Worlds.AtLink.PeerSides.{ArePartners};
ghost use Rattle.lan.specs.Worlds.AtLink.Tables.{table_of, record_at, record_of, Slots, AreAllowed};

/// The table that follows each event says of each slot what the history says of its socket.
#[tactic(auto, using(crate::proofs::Worlds::AtLink::TableLemmas::table_says))]
pub fn tables_say_what_the_history_says()
    ensures { (history : List Entry) (side : Side) (slots i : ℕ) → i < slots
        → record_at (table_of history side slots) i ≡ record_of history side i }
{}

/// A socket has at most one peer, and is its peer's. Peers stay so, and an opening stays.
#[tactic(auto, using(crate::proofs::Worlds::AtLink::PeerSideLemmas::peer_side_laws))]
pub fn a_socket_has_at_most_one_peer_side()
    ensures one { (slots : Slots) (history : List Entry) (side : Side) (i j k : ℕ) → AreAllowed slots history
        → ArePartners history side i j → ArePartners history side i k → j ≡ k }
    ensures mutual { (history : List Entry) (side : Side) (i j : ℕ) → ArePartners history side i j
        → ArePartners history (other side) j i }
    ensures stay { (past : List Entry) (e : Entry) (side : Side) (i j : ℕ) → ArePartners past side i j
        → ArePartners (e ∷ past) side i j }
    ensures opening_stays { (past : List Entry) (e : Entry) (side : Side) (i : ℕ) (o : Opening)
        → opening past side i ≡ Some o → opening (e ∷ past) side i ≡ Some o }
{}
