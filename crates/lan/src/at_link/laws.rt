//! What follows from the definitions.
ghost use Rattle.std.specs.Prelude.{◌≡◌, ◌≤◌, ℕ, List, ◌∷◌, length};
ghost use Rattle.net_base.specs.Medium.{Medium};
ghost use Rattle.lan.specs.Worlds.AtLink.History.{Entry};
ghost use Rattle.lan.specs.Worlds.AtLink.Kinds.{kind_of};
ghost use Rattle.lan.specs.declared.at_link.history.event.Side.{Side};
ghost use Rattle.lan.specs.Worlds.AtLink.Origins.{numbered};
ghost use Rattle.lan.specs.Worlds.AtLink.Records.{table_next};
ghost use Rattle.lan.specs.Worlds.AtLink.Runs.{table_in, counts_of};
ghost use Rattle.lan.specs.Worlds.AtLink.Node.{Nodes, node};
ghost use Rattle.lan.specs.Worlds.AtLink.Steps.{Happens};

/// Law: the tables that follow each event are those of the history with that event.
pub fn tables_proceed()
    ensures { (past : List Entry) (e : Entry) (old new : Nodes) (side : Side)
        → e.before ≡ counts_of old
        → Happens old (kind_of e.event) e.answer e.found new
        → table_in (e ∷ past) side (node new side)
        ≡ table_next side (kind_of e.event) e.answer (length (node old side).link.sent) (node new side) (table_in past side (node old side)) }
{}

/// Law: a host sent at least as many frames as it numbered datagrams.
pub fn numbers_are_few()
    ensures { (medium : Medium) (side : Side) (history : List Entry) (sent : List (List ℕ))
        → numbered medium side history sent ≤ length sent }
{}
