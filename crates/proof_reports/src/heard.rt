//! Queries.
ghost use Rattle.std.specs.Prelude.{◌≡◌, ◌==◌, ◌+◌, ◌≤◌, ℕ, Bool, true, false, List, Option, None};
ghost use Rattle.ip_wire.specs.IpAddress.{IpAddress};
ghost use Rattle.ip_wire.specs.Ipv6Address.{Ipv6Address};
ghost use Rattle.iface_groups.specs.Member.{due_at, IsDueBy};
ghost use Rattle.iface_groups.specs.declared.mode.CompatibilityMode.{CompatibilityMode};
ghost use Rattle.iface_groups.specs.declared.table.Row.{Row};
ghost use Rattle.iface_tables.specs.Inner.{InnerValue};
ghost use Rattle.iface_reports.specs.Heard.{mld_heard};
ghost use Rattle.iface_reports.specs.Reports.{is_asked, answered_row};

/// Law: a query that counts is answered in time, for each group that it asks for and that the host listens to; no other row changes.
pub fn a_query_is_answered()
    ensures due { (mode : CompatibilityMode) (now longest drawn : ℕ) (group : IpAddress) (row : Row)
        → row.member.listens ≡ true
        → is_asked group row.group ≡ true
        → IsDueBy (now + longest) (due_at (answered_row mode now longest drawn group row).member) }
    ensures others { (mode : CompatibilityMode) (now longest drawn : ℕ) (group : IpAddress) (row : Row)
        → is_asked group row.group ≡ false
        → answered_row mode now longest drawn group row ≡ row }
{}

/// Law: MLD that didn't come with hop limit 1 behind a router alert, so perhaps from another link, says nothing.
pub fn mld_of_other_links_is_dropped()
    ensures hop_limit { (i : InnerValue) (source destination : Ipv6Address) (hop_limit : ℕ) (alert : Bool) (message : List ℕ)
        → (hop_limit == 1) ≡ false
        → mld_heard i source destination hop_limit alert message ≡ None }
    ensures alert { (i : InnerValue) (source destination : Ipv6Address) (hop_limit : ℕ) (message : List ℕ)
        → mld_heard i source destination hop_limit false message ≡ None }
{}
