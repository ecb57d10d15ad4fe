//! What the table of groups is for.
ghost use Rattle.std.specs.Prelude.{◌≡◌, ℕ, ◌<◌, ◌≤◌, true, false, List, Option, Some, None};
ghost use Rattle.wire_address.specs.AddressTests.{is_same_address};
ghost use Rattle.wire_address.specs.declared.ip.IpAddress.{IpAddress};
ghost use Rattle.iface_groups.specs.Member.{next_told};
ghost use Rattle.iface_groups.specs.Table.{entered, left, listens_to, member_of, row_at, rows_due, next_row};
ghost use Rattle.iface_groups.specs.declared.member.Member.{Member};
ghost use Rattle.iface_groups.specs.declared.mode.CompatibilityMode.{CompatibilityMode};
ghost use Rattle.iface_groups.specs.declared.table.Row.{Row};

/// Law: before the moment at which something is due no row has anything to tell, whichever version its family has; from it on one has.
pub fn tables_are_quiet()
    ensures before { (now at : ℕ) (rows : List Row) → rows_due rows ≡ Some at → now < at → next_row now rows ≡ None }
    ensures never { (now : ℕ) (rows : List Row) → rows_due rows ≡ None → next_row now rows ≡ None }
    ensures then { (now at : ℕ) (rows : List Row) → rows_due rows ≡ Some at → at ≤ now → next_row now rows ≡ None → ⊥ }
    ensures nothing { (mode : CompatibilityMode) (now i : ℕ) (rows : List Row) → next_row now rows ≡ None → next_told mode now (row_at rows i).member ≡ None }
{}
