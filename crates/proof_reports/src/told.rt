//! What is told, and when.
ghost use Rattle.std.specs.Prelude.{◌≡◌, ℕ, true, false, List, Some};
ghost use Rattle.std.specs.List.{filter, list_any};
ghost use Rattle.ip_wire.specs.AddressTests.{is_same_address};
ghost use Rattle.ip_wire.specs.IpAddress.{IpAddress};
ghost use Rattle.wire_igmp.specs.declared.group_record.RecordType.TheVariants as Record;
ghost use Rattle.iface_groups.specs.Member.{due_at, next_told};
ghost use Rattle.iface_groups.specs.Table.{listens_to, member_of, row_at};
ghost use Rattle.iface_groups.specs.declared.mode.CompatibilityMode.TheVariants as Mode;
ghost use Rattle.iface_groups.specs.declared.mode.Told.TheVariants as Told_of;
ghost use Rattle.iface_groups.specs.declared.table.Row.{Row};
ghost use Rattle.iface_tables.specs.Inner.{InnerValue, is_member_of};
ghost use Rattle.iface_reports.specs.Reports.{ReportsValue, micros, is_new, is_full_for, joined_by, is_stray, left_row, without_strays};
ghost use Rattle.iface_reports.specs.Told.{is_due_in, first_due, records_in, told_row};

/// Law: a report goes by a row of its family that is due; one of version 3 has records of such rows alone; and no other row counts as told.
pub fn nothing_else_is_told()
    ensures by_a_row { (family : IpAddress) (now at : ℕ) (rows : List Row)
        → first_due family now rows ≡ Some at
        → is_due_in family now (row_at rows at) ≡ true }
    ensures records { (family : IpAddress) (now : ℕ) (rows : List Row)
        → records_in family now rows ≡ records_in family now (filter (is_due_in family now) rows) }
    ensures others { (family : IpAddress) (now : ℕ) (row : Row)
        → is_due_in family now row ≡ false
        → told_row family now row ≡ row }
{}

/// Law: a group that is joined is listened to by what is told, and due at once, as a change to exclude in IGMPv3 and MLDv2.
pub fn a_group_is_told()
    ensures listens { (i : InnerValue) (group : IpAddress) (r : ReportsValue)
        → is_new group r ≡ true
        → is_full_for group r.rows ≡ false
        → listens_to (joined_by i group r).rows group ≡ true }
    ensures due { (i : InnerValue) (group : IpAddress) (r : ReportsValue)
        → is_new group r ≡ true
        → is_full_for group r.rows ≡ false
        → due_at (member_of (joined_by i group r).rows group) ≡ Some (micros i) }
    ensures says { (i : InnerValue) (group : IpAddress) (r : ReportsValue)
        → is_new group r ≡ true
        → is_full_for group r.rows ≡ false
        → next_told Mode.Igmpv3 (micros i) (member_of (joined_by i group r).rows group) ≡ Some (Told_of.Record Record.ChangeToExclude) }
{}

/// Law: a join leaves what is told of any other group to which the host listens as it is.
pub fn groups_are_told_apart()
    ensures { (i : InnerValue) (group other : IpAddress) (r : ReportsValue)
        → is_same_address group other ≡ false
        → listens_to r.rows other ≡ true
        → member_of (joined_by i group r).rows other ≡ member_of r.rows other }
{}

/// Law: what is told follows the host's own list. A group to which the host doesn't listen any more is left, and that is told at once as a
/// change to include; one to which it does stays, as the solicited-node group of two addresses of which one goes.
pub fn what_is_told_follows_the_host()
    ensures left { (i : InnerValue) (r : ReportsValue) → list_any (is_stray i) (without_strays i r).rows ≡ false }
    ensures says { (i : InnerValue) (drawn : ℕ) (row : Row)
        → is_stray i row ≡ true
        → next_told Mode.Igmpv3 (micros i) (left_row i Mode.Igmpv3 Mode.Igmpv3 drawn row).member ≡ Some (Told_of.Record Record.ChangeToInclude) }
    ensures stays { (i : InnerValue) (drawn : ℕ) (row : Row)
        → is_member_of i row.group ≡ true
        → left_row i Mode.Igmpv3 Mode.Igmpv3 drawn row ≡ row }
    ensures nothing { (i : InnerValue) (r : ReportsValue) → list_any (is_stray i) r.rows ≡ false → without_strays i r ≡ r }
{}
