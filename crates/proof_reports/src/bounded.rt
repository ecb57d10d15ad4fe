//! How much is kept and sent, whatever comes.
ghost use Rattle.std.specs.Prelude.{◌≡◌, ◌≤◌, ℕ, Option, length};
ghost use Rattle.std.specs.List.{All};
ghost use Rattle.ip_wire.specs.IpAddress.{IpAddress};
ghost use Rattle.iface_tables.specs.Inner.{InnerValue};
ghost use Rattle.iface_reports.specs.declared.heard.Heard.{Heard};
ghost use Rattle.iface_reports.specs.Reports.{ReportsValue, joined_by, followed, after_hearing_if};
ghost use Rattle.iface_reports.specs.Told.{report_at, after_report};
ghost use Rattle.iface_reports.specs.Frames.{packet_len};
ghost use Rattle.proof_reports.specs.Bounds.{HasAddress, IsBounded};

/// Law: there are never more rows than there is room for, whatever is joined, comes or leaves, and so no more answers are pending; what
/// comes makes no row.
pub fn rows_are_bounded()
    ensures joined { (i : InnerValue) (group : IpAddress) (r : ReportsValue) → IsBounded r → IsBounded (joined_by i group r) }
    ensures followed { (i : InnerValue) (r : ReportsValue) → IsBounded r → IsBounded (followed i r) }
    ensures heard { (i : InnerValue) (h : Option Heard) (r : ReportsValue) → length (after_hearing_if i h r).rows ≡ length r.rows }
    ensures told { (i : InnerValue) (family : IpAddress) (at : ℕ) (r : ReportsValue) → length (after_report i family at r).rows ≡ length r.rows }
{}

/// Law: a report of all rows fits the packets of each link that a host can have.
pub fn reports_are_short()
    ensures { (i : InnerValue) (family : IpAddress) (r : ReportsValue) (at : ℕ)
        → IsBounded r
        → All HasAddress r.rows
        → packet_len (report_at i family r at).message (length (report_at i family r at).records) ≤ 576 }
{}
