//! What reports are for.
ghost use Rattle.std.specs.Prelude.{◌≡◌, ℕ, ℤ, pos, ◌≤ℤ◌, ◌<ℤ◌, Bool, true, Some, None};
ghost use Rattle.iface_tables.specs.Inner.{InnerValue};
ghost use Rattle.iface_reports.specs.Reports.{ReportsValue, reports_due};
ghost use Rattle.iface_reports.specs.Transmits.{Transmits};

use net_base::Device;

/// Law: before something is due the device is asked for nothing, and nothing changes.
pub fn reports_are_quiet<D: Device>()
    ensures before { (i : InnerValue) (old new : D) (r after : ReportsValue) (went : Bool) (at : ℤ)
        → pos 0 ≤ℤ i.instant
        → reports_due r ≡ Some at
        → i.instant <ℤ at
        → Transmits D.moves i old r went new after
        → (went ≡ true) × (new ≡ old) × (after ≡ r) }
    ensures never { (i : InnerValue) (old new : D) (r after : ReportsValue) (went : Bool)
        → pos 0 ≤ℤ i.instant
        → reports_due r ≡ None
        → Transmits D.moves i old r went new after
        → (went ≡ true) × (new ≡ old) × (after ≡ r) }
{}
