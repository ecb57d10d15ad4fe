//! What is due leaves, or the device didn't want it.
ghost use Rattle.std.specs.Prelude.{◌≡◌, ℤ, ◌≤ℤ◌, Bool, Some};
ghost use Rattle.net_base.specs.Device.{Allowed};
ghost use Rattle.net_base.specs.Time.{IsMoment};
ghost use Rattle.iface_tables.specs.Inner.{InnerValue};
ghost use Rattle.iface_reports.specs.Reports.{ReportsValue, reports_due};
ghost use Rattle.iface_reports.specs.Transmits.{Transmits};

use net_base::Device;

/// Law: where something is due the device is asked for leave to send it. So a host that is polled when its reports want it isn't polled in
/// vain.
pub fn what_is_due_is_tried<D: Device>()
    ensures { (i : InnerValue) (old new : D) (r after : ReportsValue) (went : Bool) (at : ℤ)
        → IsMoment i.instant
        → reports_due r ≡ Some at
        → at ≤ℤ i.instant
        → Transmits D.moves i old r went new after
        → (given : Bool) × (mid : D) × D.moves old (Allowed i.instant given) mid }
{}
