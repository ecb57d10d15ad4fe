//! Values of `net_base`, by its own path.
ghost use Rattle.std.specs.Prelude.{◌≡◌, ◌↔◌, ℕ, ℤ, pos, IsTrue, List, ◌++◌, [], ◌∷◌};
ghost use Rattle.net_base.specs.Packets.{Packets, contents, appended};
ghost use Rattle.net_base.specs.Time.{longest};
ghost use Rattle.net_base.specs.Capabilities.{all_checksums, default_capabilities};
ghost use Rattle.net_base.specs.Checksum.{Checksum};
ghost use Rattle.net_base.specs.ChecksumCapabilities.{ChecksumCapabilities};
ghost use Rattle.net_base.specs.DeviceCapabilities.{DeviceCapabilities};
ghost use Rattle.net_base.specs.Medium.{Medium};

use net_base::{
    Checksum, ChecksumCapabilities, DeviceCapabilities, Duration, Empty, Full,
    IPV4_FRAGMENT_PAYLOAD_ALIGNMENT, Instant, Medium, SendRefused, TooManyHolesError,
    container_laws, device_laws, laws,
};

/// Law: refusals that say nothing more are always equal.
pub fn refusals_are_equated(
    full: (Full, Full),
    empty: (Empty, Empty),
    holes: (TooManyHolesError, TooManyHolesError),
    refused: (SendRefused, SendRefused),
) -> bool
    ensures { IsTrue result }
{
    full.0 == full.1 && empty.0 == empty.1 && holes.0 == holes.1 && refused.0 == refused.1
}

/// Law: `==` of what a device says of itself compares each part.
pub fn capabilities_are_equated()
    ensures medium { (a b : Medium) → IsTrue (⟦<Medium as PartialEq>⟧.eq a b) ↔ (a ≡ b) }
    ensures checksum { (a b : Checksum) → IsTrue (⟦<Checksum as PartialEq>⟧.eq a b) ↔ (a ≡ b) }
    ensures checksums { (a b : ChecksumCapabilities) → IsTrue (⟦<ChecksumCapabilities as PartialEq>⟧.eq a b) ↔ (a ≡ b) }
    ensures capabilities { (a b : DeviceCapabilities) → IsTrue (⟦<DeviceCapabilities as PartialEq>⟧.eq a b) ↔ (a ≡ b) }
{
    device_laws::capabilities_are_equated();
}

/// Law: a clone is the value.
pub fn clones()
    ensures medium { (a b : Medium) → ⟦<Medium as Clone>⟧.is_clone a b → b ≡ a }
    ensures checksum { (a b : Checksum) → ⟦<Checksum as Clone>⟧.is_clone a b → b ≡ a }
    ensures checksums { (a b : ChecksumCapabilities) → ⟦<ChecksumCapabilities as Clone>⟧.is_clone a b → b ≡ a }
    ensures capabilities { (a b : DeviceCapabilities) → ⟦<DeviceCapabilities as Clone>⟧.is_clone a b → b ≡ a }
    ensures instants { (a b : ℤ) → ⟦<Instant as Clone>⟧.is_clone a b → b ≡ a }
    ensures durations { (a b : ℕ) → ⟦<Duration as Clone>⟧.is_clone a b → b ≡ a }
{}

/// Law: the constants of instants, durations and devices, and what a device is by default.
pub fn constants() -> (Instant, Duration, Duration)
    ensures start { result.0 ≡ pos 0 }
    ensures no_time { result.1 ≡ 0 }
    ensures longest { result.2 ≡ longest }
    ensures alignment { IPV4_FRAGMENT_PAYLOAD_ALIGNMENT ≡ 8 }
    ensures capabilities { (c : DeviceCapabilities) → ⟦<DeviceCapabilities as Default>⟧.is_default c → c ≡ default_capabilities }
{
    device_laws::defaults_are_named();
    laws::constants()
}

/// Law: a queue keeps the order of its packets.
pub fn packets_keep_their_order<H>()
    ensures { (q : Packets H) (size : ℕ) (header : H) (bytes : List ℕ)
        → contents (appended q size header bytes) ≡ contents q ++ (header, bytes) ∷ [] }
{
    container_laws::packets_keep_their_order::<H>();
}
