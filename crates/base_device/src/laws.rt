//! What the comparisons, constants and defaults of what a device says of itself mean.
ghost use Rattle.std.specs.Prelude.{◌≡◌, ◌↔◌, IsTrue};
ghost use Rattle.base_device.specs.Capabilities.{all_checksums, default_capabilities};
ghost use Rattle.base_device.specs.declared.capabilities.Checksum.{Checksum};
ghost use Rattle.base_device.specs.declared.capabilities.Checksum.TheVariants.{Both};
ghost use Rattle.base_device.specs.declared.capabilities.ChecksumCapabilities.{ChecksumCapabilities};
ghost use Rattle.base_device.specs.declared.capabilities.DeviceCapabilities.{DeviceCapabilities};
ghost use Rattle.base_device.specs.declared.capabilities.Medium.{Medium};
ghost use Rattle.base_device.specs.declared.capabilities.Medium.TheVariants.{Ethernet};
ghost use Rattle.base_device.specs.declared.device.PacketMeta.{PacketMeta};
ghost use Rattle.base_device.specs.declared.device.SendRefused.{SendRefused};

use crate::capabilities::{
    Checksum, ChecksumCapabilities, DeviceCapabilities, IPV4_FRAGMENT_PAYLOAD_ALIGNMENT, Medium,
};
use crate::device::{PacketMeta, SendRefused};
use std::hash::Hash;

/// Offsets of pieces count in units of 8 bytes (RFC 791, section 3.2).
pub fn fragments_are_aligned()
    ensures { IPV4_FRAGMENT_PAYLOAD_ALIGNMENT ≡ 8 }
{}

/// By default a device's frames are Ethernet's, they are 0 bytes long, and the stack handles each checksum both ways.
pub fn defaults_are_named()
    ensures medium { (m : Medium) → ⟦<Medium as Default>⟧.is_default m → m ≡ Ethernet }
    ensures checksum { (c : Checksum) → ⟦<Checksum as Default>⟧.is_default c → c ≡ Both }
    ensures checksums { (c : ChecksumCapabilities) → ⟦<ChecksumCapabilities as Default>⟧.is_default c
        → c ≡ all_checksums Both }
    ensures capabilities { (c : DeviceCapabilities) → ⟦<DeviceCapabilities as Default>⟧.is_default c
        → c ≡ default_capabilities }
{}

/// What a device says of itself is equal where each part is.
pub fn capabilities_are_equated()
    ensures medium { (a b : Medium) → IsTrue (⟦<Medium as PartialEq>⟧.eq a b) ↔ (a ≡ b) }
    ensures checksum { (a b : Checksum) → IsTrue (⟦<Checksum as PartialEq>⟧.eq a b) ↔ (a ≡ b) }
    ensures checksums { (a b : ChecksumCapabilities) → IsTrue (⟦<ChecksumCapabilities as PartialEq>⟧.eq a b) ↔ (a ≡ b) }
    ensures capabilities { (a b : DeviceCapabilities) → IsTrue (⟦<DeviceCapabilities as PartialEq>⟧.eq a b) ↔ (a ≡ b) }
{}

/// What travels alongside a packet has no part that could differ, and neither has a refusal. Equal ones hash alike.
pub fn packet_meta_is_hashed()
    ensures equal { (a b : PacketMeta) → IsTrue (⟦<PacketMeta as PartialEq>⟧.eq a b) ↔ (a ≡ b) }
    ensures alike { (a b : PacketMeta) → IsTrue (⟦<PacketMeta as PartialEq>⟧.eq a b)
        → ⟦<PacketMeta as Hash>⟧.hash_input a ≡ ⟦<PacketMeta as Hash>⟧.hash_input b }
    ensures refusals { (a b : SendRefused) → IsTrue (⟦<SendRefused as PartialEq>⟧.eq a b) }
{}
