//! Laws of the format.
ghost use Rattle.std.specs.Prelude.{◌≡◌, ◌↔◌, ℕ, ◌+◌, ◌≤◌, Bool, IsTrue, List, ◌++◌, length, drop};
ghost use Rattle.wire_address.specs.Address.{version_of};
ghost use Rattle.wire_address.specs.Fields.{be16, IsBytes};
ghost use Rattle.wire_ip.specs.Udp.{IsUdp, IsAccepted, Fits, payload_of, spelling, written};

use super::field::{CHECKSUM, DST_PORT, HEADER_LEN, LENGTH, SRC_PORT};
use super::repr::UdpRepr;
use wire_address::IpAddress;

/// Law: a datagram is spelled by its header and payload, and then comes padding.
pub fn udp_spelled()
    ensures { (source destination : IpAddress) (tested : Bool) (bytes : List ℕ) (v : UdpRepr)
        → IsBytes bytes
        → IsUdp source destination tested bytes v
        → bytes ≡ spelling v (payload_of bytes) (be16 bytes 6) ++ drop (be16 bytes 4) bytes }
{}

/// Law: a datagram that was read is written again in no more bytes.
pub fn udp_no_longer()
    ensures { (source destination : IpAddress) (tested : Bool) (bytes : List ℕ) (v : UdpRepr)
        → IsUdp source destination tested bytes v
        → 8 + length (payload_of bytes) ≤ length bytes }
{}

/// Law: a datagram that is sent has the header's eight bytes, and its payload's.
pub fn udp_written_len()
    ensures { (source destination : IpAddress) (sealed : Bool) (v : UdpRepr) (payload : List ℕ)
        → length (written source destination sealed v payload) ≡ 8 + length payload }
{}

/// Law: a datagram that was read can be written again.
pub fn udp_fits()
    ensures { (source destination : IpAddress) (tested : Bool) (bytes : List ℕ) (v : UdpRepr)
        → version_of source ≡ version_of destination
        → IsBytes bytes
        → IsUdp source destination tested bytes v
        → Fits source destination (payload_of bytes) × IsAccepted v }
{}

/// Law: a datagram that was emitted is read back with its payload, whatever follows it, where a checksum that is
/// tested was also written.
pub fn udp_reads_back()
    ensures header { (source destination : IpAddress) (tested sealed : Bool) (v : UdpRepr) (payload rest : List ℕ)
        → Fits source destination payload
        → IsAccepted v
        → (IsTrue tested → IsTrue sealed)
        → IsUdp source destination tested (written source destination sealed v payload ++ rest) v }
    ensures payload { (source destination : IpAddress) (sealed : Bool) (v : UdpRepr) (payload rest : List ℕ)
        → Fits source destination payload
        → payload_of (written source destination sealed v payload ++ rest) ≡ payload }
{}

/// Law: `==` says of two headers whether they are the same.
pub fn udp_equal()
    ensures { (a b : UdpRepr) → IsTrue (⟦<UdpRepr as PartialEq>⟧.eq a b) ↔ (a ≡ b) }
{}

/// Law: where the fields stand (RFC 768).
pub fn udp_fields()
    ensures src_port { SRC_PORT ≡ record { start = 0; end = 2 } }
    ensures dst_port { DST_PORT ≡ record { start = 2; end = 4 } }
    ensures length { LENGTH ≡ record { start = 4; end = 6 } }
    ensures checksum { CHECKSUM ≡ record { start = 6; end = 8 } }
    ensures header_len { HEADER_LEN ≡ 8 }
{}
