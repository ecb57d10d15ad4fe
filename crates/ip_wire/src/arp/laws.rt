//! Laws of the format.
ghost use Rattle.std.specs.Prelude.{◌≡◌, ℕ, ◌+◌, ◌≤◌, List, ◌++◌, length, drop, ◌↔◌, IsTrue, ◌<◌, ◌^◌, slice_range};
ghost use Rattle.wire_address.specs.Fields.{IsBytes, be16, put16};
ghost use Rattle.ip_wire.specs.Arp.{IsArp, IsValue, written, normal, hardware_of, hardware_number, operation_of, operation_number};
ghost use Rattle.wire_address.specs.Order.{Agree};
ghost use Rattle.wire_ip.specs.Parts.{put_run};

use super::field::{HLEN, HTYPE, OPER, PACKET_LEN, PLEN, PTYPE};
use super::kinds::{ArpHardware, ArpOperation};
use super::repr::ArpRepr;
use wire_address::laws::{Comparison, compare};

/// Law: a packet is spelled by its value, and then comes padding.
pub fn arp_spelled()
    ensures { (bytes : List ℕ) (v : ArpRepr)
        → IsBytes bytes
        → IsArp bytes v
        → bytes ≡ written v ++ drop 28 bytes }
{}

/// Law: a packet that was read is written again in no more bytes.
pub fn arp_no_longer()
    ensures { (bytes : List ℕ) (v : ArpRepr) → IsArp bytes v → 28 ≤ length bytes }
{}

/// Law: a packet that was read can be written again: each field is a number of its width.
pub fn arp_fits()
    ensures { (bytes : List ℕ) (v : ArpRepr) → IsBytes bytes → IsArp bytes v → IsValue v }
{}

/// Law: a packet that was read is in its canonical form.
pub fn arp_normal()
    ensures { (bytes : List ℕ) (v : ArpRepr) → IsArp bytes v → normal v ≡ v }
{}

/// Law: the canonical form of a canonical form is itself.
pub fn arp_normal_again()
    ensures { (v : ArpRepr) → normal (normal v) ≡ normal v }
{}

/// Law: a packet that was emitted is read back in its canonical form, whatever follows.
pub fn arp_reads_back()
    ensures { (v : ArpRepr) (rest : List ℕ) → IsValue v → IsArp (written v ++ rest) (normal v) }
{}

/// Law: `==` says whether two packets are the same.
pub fn arp_equal()
    ensures { (a b : ArpRepr) → IsTrue (⟦<ArpRepr as PartialEq>⟧.eq a b) ↔ (a ≡ b) }
{}

/// Compares kinds of hardware addresses: a known number as `Unknown` is another value.
pub fn compare_arp_hardware(a: &ArpHardware, b: &ArpHardware) -> Comparison
    ensures agree { Agree a.now b.now result }
    ensures order { result.order ≡ ⟦<ArpHardware as Ord>⟧.cmp a.now b.now }
{
    compare(a, b)
}

/// Compares operations, in the same way.
pub fn compare_arp_operations(a: &ArpOperation, b: &ArpOperation) -> Comparison
    ensures agree { Agree a.now b.now result }
    ensures order { result.order ≡ ⟦<ArpOperation as Ord>⟧.cmp a.now b.now }
{
    compare(a, b)
}

/// Law: each field that was set is read as it was set. Lengths and other numbers are by
/// `network_order::written_numbers_are_read`.
pub fn arp_written_fields_are_read()
    ensures hardware { (bytes : List ℕ) (kind : ArpHardware)
        → 8 ≤ length bytes
        → hardware_number kind < 2 ^ 16
        → hardware_of (be16 (put16 bytes 0 (hardware_number kind)) 0) ≡ hardware_of (hardware_number kind) }
    ensures operation { (bytes : List ℕ) (operation : ArpOperation)
        → 8 ≤ length bytes
        → operation_number operation < 2 ^ 16
        → operation_of (be16 (put16 bytes 6 (operation_number operation)) 6) ≡ operation_of (operation_number operation) }
    ensures address { (bytes field : List ℕ) (at : ℕ)
        → at + length field ≤ length bytes
        → slice_range (put_run bytes at (length field) field) at (at + length field) ≡ field }
{}

/// Law: where the fields of fixed offsets stand (RFC 826), and the length of a packet over Ethernet
/// for IPv4.
pub fn arp_fields()
    ensures htype { HTYPE ≡ record { start = 0; end = 2 } }
    ensures ptype { PTYPE ≡ record { start = 2; end = 4 } }
    ensures hlen { HLEN ≡ 4 }
    ensures plen { PLEN ≡ 5 }
    ensures oper { OPER ≡ record { start = 6; end = 8 } }
    ensures packet_len { PACKET_LEN ≡ 28 }
{}
