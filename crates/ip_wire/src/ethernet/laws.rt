//! Laws of the format.
ghost use Rattle.std.specs.Prelude.{◌≡◌, ℕ, ◌+◌, ◌≤◌, List, ◌++◌, length, drop, ◌↔◌, IsTrue, ◌<◌, ◌^◌, slice_range};
ghost use Rattle.wire_address.specs.Fields.{IsBytes, be16, put16};
ghost use Rattle.ip_wire.specs.Ethernet.{IsEthernet, IsValue, payload_of, written, normal};
ghost use Rattle.wire_address.specs.Protocol.{ether_number, ether_of};
ghost use Rattle.wire_ip.specs.Parts.{put_run};

use super::field::{DESTINATION, ETHERTYPE, HEADER_LEN, PAYLOAD, SOURCE};
use super::repr::EthernetRepr;
use wire_address::EthernetProtocol;

/// Law: a frame is spelled by its header, and then come payload and padding.
pub fn ethernet_spelled()
    ensures { (bytes : List ℕ) (v : EthernetRepr)
        → IsBytes bytes
        → IsEthernet bytes v
        → bytes ≡ written v ++ drop 14 bytes }
{}

/// Law: a header that was read is written again, with what follows it, in no more bytes.
pub fn ethernet_no_longer()
    ensures { (bytes : List ℕ) (v : EthernetRepr)
        → IsEthernet bytes v
        → 14 + length (payload_of bytes) ≤ length bytes }
{}

/// Law: a header that was read can be written again: each field is a number of its width.
pub fn ethernet_fits()
    ensures { (bytes : List ℕ) (v : EthernetRepr) → IsBytes bytes → IsEthernet bytes v → IsValue v }
{}

/// Law: a header that was read is in its canonical form.
pub fn ethernet_normal()
    ensures { (bytes : List ℕ) (v : EthernetRepr) → IsEthernet bytes v → normal v ≡ v }
{}

/// Law: the canonical form of a canonical form is itself.
pub fn ethernet_normal_again()
    ensures { (v : EthernetRepr) → normal (normal v) ≡ normal v }
{}

/// Law: a frame whose header was emitted is read back in its canonical form, whatever follows.
pub fn ethernet_reads_back()
    ensures { (v : EthernetRepr) (rest : List ℕ)
        → IsValue v
        → IsEthernet (written v ++ rest) (normal v) }
{}

/// Law: `==` says whether two headers are the same.
pub fn ethernet_equal()
    ensures { (a b : EthernetRepr) → IsTrue (⟦<EthernetRepr as PartialEq>⟧.eq a b) ↔ (a ≡ b) }
{}

/// Law: each field that was set is read as it was set.
pub fn ethernet_written_fields_are_read()
    ensures destination { (bytes field : List ℕ)
        → 14 ≤ length bytes
        → length field ≡ 6
        → slice_range (put_run bytes 0 6 field) 0 6 ≡ field }
    ensures source { (bytes field : List ℕ)
        → 14 ≤ length bytes
        → length field ≡ 6
        → slice_range (put_run bytes 6 6 field) 6 12 ≡ field }
    ensures carried { (bytes : List ℕ) (p : EthernetProtocol)
        → 14 ≤ length bytes
        → ether_number p < 2 ^ 16
        → ether_of (be16 (put16 bytes 12 (ether_number p)) 12) ≡ ether_of (ether_number p) }
{}

/// Law: where the fields stand (RFC 894).
pub fn ethernet_fields()
    ensures destination { DESTINATION ≡ record { start = 0; end = 6 } }
    ensures source { SOURCE ≡ record { start = 6; end = 12 } }
    ensures ethertype { ETHERTYPE ≡ record { start = 12; end = 14 } }
    ensures payload { PAYLOAD ≡ record { start = 14 } }
    ensures header_len { HEADER_LEN ≡ 14 }
{}
