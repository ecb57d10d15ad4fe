//! Laws of the format.
ghost use Rattle.std.specs.Prelude.{◌≡◌, ℕ, ◌+◌, ◌/◌, ◌≤◌, List, ◌++◌, length, drop, ◌↔◌, IsTrue, Bool, ◌*◌, ◌%◌, ◌==◌, ◌<◌, ◌^◌, slice_index};
ghost use Rattle.wire_address.specs.Fields.{IsBytes, be16, put8, put16, with_flag};
ghost use Rattle.ip_wire.specs.Fragment.{IsFragment, IsValue, reserved_of, spelling, written, normal};

use super::field::{FR_OF_M, HEADER_LEN, IDENT, M};
use super::repr::Ipv6FragmentRepr;

/// Law: a fragment header is spelled by its value and its reserved bits.
pub fn ipv6_fragment_spelled()
    ensures { (bytes : List ℕ) (v : Ipv6FragmentRepr)
        → IsBytes bytes
        → IsFragment bytes v
        → bytes ≡ spelling v (reserved_of bytes) ++ drop 6 bytes }
{}

/// Law: a fragment header that was read is written again in no more bytes.
pub fn ipv6_fragment_no_longer()
    ensures { (bytes : List ℕ) (v : Ipv6FragmentRepr) → IsFragment bytes v → 6 ≤ length bytes }
{}

/// Law: a fragment header that was read can be written again: each field is a number of its width.
pub fn ipv6_fragment_fits()
    ensures { (bytes : List ℕ) (v : Ipv6FragmentRepr)
        → IsBytes bytes
        → IsFragment bytes v
        → IsValue v }
{}

/// Law: a fragment header that was read is in its canonical form.
pub fn ipv6_fragment_normal()
    ensures { (bytes : List ℕ) (v : Ipv6FragmentRepr)
        → IsBytes bytes
        → IsFragment bytes v
        → normal v ≡ v }
{}

/// Law: the canonical form of a canonical form is itself.
pub fn ipv6_fragment_normal_again()
    ensures { (v : Ipv6FragmentRepr) → normal (normal v) ≡ normal v }
{}

/// Law: a fragment header that was emitted is read back in its canonical form, whatever follows.
pub fn ipv6_fragment_reads_back()
    ensures { (v : Ipv6FragmentRepr) (rest : List ℕ)
        → IsValue v
        → IsFragment (written v ++ rest) (normal v) }
{}

/// Law: `==` says whether two headers are the same.
pub fn ipv6_fragment_equal()
    ensures { (a b : Ipv6FragmentRepr)
        → IsTrue (⟦<Ipv6FragmentRepr as PartialEq>⟧.eq a b) ↔ (a ≡ b) }
{}

/// Law: each field that was set is read as it was set, of the offset 13 bits. The identification is
/// by `network_order::written_numbers_are_read`.
pub fn ipv6_fragment_written_fields_are_read()
    ensures offset { (bytes : List ℕ) (n : ℕ)
        → 6 ≤ length bytes
        → be16 (put16 bytes 0 (n % 2 ^ 13 * 8 + be16 bytes 0 % 8)) 0 / 8 ≡ n % 2 ^ 13 }
    ensures more { (bytes : List ℕ) (set : Bool)
        → 6 ≤ length bytes
        → (slice_index (put8 bytes 1 (with_flag (slice_index bytes 1) 1 set)) 1 % 2 == 1) ≡ set }
{}

/// Law: where the fields stand (RFC 8200, section 4.5).
pub fn ipv6_fragment_fields()
    ensures fr_of_m { FR_OF_M ≡ record { start = 0; end = 2 } }
    ensures m { M ≡ 1 }
    ensures ident { IDENT ≡ record { start = 2; end = 6 } }
    ensures header_len { HEADER_LEN ≡ 6 }
{}
