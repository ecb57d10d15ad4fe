//! Laws of the formats.
ghost use Rattle.std.specs.Prelude.{◌≡◌, ◌↔◌, ℕ, ◌+◌, ◌≤◌, Bool, IsTrue, List, ◌++◌, length};
ghost use Rattle.wire_address.specs.Fields.{IsBytes};
ghost use Rattle.wire_ip.specs.Ip.{payload_len_of, header_len_in, IsIp, IsValue, Fits, written, normal};

use super::repr::IpRepr;

/// Law: a packet that was read is written again in no more bytes.
pub fn ip_no_longer()
    ensures { (tested : Bool) (bytes : List ℕ) (v : IpRepr)
        → IsIp tested bytes v
        → header_len_in v + payload_len_of v ≤ length bytes }
{}

/// Law: how many bytes a header has that is sent.
pub fn ip_written_len()
    ensures { (sealed : Bool) (v : IpRepr) → IsValue v → length (written sealed v) ≡ header_len_in v }
{}

/// Law: a header that was read can be written again.
pub fn ip_fits()
    ensures { (tested : Bool) (bytes : List ℕ) (v : IpRepr)
        → IsBytes bytes
        → IsIp tested bytes v
        → Fits v × IsValue v }
{}

/// Law: a header that was read is in its canonical form.
pub fn ip_normal()
    ensures { (tested : Bool) (bytes : List ℕ) (v : IpRepr)
        → IsIp tested bytes v
        → normal v ≡ v }
{}

/// Law: a packet whose header was emitted is read back in its canonical form, whatever follows the
/// payload, where a checksum that is tested was also written.
pub fn ip_reads_back()
    ensures { (tested sealed : Bool) (v : IpRepr) (rest : List ℕ)
        → Fits v
        → IsValue v
        → payload_len_of v ≤ length rest
        → (IsTrue tested → IsTrue sealed)
        → IsIp tested (written sealed v ++ rest) (normal v) }
{}

/// Law: the canonical form of a canonical form is itself.
pub fn ip_normal_again()
    ensures { (v : IpRepr) → normal (normal v) ≡ normal v }
{}

/// Law: `==` says of two headers whether they are the same.
pub fn ip_equal()
    ensures { (a b : IpRepr) → IsTrue (⟦<IpRepr as PartialEq>⟧.eq a b) ↔ (a ≡ b) }
{}
