//! Laws of the format.
ghost use Rattle.std.specs.Prelude.{◌≡◌, ◌↔◌, ℕ, ◌+◌, ◌*◌, ◌/◌, ◌%◌, ◌≤◌, IsTrue, List, ◌++◌, length, take, drop, slice_index, slice_range};
ghost use Rattle.wire_address.specs.Fields.{put8, IsBytes};
ghost use Rattle.wire_address.specs.Protocol.{protocol_number, protocol_of};
ghost use Rattle.wire_ip.specs.Parts.{put_run};
ghost use Rattle.wire_ip.specs.Ipv6.{IsIpv6, IsQuoted, IsValue, Fits, payload_of, class_and_flow, spelling, written, normal};

use super::field::{DST_ADDR, HEADER_LEN, HOP_LIMIT, LENGTH, NXT_HDR, SRC_ADDR, VER_TC_FLOW};
use super::repr::Ipv6Repr;
use wire_address::IpProtocol;

/// Law: a packet is spelled by its header, with the class and flow that a value doesn't keep, and
/// then come payload and padding.
pub fn ipv6_spelled()
    ensures { (bytes : List ℕ) (v : Ipv6Repr)
        → IsBytes bytes
        → IsIpv6 bytes v
        → bytes ≡ spelling v (class_and_flow bytes) ++ drop 40 bytes }
{}

/// Law: a packet that was read is written again in no more bytes.
pub fn ipv6_no_longer()
    ensures { (bytes : List ℕ) (v : Ipv6Repr) → IsIpv6 bytes v → 40 + v.payload_len ≤ length bytes }
{}

/// Law: a header that was read can be written again.
pub fn ipv6_fits()
    ensures { (bytes : List ℕ) (v : Ipv6Repr)
        → IsBytes bytes
        → IsIpv6 bytes v
        → Fits v × IsValue v }
{}

/// Law: a header that was read is in its canonical form.
pub fn ipv6_normal()
    ensures { (bytes : List ℕ) (v : Ipv6Repr) → IsIpv6 bytes v → normal v ≡ v }
{}

/// Law: a packet whose header was emitted is read back in its canonical form, whatever follows the
/// payload.
pub fn ipv6_reads_back()
    ensures header { (v : Ipv6Repr) (rest : List ℕ)
        → Fits v
        → IsValue v
        → v.payload_len ≤ length rest
        → IsIpv6 (written v ++ rest) (normal v) }
    ensures payload { (v : Ipv6Repr) (rest : List ℕ)
        → Fits v
        → IsValue v
        → payload_of (written v ++ rest) ≡ take v.payload_len rest }
{}

/// Law: the canonical form of a canonical form is itself.
pub fn ipv6_normal_again()
    ensures { (v : Ipv6Repr) → normal (normal v) ≡ normal v }
{}

/// Law: a quoted header is spelled by its value, with the class and flow that a value doesn't keep,
/// and then comes what is quoted after it.
pub fn ipv6_quoted_spelled()
    ensures { (bytes : List ℕ) (v : Ipv6Repr) (header_len : ℕ)
        → IsBytes bytes
        → IsQuoted bytes v header_len
        → bytes ≡ spelling v (class_and_flow bytes) ++ drop header_len bytes }
{}

/// Law: a header that was emitted is read in its canonical form, of 40 bytes, whatever follows it.
pub fn ipv6_quoted_reads_back()
    ensures { (v : Ipv6Repr) (rest : List ℕ)
        → Fits v
        → IsValue v
        → IsQuoted (written v ++ rest) (normal v) 40 }
{}

/// Law: a quoted header is written again, with what follows it, in no more bytes.
pub fn ipv6_quoted_no_longer()
    ensures { (bytes : List ℕ) (v : Ipv6Repr) (header_len : ℕ)
        → IsQuoted bytes v header_len
        → 40 + length (drop header_len bytes) ≤ length bytes }
{}

/// Law: a header that was quoted can be written: its length fits, and each field is a number of its
/// width.
pub fn ipv6_quoted_fits()
    ensures { (bytes : List ℕ) (v : Ipv6Repr) (header_len : ℕ)
        → IsBytes bytes
        → IsQuoted bytes v header_len
        → Fits v × IsValue v }
{}

/// Law: the header of a packet that was read is one that can be quoted.
pub fn ipv6_quoted()
    ensures { (bytes : List ℕ) (v : Ipv6Repr) → IsIpv6 bytes v → IsQuoted bytes v 40 }
{}

/// Law: `==` says of two headers whether they are the same.
pub fn ipv6_equal()
    ensures { (a b : Ipv6Repr) → IsTrue (⟦<Ipv6Repr as PartialEq>⟧.eq a b) ↔ (a ≡ b) }
{}

/// Law: where the fields stand (RFC 8200, section 3).
pub fn ipv6_fields()
    ensures ver_tc_flow { VER_TC_FLOW ≡ record { start = 0; end = 4 } }
    ensures length { LENGTH ≡ record { start = 4; end = 6 } }
    ensures nxt_hdr { NXT_HDR ≡ 6 }
    ensures hop_limit { HOP_LIMIT ≡ 7 }
    ensures src_addr { SRC_ADDR ≡ record { start = 8; end = 24 } }
    ensures dst_addr { DST_ADDR ≡ record { start = 24; end = 40 } }
    ensures header_len { HEADER_LEN ≡ 40 }
{}

/// Law: what was written into a part of a field is read there, cut to its width. Fields of whole
/// bytes are read as they were written (`network_order`).
pub fn ipv6_written_fields_are_read()
    ensures version { (bytes : List ℕ) (n : ℕ)
        → 40 ≤ length bytes
        → slice_index (put8 bytes 0 (n % 16 * 16 + slice_index bytes 0 % 16)) 0 / 16 ≡ n % 16 }
    ensures protocol { (bytes : List ℕ) (p : IpProtocol)
        → 40 ≤ length bytes
        → protocol_of (slice_index (put8 bytes 6 (protocol_number p)) 6) ≡ protocol_of (protocol_number p) }
    ensures source { (bytes octets : List ℕ)
        → 40 ≤ length bytes
        → length octets ≡ 16
        → slice_range (put_run bytes 8 16 octets) 8 24 ≡ octets }
    ensures destination { (bytes octets : List ℕ)
        → 40 ≤ length bytes
        → length octets ≡ 16
        → slice_range (put_run bytes 24 16 octets) 24 40 ≡ octets }
{}
