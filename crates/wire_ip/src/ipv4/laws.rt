//! Laws of the format.
ghost use Rattle.std.specs.Prelude.{◌≡◌, ◌↔◌, ℕ, ◌+◌, ◌*◌, ◌/◌, ◌%◌, ◌<◌, ◌≤◌, ◌^◌, Bool, IsTrue, List, ◌++◌, length, take, drop, slice_index, slice_range};
ghost use Rattle.wire_address.specs.Fields.{be16, put8, put16, IsBytes, with_flag};
ghost use Rattle.wire_address.specs.Protocol.{protocol_number, protocol_of};
ghost use Rattle.wire_ip.specs.Parts.{put_run, has_flag};
ghost use Rattle.wire_ip.specs.Ipv4.{IsIpv4, IsQuoted, IsValue, IsKeyOf, Fits, key_of, fragment_of, header_len_of, payload_of, free_fields, spelling};
ghost use Rattle.wire_ip.specs.Ipv4.{written_fragment, written, normal};

use super::field::{
    CHECKSUM, DSCP_ECN, DST_ADDR, FLG_OFF, HEADER_LEN, IDENT, LENGTH, PROTOCOL, SRC_ADDR, TTL,
    VER_IHL,
};
use super::fragment::Ipv4Fragment;
use super::repr::Ipv4Repr;
use wire_address::{IpProtocol, Ipv4FragKey};

/// Law: a packet is spelled by its header, with what a value doesn't keep, and then come payload
/// and padding.
pub fn ipv4_spelled()
    ensures { (tested : Bool) (bytes : List ℕ) (v : Ipv4Repr)
        → IsBytes bytes
        → IsIpv4 tested bytes v
        → bytes ≡ spelling v (free_fields bytes) ++ drop (header_len_of bytes) bytes }
{}

/// Law: a packet that was read is written again in no more bytes.
pub fn ipv4_no_longer()
    ensures { (tested : Bool) (bytes : List ℕ) (v : Ipv4Repr)
        → IsIpv4 tested bytes v
        → 20 + v.payload_len ≤ length bytes }
{}

/// Law: a header that was read can be written again.
pub fn ipv4_fits()
    ensures { (tested : Bool) (bytes : List ℕ) (v : Ipv4Repr)
        → IsBytes bytes
        → IsIpv4 tested bytes v
        → Fits v × IsValue v }
{}

/// Law: a header that was read is in its canonical form.
pub fn ipv4_normal()
    ensures { (tested : Bool) (bytes : List ℕ) (v : Ipv4Repr)
        → IsIpv4 tested bytes v
        → normal v ≡ v }
{}

/// Law: a packet whose header was emitted is read back in its canonical form, whatever follows the
/// payload, where a checksum that is tested was also written.
pub fn ipv4_reads_back()
    ensures header { (tested sealed : Bool) (v : Ipv4Repr) (rest : List ℕ)
        → Fits v
        → IsValue v
        → v.payload_len ≤ length rest
        → (IsTrue tested → IsTrue sealed)
        → IsIpv4 tested (written sealed v ++ rest) (normal v) }
    ensures payload { (sealed : Bool) (v : Ipv4Repr) (rest : List ℕ)
        → Fits v
        → IsValue v
        → payload_of (written sealed v ++ rest) ≡ take v.payload_len rest }
{}

/// Law: the canonical form of a canonical form is itself.
pub fn ipv4_normal_again()
    ensures { (v : Ipv4Repr) → normal (normal v) ≡ normal v }
{}

/// Law: the header of a fragment that was emitted is read back in its canonical form, and so is which
/// fragment it is, where its offset is a multiple of eight.
pub fn ipv4_fragment_reads_back()
    ensures { (tested sealed : Bool) (v : Ipv4Repr) (fragment : Ipv4Fragment) (rest : List ℕ)
        → Fits v
        → IsValue v
        → fragment.offset < 2 ^ 16
        → fragment.offset % 8 ≡ 0
        → v.payload_len ≤ length rest
        → (IsTrue tested → IsTrue sealed)
        → IsIpv4 tested (written_fragment sealed v fragment.offset fragment.more ++ rest) (normal v)
        × (fragment_of (written_fragment sealed v fragment.offset fragment.more ++ rest) ≡ fragment) }
{}

/// Law: what the fragments of one datagram have in common stands in each fragment's header.
pub fn ipv4_key()
    ensures { (tested : Bool) (bytes : List ℕ) (v : Ipv4Repr) (key : Ipv4FragKey)
        → IsIpv4 tested bytes v
        → IsKeyOf bytes key
        → key ≡ key_of v }
{}

/// Law: a quoted header is spelled by its value, with what a value doesn't keep, and then comes what
/// is quoted after it, where the total length covers the header.
pub fn ipv4_quoted_spelled()
    ensures { (bytes : List ℕ) (v : Ipv4Repr) (header_len : ℕ)
        → IsBytes bytes
        → IsQuoted bytes v header_len
        → header_len ≤ be16 bytes 2
        → bytes ≡ spelling v (free_fields bytes) ++ drop header_len bytes }
{}

/// Law: a header that was emitted is read in its canonical form, of 20 bytes, whatever follows it.
pub fn ipv4_quoted_reads_back()
    ensures { (sealed : Bool) (v : Ipv4Repr) (rest : List ℕ)
        → Fits v
        → IsValue v
        → IsQuoted (written sealed v ++ rest) (normal v) 20 }
{}

/// Law: a quoted header is written again, with what follows it, in no more bytes.
pub fn ipv4_quoted_no_longer()
    ensures { (bytes : List ℕ) (v : Ipv4Repr) (header_len : ℕ)
        → IsQuoted bytes v header_len
        → 20 + length (drop header_len bytes) ≤ length bytes }
{}

/// Law: a header that was quoted can be written: its lengths fit, and each field is a number of its
/// width.
pub fn ipv4_quoted_fits()
    ensures { (bytes : List ℕ) (v : Ipv4Repr) (header_len : ℕ)
        → IsBytes bytes
        → IsQuoted bytes v header_len
        → Fits v × IsValue v }
{}

/// Law: the header of a packet that was read is one that can be quoted.
pub fn ipv4_quoted()
    ensures { (tested : Bool) (bytes : List ℕ) (v : Ipv4Repr)
        → IsIpv4 tested bytes v
        → IsQuoted bytes v (header_len_of bytes) }
{}

/// Law: `==` says of two headers, and of two fragments, whether they are the same.
pub fn ipv4_equal()
    ensures header { (a b : Ipv4Repr) → IsTrue (⟦<Ipv4Repr as PartialEq>⟧.eq a b) ↔ (a ≡ b) }
    ensures fragment { (a b : Ipv4Fragment) → IsTrue (⟦<Ipv4Fragment as PartialEq>⟧.eq a b) ↔ (a ≡ b) }
{}

/// Law: where the fields stand (RFC 791, section 3.1).
pub fn ipv4_fields()
    ensures ver_ihl { VER_IHL ≡ 0 }
    ensures dscp_ecn { DSCP_ECN ≡ 1 }
    ensures length { LENGTH ≡ record { start = 2; end = 4 } }
    ensures ident { IDENT ≡ record { start = 4; end = 6 } }
    ensures flg_off { FLG_OFF ≡ record { start = 6; end = 8 } }
    ensures ttl { TTL ≡ 8 }
    ensures protocol { PROTOCOL ≡ 9 }
    ensures checksum { CHECKSUM ≡ record { start = 10; end = 12 } }
    ensures src_addr { SRC_ADDR ≡ record { start = 12; end = 16 } }
    ensures dst_addr { DST_ADDR ≡ record { start = 16; end = 20 } }
    ensures header_len { HEADER_LEN ≡ 20 }
{}

/// Law: what was written into a part of a field is read there, cut to its width. Fields of whole
/// bytes are read as they were written (`network_order`).
pub fn ipv4_written_fields_are_read()
    ensures version { (bytes : List ℕ) (n : ℕ)
        → 20 ≤ length bytes
        → slice_index (put8 bytes 0 (n % 16 * 16 + slice_index bytes 0 % 16)) 0 / 16 ≡ n % 16 }
    ensures header_len { (bytes : List ℕ) (n : ℕ)
        → 20 ≤ length bytes
        → header_len_of (put8 bytes 0 (slice_index bytes 0 / 16 * 16 + n / 4 % 16)) ≡ 4 * (n / 4 % 16) }
    ensures dscp { (bytes : List ℕ) (n : ℕ)
        → 20 ≤ length bytes
        → slice_index (put8 bytes 1 (n % 64 * 4 + slice_index bytes 1 % 4)) 1 / 4 ≡ n % 64 }
    ensures ecn { (bytes : List ℕ) (n : ℕ)
        → 20 ≤ length bytes
        → slice_index (put8 bytes 1 (slice_index bytes 1 / 4 * 4 + n % 4)) 1 % 4 ≡ n % 4 }
    ensures dont_frag { (bytes : List ℕ) (set : Bool)
        → 20 ≤ length bytes
        → has_flag (slice_index (put8 bytes 6 (with_flag (slice_index bytes 6) 64 set)) 6) 64 ≡ set }
    ensures more_frags { (bytes : List ℕ) (set : Bool)
        → 20 ≤ length bytes
        → has_flag (slice_index (put8 bytes 6 (with_flag (slice_index bytes 6) 32 set)) 6) 32 ≡ set }
    ensures offset { (bytes : List ℕ) (n : ℕ)
        → 20 ≤ length bytes
        → n < 2 ^ 16
        → 8 * (be16 (put16 bytes 6 (be16 bytes 6 / 2 ^ 13 * 2 ^ 13 + n / 8)) 6 % 2 ^ 13) ≡ n / 8 * 8 }
    ensures protocol { (bytes : List ℕ) (p : IpProtocol)
        → 20 ≤ length bytes
        → protocol_of (slice_index (put8 bytes 9 (protocol_number p)) 9) ≡ protocol_of (protocol_number p) }
    ensures source { (bytes octets : List ℕ)
        → 20 ≤ length bytes
        → length octets ≡ 4
        → slice_range (put_run bytes 12 4 octets) 12 16 ≡ octets }
    ensures destination { (bytes octets : List ℕ)
        → 20 ≤ length bytes
        → length octets ≡ 4
        → slice_range (put_run bytes 16 4 octets) 16 20 ≡ octets }
{}
