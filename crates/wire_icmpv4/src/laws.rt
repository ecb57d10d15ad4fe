//! Laws of the format: where its fields stand, what equality means, and what is read back.
ghost use Rattle.std.specs.Prelude.{◌≡◌, ◌↔◌, ◌+◌, ◌≤◌, ℕ, Bool, IsTrue, List, length};
ghost use Rattle.wire_address.specs.Fields.{IsBytes};
ghost use Rattle.wire_icmpv4.specs.Icmpv4.{IsIcmpv4, IsValue, Fits, free_fields, spelling, written, header_len, header_of, payload_of, normal};
ghost use Rattle.wire_icmpv4.specs.declared.header.Icmpv4Header.{Icmpv4Header};
ghost use Rattle.wire_icmpv4.specs.declared.message.Icmpv4DstUnreachable.{Icmpv4DstUnreachable};
ghost use Rattle.wire_icmpv4.specs.declared.message.Icmpv4Message.{Icmpv4Message};
ghost use Rattle.wire_icmpv4.specs.declared.message.Icmpv4TimeExceeded.{Icmpv4TimeExceeded};
ghost use Rattle.wire_icmpv4.specs.declared.repr.Icmpv4Repr.{Icmpv4Repr};

use crate::field::{CHECKSUM, CODE, DATA, ECHO_IDENT, ECHO_SEQNO, HEADER_END, TYPE};
use crate::header::Icmpv4Header;
use crate::message::{Icmpv4DstUnreachable, Icmpv4Message, Icmpv4TimeExceeded};
use crate::repr::Icmpv4Repr;

/// Law: where the fields of a message stand (RFC 792).
pub fn icmpv4_fields()
    ensures kind { (TYPE ≡ 0) × (CODE ≡ 1) }
    ensures checksum { (CHECKSUM.start ≡ 2) × (CHECKSUM.end ≡ 4) }
    ensures echo_ident { (ECHO_IDENT.start ≡ 4) × (ECHO_IDENT.end ≡ 6) }
    ensures echo_seq_no { (ECHO_SEQNO.start ≡ 6) × (ECHO_SEQNO.end ≡ 8) }
    ensures header { (HEADER_END ≡ 8) × (DATA.start ≡ 8) }
{}

/// Law: `==` says of two types, and of two reasons, whether they are the same.
pub fn icmpv4_equated()
    ensures messages { (a b : Icmpv4Message) → IsTrue (⟦<Icmpv4Message as PartialEq>⟧.eq a b) ↔ (a ≡ b) }
    ensures unreachable { (a b : Icmpv4DstUnreachable) → IsTrue (⟦<Icmpv4DstUnreachable as PartialEq>⟧.eq a b) ↔ (a ≡ b) }
    ensures exceeded { (a b : Icmpv4TimeExceeded) → IsTrue (⟦<Icmpv4TimeExceeded as PartialEq>⟧.eq a b) ↔ (a ≡ b) }
{}

/// Law: `==` says of two headers whether they are the same, and of two messages whether they have the
/// same header and carry the same bytes.
pub fn icmpv4_messages_equated<'a>()
    ensures headers { (a b : Icmpv4Header) → IsTrue (⟦<Icmpv4Header as PartialEq>⟧.eq a b) ↔ (a ≡ b) }
    ensures messages { (a b : Icmpv4Repr) → IsTrue (⟦<Icmpv4Repr<'a> as PartialEq>⟧.eq a b)
        ↔ ((header_of a ≡ header_of b) × (payload_of a ≡ payload_of b)) }
{}

/// Law: a message is spelled by its value, with what a value doesn't keep, and its data.
pub fn icmpv4_spelled()
    ensures { (tested : Bool) (bytes : List ℕ) (v : Icmpv4Header) (payload : List ℕ)
        → IsBytes bytes
        → IsIcmpv4 tested bytes v payload
        → bytes ≡ spelling v (free_fields v bytes) payload }
{}

/// Law: a message that was read can be written again: its lengths fit, and each field is a number of
/// its width.
pub fn icmpv4_fits()
    ensures { (tested : Bool) (bytes : List ℕ) (v : Icmpv4Header) (payload : List ℕ)
        → IsBytes bytes
        → IsIcmpv4 tested bytes v payload
        → Fits v × IsValue v }
{}

/// Law: a message that was read is written again in no more bytes; options of a quoted header are
/// left out.
pub fn icmpv4_no_longer()
    ensures { (tested : Bool) (bytes : List ℕ) (v : Icmpv4Header) (payload : List ℕ)
        → IsIcmpv4 tested bytes v payload
        → header_len v + length payload ≤ length bytes }
{}

/// Law: how many bytes a message has that is sent.
pub fn icmpv4_written_len()
    ensures { (quote_sealed sealed : Bool) (v : Icmpv4Header) (payload : List ℕ)
        → IsValue v
        → length (written quote_sealed sealed v payload) ≡ header_len v + length payload }
{}

/// Law: a message that was emitted is read back in its canonical form, with its data, where a checksum
/// that is tested was also written.
pub fn icmpv4_reads_back()
    ensures { (tested quote_sealed sealed : Bool) (v : Icmpv4Header) (payload : List ℕ)
        → IsValue v
        → Fits v
        → (IsTrue tested → IsTrue sealed)
        → IsIcmpv4 tested (written quote_sealed sealed v payload) (normal v) payload }
{}

/// Law: a message that was read is in its canonical form, and so is the canonical form of any other.
pub fn icmpv4_normal()
    ensures read { (tested : Bool) (bytes : List ℕ) (v : Icmpv4Header) (payload : List ℕ)
        → IsIcmpv4 tested bytes v payload
        → normal v ≡ v }
    ensures again { (v : Icmpv4Header) → normal (normal v) ≡ normal v }
{}
