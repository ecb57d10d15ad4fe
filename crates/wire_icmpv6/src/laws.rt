//! Laws of the format: where its fields stand, what equality means, and what is read back.
ghost use Rattle.std.specs.Prelude.{◌≡◌, ◌↔◌, true, false, ℕ, ◌+◌, ◌≤◌, Bool, IsTrue, List, length, slice_range};
ghost use Rattle.wire_address.specs.Fields.{be16, IsBytes};
ghost use Rattle.wire_address.specs.declared.ipv6.Ipv6Address.{Ipv6Address};
ghost use Rattle.wire_icmpv6.specs.Icmpv6.{MessageValue, IsIcmpv6, IsValue, Fits, CanCarry, KeepsAll, carried_by, carried_in, free_in, header_len, header_of};
ghost use Rattle.wire_icmpv6.specs.Icmpv6.{value_of, normal, spelling, written};
ghost use Rattle.wire_icmpv6.specs.Ndisc as Neighbor;
ghost use Rattle.wire_icmpv6.specs.Ndisc.{NeighborMessage, IsNdisc};
ghost use Rattle.wire_icmpv6.specs.declared.message.Icmpv6Message.{Icmpv6Message};
ghost use Rattle.wire_icmpv6.specs.declared.ndisc_flags.NdiscNeighborFlags.{NdiscNeighborFlags};
ghost use Rattle.wire_icmpv6.specs.declared.reason.Icmpv6DstUnreachable.{Icmpv6DstUnreachable};
ghost use Rattle.wire_icmpv6.specs.declared.reason.Icmpv6ParamProblem.{Icmpv6ParamProblem};
ghost use Rattle.wire_icmpv6.specs.declared.reason.Icmpv6TimeExceeded.{Icmpv6TimeExceeded};
ghost use Rattle.wire_icmpv6.specs.declared.header.Icmpv6Header.{Icmpv6Header};
ghost use Rattle.wire_icmpv6.specs.declared.ndisc.NdiscRepr.{NdiscRepr};
ghost use Rattle.wire_icmpv6.specs.declared.repr.Icmpv6Repr.{Icmpv6Repr};

use crate::field::{
    CHECKSUM, CODE, ECHO_IDENT, ECHO_SEQNO, HEADER_END, MTU, ND_FLAGS, POINTER, TARGET_ADDR, TYPE,
    UNUSED,
};
use crate::header::Icmpv6Header;
use crate::message::Icmpv6Message;
use crate::ndisc::NdiscRepr;
use crate::ndisc_flags::NdiscNeighborFlags;
use crate::reason::{Icmpv6DstUnreachable, Icmpv6ParamProblem, Icmpv6TimeExceeded};
use crate::repr::Icmpv6Repr;

/// Law: where the fields of a message stand (RFC 4443, sections 2.1, 3 and 4; RFC 4861, sections 4.3
/// and 4.4).
pub fn icmpv6_fields()
    ensures kind { (TYPE ≡ 0) × (CODE ≡ 1) }
    ensures checksum { (CHECKSUM.start ≡ 2) × (CHECKSUM.end ≡ 4) }
    ensures unused { (UNUSED.start ≡ 4) × (UNUSED.end ≡ 8) }
    ensures mtu { (MTU.start ≡ 4) × (MTU.end ≡ 8) }
    ensures pointer { (POINTER.start ≡ 4) × (POINTER.end ≡ 8) }
    ensures echo_ident { (ECHO_IDENT.start ≡ 4) × (ECHO_IDENT.end ≡ 6) }
    ensures echo_seq_no { (ECHO_SEQNO.start ≡ 6) × (ECHO_SEQNO.end ≡ 8) }
    ensures flags { ND_FLAGS ≡ 4 }
    ensures target { (TARGET_ADDR.start ≡ 8) × (TARGET_ADDR.end ≡ 24) }
    ensures header { HEADER_END ≡ 8 }
{}

/// Law: each named flag of a neighbour advertisement is one alone, and `==` says of two sets of flags whether they are the same.
pub fn ndisc_flags()
    ensures router { NdiscNeighborFlags.ROUTER ≡ record { router = true; solicited = false; overrides = false } }
    ensures solicited { NdiscNeighborFlags.SOLICITED ≡ record { router = false; solicited = true; overrides = false } }
    ensures overrides { NdiscNeighborFlags.OVERRIDE ≡ record { router = false; solicited = false; overrides = true } }
    ensures equated { (a b : NdiscNeighborFlags) → IsTrue (⟦<NdiscNeighborFlags as PartialEq>⟧.eq a b) ↔ (a ≡ b) }
{}

/// Law: `==` says of two types, and of two reasons, whether they are the same.
pub fn icmpv6_equated()
    ensures messages { (a b : Icmpv6Message) → IsTrue (⟦<Icmpv6Message as PartialEq>⟧.eq a b) ↔ (a ≡ b) }
    ensures unreachable { (a b : Icmpv6DstUnreachable) → IsTrue (⟦<Icmpv6DstUnreachable as PartialEq>⟧.eq a b) ↔ (a ≡ b) }
    ensures problem { (a b : Icmpv6ParamProblem) → IsTrue (⟦<Icmpv6ParamProblem as PartialEq>⟧.eq a b) ↔ (a ≡ b) }
    ensures exceeded { (a b : Icmpv6TimeExceeded) → IsTrue (⟦<Icmpv6TimeExceeded as PartialEq>⟧.eq a b) ↔ (a ≡ b) }
{}

/// Law: `==` says of two neighbour messages, and of two headers, whether they have the same value, and
/// of two messages whether they carry the same bytes too.
pub fn icmpv6_messages_equated<'a>()
    ensures neighbor { (a b : NdiscRepr) → IsTrue (⟦<NdiscRepr as PartialEq>⟧.eq a b)
        ↔ (Neighbor.neighbor_message a ≡ Neighbor.neighbor_message b) }
    ensures headers { (a b : Icmpv6Header) → IsTrue (⟦<Icmpv6Header as PartialEq>⟧.eq a b) ↔ (value_of a ≡ value_of b) }
    ensures messages { (a b : Icmpv6Repr) → IsTrue (⟦<Icmpv6Repr<'a> as PartialEq>⟧.eq a b)
        ↔ ((value_of (header_of a) ≡ value_of (header_of b)) × (carried_by a ≡ carried_by b)) }
{}

/// Law: an error or echo message is spelled by what it says and carries, with the fields that a value
/// doesn't keep.
pub fn icmpv6_spelled()
    ensures { (source destination : Ipv6Address) (tested : Bool) (message : List ℕ) (v : MessageValue)
        → IsBytes message
        → KeepsAll v
        → IsIcmpv6 source destination tested message v
        → message ≡ spelling v (free_in message) (carried_in message v) }
{}

/// Law: a message that was read is written again in no more bytes.
pub fn icmpv6_no_longer()
    ensures { (source destination : Ipv6Address) (tested : Bool) (message : List ℕ) (v : MessageValue)
        → IsIcmpv6 source destination tested message v
        → header_len v + length (carried_in message v) ≤ length message }
{}

/// Law: a message that was read can be sent again, with the bytes that it carries: its lengths fit,
/// and each field is a number of its width.
pub fn icmpv6_fits()
    ensures value { (source destination : Ipv6Address) (tested : Bool) (message : List ℕ) (v : MessageValue)
        → IsBytes message
        → IsIcmpv6 source destination tested message v
        → Fits v × IsValue v }
    ensures bytes { (message : List ℕ) (v : MessageValue) → CanCarry v (carried_in message v) }
{}

/// Law: how many bytes a message has that is sent.
pub fn icmpv6_written_len()
    ensures { (source destination : Ipv6Address) (sealed : Bool) (v : MessageValue) (carried : List ℕ)
        → IsValue v
        → CanCarry v carried
        → length (written source destination sealed v carried) ≡ header_len v + length carried }
{}

/// Law: a message that was emitted is read back in its canonical form, with the bytes that it carries,
/// where a checksum that is tested was also written.
pub fn icmpv6_reads_back()
    ensures header { (source destination : Ipv6Address) (tested sealed : Bool) (v : MessageValue) (carried : List ℕ)
        → IsValue v
        → Fits v
        → (IsTrue tested → IsTrue sealed)
        → IsIcmpv6 source destination tested (written source destination sealed v carried) (normal v) }
    ensures bytes { (source destination : Ipv6Address) (sealed : Bool) (v : MessageValue) (carried : List ℕ)
        → IsValue v
        → CanCarry v carried
        → carried_in (written source destination sealed v carried) (normal v) ≡ carried }
{}

/// Law: a message that was read is in its canonical form, and so is the canonical form of any other.
pub fn icmpv6_normal()
    ensures read { (source destination : Ipv6Address) (tested : Bool) (message : List ℕ) (v : MessageValue)
        → IsIcmpv6 source destination tested message v
        → normal v ≡ v }
    ensures again { (v : MessageValue) → normal (normal v) ≡ normal v }
{}

/// Law: a neighbour message with zeros where it is reserved and with no option but the link address
/// is spelled by its value.
pub fn ndisc_spelled()
    ensures { (bytes : List ℕ) (m : NeighborMessage)
        → IsBytes bytes
        → IsNdisc bytes m
        → slice_range bytes 4 8 ≡ Neighbor.word_of m
        → length bytes ≡ Neighbor.buffer_len m
        → bytes ≡ Neighbor.spelling m (be16 bytes 2) }
{}

/// Law: a neighbour message that was emitted is read back in its canonical form, which is the message
/// itself where its link address has six bytes.
pub fn ndisc_reads_back()
    ensures found { (m : NeighborMessage) (check : ℕ) → Neighbor.IsValue m → IsNdisc (Neighbor.spelling m check) (Neighbor.normal m) }
    ensures same { (m : NeighborMessage) → Neighbor.Fits m → Neighbor.normal m ≡ m }
{}

/// Law: a neighbour message that was read is emitted in no more bytes.
pub fn ndisc_no_longer()
    ensures { (bytes : List ℕ) (m : NeighborMessage) → IsNdisc bytes m → Neighbor.buffer_len m ≤ length bytes }
{}

/// Law: a neighbour message that was read is in its canonical form, and so is the canonical form of any
/// other, with a link address of any length.
pub fn ndisc_normal()
    ensures read { (bytes : List ℕ) (m : NeighborMessage) → IsNdisc bytes m → Neighbor.normal m ≡ m }
    ensures again { (m : NeighborMessage) → Neighbor.normal (Neighbor.normal m) ≡ Neighbor.normal m }
{}
