//! Laws of the format: where its fields stand, what equality means, and what is read back.
ghost use Rattle.std.specs.Prelude.{◌≡◌, ◌↔◌, ◌+◌, ℕ, Bool, IsTrue, List, length};
ghost use Rattle.wire_address.specs.Fields.{IsBytes};
ghost use Rattle.wire_address.specs.declared.ipv6.Ipv6Address.{Ipv6Address};
ghost use Rattle.wire_mld.specs.Mld.{IsMld, IsValue, Fits, CanCarry, free_fields, spelling, written, header_len, carried_in};
ghost use Rattle.wire_mld.specs.declared.message.MldMessage.{MldMessage};
ghost use Rattle.wire_mld.specs.declared.repr.MldRepr.{MldRepr};

use crate::field::{
    CHECKSUM, CODE, HEADER_END, MESSAGE_END, NR_MCAST_RCRDS, QQIC, QUERY_END, QUERY_MAX_RESP_CODE,
    QUERY_MCAST_ADDR, QUERY_NUM_SRCS, SQRV, TYPE,
};
use crate::message::MldMessage;
use crate::repr::MldRepr;
use wire_address::Ipv6Address;

/// Law: where the fields of a message stand (RFC 2710, 3; RFC 3810, 5).
pub fn mld_fields()
    ensures kind { (TYPE ≡ 0) × (CODE ≡ 1) }
    ensures checksum { (CHECKSUM.start ≡ 2) × (CHECKSUM.end ≡ 4) }
    ensures code { (QUERY_MAX_RESP_CODE.start ≡ 4) × (QUERY_MAX_RESP_CODE.end ≡ 6) }
    ensures records { (NR_MCAST_RCRDS.start ≡ 6) × (NR_MCAST_RCRDS.end ≡ 8) }
    ensures group { (QUERY_MCAST_ADDR.start ≡ 8) × (QUERY_MCAST_ADDR.end ≡ 24) }
    ensures headers { (HEADER_END ≡ 8) × (MESSAGE_END ≡ 24) × (QUERY_END ≡ 28) }
    ensures query { (SQRV ≡ 24) × (QQIC ≡ 25) × (QUERY_NUM_SRCS.start ≡ 26) × (QUERY_NUM_SRCS.end ≡ 28) }
{}

/// Law: `==` says of two types whether they are the same.
pub fn mld_equated()
    ensures { (a b : MldMessage) → IsTrue (⟦<MldMessage as PartialEq>⟧.eq a b) ↔ (a ≡ b) }
{}

/// Law: `==` says of two messages whether they are the same.
pub fn mld_messages_equated()
    ensures { (a b : MldRepr) → IsTrue (⟦<MldRepr as PartialEq>⟧.eq a b) ↔ (a ≡ b) }
{}

/// Law: a message is spelled by its value, with what a value doesn't keep, and what it carries.
pub fn mld_spelled()
    ensures { (source destination : Ipv6Address) (tested : Bool) (bytes : List ℕ) (v : MldRepr)
        → IsBytes bytes
        → IsMld source destination tested bytes v
        → bytes ≡ spelling v (free_fields bytes) (carried_in bytes v) }
{}

/// Law: a message that was read can be written again: each field is a number of its width.
pub fn mld_fits()
    ensures { (source destination : Ipv6Address) (tested : Bool) (bytes : List ℕ) (v : MldRepr)
        → IsBytes bytes
        → IsMld source destination tested bytes v
        → Fits v × IsValue v }
{}

/// Law: how many bytes a message has that is sent.
pub fn mld_written_len()
    ensures { (source destination : Ipv6Address) (sealed : Bool) (v : MldRepr) (carried : List ℕ)
        → IsValue v
        → length (written source destination sealed v carried) ≡ header_len v + length carried }
{}

/// Law: a message that was emitted is read back, with what it carries, where a checksum that is tested
/// was also written.
pub fn mld_reads_back()
    ensures message { (source destination : Ipv6Address) (tested sealed : Bool) (v : MldRepr) (carried : List ℕ)
        → IsValue v
        → CanCarry v carried
        → (IsTrue tested → IsTrue sealed)
        → IsMld source destination tested (written source destination sealed v carried) v }
    ensures carried { (source destination : Ipv6Address) (sealed : Bool) (v : MldRepr) (carried : List ℕ)
        → IsValue v
        → carried_in (written source destination sealed v carried) v ≡ carried }
{}

/// Law: bytes are one message at most.
pub fn mld_is_one()
    ensures { (source destination : Ipv6Address) (tested : Bool) (bytes : List ℕ) (v w : MldRepr)
        → IsMld source destination tested bytes v
        → IsMld source destination tested bytes w
        → v ≡ w }
{}
