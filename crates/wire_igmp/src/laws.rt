//! Laws of the format: where its fields stand, what equality means, and what is read back.
ghost use Rattle.std.specs.Prelude.{◌≡◌, ◌↔◌, ◌+◌, ℕ, suc, IsTrue, List, [], ◌++◌, length};
ghost use Rattle.wire_address.specs.Fields.{IsBytes};
ghost use Rattle.wire_igmp.specs.GroupRecord.{AreRecords, Begins, RecordValue, record_spelling, type_number, type_of};
ghost use Rattle.wire_igmp.specs.Igmp.{IsIgmp, IsValue, Fits, CanCarry, free_fields, spelling, written, header_len, carried_in};
ghost use Rattle.wire_igmp.specs.declared.group_record.RecordType.{RecordType};
ghost use Rattle.wire_igmp.specs.declared.message.IgmpMessage.{IgmpMessage};
ghost use Rattle.wire_igmp.specs.declared.message.IgmpVersion.{IgmpVersion};
ghost use Rattle.wire_igmp.specs.declared.repr.IgmpRepr.{IgmpRepr};

use crate::field::{
    CHECKSUM, GROUP_ADDRESS, HEADER_END, MAX_RESP_CODE, NUM_RECORDS, NUM_SRCS, QQIC, QUERY_END,
    SQRV, TYPE,
};
use crate::group_record::RecordType;
use crate::message::{IgmpMessage, IgmpVersion};
use crate::repr::IgmpRepr;

/// Law: where the fields of a message stand (RFC 2236, 2; RFC 3376, 4).
pub fn igmp_fields()
    ensures kind { (TYPE ≡ 0) × (MAX_RESP_CODE ≡ 1) }
    ensures checksum { (CHECKSUM.start ≡ 2) × (CHECKSUM.end ≡ 4) }
    ensures group { (GROUP_ADDRESS.start ≡ 4) × (GROUP_ADDRESS.end ≡ 8) }
    ensures records { (NUM_RECORDS.start ≡ 6) × (NUM_RECORDS.end ≡ 8) }
    ensures header { (HEADER_END ≡ 8) × (QUERY_END ≡ 12) }
    ensures query { (SQRV ≡ 8) × (QQIC ≡ 9) × (NUM_SRCS.start ≡ 10) × (NUM_SRCS.end ≡ 12) }
{}

/// Law: `==` says of two types, of messages or of records, and of two versions, whether they are the same.
pub fn igmp_equated()
    ensures messages { (a b : IgmpMessage) → IsTrue (⟦<IgmpMessage as PartialEq>⟧.eq a b) ↔ (a ≡ b) }
    ensures versions { (a b : IgmpVersion) → IsTrue (⟦<IgmpVersion as PartialEq>⟧.eq a b) ↔ (a ≡ b) }
    ensures records { (a b : RecordType) → IsTrue (⟦<RecordType as PartialEq>⟧.eq a b) ↔ (a ≡ b) }
{}

/// Law: `==` says of two messages whether they are the same.
pub fn igmp_messages_equated()
    ensures { (a b : IgmpRepr) → IsTrue (⟦<IgmpRepr as PartialEq>⟧.eq a b) ↔ (a ≡ b) }
{}

/// Law: a message is spelled by its value, with what a value doesn't keep, and what it carries.
pub fn igmp_spelled()
    ensures { (bytes : List ℕ) (v : IgmpRepr)
        → IsBytes bytes
        → IsIgmp bytes v
        → bytes ≡ spelling v (free_fields bytes) (carried_in bytes v) }
{}

/// Law: a message that was read can be written again: each field is a number of its width.
pub fn igmp_fits()
    ensures { (bytes : List ℕ) (v : IgmpRepr) → IsBytes bytes → IsIgmp bytes v → Fits v × IsValue v }
{}

/// Law: how many bytes a message has that is sent.
pub fn igmp_written_len()
    ensures { (v : IgmpRepr) (carried : List ℕ)
        → IsValue v
        → length (written v carried) ≡ header_len v + length carried }
{}

/// Law: a message that was emitted is read back, with what it carries.
pub fn igmp_reads_back()
    ensures message { (v : IgmpRepr) (carried : List ℕ)
        → IsValue v
        → CanCarry v carried
        → IsIgmp (written v carried) v }
    ensures carried { (v : IgmpRepr) (carried : List ℕ)
        → IsValue v
        → carried_in (written v carried) v ≡ carried }
{}

/// Law: bytes are one message at most.
pub fn igmp_is_one()
    ensures { (bytes : List ℕ) (v w : IgmpRepr) → IsIgmp bytes v → IsIgmp bytes w → v ≡ w }
{}

/// Law: a record that was emitted is read back, with the bytes after it.
pub fn record_reads_back()
    ensures { (width : ℕ) (kind : RecordType) (group rest : List ℕ)
        → length group ≡ width
        → Begins width (record_spelling kind group ++ rest) (record { kind = type_of (type_number kind); group = group; sources = [] }) rest }
{}

/// Law: records of which one was emitted before others are as many and one more.
pub fn records_are_counted()
    ensures { (width n : ℕ) (kind : RecordType) (group rest : List ℕ)
        → length group ≡ width
        → AreRecords width n rest
        → AreRecords width (suc n) (record_spelling kind group ++ rest) }
{}
