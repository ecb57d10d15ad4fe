//! Group records, of IGMPv3 and of MLDv2.
ghost use Rattle.std.specs.Prelude.{◌≡◌, ◌↔◌, ℕ, ◌+◌, ◌*◌, ◌≤◌, List, IsTrue, IsOk, IfOk, Some, length};
ghost use Rattle.wire_igmp.specs.GroupRecord.{RecordValue, Begins, AreRecords, value_of, record_spelling, type_number, type_of, type_text};

use std::fmt;
use wire_address::Error;
use wire_address::network_order::read_u16;

/// The length of a record without its addresses and its auxiliary data.
pub const GROUP_RECORD_LEN: usize = 4;

/// The length of a word, in which auxiliary data is counted.
const WORD: usize = 4;

/// What a record says of its group (RFC 3376, section 4.2.12): the filter as it is, the filter that
/// it changed to, or the sources that are new in it or went.
#[derive(Clone, Copy, Debug, PartialEq, Eq, PartialOrd, Ord, Hash)]
pub enum RecordType {
    ModeIsInclude,
    ModeIsExclude,
    ChangeToInclude,
    ChangeToExclude,
    AllowNewSources,
    BlockOldSources,
    /// Any other number. A known one here stands for the same type as its own variant, and is not
    /// equal to it.
    Unknown(u8),
}

impl From<u8> for RecordType {
    ghost from_gives = { λ n kind. kind ≡ type_of n };

    fn from(value: u8) -> RecordType {
        match value {
            1 => RecordType::ModeIsInclude,
            2 => RecordType::ModeIsExclude,
            3 => RecordType::ChangeToInclude,
            4 => RecordType::ChangeToExclude,
            5 => RecordType::AllowNewSources,
            6 => RecordType::BlockOldSources,
            other => RecordType::Unknown(other),
        }
    }
}

impl From<RecordType> for u8 {
    ghost from_gives = { λ kind n. n ≡ type_number kind };

    fn from(value: RecordType) -> u8 {
        match value {
            RecordType::ModeIsInclude => 1,
            RecordType::ModeIsExclude => 2,
            RecordType::ChangeToInclude => 3,
            RecordType::ChangeToExclude => 4,
            RecordType::AllowNewSources => 5,
            RecordType::BlockOldSources => 6,
            RecordType::Unknown(other) => other,
        }
    }
}

impl fmt::Display for RecordType {
    ghost output = { λ kind. Some (type_text kind) };

    fn fmt<W: fmt::Write>(&self, f: &mut fmt::Formatter<W>) -> fmt::Result {
        match self {
            RecordType::ModeIsInclude => write!(f, "is include"),
            RecordType::ModeIsExclude => write!(f, "is exclude"),
            RecordType::ChangeToInclude => write!(f, "to include"),
            RecordType::ChangeToExclude => write!(f, "to exclude"),
            RecordType::AllowNewSources => write!(f, "allow"),
            RecordType::BlockOldSources => write!(f, "block"),
            RecordType::Unknown(number) => write!(f, "{number}"),
        }
    }
}

/// A record, read in place.
#[derive(Clone, Copy, Debug)]
pub struct GroupRecord<'a> {
    pub record_type: RecordType,
    /// The bytes of the group's address.
    pub group: &'a [u8],
    /// The bytes of the sources' addresses, one after the other.
    pub sources: &'a [u8],
}

impl<'a> GroupRecord<'a> {
    /// The record at the front, of addresses of `width` bytes, and the bytes after it.
    pub fn parse(bytes: &'a [u8], width: usize) -> Result<(GroupRecord<'a>, &'a [u8]), Error>
        requires { width ≤ 16 }
        ensures found { IfOk result (λ p. Begins width bytes.now (value_of p.0) p.1.now) }
        ensures only { (v : RecordValue) (rest : List ℕ)
            → Begins width bytes.now v rest
            → IsOk result × IfOk result (λ p. (value_of p.0 ≡ v) × (p.1.now ≡ rest)) }
    {
        if bytes.len() < GROUP_RECORD_LEN + width {
            return Err(Error);
        }
        let sources_len = width * read_u16(bytes, 2) as usize;
        let auxiliary_len = WORD * bytes[1] as usize;
        if bytes.len() < GROUP_RECORD_LEN + width + sources_len + auxiliary_len {
            return Err(Error);
        }
        let (_front, after) = bytes.split_at(GROUP_RECORD_LEN);
        let (group, after) = after.split_at(width);
        let (sources, after) = after.split_at(sources_len);
        let (_auxiliary, rest) = after.split_at(auxiliary_len);
        let record = GroupRecord {
            record_type: RecordType::from(bytes[0]),
            group,
            sources,
        };
        Ok((record, rest))
    }
}

/// Whether `number` records of addresses of `width` bytes stand here.
pub fn are_records(bytes: &[u8], width: usize, number: u16) -> bool
    requires { width ≤ 16 }
    ensures { IsTrue result ↔ AreRecords width number bytes.now }
{
    let mut rest = bytes;
    let mut left = number;
    while left > 0 {
        let Ok((_record, following)) = GroupRecord::parse(rest, width) else {
            return false;
        };
        rest = following;
        left -= 1;
    }
    true
}

/// Writes a record of this type and group, which names no source, over the whole buffer.
pub fn emit_record(buffer: &mut [u8], record_type: RecordType, group: &[u8])
    requires { length buffer.old ≡ 4 + length group.now }
    ensures { buffer.new ≡ record_spelling record_type group.now }
{
    let (front, rest) = buffer.split_at_mut(GROUP_RECORD_LEN);
    front.copy_from_slice(&[record_type.into(), 0, 0, 0]);
    rest.copy_from_slice(group);
}
