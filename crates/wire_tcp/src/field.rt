//! Where the fields of a segment stand.
ghost use Rattle.std.specs.Prelude.{◌≡◌};

use std::ops::Range;

/// The offsets of a field in a header.
pub type Field = Range<usize>;

pub const SRC_PORT: Field = 0..2;

pub const DST_PORT: Field = 2..4;

pub const SEQ_NUM: Field = 4..8;

pub const ACK_NUM: Field = 8..12;

/// The header's length, reserved bits and flags.
pub const FLAGS: Field = 12..14;

pub const WIN_SIZE: Field = 14..16;

pub const CHECKSUM: Field = 16..18;

pub const URGENT: Field = 18..20;

/// The length of a header without options.
pub const HEADER_LEN: usize = URGENT.end;

/// The bit of each flag in the field of two bytes.
pub const FLG_FIN: u16 = 0x001;

pub const FLG_SYN: u16 = 0x002;

pub const FLG_RST: u16 = 0x004;

pub const FLG_PSH: u16 = 0x008;

pub const FLG_ACK: u16 = 0x010;

pub const FLG_URG: u16 = 0x020;

pub const FLG_ECE: u16 = 0x040;

pub const FLG_CWR: u16 = 0x080;

pub const FLG_NS: u16 = 0x100;

/// The kinds of option that are read and written.
pub const OPT_END: u8 = 0x00;

pub const OPT_NOP: u8 = 0x01;

pub const OPT_MSS: u8 = 0x02;

pub const OPT_WS: u8 = 0x03;

pub const OPT_SACKPERM: u8 = 0x04;

pub const OPT_SACKRNG: u8 = 0x05;

pub const OPT_TSTAMP: u8 = 0x08;

/// The options of a segment whose header is so long.
pub const fn OPTIONS(length: u8) -> Field
    ensures { result ≡ record { start = 20; end = length } }
{
    20..(length as usize)
}
