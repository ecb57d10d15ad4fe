//! Where the fields of a message stand.
use std::ops::Range;

/// The offsets of a field in a message.
pub type Field = Range<usize>;

pub const TYPE: usize = 0;

pub const CODE: usize = 1;

pub const CHECKSUM: Field = 2..4;

/// What has no meaning in destination unreachable and time exceeded.
pub const UNUSED: Field = 4..8;

pub const MTU: Field = 4..8;

pub const POINTER: Field = 4..8;

pub const ECHO_IDENT: Field = 4..6;

pub const ECHO_SEQNO: Field = 6..8;

/// The flags of a neighbour advertisement.
pub const ND_FLAGS: usize = 4;

/// The address that a neighbour message is about.
pub const TARGET_ADDR: Field = 8..24;

/// The length of the header of all messages but those of neighbour discovery and of groups.
pub const HEADER_END: usize = 8;
