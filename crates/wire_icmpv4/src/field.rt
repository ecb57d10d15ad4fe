//! Where the fields of a message stand.
use std::ops::{Range, RangeFrom};

/// The offsets of a field in a header.
pub type Field = Range<usize>;

/// The offsets from the end of a header on.
pub type Rest = RangeFrom<usize>;

pub const TYPE: usize = 0;

pub const CODE: usize = 1;

pub const CHECKSUM: Field = 2..4;

/// In an echo message.
pub const ECHO_IDENT: Field = 4..6;

/// In an echo message.
pub const ECHO_SEQNO: Field = 6..8;

/// What lies after the header: the data of an echo message, the quoted packet of an error.
pub const DATA: Rest = 8..;

/// The length of every message's header.
pub const HEADER_END: usize = 8;
