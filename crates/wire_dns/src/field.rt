//! Where the fields of a message stand (RFC 1035, section 4.1), and numbers in them.
use std::ops::Range;

/// The offsets of a field in a message.
pub type Field = Range<usize>;

pub const ID: Field = 0..2;

pub const FLAGS: Field = 2..4;

pub const QDCOUNT: Field = 4..6;

pub const ANCOUNT: Field = 6..8;

pub const NSCOUNT: Field = 8..10;

pub const ARCOUNT: Field = 10..12;

/// The length of the header.
pub const HEADER_LEN: usize = 12;

/// The class of the Internet.
pub const CLASS_IN: u16 = 1;
