//! Where the fields of a message stand.
use std::ops::Range;

/// The offsets of a field in a message.
pub type Field = Range<usize>;

pub const TYPE: usize = 0;

/// The code that says how long an answer may take, in a query.
pub const MAX_RESP_CODE: usize = 1;

pub const CHECKSUM: Field = 2..4;

/// In all messages but a report of version 3.
pub const GROUP_ADDRESS: Field = 4..8;

/// In a report of version 3.
pub const NUM_RECORDS: Field = 6..8;

/// The length of every message's header but a query's of version 3.
pub const HEADER_END: usize = 8;

/// In a query of version 3.
pub const SQRV: usize = 8;

/// In a query of version 3.
pub const QQIC: usize = 9;

/// In a query of version 3.
pub const NUM_SRCS: Field = 10..12;

/// The length of the header of a query of version 3.
pub const QUERY_END: usize = 12;
