//! Where the fields of a message stand.
use std::ops::Range;

/// The offsets of a field in a message.
pub type Field = Range<usize>;

pub const TYPE: usize = 0;

pub const CODE: usize = 1;

pub const CHECKSUM: Field = 2..4;

/// In a query.
pub const QUERY_MAX_RESP_CODE: Field = 4..6;

/// In a report of version 2.
pub const NR_MCAST_RCRDS: Field = 6..8;

/// In all messages but a report of version 2.
pub const QUERY_MCAST_ADDR: Field = 8..24;

/// The length of the header of a report of version 2.
pub const HEADER_END: usize = 8;

/// The length of a message of version 1.
pub const MESSAGE_END: usize = 24;

/// In a query of version 2.
pub const SQRV: usize = 24;

/// In a query of version 2.
pub const QQIC: usize = 25;

/// In a query of version 2.
pub const QUERY_NUM_SRCS: Field = 26..28;

/// The length of the header of a query of version 2.
pub const QUERY_END: usize = 28;
