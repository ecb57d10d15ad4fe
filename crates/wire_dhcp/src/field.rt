//! Where the fields of a message stand (RFC 2131, section 2), and the codes of its options
//! (RFC 2132).
use std::ops::Range;

/// The offsets of a field in a message.
pub type Field = Range<usize>;

pub const OP: usize = 0;

pub const HTYPE: usize = 1;

pub const HLEN: usize = 2;

pub const HOP_LIMIT: usize = 3;

pub const XID: Field = 4..8;

pub const SECS: Field = 8..10;

pub const FLAGS: Field = 10..12;

pub const CIADDR: Field = 12..16;

pub const YIADDR: Field = 16..20;

pub const SIADDR: Field = 20..24;

pub const GIADDR: Field = 24..28;

pub const CHADDR: Field = 28..34;

pub const SNAME: Field = 44..108;

pub const FILE: Field = 108..236;

pub const MAGIC_NUMBER: Field = 236..240;

/// The length of the fixed fields, the magic number included.
pub const HEADER_LEN: usize = 240;

/// What stands before the options (RFC 2132, section 2).
pub const DHCP_MAGIC_NUMBER: u32 = 0x6382_5363;
/// The number of Ethernet in the field of hardware types (RFC 1700).
pub const HTYPE_ETHERNET: u8 = 1;

pub const OPT_PAD: u8 = 0;

pub const OPT_SUBNET_MASK: u8 = 1;

pub const OPT_ROUTER: u8 = 3;

pub const OPT_DOMAIN_NAME_SERVER: u8 = 6;

pub const OPT_HOST_NAME: u8 = 12;

pub const OPT_REQUESTED_IP: u8 = 50;

pub const OPT_IP_LEASE_TIME: u8 = 51;

pub const OPT_OPTION_OVERLOAD: u8 = 52;

pub const OPT_DHCP_MESSAGE_TYPE: u8 = 53;

pub const OPT_SERVER_IDENTIFIER: u8 = 54;

pub const OPT_PARAMETER_REQUEST_LIST: u8 = 55;

pub const OPT_MAX_DHCP_MESSAGE_SIZE: u8 = 57;

pub const OPT_RENEWAL_TIME_VALUE: u8 = 58;

pub const OPT_REBINDING_TIME_VALUE: u8 = 59;

pub const OPT_CLIENT_ID: u8 = 61;

pub const OPT_END: u8 = 255;
