//! Where the fields of a header stand.

use crate::Field;

pub const VER_IHL: usize = 0;

pub const DSCP_ECN: usize = 1;

pub const LENGTH: Field = 2..4;

pub const IDENT: Field = 4..6;

pub const FLG_OFF: Field = 6..8;

pub const TTL: usize = 8;

pub const PROTOCOL: usize = 9;

pub const CHECKSUM: Field = 10..12;

pub const SRC_ADDR: Field = 12..16;

pub const DST_ADDR: Field = 16..20;

/// The length of a header without options.
pub const HEADER_LEN: usize = 20;
