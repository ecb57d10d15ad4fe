//! Where the fields of a header stand.

use crate::Field;

pub const VER_TC_FLOW: Field = 0..4;

pub const LENGTH: Field = 4..6;

pub const NXT_HDR: usize = 6;

pub const HOP_LIMIT: usize = 7;

pub const SRC_ADDR: Field = 8..24;

pub const DST_ADDR: Field = 24..40;

/// The length of the header.
pub const HEADER_LEN: usize = 40;
