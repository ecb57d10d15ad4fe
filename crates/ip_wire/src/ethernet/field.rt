//! Where the fields stand.

use crate::{Field, Rest};

pub const DESTINATION: Field = 0..6;

pub const SOURCE: Field = 6..12;

pub const ETHERTYPE: Field = 12..14;

pub const PAYLOAD: Rest = 14..;

/// The length of the header.
pub const HEADER_LEN: usize = 14;
