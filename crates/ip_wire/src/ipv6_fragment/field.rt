//! Where the fields stand.

use crate::Field;

pub const FR_OF_M: Field = 0..2;

pub const M: usize = 1;

pub const IDENT: Field = 2..6;

/// The length of the header.
pub const HEADER_LEN: usize = 6;
