//! Where the fields of a header stand.
ghost use Rattle.std.specs.Prelude.{◌≡◌};

use crate::Field;

pub const SRC_PORT: Field = 0..2;

pub const DST_PORT: Field = 2..4;

pub const LENGTH: Field = 4..6;

pub const CHECKSUM: Field = 6..8;

/// The payload of a datagram whose length field holds `length`.
pub const fn PAYLOAD(length: u16) -> Field
    ensures { result ≡ record { start = 8; end = length } }
{
    8..(length as usize)
}

/// The length of the header.
pub const HEADER_LEN: usize = 8;
