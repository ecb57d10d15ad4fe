//! Where the fields stand.
ghost use Rattle.std.specs.Prelude.{◌≡◌, ◌+◌};

use crate::Field;

pub const HTYPE: Field = 0..2;

pub const PTYPE: Field = 2..4;

pub const HLEN: usize = 4;

pub const PLEN: usize = 5;

pub const OPER: Field = 6..8;

/// The sender's hardware address.
pub const fn SHA(hardware_len: u8, _protocol_len: u8) -> Field
    ensures { result ≡ record { start = 8; end = 8 + hardware_len } }
{
    8..8 + hardware_len as usize
}

/// The sender's protocol address.
pub const fn SPA(hardware_len: u8, protocol_len: u8) -> Field
    ensures { result
        ≡ record { start = 8 + hardware_len; end = 8 + hardware_len + protocol_len } }
{
    let start = 8 + hardware_len as usize;
    start..start + protocol_len as usize
}

/// The target's hardware address.
pub const fn THA(hardware_len: u8, protocol_len: u8) -> Field
    ensures { result
        ≡ record { start = 8 + hardware_len + protocol_len; end = 8 + hardware_len + protocol_len + hardware_len } }
{
    let start = 8 + hardware_len as usize + protocol_len as usize;
    start..start + hardware_len as usize
}

/// The target's protocol address.
pub const fn TPA(hardware_len: u8, protocol_len: u8) -> Field
    ensures { result
        ≡ record { start = 8 + hardware_len + protocol_len + hardware_len; end = 8 + hardware_len + protocol_len + hardware_len + protocol_len } }
{
    let start = 8 + hardware_len as usize + protocol_len as usize + hardware_len as usize;
    start..start + protocol_len as usize
}

/// The length of a packet over Ethernet for IPv4.
pub const PACKET_LEN: usize = 28;
