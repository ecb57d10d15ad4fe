//! Packets from outside that several tests read and write, and the comparisons of tests.
//!
//! A call of a function with a contract is proved at each place where it stands. So tests reach such functions through helpers
//! that have none, in which each call stands once, and hand them tables.
use ip_wire::{IpAddress, IpProtocol, Ipv4Address, Ipv4Repr};
use net_base::ChecksumCapabilities;

pub const LEFT: IpAddress = IpAddress::Ipv4(Ipv4Address([192, 168, 1, 1]));

pub const RIGHT: IpAddress = IpAddress::Ipv4(Ipv4Address([192, 168, 1, 2]));

/// A datagram from 192.168.1.1, port 48896, to 192.168.1.2, port 53.
pub const DATAGRAM: [u8; 12] = [
    0xbf, 0x00, 0x00, 0x35, 0x00, 0x0c, 0x12, 0x4d, 0xaa, 0x00, 0x00, 0xff,
];

/// A header of 20 bytes from 192.168.0.1 to 192.168.0.199, that may not be cut, and its payload's
/// 95 bytes.
pub const HEADER: [u8; 20] = [
    0x45, 0x00, 0x00, 0x73, 0x00, 0x00, 0x40, 0x00, 0x40, 0x11, 0xb8, 0x61, 0xc0, 0xa8, 0x00, 0x01,
    0xc0, 0xa8, 0x00, 0xc7,
];

/// A packet with the option router alert, and two bytes of padding.
pub const WITH_OPTION: [u8; 34] = [
    0x46, 0xc0, 0x00, 0x20, 0x12, 0x34, 0x21, 0x05, 0x01, 0x02, 0x00, 0x00, 0x0a, 0x00, 0x00, 0x01,
    0xe0, 0x00, 0x00, 0x16, 0x94, 0x04, 0x00, 0x00, 1, 2, 3, 4, 5, 6, 7, 8, 0, 0,
];

/// Four bytes over IPv6 from fe80::1 to ff02::1, with class and flow, and two bytes of padding.
pub const OVER_V6: [u8; 46] = [
    0x6f, 0xe1, 0x23, 0x45, 0x00, 0x04, 0x11, 0x40, 0xfe, 0x80, 0, 0, 0, 0, 0, 0, 0, 0, 0, 0, 0, 0,
    0, 1, 0xff, 0x02, 0, 0, 0, 0, 0, 0, 0, 0, 0, 0, 0, 0, 0, 1, 1, 2, 3, 4, 0, 0,
];

/// What that header says.
pub const SAID: Ipv4Repr = Ipv4Repr {
    src_addr: Ipv4Address([192, 168, 0, 1]),
    dst_addr: Ipv4Address([192, 168, 0, 199]),
    next_header: IpProtocol::Udp,
    payload_len: 95,
    hop_limit: 64,
    ident: 0,
    dont_frag: true,
};

/// That header, and zeros for its payload.
pub fn captured() -> [u8; 115] {
    let mut frame = [0; 115];
    frame[..20].copy_from_slice(&HEADER);
    frame
}

pub fn starts_with(bytes: &[u8], front: &[u8]) -> bool {
    bytes.starts_with(front)
}

pub fn ends_with(bytes: &[u8], end: &[u8]) -> bool {
    bytes.ends_with(end)
}

pub fn is_same(found: &[u8], wanted: &[u8]) -> bool {
    found == wanted
}

/// Puts a byte at an offset, if there is one.
pub fn put(bytes: &mut [u8], at: usize, byte: u8) {
    if let Some(offset) = bytes.get_mut(at) {
        *offset = byte;
    }
}

/// The first of these bytes, so many.
pub fn first(bytes: &[u8], len: usize) -> &[u8] {
    bytes.get(..len).unwrap_or(bytes)
}

/// The bytes after so many.
pub fn following(bytes: &[u8], len: usize) -> &[u8] {
    bytes.get(len..).unwrap_or(bytes)
}

/// All checksums are verified and written, or none is.
pub fn checksums(are_ours: bool) -> ChecksumCapabilities {
    if are_ours {
        ChecksumCapabilities::default()
    } else {
        ChecksumCapabilities::ignored()
    }
}
