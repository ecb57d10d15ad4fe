//! Views of TCP segments that write in place.
use crate::cases::all;
use crate::formats::samples::{LEFT, RIGHT, first, following, is_same};
use crate::formats::tcp_segments::{RANGES, SYN_BYTES};
use ip_wire::{Error, SeqNumber, TcpPacketMut};

// The same fields through the writing view, and those of a segment with ranges.
/// Ports, numbers, the header's length, window, checksum and urgent pointer.
type Fields = (u16, u16, SeqNumber, SeqNumber, u8, u16, u16, u16);

const FIELDS: Fields = (
    49500,
    80,
    SeqNumber(100),
    SeqNumber(5500),
    56,
    1000,
    0x32b0,
    0,
);

fn fields(bytes: &mut [u8]) -> Result<Fields, Error> {
    let packet = TcpPacketMut::new_checked(bytes)?;
    Ok((
        packet.src_port(),
        packet.dst_port(),
        packet.seq_number(),
        packet.ack_number(),
        packet.header_len(),
        packet.window_len(),
        packet.checksum(),
        packet.urgent_at(),
    ))
}

/// Whether the segment's length is right, the numbers it takes, and whether acknowledgements may have ranges.
type Said = (bool, usize, Result<bool, Error>);

fn said(bytes: &mut [u8]) -> Result<Said, Error> {
    if bytes.len() > 0xffff {
        return Err(Error);
    }
    let packet = TcpPacketMut::new_checked(bytes)?;
    Ok((
        packet.check_len().is_ok(),
        packet.segment_len(),
        packet.selective_ack_permitted(),
    ))
}

fn ranges(bytes: &mut [u8]) -> Result<[Option<(u32, u32)>; 3], Error> {
    TcpPacketMut::new_checked(bytes)?.selective_ack_ranges()
}

/// Whether these are the segment's options and its payload.
fn carries(bytes: &mut [u8], options: &[u8], payload: &[u8]) -> bool {
    match TcpPacketMut::new_checked(bytes) {
        Ok(packet) => packet.options() == options && packet.payload() == payload,
        Err(Error) => false,
    }
}

const ACKNOWLEDGED: [Option<(u32, u32)>; 3] = [
    Some((8000, 8500)),
    Some((7000, 7500)),
    Some((6000, 6500)),
];

#[test]
fn reads_what_it_can_write(rt: HostRuntime) {
    let mut buffer = RANGES;
    all(
        &rt,
        &[
            fields(&mut buffer) == Ok(FIELDS),
            fields(&mut [0x50; 19]).is_err(),
            said(&mut buffer) == Ok((true, 3, Ok(false))),
            ranges(&mut buffer) == Ok(ACKNOWLEDGED),
            carries(&mut buffer, first(following(&RANGES, 20), 36), b"ab\xff"),
        ],
    );
}

/// Fills the options, and says whether there is a segment.
fn fills_options(bytes: &mut [u8], byte: u8) -> bool {
    match TcpPacketMut::new_checked(bytes) {
        Ok(mut packet) => {
            packet.options_mut().fill(byte);
            true
        }
        Err(Error) => false,
    }
}

/// The same of its payload.
fn fills_payload(bytes: &mut [u8], byte: u8) -> bool {
    match TcpPacketMut::new_checked(bytes) {
        Ok(mut packet) => {
            packet.payload_mut().fill(byte);
            true
        }
        Err(Error) => false,
    }
}

/// The header's first 20 bytes, 36 bytes of options, and three of payload.
fn parts(bytes: &[u8]) -> (&[u8], &[u8], &[u8]) {
    (
        first(bytes, 20),
        first(following(bytes, 20), 36),
        following(bytes, 56),
    )
}

#[test]
fn options_alone_are_lent_and_the_payload_alone(rt: HostRuntime) {
    let mut buffer = RANGES;
    let (header, _, payload) = parts(&RANGES);
    let ones: &[u8] = &[1; 36];
    let twos: &[u8] = &[2; 3];
    all(
        &rt,
        &[
            fills_options(&mut buffer, 1),
            parts(&buffer) == (header, ones, payload),
            fills_payload(&mut buffer, 2),
            parts(&buffer) == (header, ones, twos),
        ],
    );
}

/// Sets the flags, if there is a header: a FIN, and none again.
fn set_flags(bytes: &mut [u8]) {
    if bytes.len() < 20 {
        return;
    }
    let mut packet = TcpPacketMut::new_unchecked(bytes);
    packet.clear_flags();
    packet.set_ack(true);
    packet.set_ns(true);
    packet.set_cwr(true);
    packet.set_fin(true);
    packet.set_fin(false);
}

/// Sets the numbers, if there is a header.
fn set_numbers(bytes: &mut [u8]) {
    if bytes.len() < 20 {
        return;
    }
    let mut packet = TcpPacketMut::new_unchecked(bytes);
    packet.set_header_len(24);
    packet.set_src_port(1);
    packet.set_dst_port(2);
    packet.set_seq_number(SeqNumber(0xfffffffe));
    packet.set_ack_number(SeqNumber(0x80000001));
    packet.set_window_len(0xffff);
    packet.set_urgent_at(9);
}

/// Sets the checksum, if there is a header.
fn set_checksum(bytes: &mut [u8], value: u16) {
    if bytes.len() >= 20 {
        TcpPacketMut::new_unchecked(bytes).set_checksum(value);
    }
}

/// Whether the checksum is right.
fn is_right(bytes: &mut [u8]) -> bool {
    if bytes.len() < 20 || bytes.len() > 0xffff {
        return false;
    }
    TcpPacketMut::new_unchecked(bytes).verify_checksum(&LEFT, &RIGHT)
}

/// Fills in the checksum, if there is a header.
fn seal(bytes: &mut [u8]) {
    if bytes.len() >= 20 && bytes.len() <= 0xffff {
        TcpPacketMut::new_unchecked(bytes).fill_checksum(&LEFT, &RIGHT);
    }
}

/// The bytes that the view holds.
fn held(bytes: &mut [u8]) -> &[u8] {
    TcpPacketMut::new_unchecked(bytes).into_inner()
}

const WRITTEN: [u8; 24] = [
    0x00, 0x01, 0x00, 0x02, 0xff, 0xff, 0xff, 0xfe, 0x80, 0x00, 0x00, 0x01, 0x61, 0x90, 0xff, 0xff,
    0x12, 0x34, 0x00, 0x09, 0xaa, 0x00, 0x00, 0xff,
];

#[test]
fn writes_every_field(rt: HostRuntime) {
    let mut buffer = SYN_BYTES;
    set_flags(&mut buffer);
    set_numbers(&mut buffer);
    seal(&mut buffer);
    let sealed = is_right(&mut buffer);
    set_checksum(&mut buffer, 0x1234);
    all(
        &rt,
        &[
            sealed,
            !is_right(&mut buffer),
            is_same(held(&mut buffer), &WRITTEN),
        ],
    );
}

/// Sets the five low flags from the lowest bit on, and tells each once it is set, where the segment is written.
fn low_flags(bytes: &mut [u8]) -> [bool; 5] {
    if bytes.len() < 20 {
        return [false; 5];
    }
    let mut packet = TcpPacketMut::new_unchecked(bytes);
    packet.set_fin(true);
    let fin = packet.fin();
    packet.set_syn(true);
    let syn = packet.syn();
    packet.set_rst(true);
    let rst = packet.rst();
    packet.set_psh(true);
    let psh = packet.psh();
    packet.set_ack(true);
    [fin, syn, rst, psh, packet.ack()]
}

/// The same of the other four.
fn high_flags(bytes: &mut [u8]) -> [bool; 4] {
    if bytes.len() < 20 {
        return [false; 4];
    }
    let mut packet = TcpPacketMut::new_unchecked(bytes);
    packet.set_urg(true);
    let urg = packet.urg();
    packet.set_ece(true);
    let ece = packet.ece();
    packet.set_cwr(true);
    let cwr = packet.cwr();
    packet.set_ns(true);
    [urg, ece, cwr, packet.ns()]
}

/// Clears two flags, and tells the length of a header whose length is set to 63.
fn cleared(bytes: &mut [u8]) -> Option<u8> {
    if bytes.len() < 20 {
        return None;
    }
    let mut packet = TcpPacketMut::new_unchecked(bytes);
    packet.set_syn(false);
    packet.set_urg(false);
    packet.set_header_len(63);
    Some(packet.header_len())
}

// RFC 9293, section 3.1, and RFC 3540, section 9: the bits of bytes 12 and 13.
#[test]
fn sets_each_flag(rt: HostRuntime) {
    let mut buffer = [0; 20];
    all(
        &rt,
        &[
            low_flags(&mut buffer) == [true; 5],
            is_same(first(following(&buffer, 13), 1), &[0x1f]),
            high_flags(&mut buffer) == [true; 4],
            cleared(&mut buffer) == Some(60),
            is_same(first(following(&buffer, 12), 2), &[0xf1, 0xdd]),
        ],
    );
}
