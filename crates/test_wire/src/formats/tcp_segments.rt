//! Segments with their payload. `app_decode` reads and writes headers as data.
use crate::cases::{Case, all, all_hold};
use crate::formats::samples::{checksums, is_same};
use ip_wire::{
    Error, IpAddress, Ipv4Address, SeqNumber, TcpControl, TcpHeader, TcpOptions, TcpPacket,
    TcpPacketMut, TcpRepr,
};
use std::alloc::Global;

// A SYN with four bytes of payload.
pub const SYN_BYTES: [u8; 24] = [
    0xbf, 0x00, 0x00, 0x50, 0x01, 0x23, 0x45, 0x67, 0x00, 0x00, 0x00, 0x00, 0x50, 0x02, 0x01, 0x23,
    0x7a, 0x8d, 0x00, 0x00, 0xaa, 0x00, 0x00, 0xff,
];

const PAYLOAD: [u8; 4] = [0xaa, 0x00, 0x00, 0xff];

const NO_OPTIONS: TcpOptions = TcpOptions {
    max_seg_size: None,
    window_scale: None,
    sack_permitted: false,
    sack_ranges: [None; 3],
    timestamp: None,
};

/// The header of that SYN.
const SYN: TcpHeader = TcpHeader {
    src_port: 48896,
    dst_port: 80,
    control: TcpControl::Syn,
    seq_number: SeqNumber(0x01234567),
    ack_number: None,
    window_len: 0x0123,
    options: NO_OPTIONS,
};

/// Where segments come from and go to.
type Ends = (Ipv4Address, Ipv4Address);

const ENDS: Ends = (Ipv4Address([192, 168, 1, 1]), Ipv4Address([192, 168, 1, 2]));

/// The numbers that the segment takes, whether it takes none, the lengths of its header and of all.
fn lengths(segment: &TcpRepr<'_>) -> (usize, bool, usize, usize) {
    (
        segment.segment_len(),
        segment.is_empty(),
        segment.header_len(),
        segment.buffer_len(),
    )
}

/// Whether the bytes are read as a segment of this header, payload and lengths.
fn is_read(
    bytes: &[u8; 24],
    header: &TcpHeader,
    payload: &[u8],
    all: (usize, bool, usize, usize),
) -> bool {
    let (source, destination) = (IpAddress::Ipv4(ENDS.0), IpAddress::Ipv4(ENDS.1));
    let packet = TcpPacket::new_unchecked(bytes);
    match TcpRepr::parse(&packet, &source, &destination, &checksums(true)) {
        Ok(read) => { read.header() == *header && read.payload == payload && lengths(&read) == all }
        Err(Error) => false,
    }
}

/// Writes a segment into bytes for it.
fn emit_segment(segment: &TcpRepr<'_>, bytes: &mut [u8]) {
    let (header, all) = (segment.header_len(), segment.buffer_len());
    if header <= 60 && all <= 0xffff && bytes.len() == all {
        segment.emit(
            &mut TcpPacketMut::new_unchecked(bytes),
            &IpAddress::Ipv4(ENDS.0),
            &IpAddress::Ipv4(ENDS.1),
            &checksums(true),
        );
    }
}

// The last row of the third case of RFC 2018, section 4, over IPv6 with timestamps: 5500 is
// acknowledged, and three ranges after it have come.
pub const RANGES: [u8; 59] = [
    0xc1, 0x5c, 0x00, 0x50, 0x00, 0x00, 0x00, 0x64, 0x00, 0x00, 0x15, 0x7c, 0xe0, 0x10, 0x03, 0xe8,
    0x32, 0xb0, 0x00, 0x00, 0x05, 0x1a, 0x00, 0x00, 0x1f, 0x40, 0x00, 0x00, 0x21, 0x34, 0x00, 0x00,
    0x1b, 0x58, 0x00, 0x00, 0x1d, 0x4c, 0x00, 0x00, 0x17, 0x70, 0x00, 0x00, 0x19, 0x64, 0x08, 0x0a,
    0x00, 0x00, 0x00, 0x07, 0x00, 0x00, 0x00, 0x09, 0x61, 0x62, 0xff,
];

/// Whether acknowledgements may have ranges, the ranges, and how many numbers the segment takes.
type Acknowledged = (bool, [Option<(u32, u32)>; 3], usize);

fn acknowledged(bytes: &[u8]) -> Result<Acknowledged, Error> {
    if bytes.len() > 0xffff {
        return Err(Error);
    }
    let packet = TcpPacket::new_checked(bytes)?;
    Ok((
        packet.selective_ack_permitted()?,
        packet.selective_ack_ranges()?,
        packet.segment_len(),
    ))
}

const ACKNOWLEDGED: Acknowledged = (
    false,
    [Some((8000, 8500)), Some((7000, 7500)), Some((6000, 6500))],
    3,
);

#[test]
fn segments_are_read_and_written(rt: HostRuntime) {
    let mut buffer = [0x5a; 24];
    emit_segment(&TcpRepr::new(&SYN, &PAYLOAD), &mut buffer);
    all(
        &rt,
        &[
            is_read(&SYN_BYTES, &SYN, &PAYLOAD, (5, false, 20, 24)),
            is_same(&buffer, &SYN_BYTES),
            acknowledged(&RANGES) == Ok(ACKNOWLEDGED),
        ],
    );
}

/// A flag, what it is without PSH, how many numbers it takes, and whether a segment with it and no payload, which takes as many, is empty.
/// One with four bytes takes four more.
struct Flag(TcpControl, TcpControl, usize, bool);

impl Case for Flag {
    fn holds(&self, _alloc: Global) -> bool {
        let alone = (self.0.len(), self.0.quash_psh());
        alone == (self.2, self.1)
            && counted(self.0) == (self.2, self.3, self.2.wrapping_add(4), false)
    }
}

/// The numbers that a segment with this flag takes, and whether it is empty: without payload, and with four bytes.
fn counted(control: TcpControl) -> (usize, bool, usize, bool) {
    let header = TcpHeader { control, ..SYN };
    let (bare, is_empty, _, _) = lengths(&TcpRepr::new(&header, &[]));
    let (full, is_none, _, _) = lengths(&TcpRepr::new(&header, &PAYLOAD));
    (bare, is_empty, full, is_none)
}

const FLAGS: [Flag; 5] = [
    Flag(TcpControl::None, TcpControl::None, 0, true),
    Flag(TcpControl::Psh, TcpControl::None, 0, true),
    Flag(TcpControl::Syn, TcpControl::Syn, 1, false),
    Flag(TcpControl::Fin, TcpControl::Fin, 1, false),
    Flag(TcpControl::Rst, TcpControl::Rst, 0, false),
];

#[test]
fn counts_flags(rt: HostRuntime) {
    all_hold(&rt, &FLAGS);
}
