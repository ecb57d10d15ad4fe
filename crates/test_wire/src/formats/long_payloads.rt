//! Payloads of 300 bytes, whose sum is taken while they are copied. The checksums are from outside.
ghost use Rattle.std.specs.Prelude.{◌≡◌};
ghost use Rattle.ip_wire.specs.Address.{version_of};

use crate::cases::all;
use crate::formats::samples::{LEFT, RIGHT, first, following, is_same};
use ip_wire::{
    IpAddress, Ipv6Address, SeqNumber, TcpControl, TcpHeader, TcpOptions, TcpPacketMut,
    UdpPacketMut, UdpRepr,
};
use net_base::ChecksumCapabilities;

const V6_LEFT: IpAddress = IpAddress::Ipv6(Ipv6Address([
    0x20, 0x01, 0x0d, 0xb8, 0, 0, 0, 0, 0, 0, 0, 0, 0, 0, 0, 1,
]));

const V6_RIGHT: IpAddress = IpAddress::Ipv6(Ipv6Address([
    0x20, 0x01, 0x0d, 0xb8, 0, 0, 0, 0, 0, 0, 0, 0, 0, 0, 0, 2,
]));

const SEGMENT: TcpHeader = TcpHeader {
    src_port: 48896,
    dst_port: 80,
    control: TcpControl::Psh,
    seq_number: SeqNumber(0x01234567),
    ack_number: Some(SeqNumber(0x89abcdef)),
    window_len: 0x0123,
    options: TcpOptions {
        max_seg_size: None,
        window_scale: None,
        sack_permitted: false,
        sack_ranges: [None; 3],
        timestamp: None,
    },
};

const DATAGRAM: UdpRepr = UdpRepr {
    src_port: 48896,
    dst_port: 53,
};

/// The bytes 0 to 250, over and over, and these two at the end.
fn payload(last: [u8; 2]) -> [u8; 300] {
    let mut bytes = [0; 300];
    for (offset, byte) in bytes.iter_mut().enumerate() {
        *byte = (offset % 251) as u8;
    }
    bytes[298] = last[0];
    bytes[299] = last[1];
    bytes
}

/// The segment with that payload in two parts, the first of 151 bytes.
fn segment(source: &IpAddress, destination: &IpAddress) -> [u8; 320]
    requires { version_of source.now ≡ version_of destination.now }
{
    let text = payload([47, 48]);
    let (front, rest) = text.split_at(151);
    let mut frame = [0xa5; 320];
    SEGMENT.emit_parts(
        &mut TcpPacketMut::new_unchecked(&mut frame),
        source,
        destination,
        front,
        rest,
        &ChecksumCapabilities::default(),
    );
    frame
}

/// The datagram with that payload.
fn datagram(source: &IpAddress, destination: &IpAddress, last: [u8; 2]) -> [u8; 308]
    requires { version_of source.now ≡ version_of destination.now }
{
    let mut frame = [0xa5; 308];
    DATAGRAM.emit(
        &mut UdpPacketMut::new_unchecked(&mut frame),
        source,
        destination,
        &payload(last),
        &ChecksumCapabilities::default(),
    );
    frame
}

/// Whether the segment has this checksum, and all else that it must have.
fn is_segment(found: &[u8], checksum: [u8; 2]) -> bool {
    let [high, low] = checksum;
    let header = [
        0xbf, 0x00, 0x00, 0x50, 0x01, 0x23, 0x45, 0x67, 0x89, 0xab, 0xcd, 0xef, 0x50, 0x18, 0x01,
        0x23, high, low, 0x00, 0x00,
    ];
    is_same(first(found, 20), &header) && is_same(following(found, 20), &payload([47, 48]))
}

/// The same of the datagram.
fn is_datagram(found: &[u8], checksum: [u8; 2], last: [u8; 2]) -> bool {
    let [high, low] = checksum;
    let header = [0xbf, 0x00, 0x00, 0x35, 0x01, 0x34, high, low];
    is_same(first(found, 8), &header) && is_same(following(found, 8), &payload(last))
}

#[test]
fn long_segments_are_sealed(rt: HostRuntime) {
    all(
        &rt,
        &[
            is_segment(&segment(&LEFT, &RIGHT), [0xc7, 0x12]),
            is_segment(&segment(&V6_LEFT, &V6_RIGHT), [0xee, 0xf1]),
        ],
    );
}

// The last word of the second and third datagram brings the sum to ffff, which is sent as it is.
#[test]
fn long_datagrams_are_sealed(rt: HostRuntime) {
    let plain = [47, 48];
    let (v4_ones, v6_ones) = ([0xe4, 0x8b], [0x0c, 0x6b]);
    all(
        &rt,
        &[
            is_datagram(&datagram(&LEFT, &RIGHT, plain), [0xb5, 0x5b], plain),
            is_datagram(&datagram(&LEFT, &RIGHT, v4_ones), [0xff, 0xff], v4_ones),
            is_datagram(
                &datagram(&V6_LEFT, &V6_RIGHT, v6_ones),
                [0xff, 0xff],
                v6_ones,
            ),
        ],
    );
}
