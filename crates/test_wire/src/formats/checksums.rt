//! The Internet checksum over bytes from outside.
use crate::cases::{all, holds_at};
use crate::formats::samples::{LEFT, RIGHT, first, following};
use ip_wire::{IpAddress, IpProtocol, checksum};

fn sum(bytes: &[u8]) -> u16 {
    checksum::data(bytes)
}

fn sum_of_both(first: u16, second: u16) -> u16 {
    checksum::combine(&[first, second])
}

fn added(first: u16, second: u16) -> u16 {
    checksum::add(first, second)
}

/// The sum that a copy answers, if the bytes are those that were copied.
fn sum_of_copy(from: &[u8]) -> Option<u16> {
    let mut room = [0x5a; 300];
    let to = room.get_mut(..from.len())?;
    let sum = checksum::copy(to, from);
    (*to == *from).then_some(sum)
}

/// The sum of both, from the sums of the bytes up to this offset and of those after it.
fn joined_at(bytes: &[u8], offset: usize) -> u16 {
    let front = first(bytes, offset);
    checksum::join(sum(front), front.len(), sum(following(bytes, offset)))
}

/// 300 bytes, of which hardly two in a row are alike.
fn many() -> [u8; 300] {
    let mut bytes = [0; 300];
    for (offset, byte) in bytes.iter_mut().enumerate() {
        *byte = ((offset * 37 + 11) % 251) as u8;
    }
    bytes
}

/// RFC 1071, section 3: the sum of these bytes is 2ddf0, which folds to ddf2.
const EXAMPLE: [u8; 8] = [0x00, 0x01, 0xf2, 0x03, 0xf4, 0xf5, 0xf6, 0xf7];

/// A TCP segment from 192.168.1.1 to 192.168.1.2.
const SEGMENT: [u8; 24] = [
    0xbf, 0x00, 0x00, 0x50, 0x01, 0x23, 0x45, 0x67, 0x00, 0x00, 0x00, 0x00, 0x50, 0x02, 0x01, 0x23,
    0x7a, 0x8d, 0x00, 0x00, 0xaa, 0x00, 0x00, 0xff,
];

/// An ICMPv6 message from fd00::2 to ff02::1:ff00:1.
const MESSAGE: [u8; 32] = [
    0x87, 0x00, 0x7d, 0x97, 0, 0, 0, 0, 0xfd, 0, 0, 0, 0, 0, 0, 0, 0, 0, 0, 0, 0, 0, 0, 1, 0x01,
    0x01, 0x02, 0, 0, 0, 0, 0x02,
];

// The checksums of both hold.
#[test]
fn sums_the_example_and_packets(rt: HostRuntime) {
    let of_segment = checksum::pseudo_header(&LEFT, &RIGHT, IpProtocol::Tcp, 24);
    let source = IpAddress::v6(0xfd00, 0, 0, 0, 0, 0, 0, 2);
    let destination = IpAddress::v6(0xff02, 0, 0, 0, 0, 1, 0xff00, 1);
    let of_message = checksum::pseudo_header(&source, &destination, IpProtocol::Icmpv6, 32);
    all(
        &rt,
        &[
            sum_of_both(of_segment, sum(&SEGMENT)) == 0xffff,
            sum_of_both(of_message, sum(&MESSAGE)) == 0xffff,
            sum(&EXAMPLE) == 0xddf2,
            sum(first(&EXAMPLE, 7)) == 0xdcfb,
            sum(&[]) == 0,
            sum(&[0xff; 64]) == 0xffff,
            sum_of_both(sum(first(&EXAMPLE, 2)), sum(following(&EXAMPLE, 2))) == 0xddf2,
            added(added(0x0001, 0xf203), added(0xf4f5, 0xf6f7)) == 0xddf2,
            added(0xffff, 0xffff) == 0xffff,
        ],
    );
}

// The sums are those of another program. A copy takes 64 bytes a step.
#[test]
fn copies_are_summed(rt: HostRuntime) {
    let bytes = many();
    let sums = [
        (0, 0),
        (1, 0x0b00),
        (2, 0x0b30),
        (63, 0x62c9),
        (64, 0x631c),
        (65, 0xdb1c),
        (127, 0xad54),
        (128, 0xae14),
        (129, 0x9315),
        (255, 0xed27),
        (256, 0xedc6),
        (257, 0xb1c7),
        (300, 0x091f),
    ];
    for (len, sum) in sums {
        holds_at(
            &rt,
            sum_of_copy(first(&bytes, len)) == Some(sum),
            "bytes",
            len,
        );
    }
    all(
        &rt,
        &[
            sum_of_copy(&EXAMPLE) == Some(0xddf2),
            sum_of_copy(first(&EXAMPLE, 7)) == Some(0xdcfb),
            sum_of_copy(&[0xff; 256]) == Some(0xffff),
            sum_of_copy(&[0xff; 299]) == Some(0xff00),
            sum_of_copy(&[0; 128]) == Some(0),
        ],
    );
}

#[test]
fn sums_are_joined_at_each_offset(rt: HostRuntime) {
    let bytes = many();
    for offset in [0, 1, 2, 63, 64, 65, 128, 129, 299, 300] {
        holds_at(&rt, joined_at(&bytes, offset) == 0x091f, "place", offset);
    }
    all(
        &rt,
        &[
            joined_at(&EXAMPLE, 2) == 0xddf2,
            joined_at(&EXAMPLE, 3) == 0xddf2,
            joined_at(first(&EXAMPLE, 7), 3) == 0xdcfb,
            joined_at(first(&EXAMPLE, 7), 4) == 0xdcfb,
            joined_at(&[0xff; 9], 5) == 0xff00,
        ],
    );
}
