//! Datagrams, where they are written. `app_decode` reads and writes them as data.
ghost use Rattle.std.specs.Prelude.{◌≡◌, ◌+◌, ◌<◌, length};
ghost use Rattle.net_base.specs.Capabilities.{computes};
ghost use Rattle.ip_wire.specs.Udp as Udp;

use crate::cases::all;
use crate::formats::samples::{DATAGRAM, LEFT, RIGHT, checksums, first, following, is_same, put};
use ip_wire::{IpAddress, UdpPacket, UdpPacketMut, UdpRepr};
use net_base::ChecksumCapabilities;

/// The ports of the datagram of the samples, and its payload.
const PORTS: UdpRepr = UdpRepr {
    src_port: 48896,
    dst_port: 53,
};

const PAYLOAD: [u8; 4] = [0xaa, 0x00, 0x00, 0xff];

#[test]
fn datagram_is_set(rt: HostRuntime) {
    let mut bytes = [0xff; 12];
    let mut packet = UdpPacketMut::new_unchecked(&mut bytes);
    packet.set_src_port(48896);
    packet.set_dst_port(53);
    packet.set_len(12);
    packet.set_checksum(0x124d);
    let set = (
        packet.src_port(),
        packet.dst_port(),
        packet.len(),
        packet.checksum(),
    );
    all(
        &rt,
        &[
            set == (48896, 53, 12, 0x124d),
            is_same(first(packet.into_inner(), 8), first(&DATAGRAM, 8)),
        ],
    );
}

/// Whether a datagram, where it is written, is whole, right and carries this payload.
fn carries(bytes: &mut [u8], payload: &[u8]) -> bool {
    match UdpPacketMut::new_checked(bytes) {
        Ok(packet) => {
            packet.check_len().is_ok()
                && packet.verify_checksum(&LEFT, &RIGHT)
                && packet.payload() == payload
        }
        Err(_) => false,
    }
}

/// Fills in the checksum, and tells it.
fn sealed(bytes: &mut [u8]) -> Option<u16> {
    let mut packet = UdpPacketMut::new_checked(bytes).ok()?;
    packet.fill_checksum(&LEFT, &RIGHT);
    Some(UdpPacket::new_checked(bytes).ok()?.checksum())
}

/// Fills the payload, and says whether there is a datagram.
fn is_filled(bytes: &mut [u8], byte: u8) -> bool {
    match UdpPacketMut::new_checked(bytes) {
        Ok(mut packet) => {
            packet.payload_mut().fill(byte);
            true
        }
        Err(_) => false,
    }
}

#[test]
fn checksum_is_filled_in_and_the_payload_alone_lent(rt: HostRuntime) {
    let mut bytes = [0xa5; 14];
    bytes[..12].copy_from_slice(&DATAGRAM);
    let carried = carries(&mut bytes, &PAYLOAD);
    put(&mut bytes, 6, 0xff);
    put(&mut bytes, 7, 0xff);
    all(
        &rt,
        &[
            carried,
            sealed(&mut bytes) == Some(0x124d),
            is_filled(&mut bytes, 7),
            is_same(first(&bytes, 8), first(&DATAGRAM, 8)),
            is_same(following(&bytes, 8), &[7, 7, 7, 7, 0xa5, 0xa5]),
        ],
    );
}

/// Writes a datagram with this payload through a closure that copies it.
fn emit_copy(
    frame: &mut [u8],
    header: &UdpRepr,
    source: &IpAddress,
    destination: &IpAddress,
    payload: &[u8],
    checksum_caps: &ChecksumCapabilities,
)
    requires room { length frame.old ≡ 8 + length payload.now }
    requires fits { Udp.Fits source.now destination.now payload.now }
    ensures { frame.new
        ≡ Udp.written source.now destination.now (computes checksum_caps.now.udp) header.now payload.now }
{
    let copy = |offset: &mut [u8]| offset.copy_from_slice(payload);
    let mut packet = UdpPacketMut::new_unchecked(frame);
    header.emit_with(
        &mut packet,
        source,
        destination,
        payload.len(),
        copy,
        checksum_caps,
    );
}

/// That datagram is written, with its checksum or without.
fn emit_sample(bytes: &mut [u8; 12], with_checksum: bool) {
    emit_copy(
        bytes,
        &PORTS,
        &LEFT,
        &RIGHT,
        &PAYLOAD,
        &checksums(with_checksum),
    );
}

#[test]
fn payload_is_written_in_place(rt: HostRuntime) {
    let mut bytes = [0xa5; 12];
    emit_sample(&mut bytes, true);
    let whole = is_same(&bytes, &DATAGRAM);
    emit_sample(&mut bytes, false);
    // The device computes it.
    all(&rt, &[whole, is_same(&bytes[6..8], &[0, 0])]);
}

#[test]
fn closure_finds_what_the_buffer_held(rt: HostRuntime) {
    let left = IpAddress::v6(0x2001, 0xdb8, 0, 0, 0, 0, 0, 1);
    let right = IpAddress::v6(0x2001, 0xdb8, 0, 0, 0, 0, 0, 2);
    let mut bytes = [
        0xff, 0xff, 0xff, 0xff, 0xff, 0xff, 0xff, 0xff, 1, 2, 3, 4, 0,
    ];
    let mut packet = UdpPacketMut::new_unchecked(&mut bytes);
    let header = UdpRepr {
        src_port: 5353,
        dst_port: 53,
    };
    let last = |offset: &mut [u8]| {
        if let Some(byte) = offset.last_mut() {
            *byte = 5;
        }
    };
    header.emit_with(
        &mut packet,
        &left,
        &right,
        5,
        last,
        &ChecksumCapabilities::default(),
    );
    let want = [
        0x14, 0xe9, 0x00, 0x35, 0x00, 0x0d, 0x86, 0x3b, 1, 2, 3, 4, 5,
    ];
    assert!(rt; is_same(&bytes, &want));
}
