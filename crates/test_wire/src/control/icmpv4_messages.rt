//! ICMPv4 messages as values, and where they are written. `app_decode` reads and writes them as data.
use crate::cases::all;
use control_wire::{
    Icmpv4DstUnreachable, Icmpv4Header, Icmpv4Message, Icmpv4PacketMut, Icmpv4Repr,
    Icmpv4TimeExceeded, icmpv4_field as field,
};
use ip_wire::{IpProtocol, Ipv4Address, Ipv4Repr};
use net_base::{Checksum, ChecksumCapabilities};

/// An echo request with three bytes of data.
const ODD_REQUEST: [u8; 11] = [
    0x08, 0x00, 0x21, 0x68, 0x12, 0x34, 0x00, 0x01, 0x61, 0x62, 0x63,
];

/// 192.168.1.2 says that it has no port 53, to which a datagram of four bytes went.
const PORT_UNREACHABLE: [u8; 40] = [
    0x03, 0x03, 0x80, 0x6e, 0x00, 0x00, 0x00, 0x00, 0x45, 0x00, 0x00, 0x20, 0x00, 0x00, 0x40, 0x00,
    0x40, 0x11, 0xb7, 0x79, 0xc0, 0xa8, 0x01, 0x01, 0xc0, 0xa8, 0x01, 0x02, 0xbf, 0x00, 0x00, 0x35,
    0x00, 0x0c, 0x12, 0x4d, 0xaa, 0x00, 0x00, 0xff,
];

/// What it says of that datagram.
const UNREACHABLE: Icmpv4Header = Icmpv4Header::DstUnreachable {
    reason: Icmpv4DstUnreachable::PortUnreachable,
    header: Ipv4Repr {
        src_addr: Ipv4Address([192, 168, 1, 1]),
        dst_addr: Ipv4Address([192, 168, 1, 2]),
        next_header: IpProtocol::Udp,
        payload_len: 12,
        hop_limit: 64,
        ident: 0,
        dont_frag: true,
    },
};

// The checksum of the quoted header is left to the device, and the message's own covers its zeros.
#[test]
fn a_checksum_is_left_to_the_device(rt: HostRuntime) {
    let checksum_caps = ChecksumCapabilities {
        ipv4: Checksum::Rx,
        ..ChecksumCapabilities::default()
    };
    let mut wanted = PORT_UNREACHABLE;
    wanted[18..20].copy_from_slice(&[0, 0]);
    wanted[2..4].copy_from_slice(&[0x37, 0xe8]);
    let mut bytes = [0xa5; 40];
    let message = Icmpv4Repr::new(&UNREACHABLE, &PORT_UNREACHABLE[28..]);
    message.emit(
        &mut Icmpv4PacketMut::new_unchecked(&mut bytes),
        &checksum_caps,
    );
    all(&rt, &[bytes == wanted, message.buffer_len() == 40]);
}

// Fields are set one by one; the data's offset alone is lent.
#[test]
fn message_is_set(rt: HostRuntime) {
    let mut bytes = [0xa5; 11];
    let mut packet = Icmpv4PacketMut::new_unchecked(&mut bytes);
    packet.data_mut().copy_from_slice(b"abc");
    let untouched = &bytes[..8] == [0xa5; 8].as_slice();
    let mut packet = Icmpv4PacketMut::new_checked(&mut bytes).expect(&rt, "whole");
    packet.set_msg_type(Icmpv4Message::EchoRequest);
    packet.set_msg_code(0);
    packet.set_echo_ident(0x1234);
    packet.set_echo_seq_no(1);
    packet.fill_checksum();
    let said = (
        packet.msg_type() == Icmpv4Message::EchoRequest,
        packet.msg_code(),
        packet.echo_ident(),
        packet.echo_seq_no(),
        packet.header_len(),
        packet.checksum(),
        packet.verify_checksum(),
    );
    packet.set_checksum(0xffff);
    let is_right = packet.verify_checksum();
    packet.fill_checksum();
    all(
        &rt,
        &[
            untouched,
            said == (true, 0, 0x1234, 1, 8, 0x2168, true),
            !is_right,
            &*packet.into_inner() == ODD_REQUEST.as_slice(),
        ],
    );
}

// RFC 792.
#[test]
fn fields_and_numbers_are_in_their_offsets(rt: HostRuntime) {
    let positions = [field::CHECKSUM, field::ECHO_IDENT, field::ECHO_SEQNO];
    all(
        &rt,
        &[
            [field::TYPE, field::CODE, field::HEADER_END] == [0, 1, 8],
            positions == [2..4, 4..6, 6..8],
            field::DATA == (8..),
            Icmpv4Message::from(9) == Icmpv4Message::RouterAdvert,
            u8::from(Icmpv4Message::Timestamp) == 13,
            u8::from(Icmpv4TimeExceeded::from(7)) == 7,
        ],
    );
}
