//! ICMPv6 messages as values, and where they are written. `app_decode` reads and writes them as data.
use crate::cases::{Case, all, all_hold, holds_at};
use control_wire::{
    Icmpv6DstUnreachable, Icmpv6Header, Icmpv6Message, Icmpv6Packet, Icmpv6PacketMut,
    Icmpv6ParamProblem, Icmpv6Repr, Icmpv6TimeExceeded, icmpv6_field as field,
};
use ip_wire::Ipv6Address;
use net_base::ChecksumCapabilities;
use std::alloc::Global;
use std::process::Abort;

/// fd00::1, which sent the packets that errors are about.
const LEFT: Ipv6Address = Ipv6Address([0xfd, 0, 0, 0, 0, 0, 0, 0, 0, 0, 0, 0, 0, 0, 0, 1]);

/// fd00::2, which sends the errors.
const RIGHT: Ipv6Address = Ipv6Address([0xfd, 0, 0, 0, 0, 0, 0, 0, 0, 0, 0, 0, 0, 0, 0, 2]);

/// An echo request from fd00::1 to fd00::2.
const REQUEST: [u8; 12] = [
    0x80, 0x00, 0x1c, 0xb3, 0x12, 0x34, 0xab, 0xcd, 0xaa, 0x00, 0x00, 0xff,
];

/// A reply from fd00::2 to fd00::1, with an odd number of bytes.
const REPLY: [u8; 11] = [
    0x81, 0x00, 0x1c, 0xb3, 0x12, 0x34, 0xab, 0xcd, 0xaa, 0x00, 0x00,
];

// Fields are set one by one, and read where they are written.
#[test]
fn message_is_set(rt: HostRuntime) {
    let mut bytes = [0xff; 12];
    let mut packet = Icmpv6PacketMut::new_unchecked(&mut bytes);
    packet.set_msg_type(Icmpv6Message::EchoRequest);
    packet.set_msg_code(0);
    packet.clear_reserved();
    packet.set_echo_ident(0x1234);
    packet.set_echo_seq_no(0xabcd);
    packet.into_inner()[8..].copy_from_slice(&[0xaa, 0x00, 0x00, 0xff]);
    let mut packet = Icmpv6PacketMut::new_checked(&mut bytes).expect(&rt, "whole");
    packet.fill_checksum(&LEFT, &RIGHT);
    let said = (
        packet.msg_type() == Icmpv6Message::EchoRequest,
        packet.msg_code(),
        packet.echo_ident(),
        packet.echo_seq_no(),
        packet.header_len(),
        packet.checksum(),
        packet.verify_checksum(&LEFT, &RIGHT),
    );
    all(
        &rt,
        &[
            said == (true, 0, 0x1234, 0xabcd, 8, 0x1cb3, true),
            packet.payload().len() == 4,
            packet.payload_mut().len() == 4,
            bytes == REQUEST,
        ],
    );
}

#[test]
fn sizes_and_pointers_are_set(rt: HostRuntime) {
    let mut bytes = REQUEST;
    let mut packet = Icmpv6PacketMut::new_unchecked(&mut bytes);
    packet.set_pkt_too_big_mtu(1280);
    let mtu = packet.pkt_too_big_mtu();
    packet.set_param_problem_ptr(40);
    let pointer = packet.param_problem_ptr();
    packet.set_checksum(0xbeef);
    all(
        &rt,
        &[
            (mtu, pointer) == (1280, 40),
            bytes == [0x80, 0, 0xbe, 0xef, 0, 0, 0, 40, 0xaa, 0, 0, 0xff],
        ],
    );
}

fn is_whole(bytes: &[u8]) -> bool {
    Icmpv6Packet::new_checked(bytes).is_ok()
}

/// A type, and the length of its header, from 4 to 40 bytes: so many are enough, and one byte less isn't.
struct Length(u8, usize);

impl Case for Length {
    fn holds(&self, _alloc: Global) -> bool {
        let mut bytes = [0; 40];
        bytes[0] = self.0;
        match (bytes.get(..self.1), bytes.get(..self.1.wrapping_sub(1))) {
            (Some(enough), Some(less)) => is_whole(enough) && !is_whole(less),
            _ => false,
        }
    }
}

const LENGTHS: [Length; 14] = [
    Length(1, 8),
    Length(2, 8),
    Length(3, 8),
    Length(4, 8),
    Length(128, 8),
    Length(129, 8),
    Length(130, 28),
    Length(133, 8),
    Length(134, 16),
    Length(135, 24),
    Length(136, 24),
    Length(137, 40),
    Length(143, 8),
    Length(155, 4),
];

/// A type that no header has.
struct Unknown(u8);

impl Case for Unknown {
    fn holds(&self, _alloc: Global) -> bool {
        let mut bytes = [0; 40];
        bytes[0] = self.0;
        !is_whole(&bytes)
    }
}

const UNKNOWN: [Unknown; 11] = [
    Unknown(0),
    Unknown(5),
    Unknown(100),
    Unknown(127),
    Unknown(131),
    Unknown(132),
    Unknown(138),
    Unknown(142),
    Unknown(144),
    Unknown(200),
    Unknown(255),
];

#[test]
fn headers_are_whole_and_kinds_told_apart(rt: HostRuntime) {
    all_hold(&rt, &LENGTHS);
    all_hold(&rt, &UNKNOWN);
    all_hold(&rt, &KINDS);
    assert!(rt; !is_whole(&[]));
}

/// A message, whether it is an error, and whether it is a neighbour message (RFC 4443, section 2.1; RFC 4861, section 4). A known number
/// under the name of an unknown one is the same kind.
struct Kinds(Icmpv6Message, bool, bool);

impl Case for Kinds {
    fn holds(&self, _alloc: Global) -> bool {
        (self.0.is_error(), self.0.is_ndisc()) == (self.1, self.2)
    }
}

const KINDS: [Kinds; 10] = [
    Kinds(Icmpv6Message::ParamProblem, true, false),
    Kinds(Icmpv6Message::Unknown(127), true, false),
    Kinds(Icmpv6Message::EchoRequest, false, false),
    Kinds(Icmpv6Message::NeighborSolicit, false, true),
    Kinds(Icmpv6Message::Redirect, false, true),
    Kinds(Icmpv6Message::Unknown(135), false, true),
    Kinds(Icmpv6Message::EchoReply, false, false),
    Kinds(Icmpv6Message::MldReport, false, false),
    Kinds(Icmpv6Message::Unknown(132), false, false),
    Kinds(Icmpv6Message::Unknown(138), false, false),
];

/// The number of the message of this number, and the codes of its three reasons.
fn numbers(number: u8) -> [u8; 4] {
    [
        u8::from(Icmpv6Message::from(number)),
        u8::from(Icmpv6DstUnreachable::from(number)),
        u8::from(Icmpv6TimeExceeded::from(number)),
        u8::from(Icmpv6ParamProblem::from(number)),
    ]
}

/// Asserts that the message of each number has that number, and each reason of each code that code.
fn have_numbers(rt: &impl Abort) {
    for number in 0..=255 {
        let are_same = numbers(number) == [number; 4];
        holds_at(rt, are_same, "number", usize::from(number));
    }
}

#[test]
fn messages_and_reasons_are_numbers(rt: HostRuntime) {
    have_numbers(&rt);
    all(
        &rt,
        &[
            Icmpv6DstUnreachable::from(4) == Icmpv6DstUnreachable::PortUnreachable,
            Icmpv6DstUnreachable::from(7) == Icmpv6DstUnreachable::Unknown(7),
            Icmpv6TimeExceeded::from(1) == Icmpv6TimeExceeded::FragReassemExceeded,
            Icmpv6TimeExceeded::from(2) == Icmpv6TimeExceeded::Unknown(2),
            Icmpv6ParamProblem::from(1) == Icmpv6ParamProblem::UnrecognizedNxtHdr,
            Icmpv6ParamProblem::from(3) == Icmpv6ParamProblem::Unknown(3),
        ],
    );
}

const REPLIED: Icmpv6Header = Icmpv6Header::EchoReply {
    ident: 0x1234,
    seq_no: 0xabcd,
};

// A header is kept without what it carries.
#[test]
fn headers_are_kept(rt: HostRuntime) {
    let caps = ChecksumCapabilities::ignored();
    let packet = Icmpv6Packet::new_unchecked(&REPLY);
    let read = Icmpv6Header::parse(&RIGHT, &LEFT, &packet, &caps);
    let repr = Icmpv6Repr::new(&REPLIED, &[0xaa, 0x00, 0x00]);
    let mut bytes = [0xa5; 11];
    repr.emit(
        &RIGHT,
        &LEFT,
        &mut Icmpv6PacketMut::new_unchecked(&mut bytes),
        &ChecksumCapabilities::default(),
    );
    all(
        &rt,
        &[
            read == Ok(REPLIED),
            bytes == REPLY,
            repr.buffer_len() == 11,
            repr.header() == REPLIED,
        ],
    );
}

// RFC 4443, sections 2.1, 3 and 4; RFC 4861, section 4.4.
#[test]
fn fields_are_in_their_offsets(rt: HostRuntime) {
    let positions = [
        field::CHECKSUM,
        field::UNUSED,
        field::MTU,
        field::POINTER,
        field::ECHO_IDENT,
        field::ECHO_SEQNO,
        field::TARGET_ADDR,
    ];
    let bytes = [field::TYPE, field::CODE, field::HEADER_END, field::ND_FLAGS];
    all(
        &rt,
        &[
            positions == [2..4, 4..8, 4..8, 4..8, 4..6, 6..8, 8..24],
            bytes == [0, 1, 8, 4],
        ],
    );
}
