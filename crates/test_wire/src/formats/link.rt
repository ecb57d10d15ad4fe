//! Ethernet frames and ARP packets, where they are written. `app_decode` reads and writes them as data.
use crate::cases::{Case, all, all_hold};
use crate::formats::samples::{ends_with, first, following, is_same, starts_with};
use ip_wire::{
    ArpHardware, ArpOperation, ArpPacketMut, ArpRepr, EthernetAddress, EthernetFrame,
    EthernetFrameMut, EthernetProtocol, EthernetRepr, Ipv4Address, arp_laws,
};
use std::alloc::Global;

/// A request from 192.168.1.1 at 02-00-00-00-00-01 for the hardware address of 192.168.1.2, in a
/// frame to all hardware addresses with padding up to 60 bytes.
const FRAME: [u8; 60] = [
    0xff, 0xff, 0xff, 0xff, 0xff, 0xff, 0x02, 0x00, 0x00, 0x00, 0x00, 0x01, 0x08, 0x06, 0x00, 0x01,
    0x08, 0x00, 0x06, 0x04, 0x00, 0x01, 0x02, 0x00, 0x00, 0x00, 0x00, 0x01, 0xc0, 0xa8, 0x01, 0x01,
    0x00, 0x00, 0x00, 0x00, 0x00, 0x00, 0xc0, 0xa8, 0x01, 0x02, 0, 0, 0, 0, 0, 0, 0, 0, 0, 0, 0, 0,
    0, 0, 0, 0, 0, 0,
];

const SENDER: EthernetAddress = EthernetAddress([0x02, 0x00, 0x00, 0x00, 0x00, 0x01]);

const HEADER: EthernetRepr = EthernetRepr {
    src_addr: SENDER,
    dst_addr: EthernetAddress::BROADCAST,
    ethertype: EthernetProtocol::Arp,
};

/// That packet, or one of another operation.
fn request(operation: ArpOperation) -> ArpRepr {
    ArpRepr::EthernetIpv4 {
        operation,
        source_hardware_addr: SENDER,
        source_protocol_addr: Ipv4Address([192, 168, 1, 1]),
        target_hardware_addr: EthernetAddress([0; 6]),
        target_protocol_addr: Ipv4Address([192, 168, 1, 2]),
    }
}

/// Whether the frame is whole, both addresses, and what it carries, where it is written.
fn frame_parts_in_offset(
    bytes: &mut [u8],
) -> Option<(bool, EthernetAddress, EthernetAddress, EthernetProtocol)> {
    let frame = EthernetFrameMut::new_checked(bytes).ok()?;
    Some((
        frame.check_len().is_ok(),
        frame.dst_addr(),
        frame.src_addr(),
        frame.ethertype(),
    ))
}

#[test]
fn frame_is_set(rt: HostRuntime) {
    let mut bytes = [0xa5; 20];
    let mut frame = EthernetFrameMut::new_unchecked(&mut bytes);
    frame.set_dst_addr(SENDER);
    frame.set_src_addr(EthernetAddress::BROADCAST);
    frame.set_ethertype(EthernetProtocol::Ipv6);
    let kind = is_same(&frame.into_inner()[12..14], &[0x86, 0xdd]);
    let parts = (
        true,
        SENDER,
        EthernetAddress::BROADCAST,
        EthernetProtocol::Ipv6,
    );
    all(
        &rt,
        &[kind, frame_parts_in_offset(&mut bytes) == Some(parts)],
    );
}

/// Fills the payload, and says whether there is a frame.
fn is_filled(bytes: &mut [u8], byte: u8) -> bool {
    match EthernetFrameMut::new_checked(bytes) {
        Ok(mut frame) => {
            frame.payload_mut().fill(byte);
            true
        }
        Err(_) => false,
    }
}

#[test]
fn frames_have_lengths_and_lend_their_payload_alone(rt: HostRuntime) {
    let mut bytes = [0xa5; 20];
    bytes[..14].copy_from_slice(&FRAME[..14]);
    all(
        &rt,
        &[
            EthernetFrame::header_len() == 14,
            EthernetFrameMut::header_len() == 14,
            HEADER.buffer_len() == 14,
            EthernetFrame::buffer_len(46) == 60,
            EthernetFrameMut::buffer_len(46) == 60,
            is_filled(&mut bytes, 7),
            starts_with(&bytes, first(&FRAME, 14)),
            ends_with(&bytes, &[7; 6]),
        ],
    );
}

/// Writes a packet, if there is an offset for it.
fn emit_arp(packet: &ArpRepr, bytes: &mut [u8]) {
    if bytes.len() >= 28 {
        packet.emit(&mut ArpPacketMut::new_unchecked(bytes));
    }
}

/// Kinds, lengths and operation of a packet, and whether it is whole.
type ArpNumbers = (bool, ArpHardware, EthernetProtocol, u8, u8, ArpOperation);

const NUMBERS: ArpNumbers = (
    true,
    ArpHardware::Ethernet,
    EthernetProtocol::Ipv4,
    6,
    4,
    ArpOperation::Request,
);

/// The four addresses of a packet, in their order.
type ArpAddresses<'a> = (&'a [u8], &'a [u8], &'a [u8], &'a [u8]);

/// Sets kinds, lengths and operation, if there is an offset for them.
fn set_numbers(bytes: &mut [u8]) {
    if bytes.len() < 8 {
        return;
    }
    let mut packet = ArpPacketMut::new_unchecked(bytes);
    packet.set_hardware_type(ArpHardware::Ethernet);
    packet.set_protocol_type(EthernetProtocol::Ipv4);
    packet.set_hardware_len(6);
    packet.set_protocol_len(4);
    packet.set_operation(ArpOperation::Request);
}

/// Kinds, lengths and operation, and whether it is whole, where the packet is written.
fn arp_numbers_in_offset(bytes: &mut [u8]) -> Option<ArpNumbers> {
    let packet = ArpPacketMut::new_checked(bytes).ok()?;
    Some((
        packet.check_len().is_ok(),
        packet.hardware_type(),
        packet.protocol_type(),
        packet.hardware_len(),
        packet.protocol_len(),
        packet.operation(),
    ))
}

/// Sets the hardware addresses of sender and target, if they have room for six bytes.
fn set_hardware_addresses(bytes: &mut [u8], source: &[u8; 6], target: &[u8; 6]) -> Option<()> {
    let mut packet = ArpPacketMut::new_checked(bytes).ok()?;
    if packet.hardware_len() != 6 {
        return None;
    }
    packet.set_source_hardware_addr(source);
    if packet.check_len().is_ok() && packet.hardware_len() == 6 {
        packet.set_target_hardware_addr(target);
    }
    Some(())
}

/// Sets the protocol addresses of sender and target, if they have room for four bytes.
fn set_protocol_addresses(bytes: &mut [u8], source: &[u8; 4], target: &[u8; 4]) -> Option<()> {
    let mut packet = ArpPacketMut::new_checked(bytes).ok()?;
    if packet.protocol_len() != 4 {
        return None;
    }
    packet.set_source_protocol_addr(source);
    if packet.check_len().is_ok() && packet.protocol_len() == 4 {
        packet.set_target_protocol_addr(target);
    }
    Some(())
}

/// Whether these are the four addresses of the packet, where it is written.
fn has_addresses(bytes: &mut [u8], wanted: ArpAddresses<'_>) -> bool {
    match ArpPacketMut::new_checked(bytes) {
        Ok(packet) => {
            packet.source_hardware_addr() == wanted.0
                && packet.source_protocol_addr() == wanted.1
                && packet.target_hardware_addr() == wanted.2
                && packet.target_protocol_addr() == wanted.3
        }
        Err(_) => false,
    }
}

/// The bytes that the view holds.
fn held(bytes: &mut [u8]) -> &[u8] {
    ArpPacketMut::new_unchecked(bytes).into_inner()
}

const HERE: [u8; 4] = [192, 168, 1, 1];

const THERE: [u8; 4] = [192, 168, 1, 2];

const NOBODY: [u8; 6] = [0; 6];

#[test]
fn packet_is_written_and_set(rt: HostRuntime) {
    let packet = request(ArpOperation::Request);
    let mut written = [0xa5; 30];
    emit_arp(&packet, &mut written);
    let mut bytes = [0xff; 28];
    set_numbers(&mut bytes);
    let addresses: ArpAddresses<'_> = (&SENDER.0, &HERE, &NOBODY, &THERE);
    all(
        &rt,
        &[
            starts_with(&written, first(following(&FRAME, 14), 28)),
            written.last().copied() == Some(0xa5),
            packet.buffer_len() == 28,
            arp_numbers_in_offset(&mut bytes) == Some(NUMBERS),
            set_hardware_addresses(&mut bytes, &SENDER.0, &NOBODY).is_some(),
            set_protocol_addresses(&mut bytes, &HERE, &THERE).is_some(),
            has_addresses(&mut bytes, addresses),
            starts_with(held(&mut bytes), first(following(&FRAME, 14), 28)),
        ],
    );
}

/// An operation alongside a request, and whether they are equal; otherwise the request comes first.
struct Operation(ArpOperation, bool);

impl Case for Operation {
    fn holds(&self, _alloc: Global) -> bool {
        let said = arp_laws::compare_arp_operations(&ArpOperation::Request, &self.0);
        let follows = if self.1 {
            said.hashes.0 == said.hashes.1
        } else {
            said.order.is_lt()
        };
        said.equal == self.1 && follows
    }
}

const OPERATIONS: [Operation; 3] = [
    Operation(ArpOperation::Reply, false),
    Operation(ArpOperation::Unknown(1), false),
    Operation(ArpOperation::Request, true),
];

// RFC 826: a known number under the name of an unknown one is another value.
#[test]
fn compares_kinds_and_operations(rt: HostRuntime) {
    all_hold(&rt, &OPERATIONS);
    let kind = ArpHardware::Ethernet;
    let other = arp_laws::compare_arp_hardware(&kind, &ArpHardware::Unknown(1));
    all(
        &rt,
        &[
            arp_laws::compare_arp_hardware(&kind, &kind).equal,
            !other.equal,
            other.order.is_lt(),
        ],
    );
}
