//! IPv6 packets, where they are written. `app_decode` reads and writes them as data.
use crate::cases::all;
use crate::formats::samples::{OVER_V6, ends_with, first, starts_with};
use ip_wire::{IPV6_LINK_LOCAL_ALL_NODES, IpProtocol, Ipv6Address, Ipv6PacketMut};

pub const LOCAL: Ipv6Address = Ipv6Address([0xfe, 0x80, 0, 0, 0, 0, 0, 0, 0, 0, 0, 0, 0, 0, 0, 1]);

/// Version, class, flow, payload length, total length, header length and hops.
type Numbers = (u8, u8, u32, u16, usize, usize, u8);

const NUMBERS: Numbers = (6, 0xfe, 0x12345, 4, 44, 40, 64);

/// The same of a view that writes.
fn numbers_in_offset(bytes: &mut [u8]) -> Option<Numbers> {
    let packet = Ipv6PacketMut::new_checked(bytes).ok()?;
    Some((
        packet.version(),
        packet.traffic_class(),
        packet.flow_label(),
        packet.payload_len(),
        packet.total_len(),
        packet.header_len(),
        packet.hop_limit(),
    ))
}

/// Whether it is whole, its protocol and addresses, and how long its payload is.
type Named = (bool, IpProtocol, Ipv6Address, Ipv6Address, usize);

const NAMED: Named = (true, IpProtocol::Udp, LOCAL, IPV6_LINK_LOCAL_ALL_NODES, 4);

fn named_in_offset(bytes: &mut [u8]) -> Option<Named> {
    let packet = Ipv6PacketMut::new_checked(bytes).ok()?;
    Some((
        packet.check_len().is_ok(),
        packet.next_header(),
        packet.src_addr(),
        packet.dst_addr(),
        packet.payload().len(),
    ))
}

/// Sets what stands before the addresses, if there is a header.
fn set_numbers(bytes: &mut [u8]) {
    if bytes.len() < 40 {
        return;
    }
    let mut packet = Ipv6PacketMut::new_unchecked(bytes);
    packet.set_version(6);
    packet.set_traffic_class(0xfe);
    packet.set_flow_label(0x12345);
    packet.set_payload_len(4);
    packet.set_next_header(IpProtocol::Udp);
    packet.set_hop_limit(64);
}

/// Sets the addresses.
fn set_addresses(bytes: &mut [u8]) {
    if bytes.len() < 40 {
        return;
    }
    let mut packet = Ipv6PacketMut::new_unchecked(bytes);
    packet.set_src_addr(LOCAL);
    packet.set_dst_addr(IPV6_LINK_LOCAL_ALL_NODES);
}

#[test]
fn ipv6_is_set(rt: HostRuntime) {
    let mut bytes = [0xff; 46];
    set_numbers(&mut bytes);
    set_addresses(&mut bytes);
    all(
        &rt,
        &[
            starts_with(&bytes, first(&OVER_V6, 40)),
            numbers_in_offset(&mut bytes) == Some(NUMBERS),
            named_in_offset(&mut bytes) == Some(NAMED),
        ],
    );
}

/// Fills the payload, and tells the header's length.
fn filled(bytes: &mut [u8], byte: u8) -> Option<usize> {
    let mut packet = Ipv6PacketMut::new_checked(bytes).ok()?;
    let len = packet.header_len();
    packet.payload_mut().fill(byte);
    Some(len)
}

#[test]
fn ipv6_payload_alone_is_lent(rt: HostRuntime) {
    let mut bytes = OVER_V6;
    all(
        &rt,
        &[
            filled(&mut bytes, 7) == Some(40),
            starts_with(&bytes, first(&OVER_V6, 40)),
            ends_with(&bytes, &[7, 7, 7, 7, 0, 0]),
        ],
    );
}
