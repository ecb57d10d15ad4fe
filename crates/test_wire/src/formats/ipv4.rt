//! IPv4 packets, where they are written. `app_decode` reads and writes them as data.
ghost use Rattle.std.specs.Prelude.{◌≡◌, ◌+◌, ◌<◌, ◌^◌, ◌++◌, length, take, true};
ghost use Rattle.ip_wire.specs.IpAddress.TheVariants as Address;
ghost use Rattle.ip_wire.specs.Ipv4 as Ipv4;
ghost use Rattle.ip_wire.specs.Udp as Udp;

use crate::cases::all;
use crate::formats::samples::{DATAGRAM, WITH_OPTION, first, following, is_same, starts_with};
use ip_wire::{
    IpAddress, IpProtocol, Ipv4Address, Ipv4FragKey, Ipv4Packet, Ipv4PacketMut, Ipv4Repr,
    UdpPacketMut, UdpRepr,
};
use net_base::{Checksum, ChecksumCapabilities};

/// Numbers in the order of a header: version, header length, class, congestion, total length, identification, offset, hops.
type Numbers = (u8, u8, u8, u8, u16, u16, u16, u8);

const NUMBERS: Numbers = (4, 24, 48, 0, 32, 0x1234, 0x105 * 8, 1);

/// Whether a packet may not be cut, whether more follows, its protocol and addresses.
type Named = (bool, bool, IpProtocol, Ipv4Address, Ipv4Address);

const NAMED: Named = (
    false,
    true,
    IpProtocol::Igmp,
    Ipv4Address([10, 0, 0, 1]),
    Ipv4Address([224, 0, 0, 22]),
);

const EIGHT: [u8; 8] = [1, 2, 3, 4, 5, 6, 7, 8];

/// Sets what stands before the protocol, if there is a header.
fn set_numbers(bytes: &mut [u8]) {
    if bytes.len() < 20 {
        return;
    }
    let mut packet = Ipv4PacketMut::new_unchecked(bytes);
    packet.clear_flags();
    packet.set_version(4);
    packet.set_header_len(24);
    packet.set_dscp(48);
    packet.set_ecn(1);
    packet.set_total_len(32);
    packet.set_ident(0x1234);
}

/// Sets what stands before the addresses.
fn set_rest(bytes: &mut [u8]) {
    if bytes.len() < 20 {
        return;
    }
    let mut packet = Ipv4PacketMut::new_unchecked(bytes);
    packet.set_dont_frag(true);
    packet.set_more_frags(true);
    packet.set_frag_offset(0x828);
    packet.set_hop_limit(1);
    packet.set_next_header(IpProtocol::Igmp);
    packet.set_checksum(0x0102);
}

/// Sets the addresses.
fn set_addresses(bytes: &mut [u8]) {
    if bytes.len() < 20 {
        return;
    }
    let mut packet = Ipv4PacketMut::new_unchecked(bytes);
    packet.set_src_addr(Ipv4Address([10, 0, 0, 1]));
    packet.set_dst_addr(Ipv4Address([224, 0, 0, 22]));
}

const FRONT: [u8; 20] = [
    0x46, 0xc1, 0x00, 0x20, 0x12, 0x34, 0x61, 0x05, 0x01, 0x02, 0x01, 0x02, 0x0a, 0x00, 0x00, 0x01,
    0xe0, 0x00, 0x00, 0x16,
];

fn numbers_in_offset(bytes: &mut [u8]) -> Option<Numbers> {
    let packet = Ipv4PacketMut::new_checked(bytes).ok()?;
    Some((
        packet.version(),
        packet.header_len(),
        packet.dscp(),
        packet.ecn(),
        packet.total_len(),
        packet.ident(),
        packet.frag_offset(),
        packet.hop_limit(),
    ))
}

fn named_in_offset(bytes: &mut [u8]) -> Option<Named> {
    let packet = Ipv4PacketMut::new_checked(bytes).ok()?;
    Some((
        packet.dont_frag(),
        packet.more_frags(),
        packet.next_header(),
        packet.src_addr(),
        packet.dst_addr(),
    ))
}

/// Whether it is whole and carries these bytes, its checksum, the protocol of its fragments, and how long the view is.
fn carried_in_offset(bytes: &mut [u8], payload: &[u8]) -> Option<(bool, u16, IpProtocol, usize)> {
    let packet = Ipv4PacketMut::new_checked(bytes).ok()?;
    let is_whole = packet.check_len().is_ok() && packet.payload() == payload;
    let (checksum, protocol) = (packet.checksum(), packet.get_key().protocol);
    Some((is_whole, checksum, protocol, packet.into_inner().len()))
}

/// Fills the payload, and says whether there is a packet.
fn is_filled(bytes: &mut [u8], byte: u8) -> bool {
    match Ipv4PacketMut::new_checked(bytes) {
        Ok(mut packet) => {
            packet.payload_mut().fill(byte);
            true
        }
        Err(_) => false,
    }
}

#[test]
fn ipv4_is_read_where_it_is_written_and_its_payload_lent(rt: HostRuntime) {
    let mut bytes = WITH_OPTION;
    all(
        &rt,
        &[
            numbers_in_offset(&mut bytes) == Some(NUMBERS),
            named_in_offset(&mut bytes) == Some(NAMED),
            carried_in_offset(&mut bytes, &EIGHT) == Some((true, 0, IpProtocol::Igmp, 34)),
            is_filled(&mut bytes, 7),
            starts_with(&bytes, first(&WITH_OPTION, 24)),
            is_same(following(&bytes, 24), &[7, 7, 7, 7, 7, 7, 7, 7, 0, 0]),
        ],
    );
}

/// Writes a datagram after an Ethernet header, each part in its offset.
fn emit_datagram(frame: &mut [u8], ip: &Ipv4Repr, udp: &UdpRepr, payload: &[u8])
    requires room { length frame.old ≡ 42 + length payload.now }
    requires fits { 28 + length payload.now < 2 ^ 16 }
    requires carried { ip.now.payload_len ≡ 8 + length payload.now }
    ensures { frame.new
        ≡ take 14 frame.old ++ (Ipv4.written true ip.now ++
        Udp.written (Address.Ipv4 ip.now.src_addr) (Address.Ipv4 ip.now.dst_addr) true udp.now payload.now) }
{
    let checksum_caps = ChecksumCapabilities {
        ipv4: Checksum::Both,
        udp: Checksum::Both,
        tcp: Checksum::Both,
        icmpv4: Checksum::Both,
        icmpv6: Checksum::Both,
    };
    let (_link, rest) = frame.split_at_mut(14);
    let (header, inner) = rest.split_at_mut(20);
    let mut packet = Ipv4PacketMut::new_unchecked(header);
    ip.emit(&mut packet, &checksum_caps);
    let mut datagram = UdpPacketMut::new_unchecked(inner);
    udp.emit(
        &mut datagram,
        &IpAddress::Ipv4(ip.src_addr),
        &IpAddress::Ipv4(ip.dst_addr),
        payload,
        &checksum_caps,
    );
}

const HERE: Ipv4Address = Ipv4Address([192, 168, 1, 1]);

const THERE: Ipv4Address = Ipv4Address([192, 168, 1, 2]);

const IP: Ipv4Repr = Ipv4Repr {
    src_addr: HERE,
    dst_addr: THERE,
    next_header: IpProtocol::Udp,
    payload_len: 12,
    hop_limit: 64,
    ident: 0xc24d,
    dont_frag: false,
};

const UDP: UdpRepr = UdpRepr {
    src_port: 48896,
    dst_port: 53,
};

/// The header of the last fragment of a datagram.
const FRAGMENT: [u8; 24] = [
    0x45, 0x00, 0x00, 0x18, 0xc2, 0x4d, 0x00, 0x01, 0x40, 0x11, 0x35, 0x33, 0xc0, 0xa8, 0x01, 0x01,
    0xc0, 0xa8, 0x01, 0x02, 0xaa, 0x00, 0x00, 0xff,
];

/// What is the same in all fragments of a datagram, as the bytes and as the quoted header tell it (RFC 791, section 3.2).
fn keys(bytes: &[u8]) -> Option<(Ipv4FragKey, Ipv4FragKey)> {
    let packet = Ipv4Packet::new_checked(bytes).ok()?;
    let (header, _) = Ipv4Repr::parse_quoted(bytes).ok()?;
    Some((packet.get_key(), header.key()))
}

const KEY: Ipv4FragKey = Ipv4FragKey {
    id: 0xc24d,
    src_addr: HERE,
    dst_addr: THERE,
    protocol: IpProtocol::Udp,
};

#[test]
fn ipv4_is_set_and_written_in_offset(rt: HostRuntime) {
    let mut bytes = [0xff; 32];
    set_numbers(&mut bytes);
    set_rest(&mut bytes);
    set_addresses(&mut bytes);
    let mut frame = [0xa5; 46];
    emit_datagram(&mut frame, &IP, &UDP, &[0xaa, 0x00, 0x00, 0xff]);
    all(
        &rt,
        &[
            starts_with(&bytes, &FRONT),
            is_same(following(&frame, 34), &DATAGRAM),
            keys(&FRAGMENT) == Some((KEY, KEY)),
        ],
    );
}
