//! The frames of reports.
ghost use Rattle.std.specs.Prelude.{◌≡◌, ◌+◌, ◌≤◌, ◌++◌, length};
ghost use Rattle.ip_wire.specs.EthernetProtocol.TheVariants as Ether;
ghost use Rattle.ip_wire.specs.IpAddress.TheVariants as Ip;
ghost use Rattle.wire_igmp.specs.Igmp as Igmp;
ghost use Rattle.wire_mld.specs.Mld as Mld;
ghost use Rattle.iface_tables.specs.Inner.{group_hardware_addr};
ghost use Rattle.iface_reports.specs.Frames.{first_v4, first_link_local, link_header, link_len, sealed_header, header_v4, igmp_packet, mld_packet, packet_len, report_frame, report_frame_len, Fits};

use crate::report::{Message, Report};
use iface_tables::InterfaceInner;
use ip_wire::network_order::write_u16;
use ip_wire::{
    ETHERNET_HEADER_LEN, EthernetAddress, EthernetFrameMut, EthernetProtocol, EthernetRepr,
    HardwareAddress, IPV6_HEADER_LEN, IpAddress, IpCidr, IpProtocol, Ipv4Address, Ipv6Address,
    Ipv6PacketMut, Ipv6Repr, checksum,
};
use socket_context::Context;
use wire_igmp::{IGMP_ROUTER_ALERT, IgmpPacketMut, IgmpRepr};
use wire_mld::{MLD_HOP_BY_HOP, MldPacketMut, MldRepr};

/// The length of an IPv4 header with a router alert.
const ALERT_HEADER_LEN: usize = 24;

/// Where an IPv4 header has its checksum.
const CHECKSUM_AT: usize = 10;

/// How long the frame of a report is.
pub(crate) fn frame_len(inner: &InterfaceInner, report: &Report) -> usize
    requires { length report.now.records ≤ 480 }
    ensures { result ≡ report_frame_len inner.now report.now }
{
    link_len(&inner.hardware_addr()) + packet_len(&report.message, report.records.len())
}

/// Writes the frame of a report over the whole buffer.
pub(crate) fn fill(inner: &InterfaceInner, report: &Report, buffer: &mut [u8])
    requires room { length buffer.old ≡ report_frame_len inner.now report.now }
    requires fits { Fits report.now.message }
    requires small { length report.now.records ≤ 480 }
    ensures { buffer.new ≡ report_frame inner.now report.now }
{
    let records = report.records.as_slice();
    match &report.message {
        Message::Igmp { dst_addr, repr } => fill_igmp(inner, dst_addr, repr, records, buffer),
        Message::Mld { dst_addr, repr } => fill_mld(inner, dst_addr, repr, records, buffer),
    }
}

/// How long the link header is.
fn link_len(hardware_addr: &HardwareAddress) -> usize
    ensures value { result ≡ link_len hardware_addr.now }
    ensures small { result ≤ 14 }
{
    match hardware_addr {
        HardwareAddress::Ip => 0,
        HardwareAddress::Ethernet(_) => ETHERNET_HEADER_LEN,
    }
}

/// How long a packet of this message is.
fn packet_len(message: &Message, records_len: usize) -> usize
    requires { records_len ≤ 480 }
    ensures { result ≡ packet_len message.now records_len }
{
    match message {
        Message::Igmp { repr, .. } => ALERT_HEADER_LEN + (repr.header_len() + records_len),
        Message::Mld { repr, .. } => {
            IPV6_HEADER_LEN + MLD_HOP_BY_HOP.len() + (repr.header_len() + records_len)
        }
    }
}

/// Writes a frame of a message of IGMP over the whole buffer.
fn fill_igmp(
    inner: &InterfaceInner,
    dst_addr: &Ipv4Address,
    message: &IgmpRepr,
    records: &[u8],
    buffer: &mut [u8],
)
    requires room { length buffer.old ≡ link_len inner.now.hardware + (24 + (Igmp.header_len message.now + length records.now)) }
    requires fits { Igmp.Fits message.now }
    requires small { length records.now ≤ 480 }
    ensures { buffer.new ≡ link_header inner.now.hardware (Ip.Ipv4 dst_addr.now) Ether.Ipv4
        ++ igmp_packet inner.now.checksums (first_v4 inner.now.addresses) dst_addr.now message.now records.now }
{
    let hardware_addr = inner.hardware_addr();
    let (front, rest) = buffer.split_at_mut(link_len(&hardware_addr));
    write_link(
        &hardware_addr,
        &IpAddress::Ipv4(*dst_addr),
        EthernetProtocol::Ipv4,
        front,
    );
    let size = message.header_len() + records.len();
    let (head, body) = rest.split_at_mut(ALERT_HEADER_LEN);
    let src_addr = first_v4(inner.ip_addrs());
    write_header_v4(
        inner.checksum_caps().ipv4.tx(),
        size,
        &src_addr,
        dst_addr,
        head,
    );
    message.emit(&mut IgmpPacketMut::new_unchecked(body), records);
}

/// Writes a frame of a message of MLD over the whole buffer.
fn fill_mld(
    inner: &InterfaceInner,
    dst_addr: &Ipv6Address,
    message: &MldRepr,
    records: &[u8],
    buffer: &mut [u8],
)
    requires room { length buffer.old ≡ link_len inner.now.hardware + (48 + (Mld.header_len message.now + length records.now)) }
    requires fits { Mld.Fits message.now }
    requires small { length records.now ≤ 480 }
    ensures { buffer.new ≡ link_header inner.now.hardware (Ip.Ipv6 dst_addr.now) Ether.Ipv6
        ++ mld_packet inner.now.checksums (first_link_local inner.now.addresses) dst_addr.now message.now records.now }
{
    let hardware_addr = inner.hardware_addr();
    let (front, rest) = buffer.split_at_mut(link_len(&hardware_addr));
    write_link(
        &hardware_addr,
        &IpAddress::Ipv6(*dst_addr),
        EthernetProtocol::Ipv6,
        front,
    );
    let src_addr = first_link_local(inner.ip_addrs());
    let (head, rest) = rest.split_at_mut(IPV6_HEADER_LEN);
    let header = Ipv6Repr {
        src_addr,
        dst_addr: *dst_addr,
        next_header: IpProtocol::HopByHop,
        payload_len: MLD_HOP_BY_HOP.len() + (message.header_len() + records.len()),
        hop_limit: 1,
    };
    header.emit(&mut Ipv6PacketMut::new_unchecked(head));
    let (options, body) = rest.split_at_mut(MLD_HOP_BY_HOP.len());
    options.copy_from_slice(&MLD_HOP_BY_HOP);
    message.emit(
        &src_addr,
        dst_addr,
        &mut MldPacketMut::new_unchecked(body),
        records,
        &inner.checksum_caps(),
    );
}

/// Writes the link header of a frame to a group.
fn write_link(
    hardware_addr: &HardwareAddress,
    group: &IpAddress,
    carried: EthernetProtocol,
    buffer: &mut [u8],
)
    requires { length buffer.old ≡ link_len hardware_addr.now }
    ensures { buffer.new ≡ link_header hardware_addr.now group.now carried }
{
    if let HardwareAddress::Ethernet(local) = hardware_addr {
        let header = EthernetRepr {
            src_addr: *local,
            dst_addr: group_hardware_addr(group),
            ethertype: carried,
        };
        header.emit(&mut EthernetFrameMut::new_unchecked(buffer));
    }
}

/// The Ethernet address of a group.
fn group_hardware_addr(group: &IpAddress) -> EthernetAddress
    ensures { result ≡ group_hardware_addr group.now }
{
    match group {
        IpAddress::Ipv4(group) => {
            let [_, a, b, c] = group.0;
            EthernetAddress([0x01, 0x00, 0x5e, a % 128, b, c])
        }
        IpAddress::Ipv6(group) => {
            let tail = &group.0[12..];
            EthernetAddress([0x33, 0x33, tail[0], tail[1], tail[2], tail[3]])
        }
    }
}

/// Writes an IPv4 header with a router alert, before so many bytes.
fn write_header_v4(
    sealed: bool,
    size: usize,
    source: &Ipv4Address,
    destination: &Ipv4Address,
    head: &mut [u8],
)
    requires room { length head.old ≡ 24 }
    requires size { size ≤ 512 }
    ensures { head.new ≡ header_v4 sealed size source.now destination.now }
{
    let [high, low] = ((ALERT_HEADER_LEN + size) as u16).to_be_bytes();
    let (start, rest) = head.split_at_mut(12);
    start.copy_from_slice(&[0x46, 0xc0, high, low, 0, 0, 0x40, 0, 1, 2, 0, 0]);
    let (first, rest) = rest.split_at_mut(4);
    first.copy_from_slice(&source.0);
    let (second, options) = rest.split_at_mut(4);
    second.copy_from_slice(&destination.0);
    options.copy_from_slice(&IGMP_ROUTER_ALERT);
    if sealed {
        seal(head);
    }
}

/// Puts the checksum of a header whose field holds 0 into the field.
fn seal(header: &mut [u8])
    requires { length header.old ≡ 24 }
    ensures { header.new ≡ sealed_header header.old }
{
    let sum = checksum::data(header);
    write_u16(header, CHECKSUM_AT, 0xffff - sum);
}

/// The first IPv4 address, else `0.0.0.0`.
fn first_v4(blocks: &[IpCidr]) -> Ipv4Address
    ensures { result ≡ first_v4 blocks.now }
{
    let Some((block, rest)) = blocks.split_first() else {
        return Ipv4Address::UNSPECIFIED;
    };
    match block.address() {
        IpAddress::Ipv4(address) => address,
        IpAddress::Ipv6(_) => first_v4(rest),
    }
}

/// The first link-local address, else `::`.
fn first_link_local(blocks: &[IpCidr]) -> Ipv6Address
    ensures { result ≡ first_link_local blocks.now }
{
    let Some((block, rest)) = blocks.split_first() else {
        return Ipv6Address::UNSPECIFIED;
    };
    match block.address() {
        IpAddress::Ipv6(address) if address.is_link_local() => address,
        _ => first_link_local(rest),
    }
}
