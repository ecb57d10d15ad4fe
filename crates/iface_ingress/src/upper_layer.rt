//! What packets carry.
ghost use Rattle.std.specs.Prelude.{◌≡◌, ◌<◌, ◌^◌, true, length};
ghost use Rattle.net_base.specs.Capabilities.{verifies};
ghost use Rattle.ip_wire.specs.Ip.{source_of, destination_of, carried_in};
ghost use Rattle.ip_wire.specs.IpProtocol.TheVariants as Protocol;
ghost use Rattle.ip_wire.specs.Tcp.{IsTcp, bytes_of};
ghost use Rattle.ip_wire.specs.TcpHeader.{TcpHeader};
ghost use Rattle.iface_ingress.specs.UpperLayer.{IsCarriedContent, carried_of};
ghost use Rattle.iface_ingress.specs.Read.{datagram_of, segment_of};

use ip_wire::{IpAddress, IpProtocol, IpRepr, TcpHeader, TcpPacket, UdpPacket, UdpRepr};
use net_base::ChecksumCapabilities;
use sockets::{IpPayload, SegmentPayload};
use wire_icmpv4::{Icmpv4Packet, Icmpv4Repr};
use wire_icmpv6::{Icmpv6Packet, Icmpv6Repr};

/// A user datagram that was read: its header and its bytes.
#[derive(Clone, Copy, Debug)]
pub struct ReadDatagram<'a> {
    pub header: UdpRepr,
    pub bytes: &'a [u8],
}

/// What stands after this header: a control message of the header's family, a user datagram or a
/// segment, or none. Checksums are tested where the capabilities say that the stack does so.
pub fn read_payload<'a>(
    header: &IpRepr,
    payload: &'a [u8],
    checksums: &ChecksumCapabilities,
) -> Option<IpPayload<'a>>
    requires { length payload.now < 2 ^ 16 }
    ensures { IsCarriedContent checksums.now header.now payload.now (carried_of result) }
{
    match header.next_header() {
        IpProtocol::Icmp => read_icmpv4(header, payload, checksums),
        IpProtocol::Icmpv6 => read_icmpv6(header, payload, checksums),
        IpProtocol::Udp => datagram_payload(&read_udp(header, payload, checksums)),
        IpProtocol::Tcp => read_segment(header, payload, checksums),
        _ => None,
    }
}

fn datagram_payload<'a>(datagram: &Option<ReadDatagram<'a>>) -> Option<IpPayload<'a>>
    ensures { carried_of result ≡ datagram_of datagram.now }
{
    match datagram {
        Some(datagram) => Some(IpPayload::Udp(datagram.header, datagram.bytes)),
        None => None,
    }
}

/// The segment after a header of either family.
fn read_segment<'a>(
    header: &IpRepr,
    payload: &'a [u8],
    checksums: &ChecksumCapabilities,
) -> Option<IpPayload<'a>>
    requires protocol { carried_in header.now ≡ Protocol.Tcp }
    requires short { length payload.now < 2 ^ 16 }
    ensures { IsCarriedContent checksums.now header.now payload.now (carried_of result) }
{
    let mut segment = TcpHeader::BLANK;
    match read_tcp(header, payload, checksums, &mut segment) {
        Some(bytes) => Some(IpPayload::Tcp(segment, SegmentPayload::whole(bytes))),
        None => None,
    }
}

/// The control message after an IPv4 header.
fn read_icmpv4<'a>(
    header: &IpRepr,
    payload: &'a [u8],
    checksums: &ChecksumCapabilities,
) -> Option<IpPayload<'a>>
    requires { carried_in header.now ≡ Protocol.Icmp }
    ensures { IsCarriedContent checksums.now header.now payload.now (carried_of result) }
{
    let IpRepr::Ipv4(_) = header else {
        return None;
    };
    let packet = Icmpv4Packet::new_unchecked(payload);
    let Ok(message) = Icmpv4Repr::parse(&packet, checksums) else {
        return None;
    };
    Some(IpPayload::Icmpv4(message))
}

/// The control or neighbour message after an IPv6 header.
fn read_icmpv6<'a>(
    header: &IpRepr,
    payload: &'a [u8],
    checksums: &ChecksumCapabilities,
) -> Option<IpPayload<'a>>
    requires protocol { carried_in header.now ≡ Protocol.Icmpv6 }
    requires short { length payload.now < 2 ^ 16 }
    ensures { IsCarriedContent checksums.now header.now payload.now (carried_of result) }
{
    let IpRepr::Ipv6(v6) = header else {
        return None;
    };
    let packet = Icmpv6Packet::new_unchecked(payload);
    let Ok(message) = Icmpv6Repr::parse(&v6.src_addr, &v6.dst_addr, &packet, checksums) else {
        return None;
    };
    Some(IpPayload::Icmpv6(message))
}

/// The user datagram after a header of either family.
pub(crate) fn read_udp<'a>(
    header: &IpRepr,
    payload: &'a [u8],
    checksums: &ChecksumCapabilities,
) -> Option<ReadDatagram<'a>>
    requires { carried_in header.now ≡ Protocol.Udp }
    ensures { IsCarriedContent checksums.now header.now payload.now (datagram_of result) }
{
    let packet = UdpPacket::new_unchecked(payload);
    let (source, destination) = (header.src_addr(), header.dst_addr());
    let Ok(header) = UdpRepr::parse(&packet, &source, &destination, checksums) else {
        return None;
    };
    Some(ReadDatagram {
        header,
        bytes: packet.payload(),
    })
}

/// Reads the segment after a header of either family: its header into a slot, and the bytes that it carries.
pub(crate) fn read_tcp<'a>(
    header: &IpRepr,
    payload: &'a [u8],
    checksums: &ChecksumCapabilities,
    segment: &mut TcpHeader,
) -> Option<&'a [u8]>
    requires protocol { carried_in header.now ≡ Protocol.Tcp }
    requires short { length payload.now < 2 ^ 16 }
    ensures { IsCarriedContent checksums.now header.now payload.now (segment_of segment.new result) }
{
    let packet = TcpPacket::new_unchecked(payload);
    if read_header(header, &packet, checksums, segment) {
        Some(packet.payload())
    } else {
        None
    }
}

/// Reads the header of a segment between the addresses of an IP header, and says whether the bytes are one. For each family the
/// addresses are made apart: those of either are copied once more.
fn read_header(
    header: &IpRepr,
    packet: &TcpPacket,
    checksums: &ChecksumCapabilities,
    segment: &mut TcpHeader,
) -> bool
    requires { length (bytes_of packet.now) < 2 ^ 16 }
    ensures found { result ≡ true
        → IsTcp (source_of header.now) (destination_of header.now) (verifies checksums.now.tcp) (bytes_of packet.now) segment.new }
    ensures only { (v : TcpHeader)
        → IsTcp (source_of header.now) (destination_of header.now) (verifies checksums.now.tcp) (bytes_of packet.now) v
        → (result ≡ true) × (segment.new ≡ v) }
{
    match header {
        IpRepr::Ipv4(v4) => {
            let source = IpAddress::Ipv4(v4.src_addr);
            let destination = IpAddress::Ipv4(v4.dst_addr);
            segment.read(packet, &source, &destination, checksums)
        }
        IpRepr::Ipv6(v6) => {
            let source = IpAddress::Ipv6(v6.src_addr);
            let destination = IpAddress::Ipv6(v6.dst_addr);
            segment.read(packet, &source, &destination, checksums)
        }
    }
}
