//! Frames as they come in.
ghost use Rattle.std.specs.Prelude.{◌≡◌, Some, None};
ghost use Rattle.iface_ingress.specs.Incoming.{IsContent, IsOnly, OnEthernet, Bare, IsArpFollowing, IsV4Following, IsV6Following, AreMeasured, content_of};

use ip_wire::{
    ArpPacket, ArpRepr, EthernetFrame, EthernetProtocol, EthernetRepr, HardwareAddress, IpVersion,
    Ipv4Fragment, Ipv4Packet, Ipv4Repr, Ipv6Packet, Ipv6Repr,
};
use net_base::ChecksumCapabilities;

/// What a frame carries. The link header stands before a packet on Ethernet alone.
#[derive(Clone, Copy, Debug)]
pub enum Incoming<'a> {
    Arp {
        link: EthernetRepr,
        packet: ArpRepr,
    },
    Ipv4 {
        link: Option<EthernetRepr>,
        header: Ipv4Repr,
        /// Which fragment of its datagram the packet is.
        fragment: Ipv4Fragment,
        /// Up to the end that the total length says, without padding.
        payload: &'a [u8],
    },
    Ipv6 {
        link: Option<EthernetRepr>,
        header: Ipv6Repr,
        /// Up to the end that the payload length says, without padding.
        payload: &'a [u8],
    },
}

/// What a frame carries to a host whose medium has such addresses: an ARP or an IP packet, or
/// none. IPv4's checksum is tested where the capabilities say that the stack does so. Whom an
/// Ethernet frame is for isn't looked at.
pub fn read<'a>(
    hardware: &HardwareAddress,
    frame: &'a [u8],
    checksums: &ChecksumCapabilities,
) -> Option<Incoming<'a>>
    ensures content { IsContent hardware.now checksums.now frame.now (content_of result) }
    ensures measured { AreMeasured (content_of result) }
{
    let mut content = None;
    read_into(hardware, frame, checksums, &mut content);
    content
}

/// The same, written where the caller wants it: what a frame carries is a large value, which would else be moved once for each
/// way of reading.
pub fn read_into<'a>(
    hardware: &HardwareAddress,
    frame: &'a [u8],
    checksums: &ChecksumCapabilities,
    content: &mut Option<Incoming<'a>>,
)
    requires none { content.old ≡ None }
    ensures content { IsContent hardware.now checksums.now frame.now (content_of content.new) }
    ensures measured { AreMeasured (content_of content.new) }
{
    match hardware {
        HardwareAddress::Ethernet(_) => read_ethernet(frame, checksums, content),
        HardwareAddress::Ip => read_bare(frame, checksums, content),
    }
}

/// What an Ethernet frame carries.
fn read_ethernet<'a>(
    frame: &'a [u8],
    checksums: &ChecksumCapabilities,
    content: &mut Option<Incoming<'a>>,
)
    requires none { content.old ≡ None }
    ensures content { IsOnly (OnEthernet checksums.now frame.now) (content_of content.new) }
    ensures measured { AreMeasured (content_of content.new) }
{
    let frame = EthernetFrame::new_unchecked(frame);
    let Ok(link) = EthernetRepr::parse(&frame) else {
        return;
    };
    let packet = frame.payload();
    match link.ethertype {
        EthernetProtocol::Arp => read_arp(link, packet, content),
        EthernetProtocol::Ipv4 => read_ipv4(Some(link), packet, checksums, content),
        EthernetProtocol::Ipv6 => read_ipv6(Some(link), packet, content),
        EthernetProtocol::Unknown(_) => {}
    }
}

/// What a frame of a medium of bare packets carries.
fn read_bare<'a>(
    frame: &'a [u8],
    checksums: &ChecksumCapabilities,
    content: &mut Option<Incoming<'a>>,
)
    requires none { content.old ≡ None }
    ensures content { IsOnly (Bare checksums.now frame.now) (content_of content.new) }
    ensures measured { AreMeasured (content_of content.new) }
{
    match IpVersion::of_packet(frame) {
        Ok(IpVersion::Ipv4) => read_ipv4(None, frame, checksums, content),
        Ok(IpVersion::Ipv6) => read_ipv6(None, frame, content),
        Err(_) => {}
    }
}

/// The ARP packet after this link header.
fn read_arp<'a>(link: EthernetRepr, bytes: &'a [u8], content: &mut Option<Incoming<'a>>)
    requires none { content.old ≡ None }
    ensures content { IsOnly (IsArpFollowing link bytes.now) (content_of content.new) }
    ensures measured { AreMeasured (content_of content.new) }
{
    if let Ok(packet) = ArpRepr::parse(&ArpPacket::new_unchecked(bytes)) {
        *content = Some(Incoming::Arp { link, packet });
    }
}

/// The IPv4 packet after this link header, or without one.
#[inline(always)]
fn read_ipv4<'a>(
    link: Option<EthernetRepr>,
    bytes: &'a [u8],
    checksums: &ChecksumCapabilities,
    content: &mut Option<Incoming<'a>>,
)
    requires none { content.old ≡ None }
    ensures content { IsOnly (IsV4Following checksums.now link bytes.now) (content_of content.new) }
    ensures measured { AreMeasured (content_of content.new) }
{
    let packet = Ipv4Packet::new_unchecked(bytes);
    let Ok(header) = Ipv4Repr::parse(&packet, checksums) else {
        return;
    };
    *content = Some(Incoming::Ipv4 {
        link,
        header,
        fragment: packet.fragment(),
        payload: packet.payload(),
    });
}

/// The IPv6 packet after this link header, or without one.
fn read_ipv6<'a>(link: Option<EthernetRepr>, bytes: &'a [u8], content: &mut Option<Incoming<'a>>)
    requires none { content.old ≡ None }
    ensures content { IsOnly (IsV6Following link bytes.now) (content_of content.new) }
    ensures measured { AreMeasured (content_of content.new) }
{
    let packet = Ipv6Packet::new_unchecked(bytes);
    let Ok(header) = Ipv6Repr::parse(&packet) else {
        return;
    };
    *content = Some(Incoming::Ipv6 {
        link,
        header,
        payload: packet.payload(),
    });
}
