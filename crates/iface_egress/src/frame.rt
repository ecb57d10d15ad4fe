//! The frames that leave a host.
ghost use Rattle.std.specs.Prelude.{◌≡◌, ◌+◌, ◌<◌, ◌^◌, ◌++◌, length};
ghost use Rattle.ip_wire.specs.Address.{solicited_of};
ghost use Rattle.socket_context.specs.Packet.{packet_value, packet_of, payload_value, IsSendable};
ghost use Rattle.iface_egress.specs.Emits.{Emits};
ghost use Rattle.iface_egress.specs.FastPath.{direct_following};
ghost use Rattle.iface_egress.specs.Departure.{link_header, link_len, ether_for, packet_frame, packet_frame_len, fragment_frame, fragment_frame_len, arp_frame};
ghost use Rattle.iface_egress.specs.Departure.{ether_in, destination_in, fragment_header_len, fragment_v6, fragment_header, fragment_packet_header};
ghost use Rattle.iface_egress.specs.Departure.{arp_request, solicited_node, solicited_hardware_addr, solicitation, solicitation_frame, solicitation_len, target_of};

use crate::fill::{Fill, send};
use crate::payload::{Carried, Direct};
use control_wire::{Icmpv6Repr, NdiscRepr};
use ip_wire::{
    ArpOperation, ArpPacketMut, ArpRepr, ETHERNET_HEADER_LEN, EthernetAddress, EthernetFrameMut,
    EthernetProtocol, EthernetRepr, HardwareAddress, IPV4_HEADER_LEN, IPV6_HEADER_LEN, IpAddress,
    IpProtocol, IpRepr, Ipv4Address, Ipv4PacketMut, Ipv4Repr, Ipv6Address, Ipv6FragmentHeaderMut,
    Ipv6FragmentRepr, Ipv6PacketMut, Ipv6Repr, RawHardwareAddress,
};
use net_base::{ChecksumCapabilities, Device};
use socket_context::{IpPayload, Packet};

/// A question for the hardware address of a neighbour, from a host with these addresses.
#[derive(Clone, Copy, Debug, PartialEq, Eq)]
pub enum NeighborQuery {
    /// By an ARP request.
    Arp {
        local: EthernetAddress,
        source: Ipv4Address,
        target: Ipv4Address,
    },
    /// By a neighbour solicitation.
    Neighbor {
        local: EthernetAddress,
        source: Ipv6Address,
        target: Ipv6Address,
    },
}

impl NeighborQuery {
    /// The neighbour that is asked for.
    pub fn target(&self) -> IpAddress
        ensures { result ≡ target_of self.now }
    {
        match self {
            NeighborQuery::Arp { target, .. } => IpAddress::Ipv4(*target),
            NeighborQuery::Neighbor { target, .. } => IpAddress::Ipv6(*target),
        }
    }
}

/// The bytes of a fragment header.
const FRAGMENT_HEADER_LEN: usize = 8;

/// The header of a datagram that goes in fragments, with the identification that they share.
#[derive(Clone, Copy, Debug, PartialEq, Eq)]
pub enum CutHeader {
    /// Of IPv4, which has it.
    Ipv4(Ipv4Repr),
    /// Of IPv6, and alongside it the identification of the fragment headers.
    Ipv6(Ipv6Repr, u32),
}

impl CutHeader {
    /// Where the datagram goes.
    pub fn dst_addr(&self) -> IpAddress
        ensures { result ≡ destination_in self.now }
    {
        match self {
            CutHeader::Ipv4(header) => IpAddress::Ipv4(header.dst_addr),
            CutHeader::Ipv6(header, _) => IpAddress::Ipv6(header.dst_addr),
        }
    }

    /// How many bytes stand before a fragment's bytes.
    pub fn fragment_header_len(&self) -> usize
        ensures { result ≡ fragment_header_len self.now }
    {
        match self {
            CutHeader::Ipv4(_) => IPV4_HEADER_LEN,
            CutHeader::Ipv6(..) => IPV6_HEADER_LEN + FRAGMENT_HEADER_LEN,
        }
    }

    /// What a frame of a fragment is said to carry.
    fn ether(&self) -> EthernetProtocol
        ensures { result ≡ ether_in self.now }
    {
        match self {
            CutHeader::Ipv4(_) => EthernetProtocol::Ipv4,
            CutHeader::Ipv6(..) => EthernetProtocol::Ipv6,
        }
    }
}

/// A frame that carries an ARP packet.
#[derive(Clone, Copy, Debug, PartialEq, Eq)]
pub struct ArpFrame {
    pub packet: ArpRepr,
}

/// A frame that carries a packet, whose header and payload it borrows.
#[derive(Drop)]
pub(crate) struct Whole<'a> {
    pub from: HardwareAddress,
    pub to: HardwareAddress,
    pub header: &'a IpRepr,
    pub payload: &'a IpPayload<'a>,
    pub checksums: ChecksumCapabilities,
}

/// A frame of a packet that goes straight, with this header.
#[derive(Drop)]
pub(crate) struct DirectFrame<'a, P> {
    pub from: HardwareAddress,
    pub header: Ipv4Repr,
    pub packet: &'a Direct<'a, P>,
    pub checksums: ChecksumCapabilities,
}

/// A frame that carries a fragment of a datagram.
#[derive(Clone, Copy, Debug, PartialEq, Eq)]
pub struct FragmentPart<'a> {
    pub from: HardwareAddress,
    pub to: HardwareAddress,
    /// The datagram's header.
    pub header: CutHeader,
    /// Where the fragment stands in the datagram's payload.
    pub offset: u16,
    /// Whether more fragments follow.
    pub more: bool,
    pub bytes: &'a [u8],
    pub checksums: ChecksumCapabilities,
}

impl Fill for ArpFrame {
    ghost filled = { λ f. arp_frame f.packet };

    ghost len = { λ f. 42 };

    ghost fits = { λ f. Unit {0} };

    fn frame_len(&self) -> usize {
        ETHERNET_HEADER_LEN + self.packet.buffer_len()
    }

    fn fill(&self, buffer: &mut [u8]) {
        let ArpRepr::EthernetIpv4 {
            source_hardware_addr,
            target_hardware_addr,
            ..
        } = self.packet;
        let (front, rest) = buffer.split_at_mut(ETHERNET_HEADER_LEN);
        let header = EthernetRepr {
            src_addr: source_hardware_addr,
            dst_addr: target_hardware_addr,
            ethertype: EthernetProtocol::Arp,
        };
        header.emit(&mut EthernetFrameMut::new_unchecked(front));
        self.packet.emit(&mut ArpPacketMut::new_unchecked(rest));
    }
}

impl<'a> Fill for Whole<'a> {
    ghost filled = { λ w. packet_frame w.checksums w.from w.to (packet_of w.header.now (payload_value w.payload.now)) };

    ghost len = { λ w. packet_frame_len w.from w.to (packet_of w.header.now (payload_value w.payload.now)) };

    ghost fits = { λ w. IsSendable (packet_of w.header.now (payload_value w.payload.now)) };

    fn frame_len(&self) -> usize {
        link_len(&self.from, &self.to) + self.header.buffer_len()
    }

    fn fill(&self, buffer: &mut [u8]) {
        let (front, rest) = buffer.split_at_mut(link_len(&self.from, &self.to));
        write_link(&self.from, &self.to, ether_for(self.header), front);
        let (head, body) = rest.split_at_mut(self.header.header_len());
        self.header.emit(head, &self.checksums);
        self.payload.emit(self.header, body, &self.checksums);
    }
}

impl<'a, P: Carried> Fill for DirectFrame<'a, P> {
    ghost filled = { λ f. packet_frame f.checksums f.from f.packet.now.to (direct_following P.value f.header f.packet.now) };

    ghost len = { λ f. packet_frame_len f.from f.packet.now.to (direct_following P.value f.header f.packet.now) };

    ghost fits = { λ f. IsSendable (direct_following P.value f.header f.packet.now) };

    fn frame_len(&self) -> usize {
        link_len(&self.from, &self.packet.to) + (IPV4_HEADER_LEN + self.header.payload_len)
    }

    fn fill(&self, buffer: &mut [u8]) {
        let packet = self.packet;
        let (front, rest) = buffer.split_at_mut(link_len(&self.from, &packet.to));
        write_link(&self.from, &packet.to, EthernetProtocol::Ipv4, front);
        let (head, body) = rest.split_at_mut(IPV4_HEADER_LEN);
        self.header
            .emit(&mut Ipv4PacketMut::new_unchecked(head), &self.checksums);
        packet.carried.emit(&self.header, body, &self.checksums);
    }
}

impl<'a> Fill for FragmentPart<'a> {
    ghost filled = { λ p. fragment_frame p.checksums p.from p.to p.header (record { offset = p.offset; more = p.more; bytes = p.bytes.now }) };

    ghost len = { λ p. fragment_frame_len p.from p.to p.header (record { offset = p.offset; more = p.more; bytes = p.bytes.now }) };

    ghost fits = { λ p. fragment_header_len p.header + length p.bytes.now < 2 ^ 16 };

    fn frame_len(&self) -> usize {
        link_len(&self.from, &self.to) + (self.header.fragment_header_len() + self.bytes.len())
    }

    fn fill(&self, buffer: &mut [u8]) {
        let (front, rest) = buffer.split_at_mut(link_len(&self.from, &self.to));
        write_link(&self.from, &self.to, self.header.ether(), front);
        let (head, body) = rest.split_at_mut(self.header.fragment_header_len());
        match &self.header {
            CutHeader::Ipv4(header) => self.write_v4(header, head),
            CutHeader::Ipv6(header, number) => self.write_v6(header, *number, head),
        }
        body.copy_from_slice(self.bytes);
    }
}

impl FragmentPart<'_> {
    /// Writes the header of a fragment of IPv4.
    fn write_v4(&self, header: &Ipv4Repr, head: &mut [u8])
        requires room { length head.old ≡ 20 }
        requires fits { 20 + length self.now.bytes.now < 2 ^ 16 }
        ensures { head.new ≡ fragment_packet_header self.now.checksums (CutHeader.Ipv4 header.now)
            (record { offset = self.now.offset; more = self.now.more; bytes = self.now.bytes.now }) }
    {
        let header = Ipv4Repr {
            payload_len: self.bytes.len(),
            ..*header
        };
        let mut packet = Ipv4PacketMut::new_unchecked(head);
        header.emit_ipv4_fragment(&mut packet, self.offset, self.more, &self.checksums);
    }

    /// Writes the IPv6 header of a fragment, and its fragment header.
    fn write_v6(&self, header: &Ipv6Repr, number: u32, head: &mut [u8])
        requires room { length head.old ≡ 48 }
        requires fits { 48 + length self.now.bytes.now < 2 ^ 16 }
        ensures { head.new ≡ fragment_packet_header self.now.checksums (CutHeader.Ipv6 header.now number)
            (record { offset = self.now.offset; more = self.now.more; bytes = self.now.bytes.now }) }
    {
        let (front, rest) = head.split_at_mut(IPV6_HEADER_LEN);
        let outer = Ipv6Repr {
            next_header: IpProtocol::Ipv6Frag,
            payload_len: FRAGMENT_HEADER_LEN + self.bytes.len(),
            ..*header
        };
        outer.emit(&mut Ipv6PacketMut::new_unchecked(front));
        self.write_fragment(header.next_header, number, rest);
    }

    /// Writes the fragment header of a fragment.
    fn write_fragment(&self, carried: IpProtocol, number: u32, buffer: &mut [u8])
        requires room { length buffer.old ≡ 8 }
        ensures { buffer.new ≡ fragment_header carried number
            (record { offset = self.now.offset; more = self.now.more; bytes = self.now.bytes.now }) }
    {
        let slot = Ipv6FragmentRepr {
            frag_offset: self.offset / 8,
            more_frags: self.more,
            ident: number,
        };
        let (front, rest) = buffer.split_at_mut(2);
        front.copy_from_slice(&[carried.into(), 0]);
        slot.emit(&mut Ipv6FragmentHeaderMut::new_unchecked(rest));
    }
}

/// Sends a question. Says whether the device took it.
pub fn ask<D: Device>(
    device: &mut D,
    token: D::TxToken,
    neighbor_query: &NeighborQuery,
    checksums: &ChecksumCapabilities,
) -> bool
    requires room { D.refused device.old + 1 < 2 ^ 64 }
    ensures emits { Emits D.moves device.old (solicitation_frame checksums.now neighbor_query.now) (solicitation_len neighbor_query.now) result device.new }
    ensures capabilities { D.described device.new ≡ D.described device.old }
{
    match neighbor_query {
        NeighborQuery::Arp {
            local,
            source,
            target,
        } => {
            let packet = arp_request(local, source, target);
            send(device, token, &ArpFrame { packet })
        }
        NeighborQuery::Neighbor {
            local,
            source,
            target,
        } => {
            let packet = solicitation(local, source, target);
            let header = packet.ip_repr();
            let frame = Whole {
                from: HardwareAddress::Ethernet(*local),
                to: HardwareAddress::Ethernet(solicited_hardware_addr(target)),
                header: &header,
                payload: packet.payload(),
                checksums: *checksums,
            };
            send(device, token, &frame)
        }
    }
}

/// How many bytes stand before a packet between two hardware addresses.
pub(crate) fn link_len(from: &HardwareAddress, to: &HardwareAddress) -> usize
    ensures { result ≡ link_len from.now to.now }
{
    match (from, to) {
        (HardwareAddress::Ethernet(_), HardwareAddress::Ethernet(_)) => ETHERNET_HEADER_LEN,
        _ => 0,
    }
}

fn write_link(
    from: &HardwareAddress,
    to: &HardwareAddress,
    carried: EthernetProtocol,
    buffer: &mut [u8],
)
    requires { length buffer.old ≡ link_len from.now to.now }
    ensures { buffer.new ≡ link_header from.now to.now carried }
{
    if let (HardwareAddress::Ethernet(from), HardwareAddress::Ethernet(to)) = (from, to) {
        let header = EthernetRepr {
            src_addr: *from,
            dst_addr: *to,
            ethertype: carried,
        };
        header.emit(&mut EthernetFrameMut::new_unchecked(buffer));
    }
}

/// What a frame of this packet is said to carry.
fn ether_for(header: &IpRepr) -> EthernetProtocol
    ensures { result ≡ ether_for header.now }
{
    match header {
        IpRepr::Ipv4(_) => EthernetProtocol::Ipv4,
        IpRepr::Ipv6(_) => EthernetProtocol::Ipv6,
    }
}

/// The ARP request for a neighbour.
pub(crate) fn arp_request(
    local: &EthernetAddress,
    source: &Ipv4Address,
    target: &Ipv4Address,
) -> ArpRepr
    ensures { result ≡ arp_request local.now source.now target.now }
{
    ArpRepr::EthernetIpv4 {
        operation: ArpOperation::Request,
        source_hardware_addr: *local,
        source_protocol_addr: *source,
        target_hardware_addr: EthernetAddress::BROADCAST,
        target_protocol_addr: *target,
    }
}

/// The neighbour solicitation for a neighbour.
fn solicitation(
    local: &EthernetAddress,
    source: &Ipv6Address,
    target: &Ipv6Address,
) -> Packet<'static>
    ensures value { packet_value result ≡ solicitation local.now source.now target.now }
    ensures fits { IsSendable (packet_value result) }
{
    let header = Ipv6Repr {
        src_addr: *source,
        dst_addr: solicited_node(target),
        next_header: IpProtocol::Icmpv6,
        payload_len: 32,
        hop_limit: 255,
    };
    let message = NdiscRepr::NeighborSolicit {
        target_addr: *target,
        lladdr: Some(RawHardwareAddress::from(*local)),
    };
    Packet::new(
        IpRepr::Ipv6(header),
        IpPayload::Icmpv6(Icmpv6Repr::Ndisc(message)),
    )
}

/// The group to which solicitations for this address go.
fn solicited_node(target: &Ipv6Address) -> Ipv6Address
    ensures { result ≡ solicited_node target.now }
{
    let [.., a, b, c] = target.0;
    Ipv6Address([0xff, 2, 0, 0, 0, 0, 0, 0, 0, 0, 0, 1, 0xff, a, b, c])
}

/// The Ethernet address of that group.
fn solicited_hardware_addr(target: &Ipv6Address) -> EthernetAddress
    ensures { result ≡ solicited_hardware_addr target.now }
{
    let [.., a, b, c] = target.0;
    EthernetAddress([0x33, 0x33, 0xff, a, b, c])
}
