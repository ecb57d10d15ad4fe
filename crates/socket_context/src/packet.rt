//! The packets that sockets offer, and how they are written after an IP header.
ghost use Rattle.std.specs.Prelude.{◌≡◌, length};
ghost use Rattle.ip_wire.specs.Tcp.{header_of};
ghost use Rattle.socket_context.specs.Packet.{Segment, packet_value, packet_of, payload_value, payload_len, PayloadFits, payload_written};

use crate::segment_payload::SegmentPayload;
use control_wire::{Icmpv4PacketMut, Icmpv4Repr, Icmpv6PacketMut, Icmpv6Repr};
use ip_wire::{IpRepr, TcpHeader, TcpPacketMut, TcpRepr, UdpPacketMut, UdpRepr};
use net_base::ChecksumCapabilities;

/// What an IP packet carries.
#[derive(Clone, Copy, Debug, PartialEq, Eq)]
pub enum IpPayload<'a> {
    Icmpv4(Icmpv4Repr<'a>),
    Icmpv6(Icmpv6Repr<'a>),
    Raw(&'a [u8]),
    Udp(UdpRepr, &'a [u8]),
    Tcp(TcpHeader, SegmentPayload<'a>),
}

/// An IP packet: its header and what it carries.
#[derive(Clone, Copy, Debug, PartialEq, Eq)]
pub struct Packet<'a> {
    header: IpRepr,
    payload: IpPayload<'a>,
}

impl<'a> Packet<'a> {
    /// A packet of this header that carries this.
    pub const fn new(ip_repr: IpRepr, payload: IpPayload<'a>) -> Packet<'a>
        ensures { packet_value result ≡ packet_of ip_repr (payload_value payload.entry) }
    {
        Packet {
            header: ip_repr,
            payload,
        }
    }

    /// The header.
    pub const fn ip_repr(&self) -> IpRepr
        ensures { result ≡ (packet_value self.now).header }
    {
        self.header
    }

    /// What the packet carries.
    pub const fn payload(&self) -> &IpPayload<'a>
        ensures { payload_value result.now ≡ (packet_value self.now).payload }
    {
        &self.payload
    }
}

impl<'a> IpPayload<'a> {
    /// A segment whose text lies in one piece.
    pub const fn segment(segment: &TcpRepr<'a>) -> IpPayload<'a>
        ensures { payload_value result ≡ Segment (header_of segment.now) segment.now.payload.now }
    {
        IpPayload::Tcp(segment.header(), SegmentPayload::whole(segment.payload))
    }

    /// How many bytes it takes after the IP header.
    pub fn buffer_len(&self) -> usize
        ensures { result ≡ payload_len (payload_value self.now) }
    {
        match self {
            IpPayload::Icmpv4(message) => message.buffer_len(),
            IpPayload::Icmpv6(message) => message.buffer_len(),
            IpPayload::Raw(bytes) => bytes.len(),
            IpPayload::Udp(header, bytes) => header.buffer_len(bytes.len()),
            IpPayload::Tcp(header, text) => header.header_len() + text.len(),
        }
    }

    /// Writes it over the whole buffer, as it stands after this IP header, with the checksums that
    /// the capabilities leave to the stack.
    pub fn emit(&self, ip_repr: &IpRepr, buffer: &mut [u8], checksum_caps: &ChecksumCapabilities)
        requires room { length buffer.old ≡ payload_len (payload_value self.now) }
        requires fits { PayloadFits ip_repr.now (payload_value self.now) }
        ensures { buffer.new ≡ payload_written checksum_caps.now ip_repr.now (payload_value self.now) }
    {
        let (source, destination) = (ip_repr.src_addr(), ip_repr.dst_addr());
        match self {
            IpPayload::Icmpv4(message) => {
                message.emit(&mut Icmpv4PacketMut::new_unchecked(buffer), checksum_caps);
            }
            IpPayload::Icmpv6(message) => {
                let IpRepr::Ipv6(header) = ip_repr else {
                    unreachable!()
                };
                let mut packet = Icmpv6PacketMut::new_unchecked(buffer);
                message.emit(
                    &header.src_addr,
                    &header.dst_addr,
                    &mut packet,
                    checksum_caps,
                );
            }
            IpPayload::Raw(bytes) => buffer.copy_from_slice(bytes),
            IpPayload::Udp(header, bytes) => {
                let mut packet = UdpPacketMut::new_unchecked(buffer);
                header.emit(&mut packet, &source, &destination, bytes, checksum_caps);
            }
            IpPayload::Tcp(header, text) => {
                let mut packet = TcpPacketMut::new_unchecked(buffer);
                let (first, rest) = (text.first, text.rest);
                header.emit_parts(
                    &mut packet,
                    &source,
                    &destination,
                    first,
                    rest,
                    checksum_caps,
                );
            }
        }
    }
}

impl<'a> Packet<'a> {
    /// Writes what the packet carries over the whole buffer, as `IpPayload::emit` does.
    pub fn emit_payload(&self, buffer: &mut [u8], checksum_caps: &ChecksumCapabilities)
        requires room { length buffer.old ≡ payload_len (packet_value self.now).payload }
        requires fits { PayloadFits (packet_value self.now).header (packet_value self.now).payload }
        ensures { buffer.new ≡ payload_written checksum_caps.now (packet_value self.now).header (packet_value self.now).payload }
    {
        self.payload.emit(&self.header, buffer, checksum_caps);
    }
}
