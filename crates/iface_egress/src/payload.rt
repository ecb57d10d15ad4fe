//! What packets carry that go straight to a hardware address: it is written from where it lies.
ghost use Rattle.std.specs.Prelude.{◌≡◌, length};
ghost use Rattle.ip_wire.specs.IpRepr.TheVariants as Ip;
ghost use Rattle.socket_context.specs.Packet.{PayloadValue, payload_value, payload_len, payload_written, PayloadFits};
ghost use Rattle.iface_egress.specs.FastPath.{segment_in, datagram_in};

use ip_wire::{
    HardwareAddress, IpAddress, IpRepr, Ipv4Repr, TcpHeader, TcpPacketMut, UdpPacketMut, UdpRepr,
};
use net_base::ChecksumCapabilities;
use socket_context::{IpPayload, SegmentPayload};

/// What a packet carries.
pub trait Carried: Drop {
    /// it as a value
    ghost value: { Self → PayloadValue };

    /// Writes it over the whole buffer, as it stands after this header.
    fn emit(&self, header: &Ipv4Repr, buffer: &mut [u8], checksums: &ChecksumCapabilities)
        requires room { length buffer.old ≡ payload_len (value self.now) }
        requires fits { PayloadFits (Ip.Ipv4 header.now) (value self.now) }
        ensures { buffer.new ≡ payload_written checksums.now (Ip.Ipv4 header.now) (value self.now) };
}

/// An IPv4 packet that goes straight to a hardware address: its header, where it lies, and what it carries.
#[derive(Clone, Copy, Debug)]
pub struct Direct<'a, P> {
    pub to: HardwareAddress,
    pub header: &'a Ipv4Repr,
    pub carried: P,
}

/// A segment, whose header and text are lent.
#[derive(Clone, Copy, Debug)]
pub struct LentSegment<'a> {
    pub header: &'a TcpHeader,
    pub payload: SegmentPayload<'a>,
}

/// A datagram, whose bytes are lent.
#[derive(Clone, Copy, Debug)]
pub struct LentDatagram<'a> {
    pub header: UdpRepr,
    pub bytes: &'a [u8],
}

impl<'a> Carried for LentSegment<'a> {
    ghost value = { segment_in };

    fn emit(&self, header: &Ipv4Repr, buffer: &mut [u8], checksums: &ChecksumCapabilities) {
        self.header.emit_parts(
            &mut TcpPacketMut::new_unchecked(buffer),
            &IpAddress::Ipv4(header.src_addr),
            &IpAddress::Ipv4(header.dst_addr),
            self.payload.first,
            self.payload.rest,
            checksums,
        );
    }
}

impl<'a> Carried for LentDatagram<'a> {
    ghost value = { datagram_in };

    fn emit(&self, header: &Ipv4Repr, buffer: &mut [u8], checksums: &ChecksumCapabilities) {
        self.header.emit(
            &mut UdpPacketMut::new_unchecked(buffer),
            &IpAddress::Ipv4(header.src_addr),
            &IpAddress::Ipv4(header.dst_addr),
            self.bytes,
            checksums,
        );
    }
}

impl<'a> Carried for &'a IpPayload<'a> {
    ghost value = { λ p. payload_value p.now };

    fn emit(&self, header: &Ipv4Repr, buffer: &mut [u8], checksums: &ChecksumCapabilities) {
        IpPayload::emit(self, &IpRepr::Ipv4(*header), buffer, checksums);
    }
}
