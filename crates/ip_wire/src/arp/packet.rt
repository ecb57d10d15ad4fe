//! A packet in a buffer, read in place.
ghost use Rattle.std.specs.Prelude.{◌≡◌, ◌↔◌, ◌<◌, ◌≤◌, IsOk, IfOk, length, slice_index, slice_range};
ghost use Rattle.wire_address.specs.Fields.{be16};
ghost use Rattle.wire_address.specs.Protocol.{ether_of};
ghost use Rattle.ip_wire.specs.Arp.{IsWhole, hardware_of, operation_of, bytes_of, source_protocol_at, target_hardware_at, target_protocol_at, packet_end};

use super::field;
use super::kinds::{ArpHardware, ArpOperation};
use wire_address::network_order::read_u16;
use wire_address::{Error, EthernetProtocol};

/// An ARP packet in a buffer, read in place.
#[derive(Clone, Copy, Debug)]
pub struct ArpPacket<'a> {
    pub(super) buffer: &'a [u8],
}

impl<'a> ArpPacket<'a> {
    /// A view of any bytes.
    pub const fn new_unchecked(buffer: &'a [u8]) -> ArpPacket<'a>
        ensures { bytes_of result ≡ buffer.now }
    {
        ArpPacket { buffer }
    }

    /// A view of bytes that pass `check_len`.
    pub fn new_checked(buffer: &'a [u8]) -> Result<ArpPacket<'a>, Error>
        ensures whole { IsOk result ↔ IsWhole buffer.now }
        ensures bytes { IfOk result (λ view. bytes_of view ≡ buffer.now) }
    {
        let packet = ArpPacket::new_unchecked(buffer);
        packet.check_len()?;
        Ok(packet)
    }

    /// Whether the header is there, and the addresses of the lengths that it gives.
    pub fn check_len(&self) -> Result<(), Error>
        ensures { IsOk result ↔ IsWhole (bytes_of self.now) }
    {
        if self.buffer.len() < field::OPER.end {
            return Err(Error);
        }
        if self.buffer.len() < field::TPA(self.hardware_len(), self.protocol_len()).end {
            return Err(Error);
        }
        Ok(())
    }

    /// The bytes viewed.
    pub const fn into_inner(self) -> &'a [u8]
        ensures { result.now ≡ bytes_of self.entry }
    {
        self.buffer
    }

    /// The kind of the hardware addresses.
    pub fn hardware_type(&self) -> ArpHardware
        requires { 8 ≤ length (bytes_of self.now) }
        ensures { result ≡ hardware_of (be16 (bytes_of self.now) 0) }
    {
        ArpHardware::from(read_u16(self.buffer, field::HTYPE.start))
    }

    /// The protocol whose addresses are asked for, by its number over Ethernet.
    pub fn protocol_type(&self) -> EthernetProtocol
        requires { 8 ≤ length (bytes_of self.now) }
        ensures { result ≡ ether_of (be16 (bytes_of self.now) 2) }
    {
        EthernetProtocol::from(read_u16(self.buffer, field::PTYPE.start))
    }

    pub fn hardware_len(&self) -> u8
        requires { 8 ≤ length (bytes_of self.now) }
        ensures { result ≡ slice_index (bytes_of self.now) 4 }
    {
        self.buffer[field::HLEN]
    }

    pub fn protocol_len(&self) -> u8
        requires { 8 ≤ length (bytes_of self.now) }
        ensures { result ≡ slice_index (bytes_of self.now) 5 }
    {
        self.buffer[field::PLEN]
    }

    pub fn operation(&self) -> ArpOperation
        requires { 8 ≤ length (bytes_of self.now) }
        ensures { result ≡ operation_of (be16 (bytes_of self.now) 6) }
    {
        ArpOperation::from(read_u16(self.buffer, field::OPER.start))
    }

    /// The sender's hardware address.
    pub fn source_hardware_addr(&self) -> &'a [u8]
        requires { IsWhole (bytes_of self.now) }
        ensures { result.now
            ≡ slice_range (bytes_of self.now) 8 (source_protocol_at (bytes_of self.now)) }
    {
        let offset = field::SHA(self.buffer[field::HLEN], self.buffer[field::PLEN]);
        &self.buffer[offset.start..offset.end]
    }

    /// The sender's protocol address.
    pub fn source_protocol_addr(&self) -> &'a [u8]
        requires { IsWhole (bytes_of self.now) }
        ensures { result.now
            ≡ slice_range (bytes_of self.now) (source_protocol_at (bytes_of self.now)) (target_hardware_at (bytes_of self.now)) }
    {
        let offset = field::SPA(self.buffer[field::HLEN], self.buffer[field::PLEN]);
        &self.buffer[offset.start..offset.end]
    }

    /// The target's hardware address, which a request leaves open.
    pub fn target_hardware_addr(&self) -> &'a [u8]
        requires { IsWhole (bytes_of self.now) }
        ensures { result.now
            ≡ slice_range (bytes_of self.now) (target_hardware_at (bytes_of self.now)) (target_protocol_at (bytes_of self.now)) }
    {
        let offset = field::THA(self.buffer[field::HLEN], self.buffer[field::PLEN]);
        &self.buffer[offset.start..offset.end]
    }

    /// The target's protocol address.
    pub fn target_protocol_addr(&self) -> &'a [u8]
        requires { IsWhole (bytes_of self.now) }
        ensures { result.now
            ≡ slice_range (bytes_of self.now) (target_protocol_at (bytes_of self.now)) (packet_end (bytes_of self.now)) }
    {
        let offset = field::TPA(self.buffer[field::HLEN], self.buffer[field::PLEN]);
        &self.buffer[offset.start..offset.end]
    }
}
