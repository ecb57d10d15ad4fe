//! A packet in a buffer, read and written in place.
ghost use Rattle.std.specs.Prelude.{◌≡◌, ◌↔◌, ◌<◌, ◌≤◌, IsOk, IfOk, length, slice_index, slice_range};
ghost use Rattle.wire_address.specs.Fields.{be16, put8, put16};
ghost use Rattle.wire_address.specs.Protocol.{ether_number, ether_of};
ghost use Rattle.wire_ip.specs.Parts.{put_run};
ghost use Rattle.ip_wire.specs.Arp.{IsWhole, hardware_number, hardware_of, operation_number, operation_of, bytes_in, name_of, source_protocol_at};
ghost use Rattle.ip_wire.specs.Arp.{target_hardware_at, target_protocol_at, packet_end, written};

use super::field;
use super::kinds::{ArpHardware, ArpOperation};
use super::packet::ArpPacket;
use crate::parts::put_slice;
use wire_address::network_order::write_u16;
use wire_address::{Error, EthernetProtocol};

/// An ARP packet in a buffer, read and written in place.
#[derive(Debug, Drop)]
pub struct ArpPacketMut<'a> {
    pub(super) buffer: &'a mut [u8],
}

impl<'a> ArpPacketMut<'a> {
    /// A view of any bytes.
    pub const fn new_unchecked(buffer: &'a mut [u8]) -> ArpPacketMut<'a>
        ensures same_reference { name_of result ≡ buffer.entry.ghost_name }
        ensures bytes { bytes_in result ≡ buffer.old }
    {
        ArpPacketMut { buffer }
    }

    /// A view of bytes that pass `check_len`.
    pub fn new_checked(buffer: &'a mut [u8]) -> Result<ArpPacketMut<'a>, Error>
        ensures whole { IsOk result ↔ IsWhole buffer.old }
        ensures same_reference { IfOk result (λ view. name_of view ≡ buffer.entry.ghost_name) }
        ensures bytes { IfOk result (λ view. bytes_in view ≡ buffer.old) }
    {
        ArpPacket::new_unchecked(buffer).check_len()?;
        Ok(ArpPacketMut { buffer })
    }

    /// Whether the header is there, and the addresses of the lengths that it gives.
    pub fn check_len(&self) -> Result<(), Error>
        ensures { IsOk result ↔ IsWhole (bytes_in self.now) }
    {
        ArpPacket::new_unchecked(self.buffer).check_len()
    }

    /// The bytes viewed, with all that was written.
    pub const fn into_inner(self) -> &'a mut [u8]
        ensures same_reference { result.ghost_name ≡ name_of self.entry }
        ensures bytes { result.now ≡ bytes_in self.entry }
    {
        self.buffer
    }

    /// The kind of the hardware addresses.
    pub fn hardware_type(&self) -> ArpHardware
        requires { 8 ≤ length (bytes_in self.now) }
        ensures { result ≡ hardware_of (be16 (bytes_in self.now) 0) }
    {
        ArpPacket::new_unchecked(self.buffer).hardware_type()
    }

    /// The protocol whose addresses are asked for, by its number over Ethernet.
    pub fn protocol_type(&self) -> EthernetProtocol
        requires { 8 ≤ length (bytes_in self.now) }
        ensures { result ≡ ether_of (be16 (bytes_in self.now) 2) }
    {
        ArpPacket::new_unchecked(self.buffer).protocol_type()
    }

    pub fn hardware_len(&self) -> u8
        requires { 8 ≤ length (bytes_in self.now) }
        ensures { result ≡ slice_index (bytes_in self.now) 4 }
    {
        ArpPacket::new_unchecked(self.buffer).hardware_len()
    }

    pub fn protocol_len(&self) -> u8
        requires { 8 ≤ length (bytes_in self.now) }
        ensures { result ≡ slice_index (bytes_in self.now) 5 }
    {
        ArpPacket::new_unchecked(self.buffer).protocol_len()
    }

    pub fn operation(&self) -> ArpOperation
        requires { 8 ≤ length (bytes_in self.now) }
        ensures { result ≡ operation_of (be16 (bytes_in self.now) 6) }
    {
        ArpPacket::new_unchecked(self.buffer).operation()
    }

    /// The sender's hardware address.
    pub fn source_hardware_addr(&self) -> &[u8]
        requires { IsWhole (bytes_in self.now) }
        ensures { result.now
            ≡ slice_range (bytes_in self.now) 8 (source_protocol_at (bytes_in self.now)) }
    {
        ArpPacket::new_unchecked(self.buffer).source_hardware_addr()
    }

    /// The sender's protocol address.
    pub fn source_protocol_addr(&self) -> &[u8]
        requires { IsWhole (bytes_in self.now) }
        ensures { result.now
            ≡ slice_range (bytes_in self.now) (source_protocol_at (bytes_in self.now)) (target_hardware_at (bytes_in self.now)) }
    {
        ArpPacket::new_unchecked(self.buffer).source_protocol_addr()
    }

    /// The target's hardware address, which a request leaves open.
    pub fn target_hardware_addr(&self) -> &[u8]
        requires { IsWhole (bytes_in self.now) }
        ensures { result.now
            ≡ slice_range (bytes_in self.now) (target_hardware_at (bytes_in self.now)) (target_protocol_at (bytes_in self.now)) }
    {
        ArpPacket::new_unchecked(self.buffer).target_hardware_addr()
    }

    /// The target's protocol address.
    pub fn target_protocol_addr(&self) -> &[u8]
        requires { IsWhole (bytes_in self.now) }
        ensures { result.now
            ≡ slice_range (bytes_in self.now) (target_protocol_at (bytes_in self.now)) (packet_end (bytes_in self.now)) }
    {
        ArpPacket::new_unchecked(self.buffer).target_protocol_addr()
    }

    pub fn set_hardware_type(&mut self, value: ArpHardware)
        requires { 8 ≤ length (bytes_in self.old) }
        ensures same_reference { name_of self.new ≡ name_of self.old }
        ensures bytes { bytes_in self.new ≡ put16 (bytes_in self.old) 0 (hardware_number value) }
    {
        write_u16(self.buffer, field::HTYPE.start, value.into());
    }

    pub fn set_protocol_type(&mut self, value: EthernetProtocol)
        requires { 8 ≤ length (bytes_in self.old) }
        ensures same_reference { name_of self.new ≡ name_of self.old }
        ensures bytes { bytes_in self.new ≡ put16 (bytes_in self.old) 2 (ether_number value) }
    {
        write_u16(self.buffer, field::PTYPE.start, value.into());
    }

    pub fn set_hardware_len(&mut self, value: u8)
        requires { 8 ≤ length (bytes_in self.old) }
        ensures same_reference { name_of self.new ≡ name_of self.old }
        ensures bytes { bytes_in self.new ≡ put8 (bytes_in self.old) 4 value }
    {
        self.buffer[field::HLEN] = value;
    }

    pub fn set_protocol_len(&mut self, value: u8)
        requires { 8 ≤ length (bytes_in self.old) }
        ensures same_reference { name_of self.new ≡ name_of self.old }
        ensures bytes { bytes_in self.new ≡ put8 (bytes_in self.old) 5 value }
    {
        self.buffer[field::PLEN] = value;
    }

    pub fn set_operation(&mut self, value: ArpOperation)
        requires { 8 ≤ length (bytes_in self.old) }
        ensures same_reference { name_of self.new ≡ name_of self.old }
        ensures bytes { bytes_in self.new ≡ put16 (bytes_in self.old) 6 (operation_number value) }
    {
        write_u16(self.buffer, field::OPER.start, value.into());
    }

    /// Sets the sender's hardware address, of the length that the packet says.
    pub fn set_source_hardware_addr(&mut self, value: &[u8])
        requires whole { IsWhole (bytes_in self.old) }
        requires len { length value.now ≡ slice_index (bytes_in self.old) 4 }
        ensures same_reference { name_of self.new ≡ name_of self.old }
        ensures bytes { bytes_in self.new
            ≡ put_run (bytes_in self.old) 8 (length value.now) value.now }
    {
        let offset = field::SHA(self.buffer[field::HLEN], self.buffer[field::PLEN]);
        put_slice(self.buffer, offset.start, value);
    }

    /// Sets the sender's protocol address, of the length that the packet says.
    pub fn set_source_protocol_addr(&mut self, value: &[u8])
        requires whole { IsWhole (bytes_in self.old) }
        requires len { length value.now ≡ slice_index (bytes_in self.old) 5 }
        ensures same_reference { name_of self.new ≡ name_of self.old }
        ensures bytes { bytes_in self.new
            ≡ put_run (bytes_in self.old) (source_protocol_at (bytes_in self.old)) (length value.now) value.now }
    {
        let offset = field::SPA(self.buffer[field::HLEN], self.buffer[field::PLEN]);
        put_slice(self.buffer, offset.start, value);
    }

    /// Sets the target's hardware address, of the length that the packet says.
    pub fn set_target_hardware_addr(&mut self, value: &[u8])
        requires whole { IsWhole (bytes_in self.old) }
        requires len { length value.now ≡ slice_index (bytes_in self.old) 4 }
        ensures same_reference { name_of self.new ≡ name_of self.old }
        ensures bytes { bytes_in self.new
            ≡ put_run (bytes_in self.old) (target_hardware_at (bytes_in self.old)) (length value.now) value.now }
    {
        let offset = field::THA(self.buffer[field::HLEN], self.buffer[field::PLEN]);
        put_slice(self.buffer, offset.start, value);
    }

    /// Sets the target's protocol address, of the length that the packet says.
    pub fn set_target_protocol_addr(&mut self, value: &[u8])
        requires whole { IsWhole (bytes_in self.old) }
        requires len { length value.now ≡ slice_index (bytes_in self.old) 5 }
        ensures same_reference { name_of self.new ≡ name_of self.old }
        ensures bytes { bytes_in self.new
            ≡ put_run (bytes_in self.old) (target_protocol_at (bytes_in self.old)) (length value.now) value.now }
    {
        let offset = field::TPA(self.buffer[field::HLEN], self.buffer[field::PLEN]);
        put_slice(self.buffer, offset.start, value);
    }
}
