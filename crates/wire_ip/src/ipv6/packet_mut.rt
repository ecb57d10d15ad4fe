//! A packet in a buffer, read and written in place.
ghost use Rattle.std.specs.Prelude.{◌≡◌, ◌↔◌, ◌+◌, ◌*◌, ◌/◌, ◌%◌, ◌<◌, ◌≤◌, ◌^◌, IsOk, IfOk, length, slice_index};
ghost use Rattle.wire_address.specs.Fields.{be16, be32, put8, put16, put32};
ghost use Rattle.wire_address.specs.Protocol.{protocol_number, protocol_of};
ghost use Rattle.wire_ip.specs.Parts.{put_run};
ghost use Rattle.wire_ip.specs.Ipv6.{IsWhole, bytes_in, name_of, payload_of, written};
ghost use Rattle.std.specs.Prelude.{slice_range};

use super::field::{self, HEADER_LEN};
use super::packet::Ipv6Packet;
use crate::parts::put16_bytes;
use wire_address::network_order::{write_u16, write_u32};
use wire_address::{Error, IpProtocol, Ipv6Address};

/// An IPv6 packet in a buffer, read and written in place.
#[derive(Debug, Drop)]
pub struct Ipv6PacketMut<'a> {
    pub(crate) buffer: &'a mut [u8],
}

impl<'a> Ipv6PacketMut<'a> {
    /// The length of the header.
    pub const fn header_len(&self) -> usize
        ensures { result ≡ 40 }
    {
        HEADER_LEN
    }

    /// A view of any bytes.
    pub const fn new_unchecked(buffer: &'a mut [u8]) -> Ipv6PacketMut<'a>
        ensures same_reference { name_of result ≡ buffer.entry.ghost_name }
        ensures bytes { bytes_in result ≡ buffer.old }
    {
        Ipv6PacketMut { buffer }
    }

    /// A view of bytes that pass `check_len`.
    pub fn new_checked(buffer: &'a mut [u8]) -> Result<Ipv6PacketMut<'a>, Error>
        ensures whole { IsOk result ↔ IsWhole buffer.old }
        ensures same_reference { IfOk result (λ view. name_of view ≡ buffer.entry.ghost_name) }
        ensures bytes { IfOk result (λ view. bytes_in view ≡ buffer.old) }
    {
        Ipv6Packet::new_unchecked(buffer).check_len()?;
        Ok(Ipv6PacketMut { buffer })
    }

    /// Whether the header is there, and the length field fits the bytes.
    pub fn check_len(&self) -> Result<(), Error>
        ensures { IsOk result ↔ IsWhole (bytes_in self.now) }
    {
        Ipv6Packet::new_unchecked(self.buffer).check_len()
    }

    /// The bytes viewed, with all that was written.
    pub const fn into_inner(self) -> &'a mut [u8]
        ensures same_reference { result.ghost_name ≡ name_of self.entry }
        ensures bytes { result.now ≡ bytes_in self.entry }
    {
        self.buffer
    }

    /// Version, traffic class and flow label.
    fn first_word(&self) -> u32
        requires { 40 ≤ length (bytes_in self.now) }
        ensures { result ≡ be32 (bytes_in self.now) 0 }
    {
        Ipv6Packet::new_unchecked(self.buffer).first_word()
    }

    /// Version, traffic class and the first bits of the flow label.
    fn first_half(&self) -> u16
        requires { 40 ≤ length (bytes_in self.now) }
        ensures { result ≡ be16 (bytes_in self.now) 0 }
    {
        Ipv6Packet::new_unchecked(self.buffer).first_half()
    }

    pub fn version(&self) -> u8
        requires { 40 ≤ length (bytes_in self.now) }
        ensures { result ≡ slice_index (bytes_in self.now) 0 / 16 }
    {
        Ipv6Packet::new_unchecked(self.buffer).version()
    }

    pub fn traffic_class(&self) -> u8
        requires { 40 ≤ length (bytes_in self.now) }
        ensures { result ≡ be16 (bytes_in self.now) 0 / 16 % 256 }
    {
        Ipv6Packet::new_unchecked(self.buffer).traffic_class()
    }

    /// The flow label, of 20 bits.
    pub fn flow_label(&self) -> u32
        requires { 40 ≤ length (bytes_in self.now) }
        ensures { result ≡ be32 (bytes_in self.now) 0 % 2 ^ 20 }
    {
        Ipv6Packet::new_unchecked(self.buffer).flow_label()
    }

    /// The length of the payload.
    pub fn payload_len(&self) -> u16
        requires { 40 ≤ length (bytes_in self.now) }
        ensures { result ≡ be16 (bytes_in self.now) 4 }
    {
        Ipv6Packet::new_unchecked(self.buffer).payload_len()
    }

    /// The length of header and payload.
    pub fn total_len(&self) -> usize
        requires { 40 ≤ length (bytes_in self.now) }
        ensures { result ≡ 40 + be16 (bytes_in self.now) 4 }
    {
        Ipv6Packet::new_unchecked(self.buffer).total_len()
    }

    /// What the packet carries, by its number.
    pub fn next_header(&self) -> IpProtocol
        requires { 40 ≤ length (bytes_in self.now) }
        ensures { result ≡ protocol_of (slice_index (bytes_in self.now) 6) }
    {
        Ipv6Packet::new_unchecked(self.buffer).next_header()
    }

    pub fn hop_limit(&self) -> u8
        requires { 40 ≤ length (bytes_in self.now) }
        ensures { result ≡ slice_index (bytes_in self.now) 7 }
    {
        Ipv6Packet::new_unchecked(self.buffer).hop_limit()
    }

    pub fn src_addr(&self) -> Ipv6Address
        requires { 40 ≤ length (bytes_in self.now) }
        ensures { result.0 ≡ slice_range (bytes_in self.now) 8 24 }
    {
        Ipv6Packet::new_unchecked(self.buffer).src_addr()
    }

    pub fn dst_addr(&self) -> Ipv6Address
        requires { 40 ≤ length (bytes_in self.now) }
        ensures { result.0 ≡ slice_range (bytes_in self.now) 24 40 }
    {
        Ipv6Packet::new_unchecked(self.buffer).dst_addr()
    }

    /// What the packet carries.
    pub fn payload(&self) -> &[u8]
        requires { IsWhole (bytes_in self.now) }
        ensures { result.now ≡ payload_of (bytes_in self.now) }
    {
        Ipv6Packet::new_unchecked(self.buffer).payload()
    }

    pub fn set_version(&mut self, value: u8)
        requires { 40 ≤ length (bytes_in self.old) }
        ensures same_reference { name_of self.new ≡ name_of self.old }
        ensures bytes { bytes_in self.new
            ≡ put8 (bytes_in self.old) 0 (value % 16 * 16 + slice_index (bytes_in self.old) 0 % 16) }
    {
        let old = self.buffer[field::VER_TC_FLOW.start];
        self.buffer[field::VER_TC_FLOW.start] = ((value & 0x0f) << 4) + (old & 0x0f);
    }

    pub fn set_traffic_class(&mut self, value: u8)
        requires { 40 ≤ length (bytes_in self.old) }
        ensures same_reference { name_of self.new ≡ name_of self.old }
        ensures bytes { bytes_in self.new
            ≡ put16 (bytes_in self.old) 0 (be16 (bytes_in self.old) 0 / 2 ^ 12 * 2 ^ 12 + value * 16 + be16 (bytes_in self.old) 0 % 16) }
    {
        let old = self.first_half();
        let new = ((old >> 12) << 12) + ((value as u16) << 4) + (old & 0x000f);
        write_u16(self.buffer, field::VER_TC_FLOW.start, new);
    }

    /// Sets the flow label, of 20 bits.
    pub fn set_flow_label(&mut self, value: u32)
        requires { 40 ≤ length (bytes_in self.old) }
        ensures same_reference { name_of self.new ≡ name_of self.old }
        ensures bytes { bytes_in self.new
            ≡ put32 (bytes_in self.old) 0 (be32 (bytes_in self.old) 0 / 2 ^ 20 * 2 ^ 20 + value % 2 ^ 20) }
    {
        let old = self.first_word();
        let new = ((old >> 20) << 20) + (value & 0x000f_ffff);
        write_u32(self.buffer, field::VER_TC_FLOW.start, new);
    }

    /// Sets the length of the payload.
    pub fn set_payload_len(&mut self, value: u16)
        requires { 40 ≤ length (bytes_in self.old) }
        ensures same_reference { name_of self.new ≡ name_of self.old }
        ensures bytes { bytes_in self.new ≡ put16 (bytes_in self.old) 4 value }
    {
        write_u16(self.buffer, field::LENGTH.start, value);
    }

    pub fn set_next_header(&mut self, value: IpProtocol)
        requires { 40 ≤ length (bytes_in self.old) }
        ensures same_reference { name_of self.new ≡ name_of self.old }
        ensures bytes { bytes_in self.new ≡ put8 (bytes_in self.old) 6 (protocol_number value) }
    {
        self.buffer[field::NXT_HDR] = value.into();
    }

    pub fn set_hop_limit(&mut self, value: u8)
        requires { 40 ≤ length (bytes_in self.old) }
        ensures same_reference { name_of self.new ≡ name_of self.old }
        ensures bytes { bytes_in self.new ≡ put8 (bytes_in self.old) 7 value }
    {
        self.buffer[field::HOP_LIMIT] = value;
    }

    pub fn set_src_addr(&mut self, value: Ipv6Address)
        requires { 40 ≤ length (bytes_in self.old) }
        ensures same_reference { name_of self.new ≡ name_of self.old }
        ensures bytes { bytes_in self.new ≡ put_run (bytes_in self.old) 8 16 value.0 }
    {
        put16_bytes(self.buffer, field::SRC_ADDR.start, &value.0);
    }

    pub fn set_dst_addr(&mut self, value: Ipv6Address)
        requires { 40 ≤ length (bytes_in self.old) }
        ensures same_reference { name_of self.new ≡ name_of self.old }
        ensures bytes { bytes_in self.new ≡ put_run (bytes_in self.old) 24 16 value.0 }
    {
        put16_bytes(self.buffer, field::DST_ADDR.start, &value.0);
    }

    /// What the packet carries, to be written.
    pub fn payload_mut(&mut self) -> &mut [u8]
        requires { IsWhole (bytes_in self.old) }
        ensures { result.now ≡ payload_of (bytes_in self.old) }
    {
        let end = self.total_len();
        &mut self.buffer[HEADER_LEN..end]
    }
}
