//! A packet in a buffer, read in place.
ghost use Rattle.std.specs.Prelude.{◌≡◌, ◌↔◌, ◌+◌, ◌/◌, ◌%◌, ◌<◌, ◌≤◌, ◌^◌, IsOk, IfOk, length, slice_index};
ghost use Rattle.wire_address.specs.Fields.{be16, be32};
ghost use Rattle.wire_address.specs.Protocol.{protocol_of};
ghost use Rattle.wire_ip.specs.Ipv6.{IsWhole, bytes_of, payload_of};
ghost use Rattle.std.specs.Prelude.{slice_range};

use super::field::{self, HEADER_LEN};
use wire_address::network_order::{read_u16, read_u32};
use wire_address::{Error, IpProtocol, Ipv6Address};

/// An IPv6 packet in a buffer, read in place.
#[derive(Clone, Copy, Debug)]
pub struct Ipv6Packet<'a> {
    buffer: &'a [u8],
}

impl<'a> Ipv6Packet<'a> {
    /// The length of the header.
    pub const fn header_len(&self) -> usize
        ensures { result ≡ 40 }
    {
        HEADER_LEN
    }

    /// A view of any bytes.
    pub const fn new_unchecked(buffer: &'a [u8]) -> Ipv6Packet<'a>
        ensures { bytes_of result ≡ buffer.now }
    {
        Ipv6Packet { buffer }
    }

    /// A view of bytes that pass `check_len`.
    pub fn new_checked(buffer: &'a [u8]) -> Result<Ipv6Packet<'a>, Error>
        ensures whole { IsOk result ↔ IsWhole buffer.now }
        ensures bytes { IfOk result (λ view. bytes_of view ≡ buffer.now) }
    {
        let packet = Ipv6Packet::new_unchecked(buffer);
        packet.check_len()?;
        Ok(packet)
    }

    /// Whether the header is there, and the length field fits the bytes.
    pub fn check_len(&self) -> Result<(), Error>
        ensures { IsOk result ↔ IsWhole (bytes_of self.now) }
    {
        if self.buffer.len() < HEADER_LEN || self.total_len() > self.buffer.len() {
            return Err(Error);
        }
        Ok(())
    }

    /// The bytes viewed.
    pub const fn into_inner(self) -> &'a [u8]
        ensures { result.now ≡ bytes_of self.entry }
    {
        self.buffer
    }

    /// Version, traffic class and flow label.
    pub(crate) fn first_word(&self) -> u32
        requires { 40 ≤ length (bytes_of self.now) }
        ensures { result ≡ be32 (bytes_of self.now) 0 }
    {
        read_u32(self.buffer, field::VER_TC_FLOW.start)
    }

    /// Version, traffic class and the first bits of the flow label.
    pub(crate) fn first_half(&self) -> u16
        requires { 40 ≤ length (bytes_of self.now) }
        ensures { result ≡ be16 (bytes_of self.now) 0 }
    {
        read_u16(self.buffer, field::VER_TC_FLOW.start)
    }

    pub fn version(&self) -> u8
        requires { 40 ≤ length (bytes_of self.now) }
        ensures { result ≡ slice_index (bytes_of self.now) 0 / 16 }
    {
        self.buffer[field::VER_TC_FLOW.start] >> 4
    }

    pub fn traffic_class(&self) -> u8
        requires { 40 ≤ length (bytes_of self.now) }
        ensures { result ≡ be16 (bytes_of self.now) 0 / 16 % 256 }
    {
        ((self.first_half() >> 4) & 0xff) as u8
    }

    /// The flow label, of 20 bits.
    pub fn flow_label(&self) -> u32
        requires { 40 ≤ length (bytes_of self.now) }
        ensures { result ≡ be32 (bytes_of self.now) 0 % 2 ^ 20 }
    {
        self.first_word() & 0x000f_ffff
    }

    /// The length of the payload.
    pub fn payload_len(&self) -> u16
        requires { 40 ≤ length (bytes_of self.now) }
        ensures { result ≡ be16 (bytes_of self.now) 4 }
    {
        read_u16(self.buffer, field::LENGTH.start)
    }

    /// The length of header and payload.
    pub fn total_len(&self) -> usize
        requires { 40 ≤ length (bytes_of self.now) }
        ensures { result ≡ 40 + be16 (bytes_of self.now) 4 }
    {
        HEADER_LEN + self.payload_len() as usize
    }

    /// What the packet carries, by its number.
    pub fn next_header(&self) -> IpProtocol
        requires { 40 ≤ length (bytes_of self.now) }
        ensures { result ≡ protocol_of (slice_index (bytes_of self.now) 6) }
    {
        IpProtocol::from(self.buffer[field::NXT_HDR])
    }

    pub fn hop_limit(&self) -> u8
        requires { 40 ≤ length (bytes_of self.now) }
        ensures { result ≡ slice_index (bytes_of self.now) 7 }
    {
        self.buffer[field::HOP_LIMIT]
    }

    pub fn src_addr(&self) -> Ipv6Address
        requires { 40 ≤ length (bytes_of self.now) }
        ensures { result.0 ≡ slice_range (bytes_of self.now) 8 24 }
    {
        let mut octets = [0; 16];
        octets.copy_from_slice(&self.buffer[field::SRC_ADDR]);
        Ipv6Address(octets)
    }

    pub fn dst_addr(&self) -> Ipv6Address
        requires { 40 ≤ length (bytes_of self.now) }
        ensures { result.0 ≡ slice_range (bytes_of self.now) 24 40 }
    {
        let mut octets = [0; 16];
        octets.copy_from_slice(&self.buffer[field::DST_ADDR]);
        Ipv6Address(octets)
    }

    /// What the packet carries.
    pub fn payload(&self) -> &'a [u8]
        requires { IsWhole (bytes_of self.now) }
        ensures { result.now ≡ payload_of (bytes_of self.now) }
    {
        &self.buffer[HEADER_LEN..self.total_len()]
    }
}
