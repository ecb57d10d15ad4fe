//! A frame in a buffer, read in place.
ghost use Rattle.std.specs.Prelude.{◌≡◌, ◌↔◌, ◌+◌, ◌<◌, ◌≤◌, ◌^◌, IsOk, IfOk, length, slice_range};
ghost use Rattle.wire_address.specs.Fields.{be16};
ghost use Rattle.wire_address.specs.Protocol.{ether_of};
ghost use Rattle.ip_wire.specs.Ethernet.{IsWhole, bytes_of, payload_of};

use super::field;
use wire_address::network_order::read_u16;
use wire_address::{Error, EthernetAddress, EthernetProtocol};

/// An Ethernet frame in a buffer, read in place.
#[derive(Clone, Copy, Debug)]
pub struct EthernetFrame<'a> {
    pub(super) buffer: &'a [u8],
}

impl<'a> EthernetFrame<'a> {
    /// The length of the header.
    pub const fn header_len() -> usize
        ensures { result ≡ 14 }
    {
        field::HEADER_LEN
    }

    /// The length of a frame with so many bytes of payload.
    pub const fn buffer_len(payload_len: usize) -> usize
        requires { 14 + payload_len < 2 ^ 64 }
        ensures { result ≡ 14 + payload_len }
    {
        field::HEADER_LEN + payload_len
    }

    /// A view of any bytes.
    pub const fn new_unchecked(buffer: &'a [u8]) -> EthernetFrame<'a>
        ensures { bytes_of result ≡ buffer.now }
    {
        EthernetFrame { buffer }
    }

    /// A view of bytes that pass `check_len`.
    pub fn new_checked(buffer: &'a [u8]) -> Result<EthernetFrame<'a>, Error>
        ensures whole { IsOk result ↔ IsWhole buffer.now }
        ensures bytes { IfOk result (λ view. bytes_of view ≡ buffer.now) }
    {
        let packet = EthernetFrame::new_unchecked(buffer);
        packet.check_len()?;
        Ok(packet)
    }

    /// Whether the header is there.
    pub fn check_len(&self) -> Result<(), Error>
        ensures { IsOk result ↔ IsWhole (bytes_of self.now) }
    {
        if self.buffer.len() < field::HEADER_LEN {
            return Err(Error);
        }
        Ok(())
    }

    /// The bytes viewed.
    pub const fn into_inner(self) -> &'a [u8]
        ensures { result.now ≡ bytes_of self.entry }
    {
        self.buffer
    }

    pub fn dst_addr(&self) -> EthernetAddress
        requires { 14 ≤ length (bytes_of self.now) }
        ensures { result.0 ≡ slice_range (bytes_of self.now) 0 6 }
    {
        let mut octets = [0; 6];
        octets.copy_from_slice(&self.buffer[field::DESTINATION]);
        EthernetAddress(octets)
    }

    pub fn src_addr(&self) -> EthernetAddress
        requires { 14 ≤ length (bytes_of self.now) }
        ensures { result.0 ≡ slice_range (bytes_of self.now) 6 12 }
    {
        let mut octets = [0; 6];
        octets.copy_from_slice(&self.buffer[field::SOURCE]);
        EthernetAddress(octets)
    }

    /// What the frame carries, by its number.
    pub fn ethertype(&self) -> EthernetProtocol
        requires { 14 ≤ length (bytes_of self.now) }
        ensures { result ≡ ether_of (be16 (bytes_of self.now) 12) }
    {
        EthernetProtocol::from(read_u16(self.buffer, field::ETHERTYPE.start))
    }

    /// What the frame carries, and padding.
    pub fn payload(&self) -> &'a [u8]
        requires { IsWhole (bytes_of self.now) }
        ensures { result.now ≡ payload_of (bytes_of self.now) }
    {
        let (_header, payload) = self.buffer.split_at(field::HEADER_LEN);
        payload
    }
}
