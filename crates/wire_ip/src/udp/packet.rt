//! A datagram in a buffer, read in place.
ghost use Rattle.std.specs.Prelude.{◌≡◌, ◌↔◌, ◌<◌, ◌≤◌, IsTrue, IsOk, IfOk, length};
ghost use Rattle.wire_address.specs.Address.{version_of};
ghost use Rattle.wire_address.specs.Fields.{be16};
ghost use Rattle.wire_address.specs.Sum.{folded};
ghost use Rattle.wire_address.specs.declared.ip.IpAddress.{IpAddress};
ghost use Rattle.wire_address.specs.Pseudo.{covered};
ghost use Rattle.wire_ip.specs.Udp.{IsWhole, IsChecked, bytes_of, payload_of, datagram_of};

use super::field::{self, HEADER_LEN};
use crate::pseudo_sums;
use wire_address::network_order::read_u16;
use wire_address::{Error, IpAddress, IpProtocol};

/// A datagram in a buffer, read in place.
#[derive(Clone, Copy, Debug)]
pub struct UdpPacket<'a> {
    buffer: &'a [u8],
}

impl<'a> UdpPacket<'a> {
    /// A view of any bytes.
    pub const fn new_unchecked(buffer: &'a [u8]) -> UdpPacket<'a>
        ensures { bytes_of result ≡ buffer.now }
    {
        UdpPacket { buffer }
    }

    /// A view of bytes that pass `check_len`.
    pub fn new_checked(buffer: &'a [u8]) -> Result<UdpPacket<'a>, Error>
        ensures whole { IsOk result ↔ IsWhole buffer.now }
        ensures bytes { IfOk result (λ view. bytes_of view ≡ buffer.now) }
    {
        let packet = UdpPacket::new_unchecked(buffer);
        packet.check_len()?;
        Ok(packet)
    }

    /// Whether the header is there and the length field fits the bytes.
    pub fn check_len(&self) -> Result<(), Error>
        ensures { IsOk result ↔ IsWhole (bytes_of self.now) }
    {
        if self.buffer.len() < HEADER_LEN {
            return Err(Error);
        }
        let length = self.len() as usize;
        if length < HEADER_LEN || length > self.buffer.len() {
            return Err(Error);
        }
        Ok(())
    }

    /// The bytes viewed.
    pub const fn into_inner(self) -> &'a [u8]
        ensures { result.now ≡ bytes_of self.entry }
    {
        self.buffer
    }

    pub fn src_port(&self) -> u16
        requires { 8 ≤ length (bytes_of self.now) }
        ensures { result ≡ be16 (bytes_of self.now) 0 }
    {
        read_u16(self.buffer, field::SRC_PORT.start)
    }

    pub fn dst_port(&self) -> u16
        requires { 8 ≤ length (bytes_of self.now) }
        ensures { result ≡ be16 (bytes_of self.now) 2 }
    {
        read_u16(self.buffer, field::DST_PORT.start)
    }

    /// The length field: header and payload.
    pub fn len(&self) -> u16
        requires { 8 ≤ length (bytes_of self.now) }
        ensures { result ≡ be16 (bytes_of self.now) 4 }
    {
        read_u16(self.buffer, field::LENGTH.start)
    }

    pub fn checksum(&self) -> u16
        requires { 8 ≤ length (bytes_of self.now) }
        ensures { result ≡ be16 (bytes_of self.now) 6 }
    {
        read_u16(self.buffer, field::CHECKSUM.start)
    }

    /// What the datagram carries.
    pub fn payload(&self) -> &'a [u8]
        requires { IsWhole (bytes_of self.now) }
        ensures { result.now ≡ payload_of (bytes_of self.now) }
    {
        &self.buffer[HEADER_LEN..self.len() as usize]
    }

    /// The sum that the checksum covers, itself included.
    pub(crate) fn sum(&self, source: &IpAddress, destination: &IpAddress) -> u16
        requires whole { IsWhole (bytes_of self.now) }
        requires family { version_of source.now ≡ version_of destination.now }
        ensures { result
            ≡ folded (covered source.now destination.now 17 (datagram_of (bytes_of self.now))) }
    {
        let (datagram, _padding) = self.buffer.split_at(self.len() as usize);
        pseudo_sums::sum(source, destination, IpProtocol::Udp, datagram)
    }

    /// Whether the checksum holds, or the datagram has none, as it may over IPv4.
    pub fn verify_checksum(&self, source: &IpAddress, destination: &IpAddress) -> bool
        requires whole { IsWhole (bytes_of self.now) }
        requires family { version_of source.now ≡ version_of destination.now }
        ensures { IsTrue result ↔ IsChecked source.now destination.now (bytes_of self.now) }
    {
        let absent = self.checksum() == 0 && matches!(source, IpAddress::Ipv4(_));
        let (datagram, _padding) = self.buffer.split_at(self.len() as usize);
        absent || pseudo_sums::holds(source, destination, IpProtocol::Udp, datagram)
    }
}
