//! A datagram in a buffer, read and written in place.
ghost use Rattle.std.specs.Prelude.{◌≡◌, ◌↔◌, ◌<◌, ◌≤◌, IsTrue, IsOk, IfOk, length};
ghost use Rattle.wire_address.specs.Address.{version_of};
ghost use Rattle.wire_address.specs.Fields.{be16, put16};
ghost use Rattle.wire_address.specs.Sum.{folded};
ghost use Rattle.wire_address.specs.declared.ip.IpAddress.{IpAddress};
ghost use Rattle.wire_address.specs.Pseudo.{covered};
ghost use Rattle.wire_ip.specs.Udp.{IsWhole, IsChecked, bytes_in, name_of, payload_of, datagram_of, written, with_checksum};

use super::field::{self, HEADER_LEN};
use super::packet::UdpPacket;
use crate::pseudo_sums;
use wire_address::network_order::{read_u16, write_u16};
use wire_address::{Error, IpAddress};

/// A datagram in a buffer, read and written in place.
#[derive(Debug, Drop)]
pub struct UdpPacketMut<'a> {
    pub(crate) buffer: &'a mut [u8],
}

impl<'a> UdpPacketMut<'a> {
    /// A view of any bytes.
    pub const fn new_unchecked(buffer: &'a mut [u8]) -> UdpPacketMut<'a>
        ensures same_reference { name_of result ≡ buffer.entry.ghost_name }
        ensures bytes { bytes_in result ≡ buffer.old }
    {
        UdpPacketMut { buffer }
    }

    /// A view of bytes that pass `check_len`.
    pub fn new_checked(buffer: &'a mut [u8]) -> Result<UdpPacketMut<'a>, Error>
        ensures whole { IsOk result ↔ IsWhole buffer.old }
        ensures same_reference { IfOk result (λ view. name_of view ≡ buffer.entry.ghost_name) }
        ensures bytes { IfOk result (λ view. bytes_in view ≡ buffer.old) }
    {
        UdpPacket::new_unchecked(buffer).check_len()?;
        Ok(UdpPacketMut { buffer })
    }

    /// Whether the header is there and the length field fits the bytes.
    pub fn check_len(&self) -> Result<(), Error>
        ensures { IsOk result ↔ IsWhole (bytes_in self.now) }
    {
        UdpPacket::new_unchecked(self.buffer).check_len()
    }

    /// The bytes viewed, with all that was written.
    pub const fn into_inner(self) -> &'a mut [u8]
        ensures same_reference { result.ghost_name ≡ name_of self.entry }
        ensures bytes { result.now ≡ bytes_in self.entry }
    {
        self.buffer
    }

    pub fn src_port(&self) -> u16
        requires { 8 ≤ length (bytes_in self.now) }
        ensures { result ≡ be16 (bytes_in self.now) 0 }
    {
        read_u16(self.buffer, field::SRC_PORT.start)
    }

    pub fn dst_port(&self) -> u16
        requires { 8 ≤ length (bytes_in self.now) }
        ensures { result ≡ be16 (bytes_in self.now) 2 }
    {
        read_u16(self.buffer, field::DST_PORT.start)
    }

    /// The length field: header and payload.
    pub fn len(&self) -> u16
        requires { 8 ≤ length (bytes_in self.now) }
        ensures { result ≡ be16 (bytes_in self.now) 4 }
    {
        read_u16(self.buffer, field::LENGTH.start)
    }

    pub fn checksum(&self) -> u16
        requires { 8 ≤ length (bytes_in self.now) }
        ensures { result ≡ be16 (bytes_in self.now) 6 }
    {
        read_u16(self.buffer, field::CHECKSUM.start)
    }

    /// What the datagram carries.
    pub fn payload(&self) -> &[u8]
        requires { IsWhole (bytes_in self.now) }
        ensures { result.now ≡ payload_of (bytes_in self.now) }
    {
        UdpPacket::new_unchecked(self.buffer).payload()
    }

    /// The sum that the checksum covers, itself included.
    fn sum(&self, source: &IpAddress, destination: &IpAddress) -> u16
        requires whole { IsWhole (bytes_in self.now) }
        requires family { version_of source.now ≡ version_of destination.now }
        ensures { result
            ≡ folded (covered source.now destination.now 17 (datagram_of (bytes_in self.now))) }
    {
        UdpPacket::new_unchecked(self.buffer).sum(source, destination)
    }

    /// Whether the checksum holds, or the datagram has none, as it may over IPv4.
    pub fn verify_checksum(&self, source: &IpAddress, destination: &IpAddress) -> bool
        requires whole { IsWhole (bytes_in self.now) }
        requires family { version_of source.now ≡ version_of destination.now }
        ensures { IsTrue result ↔ IsChecked source.now destination.now (bytes_in self.now) }
    {
        UdpPacket::new_unchecked(self.buffer).verify_checksum(source, destination)
    }

    pub fn set_src_port(&mut self, value: u16)
        requires { 8 ≤ length (bytes_in self.old) }
        ensures same_reference { name_of self.new ≡ name_of self.old }
        ensures bytes { bytes_in self.new ≡ put16 (bytes_in self.old) 0 value }
    {
        write_u16(self.buffer, field::SRC_PORT.start, value);
    }

    pub fn set_dst_port(&mut self, value: u16)
        requires { 8 ≤ length (bytes_in self.old) }
        ensures same_reference { name_of self.new ≡ name_of self.old }
        ensures bytes { bytes_in self.new ≡ put16 (bytes_in self.old) 2 value }
    {
        write_u16(self.buffer, field::DST_PORT.start, value);
    }

    /// Sets the length field: header and payload.
    pub fn set_len(&mut self, value: u16)
        requires { 8 ≤ length (bytes_in self.old) }
        ensures same_reference { name_of self.new ≡ name_of self.old }
        ensures bytes { bytes_in self.new ≡ put16 (bytes_in self.old) 4 value }
    {
        write_u16(self.buffer, field::LENGTH.start, value);
    }

    pub fn set_checksum(&mut self, value: u16)
        requires { 8 ≤ length (bytes_in self.old) }
        ensures same_reference { name_of self.new ≡ name_of self.old }
        ensures bytes { bytes_in self.new ≡ put16 (bytes_in self.old) 6 value }
    {
        write_u16(self.buffer, field::CHECKSUM.start, value);
    }

    /// Writes the checksum of the datagram as it stands.
    pub fn fill_checksum(&mut self, source: &IpAddress, destination: &IpAddress)
        requires whole { IsWhole (bytes_in self.old) }
        requires family { version_of source.now ≡ version_of destination.now }
        ensures same_reference { name_of self.new ≡ name_of self.old }
        ensures bytes { bytes_in self.new
            ≡ with_checksum source.now destination.now (bytes_in self.old) }
    {
        self.set_checksum(0);
        let sum = self.sum(source, destination);
        self.set_checksum(pseudo_sums::sent_complement(sum));
    }

    /// What the datagram carries, to be written.
    pub fn payload_mut(&mut self) -> &mut [u8]
        requires { IsWhole (bytes_in self.old) }
        ensures { result.now ≡ payload_of (bytes_in self.old) }
    {
        let end = self.len() as usize;
        &mut self.buffer[HEADER_LEN..end]
    }
}
