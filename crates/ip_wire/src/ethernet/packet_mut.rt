//! A frame in a buffer, read and written in place.
ghost use Rattle.std.specs.Prelude.{◌≡◌, ◌↔◌, ◌+◌, ◌<◌, ◌≤◌, ◌^◌, IsOk, IfOk, length, slice_range};
ghost use Rattle.wire_address.specs.Fields.{be16, put16};
ghost use Rattle.wire_address.specs.Protocol.{ether_number, ether_of};
ghost use Rattle.wire_ip.specs.Parts.{put_run};
ghost use Rattle.ip_wire.specs.Ethernet.{IsWhole, bytes_in, name_of, payload_of, written};

use super::field;
use super::packet::EthernetFrame;
use crate::parts::put6;
use wire_address::network_order::write_u16;
use wire_address::{Error, EthernetAddress, EthernetProtocol};

/// An Ethernet frame in a buffer, read and written in place.
#[derive(Debug, Drop)]
pub struct EthernetFrameMut<'a> {
    pub(super) buffer: &'a mut [u8],
}

impl<'a> EthernetFrameMut<'a> {
    /// The length of the header.
    pub const fn header_len() -> usize
        ensures { result ≡ 14 }
    {
        field::HEADER_LEN
    }

    /// The length of a frame with so many bytes of payload.
    pub const fn buffer_len(payload_len: usize) -> usize
        requires { 14 + payload_len < 2 ^ 64 }
        ensures { result ≡ 14 + payload_len }
    {
        field::HEADER_LEN + payload_len
    }

    /// A view of any bytes.
    pub const fn new_unchecked(buffer: &'a mut [u8]) -> EthernetFrameMut<'a>
        ensures same_reference { name_of result ≡ buffer.entry.ghost_name }
        ensures bytes { bytes_in result ≡ buffer.old }
    {
        EthernetFrameMut { buffer }
    }

    /// A view of bytes that pass `check_len`.
    pub fn new_checked(buffer: &'a mut [u8]) -> Result<EthernetFrameMut<'a>, Error>
        ensures whole { IsOk result ↔ IsWhole buffer.old }
        ensures same_reference { IfOk result (λ view. name_of view ≡ buffer.entry.ghost_name) }
        ensures bytes { IfOk result (λ view. bytes_in view ≡ buffer.old) }
    {
        EthernetFrame::new_unchecked(buffer).check_len()?;
        Ok(EthernetFrameMut { buffer })
    }

    /// Whether the header is there.
    pub fn check_len(&self) -> Result<(), Error>
        ensures { IsOk result ↔ IsWhole (bytes_in self.now) }
    {
        EthernetFrame::new_unchecked(self.buffer).check_len()
    }

    /// The bytes viewed, with all that was written.
    pub const fn into_inner(self) -> &'a mut [u8]
        ensures same_reference { result.ghost_name ≡ name_of self.entry }
        ensures bytes { result.now ≡ bytes_in self.entry }
    {
        self.buffer
    }

    pub fn dst_addr(&self) -> EthernetAddress
        requires { 14 ≤ length (bytes_in self.now) }
        ensures { result.0 ≡ slice_range (bytes_in self.now) 0 6 }
    {
        EthernetFrame::new_unchecked(self.buffer).dst_addr()
    }

    pub fn src_addr(&self) -> EthernetAddress
        requires { 14 ≤ length (bytes_in self.now) }
        ensures { result.0 ≡ slice_range (bytes_in self.now) 6 12 }
    {
        EthernetFrame::new_unchecked(self.buffer).src_addr()
    }

    /// What the frame carries, by its number.
    pub fn ethertype(&self) -> EthernetProtocol
        requires { 14 ≤ length (bytes_in self.now) }
        ensures { result ≡ ether_of (be16 (bytes_in self.now) 12) }
    {
        EthernetFrame::new_unchecked(self.buffer).ethertype()
    }

    /// What the frame carries, and padding.
    pub fn payload(&self) -> &[u8]
        requires { IsWhole (bytes_in self.now) }
        ensures { result.now ≡ payload_of (bytes_in self.now) }
    {
        EthernetFrame::new_unchecked(self.buffer).payload()
    }

    pub fn set_dst_addr(&mut self, value: EthernetAddress)
        requires { 14 ≤ length (bytes_in self.old) }
        ensures same_reference { name_of self.new ≡ name_of self.old }
        ensures bytes { bytes_in self.new ≡ put_run (bytes_in self.old) 0 6 value.0 }
    {
        put6(self.buffer, field::DESTINATION.start, &value.0);
    }

    pub fn set_src_addr(&mut self, value: EthernetAddress)
        requires { 14 ≤ length (bytes_in self.old) }
        ensures same_reference { name_of self.new ≡ name_of self.old }
        ensures bytes { bytes_in self.new ≡ put_run (bytes_in self.old) 6 6 value.0 }
    {
        put6(self.buffer, field::SOURCE.start, &value.0);
    }

    pub fn set_ethertype(&mut self, value: EthernetProtocol)
        requires { 14 ≤ length (bytes_in self.old) }
        ensures same_reference { name_of self.new ≡ name_of self.old }
        ensures bytes { bytes_in self.new ≡ put16 (bytes_in self.old) 12 (ether_number value) }
    {
        write_u16(self.buffer, field::ETHERTYPE.start, value.into());
    }

    /// What the frame carries, to be written.
    pub fn payload_mut(&mut self) -> &mut [u8]
        requires { IsWhole (bytes_in self.old) }
        ensures { result.now ≡ payload_of (bytes_in self.old) }
    {
        &mut self.buffer[field::HEADER_LEN..]
    }
}
