//! A message in a buffer, read in place.
ghost use Rattle.std.specs.Prelude.{◌≡◌, ◌↔◌, ℕ, ◌+◌, ◌<◌, ◌≤◌, ◌^◌, IsTrue, IsOk, IfOk, length, slice_index, slice_range};
ghost use Rattle.wire_address.specs.Fields.{be16};
ghost use Rattle.wire_address.specs.Sum.{folded};
ghost use Rattle.wire_mld.specs.Mld.{IsWhole, IsChecked, bytes_of, covered, header_len, carried_in};
ghost use Rattle.wire_mld.specs.MldMessage.{message_of};

use crate::field;
use crate::message::MldMessage;
use crate::repr::MldRepr;
use wire_address::network_order::read_u16;
use wire_address::{Error, IpProtocol, Ipv6Address, checksum};

/// A message in a buffer, read in place. It reaches to the end of the buffer: MLD has no length
/// field.
#[derive(Clone, Copy, Debug)]
pub struct MldPacket<'a> {
    buffer: &'a [u8],
}

impl<'a> MldPacket<'a> {
    /// A view of any bytes.
    pub const fn new_unchecked(buffer: &'a [u8]) -> MldPacket<'a>
        ensures { bytes_of result ≡ buffer.now }
    {
        MldPacket { buffer }
    }

    /// A view of bytes that pass `check_len`.
    pub fn new_checked(buffer: &'a [u8]) -> Result<MldPacket<'a>, Error>
        ensures whole { IsOk result ↔ IsWhole buffer.now }
        ensures bytes { IfOk result (λ view. bytes_of view ≡ buffer.now) }
    {
        let packet = MldPacket::new_unchecked(buffer);
        packet.check_len()?;
        Ok(packet)
    }

    /// Whether the header that all messages share is there.
    pub fn check_len(&self) -> Result<(), Error>
        ensures { IsOk result ↔ IsWhole (bytes_of self.now) }
    {
        if self.buffer.len() < field::HEADER_END {
            return Err(Error);
        }
        Ok(())
    }

    /// The bytes viewed.
    pub const fn into_inner(self) -> &'a [u8]
        ensures { result.now ≡ bytes_of self.entry }
    {
        self.buffer
    }

    /// What the message is, by its type.
    pub fn msg_type(&self) -> MldMessage
        requires { IsWhole (bytes_of self.now) }
        ensures { result ≡ message_of (slice_index (bytes_of self.now) 0) }
    {
        MldMessage::from(self.buffer[field::TYPE])
    }

    pub fn msg_code(&self) -> u8
        requires { IsWhole (bytes_of self.now) }
        ensures { result ≡ slice_index (bytes_of self.now) 1 }
    {
        self.buffer[field::CODE]
    }

    pub fn checksum(&self) -> u16
        requires { IsWhole (bytes_of self.now) }
        ensures { result ≡ be16 (bytes_of self.now) 2 }
    {
        read_u16(self.buffer, field::CHECKSUM.start)
    }

    /// The group that the message names.
    pub fn mcast_addr(&self) -> Ipv6Address
        requires { 24 ≤ length (bytes_of self.now) }
        ensures { result.0 ≡ slice_range (bytes_of self.now) 8 24 }
    {
        let mut octets = [0; 16];
        octets.copy_from_slice(&self.buffer[field::QUERY_MCAST_ADDR]);
        Ipv6Address(octets)
    }

    /// The number at `at`: of records in a report, of sources in a query, or its code.
    pub(crate) fn number(&self, at: usize) -> u16
        requires { at + 2 ≤ length (bytes_of self.now) }
        ensures { result ≡ be16 (bytes_of self.now) at }
    {
        read_u16(self.buffer, at)
    }

    /// The sum of all that the checksum covers, itself included, not complemented.
    pub(crate) fn sum(&self, src_addr: &Ipv6Address, dst_addr: &Ipv6Address) -> u16
        requires { length (bytes_of self.now) < 2 ^ 32 }
        ensures { result ≡ folded (covered src_addr.now dst_addr.now (bytes_of self.now)) }
    {
        let length = self.buffer.len() as u32;
        let header = checksum::pseudo_header_v6(src_addr, dst_addr, IpProtocol::Icmpv6, length);
        checksum::combine(&[header, checksum::data(self.buffer)])
    }

    /// Whether the checksum holds.
    pub fn verify_checksum(&self, src_addr: &Ipv6Address, dst_addr: &Ipv6Address) -> bool
        requires { length (bytes_of self.now) < 2 ^ 32 }
        ensures { IsTrue result ↔ IsChecked src_addr.now dst_addr.now (bytes_of self.now) }
    {
        self.sum(src_addr, dst_addr) == 0xffff
    }

    /// What the message carries: the sources of a query of version 2, the records of a report of
    /// version 2, each with what follows them.
    pub fn carried(&self, message: &MldRepr) -> &'a [u8]
        requires { header_len message.now ≤ length (bytes_of self.now) }
        ensures { result.now ≡ carried_in (bytes_of self.now) message.now }
    {
        let (_header, carried) = self.buffer.split_at(message.header_len());
        carried
    }
}
