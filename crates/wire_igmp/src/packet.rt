//! A message in a buffer, read in place.
ghost use Rattle.std.specs.Prelude.{◌≡◌, ◌↔◌, ℕ, ◌+◌, ◌≤◌, IsTrue, IsOk, IfOk, length, slice_index, slice_range};
ghost use Rattle.wire_address.specs.Fields.{be16};
ghost use Rattle.wire_address.specs.Sum.{word_sum, folded};
ghost use Rattle.wire_igmp.specs.Igmp.{IsWhole, IsChecked, bytes_of, header_len, carried_in};
ghost use Rattle.wire_igmp.specs.IgmpMessage.{message_of};

use crate::field;
use crate::message::IgmpMessage;
use crate::repr::IgmpRepr;
use wire_address::network_order::read_u16;
use wire_address::{Error, Ipv4Address, checksum};

/// A message in a buffer, read in place. It reaches to the end of the buffer: IGMP has no length
/// field.
#[derive(Clone, Copy, Debug)]
pub struct IgmpPacket<'a> {
    buffer: &'a [u8],
}

impl<'a> IgmpPacket<'a> {
    /// A view of any bytes.
    pub const fn new_unchecked(buffer: &'a [u8]) -> IgmpPacket<'a>
        ensures { bytes_of result ≡ buffer.now }
    {
        IgmpPacket { buffer }
    }

    /// A view of bytes that pass `check_len`.
    pub fn new_checked(buffer: &'a [u8]) -> Result<IgmpPacket<'a>, Error>
        ensures whole { IsOk result ↔ IsWhole buffer.now }
        ensures bytes { IfOk result (λ view. bytes_of view ≡ buffer.now) }
    {
        let packet = IgmpPacket::new_unchecked(buffer);
        packet.check_len()?;
        Ok(packet)
    }

    /// Whether the header that all messages share is there.
    pub fn check_len(&self) -> Result<(), Error>
        ensures { IsOk result ↔ IsWhole (bytes_of self.now) }
    {
        if self.buffer.len() < field::HEADER_END {
            return Err(Error);
        }
        Ok(())
    }

    /// The bytes viewed.
    pub const fn into_inner(self) -> &'a [u8]
        ensures { result.now ≡ bytes_of self.entry }
    {
        self.buffer
    }

    /// What the message is, by its type.
    pub fn msg_type(&self) -> IgmpMessage
        requires { IsWhole (bytes_of self.now) }
        ensures { result ≡ message_of (slice_index (bytes_of self.now) 0) }
    {
        IgmpMessage::from(self.buffer[field::TYPE])
    }

    /// The code of a query, which says how long an answer may take.
    pub fn max_resp_code(&self) -> u8
        requires { IsWhole (bytes_of self.now) }
        ensures { result ≡ slice_index (bytes_of self.now) 1 }
    {
        self.buffer[field::MAX_RESP_CODE]
    }

    pub fn checksum(&self) -> u16
        requires { IsWhole (bytes_of self.now) }
        ensures { result ≡ be16 (bytes_of self.now) 2 }
    {
        read_u16(self.buffer, field::CHECKSUM.start)
    }

    /// The group that the message names.
    pub fn group_addr(&self) -> Ipv4Address
        requires { IsWhole (bytes_of self.now) }
        ensures { result.0 ≡ slice_range (bytes_of self.now) 4 8 }
    {
        let mut octets = [0; 4];
        octets.copy_from_slice(&self.buffer[field::GROUP_ADDRESS]);
        Ipv4Address(octets)
    }

    /// The number at `at`: of records in a report of version 3, of sources in a query.
    pub(crate) fn number(&self, at: usize) -> u16
        requires { at + 2 ≤ length (bytes_of self.now) }
        ensures { result ≡ be16 (bytes_of self.now) at }
    {
        read_u16(self.buffer, at)
    }

    /// The sum that the checksum covers, itself included.
    pub(crate) fn sum(&self) -> u16
        ensures { result ≡ folded (word_sum (bytes_of self.now)) }
    {
        checksum::data(self.buffer)
    }

    /// Whether the checksum holds.
    pub fn verify_checksum(&self) -> bool
        ensures { IsTrue result ↔ IsChecked (bytes_of self.now) }
    {
        self.sum() == 0xffff
    }

    /// What the message carries: the sources of a query of version 3, the records of a report of
    /// version 3, each with what follows them.
    pub fn carried(&self, message: &IgmpRepr) -> &'a [u8]
        requires { header_len message.now ≤ length (bytes_of self.now) }
        ensures { result.now ≡ carried_in (bytes_of self.now) message.now }
    {
        let (_header, carried) = self.buffer.split_at(message.header_len());
        carried
    }
}
