//! A message in a buffer, read in place.
ghost use Rattle.std.specs.Prelude.{◌≡◌, ◌↔◌, ℕ, ◌≤◌, IsTrue, IsOk, IfOk, length, slice_index};
ghost use Rattle.wire_address.specs.Fields.{be16};
ghost use Rattle.wire_address.specs.Sum.{word_sum, folded};
ghost use Rattle.wire_icmpv4.specs.Icmpv4Codes.{message_of};
ghost use Rattle.wire_icmpv4.specs.Icmpv4.{IsWhole, IsChecked, bytes_of, following};

use crate::field;
use crate::message::Icmpv4Message;
use wire_address::network_order::read_u16;
use wire_address::{Error, checksum};

/// A message in a buffer, read in place. It reaches to the end of the buffer: ICMPv4 has no length
/// field.
#[derive(Clone, Copy, Debug)]
pub struct Icmpv4Packet<'a> {
    buffer: &'a [u8],
}

impl<'a> Icmpv4Packet<'a> {
    /// A view of any bytes.
    pub const fn new_unchecked(buffer: &'a [u8]) -> Icmpv4Packet<'a>
        ensures { bytes_of result ≡ buffer.now }
    {
        Icmpv4Packet { buffer }
    }

    /// A view of bytes that pass `check_len`.
    pub fn new_checked(buffer: &'a [u8]) -> Result<Icmpv4Packet<'a>, Error>
        ensures whole { IsOk result ↔ IsWhole buffer.now }
        ensures bytes { IfOk result (λ view. bytes_of view ≡ buffer.now) }
    {
        let packet = Icmpv4Packet::new_unchecked(buffer);
        packet.check_len()?;
        Ok(packet)
    }

    /// Whether the header is there.
    pub fn check_len(&self) -> Result<(), Error>
        ensures { IsOk result ↔ IsWhole (bytes_of self.now) }
    {
        if self.buffer.len() < field::HEADER_END {
            return Err(Error);
        }
        Ok(())
    }

    /// The bytes viewed.
    pub const fn into_inner(self) -> &'a [u8]
        ensures { result.now ≡ bytes_of self.entry }
    {
        self.buffer
    }

    /// What the message is, by its type.
    pub fn msg_type(&self) -> Icmpv4Message
        requires { IsWhole (bytes_of self.now) }
        ensures { result ≡ message_of (slice_index (bytes_of self.now) 0) }
    {
        Icmpv4Message::from(self.buffer[field::TYPE])
    }

    pub fn msg_code(&self) -> u8
        requires { IsWhole (bytes_of self.now) }
        ensures { result ≡ slice_index (bytes_of self.now) 1 }
    {
        self.buffer[field::CODE]
    }

    pub fn checksum(&self) -> u16
        requires { IsWhole (bytes_of self.now) }
        ensures { result ≡ be16 (bytes_of self.now) 2 }
    {
        read_u16(self.buffer, field::CHECKSUM.start)
    }

    /// Of an echo message: the number that its sender gave to all echoes of one kind.
    pub fn echo_ident(&self) -> u16
        requires { IsWhole (bytes_of self.now) }
        ensures { result ≡ be16 (bytes_of self.now) 4 }
    {
        read_u16(self.buffer, field::ECHO_IDENT.start)
    }

    /// Of an echo message: its number among those of one identifier.
    pub fn echo_seq_no(&self) -> u16
        requires { IsWhole (bytes_of self.now) }
        ensures { result ≡ be16 (bytes_of self.now) 6 }
    {
        read_u16(self.buffer, field::ECHO_SEQNO.start)
    }

    /// The length of the header, the same for all messages.
    pub const fn header_len(&self) -> usize
        ensures { result ≡ 8 }
    {
        field::HEADER_END
    }

    /// The sum that the checksum covers, itself included.
    pub(crate) fn sum(&self) -> u16
        ensures { result ≡ folded (word_sum (bytes_of self.now)) }
    {
        checksum::data(self.buffer)
    }

    /// Whether the checksum holds.
    pub fn verify_checksum(&self) -> bool
        ensures { IsTrue result ↔ IsChecked (bytes_of self.now) }
    {
        self.sum() == 0xffff
    }

    /// What lies after the header: the data of an echo message, the quoted packet of an error.
    pub fn data(&self) -> &'a [u8]
        requires { IsWhole (bytes_of self.now) }
        ensures { result.now ≡ following (bytes_of self.now) }
    {
        let (_header, data) = self.buffer.split_at(self.header_len());
        data
    }
}
