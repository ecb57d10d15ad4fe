//! A message in a buffer, read and written in place.
ghost use Rattle.std.specs.Prelude.{◌≡◌, ◌↔◌, ℕ, ◌≤◌, IsTrue, IsOk, IfOk, length, slice_index};
ghost use Rattle.wire_address.specs.Fields.{be16, put8, put16};
ghost use Rattle.wire_icmpv4.specs.Icmpv4Codes.{message_of, message_number};
ghost use Rattle.wire_icmpv4.specs.Icmpv4.{IsWhole, IsChecked, bytes_of, bytes_in, name_of, following, with_checksum};

use crate::field;
use crate::message::Icmpv4Message;
use crate::packet::Icmpv4Packet;
use wire_address::Error;
use wire_address::network_order::write_u16;

/// A message in a buffer, read and written in place.
#[derive(Debug, Drop)]
pub struct Icmpv4PacketMut<'a> {
    pub(crate) buffer: &'a mut [u8],
}

impl<'a> Icmpv4PacketMut<'a> {
    /// A view of any bytes.
    pub const fn new_unchecked(buffer: &'a mut [u8]) -> Icmpv4PacketMut<'a>
        ensures same_reference { name_of result ≡ buffer.entry.ghost_name }
        ensures bytes { bytes_in result ≡ buffer.old }
    {
        Icmpv4PacketMut { buffer }
    }

    /// A view of bytes that pass `check_len`.
    pub fn new_checked(buffer: &'a mut [u8]) -> Result<Icmpv4PacketMut<'a>, Error>
        ensures whole { IsOk result ↔ IsWhole buffer.old }
        ensures same_reference { IfOk result (λ view. name_of view ≡ buffer.entry.ghost_name) }
        ensures bytes { IfOk result (λ view. bytes_in view ≡ buffer.old) }
    {
        Icmpv4Packet::new_unchecked(buffer).check_len()?;
        Ok(Icmpv4PacketMut { buffer })
    }

    /// The bytes, to be read.
    const fn as_packet(&self) -> Icmpv4Packet
        ensures { bytes_of result ≡ bytes_in self.now }
    {
        Icmpv4Packet::new_unchecked(self.buffer)
    }

    /// Whether the header is there.
    pub fn check_len(&self) -> Result<(), Error>
        ensures { IsOk result ↔ IsWhole (bytes_in self.now) }
    {
        self.as_packet().check_len()
    }

    /// The bytes viewed, with all that was written.
    pub const fn into_inner(self) -> &'a mut [u8]
        ensures same_reference { result.ghost_name ≡ name_of self.entry }
        ensures bytes { result.now ≡ bytes_in self.entry }
    {
        self.buffer
    }

    /// What the message is, by its type.
    pub fn msg_type(&self) -> Icmpv4Message
        requires { IsWhole (bytes_in self.now) }
        ensures { result ≡ message_of (slice_index (bytes_in self.now) 0) }
    {
        self.as_packet().msg_type()
    }

    pub fn msg_code(&self) -> u8
        requires { IsWhole (bytes_in self.now) }
        ensures { result ≡ slice_index (bytes_in self.now) 1 }
    {
        self.as_packet().msg_code()
    }

    pub fn checksum(&self) -> u16
        requires { IsWhole (bytes_in self.now) }
        ensures { result ≡ be16 (bytes_in self.now) 2 }
    {
        self.as_packet().checksum()
    }

    /// Of an echo message: the number that its sender gave to all echoes of one kind.
    pub fn echo_ident(&self) -> u16
        requires { IsWhole (bytes_in self.now) }
        ensures { result ≡ be16 (bytes_in self.now) 4 }
    {
        self.as_packet().echo_ident()
    }

    /// Of an echo message: its number among those of one identifier.
    pub fn echo_seq_no(&self) -> u16
        requires { IsWhole (bytes_in self.now) }
        ensures { result ≡ be16 (bytes_in self.now) 6 }
    {
        self.as_packet().echo_seq_no()
    }

    /// The length of the header, the same for all messages.
    pub const fn header_len(&self) -> usize
        ensures { result ≡ 8 }
    {
        field::HEADER_END
    }

    /// Whether the checksum holds.
    pub fn verify_checksum(&self) -> bool
        ensures { IsTrue result ↔ IsChecked (bytes_in self.now) }
    {
        self.as_packet().verify_checksum()
    }

    /// What lies after the header: the data of an echo message, the quoted packet of an error.
    pub fn data(&self) -> &[u8]
        requires { IsWhole (bytes_in self.now) }
        ensures { result.now ≡ following (bytes_in self.now) }
    {
        self.as_packet().data()
    }

    pub fn set_msg_type(&mut self, value: Icmpv4Message)
        requires { IsWhole (bytes_in self.old) }
        ensures same_reference { name_of self.new ≡ name_of self.old }
        ensures bytes { bytes_in self.new ≡ put8 (bytes_in self.old) 0 (message_number value) }
    {
        self.buffer[field::TYPE] = value.into();
    }

    pub fn set_msg_code(&mut self, value: u8)
        requires { IsWhole (bytes_in self.old) }
        ensures same_reference { name_of self.new ≡ name_of self.old }
        ensures bytes { bytes_in self.new ≡ put8 (bytes_in self.old) 1 value }
    {
        self.buffer[field::CODE] = value;
    }

    pub fn set_checksum(&mut self, value: u16)
        requires { IsWhole (bytes_in self.old) }
        ensures same_reference { name_of self.new ≡ name_of self.old }
        ensures bytes { bytes_in self.new ≡ put16 (bytes_in self.old) 2 value }
    {
        write_u16(self.buffer, field::CHECKSUM.start, value);
    }

    /// Sets the identifier of an echo message.
    pub fn set_echo_ident(&mut self, value: u16)
        requires { IsWhole (bytes_in self.old) }
        ensures same_reference { name_of self.new ≡ name_of self.old }
        ensures bytes { bytes_in self.new ≡ put16 (bytes_in self.old) 4 value }
    {
        write_u16(self.buffer, field::ECHO_IDENT.start, value);
    }

    /// Sets the sequence number of an echo message.
    pub fn set_echo_seq_no(&mut self, value: u16)
        requires { IsWhole (bytes_in self.old) }
        ensures same_reference { name_of self.new ≡ name_of self.old }
        ensures bytes { bytes_in self.new ≡ put16 (bytes_in self.old) 6 value }
    {
        write_u16(self.buffer, field::ECHO_SEQNO.start, value);
    }

    /// Writes the checksum of the message as it stands.
    pub fn fill_checksum(&mut self)
        requires { IsWhole (bytes_in self.old) }
        ensures same_reference { name_of self.new ≡ name_of self.old }
        ensures bytes { bytes_in self.new ≡ with_checksum (bytes_in self.old) }
    {
        self.set_checksum(0);
        self.set_checksum(!self.as_packet().sum());
    }

    /// What lies after the header, to be written.
    pub fn data_mut(&mut self) -> &mut [u8]
        requires { IsWhole (bytes_in self.old) }
        ensures { result.now ≡ following (bytes_in self.old) }
    {
        &mut self.buffer[field::DATA]
    }
}
