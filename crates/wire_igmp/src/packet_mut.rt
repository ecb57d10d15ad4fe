//! A message in a buffer, to be written.
ghost use Rattle.std.specs.Prelude.{◌≡◌, ◌↔◌, ℕ, ◌≤◌, IsOk, IfOk, length};
ghost use Rattle.wire_address.specs.Fields.{put16};
ghost use Rattle.wire_igmp.specs.Igmp.{IsWhole, bytes_of, bytes_in, name_of, with_checksum};

use crate::field;
use crate::packet::IgmpPacket;
use wire_address::Error;
use wire_address::network_order::write_u16;

/// A message in a buffer, to be written.
#[derive(Debug, Drop)]
pub struct IgmpPacketMut<'a> {
    pub(crate) buffer: &'a mut [u8],
}

impl<'a> IgmpPacketMut<'a> {
    /// A view of any bytes.
    pub const fn new_unchecked(buffer: &'a mut [u8]) -> IgmpPacketMut<'a>
        ensures same_reference { name_of result ≡ buffer.entry.ghost_name }
        ensures bytes { bytes_in result ≡ buffer.old }
    {
        IgmpPacketMut { buffer }
    }

    /// A view of bytes that pass `check_len`.
    pub fn new_checked(buffer: &'a mut [u8]) -> Result<IgmpPacketMut<'a>, Error>
        ensures whole { IsOk result ↔ IsWhole buffer.old }
        ensures same_reference { IfOk result (λ view. name_of view ≡ buffer.entry.ghost_name) }
        ensures bytes { IfOk result (λ view. bytes_in view ≡ buffer.old) }
    {
        IgmpPacket::new_unchecked(buffer).check_len()?;
        Ok(IgmpPacketMut { buffer })
    }

    /// The bytes, to be read.
    pub const fn as_packet(&self) -> IgmpPacket
        ensures { bytes_of result ≡ bytes_in self.now }
    {
        IgmpPacket::new_unchecked(self.buffer)
    }

    /// The bytes viewed, with all that was written.
    pub const fn into_inner(self) -> &'a mut [u8]
        ensures same_reference { result.ghost_name ≡ name_of self.entry }
        ensures bytes { result.now ≡ bytes_in self.entry }
    {
        self.buffer
    }

    pub fn set_checksum(&mut self, value: u16)
        requires { IsWhole (bytes_in self.old) }
        ensures same_reference { name_of self.new ≡ name_of self.old }
        ensures bytes { bytes_in self.new ≡ put16 (bytes_in self.old) 2 value }
    {
        write_u16(self.buffer, field::CHECKSUM.start, value);
    }

    /// Writes the checksum of the message as it stands.
    pub fn fill_checksum(&mut self)
        requires { IsWhole (bytes_in self.old) }
        ensures same_reference { name_of self.new ≡ name_of self.old }
        ensures bytes { bytes_in self.new ≡ with_checksum (bytes_in self.old) }
    {
        self.set_checksum(0);
        self.set_checksum(!self.as_packet().sum());
    }
}
