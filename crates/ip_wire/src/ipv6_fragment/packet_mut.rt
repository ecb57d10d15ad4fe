//! A header in a buffer, read and written in place.
ghost use Rattle.std.specs.Prelude.{◌≡◌, ◌↔◌, ◌+◌, ◌*◌, ◌/◌, ◌%◌, ◌<◌, ◌≤◌, ◌^◌, ◌==◌, IsOk, IfOk, length, slice_index};
ghost use Rattle.wire_address.specs.Fields.{be16, be32, put8, put16, put32, with_flag};
ghost use Rattle.ip_wire.specs.Fragment.{IsWhole, bytes_in, name_of, written};

use super::field;
use super::packet::Ipv6FragmentHeader;
use wire_address::Error;
use wire_address::network_order::{write_u16, write_u32};

/// The header of a fragment of an IPv6 datagram in a buffer, read and written in place.
#[derive(Debug, Drop)]
pub struct Ipv6FragmentHeaderMut<'a> {
    pub(super) buffer: &'a mut [u8],
}

impl<'a> Ipv6FragmentHeaderMut<'a> {
    /// A view of any bytes.
    pub const fn new_unchecked(buffer: &'a mut [u8]) -> Ipv6FragmentHeaderMut<'a>
        ensures same_reference { name_of result ≡ buffer.entry.ghost_name }
        ensures bytes { bytes_in result ≡ buffer.old }
    {
        Ipv6FragmentHeaderMut { buffer }
    }

    /// A view of bytes that pass `check_len`.
    pub fn new_checked(buffer: &'a mut [u8]) -> Result<Ipv6FragmentHeaderMut<'a>, Error>
        ensures whole { IsOk result ↔ IsWhole buffer.old }
        ensures same_reference { IfOk result (λ view. name_of view ≡ buffer.entry.ghost_name) }
        ensures bytes { IfOk result (λ view. bytes_in view ≡ buffer.old) }
    {
        Ipv6FragmentHeader::new_unchecked(buffer).check_len()?;
        Ok(Ipv6FragmentHeaderMut { buffer })
    }

    /// Whether the header is there.
    pub fn check_len(&self) -> Result<(), Error>
        ensures { IsOk result ↔ IsWhole (bytes_in self.now) }
    {
        Ipv6FragmentHeader::new_unchecked(self.buffer).check_len()
    }

    /// The bytes viewed, with all that was written.
    pub const fn into_inner(self) -> &'a mut [u8]
        ensures same_reference { result.ghost_name ≡ name_of self.entry }
        ensures bytes { result.now ≡ bytes_in self.entry }
    {
        self.buffer
    }

    /// Where in the datagram the payload stands, in units of eight bytes.
    pub fn frag_offset(&self) -> u16
        requires { 6 ≤ length (bytes_in self.now) }
        ensures { result ≡ be16 (bytes_in self.now) 0 / 8 }
    {
        Ipv6FragmentHeader::new_unchecked(self.buffer).frag_offset()
    }

    /// Whether a later fragment of the same datagram follows.
    pub fn more_frags(&self) -> bool
        requires { 6 ≤ length (bytes_in self.now) }
        ensures { result ≡ (slice_index (bytes_in self.now) 1 % 2 == 1) }
    {
        Ipv6FragmentHeader::new_unchecked(self.buffer).more_frags()
    }

    /// The identification, which the fragments of one datagram share.
    pub fn ident(&self) -> u32
        requires { 6 ≤ length (bytes_in self.now) }
        ensures { result ≡ be32 (bytes_in self.now) 2 }
    {
        Ipv6FragmentHeader::new_unchecked(self.buffer).ident()
    }

    /// Offset, reserved bits and more-fragments.
    fn first_half(&self) -> u16
        requires { 6 ≤ length (bytes_in self.now) }
        ensures { result ≡ be16 (bytes_in self.now) 0 }
    {
        Ipv6FragmentHeader::new_unchecked(self.buffer).first_half()
    }

    /// Clears the two reserved bits.
    pub fn clear_reserved(&mut self)
        requires { 6 ≤ length (bytes_in self.old) }
        ensures same_reference { name_of self.new ≡ name_of self.old }
        ensures bytes { bytes_in self.new
            ≡ put8 (bytes_in self.old) 1 (slice_index (bytes_in self.old) 1 / 8 * 8 + slice_index (bytes_in self.old) 1 % 2) }
    {
        let old = self.buffer[field::M];
        self.buffer[field::M] = ((old >> 3) << 3) + (old & 0x01);
    }

    /// Sets where in the datagram the payload stands, in units of eight bytes, cut to 13 bits.
    pub fn set_frag_offset(&mut self, value: u16)
        requires { 6 ≤ length (bytes_in self.old) }
        ensures same_reference { name_of self.new ≡ name_of self.old }
        ensures bytes { bytes_in self.new
            ≡ put16 (bytes_in self.old) 0 (value % 2 ^ 13 * 8 + be16 (bytes_in self.old) 0 % 8) }
    {
        let old = self.first_half();
        write_u16(
            self.buffer,
            field::FR_OF_M.start,
            ((value & 0x1fff) << 3) + (old & 0x0007),
        );
    }

    pub fn set_more_frags(&mut self, value: bool)
        requires { 6 ≤ length (bytes_in self.old) }
        ensures same_reference { name_of self.new ≡ name_of self.old }
        ensures bytes { bytes_in self.new
            ≡ put8 (bytes_in self.old) 1 (with_flag (slice_index (bytes_in self.old) 1) 1 value) }
    {
        let old = self.buffer[field::M];
        self.buffer[field::M] = with_more_frags(old, value);
    }

    pub fn set_ident(&mut self, value: u32)
        requires { 6 ≤ length (bytes_in self.old) }
        ensures same_reference { name_of self.new ≡ name_of self.old }
        ensures bytes { bytes_in self.new ≡ put32 (bytes_in self.old) 2 value }
    {
        write_u32(self.buffer, field::IDENT.start, value);
    }
}

/// The byte of the flag with more-fragments set so.
const fn with_more_frags(byte: u8, value: bool) -> u8
    ensures { result ≡ with_flag byte 1 value }
{
    ((byte >> 1) << 1) + (if value { 1 } else { 0 })
}
