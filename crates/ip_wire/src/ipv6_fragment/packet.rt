//! A header in a buffer, read in place.
ghost use Rattle.std.specs.Prelude.{◌≡◌, ◌↔◌, ◌/◌, ◌%◌, ◌<◌, ◌≤◌, ◌==◌, IsOk, IfOk, length, slice_index};
ghost use Rattle.wire_address.specs.Fields.{be16, be32};
ghost use Rattle.ip_wire.specs.Fragment.{IsWhole, bytes_of};

use super::field;
use wire_address::Error;
use wire_address::network_order::{read_u16, read_u32};

/// The header of a fragment of an IPv6 datagram in a buffer, read in place.
#[derive(Clone, Copy, Debug)]
pub struct Ipv6FragmentHeader<'a> {
    pub(super) buffer: &'a [u8],
}

impl<'a> Ipv6FragmentHeader<'a> {
    /// A view of any bytes.
    pub const fn new_unchecked(buffer: &'a [u8]) -> Ipv6FragmentHeader<'a>
        ensures { bytes_of result ≡ buffer.now }
    {
        Ipv6FragmentHeader { buffer }
    }

    /// A view of bytes that pass `check_len`.
    pub fn new_checked(buffer: &'a [u8]) -> Result<Ipv6FragmentHeader<'a>, Error>
        ensures whole { IsOk result ↔ IsWhole buffer.now }
        ensures bytes { IfOk result (λ view. bytes_of view ≡ buffer.now) }
    {
        let packet = Ipv6FragmentHeader::new_unchecked(buffer);
        packet.check_len()?;
        Ok(packet)
    }

    /// Whether the header is there.
    pub fn check_len(&self) -> Result<(), Error>
        ensures { IsOk result ↔ IsWhole (bytes_of self.now) }
    {
        if self.buffer.len() < field::HEADER_LEN {
            return Err(Error);
        }
        Ok(())
    }

    /// The bytes viewed.
    pub const fn into_inner(self) -> &'a [u8]
        ensures { result.now ≡ bytes_of self.entry }
    {
        self.buffer
    }

    /// Where in the datagram the payload stands, in units of eight bytes.
    pub fn frag_offset(&self) -> u16
        requires { 6 ≤ length (bytes_of self.now) }
        ensures { result ≡ be16 (bytes_of self.now) 0 / 8 }
    {
        self.first_half() >> 3
    }

    /// Whether a later fragment of the same datagram follows.
    pub fn more_frags(&self) -> bool
        requires { 6 ≤ length (bytes_of self.now) }
        ensures { result ≡ (slice_index (bytes_of self.now) 1 % 2 == 1) }
    {
        self.buffer[field::M] & 1 == 1
    }

    /// The identification, which the fragments of one datagram share.
    pub fn ident(&self) -> u32
        requires { 6 ≤ length (bytes_of self.now) }
        ensures { result ≡ be32 (bytes_of self.now) 2 }
    {
        read_u32(self.buffer, field::IDENT.start)
    }

    /// Offset, reserved bits and more-fragments.
    pub(super) fn first_half(&self) -> u16
        requires { 6 ≤ length (bytes_of self.now) }
        ensures { result ≡ be16 (bytes_of self.now) 0 }
    {
        read_u16(self.buffer, field::FR_OF_M.start)
    }
}
