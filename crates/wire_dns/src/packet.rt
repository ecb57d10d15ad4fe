//! A message in a buffer, read in place.
ghost use Rattle.std.specs.Prelude.{◌≡◌, ◌↔◌, ◌/◌, ◌%◌, ◌≤◌, IsOk, IfOk, length, slice_index};
ghost use Rattle.wire_address.specs.Fields.{be16};
ghost use Rattle.wire_dns.specs.Codes.{opcode_of, rcode_of, flags_of};
ghost use Rattle.wire_dns.specs.Message.{bytes_of};

use crate::codes::{DnsFlags, DnsOpcode, DnsRcode};
use crate::field::{self, HEADER_LEN};
use wire_address::Error;
use wire_address::network_order::read_u16;

/// A message in a buffer, read in place.
#[derive(Clone, Copy, Debug)]
pub struct DnsPacket<'a> {
    buffer: &'a [u8],
}

impl<'a> DnsPacket<'a> {
    /// A view of any bytes.
    pub const fn new_unchecked(buffer: &'a [u8]) -> DnsPacket<'a>
        ensures { bytes_of result ≡ buffer.now }
    {
        DnsPacket { buffer }
    }

    /// A view of bytes that pass `check_len`.
    pub fn new_checked(buffer: &'a [u8]) -> Result<DnsPacket<'a>, Error>
        ensures whole { IsOk result ↔ (12 ≤ length buffer.now) }
        ensures bytes { IfOk result (λ view. bytes_of view ≡ buffer.now) }
    {
        let packet = DnsPacket::new_unchecked(buffer);
        packet.check_len()?;
        Ok(packet)
    }

    /// Whether the header is there.
    pub fn check_len(&self) -> Result<(), Error>
        ensures { IsOk result ↔ (12 ≤ length (bytes_of self.now)) }
    {
        if self.buffer.len() < HEADER_LEN {
            return Err(Error);
        }
        Ok(())
    }

    /// The bytes viewed.
    pub const fn into_inner(self) -> &'a [u8]
        ensures { result.now ≡ bytes_of self.entry }
    {
        self.buffer
    }

    /// The number by which a client knows the answer to its query.
    pub fn transaction_id(&self) -> u16
        requires { 12 ≤ length (bytes_of self.now) }
        ensures { result ≡ be16 (bytes_of self.now) 0 }
    {
        read_u16(self.buffer, field::ID.start)
    }

    pub fn flags(&self) -> DnsFlags
        requires { 12 ≤ length (bytes_of self.now) }
        ensures { result ≡ flags_of (slice_index (bytes_of self.now) 2) (slice_index (bytes_of self.now) 3) }
    {
        DnsFlags::from_bytes(self.buffer[field::FLAGS.start], self.buffer[3])
    }

    pub fn opcode(&self) -> DnsOpcode
        requires { 12 ≤ length (bytes_of self.now) }
        ensures { result ≡ opcode_of (slice_index (bytes_of self.now) 2 / 8 % 16) }
    {
        DnsOpcode::from_number((self.buffer[field::FLAGS.start] >> 3) & 0x0f)
    }

    pub fn rcode(&self) -> DnsRcode
        requires { 12 ≤ length (bytes_of self.now) }
        ensures { result ≡ rcode_of (slice_index (bytes_of self.now) 3 % 16) }
    {
        DnsRcode::from_number(self.buffer[3] & 0x0f)
    }

    pub fn question_count(&self) -> u16
        requires { 12 ≤ length (bytes_of self.now) }
        ensures { result ≡ be16 (bytes_of self.now) 4 }
    {
        read_u16(self.buffer, field::QDCOUNT.start)
    }

    pub fn answer_record_count(&self) -> u16
        requires { 12 ≤ length (bytes_of self.now) }
        ensures { result ≡ be16 (bytes_of self.now) 6 }
    {
        read_u16(self.buffer, field::ANCOUNT.start)
    }

    pub fn authority_record_count(&self) -> u16
        requires { 12 ≤ length (bytes_of self.now) }
        ensures { result ≡ be16 (bytes_of self.now) 8 }
    {
        read_u16(self.buffer, field::NSCOUNT.start)
    }

    pub fn additional_record_count(&self) -> u16
        requires { 12 ≤ length (bytes_of self.now) }
        ensures { result ≡ be16 (bytes_of self.now) 10 }
    {
        read_u16(self.buffer, field::ARCOUNT.start)
    }
}
