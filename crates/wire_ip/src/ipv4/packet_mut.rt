//! A packet in a buffer, read and written in place.
ghost use Rattle.std.specs.Prelude.{◌≡◌, ◌↔◌, ◌+◌, ◌*◌, ◌/◌, ◌%◌, ◌<◌, ◌≤◌, ◌^◌, IsTrue, IsOk, IfOk, length, slice_index, slice_range};
ghost use Rattle.wire_address.specs.Fields.{be16, put8, put16, with_flag};
ghost use Rattle.wire_address.specs.Protocol.{protocol_number, protocol_of};
ghost use Rattle.wire_address.specs.Sum.{word_sum, folded};
ghost use Rattle.wire_ip.specs.Parts.{put_run, has_flag};
ghost use Rattle.wire_ip.specs.Ipv4.{IsWhole, IsChecked, IsKeyOf, fragment_of, flags_and_offset, bytes_in, name_of, header_len_of, header_of, payload_of};
ghost use Rattle.wire_ip.specs.Ipv4.{written, with_checksum};
ghost use Rattle.wire_ip.specs.declared.ipv4.fragment.Ipv4Fragment.{Ipv4Fragment};
ghost use Rattle.wire_address.specs.declared.ipv4.Ipv4FragKey.{Ipv4FragKey};

use super::field;
use super::fragment::Ipv4Fragment;
use super::packet::Ipv4Packet;
use crate::parts::put4;
use wire_address::network_order::write_u16;
use wire_address::{Error, IpProtocol, Ipv4Address, Ipv4FragKey, checksum};

/// An IPv4 packet in a buffer, read and written in place.
#[derive(Debug, Drop)]
pub struct Ipv4PacketMut<'a> {
    pub(crate) buffer: &'a mut [u8],
}

impl<'a> Ipv4PacketMut<'a> {
    /// A view of any bytes.
    pub const fn new_unchecked(buffer: &'a mut [u8]) -> Ipv4PacketMut<'a>
        ensures same_reference { name_of result ≡ buffer.entry.ghost_name }
        ensures bytes { bytes_in result ≡ buffer.old }
    {
        Ipv4PacketMut { buffer }
    }

    /// A view of bytes that pass `check_len`.
    pub fn new_checked(buffer: &'a mut [u8]) -> Result<Ipv4PacketMut<'a>, Error>
        ensures whole { IsOk result ↔ IsWhole buffer.old }
        ensures same_reference { IfOk result (λ view. name_of view ≡ buffer.entry.ghost_name) }
        ensures bytes { IfOk result (λ view. bytes_in view ≡ buffer.old) }
    {
        Ipv4Packet::new_unchecked(buffer).check_len()?;
        Ok(Ipv4PacketMut { buffer })
    }

    /// Whether the header is there, and the length fields fit the bytes.
    pub fn check_len(&self) -> Result<(), Error>
        ensures { IsOk result ↔ IsWhole (bytes_in self.now) }
    {
        Ipv4Packet::new_unchecked(self.buffer).check_len()
    }

    /// The bytes viewed, with all that was written.
    pub const fn into_inner(self) -> &'a mut [u8]
        ensures same_reference { result.ghost_name ≡ name_of self.entry }
        ensures bytes { result.now ≡ bytes_in self.entry }
    {
        self.buffer
    }

    pub fn version(&self) -> u8
        requires { 20 ≤ length (bytes_in self.now) }
        ensures { result ≡ slice_index (bytes_in self.now) 0 / 16 }
    {
        Ipv4Packet::new_unchecked(self.buffer).version()
    }

    /// The length of the header with its options, in bytes.
    pub fn header_len(&self) -> u8
        requires { 20 ≤ length (bytes_in self.now) }
        ensures { result ≡ header_len_of (bytes_in self.now) }
    {
        Ipv4Packet::new_unchecked(self.buffer).header_len()
    }

    /// The differentiated services code point (RFC 2474).
    pub fn dscp(&self) -> u8
        requires { 20 ≤ length (bytes_in self.now) }
        ensures { result ≡ slice_index (bytes_in self.now) 1 / 4 }
    {
        Ipv4Packet::new_unchecked(self.buffer).dscp()
    }

    /// The explicit congestion notification bits (RFC 3168).
    pub fn ecn(&self) -> u8
        requires { 20 ≤ length (bytes_in self.now) }
        ensures { result ≡ slice_index (bytes_in self.now) 1 % 4 }
    {
        Ipv4Packet::new_unchecked(self.buffer).ecn()
    }

    /// The length of header and payload.
    pub fn total_len(&self) -> u16
        requires { 20 ≤ length (bytes_in self.now) }
        ensures { result ≡ be16 (bytes_in self.now) 2 }
    {
        Ipv4Packet::new_unchecked(self.buffer).total_len()
    }

    /// The identification, which the fragments of one datagram share.
    pub fn ident(&self) -> u16
        requires { 20 ≤ length (bytes_in self.now) }
        ensures { result ≡ be16 (bytes_in self.now) 4 }
    {
        Ipv4Packet::new_unchecked(self.buffer).ident()
    }

    /// Whether the packet may not be cut.
    pub fn dont_frag(&self) -> bool
        requires { 20 ≤ length (bytes_in self.now) }
        ensures set { IsTrue result ↔ (slice_index (bytes_in self.now) 6 / 64 % 2 ≡ 1) }
        ensures flag { result ≡ has_flag (slice_index (bytes_in self.now) 6) 64 }
    {
        Ipv4Packet::new_unchecked(self.buffer).dont_frag()
    }

    /// Whether a later fragment of the same datagram follows.
    pub fn more_frags(&self) -> bool
        requires { 20 ≤ length (bytes_in self.now) }
        ensures set { IsTrue result ↔ (slice_index (bytes_in self.now) 6 / 32 % 2 ≡ 1) }
        ensures flag { result ≡ has_flag (slice_index (bytes_in self.now) 6) 32 }
    {
        Ipv4Packet::new_unchecked(self.buffer).more_frags()
    }

    /// Where in the datagram the payload stands, in bytes.
    pub fn frag_offset(&self) -> u16
        requires { 20 ≤ length (bytes_in self.now) }
        ensures { result ≡ 8 * (be16 (bytes_in self.now) 6 % 2 ^ 13) }
    {
        Ipv4Packet::new_unchecked(self.buffer).frag_offset()
    }

    /// The time to live, which counts hops.
    pub fn hop_limit(&self) -> u8
        requires { 20 ≤ length (bytes_in self.now) }
        ensures { result ≡ slice_index (bytes_in self.now) 8 }
    {
        Ipv4Packet::new_unchecked(self.buffer).hop_limit()
    }

    /// What the packet carries, by its number.
    pub fn next_header(&self) -> IpProtocol
        requires { 20 ≤ length (bytes_in self.now) }
        ensures { result ≡ protocol_of (slice_index (bytes_in self.now) 9) }
    {
        Ipv4Packet::new_unchecked(self.buffer).next_header()
    }

    pub fn checksum(&self) -> u16
        requires { 20 ≤ length (bytes_in self.now) }
        ensures { result ≡ be16 (bytes_in self.now) 10 }
    {
        Ipv4Packet::new_unchecked(self.buffer).checksum()
    }

    pub fn src_addr(&self) -> Ipv4Address
        requires { 20 ≤ length (bytes_in self.now) }
        ensures { result.0 ≡ slice_range (bytes_in self.now) 12 16 }
    {
        Ipv4Packet::new_unchecked(self.buffer).src_addr()
    }

    pub fn dst_addr(&self) -> Ipv4Address
        requires { 20 ≤ length (bytes_in self.now) }
        ensures { result.0 ≡ slice_range (bytes_in self.now) 16 20 }
    {
        Ipv4Packet::new_unchecked(self.buffer).dst_addr()
    }

    /// What the fragments of one datagram have in common.
    pub fn get_key(&self) -> Ipv4FragKey
        requires { 20 ≤ length (bytes_in self.now) }
        ensures { IsKeyOf (bytes_in self.now) result }
    {
        Ipv4Packet::new_unchecked(self.buffer).get_key()
    }

    /// Which fragment of its datagram the packet is.
    pub fn fragment(&self) -> Ipv4Fragment
        requires { 20 ≤ length (bytes_in self.now) }
        ensures { result ≡ fragment_of (bytes_in self.now) }
    {
        Ipv4Packet::new_unchecked(self.buffer).fragment()
    }

    /// The flags and the offset in units of eight bytes.
    fn flags_and_offset(&self) -> u16
        requires { 20 ≤ length (bytes_in self.now) }
        ensures { result ≡ be16 (bytes_in self.now) 6 }
    {
        Ipv4Packet::new_unchecked(self.buffer).flags_and_offset()
    }

    /// The sum that the header's checksum covers, itself included.
    fn sum(&self) -> u16
        requires room { 20 ≤ length (bytes_in self.now) }
        requires header { header_len_of (bytes_in self.now) ≤ length (bytes_in self.now) }
        ensures { result ≡ folded (word_sum (header_of (bytes_in self.now))) }
    {
        Ipv4Packet::new_unchecked(self.buffer).sum()
    }

    /// Whether the header's checksum holds.
    pub fn verify_checksum(&self) -> bool
        requires room { 20 ≤ length (bytes_in self.now) }
        requires header { header_len_of (bytes_in self.now) ≤ length (bytes_in self.now) }
        ensures { IsTrue result ↔ IsChecked (bytes_in self.now) }
    {
        Ipv4Packet::new_unchecked(self.buffer).verify_checksum()
    }

    /// What the packet carries.
    pub fn payload(&self) -> &[u8]
        requires { IsWhole (bytes_in self.now) }
        ensures { result.now ≡ payload_of (bytes_in self.now) }
    {
        Ipv4Packet::new_unchecked(self.buffer).payload()
    }

    pub fn set_version(&mut self, value: u8)
        requires { 20 ≤ length (bytes_in self.old) }
        ensures same_reference { name_of self.new ≡ name_of self.old }
        ensures bytes { bytes_in self.new
            ≡ put8 (bytes_in self.old) 0 (value % 16 * 16 + slice_index (bytes_in self.old) 0 % 16) }
    {
        let old = self.buffer[field::VER_IHL];
        self.buffer[field::VER_IHL] = ((value & 0x0f) << 4) + (old & 0x0f);
    }

    /// Sets the length of the header, in bytes, cut to a multiple of four below 64.
    pub fn set_header_len(&mut self, value: u8)
        requires { 20 ≤ length (bytes_in self.old) }
        ensures same_reference { name_of self.new ≡ name_of self.old }
        ensures bytes { bytes_in self.new
            ≡ put8 (bytes_in self.old) 0 (slice_index (bytes_in self.old) 0 / 16 * 16 + value / 4 % 16) }
    {
        let old = self.buffer[field::VER_IHL];
        self.buffer[field::VER_IHL] = ((old >> 4) << 4) + ((value >> 2) & 0x0f);
    }

    /// Sets the six bits of the differentiated services code point.
    pub fn set_dscp(&mut self, value: u8)
        requires { 20 ≤ length (bytes_in self.old) }
        ensures same_reference { name_of self.new ≡ name_of self.old }
        ensures bytes { bytes_in self.new
            ≡ put8 (bytes_in self.old) 1 (value % 64 * 4 + slice_index (bytes_in self.old) 1 % 4) }
    {
        let old = self.buffer[field::DSCP_ECN];
        self.buffer[field::DSCP_ECN] = ((value & 0x3f) << 2) + (old & 0x03);
    }

    /// Sets the two bits of the explicit congestion notification.
    pub fn set_ecn(&mut self, value: u8)
        requires { 20 ≤ length (bytes_in self.old) }
        ensures same_reference { name_of self.new ≡ name_of self.old }
        ensures bytes { bytes_in self.new
            ≡ put8 (bytes_in self.old) 1 (slice_index (bytes_in self.old) 1 / 4 * 4 + value % 4) }
    {
        let old = self.buffer[field::DSCP_ECN];
        self.buffer[field::DSCP_ECN] = ((old >> 2) << 2) + (value & 0x03);
    }

    /// Sets the length of header and payload.
    pub fn set_total_len(&mut self, value: u16)
        requires { 20 ≤ length (bytes_in self.old) }
        ensures same_reference { name_of self.new ≡ name_of self.old }
        ensures bytes { bytes_in self.new ≡ put16 (bytes_in self.old) 2 value }
    {
        write_u16(self.buffer, field::LENGTH.start, value);
    }

    pub fn set_ident(&mut self, value: u16)
        requires { 20 ≤ length (bytes_in self.old) }
        ensures same_reference { name_of self.new ≡ name_of self.old }
        ensures bytes { bytes_in self.new ≡ put16 (bytes_in self.old) 4 value }
    {
        write_u16(self.buffer, field::IDENT.start, value);
    }

    /// Clears the three flags, the reserved one too.
    pub fn clear_flags(&mut self)
        requires { 20 ≤ length (bytes_in self.old) }
        ensures same_reference { name_of self.new ≡ name_of self.old }
        ensures bytes { bytes_in self.new
            ≡ put8 (bytes_in self.old) 6 (slice_index (bytes_in self.old) 6 % 32) }
    {
        let old = self.buffer[field::FLG_OFF.start];
        self.buffer[field::FLG_OFF.start] = old & 0x1f;
    }

    pub fn set_dont_frag(&mut self, value: bool)
        requires { 20 ≤ length (bytes_in self.old) }
        ensures same_reference { name_of self.new ≡ name_of self.old }
        ensures bytes { bytes_in self.new
            ≡ put8 (bytes_in self.old) 6 (with_flag (slice_index (bytes_in self.old) 6) 64 value) }
    {
        let old = self.buffer[field::FLG_OFF.start];
        self.buffer[field::FLG_OFF.start] = with_dont_frag(old, value);
    }

    pub fn set_more_frags(&mut self, value: bool)
        requires { 20 ≤ length (bytes_in self.old) }
        ensures same_reference { name_of self.new ≡ name_of self.old }
        ensures bytes { bytes_in self.new
            ≡ put8 (bytes_in self.old) 6 (with_flag (slice_index (bytes_in self.old) 6) 32 value) }
    {
        let old = self.buffer[field::FLG_OFF.start];
        self.buffer[field::FLG_OFF.start] = with_more_frags(old, value);
    }

    /// Sets where in the datagram the payload stands, in bytes, cut to a multiple of eight.
    pub fn set_frag_offset(&mut self, value: u16)
        requires { 20 ≤ length (bytes_in self.old) }
        ensures same_reference { name_of self.new ≡ name_of self.old }
        ensures bytes { bytes_in self.new
            ≡ put16 (bytes_in self.old) 6 (be16 (bytes_in self.old) 6 / 2 ^ 13 * 2 ^ 13 + value / 8) }
    {
        let old = self.flags_and_offset();
        write_u16(
            self.buffer,
            field::FLG_OFF.start,
            ((old >> 13) << 13) + (value >> 3),
        );
    }

    pub fn set_hop_limit(&mut self, value: u8)
        requires { 20 ≤ length (bytes_in self.old) }
        ensures same_reference { name_of self.new ≡ name_of self.old }
        ensures bytes { bytes_in self.new ≡ put8 (bytes_in self.old) 8 value }
    {
        self.buffer[field::TTL] = value;
    }

    pub fn set_next_header(&mut self, value: IpProtocol)
        requires { 20 ≤ length (bytes_in self.old) }
        ensures same_reference { name_of self.new ≡ name_of self.old }
        ensures bytes { bytes_in self.new ≡ put8 (bytes_in self.old) 9 (protocol_number value) }
    {
        self.buffer[field::PROTOCOL] = value.into();
    }

    pub fn set_checksum(&mut self, value: u16)
        requires { 20 ≤ length (bytes_in self.old) }
        ensures same_reference { name_of self.new ≡ name_of self.old }
        ensures bytes { bytes_in self.new ≡ put16 (bytes_in self.old) 10 value }
    {
        write_u16(self.buffer, field::CHECKSUM.start, value);
    }

    pub fn set_src_addr(&mut self, value: Ipv4Address)
        requires { 20 ≤ length (bytes_in self.old) }
        ensures same_reference { name_of self.new ≡ name_of self.old }
        ensures bytes { bytes_in self.new ≡ put_run (bytes_in self.old) 12 4 value.0 }
    {
        put4(self.buffer, field::SRC_ADDR.start, &value.0);
    }

    pub fn set_dst_addr(&mut self, value: Ipv4Address)
        requires { 20 ≤ length (bytes_in self.old) }
        ensures same_reference { name_of self.new ≡ name_of self.old }
        ensures bytes { bytes_in self.new ≡ put_run (bytes_in self.old) 16 4 value.0 }
    {
        put4(self.buffer, field::DST_ADDR.start, &value.0);
    }

    /// Writes the checksum of the header as it stands.
    pub fn fill_checksum(&mut self)
        requires room { 20 ≤ length (bytes_in self.old) }
        requires header { header_len_of (bytes_in self.old) ≤ length (bytes_in self.old) }
        ensures same_reference { name_of self.new ≡ name_of self.old }
        ensures bytes { bytes_in self.new ≡ with_checksum (bytes_in self.old) }
    {
        self.set_checksum(0);
        self.set_checksum(!self.sum());
    }

    /// What the packet carries, to be written.
    pub fn payload_mut(&mut self) -> &mut [u8]
        requires { IsWhole (bytes_in self.old) }
        ensures { result.now ≡ payload_of (bytes_in self.old) }
    {
        let start = self.header_len() as usize;
        let end = self.total_len() as usize;
        &mut self.buffer[start..end]
    }
}

/// The byte of the flags with don't-fragment set so.
const fn with_dont_frag(byte: u8, value: bool) -> u8
    ensures { result ≡ with_flag byte 64 value }
{
    ((byte >> 7) << 7) + (if value { 64 } else { 0 }) + (byte & 0x3f)
}

/// The byte of the flags with more-fragments set so.
const fn with_more_frags(byte: u8, value: bool) -> u8
    ensures { result ≡ with_flag byte 32 value }
{
    ((byte >> 6) << 6) + (if value { 32 } else { 0 }) + (byte & 0x1f)
}
