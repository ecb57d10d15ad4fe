//! A packet in a buffer, read in place.
ghost use Rattle.std.specs.Prelude.{◌≡◌, ◌↔◌, ◌*◌, ◌/◌, ◌%◌, ◌<◌, ◌≤◌, ◌^◌, IsTrue, IsOk, IfOk, length, slice_index, slice_range};
ghost use Rattle.wire_address.specs.Fields.{be16};
ghost use Rattle.wire_address.specs.Protocol.{protocol_of};
ghost use Rattle.wire_address.specs.Sum.{word_sum, folded};
ghost use Rattle.wire_ip.specs.Parts.{has_flag};
ghost use Rattle.wire_ip.specs.Ipv4.{IsWhole, IsChecked, IsKeyOf, fragment_of, flags_and_offset, bytes_of, header_len_of, header_of, payload_of};
ghost use Rattle.wire_ip.specs.declared.ipv4.fragment.Ipv4Fragment.{Ipv4Fragment};
ghost use Rattle.wire_address.specs.declared.ipv4.Ipv4FragKey.{Ipv4FragKey};

use super::field::{self, HEADER_LEN};
use super::fragment::Ipv4Fragment;
use wire_address::network_order::read_u16;
use wire_address::{Error, IpProtocol, Ipv4Address, Ipv4FragKey, checksum};

/// An IPv4 packet in a buffer, read in place.
#[derive(Clone, Copy, Debug)]
pub struct Ipv4Packet<'a> {
    buffer: &'a [u8],
}

impl<'a> Ipv4Packet<'a> {
    /// A view of any bytes.
    pub const fn new_unchecked(buffer: &'a [u8]) -> Ipv4Packet<'a>
        ensures { bytes_of result ≡ buffer.now }
    {
        Ipv4Packet { buffer }
    }

    /// A view of bytes that pass `check_len`.
    pub fn new_checked(buffer: &'a [u8]) -> Result<Ipv4Packet<'a>, Error>
        ensures whole { IsOk result ↔ IsWhole buffer.now }
        ensures bytes { IfOk result (λ view. bytes_of view ≡ buffer.now) }
    {
        let packet = Ipv4Packet::new_unchecked(buffer);
        packet.check_len()?;
        Ok(packet)
    }

    /// Whether the header is there, and the length fields fit the bytes.
    pub fn check_len(&self) -> Result<(), Error>
        ensures { IsOk result ↔ IsWhole (bytes_of self.now) }
    {
        if self.buffer.len() < HEADER_LEN {
            return Err(Error);
        }
        let header_len = self.header_len() as usize;
        let total_len = self.total_len() as usize;
        if header_len < HEADER_LEN || header_len > total_len || total_len > self.buffer.len() {
            return Err(Error);
        }
        Ok(())
    }

    /// The bytes viewed.
    pub const fn into_inner(self) -> &'a [u8]
        ensures { result.now ≡ bytes_of self.entry }
    {
        self.buffer
    }

    pub fn version(&self) -> u8
        requires { 20 ≤ length (bytes_of self.now) }
        ensures { result ≡ slice_index (bytes_of self.now) 0 / 16 }
    {
        self.buffer[field::VER_IHL] >> 4
    }

    /// The length of the header with its options, in bytes.
    pub fn header_len(&self) -> u8
        requires { 20 ≤ length (bytes_of self.now) }
        ensures { result ≡ header_len_of (bytes_of self.now) }
    {
        (self.buffer[field::VER_IHL] & 0x0f) * 4
    }

    /// The differentiated services code point (RFC 2474).
    pub fn dscp(&self) -> u8
        requires { 20 ≤ length (bytes_of self.now) }
        ensures { result ≡ slice_index (bytes_of self.now) 1 / 4 }
    {
        self.buffer[field::DSCP_ECN] >> 2
    }

    /// The explicit congestion notification bits (RFC 3168).
    pub fn ecn(&self) -> u8
        requires { 20 ≤ length (bytes_of self.now) }
        ensures { result ≡ slice_index (bytes_of self.now) 1 % 4 }
    {
        self.buffer[field::DSCP_ECN] & 0x03
    }

    /// The length of header and payload.
    pub fn total_len(&self) -> u16
        requires { 20 ≤ length (bytes_of self.now) }
        ensures { result ≡ be16 (bytes_of self.now) 2 }
    {
        read_u16(self.buffer, field::LENGTH.start)
    }

    /// The identification, which the fragments of one datagram share.
    pub fn ident(&self) -> u16
        requires { 20 ≤ length (bytes_of self.now) }
        ensures { result ≡ be16 (bytes_of self.now) 4 }
    {
        read_u16(self.buffer, field::IDENT.start)
    }

    /// Whether the packet may not be cut.
    pub fn dont_frag(&self) -> bool
        requires { 20 ≤ length (bytes_of self.now) }
        ensures set { IsTrue result ↔ (slice_index (bytes_of self.now) 6 / 64 % 2 ≡ 1) }
        ensures flag { result ≡ has_flag (slice_index (bytes_of self.now) 6) 64 }
    {
        (self.buffer[field::FLG_OFF.start] >> 6) & 1 == 1
    }

    /// Whether a later fragment of the same datagram follows.
    pub fn more_frags(&self) -> bool
        requires { 20 ≤ length (bytes_of self.now) }
        ensures set { IsTrue result ↔ (slice_index (bytes_of self.now) 6 / 32 % 2 ≡ 1) }
        ensures flag { result ≡ has_flag (slice_index (bytes_of self.now) 6) 32 }
    {
        (self.buffer[field::FLG_OFF.start] >> 5) & 1 == 1
    }

    /// Where in the datagram the payload stands, in bytes.
    pub fn frag_offset(&self) -> u16
        requires { 20 ≤ length (bytes_of self.now) }
        ensures { result ≡ 8 * (be16 (bytes_of self.now) 6 % 2 ^ 13) }
    {
        (self.flags_and_offset() & 0x1fff) << 3
    }

    /// The time to live, which counts hops.
    pub fn hop_limit(&self) -> u8
        requires { 20 ≤ length (bytes_of self.now) }
        ensures { result ≡ slice_index (bytes_of self.now) 8 }
    {
        self.buffer[field::TTL]
    }

    /// What the packet carries, by its number.
    pub fn next_header(&self) -> IpProtocol
        requires { 20 ≤ length (bytes_of self.now) }
        ensures { result ≡ protocol_of (slice_index (bytes_of self.now) 9) }
    {
        IpProtocol::from(self.buffer[field::PROTOCOL])
    }

    pub fn checksum(&self) -> u16
        requires { 20 ≤ length (bytes_of self.now) }
        ensures { result ≡ be16 (bytes_of self.now) 10 }
    {
        read_u16(self.buffer, field::CHECKSUM.start)
    }

    pub fn src_addr(&self) -> Ipv4Address
        requires { 20 ≤ length (bytes_of self.now) }
        ensures { result.0 ≡ slice_range (bytes_of self.now) 12 16 }
    {
        let mut octets = [0; 4];
        octets.copy_from_slice(&self.buffer[field::SRC_ADDR]);
        Ipv4Address(octets)
    }

    pub fn dst_addr(&self) -> Ipv4Address
        requires { 20 ≤ length (bytes_of self.now) }
        ensures { result.0 ≡ slice_range (bytes_of self.now) 16 20 }
    {
        let mut octets = [0; 4];
        octets.copy_from_slice(&self.buffer[field::DST_ADDR]);
        Ipv4Address(octets)
    }

    /// What the fragments of one datagram have in common.
    pub fn get_key(&self) -> Ipv4FragKey
        requires { 20 ≤ length (bytes_of self.now) }
        ensures { IsKeyOf (bytes_of self.now) result }
    {
        Ipv4FragKey {
            id: self.ident(),
            src_addr: self.src_addr(),
            dst_addr: self.dst_addr(),
            protocol: self.next_header(),
        }
    }

    /// Which fragment of its datagram the packet is.
    pub fn fragment(&self) -> Ipv4Fragment
        requires { 20 ≤ length (bytes_of self.now) }
        ensures { result ≡ fragment_of (bytes_of self.now) }
    {
        Ipv4Fragment {
            offset: self.frag_offset(),
            more: self.more_frags(),
        }
    }

    /// The flags and the offset in units of eight bytes.
    pub(crate) fn flags_and_offset(&self) -> u16
        requires { 20 ≤ length (bytes_of self.now) }
        ensures { result ≡ be16 (bytes_of self.now) 6 }
    {
        read_u16(self.buffer, field::FLG_OFF.start)
    }

    /// The sum that the header's checksum covers, itself included.
    pub(crate) fn sum(&self) -> u16
        requires room { 20 ≤ length (bytes_of self.now) }
        requires header { header_len_of (bytes_of self.now) ≤ length (bytes_of self.now) }
        ensures { result ≡ folded (word_sum (header_of (bytes_of self.now))) }
    {
        let (header, _rest) = self.buffer.split_at(self.header_len() as usize);
        checksum::data(header)
    }

    /// Whether the header's checksum holds.
    pub fn verify_checksum(&self) -> bool
        requires room { 20 ≤ length (bytes_of self.now) }
        requires header { header_len_of (bytes_of self.now) ≤ length (bytes_of self.now) }
        ensures { IsTrue result ↔ IsChecked (bytes_of self.now) }
    {
        self.sum() == 0xffff
    }

    /// What the packet carries.
    pub fn payload(&self) -> &'a [u8]
        requires { IsWhole (bytes_of self.now) }
        ensures { result.now ≡ payload_of (bytes_of self.now) }
    {
        &self.buffer[self.header_len() as usize..self.total_len() as usize]
    }
}
