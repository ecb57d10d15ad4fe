//! A message in a buffer, read in place.
ghost use Rattle.std.specs.Prelude.{◌≡◌, ◌↔◌, ℕ, ◌+◌, ◌<◌, ◌≤◌, ◌^◌, IsTrue, IsOk, IfOk, length, slice_index, slice_range};
ghost use Rattle.wire_address.specs.Fields.{be16, be32};
ghost use Rattle.wire_address.specs.Sum.{folded};
ghost use Rattle.wire_icmpv6.specs.Message.{header_len_of, message_number};
ghost use Rattle.wire_icmpv6.specs.Ndisc.{flags_of};
ghost use Rattle.wire_icmpv6.specs.Packet.{IsWhole, IsChecked, bytes_of, type_of, payload_of, covered};

use crate::field;
use crate::message::Icmpv6Message;
use crate::ndisc_flags::NdiscNeighborFlags;
use wire_address::network_order::{read_u16, read_u32};
use wire_address::{Error, IpProtocol, Ipv6Address, checksum};

/// A message in a buffer, read in place. It has no length field: it ends where its bytes end, so
/// whoever cuts it out of its packet cuts the padding.
#[derive(Clone, Copy, Debug)]
pub struct Icmpv6Packet<'a> {
    buffer: &'a [u8],
}

impl<'a> Icmpv6Packet<'a> {
    /// A view of any bytes.
    pub const fn new_unchecked(buffer: &'a [u8]) -> Icmpv6Packet<'a>
        ensures { bytes_of result ≡ buffer.now }
    {
        Icmpv6Packet { buffer }
    }

    /// A view of bytes that pass `check_len`.
    pub fn new_checked(buffer: &'a [u8]) -> Result<Icmpv6Packet<'a>, Error>
        ensures whole { IsOk result ↔ IsWhole buffer.now }
        ensures bytes { IfOk result (λ view. bytes_of view ≡ buffer.now) }
    {
        let packet = Icmpv6Packet::new_unchecked(buffer);
        packet.check_len()?;
        Ok(packet)
    }

    /// Whether the type is a known one and the bytes hold its header.
    pub fn check_len(&self) -> Result<(), Error>
        ensures { IsOk result ↔ IsWhole (bytes_of self.now) }
    {
        if self.buffer.len() < field::CHECKSUM.end || !self.msg_type().is_known() {
            return Err(Error);
        }
        if self.buffer.len() < self.header_len() {
            return Err(Error);
        }
        Ok(())
    }

    /// The bytes viewed.
    pub const fn into_inner(self) -> &'a [u8]
        ensures { result.now ≡ bytes_of self.entry }
    {
        self.buffer
    }

    pub fn msg_type(&self) -> Icmpv6Message
        requires { 4 ≤ length (bytes_of self.now) }
        ensures kind { result ≡ type_of (bytes_of self.now) }
        ensures number { message_number result ≡ slice_index (bytes_of self.now) 0 }
    {
        Icmpv6Message::from(self.buffer[field::TYPE])
    }

    pub fn msg_code(&self) -> u8
        requires { 4 ≤ length (bytes_of self.now) }
        ensures { result ≡ slice_index (bytes_of self.now) 1 }
    {
        self.buffer[field::CODE]
    }

    pub fn checksum(&self) -> u16
        requires { 4 ≤ length (bytes_of self.now) }
        ensures { result ≡ be16 (bytes_of self.now) 2 }
    {
        read_u16(self.buffer, field::CHECKSUM.start)
    }

    /// The identifier of an echo message.
    pub fn echo_ident(&self) -> u16
        requires { 8 ≤ length (bytes_of self.now) }
        ensures { result ≡ be16 (bytes_of self.now) 4 }
    {
        read_u16(self.buffer, field::ECHO_IDENT.start)
    }

    /// The sequence number of an echo message.
    pub fn echo_seq_no(&self) -> u16
        requires { 8 ≤ length (bytes_of self.now) }
        ensures { result ≡ be16 (bytes_of self.now) 6 }
    {
        read_u16(self.buffer, field::ECHO_SEQNO.start)
    }

    /// How long a packet may be, in bytes, for the next link, of packet too big.
    pub fn pkt_too_big_mtu(&self) -> u32
        requires { 8 ≤ length (bytes_of self.now) }
        ensures { result ≡ be32 (bytes_of self.now) 4 }
    {
        read_u32(self.buffer, field::MTU.start)
    }

    /// The offset in the quoted packet, counted from 0, at which a parameter problem was found.
    pub fn param_problem_ptr(&self) -> u32
        requires { 8 ≤ length (bytes_of self.now) }
        ensures { result ≡ be32 (bytes_of self.now) 4 }
    {
        read_u32(self.buffer, field::POINTER.start)
    }

    /// The address that a neighbour message is about.
    pub fn target_addr(&self) -> Ipv6Address
        requires { 24 ≤ length (bytes_of self.now) }
        ensures { result.0 ≡ slice_range (bytes_of self.now) 8 24 }
    {
        let offset = field::TARGET_ADDR;
        let mut octets = [0; 16];
        octets.copy_from_slice(&self.buffer[offset.start..offset.end]);
        Ipv6Address(octets)
    }

    /// The flags of a neighbour advertisement.
    pub fn neighbor_flags(&self) -> NdiscNeighborFlags
        requires { 24 ≤ length (bytes_of self.now) }
        ensures { result ≡ flags_of (slice_index (bytes_of self.now) 4) }
    {
        NdiscNeighborFlags::from_bits_truncate(self.buffer[field::ND_FLAGS])
    }

    /// The length of the header of a message of this type: 4 where the type isn't known.
    pub fn header_len(&self) -> usize
        requires { 4 ≤ length (bytes_of self.now) }
        ensures { result ≡ header_len_of (type_of (bytes_of self.now)) }
    {
        self.msg_type().header_len()
    }

    /// What stands after the header.
    pub fn payload(&self) -> &'a [u8]
        requires { IsWhole (bytes_of self.now) }
        ensures { result.now ≡ payload_of (bytes_of self.now) }
    {
        let (_header, payload) = self.buffer.split_at(self.header_len());
        payload
    }

    /// The sum of all that the checksum covers, itself included, not complemented.
    pub(crate) fn sum(&self, src_addr: &Ipv6Address, dst_addr: &Ipv6Address) -> u16
        requires { length (bytes_of self.now) < 2 ^ 32 }
        ensures { result ≡ folded (covered src_addr.now dst_addr.now (bytes_of self.now)) }
    {
        let length = self.buffer.len() as u32;
        let header = checksum::pseudo_header_v6(src_addr, dst_addr, IpProtocol::Icmpv6, length);
        checksum::combine(&[header, checksum::data(self.buffer)])
    }

    /// Whether the checksum holds.
    pub fn verify_checksum(&self, src_addr: &Ipv6Address, dst_addr: &Ipv6Address) -> bool
        requires { length (bytes_of self.now) < 2 ^ 32 }
        ensures { IsTrue result ↔ IsChecked src_addr.now dst_addr.now (bytes_of self.now) }
    {
        self.sum(src_addr, dst_addr) == 0xffff
    }
}
