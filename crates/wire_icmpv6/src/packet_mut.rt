//! A message in a buffer, read and written in place.
ghost use Rattle.std.specs.Prelude.{◌≡◌, ◌↔◌, ℕ, ◌+◌, ◌<◌, ◌≤◌, ◌^◌, IsTrue, IsOk, IfOk, length, slice_index, slice_range};
ghost use Rattle.wire_address.specs.Fields.{be16, be32, put8, put16, put32};
ghost use Rattle.wire_ip.specs.Parts.{put_run};
ghost use Rattle.wire_icmpv6.specs.Message.{message_number, header_len_of};
ghost use Rattle.wire_icmpv6.specs.Ndisc.{flag_bits, flags_of};
ghost use Rattle.wire_icmpv6.specs.Packet.{IsWhole, IsChecked, bytes_of, bytes_in, name_of, type_of, payload_of, with_checksum};

use crate::field;
use crate::message::Icmpv6Message;
use crate::ndisc_flags::NdiscNeighborFlags;
use crate::packet::Icmpv6Packet;
use wire_address::network_order::{write_u16, write_u32};
use wire_address::{Error, Ipv6Address};

/// A message in a buffer, read and written in place.
#[derive(Debug, Drop)]
pub struct Icmpv6PacketMut<'a> {
    pub(crate) buffer: &'a mut [u8],
}

impl<'a> Icmpv6PacketMut<'a> {
    /// A view of any bytes.
    pub const fn new_unchecked(buffer: &'a mut [u8]) -> Icmpv6PacketMut<'a>
        ensures same_reference { name_of result ≡ buffer.entry.ghost_name }
        ensures bytes { bytes_in result ≡ buffer.old }
    {
        Icmpv6PacketMut { buffer }
    }

    /// A view of bytes that pass `check_len`.
    pub fn new_checked(buffer: &'a mut [u8]) -> Result<Icmpv6PacketMut<'a>, Error>
        ensures whole { IsOk result ↔ IsWhole buffer.old }
        ensures same_reference { IfOk result (λ view. name_of view ≡ buffer.entry.ghost_name) }
        ensures bytes { IfOk result (λ view. bytes_in view ≡ buffer.old) }
    {
        Icmpv6Packet::new_unchecked(buffer).check_len()?;
        Ok(Icmpv6PacketMut { buffer })
    }

    /// The bytes, to be read.
    const fn as_packet(&self) -> Icmpv6Packet
        ensures { bytes_of result ≡ bytes_in self.now }
    {
        Icmpv6Packet::new_unchecked(self.buffer)
    }

    /// Whether the type is a known one and the bytes hold its header.
    pub fn check_len(&self) -> Result<(), Error>
        ensures { IsOk result ↔ IsWhole (bytes_in self.now) }
    {
        self.as_packet().check_len()
    }

    /// The bytes viewed, with all that was written.
    pub const fn into_inner(self) -> &'a mut [u8]
        ensures same_reference { result.ghost_name ≡ name_of self.entry }
        ensures bytes { result.now ≡ bytes_in self.entry }
    {
        self.buffer
    }

    pub fn msg_type(&self) -> Icmpv6Message
        requires { 4 ≤ length (bytes_in self.now) }
        ensures kind { result ≡ type_of (bytes_in self.now) }
        ensures number { message_number result ≡ slice_index (bytes_in self.now) 0 }
    {
        self.as_packet().msg_type()
    }

    pub fn msg_code(&self) -> u8
        requires { 4 ≤ length (bytes_in self.now) }
        ensures { result ≡ slice_index (bytes_in self.now) 1 }
    {
        self.as_packet().msg_code()
    }

    pub fn checksum(&self) -> u16
        requires { 4 ≤ length (bytes_in self.now) }
        ensures { result ≡ be16 (bytes_in self.now) 2 }
    {
        self.as_packet().checksum()
    }

    /// The identifier of an echo message.
    pub fn echo_ident(&self) -> u16
        requires { 8 ≤ length (bytes_in self.now) }
        ensures { result ≡ be16 (bytes_in self.now) 4 }
    {
        self.as_packet().echo_ident()
    }

    /// The sequence number of an echo message.
    pub fn echo_seq_no(&self) -> u16
        requires { 8 ≤ length (bytes_in self.now) }
        ensures { result ≡ be16 (bytes_in self.now) 6 }
    {
        self.as_packet().echo_seq_no()
    }

    /// How long a packet may be, in bytes, for the next link, of packet too big.
    pub fn pkt_too_big_mtu(&self) -> u32
        requires { 8 ≤ length (bytes_in self.now) }
        ensures { result ≡ be32 (bytes_in self.now) 4 }
    {
        self.as_packet().pkt_too_big_mtu()
    }

    /// The offset in the quoted packet, counted from 0, at which a parameter problem was found.
    pub fn param_problem_ptr(&self) -> u32
        requires { 8 ≤ length (bytes_in self.now) }
        ensures { result ≡ be32 (bytes_in self.now) 4 }
    {
        self.as_packet().param_problem_ptr()
    }

    /// The address that a neighbour message is about.
    pub fn target_addr(&self) -> Ipv6Address
        requires { 24 ≤ length (bytes_in self.now) }
        ensures { result.0 ≡ slice_range (bytes_in self.now) 8 24 }
    {
        self.as_packet().target_addr()
    }

    /// The flags of a neighbour advertisement.
    pub fn neighbor_flags(&self) -> NdiscNeighborFlags
        requires { 24 ≤ length (bytes_in self.now) }
        ensures { result ≡ flags_of (slice_index (bytes_in self.now) 4) }
    {
        self.as_packet().neighbor_flags()
    }

    /// The length of the header of a message of this type: 4 where the type isn't known.
    pub fn header_len(&self) -> usize
        requires { 4 ≤ length (bytes_in self.now) }
        ensures { result ≡ header_len_of (type_of (bytes_in self.now)) }
    {
        self.as_packet().header_len()
    }

    /// What stands after the header.
    pub fn payload(&self) -> &[u8]
        requires { IsWhole (bytes_in self.now) }
        ensures { result.now ≡ payload_of (bytes_in self.now) }
    {
        self.as_packet().payload()
    }

    /// Whether the checksum holds.
    pub fn verify_checksum(&self, src_addr: &Ipv6Address, dst_addr: &Ipv6Address) -> bool
        requires { length (bytes_in self.now) < 2 ^ 32 }
        ensures { IsTrue result ↔ IsChecked src_addr.now dst_addr.now (bytes_in self.now) }
    {
        self.as_packet().verify_checksum(src_addr, dst_addr)
    }

    pub fn set_msg_type(&mut self, value: Icmpv6Message)
        requires { 4 ≤ length (bytes_in self.old) }
        ensures same_reference { name_of self.new ≡ name_of self.old }
        ensures bytes { bytes_in self.new ≡ put8 (bytes_in self.old) 0 (message_number value) }
    {
        self.buffer[field::TYPE] = value.into();
    }

    pub fn set_msg_code(&mut self, value: u8)
        requires { 4 ≤ length (bytes_in self.old) }
        ensures same_reference { name_of self.new ≡ name_of self.old }
        ensures bytes { bytes_in self.new ≡ put8 (bytes_in self.old) 1 value }
    {
        self.buffer[field::CODE] = value;
    }

    pub fn set_checksum(&mut self, value: u16)
        requires { 4 ≤ length (bytes_in self.old) }
        ensures same_reference { name_of self.new ≡ name_of self.old }
        ensures bytes { bytes_in self.new ≡ put16 (bytes_in self.old) 2 value }
    {
        write_u16(self.buffer, field::CHECKSUM.start, value);
    }

    /// Clears the four bytes after the checksum, which some messages don't use.
    pub fn clear_reserved(&mut self)
        requires { 8 ≤ length (bytes_in self.old) }
        ensures same_reference { name_of self.new ≡ name_of self.old }
        ensures bytes { bytes_in self.new ≡ put32 (bytes_in self.old) 4 0 }
    {
        write_u32(self.buffer, field::UNUSED.start, 0);
    }

    pub fn set_echo_ident(&mut self, value: u16)
        requires { 8 ≤ length (bytes_in self.old) }
        ensures same_reference { name_of self.new ≡ name_of self.old }
        ensures bytes { bytes_in self.new ≡ put16 (bytes_in self.old) 4 value }
    {
        write_u16(self.buffer, field::ECHO_IDENT.start, value);
    }

    pub fn set_echo_seq_no(&mut self, value: u16)
        requires { 8 ≤ length (bytes_in self.old) }
        ensures same_reference { name_of self.new ≡ name_of self.old }
        ensures bytes { bytes_in self.new ≡ put16 (bytes_in self.old) 6 value }
    {
        write_u16(self.buffer, field::ECHO_SEQNO.start, value);
    }

    pub fn set_pkt_too_big_mtu(&mut self, value: u32)
        requires { 8 ≤ length (bytes_in self.old) }
        ensures same_reference { name_of self.new ≡ name_of self.old }
        ensures bytes { bytes_in self.new ≡ put32 (bytes_in self.old) 4 value }
    {
        write_u32(self.buffer, field::MTU.start, value);
    }

    pub fn set_param_problem_ptr(&mut self, value: u32)
        requires { 8 ≤ length (bytes_in self.old) }
        ensures same_reference { name_of self.new ≡ name_of self.old }
        ensures bytes { bytes_in self.new ≡ put32 (bytes_in self.old) 4 value }
    {
        write_u32(self.buffer, field::POINTER.start, value);
    }

    /// Sets the address that a neighbour message is about.
    pub fn set_target_addr(&mut self, value: Ipv6Address)
        requires { 24 ≤ length (bytes_in self.old) }
        ensures same_reference { name_of self.new ≡ name_of self.old }
        ensures bytes { bytes_in self.new ≡ put_run (bytes_in self.old) 8 16 value.0 }
    {
        put_address(self.buffer, &value.0);
    }

    /// Sets the byte of a neighbour advertisement's flags, with zeros for its other bits.
    pub fn set_neighbor_flags(&mut self, value: NdiscNeighborFlags)
        requires { 24 ≤ length (bytes_in self.old) }
        ensures same_reference { name_of self.new ≡ name_of self.old }
        ensures bytes { bytes_in self.new ≡ put8 (bytes_in self.old) 4 (flag_bits value) }
    {
        self.buffer[field::ND_FLAGS] = value.bits();
    }

    /// Writes the checksum of the message as it stands.
    pub fn fill_checksum(&mut self, src_addr: &Ipv6Address, dst_addr: &Ipv6Address)
        requires room { 4 ≤ length (bytes_in self.old) }
        requires fits { length (bytes_in self.old) < 2 ^ 32 }
        ensures same_reference { name_of self.new ≡ name_of self.old }
        ensures bytes { bytes_in self.new ≡ with_checksum src_addr.now dst_addr.now (bytes_in self.old) }
    {
        self.set_checksum(0);
        let sum = self.as_packet().sum(src_addr, dst_addr);
        self.set_checksum(0xffff - sum);
    }

    /// What stands after the header, to be written.
    pub fn payload_mut(&mut self) -> &mut [u8]
        requires { IsWhole (bytes_in self.old) }
        ensures { result.now ≡ payload_of (bytes_in self.old) }
    {
        let start = self.header_len();
        let (_header, payload) = self.buffer.split_at_mut(start);
        payload
    }
}

/// Writes the target's address.
fn put_address(bytes: &mut [u8], from: &[u8; 16])
    requires { 24 ≤ length bytes.old }
    ensures { bytes.new ≡ put_run bytes.old 8 16 from.now }
{
    let offset = field::TARGET_ADDR;
    bytes[offset.start..offset.end].copy_from_slice(from);
}
