//! A message in a buffer, read in place.
ghost use Rattle.std.specs.Prelude.{◌≡◌, ◌↔◌, ◌==◌, ℕ, ◌+◌, ◌/◌, ◌%◌, ◌<◌, ◌≤◌, Bool, IsTrue, IsOk, IfOk, List, length, drop, slice_index, slice_range, None};
ghost use Rattle.wire_address.specs.Fields.{be16, be32};
ghost use Rattle.wire_dhcp.specs.Options.{seen, is_area, options_in, last_of};
ghost use Rattle.wire_dhcp.specs.Packet.{IsWhole, bytes_of, overload_number, overload_of, file_area, sname_area, option_of};

use crate::area::last_option;
use crate::field;
use wire_address::network_order::{read_u16, read_u32};
use wire_address::{Error, EthernetAddress, Ipv4Address};

/// A message in a buffer, read in place.
#[derive(Clone, Copy, Debug)]
pub struct DhcpPacket<'a> {
    buffer: &'a [u8],
}

impl<'a> DhcpPacket<'a> {
    /// A view of any bytes.
    pub const fn new_unchecked(buffer: &'a [u8]) -> DhcpPacket<'a>
        ensures { bytes_of result ≡ buffer.now }
    {
        DhcpPacket { buffer }
    }

    /// A view of bytes that pass `check_len`.
    pub fn new_checked(buffer: &'a [u8]) -> Result<DhcpPacket<'a>, Error>
        ensures whole { IsOk result ↔ IsWhole buffer.now }
        ensures bytes { IfOk result (λ view. bytes_of view ≡ buffer.now) }
    {
        let packet = DhcpPacket::new_unchecked(buffer);
        packet.check_len()?;
        Ok(packet)
    }

    /// Whether the fixed fields are there, and no option is cut.
    pub fn check_len(&self) -> Result<(), Error>
        ensures { IsOk result ↔ IsWhole (bytes_of self.now) }
    {
        if self.buffer.len() < field::HEADER_LEN {
            return Err(Error);
        }
        let (_fixed, options) = self.buffer.split_at(field::HEADER_LEN);
        let overload = overload_number(last_option(None, options, field::OPT_OPTION_OVERLOAD)?);
        if overload > 3 {
            return Err(Error);
        }
        last_option(None, file_area(self.buffer, overload), field::OPT_PAD)?;
        last_option(None, sname_area(self.buffer, overload), field::OPT_PAD)?;
        Ok(())
    }

    /// The bytes viewed.
    pub const fn into_inner(self) -> &'a [u8]
        ensures { result.now ≡ bytes_of self.entry }
    {
        self.buffer
    }

    /// Who speaks: 1 for a client, 2 for a server.
    pub fn opcode(&self) -> u8
        requires { 240 ≤ length (bytes_of self.now) }
        ensures { result ≡ slice_index (bytes_of self.now) 0 }
    {
        self.buffer[field::OP]
    }

    pub fn hardware_type(&self) -> u8
        requires { 240 ≤ length (bytes_of self.now) }
        ensures { result ≡ slice_index (bytes_of self.now) 1 }
    {
        self.buffer[field::HTYPE]
    }

    pub fn hardware_len(&self) -> u8
        requires { 240 ≤ length (bytes_of self.now) }
        ensures { result ≡ slice_index (bytes_of self.now) 2 }
    {
        self.buffer[field::HLEN]
    }

    /// The number by which a client knows the answers to its own messages.
    pub fn transaction_id(&self) -> u32
        requires { 240 ≤ length (bytes_of self.now) }
        ensures { result ≡ be32 (bytes_of self.now) 4 }
    {
        read_u32(self.buffer, field::XID.start)
    }

    /// The seconds since the client began.
    pub fn secs(&self) -> u16
        requires { 240 ≤ length (bytes_of self.now) }
        ensures { result ≡ be16 (bytes_of self.now) 8 }
    {
        read_u16(self.buffer, field::SECS.start)
    }

    /// Whether answers are to be broadcast. The other flags aren't looked at.
    pub fn is_broadcast(&self) -> bool
        requires { 240 ≤ length (bytes_of self.now) }
        ensures { result ≡ (slice_index (bytes_of self.now) 10 / 128 % 2 == 1) }
    {
        (self.buffer[field::FLAGS.start] >> 7) & 1 == 1
    }

    /// The client's address, where it has one that it answers to.
    pub fn client_ip(&self) -> Ipv4Address
        requires { 240 ≤ length (bytes_of self.now) }
        ensures { result.0 ≡ slice_range (bytes_of self.now) 12 16 }
    {
        address_at(self.buffer, field::CIADDR.start)
    }

    /// The address that the server gives.
    pub fn your_ip(&self) -> Ipv4Address
        requires { 240 ≤ length (bytes_of self.now) }
        ensures { result.0 ≡ slice_range (bytes_of self.now) 16 20 }
    {
        address_at(self.buffer, field::YIADDR.start)
    }

    /// The server to boot from next.
    pub fn server_ip(&self) -> Ipv4Address
        requires { 240 ≤ length (bytes_of self.now) }
        ensures { result.0 ≡ slice_range (bytes_of self.now) 20 24 }
    {
        address_at(self.buffer, field::SIADDR.start)
    }

    /// The agent that passes the message on.
    pub fn relay_agent_ip(&self) -> Ipv4Address
        requires { 240 ≤ length (bytes_of self.now) }
        ensures { result.0 ≡ slice_range (bytes_of self.now) 24 28 }
    {
        address_at(self.buffer, field::GIADDR.start)
    }

    /// The client's hardware address, read as one of Ethernet.
    pub fn client_hardware_address(&self) -> EthernetAddress
        requires { 240 ≤ length (bytes_of self.now) }
        ensures { result.0 ≡ slice_range (bytes_of self.now) 28 34 }
    {
        EthernetAddress::from_bytes(&self.buffer[field::CHADDR])
    }

    pub fn magic_number(&self) -> u32
        requires { 240 ≤ length (bytes_of self.now) }
        ensures { result ≡ be32 (bytes_of self.now) 236 }
    {
        read_u32(self.buffer, field::MAGIC_NUMBER.start)
    }

    /// What is inside the last option of a code: the options field is read first, then the fields
    /// that the overload option gives over.
    pub fn option(&self, kind: u8) -> Option<&'a [u8]>
        requires { IsWhole (bytes_of self.now) }
        ensures { seen result ≡ option_of kind (bytes_of self.now) }
    {
        let (_fixed, options) = self.buffer.split_at(field::HEADER_LEN);
        let overload = overload_number(last_whole(None, options, field::OPT_OPTION_OVERLOAD));
        let found = last_whole(None, options, kind);
        let found = last_whole(found, file_area(self.buffer, overload), kind);
        last_whole(found, sname_area(self.buffer, overload), kind)
    }
}

/// The address of the four bytes at `at`.
fn address_at(bytes: &[u8], at: usize) -> Ipv4Address
    requires { at + 4 ≤ length bytes.now }
    ensures { result.0 ≡ slice_range bytes.now at (at + 4) }
{
    let mut octets = [0; 4];
    octets.copy_from_slice(&bytes[at..at + 4]);
    Ipv4Address(octets)
}

/// `last_option` of an area with no option that is cut.
fn last_whole<'a>(elsewhere: Option<&'a [u8]>, area: &'a [u8], kind: u8) -> Option<&'a [u8]>
    requires { IsTrue (is_area 0 area.now) }
    ensures { seen result ≡ last_of kind (seen elsewhere.entry) (options_in 0 area.now) }
{
    match last_option(elsewhere, area, kind) {
        Ok(found) => found,
        Err(_) => elsewhere,
    }
}

/// What an overload option says, if there is one: 4 where it isn't one byte.
fn overload_number(option: Option<&[u8]>) -> u8
    ensures { result ≡ overload_number (seen option.entry) }
{
    match option {
        None => 0,
        Some([number]) => *number,
        Some(_) => 4,
    }
}

/// The options in the field of the file.
fn file_area(bytes: &[u8], overload: u8) -> &[u8]
    requires { 236 ≤ length bytes.now }
    ensures { result.now ≡ file_area overload bytes.now }
{
    if overload == 1 || overload == 3 {
        &bytes[field::FILE]
    } else {
        &[]
    }
}

/// The options in the field of the server's name.
fn sname_area(bytes: &[u8], overload: u8) -> &[u8]
    requires { 236 ≤ length bytes.now }
    ensures { result.now ≡ sname_area overload bytes.now }
{
    if overload == 2 || overload == 3 {
        &bytes[field::SNAME]
    } else {
        &[]
    }
}
