//! A TCP segment in a buffer, read in place.
ghost use Rattle.std.specs.Prelude.{◌≡◌, ◌==◌, ◌↔◌, ℕ, ◌+◌, ◌-◌, ◌*◌, ◌/◌, ◌%◌, ◌<◌, ◌≤◌, ◌^◌, Bool, IsTrue, IsOk, IfOk, List, length, drop, slice_index};
ghost use Rattle.std.specs.Prelude.{slice_range, if◌then◌else◌};
ghost use Rattle.wire_address.specs.Address.{version_of};
ghost use Rattle.wire_address.specs.Fields.{be16, be32};
ghost use Rattle.wire_address.specs.Sum.{folded};
ghost use Rattle.wire_address.specs.Pseudo.{covered};
ghost use Rattle.wire_tcp.specs.Tcp.{IsWhole, IsChecked, HasOptions, bytes_of, flag, header_len_of, options_of, payload_of, sequence_len};
ghost use Rattle.wire_tcp.specs.declared.option.TcpOptions.{TcpOptions};

use crate::field;
use crate::option::TcpOptions;
use wire_address::network_order::{read_u16, read_u32};
use wire_address::{Error, IpAddress, IpProtocol, SeqNumber, checksum};

/// A segment in a buffer, read in place. The getters ask for the fixed fields, which `check_len`
/// tests with the header's length.
#[derive(Clone, Copy, Debug)]
pub struct TcpPacket<'a> {
    buffer: &'a [u8],
}

impl<'a> TcpPacket<'a> {
    /// A view of any bytes.
    pub const fn new_unchecked(buffer: &'a [u8]) -> TcpPacket<'a>
        ensures { bytes_of result ≡ buffer.now }
    {
        TcpPacket { buffer }
    }

    /// A view of bytes that pass `check_len`.
    pub fn new_checked(buffer: &'a [u8]) -> Result<TcpPacket<'a>, Error>
        ensures whole { IsOk result ↔ IsWhole buffer.now }
        ensures bytes { IfOk result (λ view. bytes_of view ≡ buffer.now) }
    {
        let packet = TcpPacket::new_unchecked(buffer);
        packet.check_len()?;
        Ok(packet)
    }

    /// Whether the fixed fields are there, and the header's length fits them and the bytes.
    pub fn check_len(&self) -> Result<(), Error>
        ensures { IsOk result ↔ IsWhole (bytes_of self.now) }
    {
        if self.buffer.len() < field::HEADER_LEN {
            return Err(Error);
        }
        let header_len = self.header_len() as usize;
        if header_len < field::HEADER_LEN || header_len > self.buffer.len() {
            return Err(Error);
        }
        Ok(())
    }

    /// The bytes viewed.
    pub const fn into_inner(self) -> &'a [u8]
        ensures { result.now ≡ bytes_of self.entry }
    {
        self.buffer
    }

    pub fn src_port(&self) -> u16
        requires { 20 ≤ length (bytes_of self.now) }
        ensures { result ≡ be16 (bytes_of self.now) 0 }
    {
        read_u16(self.buffer, field::SRC_PORT.start)
    }

    pub fn dst_port(&self) -> u16
        requires { 20 ≤ length (bytes_of self.now) }
        ensures { result ≡ be16 (bytes_of self.now) 2 }
    {
        read_u16(self.buffer, field::DST_PORT.start)
    }

    pub fn seq_number(&self) -> SeqNumber
        requires { 20 ≤ length (bytes_of self.now) }
        ensures { result ≡ record { 0 = be32 (bytes_of self.now) 4 } }
    {
        SeqNumber(read_u32(self.buffer, field::SEQ_NUM.start))
    }

    /// The acknowledgement number, which counts where `ack` is set.
    pub fn ack_number(&self) -> SeqNumber
        requires { 20 ≤ length (bytes_of self.now) }
        ensures { result ≡ record { 0 = be32 (bytes_of self.now) 8 } }
    {
        SeqNumber(read_u32(self.buffer, field::ACK_NUM.start))
    }

    /// No more data comes from the sender.
    pub fn fin(&self) -> bool
        requires { 20 ≤ length (bytes_of self.now) }
        ensures { result ≡ flag (bytes_of self.now) 13 1 }
    {
        self.buffer[field::FLAGS.start + 1] & 1 == 1
    }

    /// The sequence numbers are synchronised.
    pub fn syn(&self) -> bool
        requires { 20 ≤ length (bytes_of self.now) }
        ensures { result ≡ flag (bytes_of self.now) 13 2 }
    {
        (self.buffer[field::FLAGS.start + 1] >> 1) & 1 == 1
    }

    /// The connection is reset.
    pub fn rst(&self) -> bool
        requires { 20 ≤ length (bytes_of self.now) }
        ensures { result ≡ flag (bytes_of self.now) 13 4 }
    {
        (self.buffer[field::FLAGS.start + 1] >> 2) & 1 == 1
    }

    /// The data is to be pushed to the receiver.
    pub fn psh(&self) -> bool
        requires { 20 ≤ length (bytes_of self.now) }
        ensures { result ≡ flag (bytes_of self.now) 13 8 }
    {
        (self.buffer[field::FLAGS.start + 1] >> 3) & 1 == 1
    }

    /// The acknowledgement number counts.
    pub fn ack(&self) -> bool
        requires { 20 ≤ length (bytes_of self.now) }
        ensures { result ≡ flag (bytes_of self.now) 13 16 }
    {
        (self.buffer[field::FLAGS.start + 1] >> 4) & 1 == 1
    }

    /// The urgent pointer counts.
    pub fn urg(&self) -> bool
        requires { 20 ≤ length (bytes_of self.now) }
        ensures { result ≡ flag (bytes_of self.now) 13 32 }
    {
        (self.buffer[field::FLAGS.start + 1] >> 5) & 1 == 1
    }

    /// An echo of congestion (RFC 3168).
    pub fn ece(&self) -> bool
        requires { 20 ≤ length (bytes_of self.now) }
        ensures { result ≡ flag (bytes_of self.now) 13 64 }
    {
        (self.buffer[field::FLAGS.start + 1] >> 6) & 1 == 1
    }

    /// The congestion window was reduced (RFC 3168).
    pub fn cwr(&self) -> bool
        requires { 20 ≤ length (bytes_of self.now) }
        ensures { result ≡ flag (bytes_of self.now) 13 128 }
    {
        (self.buffer[field::FLAGS.start + 1] >> 7) & 1 == 1
    }

    /// The nonce sum (RFC 3540).
    pub fn ns(&self) -> bool
        requires { 20 ≤ length (bytes_of self.now) }
        ensures { result ≡ flag (bytes_of self.now) 12 1 }
    {
        self.buffer[field::FLAGS.start] & 1 == 1
    }

    /// The length of the header with its options, in bytes.
    pub fn header_len(&self) -> u8
        requires { 20 ≤ length (bytes_of self.now) }
        ensures { result ≡ header_len_of (bytes_of self.now) }
    {
        (self.buffer[field::FLAGS.start] >> 4) * 4
    }

    /// The window field, not scaled.
    pub fn window_len(&self) -> u16
        requires { 20 ≤ length (bytes_of self.now) }
        ensures { result ≡ be16 (bytes_of self.now) 14 }
    {
        read_u16(self.buffer, field::WIN_SIZE.start)
    }

    pub fn checksum(&self) -> u16
        requires { 20 ≤ length (bytes_of self.now) }
        ensures { result ≡ be16 (bytes_of self.now) 16 }
    {
        read_u16(self.buffer, field::CHECKSUM.start)
    }

    /// The urgent pointer, which counts where `urg` is set.
    pub fn urgent_at(&self) -> u16
        requires { 20 ≤ length (bytes_of self.now) }
        ensures { result ≡ be16 (bytes_of self.now) 18 }
    {
        read_u16(self.buffer, field::URGENT.start)
    }

    /// How many sequence numbers the segment takes: its payload, and one each for SYN and FIN.
    pub fn segment_len(&self) -> usize
        requires whole { IsWhole (bytes_of self.now) }
        requires fits { length (bytes_of self.now) < 2 ^ 62 }
        ensures { result ≡ sequence_len (bytes_of self.now) }
    {
        let mut length = self.buffer.len() - self.header_len() as usize;
        if self.syn() {
            length += 1;
        }
        if self.fin() {
            length += 1;
        }
        length
    }

    /// Whether the options permit selective acknowledgement (RFC 2018, section 2). An error says
    /// that the options are malformed.
    pub fn selective_ack_permitted(&self) -> Result<bool, Error>
        requires { IsWhole (bytes_of self.now) }
        ensures found { IfOk result
            (λ permitted. (v : TcpOptions) × HasOptions (bytes_of self.now) v
            × (permitted ≡ v.sack_permitted)) }
        ensures only { (v : TcpOptions) → HasOptions (bytes_of self.now) v
            → result ≡ Ok v.sack_permitted }
    {
        let options = TcpOptions::parse(self.options())?;
        Ok(options.sack_permitted)
    }

    /// The ranges of the options (RFC 2018, section 3), up to three, none where there is no such
    /// option. An error says that the options are malformed.
    pub fn selective_ack_ranges(&self) -> Result<[Option<(u32, u32)>; 3], Error>
        requires { IsWhole (bytes_of self.now) }
        ensures found { IfOk result
            (λ ranges. (v : TcpOptions) × HasOptions (bytes_of self.now) v
            × (ranges ≡ v.sack_ranges)) }
        ensures only { (v : TcpOptions) → HasOptions (bytes_of self.now) v
            → result ≡ Ok v.sack_ranges }
    {
        let options = TcpOptions::parse(self.options())?;
        Ok(options.sack_ranges)
    }

    /// The options, with what is after their end.
    pub fn options(&self) -> &'a [u8]
        requires { IsWhole (bytes_of self.now) }
        ensures { result.now ≡ options_of (bytes_of self.now) }
    {
        &self.buffer[field::HEADER_LEN..self.header_len() as usize]
    }

    /// What the segment carries.
    pub fn payload(&self) -> &'a [u8]
        requires { IsWhole (bytes_of self.now) }
        ensures { result.now ≡ payload_of (bytes_of self.now) }
    {
        let (_header, payload) = self.buffer.split_at(self.header_len() as usize);
        payload
    }

    /// The sum of all that the checksum covers, itself included, not complemented.
    pub(crate) fn sum(&self, source: &IpAddress, destination: &IpAddress) -> u16
        requires family { version_of source.now ≡ version_of destination.now }
        requires fits { length (bytes_of self.now) < 2 ^ 16 }
        ensures { result ≡ folded (covered source.now destination.now 6 (bytes_of self.now)) }
    {
        let length = self.buffer.len() as u32;
        let header = checksum::pseudo_header(source, destination, IpProtocol::Tcp, length);
        checksum::combine(&[header, checksum::data(self.buffer)])
    }

    /// Whether the checksum holds.
    pub fn verify_checksum(&self, source: &IpAddress, destination: &IpAddress) -> bool
        requires family { version_of source.now ≡ version_of destination.now }
        requires fits { length (bytes_of self.now) < 2 ^ 16 }
        ensures { IsTrue result ↔ IsChecked source.now destination.now (bytes_of self.now) }
    {
        self.sum(source, destination) == 0xffff
    }
}
