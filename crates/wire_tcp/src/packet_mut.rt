//! A TCP segment in a buffer, read and written in place.
ghost use Rattle.std.specs.Prelude.{◌≡◌, ◌==◌, ◌↔◌, ℕ, ◌+◌, ◌-◌, ◌*◌, ◌/◌, ◌%◌, ◌<◌, ◌≤◌, ◌^◌, Bool, IsTrue, IsOk, IfOk, List, length, drop, slice_index};
ghost use Rattle.std.specs.Prelude.{slice_range, if◌then◌else◌};
ghost use Rattle.wire_address.specs.Address.{version_of};
ghost use Rattle.wire_address.specs.Fields.{be16, be32, put8, put16, put32};
ghost use Rattle.wire_address.specs.Sum.{folded};
ghost use Rattle.wire_address.specs.Pseudo.{covered};
ghost use Rattle.wire_tcp.specs.Tcp.{IsWhole, IsChecked, HasOptions, bytes_in, name_of, flag, put_flag, header_len_of, options_of, payload_of, sequence_len};
ghost use Rattle.wire_tcp.specs.Tcp.{with_checksum};
ghost use Rattle.wire_tcp.specs.declared.option.TcpOptions.{TcpOptions};

use crate::field;
use crate::packet::TcpPacket;
use wire_address::network_order::{write_u16, write_u32};
use wire_address::{Error, IpAddress, SeqNumber};

/// A segment in a buffer, read and written in place. A setter changes the bits of its field alone.
#[derive(Debug, Drop)]
pub struct TcpPacketMut<'a> {
    pub(crate) buffer: &'a mut [u8],
}

impl<'a> TcpPacketMut<'a> {
    /// A view of any bytes.
    pub const fn new_unchecked(buffer: &'a mut [u8]) -> TcpPacketMut<'a>
        ensures same_reference { name_of result ≡ buffer.entry.ghost_name }
        ensures bytes { bytes_in result ≡ buffer.old }
    {
        TcpPacketMut { buffer }
    }

    /// A view of bytes that pass `check_len`.
    pub fn new_checked(buffer: &'a mut [u8]) -> Result<TcpPacketMut<'a>, Error>
        ensures whole { IsOk result ↔ IsWhole buffer.old }
        ensures same_reference { IfOk result (λ view. name_of view ≡ buffer.entry.ghost_name) }
        ensures bytes { IfOk result (λ view. bytes_in view ≡ buffer.old) }
    {
        TcpPacket::new_unchecked(buffer).check_len()?;
        Ok(TcpPacketMut { buffer })
    }

    /// Whether the fixed fields are there, and the header's length fits them and the bytes.
    pub fn check_len(&self) -> Result<(), Error>
        ensures { IsOk result ↔ IsWhole (bytes_in self.now) }
    {
        TcpPacket::new_unchecked(self.buffer).check_len()
    }

    /// The bytes viewed, with all that was written.
    pub const fn into_inner(self) -> &'a mut [u8]
        ensures same_reference { result.ghost_name ≡ name_of self.entry }
        ensures bytes { result.now ≡ bytes_in self.entry }
    {
        self.buffer
    }

    pub fn src_port(&self) -> u16
        requires { 20 ≤ length (bytes_in self.now) }
        ensures { result ≡ be16 (bytes_in self.now) 0 }
    {
        TcpPacket::new_unchecked(self.buffer).src_port()
    }

    pub fn dst_port(&self) -> u16
        requires { 20 ≤ length (bytes_in self.now) }
        ensures { result ≡ be16 (bytes_in self.now) 2 }
    {
        TcpPacket::new_unchecked(self.buffer).dst_port()
    }

    pub fn seq_number(&self) -> SeqNumber
        requires { 20 ≤ length (bytes_in self.now) }
        ensures { result ≡ record { 0 = be32 (bytes_in self.now) 4 } }
    {
        TcpPacket::new_unchecked(self.buffer).seq_number()
    }

    /// The acknowledgement number, which counts where `ack` is set.
    pub fn ack_number(&self) -> SeqNumber
        requires { 20 ≤ length (bytes_in self.now) }
        ensures { result ≡ record { 0 = be32 (bytes_in self.now) 8 } }
    {
        TcpPacket::new_unchecked(self.buffer).ack_number()
    }

    /// No more data comes from the sender.
    pub fn fin(&self) -> bool
        requires { 20 ≤ length (bytes_in self.now) }
        ensures { result ≡ flag (bytes_in self.now) 13 1 }
    {
        TcpPacket::new_unchecked(self.buffer).fin()
    }

    /// The sequence numbers are synchronised.
    pub fn syn(&self) -> bool
        requires { 20 ≤ length (bytes_in self.now) }
        ensures { result ≡ flag (bytes_in self.now) 13 2 }
    {
        TcpPacket::new_unchecked(self.buffer).syn()
    }

    /// The connection is reset.
    pub fn rst(&self) -> bool
        requires { 20 ≤ length (bytes_in self.now) }
        ensures { result ≡ flag (bytes_in self.now) 13 4 }
    {
        TcpPacket::new_unchecked(self.buffer).rst()
    }

    /// The data is to be pushed to the receiver.
    pub fn psh(&self) -> bool
        requires { 20 ≤ length (bytes_in self.now) }
        ensures { result ≡ flag (bytes_in self.now) 13 8 }
    {
        TcpPacket::new_unchecked(self.buffer).psh()
    }

    /// The acknowledgement number counts.
    pub fn ack(&self) -> bool
        requires { 20 ≤ length (bytes_in self.now) }
        ensures { result ≡ flag (bytes_in self.now) 13 16 }
    {
        TcpPacket::new_unchecked(self.buffer).ack()
    }

    /// The urgent pointer counts.
    pub fn urg(&self) -> bool
        requires { 20 ≤ length (bytes_in self.now) }
        ensures { result ≡ flag (bytes_in self.now) 13 32 }
    {
        TcpPacket::new_unchecked(self.buffer).urg()
    }

    /// An echo of congestion (RFC 3168).
    pub fn ece(&self) -> bool
        requires { 20 ≤ length (bytes_in self.now) }
        ensures { result ≡ flag (bytes_in self.now) 13 64 }
    {
        TcpPacket::new_unchecked(self.buffer).ece()
    }

    /// The congestion window was reduced (RFC 3168).
    pub fn cwr(&self) -> bool
        requires { 20 ≤ length (bytes_in self.now) }
        ensures { result ≡ flag (bytes_in self.now) 13 128 }
    {
        TcpPacket::new_unchecked(self.buffer).cwr()
    }

    /// The nonce sum (RFC 3540).
    pub fn ns(&self) -> bool
        requires { 20 ≤ length (bytes_in self.now) }
        ensures { result ≡ flag (bytes_in self.now) 12 1 }
    {
        TcpPacket::new_unchecked(self.buffer).ns()
    }

    /// The length of the header with its options, in bytes.
    pub fn header_len(&self) -> u8
        requires { 20 ≤ length (bytes_in self.now) }
        ensures { result ≡ header_len_of (bytes_in self.now) }
    {
        TcpPacket::new_unchecked(self.buffer).header_len()
    }

    /// The window field, not scaled.
    pub fn window_len(&self) -> u16
        requires { 20 ≤ length (bytes_in self.now) }
        ensures { result ≡ be16 (bytes_in self.now) 14 }
    {
        TcpPacket::new_unchecked(self.buffer).window_len()
    }

    pub fn checksum(&self) -> u16
        requires { 20 ≤ length (bytes_in self.now) }
        ensures { result ≡ be16 (bytes_in self.now) 16 }
    {
        TcpPacket::new_unchecked(self.buffer).checksum()
    }

    /// The urgent pointer, which counts where `urg` is set.
    pub fn urgent_at(&self) -> u16
        requires { 20 ≤ length (bytes_in self.now) }
        ensures { result ≡ be16 (bytes_in self.now) 18 }
    {
        TcpPacket::new_unchecked(self.buffer).urgent_at()
    }

    /// How many sequence numbers the segment takes: its payload, and one each for SYN and FIN.
    pub fn segment_len(&self) -> usize
        requires whole { IsWhole (bytes_in self.now) }
        requires fits { length (bytes_in self.now) < 2 ^ 62 }
        ensures { result ≡ sequence_len (bytes_in self.now) }
    {
        TcpPacket::new_unchecked(self.buffer).segment_len()
    }

    /// Whether the options permit selective acknowledgement (RFC 2018, section 2). An error says
    /// that the options are malformed.
    pub fn selective_ack_permitted(&self) -> Result<bool, Error>
        requires { IsWhole (bytes_in self.now) }
        ensures found { IfOk result
            (λ permitted. (v : TcpOptions) × HasOptions (bytes_in self.now) v
            × (permitted ≡ v.sack_permitted)) }
        ensures only { (v : TcpOptions) → HasOptions (bytes_in self.now) v
            → result ≡ Ok v.sack_permitted }
    {
        TcpPacket::new_unchecked(self.buffer).selective_ack_permitted()
    }

    /// The ranges of the options (RFC 2018, section 3), up to three, none where there is no such
    /// option. An error says that the options are malformed.
    pub fn selective_ack_ranges(&self) -> Result<[Option<(u32, u32)>; 3], Error>
        requires { IsWhole (bytes_in self.now) }
        ensures found { IfOk result
            (λ ranges. (v : TcpOptions) × HasOptions (bytes_in self.now) v
            × (ranges ≡ v.sack_ranges)) }
        ensures only { (v : TcpOptions) → HasOptions (bytes_in self.now) v
            → result ≡ Ok v.sack_ranges }
    {
        TcpPacket::new_unchecked(self.buffer).selective_ack_ranges()
    }

    /// The options, with what is after their end.
    pub fn options(&self) -> &[u8]
        requires { IsWhole (bytes_in self.now) }
        ensures { result.now ≡ options_of (bytes_in self.now) }
    {
        TcpPacket::new_unchecked(self.buffer).options()
    }

    /// What the segment carries.
    pub fn payload(&self) -> &[u8]
        requires { IsWhole (bytes_in self.now) }
        ensures { result.now ≡ payload_of (bytes_in self.now) }
    {
        TcpPacket::new_unchecked(self.buffer).payload()
    }

    /// The sum of all that the checksum covers, itself included, not complemented.
    fn sum(&self, source: &IpAddress, destination: &IpAddress) -> u16
        requires family { version_of source.now ≡ version_of destination.now }
        requires fits { length (bytes_in self.now) < 2 ^ 16 }
        ensures { result ≡ folded (covered source.now destination.now 6 (bytes_in self.now)) }
    {
        TcpPacket::new_unchecked(self.buffer).sum(source, destination)
    }

    /// Whether the checksum holds.
    pub fn verify_checksum(&self, source: &IpAddress, destination: &IpAddress) -> bool
        requires family { version_of source.now ≡ version_of destination.now }
        requires fits { length (bytes_in self.now) < 2 ^ 16 }
        ensures { IsTrue result ↔ IsChecked source.now destination.now (bytes_in self.now) }
    {
        TcpPacket::new_unchecked(self.buffer).verify_checksum(source, destination)
    }

    pub fn set_src_port(&mut self, value: u16)
        requires { 20 ≤ length (bytes_in self.old) }
        ensures same_reference { name_of self.new ≡ name_of self.old }
        ensures bytes { bytes_in self.new ≡ put16 (bytes_in self.old) 0 value }
    {
        write_u16(self.buffer, field::SRC_PORT.start, value);
    }

    pub fn set_dst_port(&mut self, value: u16)
        requires { 20 ≤ length (bytes_in self.old) }
        ensures same_reference { name_of self.new ≡ name_of self.old }
        ensures bytes { bytes_in self.new ≡ put16 (bytes_in self.old) 2 value }
    {
        write_u16(self.buffer, field::DST_PORT.start, value);
    }

    pub fn set_seq_number(&mut self, value: SeqNumber)
        requires { 20 ≤ length (bytes_in self.old) }
        ensures same_reference { name_of self.new ≡ name_of self.old }
        ensures bytes { bytes_in self.new ≡ put32 (bytes_in self.old) 4 value.0 }
    {
        write_u32(self.buffer, field::SEQ_NUM.start, value.0);
    }

    pub fn set_ack_number(&mut self, value: SeqNumber)
        requires { 20 ≤ length (bytes_in self.old) }
        ensures same_reference { name_of self.new ≡ name_of self.old }
        ensures bytes { bytes_in self.new ≡ put32 (bytes_in self.old) 8 value.0 }
    {
        write_u32(self.buffer, field::ACK_NUM.start, value.0);
    }

    /// Clears all flags and the reserved bits.
    pub fn clear_flags(&mut self)
        requires { 20 ≤ length (bytes_in self.old) }
        ensures same_reference { name_of self.new ≡ name_of self.old }
        ensures bytes { bytes_in self.new
            ≡ put8 (put8 (bytes_in self.old) 12 (slice_index (bytes_in self.old) 12 / 16 * 16)) 13 0 }
    {
        let old = self.buffer[field::FLAGS.start];
        self.buffer[field::FLAGS.start] = (old >> 4) << 4;
        self.buffer[field::FLAGS.start + 1] = 0;
    }

    pub fn set_fin(&mut self, value: bool)
        requires { 20 ≤ length (bytes_in self.old) }
        ensures same_reference { name_of self.new ≡ name_of self.old }
        ensures bytes { bytes_in self.new ≡ put_flag (bytes_in self.old) 13 1 value }
    {
        let old = self.buffer[field::FLAGS.start + 1];
        self.buffer[field::FLAGS.start + 1] = ((old >> 1) << 1) + weight(value, 0x01);
    }

    pub fn set_syn(&mut self, value: bool)
        requires { 20 ≤ length (bytes_in self.old) }
        ensures same_reference { name_of self.new ≡ name_of self.old }
        ensures bytes { bytes_in self.new ≡ put_flag (bytes_in self.old) 13 2 value }
    {
        let old = self.buffer[field::FLAGS.start + 1];
        self.buffer[field::FLAGS.start + 1] = ((old >> 2) << 2)
            + weight(value, 0x02)
            + (old & 0x01);
    }

    pub fn set_rst(&mut self, value: bool)
        requires { 20 ≤ length (bytes_in self.old) }
        ensures same_reference { name_of self.new ≡ name_of self.old }
        ensures bytes { bytes_in self.new ≡ put_flag (bytes_in self.old) 13 4 value }
    {
        let old = self.buffer[field::FLAGS.start + 1];
        self.buffer[field::FLAGS.start + 1] = ((old >> 3) << 3)
            + weight(value, 0x04)
            + (old & 0x03);
    }

    pub fn set_psh(&mut self, value: bool)
        requires { 20 ≤ length (bytes_in self.old) }
        ensures same_reference { name_of self.new ≡ name_of self.old }
        ensures bytes { bytes_in self.new ≡ put_flag (bytes_in self.old) 13 8 value }
    {
        let old = self.buffer[field::FLAGS.start + 1];
        self.buffer[field::FLAGS.start + 1] = ((old >> 4) << 4)
            + weight(value, 0x08)
            + (old & 0x07);
    }

    pub fn set_ack(&mut self, value: bool)
        requires { 20 ≤ length (bytes_in self.old) }
        ensures same_reference { name_of self.new ≡ name_of self.old }
        ensures bytes { bytes_in self.new ≡ put_flag (bytes_in self.old) 13 16 value }
    {
        let old = self.buffer[field::FLAGS.start + 1];
        self.buffer[field::FLAGS.start + 1] = ((old >> 5) << 5)
            + weight(value, 0x10)
            + (old & 0x0f);
    }

    pub fn set_urg(&mut self, value: bool)
        requires { 20 ≤ length (bytes_in self.old) }
        ensures same_reference { name_of self.new ≡ name_of self.old }
        ensures bytes { bytes_in self.new ≡ put_flag (bytes_in self.old) 13 32 value }
    {
        let old = self.buffer[field::FLAGS.start + 1];
        self.buffer[field::FLAGS.start + 1] = ((old >> 6) << 6)
            + weight(value, 0x20)
            + (old & 0x1f);
    }

    pub fn set_ece(&mut self, value: bool)
        requires { 20 ≤ length (bytes_in self.old) }
        ensures same_reference { name_of self.new ≡ name_of self.old }
        ensures bytes { bytes_in self.new ≡ put_flag (bytes_in self.old) 13 64 value }
    {
        let old = self.buffer[field::FLAGS.start + 1];
        self.buffer[field::FLAGS.start + 1] = ((old >> 7) << 7)
            + weight(value, 0x40)
            + (old & 0x3f);
    }

    pub fn set_cwr(&mut self, value: bool)
        requires { 20 ≤ length (bytes_in self.old) }
        ensures same_reference { name_of self.new ≡ name_of self.old }
        ensures bytes { bytes_in self.new ≡ put_flag (bytes_in self.old) 13 128 value }
    {
        let old = self.buffer[field::FLAGS.start + 1];
        self.buffer[field::FLAGS.start + 1] = weight(value, 0x80) + (old & 0x7f);
    }

    pub fn set_ns(&mut self, value: bool)
        requires { 20 ≤ length (bytes_in self.old) }
        ensures same_reference { name_of self.new ≡ name_of self.old }
        ensures bytes { bytes_in self.new ≡ put_flag (bytes_in self.old) 12 1 value }
    {
        let old = self.buffer[field::FLAGS.start];
        self.buffer[field::FLAGS.start] = ((old >> 1) << 1) + weight(value, 0x01);
    }

    /// Sets the length of the header with its options, in bytes, cut to a multiple of four.
    pub fn set_header_len(&mut self, value: u8)
        requires { 20 ≤ length (bytes_in self.old) }
        ensures same_reference { name_of self.new ≡ name_of self.old }
        ensures bytes { bytes_in self.new
            ≡ put8 (bytes_in self.old) 12 (value / 4 % 16 * 16 + slice_index (bytes_in self.old) 12 % 16) }
    {
        let old = self.buffer[field::FLAGS.start];
        self.buffer[field::FLAGS.start] = (((value >> 2) & 0x0f) << 4) + (old & 0x0f);
    }

    /// Sets the window field, not scaled.
    pub fn set_window_len(&mut self, value: u16)
        requires { 20 ≤ length (bytes_in self.old) }
        ensures same_reference { name_of self.new ≡ name_of self.old }
        ensures bytes { bytes_in self.new ≡ put16 (bytes_in self.old) 14 value }
    {
        write_u16(self.buffer, field::WIN_SIZE.start, value);
    }

    pub fn set_checksum(&mut self, value: u16)
        requires { 20 ≤ length (bytes_in self.old) }
        ensures same_reference { name_of self.new ≡ name_of self.old }
        ensures bytes { bytes_in self.new ≡ put16 (bytes_in self.old) 16 value }
    {
        write_u16(self.buffer, field::CHECKSUM.start, value);
    }

    pub fn set_urgent_at(&mut self, value: u16)
        requires { 20 ≤ length (bytes_in self.old) }
        ensures same_reference { name_of self.new ≡ name_of self.old }
        ensures bytes { bytes_in self.new ≡ put16 (bytes_in self.old) 18 value }
    {
        write_u16(self.buffer, field::URGENT.start, value);
    }

    /// Writes the checksum of the segment as it stands.
    pub fn fill_checksum(&mut self, source: &IpAddress, destination: &IpAddress)
        requires room { 20 ≤ length (bytes_in self.old) }
        requires family { version_of source.now ≡ version_of destination.now }
        requires fits { length (bytes_in self.old) < 2 ^ 16 }
        ensures same_reference { name_of self.new ≡ name_of self.old }
        ensures bytes { bytes_in self.new
            ≡ with_checksum source.now destination.now (bytes_in self.old) }
    {
        self.set_checksum(0);
        let sum = self.sum(source, destination);
        self.set_checksum(0xffff - sum);
    }

    /// The options, to be written.
    pub fn options_mut(&mut self) -> &mut [u8]
        requires { IsWhole (bytes_in self.old) }
        ensures { result.now ≡ options_of (bytes_in self.old) }
    {
        let end = self.header_len() as usize;
        &mut self.buffer[field::HEADER_LEN..end]
    }

    /// What the segment carries, to be written.
    pub fn payload_mut(&mut self) -> &mut [u8]
        requires { IsWhole (bytes_in self.old) }
        ensures { result.now ≡ payload_of (bytes_in self.old) }
    {
        let start = self.header_len() as usize;
        let (_header, payload) = self.buffer.split_at_mut(start);
        payload
    }
}

/// The weight of a bit that is set, and 0 for one that isn't.
const fn weight(set: bool, weight: u8) -> u8
    ensures { result ≡ (if set then weight else 0) }
{
    if set { weight } else { 0 }
}
