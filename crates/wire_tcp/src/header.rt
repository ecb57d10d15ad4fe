//! The header of a segment as a value.
ghost use Rattle.std.specs.Prelude.{◌≡◌, ℕ, ◌+◌, ◌-◌, ◌%◌, ◌<◌, ◌≤◌, ◌^◌, true, List, ◌++◌, IfOk, length};
ghost use Rattle.wire_address.specs.Address.{version_of};
ghost use Rattle.base_device.specs.Capabilities.{verifies, computes};
ghost use Rattle.wire_address.specs.Fields.{put16};
ghost use Rattle.wire_address.specs.Sum.{word_sum, folded, complement};
ghost use Rattle.wire_address.specs.Pseudo.{covered};
ghost use Rattle.wire_tcp.specs.Tcp.{IsTcp, IsWhole, Fits, bytes_of, bytes_in, name_of, acknowledged, acknowledges, sent_ack, sent_flags, header_len};
ghost use Rattle.wire_tcp.specs.Tcp.{fixed_fields, sent_fields, spelling, written};
ghost use Rattle.wire_tcp.specs.declared.header.TcpHeader.{TcpHeader};

use crate::control::TcpControl;
use crate::field;
use crate::option::TcpOptions;
use crate::packet::TcpPacket;
use crate::packet_mut::TcpPacketMut;
use base_device::ChecksumCapabilities;
use wire_address::network_order::write_u16;
use wire_address::{Error, IpAddress, IpProtocol, SeqNumber, checksum};

/// A segment but for its payload. It holds no borrowed bytes, so it can be kept.
#[derive(Clone, Copy, Debug, PartialEq, Eq)]
pub struct TcpHeader {
    pub src_port: u16,
    pub dst_port: u16,
    pub control: TcpControl,
    pub seq_number: SeqNumber,
    /// The next number that is awaited, where the segment acknowledges.
    pub ack_number: Option<SeqNumber>,
    /// The window field, not scaled.
    pub window_len: u16,
    pub options: TcpOptions,
}

impl TcpHeader {
    /// An offset that a header is read into: no options, and else zeros.
    pub const BLANK: TcpHeader = TcpHeader {
        src_port: 0,
        dst_port: 0,
        control: TcpControl::None,
        seq_number: SeqNumber(0),
        ack_number: None,
        window_len: 0,
        options: TcpOptions::NONE,
    };

    /// The header of the segment in the bytes. Its checksum is tested where the capabilities say
    /// that the stack does so.
    pub fn parse(
        packet: &TcpPacket,
        source: &IpAddress,
        destination: &IpAddress,
        checksum_caps: &ChecksumCapabilities,
    ) -> Result<TcpHeader, Error>
        requires family { version_of source.now ≡ version_of destination.now }
        requires fits { length (bytes_of packet.now) < 2 ^ 16 }
        ensures found { IfOk result
            (λ v. IsTcp source.now destination.now (verifies checksum_caps.now.tcp) (bytes_of packet.now) v) }
        ensures only { (v : TcpHeader)
            → IsTcp source.now destination.now (verifies checksum_caps.now.tcp) (bytes_of packet.now) v
            → result ≡ Ok v }
    {
        let mut header = TcpHeader::BLANK;
        if header.read(packet, source, destination, checksum_caps) {
            Ok(header)
        } else {
            Err(Error)
        }
    }

    /// Reads the header of the segment in the bytes into this offset, as `parse` does, and says
    /// whether they are a segment. Where they aren't, what the offset holds isn't said.
    ///
    /// A header that is handed up in a `Result` is copied by each call that it goes through.
    pub fn read(
        &mut self,
        packet: &TcpPacket,
        source: &IpAddress,
        destination: &IpAddress,
        checksum_caps: &ChecksumCapabilities,
    ) -> bool
        requires family { version_of source.now ≡ version_of destination.now }
        requires fits { length (bytes_of packet.now) < 2 ^ 16 }
        ensures found { result ≡ true
            → IsTcp source.now destination.now (verifies checksum_caps.now.tcp) (bytes_of packet.now) self.new }
        ensures only { (v : TcpHeader)
            → IsTcp source.now destination.now (verifies checksum_caps.now.tcp) (bytes_of packet.now) v
            → (result ≡ true) × (self.new ≡ v) }
    {
        if packet.check_len().is_err() || packet.src_port() == 0 || packet.dst_port() == 0 {
            return false;
        }
        if checksum_caps.tcp.rx() && !packet.verify_checksum(source, destination) {
            return false;
        }
        let flags = TcpControl::from_flags(packet.syn(), packet.fin(), packet.rst(), packet.psh());
        let Some(control) = flags else {
            return false;
        };
        let (src_port, dst_port, window_len) = (
            packet.src_port(),
            packet.dst_port(),
            packet.window_len(),
        );
        let (seq_number, ack_number) = (packet.seq_number(), acknowledged(packet));
        if !self.options.read(packet.options()) {
            return false;
        }
        self.src_port = src_port;
        self.dst_port = dst_port;
        self.control = control;
        self.seq_number = seq_number;
        self.ack_number = ack_number;
        self.window_len = window_len;
        true
    }

    /// The length of the header with room for its options, a multiple of four. Ranges count also
    /// where they aren't sent. A header that is sent has at most 60 bytes.
    pub fn header_len(&self) -> usize
        ensures exact { result ≡ header_len self.now }
        ensures small { result ≤ 68 }
    {
        field::HEADER_LEN + self.options.buffer_len()
    }

    /// Writes the segment of this header and the payload over the whole buffer, with a checksum
    /// where the capabilities say that the stack computes it.
    pub fn emit(
        &self,
        packet: &mut TcpPacketMut,
        source: &IpAddress,
        destination: &IpAddress,
        payload: &[u8],
        checksum_caps: &ChecksumCapabilities,
    )
        requires room { length (bytes_in packet.old) ≡ header_len self.now + length payload.now }
        requires fits { Fits source.now destination.now self.now payload.now }
        ensures same_reference { name_of packet.new ≡ name_of packet.old }
        ensures bytes { bytes_in packet.new
            ≡ written source.now destination.now (computes checksum_caps.now.tcp) self.now payload.now }
    {
        self.emit_parts(packet, source, destination, payload, &[], checksum_caps);
    }

    /// Writes the segment of this header and a payload that lies in two parts, as `emit` does that of
    /// both together.
    pub fn emit_parts(
        &self,
        packet: &mut TcpPacketMut,
        source: &IpAddress,
        destination: &IpAddress,
        first: &[u8],
        rest: &[u8],
        checksum_caps: &ChecksumCapabilities,
    )
        requires room { length (bytes_in packet.old) ≡ header_len self.now + length (first.now ++ rest.now) }
        requires fits { Fits source.now destination.now self.now (first.now ++ rest.now) }
        ensures same_reference { name_of packet.new ≡ name_of packet.old }
        ensures bytes { bytes_in packet.new
            ≡ written source.now destination.now (computes checksum_caps.now.tcp) self.now (first.now ++ rest.now) }
    {
        if !checksum_caps.tcp.tx() {
            self.spell(packet.buffer, first, rest);
        } else if first.len() + rest.len() < checksum::WORTH_COPYING {
            self.spell(packet.buffer, first, rest);
            seal(packet.buffer, source, destination);
        } else {
            self.spell_sealed(packet.buffer, source, destination, first, rest);
        }
    }

    /// Writes the segment with 0 for its checksum.
    fn spell(&self, bytes: &mut [u8], first: &[u8], rest: &[u8])
        requires room { length bytes.old ≡ header_len self.now + length (first.now ++ rest.now) }
        requires fits { header_len self.now ≤ 60 }
        ensures { bytes.new ≡ spelling self.now 0 (first.now ++ rest.now) }
    {
        let (header, body) = bytes.split_at_mut(self.header_len());
        self.spell_header(header);
        put_parts(body, first, rest);
    }

    /// Writes the segment with its checksum, in one pass over the payload.
    fn spell_sealed(
        &self,
        bytes: &mut [u8],
        source: &IpAddress,
        destination: &IpAddress,
        first: &[u8],
        rest: &[u8],
    )
        requires room { length bytes.old ≡ header_len self.now + length (first.now ++ rest.now) }
        requires fits { Fits source.now destination.now self.now (first.now ++ rest.now) }
        ensures { bytes.new ≡ written source.now destination.now true self.now (first.now ++ rest.now) }
    {
        let (header, body) = bytes.split_at_mut(self.header_len());
        self.spell_header(header);
        let text = put_parts_with_sum(body, first, rest);
        seal_header(header, source, destination, body.len(), text);
    }

    /// Writes the header with 0 for the checksum.
    fn spell_header(&self, bytes: &mut [u8])
        requires room { length bytes.old ≡ header_len self.now }
        requires fits { header_len self.now ≤ 60 }
        ensures { (payload : List ℕ) → bytes.new ++ payload ≡ spelling self.now 0 payload }
    {
        let (front, area) = bytes.split_at_mut(field::HEADER_LEN);
        front.copy_from_slice(&self.fixed_fields());
        self.options.emit(area, acknowledges(self.ack_number));
    }

    /// The fixed fields, with 0 for the checksum.
    fn fixed_fields(&self) -> [u8; 20]
        requires { header_len self.now ≤ 60 }
        ensures { result ≡ fixed_fields self.now (sent_fields self.now 0) }
    {
        let [source_high, source_low] = self.src_port.to_be_bytes();
        let [destination_high, destination_low] = self.dst_port.to_be_bytes();
        let [seq_first, seq_second, seq_third, seq_fourth] = self.seq_number.0.to_be_bytes();
        let [ack_first, ack_second, ack_third, ack_fourth] = sent_ack(
            self.ack_number,
        ).to_be_bytes();
        let [window_high, window_low] = self.window_len.to_be_bytes();
        [
            source_high,
            source_low,
            destination_high,
            destination_low,
            seq_first,
            seq_second,
            seq_third,
            seq_fourth,
            ack_first,
            ack_second,
            ack_third,
            ack_fourth,
            ((self.header_len() / 4) << 4) as u8,
            self.sent_flags(),
            window_high,
            window_low,
            0,
            0,
            0,
            0,
        ]
    }

    /// The byte of the flags.
    const fn sent_flags(&self) -> u8
        ensures { result ≡ sent_flags self.now }
    {
        self.control.bits()
            + if acknowledges(self.ack_number) {
                0x10
            } else {
                0
            }
    }
}

/// Writes one part after the other over the whole of `body`.
fn put_parts(body: &mut [u8], first: &[u8], rest: &[u8])
    requires { length body.old ≡ length (first.now ++ rest.now) }
    ensures { body.new ≡ first.now ++ rest.now }
{
    let (front, following) = body.split_at_mut(first.len());
    front.copy_from_slice(first);
    following.copy_from_slice(rest);
}

/// Writes the parts so, and answers the sum of both together.
fn put_parts_with_sum(body: &mut [u8], first: &[u8], rest: &[u8]) -> u16
    requires room { length body.old ≡ length (first.now ++ rest.now) }
    requires fits { length (first.now ++ rest.now) < 2 ^ 16 }
    ensures copied { body.new ≡ first.now ++ rest.now }
    ensures sum { result ≡ folded (word_sum (first.now ++ rest.now)) }
{
    let (front, following) = body.split_at_mut(first.len());
    let front_sum = checksum::copy(front, first);
    let following_sum = checksum::copy(following, rest);
    checksum::join(front_sum, first.len(), following_sum)
}

/// Whether there is an acknowledgement number.
const fn acknowledges(ack_number: Option<SeqNumber>) -> bool
    ensures { result ≡ acknowledges ack_number }
{
    match ack_number {
        Some(_) => true,
        None => false,
    }
}

/// The acknowledgement number as it is sent.
const fn sent_ack(ack_number: Option<SeqNumber>) -> u32
    ensures { result ≡ sent_ack ack_number }
{
    match ack_number {
        Some(number) => number.0,
        None => 0,
    }
}

/// Puts the checksum of a segment whose field holds 0 into the field.
fn seal(bytes: &mut [u8], source: &IpAddress, destination: &IpAddress)
    requires header { 20 ≤ length bytes.old }
    requires fits { length bytes.old < 2 ^ 16 }
    requires family { version_of source.now ≡ version_of destination.now }
    ensures { bytes.new
        ≡ put16 bytes.old 16 (complement (covered source.now destination.now 6 bytes.old)) }
{
    let sum = TcpPacket::new_unchecked(bytes).sum(source, destination);
    write_u16(bytes, field::CHECKSUM.start, 0xffff - sum);
}

/// Puts the checksum of a segment into its header, whose field holds 0. Of the payload the length
/// and the sum are known.
fn seal_header(
    header: &mut [u8],
    source: &IpAddress,
    destination: &IpAddress,
    payload_len: usize,
    payload_sum: u16,
)
    requires header { 20 ≤ length header.old }
    requires even { length header.old % 2 ≡ 0 }
    requires fits { length header.old + payload_len < 2 ^ 16 }
    requires family { version_of source.now ≡ version_of destination.now }
    ensures { (payload : List ℕ) → length payload ≡ payload_len → payload_sum ≡ folded (word_sum payload)
        → header.new ++ payload
        ≡ put16 (header.old ++ payload) 16 (complement (covered source.now destination.now 6 (header.old ++ payload))) }
{
    let length = (header.len() + payload_len) as u32;
    let pseudo = checksum::pseudo_header(source, destination, IpProtocol::Tcp, length);
    let front = checksum::add(pseudo, checksum::data(header));
    let sum = checksum::add(front, payload_sum);
    write_u16(header, field::CHECKSUM.start, 0xffff - sum);
}

/// The acknowledgement number, where the segment acknowledges.
fn acknowledged(packet: &TcpPacket) -> Option<SeqNumber>
    requires { IsWhole (bytes_of packet.now) }
    ensures { result ≡ acknowledged (bytes_of packet.now) }
{
    if packet.ack() {
        Some(packet.ack_number())
    } else {
        None
    }
}
