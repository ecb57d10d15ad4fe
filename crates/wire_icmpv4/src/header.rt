//! What a message says, without its data, as a value.
ghost use Rattle.std.specs.Prelude.{◌≡◌, ◌+◌, ◌-◌, ◌≤◌, List, [], ◌∷◌, ◌++◌, length};
ghost use Rattle.wire_address.specs.Fields.{put16};
ghost use Rattle.wire_address.specs.Sum.{word_sum, complement};
ghost use Rattle.base_device.specs.Capabilities.{computes};
ghost use Rattle.wire_ip.specs.Ipv4 as Ipv4;
ghost use Rattle.wire_icmpv4.specs.Icmpv4Codes.{message_number};
ghost use Rattle.wire_icmpv4.specs.Icmpv4.{Fits, bytes_in, name_of, kind_of, code_of, four_of, sent_fields, spelling, written, header_len};

use crate::field;
use crate::message::{Icmpv4DstUnreachable, Icmpv4Message, Icmpv4TimeExceeded};
use crate::packet_mut::Icmpv4PacketMut;
use base_device::ChecksumCapabilities;
use wire_address::checksum;
use wire_address::network_order::write_u16;
use wire_ip::{Ipv4PacketMut, Ipv4Repr, ipv4};

/// What a message says, but for its data. It holds no borrowed bytes, so it can be kept.
#[derive(Clone, Copy, Debug, PartialEq, Eq)]
pub enum Icmpv4Header {
    EchoRequest {
        ident: u16,
        seq_no: u16,
    },
    EchoReply {
        ident: u16,
        seq_no: u16,
    },
    DstUnreachable {
        reason: Icmpv4DstUnreachable,
        /// The header of the packet that couldn't be delivered.
        header: Ipv4Repr,
    },
    TimeExceeded {
        reason: Icmpv4TimeExceeded,
        /// The header of the packet that was dropped.
        header: Ipv4Repr,
    },
}

impl Icmpv4Header {
    /// The length of what is written before the data.
    pub const fn header_len(&self) -> usize
        ensures exact { result ≡ header_len self.now }
        ensures small { result ≤ 28 }
    {
        match self {
            Icmpv4Header::EchoRequest { .. } | Icmpv4Header::EchoReply { .. } => field::HEADER_END,
            Icmpv4Header::DstUnreachable { .. } | Icmpv4Header::TimeExceeded { .. } => {
                field::HEADER_END + ipv4::field::HEADER_LEN
            }
        }
    }

    /// Writes the message with this data over the whole buffer, with the checksums that the
    /// capabilities leave to the stack: the message's own, and that of a quoted header.
    pub fn emit(
        &self,
        packet: &mut Icmpv4PacketMut,
        bytes: &[u8],
        checksum_caps: &ChecksumCapabilities,
    )
        requires room { length (bytes_in packet.old) ≡ header_len self.now + length bytes.now }
        requires fits { Fits self.now }
        ensures same_reference { name_of packet.new ≡ name_of packet.old }
        ensures bytes { bytes_in packet.new
            ≡ written (computes checksum_caps.now.ipv4) (computes checksum_caps.now.icmpv4) self.now bytes.now }
    {
        self.spell(packet.buffer, bytes, checksum_caps);
        if checksum_caps.icmpv4.tx() {
            seal(packet.buffer);
        }
    }

    /// Writes the message with 0 for its checksum.
    fn spell(&self, buffer: &mut [u8], bytes: &[u8], checksum_caps: &ChecksumCapabilities)
        requires room { length buffer.old ≡ header_len self.now + length bytes.now }
        requires fits { Fits self.now }
        ensures { buffer.new
            ≡ spelling self.now (sent_fields (computes checksum_caps.now.ipv4) self.now 0) bytes.now }
    {
        let (front, rest) = buffer.split_at_mut(field::HEADER_END);
        front.copy_from_slice(&self.first_fields());
        match self {
            Icmpv4Header::EchoRequest { .. } | Icmpv4Header::EchoReply { .. } => {
                rest.copy_from_slice(bytes);
            }
            Icmpv4Header::DstUnreachable { header, .. }
            | Icmpv4Header::TimeExceeded { header, .. } => {
                put_quoted(rest, header, bytes, checksum_caps);
            }
        }
    }

    /// The header, with 0 for its checksum.
    fn first_fields(&self) -> [u8; 8]
        ensures { result ≡ kind_of self.now ∷ code_of self.now ∷ 0 ∷ 0 ∷ four_of self.now (0 ∷ 0 ∷ 0 ∷ 0 ∷ []) }
    {
        let kind: u8 = self.msg_type().into();
        let [first, second, third, fourth] = self.four_bytes();
        [kind, self.msg_code(), 0, 0, first, second, third, fourth]
    }

    /// The type of the message.
    const fn msg_type(&self) -> Icmpv4Message
        ensures { message_number result ≡ kind_of self.now }
    {
        match self {
            Icmpv4Header::EchoRequest { .. } => Icmpv4Message::EchoRequest,
            Icmpv4Header::EchoReply { .. } => Icmpv4Message::EchoReply,
            Icmpv4Header::DstUnreachable { .. } => Icmpv4Message::DstUnreachable,
            Icmpv4Header::TimeExceeded { .. } => Icmpv4Message::TimeExceeded,
        }
    }

    /// The code of the message.
    fn msg_code(&self) -> u8
        ensures { result ≡ code_of self.now }
    {
        match self {
            Icmpv4Header::EchoRequest { .. } | Icmpv4Header::EchoReply { .. } => 0,
            Icmpv4Header::DstUnreachable { reason, .. } => (*reason).into(),
            Icmpv4Header::TimeExceeded { reason, .. } => (*reason).into(),
        }
    }

    /// The four bytes after the checksum.
    fn four_bytes(&self) -> [u8; 4]
        ensures { result ≡ four_of self.now (0 ∷ 0 ∷ 0 ∷ 0 ∷ []) }
    {
        match self {
            Icmpv4Header::EchoRequest { ident, seq_no }
            | Icmpv4Header::EchoReply { ident, seq_no } => {
                let [ident_high, ident_low] = ident.to_be_bytes();
                let [seq_no_high, seq_no_low] = seq_no.to_be_bytes();
                [ident_high, ident_low, seq_no_high, seq_no_low]
            }
            Icmpv4Header::DstUnreachable { .. } | Icmpv4Header::TimeExceeded { .. } => [0; 4],
        }
    }
}

/// Writes a quoted header, and data after it.
fn put_quoted(
    buffer: &mut [u8],
    header: &Ipv4Repr,
    bytes: &[u8],
    checksum_caps: &ChecksumCapabilities,
)
    requires room { length buffer.old ≡ 20 + length bytes.now }
    requires fits { Ipv4.Fits header.now }
    ensures { buffer.new ≡ Ipv4.written (computes checksum_caps.now.ipv4) header.now ++ bytes.now }
{
    let (front, rest) = buffer.split_at_mut(header.buffer_len());
    let mut packet = Ipv4PacketMut::new_unchecked(front);
    header.emit(&mut packet, checksum_caps);
    rest.copy_from_slice(bytes);
}

/// Puts the checksum of a message whose field holds 0 into the field.
fn seal(bytes: &mut [u8])
    requires { 8 ≤ length bytes.old }
    ensures { bytes.new ≡ put16 bytes.old 2 (complement (word_sum bytes.old)) }
{
    let sum = checksum::data(bytes);
    write_u16(bytes, field::CHECKSUM.start, !sum);
}
