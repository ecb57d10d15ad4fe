//! A message as a value.
ghost use Rattle.std.specs.Prelude.{◌≡◌, ◌+◌, ◌<◌, ◌≤◌, ◌^◌, IsOk, IfOk, ◌↔◌, ℕ, List, length, drop, slice_index};
ghost use Rattle.wire_address.specs.Fields.{be16};
ghost use Rattle.base_device.specs.Capabilities.{verifies, computes};
ghost use Rattle.wire_ip.specs.Ipv4 as Ipv4;
ghost use Rattle.wire_ip.specs.declared.ipv4.repr.Ipv4Repr.{Ipv4Repr};
ghost use Rattle.wire_icmpv4.specs.Icmpv4.{IsIcmpv4, IsWhole, Says, Fits, bytes_of, bytes_in, name_of, following, quoted_len, header_of, payload_of, written};
ghost use Rattle.wire_icmpv4.specs.Icmpv4.{header_len};
ghost use Rattle.wire_icmpv4.specs.declared.header.Icmpv4Header.{Icmpv4Header};

use crate::header::Icmpv4Header;
use crate::message::{Icmpv4DstUnreachable, Icmpv4Message, Icmpv4TimeExceeded};
use crate::packet::Icmpv4Packet;
use crate::packet_mut::Icmpv4PacketMut;
use base_device::ChecksumCapabilities;
use wire_address::Error;
use wire_ip::Ipv4Repr;

/// A message: what it says, and its data.
#[derive(Clone, Copy, Debug, PartialEq, Eq)]
pub enum Icmpv4Repr<'a> {
    EchoRequest {
        ident: u16,
        seq_no: u16,
        bytes: &'a [u8],
    },
    EchoReply {
        ident: u16,
        seq_no: u16,
        bytes: &'a [u8],
    },
    DstUnreachable {
        reason: Icmpv4DstUnreachable,
        /// The header of the packet that couldn't be delivered.
        header: Ipv4Repr,
        /// What that packet carried, as much as is quoted.
        bytes: &'a [u8],
    },
    TimeExceeded {
        reason: Icmpv4TimeExceeded,
        /// The header of the packet that was dropped.
        header: Ipv4Repr,
        /// What that packet carried, as much as is quoted.
        bytes: &'a [u8],
    },
}

impl<'a> Icmpv4Repr<'a> {
    /// A message that says this, with this data.
    pub const fn new(header: &Icmpv4Header, bytes: &'a [u8]) -> Icmpv4Repr<'a>
        ensures header { header_of result ≡ header.now }
        ensures payload { payload_of result ≡ bytes.now }
    {
        match *header {
            Icmpv4Header::EchoRequest { ident, seq_no } => {
                Icmpv4Repr::EchoRequest {
                    ident,
                    seq_no,
                    bytes,
                }
            }
            Icmpv4Header::EchoReply { ident, seq_no } => {
                Icmpv4Repr::EchoReply {
                    ident,
                    seq_no,
                    bytes,
                }
            }
            Icmpv4Header::DstUnreachable { reason, header } => {
                Icmpv4Repr::DstUnreachable {
                    reason,
                    header,
                    bytes,
                }
            }
            Icmpv4Header::TimeExceeded { reason, header } => {
                Icmpv4Repr::TimeExceeded {
                    reason,
                    header,
                    bytes,
                }
            }
        }
    }

    /// What the message says, without its data.
    pub const fn header(&self) -> Icmpv4Header
        ensures { result ≡ header_of self.now }
    {
        match *self {
            Icmpv4Repr::EchoRequest { ident, seq_no, .. } => {
                Icmpv4Header::EchoRequest { ident, seq_no }
            }
            Icmpv4Repr::EchoReply { ident, seq_no, .. } => {
                Icmpv4Header::EchoReply { ident, seq_no }
            }
            Icmpv4Repr::DstUnreachable { reason, header, .. } => {
                Icmpv4Header::DstUnreachable { reason, header }
            }
            Icmpv4Repr::TimeExceeded { reason, header, .. } => {
                Icmpv4Header::TimeExceeded { reason, header }
            }
        }
    }

    /// The data of an echo message, or what is quoted after the header in an error.
    pub const fn bytes(&self) -> &'a [u8]
        ensures { result.now ≡ payload_of self.now }
    {
        match *self {
            Icmpv4Repr::EchoRequest { bytes, .. }
            | Icmpv4Repr::EchoReply { bytes, .. }
            | Icmpv4Repr::DstUnreachable { bytes, .. }
            | Icmpv4Repr::TimeExceeded { bytes, .. } => bytes,
        }
    }

    /// The message in the bytes, up to their end. Its checksum is tested where the capabilities say
    /// that the stack does so; that of a quoted header isn't. Other messages are an `Error`.
    pub fn parse(
        packet: &Icmpv4Packet<'a>,
        checksum_caps: &ChecksumCapabilities,
    ) -> Result<Icmpv4Repr<'a>, Error>
        ensures found { IfOk result
            (λ v. IsIcmpv4 (verifies checksum_caps.now.icmpv4) (bytes_of packet.now) (header_of v) (payload_of v)) }
        ensures only { (v : Icmpv4Header) (payload : List ℕ)
            → IsIcmpv4 (verifies checksum_caps.now.icmpv4) (bytes_of packet.now) v payload
            → IsOk result × IfOk result (λ r. (header_of r ≡ v) × (payload_of r ≡ payload)) }
    {
        packet.check_len()?;
        if checksum_caps.icmpv4.rx() && !packet.verify_checksum() {
            return Err(Error);
        }
        read(packet)
    }

    /// The length of the message as it is written.
    pub fn buffer_len(&self) -> usize
        ensures { result ≡ header_len (header_of self.now) + length (payload_of self.now) }
    {
        self.header().header_len() + self.bytes().len()
    }

    /// Writes the message over the whole buffer, with the checksums that the capabilities leave to
    /// the stack: the message's own, and that of a quoted header.
    pub fn emit(&self, packet: &mut Icmpv4PacketMut, checksum_caps: &ChecksumCapabilities)
        requires room { length (bytes_in packet.old)
            ≡ header_len (header_of self.now) + length (payload_of self.now) }
        requires fits { Fits (header_of self.now) }
        ensures same_reference { name_of packet.new ≡ name_of packet.old }
        ensures bytes { bytes_in packet.new
            ≡ written (computes checksum_caps.now.ipv4) (computes checksum_caps.now.icmpv4) (header_of self.now) (payload_of self.now) }
    {
        self.header().emit(packet, self.bytes(), checksum_caps);
    }
}

/// What the bytes say, whatever their checksum.
fn read<'a>(packet: &Icmpv4Packet<'a>) -> Result<Icmpv4Repr<'a>, Error>
    requires { IsWhole (bytes_of packet.now) }
    ensures found { IfOk result (λ v. Says (bytes_of packet.now) (header_of v) (payload_of v)) }
    ensures only { (v : Icmpv4Header) (payload : List ℕ)
        → Says (bytes_of packet.now) v payload
        → IsOk result × IfOk result (λ r. (header_of r ≡ v) × (payload_of r ≡ payload)) }
{
    match packet.msg_type() {
        Icmpv4Message::EchoRequest => {
            let (ident, seq_no) = echo(packet)?;
            Ok(Icmpv4Repr::EchoRequest {
                ident,
                seq_no,
                bytes: packet.data(),
            })
        }
        Icmpv4Message::EchoReply => {
            let (ident, seq_no) = echo(packet)?;
            Ok(Icmpv4Repr::EchoReply {
                ident,
                seq_no,
                bytes: packet.data(),
            })
        }
        Icmpv4Message::DstUnreachable => {
            let (bytes, header) = quoted(packet)?;
            let reason = Icmpv4DstUnreachable::from(packet.msg_code());
            Ok(Icmpv4Repr::DstUnreachable {
                reason,
                header,
                bytes,
            })
        }
        Icmpv4Message::TimeExceeded => {
            let (bytes, header) = quoted(packet)?;
            let reason = Icmpv4TimeExceeded::from(packet.msg_code());
            Ok(Icmpv4Repr::TimeExceeded {
                reason,
                header,
                bytes,
            })
        }
        _ => Err(Error),
    }
}

/// The identifier and the sequence number of an echo message.
fn echo(packet: &Icmpv4Packet) -> Result<(u16, u16), Error>
    requires { IsWhole (bytes_of packet.now) }
    ensures ok { IsOk result ↔ (slice_index (bytes_of packet.now) 1 ≡ 0) }
    ensures fields { IfOk result
        (λ f. (f.0 ≡ be16 (bytes_of packet.now) 4) × (f.1 ≡ be16 (bytes_of packet.now) 6)) }
{
    if packet.msg_code() != 0 {
        return Err(Error);
    }
    Ok((packet.echo_ident(), packet.echo_seq_no()))
}

/// What an error message quotes: the data after the header of the packet that it is about, and that
/// header.
fn quoted<'a>(packet: &Icmpv4Packet<'a>) -> Result<(&'a [u8], Ipv4Repr), Error>
    requires { IsWhole (bytes_of packet.now) }
    ensures found { IfOk result
        (λ f. Ipv4.IsQuoted (following (bytes_of packet.now)) f.1 (quoted_len (bytes_of packet.now))) }
    ensures payload { IfOk result
        (λ f. f.0.now ≡ drop (quoted_len (bytes_of packet.now)) (following (bytes_of packet.now))) }
    ensures only { (v : Ipv4Repr)
        → Ipv4.IsQuoted (following (bytes_of packet.now)) v (quoted_len (bytes_of packet.now))
        → IsOk result × IfOk result (λ f. f.1 ≡ v) }
{
    let data = packet.data();
    let (header, header_len) = Ipv4Repr::parse_quoted(data)?;
    let (_header, rest) = data.split_at(header_len);
    Ok((rest, header))
}
