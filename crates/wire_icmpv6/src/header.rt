//! A message as a value, but for the bytes that it carries.
ghost use Rattle.std.specs.Prelude.{◌≡◌, ℕ, ◌+◌, ◌<◌, ◌≤◌, ◌^◌, IsOk, IfOk, length, drop, ◌∷◌, ◌++◌};
ghost use Rattle.std.specs.Int.{w32, to_be_bytes};
ghost use Rattle.wire_address.specs.Fields.{put16};
ghost use Rattle.wire_ip.specs.Ipv6 as Ipv6;
ghost use Rattle.wire_ip.specs.declared.ipv6.repr.Ipv6Repr.{Ipv6Repr};
ghost use Rattle.base_device.specs.Capabilities.{verifies, computes};
ghost use Rattle.wire_icmpv6.specs.Message.{message_number};
ghost use Rattle.wire_icmpv6.specs.Packet.{IsWhole, bytes_of, bytes_in, name_of, checksum_of};
ghost use Rattle.wire_icmpv6.specs.Icmpv6.{MessageValue, IsIcmpv6, Says, Fits, CanCarry, value_of, header_len, sent_free, echo_spelling, spelling, written};

use crate::field;
use crate::message::Icmpv6Message;
use crate::ndisc::NdiscRepr;
use crate::packet::Icmpv6Packet;
use crate::packet_mut::Icmpv6PacketMut;
use crate::reason::{Icmpv6DstUnreachable, Icmpv6ParamProblem, Icmpv6TimeExceeded};
use base_device::ChecksumCapabilities;
use wire_address::network_order::write_u16;
use wire_address::{Error, Ipv6Address};
use wire_ip::{Ipv6PacketMut, Ipv6Repr, ipv6};

/// A message but for the bytes that it carries. It holds no borrowed bytes, so it can be kept.
#[derive(Clone, Copy, Debug, PartialEq, Eq)]
pub enum Icmpv6Header {
    DstUnreachable {
        reason: Icmpv6DstUnreachable,
        /// The header of the packet that the error is about.
        header: Ipv6Repr,
    },
    PktTooBig {
        /// How long a packet may be, in bytes, for the next link.
        mtu: u32,
        /// The header of the packet that the error is about.
        header: Ipv6Repr,
    },
    TimeExceeded {
        reason: Icmpv6TimeExceeded,
        /// The header of the packet that the error is about.
        header: Ipv6Repr,
    },
    ParamProblem {
        reason: Icmpv6ParamProblem,
        /// The offset in the quoted packet, counted from 0, at which the problem was found.
        pointer: u32,
        /// The header of the packet that the error is about.
        header: Ipv6Repr,
    },
    EchoRequest {
        ident: u16,
        seq_no: u16,
    },
    EchoReply {
        ident: u16,
        seq_no: u16,
    },
    Ndisc(NdiscRepr),
}

impl Icmpv6Header {
    /// The header of the message in the bytes. Its checksum is tested where the capabilities say
    /// that the stack does so.
    pub fn parse(
        src_addr: &Ipv6Address,
        dst_addr: &Ipv6Address,
        packet: &Icmpv6Packet,
        checksum_caps: &ChecksumCapabilities,
    ) -> Result<Icmpv6Header, Error>
        requires { length (bytes_of packet.now) < 2 ^ 32 }
        ensures found { IfOk result (λ h. IsIcmpv6 src_addr.now dst_addr.now (verifies checksum_caps.now.icmpv6) (bytes_of packet.now) (value_of h)) }
        ensures only { (v : MessageValue)
            → IsIcmpv6 src_addr.now dst_addr.now (verifies checksum_caps.now.icmpv6) (bytes_of packet.now) v
            → IsOk result × IfOk result (λ h. value_of h ≡ v) }
    {
        packet.check_len()?;
        if checksum_caps.icmpv6.rx() && !packet.verify_checksum(src_addr, dst_addr) {
            return Err(Error);
        }
        Icmpv6Header::read(packet)
    }

    /// What a message of a known type says, if it is read here.
    fn read(packet: &Icmpv6Packet) -> Result<Icmpv6Header, Error>
        requires { IsWhole (bytes_of packet.now) }
        ensures found { IfOk result (λ h. Says (bytes_of packet.now) (value_of h)) }
        ensures only { (v : MessageValue) → Says (bytes_of packet.now) v → IsOk result × IfOk result (λ h. value_of h ≡ v) }
    {
        match (packet.msg_type(), packet.msg_code()) {
            (Icmpv6Message::DstUnreachable, code) => Ok(Icmpv6Header::DstUnreachable {
                reason: code.into(),
                header: quoted(packet)?,
            }),
            (Icmpv6Message::PktTooBig, 0) => Ok(Icmpv6Header::PktTooBig {
                mtu: packet.pkt_too_big_mtu(),
                header: quoted(packet)?,
            }),
            (Icmpv6Message::TimeExceeded, code) => Ok(Icmpv6Header::TimeExceeded {
                reason: code.into(),
                header: quoted(packet)?,
            }),
            (Icmpv6Message::ParamProblem, code) => Ok(Icmpv6Header::ParamProblem {
                reason: code.into(),
                pointer: packet.param_problem_ptr(),
                header: quoted(packet)?,
            }),
            (Icmpv6Message::EchoRequest, 0) => Ok(Icmpv6Header::EchoRequest {
                ident: packet.echo_ident(),
                seq_no: packet.echo_seq_no(),
            }),
            (Icmpv6Message::EchoReply, 0) => Ok(Icmpv6Header::EchoReply {
                ident: packet.echo_ident(),
                seq_no: packet.echo_seq_no(),
            }),
            _ => Ok(Icmpv6Header::Ndisc(NdiscRepr::parse(packet)?)),
        }
    }

    /// How many bytes of the message stand before those that it carries: its header of 8 bytes, and
    /// in an error a quoted one of 40. A neighbour message is counted whole.
    pub fn header_len(&self) -> usize
        ensures { result ≡ header_len (value_of self.now) }
    {
        match self {
            Icmpv6Header::DstUnreachable { .. }
            | Icmpv6Header::PktTooBig { .. }
            | Icmpv6Header::TimeExceeded { .. }
            | Icmpv6Header::ParamProblem { .. } => field::HEADER_END + ipv6::field::HEADER_LEN,
            Icmpv6Header::EchoRequest { .. } | Icmpv6Header::EchoReply { .. } => field::HEADER_END,
            Icmpv6Header::Ndisc(neighbor) => neighbor.buffer_len(),
        }
    }

    /// Writes the message of this header that carries `bytes` over the whole buffer, with a
    /// checksum where the capabilities say that the stack computes it, else with 0. A neighbour
    /// message carries none.
    pub fn emit(
        &self,
        src_addr: &Ipv6Address,
        dst_addr: &Ipv6Address,
        packet: &mut Icmpv6PacketMut,
        bytes: &[u8],
        checksum_caps: &ChecksumCapabilities,
    )
        requires room { length (bytes_in packet.old) ≡ header_len (value_of self.now) + length bytes.now }
        requires small { length (bytes_in packet.old) < 2 ^ 32 }
        requires fits { Fits (value_of self.now) }
        requires carried { CanCarry (value_of self.now) bytes.now }
        ensures same_reference { name_of packet.new ≡ name_of packet.old }
        ensures bytes { bytes_in packet.new
            ≡ written src_addr.now dst_addr.now (computes checksum_caps.now.icmpv6) (value_of self.now) bytes.now }
    {
        self.spell(packet.buffer, bytes);
        if checksum_caps.icmpv6.tx() {
            seal(packet.buffer, src_addr, dst_addr);
        }
    }

    /// Writes the message with 0 for its checksum.
    fn spell(&self, message: &mut [u8], bytes: &[u8])
        requires room { length message.old ≡ header_len (value_of self.now) + length bytes.now }
        requires fits { Fits (value_of self.now) }
        requires carried { CanCarry (value_of self.now) bytes.now }
        ensures { message.new ≡ spelling (value_of self.now) (sent_free 0) bytes.now }
    {
        match self {
            Icmpv6Header::DstUnreachable { reason, header } => {
                let front = front(Icmpv6Message::DstUnreachable, (*reason).into(), 0);
                put_error(message, &front, header, bytes);
            }
            Icmpv6Header::PktTooBig { mtu, header } => {
                let front = front(Icmpv6Message::PktTooBig, 0, *mtu);
                put_error(message, &front, header, bytes);
            }
            Icmpv6Header::TimeExceeded { reason, header } => {
                let front = front(Icmpv6Message::TimeExceeded, (*reason).into(), 0);
                put_error(message, &front, header, bytes);
            }
            Icmpv6Header::ParamProblem {
                reason,
                pointer,
                header,
            } => {
                let front = front(Icmpv6Message::ParamProblem, (*reason).into(), *pointer);
                put_error(message, &front, header, bytes);
            }
            Icmpv6Header::EchoRequest { ident, seq_no } => {
                put_echo(message, Icmpv6Message::EchoRequest, *ident, *seq_no, bytes);
            }
            Icmpv6Header::EchoReply { ident, seq_no } => {
                put_echo(message, Icmpv6Message::EchoReply, *ident, *seq_no, bytes);
            }
            Icmpv6Header::Ndisc(neighbor) => {
                neighbor.emit(&mut Icmpv6PacketMut::new_unchecked(message));
            }
        }
    }
}

/// The first eight bytes of an error of this type and code, with 0 for its checksum, and with this
/// number after it.
fn front(kind: Icmpv6Message, code: u8, word: u32) -> [u8; 8]
    ensures { result ≡ message_number kind ∷ code ∷ 0 ∷ 0 ∷ to_be_bytes w32 word }
{
    let [first, second, third, fourth] = word.to_be_bytes();
    [kind.into(), code, 0, 0, first, second, third, fourth]
}

/// Writes an error with this front, which quotes this header, over the whole message.
fn put_error(message: &mut [u8], front: &[u8; 8], header: &Ipv6Repr, bytes: &[u8])
    requires room { length message.old ≡ 48 + length bytes.now }
    requires fits { Ipv6.Fits header.now }
    ensures { message.new ≡ front.now ++ (Ipv6.written header.now ++ bytes.now) }
{
    let (start, rest) = message.split_at_mut(field::HEADER_END);
    start.copy_from_slice(front);
    let (quote, following) = rest.split_at_mut(ipv6::field::HEADER_LEN);
    header.emit(&mut Ipv6PacketMut::new_unchecked(quote));
    following.copy_from_slice(bytes);
}

/// Writes an echo message of this type over the whole message, with 0 for its checksum.
fn put_echo(message: &mut [u8], kind: Icmpv6Message, ident: u16, seq_no: u16, bytes: &[u8])
    requires { length message.old ≡ 8 + length bytes.now }
    ensures { message.new ≡ echo_spelling (message_number kind) ident seq_no (sent_free 0) bytes.now }
{
    let [ident_high, ident_low] = ident.to_be_bytes();
    let [seq_no_high, seq_no_low] = seq_no.to_be_bytes();
    let (start, following) = message.split_at_mut(field::HEADER_END);
    start.copy_from_slice(&[
        kind.into(),
        0,
        0,
        0,
        ident_high,
        ident_low,
        seq_no_high,
        seq_no_low,
    ]);
    following.copy_from_slice(bytes);
}

/// Puts the checksum of a message whose field holds 0 into the field.
fn seal(message: &mut [u8], src_addr: &Ipv6Address, dst_addr: &Ipv6Address)
    requires front { 4 ≤ length message.old }
    requires fits { length message.old < 2 ^ 32 }
    ensures { message.new ≡ put16 message.old 2 (checksum_of src_addr.now dst_addr.now message.old) }
{
    let sum = Icmpv6Packet::new_unchecked(message).sum(src_addr, dst_addr);
    write_u16(message, field::CHECKSUM.start, 0xffff - sum);
}

/// The header that an error quotes.
fn quoted(packet: &Icmpv6Packet) -> Result<Ipv6Repr, Error>
    requires { 8 ≤ length (bytes_of packet.now) }
    ensures found { IfOk result (λ v. Ipv6.IsQuoted (drop 8 (bytes_of packet.now)) v 40) }
    ensures only { (v : Ipv6Repr) → Ipv6.IsQuoted (drop 8 (bytes_of packet.now)) v 40 → result ≡ Ok v }
{
    let (_header, inner) = packet.into_inner().split_at(field::HEADER_END);
    let (header, _length) = Ipv6Repr::parse_quoted(inner)?;
    Ok(header)
}
