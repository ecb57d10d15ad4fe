//! A message as a value.
ghost use Rattle.std.specs.Prelude.{◌≡◌, ◌+◌, ◌<◌, ◌≤◌, ◌^◌, IsOk, IfOk, length, drop};
ghost use Rattle.base_device.specs.Capabilities.{verifies, computes};
ghost use Rattle.wire_icmpv6.specs.Packet.{bytes_of, bytes_in, name_of};
ghost use Rattle.wire_icmpv6.specs.Icmpv6.{MessageValue, IsIcmpv6, Fits, CanCarry, value_of, header_len, header_of, carried_by, carried_in, written};
ghost use Rattle.wire_icmpv6.specs.declared.header.Icmpv6Header.{Icmpv6Header};

use crate::header::Icmpv6Header;
use crate::ndisc::NdiscRepr;
use crate::packet::Icmpv6Packet;
use crate::packet_mut::Icmpv6PacketMut;
use crate::reason::{Icmpv6DstUnreachable, Icmpv6ParamProblem, Icmpv6TimeExceeded};
use base_device::ChecksumCapabilities;
use wire_address::{Error, Ipv6Address};
use wire_ip::Ipv6Repr;

/// A message. In an error, `header` is that of the packet that it is about, and `bytes` are what
/// follows it, as much of the packet as the message has.
#[derive(Clone, Copy, Debug, PartialEq, Eq)]
pub enum Icmpv6Repr<'a> {
    DstUnreachable {
        reason: Icmpv6DstUnreachable,
        header: Ipv6Repr,
        bytes: &'a [u8],
    },
    PktTooBig {
        /// How long a packet may be, in bytes, for the next link.
        mtu: u32,
        header: Ipv6Repr,
        bytes: &'a [u8],
    },
    TimeExceeded {
        reason: Icmpv6TimeExceeded,
        header: Ipv6Repr,
        bytes: &'a [u8],
    },
    ParamProblem {
        reason: Icmpv6ParamProblem,
        /// The offset in the quoted packet, counted from 0, at which the problem was found.
        pointer: u32,
        header: Ipv6Repr,
        bytes: &'a [u8],
    },
    EchoRequest {
        ident: u16,
        seq_no: u16,
        bytes: &'a [u8],
    },
    EchoReply {
        ident: u16,
        seq_no: u16,
        bytes: &'a [u8],
    },
    Ndisc(NdiscRepr),
}

impl<'a> Icmpv6Repr<'a> {
    /// The message of this header that carries these bytes. A neighbour message carries none.
    pub const fn new(header: &Icmpv6Header, bytes: &'a [u8]) -> Icmpv6Repr<'a>
        requires { CanCarry (value_of header.now) bytes.now }
        ensures header { header_of result ≡ header.now }
        ensures bytes { carried_by result ≡ bytes.now }
    {
        match *header {
            Icmpv6Header::DstUnreachable { reason, header } => Icmpv6Repr::DstUnreachable {
                reason,
                header,
                bytes,
            },
            Icmpv6Header::PktTooBig { mtu, header } => Icmpv6Repr::PktTooBig { mtu, header, bytes },
            Icmpv6Header::TimeExceeded { reason, header } => Icmpv6Repr::TimeExceeded {
                reason,
                header,
                bytes,
            },
            Icmpv6Header::ParamProblem {
                reason,
                pointer,
                header,
            } => Icmpv6Repr::ParamProblem {
                reason,
                pointer,
                header,
                bytes,
            },
            Icmpv6Header::EchoRequest { ident, seq_no } => Icmpv6Repr::EchoRequest {
                ident,
                seq_no,
                bytes,
            },
            Icmpv6Header::EchoReply { ident, seq_no } => Icmpv6Repr::EchoReply {
                ident,
                seq_no,
                bytes,
            },
            Icmpv6Header::Ndisc(neighbor) => Icmpv6Repr::Ndisc(neighbor),
        }
    }

    /// All but the bytes that the message carries.
    pub const fn header(&self) -> Icmpv6Header
        ensures { result ≡ header_of self.now }
    {
        match *self {
            Icmpv6Repr::DstUnreachable { reason, header, .. } => Icmpv6Header::DstUnreachable {
                reason,
                header,
            },
            Icmpv6Repr::PktTooBig { mtu, header, .. } => Icmpv6Header::PktTooBig { mtu, header },
            Icmpv6Repr::TimeExceeded { reason, header, .. } => Icmpv6Header::TimeExceeded {
                reason,
                header,
            },
            Icmpv6Repr::ParamProblem {
                reason,
                pointer,
                header,
                ..
            } => Icmpv6Header::ParamProblem {
                reason,
                pointer,
                header,
            },
            Icmpv6Repr::EchoRequest { ident, seq_no, .. } => Icmpv6Header::EchoRequest {
                ident,
                seq_no,
            },
            Icmpv6Repr::EchoReply { ident, seq_no, .. } => Icmpv6Header::EchoReply {
                ident,
                seq_no,
            },
            Icmpv6Repr::Ndisc(neighbor) => Icmpv6Header::Ndisc(neighbor),
        }
    }

    /// The bytes that the message carries.
    pub const fn bytes(&self) -> &'a [u8]
        ensures { result.now ≡ carried_by self.now }
    {
        match *self {
            Icmpv6Repr::DstUnreachable { bytes, .. }
            | Icmpv6Repr::PktTooBig { bytes, .. }
            | Icmpv6Repr::TimeExceeded { bytes, .. }
            | Icmpv6Repr::ParamProblem { bytes, .. }
            | Icmpv6Repr::EchoRequest { bytes, .. }
            | Icmpv6Repr::EchoReply { bytes, .. } => bytes,
            Icmpv6Repr::Ndisc(_) => &[],
        }
    }

    /// The message in the bytes, up to their end. Its checksum is tested where the capabilities say
    /// that the stack does so. A quoted packet may be longer than what the message has of it.
    pub fn parse(
        src_addr: &Ipv6Address,
        dst_addr: &Ipv6Address,
        packet: &Icmpv6Packet<'a>,
        checksum_caps: &ChecksumCapabilities,
    ) -> Result<Icmpv6Repr<'a>, Error>
        requires { length (bytes_of packet.now) < 2 ^ 32 }
        ensures found { IfOk result
            (λ r. IsIcmpv6 src_addr.now dst_addr.now (verifies checksum_caps.now.icmpv6) (bytes_of packet.now) (value_of (header_of r))) }
        ensures bytes { IfOk result (λ r. carried_by r ≡ carried_in (bytes_of packet.now) (value_of (header_of r))) }
        ensures only { (v : MessageValue)
            → IsIcmpv6 src_addr.now dst_addr.now (verifies checksum_caps.now.icmpv6) (bytes_of packet.now) v
            → IsOk result × IfOk result (λ r. value_of (header_of r) ≡ v) }
    {
        let header = Icmpv6Header::parse(src_addr, dst_addr, packet, checksum_caps)?;
        if let Icmpv6Header::Ndisc(neighbor) = header {
            return Ok(Icmpv6Repr::Ndisc(neighbor));
        }
        let (_header, bytes) = packet.into_inner().split_at(header.header_len());
        Ok(Icmpv6Repr::new(&header, bytes))
    }

    /// The length of the message.
    pub fn buffer_len(&self) -> usize
        ensures { result ≡ header_len (value_of (header_of self.now)) + length (carried_by self.now) }
    {
        self.header().header_len() + self.bytes().len()
    }

    /// Writes the message over the whole buffer, with a checksum where the capabilities say that
    /// the stack computes it, else with 0.
    pub fn emit(
        &self,
        src_addr: &Ipv6Address,
        dst_addr: &Ipv6Address,
        packet: &mut Icmpv6PacketMut,
        checksum_caps: &ChecksumCapabilities,
    )
        requires room { length (bytes_in packet.old)
            ≡ header_len (value_of (header_of self.now)) + length (carried_by self.now) }
        requires fits { Fits (value_of (header_of self.now)) }
        requires small { length (bytes_in packet.old) < 2 ^ 32 }
        ensures same_reference { name_of packet.new ≡ name_of packet.old }
        ensures bytes { bytes_in packet.new
            ≡ written src_addr.now dst_addr.now (computes checksum_caps.now.icmpv6) (value_of (header_of self.now)) (carried_by self.now) }
    {
        self.header()
            .emit(src_addr, dst_addr, packet, self.bytes(), checksum_caps);
    }
}
