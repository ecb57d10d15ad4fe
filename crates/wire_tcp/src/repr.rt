//! A segment as a value.
ghost use Rattle.std.specs.Prelude.{◌≡◌, ◌+◌, ◌<◌, ◌≤◌, ◌^◌, ◌==◌, ◌&&◌, IsOk, IfOk, length};
ghost use Rattle.wire_address.specs.Address.{version_of};
ghost use Rattle.base_device.specs.Capabilities.{verifies, computes};
ghost use Rattle.wire_tcp.specs.Control.{control_len, is_quiet};
ghost use Rattle.wire_tcp.specs.Tcp.{IsTcp, Fits, bytes_of, bytes_in, name_of, payload_of, header_of, header_len, written};
ghost use Rattle.wire_tcp.specs.declared.header.TcpHeader.{TcpHeader};

use crate::control::TcpControl;
use crate::header::TcpHeader;
use crate::option::TcpOptions;
use crate::packet::TcpPacket;
use crate::packet_mut::TcpPacketMut;
use crate::timestamp::TcpTimestampRepr;
use base_device::ChecksumCapabilities;
use wire_address::{Error, IpAddress, SeqNumber};

/// A segment: its header, its options and its payload.
#[derive(Clone, Copy, Debug, PartialEq, Eq)]
pub struct TcpRepr<'a> {
    pub src_port: u16,
    pub dst_port: u16,
    pub control: TcpControl,
    pub seq_number: SeqNumber,
    /// The next number that is awaited, where the segment acknowledges.
    pub ack_number: Option<SeqNumber>,
    /// The window field, not scaled.
    pub window_len: u16,
    pub window_scale: Option<u8>,
    pub max_seg_size: Option<u16>,
    pub sack_permitted: bool,
    /// Ranges that arrived out of order, each from its first sequence number to the one after its last.
    pub sack_ranges: [Option<(u32, u32)>; 3],
    pub timestamp: Option<TcpTimestampRepr>,
    pub payload: &'a [u8],
}

impl<'a> TcpRepr<'a> {
    /// A segment of this header and payload.
    pub const fn new(header: &TcpHeader, payload: &'a [u8]) -> TcpRepr<'a>
        ensures header { header_of result ≡ header.now }
        ensures payload { result.payload.now ≡ payload.now }
    {
        TcpRepr {
            src_port: header.src_port,
            dst_port: header.dst_port,
            control: header.control,
            seq_number: header.seq_number,
            ack_number: header.ack_number,
            window_len: header.window_len,
            window_scale: header.options.window_scale,
            max_seg_size: header.options.max_seg_size,
            sack_permitted: header.options.sack_permitted,
            sack_ranges: header.options.sack_ranges,
            timestamp: header.options.timestamp,
            payload,
        }
    }

    /// All but the payload.
    pub const fn header(&self) -> TcpHeader
        ensures { result ≡ header_of self.now }
    {
        TcpHeader {
            src_port: self.src_port,
            dst_port: self.dst_port,
            control: self.control,
            seq_number: self.seq_number,
            ack_number: self.ack_number,
            window_len: self.window_len,
            options: TcpOptions {
                max_seg_size: self.max_seg_size,
                window_scale: self.window_scale,
                sack_permitted: self.sack_permitted,
                sack_ranges: self.sack_ranges,
                timestamp: self.timestamp,
            },
        }
    }

    /// The segment in the bytes, up to their end. Its checksum is tested where the capabilities say
    /// that the stack does so.
    pub fn parse(
        packet: &TcpPacket<'a>,
        source: &IpAddress,
        destination: &IpAddress,
        checksum_caps: &ChecksumCapabilities,
    ) -> Result<TcpRepr<'a>, Error>
        requires family { version_of source.now ≡ version_of destination.now }
        requires fits { length (bytes_of packet.now) < 2 ^ 16 }
        ensures found { IfOk result
            (λ v. IsTcp source.now destination.now (verifies checksum_caps.now.tcp) (bytes_of packet.now) (header_of v)) }
        ensures payload { IfOk result (λ v. v.payload.now ≡ payload_of (bytes_of packet.now)) }
        ensures only { (v : TcpHeader)
            → IsTcp source.now destination.now (verifies checksum_caps.now.tcp) (bytes_of packet.now) v
            → IsOk result × IfOk result (λ r. header_of r ≡ v) }
    {
        let header = TcpHeader::parse(packet, source, destination, checksum_caps)?;
        Ok(TcpRepr::new(&header, packet.payload()))
    }

    /// The length of the header with room for its options, a multiple of four. Ranges count also
    /// where they aren't sent. A header that is sent has at most 60 bytes.
    pub fn header_len(&self) -> usize
        ensures exact { result ≡ header_len (header_of self.now) }
        ensures small { result ≤ 68 }
    {
        self.header().header_len()
    }

    /// The length of the segment.
    pub fn buffer_len(&self) -> usize
        ensures { result ≡ header_len (header_of self.now) + length self.now.payload.now }
    {
        self.header_len() + self.payload.len()
    }

    /// Writes the segment over the whole buffer, with a checksum where the capabilities say that
    /// the stack computes it.
    pub fn emit(
        &self,
        packet: &mut TcpPacketMut,
        source: &IpAddress,
        destination: &IpAddress,
        checksum_caps: &ChecksumCapabilities,
    )
        requires room { length (bytes_in packet.old)
            ≡ header_len (header_of self.now) + length self.now.payload.now }
        requires fits { Fits source.now destination.now (header_of self.now) self.now.payload.now }
        ensures same_reference { name_of packet.new ≡ name_of packet.old }
        ensures bytes { bytes_in packet.new
            ≡ written source.now destination.now (computes checksum_caps.now.tcp) (header_of self.now) self.now.payload.now }
    {
        self.header()
            .emit(packet, source, destination, self.payload, checksum_caps);
    }

    /// How many sequence numbers the segment takes: its payload, and one for SYN or FIN.
    pub const fn segment_len(&self) -> usize
        ensures { result ≡ length self.now.payload.now + control_len self.now.control }
    {
        self.payload.len() + self.control.len()
    }

    /// Whether the segment has neither payload nor a flag other than ACK and PSH.
    pub const fn is_empty(&self) -> bool
        ensures { result ≡ ((length self.now.payload.now == 0) && is_quiet self.now.control) }
    {
        match self.control {
            TcpControl::Syn | TcpControl::Fin | TcpControl::Rst => false,
            TcpControl::None | TcpControl::Psh => self.payload.len() == 0,
        }
    }
}
