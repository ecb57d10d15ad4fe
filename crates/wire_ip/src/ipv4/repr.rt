//! The header of a packet as a value.
ghost use Rattle.std.specs.Prelude.{◌≡◌, ℕ, ◌+◌, ◌/◌, ◌<◌, ◌≤◌, IfOk, ◌++◌, false, length, drop, if◌then◌else◌};
ghost use Rattle.wire_address.specs.Protocol.{protocol_number};
ghost use Rattle.wire_address.specs.Sum.{word_sum, folded, complement};
ghost use Rattle.base_device.specs.Capabilities.{verifies, computes};
ghost use Rattle.wire_ip.specs.Ipv4.{IsIpv4, IsQuoted, Fits, key_of, flags_and_offset, bytes_of, bytes_in, name_of, sent_fields, spelling, written_fragment};
ghost use Rattle.wire_ip.specs.Ipv4.{written};
ghost use Rattle.wire_ip.specs.declared.ipv4.fragment.Ipv4Fragment.{Ipv4Fragment};
ghost use Rattle.wire_ip.specs.declared.ipv4.repr.Ipv4Repr.{Ipv4Repr};
ghost use Rattle.wire_address.specs.declared.ipv4.Ipv4FragKey.{Ipv4FragKey};

use super::field::HEADER_LEN;
use super::fragment::Ipv4Fragment;
use super::packet::Ipv4Packet;
use super::packet_mut::Ipv4PacketMut;
use crate::parts::put_header;
use base_device::ChecksumCapabilities;
use wire_address::{Error, IpProtocol, Ipv4Address, Ipv4FragKey, checksum};

/// The header of a packet; the total length and the checksum follow from it.
#[derive(Clone, Copy, Debug, PartialEq, Eq)]
pub struct Ipv4Repr {
    pub src_addr: Ipv4Address,
    pub dst_addr: Ipv4Address,
    pub next_header: IpProtocol,
    pub payload_len: usize,
    pub hop_limit: u8,
    /// The identification, which the fragments of one datagram share.
    pub ident: u16,
    /// Whether the packet may not be cut.
    pub dont_frag: bool,
}

impl Ipv4Repr {
    /// The header of the packet in the bytes. Its checksum is tested where the capabilities say
    /// that the stack does so.
    pub fn parse(
        packet: &Ipv4Packet,
        checksum_caps: &ChecksumCapabilities,
    ) -> Result<Ipv4Repr, Error>
        ensures found { IfOk result
            (λ v. IsIpv4 (verifies checksum_caps.now.ipv4) (bytes_of packet.now) v) }
        ensures only { (v : Ipv4Repr)
            → IsIpv4 (verifies checksum_caps.now.ipv4) (bytes_of packet.now) v
            → result ≡ Ok v }
    {
        packet.check_len()?;
        if packet.version() != 4 {
            return Err(Error);
        }
        if checksum_caps.ipv4.rx() && !packet.verify_checksum() {
            return Err(Error);
        }
        Ok(Ipv4Repr {
            src_addr: packet.src_addr(),
            dst_addr: packet.dst_addr(),
            next_header: packet.next_header(),
            payload_len: packet.total_len() as usize - packet.header_len() as usize,
            hop_limit: packet.hop_limit(),
            ident: packet.ident(),
            dont_frag: packet.dont_frag(),
        })
    }

    /// The header at the front of the bytes, as an error message quotes it (RFC 792), and its
    /// length with its options. Neither total length nor checksum is tested: of the packet as much
    /// is there as the message had room for.
    pub fn parse_quoted(bytes: &[u8]) -> Result<(Ipv4Repr, usize), Error>
        ensures found { IfOk result (λ read. IsQuoted bytes.now read.0 read.1) }
        ensures only { (v : Ipv4Repr) (header_len : ℕ)
            → IsQuoted bytes.now v header_len
            → result ≡ Ok (v, header_len) }
    {
        if bytes.len() < HEADER_LEN {
            return Err(Error);
        }
        let packet = Ipv4Packet::new_unchecked(bytes);
        let header_len = packet.header_len() as usize;
        if packet.version() != 4 || header_len < HEADER_LEN || header_len > bytes.len() {
            return Err(Error);
        }
        let header = Ipv4Repr {
            src_addr: packet.src_addr(),
            dst_addr: packet.dst_addr(),
            next_header: packet.next_header(),
            payload_len: (packet.total_len() as usize).saturating_sub(header_len),
            hop_limit: packet.hop_limit(),
            ident: packet.ident(),
            dont_frag: packet.dont_frag(),
        };
        Ok((header, header_len))
    }

    /// The length of the header that is written.
    pub const fn buffer_len(&self) -> usize
        ensures { result ≡ 20 }
    {
        HEADER_LEN
    }

    /// What the fragments of a datagram with this header have in common.
    pub fn key(&self) -> Ipv4FragKey
        ensures { result ≡ key_of self.now }
    {
        Ipv4FragKey {
            id: self.ident,
            src_addr: self.src_addr,
            dst_addr: self.dst_addr,
            protocol: self.next_header,
        }
    }

    /// Writes the header, of 20 bytes, and leaves what lies after it. The checksum is written
    /// where the capabilities say that the stack computes it.
    pub fn emit(&self, packet: &mut Ipv4PacketMut, checksum_caps: &ChecksumCapabilities)
        requires room { 20 ≤ length (bytes_in packet.old) }
        requires fits { Fits self.now }
        ensures same_reference { name_of packet.new ≡ name_of packet.old }
        ensures bytes { bytes_in packet.new
            ≡ written (computes checksum_caps.now.ipv4) self.now ++ drop 20 (bytes_in packet.old) }
        ensures exact { length (bytes_in packet.old) ≡ 20
            → bytes_in packet.new ≡ written (computes checksum_caps.now.ipv4) self.now }
    {
        self.emit_ipv4_fragment(packet, 0, false, checksum_caps);
    }

    /// Writes the header of a fragment of a datagram: `payload_len` is the fragment's, `offset` says in
    /// bytes where it stands in the datagram's payload, cut to a multiple of eight, and `more` that
    /// more fragments follow.
    pub fn emit_ipv4_fragment(
        &self,
        packet: &mut Ipv4PacketMut,
        offset: u16,
        more: bool,
        checksum_caps: &ChecksumCapabilities,
    )
        requires room { 20 ≤ length (bytes_in packet.old) }
        requires fits { Fits self.now }
        ensures same_reference { name_of packet.new ≡ name_of packet.old }
        ensures bytes { bytes_in packet.new
            ≡ written_fragment (computes checksum_caps.now.ipv4) self.now offset more
            ++ drop 20 (bytes_in packet.old) }
        ensures exact { length (bytes_in packet.old) ≡ 20
            → bytes_in packet.new
            ≡ written_fragment (computes checksum_caps.now.ipv4) self.now offset more }
    {
        let fragment = Ipv4Fragment { offset, more };
        let protocol = self.next_header.into();
        let check = self.sent_checksum(protocol, fragment, checksum_caps.ipv4.tx());
        put_header(packet.buffer, self.header(protocol, fragment, check));
    }

    /// The header of this fragment with this checksum. The protocol is the number of the next header.
    fn header(&self, protocol: u8, fragment: Ipv4Fragment, check: u16) -> [u8; 20]
        requires fits { Fits self.now }
        requires protocol { protocol ≡ protocol_number self.now.next_header }
        ensures { result ≡ spelling self.now (sent_fields fragment check) }
    {
        let [source0, source1, source2, source3] = self.src_addr.0;
        let [destination0, destination1, destination2, destination3] = self.dst_addr.0;
        let [length_high, length_low] = ((HEADER_LEN + self.payload_len) as u16).to_be_bytes();
        let [ident_high, ident_low] = self.ident.to_be_bytes();
        let [flags_high, flags_low] = flags_and_offset(self.dont_frag, fragment).to_be_bytes();
        let [check_high, check_low] = check.to_be_bytes();
        [
            0x45,
            0,
            length_high,
            length_low,
            ident_high,
            ident_low,
            flags_high,
            flags_low,
            self.hop_limit,
            protocol,
            check_high,
            check_low,
            source0,
            source1,
            source2,
            source3,
            destination0,
            destination1,
            destination2,
            destination3,
        ]
    }

    /// The checksum that is transmitted: a right one, or 0 where none is computed.
    fn sent_checksum(&self, protocol: u8, fragment: Ipv4Fragment, sealed: bool) -> u16
        requires fits { Fits self.now }
        requires protocol { protocol ≡ protocol_number self.now.next_header }
        ensures { result
            ≡ (if sealed then complement (word_sum (spelling self.now (sent_fields fragment 0))) else 0) }
    {
        if sealed {
            !self.sum(protocol, fragment)
        } else {
            0
        }
    }

    /// The sum of the words of this fragment's header, its checksum left out. It is taken of the
    /// fields, which spares reading the bytes that were just written.
    fn sum(&self, protocol: u8, fragment: Ipv4Fragment) -> u16
        requires fits { Fits self.now }
        requires protocol { protocol ≡ protocol_number self.now.next_header }
        ensures { result ≡ folded (word_sum (spelling self.now (sent_fields fragment 0))) }
    {
        let [source0, source1, source2, source3] = self.src_addr.0;
        let [destination0, destination1, destination2, destination3] = self.dst_addr.0;
        checksum::combine(&[
            0x4500,
            (HEADER_LEN + self.payload_len) as u16,
            self.ident,
            flags_and_offset(self.dont_frag, fragment),
            u16::from_be_bytes([self.hop_limit, protocol]),
            u16::from_be_bytes([source0, source1]),
            u16::from_be_bytes([source2, source3]),
            u16::from_be_bytes([destination0, destination1]),
            u16::from_be_bytes([destination2, destination3]),
        ])
    }
}

/// The field of the flags and the offset, the reserved flag clear.
const fn flags_and_offset(dont_frag: bool, fragment: Ipv4Fragment) -> u16
    ensures { result ≡ flags_and_offset false dont_frag fragment }
{
    let dont = if dont_frag { 0x4000 } else { 0 };
    let more = if fragment.more { 0x2000 } else { 0 };
    dont + more + fragment.offset / 8
}
