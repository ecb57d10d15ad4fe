//! The header of a packet as a value.
ghost use Rattle.std.specs.Prelude.{◌≡◌, ℕ, ◌+◌, ◌/◌, ◌<◌, ◌≤◌, IfOk, ◌++◌, length, drop};
ghost use Rattle.wire_ip.specs.Ipv6.{IsIpv6, IsQuoted, Fits, bytes_of, bytes_in, name_of, written};
ghost use Rattle.wire_ip.specs.declared.ipv6.repr.Ipv6Repr.{Ipv6Repr};

use super::field::HEADER_LEN;
use super::packet::Ipv6Packet;
use super::packet_mut::Ipv6PacketMut;
use crate::parts::put_front;
use wire_address::{Error, IpProtocol, Ipv6Address};

/// The header of a packet.
#[derive(Clone, Copy, Debug, PartialEq, Eq)]
pub struct Ipv6Repr {
    pub src_addr: Ipv6Address,
    pub dst_addr: Ipv6Address,
    pub next_header: IpProtocol,
    pub payload_len: usize,
    pub hop_limit: u8,
}

impl Ipv6Repr {
    /// The header of the packet in the bytes.
    pub fn parse(packet: &Ipv6Packet) -> Result<Ipv6Repr, Error>
        ensures found { IfOk result (λ v. IsIpv6 (bytes_of packet.now) v) }
        ensures only { (v : Ipv6Repr) → IsIpv6 (bytes_of packet.now) v → result ≡ Ok v }
    {
        packet.check_len()?;
        if packet.version() != 6 {
            return Err(Error);
        }
        Ok(Ipv6Repr {
            src_addr: packet.src_addr(),
            dst_addr: packet.dst_addr(),
            next_header: packet.next_header(),
            payload_len: packet.payload_len() as usize,
            hop_limit: packet.hop_limit(),
        })
    }

    /// The header at the front of the bytes, as an error message quotes it (RFC 4443, section
    /// 2.4), and its length. Of the payload as much is there as the message had room for.
    pub fn parse_quoted(bytes: &[u8]) -> Result<(Ipv6Repr, usize), Error>
        ensures found { IfOk result (λ read. IsQuoted bytes.now read.0 read.1) }
        ensures only { (v : Ipv6Repr) (header_len : ℕ)
            → IsQuoted bytes.now v header_len
            → result ≡ Ok (v, header_len) }
    {
        if bytes.len() < HEADER_LEN {
            return Err(Error);
        }
        let packet = Ipv6Packet::new_unchecked(bytes);
        let version = packet.version();
        if version != 6 {
            return Err(Error);
        }
        let header = Ipv6Repr {
            src_addr: packet.src_addr(),
            dst_addr: packet.dst_addr(),
            next_header: packet.next_header(),
            payload_len: packet.payload_len() as usize,
            hop_limit: packet.hop_limit(),
        };
        Ok((header, HEADER_LEN))
    }

    /// The length of the header.
    pub const fn buffer_len(&self) -> usize
        ensures { result ≡ 40 }
    {
        HEADER_LEN
    }

    /// Writes the header, of 40 bytes, and leaves what lies after it.
    pub fn emit(&self, packet: &mut Ipv6PacketMut)
        requires room { 40 ≤ length (bytes_in packet.old) }
        requires fits { Fits self.now }
        ensures same_reference { name_of packet.new ≡ name_of packet.old }
        ensures bytes { bytes_in packet.new ≡ written self.now ++ drop 40 (bytes_in packet.old) }
        ensures exact { length (bytes_in packet.old) ≡ 40 → bytes_in packet.new ≡ written self.now }
    {
        let [length_high, length_low] = (self.payload_len as u16).to_be_bytes();
        let front = [
            0x60,
            0,
            0,
            0,
            length_high,
            length_low,
            self.next_header.into(),
            self.hop_limit,
        ];
        put_front(packet.buffer, &front, &self.src_addr.0, &self.dst_addr.0);
    }
}
