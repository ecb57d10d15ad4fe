//! The header of a datagram as a value.
ghost use Rattle.std.specs.Prelude.{◌≡◌, ℕ, ◌+◌, ◌<◌, ◌≤◌, ◌^◌, true, IfOk, List, ◌++◌, length, drop};
ghost use Rattle.std.specs.Fn.{FnOnceTakesAtMut, FnOnceReturnsAtMut};
ghost use Rattle.wire_address.specs.Address.{version_of};
ghost use Rattle.wire_address.specs.Fields.{put16};
ghost use Rattle.wire_address.specs.declared.ip.IpAddress.{IpAddress};
ghost use Rattle.wire_address.specs.Pseudo.{covered};
ghost use Rattle.wire_address.specs.Sum.{word_sum, folded};
ghost use Rattle.base_device.specs.Capabilities.{verifies, computes};
ghost use Rattle.wire_ip.specs.Udp.{IsUdp, Fits, bytes_of, bytes_in, name_of, spelling, written, nonzero_complement};
ghost use Rattle.wire_ip.specs.declared.udp.repr.UdpRepr.{UdpRepr};

use super::field::{self, HEADER_LEN};
use super::packet::UdpPacket;
use super::packet_mut::UdpPacketMut;
use crate::pseudo_sums;
use base_device::ChecksumCapabilities;
use wire_address::network_order::write_u16;
use wire_address::{Error, IpAddress, IpProtocol, checksum};

/// The header of a datagram; length and checksum follow from the payload and the addresses.
#[derive(Clone, Copy, Debug, PartialEq, Eq)]
pub struct UdpRepr {
    pub src_port: u16,
    pub dst_port: u16,
}

impl UdpRepr {
    /// The header of the datagram in the bytes. Its checksum is tested where the capabilities say
    /// that the stack does so.
    pub fn parse(
        packet: &UdpPacket,
        source: &IpAddress,
        destination: &IpAddress,
        checksum_caps: &ChecksumCapabilities,
    ) -> Result<UdpRepr, Error>
        requires { version_of source.now ≡ version_of destination.now }
        ensures found { IfOk result
            (λ v. IsUdp source.now destination.now (verifies checksum_caps.now.udp) (bytes_of packet.now) v) }
        ensures only { (v : UdpRepr)
            → IsUdp source.now destination.now (verifies checksum_caps.now.udp) (bytes_of packet.now) v
            → result ≡ Ok v }
    {
        packet.check_len()?;
        if packet.dst_port() == 0 {
            return Err(Error);
        }
        if checksum_caps.udp.rx() && !packet.verify_checksum(source, destination) {
            return Err(Error);
        }
        Ok(UdpRepr {
            src_port: packet.src_port(),
            dst_port: packet.dst_port(),
        })
    }

    /// The length of the header.
    pub const fn header_len(&self) -> usize
        ensures { result ≡ 8 }
    {
        HEADER_LEN
    }

    /// The length of the datagram with so many bytes of payload.
    pub const fn buffer_len(&self, payload_len: usize) -> usize
        requires { 8 + payload_len < 2 ^ 64 }
        ensures { result ≡ 8 + payload_len }
    {
        HEADER_LEN + payload_len
    }

    /// Writes the datagram over the whole buffer, with a checksum where the capabilities say that
    /// the stack computes it.
    pub fn emit(
        &self,
        packet: &mut UdpPacketMut,
        source: &IpAddress,
        destination: &IpAddress,
        payload: &[u8],
        checksum_caps: &ChecksumCapabilities,
    )
        requires room { length (bytes_in packet.old) ≡ 8 + length payload.now }
        requires fits { Fits source.now destination.now payload.now }
        ensures same_reference { name_of packet.new ≡ name_of packet.old }
        ensures bytes { bytes_in packet.new
            ≡ written source.now destination.now (computes checksum_caps.now.udp) self.now payload.now }
    {
        if !checksum_caps.udp.tx() {
            self.spell(packet.buffer, payload);
        } else if payload.len() < checksum::WORTH_COPYING {
            self.spell(packet.buffer, payload);
            seal(packet.buffer, source, destination);
        } else {
            self.spell_sealed(packet.buffer, source, destination, payload);
        }
    }

    /// Writes the datagram over the whole buffer as `emit` does, its payload as the closure leaves
    /// it in its offset. The closure finds there what the buffer held.
    pub fn emit_with<F: FnOnce(&mut [u8])>(
        &self,
        packet: &mut UdpPacketMut,
        source: &IpAddress,
        destination: &IpAddress,
        payload_len: usize,
        emit_payload: F,
        checksum_caps: &ChecksumCapabilities,
    )
        requires room { length (bytes_in packet.old) ≡ 8 + payload_len }
        requires fits { 8 + payload_len < 2 ^ 16 }
        requires family { version_of source.now ≡ version_of destination.now }
        requires callable { FnOnceTakesAtMut F.FnOnce emit_payload (drop 8 (bytes_in packet.old)) }
        ensures same_reference { name_of packet.new ≡ name_of packet.old }
        ensures bytes { (payload : List ℕ)
            × FnOnceReturnsAtMut F.FnOnce emit_payload (drop 8 (bytes_in packet.old)) tt payload
            × (length payload ≡ payload_len)
            × (bytes_in packet.new
            ≡ written source.now destination.now (computes checksum_caps.now.udp) self.now payload) }
    {
        self.spell_with(packet.buffer, payload_len, emit_payload);
        if checksum_caps.udp.tx() {
            seal(packet.buffer, source, destination);
        }
    }

    /// Writes the datagram without a checksum.
    fn spell(&self, bytes: &mut [u8], payload: &[u8])
        requires room { length bytes.old ≡ 8 + length payload.now }
        requires fits { 8 + length payload.now < 2 ^ 16 }
        ensures { bytes.new ≡ spelling self.now payload.now 0 }
    {
        let (header, rest) = bytes.split_at_mut(HEADER_LEN);
        header.copy_from_slice(&self.header(payload.len()));
        rest.copy_from_slice(payload);
    }

    /// Writes the datagram with its checksum, in one pass over the payload.
    fn spell_sealed(
        &self,
        bytes: &mut [u8],
        source: &IpAddress,
        destination: &IpAddress,
        payload: &[u8],
    )
        requires room { length bytes.old ≡ 8 + length payload.now }
        requires fits { Fits source.now destination.now payload.now }
        ensures { bytes.new ≡ written source.now destination.now true self.now payload.now }
    {
        let (header, rest) = bytes.split_at_mut(HEADER_LEN);
        header.copy_from_slice(&self.header(payload.len()));
        let sum = checksum::copy(rest, payload);
        seal_header(header, source, destination, payload.len(), sum);
    }

    /// Writes the datagram without a checksum, its payload by the closure.
    fn spell_with<F: FnOnce(&mut [u8])>(
        &self,
        bytes: &mut [u8],
        payload_len: usize,
        emit_payload: F,
    )
        requires room { length bytes.old ≡ 8 + payload_len }
        requires fits { 8 + payload_len < 2 ^ 16 }
        requires callable { FnOnceTakesAtMut F.FnOnce emit_payload (drop 8 bytes.old) }
        ensures { (payload : List ℕ)
            × FnOnceReturnsAtMut F.FnOnce emit_payload (drop 8 bytes.old) tt payload
            × (length payload ≡ payload_len)
            × (bytes.new ≡ spelling self.now payload 0) }
    {
        let (header, rest) = bytes.split_at_mut(HEADER_LEN);
        header.copy_from_slice(&self.header(payload_len));
        emit_payload(rest);
    }

    /// The header before so many bytes of payload, without a checksum.
    fn header(&self, payload_len: usize) -> [u8; 8]
        requires { 8 + payload_len < 2 ^ 16 }
        ensures { (payload : List ℕ)
            → length payload ≡ payload_len
            → result ++ payload ≡ spelling self.now payload 0 }
    {
        let [source_high, source_low] = self.src_port.to_be_bytes();
        let [destination_high, destination_low] = self.dst_port.to_be_bytes();
        let [length_high, length_low] = ((HEADER_LEN + payload_len) as u16).to_be_bytes();
        [
            source_high,
            source_low,
            destination_high,
            destination_low,
            length_high,
            length_low,
            0,
            0,
        ]
    }
}

/// Puts the checksum of a whole datagram into its field, which holds 0.
fn seal(bytes: &mut [u8], source: &IpAddress, destination: &IpAddress)
    requires header { 8 ≤ length bytes.old }
    requires fits { length bytes.old < 2 ^ 16 }
    requires family { version_of source.now ≡ version_of destination.now }
    ensures { bytes.new
        ≡ put16 bytes.old 6 (nonzero_complement (covered source.now destination.now 17 bytes.old)) }
{
    let sum = pseudo_sums::sum(source, destination, IpProtocol::Udp, bytes);
    write_u16(
        bytes,
        field::CHECKSUM.start,
        pseudo_sums::sent_complement(sum),
    );
}

/// Puts the checksum of a datagram into its header, whose field holds 0. Of the payload the length
/// and the sum are known.
fn seal_header(
    header: &mut [u8],
    source: &IpAddress,
    destination: &IpAddress,
    payload_len: usize,
    payload_sum: u16,
)
    requires header { length header.old ≡ 8 }
    requires fits { 8 + payload_len < 2 ^ 16 }
    requires family { version_of source.now ≡ version_of destination.now }
    ensures { (payload : List ℕ) → length payload ≡ payload_len → payload_sum ≡ folded (word_sum payload)
        → header.new ++ payload
        ≡ put16 (header.old ++ payload) 6 (nonzero_complement (covered source.now destination.now 17 (header.old ++ payload))) }
{
    let length = (HEADER_LEN + payload_len) as u32;
    let pseudo = checksum::pseudo_header(source, destination, IpProtocol::Udp, length);
    let front = checksum::add(pseudo, checksum::data(header));
    let sum = checksum::add(front, payload_sum);
    write_u16(
        header,
        field::CHECKSUM.start,
        pseudo_sums::sent_complement(sum),
    );
}
