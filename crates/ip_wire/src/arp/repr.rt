//! A packet as a value.
ghost use Rattle.std.specs.Prelude.{◌≡◌, ◌+◌, ◌*◌, ◌<◌, ◌≤◌, IfOk, ◌++◌, length, drop, slice_range};
ghost use Rattle.ip_wire.specs.Arp.{IsArp, bytes_of, bytes_in, name_of, written};
ghost use Rattle.ip_wire.specs.declared.arp.repr.ArpRepr.{ArpRepr};

use super::field;
use super::kinds::ArpOperation;
use super::packet::ArpPacket;
use super::packet_mut::ArpPacketMut;
use wire_address::network_order::read_u16;
use wire_address::{Error, EthernetAddress, Ipv4Address};

/// What a packet says.
#[derive(Clone, Copy, Debug, PartialEq, Eq)]
pub enum ArpRepr {
    /// Over Ethernet, for IPv4.
    EthernetIpv4 {
        operation: ArpOperation,
        source_hardware_addr: EthernetAddress,
        source_protocol_addr: Ipv4Address,
        target_hardware_addr: EthernetAddress,
        target_protocol_addr: Ipv4Address,
    },
}

impl ArpRepr {
    /// What the packet in the bytes says. Packets of other kinds than over Ethernet for IPv4 are
    /// refused.
    pub fn parse(packet: &ArpPacket) -> Result<ArpRepr, Error>
        ensures found { IfOk result (λ v. IsArp (bytes_of packet.now) v) }
        ensures only { (v : ArpRepr) → IsArp (bytes_of packet.now) v → result ≡ Ok v }
    {
        if packet.buffer.len() < field::PACKET_LEN {
            return Err(Error);
        }
        let kinds = [
            read_u16(packet.buffer, field::HTYPE.start),
            read_u16(packet.buffer, field::PTYPE.start),
        ];
        if kinds[0] != 1 || kinds[1] != 0x0800 {
            return Err(Error);
        }
        if packet.hardware_len() != 6 || packet.protocol_len() != 4 {
            return Err(Error);
        }
        Ok(ArpRepr::EthernetIpv4 {
            operation: packet.operation(),
            source_hardware_addr: EthernetAddress(six(packet.buffer, 8)),
            source_protocol_addr: Ipv4Address(four(packet.buffer, 14)),
            target_hardware_addr: EthernetAddress(six(packet.buffer, 18)),
            target_protocol_addr: Ipv4Address(four(packet.buffer, 24)),
        })
    }

    /// The length of the packet.
    pub const fn buffer_len(&self) -> usize
        ensures { result ≡ 28 }
    {
        match self {
            ArpRepr::EthernetIpv4 { .. } => field::PACKET_LEN,
        }
    }

    /// Writes the packet, of 28 bytes, and leaves what lies after it.
    pub fn emit(&self, packet: &mut ArpPacketMut)
        requires { 28 ≤ length (bytes_in packet.old) }
        ensures same_reference { name_of packet.new ≡ name_of packet.old }
        ensures bytes { bytes_in packet.new ≡ written self.now ++ drop 28 (bytes_in packet.old) }
        ensures exact { length (bytes_in packet.old) ≡ 28 → bytes_in packet.new ≡ written self.now }
    {
        match self {
            ArpRepr::EthernetIpv4 {
                operation,
                source_hardware_addr,
                source_protocol_addr,
                target_hardware_addr,
                target_protocol_addr,
            } => {
                let [high, low] = u16::from(*operation).to_be_bytes();
                put_packet(
                    packet.buffer,
                    &[0, 1, 8, 0, 6, 4, high, low],
                    &source_hardware_addr.0,
                    &source_protocol_addr.0,
                    &target_hardware_addr.0,
                    &target_protocol_addr.0,
                );
            }
        }
    }
}

/// The four bytes at `at`.
fn four(bytes: &[u8], at: usize) -> [u8; 4]
    requires { at + 4 ≤ length bytes.now }
    ensures { result ≡ slice_range bytes.now at (at + 4) }
{
    let mut octets = [0; 4];
    octets.copy_from_slice(&bytes[at..at + 4]);
    octets
}

/// The six bytes at `at`.
fn six(bytes: &[u8], at: usize) -> [u8; 6]
    requires { at + 6 ≤ length bytes.now }
    ensures { result ≡ slice_range bytes.now at (at + 6) }
{
    let mut octets = [0; 6];
    octets.copy_from_slice(&bytes[at..at + 6]);
    octets
}

/// Writes a packet of 28 bytes at the front.
fn put_packet(
    bytes: &mut [u8],
    header: &[u8; 8],
    source_hardware: &[u8; 6],
    source_protocol: &[u8; 4],
    target_hardware: &[u8; 6],
    target_protocol: &[u8; 4],
)
    requires { 28 ≤ length bytes.old }
    ensures front { bytes.new
        ≡ (header.now ++ (source_hardware.now ++ (source_protocol.now ++ (target_hardware.now ++ target_protocol.now)))) ++ drop 28 bytes.old }
    ensures exact { length bytes.old ≡ 28
        → bytes.new
        ≡ header.now ++ (source_hardware.now ++ (source_protocol.now ++ (target_hardware.now ++ target_protocol.now))) }
{
    let (front, rest) = bytes.split_at_mut(8);
    front.copy_from_slice(header);
    let (sender, rest) = rest.split_at_mut(10);
    put_pair(sender, source_hardware, source_protocol);
    let (target, _rest) = rest.split_at_mut(10);
    put_pair(target, target_hardware, target_protocol);
}

/// Writes the two addresses of a host.
fn put_pair(bytes: &mut [u8], hardware: &[u8; 6], protocol: &[u8; 4])
    requires { length bytes.old ≡ 10 }
    ensures { bytes.new ≡ hardware.now ++ protocol.now }
{
    let (front, back) = bytes.split_at_mut(6);
    front.copy_from_slice(hardware);
    back.copy_from_slice(protocol);
}
