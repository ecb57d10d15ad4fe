//! Bytes that say that they carry TCP or UDP.
ghost use Rattle.std.specs.Prelude.{◌≡◌, ◌==◌, ◌<◌, ◌≤◌, ◌^◌, length, take, drop, slice_index};
ghost use Rattle.wire_address.specs.Fields.{be16};
ghost use Rattle.sim_link.specs.PacketInFrame.{names_tcp_or_udp, is_tcp_or_udp, has_ports_following};
ghost use Rattle.wire_ip.specs.Ipv6.{payload_of};

use crate::part::packet_in;
use base_device::Medium;
use ip_wire::{IPV6_HEADER_LEN, IpProtocol};
use wire_ipv6_headers::{Following, go_through};

/// Whether bytes say that they carry TCP or UDP, where an IPv4 header has its protocol, and after the
/// extension headers of IPv6, or are a fragment of an IPv6 datagram, which may carry them. Bytes that are too short say neither.
pub fn names_tcp_or_udp(medium: Medium, bytes: &[u8]) -> bool
    ensures { result ≡ names_tcp_or_udp medium bytes.now }
{
    match medium {
        Medium::Ethernet => match ethertype(bytes) {
            0x0800 => is_tcp_or_udp(byte_at(bytes, 23)),
            0x86dd => has_ports_following(packet_in(Medium::Ethernet, bytes)),
            _ => false,
        },
        Medium::Ip => match byte_at(bytes, 0) >> 4 {
            4 => is_tcp_or_udp(byte_at(bytes, 9)),
            6 => has_ports_following(bytes),
            _ => false,
        },
    }
}

/// Whether an IPv6 packet has TCP, UDP or a fragment of a datagram after its extension headers, if there are any.
fn has_ports_following(packet: &[u8]) -> bool
    ensures { result ≡ has_ports_following packet.now }
{
    let protocol = IpProtocol::from(byte_at(packet, 6));
    match go_through(protocol, payload_of(packet)) {
        Following::Upper {
            protocol: IpProtocol::Tcp | IpProtocol::Udp,
            ..
        }
        | Following::FragmentPart { .. } => true,
        _ => false,
    }
}

/// What an IPv6 packet carries, as much of it as is there.
fn payload_of(packet: &[u8]) -> &[u8]
    ensures payload { result.now ≡ payload_of packet.now }
    ensures short { length result.now < 2 ^ 16 }
{
    let len = payload_len(packet);
    front_of(following_header(packet), len)
}

// The payload length of an IPv6 packet, where bytes that aren't there are 0.
fn payload_len(packet: &[u8]) -> usize
    ensures value { result ≡ be16 packet.now 4 }
    ensures short { result < 2 ^ 16 }
{
    u16::from_be_bytes([byte_at(packet, 4), byte_at(packet, 5)]) as usize
}

/// What stands after the header of an IPv6 packet.
fn following_header(packet: &[u8]) -> &[u8]
    ensures { result.now ≡ drop 40 packet.now }
{
    match packet.split_at_checked(IPV6_HEADER_LEN) {
        Some((_header, rest)) => rest,
        None => &[],
    }
}

/// As many of the first bytes, or all of them.
fn front_of(bytes: &[u8], count: usize) -> &[u8]
    ensures front { result.now ≡ take count bytes.now }
    ensures few { length result.now ≤ count }
{
    match bytes.split_at_checked(count) {
        Some((front, _)) => front,
        None => bytes,
    }
}

fn is_tcp_or_udp(protocol: u8) -> bool
    ensures { result ≡ is_tcp_or_udp protocol }
{
    protocol == 6 || protocol == 17
}

// The number in bytes 12 and 13, where bytes that aren't there are 0.
pub(crate) fn ethertype(bytes: &[u8]) -> u16
    ensures { result ≡ be16 bytes.now 12 }
{
    word_at(bytes, 12)
}

// The number of two bytes, where bytes that aren't there are 0.
pub(crate) fn word_at(bytes: &[u8], offset: usize) -> u16
    requires { offset < 2 ^ 16 }
    ensures { result ≡ be16 bytes.now offset }
{
    u16::from_be_bytes([byte_at(bytes, offset), byte_at(bytes, offset + 1)])
}

// The byte at an offset, or 0 past the end.
fn byte_at(bytes: &[u8], offset: usize) -> u8
    ensures { result ≡ slice_index bytes.now offset }
{
    bytes.get(offset).copied().unwrap_or(0)
}
