//! Where a frame has its packet, and where its TCP segment.
ghost use Rattle.std.specs.Prelude.{◌≡◌, ◌+◌, ◌≤◌, ◌&&◌, ◌==◌, ◌/◌, IfSome, length, slice_index};
ghost use Rattle.std.specs.Bool.{OnTrue};
ghost use Rattle.base_device.specs.Capabilities.{frame_header};
ghost use Rattle.wire_address.specs.Fields.{be16};
ghost use Rattle.wire_ip.specs.Ipv4.{header_len_of};
ghost use Rattle.sim_link.specs.PacketInFrame.{packet_in};
ghost use Rattle.sim_link.specs.Parts.{may_carry, is_ipv4, is_uncut, is_ipv6, begins_fragments, tcp_part};

use crate::names::{ethertype, word_at};
use base_device::Medium;
use wire_address::network_order::read_u16;
use wire_ip::Ipv4Packet;

/// A run of bytes in a frame.
#[derive(Clone, Copy, Debug, PartialEq, Eq)]
pub struct Part {
    /// Where it begins.
    pub at: usize,
    /// How many bytes it has.
    pub len: usize,
}

/// Where a frame has a TCP segment, if it carries one in a packet that nobody cut.
pub fn tcp_part(medium: Medium, frame: &[u8]) -> Option<Part>
    ensures value { result ≡ tcp_part medium frame.now }
    ensures within { IfSome result (λ part. part.at + part.len ≤ length frame.now) }
{
    let packet = packet_in(medium, frame);
    let header = frame.len() - packet.len();
    if may_carry(medium, 0x0800, frame) && is_tcp_over_ipv4(packet) {
        let following = Ipv4Packet::new_unchecked(packet).header_len() as usize;
        Some(Part {
            at: header + following,
            len: read_u16(packet, 2) as usize - following,
        })
    } else if may_carry(medium, 0x86dd, frame) && is_tcp_over_ipv6(packet) {
        Some(Part {
            at: header + 40,
            len: read_u16(packet, 4) as usize,
        })
    } else {
        None
    }
}

/// The packet that a frame carries; none where the frame has no room for its own header.
pub fn packet_in(medium: Medium, frame: &[u8]) -> &[u8]
    ensures { result.now ≡ packet_in medium frame.now }
{
    let header = match medium {
        Medium::Ethernet => 14,
        Medium::Ip => 0,
    };
    if header <= frame.len() {
        &frame[header..]
    } else {
        &[]
    }
}

pub(crate) fn may_carry(medium: Medium, number: u16, frame: &[u8]) -> bool
    ensures { result ≡ may_carry medium number frame.now }
{
    match medium {
        Medium::Ethernet => ethertype(frame) == number,
        Medium::Ip => true,
    }
}

// An IPv4 header whose lengths fit the bytes.
pub(crate) fn is_ipv4(packet: &[u8]) -> bool
    ensures value { result ≡ is_ipv4 packet.now }
    ensures room { OnTrue result (20 ≤ length packet.now) }
    ensures least { OnTrue result (header_len_of packet.now ≤ be16 packet.now 2) }
    ensures within { OnTrue result (be16 packet.now 2 ≤ length packet.now) }
{
    if packet.len() < 20 || packet[0] / 16 != 4 {
        return false;
    }
    let view = Ipv4Packet::new_unchecked(packet);
    let header = view.header_len() as usize;
    let total = view.total_len() as usize;
    20 <= header && header <= total && total <= packet.len()
}

// An IPv4 packet that nobody cut, with a TCP segment.
fn is_tcp_over_ipv4(packet: &[u8]) -> bool
    ensures value { result ≡ (is_ipv4 packet.now && is_uncut packet.now && (slice_index packet.now 9 == 6)) }
    ensures room { OnTrue result (20 ≤ length packet.now) }
    ensures least { OnTrue result (header_len_of packet.now ≤ be16 packet.now 2) }
    ensures within { OnTrue result (be16 packet.now 2 ≤ length packet.now) }
{
    is_ipv4(packet) && read_u16(packet, 6) % 0x4000 == 0 && packet[9] == 6
}

// An IPv6 header, and the payload that its length names.
fn is_ipv6(packet: &[u8]) -> bool
    ensures value { result ≡ is_ipv6 packet.now }
    ensures room { OnTrue result (40 ≤ length packet.now) }
    ensures within { OnTrue result (40 + be16 packet.now 4 ≤ length packet.now) }
{
    if packet.len() < 40 || packet[0] / 16 != 6 {
        return false;
    }
    read_u16(packet, 4) as usize <= packet.len() - 40
}

// An IPv6 packet with a TCP segment right after its header.
fn is_tcp_over_ipv6(packet: &[u8]) -> bool
    ensures value { result ≡ (is_ipv6 packet.now && (slice_index packet.now 6 == 6)) }
    ensures within { OnTrue result (40 + be16 packet.now 4 ≤ length packet.now) }
{
    is_ipv6(packet) && packet[6] == 6
}

/// Whether a frame carries the first fragment of an IPv6 datagram, or the whole of one that has a fragment header.
pub fn begins_fragments(medium: Medium, frame: &[u8]) -> bool
    ensures { result ≡ begins_fragments medium frame.now }
{
    let packet = packet_in(medium, frame);
    may_carry(medium, 0x86dd, frame)
        && is_ipv6(packet)
        && packet[6] == 44
        && word_at(packet, 42) / 8 == 0
}
