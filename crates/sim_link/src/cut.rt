//! An IPv4 frame, cut in two.
ghost use Rattle.std.specs.Prelude.{◌≡◌, ◌+◌, ◌<◌, ◌≤◌, ◌^◌, ◌++◌, true, IsSome, IfSome, IfOk, length};
ghost use Rattle.std.specs.Option.{ForSome};
ghost use Rattle.wire_ip.specs.Ipv4 as ipv4;
ghost use Rattle.sim_link.specs.Cuts.{ipv4_part, header_for, fragment_with, first_fragment, second_fragment};

use crate::part::{Part, is_ipv4, may_carry, packet_in};
use base_device::{ChecksumCapabilities, Medium};
use std::alloc::{AllocError, Global};
use wire_ip::{Ipv4Packet, Ipv4PacketMut, Ipv4Repr};

/// Where a frame has the payload of an IPv4 packet, if it carries one.
pub fn ipv4_part(medium: Medium, frame: &[u8]) -> Option<Part>
    ensures value { result ≡ ipv4_part medium frame.now }
    ensures within { IfSome result (λ part. part.at + part.len ≤ length frame.now) }
{
    let packet = packet_in(medium, frame);
    if !may_carry(medium, 0x0800, frame) || !is_ipv4(packet) {
        return None;
    }
    let view = Ipv4Packet::new_unchecked(packet);
    let header = view.header_len() as usize;
    Some(Part {
        at: frame.len() - packet.len() + header,
        len: view.total_len() as usize - header,
    })
}

/// Cuts a frame of an IPv4 packet in two after so many bytes of the packet's payload.
pub fn cut_frame(
    alloc: Global,
    medium: Medium,
    frame: &[u8],
    at: usize,
) -> Result<(Vec<u8>, Vec<u8>), AllocError>
    requires offset { ForSome (ipv4_part medium frame.now) (λ part. at ≤ part.len) }
    requires ipv4 { IsSome (ipv4_part medium frame.now) }
    ensures first { IfOk result (λ fragments. fragments.0.items ≡ first_fragment medium frame.now at) }
    ensures second { IfOk result (λ fragments. fragments.1.items ≡ second_fragment medium frame.now at) }
{
    let packet = packet_in(medium, frame);
    let link = &frame[..frame.len() - packet.len()];
    let view = Ipv4Packet::new_unchecked(packet);
    let fragment = view.fragment();
    let (front, back) = view.payload().split_at(at);
    let first = fragment_with(alloc, link, &view, fragment.offset, true, front)?;
    let later = fragment.offset.wrapping_add(at as u16);
    let second = fragment_with(alloc, link, &view, later, fragment.more, back)?;
    Ok((first, second))
}

// A frame with this link header and a fragment of the packet.
fn fragment_with(
    alloc: Global,
    link: &[u8],
    packet: &Ipv4Packet<'_>,
    offset: u16,
    more: bool,
    bytes: &[u8],
) -> Result<Vec<u8>, AllocError>
    requires room { 20 ≤ length (ipv4.bytes_of packet.now) }
    requires fits { 20 + length bytes.now < 2 ^ 16 }
    ensures { IfOk result (λ frame. frame.items
        ≡ link.now ++ fragment_with (ipv4.bytes_of packet.now) offset more bytes.now) }
{
    let header = header(packet, offset, more, bytes.len());
    let mut frame = Vec::new(alloc);
    frame.extend_from_slice(link)?;
    frame.extend_from_slice(&header)?;
    frame.extend_from_slice(bytes)?;
    Ok(frame)
}

// The header of a fragment with so many bytes of payload.
fn header(packet: &Ipv4Packet<'_>, offset: u16, more: bool, payload_len: usize) -> [u8; 20]
    requires room { 20 ≤ length (ipv4.bytes_of packet.now) }
    requires fits { 20 + payload_len < 2 ^ 16 }
    ensures { result ≡ ipv4.written_fragment true (header_for (ipv4.bytes_of packet.now) payload_len) offset more }
{
    let header = Ipv4Repr {
        src_addr: packet.src_addr(),
        dst_addr: packet.dst_addr(),
        next_header: packet.next_header(),
        payload_len,
        hop_limit: packet.hop_limit(),
        ident: packet.ident(),
        dont_frag: packet.dont_frag(),
    };
    let mut bytes = [0; 20];
    let mut written = Ipv4PacketMut::new_unchecked(&mut bytes);
    header.emit_ipv4_fragment(&mut written, offset, more, &ChecksumCapabilities::default());
    bytes
}
