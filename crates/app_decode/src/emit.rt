//! Packets written from their fields: links, IP and UDP.
ghost use Rattle.std.specs.Prelude.{◌≤◌, ◌+◌, length, IfSome};

use crate::emit_control::{emit_icmpv4, emit_icmpv6};
use crate::emit_tcp::emit_tcp;
use crate::fault::{FAMILIES, Fault, TOO_LONG};
use crate::room::{MOST, checksums, room};
use crate::words::Words;
use ip_wire::{
    ArpOperation, ArpPacketMut, ArpRepr, EthernetFrameMut, EthernetRepr, Ipv4PacketMut, Ipv4Repr,
    Ipv6FragmentHeaderMut, Ipv6FragmentRepr, Ipv6PacketMut, Ipv6Repr, UdpPacketMut, UdpRepr,
};
use std::alloc::Global;

/// The bytes of the packet that the words say. `nosum` before them leaves the checksums out.
pub(crate) fn emit<'a>(alloc: Global, text: &'a str) -> Result<Vec<u8>, Fault<'a>> {
    let (is_summed, text) = match text.strip_prefix("nosum ") {
        Some(rest) => (false, rest),
        None => (true, text),
    };
    let mut words = Words::new(text);
    match emit_words(alloc, &mut words, is_summed) {
        Some(bytes) => Ok(bytes),
        None => Err(words.fault()),
    }
}

// The same of its words. Where they have a fault, or there is no memory, there is no packet.
fn emit_words(alloc: Global, words: &mut Words<'_>, is_summed: bool) -> Option<Vec<u8>> {
    let format = words.word("format");
    match format {
        "ethernet" => emit_ethernet(alloc, words),
        "arp" => emit_arp(alloc, words),
        "ipv4" => emit_ipv4(alloc, words, false, is_summed),
        "piece" => emit_ipv4(alloc, words, true, is_summed),
        "ipv6" => emit_ipv6(alloc, words),
        "fragment" => emit_fragment(alloc, words),
        "udp" => emit_udp(alloc, words, is_summed),
        "tcp" => emit_tcp(alloc, words, is_summed),
        "icmpv4" => emit_icmpv4(alloc, words, is_summed),
        "icmpv6" => emit_icmpv6(alloc, words, is_summed),
        _ => words.refuse(Fault::no("format", format)),
    }
}

fn emit_ethernet(alloc: Global, words: &mut Words<'_>) -> Option<Vec<u8>> {
    let header = EthernetRepr {
        src_addr: words.hardware_addr("source"),
        dst_addr: words.hardware_addr("destination"),
        ethertype: words.ethertype(),
    };
    let mut bytes = with_payload(alloc, 14, words)?;
    header.emit(&mut EthernetFrameMut::new_unchecked(bytes.as_mut_slice()));
    Some(bytes)
}

fn emit_arp(alloc: Global, words: &mut Words<'_>) -> Option<Vec<u8>> {
    let packet = ArpRepr::EthernetIpv4 {
        operation: operation(words),
        source_protocol_addr: words.ipv4("sender"),
        source_hardware_addr: words.hardware_addr("sender's station"),
        target_protocol_addr: words.ipv4("target"),
        target_hardware_addr: words.hardware_addr("target's station"),
    };
    if !words.end() {
        return None;
    }
    let mut bytes = room(alloc, 28)?;
    packet.emit(&mut ArpPacketMut::new_unchecked(bytes.as_mut_slice()));
    Some(bytes)
}

// The number of an operation; with `?` before it the value that has no name.
fn operation(words: &mut Words<'_>) -> ArpOperation {
    let word = words.word("operation");
    let digits = word.strip_prefix('?').unwrap_or(word);
    match digits.parse().ok() {
        Some(number) if digits.len() < word.len() => ArpOperation::Unknown(number),
        Some(number) => ArpOperation::from(number),
        None => {
            words.no("operation", word);
            ArpOperation::Request
        }
    }
}

// The fields of an IPv4 header but for its payload's length.
pub(crate) fn ipv4_fields(words: &mut Words<'_>) -> Ipv4Repr {
    Ipv4Repr {
        src_addr: words.ipv4("source"),
        dst_addr: words.ipv4("destination"),
        next_header: words.protocol(),
        hop_limit: words.byte("ttl"),
        ident: words.short("id"),
        dont_frag: words.either("DF", "-", "DF or -"),
        payload_len: 0,
    }
}

// A whole packet, or a fragment of one, which says its offset.
fn emit_ipv4(
    alloc: Global,
    words: &mut Words<'_>,
    is_fragment: bool,
    is_summed: bool,
) -> Option<Vec<u8>> {
    let fields = ipv4_fields(words);
    let (offset, more) = if is_fragment {
        position(words)
    } else {
        (0, false)
    };
    let mut bytes = with_payload(alloc, 20, words)?;
    if bytes.len() > MOST {
        return words.refuse(TOO_LONG);
    }
    let header = Ipv4Repr {
        payload_len: bytes.len() - 20,
        ..fields
    };
    let mut packet = Ipv4PacketMut::new_unchecked(bytes.as_mut_slice());
    header.emit_ipv4_fragment(&mut packet, offset, more, &checksums(is_summed));
    Some(bytes)
}

// Where a fragment stands in its packet, and whether more follow.
fn position(words: &mut Words<'_>) -> (u16, bool) {
    let offset = words.short("offset");
    (offset, words.either("more", "last", "more or last"))
}

// The fields of an IPv6 header but for its payload's length.
pub(crate) fn ipv6_fields(words: &mut Words<'_>) -> Ipv6Repr {
    Ipv6Repr {
        src_addr: words.ipv6("source"),
        dst_addr: words.ipv6("destination"),
        next_header: words.protocol(),
        hop_limit: words.byte("hops"),
        payload_len: 0,
    }
}

fn emit_ipv6(alloc: Global, words: &mut Words<'_>) -> Option<Vec<u8>> {
    let fields = ipv6_fields(words);
    let mut bytes = with_payload(alloc, 40, words)?;
    let header = Ipv6Repr {
        payload_len: bytes.len() - 40,
        ..fields
    };
    header.emit(&mut Ipv6PacketMut::new_unchecked(bytes.as_mut_slice()));
    Some(bytes)
}

fn emit_fragment(alloc: Global, words: &mut Words<'_>) -> Option<Vec<u8>> {
    let ident = words.long("id");
    let (frag_offset, more_frags) = position(words);
    let header = Ipv6FragmentRepr {
        ident,
        frag_offset,
        more_frags,
    };
    if !words.end() {
        return None;
    }
    let mut bytes = room(alloc, 6)?;
    header.emit(&mut Ipv6FragmentHeaderMut::new_unchecked(bytes.as_mut_slice()));
    Some(bytes)
}

fn emit_udp(alloc: Global, words: &mut Words<'_>, is_summed: bool) -> Option<Vec<u8>> {
    let source = words.address("source");
    let destination = words.address("destination");
    let header = UdpRepr {
        src_port: words.short("source port"),
        dst_port: words.short("destination port"),
    };
    let payload = last_bytes(alloc, words)?;
    if payload.len() > MOST - 8 {
        return words.refuse(TOO_LONG);
    }
    if source.version() != destination.version() {
        return words.refuse(FAMILIES);
    }
    let mut bytes = room(alloc, 8 + payload.len())?;
    header.emit(
        &mut UdpPacketMut::new_unchecked(bytes.as_mut_slice()),
        &source,
        &destination,
        payload.as_slice(),
        &checksums(is_summed),
    );
    Some(bytes)
}

// Bytes for a header, so many, and after them what the packet carries: the line's last word.
fn with_payload(alloc: Global, header_len: usize, words: &mut Words<'_>) -> Option<Vec<u8>>
    ensures header { IfSome result (λ bytes. header_len ≤ length bytes.items) }
    ensures most { IfSome result (λ bytes. length bytes.items ≤ header_len + 0xffff) }
{
    let payload = last_bytes(alloc, words)?;
    let mut bytes = room(alloc, header_len)?;
    bytes.extend_from_slice(payload.as_slice()).ok()?;
    Some(bytes)
}

/// The bytes that a packet carries, which are a line's last word.
pub(crate) fn last_bytes(alloc: Global, words: &mut Words<'_>) -> Option<Vec<u8>>
    ensures { IfSome result (λ bytes. length bytes.items ≤ 0xffff) }
{
    let bytes = words.bytes(alloc, "pairs of hex digits");
    if !words.end() {
        return None;
    }
    if bytes.len() > MOST {
        words.note(TOO_LONG);
        return None;
    }
    Some(bytes)
}
