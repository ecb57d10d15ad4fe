//! Control messages written from their fields.
ghost use Rattle.std.specs.Prelude.{◌≤◌, length, List, ℕ};
ghost use Rattle.ip_wire.specs.Ipv4 as Ipv4;
ghost use Rattle.ip_wire.specs.Ipv6 as Ipv6;
ghost use Rattle.control_wire.specs.Icmpv4 as Icmpv4;
ghost use Rattle.control_wire.specs.Icmpv6.{Fits, CanCarry, value_of};

use crate::emit::{ipv4_fields, ipv6_fields, last_bytes};
use crate::fault::TOO_LONG;
use crate::room::{MOST, checksums, room};
use crate::words::Words;
use control_wire::{
    Icmpv4DstUnreachable, Icmpv4Header, Icmpv4PacketMut, Icmpv4TimeExceeded, Icmpv6DstUnreachable,
    Icmpv6Header, Icmpv6PacketMut, Icmpv6ParamProblem, Icmpv6TimeExceeded, NdiscNeighborFlags,
    NdiscRepr,
};
use ip_wire::{Ipv4Repr, Ipv6Address, Ipv6Repr, RawHardwareAddress};
use std::alloc::Global;

/// A message of IPv4: an echo, or an error with the header that it quotes.
pub(crate) fn emit_icmpv4(
    alloc: Global,
    words: &mut Words<'_>,
    is_summed: bool,
) -> Option<Vec<u8>> {
    let kind = words.word("message");
    let header = header4(kind, words);
    let payload = last_bytes(alloc, words)?;
    write4(alloc, &header, payload.as_slice(), is_summed)
}

fn header4<'a>(kind: &'a str, words: &mut Words<'a>) -> Icmpv4Header
    ensures { Icmpv4.Fits result }
{
    match kind {
        "request" => Icmpv4Header::EchoRequest {
            ident: words.short("id"),
            seq_no: words.short("seq"),
        },
        "reply" => Icmpv4Header::EchoReply {
            ident: words.short("id"),
            seq_no: words.short("seq"),
        },
        "unreachable" => Icmpv4Header::DstUnreachable {
            reason: unreachable4(words),
            header: quoted4(words),
        },
        "exceeded" => Icmpv4Header::TimeExceeded {
            reason: exceeded4(words),
            header: quoted4(words),
        },
        _ => {
            words.no("message", kind);
            Icmpv4Header::EchoRequest {
                ident: 0,
                seq_no: 0,
            }
        }
    }
}

fn write4(alloc: Global, header: &Icmpv4Header, payload: &[u8], is_summed: bool) -> Option<Vec<u8>>
    requires fits { Icmpv4.Fits header.now }
    requires small { length payload.now ≤ 0xffff }
{
    let mut bytes = room(alloc, header.header_len() + payload.len())?;
    let mut packet = Icmpv4PacketMut::new_unchecked(bytes.as_mut_slice());
    header.emit(&mut packet, payload, &checksums(is_summed));
    Some(bytes)
}

fn unreachable4(words: &mut Words<'_>) -> Icmpv4DstUnreachable {
    let (code, is_named) = words.code();
    if is_named {
        Icmpv4DstUnreachable::from(code)
    } else {
        Icmpv4DstUnreachable::Unknown(code)
    }
}

fn exceeded4(words: &mut Words<'_>) -> Icmpv4TimeExceeded {
    let (code, is_named) = words.code();
    if is_named {
        Icmpv4TimeExceeded::from(code)
    } else {
        Icmpv4TimeExceeded::Unknown(code)
    }
}

// A quoted header, and how many bytes it says that it carries.
fn quoted4(words: &mut Words<'_>) -> Ipv4Repr
    ensures { Ipv4.Fits result }
{
    let fields = ipv4_fields(words);
    let payload_len = usize::from(words.short("length"));
    let is_long = payload_len > MOST - 20;
    if is_long {
        words.note(TOO_LONG);
    }
    Ipv4Repr {
        payload_len: if is_long { 0 } else { payload_len },
        ..fields
    }
}

/// A message of IPv6 between two addresses: an echo, an error with the header that it quotes, or a neighbour message.
pub(crate) fn emit_icmpv6(
    alloc: Global,
    words: &mut Words<'_>,
    is_summed: bool,
) -> Option<Vec<u8>> {
    let source = words.ipv6("source");
    let destination = words.ipv6("destination");
    let ends = (&source, &destination);
    let kind = words.word("message");
    let message = match kind {
        "solicit" => solicit(alloc, words),
        "advert" => advert(alloc, words),
        _ => {
            let header = header6(kind, words);
            let payload = last_bytes(alloc, words)?;
            return write6(alloc, ends, &header, payload.as_slice(), is_summed);
        }
    };
    if words.end() {
        write6(alloc, ends, &Icmpv6Header::Ndisc(message), &[], is_summed)
    } else {
        None
    }
}

fn header6<'a>(kind: &'a str, words: &mut Words<'a>) -> Icmpv6Header
    ensures fits { Fits (value_of result) }
    ensures carries { (bytes : List ℕ) → CanCarry (value_of result) bytes }
{
    match kind {
        "request" => Icmpv6Header::EchoRequest {
            ident: words.short("id"),
            seq_no: words.short("seq"),
        },
        "reply" => Icmpv6Header::EchoReply {
            ident: words.short("id"),
            seq_no: words.short("seq"),
        },
        "unreachable" => Icmpv6Header::DstUnreachable {
            reason: unreachable6(words),
            header: quoted6(words),
        },
        "toobig" => Icmpv6Header::PktTooBig {
            mtu: words.long("mtu"),
            header: quoted6(words),
        },
        "exceeded" => Icmpv6Header::TimeExceeded {
            reason: exceeded6(words),
            header: quoted6(words),
        },
        "problem" => Icmpv6Header::ParamProblem {
            reason: problem(words),
            pointer: words.long("pointer"),
            header: quoted6(words),
        },
        _ => {
            words.no("message", kind);
            Icmpv6Header::EchoRequest {
                ident: 0,
                seq_no: 0,
            }
        }
    }
}

fn write6(
    alloc: Global,
    ends: (&Ipv6Address, &Ipv6Address),
    header: &Icmpv6Header,
    payload: &[u8],
    is_summed: bool,
) -> Option<Vec<u8>>
    requires fits { Fits (value_of header.now) }
    requires carried { CanCarry (value_of header.now) payload.now }
    requires small { length payload.now ≤ 0xffff }
{
    let header_len = header.header_len();
    // No header has so many bytes.
    if header_len > MOST {
        return None;
    }
    let mut bytes = room(alloc, header_len + payload.len())?;
    let mut packet = Icmpv6PacketMut::new_unchecked(bytes.as_mut_slice());
    let (source, destination) = ends;
    header.emit(
        source,
        destination,
        &mut packet,
        payload,
        &checksums(is_summed),
    );
    Some(bytes)
}

fn unreachable6(words: &mut Words<'_>) -> Icmpv6DstUnreachable {
    let (code, is_named) = words.code();
    if is_named {
        Icmpv6DstUnreachable::from(code)
    } else {
        Icmpv6DstUnreachable::Unknown(code)
    }
}

fn exceeded6(words: &mut Words<'_>) -> Icmpv6TimeExceeded {
    let (code, is_named) = words.code();
    if is_named {
        Icmpv6TimeExceeded::from(code)
    } else {
        Icmpv6TimeExceeded::Unknown(code)
    }
}

fn problem(words: &mut Words<'_>) -> Icmpv6ParamProblem {
    let (code, is_named) = words.code();
    if is_named {
        Icmpv6ParamProblem::from(code)
    } else {
        Icmpv6ParamProblem::Unknown(code)
    }
}

// A quoted header, and how many bytes it says that it carries.
fn quoted6(words: &mut Words<'_>) -> Ipv6Repr
    ensures { Ipv6.Fits result }
{
    let fields = ipv6_fields(words);
    let payload_len = usize::from(words.short("length"));
    Ipv6Repr {
        payload_len,
        ..fields
    }
}

fn solicit(alloc: Global, words: &mut Words<'_>) -> NdiscRepr {
    NdiscRepr::NeighborSolicit {
        target_addr: words.ipv6("target"),
        lladdr: link(alloc, words),
    }
}

fn advert(alloc: Global, words: &mut Words<'_>) -> NdiscRepr {
    NdiscRepr::NeighborAdvert {
        flags: flags(words),
        target_addr: words.ipv6("target"),
        lladdr: link(alloc, words),
    }
}

// `-` for none, or letters of R, S and O.
fn flags(words: &mut Words<'_>) -> NdiscNeighborFlags {
    let word = words.word("flags");
    match word {
        "-" => {}
        _ if word.bytes().all(|b| matches!(b, b'R' | b'S' | b'O')) => {}
        _ => words.no("flags of R S O", word),
    }
    NdiscNeighborFlags {
        router: word.contains('R'),
        solicited: word.contains('S'),
        overrides: word.contains('O'),
    }
}

// A link address in hex, `-` for none.
fn link(alloc: Global, words: &mut Words<'_>) -> Option<RawHardwareAddress> {
    let bytes = last_bytes(alloc, words)?;
    if bytes.len() > 6 {
        words.note(TOO_LONG);
        return None;
    }
    if bytes.is_empty() {
        return None;
    }
    Some(RawHardwareAddress::from_bytes(bytes.as_slice()))
}
