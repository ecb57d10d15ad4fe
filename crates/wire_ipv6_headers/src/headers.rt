//! Extension headers, one after the other (RFC 8200, section 4).
ghost use Rattle.std.specs.Prelude.{◌≡◌, ℕ, ◌+◌, ◌<◌, ◌≤◌, ◌^◌, length};
ghost use Rattle.wire_ipv6_headers.specs.Headers.{is_extension, extension_len, go_through, step_at, options_step, routing_step, fragment_step, asked_step};
ghost use Rattle.wire_ipv6_headers.specs.Headers.{refused_by, is_whole, is_atomic, fragment_part_step, fragment_offset, has_more, StopsWithin, IsWithin};
ghost use Rattle.wire_ipv6_headers.specs.Options.{AsksWithin};

use crate::options::{Options, asked_by};
use wire_address::IpProtocol;
use wire_address::network_order::read_u16;

/// Where a packet's payload begins.
const HEADER_LEN: usize = 40;

/// Where a packet's header has its next header field.
const NEXT_HEADER_AT: usize = 6;

/// Where a packet's header has its payload length field.
const PAYLOAD_LENGTH_AT: usize = 4;

/// The most that the payload length field can say.
const LONGEST_PAYLOAD: usize = 65_535;

/// Where a fragment header has its offset field.
const OFFSET_AT: usize = 2;

/// The length of a fragment header, and the unit in which the others say theirs.
pub(crate) const UNIT: usize = 8;

/// What a packet's source is told of.
#[derive(Clone, Copy, Debug, PartialEq, Eq)]
pub enum Problem {
    /// A field of a header can't be dealt with.
    Field,
    /// A next header isn't known.
    NextHeader,
    /// An option isn't known. Nothing is told of a packet that went to a group.
    Option,
    /// The same, told also of a packet that went to a group.
    OptionToAny,
}

/// What stands after a packet's extension headers.
#[derive(Clone, Copy, Debug, PartialEq, Eq)]
pub enum Following {
    /// This protocol, from this place of the payload on.
    Upper { protocol: IpProtocol, at: usize },
    /// A fragment of a datagram, whose fragment header begins at this place of the payload.
    FragmentPart { at: usize },
    /// Nothing, and nothing is told: the packet ends, or its headers run past it, or an option says so.
    Nothing,
    /// The packet is dropped, and its source is told of what stands at this place of the packet.
    Problem { problem: Problem, pointer: usize },
}

/// What is done at a header.
#[derive(Clone, Copy, Debug, PartialEq, Eq)]
pub(crate) enum Step {
    /// It is gone through: so many bytes, of which the first names the next header.
    Goes(usize),
    /// Here the way through the headers ends.
    Stops(Following),
}

/// Whether this is an extension header that is gone through.
pub fn is_extension(protocol: IpProtocol) -> bool
    ensures { result ≡ is_extension protocol }
{
    match protocol {
        IpProtocol::HopByHop
        | IpProtocol::Ipv6Opts
        | IpProtocol::Ipv6Route
        | IpProtocol::Ipv6Frag => true,
        _ => false,
    }
}

/// What stands after the extension headers of a packet whose header names this one, and which has this payload.
pub fn go_through(protocol: IpProtocol, payload: &[u8]) -> Following
    requires { length payload.now < 2 ^ 16 }
    ensures value { result ≡ go_through protocol payload.now }
    ensures within { StopsWithin (length payload.now) result }
{
    let mut rest = payload;
    let mut next = protocol;
    let mut named_at = NEXT_HEADER_AT;
    let mut at = 0;
    for _count in 0..payload.len() + 1 {
        match step_at(next, named_at, at, rest) {
            Step::Stops(following) => return following,
            Step::Goes(len) => {
                next = IpProtocol::from(rest[0]);
                named_at = HEADER_LEN + at;
                at += len;
                let (_header, following) = rest.split_at(len);
                rest = following;
            }
        }
    }
    Following::Nothing
}

/// What is done at a header of this kind, which the field at `named_at` of the packet names, and which begins at `at` of the
/// payload.
fn step_at(protocol: IpProtocol, named_at: usize, at: usize, rest: &[u8]) -> Step
    requires short { at + length rest.now < 2 ^ 16 }
    requires named { named_at ≤ 40 + at }
    ensures value { result ≡ step_at protocol named_at at rest.now }
    ensures within { IsWithin at (length rest.now) result }
{
    match protocol {
        IpProtocol::HopByHop if at == 0 => options_step(at, rest),
        IpProtocol::Ipv6Opts => options_step(at, rest),
        IpProtocol::Ipv6Route => routing_step(at, rest),
        IpProtocol::Ipv6Frag => fragment_step(at, rest),
        IpProtocol::Ipv6NoNxt => Step::Stops(Following::Nothing),
        IpProtocol::Icmpv6 | IpProtocol::Tcp | IpProtocol::Udp => {
            Step::Stops(Following::Upper { protocol, at })
        }
        _ => Step::Stops(Following::Problem {
            problem: Problem::NextHeader,
            pointer: named_at,
        }),
    }
}

/// How long a header is whose second byte says it, in units beyond the first.
pub(crate) fn extension_len(rest: &[u8]) -> usize
    requires { 8 ≤ length rest.now }
    ensures { result ≡ extension_len rest.now }
{
    UNIT + UNIT * rest[1] as usize
}

/// Whether a header is there to its end.
pub(crate) fn is_whole(rest: &[u8]) -> bool
    ensures { result ≡ is_whole rest.now }
{
    rest.len() >= UNIT && rest.len() >= extension_len(rest)
}

/// A hop-by-hop or a destination options header.
fn options_step(at: usize, rest: &[u8]) -> Step
    requires { at + length rest.now < 2 ^ 16 }
    ensures value { result ≡ options_step at rest.now }
    ensures within { IsWithin at (length rest.now) result }
{
    if !is_whole(rest) {
        return Step::Stops(Following::Nothing);
    }
    let len = extension_len(rest);
    asked_step(asked_by(&rest[2..len], HEADER_LEN + at + 2), len)
}

/// What is done at a header of this length whose options ask this.
fn asked_step(asked: Options, len: usize) -> Step
    ensures value { result ≡ asked_step len asked }
    ensures within { (at size : ℕ)
        → AsksWithin (40 + (at + size)) asked → 8 ≤ len → len ≤ size → IsWithin at size result }
{
    match asked {
        Options::Skipped => Step::Goes(len),
        Options::Broken => Step::Stops(Following::Nothing),
        Options::Unknown { kind, at } => Step::Stops(refused_by(kind, at)),
    }
}

/// What becomes of a packet for an option of a type that isn't known, at this place of the packet.
fn refused_by(kind: u8, pointer: usize) -> Following
    ensures value { result ≡ refused_by kind pointer }
    ensures within { (size : ℕ) → pointer ≤ 40 + size → StopsWithin size result }
{
    match kind >> 6 {
        2 => Following::Problem {
            problem: Problem::OptionToAny,
            pointer,
        },
        3 => Following::Problem {
            problem: Problem::Option,
            pointer,
        },
        _ => Following::Nothing,
    }
}

/// A routing header: of no type is known how to go on where segments are left.
fn routing_step(at: usize, rest: &[u8]) -> Step
    requires { at + length rest.now < 2 ^ 16 }
    ensures value { result ≡ routing_step at rest.now }
    ensures within { IsWithin at (length rest.now) result }
{
    if !is_whole(rest) {
        return Step::Stops(Following::Nothing);
    }
    if rest[3] == 0 {
        Step::Goes(extension_len(rest))
    } else {
        Step::Stops(Following::Problem {
            problem: Problem::Field,
            pointer: HEADER_LEN + at + 2,
        })
    }
}

/// A fragment header: what has one and is whole is gone on with.
fn fragment_step(at: usize, rest: &[u8]) -> Step
    requires { at + length rest.now < 2 ^ 16 }
    ensures value { result ≡ fragment_step at rest.now }
    ensures within { IsWithin at (length rest.now) result }
{
    if rest.len() < UNIT {
        return Step::Stops(Following::Nothing);
    }
    if is_atomic(rest) {
        Step::Goes(UNIT)
    } else {
        fragment_part_step(at, rest)
    }
}

/// A fragment header of a fragment: one that isn't the last is of whole units, and none ends past the longest payload.
fn fragment_part_step(at: usize, rest: &[u8]) -> Step
    requires whole { 8 ≤ length rest.now }
    requires short { at + length rest.now < 2 ^ 16 }
    ensures value { result ≡ fragment_part_step at rest.now }
    ensures within { IsWithin at (length rest.now) result }
{
    if has_more(rest) && rest.len() % UNIT != 0 {
        return Step::Stops(Following::Problem {
            problem: Problem::Field,
            pointer: PAYLOAD_LENGTH_AT,
        });
    }
    if at + fragment_offset(rest) + (rest.len() - UNIT) > LONGEST_PAYLOAD {
        return Step::Stops(Following::Problem {
            problem: Problem::Field,
            pointer: HEADER_LEN + at + OFFSET_AT,
        });
    }
    Step::Stops(Following::FragmentPart { at })
}

/// Where the bytes after a fragment header stand in their datagram.
pub fn fragment_offset(rest: &[u8]) -> usize
    requires { 8 ≤ length rest.now }
    ensures value { result ≡ fragment_offset rest.now }
    ensures short { result < 2 ^ 16 }
{
    read_u16(rest, 2) as usize / UNIT * UNIT
}

/// Whether more of the datagram come after what this fragment header stands before.
pub fn has_more(rest: &[u8]) -> bool
    requires { 8 ≤ length rest.now }
    ensures { result ≡ has_more rest.now }
{
    read_u16(rest, 2) % 2 == 1
}

/// Whether a fragment header has no offset, and says that no fragment follows (RFC 6946).
fn is_atomic(rest: &[u8]) -> bool
    requires { 8 ≤ length rest.now }
    ensures { result ≡ is_atomic rest.now }
{
    let offset = read_u16(rest, 2);
    offset / 8 == 0 && offset % 2 == 0
}
