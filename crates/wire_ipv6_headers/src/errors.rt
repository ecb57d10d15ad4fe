//! Errors after extension headers (RFC 4443, section 2.4 e).
ghost use Rattle.std.specs.Prelude.{◌≡◌, ◌/◌, ◌<◌, ◌≤◌, ◌^◌, ◌==◌, ◌&&◌, nat_le, length};
ghost use Rattle.std.specs.Option.{ForSome};
ghost use Rattle.wire_address.specs.Fields.{be16};
ghost use Rattle.wire_ipv6_headers.specs.Headers.{carries_error, is_error, is_error_of, passed_len};

use crate::headers::{UNIT, extension_len, is_whole};
use wire_address::IpProtocol;
use wire_address::network_order::read_u16;

/// Whether a packet whose header names this, and which has this payload, carries a control message that tells of an error. What
/// stands in the headers before it isn't looked at.
pub fn carries_error(protocol: IpProtocol, payload: &[u8]) -> bool
    requires { length payload.now < 2 ^ 16 }
    ensures { result ≡ carries_error protocol payload.now }
{
    let mut rest = payload;
    let mut next = protocol;
    for _count in 0..payload.len() + 1 {
        match passed_len(next, rest) {
            None => return is_error_of(next, rest),
            Some(len) => {
                next = IpProtocol::from(rest[0]);
                let (_header, following) = rest.split_at(len);
                rest = following;
            }
        }
    }
    false
}

/// How long the header of this kind is that is passed over, if it is one.
fn passed_len(protocol: IpProtocol, rest: &[u8]) -> Option<usize>
    ensures value { result ≡ passed_len protocol rest.now }
    ensures within { ForSome result (λ len. (8 ≤ len) × (len ≤ length rest.now)) }
{
    match protocol {
        IpProtocol::HopByHop | IpProtocol::Ipv6Opts | IpProtocol::Ipv6Route => {
            if is_whole(rest) {
                Some(extension_len(rest))
            } else {
                None
            }
        }
        IpProtocol::Ipv6Frag => {
            if is_first_fragment(rest) {
                Some(UNIT)
            } else {
                None
            }
        }
        _ => None,
    }
}

/// Whether a fragment header is there, of a first fragment or of all.
fn is_first_fragment(rest: &[u8]) -> bool
    ensures { result ≡ (nat_le 8 (length rest.now) && (be16 rest.now 2 / 8 == 0)) }
{
    rest.len() >= UNIT && read_u16(rest, 2) / 8 == 0
}

/// Whether this is a control message that tells of an error.
fn is_error_of(protocol: IpProtocol, rest: &[u8]) -> bool
    ensures { result ≡ is_error_of protocol rest.now }
{
    match protocol {
        IpProtocol::Icmpv6 => is_error(rest),
        _ => false,
    }
}

fn is_error(message: &[u8]) -> bool
    ensures { result ≡ is_error message.now }
{
    match message {
        [kind, ..] => *kind < 128,
        [] => false,
    }
}
