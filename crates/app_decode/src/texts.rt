//! Texts of addresses, blocks and endpoints: read, and printed in the one form that each has.
use crate::fault::{Fault, done};
use ip_wire::{EthernetAddress, IpAddress, IpCidr, IpEndpoint, Ipv4Address, Ipv6Address};
use std::fmt::Display;
use std::str::FromStr;

/// Answers a line with what the text is read as: why it isn't taken, if it isn't. The text is all that stands after its kind, blanks too.
pub(crate) fn take_text<'a>(words: &'a str, out: &mut String) -> Option<Fault<'a>> {
    let Some((kind, text)) = words.split_once(' ') else {
        return Some(Fault::missing("text"));
    };
    match kind {
        "ipv4" => put::<Ipv4Address>(kind, "IPv4 address", text, out),
        "ipv6" => put::<Ipv6Address>(kind, "IPv6 address", text, out),
        "address" => put::<IpAddress>(kind, "address", text, out),
        "block" => put::<IpCidr>(kind, "block", text, out),
        "endpoint" => put::<IpEndpoint>(kind, "endpoint", text, out),
        "station" => put::<EthernetAddress>(kind, "Ethernet address", text, out),
        _ => Some(Fault::no("kind of text", kind)),
    }
}

// Prints what the text says after its kind, where it says a value of this class.
fn put<'a, T: FromStr + Display + Drop>(
    kind: &str,
    class: &'static str,
    text: &'a str,
    out: &mut String,
) -> Option<Fault<'a>>
where
    T::Err: Drop,
{
    match text.parse::<T>() {
        Ok(value) => done(writeln!(out, "{kind} {value}")),
        Err(_) => Some(Fault::no(class, text)),
    }
}
