//! Control messages.
use crate::control::{Icmpv4Text, Icmpv6Text};
use crate::groups::{is_mld, put_mld};
use crate::put::{Out, all, none, tested_first};
use crate::routers::put_router_advert;
use control_wire::{Icmpv4Packet, Icmpv4Repr, Icmpv6Header, Icmpv6Packet, Icmpv6Repr};
use ip_wire::Ipv6Address;
use wire_router::RouterAdvert;

/// A message of IPv4.
pub(crate) fn put_icmpv4(out: &mut Out<'_>, bytes: &[u8]) {
    let Ok(packet) = Icmpv4Packet::new_checked(bytes) else {
        out.put_cut_line("ICMPv4", bytes);
        out.put_some_bytes("payload", bytes);
        return;
    };
    let found = tested_first(
        Icmpv4Repr::parse(&packet, &all()),
        Icmpv4Repr::parse(&packet, &none()),
    );
    let payload = match found {
        Some((is_good, message)) => {
            out.put_header("ICMPv4 ", is_good, Icmpv4Text(message.header()));
            message.bytes()
        }
        None => {
            out.put_text("ICMPv4 unknown");
            packet.data()
        }
    };
    put_fields(
        out,
        u8::from(packet.msg_type()),
        packet.msg_code(),
        packet.checksum(),
        packet.verify_checksum(),
    );
    out.put_bytes("payload", payload);
}

// The fields as they stand.
fn put_fields(out: &mut Out<'_>, kind: u8, code: u8, checksum: u16, is_good: bool) {
    out.put("; type ", kind);
    out.put(", code ", code);
    out.put_tested(checksum, is_good);
    out.end_line();
}

/// A message of IPv6 between these addresses.
pub(crate) fn put_icmpv6(
    out: &mut Out<'_>,
    source: &Ipv6Address,
    destination: &Ipv6Address,
    bytes: &[u8],
) {
    let packet = Icmpv6Packet::new_unchecked(bytes);
    if bytes.len() < 4 || bytes.len() > 0xffff_ffff {
        out.put_cut_line("ICMPv6", bytes);
        out.put_some_bytes("payload", bytes);
        return;
    }
    if is_mld(bytes) {
        put_mld(out, source, destination, bytes);
        return;
    }
    if let Ok(advert) = RouterAdvert::parse(bytes) {
        put_router_advert(out, source, destination, bytes, &advert);
        return;
    }
    let found = tested_first(
        Icmpv6Repr::parse(source, destination, &packet, &all()),
        Icmpv6Repr::parse(source, destination, &packet, &none()),
    );
    let payload = match &found {
        Some((is_good, message)) => {
            out.put_header("ICMPv6 ", *is_good, Icmpv6Text(message.header()));
            message.bytes()
        }
        None => {
            out.put_text("ICMPv6 unknown");
            bytes.get(4..).unwrap_or(&[])
        }
    };
    put_fields(
        out,
        u8::from(packet.msg_type()),
        packet.msg_code(),
        packet.checksum(),
        packet.verify_checksum(source, destination),
    );
    match found {
        Some((_, Icmpv6Repr::Ndisc(_))) => put_options(out, bytes.get(24..).unwrap_or(&[])),
        _ => out.put_bytes("payload", payload),
    }
}

// A line for each option of a neighbour message (RFC 4861, section 4.6): its type, and its bytes after type and length.
fn put_options(out: &mut Out<'_>, options: &[u8]) {
    let mut rest = options;
    for _ in 0..options.len() {
        let [kind, units, ..] = rest else {
            break;
        };
        let length = 8 * usize::from(*units);
        put_option(out, *kind, rest.get(2..length).unwrap_or(&[]));
        rest = rest.get(length..).unwrap_or(&[]);
        if length == 0 {
            break;
        }
    }
}

fn put_option(out: &mut Out<'_>, kind: u8, inside: &[u8]) {
    out.put("option ", kind);
    out.put_hex(": ", inside);
    out.end_line();
}
