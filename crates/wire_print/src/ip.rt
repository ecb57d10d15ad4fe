//! IP packets, with fragments and extension headers, and datagrams.
ghost use Rattle.std.specs.Prelude.{◌≡◌};
ghost use Rattle.ip_wire.specs.Address.{version_of};

use crate::groups::put_igmp;
use crate::headers::{FragmentText, Ipv4Text, Ipv6Text, UdpText};
use crate::icmp::{put_icmpv4, put_icmpv6};
use crate::names::ProtocolText;
use crate::put::{Out, all, good, none, tested_first};
use crate::tcp::put_tcp;
use ip_wire::{
    IpAddress, IpProtocol, IpRepr, Ipv4Packet, Ipv4Repr, Ipv6FragmentHeader, Ipv6FragmentRepr,
    Ipv6Packet, Ipv6Repr, UdpPacket, UdpRepr,
};

/// A packet of the family that its first bits say.
pub(crate) fn put_ip(out: &mut Out<'_>, bytes: &[u8]) {
    let found = tested_first(IpRepr::parse(bytes, &all()), IpRepr::parse(bytes, &none()));
    match found {
        Some((is_good, IpRepr::Ipv4(header))) => put_ipv4(out, bytes, is_good, &header),
        Some((_, IpRepr::Ipv6(header))) => put_ipv6(out, bytes, &header),
        None => match bytes.first() {
            None => put_cut_line(out, "IP", bytes),
            Some(first) if first / 16 == 4 => put_no_ipv4(out, bytes),
            Some(first) if first / 16 == 6 => put_cut_line(out, "IPv6", bytes),
            Some(first) => {
                out.put_last("IP unknown, version ", first / 16);
                out.put_bytes("payload", bytes)
            }
        },
    }
}

/// A packet that Ethernet says is IPv4.
pub(crate) fn put_ipv4_alone(out: &mut Out<'_>, bytes: &[u8]) {
    let packet = Ipv4Packet::new_unchecked(bytes);
    let found = tested_first(
        Ipv4Repr::parse(&packet, &all()),
        Ipv4Repr::parse(&packet, &none()),
    );
    match found {
        Some((is_good, header)) => put_ipv4(out, bytes, is_good, &header),
        None => put_no_ipv4(out, bytes),
    }
}

/// A packet that Ethernet says is IPv6.
pub(crate) fn put_ipv6_alone(out: &mut Out<'_>, bytes: &[u8]) {
    let packet = Ipv6Packet::new_unchecked(bytes);
    match Ipv6Repr::parse(&packet) {
        Ok(header) => put_ipv6(out, bytes, &header),
        Err(_) if packet.check_len().is_err() => put_cut_line(out, "IPv6", bytes),
        Err(_) => {
            let version = bytes.first().copied().unwrap_or(0) / 16;
            out.put_last("IPv6 unknown, version ", version);
            out.put_bytes("payload", bytes)
        }
    }
}

fn put_cut_line(out: &mut Out<'_>, layer: &str, bytes: &[u8]) {
    out.put_cut_line(layer, bytes);
    out.put_some_bytes("payload", bytes);
}

// Bytes that are no IPv4 packet, and why.
fn put_no_ipv4(out: &mut Out<'_>, bytes: &[u8]) {
    if bytes.len() < 20 {
        put_cut_line(out, "IPv4", bytes);
        return;
    }
    let packet = Ipv4Packet::new_unchecked(bytes);
    let (header_len, total_len) = (packet.header_len(), packet.total_len());
    if packet.version() != 4 {
        out.put_text("IPv4 unknown");
    } else if header_len < 20 || u16::from(header_len) > total_len {
        out.put_text("IPv4 bad length");
    } else {
        out.put_cut("IPv4", bytes.len());
    }
    put_ipv4_fields(out, bytes);
    out.put_some_bytes("payload", bytes.get(20..).unwrap_or(&[]));
}

fn put_ipv4(out: &mut Out<'_>, bytes: &[u8], is_good: bool, header: &Ipv4Repr) {
    out.put_header("IPv4 ", is_good, Ipv4Text(*header));
    put_ipv4_fields(out, bytes);
    let Ok(packet) = Ipv4Packet::new_checked(bytes) else {
        return;
    };
    let payload = packet.payload();
    if packet.fragment().offset == 0 {
        let (source, destination) = (header.src_addr, header.dst_addr);
        put_carried(
            out,
            header.next_header,
            &IpAddress::Ipv4(source),
            &IpAddress::Ipv4(destination),
            payload,
        );
    } else {
        out.put_bytes("piece", payload);
    }
    let end = usize::from(packet.total_len());
    out.put_some_bytes("padding", bytes.get(end..).unwrap_or(&[]));
}

// The fields as they stand, where there is a header.
fn put_ipv4_fields(out: &mut Out<'_>, bytes: &[u8]) {
    if bytes.len() < 20 {
        out.end_line();
        return;
    }
    let packet = Ipv4Packet::new_unchecked(bytes);
    let header_len = usize::from(packet.header_len());
    out.put("; version ", packet.version());
    out.put(", header ", header_len);
    out.put(", dscp ", packet.dscp());
    out.put(", ecn ", packet.ecn());
    out.put(", length ", packet.total_len());
    out.put(", id ", packet.ident());
    out.put_text(", flags [");
    out.put_where(packet.dont_frag(), "DF");
    out.put_where(packet.more_frags(), "+");
    out.put("], offset ", packet.frag_offset());
    out.put_checksum(packet.checksum());
    if header_len <= bytes.len() {
        out.put(" ", good(packet.verify_checksum()));
    }
    out.put_some_hex(", options ", bytes.get(20..header_len).unwrap_or(&[]));
    out.end_line();
}

fn put_ipv6(out: &mut Out<'_>, bytes: &[u8], header: &Ipv6Repr) {
    let Ok(packet) = Ipv6Packet::new_checked(bytes) else {
        put_cut_line(out, "IPv6", bytes);
        return;
    };
    out.put("IPv6 ", Ipv6Text(*header));
    out.put("; version ", packet.version());
    out.put(", class ", packet.traffic_class());
    out.put_flow(packet.flow_label());
    out.put_last(", length ", packet.payload_len());
    put_extensions(out, header, packet.payload());
    let end = packet.total_len();
    out.put_some_bytes("padding", bytes.get(end..).unwrap_or(&[]));
}

// Extension headers (RFC 8200, section 4), and what stands after the last one.
fn put_extensions(out: &mut Out<'_>, header: &Ipv6Repr, payload: &[u8]) {
    let (mut next, mut rest) = (header.next_header, payload);
    for _ in 0..payload.len() {
        if !is_extension(next) {
            break;
        }
        let length = extension_len(next, rest);
        let (Some(front), Some(following)) = (rest.get(..length), rest.get(length..)) else {
            put_cut_line(out, "extension", rest);
            return;
        };
        let inner = first_byte(front);
        put_extension(out, next, inner, front);
        if is_later_fragment(next, front) {
            out.put_bytes("piece", following);
            return;
        }
        (next, rest) = (inner, following);
    }
    let (source, destination) = (header.src_addr, header.dst_addr);
    put_carried(
        out,
        next,
        &IpAddress::Ipv6(source),
        &IpAddress::Ipv6(destination),
        rest,
    );
}

// What the header says comes next.
fn first_byte(front: &[u8]) -> IpProtocol {
    IpProtocol::from(front.first().copied().unwrap_or(59))
}

fn is_extension(next: IpProtocol) -> bool {
    matches!(
        next,
        IpProtocol::HopByHop | IpProtocol::Ipv6Route | IpProtocol::Ipv6Frag | IpProtocol::Ipv6Opts
    )
}

// How long a header says that it is: eight bytes, and as many eights more as its second byte says. The one of a fragment has eight.
fn extension_len(next: IpProtocol, rest: &[u8]) -> usize {
    match (next, rest.get(1)) {
        (IpProtocol::Ipv6Frag, _) | (_, None) => 8,
        (_, Some(eights)) => 8 + 8 * usize::from(*eights),
    }
}

fn put_extension(out: &mut Out<'_>, kind: IpProtocol, next: IpProtocol, front: &[u8]) {
    if let Some(offset) = offset_of(kind, front) {
        out.put("fragment ", FragmentText(offset));
        out.put_last("; next ", ProtocolText(next));
        return;
    }
    out.put("extension ", ProtocolText(kind));
    out.put(", next ", ProtocolText(next));
    out.put_hex(", data ", front.get(2..).unwrap_or(&[]));
    out.end_line();
}

// What the header of a fragment says.
fn offset_of(kind: IpProtocol, front: &[u8]) -> Option<Ipv6FragmentRepr> {
    match kind {
        IpProtocol::Ipv6Frag => offset_at(front.get(2..).unwrap_or(&[])),
        _ => None,
    }
}

fn offset_at(bytes: &[u8]) -> Option<Ipv6FragmentRepr> {
    let Ok(header) = Ipv6FragmentHeader::new_checked(bytes) else {
        return None;
    };
    Ipv6FragmentRepr::parse(&header).ok()
}

fn is_later_fragment(kind: IpProtocol, front: &[u8]) -> bool {
    match offset_of(kind, front) {
        Some(offset) => offset.frag_offset != 0,
        None => false,
    }
}

// What stands after the headers of IP.
fn put_carried(
    out: &mut Out<'_>,
    protocol: IpProtocol,
    source: &IpAddress,
    destination: &IpAddress,
    bytes: &[u8],
)
    requires { version_of source.now ≡ version_of destination.now }
{
    match (protocol, source, destination) {
        (IpProtocol::Udp, _, _) => put_udp(out, source, destination, bytes),
        (IpProtocol::Tcp, _, _) => put_tcp(out, source, destination, bytes),
        (IpProtocol::Icmp, IpAddress::Ipv4(_), _) => put_icmpv4(out, bytes),
        (IpProtocol::Igmp, IpAddress::Ipv4(_), _) => put_igmp(out, bytes),
        (IpProtocol::Icmpv6, IpAddress::Ipv6(source), IpAddress::Ipv6(destination)) => {
            put_icmpv6(out, source, destination, bytes)
        }
        _ => out.put_bytes("payload", bytes),
    }
}

fn put_udp(out: &mut Out<'_>, source: &IpAddress, destination: &IpAddress, bytes: &[u8])
    requires { version_of source.now ≡ version_of destination.now }
{
    let Ok(packet) = UdpPacket::new_checked(bytes) else {
        put_cut_line(out, "UDP", bytes);
        return;
    };
    let found = tested_first(
        UdpRepr::parse(&packet, source, destination, &all()),
        UdpRepr::parse(&packet, source, destination, &none()),
    );
    match found {
        Some((is_good, header)) => out.put_header("UDP ", is_good, UdpText(header)),
        None => {
            out.put("UDP unknown, ", packet.src_port());
            out.put(" > ", packet.dst_port());
        }
    }
    out.put("; length ", packet.len());
    out.put_tested(
        packet.checksum(),
        packet.verify_checksum(source, destination),
    );
    out.end_line();
    out.put_bytes("payload", packet.payload());
    let end = usize::from(packet.len());
    out.put_some_bytes("behind", bytes.get(end..).unwrap_or(&[]));
}
