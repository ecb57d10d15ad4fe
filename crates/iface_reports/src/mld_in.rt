//! What a packet of IPv6 says of groups.
ghost use Rattle.std.specs.Prelude.{◌≡◌, ◌≤◌, ◌+◌, ◌<◌, ◌^◌, length};
ghost use Rattle.std.specs.Option.{ForSome};
ghost use Rattle.iface_reports.specs.Heard.{v6_at, has_alert, alerts_among, option_at_front, is_alert, EndsWithin, payload_len_v6, options_len, is_whole_v6, is_summed, mld_version, mld_query, mld_report, mld_said, mld_heard, heard_v6};
ghost use Rattle.iface_reports.specs.Reports.{IsShort};

use crate::heard::{HOLDS, Heard, is_own};
use iface_groups::{CompatibilityMode, counts_v6, mld_max_micros};
use iface_tables::InterfaceInner;
use ip_wire::network_order::read_u16;
use ip_wire::{IpAddress, IpProtocol, Ipv6Address, checksum};
use socket_context::Context;

/// The option that says that each router on the way looks at the packet.
const ROUTER_ALERT: u8 = 5;

/// What stands first among options.
#[derive(Clone, Copy, Debug, PartialEq, Eq)]
pub(crate) enum OptionAhead {
    /// No option is left, or one that runs past its header.
    End,
    /// A router alert of value 0.
    Alert,
    /// Another option, of so many bytes.
    Other(usize),
}

/// What a message comes with: its packet's addresses and hop limit, and whether that has a router alert.
#[derive(Clone, Copy, Debug)]
pub(crate) struct Around {
    src_addr: Ipv6Address,
    dst_addr: Ipv6Address,
    hop_limit: u8,
    has_alert: bool,
}

/// The address at this place.
fn v6_at(bytes: &[u8], at: usize) -> Ipv6Address
    requires { at + 16 ≤ length bytes.now }
    ensures { result ≡ v6_at bytes.now at }
{
    let mut octets = [0; 16];
    octets.copy_from_slice(&bytes[at..at + 16]);
    Ipv6Address(octets)
}

/// Whether one of these options is a router alert of value 0, up to one that runs past its header.
fn has_alert(options: &[u8]) -> bool
    ensures { result ≡ has_alert options.now }
{
    alerts_among(options.len(), options)
}

/// The same, of so many options at most.
fn alerts_among(most: usize, options: &[u8]) -> bool
    ensures { result ≡ alerts_among most options.now }
{
    if most == 0 {
        return false;
    }
    match option_at_front(options) {
        OptionAhead::End => false,
        OptionAhead::Alert => true,
        OptionAhead::Other(len) => {
            let (_option, rest) = options.split_at(len);
            alerts_among(most - 1, rest)
        }
    }
}

/// What stands first among options.
fn option_at_front(options: &[u8]) -> OptionAhead
    ensures value { result ≡ option_at_front options.now }
    ensures within { EndsWithin (length options.now) result }
{
    let [kind, following @ ..] = options else {
        return OptionAhead::End;
    };
    if *kind == 0 {
        return OptionAhead::Other(1);
    }
    let [len, inside @ ..] = following else {
        return OptionAhead::End;
    };
    if inside.len() < *len as usize {
        return OptionAhead::End;
    }
    if is_alert(*kind, *len, inside) {
        return OptionAhead::Alert;
    }
    OptionAhead::Other(2 + *len as usize)
}

/// Whether an option is a router alert of value 0.
fn is_alert(kind: u8, len: u8, inside: &[u8]) -> bool
    requires { len ≤ length inside.now }
    ensures { result ≡ is_alert kind len inside.now }
{
    kind == ROUTER_ALERT && len == 2 && read_u16(inside, 0) == 0
}

/// How long the hop-by-hop header is.
fn options_len(packet: &[u8]) -> usize
    requires { 48 ≤ length packet.now }
    ensures { result ≡ options_len packet.now }
{
    8 + packet[41] as usize * 8
}

/// Whether a hop-by-hop header is there, and ICMPv6 after it.
fn is_whole_v6(packet: &[u8]) -> bool
    requires { 48 ≤ length packet.now }
    ensures { result ≡ is_whole_v6 packet.now }
{
    let payload_len = read_u16(packet, 4) as usize;
    40 + payload_len <= packet.len() && options_len(packet) <= payload_len && packet[40] == 58
}

/// What a packet of IPv6 says.
pub(crate) fn heard_v6(inner: &InterfaceInner, packet: &[u8]) -> Option<Heard>
    requires { 48 ≤ length packet.now }
    ensures value { result ≡ heard_v6 inner.now packet.now }
    ensures short { ForSome result IsShort }
{
    if !is_whole_v6(packet) {
        return None;
    }
    let payload_len = read_u16(packet, 4) as usize;
    let at = 40 + options_len(packet);
    let around = Around {
        src_addr: v6_at(packet, 8),
        dst_addr: v6_at(packet, 24),
        hop_limit: packet[7],
        has_alert: has_alert(&packet[42..at]),
    };
    mld_heard(inner, &around, &packet[at..40 + payload_len])
}

/// Whether the checksum of a message holds.
fn is_summed(source: &Ipv6Address, destination: &Ipv6Address, message: &[u8]) -> bool
    requires { length message.now < 2 ^ 32 }
    ensures { result ≡ is_summed source.now destination.now message.now }
{
    let length = message.len() as u32;
    let header = checksum::pseudo_header_v6(source, destination, IpProtocol::Icmpv6, length);
    checksum::add(header, checksum::data(message)) == HOLDS
}

/// What a message of MLD says.
fn mld_heard(inner: &InterfaceInner, around: &Around, message: &[u8]) -> Option<Heard>
    requires { length message.now < 2 ^ 32 }
    ensures value { result ≡ mld_heard inner.now around.now.src_addr around.now.dst_addr around.now.hop_limit around.now.has_alert message.now }
    ensures short { ForSome result IsShort }
{
    if message.len() < 24 {
        return None;
    }
    let tested = inner.checksum_caps().icmpv6.rx();
    if tested && !is_summed(&around.src_addr, &around.dst_addr, message) {
        return None;
    }
    mld_said(inner, around, message)
}

/// The same, of one whose checksum holds.
fn mld_said(inner: &InterfaceInner, around: &Around, message: &[u8]) -> Option<Heard>
    requires { 24 ≤ length message.now }
    ensures value { result ≡ mld_said inner.now around.now.src_addr around.now.dst_addr around.now.hop_limit around.now.has_alert message.now }
    ensures short { ForSome result IsShort }
{
    match message[0] {
        130 => mld_query(inner, around, message),
        131 => mld_report(inner, around, &v6_at(message, 8)),
        _ => None,
    }
}

/// Which version a query is of.
fn mld_version(message: &[u8]) -> Option<CompatibilityMode>
    ensures { result ≡ mld_version message.now }
{
    if message.len() == 24 {
        return Some(CompatibilityMode::Igmpv2);
    }
    if message.len() >= 28 && message.len() >= 28 + 16 * read_u16(message, 26) as usize {
        return Some(CompatibilityMode::Igmpv3);
    }
    None
}

/// A query, if it counts.
fn mld_query(inner: &InterfaceInner, around: &Around, message: &[u8]) -> Option<Heard>
    requires { 24 ≤ length message.now }
    ensures value { result ≡ mld_query inner.now around.now.src_addr around.now.dst_addr around.now.hop_limit around.now.has_alert message.now (mld_version message.now) }
    ensures short { ForSome result IsShort }
{
    let Some(version) = mld_version(message) else {
        return None;
    };
    let group = v6_at(message, 8);
    let is_own_source = is_own(inner, &IpAddress::Ipv6(around.src_addr));
    let is_own_destination = is_own(inner, &IpAddress::Ipv6(around.dst_addr));
    let counts = counts_v6(
        &around.src_addr,
        &around.dst_addr,
        &group,
        around.hop_limit,
        around.has_alert,
        is_own_source,
        is_own_destination,
    );
    if !counts {
        return None;
    }
    Some(Heard::Query {
        version,
        group: IpAddress::Ipv6(group),
        max_micros: mld_max_micros(version, read_u16(message, 4)),
    })
}

/// Another node's report.
fn mld_report(inner: &InterfaceInner, around: &Around, group: &Ipv6Address) -> Option<Heard>
    ensures value { result ≡ mld_report inner.now around.now.src_addr around.now.dst_addr around.now.hop_limit around.now.has_alert group.now }
    ensures short { ForSome result IsShort }
{
    let is_others = !is_own(inner, &IpAddress::Ipv6(around.src_addr));
    let from_node = is_others && around.src_addr.is_link_local();
    let on_link = around.hop_limit == 1 && around.has_alert;
    if from_node && on_link && (around.dst_addr.0 == group.0 && group.is_multicast()) {
        Some(Heard::Report {
            group: IpAddress::Ipv6(*group),
        })
    } else {
        None
    }
}
