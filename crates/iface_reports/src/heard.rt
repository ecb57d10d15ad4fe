//! What a frame says of groups.
ghost use Rattle.std.specs.Prelude.{◌≡◌, ◌+◌, ◌≤◌, length, take};
ghost use Rattle.std.specs.Str.{bytes_eq};
ghost use Rattle.std.specs.List.{list_any};
ghost use Rattle.std.specs.Option.{ForSome};
ghost use Rattle.iface_reports.specs.Heard.{is_own, v4_at, is_for, packet_in, is_igmp, is_mld, header_len_v4, is_whole_v4, igmp_version, igmp_query, igmp_report, igmp_said, igmp_heard, heard_v4, heard_in_packet, heard_in};
ghost use Rattle.iface_reports.specs.Reports.{IsShort};
ghost use Rattle.iface_tables.specs.Inner.{is_address_of};

use crate::mld_in::heard_v6;
use iface_groups::{CompatibilityMode, counts_v4, igmp_max_micros};
use iface_tables::InterfaceInner;
use ip_wire::network_order::read_u16;
use ip_wire::{EthernetAddress, HardwareAddress, IpAddress, IpCidr, Ipv4Address, checksum};
use socket_context::Context;
use socket_context::addresses::is_same_address;

const ETHERNET_HEADER_LEN: usize = 14;

const ETHERTYPE_IPV4: u16 = 0x0800;

const ETHERTYPE_IPV6: u16 = 0x86dd;

/// The sum over all that a checksum covers, itself included, where it holds.
pub(crate) const HOLDS: u16 = 0xffff;

/// What a frame says of groups.
#[derive(Clone, Copy, Debug)]
pub enum Heard {
    /// A query that counts, of one group, or of all of the address's family where it is unspecified.
    Query {
        version: CompatibilityMode,
        group: IpAddress,
        /// How long the answer may take.
        max_micros: u64,
    },
    /// Another host's report, of version 1 or 2.
    Report {
        group: IpAddress,
    },
}

/// What a frame says.
pub(crate) fn heard_in(inner: &InterfaceInner, frame: &[u8]) -> Option<Heard>
    ensures value { result ≡ heard_in inner.now frame.now }
    ensures short { ForSome result IsShort }
{
    heard_in_packet(inner, packet_in(&inner.hardware_addr(), frame))
}

/// The IP packet of a frame, empty where it has none.
fn packet_in<'a>(hardware_addr: &HardwareAddress, frame: &'a [u8]) -> &'a [u8]
    ensures { result.now ≡ packet_in hardware_addr.now frame.now }
{
    match hardware_addr {
        HardwareAddress::Ip => frame,
        HardwareAddress::Ethernet(local) => {
            if is_for(local, frame) {
                let (_header, packet) = frame.split_at(ETHERNET_HEADER_LEN);
                packet
            } else {
                &[]
            }
        }
    }
}

/// Whether this is a frame of an IP packet to this hardware address or to a group of them.
fn is_for(local: &EthernetAddress, frame: &[u8]) -> bool
    ensures { result ≡ is_for local.now frame.now }
{
    if frame.len() < ETHERNET_HEADER_LEN {
        return false;
    }
    let ethertype = read_u16(frame, 12);
    (frame[0] % 2 == 1 || is_to(local, frame))
        && (ethertype == ETHERTYPE_IPV4 || ethertype == ETHERTYPE_IPV6)
}

/// Whether a frame goes to this hardware address.
fn is_to(local: &EthernetAddress, frame: &[u8]) -> bool
    requires { 6 ≤ length frame.now }
    ensures { result ≡ bytes_eq (take 6 frame.now) local.now.0 }
{
    let (to, _rest) = frame.split_at(6);
    to == local.0.as_slice()
}

/// What a packet says.
fn heard_in_packet(inner: &InterfaceInner, packet: &[u8]) -> Option<Heard>
    ensures value { result ≡ heard_in_packet inner.now packet.now }
    ensures short { ForSome result IsShort }
{
    if is_igmp(packet) {
        heard_v4(inner, packet)
    } else if is_mld(packet) {
        heard_v6(inner, packet)
    } else {
        None
    }
}

/// Whether this may be IGMP.
fn is_igmp(packet: &[u8]) -> bool
    ensures { result ≡ is_igmp packet.now }
{
    packet.len() >= 20 && packet[0] / 16 == 4 && packet[9] == 2
}

/// Whether this may be MLD.
fn is_mld(packet: &[u8]) -> bool
    ensures { result ≡ is_mld packet.now }
{
    packet.len() >= 48 && packet[0] / 16 == 6 && packet[6] == 0
}

/// Whether this address is an own one.
pub(crate) fn is_own(inner: &InterfaceInner, address: &IpAddress) -> bool
    ensures { result ≡ is_own inner.now address.now }
{
    inner
        .ip_addrs()
        .iter()
        .any(|block| is_address_of(address, block))
}

fn is_address_of(address: &IpAddress, block: &IpCidr) -> bool
    ensures { result ≡ is_address_of address.now block.now }
{
    is_same_address(&block.address(), address)
}

/// The address at this place.
fn v4_at(bytes: &[u8], at: usize) -> Ipv4Address
    requires { at + 4 ≤ length bytes.now }
    ensures { result ≡ v4_at bytes.now at }
{
    let mut octets = [0; 4];
    octets.copy_from_slice(&bytes[at..at + 4]);
    Ipv4Address(octets)
}

/// How long the header is, with its options.
fn header_len_v4(packet: &[u8]) -> usize
    requires { 20 ≤ length packet.now }
    ensures { result ≡ header_len_v4 packet.now }
{
    packet[0] as usize % 16 * 4
}

/// Whether this is a whole datagram's header, with all that it says follows.
fn is_whole_v4(tested: bool, packet: &[u8]) -> bool
    requires { 20 ≤ length packet.now }
    ensures { result ≡ is_whole_v4 tested packet.now }
{
    let header_len = header_len_v4(packet);
    let total_len = read_u16(packet, 2) as usize;
    let is_there = 20 <= header_len && header_len <= total_len && total_len <= packet.len();
    is_there
        && read_u16(packet, 6) % 0x4000 == 0
        && (!tested || checksum::data(&packet[..header_len]) == HOLDS)
}

/// What a packet of IPv4 says.
fn heard_v4(inner: &InterfaceInner, packet: &[u8]) -> Option<Heard>
    requires { 20 ≤ length packet.now }
    ensures value { result ≡ heard_v4 inner.now packet.now }
    ensures short { ForSome result IsShort }
{
    if !is_whole_v4(inner.checksum_caps().ipv4.rx(), packet) {
        return None;
    }
    let source = v4_at(packet, 12);
    let destination = v4_at(packet, 16);
    let total_len = read_u16(packet, 2) as usize;
    igmp_heard(
        inner,
        &source,
        &destination,
        &packet[header_len_v4(packet)..total_len],
    )
}

/// What a message of IGMP says.
fn igmp_heard(
    inner: &InterfaceInner,
    source: &Ipv4Address,
    destination: &Ipv4Address,
    message: &[u8],
) -> Option<Heard>
    ensures value { result ≡ igmp_heard inner.now source.now destination.now message.now }
    ensures short { ForSome result IsShort }
{
    if message.len() >= 8 && checksum::data(message) == HOLDS {
        igmp_said(inner, source, destination, message)
    } else {
        None
    }
}

/// The same, of one whose checksum holds.
fn igmp_said(
    inner: &InterfaceInner,
    source: &Ipv4Address,
    destination: &Ipv4Address,
    message: &[u8],
) -> Option<Heard>
    requires { 8 ≤ length message.now }
    ensures value { result ≡ igmp_said inner.now source.now destination.now message.now }
    ensures short { ForSome result IsShort }
{
    match message[0] {
        17 => igmp_query(inner, source, destination, message),
        18 | 22 => igmp_report(inner, source, destination, &v4_at(message, 4)),
        _ => None,
    }
}

/// Which version a query is of.
fn igmp_version(message: &[u8]) -> Option<CompatibilityMode>
    requires { 8 ≤ length message.now }
    ensures { result ≡ igmp_version message.now }
{
    if message.len() == 8 {
        return Some(if message[1] == 0 {
            CompatibilityMode::Igmpv1
        } else {
            CompatibilityMode::Igmpv2
        });
    }
    if message.len() >= 12 && message.len() >= 12 + 4 * read_u16(message, 10) as usize {
        return Some(CompatibilityMode::Igmpv3);
    }
    None
}

/// A query, if it counts.
fn igmp_query(
    inner: &InterfaceInner,
    source: &Ipv4Address,
    destination: &Ipv4Address,
    message: &[u8],
) -> Option<Heard>
    requires { 8 ≤ length message.now }
    ensures value { result ≡ igmp_query inner.now source.now destination.now message.now (igmp_version message.now) }
    ensures short { ForSome result IsShort }
{
    let Some(version) = igmp_version(message) else {
        return None;
    };
    let group = v4_at(message, 4);
    let is_own_source = is_own(inner, &IpAddress::Ipv4(*source));
    let is_own_destination = is_own(inner, &IpAddress::Ipv4(*destination));
    if !counts_v4(
        source,
        destination,
        &group,
        is_own_source,
        is_own_destination,
    ) {
        return None;
    }
    Some(Heard::Query {
        version,
        group: IpAddress::Ipv4(group),
        max_micros: igmp_max_micros(version, message[1]),
    })
}

/// Another host's report.
fn igmp_report(
    inner: &InterfaceInner,
    source: &Ipv4Address,
    destination: &Ipv4Address,
    group: &Ipv4Address,
) -> Option<Heard>
    ensures value { result ≡ igmp_report inner.now source.now destination.now group.now }
    ensures short { ForSome result IsShort }
{
    let is_others = !is_own(inner, &IpAddress::Ipv4(*source));
    if is_others && destination.0 == group.0 && group.is_multicast() {
        Some(Heard::Report {
            group: IpAddress::Ipv4(*group),
        })
    } else {
        None
    }
}
