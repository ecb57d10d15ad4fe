//! Headers of links, of IP and of UDP as text.
ghost use Rattle.std.specs.Prelude.{◌≡◌, Some, if◌then◌else◌, List, []};
ghost use Rattle.wire_print.specs.Headers.{ethernet_header_text, arp_text, ipv4_header_text, ipv6_header_text, fragment_text, udp_text};

use crate::names::{EtherText, OperationText, ProtocolText};
use ip_wire::{ArpRepr, EthernetRepr, Ipv4Repr, Ipv6FragmentRepr, Ipv6Repr, UdpRepr};
use std::fmt;

/// What is printed where a flag is set: its letters, else nothing.
pub(crate) fn set(flag: bool, letters: &'static str) -> &'static str
    ensures { result.now ≡ (if flag then letters.now else []) }
{
    if flag { letters } else { "" }
}

/// Prints a frame's header: `02-00-00-00-00-01 > ff-ff-ff-ff-ff-ff, ARP`.
#[derive(Clone, Copy)]
pub struct EthernetText(pub EthernetRepr);

impl fmt::Display for EthernetText {
    ghost output = { λ x. Some (ethernet_header_text x.0) };

    fn fmt<W: fmt::Write>(&self, f: &mut fmt::Formatter<W>) -> fmt::Result {
        let header = self.0;
        write!(
            f,
            "{} > {}, {}",
            header.src_addr,
            header.dst_addr,
            EtherText(header.ethertype)
        )
    }
}

/// Prints an ARP packet: `request (1), 10.0.0.1 at 02-00-00-00-00-01 to 10.0.0.2 at 00-00-00-00-00-00`.
#[derive(Clone, Copy)]
pub struct ArpText(pub ArpRepr);

impl fmt::Display for ArpText {
    ghost output = { λ x. Some (arp_text x.0) };

    fn fmt<W: fmt::Write>(&self, f: &mut fmt::Formatter<W>) -> fmt::Result {
        match self.0 {
            ArpRepr::EthernetIpv4 {
                operation,
                source_hardware_addr,
                source_protocol_addr,
                target_hardware_addr,
                target_protocol_addr,
            } => write!(
                f,
                "{}, {} at {} to {} at {}",
                OperationText(operation),
                source_protocol_addr,
                source_hardware_addr,
                target_protocol_addr,
                target_hardware_addr
            ),
        }
    }
}

/// Prints an IPv4 header: `10.0.0.1 > 10.0.0.2, UDP (17), ttl 64, id 7, DF, payload 12`.
#[derive(Clone, Copy)]
pub struct Ipv4Text(pub Ipv4Repr);

impl fmt::Display for Ipv4Text {
    ghost output = { λ x. Some (ipv4_header_text x.0) };

    fn fmt<W: fmt::Write>(&self, f: &mut fmt::Formatter<W>) -> fmt::Result {
        let header = self.0;
        write!(
            f,
            "{} > {}, {}, ttl {}, id {}{}, payload {}",
            header.src_addr,
            header.dst_addr,
            ProtocolText(header.next_header),
            header.hop_limit,
            header.ident,
            set(header.dont_frag, ", DF"),
            header.payload_len
        )
    }
}

/// Prints an IPv6 header: `fd00::1 > fd00::2, UDP (17), hop_limit 64, payload 12`.
#[derive(Clone, Copy)]
pub struct Ipv6Text(pub Ipv6Repr);

impl fmt::Display for Ipv6Text {
    ghost output = { λ x. Some (ipv6_header_text x.0) };

    fn fmt<W: fmt::Write>(&self, f: &mut fmt::Formatter<W>) -> fmt::Result {
        let header = self.0;
        write!(
            f,
            "{} > {}, {}, hops {}, payload {}",
            header.src_addr,
            header.dst_addr,
            ProtocolText(header.next_header),
            header.hop_limit,
            header.payload_len
        )
    }
}

/// Prints the header of a fragment of an IPv6 packet; its offset counts units of eight bytes:
/// `id 7, offset 37, more`.
#[derive(Clone, Copy)]
pub struct FragmentText(pub Ipv6FragmentRepr);

impl fmt::Display for FragmentText {
    ghost output = { λ x. Some (fragment_text x.0) };

    fn fmt<W: fmt::Write>(&self, f: &mut fmt::Formatter<W>) -> fmt::Result {
        let header = self.0;
        write!(
            f,
            "id {}, offset {}{}",
            header.ident,
            header.frag_offset,
            set(header.more_frags, ", more")
        )
    }
}

/// Prints the header of a datagram: `48896 > 53`.
#[derive(Clone, Copy)]
pub struct UdpText(pub UdpRepr);

impl fmt::Display for UdpText {
    ghost output = { λ x. Some (udp_text x.0) };

    fn fmt<W: fmt::Write>(&self, f: &mut fmt::Formatter<W>) -> fmt::Result {
        write!(f, "{} > {}", self.0.src_port, self.0.dst_port)
    }
}
