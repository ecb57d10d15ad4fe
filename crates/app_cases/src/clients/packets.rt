//! Packets to servers and from them.
use ip_wire::{IpProtocol, IpRepr, Ipv4Address, Ipv4Repr, Ipv6Address, Ipv6Repr, UdpRepr};
use sockets::{IpPayload, Offer, Packet};
use std::alloc::{AllocError, Global};
use std::fmt::Debug;

/// Says a value on a line of its own.
pub(crate) fn say<T: Debug>(value: &T, out: &mut String) -> Result<(), AllocError> {
    writeln!(out, "{value:?}")
}

/// Says what was offered: where from and where to, each an address, this sign and a port, and its bytes.
pub(crate) fn say_offer(
    alloc: Global,
    offer: Offer,
    offered: Option<Packet<'_>>,
    sign: char,
    out: &mut String,
) -> Result<(), AllocError> {
    if let Offer::Silent { changed } = offer {
        return writeln!(out, "silent {changed}");
    }
    match offered {
        Some(packet) => say_packet(alloc, &packet, sign, out),
        None => Ok(()),
    }
}

fn say_packet(
    alloc: Global,
    packet: &Packet<'_>,
    sign: char,
    out: &mut String,
) -> Result<(), AllocError> {
    match packet.payload() {
        IpPayload::Udp(ports, bytes) => {
            say_datagram(alloc, &packet.ip_repr(), ports, bytes, sign, out)
        }
        _ => Ok(()),
    }
}

fn say_datagram(
    alloc: Global,
    header: &IpRepr,
    ports: &UdpRepr,
    bytes: &[u8],
    sign: char,
    out: &mut String,
) -> Result<(), AllocError> {
    let digits = hex::encode(alloc, bytes)?;
    let (from, to) = (header.src_addr(), header.dst_addr());
    let (source, destination) = (ports.src_port, ports.dst_port);
    writeln!(out, "{from}{sign}{source} {to}{sign}{destination} {digits}")
}

/// The header of a datagram of IPv4 with so many bytes.
pub(crate) fn v4_header(src_addr: Ipv4Address, dst_addr: Ipv4Address, len: usize) -> IpRepr {
    IpRepr::Ipv4(Ipv4Repr {
        src_addr,
        dst_addr,
        next_header: IpProtocol::Udp,
        payload_len: 8 + len.min(60_000),
        hop_limit: 64,
        ident: 0,
        dont_frag: false,
    })
}

/// The header of a datagram of IPv6 with so many bytes.
pub(crate) fn v6_header(src_addr: Ipv6Address, dst_addr: Ipv6Address, len: usize) -> IpRepr {
    IpRepr::Ipv6(Ipv6Repr {
        src_addr,
        dst_addr,
        next_header: IpProtocol::Udp,
        payload_len: 8 + len.min(60_000),
        hop_limit: 64,
    })
}
