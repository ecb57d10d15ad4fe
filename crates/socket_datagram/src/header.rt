//! The headers of the packets that sockets offer.
ghost use Rattle.std.specs.Prelude.{◌≡◌, None};
ghost use Rattle.socket_datagram.specs.Header.{header_between};

use wire_address::{IpAddress, IpProtocol};
use wire_ip::ipv4::field::HEADER_LEN as IPV4_HEADER_LEN;
use wire_ip::{IpRepr, Ipv4Repr, Ipv6Repr};

/// The hop limit of packets for which none was set.
pub const DEFAULT_HOP_LIMIT: u8 = 64;

/// The greatest number that a length field of two bytes holds.
pub const LAST_LENGTH: usize = 65_535;

/// Forgets the header that is offered. Mostly there is none, and then nothing is written.
pub fn forget_offer(offered: &mut Option<IpRepr>)
    ensures { offered.new ≡ None }
{
    if offered.is_some() {
        *offered = None;
    }
}

/// The header of a packet between these addresses. There is none where they are of two families, or where
/// the header's length field can't hold the packet's length.
pub fn header_between(
    source: &IpAddress,
    destination: &IpAddress,
    next_header: IpProtocol,
    payload_len: usize,
    hop_limit: u8,
) -> Option<IpRepr>
    ensures { result ≡ header_between source.now destination.now next_header payload_len hop_limit }
{
    let mut header = None;
    write_between(
        source,
        destination,
        next_header,
        payload_len,
        hop_limit,
        &mut header,
    );
    header
}

/// Writes this header, or that there is none, where it is wanted.
pub fn write_between(
    source: &IpAddress,
    destination: &IpAddress,
    next_header: IpProtocol,
    payload_len: usize,
    hop_limit: u8,
    header: &mut Option<IpRepr>,
)
    ensures { header.new ≡ header_between source.now destination.now next_header payload_len hop_limit }
{
    match (source, destination) {
        (IpAddress::Ipv4(source), IpAddress::Ipv4(destination)) => {
            if payload_len > LAST_LENGTH - IPV4_HEADER_LEN {
                *header = None;
                return;
            }
            *header = Some(IpRepr::Ipv4(Ipv4Repr {
                src_addr: *source,
                dst_addr: *destination,
                next_header,
                payload_len,
                hop_limit,
                ident: 0,
                dont_frag: false,
            }));
        }
        (IpAddress::Ipv6(source), IpAddress::Ipv6(destination)) => {
            if payload_len > LAST_LENGTH {
                *header = None;
                return;
            }
            *header = Some(IpRepr::Ipv6(Ipv6Repr {
                src_addr: *source,
                dst_addr: *destination,
                next_header,
                payload_len,
                hop_limit,
            }));
        }
        _ => *header = None,
    }
}
