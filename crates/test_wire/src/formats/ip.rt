//! Headers of either family as values.
use crate::cases::all;
use crate::formats::ipv6;
use crate::formats::samples::{HEADER, LEFT, RIGHT, SAID, checksums, first, following, is_same};
use ip_wire::{IPV6_LINK_LOCAL_ALL_NODES, IpAddress, IpProtocol, IpRepr, IpVersion};

/// Version, addresses, protocol, hops and the header's length.
type Parts = (IpVersion, IpAddress, IpAddress, IpProtocol, u8, usize);

fn parts(header: &IpRepr) -> Parts {
    (
        header.version(),
        header.src_addr(),
        header.dst_addr(),
        header.next_header(),
        header.hop_limit(),
        header.header_len(),
    )
}

#[test]
fn ipv4_header_has_parts(rt: HostRuntime) {
    let mut header = IpRepr::new(LEFT, RIGHT, IpProtocol::Udp, 12, 64);
    let (length, parts) = (header.buffer_len(), parts(&header));
    header.set_payload_len(95);
    all(
        &rt,
        &[
            length == 32,
            parts == (IpVersion::Ipv4, LEFT, RIGHT, IpProtocol::Udp, 64, 20),
            header.payload_len() == 95,
        ],
    );
}

const HERE: IpAddress = IpAddress::Ipv6(ipv6::LOCAL);

const ALL: IpAddress = IpAddress::Ipv6(IPV6_LINK_LOCAL_ALL_NODES);

#[test]
fn ipv4_header_is_written_and_ipv6_header_has_parts(rt: HostRuntime) {
    let mut bytes = [0xa5; 24];
    IpRepr::from(SAID).emit(&mut bytes, &checksums(true));
    let udp = IpProtocol::Udp;
    let over_v6 = IpRepr::new(HERE, ALL, udp, 4, 64);
    all(
        &rt,
        &[
            is_same(first(&bytes, 20), &HEADER),
            is_same(following(&bytes, 20), &[0xa5; 4]),
            parts(&over_v6) == (IpVersion::Ipv6, HERE, ALL, udp, 64, 40),
        ],
    );
}
