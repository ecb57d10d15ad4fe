//! Datagrams of the clients of DHCP and DNS, which UDP sockets carry.
ghost use Rattle.std.specs.Prelude.{◌≡◌, length};
ghost use Rattle.sockets.specs.Packet.{packet_value};
ghost use Rattle.c_calls.specs.Carrying.{headers_of, sending_of, written_of};

use crate::code::Code;
use ip_wire::{IpAddress, IpEndpoint, IpProtocol, IpRepr, Ipv4Repr, Ipv6Repr, UdpRepr};
use sockets::{IpPayload, Packet};

/// How many bytes the header of UDP has.
const HEADER_LEN: usize = 8;

/// The longest datagram of UDP, without its header.
const LONGEST: usize = 65_527;

/// A client's datagram: how many bytes it has, where it goes, and where it comes from.
#[derive(Clone, Copy)]
pub struct Sending {
    pub len: usize,
    pub remote: IpEndpoint,
    pub local: IpEndpoint,
}

/// The headers of a datagram of so many bytes that a socket received, where both addresses are of one family.
pub(crate) fn headers(
    remote: IpEndpoint,
    local: IpEndpoint,
    len: usize,
) -> Option<(IpRepr, UdpRepr)>
    ensures { result ≡ headers_of remote local len }
{
    let payload_len = HEADER_LEN + len.min(LONGEST);
    let ip = match (remote.addr, local.addr) {
        (IpAddress::Ipv4(src_addr), IpAddress::Ipv4(dst_addr)) => IpRepr::Ipv4(Ipv4Repr {
            src_addr,
            dst_addr,
            next_header: IpProtocol::Udp,
            payload_len,
            hop_limit: 64,
            ident: 0,
            dont_frag: false,
        }),
        (IpAddress::Ipv6(src_addr), IpAddress::Ipv6(dst_addr)) => IpRepr::Ipv6(Ipv6Repr {
            src_addr,
            dst_addr,
            next_header: IpProtocol::Udp,
            payload_len,
            hop_limit: 64,
        }),
        _ => return None,
    };
    let ports = UdpRepr {
        src_port: remote.port,
        dst_port: local.port,
    };
    Some((ip, ports))
}

/// Copies the bytes of a datagram to the front of the slice, if it is that long.
pub(crate) fn carry(packet: &Packet<'_>, out: &mut [u8]) -> Result<Sending, Code>
    ensures answer { result ≡ sending_of (packet_value packet.now) (length out.old) }
    ensures bytes { out.new ≡ written_of (packet_value packet.now) out.old }
{
    let IpPayload::Udp(ports, bytes) = packet.payload() else {
        return Err(Code::Empty);
    };
    if out.len() < bytes.len() {
        return Err(Code::TooShort);
    }
    out[..bytes.len()].copy_from_slice(bytes);
    let header = packet.ip_repr();
    Ok(Sending {
        len: bytes.len(),
        remote: IpEndpoint {
            addr: header.dst_addr(),
            port: ports.dst_port,
        },
        local: IpEndpoint {
            addr: header.src_addr(),
            port: ports.src_port,
        },
    })
}
