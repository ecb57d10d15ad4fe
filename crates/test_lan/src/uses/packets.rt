//! A UDP datagram in an IPv4 packet, built in place and read back.
ghost use Rattle.std.specs.Prelude.{◌≡◌, ◌+◌, IfSome, length, true};
ghost use Rattle.ip_wire.specs.Udp as Udp;
ghost use Rattle.ip_wire.specs.Address.{version_of};

use ip_wire::{IpAddress, UdpPacket, UdpPacketMut, UdpRepr};
use net_base::ChecksumCapabilities;

/// Writes a datagram from port 48896 to port 53 over the whole buffer, with its checksum.
pub fn write_query(packet: &mut [u8], source: &IpAddress, destination: &IpAddress, payload: &[u8])
    requires room { length packet.old ≡ 8 + length payload.now }
    requires fits { Udp.Fits source.now destination.now payload.now }
    ensures { packet.new ≡ Udp.written source.now destination.now true (record { src_port = 48896; dst_port = 53 }) payload.now }
{
    let header = UdpRepr {
        src_port: 48896,
        dst_port: 53,
    };
    let mut datagram = UdpPacketMut::new_unchecked(packet);
    header.emit(
        &mut datagram,
        source,
        destination,
        payload,
        &ChecksumCapabilities::default(),
    );
}

/// Returns the payload of a datagram to this port, if that is what the bytes are.
pub fn payload_for<'a>(
    port: u16,
    packet: &'a [u8],
    source: &IpAddress,
    destination: &IpAddress,
) -> Option<&'a [u8]>
    requires { version_of source.now ≡ version_of destination.now }
    ensures { IfSome result (λ bytes. bytes.now ≡ Udp.payload_of packet.now) }
{
    let datagram = UdpPacket::new_checked(packet).ok()?;
    let header = UdpRepr::parse(
        &datagram,
        source,
        destination,
        &ChecksumCapabilities::default(),
    );
    match header {
        Ok(header) if header.dst_port == port => Some(datagram.payload()),
        _ => None,
    }
}
