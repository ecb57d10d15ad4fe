//! Checksums that cover a pseudo header before the packet.
ghost use Rattle.std.specs.Prelude.{◌≡◌, ◌↔◌, ◌<◌, ◌^◌, IsTrue, length, ℕ};
ghost use Rattle.wire_address.specs.Address.{version_of};
ghost use Rattle.wire_address.specs.Protocol.{protocol_number};
ghost use Rattle.wire_address.specs.Sum.{folded, ChecksumHolds};
ghost use Rattle.wire_address.specs.Pseudo.{covered};
ghost use Rattle.wire_ip.specs.Udp.{nonzero_complement};

use wire_address::{IpAddress, IpProtocol, checksum};

/// The sum of the pseudo header and the packet, not complemented.
pub fn sum(source: &IpAddress, destination: &IpAddress, protocol: IpProtocol, packet: &[u8]) -> u16
    requires family { version_of source.now ≡ version_of destination.now }
    requires fits { length packet.now < 2 ^ 16 }
    ensures { result
        ≡ folded (covered source.now destination.now (protocol_number protocol) packet.now) }
{
    let header = checksum::pseudo_header(source, destination, protocol, packet.len() as u32);
    checksum::add(header, checksum::data(packet))
}

/// Whether the checksum that the packet carries holds.
pub fn holds(
    source: &IpAddress,
    destination: &IpAddress,
    protocol: IpProtocol,
    packet: &[u8],
) -> bool
    requires family { version_of source.now ≡ version_of destination.now }
    requires fits { length packet.now < 2 ^ 16 }
    ensures { IsTrue result
        ↔ ChecksumHolds (covered source.now destination.now (protocol_number protocol) packet.now) }
{
    sum(source, destination, protocol, packet) == 0xffff
}

/// What a datagram carries for such a sum: its complement, and ffff in place of 0, which would mean
/// that there is no checksum.
pub const fn sent_complement(sum: u16) -> u16
    ensures { (total : ℕ) → sum ≡ folded total → result ≡ nonzero_complement total }
{
    if sum == 0xffff { 0xffff } else { !sum }
}
