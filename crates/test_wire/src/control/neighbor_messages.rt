//! Neighbour messages, where they are written. `app_decode` reads and writes them as data.
ghost use Rattle.std.specs.Prelude.{◌≡◌};
ghost use Rattle.control_wire.specs.Ndisc.{buffer_len, neighbor_message};

use crate::cases::all;
use control_wire::{Icmpv6PacketMut, NdiscNeighborFlags, NdiscRepr};
use ip_wire::{EthernetAddress, Ipv6Address, RawHardwareAddress};

/// Router fe80::7 to ff02::1, without its link address: it is to replace what readers hold.
const ANNOUNCEMENT: [u8; 24] = [
    0x88, 0, 0xdb, 0x98, 0xa0, 0, 0, 0, 0xfe, 0x80, 0, 0, 0, 0, 0, 0, 0, 0, 0, 0, 0, 0, 0, 7,
];

const NO_OPTIONS: [u8; 16] = [0; 16];

fn host(last: u16) -> Ipv6Address {
    Ipv6Address::new(0xfd00, 0, 0, 0, 0, 0, 0, last)
}

/// Through the conversion of Ethernet's addresses, as a host makes its own.
fn addressed() -> NdiscRepr {
    let from = RawHardwareAddress::from(EthernetAddress([2, 0, 0, 0, 0, 2]));
    NdiscRepr::NeighborSolicit {
        target_addr: host(1),
        lladdr: Some(from),
    }
}

fn solicitation() -> NdiscRepr
    ensures { buffer_len (neighbor_message result) ≡ 32 }
{
    NdiscRepr::NeighborSolicit {
        target_addr: host(1),
        lladdr: Some(RawHardwareAddress::from_bytes(&[2, 0, 0, 0, 0, 2])),
    }
}

fn announcement() -> NdiscRepr
    ensures { buffer_len (neighbor_message result) ≡ 24 }
{
    NdiscRepr::NeighborAdvert {
        flags: NdiscNeighborFlags::ROUTER | NdiscNeighborFlags::OVERRIDE,
        target_addr: Ipv6Address::new(0xfe80, 0, 0, 0, 0, 0, 0, 7),
        lladdr: None,
    }
}

// Without a checksum, which `fill_checksum` of the view writes.
#[test]
fn an_announcement_is_written(rt: HostRuntime) {
    let mut bytes = [0xff; 24];
    let mut packet = Icmpv6PacketMut::new_unchecked(&mut bytes);
    announcement().emit(&mut packet);
    all(
        &rt,
        &[
            packet.checksum() == 0,
            announcement().buffer_len() == 24,
            &packet.into_inner()[4..] == &ANNOUNCEMENT[4..],
        ],
    );
}

/// A message of this type and code about fd00::1 with all reserved bits set, then these options.
fn message(kind: u8, code: u8, options: &[u8; 16]) -> [u8; 40] {
    let mut bytes = [0; 40];
    bytes[..4].copy_from_slice(&[kind, code, 0, 0]);
    bytes[4..8].fill(0xff);
    bytes[8..24].copy_from_slice(&host(1).0);
    bytes[24..].copy_from_slice(options);
    bytes
}

fn all_flags() -> NdiscNeighborFlags {
    NdiscNeighborFlags::ROUTER | NdiscNeighborFlags::SOLICITED | NdiscNeighborFlags::OVERRIDE
}

#[test]
fn flags_are_bits_and_link_addresses_stations(rt: HostRuntime) {
    all(
        &rt,
        &[
            NdiscNeighborFlags::ROUTER.bits() == 0x80,
            NdiscNeighborFlags::SOLICITED.bits() == 0x40,
            NdiscNeighborFlags::OVERRIDE.bits() == 0x20,
            all_flags().contains(NdiscNeighborFlags::SOLICITED),
            !NdiscNeighborFlags::OVERRIDE.contains(NdiscNeighborFlags::SOLICITED),
            NdiscNeighborFlags::from_bits_truncate(0x1f) == NdiscNeighborFlags::empty(),
            NdiscNeighborFlags::from_bits_truncate(0xff) == all_flags(),
            addressed() == solicitation(),
        ],
    );
}

#[test]
fn flags_are_read_and_written(rt: HostRuntime) {
    let mut bytes = message(136, 0, &NO_OPTIONS);
    let mut packet = Icmpv6PacketMut::new_unchecked(&mut bytes);
    let read = packet.neighbor_flags();
    packet.set_neighbor_flags(NdiscNeighborFlags::OVERRIDE);
    packet.set_target_addr(host(9));
    all(
        &rt,
        &[
            read == all_flags(),
            packet.neighbor_flags() == NdiscNeighborFlags::OVERRIDE,
            packet.target_addr() == host(9),
            &bytes[4..8] == [0x20, 0xff, 0xff, 0xff].as_slice(),
            bytes[23] == 9,
        ],
    );
}
