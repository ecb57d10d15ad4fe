//! Constants, numbers in network order and sequence numbers.
use crate::cases::{Case, all, all_hold};
use crate::formats::texts::{either, ipv6_cidr};
use ip_wire::{
    IPV4_MIN_MTU, IPV4_MULTICAST_ALL_ROUTERS, IPV4_MULTICAST_ALL_SYSTEMS,
    IPV6_LINK_LOCAL_ALL_MLDV2_ROUTERS, IPV6_LINK_LOCAL_ALL_NODES, IPV6_LINK_LOCAL_ALL_ROUTERS,
    IPV6_MIN_MTU, IpAddress, IpCidr, Ipv4Address, Ipv6Address, MAX_HARDWARE_ADDRESS_LEN, SeqNumber,
    address_laws, network_order, seq_number,
};
use std::alloc::Global;

/// The text of a constant, and the constant.
struct Constant(&'static str, IpAddress);

impl Case for Constant {
    fn holds(&self, _alloc: Global) -> bool {
        either(self.0) == Some(self.1)
    }
}

static CONSTANTS: [Constant; 10] = [
    Constant("224.0.0.1", IpAddress::Ipv4(IPV4_MULTICAST_ALL_SYSTEMS)),
    Constant("224.0.0.2", IpAddress::Ipv4(IPV4_MULTICAST_ALL_ROUTERS)),
    Constant("0.0.0.0", IpAddress::Ipv4(Ipv4Address::UNSPECIFIED)),
    Constant("127.0.0.1", IpAddress::Ipv4(Ipv4Address::LOCALHOST)),
    Constant("255.255.255.255", IpAddress::Ipv4(Ipv4Address::BROADCAST)),
    Constant("ff02::1", IpAddress::Ipv6(IPV6_LINK_LOCAL_ALL_NODES)),
    Constant("ff02::2", IpAddress::Ipv6(IPV6_LINK_LOCAL_ALL_ROUTERS)),
    Constant(
        "ff02::16",
        IpAddress::Ipv6(IPV6_LINK_LOCAL_ALL_MLDV2_ROUTERS),
    ),
    Constant("::", IpAddress::Ipv6(Ipv6Address::UNSPECIFIED)),
    Constant("::1", IpAddress::Ipv6(Ipv6Address::LOCALHOST)),
];

// IANA's registries of multicast addresses; RFC 791, 8200, 4291 and 3810.
#[test]
fn constants_have_their_values(rt: HostRuntime) {
    all_hold(&rt, &CONSTANTS);
    address_laws::hardware_constants();
    address_laws::address_tests();
    address_laws::hardware_tests();
    address_laws::ipv4_constants();
    address_laws::ipv6_constants();
    let (solicited, local) = address_laws::ipv6_prefixes();
    all(
        &rt,
        &[
            ipv6_cidr("fe80::/10") == Some(local),
            ipv6_cidr("ff02::1:ff00:0/104") == Some(solicited),
            IpCidr::from(local).address() == IpAddress::from(local.address()),
            IpCidr::from(solicited).address() == IpAddress::from(solicited.address()),
            IPV4_MIN_MTU == 576,
            IPV6_MIN_MTU == 1280,
            MAX_HARDWARE_ADDRESS_LEN == 6,
        ],
    );
}

#[test]
fn reads_and_writes_in_network_order(rt: HostRuntime) {
    let mut bytes = [0; 8];
    network_order::write_u16(&mut bytes, 1, 0x1234);
    network_order::write_u32(&mut bytes, 3, 0x5678_9abc);
    network_order::written_numbers_are_read();
    all(
        &rt,
        &[
            bytes == [0, 0x12, 0x34, 0x56, 0x78, 0x9a, 0xbc, 0],
            network_order::read_u16(&bytes, 2) == 0x3456,
            network_order::read_u32(&bytes, 1) == 0x1234_5678,
        ],
    );
}

const LAST: SeqNumber = SeqNumber(0xffff_ffff);

const FIRST: SeqNumber = SeqNumber(0);

const HALF: SeqNumber = SeqNumber(0x8000_0000);

/// Two numbers, and whether the one comes before the other.
struct Before(SeqNumber, SeqNumber, bool);

impl Case for Before {
    fn holds(&self, _alloc: Global) -> bool {
        self.0.comes_before(self.1) == self.2
    }
}

const BEFORE: [Before; 5] = [
    Before(LAST, FIRST, true),
    Before(FIRST, LAST, false),
    Before(FIRST, FIRST, false),
    Before(FIRST, HALF, true),
    Before(HALF, FIRST, true),
];

/// Distances, of which the first goes round.
fn distances() -> (u32, usize, usize) {
    (
        LAST.distance(SeqNumber(4)),
        SeqNumber(7) - SeqNumber(7),
        SeqNumber(9) - SeqNumber(7),
    )
}

// Numbers on both sides of the point where they go round, and their beginning.
#[test]
fn goes_round(rt: HostRuntime) {
    seq_number::sum_comes_after();
    all_hold(&rt, &BEFORE);
    let mut moved = LAST;
    moved += 1;
    all(
        &rt,
        &[
            LAST + 3 == SeqNumber(2),
            FIRST - 1 == LAST,
            LAST.max(FIRST) == FIRST,
            LAST.min(FIRST) == LAST,
            moved == FIRST,
            distances() == (5, 0, 2),
            SeqNumber::default() == SeqNumber(0),
            address_laws::default_sequence_number() == SeqNumber(0),
        ],
    );
}
