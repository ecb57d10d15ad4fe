//! What versions, protocols, ethertypes and sequence numbers print: names as IANA's registries and tools for captures have them, and
//! digits where there is no name.
use crate::cases::{Case, all, all_hold, all_named, prints};
use ip_wire::{EthernetProtocol, IpProtocol, IpVersion, SeqNumber};
use std::alloc::Global;

/// Protocols over IP.
static PROTOCOLS: [(u8, &str); 14] = [
    (0, "Hop-by-Hop"),
    (1, "ICMP"),
    (2, "IGMP"),
    (6, "TCP"),
    (17, "UDP"),
    (43, "IPv6-Route"),
    (44, "IPv6-Frag"),
    (50, "IPsec-ESP"),
    (51, "IPsec-AH"),
    (58, "ICMPv6"),
    (59, "IPv6-NoNxt"),
    (60, "IPv6-Opts"),
    (0x0a, "0x0a"),
    (0xfe, "0xfe"),
];

/// An ethertype, and its text.
struct Ethertype(u16, &'static str);

impl Case for Ethertype {
    fn holds(&self, alloc: Global) -> bool {
        prints(alloc, &EthernetProtocol::from(self.0), self.1)
    }
}

static ETHERTYPES: [Ethertype; 5] = [
    Ethertype(0x0800, "IPv4"),
    Ethertype(0x0806, "ARP"),
    Ethertype(0x86dd, "IPv6"),
    Ethertype(0x8100, "0x8100"),
    Ethertype(0x0007, "0x0007"),
];

#[test]
fn numbers_have_names(rt: HostRuntime) {
    all_named::<IpProtocol>(&rt, &PROTOCOLS);
    all_hold(&rt, &ETHERTYPES);
    let alloc = rt.alloc();
    all(
        &rt,
        &[
            prints(alloc, &IpVersion::Ipv4, "IPv4"),
            prints(alloc, &IpVersion::Ipv6, "IPv6"),
            prints(alloc, &SeqNumber(u32::MAX), "4294967295"),
        ],
    );
}
