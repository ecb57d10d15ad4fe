//! Queries that were sent to a station with Linux: which of them a member answers.
ghost use Rattle.std.specs.Prelude.{◌≤◌};

use base_device::ChecksumCapabilities;
use hex::decode;
use iface_groups::{
    CompatibilityMode, Member, Told, answer_at, counts_v4, counts_v6, igmp_max_micros,
    is_reported_v4, is_reported_v6, mld_max_micros,
};
use wire_address::{Ipv4Address, Ipv6Address};
use wire_igmp::{IgmpPacket, IgmpRepr};
use wire_mld::{MldPacket, MldRepr};

/// What it is, the packet, and whether a member of 239.1.2.3 at 192.168.1.2 answers.
pub(crate) const IGMP: [(&str, &str, bool); 21] = [
    (
        "general, as it should be",
        "46c00020000040000102426dc0a80101e000000194040000110aeef500000000",
        true,
    ),
    (
        "ttl 2",
        "46c00020000040000202416dc0a80101e000000194040000110aeef500000000",
        true,
    ),
    (
        "ttl 64",
        "46c00020000040004002036dc0a80101e000000194040000110aeef500000000",
        true,
    ),
    (
        "no router alert",
        "45c0001c000040000102d775c0a80101e0000001110aeef500000000",
        true,
    ),
    (
        "bad checksum",
        "46c00020000040000102426dc0a80101e000000194040000110aeef400000000",
        false,
    ),
    (
        "source 0.0.0.0",
        "46c00020000040000102041700000000e000000194040000110aeef500000000",
        true,
    ),
    (
        "source of another net",
        "46c00020000040000102f1040a090909e000000194040000110aeef500000000",
        true,
    ),
    (
        "own source",
        "46c00020000040000102426cc0a80102e000000194040000110aeef500000000",
        false,
    ),
    (
        "source 224.0.0.9",
        "46c00020000040000102240de0000009e000000194040000110aeef500000000",
        false,
    ),
    (
        "general to the host alone",
        "46c0002000004000010260c4c0a80101c0a8010294040000110aeef500000000",
        true,
    ),
    // Linux answers it.
    (
        "general to 255.255.255.255",
        "46c00020000040000102226fc0a80101ffffffff94040000110aeef500000000",
        false,
    ),
    (
        "group query to 224.0.0.1",
        "46c00020000040000102426dc0a80101e000000194040000110afdf0ef010203",
        true,
    ),
    (
        "group query to the host alone",
        "46c0002000004000010260c4c0a80101c0a8010294040000110afdf0ef010203",
        true,
    ),
    (
        "group query of 224.0.0.1",
        "46c00020000040000102426dc0a80101e000000194040000110a0ef4e0000001",
        false,
    ),
    (
        "group query of 10.1.2.3",
        "46c00020000040000102426dc0a80101e000000194040000110ae2f10a010203",
        false,
    ),
    (
        "9 bytes",
        "46c00021000040000102426cc0a80101e000000194040000110aeef50000000000",
        false,
    ),
    (
        "10 bytes",
        "46c00022000040000102426bc0a80101e000000194040000110aeef5000000000000",
        false,
    ),
    (
        "11 bytes",
        "46c00023000040000102426ac0a80101e000000194040000110aeef500000000000000",
        false,
    ),
    (
        "7 bytes",
        "46c0001f000040000102426ec0a80101e000000194040000110aeef5000000",
        false,
    ),
    (
        "type 0x10",
        "46c00020000040000102426dc0a80101e000000194040000100aeff500000000",
        false,
    ),
    (
        "another's report of the group",
        "46c000200000400001023162c0a80109ef010203940400001600f8faef010203",
        false,
    ),
];

/// What it is, the packet, and whether a listener of ff15::1:2:3 at fe80::ff:fe00:12 answers.
pub(crate) const MLD: [(&str, &str, bool); 19] = [
    (
        "general, as it should be",
        "6000000000200001fe800000000000000000000000000001ff0200000000000000000000000000013a0005020000010082007c3f03e8000000000000000000000000000000000000",
        true,
    ),
    (
        "hop limit 2",
        "6000000000200002fe800000000000000000000000000001ff0200000000000000000000000000013a0005020000010082007c3f03e8000000000000000000000000000000000000",
        false,
    ),
    (
        "hop limit 255",
        "60000000002000fffe800000000000000000000000000001ff0200000000000000000000000000013a0005020000010082007c3f03e8000000000000000000000000000000000000",
        false,
    ),
    (
        "no router alert",
        "6000000000183a01fe800000000000000000000000000001ff02000000000000000000000000000182007c3f03e8000000000000000000000000000000000000",
        false,
    ),
    (
        "hop-by-hop header without router alert",
        "6000000000200001fe800000000000000000000000000001ff0200000000000000000000000000013a0001040000000082007c3f03e8000000000000000000000000000000000000",
        false,
    ),
    (
        "router alert of value 1",
        "6000000000200001fe800000000000000000000000000001ff0200000000000000000000000000013a0005020001010082007c3f03e8000000000000000000000000000000000000",
        false,
    ),
    (
        "bad checksum",
        "6000000000200001fe800000000000000000000000000001ff0200000000000000000000000000013a0005020000010082007c3e03e8000000000000000000000000000000000000",
        false,
    ),
    (
        "source 2001:db8::1",
        "600000000020000120010db8000000000000000000000001ff0200000000000000000000000000013a0005020000010082004d0703e8000000000000000000000000000000000000",
        false,
    ),
    (
        "source ::",
        "600000000020000100000000000000000000000000000000ff0200000000000000000000000000013a0005020000010082007ac103e8000000000000000000000000000000000000",
        false,
    ),
    // Linux answers it.
    (
        "own source",
        "6000000000200001fe80000000000000000000fffe000012ff0200000000000000000000000000013a0005020000010082007d2e03e8000000000000000000000000000000000000",
        false,
    ),
    (
        "general to the host alone",
        "6000000000200001fe800000000000000000000000000001fe80000000000000000000fffe0000123a0005020000010082007db003e8000000000000000000000000000000000000",
        true,
    ),
    (
        "general to ff02::16",
        "6000000000200001fe800000000000000000000000000001ff0200000000000000000000000000163a0005020000010082007c2a03e8000000000000000000000000000000000000",
        false,
    ),
    (
        "group query to ff02::1",
        "6000000000200001fe800000000000000000000000000001ff0200000000000000000000000000013a0005020000010082007d2303e80000ff150000000000000000000100020003",
        true,
    ),
    (
        "group query to the host alone",
        "6000000000200001fe800000000000000000000000000001fe80000000000000000000fffe0000123a0005020000010082007e9403e80000ff150000000000000000000100020003",
        true,
    ),
    (
        "group query of ff02::1",
        "6000000000200001fe800000000000000000000000000001ff0200000000000000000000000000013a0005020000010082007d3b03e80000ff020000000000000000000000000001",
        false,
    ),
    (
        "group query of 2001:db8::1",
        "6000000000200001fe800000000000000000000000000001ff0200000000000000000000000000013a0005020000010082004e8503e8000020010db8000000000000000000000001",
        false,
    ),
    // Linux answers it.
    (
        "25 bytes",
        "6000000000210001fe800000000000000000000000000001ff0200000000000000000000000000013a0005020000010082007c3e03e800000000000000000000000000000000000000",
        false,
    ),
    // Linux answers it.
    (
        "27 bytes",
        "6000000000230001fe800000000000000000000000000001ff0200000000000000000000000000013a0005020000010082007c3c03e8000000000000000000000000000000000000000000",
        false,
    ),
    (
        "code 1",
        "6000000000200001fe800000000000000000000000000001ff0200000000000000000000000000013a0005020000010082017c3e03e8000000000000000000000000000000000000",
        true,
    ),
];

const OWN_V4: Ipv4Address = Ipv4Address([192, 168, 1, 2]);

const GROUP_V4: Ipv4Address = Ipv4Address([239, 1, 2, 3]);

const OWN_V6: Ipv6Address = Ipv6Address([
    0xfe, 0x80, 0, 0, 0, 0, 0, 0, 0, 0, 0, 0xff, 0xfe, 0, 0, 0x12,
]);

const GROUP_V6: Ipv6Address = Ipv6Address([0xff, 0x15, 0, 0, 0, 0, 0, 0, 0, 0, 0, 1, 0, 2, 0, 3]);

/// The moment of a query, long after the group was joined.
const NOW: u64 = 5_000_000;

/// A member that has told its join twice.
fn member(mode: CompatibilityMode) -> Member {
    let mut member = Member::ABSENT;
    member.join(0, 1_000_000);
    member.tell(0);
    member.tell(1_000_000);
    let _quiet = member.next_told(mode, NOW);
    member
}

/// Whether a member answers a query of this delay by then, and not at once.
fn answers(mode: CompatibilityMode, max_micros: u64) -> bool {
    let mut member = member(mode);
    if max_micros > 60_000_000 {
        return false;
    }
    let at = answer_at(NOW, max_micros, 0x1234_5678);
    member.query(at);
    let told = member.next_told(mode, at);
    told == Some(Told::Report) && member.next_told(mode, NOW).is_none() && at <= NOW + max_micros
}

fn v4_at(bytes: &[u8], at: usize) -> Ipv4Address
    requires { at ≤ 100 }
{
    match bytes.get(at..at + 4) {
        Some([a, b, c, d]) => Ipv4Address([*a, *b, *c, *d]),
        _ => Ipv4Address::UNSPECIFIED,
    }
}

/// Whether the member answers this IPv4 packet.
fn igmp_answered(bytes: &[u8]) -> bool {
    let header_len = match bytes.first() {
        Some(first) => 4 * usize::from(*first % 16),
        None => 0,
    };
    let (src_addr, dst_addr) = (v4_at(bytes, 12), v4_at(bytes, 16));
    let Ok(packet) = IgmpPacket::new_checked(bytes.get(header_len..).unwrap_or(&[])) else {
        return false;
    };
    let Ok(
        IgmpRepr::MembershipQuery {
            max_resp_code,
            group_addr,
        },
    ) = IgmpRepr::parse(&packet)
    else {
        return false;
    };
    let (from_own, to_own) = (src_addr == OWN_V4, dst_addr == OWN_V4);
    let is_of_member = group_addr == Ipv4Address::UNSPECIFIED || group_addr == GROUP_V4;
    let mode = CompatibilityMode::Igmpv2;
    is_of_member
        && is_reported_v4(&GROUP_V4)
        && counts_v4(&src_addr, &dst_addr, &group_addr, from_own, to_own)
        && answers(mode, igmp_max_micros(mode, max_resp_code))
}

fn v6_at(bytes: &[u8], at: usize) -> Ipv6Address
    requires { at ≤ 100 }
{
    let mut octets = [0; 16];
    if let Some(found) = bytes.get(at..at + 16) {
        octets.copy_from_slice(found);
    }
    Ipv6Address(octets)
}

/// Whether the listener answers this IPv6 packet.
fn mld_answered(bytes: &[u8]) -> bool {
    let (src_addr, dst_addr) = (v6_at(bytes, 8), v6_at(bytes, 24));
    let (next, hop_limit) = match bytes {
        [_, _, _, _, _, _, next, hop_limit, ..] => (*next, *hop_limit),
        _ => (0, 0),
    };
    let has_header = next == 0;
    let alert = [58, 0, 5, 2, 0, 0, 1, 0];
    let has_alert = has_header && bytes.get(40..48) == Some(alert.as_slice());
    let start = if has_header { 48 } else { 40 };
    let Ok(packet) = MldPacket::new_checked(bytes.get(start..).unwrap_or(&[])) else {
        return false;
    };
    if bytes.len() > 1000 {
        return false;
    }
    let all = ChecksumCapabilities::default();
    let Ok(
        MldRepr::QueryV1 {
            max_resp_code,
            mcast_addr,
        },
    ) = MldRepr::parse(&src_addr, &dst_addr, &packet, &all)
    else {
        return false;
    };
    let (from_own, to_own) = (src_addr == OWN_V6, dst_addr == OWN_V6);
    let is_of_listener = mcast_addr == Ipv6Address::UNSPECIFIED || mcast_addr == GROUP_V6;
    let mode = CompatibilityMode::Igmpv2;
    is_of_listener
        && is_reported_v6(&GROUP_V6)
        && counts_v6(
            &src_addr,
            &dst_addr,
            &mcast_addr,
            hop_limit,
            has_alert,
            from_own,
            to_own,
        )
        && answers(mode, mld_max_micros(mode, max_resp_code))
}

#[test]
fn igmp_queries_are_answered_as_by_linux(rt: HostRuntime) {
    for (what, digits, wanted) in IGMP {
        let bytes = decode(rt.alloc(), digits).expect(&rt, "digits");
        assert!(rt; igmp_answered(bytes.as_slice()) == wanted, "{what}");
    }
}

#[test]
fn mld_queries_are_answered_as_by_linux(rt: HostRuntime) {
    for (what, digits, wanted) in MLD {
        let bytes = decode(rt.alloc(), digits).expect(&rt, "digits");
        assert!(rt; mld_answered(bytes.as_slice()) == wanted, "{what}");
    }
}
