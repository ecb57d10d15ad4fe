//! Where the link finds a TCP segment in a frame, and which frames begin a datagram of IPv6 in fragments. The frames were made by programs of
//! their own outside this repository.

use net_base::Medium;
use sim_link::{Part, begins_fragments, tcp_part};
use std::alloc::Global;
use std::test::Fail;

/// From 192.168.1.1:49152 to 192.168.1.2:80, the bytes 61 62 63.
const SEGMENT: &str =
    "4500002b000700004006f772c0a80101c0a80102c000005000000001000000025018100097bf0000616263";

/// From [fd00::1]:49152 to [fd00::2]:80, the same bytes.
const SEGMENT_IPV6: &str =
    "6000000000170640fd000000000000000000000000000001fd000000000000000000000000000002c0000050000000010000000250181000210f0000616263";

/// From 192.168.1.1:48896 to 192.168.1.2:53, the bytes aa 00 00 ff.
const DATAGRAM: &str = "45000020c24d00004011352cc0a80101c0a80102bf000035000c124daa0000ff";

/// To 02-00-00-00-00-02 from 02-00-00-00-00-01, but for the EtherType.
const LINK: &str = "020000000002020000000001";

/// Whether the bytes of these texts, one after the other, have a TCP segment of 23 bytes there.
fn has_slot(
    alloc: Global,
    medium: Medium,
    texts: &[&str],
    slot: Option<usize>,
) -> Result<bool, Fail> {
    let mut text = String::new(alloc);
    for part in texts {
        text.push_str(part)?;
    }
    let frame = hex::decode(alloc, text.as_str())?;
    Ok(tcp_part(medium, frame.as_slice()) == slot.map(|at| Part { at, len: 23 }))
}

/// A packet, its EtherType, and where a segment begins in it and after an Ethernet header.
type Place = (&'static str, &'static str, Option<usize>, Option<usize>);

/// Whether it does, alone and before padding, and in a frame. Another EtherType has none.
fn is_in_slot(alloc: Global, row: &Place) -> Result<bool, Fail> {
    let (packet, kind, slot, framed) = *row;
    Ok(
        has_slot(alloc, Medium::Ip, &[packet], slot)?
            && has_slot(alloc, Medium::Ip, &[packet, "0000"], slot)?
            && has_slot(alloc, Medium::Ethernet, &[LINK, kind, packet], framed)?
            && has_slot(alloc, Medium::Ethernet, &[LINK, "0806", packet], None)?,
    )
}

/// Packets, their EtherTypes, and where a segment begins in them and after an Ethernet header.
static SLOTS: [Place; 7] = [
    (SEGMENT, "0800", Some(20), Some(34)),
    (SEGMENT_IPV6, "86dd", Some(40), Some(54)),
    (DATAGRAM, "0800", None, None),
    // More fragments follow, or it stands at an offset.
    (
        "4500002b000720004006d772c0a80101c0a80102c000005000000001000000025018100097bf0000616263",
        "0800",
        None,
        None,
    ),
    (
        "4500002b000700014006f771c0a80101c0a80102c000005000000001000000025018100097bf0000616263",
        "0800",
        None,
        None,
    ),
    (
        "4500002b000700004006f772c0a80101c0a80102",
        "0800",
        None,
        None,
    ),
    ("", "0800", None, None),
];

/// Padding changes nothing, and another EtherType all.
#[test]
fn a_segment_has_its_slot(rt: HostRuntime) -> Result<(), Fail> {
    for row in &SLOTS {
        assert!(rt; is_in_slot(rt.alloc(), row)?, "{}", row.0);
    }
    Ok(())
}

/// From fd00::1 to fd00::2, the first 8 bytes of a UDP datagram of identification 49741, of which more follow.
const FIRST_FRAGMENT: &str =
    "6000000000102c40fd000000000000000000000000000001fd000000000000000000000000000002110000010000c24dbf00003507d864ff";

/// The 8 bytes that stand after 1,448 others.
const LATER_FRAGMENT: &str =
    "6000000000102c40fd000000000000000000000000000001fd000000000000000000000000000002110005a80000c24dda0f0144ca47dba7";

/// Packets, their EtherTypes, and whether they begin a datagram of IPv6 in fragments.
static BEGINNINGS: [(&str, &str, bool); 4] = [
    (FIRST_FRAGMENT, "86dd", true),
    (LATER_FRAGMENT, "86dd", false),
    (SEGMENT_IPV6, "86dd", false),
    (SEGMENT, "0800", false),
];

/// Whether the bytes of these texts, one after the other, begin one.
fn begins(alloc: Global, medium: Medium, texts: &[&str]) -> Result<bool, Fail> {
    let mut text = String::new(alloc);
    for part in texts {
        text.push_str(part)?;
    }
    let frame = hex::decode(alloc, text.as_str())?;
    Ok(begins_fragments(medium, frame.as_slice()))
}

/// On either medium alike, and after another EtherType none does.
#[test]
fn a_first_fragment_begins_a_datagram(rt: HostRuntime) -> Result<(), Fail> {
    for (packet, kind, wanted) in BEGINNINGS {
        let bare = begins(rt.alloc(), Medium::Ip, &[packet])?;
        let framed = begins(rt.alloc(), Medium::Ethernet, &[LINK, kind, packet])?;
        let other = begins(rt.alloc(), Medium::Ethernet, &[LINK, "0806", packet])?;
        assert!(rt; bare == wanted && framed == wanted && !other, "{}", packet);
    }
    Ok(())
}
