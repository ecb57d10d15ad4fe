//! Hostile bytes: whatever frames come, each is taken, and a poll answers one of its results.
use crate::hosts::polls::common::{Host, Plan, UDP};
use crate::hosts::polls::streams::listening_socket;
use crate::hosts::polls::wire::capabilities;
use interface::{PollIngressSingleResult, PollResult};
use net_base::{ChecksumCapabilities, Medium, Rand};
use sim_link::Port;
use std::alloc::{AllocError, Global};
use std::mem::replace;
use std::test::Fail;

/// How many frames come over each medium.
const FRAMES: u32 = 100_000;

/// How many of them come at one port: after them the frames that were sent are let go.
const AT_A_PORT: u32 = 1_000;

/// Packets for a host at 192.168.1.1: a datagram for its socket, one for none, a segment, an echo request, two fragments of a
/// datagram, an error about one, and to fd00::1 a datagram and a fragment.
static PACKETS: [&[u8]; 9] = [
    &[
        0x45, 0, 0, 32, 0, 0, 0x40, 0, 0x40, 17, 0xb7, 0x79, 192, 168, 1, 2, 192, 168, 1, 1, 0xbf,
        0, 0xbf, 0, 0, 12, 0, 0, 0xaa, 0, 0, 0xff,
    ],
    &[
        0x45, 0, 0, 32, 0, 0, 0x40, 0, 0x40, 17, 0xb7, 0x79, 192, 168, 1, 2, 192, 168, 1, 1, 0xbf,
        0, 0, 53, 0, 12, 0, 0, 0xaa, 0, 0, 0xff,
    ],
    &[
        0x45, 0, 0, 40, 0, 0, 0x40, 0, 0x40, 6, 0xb7, 0x7c, 192, 168, 1, 2, 192, 168, 1, 1, 0xc1,
        0x5c, 0, 80, 1, 0x23, 0x45, 0x67, 0, 0, 0, 0, 0x50, 2, 1, 0x23, 0x23, 0x34, 0, 0,
    ],
    &[
        0x45, 0, 0, 28, 0, 0, 0x40, 0, 0x40, 1, 0xb7, 0x8d, 192, 168, 1, 2, 192, 168, 1, 1, 8, 0,
        0xe5, 0xca, 0x12, 0x34, 0, 1,
    ],
    &[
        0x45, 0, 0, 36, 0, 7, 0x20, 0, 0x40, 17, 0xd7, 0x6e, 192, 168, 1, 2, 192, 168, 1, 1, 0xbf,
        0, 0xbf, 0, 0, 24, 0, 0, 1, 2, 3, 4, 5, 6, 7, 8,
    ],
    &[
        0x45, 0, 0, 28, 0, 7, 0, 2, 0x40, 17, 0xf7, 0x74, 192, 168, 1, 2, 192, 168, 1, 1, 1, 2, 3,
        4, 5, 6, 7, 8,
    ],
    &[
        0x45, 0, 0, 56, 0, 0, 0x40, 0, 0x40, 1, 0xb7, 0x71, 192, 168, 1, 2, 192, 168, 1, 1, 3, 3,
        0xfc, 0xfc, 0, 0, 0, 0, 0x45, 0, 0, 32, 0, 0, 0x40, 0, 0x40, 17, 0xb7, 0x79, 192, 168, 1,
        1, 192, 168, 1, 2, 0xbf, 0, 0, 53, 0, 12, 0, 0,
    ],
    &[
        0x60, 0, 0, 0, 0, 12, 17, 0x40, 0xfd, 0, 0, 0, 0, 0, 0, 0, 0, 0, 0, 0, 0, 0, 0, 2, 0xfd, 0,
        0, 0, 0, 0, 0, 0, 0, 0, 0, 0, 0, 0, 0, 1, 0xbf, 0, 0xbf, 0, 0, 12, 0x9b, 0x9c, 0xaa, 0, 0,
        0xff,
    ],
    &[
        0x60, 0, 0, 0, 0, 24, 44, 0x40, 0xfd, 0, 0, 0, 0, 0, 0, 0, 0, 0, 0, 0, 0, 0, 0, 2, 0xfd, 0,
        0, 0, 0, 0, 0, 0, 0, 0, 0, 0, 0, 0, 0, 1, 17, 0, 0, 1, 0, 0, 0, 9, 0xbf, 0, 0xbf, 0, 0, 24,
        0x9b, 0x9c, 1, 2, 3, 4, 5, 6, 7, 8,
    ],
];

/// Packets that come over Ethernet alone: an ARP request, and a solicitation for fd00::1.
static NEIGHBOURS: [&[u8]; 2] = [
    &[
        0, 1, 8, 0, 6, 4, 0, 1, 2, 0, 0, 0, 0, 2, 192, 168, 1, 2, 0, 0, 0, 0, 0, 0, 192, 168, 1, 1,
    ],
    &[
        0x60, 0, 0, 0, 0, 32, 58, 255, 0xfd, 0, 0, 0, 0, 0, 0, 0, 0, 0, 0, 0, 0, 0, 0, 2, 0xff, 2,
        0, 0, 0, 0, 0, 0, 0, 0, 0, 1, 0xff, 0, 0, 1, 135, 0, 0x7d, 0x97, 0, 0, 0, 0, 0xfd, 0, 0, 0,
        0, 0, 0, 0, 0, 0, 0, 0, 0, 0, 0, 1, 1, 1, 2, 0, 0, 0, 0, 2,
    ],
];

/// The packet of this number, over Ethernet also those about neighbours.
fn packet(medium: Medium, number: u32) -> &'static [u8] {
    let slot = (number % 16) as usize;
    let found = match medium {
        Medium::Ethernet if slot > 10 => NEIGHBOURS.get(slot % 2),
        _ => PACKETS.get(slot % 9),
    };
    match found {
        Some(bytes) => bytes,
        None => &[],
    }
}

/// The number by which an Ethernet header says what follows.
fn ethertype(packet: &[u8]) -> [u8; 2] {
    match packet.first() {
        Some(0x45) => [0x08, 0x00],
        Some(0x60) => [0x86, 0xdd],
        _ => [0x08, 0x06],
    }
}

/// Writes one of the packets, over Ethernet after its header.
fn write(frame: &mut Vec<u8>, medium: Medium, packet: &[u8]) -> Result<(), AllocError> {
    if medium == Medium::Ethernet {
        frame.extend_from_slice(&[2, 0, 0, 0, 0, 1, 2, 0, 0, 0, 0, 2])?;
        frame.extend_from_slice(&ethertype(packet))?;
    }
    frame.extend_from_slice(packet)
}

/// Gives other values to bytes of which a word has none of these bits.
fn change(frame: &mut [u8], mask: u32, words: &mut Rand) {
    for byte in frame {
        let word = words.rand_u32();
        if word & mask == 0 {
            *byte = (word >> 24) as u8;
        }
    }
}

/// Changes some bytes, or cuts the end off, or leaves the frame as it is.
fn damage(frame: &mut Vec<u8>, words: &mut Rand) {
    let kind = words.rand_u32();
    // Every byte, each eighth, each 64th, or none.
    let mask = match kind % 8 {
        0 => 0,
        1 | 2 => 7,
        3 | 4 | 5 => 63,
        _ => u32::MAX,
    };
    change(frame.as_mut_slice(), mask, words);
    if kind / 8 % 8 == 0 {
        frame.truncate((kind / 64 % 96) as usize);
    }
}

/// A frame: one of the packets, of which some bytes are others, or whose end is missing, or as it is.
fn frame(alloc: Global, medium: Medium, words: &mut Rand) -> Result<Vec<u8>, AllocError> {
    let mut frame = Vec::with_capacity(alloc, 128)?;
    write(&mut frame, medium, packet(medium, words.rand_u32()))?;
    damage(&mut frame, words);
    Ok(frame)
}

/// A port of this medium; every second one leaves no checksum to the host, so that damaged frames are read, too.
fn port(alloc: Global, medium: Medium, number: u32) -> Port {
    let mut described = capabilities(medium);
    if number % 2 == 1 {
        described.checksum = ChecksumCapabilities::ignored();
    }
    Port::new(alloc, described)
}

/// What came of the frames: polls that changed something, datagrams that were read, frames that were sent, and frames that
/// no poll took.
#[derive(Drop)]
struct Seen {
    changes: u32,
    read: u32,
    sent: usize,
    left: usize,
}

impl Seen {
    /// Polls the host once, and counts.
    fn poll(&mut self, host: &mut Host) {
        match host.poll(8) {
            PollResult::SocketStateChanged => self.changes = self.changes.saturating_add(1),
            PollResult::None => {}
        }
        if host.received().is_some() {
            self.read = self.read.saturating_add(1);
        }
        self.left = self.left.saturating_add(host.left());
    }

    /// Whether every frame was taken, and more than a thousand times each came of it.
    fn is_ample(&self) -> bool {
        self.left == 0 && self.changes > 1_000 && self.read > 1_000 && self.sent > 1_000
    }
}

/// Lets so many frames come at a port, each with a poll a millisecond after the one before.
fn come(
    alloc: Global,
    medium: Medium,
    host: &mut Host,
    words: &mut Rand,
    first: u32,
    seen: &mut Seen,
) -> Result<(), Fail> {
    for number in 0..AT_A_PORT {
        if !host.comes(frame(alloc, medium, words)?) {
            return Err("a place".into());
        }
        host.now = first.saturating_add(number).saturating_mul(1_000);
        seen.poll(host);
    }
    seen.sent = seen.sent.saturating_add(host.wire.sent().len());
    Ok(())
}

fn come_all(alloc: Global, medium: Medium, host: &mut Host, seen: &mut Seen) -> Result<(), Fail> {
    let mut words = Rand::new(7);
    for number in 0..FRAMES / AT_A_PORT {
        drop(replace(&mut host.wire, port(alloc, medium, number)));
        let first = number.saturating_mul(AT_A_PORT);
        come(alloc, medium, host, &mut words, first, seen)?;
    }
    Ok(())
}

/// Sends them to a host at 192.168.1.1 and fd00::1 with a UDP socket at port 48896 and a TCP socket that listens at port 80.
fn all_seen(alloc: Global, medium: Medium) -> Result<Seen, Fail> {
    let plan = Plan {
        medium,
        has_ipv6: true,
        ..UDP
    };
    let mut host = Host::new(alloc, &plan)?;
    listens(alloc, &mut host)?;
    seen_at(alloc, medium, &mut host)
}

/// Gives the host a TCP socket that listens at port 80.
fn listens(alloc: Global, host: &mut Host) -> Result<(), Fail> {
    let socket = listening_socket(alloc, 64)?;
    match host.add(socket) {
        Some(_) => Ok(()),
        None => Err("a place".into()),
    }
}

/// The same at this host.
fn seen_at(alloc: Global, medium: Medium, host: &mut Host) -> Result<Seen, Fail> {
    let mut seen = Seen {
        changes: 0,
        read: 0,
        sent: 0,
        left: 0,
    };
    come_all(alloc, medium, host, &mut seen)?;
    Ok(seen)
}

#[test]
fn hostile_packets_bring_named_results(rt: HostRuntime) -> Result<(), Fail> {
    assert!(rt; all_seen(rt.alloc(), Medium::Ip)?.is_ample());
    Ok(())
}

#[test]
fn hostile_frames_bring_named_results(rt: HostRuntime) -> Result<(), Fail> {
    assert!(rt; all_seen(rt.alloc(), Medium::Ethernet)?.is_ample());
    Ok(())
}

/// A datagram to 192.168.1.1, of which about every eighth byte is another.
fn damaged(alloc: Global, words: &mut Rand) -> Result<Vec<u8>, Fail> {
    let mut frame = hex::decode(
        alloc,
        "45000020000040004011b779c0a80102c0a80101bf00bf00000c124daa0000ff",
    )?;
    change(frame.as_mut_slice(), 7, words);
    Ok(frame)
}

/// Whether each of so many comes and is taken by one call.
fn are_taken(alloc: Global, host: &mut Host, count: u32) -> Result<bool, Fail> {
    let mut words = Rand::new(7);
    for _ in 0..count {
        if !host.comes(damaged(alloc, &mut words)?)
            || host.ingress() != PollIngressSingleResult::SocketStateChanged
        {
            return Ok(false);
        }
    }
    Ok(host.left() == 0)
}

/// Whether a host takes 2,000.
fn all_taken(alloc: Global) -> Result<bool, Fail> {
    let mut host = Host::new(alloc, &UDP)?;
    are_taken(alloc, &mut host, 2_000)
}

#[test]
fn damaged_datagrams_are_taken(rt: HostRuntime) -> Result<(), Fail> {
    assert!(rt; all_taken(rt.alloc())?);
    Ok(())
}
