//! Answers.
use crate::cases::{Goes, Life, all_live, first_wrong};
use app_tun_services::link::{Drain, write_answer};
use net_base::{ChecksumCapabilities, Device, DeviceCapabilities, Instant, Medium, RxToken};
use std::alloc::{AllocError, Global};

/// A call of a link, and what it must answer.
enum Step {
    /// Two bytes of this value are sent.
    Sends(u8),
    /// The answer with this next instant, in microseconds, is written so.
    Writes(Option<u32>, &'static [u8]),
    /// This packet is put where it comes next.
    Puts(&'static [u8]),
    /// A packet of so many bytes is.
    PutsMany(usize),
    /// The next packet is this one.
    Receives(&'static [u8]),
    /// The next packet has so many bytes.
    ReceivesMany(usize),
    ReceivesNone,
    /// So many packets were dropped.
    HasDropped(u64),
}

use Step::{HasDropped, Puts, PutsMany, Receives, ReceivesMany, ReceivesNone, Sends, Writes};

impl Goes<Drain> for Step {
    fn goes(&self, alloc: Global, drain: &mut Drain) -> bool {
        match self {
            Sends(byte) => sends(drain, *byte),
            Writes(micros, bytes) => writes(alloc, drain, *micros, bytes),
            Puts(bytes) => puts(drain, bytes.to_vec(alloc)),
            PutsMany(count) => puts(drain, vec![in alloc; 7; *count]),
            HasDropped(count) => drain.dropped() == *count,
            _ => receives(drain, self),
        }
    }
}

/// The same of a step that asks for the next packet.
fn receives(drain: &mut Drain, step: &Step) -> bool {
    match drain.receive(Instant::ZERO) {
        Some((packet, _leave)) => is_packet(packet.bytes(), step),
        None => matches!(step, ReceivesNone),
    }
}

fn is_packet(packet: &[u8], step: &Step) -> bool {
    match step {
        Receives(bytes) => packet == *bytes,
        ReceivesMany(count) => packet.len() == *count,
        _ => false,
    }
}

fn sends(drain: &mut Drain, byte: u8) -> bool {
    match drain.transmit(Instant::ZERO) {
        Some(token) => drain
            .send(token, 2, |buffer: &mut [u8]| buffer.fill(byte))
            .is_ok(),
        None => false,
    }
}

fn writes(alloc: Global, drain: &mut Drain, micros: Option<u32>, bytes: &[u8]) -> bool {
    let next = match micros {
        Some(micros) => Some(Instant::from_micros(i64::from(micros))),
        None => None,
    };
    let mut written = Vec::new(alloc);
    write_answer(drain, &mut written, next).is_ok() && written.as_slice() == bytes
}

fn puts(drain: &mut Drain, packet: Result<Vec<u8>, AllocError>) -> bool {
    match packet {
        Ok(packet) => {
            drain.put(packet);
            true
        }
        Err(AllocError) => false,
    }
}

/// A link whose longest packet has 1500 bytes, from its beginning on.
struct Link(&'static [Step]);

impl Life for Link {
    fn stops_at(&self, alloc: Global) -> Option<usize> {
        let described = DeviceCapabilities {
            medium: Medium::Ip,
            max_transmission_unit: 1500,
            checksum: ChecksumCapabilities::default(),
        };
        first_wrong(alloc, &mut Drain::new(alloc, described), self.0)
    }
}

static LINKS: [Link; 3] = [
    // An answer is what was sent and the next instant.
    Link(&[
        Sends(7),
        Sends(9),
        Writes(
            Some(258),
            &[2, 0, 7, 7, 2, 0, 9, 9, 0, 0, 2, 1, 0, 0, 0, 0, 0, 0],
        ),
        Writes(None, &[0, 0, 255, 255, 255, 255, 255, 255, 255, 255]),
    ]),
    // A turn brings one packet.
    Link(&[ReceivesNone, Puts(b"abc"), Receives(b"abc"), ReceivesNone]),
    // A packet that is too long is dropped.
    Link(&[
        PutsMany(1501),
        ReceivesNone,
        PutsMany(1500),
        ReceivesMany(1500),
        HasDropped(1),
    ]),
];

#[test]
fn links_live(rt: HostRuntime) {
    all_live(&rt, &LINKS);
}
