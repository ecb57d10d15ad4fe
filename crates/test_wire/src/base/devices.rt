//! What devices answer, and what they say of themselves.
use crate::cases::{Case, Goes, Life, all, all_hold, all_live, first_wrong, prints};
use net_base::{
    Checksum, ChecksumCapabilities, Device, DeviceCapabilities, IPV4_FRAGMENT_PAYLOAD_ALIGNMENT,
    Instant, Loopback, Medium, PacketMeta, RxToken, TxToken,
};
use std::alloc::Global;

/// A call of a loopback, and what it must answer.
enum Step {
    /// There is no next frame.
    IsSilent,
    /// These bytes are sent.
    Sends(&'static [u8]),
    /// The next frame is this one.
    Receives(&'static [u8]),
    /// The next frame is handed over with these bytes.
    HandsOver(&'static [u8]),
    /// The next frame is answered by `ok`, while it is read: it has so many bytes.
    Answers(usize),
    /// So many frames of so many bytes are sent.
    SendsMany(u32, usize),
    /// So many frames of so many bytes come.
    ReceivesMany(u32, usize),
    /// A frame that no allocator has room for is refused, by an error of this text. The closure doesn't run.
    Refuses(&'static str),
    /// So many were refused.
    HasRefused(u64),
}

use Step::{
    Answers, HandsOver, HasRefused, IsSilent, Receives, ReceivesMany, Refuses, Sends, SendsMany,
};

impl Goes<Loopback> for Step {
    fn goes(&self, alloc: Global, device: &mut Loopback) -> bool {
        match self {
            Sends(bytes) => send_bytes(device, bytes),
            SendsMany(count, length) => sends_many(device, *count, *length),
            Answers(length) => answers(device) == Some(*length),
            Refuses(text) => refuses(alloc, device, text),
            HasRefused(count) => device.refusals() == *count,
            _ => comes(device, self),
        }
    }
}

/// The same of a step that asks for the next frame.
fn comes(device: &mut Loopback, step: &Step) -> bool {
    match step {
        IsSilent => is_silent(device),
        Receives(bytes) => receives(device, bytes),
        HandsOver(bytes) => hands_over(device, bytes),
        ReceivesMany(count, length) => receives_many(device, *count, *length),
        _ => false,
    }
}

/// Sends the bytes, by a device that is known by its bound alone.
fn send_bytes<D: Device>(device: &mut D, bytes: &[u8]) -> bool {
    let Some(mut token) = device.transmit(Instant::ZERO) else {
        return false;
    };
    token.set_meta(PacketMeta::default());
    device
        .send(token, bytes.len(), |buffer: &mut [u8]| {
            buffer.copy_from_slice(bytes)
        })
        .is_ok()
}

/// The length of the next frame, by a device that is known by its bound alone.
fn next_length<D: Device>(device: &mut D) -> Option<usize> {
    let (token, _leave) = device.receive(Instant::ZERO)?;
    let _meta = token.meta();
    Some(token.consume(|frame: &[u8]| frame.len()))
}

/// Whether the next frame is this one.
fn receives(device: &mut Loopback, bytes: &[u8]) -> bool {
    match device.receive(Instant::ZERO) {
        Some((token, _leave)) => { token.bytes() == bytes && token.meta() == PacketMeta::default() }
        None => false,
    }
}

/// Whether there is no next frame.
fn is_silent(device: &mut Loopback) -> bool {
    device.receive(Instant::ZERO).is_none()
}

/// Answers the next frame by the leave alongside it, while it is read. The answer is the frame's length.
fn answers(device: &mut Loopback) -> Option<usize> {
    let (token, mut leave) = device.receive(Instant::ZERO)?;
    leave.set_meta(PacketMeta::default());
    let frame = token.bytes();
    device
        .send(leave, 2, |buffer: &mut [u8]| {
            buffer.copy_from_slice(b"ok");
            frame.len()
        })
        .ok()
}

/// Whether the next frame is handed over with these bytes.
fn hands_over(device: &mut Loopback, bytes: &[u8]) -> bool {
    match device.receive(Instant::ZERO) {
        Some((token, _leave)) => token.into_frame().as_slice() == bytes,
        None => false,
    }
}

/// Whether a frame that no allocator has room for is refused, by an error of this text, before the closure runs.
fn refuses(alloc: Global, device: &mut Loopback, text: &str) -> bool {
    let Some(leave) = device.transmit(Instant::ZERO) else {
        return false;
    };
    let mut ran = false;
    let sent = device.send(leave, usize::MAX, |_buffer: &mut [u8]| {
        ran = true;
    });
    match sent {
        Ok(()) => false,
        Err(refusal) => !ran && prints(alloc, &refusal, text),
    }
}

/// Sends a frame of so many bytes.
fn sends(device: &mut Loopback, length: usize) -> bool {
    match device.transmit(Instant::ZERO) {
        Some(leave) => device
            .send(leave, length, |buffer: &mut [u8]| buffer.fill(7))
            .is_ok(),
        None => false,
    }
}

fn sends_many(device: &mut Loopback, count: u32, length: usize) -> bool {
    for _ in 0..count {
        if !sends(device, length) {
            return false;
        }
    }
    true
}

fn receives_many(device: &mut Loopback, count: u32, length: usize) -> bool {
    for _ in 0..count {
        if next_length(device) != Some(length) {
            return false;
        }
    }
    true
}

/// A loopback of this medium, from its beginning on.
struct Looped(Medium, &'static [Step]);

impl Life for Looped {
    fn stops_at(&self, alloc: Global) -> Option<usize> {
        first_wrong(alloc, &mut Loopback::new(alloc, self.0), self.1)
    }
}

static LIVES: [Looped; 5] = [
    // It receives what it sent.
    Looped(
        Medium::Ethernet,
        &[
            IsSilent,
            Sends(b"first"),
            Sends(b"next one"),
            Receives(b"first"),
            ReceivesMany(1, 8),
            IsSilent,
        ],
    ),
    // A frame is answered while it is read.
    Looped(
        Medium::Ethernet,
        &[Sends(b"first"), Answers(5), HandsOver(b"ok"), HasRefused(0)],
    ),
    // It refuses before the closure runs.
    Looped(
        Medium::Ip,
        &[
            Refuses("the device refused a frame"),
            HasRefused(1),
            IsSilent,
            Sends(b"again"),
            ReceivesMany(1, 5),
        ],
    ),
    // One frame is longer than the capabilities say.
    Looped(
        Medium::Ip,
        &[
            SendsMany(1, 0),
            SendsMany(1, 1),
            SendsMany(1, 1500),
            SendsMany(1, 65_535),
            SendsMany(1, 70_000),
            ReceivesMany(1, 0),
            ReceivesMany(1, 1),
            ReceivesMany(1, 1500),
            ReceivesMany(1, 65_535),
            ReceivesMany(1, 70_000),
            HasRefused(0),
        ],
    ),
    Looped(
        Medium::Ip,
        &[SendsMany(300, 5), ReceivesMany(300, 5), HasRefused(0)],
    ),
];

#[test]
fn loopbacks_live(rt: HostRuntime) {
    all_live(&rt, &LIVES);
}

/// Whether checksums are verified, and whether they are written.
struct Ways(Checksum, bool, bool);

impl Case for Ways {
    fn holds(&self, _alloc: Global) -> bool {
        (self.0.rx(), self.0.tx()) == (self.1, self.2)
    }
}

const WAYS: [Ways; 4] = [
    Ways(Checksum::Both, true, true),
    Ways(Checksum::Rx, true, false),
    Ways(Checksum::Tx, false, true),
    Ways(Checksum::None, false, false),
];

/// Whether devices verify the checksum of TCP if nothing else was set, and write that of ICMPv6 where none is handled.
fn defaults() -> (bool, bool) {
    (
        ChecksumCapabilities::default().tcp.rx(),
        ChecksumCapabilities::ignored().icmpv6.tx(),
    )
}

/// The longest frame, the longest packet, and the longest payload of a fragment after this header.
fn lengths_of(device: &DeviceCapabilities, header: usize) -> (usize, usize, usize) {
    let packet = device.ip_mtu();
    let fragment = if header <= packet {
        device.max_ipv4_fragment_size(header)
    } else {
        0
    };
    (device.max_transmission_unit, packet, fragment)
}

/// A device, and those three.
struct Lengths(Medium, usize, usize, (usize, usize, usize));

impl Case for Lengths {
    fn holds(&self, _alloc: Global) -> bool {
        let device = DeviceCapabilities {
            medium: self.0,
            max_transmission_unit: self.1,
            checksum: ChecksumCapabilities::ignored(),
        };
        lengths_of(&device, self.2) == self.3
    }
}

/// The fragments of a datagram on a link of 1500 bytes hold 1480 bytes after a header of 20.
const LENGTHS: [Lengths; 3] = [
    Lengths(Medium::Ethernet, 13, 20, (13, 0, 0)),
    Lengths(Medium::Ip, 1500, 20, (1500, 1500, 1480)),
    Lengths(Medium::Ip, 1500, 24, (1500, 1500, 1472)),
];

#[test]
fn devices_say_what_they_are(rt: HostRuntime) {
    all_hold(&rt, &WAYS);
    all_hold(&rt, &LENGTHS);
    let ethernet = Loopback::new(rt.alloc(), Medium::Ethernet).capabilities();
    all(
        &rt,
        &[
            lengths_of(&ethernet, 21) == (65_535, 65_521, 65_496),
            ethernet.checksum == ChecksumCapabilities::default(),
            IPV4_FRAGMENT_PAYLOAD_ALIGNMENT == 8,
            defaults() == (true, false),
        ],
    );
}
