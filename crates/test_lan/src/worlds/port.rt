//! The device in memory, with ample memory. What its calls do is proved of it; which buffers it keeps no contract says.
use lan::Port;
use net_base::{Device, DeviceCapabilities, Instant, Medium, RxToken};
use std::alloc::Global;

fn ip_port(alloc: Global) -> Port {
    let capabilities = DeviceCapabilities {
        medium: Medium::Ip,
        max_transmission_unit: 1500,
        ..DeviceCapabilities::default()
    };
    Port::new(alloc, capabilities)
}

/// Answers the next frame with its own bytes. It knows the device by its bound alone.
fn echo<D: Device>(device: &mut D) -> bool {
    let Some((frame, token)) = device.receive(Instant::ZERO) else {
        return false;
    };
    let bytes = frame.bytes();
    device
        .send(token, bytes.len(), |buffer: &mut [u8]| {
            buffer.copy_from_slice(bytes)
        })
        .is_ok()
}

/// Puts a frame of these bytes after those that wait, in a buffer of this capacity.
fn comes(port: &mut Port, alloc: Global, capacity: usize, bytes: &[u8]) -> bool {
    match Vec::with_capacity(alloc, capacity) {
        Ok(mut frame) => frame.extend_from_slice(bytes).is_ok() && port.push(frame).is_ok(),
        Err(_) => false,
    }
}

/// Whether the next frame has these bytes, when it is seen and when it is taken, in a buffer of this capacity.
fn is_taken(port: &mut Port, capacity: usize, bytes: &[u8]) -> bool {
    let Some((token, _leave)) = port.receive(Instant::ZERO) else {
        return false;
    };
    if token.bytes() != bytes {
        return false;
    }
    let frame = token.into_frame();
    frame.as_slice() == bytes && frame.capacity() == capacity
}

/// Whether the next frame has these bytes when it is consumed.
fn is_consumed(port: &mut Port, bytes: &[u8]) -> bool {
    match port.receive(Instant::ZERO) {
        Some((token, _leave)) => token.consume(|frame: &[u8]| frame == bytes),
        None => false,
    }
}

/// Whether the last frame that was sent has these bytes, and no room after them.
fn was_sent(port: &Port, bytes: &[u8]) -> bool {
    match port.sent().last() {
        Some(frame) => frame.as_slice() == bytes && frame.capacity() == bytes.len(),
        None => false,
    }
}

/// The same of so many bytes, each 7.
fn were_sent(port: &Port, length: usize) -> bool {
    match port.sent().last() {
        Some(frame) => frame.capacity() == length
            && frame.len() == length
            && frame.iter().all(|byte| *byte == 7),
        None => false,
    }
}

/// Sends a frame of so many bytes, each 7, if there is leave to. The closure's answer comes back.
fn sends(port: &mut Port, length: usize) -> bool {
    let Some(leave) = port.transmit(Instant::ZERO) else {
        return false;
    };
    let answer = port.send(leave, length, |buffer: &mut [u8]| {
        buffer.fill(7);
        buffer.len()
    });
    answer.ok() == Some(length) && were_sent(port, length)
}

/// Whether there is leave to send, and the send of more than any allocator has is refused before the closure runs.
fn refuses(port: &mut Port) -> bool {
    let Some(leave) = port.transmit(Instant::ZERO) else {
        return false;
    };
    let mut ran = false;
    let sent = port.send(leave, usize::MAX, |_buffer: &mut [u8]| {
        ran = true;
    });
    sent.is_err() && !ran
}

/// The link puts a frame of these bytes after the sent ones.
fn is_added(port: &mut Port, alloc: Global, bytes: &[u8]) -> bool {
    match bytes.to_vec(alloc) {
        Ok(frame) => port.add(frame).is_ok() && was_sent(port, bytes),
        Err(_) => false,
    }
}

/// Whether each of so many frames that come is answered.
fn answers_all(port: &mut Port, alloc: Global, count: u32) -> bool {
    for _ in 0..count {
        if !(comes(port, alloc, 50, b"ping") && echo(port) && was_sent(port, b"ping")) {
            return false;
        }
    }
    true
}

/// A call of a port, and what it must answer.
enum Step {
    /// The longest packet of its capabilities.
    HasMtu(usize),
    /// For so many frames there is room.
    HasRoom(usize),
    /// A bound for the frames that are sent.
    SetsRoom(usize),
    /// A frame of these bytes comes, in a buffer of this capacity.
    Comes(usize, &'static [u8]),
    /// The next frame is taken in its buffer.
    Takes(usize, &'static [u8]),
    /// The next frame is consumed.
    Consumes(&'static [u8]),
    /// There is no frame to be answered.
    IsSilent,
    /// A frame of so many bytes is sent.
    Sends(usize),
    /// There is leave to send, and more than any allocator has is refused.
    Refuses,
    /// There is no leave to send, nor a frame to take, though so many wait.
    IsShut(usize),
    /// So many frames come, and each is answered.
    Answers(u32),
    /// Whether so many buffers of so many bytes are there.
    Prepares(usize, usize, bool),
    /// The link adds a frame of these bytes.
    Adds(&'static [u8]),
    /// So many frames were sent.
    HasSent(usize),
    /// So many frames were refused.
    HasRefused(u64),
}

use Step::{
    Adds, Answers, Comes, Consumes, HasMtu, HasRefused, HasRoom, HasSent, IsShut, IsSilent,
    Prepares, Refuses, Sends, SetsRoom, Takes,
};

/// Whether the step goes as it says.
fn goes(alloc: Global, port: &mut Port, step: &Step) -> bool {
    match step {
        Comes(capacity, bytes) => comes(port, alloc, *capacity, bytes),
        Answers(count) => answers_all(port, alloc, *count),
        Adds(bytes) => is_added(port, alloc, bytes),
        Sends(length) => sends(port, *length),
        Refuses => refuses(port),
        _ => says(port, step) || takes(port, step),
    }
}

/// Whether the step is one that asks, and goes as it says.
fn says(port: &Port, step: &Step) -> bool {
    match step {
        HasMtu(bytes) => port.capabilities().ip_mtu() == *bytes,
        HasRoom(frames) => port.room() == *frames,
        HasSent(count) => port.sent().len() == *count,
        HasRefused(count) => port.refusals() == *count,
        _ => false,
    }
}

/// Whether the step is one that takes or prepares, and goes as it says.
fn takes(port: &mut Port, step: &Step) -> bool {
    match step {
        SetsRoom(frames) => {
            port.set_room(*frames);
            true
        }
        Takes(capacity, bytes) => is_taken(port, *capacity, bytes),
        Consumes(bytes) => is_consumed(port, bytes),
        IsSilent => !echo(port),
        IsShut(waiting) => is_shut(port) && port.waiting().len() == *waiting,
        Prepares(count, capacity, answer) => port.prepare(*count, *capacity).is_ok() == *answer,
        _ => false,
    }
}

/// Whether there is no leave to send, nor a frame to take.
fn is_shut(port: &mut Port) -> bool {
    port.transmit(Instant::ZERO).is_none() && port.receive(Instant::ZERO).is_none()
}

/// The place of the first step that goes otherwise than it says, counted from 0.
fn first_wrong(alloc: Global, port: &mut Port, steps: &[Step]) -> Option<usize> {
    for (slot, step) in steps.iter().enumerate() {
        if !goes(alloc, port, step) {
            return Some(slot);
        }
    }
    None
}

/// The life of a port of bare IP.
static PORT: [Step; 29] = [
    // A port has its capabilities, and room without a bound.
    HasMtu(1500),
    HasRoom(usize::MAX),
    // Frames are taken in their order, in their buffers.
    Comes(100, b"one"),
    Comes(3, b"two"),
    Takes(100, b"one"),
    Consumes(b"two"),
    IsSilent,
    // Long frames are sent.
    Sends(0),
    Sends(65_535),
    Sends(70_000),
    Sends(1_500),
    // Many frames are answered.
    Answers(300),
    // Frames are sent in buffers that were prepared.
    Prepares(2, 1_500, true),
    Sends(1_500),
    Sends(20),
    // Each frame is sent, and none refused.
    HasSent(306),
    HasRefused(0),
    // Each frame that is sent takes room, and one that is refused or added none; without room nothing is taken or sent.
    SetsRoom(2),
    Sends(0),
    HasRoom(1),
    Prepares(1, usize::MAX, false),
    Refuses,
    HasRoom(1),
    Sends(0),
    Adds(b"piece"),
    HasRoom(0),
    Comes(4, b"ping"),
    IsShut(1),
    HasRefused(1),
];

#[test]
fn a_port_carries_frames(rt: HostRuntime) {
    let wrong = first_wrong(rt.alloc(), &mut ip_port(rt.alloc()), &PORT);
    assert_eq!(rt; wrong, None, "step");
}
