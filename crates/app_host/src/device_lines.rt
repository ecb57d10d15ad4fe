//! Lines of the device.
use crate::answer::Answer;
use crate::host::Host;
use crate::refusal_text::Refusal;
use crate::wire::Wire;
use crate::words::Words;
use net_base::Device;
use sim_link::names_tcp_or_udp;
use std::alloc::Global;

/// The lines of the device.
#[derive(Clone, Copy)]
pub enum Verb {
    Frame,
    Noise,
    Room,
    Refuse,
    Refused,
}

/// Plays one of these lines.
pub fn play(alloc: Global, host: &mut Host, verb: Verb, words: &mut Words<'_>) -> Answer {
    words.host();
    let wire = &mut host.wire;
    match verb {
        Verb::Frame => comes(alloc, wire, false, words),
        Verb::Noise => comes(alloc, wire, true, words),
        Verb::Room => room(wire, words),
        Verb::Refuse => refuse(wire, true, words),
        Verb::Refused => refuse(wire, false, words),
    }
}

fn room(wire: &mut Wire, words: &mut Words<'_>) -> Answer {
    let room = words.size();
    words.end();
    if words.is_taken() {
        wire.set_room(room);
    }
    Answer::Done
}

/// The next sends are refused, or so many count as refused before.
fn refuse(wire: &mut Wire, next: bool, words: &mut Words<'_>) -> Answer {
    let count = words.number();
    words.end();
    if words.is_taken() {
        if next {
            wire.refuse(count);
        } else {
            wire.set_refused(count);
        }
    }
    Answer::Done
}

/// A frame comes. `noise` refuses one that names TCP or UDP, and `frame` none.
fn comes(alloc: Global, wire: &mut Wire, is_noise: bool, words: &mut Words<'_>) -> Answer {
    let frame = words.last_bytes(alloc);
    let medium = wire.capabilities().medium;
    if is_noise && names_tcp_or_udp(medium, frame.as_slice()) {
        return words.refuse(Refusal::NamesTcpOrUdp);
    }
    if !words.is_taken() {
        return Answer::Done;
    }
    match wire.comes(frame) {
        Ok(()) => Answer::Done,
        Err(_) => words.refuse(Refusal::Memory),
    }
}
