//! What lines answer, and how it is written.
use crate::refusal_text::{Refusal, Said};
use ip_wire::{HardwareAddress, IpAddress, IpEndpoint};
use net_base::Instant;
use sim_link::hex_text;
use sockets::tcp::State;
use std::alloc::{AllocError, Global};
use std::fmt::Display;

/// What a line answers.
#[derive(Drop)]
pub enum Answer {
    /// It was done.
    Done,
    /// A word of its own.
    Says(Said),
    /// The socket or the host refused.
    Error(Refusal),
    /// A number after a word: of bytes that were taken, of microseconds, a value that was asked for.
    Number(Said, u64),
    /// At this instant.
    At(Instant),
    State(State),
    /// An address after a word: one that was asked for, a next hop whose hardware address isn't known.
    Address(Said, IpAddress),
    HardwareAddr(HardwareAddress),
    /// These bytes were read.
    Bytes(Vec<u8>),
    /// They came from this endpoint, or this address.
    FromEndpoint(IpEndpoint, Vec<u8>),
    FromAddr(IpAddress, Vec<u8>),
    /// They came from this endpoint to this own address, and stay.
    Waits(IpEndpoint, IpAddress, Vec<u8>),
}

impl Answer {
    /// Whether something holds.
    pub fn is(holds: bool) -> Answer {
        Answer::Says(if holds { Said::Yes } else { Said::No })
    }

    /// The line that says it, with its end.
    pub fn to_line(&self, alloc: Global) -> Result<String, AllocError> {
        let hex = hex_text(alloc, self.bytes())?;
        self.line_with(alloc, hex.as_str())
    }

    // The bytes that were read, if there are any.
    fn bytes(&self) -> &[u8] {
        match self {
            Answer::Bytes(bytes) => bytes.as_slice(),
            Answer::FromEndpoint(_, bytes) => bytes.as_slice(),
            Answer::FromAddr(_, bytes) => bytes.as_slice(),
            Answer::Waits(_, _, bytes) => bytes.as_slice(),
            _ => &[],
        }
    }

    // The line with these digits of its bytes.
    fn line_with(&self, alloc: Global, hex: &str) -> Result<String, AllocError> {
        match self {
            Answer::Done => String::from_str(alloc, "ok\n"),
            Answer::Says(said) => format!(in alloc; "{}\n", said.text()),
            Answer::Error(refusal) => line(alloc, "error", &refusal.text()),
            Answer::Number(said, value) => line(alloc, said.text(), value),
            Answer::At(instant) => line(alloc, "at", &instant.total_micros()),
            Answer::State(state) => line(alloc, "state", state),
            Answer::Address(said, address) => line(alloc, said.text(), address),
            Answer::HardwareAddr(hardware_addr) => line(alloc, "is", hardware_addr),
            Answer::Bytes(_) => line(alloc, "data", &hex),
            Answer::FromEndpoint(remote, _) => line_from(alloc, remote, hex),
            Answer::FromAddr(remote, _) => line_from(alloc, remote, hex),
            Answer::Waits(remote, local, _) => format!(in alloc;
                "from {remote} to {local} {hex}\n"
            ),
        }
    }
}

// A line of a word, and of a value after it.
fn line<D: Display>(alloc: Global, word: &str, value: &D) -> Result<String, AllocError> {
    format!(in alloc; "{word} {value}\n")
}

// The line of bytes that came from somewhere.
fn line_from<D: Display>(alloc: Global, remote: &D, hex: &str) -> Result<String, AllocError> {
    format!(in alloc; "from {remote} {hex}\n")
}

/// Puts the line of a sent frame after a text.
pub fn put_sent(
    alloc: Global,
    text: &mut String,
    number: u64,
    frame: &[u8],
) -> Result<(), AllocError> {
    let hex = hex_text(alloc, frame)?;
    write!(text, "sent A {number} {hex}\n")
}
