//! What a script writes.
ghost use Rattle.std.specs.Prelude.{◌≡◌, ◌++◌, codes, drop, IfOk, OnOk, IfSome};
ghost use Rattle.std.specs.String.{string_bytes};
ghost use Rattle.net_base.specs.Device.{frames_of};
ghost use Rattle.sim_link.specs.Text.{hex_word};
ghost use Rattle.lan.specs.Answers.{side_name, fault_name, answer_line, sent_line, sent_lines};

use crate::at_link::{Answer, Fault, Side};
use sim_link::hex_text;
use std::alloc::{AllocError, Global};
use std::fmt;

fn side_name(side: Side) -> &'static str
    ensures { result.now ≡ side_name side }
{
    match side {
        Side::A => "A",
        Side::B => "B",
    }
}

fn fault_name(fault: Fault) -> &'static str
    ensures { result.now ≡ fault_name fault }
{
    match fault {
        Fault::InvalidState => "InvalidState",
        Fault::Unaddressable => "Unaddressable",
        Fault::BufferFull => "BufferFull",
        Fault::Exhausted => "Exhausted",
        Fault::Truncated => "Truncated",
        Fault::Finished => "Finished",
        Fault::Medium => "Medium",
        Fault::NotUnicast => "NotUnicast",
        Fault::RouteTableFull => "RouteTableFull",
    }
}

// A line that ends in a value. (Lines of one shape share a format, which is dear to prove.)
fn valued<D: fmt::Display>(alloc: Global, label: &str, value: &D) -> Result<String, AllocError>
    ensures { IfSome (⟦<D as fmt::Display>⟧.output value.now) (λ x. IfOk result (λ text. string_bytes text ≡ label.now ++ (x ++ codes "\n"))) }
{
    format!(in alloc; "{label}{value}\n")
}

// The line of bytes that came from somewhere.
fn came<D: fmt::Display>(alloc: Global, remote: &D, bytes: &[u8]) -> Result<String, AllocError>
    ensures { IfSome (⟦<D as fmt::Display>⟧.output remote.now) (λ x.
        IfOk result (λ text. string_bytes text ≡ codes "from " ++ (x ++ (codes " " ++ (hex_word bytes.now ++ codes "\n"))))) }
{
    let hex = hex_text(alloc, bytes)?;
    format!(in alloc; "from {remote} {hex}\n")
}

/// The line that answers an event, with its end. `replay` writes it by itself, and the new frames after it: this is for a loop of one's
/// own, which steps a `World` by `event_of` each line.
pub fn answer_line(alloc: Global, answer: &Answer) -> Result<String, AllocError>
    ensures { IfOk result (λ text. string_bytes text ≡ answer_line answer.now) }
{
    match answer {
        Answer::Done => String::from_str(alloc, "ok\n"),
        Answer::Count(count) => valued(alloc, "ok ", count),
        Answer::Bytes(bytes) => valued(alloc, "data ", &hex_text(alloc, bytes.as_slice())?),
        Answer::State(state) => valued(alloc, "state ", state),
        Answer::FromEndpoint(remote, bytes) => came(alloc, remote, bytes.as_slice()),
        Answer::FromAddr(remote, bytes) => came(alloc, remote, bytes.as_slice()),
        Answer::Poll(true) => String::from_str(alloc, "changed\n"),
        Answer::Poll(false) => String::from_str(alloc, "none\n"),
        Answer::At(Some(instant)) => valued(alloc, "at ", &instant.total_micros()),
        Answer::At(None) => String::from_str(alloc, "never\n"),
        Answer::Error(fault) => valued(alloc, "error ", &fault_name(*fault)),
    }
}

// The line of a sent frame.
fn sent_line(alloc: Global, side: Side, k: usize, frame: &[u8]) -> Result<String, AllocError>
    ensures { IfOk result (λ text. string_bytes text ≡ sent_line side k frame.now) }
{
    let hex = hex_text(alloc, frame)?;
    format!(in alloc; "sent {} {k} {hex}\n", side_name(side))
}

/// Writes a line for each frame that a host has sent from its frame `first` on.
pub fn push_sent(
    alloc: Global,
    text: &mut String,
    side: Side,
    first: usize,
    frames: &[Vec<u8>],
) -> Result<(), AllocError>
    ensures { OnOk result (string_bytes text.new ≡ string_bytes text.old ++ sent_lines side first (drop first (frames_of frames.now))) }
{
    for k in first..frames.len() {
        let line = sent_line(alloc, side, k, frames[k].as_slice())?;
        text.push_str(line.as_str())?;
    }
    Ok(())
}
