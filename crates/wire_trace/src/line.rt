//! A line for a frame.
use base_wrappers::Direction;
use net_base::{Instant, Medium};
use std::alloc::{AllocError, Global};
use std::fmt::Write;
use wire_print::describe;

/// Appends a line for a frame: the instant in seconds, whether it came (`<-`) or was sent (`->`), and a header behind the other.
pub fn trace_line(
    alloc: Global,
    medium: Medium,
    instant: Instant,
    direction: Direction,
    frame: &[u8],
    text: &mut String,
) -> Result<(), AllocError> {
    let mut all = String::new(alloc);
    describe(alloc, medium, frame, &mut all)?;
    put_instant(instant, text)?;
    text.push_str(arrow(direction))?;
    put_headers(all.as_str(), text)
}

/// Seconds since the start, 0 before it.
fn put_instant(instant: Instant, text: &mut String) -> Result<(), AllocError> {
    let micros = instant.total_micros().max(0);
    let (secs, rest) = (micros / 1_000_000, micros % 1_000_000);
    match write!(text, "[{secs:>3}.{rest:06}s] ") {
        Ok(()) => Ok(()),
        Err(_) => Err(AllocError),
    }
}

/// Which way a frame went.
fn arrow(direction: Direction) -> &'static str {
    match direction {
        Direction::Rx => "<- ",
        Direction::Tx => "-> ",
    }
}

/// What stands in each line before its details, in one line.
fn put_headers(lines: &str, text: &mut String) -> Result<(), AllocError> {
    for (number, line) in lines.lines().enumerate() {
        if number > 0 {
            text.push_str(", ")?;
        }
        put_header(line, text)?;
    }
    text.push_str("\n")
}

/// A line without its details, and without bytes in hex. Of a packet from `::` the colon in front of a space isn't that of the bytes.
fn put_header(line: &str, text: &mut String) -> Result<(), AllocError> {
    let head = before(line, "; ");
    match head.split_once(": ") {
        Some((front, rest)) if front.ends_with(":") => {
            text.push_str(front)?;
            text.push_str(": ")?;
            text.push_str(before(rest, ": "))
        }
        _ => text.push_str(before(head, ": ")),
    }
}

/// What stands before a mark, or all.
fn before<'a>(text: &'a str, mark: &str) -> &'a str {
    match text.split_once(mark) {
        Some((front, _)) => front,
        None => text,
    }
}
