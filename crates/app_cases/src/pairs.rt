//! Cases of two TCP sockets, each event by event.
mod answers;
mod bad;
mod course;
mod lines;
mod mirror;
mod played;
mod users;
mod words;

use crate::pairs::bad::Bad;
use crate::pairs::lines::{Line, read_line, read_sizes};
use crate::pairs::played::Played;
use app_case_files::ends_line;
use std::alloc::{AllocError, Global};
use std::str;

/// Plays the lines of a case, the first of which says which sockets it has, and puts what it writes after a text. False: a line ended it.
pub fn play(alloc: Global, script: &[u8], out: &mut String) -> Result<bool, AllocError> {
    let first = script.split(|byte| ends_line(byte)).next().unwrap_or(b"");
    match made(alloc, first) {
        Ok(mut played) => play_made(alloc, &mut played, script, out),
        Err(bad) => {
            let why = bad.to_text(alloc, first)?;
            writeln!(out, "line 1: {why}")?;
            Ok(false)
        }
    }
}

/// The sockets that a case's first line says.
fn made(alloc: Global, line: &[u8]) -> Result<Box<Played>, Bad> {
    let sizes = read_sizes(text(line)?)?;
    Played::new(alloc, &sizes).ok_or(Bad::new("buffers", 0))
}

/// Plays a case of these sockets, whose first line says them, and then events.
fn play_made(
    alloc: Global,
    played: &mut Played,
    script: &[u8],
    out: &mut String,
) -> Result<bool, AllocError> {
    for (slot, line) in script.split(|byte| ends_line(byte)).enumerate() {
        if line.is_empty() {
            // After the last line feed.
            return Ok(true);
        }
        match play_line(alloc, played, slot, line, out)? {
            None => {}
            Some(bad) => {
                let why = bad.to_text(alloc, line)?;
                writeln!(out, "line {}: {why}", slot.saturating_add(1))?;
                return Ok(false);
            }
        }
    }
    Ok(true)
}

/// Plays a line at this slot: why it says no event, if it says none. The first one is played already.
fn play_line(
    alloc: Global,
    played: &mut Played,
    slot: usize,
    line: &[u8],
    out: &mut String,
) -> Result<Option<Bad>, AllocError> {
    let line = match text(line) {
        Ok(line) => line,
        Err(bad) => return Ok(Some(bad)),
    };
    if slot == 0 {
        writeln!(out, "{line}")?;
        return Ok(None);
    }
    match read_line(alloc, line) {
        Ok(Some(said)) => {
            writeln!(out, "{line}")?;
            played.take(alloc, &said, out)?;
            Ok(None)
        }
        Ok(None) => Ok(None),
        Err(bad) => Ok(Some(bad)),
    }
}

fn text(line: &[u8]) -> Result<&str, Bad> {
    match str::from_utf8(line) {
        Ok(text) => Ok(text),
        Err(_) => Err(Bad::new("text", 0)),
    }
}
