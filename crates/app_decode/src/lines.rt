//! The lines of the input, each answered before the next is read.
use crate::emit::emit;
use crate::fault::{CARRIAGE_RETURN, Fault, done};
use crate::texts::take_text;
use crate::words::bytes_of;
use app_case_files::Tally;
use net_base::Medium;
use std::alloc::{AllocError, Global};
use std::io::{self, BufRead, BufReader, Read, Write};
use std::str;
use wire_print::describe;

/// The line that was read last, all that was read, the medium that was named last, and whether each line was taken.
#[derive(Drop)]
struct Lines {
    line: Vec<u8>,
    tally: Tally,
    medium: Option<Medium>,
    all_taken: bool,
}

/// Answers each line, and says whether each was taken. Where a frame stands before the first medium, nothing more is read; else the line of
/// the tally ends the answers.
pub(crate) fn run<R: Read + Drop, W: Write>(
    alloc: Global,
    reader: R,
    writer: &mut W,
) -> io::Result<bool> {
    let mut reader = BufReader::new(alloc, reader)?;
    let mut lines = Lines {
        line: Vec::new(alloc),
        tally: Tally::new(),
        medium: None,
        all_taken: true,
    };
    if answer_all(alloc, &mut lines, &mut reader, writer)? {
        lines.tally.write_line(writer)?;
    }
    writer.flush()?;
    Ok(lines.all_taken)
}

// Answers each line, and says whether all were read; where there is none, that isn't said.
fn answer_all<R: BufRead, W: Write>(
    alloc: Global,
    lines: &mut Lines,
    reader: &mut R,
    writer: &mut W,
) -> io::Result<bool> {
    for number in 1..u64::MAX {
        lines.line.clear();
        if reader.read_until(b'\n', &mut lines.line)? == 0 {
            return end(lines, number, writer);
        }
        lines.tally.take(lines.line.as_slice());
        if !answer(alloc, lines, number, writer)? {
            return Ok(false);
        }
    }
    Ok(false)
}

// The input ends where a line of this number would begin: whether there was one before.
fn end<W: Write>(lines: &mut Lines, number: u64, writer: &mut W) -> io::Result<bool> {
    if number == 1 {
        lines.all_taken = false;
        writer.write_all(b"line 1: bad medium: no word for ip or ethernet\n")?;
    }
    Ok(number != 1)
}

// Answers the line that was read, and says whether more are.
fn answer<W: Write>(
    alloc: Global,
    lines: &mut Lines,
    number: u64,
    writer: &mut W,
) -> io::Result<bool> {
    let mut text = String::new(alloc);
    let line = without_end(lines.line.as_slice());
    let is_taken = take_line(alloc, number, &mut lines.medium, line, &mut text)?;
    writer.write_all(text.as_bytes())?;
    if !is_taken {
        lines.all_taken = false;
    }
    Ok(is_taken || lines.medium.is_some())
}

// A line without the line feed that ends it.
fn without_end(line: &[u8]) -> &[u8] {
    match line {
        [front @ .., b'\n'] => front,
        _ => line,
    }
}

// Answers a line, and says whether it was taken.
fn take_line(
    alloc: Global,
    number: u64,
    medium: &mut Option<Medium>,
    line: &[u8],
    out: &mut String,
) -> Result<bool, AllocError> {
    if let Some(position) = offset_above_127(line) {
        writeln!(
            out,
            "line {number}: bad line: a byte above 127 at place {position}"
        )?;
        return Ok(false);
    }
    let (kind, fault) = match text_of(line) {
        Some(text) if text.starts_with('#') => {
            writeln!(out, "{text}")?;
            return Ok(true);
        }
        Some(text) => take_words(alloc, medium, text, out),
        None => ("line", Some(CARRIAGE_RETURN)),
    };
    match fault {
        None => Ok(true),
        Some(fault) => {
            writeln!(out, "line {number}: bad {kind}: {fault}")?;
            Ok(false)
        }
    }
}

// The offset, counted from 1, of the first byte above 127, unless the line ends with a carriage return.
fn offset_above_127(line: &[u8]) -> Option<usize> {
    if let [.., b'\r'] = line {
        return None;
    }
    let position = line.iter().position(|byte| *byte > 127)?;
    Some(position.saturating_add(1))
}

// A line without bytes above 127 as text, unless it ends with a carriage return.
fn text_of(line: &[u8]) -> Option<&str> {
    match str::from_utf8(line) {
        Ok(text) if !text.ends_with('\r') => Some(text),
        _ => None,
    }
}

// Answers a line that is no comment: its kind, and why it isn't taken, if it isn't.
fn take_words<'a>(
    alloc: Global,
    medium: &mut Option<Medium>,
    text: &'a str,
    out: &mut String,
) -> (&'static str, Option<Fault<'a>>) {
    if text.is_empty() {
        return ("line", None);
    }
    if let Some(named) = medium_of(text) {
        *medium = Some(named);
        return ("medium", None);
    }
    if let Some(words) = text.strip_prefix("emit ") {
        return ("emit", take_emit(alloc, words, out));
    }
    if let Some(words) = text.strip_prefix("text ") {
        return ("text", take_text(words, out));
    }
    match *medium {
        Some(named) => ("frame", take_frame(alloc, named, text, out)),
        None => ("medium", Some(Fault::no("ip or ethernet", text))),
    }
}

fn medium_of(text: &str) -> Option<Medium> {
    match text {
        "ip" => Some(Medium::Ip),
        "ethernet" => Some(Medium::Ethernet),
        _ => None,
    }
}

fn take_frame<'a>(
    alloc: Global,
    medium: Medium,
    text: &'a str,
    out: &mut String,
) -> Option<Fault<'a>> {
    match bytes_of(alloc, "pairs of hex digits", text) {
        Ok(frame) => done(put_frame(alloc, medium, frame.as_slice(), out)),
        Err(fault) => Some(fault),
    }
}

fn put_frame(
    alloc: Global,
    medium: Medium,
    frame: &[u8],
    out: &mut String,
) -> Result<(), AllocError> {
    writeln!(out, "frame {}", frame.len())?;
    describe(alloc, medium, frame, out)
}

fn take_emit<'a>(alloc: Global, text: &'a str, out: &mut String) -> Option<Fault<'a>> {
    match emit(alloc, text) {
        Ok(bytes) => done(put_bytes(alloc, bytes.as_slice(), out)),
        Err(fault) => Some(fault),
    }
}

fn put_bytes(alloc: Global, bytes: &[u8], out: &mut String) -> Result<(), AllocError> {
    let digits = hex::encode(alloc, bytes)?;
    writeln!(out, "bytes {}: {digits}", bytes.len())
}
