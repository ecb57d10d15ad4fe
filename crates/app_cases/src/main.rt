//! Plays the script on standard input, or the cases of a file that has many, each for itself, and writes what each answers: scripts of two
//! hosts, events of two TCP sockets, and clients of DHCP and DNS.
#![tactic(auto)]

ghost use Rattle.std.specs.Prelude.{◌≡◌, ◌≢◌, ◌≤◌, ◌++◌, List, ℕ, IfOk, OnOk};
ghost use Rattle.std.specs.Io.KnownBytes.{Appends};
ghost use Rattle.app_case_files.specs.Tallies.{tally_line};
ghost use Rattle.app_cases.specs.Cases.{Grows};

mod clients;
mod pairs;
mod scripts;

use app_case_files::{Case, CaseFile, read_cases};
use std::alloc::Global;
use std::io::{self, BufRead, BufReader, Read, Write};
use std::process::ExitCode;

fn main(rt: HostRuntime) -> ExitCode {
    let ended = run(rt.alloc(), rt.reader(), &mut io::writer(&rt));
    // A reader or a writer failed, or no memory was left.
    ExitCode::from(ended.unwrap_or(2))
}

/// Plays what the reader gives: a file of cases where its first line is empty, a comment or a name, as no script's is; else a script.
fn run<R: Read + Drop, W: Write>(alloc: Global, reader: R, writer: &mut W) -> io::Result<u8> {
    let mut reader = BufReader::new(alloc, reader)?;
    let has_cases = matches!(reader.fill_buf()?.first(), Some(b'=' | b'#' | b'\n'));
    if has_cases {
        play(alloc, &mut reader, writer)
    } else {
        Ok(lan::replay(alloc, &mut reader, writer))
    }
}

/// Plays each case that the reader gives. The status is 2 where a script came to no end of its own; else 1 where a line of another case
/// wasn't taken, or where the text is no file of cases, of which nothing is played then; else 0.
fn play<R: Read, W: Write>(alloc: Global, reader: &mut R, writer: &mut W) -> io::Result<u8> {
    let status = match read_cases(alloc, reader)? {
        Ok(file) => play_file(alloc, &file, writer)?,
        Err(fault) => {
            writeln!(writer, "{fault}")?;
            1
        }
    };
    writer.flush()?;
    Ok(status)
}

/// Plays the cases of a file, and ends with the line of its tally.
fn play_file<W: Write>(alloc: Global, file: &CaseFile, writer: &mut W) -> io::Result<u8>
    ensures tally { IfOk result (λ status. status ≢ 2 → (output : List ℕ)
        × Appends (W.contents writer.old) (W.contents writer.new) (output ++ tally_line file.now.tally)) }
{
    let status = play_all(alloc, file.cases.as_slice(), writer)?;
    file.tally.write_line(writer)?;
    Ok(status)
}

/// Plays these cases.
fn play_all<W: Write>(alloc: Global, cases: &[Case], writer: &mut W) -> io::Result<u8>
    ensures grows { IfOk result (λ status. status ≢ 2 → Grows (W.contents writer.old) (W.contents writer.new)) }
{
    let mut ended = 0;
    for case in cases {
        ended = play_case(alloc, case, writer)?.max(ended);
    }
    Ok(ended)
}

/// What a case is of.
enum Kind {
    /// Two hosts.
    Script,
    /// Two TCP sockets.
    Sockets,
    /// Clients of DHCP and DNS.
    Clients,
}

/// How the first line of a case of clients begins.
const OF_CLIENTS: [&str; 4] = ["dhcp", "dns", "client", "resolver"];

/// What a case is of: by how its first line begins, as no script's does where it is no script.
fn kind_of(text: &[u8]) -> Kind {
    if text.starts_with(b"sockets") || text.starts_with(b">") {
        Kind::Sockets
    } else if OF_CLIENTS
        .iter()
        .any(|word| text.starts_with(word.as_bytes()))
    {
        Kind::Clients
    } else {
        Kind::Script
    }
}

/// Plays a case: the status of a program that plays no other.
fn play_case<W: Write>(alloc: Global, case: &Case, writer: &mut W) -> io::Result<u8>
    ensures status { IfOk result (λ status. status ≤ 2) }
    ensures grows { IfOk result (λ status. status ≢ 2 → Grows (W.contents writer.old) (W.contents writer.new)) }
{
    let script = case.text.as_slice();
    let mut out = String::new(alloc);
    let is_whole = match kind_of(script) {
        Kind::Sockets => pairs::play(alloc, script, &mut out)?,
        Kind::Clients => clients::play(alloc, script, &mut out)?,
        Kind::Script => {
            let status = scripts::play_case(alloc, case, writer)?;
            return Ok(if status == 2 { 2 } else { 0 });
        }
    };
    write_case(case.name.as_slice(), out.as_str(), writer)?;
    Ok(if is_whole { 0 } else { 1 })
}

/// Writes a case: its name, and what was played.
fn write_case<W: Write>(name: &[u8], text: &str, writer: &mut W) -> io::Result<()>
    ensures { OnOk result (Grows (W.contents writer.old) (W.contents writer.new)) }
{
    writer.write_all(b"== ")?;
    writer.write_all(name)?;
    writer.write_all(b"\n")?;
    writer.write_all(text.as_bytes())?;
    Ok(())
}
