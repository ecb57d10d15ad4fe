//! A script in, its answers out.
ghost use Rattle.std.specs.Prelude.{◌≡◌, ◌≢◌, ◌≤◌, ⊤, List, [], ℕ, IfOk, OnOk, IfSome, MatchOption};
ghost use Rattle.std.specs.Io.KnownBytes.{Appends};
ghost use Rattle.lan.specs.declared.session.Session.TheVariants.{Begun};
ghost use Rattle.lan.specs.FragmentList.{ReadsOn, RunsSoFar};
ghost use Rattle.lan.specs.Scripts.{IsReplay};

use crate::run::Run;
use std::alloc::Global;
use std::io::{self, ErrorKind, Read, Write};

/// How often `replay` reads from its reader at most.
pub const MOST_READS: u64 = 1 << 32;

// How many bytes a read may give.
const FRAGMENT: usize = 4096;

/// Runs a script that the reader gives, and writes what each line answers as soon as the end of the
/// line was read. Before each further read the writer is flushed. Of the script's text nothing is
/// kept but the line that was begun, and nothing is read after the fragment in which a line ended the
/// run.
///
/// The status is 0 at the end of the script, 1 after a line that ends the run early, which what is
/// written last says, and 2 after a fault of the reader or the writer, after 2^32 reads, or where the
/// run or the text of a line finds no memory.
pub fn replay<R: Read, W: Write>(alloc: Global, reader: &mut R, writer: &mut W) -> u8
    ensures status { result ≤ 2 }
    ensures replays { result ≢ 2 → (script output : List ℕ)
        × IfSome (R.remaining reader.old) (λ input. script ≡ input)
        × IsReplay script output result
        × Appends (W.contents writer.old) (W.contents writer.new) output }
    ensures reads { result ≢ 2 → ReadsOn (R.remaining reader.old) (R.remaining reader.new) }
{
    match try_replay(alloc, reader, writer) {
        Ok(Some(status)) => status,
        Ok(None) => 2,
        Err(_) => 2,
    }
}

/// The same, with the ways apart in which a run may end without a status. `None`: the reader failed, or came to no end in 2^32 reads; the
/// lines that it gave whole have been run, and what they write has been written (clause `unended`). An error is the writer's, or says
/// that there was no memory; of what was written then nothing is said.
pub fn try_replay<R: Read, W: Write>(
    alloc: Global,
    reader: &mut R,
    writer: &mut W,
) -> io::Result<Option<u8>>
    ensures ended { IfOk result (λ ended. IfSome ended (λ status. (script output : List ℕ)
        × IfSome (R.remaining reader.old) (λ input. script ≡ input)
        × IsReplay script output status
        × Appends (W.contents writer.old) (W.contents writer.new) output)) }
    ensures unended { IfOk result (λ ended. MatchOption ended ((output : List ℕ)
        × RunsSoFar (R.remaining reader.old) (R.remaining reader.new) output
        × Appends (W.contents writer.old) (W.contents writer.new) output) (λ status. ⊤)) }
    ensures reads { OnOk result (ReadsOn (R.remaining reader.old) (R.remaining reader.new)) }
{
    // On the heap, where lending it makes a short proof.
    match Box::new(alloc, Run::new(alloc)).ok() {
        Some(mut run) => replay_from(alloc, &mut run, reader, writer),
        None => Err(ErrorKind::OutOfMemory.into()),
    }
}

// The same from a run before its first line. (It is borrowed: where it is owned each egress path lets it go, which makes a long proof.)
fn replay_from<R: Read, W: Write>(
    alloc: Global,
    run: &mut Run,
    reader: &mut R,
    writer: &mut W,
) -> io::Result<Option<u8>>
    requires session { run.old.session ≡ Begun }
    requires number { run.old.number ≡ 1 }
    requires begun { run.old.begun.items ≡ [] }
    ensures ended { IfOk result (λ ended. IfSome ended (λ status. (script output : List ℕ)
        × IfSome (R.remaining reader.old) (λ input. script ≡ input)
        × IsReplay script output status
        × Appends (W.contents writer.old) (W.contents writer.new) output)) }
    ensures unended { IfOk result (λ ended. MatchOption ended ((output : List ℕ)
        × RunsSoFar (R.remaining reader.old) (R.remaining reader.new) output
        × Appends (W.contents writer.old) (W.contents writer.new) output) (λ status. ⊤)) }
    ensures reads { OnOk result (ReadsOn (R.remaining reader.old) (R.remaining reader.new)) }
{
    let mut fragment = [0; FRAGMENT];
    for count in 0..MOST_READS {
        match reader.read(&mut fragment) {
            Ok(0) => {
                let status = run.finish(alloc, writer)?;
                writer.flush()?;
                return Ok(Some(status));
            }
            Ok(len) => {
                let led = run.take_fragment(alloc, &fragment[..len], writer)?;
                writer.flush()?;
                if !led {
                    return Ok(Some(1));
                }
            }
            Err(error) if error.kind() == ErrorKind::Interrupted => {}
            Err(_) => return Ok(None),
        }
    }
    Ok(None)
}
