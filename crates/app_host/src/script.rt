//! Scripts in, their answers out.
use crate::run::Run;
use std::alloc::Global;
use std::io::{self, ErrorKind, Read, Write};

/// How often `replay` reads from its reader at most.
pub const MOST_READS: u64 = 1 << 32;

// How many bytes a read may give.
const FRAGMENT: usize = 4096;

/// Plays the scripts that the reader gives, and writes what each line answers as soon as the end of the line was read. Before each
/// further read the writer is flushed.
///
/// The status is 0 where each script came to its own end, 1 where a line ended one early, which the line that is written then says, and
/// 2 after a fault of the reader or the writer, after 2^32 reads, or where the text of a line finds no memory.
pub fn replay<R: Read, W: Write>(alloc: Global, reader: &mut R, writer: &mut W) -> u8 {
    match try_replay(alloc, reader, writer) {
        Ok(Some(status)) => status,
        Ok(None) => 2,
        Err(_) => 2,
    }
}

// `None`: the reader failed, or came to no end in 2^32 reads.
fn try_replay<R: Read, W: Write>(
    alloc: Global,
    reader: &mut R,
    writer: &mut W,
) -> io::Result<Option<u8>> {
    // On the heap, where lending it makes a short proof.
    match Box::new(alloc, Run::new(alloc)).ok() {
        Some(mut run) => replay_from(alloc, &mut run, reader, writer),
        None => Err(ErrorKind::OutOfMemory.into()),
    }
}

// The same from a run before its first line. (It is borrowed: where it is owned each egress path lets it go, which makes a long proof.)
fn replay_from<R: Read, W: Write>(
    alloc: Global,
    run: &mut Run,
    reader: &mut R,
    writer: &mut W,
) -> io::Result<Option<u8>> {
    let mut fragment = [0; FRAGMENT];
    for _ in 0..MOST_READS {
        match reader.read(&mut fragment) {
            Ok(0) => {
                let status = run.finish(alloc, writer)?;
                writer.flush()?;
                return Ok(Some(status));
            }
            Ok(len) => {
                run.take_fragment(alloc, &fragment[..len], writer)?;
                writer.flush()?;
            }
            Err(error) if error.kind() == ErrorKind::Interrupted => {}
            Err(_) => return Ok(None),
        }
    }
    Ok(None)
}
