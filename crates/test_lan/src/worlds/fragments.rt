//! Scripts that come in fragments, and readers and writers that fail.
use crate::worlds::common::Case;
use crate::worlds::texts::{CARRIED, IP, QUEUED};
use lan::replay;
use std::alloc::Global;
use std::io::{self, ErrorKind, Read, Write};
use std::test::Fail;

// A reader that gives so many bytes a read, and fails after so many reads.
#[derive(Drop)]
struct FragmentList<'a> {
    reads: usize,
    size: usize,
    text: &'a [u8],
}

impl Read for FragmentList<'_> {
    fn read(&mut self, buf: &mut [u8]) -> io::Result<usize> {
        if self.reads == 0 {
            return Err(io::Error::from(ErrorKind::BrokenPipe));
        }
        self.reads -= 1;
        let some = buf.len().min(self.size);
        self.text.read(&mut buf[..some])
    }
}

// A writer that fails after so many calls, and counts the bytes that were there at its last flush.
#[derive(Drop)]
struct Failing {
    calls: u32,
    inner: Vec<u8>,
    flushed: usize,
}

impl Failing {
    fn call(&mut self) -> io::Result<()> {
        if self.calls == 0 {
            return Err(io::Error::from(ErrorKind::BrokenPipe));
        }
        self.calls -= 1;
        Ok(())
    }
}

impl Write for Failing {
    fn write(&mut self, buf: &[u8]) -> io::Result<usize> {
        self.call()?;
        self.inner.write(buf)
    }

    fn flush(&mut self) -> io::Result<()> {
        self.call()?;
        self.flushed = self.inner.len();
        Ok(())
    }
}

// How a script is read and written: so many bytes a read, and so many reads and so many calls of the writer before a failure.
#[derive(Clone, Copy)]
struct Way {
    size: usize,
    reads: usize,
    calls: u32,
}

const WHOLE: Way = Way {
    size: 4096,
    reads: usize::MAX,
    calls: u32::MAX,
};

fn played(alloc: Global, way: Way, script: &str) -> (u8, Failing) {
    let mut reader = FragmentList {
        reads: way.reads,
        size: way.size,
        text: script.as_bytes(),
    };
    let mut writer = Failing {
        calls: way.calls,
        inner: Vec::new(alloc),
        flushed: 0,
    };
    let status = replay(alloc, &mut reader, &mut writer);
    (status, writer)
}

// Whether a script ends with this status, and has written and flushed this.
fn ends_so(alloc: Global, way: Way, script: &str, status: u8, output: &str) -> bool {
    let (found, writer) = played(alloc, way, script);
    found == status
        && writer.inner.as_slice() == output.as_bytes()
        && writer.flushed == output.len()
}

// Plays a script in fragments of each size, by a reader that fails after so many bytes.
fn play_in_fragments(
    alloc: Global,
    script: &str,
    bytes: usize,
    status: u8,
    output: &str,
) -> Result<(), Fail> {
    for size in [1usize, 2, 3, 6, 7] {
        let way = Way {
            size,
            reads: bytes.div_ceil(size),
            ..WHOLE
        };
        if !ends_so(alloc, way, script, status, output) {
            return Err(Fail::new(format_args!("in pieces of {size}: {script}")));
        }
    }
    Ok(())
}

// Plays each script of a text after these. Where a line ends the run, its last byte is the last one that the reader gives: one more
// read, and the status would be 2.
fn play_each(alloc: Global, before: &[&str], text: &str) -> Result<(), Fail> {
    for part in text.split("==\n") {
        play_case(alloc, &Case::new(alloc, before, part)?)?;
    }
    Ok(())
}

fn play_case(alloc: Global, case: &Case) -> Result<(), Fail> {
    let script = case.script.as_str();
    let bytes = if case.status == 1 && script.ends_with('\n') {
        script.len()
    } else {
        usize::MAX
    };
    play_in_fragments(alloc, script, bytes, case.status, case.output.as_str())
}

const ONE_SOCKET: &str = "\
world ip 1500
socket A udp 1 64 1 64
start
> ok
";

const ENDS: &str = "\
bind A 0 9{end}
> ok
==
bind A 1 9{end}
! line 4: refused NoSocket
==
bind A 0 9
> ok
bind A{end}
! line 5: bad event
==
bind A 0 9
> ok

! line 5: bad event
bind A 0 9
==
poll A 7 0
> none
poll A 6 0
! line 5: refused Moment
bogus
";

/// The last three are those that no file of cases can have: with empty lines, and with a carriage return.
const LAST_LINES: &str = "\
world ip 1500
start
> ok
bogus
! line 3: bad event
==
world ip 1500
start
> ok
bind A 0 9
! line 3: refused NoSocket
==

! line 1: bad event
==
world ip 1500

! line 2: bad event
start
==
world ip 1500\r
! line 1: bad event
";

#[test]
fn fragments_of_any_size_write_the_same(rt: HostRuntime) -> Result<(), Fail> {
    play_each(rt.alloc(), &[IP, QUEUED], CARRIED)?;
    play_each(rt.alloc(), &[ONE_SOCKET], ENDS)?;
    play_each(rt.alloc(), &[], LAST_LINES)
}

#[test]
fn answers_are_written_as_soon_as_their_lines_were_read(rt: HostRuntime) -> Result<(), Fail> {
    let alloc = rt.alloc();
    let begun = Case::new(alloc, &[IP], QUEUED)?;
    let whole = Case::new(alloc, &[IP, QUEUED], CARRIED)?;
    let script = whole.script.as_str();
    play_in_fragments(alloc, script, begun.script.len(), 2, begun.output.as_str())
}

// Whether a datagram's script ends with this status.
fn has_status(alloc: Global, way: Way, status: u8) -> Result<bool, Fail> {
    let case = Case::new(alloc, &[IP, QUEUED], CARRIED)?;
    let (found, _writer) = played(alloc, way, case.script.as_str());
    Ok(found == status)
}

// 26 reads of 7 bytes give the script, and one more its end.
fn play_reads(alloc: Global) -> Result<(), Fail> {
    for reads in 0..30usize {
        let way = Way {
            size: 7,
            reads,
            ..WHOLE
        };
        let wanted = if reads < 27 { 2 } else { 0 };
        if !has_status(alloc, way, wanted)? {
            return Err(Fail::new(format_args!("after {reads} reads")));
        }
    }
    Ok(())
}

// Eight lines are answered with one write each. After each of the two reads is a flush.
fn play_calls(alloc: Global) -> Result<(), Fail> {
    for calls in 0..13u32 {
        let way = Way { calls, ..WHOLE };
        let wanted = if calls < 10 { 2 } else { 0 };
        if !has_status(alloc, way, wanted)? {
            return Err(Fail::new(format_args!("after {calls} calls")));
        }
    }
    Ok(())
}

#[test]
fn a_failing_reader_or_writer_is_a_status_of_its_own(rt: HostRuntime) -> Result<(), Fail> {
    play_reads(rt.alloc())?;
    play_calls(rt.alloc())
}
