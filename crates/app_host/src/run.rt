//! A run of scripts whose text comes in fragments.
use crate::session::Session;
use app_case_files::Tally;
use std::alloc::{AllocError, Global};
use std::io::{self, Write};

/// A run of scripts, as far as it has come: each line whose end was read has been played.
#[derive(Drop)]
pub struct Run {
    session: Session,
    // The number of the next line in its script, from 1.
    number: u64,
    // What was read of that line.
    begun: Vec<u8>,
    // Whether a line ended this script before its own end, or one of those so far.
    is_over: bool,
    has_stopped: bool,
    // All that was read, and whether a name stood in it.
    tally: Tally,
    has_names: bool,
}

impl Run {
    /// A run before its first line.
    pub fn new(alloc: Global) -> Run {
        Run {
            session: Session::Begun,
            number: 1,
            begun: Vec::new(alloc),
            is_over: false,
            has_stopped: false,
            tally: Tally::new(),
            has_names: false,
        }
    }

    /// Takes the next fragment of the text. Each line that ends in it is played, and what it answers is written.
    pub fn take_fragment<W: Write>(
        &mut self,
        alloc: Global,
        fragment: &[u8],
        writer: &mut W,
    ) -> io::Result<()> {
        self.tally.take(fragment);
        for byte in fragment {
            self.take_byte(alloc, *byte, writer)?;
        }
        Ok(())
    }

    fn take_byte<W: Write>(&mut self, alloc: Global, byte: u8, writer: &mut W) -> io::Result<()> {
        if byte == b'\n' {
            self.take_line(alloc, writer)
        } else {
            Ok(self.begun.push(byte).map_err(AllocError::from)?)
        }
    }

    /// Takes the end of the text, which ends a line that was begun: the status. After scripts with names stands the line of the tally.
    pub fn finish<W: Write>(&mut self, alloc: Global, writer: &mut W) -> io::Result<u8> {
        if !self.begun.as_slice().is_empty() {
            self.take_line(alloc, writer)?;
        }
        if self.has_names {
            self.tally.write_line(writer)?;
        }
        Ok(u8::from(self.has_stopped))
    }

    // Plays the line that was begun, which has come to its end.
    fn take_line<W: Write>(&mut self, alloc: Global, writer: &mut W) -> io::Result<()> {
        if self.begun.as_slice().starts_with(b"== ") {
            return self.begin(writer);
        }
        if !self.is_over {
            let text = self.answer(alloc)?;
            writer.write_all(text.as_bytes())?;
        }
        self.begun.clear();
        self.number = self.number.saturating_add(1);
        Ok(())
    }

    // Begins another script, whose name is written.
    fn begin<W: Write>(&mut self, writer: &mut W) -> io::Result<()> {
        writer.write_all(self.begun.as_slice())?;
        writer.write_all(b"\n")?;
        self.session.set(Session::Begun);
        self.has_names = true;
        self.is_over = false;
        self.begun.clear();
        self.number = 1;
        Ok(())
    }

    // What is written of the line that was begun: why it ends its script, if it does.
    fn answer(&mut self, alloc: Global) -> Result<String, AllocError> {
        let number = self.number;
        if let Some((byte, slot)) = first_past_ascii(self.begun.as_slice()) {
            self.stop();
            return format!(in alloc;
                "line {number}: bad event: byte {byte} at place {slot} is none of ASCII\n"
            );
        }
        match self.session.take_line(alloc, self.begun.as_slice()) {
            Ok(text) => Ok(text),
            Err(stop) => {
                let text = stop.to_text(alloc, self.begun.as_slice())?;
                self.stop();
                format!(in alloc; "line {number}: {text}\n")
            }
        }
    }

    // A line ends the script.
    fn stop(&mut self) {
        self.session.set(Session::Begun);
        self.is_over = true;
        self.has_stopped = true;
    }
}

// The first byte that is none of ASCII, and its slot, counted from 1.
fn first_past_ascii(line: &[u8]) -> Option<(u8, usize)> {
    let slot = line.iter().position(|byte| !byte.is_ascii())?;
    Some((line[slot], slot + 1))
}
