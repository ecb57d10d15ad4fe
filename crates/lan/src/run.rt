//! A run of a script whose text comes in fragments.
ghost use Rattle.std.specs.Prelude.{◌≡◌, ◌+◌, ◌<◌, ◌≤◌, ◌^◌, ℕ, List, [], ◌∷◌, ◌++◌, length, IfOk, IfSome, MatchBool, IsTrue, position, ◌==◌};
ghost use Rattle.std.specs.Bool.{OnTrue};
ghost use Rattle.std.specs.Io.KnownBytes.{Appends};
ghost use Rattle.lan.specs.declared.end.End.{End};
ghost use Rattle.lan.specs.declared.session.Session.TheVariants.{Begun};
ghost use Rattle.lan.specs.Ends.{end_line};
ghost use Rattle.lan.specs.Events.{lines_of};
ghost use Rattle.lan.specs.FragmentList.{is_unbroken, RunsOn, RunsOut};
ghost use Rattle.lan.specs.Scripts.{LineEnds, LineLeads, Replays};

use crate::session::Session;
use std::alloc::Global;
use std::io::{self, Write};

/// A run of a script, as far as it has come: each line whose end was read has been run.
#[derive(Drop)]
pub(crate) struct Run {
    session: Session,
    // The number of the next line, from 1.
    number: u64,
    // What was read of that line.
    begun: Vec<u8>,
    ghost unbroken: { IsTrue (is_unbroken begun.items) },
}

impl Run {
    /// A run before its first line.
    pub(crate) fn new(alloc: Global) -> Run
        ensures session { result.session ≡ Begun }
        ensures number { result.number ≡ 1 }
        ensures begun { result.begun.items ≡ [] }
    {
        Run {
            session: Session::Begun,
            number: 1,
            begun: Vec::new(alloc),
        }
    }

    /// Takes the next fragment of the text. Each line that ends in it is run, and what it answers is
    /// written. False: one of them ended the run.
    pub(crate) fn take_fragment<W: Write>(
        &mut self,
        alloc: Global,
        fragment: &[u8],
        writer: &mut W,
    ) -> io::Result<bool>
        requires { self.old.number + length fragment.now < 2 ^ 64 }
        ensures runs { IfOk result (λ led. (output : List ℕ)
            × Appends (W.contents writer.old) (W.contents writer.new) output
            × MatchBool led
            (RunsOn self.old.number self.old.session (self.old.begun.items ++ fragment.now) output self.new.number self.new.session self.new.begun.items)
            (RunsOut self.old.number self.old.session (self.old.begun.items ++ fragment.now) output)) }
        ensures number { IfOk result (λ led. OnTrue led (self.new.number ≤ self.old.number + length fragment.now)) }
    {
        let mut rest = fragment;
        while let Some(end) = line_end(rest) {
            self.begin(&rest[..end])?;
            if !self.take_line(alloc, writer)? {
                return Ok(false);
            }
            rest = &rest[end + 1..];
        }
        self.begin(rest)?;
        Ok(true)
    }

    /// Takes the end of the text, which ends a line that was begun: the status.
    pub(crate) fn finish<W: Write>(&mut self, alloc: Global, writer: &mut W) -> io::Result<u8>
        requires { self.old.number + 1 < 2 ^ 64 }
        ensures { IfOk result (λ status. (output : List ℕ)
            × Appends (W.contents writer.old) (W.contents writer.new) output
            × Replays self.old.number self.old.session (lines_of self.old.begun.items) output status) }
    {
        if self.begun.as_slice().is_empty() {
            return Ok(0);
        }
        if !self.take_line(alloc, writer)? {
            return Ok(1);
        }
        Ok(0)
    }

    // More of the line that was begun.
    fn begin(&mut self, text: &[u8]) -> io::Result<()>
        requires { IsTrue (is_unbroken text.now) }
        ensures session { self.new.session ≡ self.old.session }
        ensures number { self.new.number ≡ self.old.number }
        ensures begun { IfOk result (λ u. self.new.begun.items ≡ self.old.begun.items ++ text.now) }
    {
        self.begun.extend_from_slice(text)?;
        Ok(())
    }

    // Runs the line that was begun, which has come to its end. False: it ended the run.
    fn take_line<W: Write>(&mut self, alloc: Global, writer: &mut W) -> io::Result<bool>
        requires { self.old.number + 1 < 2 ^ 64 }
        ensures { IfOk result (λ led. (output : List ℕ)
            × Appends (W.contents writer.old) (W.contents writer.new) output
            × MatchBool led
            (LineLeads self.old.session self.old.begun.items output self.new.session
            × (self.new.number ≡ self.old.number + 1) × (self.new.begun.items ≡ []))
            ((end : End) × LineEnds self.old.session self.old.begun.items end × (output ≡ end_line self.old.number end))) }
    {
        match self.session.take_line(alloc, self.begun.as_slice()) {
            Ok(text) => {
                writer.write_all(text.as_bytes())?;
                self.begun.clear();
                self.number += 1;
                Ok(true)
            }
            Err(end) => {
                write!(writer, "line {}: {end}\n", self.number)?;
                Ok(false)
            }
        }
    }
}

// Where the first byte 0a is.
fn line_end(text: &[u8]) -> Option<usize>
    ensures found { IfSome result (λ end. (end < length text.now)) }
    ensures slot { result ≡ position (λ byte. byte == 10) text.now }
{
    text.iter().position(|byte| *byte == b'\n')
}
