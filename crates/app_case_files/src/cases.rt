//! The cases of a file.
ghost use Rattle.std.specs.Prelude.{◌≡◌, IfOk, IfSome};
ghost use Rattle.app_case_files.specs.Tallies.{tally};

use crate::fault::{Fault, first_fault};
use crate::lines::{CaseLine, case_line, ends_line};
use crate::tally::Tally;
use std::alloc::{AllocError, Global};
use std::io::{self, Read};

/// A text by its name.
#[derive(Drop)]
pub struct Case {
    pub name: Vec<u8>,
    /// Its lines, without comments and empty ones.
    pub text: Vec<u8>,
}

/// The cases of a text, and its tally.
#[derive(Drop)]
pub struct CaseFile {
    pub cases: Vec<Case>,
    pub tally: Tally,
}

/// The cases that a reader gives, to its end.
pub fn read_cases<R: Read>(alloc: Global, reader: &mut R) -> io::Result<Result<CaseFile, Fault>>
    ensures tally { IfOk result (λ read. IfOk read (λ file. IfSome (R.remaining reader.old) (λ text. file.tally ≡ tally text))) }
{
    let mut text = Vec::new(alloc);
    reader.read_to_end(&mut text)?;
    match first_fault(text.as_slice()) {
        Some(fault) => Ok(Err(fault)),
        None => Ok(Ok(file_of(alloc, text.as_slice())?)),
    }
}

/// The file of a text that has no fault.
fn file_of(alloc: Global, text: &[u8]) -> Result<CaseFile, AllocError>
    ensures { IfOk result (λ file. file.tally ≡ tally text.now) }
{
    let mut tally = Tally::new();
    tally.take(text);
    Ok(CaseFile {
        cases: cases_of(alloc, text)?,
        tally,
    })
}

/// The cases of a text that has no fault.
fn cases_of(alloc: Global, text: &[u8]) -> Result<Vec<Case>, AllocError> {
    let mut cases = Vec::new(alloc);
    for line in text.split(ends_line) {
        add_line(alloc, &mut cases, line)?;
    }
    Ok(cases)
}

/// A line of the last of these cases, or the name of a further one.
fn add_line(alloc: Global, cases: &mut Vec<Case>, line: &[u8]) -> Result<(), AllocError> {
    match case_line(line) {
        CaseLine::Passed => {}
        CaseLine::Name(name) => cases.push(Case {
            name: name.to_vec(alloc)?,
            text: Vec::new(alloc),
        })?,
        CaseLine::Text(line) => {
            if let Some(case) = cases.last_mut() {
                case.text.extend_from_slice(line)?;
                case.text.push(b'\n')?;
            }
        }
    }
    Ok(())
}
