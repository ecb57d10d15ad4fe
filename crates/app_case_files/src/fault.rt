//! Why a text is no file of cases.
use crate::lines::{CaseLine, case_line, ends_line};
use std::fmt;

/// The first thing that is wrong with a text. Lines count from 1.
#[derive(Clone, Copy, Debug, PartialEq, Eq)]
pub enum Fault {
    /// This line ends in a carriage return.
    CarriageReturn(usize),
    /// This line stands before the first name.
    NoName(usize),
    /// There is no case.
    NoCase,
}

impl fmt::Display for Fault {
    fn fmt<W: fmt::Write>(&self, f: &mut fmt::Formatter<W>) -> fmt::Result {
        match *self {
            Fault::CarriageReturn(number) => write!(f, "line {number}: carriage return"),
            Fault::NoName(number) => write!(f, "line {number}: no name before it"),
            Fault::NoCase => f.write_str("no case"),
        }
    }
}

/// What is wrong with a text, if anything.
pub(crate) fn first_fault(text: &[u8]) -> Option<Fault> {
    let mut number: usize = 0;
    let mut named = false;
    for line in text.split(ends_line) {
        number = number.saturating_add(1);
        if line.ends_with(b"\r") {
            return Some(Fault::CarriageReturn(number));
        }
        match case_line(line) {
            CaseLine::Passed => {}
            CaseLine::Name(_) => named = true,
            CaseLine::Text(_) if named => {}
            CaseLine::Text(_) => return Some(Fault::NoName(number)),
        }
    }
    if named { None } else { Some(Fault::NoCase) }
}
