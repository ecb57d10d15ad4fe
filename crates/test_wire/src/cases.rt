//! How a test asserts: it says all that must hold at once, or hands over a table of cases or of lives. A branch is dear to prove, and so is a
//! local: an assertion costs a test both, and a table that is a constant costs it one local. A call costs as much as a row of four numbers does
//! four times: so what is called often stands in one arm of a function that borrows.
use std::alloc::Global;
use std::fmt::{Debug, Display};
use std::process::Abort;

/// A case of a table: a call, and what it must answer.
pub trait Case {
    /// Whether the call answers as the case says.
    fn holds(&self, alloc: Global) -> bool;
}

/// A call of a value that lives on, and what it must answer.
pub trait Goes<T> {
    /// Whether the call answers as the step says.
    fn goes(&self, alloc: Global, value: &mut T) -> bool;
}

/// A value from its beginning on, with a table of steps.
pub trait Life {
    /// The place of the first step that goes otherwise than it says, counted from 0. Lack of memory at the beginning is step 0.
    fn stops_at(&self, alloc: Global) -> Option<usize>;
}

/// Asserts that this holds. The failure names what it is, and its offset.
pub fn holds_at(rt: &impl Abort, holds: bool, what: &str, offset: usize) {
    assert!(rt; holds, "{what} {offset}");
}

/// Asserts that all of these hold. The failure names the first that doesn't, counted from 0.
pub fn all(rt: &impl Abort, said: &[bool]) {
    for (offset, holds) in said.iter().enumerate() {
        holds_at(rt, *holds, "statement", offset);
    }
}

/// Asserts that each case holds. The failure names the first that doesn't, counted from 0.
pub fn all_hold<C: Case>(rt: &(impl Abort + AllocGlobal), cases: &[C]) {
    for (offset, case) in cases.iter().enumerate() {
        holds_at(rt, case.holds(rt.alloc()), "case", offset);
    }
}

/// Asserts that each life goes as its steps say. The failure names the first that doesn't, counted from 0, and its step.
pub fn all_live<L: Life>(rt: &(impl Abort + AllocGlobal), lives: &[L]) {
    for (offset, life) in lives.iter().enumerate() {
        assert_eq!(rt; life.stops_at(rt.alloc()), None, "life {offset}");
    }
}

/// Where the steps stop.
pub fn first_wrong<T, S: Goes<T>>(alloc: Global, value: &mut T, steps: &[S]) -> Option<usize> {
    for (offset, step) in steps.iter().enumerate() {
        if !step.goes(alloc, value) {
            return Some(offset);
        }
    }
    None
}

/// Whether the value's text is this one.
pub fn prints<T: Display>(alloc: Global, value: &T, text: &str) -> bool {
    match value.to_string(alloc) {
        Ok(found) => found.as_str() == text,
        Err(_) => false,
    }
}

/// Whether the value's text for who seeks a fault is this one.
pub fn shows<T: Debug>(alloc: Global, value: &T, text: &str) -> bool {
    match format!(in alloc; "{value:?}") {
        Ok(found) => found.as_str() == text,
        Err(_) => false,
    }
}

/// Asserts that the value of each number has this text. The failure names the number.
pub fn all_named<T: From<u8> + Display + Copy>(
    rt: &(impl Abort + AllocGlobal),
    names: &[(u8, &'static str)],
) {
    for (number, name) in names {
        let is_named = prints(rt.alloc(), &T::from(*number), name);
        holds_at(rt, is_named, "number", usize::from(*number));
    }
}
