//! How a test asserts: it hands over a table of lives, or says all that must hold at once. A branch is dear to prove, and so is a local:
//! an assertion costs a test both. Dearest is what a test owns and calls, so a call stands in an arm of a function that borrows.
use std::alloc::Global;
use std::fmt::Display;
use std::process::Abort;
use std::test::Fail;

/// A call of a value that lives on, and what it must answer.
pub trait Goes<T> {
    /// Whether the call answers as the step says.
    fn goes(&self, alloc: Global, value: &mut T) -> bool;
}

/// A value from its beginning on, with a table of steps.
pub trait Life {
    /// The place of the first step that goes otherwise than it says, counted from 0. Lack of memory at the beginning is step 0.
    fn stops_at(&self, alloc: Global) -> Option<usize>;
}

/// Asserts that all of these hold. The failure names the first that doesn't, counted from 0.
pub fn all(rt: &impl Abort, said: &[bool]) {
    for (slot, holds) in said.iter().enumerate() {
        assert!(rt; *holds, "statement {slot}");
    }
}

/// Asserts that each life goes as its steps say. The failure names the first that doesn't, counted from 0, and its step.
pub fn all_live<L: Life>(rt: &(impl Abort + AllocGlobal), lives: &[L]) {
    for (slot, life) in lives.iter().enumerate() {
        assert_eq!(rt; life.stops_at(rt.alloc()), None, "life {slot}");
    }
}

/// Where the steps stop.
pub fn first_wrong<T, S: Goes<T>>(alloc: Global, value: &mut T, steps: &[S]) -> Option<usize> {
    for (slot, step) in steps.iter().enumerate() {
        if !step.goes(alloc, value) {
            return Some(slot);
        }
    }
    None
}

/// A value on the heap, where lending it is cheap to prove. (Of a value of any type the proof is short.)
pub fn boxed<T: Drop>(alloc: Global, value: T) -> Result<Box<T>, Fail> {
    Ok(Box::new(alloc, value)?)
}

/// Whether the value's text is this one.
pub fn prints<T: Display>(alloc: Global, value: &T, text: &str) -> bool {
    match value.to_string(alloc) {
        Ok(found) => found.as_str() == text,
        Err(_) => false,
    }
}
