//! Frames that go over a device as lines of text, in the words of `wire_print`.
#![tactic(auto)]

mod line;
mod lines;

pub use line::trace_line;
pub use lines::TraceLines;
