//! Files of cases: texts by name, one after the other.
//!
//!     # a comment
//!     == one
//!     the first line of the case `one`
//!
//!     == two
//!
//! A line that begins with `== ` begins a case, whose name is the rest of it. Empty lines and those that begin with `#` are passed over.
//!
//! What plays the cases of a text ends its answers with a line of how many bytes it read and of their sum (`Tally`): so no byte of the text
//! changes without a change of what is written.
#![tactic(auto)]

mod cases;
mod fault;
pub mod laws;
mod lines;
mod tally;

pub use cases::{Case, CaseFile, read_cases};
pub use fault::Fault;
pub use lines::ends_line;
pub use tally::Tally;
