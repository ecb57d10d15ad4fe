//! Extension headers of IPv6 (RFC 8200, section 4): what stands after them, or what a host does with a packet whose headers it
//! can't go through.
#![tactic(auto)]

mod errors;
mod headers;
mod options;

pub use errors::carries_error;
pub use headers::{Following, Problem, fragment_offset, go_through, has_more, is_extension};
pub use options::{Options, asked_by};
