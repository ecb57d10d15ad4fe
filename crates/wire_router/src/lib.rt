//! Router messages of neighbour discovery (RFC 4861, sections 4.1 and 4.2), which are of ICMPv6, and the options that
//! advertisements carry.
#![tactic(auto)]

mod advert;
pub mod laws;
mod option;
mod options;
mod solicit;

pub use advert::{RouterAdvert, RouterPreference};
pub use option::{PrefixInformation, RouterOption};
pub use options::{OptionBytes, are_options};
pub use solicit::emit_router_solicit;
