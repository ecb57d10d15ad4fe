//! What a host tells of its multicast groups by IGMP and MLD, beside a device: when it joins and leaves, when it is asked, and when its
//! addresses change.
//!
//! A `Reporter` reads each frame that the host takes in and sends its reports itself. It draws its random words from a state of its own.
#![tactic(auto)]

mod frame;
mod heard;
pub mod laws;
mod mld_in;
mod report;
mod reporter;
mod rows;
mod transmit;

pub use heard::Heard;
pub use iface_groups::GroupTableFull;
pub use report::Message;
pub use reporter::Reporter;
