//! Laws of what a host tells of its groups: functions with nothing to do.
#![tactic(auto)]

pub mod bounded;
pub mod heard;
pub mod told;
pub mod tried;
