//! What devices that wrap a device leave of the stack's promises, as laws: functions with nothing to do. One that watches takes nothing from
//! them, and one that changes a bit is found out by the checksums.
#![tactic(auto)]

pub mod one_bit;
pub mod watched;
