//! Tests of the base of the stack, of addresses and of packet formats, as a user of `net_base`, `ip_wire` and `control_wire` sees them.
#![tactic(auto)]

#[cfg(test)]
mod base;
#[cfg(test)]
mod cases;
#[cfg(test)]
mod control;
#[cfg(test)]
mod formats;
