//! Laws on which no crate stands.
//!
//! Of values: what `==` says of those of every crate, the numbers that their constants and defaults are, the texts of their errors, and that
//! what a facade passes on is its member's, under its own name; and what the polls of a turn of a host do to its sockets. Each is a small
//! function, with nothing to do or one call to make.
//!
//! Of hosts: `progress` says that one goes on, and `peer_host` what a poll and calls of a TCP socket do, whatever is at the other end. Of two
//! hosts: `worlds` has runs on numerals, and what the headline excludes.
//!
//! The crate stands on top, so that no crate below is proved again for a law.
#![tactic(auto)]

pub mod base;
pub mod connections;
pub mod containers;
pub mod control;
pub mod datagrams;
pub mod device_laws;
pub mod history_equal;
pub mod history_values;
pub mod host_polls;
pub mod host_refusals;
pub mod interface_equal;
pub mod interface_facade;
pub mod interface_host;
pub mod interface_refusals;
pub mod interface_values;
pub mod lan_facade;
pub mod links;
pub mod lost_packets;
pub mod packets;
pub mod passed_on;
pub mod peer_host;
pub mod peer_turns;
pub mod progress;
pub mod refusals;
pub mod requests;
pub mod script_end;
pub mod script_equal;
pub mod told_errors;
pub mod tun_equal;
pub mod tun_served;
pub mod tun_values;
pub mod windows;
pub mod wire;
pub mod world_equal;
pub mod world_refusals;
pub mod worlds;
