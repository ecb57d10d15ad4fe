//! Laws of two sockets: a connection goes on.
#![tactic(auto)]

pub mod bare;
pub mod both_ways;
pub mod connection;
pub mod delayed_segment;
pub mod handshake;
pub mod latency;
pub mod laws;
pub mod met;
pub mod near;
pub mod readers;
pub mod restart;
pub mod settle;
pub mod standstill;
pub mod timer;
pub mod timestamps;
pub mod windows;
