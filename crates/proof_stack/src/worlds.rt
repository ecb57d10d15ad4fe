//! Runs of two hosts' sockets over packets on numerals, which the check computes: that each is a run, and what its end says. And what the
//! headline excludes, of histories and of worlds.

pub mod bad_worlds;
pub mod datagrams;
pub mod excluded;
pub mod streams;
