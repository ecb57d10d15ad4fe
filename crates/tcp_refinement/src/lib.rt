//! TCP sockets between two hosts: the tie of a socket to a side of the machine of `tcp_theory`, and the invariant that it gives; two sockets over
//! whatever lies between (`pair`).
#![tactic(auto)]

pub mod acceptance;
pub mod alone;
pub mod answered;
pub mod arrivals;
pub mod calls;
pub mod hosts;
pub mod names;
pub mod offers;
pub mod pair;
pub mod promises;
pub mod runs;
