//! Tests of sockets by their public calls: what they lend, the slices that they fill, datagrams that no length holds, one type for all
//! kinds, and the texts of their errors. What scripts can say of a host's sockets is data of the program `app_host`.

mod any;
mod calls;
pub mod common;
mod texts;
mod udp;
