//! UDP, ICMP and raw sockets, and the clients of DHCP and DNS: what a socket is that holds datagrams.
#![tactic(auto)]

pub mod dhcpv4;
pub mod dns;
pub mod error;
pub mod header;
pub mod icmp;
mod queues;
pub mod raw;
pub mod udp;
