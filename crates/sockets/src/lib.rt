//! The sockets of the stack, and one type for all kinds.
//!
//! It re-exports `socket_datagram` (UDP, ICMP and raw sockets, the clients of DHCP and DNS), `tcp_socket` and `socket_context`: a crate above names
//! `sockets` alone, in `crates.txt` and in its code, as `sockets::udp::Socket` and `sockets::dhcp::Socket`. In clauses, `specs/` and `proofs/` the
//! definitions are `Rattle.sockets.specs.Udp`, `.Packet`, `.Context` and so on.
#![tactic(auto)]

mod any_socket;
mod boxed;
pub mod dhcp;
mod idle;
pub mod keys;
pub mod laws;
mod socket;
pub mod tcp;

pub use any_socket::AnySocket;
pub use boxed::Boxed;
pub use socket::Socket;
pub use socket_context::{Context, IpPayload, Offer, Packet, PollAt, addresses, widths};
pub use socket_datagram::{dhcpv4, dns, icmp, raw, udp};
pub use tcp_socket::SegmentPayload;
