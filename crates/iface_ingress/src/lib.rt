//! The ingress path of an interface: what a frame carries, what it brings to a host's tables, slots and sockets, and what is answered
//! at once.
//!
//! It passes on what an interface names of `sockets`.
#![tactic(auto)]

pub mod arp;
pub mod control_laws;
mod copy_checksum;
mod deliver;
mod fast_path;
pub mod fragment_laws;
pub mod frame_laws;
mod icmp_reply;
mod incoming;
mod ip;
pub mod laws;
pub mod limit_laws;
mod ndisc;
mod neighbor_state;
mod path;
pub mod path_laws;
mod process;
mod reassemble;
mod receivers;
mod reply;
pub mod reply_laws;
mod search;
mod stream;
mod upper_layer;

pub use fast_path::process_frame_fast;
pub use icmp_reply::{
    echo_ipv4, echo_ipv6, is_one_host, parameter_problem, port_unreachable, protocol_unreachable,
};
pub use incoming::{Incoming, read, read_into};
pub use ip::bring;
pub use ndisc::hear;
pub use reassemble::{keep, release, take_in};
pub use reply::Reply;
pub use sockets::{
    AnySocket, Context, IpPayload, Offer, Packet, PollAt, Socket, addresses, laws as socket_laws,
    tcp, udp, widths,
};
pub use upper_layer::read_payload;
