//! Messages of the dynamic host configuration protocol (RFC 2131, RFC 2132): a view of their bytes,
//! options read in place, and messages as values.
#![tactic(auto)]

mod area;
mod emit;
pub mod field;
pub mod laws;
mod message_type;
mod option;
mod packet;
mod repr;
mod values;

pub use message_type::{DhcpMessageType, DhcpOpCode};
pub use option::DhcpOption;
pub use packet::DhcpPacket;
pub use repr::{DhcpRepr, MAX_DNS_SERVER_COUNT};
