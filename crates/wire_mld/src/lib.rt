//! Multicast Listener Discovery (RFC 2710 and 3810), whose messages are of ICMPv6: views of them, and
//! queries, reports and the done message of both versions as values.
//!
//! Records of a report of version 2 are `wire_igmp`'s group records, of addresses of 16 bytes.
#![tactic(auto)]

pub mod field;
pub mod laws;
mod message;
mod packet;
mod packet_mut;
mod repr;

pub use message::MldMessage;
pub use packet::MldPacket;
pub use packet_mut::MldPacketMut;
pub use repr::{MLD_HOP_BY_HOP, MldRepr};
pub use wire_igmp::{GROUP_RECORD_LEN, GroupRecord, RecordType, are_records, emit_record};
