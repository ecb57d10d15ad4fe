//! The Internet Group Management Protocol (RFC 1112, 2236 and 3376): views of its messages, and
//! queries, reports and leaves of all three versions as values.
//!
//! Group records, which IGMPv3 and MLDv2 share but for the width of their addresses, are here too.
#![tactic(auto)]

pub mod field;
mod group_record;
pub mod laws;
mod message;
mod packet;
mod packet_mut;
mod repr;

pub use group_record::{GROUP_RECORD_LEN, GroupRecord, RecordType, are_records, emit_record};
pub use message::{IgmpMessage, IgmpVersion};
pub use packet::IgmpPacket;
pub use packet_mut::IgmpPacketMut;
pub use repr::{IGMP_ROUTER_ALERT, IgmpRepr};
