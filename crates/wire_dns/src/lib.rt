//! Messages of the domain name system (RFC 1035): a view of their bytes, names read through their
//! compression, questions, records, and queries written.
#![tactic(auto)]

mod codes;
pub mod field;
pub mod laws;
mod name;
mod packet;
mod question;
mod record_at;
mod repr;
mod text;

pub use codes::{DnsFlags, DnsOpcode, DnsQueryType, DnsRcode};
pub use name::{DnsName, MAX_NAME_LEN};
pub use packet::DnsPacket;
pub use question::DnsQuestion;
pub use record_at::{DnsRecord, DnsRecordData};
pub use repr::DnsRepr;
pub use text::DnsNameError;
