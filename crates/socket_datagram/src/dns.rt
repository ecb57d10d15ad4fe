//! A client of the domain name system (RFC 1034, RFC 1035): a socket that asks servers for the addresses of a name, and reads
//! their answers.
//!
//! It stands on what sockets of all kinds share, so that an interface can poll it as any other, and passes its messages on: `wire_dns`.

mod answer;
mod error;
pub mod laws;
mod query;
mod records;
mod socket;
mod state;

pub use error::{GetQueryResultError, StartQueryError};
pub use query::Query;
pub use records::{Addresses, MAX_ADDRESSES};
pub use socket::Socket;
pub use state::{MAX_SERVERS, State};
pub use wire_dns::{
    DnsFlags, DnsName, DnsNameError, DnsOpcode, DnsPacket, DnsQueryType, DnsQuestion, DnsRcode,
    DnsRecord, DnsRecordData, DnsRepr,
};
