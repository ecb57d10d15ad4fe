//! A host that configures itself, on an Ethernet link: it asks for an address by DHCP, pings its router, asks for names by DNS, and fetches
//! a page by the name of its host. What comes of it it says on standard error (docs/guide/dhcp_and_dns.md).
mod buffers;
mod client;
mod orders;
mod page;
mod pings;
mod plan;
mod steps;
mod turns;

pub use turns::serve;
