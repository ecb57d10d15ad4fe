//! A client of the dynamic host configuration protocol (RFC 2131): a socket that asks for an address, keeps it while its
//! lease lasts, and gives it up at its end.
//!
//! It stands on what sockets of all kinds share, so that an interface can poll it as any other, and passes its messages on: `wire_dhcp`.

mod config;
mod error;
mod extras;
pub mod instants;
pub mod laws;
mod lease;
mod request;
mod socket;
mod state;

pub use config::{Config, Event, RetryConfig, ServerInfo, Settings};
pub use error::OptionsError;
pub use lease::Lease;
pub use request::Kind;
pub use socket::Socket;
pub use state::{ClientState, Requesting, Selecting, Turn};
pub use wire_dhcp::{
    DhcpMessageType, DhcpOpCode, DhcpOption, DhcpPacket, DhcpRepr, MAX_DNS_SERVER_COUNT,
};
