//! What a server tells, and what the client is told of retries.
use ip_wire::{Ipv4Address, Ipv4Cidr};
use net_base::Duration;
use wire_dhcp::MAX_DNS_SERVER_COUNT;

/// A server: where its packets come from, and the address by which it is named and asked (RFC 2132, section 9.7).
#[derive(Clone, Copy, Debug, PartialEq, Eq)]
pub struct ServerInfo {
    pub address: Ipv4Address,
    pub identifier: Ipv4Address,
}

/// What a server gave.
#[derive(Clone, Copy, Debug, PartialEq, Eq)]
pub struct Config {
    pub server: ServerInfo,
    /// The client's address, with its network.
    pub address: Ipv4Cidr,
    /// The first router of the network.
    pub router: Option<Ipv4Address>,
    /// The first servers of names.
    pub dns_servers: [Option<Ipv4Address>; MAX_DNS_SERVER_COUNT],
}

/// What happened.
#[derive(Clone, Copy, Debug, PartialEq, Eq)]
pub enum Event {
    /// There is no lease: an address that was used isn't to be used any longer.
    Deconfigured,
    /// There is a lease of this.
    Configured(Config),
}

/// How often and when the client asks again.
#[derive(Clone, Copy, Debug, PartialEq, Eq)]
pub struct RetryConfig {
    /// How long the client waits for an offer at first.
    pub discover_timeout: Duration,
    /// How long the client waits for an acknowledgement at first.
    pub initial_request_timeout: Duration,
    /// After how many requests without an answer the client begins again.
    pub request_retries: u16,
    /// How long a client that has a lease waits at least, where that isn't past the instant that it waits for.
    pub min_renew_timeout: Duration,
    /// And at most, where that isn't less than `min_renew_timeout`.
    pub max_renew_timeout: Duration,
}

/// The settings of a socket.
#[derive(Clone, Copy, Debug)]
pub struct Settings {
    pub retry: RetryConfig,
    pub max_lease_duration: Option<Duration>,
    pub ignore_naks: bool,
    /// Whether a second at least lies between two messages, whatever servers answer.
    pub host_requirements: bool,
    pub server_port: u16,
    pub client_port: u16,
}
