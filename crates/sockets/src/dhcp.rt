//! The client of DHCP, and its messages.
pub use socket_datagram::dhcpv4::{
    ClientState, Config, DhcpMessageType, DhcpOpCode, DhcpOption, DhcpPacket, DhcpRepr, Event,
    Lease, MAX_DNS_SERVER_COUNT, OptionsError, RetryConfig, ServerInfo, Socket,
};
