//! The events of two hosts and their link.
use crate::at_link::history::owned::Bytes;
use arrayvec::ArrayVec;
use ip_wire::{EthernetAddress, IpAddress, IpCidr, IpEndpoint, TcpTimestampGenerator};
use net_base::{Duration, Instant};
use tcp_block::CongestionControl;

/// One of the two hosts.
#[derive(Clone, Copy, Debug, PartialEq, Eq)]
pub enum Side {
    A,
    B,
}

/// A setting of a TCP socket.
#[derive(Clone, Copy, Debug, PartialEq, Eq)]
pub enum TcpSetting {
    /// The user timeout.
    Timeout(Option<Duration>),
    AckDelay(Option<Duration>),
    KeepAlive(Option<Duration>),
    NagleEnabled(bool),
    /// A limit of 0 counts as none.
    HopLimit(Option<u8>),
    CongestionControl(CongestionControl),
    TsvalGenerator(Option<TcpTimestampGenerator>),
    /// Whether the answer to a SYN waits.
    PauseSynack(bool),
}

/// What happens: a call of an application on a host's socket, a setting or a poll of a host, or an act of the link. A socket is named by
/// its slot in its host's set, a frame by its slot among those that its host sent.
#[derive(Drop)]
pub enum Event {
    /// Opens a TCP socket passively at a local port.
    Listen(Side, usize, u16),
    /// Opens a TCP socket actively to an endpoint, from a local port.
    Connect(Side, usize, IpEndpoint, u16),
    /// Queues bytes at a TCP socket.
    Send(Side, usize, Bytes),
    /// Reads at most so many bytes from a TCP socket.
    Recv(Side, usize, usize),
    /// Closes a TCP or a UDP socket.
    Close(Side, usize),
    /// Aborts a TCP connection.
    Abort(Side, usize),
    /// Asks for the state of a TCP socket.
    State(Side, usize),
    TcpSetting(Side, usize, TcpSetting),
    /// Binds a UDP socket to a local port.
    Bind(Side, usize, u16),
    /// Binds an ICMP socket to an identifier.
    Ident(Side, usize, u16),
    /// Queues a datagram for an endpoint.
    SendTo(Side, usize, IpEndpoint, Bytes),
    /// Queues an ICMP message for an address.
    SendIcmp(Side, usize, IpAddress, Bytes),
    /// Queues an IP packet.
    SendRaw(Side, usize, Bytes),
    /// Reads one datagram, message or packet of at most so many bytes.
    RecvFrom(Side, usize, usize),
    HardwareAddr(Side, EthernetAddress),
    /// The host's addresses, in place of those that it had.
    Addrs(Side, ArrayVec<IpCidr, 4>),
    /// A default route by this router.
    Route(Side, IpAddress),
    AnyIp(Side, bool),
    ReassemblyTimeout(Side, Duration),
    /// Polls a host at an instant, with a budget of frames taken and of passes over the sockets.
    Poll(Side, Instant, u16),
    /// Asks a host at an instant when it wants to be polled.
    PollAt(Side, Instant),
    /// Hands a sent frame to the other host, with padding after it.
    Deliver(Side, usize, Bytes),
    /// Hands a sent frame to the other host with the word at this place of its TCP segment exchanged, and padding after it.
    Damage(Side, usize, usize, u16, Bytes),
    /// Hands bytes to a host.
    Noise(Side, Bytes),
    /// Room for so many frames more in a host's device.
    Room(Side, usize),
    /// Cuts a sent frame in two at this place of its payload; the fragments join the host's sent frames.
    Cut(Side, usize, usize),
}
