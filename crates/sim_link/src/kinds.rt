//! What the words of a line name.
use ip_wire::IpVersion;

/// One of the two hosts.
#[derive(Clone, Copy, Debug, PartialEq, Eq)]
pub enum Side {
    A,
    B,
}

/// The kinds of sockets.
#[derive(Clone, Copy)]
pub enum SocketKind {
    Udp,
    Icmp,
    Raw,
    Tcp,
}

/// A socket that a script asks for.
#[derive(Clone, Copy, Debug, PartialEq, Eq)]
pub enum SocketSpec {
    Udp(QueueSizes),
    Icmp(QueueSizes),
    /// The version of IP and the number of the protocol that it takes; without one, any.
    Raw(Option<IpVersion>, Option<u8>, QueueSizes),
    Tcp(StreamSizes),
}

/// How many datagrams and how many bytes of payload the queues of a socket hold.
#[derive(Clone, Copy, Debug, PartialEq, Eq)]
pub struct QueueSizes {
    pub receive_packets: usize,
    pub receive_bytes: usize,
    pub send_packets: usize,
    pub send_bytes: usize,
}

/// How many bytes the buffers of a TCP socket hold.
#[derive(Clone, Copy, Debug, PartialEq, Eq)]
pub struct StreamSizes {
    pub receive_bytes: usize,
    pub send_bytes: usize,
}
