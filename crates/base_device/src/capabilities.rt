//! What a device says of itself: what its frames are, how long they may be, and who handles checksums.
ghost use Rattle.std.specs.Prelude.{◌≡◌, ◌≤◌, Some};
ghost use Rattle.base_device.specs.Capabilities.{verifies, computes, all_checksums, ip_mtu, fragment_size, medium_text};

use std::fmt;

/// The pieces of a cut IPv4 packet, but the last, hold a multiple of so many bytes (RFC 791,
/// section 3.2).
pub const IPV4_FRAGMENT_PAYLOAD_ALIGNMENT: usize = 8;

/// The length of an Ethernet header: two addresses of 6 bytes, and the ethertype.
const ETHERNET_HEADER_LEN: usize = 14;

/// What a device's frames are.
#[derive(Clone, Copy, Debug, PartialEq, Eq, Default)]
pub enum Medium {
    /// Ethernet II frames, whose hosts are found by ARP and neighbour discovery.
    #[default]
    Ethernet,
    /// IP packets with nothing before them.
    Ip,
}

impl fmt::Display for Medium {
    ghost output = { λ medium. Some (medium_text medium) };

    fn fmt<W: fmt::Write>(&self, f: &mut fmt::Formatter<W>) -> fmt::Result {
        match self {
            Medium::Ethernet => write!(f, "Ethernet"),
            Medium::Ip => write!(f, "IP"),
        }
    }
}

/// On which way the stack handles a checksum; the device is left to handle it on the other.
#[derive(Clone, Copy, Debug, PartialEq, Eq, Default)]
pub enum Checksum {
    /// Verified in what is received, computed in what is sent.
    #[default]
    Both,
    /// Verified in what is received.
    Rx,
    /// Computed in what is sent.
    Tx,
    /// Neither.
    None,
}

impl Checksum {
    /// Whether the stack verifies this checksum in what it receives.
    pub fn rx(&self) -> bool
        ensures { result ≡ verifies self.now }
    {
        match self {
            Checksum::Both | Checksum::Rx => true,
            Checksum::Tx | Checksum::None => false,
        }
    }

    /// Whether the stack computes this checksum in what it sends.
    pub fn tx(&self) -> bool
        ensures { result ≡ computes self.now }
    {
        match self {
            Checksum::Both | Checksum::Tx => true,
            Checksum::Rx | Checksum::None => false,
        }
    }
}

/// Which checksums the stack handles itself, for each protocol. By default all, both ways.
#[derive(Clone, Copy, Debug, PartialEq, Eq, Default)]
pub struct ChecksumCapabilities {
    pub ipv4: Checksum,
    pub udp: Checksum,
    pub tcp: Checksum,
    pub icmpv4: Checksum,
    pub icmpv6: Checksum,
}

impl ChecksumCapabilities {
    /// No checksum is verified or computed.
    pub fn ignored() -> ChecksumCapabilities
        ensures { result ≡ all_checksums Checksum.None }
    {
        ChecksumCapabilities {
            ipv4: Checksum::None,
            udp: Checksum::None,
            tcp: Checksum::None,
            icmpv4: Checksum::None,
            icmpv6: Checksum::None,
        }
    }
}

/// What a device says of itself.
#[derive(Clone, Copy, Debug, PartialEq, Eq, Default)]
pub struct DeviceCapabilities {
    pub medium: Medium,
    /// The longest frame, in bytes, with the Ethernet header where there is one.
    pub max_transmission_unit: usize,
    pub checksum: ChecksumCapabilities,
}

impl DeviceCapabilities {
    /// The longest IP packet that a frame holds: on Ethernet 14 bytes less than the frame, and 0
    /// where the frame couldn't hold its header.
    pub fn ip_mtu(&self) -> usize
        ensures { result ≡ ip_mtu self.now }
    {
        match self.medium {
            Medium::Ethernet => self
                .max_transmission_unit
                .saturating_sub(ETHERNET_HEADER_LEN),
            Medium::Ip => self.max_transmission_unit,
        }
    }

    /// The most payload that a piece of a cut IPv4 packet holds after a header of so many bytes.
    pub fn max_ipv4_fragment_size(&self, ip_header_len: usize) -> usize
        requires { ip_header_len ≤ ip_mtu self.now }
        ensures { result ≡ fragment_size self.now ip_header_len }
    {
        let payload = self.ip_mtu() - ip_header_len;
        payload - payload % IPV4_FRAGMENT_PAYLOAD_ALIGNMENT
    }
}
