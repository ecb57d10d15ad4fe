//! What a host begins with.
ghost use Rattle.std.specs.Prelude.{◌≡◌, ◌≤◌, ◌+◌, length, slice_range, IfSome};
ghost use Rattle.ip_wire.specs.Cidr.{cidr_address, cidr_prefix_len};
ghost use Rattle.ip_wire.specs.IpAddress.TheVariants.{Ipv4, Ipv6};
ghost use Rattle.app_tun_services.specs.Settings.{settings_in, hardware_in, key_in, medium_of, HasPrefixes};

use byteorder::{ByteOrder, LittleEndian};
use ip_wire::{EthernetAddress, HardwareAddress, IpAddress, IpCidr, Ipv4Address, Ipv6Address};
use net_base::Medium;

/// How many bytes settings have: a medium, a hardware address, of either family an address, how long its network's prefix is and a
/// router, and a seed.
const SETTINGS_LEN: usize = 57;

/// And how many with a key after them.
const KEYED_LEN: usize = 73;

/// What a host begins with. In bytes: 0 for a link of bare IP packets, 1 for one of Ethernet frames; six of the hardware address, which
/// count on the latter alone; four of the IPv4 address, one of its prefix, four of the router; sixteen of the IPv6 address, one of its
/// prefix, sixteen of the router; and eight of the seed with the lowest first. Sixteen more, where they come, are the key of first
/// numbers. A host without addresses of a family has the unspecified one.
#[derive(Clone, Copy, Debug)]
pub struct Settings {
    /// `Ip` on a link of bare IP packets.
    pub hardware: HardwareAddress,
    pub ipv4: Ipv4Address,
    pub ipv4_prefix_len: u8,
    pub ipv4_router: Ipv4Address,
    pub ipv6: Ipv6Address,
    pub ipv6_prefix_len: u8,
    pub ipv6_router: Ipv6Address,
    /// What its random words begin with. Who can guess it can guess where its streams begin, unless there is a key.
    pub seed: u64,
    /// The key of TCP's initial sequence numbers (RFC 6528).
    pub isn_key: Option<[u8; 16]>,
}

/// So many bytes from a slot on.
fn octets_at<const N: usize>(bytes: &[u8], at: usize) -> [u8; N]
    requires { at + N ≤ length bytes.now }
    ensures { result ≡ slice_range bytes.now at (at + N) }
{
    let mut octets = [0; N];
    octets.copy_from_slice(&bytes[at..at + N]);
    octets
}

/// The hardware address, if the first byte names a medium.
fn hardware_of(bytes: &[u8]) -> Option<HardwareAddress>
    requires { 7 ≤ length bytes.now }
    ensures { result ≡ hardware_in bytes.now }
{
    match bytes[0] {
        0 => Some(HardwareAddress::Ip),
        1 => Some(HardwareAddress::Ethernet(EthernetAddress(octets_at(bytes, 1)))),
        _ => None,
    }
}

/// The sixteen bytes after the others, if they came.
fn key_of(bytes: &[u8]) -> Option<[u8; 16]>
    ensures { result ≡ key_in bytes.now }
{
    if bytes.len() == KEYED_LEN {
        Some(octets_at(bytes, SETTINGS_LEN))
    } else {
        None
    }
}

impl Settings {
    /// The settings in these bytes, if there are so many, the medium is one, and each prefix isn't longer than an address.
    pub fn read(bytes: &[u8]) -> Option<Settings>
        ensures settings { result ≡ settings_in bytes.now }
        ensures prefixes { IfSome result HasPrefixes }
    {
        if bytes.len() != SETTINGS_LEN && bytes.len() != KEYED_LEN {
            return None;
        }
        if bytes[11] > 32 || bytes[32] > 128 {
            return None;
        }
        let hardware = hardware_of(bytes)?;
        Some(Settings {
            hardware,
            ipv4: Ipv4Address(octets_at(bytes, 7)),
            ipv4_prefix_len: bytes[11],
            ipv4_router: Ipv4Address(octets_at(bytes, 12)),
            ipv6: Ipv6Address(octets_at(bytes, 16)),
            ipv6_prefix_len: bytes[32],
            ipv6_router: Ipv6Address(octets_at(bytes, 33)),
            seed: LittleEndian::read_u64(&bytes[49..57]),
            isn_key: key_of(bytes),
        })
    }

    /// The medium of the link.
    pub fn medium(&self) -> Medium
        ensures { result ≡ medium_of self.now.hardware }
    {
        match self.hardware {
            HardwareAddress::Ip => Medium::Ip,
            HardwareAddress::Ethernet(_) => Medium::Ethernet,
        }
    }

    /// The own IPv4 address with its network.
    pub fn own_ipv4(&self) -> IpCidr
        requires { HasPrefixes self.now }
        ensures address { cidr_address result ≡ Ipv4 self.now.ipv4 }
        ensures prefix_len { cidr_prefix_len result ≡ self.now.ipv4_prefix_len }
    {
        IpCidr::new(IpAddress::Ipv4(self.ipv4), self.ipv4_prefix_len)
    }

    /// The own IPv6 address with its network.
    pub fn own_ipv6(&self) -> IpCidr
        requires { HasPrefixes self.now }
        ensures address { cidr_address result ≡ Ipv6 self.now.ipv6 }
        ensures prefix_len { cidr_prefix_len result ≡ self.now.ipv6_prefix_len }
    {
        IpCidr::new(IpAddress::Ipv6(self.ipv6), self.ipv6_prefix_len)
    }
}
