//! What an option of an advertisement says.
ghost use Rattle.std.specs.Prelude.{◌≡◌, ◌+◌, ◌*◌, ◌<◌, ◌≤◌, length, slice_range};
ghost use Rattle.wire_router.specs.RouterOption.{option_of, prefix_of, server_in, prefix_inside, IsPrefix};

use wire_address::network_order::read_u32;
use wire_address::{EthernetAddress, Ipv6Address};

const SOURCE_LINK_LAYER_ADDR: u8 = 1;

const PREFIX_INFORMATION: u8 = 3;

const MTU: u8 = 5;

const NONCE: u8 = 14;

const RECURSIVE_DNS_SERVER: u8 = 25;

const ADDRESS_LEN: usize = 16;

/// A prefix of the link, or of addresses (RFC 4861, section 4.6.2).
#[derive(Clone, Copy, Debug, PartialEq, Eq)]
pub struct PrefixInformation {
    /// In bits.
    pub prefix_len: u8,
    /// The addresses of the prefix are neighbours.
    pub on_link: bool,
    /// Hosts may make addresses of the prefix (RFC 4862).
    pub addrconf: bool,
    /// In seconds; all ones for no end.
    pub valid_lifetime: u32,
    /// In seconds; all ones for no end.
    pub preferred_lifetime: u32,
    pub prefix: Ipv6Address,
}

/// What an option says, but for servers and nonces, which are the bytes of the option.
#[derive(Clone, Copy, Debug, PartialEq, Eq)]
pub enum RouterOption {
    SourceLinkLayerAddr(EthernetAddress),
    PrefixInformation(PrefixInformation),
    /// The MTU of the link (RFC 4861, section 4.6.4).
    Mtu(u32),
    /// Servers of names (RFC 8106, section 5.1): for so many seconds, so many of them.
    RecursiveDnsServers { lifetime: u32, count: usize },
    /// By which a host knows its own solicitation again (RFC 3971, section 5.3.2; RFC 7527).
    Nonce,
    /// Another one, or one of another length than its type has: it is passed over.
    Other,
}

impl RouterOption {
    /// What the option of this type and of these bytes after its length says.
    pub fn of(option_type: u8, inside: &[u8]) -> RouterOption
        ensures { result ≡ option_of option_type inside.now }
    {
        match option_type {
            SOURCE_LINK_LAYER_ADDR if inside.len() == 6 => {
                RouterOption::SourceLinkLayerAddr(EthernetAddress::from_bytes(inside))
            }
            PREFIX_INFORMATION if inside.len() == 30 => {
                RouterOption::PrefixInformation(PrefixInformation::read(inside))
            }
            MTU if inside.len() == 6 => RouterOption::Mtu(read_u32(inside, 2)),
            RECURSIVE_DNS_SERVER if inside.len() >= 22 && inside.len() % ADDRESS_LEN == 6 => {
                RouterOption::RecursiveDnsServers {
                    lifetime: read_u32(inside, 2),
                    count: inside.len() / ADDRESS_LEN,
                }
            }
            NONCE => RouterOption::Nonce,
            _ => RouterOption::Other,
        }
    }

    /// The server of names at this index of an option's bytes.
    pub fn dns_server(inside: &[u8], index: usize) -> Ipv6Address
        requires { 6 + 16 * index + 16 ≤ length inside.now }
        ensures { result ≡ server_in inside.now index }
    {
        let at = 6 + ADDRESS_LEN * index;
        let mut octets = [0; 16];
        octets.copy_from_slice(&inside[at..at + ADDRESS_LEN]);
        Ipv6Address(octets)
    }
}

impl PrefixInformation {
    /// The prefix in the bytes of an option.
    fn read(inside: &[u8]) -> PrefixInformation
        requires { length inside.now ≡ 30 }
        ensures { result ≡ prefix_of inside.now }
    {
        let mut octets = [0; 16];
        octets.copy_from_slice(&inside[14..30]);
        PrefixInformation {
            prefix_len: inside[0],
            on_link: inside[1] / 128 == 1,
            addrconf: inside[1] / 64 % 2 == 1,
            valid_lifetime: read_u32(inside, 2),
            preferred_lifetime: read_u32(inside, 6),
            prefix: Ipv6Address(octets),
        }
    }

    /// The option with this prefix, as it is sent.
    pub fn to_bytes(&self) -> [u8; 32]
        ensures { result ≡ prefix_inside self.now }
    {
        let mut bytes = [0; 32];
        let on_link = if self.on_link { 128 } else { 0 };
        let addrconf = if self.addrconf { 64 } else { 0 };
        let (front, prefix) = bytes.split_at_mut(16);
        let (head, times) = front.split_at_mut(4);
        head.copy_from_slice(&[PREFIX_INFORMATION, 4, self.prefix_len, on_link + addrconf]);
        let (valid, later) = times.split_at_mut(4);
        valid.copy_from_slice(&self.valid_lifetime.to_be_bytes());
        let (preferred, _reserved) = later.split_at_mut(4);
        preferred.copy_from_slice(&self.preferred_lifetime.to_be_bytes());
        prefix.copy_from_slice(&self.prefix.0);
        bytes
    }
}
