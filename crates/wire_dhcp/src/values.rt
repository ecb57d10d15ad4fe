//! What options hold, read.
ghost use Rattle.std.specs.Prelude.{◌≡◌, ℕ, ◌+◌, ◌^◌, ◌<◌, Option, List, length};
ghost use Rattle.wire_dhcp.specs.Options.{seen};
ghost use Rattle.wire_dhcp.specs.Values.{has_length, has_addresses, address_in, number16_in, number32_in, hardware_addr_in, servers_in, address_at};

use crate::repr::MAX_DNS_SERVER_COUNT;
use wire_address::network_order::{read_u16, read_u32};
use wire_address::{EthernetAddress, Ipv4Address};

/// Whether an option that is there has so many bytes.
pub(crate) fn has_length(length: usize, option: Option<&[u8]>) -> bool
    ensures { result ≡ has_length length (seen option.entry) }
{
    match option {
        None => true,
        Some(bytes) => bytes.len() == length,
    }
}

/// Whether an option that is there holds addresses, at least one.
pub(crate) fn has_addresses(option: Option<&[u8]>) -> bool
    ensures { result ≡ has_addresses (seen option.entry) }
{
    match option {
        None => true,
        Some(bytes) => 0 < bytes.len() && bytes.len() % 4 == 0,
    }
}

/// The first address of an option.
pub(crate) fn address_in(option: Option<&[u8]>) -> Option<Ipv4Address>
    ensures { result ≡ address_in (seen option.entry) }
{
    match option {
        None => None,
        Some(bytes) => address_at(bytes, 0),
    }
}

/// The number of two bytes.
pub(crate) fn number16_in(option: Option<&[u8]>) -> Option<u16>
    ensures { result ≡ number16_in (seen option.entry) }
{
    match option {
        None => None,
        Some(bytes) => {
            if bytes.len() == 2 {
                Some(read_u16(bytes, 0))
            } else {
                None
            }
        }
    }
}

/// The number of four bytes.
pub(crate) fn number32_in(option: Option<&[u8]>) -> Option<u32>
    ensures { result ≡ number32_in (seen option.entry) }
{
    match option {
        None => None,
        Some(bytes) => {
            if bytes.len() == 4 {
                Some(read_u32(bytes, 0))
            } else {
                None
            }
        }
    }
}

/// The Ethernet address after its hardware type.
pub(crate) fn hardware_addr_in(option: Option<&[u8]>) -> Option<EthernetAddress>
    ensures { result ≡ hardware_addr_in (seen option.entry) }
{
    match option {
        None => None,
        Some(bytes) => {
            if bytes.len() == 7 && bytes[0] == 1 {
                Some(EthernetAddress::from_bytes(&bytes[1..]))
            } else {
                None
            }
        }
    }
}

/// The first addresses of an option.
pub(crate) fn servers_in(option: Option<&[u8]>) -> [Option<Ipv4Address>; MAX_DNS_SERVER_COUNT]
    ensures { result ≡ servers_in (seen option.entry) }
{
    match option {
        None => [None; MAX_DNS_SERVER_COUNT],
        Some(bytes) => [
            address_at(bytes, 0),
            address_at(bytes, 4),
            address_at(bytes, 8),
        ],
    }
}

/// The address at an offset, if it is there.
fn address_at(bytes: &[u8], at: usize) -> Option<Ipv4Address>
    requires { at < 2 ^ 32 }
    ensures { result ≡ address_at bytes.now at }
{
    if at + 4 > bytes.len() {
        return None;
    }
    let mut octets = [0; 4];
    octets.copy_from_slice(&bytes[at..at + 4]);
    Some(Ipv4Address(octets))
}
