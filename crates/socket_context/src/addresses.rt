//! Tests of addresses whose contracts are the truth values that definitions speak of.
ghost use Rattle.std.specs.Prelude.{◌≡◌};
ghost use Rattle.socket_context.specs.Addresses.{is_unspecified, is_multicast, is_same_address, are_of_one_family};

use ip_wire::IpAddress;

/// Whether this is the unspecified address of its family.
pub fn is_unspecified(address: &IpAddress) -> bool
    ensures { result ≡ is_unspecified address.now }
{
    address.is_unspecified()
}

/// Whether this is the address of a group.
pub fn is_multicast(address: &IpAddress) -> bool
    ensures { result ≡ is_multicast address.now }
{
    address.is_multicast()
}

/// Whether the two are one address.
pub fn is_same_address(one: &IpAddress, other: &IpAddress) -> bool
    ensures { result ≡ is_same_address one.now other.now }
{
    match (one, other) {
        (IpAddress::Ipv4(one), IpAddress::Ipv4(other)) => one.octets() == other.octets(),
        (IpAddress::Ipv6(one), IpAddress::Ipv6(other)) => one.octets() == other.octets(),
        _ => false,
    }
}

/// Whether the two are of one family.
pub fn are_of_one_family(one: &IpAddress, other: &IpAddress) -> bool
    ensures { result ≡ are_of_one_family one.now other.now }
{
    one.version() == other.version()
}
