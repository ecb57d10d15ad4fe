//! The address that a packet is sent from (RFC 6724, sections 4 and 5, rules 1, 2 and 8; RFC 1122, section 3.3.4.3).
ghost use Rattle.std.specs.Prelude.{◌≡◌, ◌<◌, ◌≤◌, not, length, find, position, None};
ghost use Rattle.std.specs.List.{fold};
ghost use Rattle.std.specs.Option.{ForSome};
ghost use Rattle.ip_wire.specs.AddressTests.{is_in_cidr};
ghost use Rattle.ip_wire.specs.IpAddress.TheVariants as Address;
ghost use Rattle.iface_tables.specs.Best.{at_index, better_of};
ghost use Rattle.iface_tables.specs.Source.{first_v4, source_v4, first_v6, may_send, candidate, differs, falls_short, distance, uncommon, better_for};
ghost use Rattle.iface_tables.specs.Source.{best_source, source_v6, source_for, is_v4, is_v6, is_abroad, first_abroad};

use ip_wire::{IpAddress, IpCidr, Ipv4Address, Ipv6Address, Ipv6Cidr};

/// The first IPv4 address.
pub fn first_ipv4(addresses: &[IpCidr]) -> Option<Ipv4Address>
    ensures { result ≡ first_v4 addresses.now }
{
    match cidr_at(addresses, index_of_ipv4(addresses)) {
        Some(IpCidr::Ipv4(cidr)) => Some(cidr.address),
        _ => None,
    }
}

/// The first IPv6 address.
pub fn first_ipv6(addresses: &[IpCidr]) -> Option<Ipv6Address>
    ensures { result ≡ first_v6 addresses.now }
{
    match cidr_at(addresses, index_of_ipv6(addresses)) {
        Some(IpCidr::Ipv6(cidr)) => Some(cidr.address),
        _ => None,
    }
}

/// The first IPv6 address that isn't ::1.
fn first_abroad(addresses: &[IpCidr]) -> Option<Ipv6Address>
    ensures { result ≡ first_abroad addresses.now }
{
    match cidr_abroad(addresses) {
        Some(IpCidr::Ipv6(cidr)) => Some(cidr.address),
        _ => None,
    }
}

fn cidr_abroad(addresses: &[IpCidr]) -> Option<IpCidr>
    ensures { result ≡ find is_abroad addresses.now }
{
    addresses.iter().copied().find(|cidr| is_abroad(cidr))
}

/// The block at this place, if one is named.
fn cidr_at(addresses: &[IpCidr], index: Option<usize>) -> Option<IpCidr>
    requires { ForSome index (λ at. at < length addresses.now) }
    ensures { result ≡ at_index index addresses.now }
{
    match index {
        Some(at) => Some(addresses[at]),
        None => None,
    }
}

fn index_of_ipv4(addresses: &[IpCidr]) -> Option<usize>
    ensures index { result ≡ position is_v4 addresses.now }
    ensures in_range { ForSome result (λ at. at < length addresses.now) }
{
    addresses.iter().position(|cidr| is_ipv4(cidr))
}

fn index_of_ipv6(addresses: &[IpCidr]) -> Option<usize>
    ensures index { result ≡ position is_v6 addresses.now }
    ensures in_range { ForSome result (λ at. at < length addresses.now) }
{
    addresses.iter().position(|cidr| !is_ipv4(cidr))
}

fn is_abroad(cidr: &IpCidr) -> bool
    ensures { result ≡ is_abroad cidr.now }
{
    match cidr {
        IpCidr::Ipv4(_) => false,
        IpCidr::Ipv6(cidr) => !cidr.address.is_loopback(),
    }
}

fn is_ipv4(cidr: &IpCidr) -> bool
    ensures v4 { result ≡ is_v4 cidr.now }
    ensures v6 { not result ≡ is_v6 cidr.now }
{
    match cidr {
        IpCidr::Ipv4(_) => true,
        IpCidr::Ipv6(_) => false,
    }
}

/// Where the first block stands that the address is in.
fn index_around(addresses: &[IpCidr], address: &IpAddress) -> Option<usize>
    ensures index { result ≡ position (λ b. is_in_cidr b address.now) addresses.now }
    ensures in_range { ForSome result (λ at. at < length addresses.now) }
{
    addresses
        .iter()
        .position(|cidr| cidr.contains_addr(address))
}

/// The source of an IPv4 packet: the first address whose network the destination is in, else the first.
pub fn source_ipv4(addresses: &[IpCidr], destination: &Ipv4Address) -> Option<Ipv4Address>
    ensures { result ≡ source_v4 addresses.now destination.now }
{
    let index = index_around(addresses, &IpAddress::Ipv4(*destination));
    match cidr_at(addresses, index) {
        Some(IpCidr::Ipv4(cidr)) => Some(cidr.address),
        Some(IpCidr::Ipv6(_)) => None,
        None => first_ipv4(addresses),
    }
}

/// The source of an IPv6 packet.
pub fn source_ipv6(addresses: &[IpCidr], destination: &Ipv6Address) -> Ipv6Address
    ensures { result ≡ source_v6 addresses.now destination.now }
{
    if destination.is_loopback() {
        return Ipv6Address::LOCALHOST;
    }
    match best_source(addresses, destination) {
        Some(cidr) => cidr.address,
        None => first_abroad(addresses).unwrap_or(Ipv6Address::LOCALHOST),
    }
}

/// The source of a packet, if there is one.
pub fn source_for(addresses: &[IpCidr], destination: &IpAddress) -> Option<IpAddress>
    ensures { result ≡ source_for addresses.now destination.now }
{
    if destination.is_unspecified() {
        return None;
    }
    match destination {
        IpAddress::Ipv4(destination) => match source_ipv4(addresses, destination) {
            Some(source) => Some(IpAddress::Ipv4(source)),
            None => None,
        },
        IpAddress::Ipv6(destination) => Some(IpAddress::Ipv6(source_ipv6(addresses, destination))),
    }
}

/// The best of the addresses that may be the source, the first of equal ones.
fn best_source(addresses: &[IpCidr], destination: &Ipv6Address) -> Option<Ipv6Cidr>
    ensures { result ≡ best_source addresses.now destination.now }
{
    best_in_turn(addresses, destination)
}

/// What is found by one pass from the first address to the last.
fn best_in_turn(addresses: &[IpCidr], destination: &Ipv6Address) -> Option<Ipv6Cidr>
    ensures { result ≡ fold (λ best address. better_of (better_for destination.now) best (candidate destination.now address)) None addresses.now }
{
    addresses.iter().fold(None, |best, address| {
        better(best, candidate(address, destination), destination)
    })
}

/// The block's address, if it may be the source.
fn candidate(address: &IpCidr, destination: &Ipv6Address) -> Option<Ipv6Cidr>
    ensures { result ≡ candidate destination.now address.now }
{
    match address {
        IpCidr::Ipv4(_) => None,
        IpCidr::Ipv6(cidr) => {
            if may_send(cidr, destination) {
                Some(*cidr)
            } else {
                None
            }
        }
    }
}

/// Whether the block's address may be the source: not ::1, and a link-local destination is reached from a link-local address alone.
fn may_send(cidr: &Ipv6Cidr, destination: &Ipv6Address) -> bool
    ensures { result ≡ may_send destination.now cidr.now }
{
    !cidr.address.is_unspecified()
        && !cidr.address.is_multicast()
        && !cidr.address.is_loopback()
        && (!destination.is_link_local() || cidr.address.is_link_local())
}

/// The better of two candidates, the first of equal ones.
fn better(
    best: Option<Ipv6Cidr>,
    next: Option<Ipv6Cidr>,
    destination: &Ipv6Address,
) -> Option<Ipv6Cidr>
    ensures { result ≡ better_of (better_for destination.now) best next }
{
    match (best, next) {
        (best, None) => best,
        (None, Some(next)) => Some(next),
        (Some(best), Some(next)) => {
            Some(if is_better(&next, &best, destination) {
                next
            } else {
                best
            })
        }
    }
}

/// Whether the first candidate is better by the first rule that tells the two apart.
fn is_better(one: &Ipv6Cidr, other: &Ipv6Cidr, destination: &Ipv6Address) -> bool
    ensures { result ≡ better_for destination.now one.now other.now }
{
    let (a, b) = (rank_of(one, destination), rank_of(other, destination));
    if a.differs != b.differs {
        return a.differs < b.differs;
    }
    if a.falls_short != b.falls_short {
        return a.falls_short < b.falls_short;
    }
    if a.distance != b.distance {
        return a.distance < b.distance;
    }
    a.uncommon < b.uncommon
}

/// How a candidate fares by each rule in turn; the lower the better.
#[derive(Clone, Copy, Debug)]
struct Rank {
    differs: u8,
    falls_short: u8,
    distance: u8,
    uncommon: u8,
}

fn rank_of(cidr: &Ipv6Cidr, destination: &Ipv6Address) -> Rank
    ensures differs { result.differs ≡ differs destination.now cidr.now }
    ensures falls_short { result.falls_short ≡ falls_short destination.now cidr.now }
    ensures distance { result.distance ≡ distance destination.now cidr.now }
    ensures uncommon { result.uncommon ≡ uncommon destination.now cidr.now }
{
    let (local, wanted) = (
        cidr.address.x_multicast_scope(),
        destination.x_multicast_scope(),
    );
    Rank {
        differs: if cidr.address.0 == destination.0 {
            0
        } else {
            1
        },
        falls_short: if local < wanted { 1 } else { 0 },
        distance: local.saturating_sub(wanted) + wanted.saturating_sub(local),
        uncommon: 128
            - cidr
                .address
                .common_prefix_len(destination)
                .min(cidr.prefix_len()),
    }
}
