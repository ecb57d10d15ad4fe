//! Routes by their prefixes, found by a key and not by a look at all.
ghost use Rattle.std.specs.Prelude.{◌≡◌, ◌≤◌, ◌<◌, ◌/◌, ◌^◌, ◌-◌, if◌then◌else◌, Some, length};
ghost use Rattle.ip_wire.specs.Address.{v4_number, v6_number};
ghost use Rattle.iface_tables.specs.Route.{best_route};
ghost use Rattle.iface_tables.specs.Prefixes.{sum_of_halves, prefix_key, route_key, AreKeyed, AreLengths, serves_by, IsLast, IsLongestBelow, longer_below};

use crate::route::Route;
use arrayvec::ArrayVec;
use base_index::Index;
use byteorder::{BigEndian, ByteOrder};
use ip_wire::{IpAddress, Ipv4Address, Ipv6Address};
use net_base::Instant;

/// How many prefix lengths there are: 0 to 128.
pub(crate) const LENGTHS: usize = 129;

/// 2 to the power of 64.
const HALF: u128 = 1 << 64;

/// Tells the prefixes of the routes: each one's key, and which lengths there are.
pub fn tell_prefixes(routes: &[Route], keys: &mut Index, lengths: &mut ArrayVec<u8, LENGTHS>)
    requires { length routes.now ≤ length keys.old }
    ensures keyed { AreKeyed routes.now keys.new }
    ensures room { length keys.new ≡ length keys.old }
    ensures lengths { AreLengths routes.now lengths.new.items }
{
    key_routes(routes, keys);
    *lengths = lengths_of(routes);
}

/// Gives the places of the routes the keys of their prefixes.
fn key_routes(routes: &[Route], keys: &mut Index)
    requires { length routes.now ≤ length keys.old }
    ensures keyed { AreKeyed routes.now keys.new }
    ensures room { length keys.new ≡ length keys.old }
{
    for at in 0..routes.len() {
        let _ = keys.note(at, route_key(&routes[at]));
    }
}

/// The prefix lengths that the routes have, the longest first.
fn lengths_of(routes: &[Route]) -> ArrayVec<u8, LENGTHS>
    ensures { AreLengths routes.now result.items }
{
    let mut lengths = ArrayVec::new();
    let mut bound = LENGTHS as u8;
    while let Some(longest) = longest_below(routes, bound) {
        lengths.push(longest);
        bound = longest;
    }
    lengths
}

/// The longest prefix shorter than this.
fn longest_below(routes: &[Route], bound: u8) -> Option<u8>
    ensures { IsLongestBelow bound (length routes.now) routes.now result }
{
    let mut longest = None;
    for at in 0..routes.len() {
        longest = longer_below(longest, routes[at].cidr.prefix_len(), bound);
    }
    longest
}

/// The longer one of the two, where the other is shorter than the bound.
fn longer_below(longest: Option<u8>, other: u8, bound: u8) -> Option<u8>
    ensures { result ≡ longer_below longest other bound }
{
    match longest {
        Some(longest) if other < bound && longest < other => Some(other),
        None if other < bound => Some(other),
        longest => longest,
    }
}

/// The last of the routes with the longest prefix that serve this destination: for each prefix length, the longest first, those of the
/// destination's key are looked at.
pub fn best_by_prefix(
    routes: &[Route],
    keys: &Index,
    lengths: &[u8],
    address: &IpAddress,
    timestamp: Instant,
) -> Option<Route>
    requires keyed { AreKeyed routes.now keys.now }
    requires lengths { AreLengths routes.now lengths.now }
    ensures { result ≡ best_route routes.now address.now timestamp }
{
    for i in 0..lengths.len() {
        let found = last_by(routes, keys, lengths[i], address, timestamp);
        if found.is_some() {
            return found;
        }
    }
    None
}

/// The last route with a prefix of this length that serves this destination.
fn last_by(
    routes: &[Route],
    keys: &Index,
    len: u8,
    address: &IpAddress,
    timestamp: Instant,
) -> Option<Route>
    requires { AreKeyed routes.now keys.now }
    ensures { IsLast (serves_by len address.now timestamp) routes.now result }
{
    let mut found = None;
    let mut link = keys.first(prefix_key(len, address));
    while let Some(at) = link {
        if at >= routes.len() {
            return found;
        }
        found = later(found, &routes[at], len, address, timestamp);
        link = keys.next(at);
    }
    found
}

/// The route, if it has a prefix of this length and serves this destination, or else the one before it.
fn later(
    found: Option<Route>,
    route: &Route,
    len: u8,
    address: &IpAddress,
    timestamp: Instant,
) -> Option<Route>
    ensures { result ≡ (if serves_by len address.now timestamp route.now then Some route.now else found) }
{
    if route.serves(address, timestamp) && route.cidr.prefix_len() == len {
        Some(*route)
    } else {
        found
    }
}

/// The key of a route's prefix.
fn route_key(route: &Route) -> u64
    ensures { result ≡ route_key route.now }
{
    prefix_key(route.cidr.prefix_len(), &route.cidr.address())
}

/// The first bits of the address as a key.
fn prefix_key(len: u8, address: &IpAddress) -> u64
    ensures { result ≡ prefix_key len address.now }
{
    match address {
        IpAddress::Ipv4(address) => first_bits_v4(address, len),
        IpAddress::Ipv6(address) => sum_of_halves(first_bits_v6(address, len)),
    }
}

/// The first bits of an IPv4 address, the whole where it has no more.
#[tactic(auto, unfolding(wire_address::specs::Address::v4_number))]
fn first_bits_v4(address: &Ipv4Address, len: u8) -> u64
    ensures { result ≡ v4_number address.now / 2 ^ (32 - len) }
{
    let bits = BigEndian::read_u32(&address.0);
    u64::from(bits) >> 32u8.saturating_sub(len)
}

/// The same of an IPv6 address.
#[tactic(auto, unfolding(wire_address::specs::Address::v6_number))]
fn first_bits_v6(address: &Ipv6Address, len: u8) -> u128
    ensures { result ≡ v6_number address.now / 2 ^ (128 - len) }
{
    leading_bits(BigEndian::read_u128(&address.0), len)
}

/// The first bits of a number of 128.
fn leading_bits(bits: u128, count: u8) -> u128
    ensures { result ≡ bits / 2 ^ (128 - count) }
{
    if count == 0 {
        0
    } else {
        bits >> 128u8.saturating_sub(count)
    }
}

/// The sum of a number's 64-bit halves, without its carry.
fn sum_of_halves(number: u128) -> u64
    ensures { result ≡ sum_of_halves number }
{
    ((number / HALF + number % HALF) % HALF) as u64
}
