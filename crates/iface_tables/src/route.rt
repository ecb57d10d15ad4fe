//! Routes: which router a packet goes to whose destination is in none of the own networks (RFC 1812, section 5.2.4.3).
ghost use Rattle.std.specs.Prelude.{◌≡◌, ◌≤◌, ◌<◌, ◌↔◌, ◌||◌, nat_lt, [], ◌∷◌, ◌++◌, length, remove, reverse, position, slice_get, replicate, IsTrue, IsOk};
ghost use Rattle.std.specs.Prelude.{IfOk, OnOk, OnErr, IsSome, IfNone, is_some, Some, None, codes};
ghost use Rattle.std.specs.List.{fold};
ghost use Rattle.std.specs.Option.{ForSome};
ghost use Rattle.ip_wire.specs.IpAddress.TheVariants as Address;
ghost use Rattle.iface_tables.specs.Best.{at_index, first_that, better_of};
ghost use Rattle.iface_tables.specs.Route.{no_routes, is_expired, serves, serving, is_longer, best_route, router_of, is_gateway_v4, is_gateway_v6, IsGateway};
ghost use Rattle.iface_tables.specs.Route.{without_at, without, has_room, IsAdded};

use crate::indexed::index_for;
use crate::prefixes::{LENGTHS, best_by_prefix, tell_prefixes};
use arrayvec::ArrayVec;
use base_index::Index;
use ip_wire::{IpAddress, IpCidr, Ipv4Address, Ipv4Cidr, Ipv6Address, Ipv6Cidr};
use net_base::Instant;
use socket_context::addresses::are_of_one_family;
use std::alloc::{AllocError, Global};
use std::fmt;
use std::marker::Model;

/// Up to so many routes are all looked at, which takes no longer than a search by prefixes.
const FEW: usize = 2;

/// There is no room for another route.
#[derive(Clone, Copy, Debug, PartialEq, Eq)]
pub struct RouteTableFull;

impl fmt::Display for RouteTableFull {
    ghost output = { λ _. Some (codes "Route table full") };

    fn fmt<W: fmt::Write>(&self, f: &mut fmt::Formatter<W>) -> fmt::Result {
        write!(f, "Route table full")
    }
}

impl std::error::Error for RouteTableFull {}

/// A route: packets for this block go to this router.
#[derive(Clone, Copy, Debug)]
pub struct Route {
    pub cidr: IpCidr,
    pub via_router: IpAddress,
    /// Kept, and never read. `None` is forever.
    pub preferred_until: Option<Instant>,
    /// The last instant at which the route counts. `None` is forever.
    pub expires_at: Option<Instant>,
}

impl Route {
    /// The route of all IPv4 packets to this router, forever.
    pub fn new_ipv4_gateway(gateway: Ipv4Address) -> Route
        ensures { IsGateway result (replicate 4 0) (Address.Ipv4 gateway) }
    {
        Route {
            cidr: IpCidr::Ipv4(Ipv4Cidr::new(Ipv4Address::UNSPECIFIED, 0)),
            via_router: IpAddress::Ipv4(gateway),
            preferred_until: None,
            expires_at: None,
        }
    }

    /// The route of all IPv6 packets to this router, forever.
    pub fn new_ipv6_gateway(gateway: Ipv6Address) -> Route
        ensures { IsGateway result (replicate 16 0) (Address.Ipv6 gateway) }
    {
        Route {
            cidr: IpCidr::Ipv6(Ipv6Cidr::new(Ipv6Address::UNSPECIFIED, 0)),
            via_router: IpAddress::Ipv6(gateway),
            preferred_until: None,
            expires_at: None,
        }
    }

    /// Whether this is a route of all IPv4 packets.
    pub fn is_ipv4_gateway(&self) -> bool
        ensures { result ≡ is_gateway_v4 self.now }
    {
        match &self.cidr {
            IpCidr::Ipv4(cidr) => cidr.address.is_unspecified() && cidr.prefix_len == 0,
            IpCidr::Ipv6(_) => false,
        }
    }

    /// Whether this is a route of all IPv6 packets.
    pub fn is_ipv6_gateway(&self) -> bool
        ensures { result ≡ is_gateway_v6 self.now }
    {
        match &self.cidr {
            IpCidr::Ipv4(_) => false,
            IpCidr::Ipv6(cidr) => cidr.address.is_unspecified() && cidr.prefix_len == 0,
        }
    }

    /// Whether a packet may take this route at this instant.
    #[inline]
    pub(crate) fn serves(&self, address: &IpAddress, timestamp: Instant) -> bool
        ensures { result ≡ serves address.now timestamp self.now }
    {
        self.cidr.contains_addr(address)
            && !is_expired(self.expires_at, timestamp)
            && self.via_router.is_unicast()
            && are_of_one_family(&self.via_router, address)
    }
}

/// What an unused place holds in a table of places that are all filled.
impl Default for Route {
    ghost use Rattle.iface_tables.specs.Route.{IsBlank};

    ghost is_default = { IsBlank };

    fn default() -> Route {
        Route::new_ipv4_gateway(Ipv4Address::UNSPECIFIED)
    }
}

/// Routes, up to a number. Their memory is taken when the table is made. A route is found by a key of its prefix, once for each prefix length
/// that occurs, without a look at the others; a change of the table tells the prefixes of all again.
#[derive(Debug, Drop)]
pub struct Routes {
    storage: Vec<Route>,
    keys: Index,
    lengths: ArrayVec<u8, LENGTHS>,
}

impl Model for Routes {
    ghost use Rattle.std.specs.Prelude.{◌≤◌, length, vec_len, vec_capacity};
    ghost use Rattle.iface_tables.specs.Prefixes.{AreKeyed, AreLengths};
    ghost use Rattle.iface_tables.specs.Route.{RoutesValue};

    ghost Value = { RoutesValue };

    ghost view = { λ r. record { entries = r.storage.items; room = vec_capacity r.storage } };

    ghost invariant = { λ r. (vec_len r.storage ≤ vec_capacity r.storage) × (vec_capacity r.storage ≤ length r.keys)
        × AreKeyed r.storage.items r.keys × AreLengths r.storage.items r.lengths.items };
}

impl Routes {
    /// No routes, and room for so many.
    pub fn new(alloc: Global, count: usize) -> Result<Routes, AllocError>
        ensures { IfOk result (λ r. r ≡ no_routes count) }
    {
        let storage = Vec::with_capacity(alloc, count)?;
        let keys = index_for(alloc, count)?;
        Ok(Routes {
            storage,
            keys,
            lengths: ArrayVec::new(),
        })
    }

    /// The routes, in the order in which they were added.
    pub fn as_slice(&self) -> &[Route]
        ensures { result.now ≡ self.now.entries }
    {
        self.storage.as_slice()
    }

    /// How many routes there can be.
    pub fn room(&self) -> usize
        ensures { result ≡ self.now.room }
    {
        self.storage.capacity()
    }

    /// Adds a route after the others, if there is room.
    pub fn push(&mut self, route: Route) -> Result<(), RouteTableFull>
        ensures ok { IsOk result ↔ (length self.old.entries < self.old.room) }
        ensures added { OnOk result (self.new ≡ record self.old { entries = self.old.entries ++ route ∷ [] }) }
        ensures err { OnErr result (self.new ≡ self.old) }
    {
        match self.exchange(None, route) {
            Ok(_) => Ok(()),
            Err(error) => Err(error),
        }
    }

    /// Takes out the route at this place, if there is one.
    pub fn remove(&mut self, at: usize) -> Option<Route>
        ensures value { result ≡ slice_get self.old.entries at }
        ensures after { IsSome result → self.new ≡ record self.old { entries = remove self.old.entries at } }
        ensures none { IfNone result (self.new ≡ self.old) }
    {
        if at < self.storage.len() {
            self.take(Some(at))
        } else {
            None
        }
    }

    /// Takes out every route.
    pub fn clear(&mut self)
        ensures { self.new ≡ no_routes self.old.room }
    {
        self.storage.clear();
        tell_prefixes(self.storage.as_slice(), &mut self.keys, &mut self.lengths);
    }

    /// Makes this the router of all other IPv4 packets, and answers the route of which it takes the place.
    pub fn add_default_ipv4_route(
        &mut self,
        gateway: Ipv4Address,
    ) -> Result<Option<Route>, RouteTableFull>
        ensures ok { IsOk result ↔ IsTrue (has_room self.old.room is_gateway_v4 self.old.entries) }
        ensures replaced { IfOk result (λ old. old ≡ first_that is_gateway_v4 self.old.entries) }
        ensures added { OnOk result (IsAdded is_gateway_v4 (λ r. IsGateway r (replicate 4 0) (Address.Ipv4 gateway)) self.old.entries self.new.entries) }
        ensures room { self.new.room ≡ self.old.room }
        ensures err { OnErr result (self.new ≡ self.old) }
    {
        let index = index_of_ipv4_gateway(self.storage.as_slice());
        self.exchange(index, Route::new_ipv4_gateway(gateway))
    }

    /// Makes this the router of all other IPv6 packets, and answers the route of which it takes the place.
    pub fn add_default_ipv6_route(
        &mut self,
        gateway: Ipv6Address,
    ) -> Result<Option<Route>, RouteTableFull>
        ensures ok { IsOk result ↔ IsTrue (has_room self.old.room is_gateway_v6 self.old.entries) }
        ensures replaced { IfOk result (λ old. old ≡ first_that is_gateway_v6 self.old.entries) }
        ensures added { OnOk result (IsAdded is_gateway_v6 (λ r. IsGateway r (replicate 16 0) (Address.Ipv6 gateway)) self.old.entries self.new.entries) }
        ensures room { self.new.room ≡ self.old.room }
        ensures err { OnErr result (self.new ≡ self.old) }
    {
        let index = index_of_ipv6_gateway(self.storage.as_slice());
        self.exchange(index, Route::new_ipv6_gateway(gateway))
    }

    /// The first route of all IPv4 packets.
    pub fn get_default_ipv4_route(&self) -> Option<Route>
        ensures { result ≡ first_that is_gateway_v4 self.now.entries }
    {
        route_at(
            self.storage.as_slice(),
            index_of_ipv4_gateway(self.storage.as_slice()),
        )
    }

    /// The first route of all IPv6 packets.
    pub fn get_default_ipv6_route(&self) -> Option<Route>
        ensures { result ≡ first_that is_gateway_v6 self.now.entries }
    {
        route_at(
            self.storage.as_slice(),
            index_of_ipv6_gateway(self.storage.as_slice()),
        )
    }

    /// Takes out the first route of all IPv4 packets.
    pub fn remove_default_ipv4_route(&mut self) -> Option<Route>
        ensures value { result ≡ first_that is_gateway_v4 self.old.entries }
        ensures after { self.new ≡ record self.old { entries = without is_gateway_v4 self.old.entries } }
        ensures fits { length self.new.entries ≤ self.new.room }
    {
        let index = index_of_ipv4_gateway(self.storage.as_slice());
        self.take(index)
    }

    /// Takes out the first route of all IPv6 packets.
    pub fn remove_default_ipv6_route(&mut self) -> Option<Route>
        ensures value { result ≡ first_that is_gateway_v6 self.old.entries }
        ensures after { self.new ≡ record self.old { entries = without is_gateway_v6 self.old.entries } }
        ensures fits { length self.new.entries ≤ self.new.room }
    {
        let index = index_of_ipv6_gateway(self.storage.as_slice());
        self.take(index)
    }

    /// Takes out the route at this place, if one is named.
    fn take(&mut self, index: Option<usize>) -> Option<Route>
        requires { ForSome index (λ at. at < length self.old.entries) }
        ensures value { result ≡ at_index index self.old.entries }
        ensures after { self.new ≡ record self.old { entries = without_at index self.old.entries } }
    {
        match index {
            Some(at) => {
                let route = self.storage.remove(at);
                tell_prefixes(self.storage.as_slice(), &mut self.keys, &mut self.lengths);
                Some(route)
            }
            None => None,
        }
    }

    /// Adds a route in place of this one, if one is named, or else where there is room.
    fn exchange(
        &mut self,
        index: Option<usize>,
        route: Route,
    ) -> Result<Option<Route>, RouteTableFull>
        requires { ForSome index (λ at. at < length self.old.entries) }
        ensures ok { IsOk result ↔ IsTrue (is_some index || nat_lt (length self.old.entries) self.old.room) }
        ensures replaced { IfOk result (λ old. old ≡ at_index index self.old.entries) }
        ensures added { OnOk result (self.new ≡ record self.old { entries = without_at index self.old.entries ++ route ∷ [] }) }
        ensures err { OnErr result (self.new ≡ self.old) }
    {
        match index {
            Some(at) => {
                let old = self.storage.remove(at);
                self.storage.push_reserved(route);
                tell_prefixes(self.storage.as_slice(), &mut self.keys, &mut self.lengths);
                Ok(Some(old))
            }
            None => {
                if self.storage.capacity() <= self.storage.len() {
                    return Err(RouteTableFull);
                }
                self.storage.push_reserved(route);
                tell_prefixes(self.storage.as_slice(), &mut self.keys, &mut self.lengths);
                Ok(None)
            }
        }
    }

    /// The router of a packet for this destination at this instant.
    pub fn lookup(&self, addr: &IpAddress, timestamp: Instant) -> Option<IpAddress>
        ensures { result ≡ router_of (best_route self.now.entries addr.now timestamp) }
    {
        self.best_route(addr, timestamp)
            .map(|route| route.via_router)
    }

    /// The last of the routes with the longest prefix that serve this destination.
    fn best_route(&self, address: &IpAddress, timestamp: Instant) -> Option<Route>
        ensures { result ≡ best_route self.now.entries address.now timestamp }
    {
        let routes = self.storage.as_slice();
        if routes.len() <= FEW {
            best_route(routes, address, timestamp)
        } else {
            best_by_prefix(
                routes,
                &self.keys,
                self.lengths.as_slice(),
                address,
                timestamp,
            )
        }
    }
}

/// Whether the last instant has passed.
fn is_expired(expires_at: Option<Instant>, timestamp: Instant) -> bool
    ensures { result ≡ is_expired expires_at timestamp }
{
    match expires_at {
        Some(end) => end < timestamp,
        None => false,
    }
}

/// The route at this place, if one is named.
fn route_at(routes: &[Route], index: Option<usize>) -> Option<Route>
    requires { ForSome index (λ at. at < length routes.now) }
    ensures { result ≡ at_index index routes.now }
{
    match index {
        Some(at) => Some(routes[at]),
        None => None,
    }
}

/// The last of the routes with the longest prefix that serve this destination.
fn best_route(routes: &[Route], address: &IpAddress, timestamp: Instant) -> Option<Route>
    ensures { result ≡ best_route routes.now address.now timestamp }
{
    longest_from_the_end(routes, address, timestamp)
}

/// What is found by one pass from the last route to the first.
fn longest_from_the_end(routes: &[Route], address: &IpAddress, timestamp: Instant) -> Option<Route>
    ensures { result ≡ fold (λ best route. better_of is_longer best (serving address.now timestamp route)) None (reverse routes.now) }
{
    let mut best = None;
    let mut rest = routes;
    while let Some((route, others)) = rest.split_last() {
        best = better(best, serving(route, address, timestamp));
        rest = others;
    }
    best
}

/// The route, if it serves this destination.
fn serving(route: &Route, address: &IpAddress, timestamp: Instant) -> Option<Route>
    ensures { result ≡ serving address.now timestamp route.now }
{
    if route.serves(address, timestamp) {
        Some(*route)
    } else {
        None
    }
}

/// The one with the longer prefix, the first of equal ones.
fn better(best: Option<Route>, next: Option<Route>) -> Option<Route>
    ensures { result ≡ better_of is_longer best next }
{
    match (best, next) {
        (best, None) => best,
        (None, Some(next)) => Some(next),
        (Some(best), Some(next)) => Some(if best.cidr.prefix_len() < next.cidr.prefix_len() {
            next
        } else {
            best
        }),
    }
}

fn index_of_ipv4_gateway(routes: &[Route]) -> Option<usize>
    ensures index { result ≡ position is_gateway_v4 routes.now }
    ensures in_range { ForSome result (λ at. at < length routes.now) }
{
    routes.iter().position(|route| route.is_ipv4_gateway())
}

fn index_of_ipv6_gateway(routes: &[Route]) -> Option<usize>
    ensures index { result ≡ position is_gateway_v6 routes.now }
    ensures in_range { ForSome result (λ at. at < length routes.now) }
{
    routes.iter().position(|route| route.is_ipv6_gateway())
}
