//! Default routes.
use crate::cases::{Goes, Life, all_live, first_wrong};
use iface_tables::{Route, Routes};
use ip_wire::{IpAddress, Ipv4Address, Ipv6Address};
use std::alloc::Global;

const ROUTER4: Ipv4Address = Ipv4Address([192, 168, 1, 1]);

const ROUTER6: Ipv6Address = Ipv6Address([0xfd, 0, 0, 0, 0, 0, 0, 0, 0, 0, 0, 0, 0, 0, 0, 1]);

/// The router of a route.
fn router(route: Option<Route>) -> Option<IpAddress> {
    match route {
        Some(Route { via_router, .. }) => Some(via_router),
        None => None,
    }
}

/// A call of a table of routes, and what it must answer.
enum Step {
    Adds4(Ipv4Address),
    Adds6(Ipv6Address),
    Removes6,
    /// The router of the default route of IPv4.
    Leads4(Option<IpAddress>),
    /// The same of IPv6.
    Leads6(Option<IpAddress>),
}

use Step::{Adds4, Adds6, Leads4, Leads6, Removes6};

impl Goes<Routes> for Step {
    fn goes(&self, _alloc: Global, routes: &mut Routes) -> bool {
        match self {
            Adds4(address) => {
                let _ = routes.add_default_ipv4_route(*address);
                true
            }
            Adds6(address) => {
                let _ = routes.add_default_ipv6_route(*address);
                true
            }
            Removes6 => {
                let _ = routes.remove_default_ipv6_route();
                true
            }
            Leads4(answer) => router(routes.get_default_ipv4_route()) == *answer,
            Leads6(answer) => router(routes.get_default_ipv6_route()) == *answer,
        }
    }
}

/// A table of routes, from its beginning on.
struct Table(&'static [Step]);

impl Life for Table {
    fn stops_at(&self, alloc: Global) -> Option<usize> {
        match Routes::new(alloc, 2) {
            Ok(mut routes) => first_wrong(alloc, &mut routes, self.0),
            Err(_) => Some(0),
        }
    }
}

const V4: Option<IpAddress> = Some(IpAddress::Ipv4(ROUTER4));

const V6: Option<IpAddress> = Some(IpAddress::Ipv6(ROUTER6));

/// Each family has one of its own, which another one of the family replaces.
static DEFAULTS: [Table; 1] = [Table(&[
    Leads4(None),
    Leads6(None),
    Adds6(ROUTER6),
    Leads4(None),
    Leads6(V6),
    Adds4(ROUTER4),
    Leads4(V4),
    Leads6(V6),
    Removes6,
    Leads4(V4),
    Leads6(None),
])];

#[test]
fn tells_default_routes(rt: HostRuntime) {
    all_live(&rt, &DEFAULTS);
}
