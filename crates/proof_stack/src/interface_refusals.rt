//! When calls of an interface refuse, and what a refusal leaves as it was: each function makes one call, and says again what the
//! call promises.
ghost use Rattle.std.specs.Prelude.{◌≡◌, ◌↔◌, ◌<◌, ◌∷◌, ◌++◌, [], length, remove, replicate, slice_get, slice_set, IsTrue, IsOk, IfOk, OnOk, OnErr, IsSome};
ghost use Rattle.std.specs.Prelude.{IfNone};
ghost use Rattle.ip_wire.specs.IpAddress.TheVariants as Address;
ghost use Rattle.iface_tables.specs.Best.{first_that};
ghost use Rattle.iface_tables.specs.Route.{is_gateway_v4, is_gateway_v6, IsGateway, has_room, IsAdded};
ghost use Rattle.iface_egress.specs.Set.{slots, is_fixed, free, free_slot, socket_at, Adds};

use iface_egress::{AddError, Idle, SocketHandle, SocketSet};
use iface_tables::{Route, RouteTableFull, Routes};
use ip_wire::{Ipv4Address, Ipv6Address};

/// A table takes as many routes as it has room for, and stays as it was where it refuses one.
pub fn push_route(routes: &mut Routes, route: Route) -> Result<(), RouteTableFull>
    ensures ok { IsOk result ↔ (length routes.old.entries < routes.old.room) }
    ensures added { OnOk result (routes.new ≡ record routes.old { entries = routes.old.entries ++ route ∷ [] }) }
    ensures err { OnErr result (routes.new ≡ routes.old) }
{
    routes.push(route)
}

/// A route is taken out where there is one.
pub fn remove_route(routes: &mut Routes, at: usize) -> Option<Route>
    ensures value { result ≡ slice_get routes.old.entries at }
    ensures after { IsSome result → routes.new ≡ record routes.old { entries = remove routes.old.entries at } }
    ensures none { IfNone result (routes.new ≡ routes.old) }
{
    routes.remove(at)
}

/// A router of all IPv4 packets takes the place of the one before, or a free one.
pub fn set_ipv4_router(
    routes: &mut Routes,
    gateway: Ipv4Address,
) -> Result<Option<Route>, RouteTableFull>
    ensures ok { IsOk result ↔ IsTrue (has_room routes.old.room is_gateway_v4 routes.old.entries) }
    ensures replaced { IfOk result (λ old. old ≡ first_that is_gateway_v4 routes.old.entries) }
    ensures added { OnOk result (IsAdded is_gateway_v4 (λ r. IsGateway r (replicate 4 0) (Address.Ipv4 gateway)) routes.old.entries routes.new.entries) }
    ensures room { routes.new.room ≡ routes.old.room }
    ensures err { OnErr result (routes.new ≡ routes.old) }
{
    routes.add_default_ipv4_route(gateway)
}

/// The same of IPv6 packets.
pub fn set_ipv6_router(
    routes: &mut Routes,
    gateway: Ipv6Address,
) -> Result<Option<Route>, RouteTableFull>
    ensures ok { IsOk result ↔ IsTrue (has_room routes.old.room is_gateway_v6 routes.old.entries) }
    ensures replaced { IfOk result (λ old. old ≡ first_that is_gateway_v6 routes.old.entries) }
    ensures added { OnOk result (IsAdded is_gateway_v6 (λ r. IsGateway r (replicate 16 0) (Address.Ipv6 gateway)) routes.old.entries routes.new.entries) }
    ensures room { routes.new.room ≡ routes.old.room }
    ensures err { OnErr result (routes.new ≡ routes.old) }
{
    routes.add_default_ipv6_route(gateway)
}

/// A socket goes to the first free slot. A full set, or lack of memory, hands it back.
pub fn add_socket<T: Drop + Idle>(
    sockets: &mut SocketSet<T>,
    socket: T,
) -> Result<SocketHandle, AddError<T>>
    ensures added { Adds (free_slot (slots sockets.old)) (is_fixed sockets.old) (slots sockets.old) socket result (slots sockets.new) }
    ensures fixed { is_fixed sockets.new ≡ is_fixed sockets.old }
{
    sockets.add(socket)
}

/// A socket is taken out where there is one.
pub fn remove_socket<T: Drop + Idle>(sockets: &mut SocketSet<T>, handle: SocketHandle) -> Option<T>
    ensures value { result ≡ socket_at (slots sockets.old) handle.0 }
    ensures after { slots sockets.new ≡ slice_set (slots sockets.old) handle.0 free }
    ensures fixed { is_fixed sockets.new ≡ is_fixed sockets.old }
{
    sockets.remove(handle)
}
