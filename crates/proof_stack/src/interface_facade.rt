//! What `interface` passes on is its members', each item under its own name: each function takes a member's item and gives it as
//! the facade's, which is accepted only where both names mean one item.
ghost use Rattle.std.specs.Prelude.{◌≡◌};

use iface_egress::Idle;
use interface::TABLE_ROOM;

/// Law: as many entries a table has as `iface_tables` says.
pub fn passes_on_room()
    ensures { TABLE_ROOM ≡ 4 }
{}

/// What an interface is made with.
pub fn passes_on_config(config: iface_tables::Config) -> interface::Config
    ensures { result ≡ config }
{
    config
}

/// A route.
pub fn passes_on_route(route: iface_tables::Route) -> interface::Route
    ensures { result ≡ route }
{
    route
}

/// Why a call of an interface is refused.
pub fn passes_on_refusals(
    new: iface_tables::NewError,
    hardware: iface_tables::HardwareAddrError,
    unicast: iface_tables::NotUnicast,
    full: iface_tables::RouteTableFull,
) -> (
    interface::NewError,
    interface::HardwareAddrError,
    interface::NotUnicast,
    interface::RouteTableFull,
)
    ensures { result ≡ (new, hardware, unicast, full) }
{
    (new, hardware, unicast, full)
}

/// A host alongside its sockets.
pub fn passes_on_inner(inner: &iface_tables::InterfaceInner) -> &interface::InterfaceInner
    ensures { result.now ≡ inner.now }
{
    inner
}

/// A table of routes.
pub fn passes_on_routes(routes: &iface_tables::Routes) -> &interface::Routes
    ensures { result.now ≡ routes.now }
{
    routes
}

/// A socket's handle, and its mark.
pub fn passes_on_handle(
    handle: iface_egress::SocketHandle,
    meta: iface_egress::Meta,
) -> (interface::SocketHandle, interface::Meta)
    ensures { result ≡ (handle, meta) }
{
    (handle, meta)
}

/// The sockets of a host.
pub fn passes_on_set<T: Idle>(set: &iface_egress::SocketSet<T>) -> &interface::SocketSet<T>
    ensures { result.now ≡ set.now }
{
    set
}

/// A socket's slot.
pub fn passes_on_storage<T>(
    storage: &iface_egress::SocketStorage<T>,
) -> &interface::SocketStorage<T>
    ensures { result.now ≡ storage.now }
{
    storage
}

/// A socket with its mark.
pub fn passes_on_item<T>(item: &iface_egress::Item<T>) -> &interface::Item<T>
    ensures { result.now ≡ item.now }
{
    item
}

/// Why a socket wasn't added.
pub fn passes_on_error<T>(error: &iface_egress::AddError<T>) -> &interface::AddError<T>
    ensures { result.now ≡ error.now }
{
    error
}

/// The sockets with their handles.
pub fn passes_on_iter<'a, 'b, T>(iter: &'a iface_egress::Iter<'b, T>) -> &'a interface::Iter<'b, T>
    ensures { result.now ≡ iter.now }
{
    iter
}

/// The handles alone.
pub fn passes_on_handles<'a, 'b, T>(
    handles: &'a iface_egress::Handles<'b, T>,
) -> &'a interface::Handles<'b, T>
    ensures { result.now ≡ handles.now }
{
    handles
}
