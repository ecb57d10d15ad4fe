//! The interface of a host that begins.
ghost use Rattle.std.specs.Prelude.{◌≡◌, ◌≤◌, List, [], ◌∷◌, not, IfOk, IfErr};
ghost use Rattle.std.specs.List.{list_any};
ghost use Rattle.net_base.specs.Time.{IsMoment};
ghost use Rattle.interface.specs.Made.{new_host, with_inner};
ghost use Rattle.interface.specs.Reports.{with_own_addresses};
ghost use Rattle.interface.specs.Settings.{is_stranger, with_routes};
ghost use Rattle.interface.specs.Route.{Route};
ghost use Rattle.app_tun_services.specs.Settings.{HasPrefixes};
ghost use Rattle.app_tun_services.specs.Begins.{capabilities_of, config_of, AddsRouters, AreDefaults, IsInterface, RefusesHardware, RefusesSettings};

use crate::error::ServeError;
use crate::link::Drain;
use crate::settings::Settings;
use arrayvec::ArrayVec;
use interface::{Config, Interface, NewError, Routes, TABLE_ROOM};
use ip_wire::{IpCidr, Ipv4Address, Ipv6Address};
use net_base::{ChecksumCapabilities, DeviceCapabilities, Instant, Medium};
use std::alloc::Global;

/// The longest packet, in bytes.
pub const MTU: usize = 1500;

/// How many bytes stand before a packet in an Ethernet frame.
const ETHERNET_HEADER_LEN: usize = 14;

/// What the host's device takes.
pub fn capabilities(settings: &Settings) -> DeviceCapabilities
    ensures { result ≡ capabilities_of settings.now.hardware }
{
    let medium = settings.medium();
    let head = match medium {
        Medium::Ip => 0,
        Medium::Ethernet => ETHERNET_HEADER_LEN,
    };
    DeviceCapabilities {
        medium,
        max_transmission_unit: MTU + head,
        checksum: ChecksumCapabilities::default(),
    }
}

/// These addresses alone.
fn put(addresses: &mut ArrayVec<IpCidr, TABLE_ROOM>, ipv4: IpCidr, ipv6: IpCidr)
    ensures { addresses.new.items ≡ ipv4 ∷ ipv6 ∷ [] }
{
    addresses.clear();
    let Ok(()) = addresses.try_push(ipv4) else {
        unreachable!();
    };
    let Ok(()) = addresses.try_push(ipv6) else {
        unreachable!();
    };
}

/// The routers of all other packets, where there was no route, and room for two.
fn add_routers(routes: &mut Routes, ipv4: Ipv4Address, ipv6: Ipv6Address)
    ensures { AddsRouters ipv4 ipv6 routes.old routes.new }
{
    let _ = routes.add_default_ipv4_route(ipv4);
    let _ = routes.add_default_ipv6_route(ipv6);
}

/// Sets the own addresses, if a host can have them.
fn set_addresses(interface: &mut Interface, ipv4: IpCidr, ipv6: IpCidr) -> bool
    ensures answer { result ≡ not (list_any is_stranger (ipv4 ∷ ipv6 ∷ [])) }
    ensures after { interface.new ≡ with_own_addresses interface.old (ipv4 ∷ ipv6 ∷ []) }
{
    interface
        .update_ip_addrs(|addresses| put(addresses, ipv4, ipv6))
        .is_ok()
}

/// Sets the routers, where there was no route, and room for two.
fn set_routers(interface: &mut Interface, ipv4: Ipv4Address, ipv6: Ipv6Address)
    ensures { interface.old.inner.routes ≡ [] → 2 ≤ interface.old.inner.route_room → (routes : List Route) × AreDefaults ipv4 ipv6 routes ×
        (interface.new ≡ with_inner interface.old (with_routes interface.old.inner routes)) }
{
    interface.update_routes(|routes| add_routers(routes, ipv4, ipv6));
}

/// An interface at which nothing is set.
fn initial(
    alloc: Global,
    settings: &Settings,
    drain: &Drain,
    now: Instant,
) -> Result<Interface, ServeError>
    requires instant { IsMoment now }
    requires device { drain.now.capabilities ≡ capabilities_of settings.now.hardware }
    ensures made { IfOk result (λ made. made ≡ new_host (config_of settings.now) (capabilities_of settings.now.hardware) now) }
    ensures refused { IfErr result (RefusesHardware settings.now) }
{
    let config = Config {
        random_seed: settings.seed,
        isn_key: settings.isn_key,
        ..Config::with_host_requirements(settings.hardware)
    };
    match Interface::new(alloc, &config, drain, now) {
        Ok(interface) => Ok(interface),
        Err(NewError::NotUnicast) => Err(ServeError::Hardware),
        Err(_) => Err(ServeError::Memory),
    }
}

/// The interface at its own addresses, with routes by the routers.
pub fn interface(
    alloc: Global,
    settings: &Settings,
    drain: &Drain,
    now: Instant,
) -> Result<Interface, ServeError>
    requires instant { IsMoment now }
    requires prefixes { HasPrefixes settings.now }
    requires device { drain.now.capabilities ≡ capabilities_of settings.now.hardware }
    ensures made { IfOk result (IsInterface settings.now now) }
    ensures refused { IfErr result (RefusesSettings settings.now) }
{
    let mut interface = initial(alloc, settings, drain, now)?;
    let (ipv4, ipv6) = (settings.own_ipv4(), settings.own_ipv6());
    if !set_addresses(&mut interface, ipv4, ipv6) {
        return Err(ServeError::Address);
    }
    set_routers(&mut interface, settings.ipv4_router, settings.ipv6_router);
    Ok(interface)
}
