//! What `==` says of a poll's answers, and how an interface begins.
ghost use Rattle.std.specs.Prelude.{◌≡◌, ◌↔◌, ◌<◌, if◌then◌else◌, IsTrue, pos, [], None, false, true, length, max, is_some, IsErr, IfOk};
ghost use Rattle.net_base.specs.Capabilities.{ip_mtu};
ghost use Rattle.ip_wire.specs.HardwareAddress.{HardwareAddress};
ghost use Rattle.iface_tables.specs.Settings.{default_config, network_config};
ghost use Rattle.interface.specs.Ingress.{longest_frame};
ghost use Rattle.interface.specs.Made.{first_timeout, assembler_count};

use interface::{Config, Interface, NewError, PollIngressSingleResult, PollResult, Served};
use net_base::{Device, Instant};
use std::alloc::Global;

/// Law: `==` says of two answers of polls, and of two turns of sockets, whether they are the same.
pub fn polls_are_equated()
    ensures polls { (a b : PollResult) → IsTrue (⟦<PollResult as PartialEq>⟧.eq a b) ↔ (a ≡ b) }
    ensures steps { (a b : PollIngressSingleResult) → IsTrue (⟦<PollIngressSingleResult as PartialEq>⟧.eq a b) ↔ (a ≡ b) }
    ensures turns { (a b : Served) → IsTrue (⟦<Served as PartialEq>⟧.eq a b) ↔ (a ≡ b) }
{}

/// Law: the longest frame that is read: the longest IPv4 packet after an Ethernet header. Two datagrams can
/// come in fragments, sixteen on a network of many, each of which is waited for a minute.
pub fn host_numbers()
    ensures frame { longest_frame ≡ 65549 }
    ensures assemblers { (hardware : HardwareAddress) → assembler_count (default_config hardware) ≡ 2 }
    ensures many { (hardware : HardwareAddress) → assembler_count (network_config hardware) ≡ 16 }
    ensures timeout { first_timeout ≡ 60000000 }
{}

/// An interface that begins has no addresses, no routes, no neighbours and no silence, and room for as many routes and neighbours as its
/// configuration says, for one neighbour at least; two datagrams can come in fragments, or as many as on a network of many, each of
/// which is waited for a minute. No group is joined, and they are told of as it says. There is none at a device whose longest IP packet is below 576 or above 65,535 bytes.
pub fn begins<D: Device>(
    alloc: Global,
    config: &Config,
    device: &D,
    now: Instant,
) -> Result<Interface, NewError>
    ensures addresses { IfOk result (λ h. h.inner.addresses ≡ []) }
    ensures any_ip { IfOk result (λ h. h.inner.any_ip ≡ false) }
    ensures routes { IfOk result (λ h. h.inner.routes ≡ []) }
    ensures route_room { IfOk result (λ h. h.inner.route_room ≡ config.now.max_route_count) }
    ensures neighbors { IfOk result (λ h.
        h.inner.neighbors ≡ record {
          entries = [];
          room = max config.now.neighbor_cache_count 1;
          silent = pos 0;
          searches = [];
          search_room = if config.now.host_requirements then 64 else 8;
        }) }
    ensures initial { IfOk result (λ h. h.inner.initial ≡ true) }
    ensures left { IfOk result (λ h. h.left ≡ None) }
    ensures assemblers { IfOk result (λ h. length h.assemblers ≡ assembler_count config.now) }
    ensures timeout { IfOk result (λ h. h.timeout ≡ 60000000) }
    ensures groups { IfOk result (λ h. h.inner.groups ≡ record { entries = []; most = config.now.max_group_count }) }
    ensures reports { IfOk result (λ h. is_some h.reports ≡ config.now.multicast_reports) }
    ensures short { ip_mtu (D.described device.now) < 576 → IsErr result }
    ensures long { 65535 < ip_mtu (D.described device.now) → IsErr result }
{
    Interface::new(alloc, config, device, now)
}
