//! What the types of events and hosts say of their numbers: a call of these makes it known to a proof. They do nothing.
ghost use Rattle.std.specs.Prelude.{◌≡◌};
ghost use Rattle.std.specs.List.{AllByRecursion};
ghost use Rattle.ip_wire.specs.Address.{IsEthernetAddress, IsIpv4Address, IsIpv6Address, IsIpAddress};
ghost use Rattle.lan.specs.Worlds.AtLink.Kinds.{kind_of};
ghost use Rattle.lan.specs.Worlds.AtLink.Initial.{IsHardware, IsTypedHost};
ghost use Rattle.lan.specs.Worlds.Events.{IsTyped};

use crate::at_link::{Event, Host, Route};
use ip_wire::{EthernetAddress, HardwareAddress, IpAddress, Ipv4Address, Ipv6Address};

/// A word of a damage has 16 bits, a hardware address six bytes, and a router those of its family.
pub(crate) fn event_is_typed(event: &Event)
    ensures { IsTyped (kind_of event.now) }
{
    match event {
        Event::HardwareAddr(_, address) => ethernet_is_typed(*address),
        Event::Route(_, router) => address_is_typed(*router),
        Event::Damage(_, _, _, word, _) => {
            let _word = *word;
        }
        _ => {}
    }
}

/// A host's addresses are of their lengths, and its next identification has 16 bits.
pub(crate) fn host_is_typed(host: &Host)
    ensures { IsTypedHost host.now.host.inner }
{
    hardware_is_typed(host.interface.hardware_addr());
    routes_are_typed(host.interface.routes().as_slice());
    let _ident = host.interface.context().ident();
}

fn hardware_is_typed(address: HardwareAddress)
    ensures { IsHardware address }
{
    match address {
        HardwareAddress::Ip => {}
        HardwareAddress::Ethernet(address) => ethernet_is_typed(address),
    }
}

fn routes_are_typed(routes: &[Route])
    ensures { AllByRecursion (λ r. IsIpAddress r.via_router) routes.now }
{
    if let Some((first, rest)) = routes.split_first() {
        address_is_typed(first.via_router);
        routes_are_typed(rest);
    }
}

fn address_is_typed(address: IpAddress)
    ensures { IsIpAddress address }
{
    match address {
        IpAddress::Ipv4(address) => ipv4_is_typed(address),
        IpAddress::Ipv6(address) => ipv6_is_typed(address),
    }
}

fn ethernet_is_typed(address: EthernetAddress)
    ensures { IsEthernetAddress address }
{}

fn ipv4_is_typed(address: Ipv4Address)
    ensures { IsIpv4Address address }
{}

fn ipv6_is_typed(address: Ipv6Address)
    ensures { IsIpv6Address address }
{}
