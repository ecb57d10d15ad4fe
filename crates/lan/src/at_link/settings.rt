//! The settings of a host, the room of its device, and when it wants to be polled.
ghost use Rattle.std.specs.Prelude.{◌≡◌, if◌then◌else◌, None};
ghost use Rattle.net_base.specs.Time.{IsMoment};
ghost use Rattle.ip_wire.specs.IpAddress.TheVariants as address;
ghost use Rattle.lan.specs.Worlds.AtLink.Kinds as sets;
ghost use Rattle.lan.specs.declared.at_link.history.answer.Answer.TheVariants as to;
ghost use Rattle.lan.specs.declared.at_link.history.answer.Fault.TheVariants as why;
ghost use Rattle.lan.specs.Worlds.AtLink.Answers.{brief};
ghost use Rattle.lan.specs.Worlds.AtLink.Sets.{setting_answer, SetsTo, RoutedIf, has_route_room, with_room, instant_at, asked};

use crate::at_link::answer::Brief;
use crate::at_link::history::Fault;
use crate::at_link::host::Host;
use arrayvec::ArrayVec;
use interface::{HardwareAddrError, Interface, RouteTableFull, Routes};
use ip_wire::{EthernetAddress, HardwareAddress, IpAddress, IpCidr, Ipv4Address, Ipv6Address};
use net_base::{Duration, Instant};

/// Sets the hardware address.
pub fn set_hardware_addr(interface: &mut Interface, address: EthernetAddress) -> Brief
    ensures answer { brief result ≡ setting_answer interface.old (sets.HardwareAddr address) }
    ensures after { SetsTo interface.old (sets.HardwareAddr address) interface.new }
{
    match interface.set_hardware_addr(HardwareAddress::Ethernet(address)) {
        Ok(()) => Brief::Done,
        Err(HardwareAddrError::Medium) => Brief::Error(Fault::Medium),
        Err(HardwareAddrError::NotUnicast) => Brief::Error(Fault::NotUnicast),
    }
}

/// Sets the own addresses, in place of those that the host had.
#[tactic(auto, using(crate::proofs::Worlds::AtLink::Silent::own_silently))]
pub fn set_addrs(interface: &mut Interface, blocks: &ArrayVec<IpCidr, 4>) -> Brief
    requires { interface.old.reports ≡ None }
    ensures answer { brief result ≡ setting_answer interface.old (sets.Addrs blocks.now.items) }
    ensures after { SetsTo interface.old (sets.Addrs blocks.now.items) interface.new }
{
    match interface.update_ip_addrs(|addresses| put(addresses, blocks)) {
        Ok(()) => Brief::Done,
        Err(_) => Brief::Error(Fault::NotUnicast),
    }
}

/// These blocks in place of those that were there.
fn put(addresses: &mut ArrayVec<IpCidr, 4>, blocks: &ArrayVec<IpCidr, 4>)
    ensures { addresses.new.items ≡ blocks.now.items }
{
    addresses.clear();
    let Ok(()) = addresses.try_extend_from_slice(blocks.as_slice()) else {
        unreachable!();
    };
}

/// Sets the router of all destinations of its family.
pub fn set_route(interface: &mut Interface, router: IpAddress) -> Brief
    ensures answer { brief result ≡ setting_answer interface.old (sets.Route router) }
    ensures after { SetsTo interface.old (sets.Route router) interface.new }
{
    match router {
        IpAddress::Ipv4(router) => set_route_v4(interface, router),
        IpAddress::Ipv6(router) => set_route_v6(interface, router),
    }
}

#[tactic(auto, using(crate::proofs::Worlds::AtLink::Routing::set_route_is))]
fn set_route_v4(interface: &mut Interface, router: Ipv4Address) -> Brief
    ensures answer { brief result ≡ setting_answer interface.old (sets.Route (address.Ipv4 router)) }
    ensures after { SetsTo interface.old (sets.Route (address.Ipv4 router)) interface.new }
{
    routed(interface.update_routes(|routes| add_v4(routes, router)))
}

#[tactic(auto, using(crate::proofs::Worlds::AtLink::Routing::routed_same))]
fn add_v4(routes: &mut Routes, router: Ipv4Address) -> bool
    ensures room { result ≡ has_route_room (address.Ipv4 router) routes.old }
    ensures added { RoutedIf (has_route_room (address.Ipv4 router) routes.old) (address.Ipv4 router) routes.old.entries routes.new.entries }
    ensures table { routes.new.room ≡ routes.old.room }
{
    is_added_v4(routes, router)
}

fn is_added_v4(routes: &mut Routes, router: Ipv4Address) -> bool
    ensures room { result ≡ has_route_room (address.Ipv4 router) routes.old }
    ensures added { RoutedIf result (address.Ipv4 router) routes.old.entries routes.new.entries }
    ensures table { routes.new.room ≡ routes.old.room }
{
    match routes.add_default_ipv4_route(router) {
        Ok(_) => true,
        Err(RouteTableFull) => false,
    }
}

#[tactic(auto, using(crate::proofs::Worlds::AtLink::Routing::set_route_is))]
fn set_route_v6(interface: &mut Interface, router: Ipv6Address) -> Brief
    ensures answer { brief result ≡ setting_answer interface.old (sets.Route (address.Ipv6 router)) }
    ensures after { SetsTo interface.old (sets.Route (address.Ipv6 router)) interface.new }
{
    routed(interface.update_routes(|routes| add_v6(routes, router)))
}

#[tactic(auto, using(crate::proofs::Worlds::AtLink::Routing::routed_same))]
fn add_v6(routes: &mut Routes, router: Ipv6Address) -> bool
    ensures room { result ≡ has_route_room (address.Ipv6 router) routes.old }
    ensures added { RoutedIf (has_route_room (address.Ipv6 router) routes.old) (address.Ipv6 router) routes.old.entries routes.new.entries }
    ensures table { routes.new.room ≡ routes.old.room }
{
    is_added_v6(routes, router)
}

fn is_added_v6(routes: &mut Routes, router: Ipv6Address) -> bool
    ensures room { result ≡ has_route_room (address.Ipv6 router) routes.old }
    ensures added { RoutedIf result (address.Ipv6 router) routes.old.entries routes.new.entries }
    ensures table { routes.new.room ≡ routes.old.room }
{
    match routes.add_default_ipv6_route(router) {
        Ok(_) => true,
        Err(RouteTableFull) => false,
    }
}

fn routed(is_added: bool) -> Brief
    ensures { brief result ≡ (if is_added then to.Done else to.Error why.RouteTableFull) }
{
    if is_added {
        Brief::Done
    } else {
        Brief::Error(Fault::RouteTableFull)
    }
}

/// Sets whether every address counts as an own one.
pub fn set_any_ip(interface: &mut Interface, any: bool) -> Brief
    ensures answer { brief result ≡ setting_answer interface.old (sets.AnyIp any) }
    ensures after { SetsTo interface.old (sets.AnyIp any) interface.new }
{
    interface.set_any_ip(any);
    Brief::Done
}

/// Sets how long the fragments of a datagram are waited for.
pub fn set_reassembly_timeout(interface: &mut Interface, timeout: Duration) -> Brief
    ensures answer { brief result ≡ setting_answer interface.old (sets.ReassemblyTimeout timeout) }
    ensures after { SetsTo interface.old (sets.ReassemblyTimeout timeout) interface.new }
{
    interface.set_reassembly_timeout(timeout);
    Brief::Done
}

impl Host {
    /// Room for so many frames more in its device.
    pub fn set_room(&mut self, room: usize)
        ensures { self.new ≡ with_room self.old room }
    {
        self.port.set_room(room);
    }

    /// When the host wants to be polled, asked at an instant.
    pub fn poll_at(&mut self, instant: Instant) -> Option<Instant>
        requires { IsMoment instant }
        ensures answer { result ≡ instant_at self.old instant }
        ensures after { self.new ≡ asked self.old instant }
    {
        self.interface.poll_at(instant, &self.sockets)
    }
}
