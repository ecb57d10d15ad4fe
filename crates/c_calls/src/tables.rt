//! Addresses, routes and other settings of a host.
ghost use Rattle.std.specs.Prelude.{◌≡◌, position};
ghost use Rattle.ip_wire.specs.HardwareAddress.TheVariants as Hardware;
ghost use Rattle.interface.specs.Made.{with_inner, with_timeout};
ghost use Rattle.interface.specs.Groups.{leave_refusal};
ghost use Rattle.interface.specs.Reports.{host_join_refusal, with_joined, with_left};
ghost use Rattle.interface.specs.Settings.{hardware_refusal, with_hardware, with_any_ip};
ghost use Rattle.c_calls.specs.Tables.{address_room, is_address, is_cidr, pushed, removed, own_with, own_without, routes_with, routes_without};
ghost use Rattle.c_calls.specs.Tables.{with_own, with_table, own_in, table_in, route_to, is_done, of_hardware, hardware_answer, of_group, group_answer, UpdatesHardware, SetsSlots};

use crate::code::Code;
use crate::host::Host;
use arrayvec::ArrayVec;
use interface::{HardwareAddrError, Interface, MulticastError, Route, Routes, TABLE_ROOM};
use ip_wire::{EthernetAddress, HardwareAddress, IpAddress, IpCidr};
use net_base::{Duration, Instant};
use sockets::addresses::{are_of_one_family, is_same_address};

fn is_address(cidr: &IpCidr, address: &IpAddress) -> bool
    ensures { result ≡ is_address address.now cidr.now }
{
    is_same_address(&cidr.address(), address)
}

fn slot_of_address(blocks: &[IpCidr], address: &IpAddress) -> Option<usize>
    ensures { result ≡ position (is_address address.now) blocks.now }
{
    blocks.iter().position(|cidr| is_address(cidr, address))
}

fn is_cidr(route: &Route, cidr: &IpCidr) -> bool
    ensures { result ≡ is_cidr cidr.now route.now }
{
    is_same_address(&route.cidr.address(), &cidr.address())
        && route.cidr.prefix_len() == cidr.prefix_len()
}

fn slot_of_route(routes: &[Route], cidr: &IpCidr) -> Option<usize>
    ensures { result ≡ position (is_cidr cidr.now) routes.now }
{
    routes.iter().position(|route| is_cidr(route, cidr))
}

/// One more, where there is room.
fn push_address(addresses: &mut ArrayVec<IpCidr, TABLE_ROOM>, cidr: IpCidr)
    ensures { addresses.new.items ≡ pushed address_room addresses.old.items cidr }
{
    let _ = addresses.try_push(cidr);
}

/// The address of this slot leaves.
fn take_address(addresses: &mut ArrayVec<IpCidr, TABLE_ROOM>, slot: usize)
    ensures { addresses.new.items ≡ removed addresses.old.items slot }
{
    let _ = addresses.pop_at(slot);
}

fn add_address(interface: &mut Interface, cidr: IpCidr) -> Result<(), Code>
    ensures answer { result ≡ is_done (own_with interface.old.inner.addresses cidr) }
    ensures after { interface.new ≡ own_in interface.old (own_with interface.old.inner.addresses cidr) }
{
    if TABLE_ROOM <= interface.ip_addrs().len() {
        return Err(Code::TableFull);
    }
    match interface.update_ip_addrs(|addresses| push_address(addresses, cidr)) {
        Ok(()) => Ok(()),
        Err(_) => Err(Code::NotUnicast),
    }
}

fn remove_address(interface: &mut Interface, address: &IpAddress) -> Result<(), Code>
    ensures answer { result ≡ is_done (own_without interface.old.inner.addresses address.now) }
    ensures after { interface.new ≡ own_in interface.old (own_without interface.old.inner.addresses address.now) }
{
    let Some(slot) = slot_of_address(interface.ip_addrs(), address) else {
        return Err(Code::NotFound);
    };
    match interface.update_ip_addrs(|addresses| take_address(addresses, slot)) {
        Ok(()) => Ok(()),
        Err(_) => Err(Code::NotUnicast),
    }
}

fn push_route(routes: &mut Routes, route: Route)
    ensures { routes.new ≡ record routes.old { entries = pushed routes.old.room routes.old.entries route } }
{
    let _ = routes.push(route);
}

fn take_route(routes: &mut Routes, slot: usize)
    ensures { routes.new ≡ record routes.old { entries = removed routes.old.entries slot } }
{
    let _ = routes.remove(slot);
}

fn add_route(interface: &mut Interface, route: Route) -> Result<(), Code>
    ensures answer { result ≡ is_done (routes_with interface.old.inner route) }
    ensures after { interface.new ≡ table_in interface.old (routes_with interface.old.inner route) }
{
    if !are_of_one_family(&route.cidr.address(), &route.via_router) {
        return Err(Code::BadArgument);
    }
    if interface.routes().room() <= interface.routes().as_slice().len() {
        return Err(Code::TableFull);
    }
    interface.update_routes(|routes| push_route(routes, route));
    Ok(())
}

fn remove_route(interface: &mut Interface, cidr: &IpCidr) -> Result<(), Code>
    ensures answer { result ≡ is_done (routes_without interface.old.inner.routes cidr.now) }
    ensures after { interface.new ≡ table_in interface.old (routes_without interface.old.inner.routes cidr.now) }
{
    let Some(slot) = slot_of_route(interface.routes().as_slice(), cidr) else {
        return Err(Code::NotFound);
    };
    interface.update_routes(|routes| take_route(routes, slot));
    Ok(())
}

fn set_hardware(interface: &mut Interface, address: EthernetAddress) -> Result<(), Code>
    ensures answer { result ≡ hardware_answer (hardware_refusal interface.old.inner.hardware (Hardware.Ethernet address)) }
    ensures after { interface.new ≡ with_inner interface.old (with_hardware interface.old.inner (Hardware.Ethernet address)) }
{
    match interface.set_hardware_addr(HardwareAddress::Ethernet(address)) {
        Ok(()) => Ok(()),
        Err(error) => Err(of_hardware(error)),
    }
}

fn join_group(interface: &mut Interface, group: IpAddress) -> Result<(), Code>
    ensures answer { result ≡ group_answer (host_join_refusal interface.old group) }
    ensures after { interface.new ≡ with_joined interface.old group }
{
    match interface.join_multicast_group(group) {
        Ok(()) => Ok(()),
        Err(error) => Err(of_group(error)),
    }
}

fn leave_group(interface: &mut Interface, group: IpAddress) -> Result<(), Code>
    ensures answer { result ≡ group_answer (leave_refusal group) }
    ensures after { interface.new ≡ with_left interface.old group }
{
    match interface.leave_multicast_group(group) {
        Ok(()) => Ok(()),
        Err(error) => Err(of_group(error)),
    }
}

fn of_group(error: MulticastError) -> Code
    ensures { result ≡ of_group error }
{
    match error {
        MulticastError::GroupTableFull => Code::TableFull,
        MulticastError::Unaddressable => Code::Unaddressable,
    }
}

fn of_hardware(error: HardwareAddrError) -> Code
    ensures { result ≡ of_hardware error }
{
    match error {
        HardwareAddrError::Medium => Code::Medium,
        HardwareAddrError::NotUnicast => Code::NotUnicast,
    }
}

impl Host {
    /// Adds an own address with its network. All neighbours are forgotten.
    pub fn address_add(&mut self, cidr: IpCidr) -> Result<(), Code>
        ensures answer { result ≡ is_done (own_with self.old.host.inner.addresses cidr) }
        ensures after { self.new ≡ with_own self.old (own_with self.old.host.inner.addresses cidr) }
    {
        add_address(self.interface(), cidr)
    }

    /// Takes an own address out. All neighbours are forgotten.
    pub fn address_remove(&mut self, address: IpAddress) -> Result<(), Code>
        ensures answer { result ≡ is_done (own_without self.old.host.inner.addresses address) }
        ensures after { self.new ≡ with_own self.old (own_without self.old.host.inner.addresses address) }
    {
        remove_address(self.interface(), &address)
    }

    /// Adds a route: packets for the network go to the router.
    pub fn route_add(&mut self, network: IpCidr, router: IpAddress) -> Result<(), Code>
        ensures answer { result ≡ is_done (routes_with self.old.host.inner (route_to network router)) }
        ensures after { self.new ≡ with_table self.old (routes_with self.old.host.inner (route_to network router)) }
    {
        add_route(
            self.interface(),
            Route {
                cidr: network,
                via_router: router,
                preferred_until: None,
                expires_at: None,
            },
        )
    }

    /// Takes the first route of the network out.
    pub fn route_remove(&mut self, network: IpCidr) -> Result<(), Code>
        ensures answer { result ≡ is_done (routes_without self.old.host.inner.routes network) }
        ensures after { self.new ≡ with_table self.old (routes_without self.old.host.inner.routes network) }
    {
        remove_route(self.interface(), &network)
    }

    /// Sets the hardware address's address.
    pub fn set_hardware(&mut self, address: EthernetAddress) -> Result<(), Code>
        ensures answer { result ≡ hardware_answer (hardware_refusal self.old.host.inner.hardware (Hardware.Ethernet address)) }
        ensures after { self.new ≡ record self.old { host = with_inner self.old.host (with_hardware self.old.host.inner (Hardware.Ethernet address)) } }
    {
        set_hardware(self.interface(), address)
    }

    /// Sets the hardware address's address, and tells all neighbours of it, by a frame for each own address, as long as there is room for frames.
    /// Answers how many wait to be fetched for that.
    pub fn update_hardware(&mut self, address: EthernetAddress) -> Result<usize, Code>
        ensures { UpdatesHardware address self.old result self.new }
    {
        let told = self.interface.update_hardware_addr(
            Instant::ZERO,
            &mut self.link,
            HardwareAddress::Ethernet(address),
        );
        match told {
            Ok(count) => Ok(count),
            Err(error) => Err(of_hardware(error)),
        }
    }

    /// Listens to this multicast group from now on, and tells of it.
    pub fn group_join(&mut self, group: IpAddress) -> Result<(), Code>
        ensures answer { result ≡ group_answer (host_join_refusal self.old.host group) }
        ensures after { self.new ≡ record self.old { host = with_joined self.old.host group } }
    {
        join_group(self.interface(), group)
    }

    /// Listens to this multicast group no longer, and tells of that.
    pub fn group_leave(&mut self, group: IpAddress) -> Result<(), Code>
        ensures answer { result ≡ group_answer (leave_refusal group) }
        ensures after { self.new ≡ record self.old { host = with_left self.old.host group } }
    {
        leave_group(self.interface(), group)
    }

    /// Sets whether every address counts as an own one.
    pub fn set_any_ip(&mut self, any_ip: bool)
        ensures { self.new ≡ record self.old { host = with_inner self.old.host (with_any_ip self.old.host.inner any_ip) } }
    {
        self.interface().set_any_ip(any_ip);
    }

    /// Sets how many datagrams can come in pieces at a time. What came of such ones is dropped.
    pub fn set_reassembly_slots(&mut self, count: usize) -> Result<(), Code>
        ensures { SetsSlots count self.old result self.new }
    {
        let alloc = self.alloc();
        match self.interface().set_reassembly_slots(alloc, count) {
            Ok(()) => Ok(()),
            Err(_) => Err(Code::Memory),
        }
    }

    /// Sets how long the pieces of a datagram are waited for.
    pub fn set_reassembly_timeout(&mut self, timeout: Duration)
        ensures { self.new ≡ record self.old { host = with_timeout self.old.host timeout } }
    {
        self.interface().set_reassembly_timeout(timeout);
    }
}
