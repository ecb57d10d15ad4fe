//! An interface.
ghost use Rattle.std.specs.Prelude.{◌≡◌, IsTrue, [], length, not, is_ok, is_some, OnOk, OnErr, Some};
ghost use Rattle.std.specs.Fn.{FnOnceReturnsAtMut};
ghost use Rattle.std.specs.List.{list_any};
ghost use Rattle.net_base.specs.Time.{IsMoment};
ghost use Rattle.arrayvec.specs.ArrayVec.{ArrayVec as Items};
ghost use Rattle.ip_wire.specs.IpCidr.{IpCidr};
ghost use Rattle.iface_tables.specs.Route.{RoutesValue};
ghost use Rattle.iface_egress.specs.Inner.{is_local, is_member_of};
ghost use Rattle.iface_egress.specs.Settings.{unless, hardware_refusal, with_hardware, is_stranger, with_any_ip, routes_of, with_route_table};
ghost use Rattle.interface.specs.Groups.{leave_refusal};
ghost use Rattle.interface.specs.Reports.{is_untold, host_join_refusal, with_joined, with_left, with_followed, with_own_addresses};
ghost use Rattle.ip_wire.specs.IpAddress.{IpAddress};
ghost use Rattle.iface_egress.specs.Source.{first_v4, first_v6, source_for, source_v4, source_v6};
ghost use Rattle.interface.specs.Host.{host_at, maintained};
ghost use Rattle.interface.specs.Made.{IsIdle, assembler_count, new_reports, Makes, with_inner, with_assemblers, with_timeout};

use arrayvec::ArrayVec;
use iface_egress::{
    Config, Fragmenter, HardwareAddrError, InterfaceInner, MulticastError, NewError, NotUnicast,
    PacketAssemblerSet, Routes, TABLE_ROOM,
};
use iface_ingress::Context;
use iface_reports::Reporter;
use ip_wire::{HardwareAddress, IpAddress, IpCidr, Ipv4Address, Ipv6Address};
use net_base::{ChecksumCapabilities, Device, Duration, Instant};
use socket_context::addresses::is_multicast;
use std::alloc::{AllocError, Global};
use std::marker::Model;

/// How many datagrams can come in fragments at a time at first.
const REASSEMBLY_COUNT: usize = 2;

/// The same on a network of many.
const REASSEMBLY_COUNT_OF_MANY: usize = 16;

/// How long the fragments of a datagram are waited for at first, in seconds.
const REASSEMBLY_SECS: u64 = 60;

/// A host at a device: its addresses and tables, the datagram that it sends in fragments, and those that come in fragments.
#[derive(Drop)]
pub struct Interface {
    pub(crate) inner: InterfaceInner,
    pub(crate) fragmenter: Fragmenter,
    pub(crate) assemblers: PacketAssemblerSet,
    pub(crate) timeout: Duration,
    pub(crate) reporter: Option<Reporter>,
}

impl Model for Interface {
    ghost use Rattle.interface.specs.Host.{HostValue};
    ghost use Rattle.interface.specs.Made.{IsIdleIfInitial};

    ghost Value = { HostValue };

    ghost view = { λ f. record { inner = f.inner; left = f.fragmenter; assemblers = f.assemblers; timeout = f.timeout; reports = f.reporter } };

    ghost invariant = { λ f. IsIdleIfInitial f.inner f.fragmenter f.assemblers };
}

impl Interface {
    /// An interface of this configuration at the device, from this instant on.
    pub fn new<D: Device>(
        alloc: Global,
        config: &Config,
        device: &D,
        now: Instant,
    ) -> Result<Interface, NewError>
        ensures { Makes config.now (D.described device.now) now result }
    {
        let inner = InterfaceInner::new(alloc, config, &device.capabilities(), now)?;
        let Ok(fragmenter) = Fragmenter::new(alloc) else {
            return Err(NewError::Memory);
        };
        let Ok(assemblers) = PacketAssemblerSet::new(alloc, assembler_count(config)) else {
            return Err(NewError::Memory);
        };
        Ok(Interface {
            inner,
            fragmenter,
            assemblers,
            timeout: Duration::from_secs(REASSEMBLY_SECS),
            reporter: reporter_for(config),
        })
    }

    /// What sockets ask of the interface.
    pub fn context(&self) -> &InterfaceInner
        ensures { result.now ≡ self.now.inner }
    {
        &self.inner
    }

    /// The hardware address, `Ip` on a medium that has none.
    pub fn hardware_addr(&self) -> HardwareAddress
        ensures { result ≡ self.now.inner.hardware }
    {
        self.inner.hardware_addr()
    }

    /// Whether the host does what RFC 1122 and the standards after it ask of a host on a network of many, where smoltcp does otherwise.
    pub fn host_requirements(&self) -> bool
        ensures { result ≡ self.now.inner.host_requirements }
    {
        self.inner.host_requirements()
    }

    /// The local addresses with their networks.
    pub fn ip_addrs(&self) -> &[IpCidr]
        ensures { result.now ≡ self.now.inner.addresses }
    {
        self.inner.ip_addrs()
    }

    /// The first IPv4 address.
    pub fn ipv4_addr(&self) -> Option<Ipv4Address>
        ensures { result ≡ first_v4 self.now.inner.addresses }
    {
        self.inner.ipv4_addr()
    }

    /// The first IPv6 address.
    pub fn ipv6_addr(&self) -> Option<Ipv6Address>
        ensures { result ≡ first_v6 self.now.inner.addresses }
    {
        self.inner.ipv6_addr()
    }

    /// The address that an IPv4 packet to this destination is sent from, if there is one.
    pub fn get_source_address_ipv4(&self, dst_addr: &Ipv4Address) -> Option<Ipv4Address>
        ensures { result ≡ source_v4 self.now.inner.addresses dst_addr.now }
    {
        self.inner.get_source_address_ipv4(dst_addr)
    }

    /// The address that an IPv6 packet to this destination is sent from.
    pub fn get_source_address_ipv6(&self, dst_addr: &Ipv6Address) -> Ipv6Address
        ensures { result ≡ source_v6 self.now.inner.addresses dst_addr.now }
    {
        self.inner.get_source_address_ipv6(dst_addr)
    }

    /// Whether the host listens to this group: all systems, all nodes, an own solicited-node address, or one that was joined.
    pub fn has_multicast_group(&self, addr: &IpAddress) -> bool
        ensures { result ≡ is_member_of self.now.inner addr.now }
    {
        self.inner.has_multicast_group(addr)
    }

    /// Whether every address counts as an own one.
    pub fn any_ip(&self) -> bool
        ensures { result ≡ self.now.inner.any_ip }
    {
        self.inner.any_ip()
    }

    /// The routes.
    pub fn routes(&self) -> &Routes
        ensures { result.now ≡ routes_of self.now.inner }
    {
        self.inner.routes()
    }

    /// Whether routers and switches are told which multicast groups the host listens to.
    pub fn multicast_reports(&self) -> bool
        ensures { result ≡ is_some self.now.reports }
    {
        self.reporter.is_some()
    }

    /// Whether nothing ran yet: no call that polls, and no setting of `any_ip` or of the time of reassembly. Then nothing came in fragments,
    /// nothing is half sent, and no neighbour is known.
    pub fn is_fresh(&self) -> bool
        ensures value { result ≡ self.now.inner.initial }
        ensures idle { IsTrue result → IsIdle self.now.left self.now.assemblers }
        ensures unknown { IsTrue result → self.now.inner.neighbors.entries ≡ [] }
    {
        self.inner.is_fresh()
    }

    /// How many datagrams can come in fragments at a time.
    pub fn reassembly_slots(&self) -> usize
        ensures { result ≡ length self.now.assemblers }
    {
        self.assemblers.capacity()
    }

    /// How long the fragments of a datagram are waited for.
    pub fn reassembly_timeout(&self) -> Duration
        ensures { result ≡ self.now.timeout }
    {
        self.timeout
    }
}

/// Settings.
impl Interface {
    /// Sets the hardware address, if the medium has such addresses and it is one hardware address's.
    pub fn set_hardware_addr(&mut self, addr: HardwareAddress) -> Result<(), HardwareAddrError>
        ensures answer { result ≡ unless (hardware_refusal self.old.inner.hardware addr) tt }
        ensures after { self.new ≡ with_inner self.old (with_hardware self.old.inner addr) }
    {
        self.inner.set_hardware_addr(addr)
    }

    /// Sets the local addresses to what `f` makes of a copy of them, and forgets every neighbour, if each is one host's or
    /// unspecified.
    pub fn update_ip_addrs<F: FnOnce(&mut ArrayVec<IpCidr, TABLE_ROOM>)>(
        &mut self,
        f: F,
    ) -> Result<(), NotUnicast>
        requires { F.IsAlwaysCallable f }
        ensures { (before : Items IpCidr) × (after : Items IpCidr) × (before.items ≡ self.old.inner.addresses)
            × FnOnceReturnsAtMut F.FnOnce f before tt after
            × (is_ok result ≡ not (list_any is_stranger after.items))
            × (self.new ≡ with_own_addresses self.old after.items) }
    {
        self.inner.update_ip_addrs(f)?;
        self.follow();
        Ok(())
    }

    /// Sets whether every address counts as an own one.
    pub fn set_any_ip(&mut self, any_ip: bool)
        ensures { self.new ≡ with_inner self.old (with_any_ip self.old.inner any_ip) }
    {
        self.inner.set_any_ip(any_ip);
    }

    /// Listens to this multicast group from now on: each datagram to it is for the host, and goes to the UDP sockets of its port. A group
    /// that every host listens to, or that was joined already, stays as it is. With `Config::multicast_reports` routers and switches are told
    /// (RFC 3376, RFC 3810); else, where a switch forwards a group to those alone that report it, the group isn't heard.
    pub fn join_multicast_group<T: Into<IpAddress>>(
        &mut self,
        addr: T,
    ) -> Result<(), MulticastError>
        ensures { (group : IpAddress) × T.converts addr group
            × (result ≡ unless (host_join_refusal self.old group) tt)
            × (self.new ≡ with_joined self.old group) }
    {
        self.join_group(addr.into())
    }

    /// Listens to this multicast group no longer, however often it was joined. One that isn't joined stays as it is.
    pub fn leave_multicast_group<T: Into<IpAddress>>(
        &mut self,
        addr: T,
    ) -> Result<(), MulticastError>
        ensures { (group : IpAddress) × T.converts addr group
            × (result ≡ unless (leave_refusal group) tt)
            × (self.new ≡ with_left self.old group) }
    {
        self.leave_group(&addr.into())
    }

    /// Lends the routes to `f`.
    pub fn update_routes<R: Drop, F: FnOnce(&mut Routes) -> R>(&mut self, f: F) -> R
        requires { F.IsAlwaysCallable f }
        ensures { (before : RoutesValue) × (after : RoutesValue) × (before ≡ routes_of self.old.inner)
            × FnOnceReturnsAtMut F.FnOnce f before result after
            × (self.new ≡ with_inner self.old (with_route_table self.old.inner after)) }
    {
        self.inner.update_routes(f)
    }

    /// Sets how many datagrams can come in fragments at a time, if there is memory for so many slots of 4096 bytes. What came in fragments so
    /// far is given up.
    #[tactic(auto, using(crate::proofs::FreeAssemblers::all_free))]
    pub fn set_reassembly_slots(&mut self, alloc: Global, count: usize) -> Result<(), AllocError>
        ensures ok { OnOk result (self.new ≡ with_assemblers self.old count) }
        ensures err { OnErr result (self.new ≡ self.old) }
    {
        self.assemblers = PacketAssemblerSet::new(alloc, count)?;
        Ok(())
    }

    /// Sets how long the fragments of a datagram are waited for, from its first fragment on.
    pub fn set_reassembly_timeout(&mut self, timeout: Duration)
        ensures { self.new ≡ with_timeout self.old timeout }
    {
        self.inner.end_initial();
        self.timeout = timeout;
    }
}

/// What is told of multicast groups.
impl Interface {
    /// Joins a group, and tells of it.
    fn join_group(&mut self, group: IpAddress) -> Result<(), MulticastError>
        ensures answer { result ≡ unless (host_join_refusal self.old group) tt }
        ensures after { self.new ≡ with_joined self.old group }
    {
        if is_untold(&self.reporter, &group) && is_multicast(&group) {
            return Err(MulticastError::GroupTableFull);
        }
        self.inner.join_multicast_group(group)?;
        if let Some(reporter) = &mut self.reporter {
            let _ = reporter.join(&self.inner, &group);
        }
        Ok(())
    }

    /// Leaves a group, and tells of it.
    fn leave_group(&mut self, group: &IpAddress) -> Result<(), MulticastError>
        ensures answer { result ≡ unless (leave_refusal group.now) tt }
        ensures after { self.new ≡ with_left self.old group.now }
    {
        self.inner.leave_multicast_group(group)?;
        self.follow();
        Ok(())
    }

    /// What is told follows groups and addresses.
    fn follow(&mut self)
        ensures { self.new ≡ with_followed self.old self.old.inner }
    {
        if let Some(reporter) = &mut self.reporter {
            reporter.follow(&self.inner);
        }
    }
}

/// Whether there is no room to tell of this group.
fn is_untold(reporter: &Option<Reporter>, group: &IpAddress) -> bool
    ensures { result ≡ is_untold group.now reporter.now }
{
    match reporter {
        Some(reporter) => reporter.is_full_for(group),
        None => false,
    }
}

/// What sockets see, as `connect` asks for it.
impl Context for Interface {
    ghost use Rattle.std.specs.Prelude.{refl};
    ghost use Rattle.iface_egress.specs.Inner.{context_of, drawn};
    ghost use Rattle.interface.specs.Made.{with_inner};

    ghost context = { λ h. context_of h.inner };

    ghost drawn = { λ h. with_inner h (drawn h.inner) };

    fn now(&self) -> Instant {
        self.inner.now()
    }

    fn has_ip_addr(&self, addr: &IpAddress) -> bool {
        self.inner.has_ip_addr(addr)
    }

    fn get_source_address(&self, dst_addr: &IpAddress) -> Option<IpAddress> {
        self.inner.get_source_address(dst_addr)
    }

    fn is_broadcast(&self, addr: &IpAddress) -> bool {
        self.inner.is_broadcast(addr)
    }

    fn ip_mtu(&self) -> usize {
        self.inner.ip_mtu()
    }

    fn checksum_caps(&self) -> ChecksumCapabilities {
        self.inner.checksum_caps()
    }

    fn isn_key(&self) -> Option<[u8; 16]> {
        self.inner.isn_key()
    }

    fn rand_u32(&mut self) -> u32 {
        self.inner.rand_u32()
    }

    ghost drawn_context = { λ h. refl };
}

/// Who tells of multicast groups, where anybody is to be told.
fn reporter_for(config: &Config) -> Option<Reporter>
    ensures { result ≡ new_reports config.now }
{
    if config.multicast_reports {
        Some(Reporter::new(config.random_seed))
    } else {
        None
    }
}

/// How many datagrams can come in fragments at a time at first.
fn assembler_count(config: &Config) -> usize
    ensures { result ≡ assembler_count config.now }
{
    if config.host_requirements {
        REASSEMBLY_COUNT_OF_MANY
    } else {
        REASSEMBLY_COUNT
    }
}
