//! The host: an interface, a client of DHCP, one of DNS, a socket for echo messages, and one for a page.
ghost use Rattle.net_base.specs.Time.{IsMoment};

use crate::boot::buffers::{pings, stream};
use crate::boot::orders::Orders;
use crate::boot::page;
use crate::boot::pings::IDENT;
use crate::boot::plan::Plan;
use crate::boot::steps::act;
use anyhow::{Result, anyhow};
use app_tun_services::Watch;
use app_tun_services::link::Drain;
use interface::{Config, Interface, SocketHandle, SocketSet, SocketsByKind, earlier};
use ip_wire::{EthernetAddress, HardwareAddress};
use net_base::{ChecksumCapabilities, DeviceCapabilities, Instant, ManagedSlice, Medium};
use sockets::{AnySocket, Socket, dhcp, dns};
use std::alloc::Global;

/// How many frames a poll takes in, and how often it goes over the sockets, at most.
const BUDGET: u16 = 16;

/// The handle of each of a host's sockets.
#[derive(Clone, Copy)]
pub struct Handles {
    pub dhcp: SocketHandle,
    pub dns: SocketHandle,
    pub pings: SocketHandle,
    pub stream: SocketHandle,
}

/// A host, what it has to ask, and whom.
#[derive(Drop)]
pub struct Host {
    interface: Interface,
    pub drain: Drain,
    sockets: SocketSet<Socket>,
    handles: Handles,
    plan: Plan,
}

/// An interface at this device, without an address.
fn bare(
    alloc: Global,
    hardware_addr: EthernetAddress,
    seed: u64,
    drain: &Drain,
    now: Instant,
) -> Result<Interface>
    requires { IsMoment now }
{
    let config = Config {
        random_seed: seed,
        ..Config::with_host_requirements(HardwareAddress::Ethernet(hardware_addr))
    };
    Ok(Interface::new(alloc, &config, drain, now)?)
}

/// A client of DHCP that keeps the requirements of a host on a network of many.
fn leases(hardware_addr: EthernetAddress, seed: u64) -> dhcp::Socket {
    let mut socket = dhcp::Socket::new(hardware_addr, seed);
    socket.set_host_requirements(true);
    socket
}

/// A client of DNS that does, without servers.
fn names() -> dns::Socket {
    let mut socket = dns::Socket::new(&[]);
    socket.set_host_requirements(true);
    socket
}

/// Adds a socket of each kind.
fn add_all(
    alloc: Global,
    hardware_addr: EthernetAddress,
    seed: u64,
    sockets: &mut SocketSet<Socket>,
) -> Result<Handles> {
    Ok(Handles {
        dhcp: add(sockets, leases(hardware_addr, seed))?,
        dns: add(sockets, names())?,
        pings: add(sockets, pings(alloc, IDENT)?)?,
        stream: add(sockets, stream(alloc, page::ROOM)?)?,
    })
}

/// A set of such sockets.
fn set(
    alloc: Global,
    hardware_addr: EthernetAddress,
    seed: u64,
) -> Result<(SocketSet<Socket>, Handles)> {
    let mut sockets = SocketSet::new(ManagedSlice::Owned(Vec::new(alloc)));
    add_all(alloc, hardware_addr, seed, &mut sockets).map(|handles| (sockets, handles))
}

impl Host {
    /// A host without an address. It is large, so it stands on the heap.
    pub fn new(alloc: Global, orders: Orders, now: Instant) -> Result<Box<Host>>
        requires { IsMoment now }
    {
        let Orders {
            hardware_addr,
            seed,
            questions,
        } = orders;
        let drain = Drain::new(alloc, capabilities());
        let interface = bare(alloc, hardware_addr, seed, &drain, now);
        let host = both(interface, set(alloc, hardware_addr, seed)).map(|(
            interface,
            (sockets, handles),
        )| Host {
            interface,
            drain,
            sockets,
            handles,
            plan: Plan::new(questions),
        });
        boxed(alloc, host)
    }

    /// Takes a frame, or none, at this instant, and says what came of it.
    pub fn turn<R: Eprint, V: Watch>(
        &mut self,
        rt: &R,
        watch: &mut V,
        frame: Vec<u8>,
        now: Instant,
    ) -> Result<()>
        requires { IsMoment now }
    {
        self.drain.put(frame);
        self.poll(watch, now);
        let handles = self.handles;
        let said = act(
            rt,
            &mut self.interface,
            &mut self.sockets,
            handles,
            &mut self.plan,
            now,
        );
        self.poll(watch, now);
        said
    }

    fn poll<V: Watch>(&mut self, watch: &mut V, now: Instant)
        requires { IsMoment now }
    {
        let _ = watch.poll(
            &mut self.interface,
            &mut self.drain,
            &mut self.sockets,
            now,
            BUDGET,
        );
    }

    /// When it wants its next turn.
    pub fn next(&mut self, now: Instant) -> Option<Instant>
        requires { IsMoment now }
    {
        earlier(
            self.interface.poll_at(now, &self.sockets),
            self.plan.ping_at,
        )
    }
}

/// An Ethernet device.
fn capabilities() -> DeviceCapabilities {
    DeviceCapabilities {
        medium: Medium::Ethernet,
        max_transmission_unit: 1514,
        checksum: ChecksumCapabilities::default(),
    }
}

/// Both values, if both could be made. (What they are it doesn't know, so its proof is short, and so is that of its caller.)
fn both<A: Drop, B: Drop>(first: Result<A>, second: Result<B>) -> Result<(A, B)> {
    Ok((first?, second?))
}

/// A value on the heap, if it could be made.
fn boxed<T: Drop>(alloc: Global, value: Result<T>) -> Result<Box<T>> {
    Ok(Box::new(alloc, value?)?)
}

/// Adds a socket to a set that grows.
fn add<S: AnySocket + Drop>(sockets: &mut SocketSet<Socket>, socket: S) -> Result<SocketHandle> {
    sockets
        .add_as(socket)
        .map_err(|_| anyhow!("no memory for a socket"))
}
