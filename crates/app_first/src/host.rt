//! A host: an interface at one end of a wire, and its sockets.
ghost use Rattle.net_base.specs.Time.{IsMoment};

use crate::tap::{Tap, tap};
use anyhow::{Context, Result, anyhow};
use interface::{Config, Interface, SocketHandle, SocketSet, SocketsByKind};
use ip_wire::{EthernetAddress, HardwareAddress, IpAddress, IpCidr, Ipv4Address};
use net_base::{Instant, ManagedSlice};
use sockets::{AnySocket, Socket};
use std::alloc::Global;

/// How many frames a poll takes in, and how often it goes over the sockets, at most.
const BUDGET: u16 = 16;

/// The address of the host with this number.
pub fn address(number: u8) -> IpAddress {
    IpAddress::v4(192, 168, 1, number)
}

/// An interface at the wire, without an address.
fn bare(alloc: Global, wire: &Tap, number: u8) -> Result<Interface> {
    let config = Config {
        random_seed: u64::from(number),
        ..Config::with_host_requirements(HardwareAddress::Ethernet(EthernetAddress([
            2, 0, 0, 0, 0, number,
        ])))
    };
    Ok(Interface::new(alloc, &config, wire, Instant::ZERO)?)
}

/// Sets the one address of an interface, or none. The answer is whether a host can have it.
pub fn set_address(interface: &mut Interface, address: Option<IpCidr>) -> bool {
    interface
        .update_ip_addrs(|addresses| {
            addresses.clear();
            if let Some(address) = address {
                let _ = addresses.try_push(address);
            }
        })
        .is_ok()
}

/// Sets a router for all that isn't near, if there is room for a route.
pub fn set_router(interface: &mut Interface, router: Ipv4Address) -> bool {
    interface
        .update_routes(|routes| routes.add_default_ipv4_route(router))
        .is_ok()
}

/// Sets the address of this number and a router.
pub fn configure(interface: &mut Interface, number: u8) -> Result<()> {
    let router = Ipv4Address::new(192, 168, 1, 254);
    let local = IpCidr::new(address(number), 24);
    if set_address(interface, Some(local)) && set_router(interface, router) {
        Ok(())
    } else {
        Err(anyhow!("no host's address, or no room for a route"))
    }
}

/// A value on the heap, if it could be made.
fn boxed<T: Drop>(alloc: Global, value: Result<T>) -> Result<Box<T>> {
    Ok(Box::new(alloc, value?)?)
}

/// Adds a socket to a set that grows.
pub fn add<K: AnySocket + Drop>(
    sockets: &mut SocketSet<Socket>,
    socket: K,
) -> Result<SocketHandle> {
    sockets
        .add_as(socket)
        .ok()
        .context("no memory for a socket")
}

/// A host at its end of the wire.
#[derive(Drop)]
pub struct Host {
    pub interface: Interface,
    pub wire: Tap,
    pub sockets: SocketSet<Socket>,
}

impl Host {
    /// The host with this number, without an address or a socket, and with so much room for what is seen of its frames. It is large, so it
    /// stands on the heap.
    pub fn new(alloc: Global, number: u8, room: usize) -> Result<Box<Host>> {
        let wire = tap(alloc, room)?;
        let host = bare(alloc, &wire, number).map(|interface| Host {
            interface,
            wire,
            sockets: SocketSet::new(ManagedSlice::Owned(Vec::new(alloc))),
        });
        boxed(alloc, host)
    }

    /// Takes in what came, and sends what is to be sent.
    pub fn poll(&mut self, now: Instant)
        requires { IsMoment now }
    {
        self.interface
            .poll(now, &mut self.wire, &mut self.sockets, BUDGET);
    }

    /// When it wants to be polled.
    pub fn poll_at(&mut self, now: Instant) -> Option<Instant>
        requires { IsMoment now }
    {
        self.interface.poll_at(now, &self.sockets)
    }
}
