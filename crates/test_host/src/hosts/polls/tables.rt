//! A host with a table of 256 neighbours and one of 64 routes: a datagram goes to the router of a route in the middle.
use crate::hosts::polls::common::{Has, Host, Plan, UDP, at};
use interface::{Config, Interface, Route, SocketsByKind};
use ip_wire::{EthernetAddress, HardwareAddress, IpAddress, IpCidr, IpEndpoint};
use net_base::Medium;
use sim_link::Port;
use sockets::udp;
use std::alloc::Global;
use std::test::Fail;

/// The host 192.168.1.1 on Ethernet, with a UDP socket at port 48896.
const PLAN: Plan = Plan {
    medium: Medium::Ethernet,
    socket: Has::Udp(48_896),
    ..UDP
};

/// Its interface, with large tables.
fn roomy(alloc: Global, wire: &Port) -> Option<Interface> {
    let config = Config {
        neighbor_cache_count: 256,
        max_route_count: 64,
        ..Config::new(HardwareAddress::Ethernet(EthernetAddress([2, 0, 0, 0, 0, 1])))
    };
    Interface::new(alloc, &config, wire, at(0)).ok()
}

fn add_address(interface: &mut Interface) -> bool {
    interface
        .update_ip_addrs(|addresses| {
            let _ = addresses.try_push(IpCidr::new(IpAddress::v4(192, 168, 1, 1), 24));
        })
        .is_ok()
}

/// Adds the route of 10.x.0.0/16 by the neighbour of this number.
fn add_route(interface: &mut Interface, number: u8) -> bool {
    let route = Route {
        cidr: IpCidr::new(IpAddress::v4(10, number, 0, 0), 16),
        via_router: IpAddress::v4(192, 168, 1, number),
        preferred_until: None,
        expires_at: None,
    };
    interface.update_routes(|routes| routes.push(route)).is_ok()
}

/// Adds those of the neighbours 2 to 65.
fn add_routes(interface: &mut Interface) -> bool {
    for number in 2..66 {
        if !add_route(interface, number) {
            return false;
        }
    }
    true
}

/// An ARP request (RFC 826) for 192.168.1.1 from the neighbour 192.168.1.n, 02-00-00-00-01-n.
fn request(alloc: Global, n: u8) -> Option<Vec<u8>> {
    let frame = [
        0xff, 0xff, 0xff, 0xff, 0xff, 0xff, 2, 0, 0, 0, 1, n, 8, 6, 0, 1, 8, 0, 6, 4, 0, 1, 2, 0,
        0, 0, 1, n, 192, 168, 1, n, 0, 0, 0, 0, 0, 0, 192, 168, 1, 1,
    ];
    Vec::from_array(alloc, frame).ok()
}

impl Host {
    /// Hears the neighbours 2 to 254.
    fn hears_all(&mut self, alloc: Global) -> Option<()> {
        for number in 2..255 {
            if !self.comes(request(alloc, number)?) {
                return None;
            }
            let _told = self.ingress();
        }
        Some(())
    }

    /// Sends a byte to port 53 of this address.
    fn sends_to(&mut self, address: IpAddress) -> Option<()> {
        let socket: &mut udp::Socket = self.sockets.get_mut_as(self.handle?)?;
        socket.send_slice(&[7], IpEndpoint::new(address, 53)).ok()
    }

    /// Where the last frame went.
    fn last_went_to(&self) -> Option<&[u8]> {
        self.wire.sent().last()?.get(..6)
    }
}

/// Whether a datagram to 10.40.3.4 goes to neighbour 40.
fn is_routed(alloc: Global) -> Result<bool, Fail> {
    let mut host = Host::new(alloc, &PLAN)?;
    host.interface = roomy(alloc, &host.wire).ok_or("an interface")?;
    if !add_address(&mut host.interface) || !add_routes(&mut host.interface) {
        return Ok(false);
    }
    host.wire.prepare(300, 1_514)?;
    host.hears_all(alloc).ok_or("a frame")?;
    host.sends_to(IpAddress::v4(10, 40, 3, 4)).ok_or("room")?;
    let _told = host.poll(64);
    Ok(host.last_went_to() == Some(&[2, 0, 0, 0, 1, 40]))
}

#[test]
fn a_route_in_the_middle_is_taken(rt: HostRuntime) -> Result<(), Fail> {
    assert!(rt; is_routed(rt.alloc())?);
    Ok(())
}
