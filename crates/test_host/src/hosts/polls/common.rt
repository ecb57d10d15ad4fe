//! Hosts: what they are made of, and their calls.
ghost use Rattle.net_base.specs.Time.{IsMoment};

use crate::cases::boxed;
use crate::hosts::kinds::common::udp_socket;
use crate::hosts::polls::streams::closed_socket;
use crate::hosts::polls::wire::prepared;
use interface::{
    Config, Interface, PollIngressSingleResult, PollResult, SocketHandle, SocketSet, SocketsByKind,
};
use ip_wire::{EthernetAddress, HardwareAddress, IpAddress, IpCidr, IpListenEndpoint};
use net_base::{Device, Instant, ManagedSlice, Medium};
use sim_link::Port;
use sockets::{AnySocket, Socket, udp};
use std::alloc::Global;
use std::test::Fail;

/// So many microseconds after the start.
pub fn at(micros: u32) -> Instant
    ensures { IsMoment result }
{
    Instant::from_micros(i64::from(micros))
}

/// The socket of a host: of UDP and bound to this port, or of TCP and closed.
#[derive(Clone, Copy, Drop)]
pub enum Has {
    Udp(u16),
    Tcp,
}

/// What a host is made of.
#[derive(Clone, Copy, Drop)]
pub struct Plan {
    pub medium: Medium,
    /// The host's seed, and the last byte of its addresses: 192.168.1.n, over Ethernet 02-00-00-00-00-n.
    pub number: u8,
    /// Whether fd00::n is its address, too.
    pub has_ipv6: bool,
    pub socket: Has,
    /// For how many bytes the socket has room each way.
    pub room: usize,
}

/// A host at a port of medium IP with a UDP socket at port 48896.
pub const UDP: Plan = Plan {
    medium: Medium::Ip,
    number: 1,
    has_ipv6: false,
    socket: Has::Udp(48_896),
    room: 64,
};

/// The same with a TCP socket.
pub const TCP: Plan = Plan {
    socket: Has::Tcp,
    ..UDP
};

fn hardware(plan: &Plan) -> HardwareAddress {
    match plan.medium {
        Medium::Ethernet => {
            HardwareAddress::Ethernet(EthernetAddress([2, 0, 0, 0, 0, plan.number]))
        }
        Medium::Ip => HardwareAddress::Ip,
    }
}

/// An interface without addresses.
fn bare<D: Device>(alloc: Global, plan: &Plan, device: &D) -> Option<Interface> {
    let config = Config {
        random_seed: u64::from(plan.number),
        ..Config::new(hardware(plan))
    };
    Interface::new(alloc, &config, device, at(0)).ok()
}

/// Gives the interface one more address.
fn add_address(interface: &mut Interface, address: IpCidr) -> bool {
    interface
        .update_ip_addrs(|addresses| {
            let _ = addresses.try_push(address);
        })
        .is_ok()
}

/// Gives it the planned ones.
fn add_addresses(interface: &mut Interface, plan: &Plan) -> bool {
    add_address(interface, ipv4(plan.number))
        && (!plan.has_ipv6 || add_address(interface, ipv6(plan.number)))
}

fn ipv4(number: u8) -> IpCidr {
    IpCidr::new(IpAddress::v4(192, 168, 1, number), 24)
}

fn ipv6(number: u8) -> IpCidr {
    IpCidr::new(
        IpAddress::v6(0xfd00, 0, 0, 0, 0, 0, 0, u16::from(number)),
        64,
    )
}

/// The planned host's interface at this device.
pub fn begin<D: Device>(alloc: Global, plan: &Plan, device: &D) -> Result<Interface, Fail> {
    let mut interface = bare(alloc, plan, device).ok_or("an interface")?;
    // Without them nothing below goes as it must.
    let _ = add_addresses(&mut interface, plan);
    Ok(interface)
}

/// A UDP socket, bound to this port.
fn bound_socket(alloc: Global, room: usize, port: u16) -> Result<udp::Socket, Fail> {
    let mut socket = udp_socket(alloc, room)?;
    let _ = socket.bind(IpListenEndpoint { addr: None, port });
    Ok(socket)
}

fn planned_socket(alloc: Global, plan: &Plan) -> Result<Socket, Fail> {
    match plan.socket {
        Has::Udp(port) => Ok(bound_socket(alloc, plan.room, port)?.upcast(alloc)?),
        Has::Tcp => Ok(closed_socket(alloc, plan.room)?.upcast(alloc)?),
    }
}

/// A set of no sockets.
pub fn no_sockets(alloc: Global) -> SocketSet<Socket> {
    SocketSet::new(ManagedSlice::Owned(Vec::new(alloc)))
}

/// A host at its device, with the socket of this handle.
#[derive(Drop)]
pub struct Host {
    pub interface: Interface,
    pub wire: Port,
    pub sockets: SocketSet<Socket>,
    pub handle: Option<SocketHandle>,
    /// The instant of its calls, in microseconds.
    pub now: u32,
}

impl Host {
    /// The planned host, at instant 0; on the heap, where lending it is cheap to prove.
    pub fn new(alloc: Global, plan: &Plan) -> Result<Box<Host>, Fail> {
        let mut host = boxed(alloc, Host::bare(alloc, plan)?)?;
        host.handle = host.sockets.add(planned_socket(alloc, plan)?).ok();
        Ok(host)
    }

    /// The same without its socket.
    fn bare(alloc: Global, plan: &Plan) -> Result<Host, Fail> {
        let wire = prepared(alloc, plan.medium)?;
        begin(alloc, plan, &wire).map(|interface| Host {
            interface,
            wire,
            sockets: no_sockets(alloc),
            handle: None,
            now: 0,
        })
    }

    /// Adds a socket to its set.
    pub fn add<K: AnySocket + Drop>(&mut self, socket: K) -> Option<SocketHandle> {
        self.sockets.add_as(socket).ok()
    }

    pub fn poll(&mut self, budget: u16) -> PollResult {
        let now = at(self.now);
        self.interface
            .poll(now, &mut self.wire, &mut self.sockets, budget)
    }

    /// Takes in one frame.
    pub fn ingress(&mut self) -> PollIngressSingleResult {
        let now = at(self.now);
        self.interface
            .poll_ingress_single(now, &mut self.wire, &mut self.sockets)
    }

    /// A frame comes. There may be no memory for it.
    pub fn comes(&mut self, frame: Vec<u8>) -> bool {
        self.wire.push(frame).is_ok()
    }

    /// How many of the frames that came wait yet.
    pub fn left(&self) -> usize {
        self.wire.waiting().len()
    }

    /// In how many microseconds it wants to be polled.
    pub fn delay(&mut self) -> Option<u64> {
        match self.interface.poll_delay(at(self.now), &self.sockets) {
            Some(delay) => Some(delay.total_micros()),
            None => None,
        }
    }

    fn udp(&mut self) -> Option<&mut udp::Socket> {
        self.sockets.get_mut_as(self.handle?)
    }

    /// Reads the next datagram, if one waits, and says how many bytes it has.
    pub fn received(&mut self) -> Option<u64> {
        match self.udp()?.recv() {
            Ok((bytes, _metadata)) => Some(bytes.len() as u64),
            Err(_) => None,
        }
    }
}
