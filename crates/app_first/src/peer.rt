//! A host with a socket of each kind.
use crate::buffers::{datagrams, pings, stream};
use crate::host::{Host, add, configure};
use crate::net::End;
use anyhow::{Context, Result};
use interface::{SocketHandle, SocketSet, SocketsByKind};
use ip_wire::IpAddress;
use net_base::Instant;
use sockets::{Socket, icmp, tcp, udp};
use std::alloc::Global;

/// The handle of each of its sockets.
#[derive(Clone, Copy)]
struct Handles {
    datagrams: SocketHandle,
    stream: SocketHandle,
    pings: SocketHandle,
}

/// Adds a socket of each kind at this port.
fn add_all(alloc: Global, sockets: &mut SocketSet<Socket>, port: u16) -> Result<Handles> {
    Ok(Handles {
        datagrams: add(sockets, datagrams(alloc, port)?)?,
        stream: add(sockets, stream(alloc, 4096)?)?,
        pings: add(sockets, pings(alloc, port)?)?,
    })
}

/// Gives a host its address, a router and its sockets.
fn fill(alloc: Global, host: &mut Host, number: u8, port: u16) -> Result<Handles> {
    configure(&mut host.interface, number)?;
    add_all(alloc, &mut host.sockets, port)
}

/// A host with a socket of each kind, all at one port.
#[derive(Drop)]
pub struct Peer {
    host: Box<Host>,
    handles: Handles,
}

impl Peer {
    /// The one with this number, and with so much room for what is seen of its frames.
    pub fn new(alloc: Global, number: u8, port: u16, room: usize) -> Result<Peer> {
        let mut host = Host::new(alloc, number, room)?;
        fill(alloc, &mut host, number, port).map(|handles| Peer { host, handles })
    }

    /// Its UDP socket.
    pub fn udp(&mut self) -> Option<&mut udp::Socket> {
        self.host.sockets.get_mut_as(self.handles.datagrams)
    }

    /// Its TCP socket.
    pub fn tcp(&mut self) -> Option<&mut tcp::Socket> {
        self.host.sockets.get_mut_as(self.handles.stream)
    }

    /// Its ICMP socket.
    pub fn icmp(&mut self) -> Option<&mut icmp::Socket> {
        self.host.sockets.get_mut_as(self.handles.pings)
    }

    /// Connects its TCP socket: the interface draws the initial sequence number, and has the own address.
    pub fn connect(&mut self, remote: (IpAddress, u16), port: u16) -> Result<()> {
        let host: &mut Host = &mut self.host;
        let socket: Option<&mut tcp::Socket> = host.sockets.get_mut_as(self.handles.stream);
        let socket = socket.context("no socket")?;
        Ok(socket.connect(&mut host.interface, remote, port)?)
    }
}

impl End for Peer {
    fn host(&mut self) -> &mut Host {
        &mut self.host
    }

    // What it does, it does between turns.
    fn act(&mut self, _now: Instant) {}
}
