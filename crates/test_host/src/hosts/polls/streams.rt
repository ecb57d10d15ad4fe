//! Hosts' TCP sockets.
use crate::hosts::polls::common::Host;
use interface::SocketsByKind;
use ip_wire::{IpAddress, IpEndpoint};
use net_base::{ManagedSlice, RingBuffer};
use sockets::tcp::State;
use sockets::{Socket, tcp};
use std::alloc::Global;
use std::test::Fail;

fn ring(alloc: Global, room: usize) -> Result<RingBuffer<u8>, Fail> {
    let bytes = vec![in alloc; 0; room]?;
    Ok(RingBuffer::new(ManagedSlice::Fixed(bytes)))
}

/// A closed socket with room for so many bytes each way.
pub fn closed_socket(alloc: Global, room: usize) -> Result<tcp::Socket, Fail> {
    let (received, queued) = (ring(alloc, room)?, ring(alloc, room)?);
    if !tcp::Socket::fits_buffer(&received) || !tcp::Socket::fits_buffer(&queued) {
        return Err("buffers of at most 2^30 bytes".into());
    }
    Ok(tcp::Socket::new(received, queued))
}

/// A socket that listens at port 80.
pub fn listening_socket(alloc: Global, room: usize) -> Result<tcp::Socket, Fail> {
    let mut socket = closed_socket(alloc, room)?;
    let _ = listens(&mut socket);
    Ok(socket)
}

fn listens(socket: &mut tcp::Socket) -> bool {
    socket.listen(80).is_ok()
}

impl Host {
    /// Its TCP socket.
    pub fn tcp(&mut self) -> Option<&mut tcp::Socket> {
        self.sockets.get_mut_as(self.handle?)
    }

    /// Connects from port 49500 to port 80 of 192.168.1.2.
    pub fn connect(&mut self) -> bool {
        let remote = IpEndpoint::new(IpAddress::v4(192, 168, 1, 2), 80);
        let Some(handle) = self.handle else {
            return false;
        };
        match self.sockets.get_mut(handle) {
            Some(Socket::Tcp(socket)) => {
                socket.connect(&mut self.interface, remote, 49_500).is_ok()
            }
            _ => false,
        }
    }

    /// Listens at port 80.
    pub fn listen(&mut self) -> bool {
        match self.tcp() {
            Some(socket) => listens(socket),
            None => false,
        }
    }

    pub fn state(&mut self) -> Option<State> {
        match self.tcp() {
            Some(socket) => Some(socket.state()),
            None => None,
        }
    }
}
