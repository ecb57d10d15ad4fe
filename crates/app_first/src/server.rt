//! The server, which echoes datagrams, and streams.
use crate::host::Host;
use crate::net::End;
use crate::peer::Peer;
use anyhow::Result;
use net_base::Instant;
use sockets::{tcp, udp};
use std::alloc::Global;

/// The port of echoes.
pub const ECHO: u16 = 7;

/// A host that echoes.
#[derive(Drop)]
pub struct Server {
    peer: Peer,
}

impl Server {
    /// The one with this number.
    pub fn new(alloc: Global, number: u8) -> Result<Server> {
        Peer::new(alloc, number, ECHO, 0).map(|peer| Server { peer })
    }
}

impl End for Server {
    fn host(&mut self) -> &mut Host {
        self.peer.host()
    }

    fn act(&mut self, _now: Instant) {
        if let Some(socket) = self.peer.udp() {
            echo_datagram(socket);
        }
        if let Some(socket) = self.peer.tcp() {
            echo_stream(socket);
        }
    }
}

/// Sends the first datagram that waits back to where it came from.
fn echo_datagram(socket: &mut udp::Socket) {
    let mut buffer = [0; 1024];
    let Ok((count, sender)) = socket.recv_slice(&mut buffer) else {
        return;
    };
    let _ = socket.send_slice(&buffer[..count], sender);
}

/// Listens, sends back what waits, and closes where the other side did.
fn echo_stream(socket: &mut tcp::Socket) {
    let mut buffer = [0; 1024];
    if socket.state() == tcp::State::Closed {
        let _ = socket.listen(ECHO);
        return;
    }
    match socket.recv_slice(&mut buffer) {
        Ok(count) => {
            let _ = socket.send_slice(&buffer[..count]);
        }
        Err(tcp::RecvError::Finished) => socket.close(),
        Err(tcp::RecvError::InvalidState) => {}
    }
}
