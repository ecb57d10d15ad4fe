//! What the client asks of the server: a datagram, a stream, a ping.
use crate::host::address;
use crate::peer::Peer;
use crate::server::ECHO;
use anyhow::{Context, Result};
use control_wire::{Icmpv4Packet, Icmpv4PacketMut, Icmpv4Repr};
use ip_wire::IpEndpoint;
use net_base::ChecksumCapabilities;
use sockets::udp::UdpMetadata;
use std::alloc::Global;
use std::str;

/// The number of the server.
pub const SERVER: u8 = 2;

/// The port of the client, and the identifier of its pings.
pub const PORT: u16 = 49_152;

/// These bytes as text.
fn text(alloc: Global, bytes: &[u8]) -> Result<String> {
    Ok(String::from_str(alloc, str::from_utf8(bytes)?)?)
}

/// Sends a datagram.
pub fn send_datagram(client: &mut Peer, text: &[u8]) -> Result<()> {
    let server = IpEndpoint::new(address(SERVER), ECHO);
    let socket = client.udp().context("no socket")?;
    Ok(socket.send_slice(text, server)?)
}

/// Reads the next datagram: its text, and where it came from.
pub fn read_datagram(alloc: Global, client: &mut Peer) -> Result<(String, UdpMetadata)> {
    let mut buffer = [0; 64];
    let (count, sender) = client.udp().context("no socket")?.recv_slice(&mut buffer)?;
    Ok((text(alloc, &buffer[..count])?, sender))
}

/// Connects to the server.
pub fn connect(client: &mut Peer) -> Result<()> {
    client.connect((address(SERVER), ECHO), PORT)
}

/// Writes a text, and ends the stream.
pub fn write(client: &mut Peer, text: &[u8]) -> Result<usize> {
    let socket = client.tcp().context("no socket")?;
    let count = socket.send_slice(text)?;
    socket.close();
    Ok(count)
}

/// Reads what came.
pub fn read(alloc: Global, client: &mut Peer) -> Result<String> {
    let mut buffer = [0; 64];
    let count = client.tcp().context("no socket")?.recv_slice(&mut buffer)?;
    text(alloc, &buffer[..count])
}

/// Sends an echo request.
pub fn ping(client: &mut Peer, seq_no: u16) -> Result<()> {
    let request = Icmpv4Repr::EchoRequest {
        ident: PORT,
        seq_no,
        bytes: b"ping",
    };
    let mut message = [0; 12];
    request.emit(
        &mut Icmpv4PacketMut::new_unchecked(&mut message),
        &ChecksumCapabilities::default(),
    );
    let socket = client.icmp().context("no socket")?;
    Ok(socket.send_slice(&message, address(SERVER))?)
}

/// Reads the next message, and returns the number of the ping that it answers, if it answers one.
pub fn pong(client: &mut Peer) -> Result<Option<u16>> {
    let mut buffer = [0; 64];
    let socket = client.icmp().context("no socket")?;
    let (count, _) = socket.recv_slice(&mut buffer)?;
    let packet = Icmpv4Packet::new_checked(&buffer[..count])?;
    match Icmpv4Repr::parse(&packet, &ChecksumCapabilities::default())? {
        Icmpv4Repr::EchoReply { seq_no, .. } => Ok(Some(seq_no)),
        _ => Ok(None),
    }
}
