//! Sockets of each kind, with their buffers.
use anyhow::{Result, bail};
use net_base::{ManagedSlice, PacketBuffer, PacketMetadata, RingBuffer};
use sockets::{icmp, tcp, udp};
use std::alloc::Global;

/// A queue of four datagrams, of so many bytes together.
fn queue<H: Clone + Drop>(alloc: Global, bytes: usize) -> Result<PacketBuffer<H>> {
    let slots = vec![in alloc; PacketMetadata::EMPTY; 4]?;
    let bytes = vec![in alloc; 0; bytes]?;
    Ok(PacketBuffer::new(ManagedSlice::Fixed(slots), ManagedSlice::Fixed(bytes)))
}

/// A UDP socket, bound to this port of every own address.
pub fn datagrams(alloc: Global, port: u16) -> Result<udp::Socket> {
    let mut socket = udp::Socket::new(queue(alloc, 1024)?, queue(alloc, 1024)?);
    socket.bind(port)?;
    Ok(socket)
}

/// A socket for echo messages with this identifier.
pub fn pings(alloc: Global, ident: u16) -> Result<icmp::Socket> {
    let mut socket = icmp::Socket::new(queue(alloc, 256)?, queue(alloc, 256)?);
    socket.bind(icmp::Endpoint::Ident(ident))?;
    Ok(socket)
}

/// A TCP socket with room for so many bytes each way.
pub fn stream(alloc: Global, bytes: usize) -> Result<tcp::Socket> {
    let rx = RingBuffer::new(ManagedSlice::Fixed(vec![in alloc; 0u8; bytes]?));
    let tx = RingBuffer::new(ManagedSlice::Fixed(vec![in alloc; 0u8; bytes]?));
    if !tcp::Socket::fits_buffer(&rx) || !tcp::Socket::fits_buffer(&tx) {
        bail!("a buffer for {bytes} bytes is too long");
    }
    Ok(tcp::Socket::new(rx, tx))
}
