//! Calls of UDP, ICMP and raw sockets. Each says what its kind of socket makes of it; memory is asked for before anything changes.
ghost use Rattle.std.specs.Prelude.{◌≡◌, ◌≤◌, length, take, IfOk, OnOk, OnErr};
ghost use Rattle.net_base.specs.Packets.{first};
ghost use Rattle.socket_datagram.specs.SocketValue.{recv_after};
ghost use Rattle.socket_datagram.specs.Udp as udps;
ghost use Rattle.socket_datagram.specs.Icmp as icmps;
ghost use Rattle.socket_datagram.specs.Raw as raws;
ghost use Rattle.socket_datagram.specs.declared.icmp.Endpoint.TheVariants.{Ident};
ghost use Rattle.lan.specs.Worlds.AtLink.Calls.{done_or, bind_fault, send_fault, at_port, datagram_or};
ghost use Rattle.lan.specs.Worlds.AtLink.Does.{raw_fault, message_or, packet_or};
ghost use Rattle.lan.specs.Worlds.AtLink.Answers.{IsTwice, brief};

use crate::at_link::answer::{Brief, Twins, bound, read_fault, sent, sent_raw, twins, two_buffers};
use crate::at_link::history::{Answer, Bytes};
use ip_wire::{IpAddress, IpEndpoint, IpListenEndpoint};
use net_base::PacketMeta;
use sockets::{icmp, raw, udp};
use std::alloc::{AllocError, Global};

/// Binds a UDP socket to a local port.
pub fn bind(socket: &mut udp::Socket, port: u16) -> Brief
    ensures answer { brief result ≡ done_or bind_fault (udps.bind_answer socket.old (at_port port)) }
    ensures after { socket.new ≡ udps.bind_after socket.old (at_port port) }
{
    bound(socket.bind(IpListenEndpoint { addr: None, port }))
}

/// Queues a datagram for an endpoint.
pub fn send_to(socket: &mut udp::Socket, remote: IpEndpoint, bytes: &Bytes) -> Brief
    ensures answer { brief result ≡ done_or send_fault (udps.send_answer socket.old (udps.metadata_to remote) (length bytes.now)) }
    ensures after { socket.new ≡ udps.send_after socket.old (udps.metadata_to remote) bytes.now }
{
    let metadata = udp::UdpMetadata {
        endpoint: remote,
        local_address: None,
        meta: PacketMeta::default(),
    };
    sent(socket.send_slice(bytes.as_slice(), metadata))
}

/// Binds an ICMP socket to an identifier.
pub fn ident(socket: &mut icmp::Socket, ident: u16) -> Brief
    ensures answer { brief result ≡ done_or bind_fault (icmps.bind_answer socket.old (Ident ident)) }
    ensures after { socket.new ≡ icmps.bind_after socket.old (Ident ident) }
{
    bound(socket.bind(icmp::Endpoint::Ident(ident)))
}

/// Queues an ICMP message for an address.
pub fn send_icmp(socket: &mut icmp::Socket, remote: IpAddress, bytes: &Bytes) -> Brief
    ensures answer { brief result ≡ done_or send_fault (icmps.send_answer socket.old remote (length bytes.now)) }
    ensures after { socket.new ≡ icmps.send_after socket.old remote bytes.now }
{
    sent(socket.send_slice(bytes.as_slice(), remote))
}

/// Queues an IP packet.
pub fn send_raw(socket: &mut raw::Socket, bytes: &Bytes) -> Brief
    ensures answer { brief result ≡ done_or raw_fault (raws.send_answer socket.old (length bytes.now)) }
    ensures after { socket.new ≡ raws.send_after socket.old bytes.now }
{
    sent_raw(socket.send_slice(bytes.as_slice()))
}

/// The first so many bytes, twice.
fn first_bytes(mut bytes: Vec<u8>, mut twin: Vec<u8>, count: usize) -> (Bytes, Bytes)
    requires twin { length twin.items ≡ length bytes.items }
    requires within { count ≤ length bytes.items }
    ensures one { result.0 ≡ take count bytes.items }
    ensures other { result.1 ≡ take count bytes.items }
{
    twin.copy_from_slice(bytes.as_slice());
    bytes.truncate(count);
    twin.truncate(count);
    (Bytes::from_vec(bytes), Bytes::from_vec(twin))
}

/// Reads the first datagram, unless it has more bytes than a buffer, and copies it to the buffer's twin.
fn datagram_twice(socket: &mut udp::Socket, mut bytes: Vec<u8>, twin: Vec<u8>) -> Twins
    requires { length twin.items ≡ length bytes.items }
    ensures answer { IsTwice result (datagram_or (first socket.old.received) (length bytes.items)) }
    ensures after { socket.new ≡ recv_after socket.old }
{
    match socket.recv_slice(&mut bytes) {
        Ok((count, metadata)) => {
            let (one, other) = first_bytes(bytes, twin, count);
            (
                Answer::FromEndpoint(metadata.endpoint, one),
                Answer::FromEndpoint(metadata.endpoint, other),
            )
        }
        Err(fault) => twins(Brief::Error(read_fault(fault))),
    }
}

/// Reads the first datagram, unless it has more bytes than this.
pub fn recv_datagram(
    alloc: Global,
    socket: &mut udp::Socket,
    limit: usize,
) -> Result<Twins, AllocError>
    ensures answer { IfOk result (λ r. IsTwice r (datagram_or (first socket.old.received) limit)) }
    ensures after { OnOk result (socket.new ≡ recv_after socket.old) }
    ensures unchanged { OnErr result (socket.new ≡ socket.old) }
{
    let most = limit.min(socket.recv_queue());
    let (bytes, twin) = two_buffers(alloc, most)?;
    Ok(datagram_twice(socket, bytes, twin))
}

/// Reads the first ICMP message, unless it has more bytes than a buffer, and copies it to the buffer's twin.
fn message_twice(socket: &mut icmp::Socket, mut bytes: Vec<u8>, twin: Vec<u8>) -> Twins
    requires { length twin.items ≡ length bytes.items }
    ensures answer { IsTwice result (message_or (first socket.old.received) (length bytes.items)) }
    ensures after { socket.new ≡ recv_after socket.old }
{
    match socket.recv_slice(&mut bytes) {
        Ok((count, remote)) => {
            let (one, other) = first_bytes(bytes, twin, count);
            (
                Answer::FromAddr(remote, one),
                Answer::FromAddr(remote, other),
            )
        }
        Err(fault) => twins(Brief::Error(read_fault(fault))),
    }
}

/// Reads the first ICMP message, unless it has more bytes than this.
pub fn recv_message(
    alloc: Global,
    socket: &mut icmp::Socket,
    limit: usize,
) -> Result<Twins, AllocError>
    ensures answer { IfOk result (λ r. IsTwice r (message_or (first socket.old.received) limit)) }
    ensures after { OnOk result (socket.new ≡ recv_after socket.old) }
    ensures unchanged { OnErr result (socket.new ≡ socket.old) }
{
    let most = limit.min(socket.recv_queue());
    let (bytes, twin) = two_buffers(alloc, most)?;
    Ok(message_twice(socket, bytes, twin))
}

/// Reads the first IP packet, unless it has more bytes than a buffer, and copies it to the buffer's twin.
fn packet_twice(socket: &mut raw::Socket, mut bytes: Vec<u8>, twin: Vec<u8>) -> Twins
    requires { length twin.items ≡ length bytes.items }
    ensures answer { IsTwice result (packet_or (first socket.old.received) (length bytes.items)) }
    ensures after { socket.new ≡ recv_after socket.old }
{
    match socket.recv_slice(&mut bytes) {
        Ok(count) => {
            let (one, other) = first_bytes(bytes, twin, count);
            (Answer::Bytes(one), Answer::Bytes(other))
        }
        Err(fault) => twins(Brief::Error(read_fault(fault))),
    }
}

/// Reads the first IP packet, unless it has more bytes than this.
pub fn recv_packet(
    alloc: Global,
    socket: &mut raw::Socket,
    limit: usize,
) -> Result<Twins, AllocError>
    ensures answer { IfOk result (λ r. IsTwice r (packet_or (first socket.old.received) limit)) }
    ensures after { OnOk result (socket.new ≡ recv_after socket.old) }
    ensures unchanged { OnErr result (socket.new ≡ socket.old) }
{
    let most = limit.min(socket.recv_queue());
    let (bytes, twin) = two_buffers(alloc, most)?;
    Ok(packet_twice(socket, bytes, twin))
}
