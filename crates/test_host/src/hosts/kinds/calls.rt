//! Calls that no script makes: how a TCP socket begins, what a raw socket takes and sends, and a datagram that is handed out at once.
use crate::cases::all;
use crate::hosts::kinds::common::{make_host, raw_socket, udp_socket};
use crate::hosts::kinds::udp::{V4, length_of};
use ip_wire::{IpEndpoint, IpProtocol, IpVersion};
use net_base::{ManagedSlice, RingBuffer};
use sockets::udp::UdpMetadata;
use sockets::{IpPayload, Packet, raw, tcp, udp};
use std::alloc::{AllocError, Global};

fn stream(alloc: Global) -> Result<tcp::Socket, AllocError> {
    let rx = RingBuffer::new(ManagedSlice::Fixed(vec![in alloc; 0u8; 64]?));
    let tx = RingBuffer::new(ManagedSlice::Fixed(vec![in alloc; 0u8; 64]?));
    Ok(tcp::Socket::new(rx, tx))
}

/// Whether a connection exists or is opened, whether bytes may come, whether Nagle's rule holds, whether segments have timestamps.
fn says(socket: &tcp::Socket) -> (bool, bool, bool, bool) {
    (
        socket.is_active(),
        socket.may_recv(),
        socket.nagle_enabled(),
        socket.timestamp_enabled(),
    )
}

/// Whether it is closed, and is no more when it listens.
fn is_closed(socket: &mut tcp::Socket) -> bool {
    let first = says(socket) == (false, false, true, false);
    let listens = socket.listen(80).is_ok();
    first && listens && says(socket) == (false, false, true, false)
}

fn begins_closed(alloc: Global) -> bool {
    match stream(alloc) {
        Ok(mut socket) => is_closed(&mut socket),
        Err(AllocError) => false,
    }
}

/// What a raw socket takes.
fn takes(alloc: Global) -> Option<(Option<IpVersion>, Option<IpProtocol>)> {
    match raw_socket(alloc, Some(IpVersion::Ipv4), Some(IpProtocol::Udp)) {
        Ok(socket) => Some((socket.ip_version(), socket.ip_protocol())),
        Err(AllocError) => None,
    }
}

/// An echo request of identifier 0x1234 and number 1, without data.
const ECHO_REQUEST: [u8; 8] = [0x08, 0x00, 0xe5, 0xca, 0x12, 0x34, 0x00, 0x01];

/// The request in an IPv4 packet from 192.168.1.1 to 192.168.1.2 of 3 hops, with four bytes of options, a
/// checksum of 0 and two bytes of padding.
const IPV4_REQUEST: [u8; 34] = [
    0x46, 0x00, 0x00, 0x20, 0x00, 0x00, 0x00, 0x00, 0x03, 0x01, 0x00, 0x00, 192, 168, 1, 1, 192,
    168, 1, 2, 0x01, 0x01, 0x01, 0x00, 0x08, 0x00, 0xe5, 0xca, 0x12, 0x34, 0x00, 0x01, 0xee, 0xee,
];

/// How many bytes are queued of a closure that writes 34 and takes back the last.
fn write_request(socket: &mut raw::Socket) -> Result<usize, raw::SendError> {
    socket.send_with(34, |bytes: &mut [u8]| {
        bytes.copy_from_slice(&IPV4_REQUEST);
        33
    })
}

/// Whether a packet takes the request to 192.168.1.2 over 3 hops.
fn is_request(packet: Packet<'_>) -> Result<(), bool> {
    let header = packet.ip_repr();
    let goes_there = (
        header.hop_limit(),
        header.dst_addr(),
        header.next_header(),
        header.payload_len(),
    ) == (3, V4, IpProtocol::Icmp, 8);
    Err(goes_there && carries_request(&packet.payload()))
}

fn carries_request(payload: &IpPayload<'_>) -> bool {
    match payload {
        IpPayload::Raw(bytes) => *bytes == ECHO_REQUEST.as_slice(),
        _ => false,
    }
}

/// Whether what a closure wrote is queued and handed out.
fn is_written(socket: &mut raw::Socket) -> bool {
    write_request(socket) == Ok(33) && socket.dispatch(&make_host(None), is_request) == Err(true)
}

fn a_packet_is_written(alloc: Global) -> bool {
    match raw_socket(alloc, None, None) {
        Ok(mut socket) => is_written(&mut socket),
        Err(AllocError) => false,
    }
}

/// Whether a refused datagram is handed out again.
fn hands_out_again(socket: &mut udp::Socket) -> bool {
    let host = make_host(Some(V4));
    let sent = socket.bind((V4, 48_896)).is_ok() && socket.send_slice(b"abc", (V4, 53)).is_ok();
    let refused = socket.dispatch(&host, length_of);
    let again = socket.dispatch(&host, length_of);
    sent && (refused, again, socket.can_send()) == (Err(3), Err(3), true)
}

fn a_datagram_is_handed_out_again(alloc: Global) -> bool {
    match udp_socket(alloc, 64) {
        Ok(mut socket) => hands_out_again(&mut socket),
        Err(AllocError) => false,
    }
}

/// Whether metadata print their endpoint.
fn metadata_are_printed(alloc: Global) -> bool {
    let endpoint = IpEndpoint::new(V4, 53);
    match format!(in alloc; "{} {endpoint}", UdpMetadata::from((V4, 53))) {
        Ok(shown) => shown.as_str() == "192.168.1.2:53 192.168.1.2:53",
        Err(AllocError) => false,
    }
}

#[test]
fn calls_answer(rt: HostRuntime) {
    let taken = (Some(IpVersion::Ipv4), Some(IpProtocol::Udp));
    all(
        &rt,
        &[
            begins_closed(rt.alloc()),
            takes(rt.alloc()) == Some(taken),
            a_packet_is_written(rt.alloc()),
            a_datagram_is_handed_out_again(rt.alloc()),
            metadata_are_printed(rt.alloc()),
        ],
    );
}
