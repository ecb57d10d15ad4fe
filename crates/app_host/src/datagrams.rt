//! Lines of UDP, ICMP and raw sockets.
use crate::answer::Answer;
use crate::host::Host;
use crate::refusal_text::Refusal;
use crate::stop::Class;
use crate::words::{Words, number};
use ip_wire::{IpAddress, IpEndpoint, IpListenEndpoint};
use net_base::Medium;
use sim_link::names_tcp_or_udp;
use sockets::icmp::Endpoint;
use sockets::udp::{BindError, RecvError, SendError, UdpMetadata};
use sockets::{Socket, icmp, raw, udp};
use std::alloc::Global;

/// The lines of these sockets.
#[derive(Clone, Copy)]
pub enum Verb {
    Bind,
    Ident,
    Errors,
    SendTo,
    SendIcmp,
    SendRaw,
    SendAny,
    RecvFrom,
    Peek,
}

/// Plays one of these lines.
pub fn play(alloc: Global, host: &mut Host, verb: Verb, words: &mut Words<'_>) -> Answer {
    words.host();
    let slot = words.size();
    match verb {
        Verb::Bind => bind(host, slot, words),
        Verb::Ident => {
            let ident = Endpoint::Ident(words.short(Class::Identifier));
            bind_icmp(host, slot, ident, words)
        }
        Verb::Errors => {
            let quoted = quoted(words);
            bind_icmp(host, slot, quoted, words)
        }
        Verb::SendTo => send_to(alloc, host, slot, words),
        Verb::SendIcmp => send_icmp(alloc, host, slot, words),
        Verb::SendRaw => send_raw(alloc, host, slot, true, words),
        Verb::SendAny => send_raw(alloc, host, slot, false, words),
        Verb::RecvFrom => receive(alloc, host, slot, true, words),
        Verb::Peek => receive(alloc, host, slot, false, words),
    }
}

fn bind(host: &mut Host, slot: usize, words: &mut Words<'_>) -> Answer {
    let endpoint = listened(words);
    words.end();
    match host.udp(slot, words) {
        Some(socket) => bound(socket.bind(endpoint)),
        None => Answer::Done,
    }
}

fn bind_icmp(host: &mut Host, slot: usize, endpoint: Endpoint, words: &mut Words<'_>) -> Answer {
    words.end();
    match host.icmp(slot, words) {
        Some(socket) => bound(socket.bind(endpoint)),
        None => Answer::Done,
    }
}

/// What errors are for an ICMP socket: those about what this port sent.
fn quoted(words: &mut Words<'_>) -> Endpoint {
    match words.word(Class::KindOfEndpoint) {
        "none" => Endpoint::Unspecified,
        "udp" => Endpoint::Udp(listened(words)),
        "tcp" => Endpoint::Tcp(listened(words)),
        _ => {
            words.wrong(Class::KindOfEndpoint);
            Endpoint::Unspecified
        }
    }
}

/// A port of every address, or an address and a port.
fn listened(words: &mut Words<'_>) -> IpListenEndpoint {
    let word = words.word(Class::Listened);
    if let Some(port) = number(word) {
        return IpListenEndpoint { addr: None, port };
    }
    match word.parse::<IpEndpoint>() {
        Ok(endpoint) => IpListenEndpoint {
            addr: Some(endpoint.addr),
            port: endpoint.port,
        },
        Err(_) => {
            words.wrong(Class::Listened);
            IpListenEndpoint {
                addr: None,
                port: 0,
            }
        }
    }
}

fn send_to(alloc: Global, host: &mut Host, slot: usize, words: &mut Words<'_>) -> Answer {
    let remote = UdpMetadata::from(words.endpoint());
    let bytes = words.last_bytes(alloc);
    match host.udp(slot, words) {
        Some(socket) => sent(socket.send_slice(bytes.as_slice(), remote)),
        None => Answer::Done,
    }
}

fn send_icmp(alloc: Global, host: &mut Host, slot: usize, words: &mut Words<'_>) -> Answer {
    let remote = words.address();
    let bytes = words.last_bytes(alloc);
    match host.icmp(slot, words) {
        Some(socket) => sent(socket.send_slice(bytes.as_slice(), remote)),
        None => Answer::Done,
    }
}

/// `sendraw` refuses packets that name TCP or UDP, and `sendany` none.
fn send_raw(
    alloc: Global,
    host: &mut Host,
    slot: usize,
    is_checked: bool,
    words: &mut Words<'_>,
) -> Answer {
    let bytes = words.last_bytes(alloc);
    let is_refused = is_checked && names_tcp_or_udp(Medium::Ip, bytes.as_slice());
    match host.raw(slot, words) {
        Some(_) if is_refused => words.refuse(Refusal::RawProtocol),
        Some(socket) => sent_raw(socket.send_slice(bytes.as_slice())),
        None => Answer::Done,
    }
}

fn bound(answer: Result<(), BindError>) -> Answer {
    match answer {
        Ok(()) => Answer::Done,
        Err(BindError::InvalidState) => Answer::Error(Refusal::InvalidState),
        Err(BindError::Unaddressable) => Answer::Error(Refusal::Unaddressable),
    }
}

fn sent(answer: Result<(), SendError>) -> Answer {
    match answer {
        Ok(()) => Answer::Done,
        Err(SendError::Unaddressable) => Answer::Error(Refusal::Unaddressable),
        Err(SendError::BufferFull) => Answer::Error(Refusal::BufferFull),
    }
}

fn sent_raw(answer: Result<(), raw::SendError>) -> Answer {
    match answer {
        Ok(()) => Answer::Done,
        Err(raw::SendError::BufferFull) => Answer::Error(Refusal::BufferFull),
    }
}

fn unread(error: RecvError) -> Answer {
    match error {
        RecvError::Exhausted => Answer::Error(Refusal::Exhausted),
        RecvError::Truncated => Answer::Error(Refusal::Truncated),
    }
}

/// Reads the first datagram, message or packet, if it has no more bytes than the line says, or shows it, and it stays first.
fn receive(
    alloc: Global,
    host: &mut Host,
    slot: usize,
    takes: bool,
    words: &mut Words<'_>,
) -> Answer {
    let most = words.size();
    words.end();
    let Some(socket) = host.socket(slot, words) else {
        return Answer::Done;
    };
    match vec![in alloc; 0; most.min(waiting(socket))].ok() {
        Some(bytes) if takes => take(socket, bytes, words),
        Some(bytes) => peek(socket, bytes, words),
        None => words.refuse(Refusal::Memory),
    }
}

// How many bytes wait at a socket of such a kind.
fn waiting(socket: &Socket) -> usize {
    match socket {
        Socket::Udp(socket) => socket.recv_queue(),
        Socket::Icmp(socket) => socket.recv_queue(),
        Socket::Raw(socket) => socket.recv_queue(),
        Socket::Tcp(_) | Socket::Dhcpv4(_) | Socket::Dns(_) => 0,
    }
}

fn take(socket: &mut Socket, bytes: Vec<u8>, words: &mut Words<'_>) -> Answer {
    match socket {
        Socket::Udp(socket) => datagram(socket, bytes),
        Socket::Icmp(socket) => message(socket, bytes),
        Socket::Raw(socket) => packet(socket, bytes),
        Socket::Tcp(_) | Socket::Dhcpv4(_) | Socket::Dns(_) => words.refuse(Refusal::WrongKind),
    }
}

fn peek(socket: &mut Socket, bytes: Vec<u8>, words: &mut Words<'_>) -> Answer {
    match socket {
        Socket::Udp(socket) => peek_datagram(socket, bytes),
        Socket::Raw(socket) => peek_packet(socket, bytes),
        _ => words.refuse(Refusal::WrongKind),
    }
}

fn datagram(socket: &mut udp::Socket, mut bytes: Vec<u8>) -> Answer {
    match socket.recv_slice(&mut bytes) {
        Ok((count, metadata)) => {
            bytes.truncate(count);
            Answer::FromEndpoint(metadata.endpoint, bytes)
        }
        Err(error) => unread(error),
    }
}

fn message(socket: &mut icmp::Socket, mut bytes: Vec<u8>) -> Answer {
    match socket.recv_slice(&mut bytes) {
        Ok((count, remote)) => {
            bytes.truncate(count);
            Answer::FromAddr(remote, bytes)
        }
        Err(error) => unread(error),
    }
}

fn packet(socket: &mut raw::Socket, mut bytes: Vec<u8>) -> Answer {
    let read = socket.recv_slice(&mut bytes);
    packet_of(read, bytes)
}

fn packet_of(read: Result<usize, RecvError>, mut bytes: Vec<u8>) -> Answer {
    match read {
        Ok(count) => {
            bytes.truncate(count);
            Answer::Bytes(bytes)
        }
        Err(error) => unread(error),
    }
}

fn peek_datagram(socket: &mut udp::Socket, mut bytes: Vec<u8>) -> Answer {
    match socket.peek_slice(&mut bytes) {
        Ok((count, metadata)) => {
            bytes.truncate(count);
            waits(metadata.endpoint, metadata.local_address, bytes)
        }
        Err(error) => unread(error),
    }
}

// A datagram that waits: where it came from, and to which own address, if that is known.
fn waits(remote: IpEndpoint, local: Option<IpAddress>, bytes: Vec<u8>) -> Answer {
    match local {
        Some(local) => Answer::Waits(remote, local, bytes),
        None => Answer::FromEndpoint(remote, bytes),
    }
}

fn peek_packet(socket: &mut raw::Socket, mut bytes: Vec<u8>) -> Answer {
    let read = socket.peek_slice(&mut bytes);
    packet_of(read, bytes)
}
