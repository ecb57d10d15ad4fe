//! Sockets of all kinds as one type.
use crate::cases::{Goes, Life, all_live, first_wrong};
use crate::hosts::kinds::common::{icmp_socket, make_host, raw_socket, udp_socket};
use crate::hosts::kinds::udp::{V4, hands_abc};
use sockets::{AnySocket, Offer, PollAt, Socket, icmp, raw, udp};
use std::alloc::{AllocError, Global};

/// A socket of any kind is asked, or played at.
enum Asked {
    /// It is a raw one, one of ICMP, one of UDP.
    Is([bool; 3]),
    /// It is of UDP, is bound and queues the datagram abc.
    Queues,
    /// It is due when a packet comes.
    Waits,
    /// It is due now, and offers a packet: nothing else changed.
    Offers,
    /// It offers nothing, nothing changed, and it is due when a packet comes.
    IsSilent,
    /// The offered packet was sent, or wasn't.
    Settles(bool),
    /// It hands out the datagram abc, which isn't sent.
    HandsOut,
}

use Asked::{HandsOut, Is, IsSilent, Offers, Queues, Settles, Waits};

impl Goes<Socket> for Asked {
    fn goes(&self, _alloc: Global, socket: &mut Socket) -> bool {
        match self {
            Is(kinds) => kinds_of(socket) == *kinds,
            Queues => queues_abc(socket),
            HandsOut => hands_out(socket),
            _ => offers(socket, self),
        }
    }
}

/// The same of a step at a socket of any kind.
fn offers(socket: &mut Socket, step: &Asked) -> bool {
    match step {
        Waits => due(socket) == PollAt::Ingress,
        Offers => {
            due(socket) == PollAt::Now && offer_of(socket) == (Offer::Packet { changed: false })
        }
        IsSilent => {
            offer_of(socket) == (Offer::Silent { changed: false }) && due(socket) == PollAt::Ingress
        }
        Settles(sent) => {
            socket.settle(*sent);
            true
        }
        _ => false,
    }
}

fn due(socket: &Socket) -> PollAt {
    socket.poll_at(&make_host(None))
}

fn offer_of(socket: &mut Socket) -> Offer {
    socket.offer(&make_host(None))
}

/// Of which kinds a socket is: raw, ICMP, UDP.
fn kinds_of(socket: &Socket) -> [bool; 3] {
    [
        <raw::Socket as AnySocket>::downcast(socket).is_some(),
        <icmp::Socket as AnySocket>::downcast(socket).is_some(),
        <udp::Socket as AnySocket>::downcast(socket).is_some(),
    ]
}

/// Binds the socket, if it is of UDP, and queues a datagram.
fn queues_abc(any: &mut Socket) -> bool {
    match <udp::Socket as AnySocket>::downcast_mut(any) {
        Some(socket) => {
            socket.bind(48896).is_ok() && socket.send_slice(b"abc", (V4, 53)).is_ok()
        }
        None => false,
    }
}

fn hands_out(any: &mut Socket) -> bool {
    match <udp::Socket as AnySocket>::downcast_mut(any) {
        Some(socket) => hands_abc(socket),
        None => false,
    }
}

/// The kind of a socket.
enum Kind {
    Raw,
    Icmp,
    Udp,
}

fn made(alloc: Global, kind: &Kind) -> Result<Socket, AllocError> {
    match kind {
        Kind::Raw => Ok(raw_socket(alloc, None, None)?.upcast(alloc)?),
        Kind::Icmp => Ok(icmp_socket(alloc)?.upcast(alloc)?),
        Kind::Udp => Ok(udp_socket(alloc, 64)?.upcast(alloc)?),
    }
}

/// A new socket, and what it is asked.
struct OfAnyKind(Kind, &'static [Asked]);

impl Life for OfAnyKind {
    fn stops_at(&self, alloc: Global) -> Option<usize> {
        match made(alloc, &self.0) {
            Ok(mut socket) => first_wrong(alloc, &mut socket, self.1),
            Err(AllocError) => Some(0),
        }
    }
}

static SOCKETS: [OfAnyKind; 3] = [
    // A socket is of its own kind.
    OfAnyKind(Kind::Raw, &[Is([true, false, false])]),
    OfAnyKind(Kind::Icmp, &[Is([false, true, false])]),
    // Any socket offers and settles.
    OfAnyKind(
        Kind::Udp,
        &[
            Is([false, false, true]),
            Waits,
            IsSilent,
            Queues,
            Offers,
            HandsOut,
            Offers,
            Settles(false),
            Offers,
            Settles(true),
            Waits,
            IsSilent,
        ],
    ),
];

#[test]
fn sockets_of_any_kind_live(rt: HostRuntime) {
    all_live(&rt, &SOCKETS);
}
