//! A host's sockets, asked for by their kinds.
use crate::hosts::kinds::common::udp_socket;
use crate::hosts::polls::common::{Host, UDP};
use crate::hosts::polls::streams::closed_socket;
use interface::{AddError, SocketHandle, SocketSet, SocketStorage, SocketsByKind};
use net_base::ManagedSlice;
use sockets::{AnySocket, Socket, tcp, udp};
use std::alloc::Global;
use std::test::Fail;

/// Whether the socket of this handle is one of UDP, and of TCP.
fn kinds(sockets: &SocketSet<Socket>, handle: SocketHandle) -> (bool, bool) {
    (
        sockets.get_as::<udp::Socket>(handle).is_some(),
        sockets.get_as::<tcp::Socket>(handle).is_some(),
    )
}

/// Closes the socket, if it is lent as one of UDP. Whether it is lent as one of TCP.
fn closes(sockets: &mut SocketSet<Socket>, handle: SocketHandle) -> bool {
    if let Some(socket) = sockets.get_mut_as::<udp::Socket>(handle) {
        socket.close();
    }
    sockets.get_mut_as::<tcp::Socket>(handle).is_some()
}

/// Whether it is one of UDP, and closed.
fn is_closed(sockets: &SocketSet<Socket>, handle: SocketHandle) -> bool {
    match sockets.get_as::<udp::Socket>(handle) {
        Some(socket) => !socket.is_open(),
        None => false,
    }
}

/// Whether the host's socket is of UDP, of TCP, lent as one of TCP, and closed after that.
fn said(host: &mut Host) -> Option<((bool, bool), bool, bool)> {
    let handle = host.handle?;
    let kinds = kinds(&host.sockets, handle);
    let lent = closes(&mut host.sockets, handle);
    Some((kinds, lent, is_closed(&host.sockets, handle)))
}

/// A socket is found, read or lent, as one of its own kind alone.
#[test]
fn a_socket_is_of_one_kind(rt: HostRuntime) -> Result<(), Fail> {
    let mut host = Host::new(rt.alloc(), &UDP)?;
    assert!(rt; said(&mut host) == Some(((true, false), false, true)));
    Ok(())
}

/// A set of fixed storage, with one place.
fn of_one(alloc: Global) -> Result<SocketSet<Socket>, Fail> {
    let mut storage = Vec::new(alloc);
    storage.push(SocketStorage::EMPTY)?;
    Ok(SocketSet::new(ManagedSlice::Fixed(storage)))
}

/// Where a socket of UDP is added to, and one of TCP after it, whose slot isn't there.
fn adds(
    sockets: &mut SocketSet<Socket>,
    udp: udp::Socket,
    tcp: tcp::Socket,
) -> Option<SocketHandle> {
    let handle = sockets.add_as(udp).ok()?;
    match sockets.add_as(tcp) {
        Err(AddError::Full(_)) if sockets.is_full() => Some(handle),
        _ => None,
    }
}

/// Whether the socket of this handle is taken out as one of UDP alone, and leaves its slot free.
fn takes(sockets: &mut SocketSet<Socket>, handle: SocketHandle) -> bool {
    let before = sockets.remove_as::<tcp::Socket>(handle).is_some();
    let taken = sockets.remove_as::<udp::Socket>(handle).is_some();
    !before && taken && !sockets.is_full() && sockets.get(handle).is_none()
}

/// A set of one place takes one socket, hands the next one back, and has room after the first one's leaving.
#[test]
fn a_full_set_hands_a_socket_back(rt: HostRuntime) -> Result<(), Fail> {
    let mut sockets = of_one(rt.alloc())?;
    assert!(rt; !sockets.is_full());
    let (udp, tcp) = (udp_socket(rt.alloc(), 64)?, closed_socket(rt.alloc(), 64)?);
    let added = adds(&mut sockets, udp, tcp);
    assert!(rt; added == Some(SocketHandle::at(0)));
    assert!(rt; takes(&mut sockets, SocketHandle::at(0)));
    Ok(())
}

/// A socket of any kind is taken out of its memory as one of its own.
#[test]
fn a_socket_is_taken_as_its_kind(rt: HostRuntime) -> Result<(), Fail> {
    let any = udp_socket(rt.alloc(), 64)?.upcast(rt.alloc())?;
    let Err(any) = <tcp::Socket as AnySocket>::take(any) else {
        return Err("a socket of UDP".into());
    };
    assert!(rt; <udp::Socket as AnySocket>::take(any).is_ok());
    Ok(())
}
