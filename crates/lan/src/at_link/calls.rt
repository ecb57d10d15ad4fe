//! Calls of a socket of any kind. A call that its kind hasn't does nothing, and answers nothing.
ghost use Rattle.std.specs.Prelude.{◌≡◌, if◌then◌else◌, Option, None, Some, IfOk, OnOk, OnErr};
ghost use Rattle.sockets.specs.Context.{ContextValue};
ghost use Rattle.lan.specs.Worlds.AtLink.Call as calls;
ghost use Rattle.lan.specs.Worlds.AtLink.Kinds.{kind_of};
ghost use Rattle.lan.specs.Worlds.AtLink.Calls.{Did};
ghost use Rattle.sockets.specs.declared.socket.Socket.{Socket as AnySocket};
ghost use Rattle.lan.specs.Worlds.AtLink.Answers.{HasDone, HasTaken};
ghost use Rattle.lan.specs.Worlds.AtLink.Calling.{did_by, draws_by};
ghost use Rattle.lan.specs.Worlds.AtLink.Does.{does, draws};

use crate::at_link::answer::{Brief, Taken, give, give_twice};
use crate::at_link::history::{Bytes, Event, TcpSetting};
use crate::at_link::{datagrams, streams};
use ip_wire::{IpAddress, IpEndpoint};
use sockets::{Context, Socket};
use std::alloc::{AllocError, Global};

/// Opens a TCP socket passively at a local port.
pub fn listen(socket: &mut Socket, port: u16) -> Option<Brief>
    ensures { (cx : ContextValue) → HasDone (does cx socket.old (calls.Listen port)) socket.old result socket.new }
{
    match socket {
        Socket::Tcp(socket) => Some(streams::listen(socket, port)),
        Socket::Raw(_) | Socket::Icmp(_) | Socket::Udp(_) | Socket::Dhcpv4(_) | Socket::Dns(_) =>
            None,
    }
}

/// Queues bytes at a TCP socket.
pub fn send(socket: &mut Socket, bytes: &Bytes) -> Option<Brief>
    ensures { (cx : ContextValue) → HasDone (does cx socket.old (calls.Send bytes.now)) socket.old result socket.new }
{
    match socket {
        Socket::Tcp(socket) => Some(streams::send(socket, bytes)),
        Socket::Raw(_) | Socket::Icmp(_) | Socket::Udp(_) | Socket::Dhcpv4(_) | Socket::Dns(_) =>
            None,
    }
}

/// Binds a UDP socket to a local port.
pub fn bind(socket: &mut Socket, port: u16) -> Option<Brief>
    ensures { (cx : ContextValue) → HasDone (does cx socket.old (calls.Bind port)) socket.old result socket.new }
{
    match socket {
        Socket::Udp(socket) => Some(datagrams::bind(socket, port)),
        Socket::Raw(_) | Socket::Icmp(_) | Socket::Tcp(_) | Socket::Dhcpv4(_) | Socket::Dns(_) =>
            None,
    }
}

/// Queues a datagram for an endpoint.
pub fn send_to(socket: &mut Socket, remote: IpEndpoint, bytes: &Bytes) -> Option<Brief>
    ensures { (cx : ContextValue) → HasDone (does cx socket.old (calls.SendTo remote bytes.now)) socket.old result socket.new }
{
    match socket {
        Socket::Udp(socket) => Some(datagrams::send_to(socket, remote, bytes)),
        Socket::Raw(_) | Socket::Icmp(_) | Socket::Tcp(_) | Socket::Dhcpv4(_) | Socket::Dns(_) =>
            None,
    }
}

/// Binds an ICMP socket to an identifier.
pub fn ident(socket: &mut Socket, ident: u16) -> Option<Brief>
    ensures { (cx : ContextValue) → HasDone (does cx socket.old (calls.Ident ident)) socket.old result socket.new }
{
    match socket {
        Socket::Icmp(socket) => Some(datagrams::ident(socket, ident)),
        Socket::Raw(_) | Socket::Udp(_) | Socket::Tcp(_) | Socket::Dhcpv4(_) | Socket::Dns(_) =>
            None,
    }
}

/// Queues an ICMP message for an address.
pub fn send_icmp(socket: &mut Socket, remote: IpAddress, bytes: &Bytes) -> Option<Brief>
    ensures { (cx : ContextValue) → HasDone (does cx socket.old (calls.SendIcmp remote bytes.now)) socket.old result socket.new }
{
    match socket {
        Socket::Icmp(socket) => Some(datagrams::send_icmp(socket, remote, bytes)),
        Socket::Raw(_) | Socket::Udp(_) | Socket::Tcp(_) | Socket::Dhcpv4(_) | Socket::Dns(_) =>
            None,
    }
}

/// Queues an IP packet.
pub fn send_raw(socket: &mut Socket, bytes: &Bytes) -> Option<Brief>
    ensures { (cx : ContextValue) → HasDone (does cx socket.old (calls.SendRaw bytes.now)) socket.old result socket.new }
{
    match socket {
        Socket::Raw(socket) => Some(datagrams::send_raw(socket, bytes)),
        Socket::Icmp(_) | Socket::Udp(_) | Socket::Tcp(_) | Socket::Dhcpv4(_) | Socket::Dns(_) =>
            None,
    }
}

/// Opens a TCP socket actively to an endpoint, from a local port.
pub fn connect<C: Context>(
    socket: &mut Socket,
    cx: &mut C,
    remote: IpEndpoint,
    port: u16,
) -> Option<Brief>
    ensures done { HasDone (does (C.context cx.old) socket.old (calls.Connect remote port)) socket.old result socket.new }
    ensures drawn { cx.new ≡ (if draws (C.context cx.old) socket.old (calls.Connect remote port) then C.drawn cx.old else cx.old) }
{
    match socket {
        Socket::Tcp(socket) => Some(streams::connect(socket, cx, remote, port)),
        Socket::Raw(_) | Socket::Icmp(_) | Socket::Udp(_) | Socket::Dhcpv4(_) | Socket::Dns(_) =>
            None,
    }
}

/// Aborts a TCP connection.
pub fn abort(socket: &mut Socket) -> Option<Brief>
    ensures { (cx : ContextValue) → HasDone (does cx socket.old calls.Abort) socket.old result socket.new }
{
    match socket {
        Socket::Tcp(socket) => {
            socket.abort();
            Some(Brief::Done)
        }
        Socket::Raw(_) | Socket::Icmp(_) | Socket::Udp(_) | Socket::Dhcpv4(_) | Socket::Dns(_) =>
            None,
    }
}

/// Closes a TCP or a UDP socket, and says which state it found.
pub fn close(socket: &mut Socket) -> Option<Taken>
    ensures { (cx : ContextValue) → HasTaken (does cx socket.old calls.Close) socket.old result socket.new }
{
    match socket {
        Socket::Tcp(socket) => {
            let found = socket.state();
            socket.close();
            Some(give(Brief::Done, Some(found)))
        }
        Socket::Udp(socket) => {
            socket.close();
            Some(give(Brief::Done, None))
        }
        Socket::Raw(_) | Socket::Icmp(_) | Socket::Dhcpv4(_) | Socket::Dns(_) => None,
    }
}

/// Asks for the state of a TCP socket.
pub fn state(socket: &Socket) -> Option<Brief>
    ensures { (cx : ContextValue) → HasDone (does cx socket.now calls.State) socket.now result socket.now }
{
    match socket {
        Socket::Tcp(socket) => Some(Brief::State(socket.state())),
        Socket::Raw(_) | Socket::Icmp(_) | Socket::Udp(_) | Socket::Dhcpv4(_) | Socket::Dns(_) =>
            None,
    }
}

/// Changes a setting of a TCP socket.
pub fn set(socket: &mut Socket, setting: &TcpSetting) -> Option<Brief>
    ensures { (cx : ContextValue) → HasDone (does cx socket.old (calls.Set setting.now)) socket.old result socket.new }
{
    match socket {
        Socket::Tcp(socket) => {
            streams::set(socket, setting);
            Some(Brief::Done)
        }
        Socket::Raw(_) | Socket::Icmp(_) | Socket::Udp(_) | Socket::Dhcpv4(_) | Socket::Dns(_) =>
            None,
    }
}

/// Reads from a TCP socket.
pub fn recv(alloc: Global, socket: &mut Socket, limit: usize) -> Result<Option<Taken>, AllocError>
    ensures done { IfOk result (λ said. (cx : ContextValue) → HasTaken (does cx socket.old (calls.Recv limit)) socket.old said socket.new) }
    ensures unchanged { OnErr result (socket.new ≡ socket.old) }
{
    match socket {
        Socket::Tcp(socket) => Ok(Some(give_twice(streams::recv(alloc, socket, limit)?))),
        Socket::Raw(_) | Socket::Icmp(_) | Socket::Udp(_) | Socket::Dhcpv4(_) | Socket::Dns(_) =>
            Ok(None),
    }
}

/// Reads a datagram, message or packet.
pub fn recv_from(
    alloc: Global,
    socket: &mut Socket,
    limit: usize,
) -> Result<Option<Taken>, AllocError>
    ensures done { IfOk result (λ said. (cx : ContextValue) → HasTaken (does cx socket.old (calls.RecvFrom limit)) socket.old said socket.new) }
    ensures unchanged { OnErr result (socket.new ≡ socket.old) }
{
    match socket {
        Socket::Raw(socket) => Ok(Some(give_twice(datagrams::recv_packet(alloc, socket, limit)?))),
        Socket::Icmp(socket) => Ok(Some(give_twice(datagrams::recv_message(
            alloc, socket, limit,
        )?))),
        Socket::Udp(socket) => Ok(Some(give_twice(datagrams::recv_datagram(
            alloc, socket, limit,
        )?))),
        Socket::Tcp(_) | Socket::Dhcpv4(_) | Socket::Dns(_) => Ok(None),
    }
}

/// What was given with an answer without bytes, where there is one.
fn given(said: Option<Brief>) -> Option<Taken>
    ensures { (d : Option (Did AnySocket)) (old new : AnySocket) → HasDone d old said new → HasTaken d old result new }
{
    match said {
        Some(short) => Some(give(short, None)),
        None => None,
    }
}

/// The call of an event. A call that its kind of socket hasn't does nothing, and neither does an event that is no call.
pub fn call<C: Context>(
    alloc: Global,
    socket: &mut Socket,
    cx: &mut C,
    event: &Event,
) -> Result<Option<Taken>, AllocError>
    ensures done { IfOk result (λ said. HasTaken (did_by (C.context cx.old) socket.old (kind_of event.now)) socket.old said socket.new) }
    ensures drawn { OnOk result (cx.new ≡ (if draws_by (C.context cx.old) socket.old (kind_of event.now) then C.drawn cx.old else cx.old)) }
    ensures unchanged { OnErr result (socket.new ≡ socket.old) }
    ensures undrawn { OnErr result (cx.new ≡ cx.old) }
{
    match event {
        Event::Listen(_, _, port) => Ok(given(listen(socket, *port))),
        Event::Connect(_, _, remote, port) => Ok(given(connect(socket, cx, *remote, *port))),
        Event::Send(_, _, bytes) => Ok(given(send(socket, bytes))),
        Event::Recv(_, _, limit) => recv(alloc, socket, *limit),
        Event::Close(_, _) => Ok(close(socket)),
        Event::Abort(_, _) => Ok(given(abort(socket))),
        Event::State(_, _) => Ok(given(state(socket))),
        Event::TcpSetting(_, _, setting) => Ok(given(set(socket, setting))),
        Event::Bind(_, _, port) => Ok(given(bind(socket, *port))),
        Event::Ident(_, _, number) => Ok(given(ident(socket, *number))),
        Event::SendTo(_, _, remote, bytes) => Ok(given(send_to(socket, *remote, bytes))),
        Event::SendIcmp(_, _, remote, bytes) => Ok(given(send_icmp(socket, *remote, bytes))),
        Event::SendRaw(_, _, bytes) => Ok(given(send_raw(socket, bytes))),
        Event::RecvFrom(_, _, limit) => recv_from(alloc, socket, *limit),
        Event::HardwareAddr(..)
        | Event::Addrs(..)
        | Event::Route(..)
        | Event::AnyIp(..)
        | Event::ReassemblyTimeout(..)
        | Event::Poll(..)
        | Event::PollAt(..)
        | Event::Deliver(..)
        | Event::Damage(..)
        | Event::Noise(..)
        | Event::Room(..)
        | Event::Cut(..) => Ok(None),
    }
}
