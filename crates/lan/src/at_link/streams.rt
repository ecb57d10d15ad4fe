//! Calls of a TCP socket. Each says what its kind of socket makes of it; memory is asked for before anything changes.
ghost use Rattle.std.specs.Prelude.{◌≡◌, ◌≤◌, if◌then◌else◌, length, IfOk, OnOk, OnErr};
ghost use Rattle.sockets.specs.TcpCalls.{listen_answer, listen_after, connect_answer, connect_after, connect_draws, send_answer, send_after, recv_answer};
ghost use Rattle.sockets.specs.TcpCalls.{close_after, abort_after};
ghost use Rattle.lan.specs.Worlds.AtLink.Calls.{done_or, count_or, listen_fault, connect_fault, write_fault, bytes_or, read_by, at_port, setting_after};
ghost use Rattle.lan.specs.Worlds.AtLink.Answers.{IsTwice, brief};

use crate::at_link::answer::{
    Brief, Twins, connected, hop_limit_or_none, listened, recv_fault, twins, two_buffers, written,
};
use crate::at_link::history::{Answer, Bytes, TcpSetting};
use ip_wire::{IpEndpoint, IpListenEndpoint};
use sockets::Context;
use sockets::tcp::Socket;
use std::alloc::{AllocError, Global};

/// Opens the socket passively at a local port.
pub fn listen(socket: &mut Socket, port: u16) -> Brief
    ensures answer { brief result ≡ done_or listen_fault (listen_answer socket.old (at_port port)) }
    ensures after { socket.new ≡ listen_after socket.old (at_port port) }
{
    listened(socket.listen(IpListenEndpoint { addr: None, port }))
}

/// Opens the socket actively to an endpoint, from a local port.
pub fn connect<C: Context>(socket: &mut Socket, cx: &mut C, remote: IpEndpoint, port: u16) -> Brief
    ensures answer { brief result ≡ done_or connect_fault (connect_answer (C.context cx.old) socket.old remote (at_port port)) }
    ensures after { socket.new ≡ connect_after (C.context cx.old) socket.old remote (at_port port) }
    ensures drawn { cx.new ≡ (if connect_draws (C.context cx.old) socket.old remote (at_port port) then C.drawn cx.old else cx.old) }
{
    connected(socket.connect(cx, remote, IpListenEndpoint { addr: None, port }))
}

/// Queues as many of the bytes as there is room for.
pub fn send(socket: &mut Socket, bytes: &Bytes) -> Brief
    ensures answer { brief result ≡ count_or write_fault (send_answer socket.old (length bytes.now)) }
    ensures after { socket.new ≡ send_after socket.old bytes.now }
{
    written(socket.send_slice(bytes.as_slice()))
}

/// Reads as many bytes as a buffer has, and copies them to its twin.
fn recv_twice(socket: &mut Socket, mut bytes: Vec<u8>, mut twin: Vec<u8>) -> Twins
    requires twin { length twin.items ≡ length bytes.items }
    requires waiting { length bytes.items ≤ length socket.old.received.waiting }
    ensures answer { IsTwice result (bytes_or socket.old (recv_answer socket.old (length bytes.items))) }
    ensures after { socket.new ≡ read_by socket.old (recv_answer socket.old (length bytes.items)) }
{
    match socket.recv_slice(&mut bytes) {
        Ok(_) => {
            twin.copy_from_slice(bytes.as_slice());
            (
                Answer::Bytes(Bytes::from_vec(bytes)),
                Answer::Bytes(Bytes::from_vec(twin)),
            )
        }
        Err(fault) => twins(Brief::Error(recv_fault(fault))),
    }
}

/// Reads at most so many bytes.
pub fn recv(alloc: Global, socket: &mut Socket, limit: usize) -> Result<Twins, AllocError>
    ensures answer { IfOk result (λ r. IsTwice r (bytes_or socket.old (recv_answer socket.old limit))) }
    ensures after { OnOk result (socket.new ≡ read_by socket.old (recv_answer socket.old limit)) }
    ensures unchanged { OnErr result (socket.new ≡ socket.old) }
{
    let count = limit.min(socket.recv_queue());
    let (bytes, twin) = two_buffers(alloc, count)?;
    Ok(recv_twice(socket, bytes, twin))
}

/// Changes a setting.
pub fn set(socket: &mut Socket, setting: &TcpSetting)
    ensures { socket.new ≡ setting_after socket.old setting.now }
{
    match setting {
        TcpSetting::Timeout(duration) => socket.set_timeout(*duration),
        TcpSetting::AckDelay(duration) => socket.set_ack_delay(*duration),
        TcpSetting::KeepAlive(interval) => socket.set_keep_alive(*interval),
        TcpSetting::NagleEnabled(enabled) => socket.set_nagle_enabled(*enabled),
        TcpSetting::HopLimit(hop_limit) => socket.set_hop_limit(hop_limit_or_none(*hop_limit)),
        TcpSetting::CongestionControl(control) => socket.set_congestion_control(*control),
        TcpSetting::TsvalGenerator(generator) => socket.set_tsval_generator(*generator),
        TcpSetting::PauseSynack(paused) => socket.pause_synack(*paused),
    }
}
