//! ICMP sockets.
ghost use Rattle.std.specs.Prelude.{◌≡◌, length};
ghost use Rattle.sockets.specs.AnySocket.{as_icmp};
ghost use Rattle.socket_datagram.specs.declared.icmp.Endpoint.TheVariants as Bound;
ghost use Rattle.socket_datagram.specs.SocketValue.{recv_answer, recv_after, recv_written};
ghost use Rattle.sockets.specs.declared.socket.Socket.TheVariants as Kind;
ghost use Rattle.c_calls.specs.Codes.{coded, of_recv};
ghost use Rattle.c_calls.specs.Slots.{answer_at, after_at, written_at};
ghost use Rattle.c_calls.specs.Controls.{act_answer, act_after, sent_answer, sent_after};
ghost use Rattle.c_calls.specs.declared.control.Act.TheVariants as To;
ghost use Rattle.c_calls.specs.Added.{MakesSocket, new_icmp};
ghost use Rattle.zemplovir_c.specs.Answers.{answer_by, after_by, given_by, written_by, mapped, checked_answer, checked, Gives};
ghost use Rattle.zemplovir_c.specs.Values.{optional_in, required_in, listens_at, address_out};

use crate::acts::icmp_act;
use crate::answers::{NO_HOST, OK, done, given};
use crate::handle::Handle;
use crate::types::{Address, listens_at, optional, required, said};
use c_calls::control::Act;
use sockets::icmp::Endpoint;
use std::alloc::Global;

/// Makes a socket with room for so many messages, of so many bytes together, each way.
#[unsafe(no_mangle)]
pub extern "C" fn zv_icmp_new(
    alloc: Global,
    handle: &mut Handle,
    packets: usize,
    bytes: usize,
    socket: &mut usize,
) -> u32
    ensures { Gives (MakesSocket (new_icmp packets bytes)) handle.old.inside result socket.old socket.new handle.new.inside }
{
    let Some(mut host) = handle.take(alloc) else {
        return NO_HOST;
    };
    let answer = host.icmp_new(packets, bytes);
    handle.put(host);
    given(answer, socket)
}

/// From now on echo messages with this identifier are for the socket.
#[unsafe(no_mangle)]
pub extern "C" fn zv_icmp_bind(
    alloc: Global,
    handle: &mut Handle,
    socket: usize,
    identifier: u16,
) -> u32
    ensures answer { result ≡ answer_by handle.old.inside (λ host. answer_at as_icmp (act_answer (To.Bind (Bound.Ident identifier))) host.slots socket) }
    ensures after { handle.new.inside ≡
        after_by handle.old.inside
        (λ host. record host { slots = after_at as_icmp Kind.Icmp (act_after (To.Bind (Bound.Ident identifier))) host.slots socket }) }
{
    icmp_act(
        alloc,
        handle,
        socket,
        Act::Bind(Endpoint::Ident(identifier)),
    )
}

/// From now on errors about UDP datagrams from this port are for the socket, of one own address or, where the family is 0, of all.
#[unsafe(no_mangle)]
pub extern "C" fn zv_icmp_bind_udp(
    alloc: Global,
    handle: &mut Handle,
    socket: usize,
    address: &Address,
    port: u16,
) -> u32
    ensures answer { result ≡
        checked_answer (optional_in address.now)
        (λ at. answer_by handle.old.inside (λ host. answer_at as_icmp (act_answer (To.Bind (Bound.Udp (listens_at at port)))) host.slots socket)) }
    ensures after { handle.new.inside ≡
        checked (optional_in address.now)
        (λ at. after_by handle.old.inside
        (λ host. record host { slots = after_at as_icmp Kind.Icmp (act_after (To.Bind (Bound.Udp (listens_at at port)))) host.slots socket }))
        handle.old.inside }
{
    let address = match optional(address) {
        Ok(address) => address,
        Err(code) => return code.number(),
    };
    icmp_act(
        alloc,
        handle,
        socket,
        Act::Bind(Endpoint::Udp(listens_at(address, port))),
    )
}

/// From now on errors about TCP segments from this port are for the socket, of one own address or, where the family is 0, of all.
#[unsafe(no_mangle)]
pub extern "C" fn zv_icmp_bind_tcp(
    alloc: Global,
    handle: &mut Handle,
    socket: usize,
    address: &Address,
    port: u16,
) -> u32
    ensures answer { result ≡
        checked_answer (optional_in address.now)
        (λ at. answer_by handle.old.inside (λ host. answer_at as_icmp (act_answer (To.Bind (Bound.Tcp (listens_at at port)))) host.slots socket)) }
    ensures after { handle.new.inside ≡
        checked (optional_in address.now)
        (λ at. after_by handle.old.inside
        (λ host. record host { slots = after_at as_icmp Kind.Icmp (act_after (To.Bind (Bound.Tcp (listens_at at port)))) host.slots socket }))
        handle.old.inside }
{
    let address = match optional(address) {
        Ok(address) => address,
        Err(code) => return code.number(),
    };
    icmp_act(
        alloc,
        handle,
        socket,
        Act::Bind(Endpoint::Tcp(listens_at(address, port))),
    )
}

/// Sets the hop limit, 0 for 64.
#[unsafe(no_mangle)]
pub extern "C" fn zv_icmp_set_hop_limit(
    alloc: Global,
    handle: &mut Handle,
    socket: usize,
    limit: u8,
) -> u32
    ensures answer { result ≡ answer_by handle.old.inside (λ host. answer_at as_icmp (act_answer (To.HopLimit limit)) host.slots socket) }
    ensures after { handle.new.inside ≡
        after_by handle.old.inside (λ host. record host { slots = after_at as_icmp Kind.Icmp (act_after (To.HopLimit limit)) host.slots socket }) }
{
    icmp_act(alloc, handle, socket, Act::HopLimit(limit))
}

/// Queues a message. Its checksum is written when it is sent.
#[unsafe(no_mangle)]
pub extern "C" fn zv_icmp_send(
    alloc: Global,
    handle: &mut Handle,
    socket: usize,
    bytes: &[u8],
    remote: &Address,
) -> u32
    ensures answer { result ≡
        checked_answer (required_in remote.now)
        (λ to. answer_by handle.old.inside (λ host. sent_answer host socket to bytes.now)) }
    ensures after { handle.new.inside ≡
        checked (required_in remote.now)
        (λ to. after_by handle.old.inside (λ host. sent_after host socket to bytes.now))
        handle.old.inside }
{
    let remote = match required(remote) {
        Ok(remote) => remote,
        Err(code) => return code.number(),
    };
    let Some(mut host) = handle.take(alloc) else {
        return NO_HOST;
    };
    let answer = host.icmp_send(socket, bytes, remote);
    handle.put(host);
    done(answer)
}

/// Reads the first message.
#[unsafe(no_mangle)]
pub extern "C" fn zv_icmp_recv(
    alloc: Global,
    handle: &mut Handle,
    socket: usize,
    bytes: &mut [u8],
    count: &mut usize,
    remote: &mut Address,
) -> u32
    ensures answer { result ≡
        answer_by handle.old.inside (λ host. answer_at as_icmp (λ v. coded of_recv (recv_answer v (length bytes.old))) host.slots socket) }
    ensures after { handle.new.inside ≡
        after_by handle.old.inside (λ host. record host { slots = after_at as_icmp Kind.Icmp (recv_after) host.slots socket }) }
    ensures count { count.new ≡
        given_by handle.old.inside
        (λ host. mapped (λ got. got.0) (answer_at as_icmp (λ v. coded of_recv (recv_answer v (length bytes.old))) host.slots socket)) count.old }
    ensures remote { remote.new ≡
        given_by handle.old.inside
        (λ host. mapped (λ got. address_out got.1) (answer_at as_icmp (λ v. coded of_recv (recv_answer v (length bytes.old))) host.slots socket)) remote.old }
    ensures read { bytes.new ≡ written_by handle.old.inside (λ host. written_at as_icmp recv_written bytes.old host.slots socket) bytes.old }
{
    let Some(mut host) = handle.take(alloc) else {
        return NO_HOST;
    };
    let answer = host.icmp_recv(socket, bytes);
    handle.put(host);
    match answer {
        Ok((length, from)) => {
            *count = length;
            *remote = said(from);
            OK
        }
        Err(code) => code.number(),
    }
}
