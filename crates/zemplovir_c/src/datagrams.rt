//! UDP sockets.
ghost use Rattle.std.specs.Prelude.{◌≡◌, length};
ghost use Rattle.sockets.specs.AnySocket.{as_udp};
ghost use Rattle.socket_datagram.specs.SocketValue.{recv_answer, recv_after, recv_written};
ghost use Rattle.sockets.specs.declared.socket.Socket.TheVariants as Kind;
ghost use Rattle.c_calls.specs.Codes.{coded, of_recv};
ghost use Rattle.c_calls.specs.Slots.{answer_at, after_at, written_at};
ghost use Rattle.c_calls.specs.Datagrams.{act_answer, act_after, sent_answer, sent_after};
ghost use Rattle.c_calls.specs.declared.datagrams.Act.TheVariants as To;
ghost use Rattle.c_calls.specs.Added.{MakesSocket, new_udp};
ghost use Rattle.c_calls.specs.Ports.{bind_answer, bind_after};
ghost use Rattle.zemplovir_c.specs.Answers.{answer_by, after_by, given_by, written_by, mapped, checked_answer, checked, Gives};
ghost use Rattle.zemplovir_c.specs.Values.{optional_in, endpoint_in, listens_at, metadata, endpoint_out, address_or_none};

use crate::acts::udp_act;
use crate::answers::{NO_HOST, OK, done, given};
use crate::handle::Handle;
use crate::types::{
    Address, Endpoint, listens_at, optional, required_endpoint, said_endpoint, said_or_none,
};
use c_calls::datagrams::Act;
use ip_wire::{IpAddress, IpEndpoint, IpListenEndpoint};
use net_base::PacketMeta;
use sockets::udp::UdpMetadata;
use std::alloc::Global;

fn metadata_of(remote: IpEndpoint, local: Option<IpAddress>) -> UdpMetadata
    ensures { result ≡ metadata remote local }
{
    UdpMetadata {
        endpoint: remote,
        local_address: local,
        meta: PacketMeta {},
    }
}

/// Makes a socket with room for so many datagrams, of so many bytes together, each way.
#[unsafe(no_mangle)]
pub extern "C" fn zv_udp_new(
    alloc: Global,
    handle: &mut Handle,
    packets: usize,
    bytes: usize,
    socket: &mut usize,
) -> u32
    ensures { Gives (MakesSocket (new_udp packets bytes)) handle.old.inside result socket.old socket.new handle.new.inside }
{
    let Some(mut host) = handle.take(alloc) else {
        return NO_HOST;
    };
    let answer = host.udp_new(packets, bytes);
    handle.put(host);
    given(answer, socket)
}

/// Binds the socket to a port, of one own address or, where the family is 0, of all.
#[unsafe(no_mangle)]
pub extern "C" fn zv_udp_bind(
    alloc: Global,
    handle: &mut Handle,
    socket: usize,
    address: &Address,
    port: u16,
) -> u32
    ensures answer { result ≡
        checked_answer (optional_in address.now) (λ at. answer_by handle.old.inside (λ host. bind_answer host socket (listens_at at port))) }
    ensures after { handle.new.inside ≡
        checked (optional_in address.now) (λ at. after_by handle.old.inside (λ host. bind_after host socket (listens_at at port))) handle.old.inside }
{
    let address = match optional(address) {
        Ok(address) => address,
        Err(code) => return code.number(),
    };
    bind(alloc, handle, socket, listens_at(address, port))
}

fn bind(alloc: Global, handle: &mut Handle, socket: usize, endpoint: IpListenEndpoint) -> u32
    ensures answer { result ≡ answer_by handle.old.inside (λ host. bind_answer host socket endpoint) }
    ensures after { handle.new.inside ≡ after_by handle.old.inside (λ host. bind_after host socket endpoint) }
{
    let Some(mut host) = handle.take(alloc) else {
        return NO_HOST;
    };
    let answer = host.udp_bind(socket, endpoint);
    handle.put(host);
    done(answer)
}

/// Queues a datagram, which goes from the named own address, or from one that the socket or the host chooses where the family is
/// 0.
#[unsafe(no_mangle)]
pub extern "C" fn zv_udp_send(
    alloc: Global,
    handle: &mut Handle,
    socket: usize,
    bytes: &[u8],
    remote: &Endpoint,
    local: &Address,
) -> u32
    ensures answer { result ≡ checked_answer (endpoint_in remote.now) (λ to. checked_answer (optional_in local.now) (λ from.
        answer_by handle.old.inside (λ host. sent_answer host socket (metadata to from) bytes.now))) }
    ensures after { handle.new.inside ≡ checked (endpoint_in remote.now) (λ to. checked (optional_in local.now) (λ from.
        after_by handle.old.inside (λ host. sent_after host socket (metadata to from) bytes.now)) handle.old.inside) handle.old.inside }
{
    let remote = match required_endpoint(remote) {
        Ok(remote) => remote,
        Err(code) => return code.number(),
    };
    let local = match optional(local) {
        Ok(local) => local,
        Err(code) => return code.number(),
    };
    let Some(mut host) = handle.take(alloc) else {
        return NO_HOST;
    };
    let answer = host.udp_send(socket, bytes, metadata_of(remote, local));
    handle.put(host);
    done(answer)
}

/// Reads the first datagram.
#[unsafe(no_mangle)]
pub extern "C" fn zv_udp_recv(
    alloc: Global,
    handle: &mut Handle,
    socket: usize,
    bytes: &mut [u8],
    count: &mut usize,
    remote: &mut Endpoint,
    local: &mut Address,
) -> u32
    ensures answer { result ≡
        answer_by handle.old.inside (λ host. answer_at as_udp (λ v. coded of_recv (recv_answer v (length bytes.old))) host.slots socket) }
    ensures after { handle.new.inside ≡ after_by handle.old.inside (λ host. record host { slots = after_at as_udp Kind.Udp (recv_after) host.slots socket }) }
    ensures count { count.new ≡
        given_by handle.old.inside
        (λ host. mapped (λ got. got.0) (answer_at as_udp (λ v. coded of_recv (recv_answer v (length bytes.old))) host.slots socket)) count.old }
    ensures remote { remote.new ≡
        given_by handle.old.inside
        (λ host. mapped (λ got. endpoint_out got.1.endpoint) (answer_at as_udp (λ v. coded of_recv (recv_answer v (length bytes.old))) host.slots socket))
        remote.old }
    ensures local { local.new ≡
        given_by handle.old.inside
        (λ host. mapped (λ got. address_or_none got.1.local_address)
        (answer_at as_udp (λ v. coded of_recv (recv_answer v (length bytes.old))) host.slots socket)) local.old }
    ensures read { bytes.new ≡ written_by handle.old.inside (λ host. written_at as_udp recv_written bytes.old host.slots socket) bytes.old }
{
    let Some(mut host) = handle.take(alloc) else {
        return NO_HOST;
    };
    let answer = host.udp_recv(socket, bytes);
    handle.put(host);
    match answer {
        Ok((length, metadata)) => {
            *count = length;
            *remote = said_endpoint(metadata.endpoint);
            *local = said_or_none(metadata.local_address);
            OK
        }
        Err(code) => code.number(),
    }
}

/// Sets the hop limit, 0 for 64.
#[unsafe(no_mangle)]
pub extern "C" fn zv_udp_set_hop_limit(
    alloc: Global,
    handle: &mut Handle,
    socket: usize,
    limit: u8,
) -> u32
    ensures answer { result ≡ answer_by handle.old.inside (λ host. answer_at as_udp (act_answer (To.HopLimit limit)) host.slots socket) }
    ensures after { handle.new.inside ≡
        after_by handle.old.inside (λ host. record host { slots = after_at as_udp Kind.Udp (act_after (To.HopLimit limit)) host.slots socket }) }
{
    udp_act(alloc, handle, socket, Act::HopLimit(limit))
}

/// Unbinds the socket, and empties its queues.
#[unsafe(no_mangle)]
pub extern "C" fn zv_udp_close(alloc: Global, handle: &mut Handle, socket: usize) -> u32
    ensures answer { result ≡ answer_by handle.old.inside (λ host. answer_at as_udp (act_answer (To.Close)) host.slots socket) }
    ensures after { handle.new.inside ≡
        after_by handle.old.inside (λ host. record host { slots = after_at as_udp Kind.Udp (act_after (To.Close)) host.slots socket }) }
{
    udp_act(alloc, handle, socket, Act::Close)
}
