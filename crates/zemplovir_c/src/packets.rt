//! Raw sockets.
ghost use Rattle.std.specs.Prelude.{◌≡◌, length};
ghost use Rattle.sockets.specs.AnySocket.{as_raw};
ghost use Rattle.socket_datagram.specs.Raw.{counted};
ghost use Rattle.socket_datagram.specs.SocketValue.{recv_answer, recv_after, recv_written};
ghost use Rattle.sockets.specs.declared.socket.Socket.TheVariants as Kind;
ghost use Rattle.c_calls.specs.Codes.{coded, of_recv};
ghost use Rattle.c_calls.specs.Slots.{answer_at, after_at, written_at};
ghost use Rattle.c_calls.specs.RawPackets.{sent_answer, sent_after};
ghost use Rattle.c_calls.specs.Added.{MakesSocket, new_raw};
ghost use Rattle.zemplovir_c.specs.Answers.{answer_by, after_by, given_by, written_by, Gives, Where};
ghost use Rattle.zemplovir_c.specs.Values.{version_in, byte_or_none, protocol_in};

use crate::answers::{NO_HOST, done, given};
use crate::handle::Handle;
use c_calls::Code;
use ip_wire::{IpProtocol, IpVersion};
use std::alloc::Global;

/// The family of this number, or any where it is 0.
fn version_of(family: u8) -> Result<Option<IpVersion>, Code>
    ensures { result ≡ version_in family }
{
    match family {
        0 => Ok(None),
        4 => Ok(Some(IpVersion::Ipv4)),
        6 => Ok(Some(IpVersion::Ipv6)),
        _ => Err(Code::BadArgument),
    }
}

/// The protocol of this number, or any where it is above 255.
fn protocol_of(protocol: u16) -> Option<IpProtocol>
    ensures { result ≡ protocol_in protocol }
{
    match u8::try_from(protocol) {
        Ok(protocol) => Some(IpProtocol::from(protocol)),
        Err(_) => None,
    }
}

/// Makes a socket for the IP packets of this family, 0 for both, and this protocol, above 255 for all, with room for so many
/// packets, of so many bytes together, each way.
#[unsafe(no_mangle)]
pub extern "C" fn zv_raw_new(
    alloc: Global,
    handle: &mut Handle,
    family: u8,
    protocol: u16,
    packets: usize,
    bytes: usize,
    socket: &mut usize,
) -> u32
    ensures { Where (version_in family) result ((socket.new ≡ socket.old) ×
        (handle.new.inside ≡ handle.old.inside))
        (λ version. Gives (MakesSocket (new_raw version (protocol_in protocol) packets bytes)) handle.old.inside result socket.old socket.new
        handle.new.inside) }
{
    let version = match version_of(family) {
        Ok(version) => version,
        Err(code) => return code.number(),
    };
    let Some(mut host) = handle.take(alloc) else {
        return NO_HOST;
    };
    let answer = host.raw_new(version, protocol_of(protocol), packets, bytes);
    handle.put(host);
    given(answer, socket)
}

/// Queues a packet with its IP header.
#[unsafe(no_mangle)]
pub extern "C" fn zv_raw_send(
    alloc: Global,
    handle: &mut Handle,
    socket: usize,
    bytes: &[u8],
) -> u32
    ensures answer { result ≡ answer_by handle.old.inside (λ host. sent_answer host socket bytes.now) }
    ensures after { handle.new.inside ≡ after_by handle.old.inside (λ host. sent_after host socket bytes.now) }
{
    let Some(mut host) = handle.take(alloc) else {
        return NO_HOST;
    };
    let answer = host.raw_send(socket, bytes);
    handle.put(host);
    done(answer)
}

/// Reads the first packet.
#[unsafe(no_mangle)]
pub extern "C" fn zv_raw_recv(
    alloc: Global,
    handle: &mut Handle,
    socket: usize,
    bytes: &mut [u8],
    count: &mut usize,
) -> u32
    ensures answer { result ≡
        answer_by handle.old.inside (λ host. answer_at as_raw (λ v. coded of_recv (counted (recv_answer v (length bytes.old)))) host.slots socket) }
    ensures after { handle.new.inside ≡ after_by handle.old.inside (λ host. record host { slots = after_at as_raw Kind.Raw (recv_after) host.slots socket }) }
    ensures count { count.new ≡
        given_by handle.old.inside (λ host. answer_at as_raw (λ v. coded of_recv (counted (recv_answer v (length bytes.old)))) host.slots socket) count.old }
    ensures read { bytes.new ≡ written_by handle.old.inside (λ host. written_at as_raw recv_written bytes.old host.slots socket) bytes.old }
{
    let Some(mut host) = handle.take(alloc) else {
        return NO_HOST;
    };
    let answer = host.raw_recv(socket, bytes);
    handle.put(host);
    given(answer, count)
}
