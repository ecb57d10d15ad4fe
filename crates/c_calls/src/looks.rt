//! What a TCP socket tells of itself.
ghost use Rattle.std.specs.Prelude.{◌≡◌, MatchResult, Ok, Err};
ghost use Rattle.sockets.specs.AnySocket.{as_tcp};
ghost use Rattle.c_calls.specs.Ends.{TellsEnd};
ghost use Rattle.c_calls.specs.Slots.{answer_at, found_at};
ghost use Rattle.c_calls.specs.Streams.{peeked, state_in, ends_in, queues_in, room_in};

use crate::code::{Code, of_stream_recv};
use crate::kinds::seen;
use crate::slots::Slots;
use ip_wire::IpEndpoint;
use sockets::tcp::{self, EndReason, State};

/// The state of the connection.
pub fn state(sockets: &Slots, number: usize) -> Result<State, Code>
    ensures { result ≡ answer_at as_tcp state_in sockets.now number }
{
    match seen::<tcp::Socket>(sockets, number) {
        Ok(socket) => Ok(socket.state()),
        Err(code) => Err(code),
    }
}

/// Why the last connection ended, if one did and the socket is closed.
pub fn end_reason(sockets: &Slots, number: usize) -> Result<Option<EndReason>, Code>
    ensures { TellsEnd (found_at as_tcp sockets.now number) result }
{
    match seen::<tcp::Socket>(sockets, number) {
        Ok(socket) => Ok(socket.end_reason()),
        Err(code) => Err(code),
    }
}

/// The own endpoint of the connection and the remote's.
pub fn ends(sockets: &Slots, number: usize) -> Result<(IpEndpoint, IpEndpoint), Code>
    ensures { result ≡ answer_at as_tcp ends_in sockets.now number }
{
    match seen::<tcp::Socket>(sockets, number) {
        Ok(socket) => both_ends(socket),
        Err(code) => Err(code),
    }
}

fn both_ends(socket: &tcp::Socket) -> Result<(IpEndpoint, IpEndpoint), Code>
    ensures { result ≡ ends_in socket.now }
{
    let Some(own) = socket.local_endpoint() else {
        return Err(Code::InvalidState);
    };
    match socket.remote_endpoint() {
        Some(remote) => Ok((own, remote)),
        None => Err(Code::InvalidState),
    }
}

/// How many bytes wait to be read, and how many are queued that aren't acknowledged.
pub fn queues(sockets: &Slots, number: usize) -> Result<(usize, usize), Code>
    ensures { result ≡ answer_at as_tcp queues_in sockets.now number }
{
    match seen::<tcp::Socket>(sockets, number) {
        Ok(socket) => Ok((socket.recv_queue(), socket.send_queue())),
        Err(code) => Err(code),
    }
}

/// How many bytes more can be queued.
pub fn room(sockets: &Slots, number: usize) -> Result<usize, Code>
    ensures { result ≡ answer_at as_tcp room_in sockets.now number }
{
    match seen::<tcp::Socket>(sockets, number) {
        Ok(socket) => Ok(socket.send_capacity() - socket.send_queue()),
        Err(code) => Err(code),
    }
}

/// Lends the first waiting bytes, as many as lie after one another.
pub fn peek(sockets: &Slots, number: usize) -> Result<&[u8], Code>
    ensures { MatchResult result
        (λ bytes. answer_at as_tcp peeked sockets.now number ≡ Ok bytes.now)
        (λ code. answer_at as_tcp peeked sockets.now number ≡ Err code) }
{
    match seen::<tcp::Socket>(sockets, number) {
        Ok(socket) => first_bytes(socket),
        Err(code) => Err(code),
    }
}

fn first_bytes(socket: &tcp::Socket) -> Result<&[u8], Code>
    ensures { MatchResult result (λ bytes. peeked socket.now ≡ Ok bytes.now) (λ code. peeked socket.now ≡ Err code) }
{
    match socket.peek(usize::MAX) {
        Ok(bytes) => Ok(bytes),
        Err(error) => Err(of_stream_recv(error)),
    }
}
