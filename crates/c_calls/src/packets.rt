//! Calls of raw sockets.
ghost use Rattle.std.specs.Prelude.{◌≡◌, ◌+◌, ◌<◌, length};
ghost use Rattle.sockets.specs.AnySocket.{as_raw};
ghost use Rattle.sockets.specs.declared.socket.Socket.TheVariants as Kind;
ghost use Rattle.c_calls.specs.Slots.{answer_at, after_at, written_at};
ghost use Rattle.socket_datagram.specs.Raw.{send_answer, send_after, counted};
ghost use Rattle.socket_datagram.specs.SocketValue.{recv_answer, recv_after, recv_written};
ghost use Rattle.c_calls.specs.Codes.{coded, of_raw_send, of_recv};
ghost use Rattle.c_calls.specs.Added.{MakesSocket, new_raw};
ghost use Rattle.c_calls.specs.RawPackets.{word_at, packet_len, queued_answer, queued_after, sent_answer, sent_after};

use crate::code::{Code, of_raw_send, of_recv};
use crate::datagrams::LONGEST_CUT;
use crate::host::Host;
use crate::kinds::lent;
use crate::made::queues;
use crate::slots::Slots;
use ip_wire::{IpProtocol, IpVersion};
use sockets::{Context, raw};

/// A number of two bytes, the higher one first.
fn word_at(bytes: &[u8], at: usize) -> usize
    requires within { at + 1 < length bytes.now }
    ensures { result ≡ word_at bytes.now at }
{
    usize::from(bytes[at]) * 256 + usize::from(bytes[at + 1])
}

/// How many bytes a packet has when its header was written anew, 0 where it is none.
fn packet_len(bytes: &[u8]) -> usize
    ensures { result ≡ packet_len bytes.now }
{
    if bytes.len() < 20 {
        return 0;
    }
    let first = usize::from(bytes[0]);
    match first / 16 {
        4 => word_at(bytes, 2).saturating_sub(first % 16 * 4) + 20,
        6 => word_at(bytes, 4) + 40,
        _ => 0,
    }
}

/// Queues a packet with its IP header.
pub fn send(sockets: &mut Slots, number: usize, bytes: &[u8]) -> Result<(), Code>
    ensures answer { result ≡ answer_at as_raw (λ v. coded of_raw_send (send_answer v (length bytes.now))) sockets.old number }
    ensures after { sockets.new ≡ after_at as_raw Kind.Raw (λ v. send_after v bytes.now) sockets.old number }
{
    match lent::<raw::Socket>(sockets, number) {
        Ok(socket) => queue(socket, bytes),
        Err(code) => Err(code),
    }
}

fn queue(socket: &mut raw::Socket, bytes: &[u8]) -> Result<(), Code>
    ensures answer { result ≡ coded of_raw_send (send_answer socket.old (length bytes.now)) }
    ensures after { socket.new ≡ send_after socket.old bytes.now }
{
    match socket.send_slice(bytes) {
        Ok(answer) => Ok(answer),
        Err(error) => Err(of_raw_send(error)),
    }
}

/// Reads the first packet to the front of the slice.
pub fn recv(sockets: &mut Slots, number: usize, out: &mut [u8]) -> Result<usize, Code>
    ensures answer { result ≡ answer_at as_raw (λ v. coded of_recv (counted (recv_answer v (length out.old)))) sockets.old number }
    ensures after { sockets.new ≡ after_at as_raw Kind.Raw (recv_after) sockets.old number }
    ensures read { out.new ≡ written_at as_raw recv_written out.old sockets.old number }
{
    match lent::<raw::Socket>(sockets, number) {
        Ok(socket) => read(socket, out),
        Err(code) => Err(code),
    }
}

fn read(socket: &mut raw::Socket, out: &mut [u8]) -> Result<usize, Code>
    ensures answer { result ≡ coded of_recv (counted (recv_answer socket.old (length out.old))) }
    ensures after { socket.new ≡ recv_after socket.old }
    ensures read { out.new ≡ recv_written socket.old out.old }
{
    match socket.recv_slice(out) {
        Ok(answer) => Ok(answer),
        Err(error) => Err(of_recv(error)),
    }
}

impl Host {
    /// A socket with room for so many packets, of so many bytes together, each way.
    pub fn raw_new(
        &mut self,
        version: Option<IpVersion>,
        protocol: Option<IpProtocol>,
        packets: usize,
        bytes: usize,
    ) -> Result<usize, Code>
        ensures { MakesSocket (new_raw version protocol packets bytes) self.old result self.new }
    {
        let Some((received, queued)) = queues(self.alloc(), packets, bytes) else {
            return Err(Code::Memory);
        };
        self.add(raw::Socket::new(version, protocol, received, queued))
    }

    /// Queues a packet with its IP header. One that is longer than any frame or set of fragments carries is refused.
    pub fn raw_send(&mut self, number: usize, bytes: &[u8]) -> Result<(), Code>
        ensures answer { result ≡ sent_answer self.old number bytes.now }
        ensures after { self.new ≡ sent_after self.old number bytes.now }
    {
        if packet_len(bytes) > self.seen_interface().ip_mtu().max(LONGEST_CUT) {
            return Err(Code::TooLong);
        }
        self.queue_packet(number, bytes)
    }

    fn queue_packet(&mut self, number: usize, bytes: &[u8]) -> Result<(), Code>
        ensures answer { result ≡ queued_answer self.old number bytes.now }
        ensures after { self.new ≡ queued_after self.old number bytes.now }
    {
        send(self.sockets(), number, bytes)
    }

    /// Reads the first packet to the front of the slice, and answers its length.
    pub fn raw_recv(&mut self, number: usize, out: &mut [u8]) -> Result<usize, Code>
        ensures answer { result ≡ answer_at as_raw (λ v. coded of_recv (counted (recv_answer v (length out.old)))) self.old.slots number }
        ensures after { self.new ≡ record self.old { slots = after_at as_raw Kind.Raw (recv_after) self.old.slots number } }
        ensures read { out.new ≡ written_at as_raw recv_written out.old self.old.slots number }
    {
        recv(self.sockets(), number, out)
    }
}
