//! Calls of ICMP sockets.
ghost use Rattle.std.specs.Prelude.{◌≡◌, length};
ghost use Rattle.sockets.specs.AnySocket.{as_icmp};
ghost use Rattle.sockets.specs.declared.socket.Socket.TheVariants as Kind;
ghost use Rattle.c_calls.specs.Slots.{answer_at, after_at, written_at};
ghost use Rattle.socket_datagram.specs.Icmp.{send_answer, send_after};
ghost use Rattle.socket_datagram.specs.SocketValue.{recv_answer, recv_after, recv_written};
ghost use Rattle.c_calls.specs.Codes.{coded, of_send, of_recv};
ghost use Rattle.c_calls.specs.Controls.{act_answer, act_after, header_len, message_room, queued_answer, queued_after, sent_answer, sent_after};
ghost use Rattle.c_calls.specs.Added.{MakesSocket, new_icmp};

use crate::code::{Code, of_bind, of_recv, of_send};
use crate::datagrams::LONGEST_CUT;
use crate::host::Host;
use crate::kinds::lent;
use crate::made::{limit_of, queues};
use crate::slots::Slots;
use ip_wire::IpAddress;
use sockets::{Context, icmp};

/// How many bytes the IP header before a message has.
fn header_len(remote: &IpAddress) -> usize
    ensures { result ≡ header_len remote.now }
{
    match remote {
        IpAddress::Ipv4(_) => 20,
        IpAddress::Ipv6(_) => 40,
    }
}

/// A call that answers nothing but whether it was done.
#[derive(Clone, Copy)]
pub enum Act {
    /// Binds the socket: from now on the messages of this endpoint are for it.
    Bind(icmp::Endpoint),
    /// Sets the hop limit, 0 for 64.
    HopLimit(u8),
}

fn act_on(socket: &mut icmp::Socket, act: Act) -> Result<(), Code>
    ensures answer { result ≡ act_answer act socket.old }
    ensures after { socket.new ≡ act_after act socket.old }
{
    match act {
        Act::Bind(endpoint) => match socket.bind(endpoint) {
            Ok(()) => Ok(()),
            Err(error) => Err(of_bind(error)),
        },
        Act::HopLimit(limit) => {
            socket.set_hop_limit(limit_of(limit));
            Ok(())
        }
    }
}

/// Does a call that answers nothing but whether it was done.
pub fn perform(sockets: &mut Slots, number: usize, act: Act) -> Result<(), Code>
    ensures answer { result ≡ answer_at as_icmp (act_answer act) sockets.old number }
    ensures after { sockets.new ≡ after_at as_icmp Kind.Icmp (act_after act) sockets.old number }
{
    match lent::<icmp::Socket>(sockets, number) {
        Ok(socket) => act_on(socket, act),
        Err(code) => Err(code),
    }
}

/// Queues a message.
pub fn send(sockets: &mut Slots, number: usize, bytes: &[u8], remote: IpAddress) -> Result<(), Code>
    ensures answer { result ≡ answer_at as_icmp (λ v. coded of_send (send_answer v remote (length bytes.now))) sockets.old number }
    ensures after { sockets.new ≡ after_at as_icmp Kind.Icmp (λ v. send_after v remote bytes.now) sockets.old number }
{
    match lent::<icmp::Socket>(sockets, number) {
        Ok(socket) => queue(socket, bytes, remote),
        Err(code) => Err(code),
    }
}

fn queue(socket: &mut icmp::Socket, bytes: &[u8], remote: IpAddress) -> Result<(), Code>
    ensures answer { result ≡ coded of_send (send_answer socket.old remote (length bytes.now)) }
    ensures after { socket.new ≡ send_after socket.old remote bytes.now }
{
    match socket.send_slice(bytes, remote) {
        Ok(answer) => Ok(answer),
        Err(error) => Err(of_send(error)),
    }
}

/// Reads the first message to the front of the slice.
pub fn recv(sockets: &mut Slots, number: usize, out: &mut [u8]) -> Result<(usize, IpAddress), Code>
    ensures answer { result ≡ answer_at as_icmp (λ v. coded of_recv (recv_answer v (length out.old))) sockets.old number }
    ensures after { sockets.new ≡ after_at as_icmp Kind.Icmp (recv_after) sockets.old number }
    ensures read { out.new ≡ written_at as_icmp recv_written out.old sockets.old number }
{
    match lent::<icmp::Socket>(sockets, number) {
        Ok(socket) => read(socket, out),
        Err(code) => Err(code),
    }
}

fn read(socket: &mut icmp::Socket, out: &mut [u8]) -> Result<(usize, IpAddress), Code>
    ensures answer { result ≡ coded of_recv (recv_answer socket.old (length out.old)) }
    ensures after { socket.new ≡ recv_after socket.old }
    ensures read { out.new ≡ recv_written socket.old out.old }
{
    match socket.recv_slice(out) {
        Ok(answer) => Ok(answer),
        Err(error) => Err(of_recv(error)),
    }
}

impl Host {
    /// A socket with room for so many messages, of so many bytes together, each way.
    pub fn icmp_new(&mut self, packets: usize, bytes: usize) -> Result<usize, Code>
        ensures { MakesSocket (new_icmp packets bytes) self.old result self.new }
    {
        let Some((received, queued)) = queues(self.alloc(), packets, bytes) else {
            return Err(Code::Memory);
        };
        self.add(icmp::Socket::new(received, queued))
    }

    /// Does a call that answers nothing but whether it was done.
    pub fn icmp_act(&mut self, number: usize, act: Act) -> Result<(), Code>
        ensures answer { result ≡ answer_at as_icmp (act_answer act) self.old.slots number }
        ensures after { self.new ≡ record self.old { slots = after_at as_icmp Kind.Icmp (act_after act) self.old.slots number } }
    {
        perform(self.sockets(), number, act)
    }

    /// How many bytes a message to this address has at most.
    fn message_room(&self, remote: &IpAddress) -> usize
        ensures { result ≡ message_room self.now remote.now }
    {
        self.seen_interface().ip_mtu().max(LONGEST_CUT) - header_len(remote)
    }

    /// Queues a message. Its checksum is written when it is sent. One that is longer than any frame or set of fragments carries is refused.
    pub fn icmp_send(&mut self, number: usize, bytes: &[u8], remote: IpAddress) -> Result<(), Code>
        ensures answer { result ≡ sent_answer self.old number remote bytes.now }
        ensures after { self.new ≡ sent_after self.old number remote bytes.now }
    {
        if bytes.len() > self.message_room(&remote) {
            return Err(Code::TooLong);
        }
        self.queue_message(number, bytes, remote)
    }

    fn queue_message(&mut self, number: usize, bytes: &[u8], remote: IpAddress) -> Result<(), Code>
        ensures answer { result ≡ queued_answer self.old number remote bytes.now }
        ensures after { self.new ≡ queued_after self.old number remote bytes.now }
    {
        send(self.sockets(), number, bytes, remote)
    }

    /// Reads the first message to the front of the slice.
    pub fn icmp_recv(&mut self, number: usize, out: &mut [u8]) -> Result<(usize, IpAddress), Code>
        ensures answer { result ≡ answer_at as_icmp (λ v. coded of_recv (recv_answer v (length out.old))) self.old.slots number }
        ensures after { self.new ≡ record self.old { slots = after_at as_icmp Kind.Icmp (recv_after) self.old.slots number } }
        ensures read { out.new ≡ written_at as_icmp recv_written out.old self.old.slots number }
    {
        recv(self.sockets(), number, out)
    }
}
