//! Calls of TCP sockets.
ghost use Rattle.std.specs.Prelude.{◌≡◌, length, min, if◌then◌else◌, IfOk, Ok, Err, MatchResult};
ghost use Rattle.sockets.specs.AnySocket.{as_tcp};
ghost use Rattle.sockets.specs.declared.socket.Socket.TheVariants as Kind;
ghost use Rattle.c_calls.specs.Ends.{TellsEnd};
ghost use Rattle.c_calls.specs.Slots.{answer_at, found_at, after_at, written_at, draws_at};
ghost use Rattle.sockets.specs.Context.{ContextValue};
ghost use Rattle.sockets.specs.TcpCalls.{connect_answer, connect_after, connect_draws, send_answer, send_after, recv_answer};
ghost use Rattle.c_calls.specs.Codes.{coded, of_connect, of_stream_send, of_stream_recv};
ghost use Rattle.c_calls.specs.Streams.{act_answer, act_after, read_after, read_written, done_answer, done_after, peeked, state_in, ends_in, queues_in, room_in};
ghost use Rattle.interface.specs.Inner.{context_of, drawn};
ghost use Rattle.interface.specs.Made.{with_inner};
ghost use Rattle.c_calls.specs.Added.{MakesStream};
ghost use Rattle.c_calls.specs.Ports.{opens_answer, opened, opens_answer_by, opened_by, refusal_of};

use crate::code::{Code, of_connect, of_listen, of_stream_recv, of_stream_send};
use crate::host::Host;
use crate::kinds::{lent, seen};
use crate::looks;
use crate::made::{limit_of, rings};
use crate::ports::{port_for, refusal_of};
use crate::slots::Slots;
use ip_wire::{IpEndpoint, IpListenEndpoint, TcpTimestampGenerator};
use net_base::Duration;
use sockets::Context;
use sockets::tcp::{self, CongestionControl};

/// A call that answers nothing but whether it was done.
#[derive(Clone, Copy)]
pub enum Act {
    /// Opens the socket for a connection that a remote opens, to one own address or to any.
    Listen(IpListenEndpoint),
    /// Closes the egress path.
    Close,
    /// Ends the connection.
    Abort,
    /// Sets how long the remote may be silent while something waits for it.
    Timeout(Option<Duration>),
    /// Sets the interval of keep-alives.
    KeepAlive(Option<Duration>),
    /// Sets the delay of an acknowledgement.
    AckDelay(Option<Duration>),
    /// Sets how long a segment waits for its acknowledgement at least until it goes again.
    MinRto(Duration),
    /// Sets whether round trips are taken in microseconds.
    FineTimer(bool),
    /// Sets whether small segments wait while others are in flight.
    Nagle(bool),
    /// Sets the hop limit, 0 for 64.
    HopLimit(u8),
    /// Sets after how many timeouts without an answer the connection gives up, if ever.
    Retries(Option<u8>),
    /// Sets where timestamps come from.
    Timestamps(Option<TcpTimestampGenerator>),
    /// Sets whether the answer to a SYN waits.
    PauseSynack(bool),
    /// Sets how what is sent is held back where congestion may be.
    Congestion(CongestionControl),
}

fn act_on(socket: &mut tcp::Socket, act: Act) -> Result<(), Code>
    ensures answer { result ≡ act_answer act socket.old }
    ensures after { socket.new ≡ act_after act socket.old }
{
    match act {
        Act::Listen(endpoint) => {
            return match socket.listen(endpoint) {
                Ok(()) => Ok(()),
                Err(error) => Err(of_listen(error)),
            };
        }
        Act::Close => socket.close(),
        Act::Abort => socket.abort(),
        Act::Timeout(duration) => socket.set_timeout(duration),
        Act::KeepAlive(interval) => socket.set_keep_alive(interval),
        Act::AckDelay(delay) => socket.set_ack_delay(delay),
        Act::MinRto(duration) => socket.set_min_rto(duration),
        Act::FineTimer(fine) => socket.set_fine_timer(fine),
        Act::Nagle(enabled) => socket.set_nagle_enabled(enabled),
        Act::HopLimit(limit) => socket.set_hop_limit(limit_of(limit)),
        Act::Retries(limit) => socket.set_retries(limit),
        Act::Timestamps(generator) => socket.set_tsval_generator(generator),
        Act::PauseSynack(paused) => socket.pause_synack(paused),
        Act::Congestion(control) => socket.set_congestion_control(control),
    }
    Ok(())
}

/// Does a call that answers nothing but whether it was done.
pub fn perform(sockets: &mut Slots, number: usize, act: Act) -> Result<(), Code>
    ensures answer { result ≡ answer_at as_tcp (act_answer act) sockets.old number }
    ensures after { sockets.new ≡ after_at as_tcp Kind.Tcp (act_after act) sockets.old number }
{
    match lent::<tcp::Socket>(sockets, number) {
        Ok(socket) => act_on(socket, act),
        Err(code) => Err(code),
    }
}

/// Opens a connection to a remote. A connection that is opened draws a random word from the context.
pub fn connect<C: Context>(
    sockets: &mut Slots,
    number: usize,
    cx: &mut C,
    remote: IpEndpoint,
    local: IpListenEndpoint,
) -> Result<(), Code>
    ensures answer { result ≡ answer_at as_tcp (λ v. coded of_connect (connect_answer (C.context cx.old) v remote local)) sockets.old number }
    ensures after { sockets.new ≡ after_at as_tcp Kind.Tcp (λ v. connect_after (C.context cx.old) v remote local) sockets.old number }
    ensures drawn { cx.new ≡ (if draws_at as_tcp (λ v. connect_draws (C.context cx.old) v remote local) sockets.old number then C.drawn cx.old else cx.old) }
{
    match lent::<tcp::Socket>(sockets, number) {
        Ok(socket) => open(socket, cx, remote, local),
        Err(code) => Err(code),
    }
}

fn open<C: Context>(
    socket: &mut tcp::Socket,
    cx: &mut C,
    remote: IpEndpoint,
    local: IpListenEndpoint,
) -> Result<(), Code>
    ensures answer { result ≡ coded of_connect (connect_answer (C.context cx.old) socket.old remote local) }
    ensures after { socket.new ≡ connect_after (C.context cx.old) socket.old remote local }
    ensures drawn { cx.new ≡ (if connect_draws (C.context cx.old) socket.old remote local then C.drawn cx.old else cx.old) }
{
    match socket.connect(cx, remote, local) {
        Ok(answer) => Ok(answer),
        Err(error) => Err(of_connect(error)),
    }
}

/// Queues as many of the bytes as there is room for, and answers how many.
pub fn send(sockets: &mut Slots, number: usize, bytes: &[u8]) -> Result<usize, Code>
    ensures answer { result ≡ answer_at as_tcp (λ v. coded of_stream_send (send_answer v (length bytes.now))) sockets.old number }
    ensures after { sockets.new ≡ after_at as_tcp Kind.Tcp (λ v. send_after v bytes.now) sockets.old number }
{
    match lent::<tcp::Socket>(sockets, number) {
        Ok(socket) => queue(socket, bytes),
        Err(code) => Err(code),
    }
}

fn queue(socket: &mut tcp::Socket, bytes: &[u8]) -> Result<usize, Code>
    ensures answer { result ≡ coded of_stream_send (send_answer socket.old (length bytes.now)) }
    ensures after { socket.new ≡ send_after socket.old bytes.now }
{
    match socket.send_slice(bytes) {
        Ok(answer) => Ok(answer),
        Err(error) => Err(of_stream_send(error)),
    }
}

/// Reads waiting bytes to the front of the slice, and answers how many.
pub fn recv(sockets: &mut Slots, number: usize, out: &mut [u8]) -> Result<usize, Code>
    ensures answer { result ≡ answer_at as_tcp (λ v. coded of_stream_recv (recv_answer v (length out.old))) sockets.old number }
    ensures after { sockets.new ≡ after_at as_tcp Kind.Tcp (λ v. read_after v (length out.old)) sockets.old number }
    ensures read { out.new ≡ written_at as_tcp read_written out.old sockets.old number }
{
    match lent::<tcp::Socket>(sockets, number) {
        Ok(socket) => read(socket, out),
        Err(code) => Err(code),
    }
}

fn read(socket: &mut tcp::Socket, out: &mut [u8]) -> Result<usize, Code>
    ensures answer { result ≡ coded of_stream_recv (recv_answer socket.old (length out.old)) }
    ensures after { socket.new ≡ read_after socket.old (length out.old) }
    ensures read { out.new ≡ read_written socket.old out.old }
{
    match socket.recv_slice(out) {
        Ok(answer) => Ok(answer),
        Err(error) => Err(of_stream_recv(error)),
    }
}

/// Gives up the first waiting bytes, at most so many and as many as lie after one another. Answers how many.
pub fn done(sockets: &mut Slots, number: usize, count: usize) -> Result<usize, Code>
    ensures answer { result ≡ answer_at as_tcp (done_answer count) sockets.old number }
    ensures after { sockets.new ≡ after_at as_tcp Kind.Tcp (done_after count) sockets.old number }
{
    match lent::<tcp::Socket>(sockets, number) {
        Ok(socket) => give_up(socket, count),
        Err(code) => Err(code),
    }
}

fn give_up(socket: &mut tcp::Socket, count: usize) -> Result<usize, Code>
    ensures answer { result ≡ done_answer count socket.old }
    ensures after { socket.new ≡ done_after count socket.old }
{
    match socket.recv(|waiting| first_of(waiting, count)) {
        Ok(read) => Ok(read),
        Err(error) => Err(of_stream_recv(error)),
    }
}

/// How many of the bytes, at most so many, twice.
fn first_of(bytes: &[u8], count: usize) -> (usize, usize)
    ensures first { result.0 ≡ min (length bytes.now) count }
    ensures second { result.1 ≡ result.0 }
{
    let read = bytes.len().min(count);
    (read, read)
}

/// The most bytes that a buffer of a stream may have.
const MOST: usize = 1 << 30;

impl Host {
    /// A socket with room for so many bytes each way.
    pub fn tcp_new(&mut self, received: usize, queued: usize) -> Result<usize, Code>
        ensures { MakesStream received queued self.old result self.new }
    {
        if MOST < received || MOST < queued {
            return Err(Code::TooLong);
        }
        let Some((received, queued)) = rings(self.alloc(), received, queued) else {
            return Err(Code::Memory);
        };
        self.add(tcp::Socket::new(received, queued))
    }

    /// Does a call that answers nothing but whether it was done.
    pub fn tcp_act(&mut self, number: usize, act: Act) -> Result<(), Code>
        ensures answer { result ≡ answer_at as_tcp (act_answer act) self.old.slots number }
        ensures after { self.new ≡ record self.old { slots = after_at as_tcp Kind.Tcp (act_after act) self.old.slots number } }
    {
        perform(self.sockets(), number, act)
    }

    /// Opens a connection to a remote, from a port of one own address or of the one that the host chooses; from a free port where it is 0.
    pub fn tcp_connect(
        &mut self,
        number: usize,
        remote: IpEndpoint,
        local: IpListenEndpoint,
    ) -> Result<(), Code>
        ensures answer { result ≡ opens_answer self.old number remote local }
        ensures after { self.new ≡ opened self.old number remote local }
    {
        let found = port_for(
            self.seen_interface().context(),
            self.seen_sockets(),
            number,
            &remote,
            local.port,
        );
        match found {
            Some(port) => self.open_from(number, remote, IpListenEndpoint { port, ..local }),
            None => self.refuse(number, Code::AddressInUse),
        }
    }

    /// The same from a port.
    fn open_from(
        &mut self,
        number: usize,
        remote: IpEndpoint,
        local: IpListenEndpoint,
    ) -> Result<(), Code>
        ensures answer { result ≡ opens_answer_by (refusal_of self.old.host.inner self.old.slots number remote local) self.old number remote local }
        ensures after { self.new ≡ opened_by (refusal_of self.old.host.inner self.old.slots number remote local) self.old number remote local }
    {
        let refusal = refusal_of(
            self.seen_interface().context(),
            self.seen_sockets(),
            number,
            &remote,
            &local,
        );
        match refusal {
            Some(code) => self.refuse(number, code),
            None => self.connect_from(number, remote, local),
        }
    }

    /// The same where neither the route nor another socket forbids it.
    fn connect_from(
        &mut self,
        number: usize,
        remote: IpEndpoint,
        local: IpListenEndpoint,
    ) -> Result<(), Code>
        ensures answer { result ≡
            answer_at as_tcp (λ v. coded of_connect (connect_answer (context_of self.old.host.inner) v remote local)) self.old.slots number }
        ensures after { self.new ≡ record self.old {
          host = if draws_at as_tcp (λ v. connect_draws (context_of self.old.host.inner) v remote local) self.old.slots number
              then with_inner self.old.host (drawn self.old.host.inner) else self.old.host;
          slots = after_at as_tcp Kind.Tcp (λ v. connect_after (context_of self.old.host.inner) v remote local) self.old.slots number;
        } }
    {
        connect(
            &mut self.sockets,
            number,
            &mut self.interface,
            remote,
            local,
        )
    }

    /// Refuses a call of a socket, if there is one of this number.
    fn refuse(&self, number: usize, code: Code) -> Result<(), Code>
        ensures { result ≡ answer_at as_tcp (λ v. Err code) self.now.slots number }
    {
        match seen::<tcp::Socket>(self.seen_sockets(), number) {
            Ok(_) => Err(code),
            Err(code) => Err(code),
        }
    }

    /// Queues as many of the bytes as there is room for, and answers how many.
    pub fn tcp_send(&mut self, number: usize, bytes: &[u8]) -> Result<usize, Code>
        ensures answer { result ≡ answer_at as_tcp (λ v. coded of_stream_send (send_answer v (length bytes.now))) self.old.slots number }
        ensures after { self.new ≡ record self.old { slots = after_at as_tcp Kind.Tcp (λ v. send_after v bytes.now) self.old.slots number } }
    {
        send(self.sockets(), number, bytes)
    }

    /// Reads waiting bytes to the front of the slice, and answers how many.
    pub fn tcp_recv(&mut self, number: usize, out: &mut [u8]) -> Result<usize, Code>
        ensures answer { result ≡ answer_at as_tcp (λ v. coded of_stream_recv (recv_answer v (length out.old))) self.old.slots number }
        ensures after { self.new ≡ record self.old { slots = after_at as_tcp Kind.Tcp (λ v. read_after v (length out.old)) self.old.slots number } }
        ensures read { out.new ≡ written_at as_tcp read_written out.old self.old.slots number }
    {
        recv(self.sockets(), number, out)
    }

    /// Gives up the first waiting bytes, at most so many and as many as lie after one another. Answers how many.
    pub fn tcp_done(&mut self, number: usize, count: usize) -> Result<usize, Code>
        ensures answer { result ≡ answer_at as_tcp (done_answer count) self.old.slots number }
        ensures after { self.new ≡ record self.old { slots = after_at as_tcp Kind.Tcp (done_after count) self.old.slots number } }
    {
        done(self.sockets(), number, count)
    }

    /// Lends the first waiting bytes, as many as lie after one another.
    pub fn tcp_peek(&self, number: usize) -> Result<&[u8], Code>
        ensures { MatchResult result
            (λ bytes. answer_at as_tcp peeked self.now.slots number ≡ Ok bytes.now)
            (λ code. answer_at as_tcp peeked self.now.slots number ≡ Err code) }
    {
        looks::peek(self.seen_sockets(), number)
    }

    /// The state of the connection.
    pub fn tcp_state(&self, number: usize) -> Result<tcp::State, Code>
        ensures { result ≡ answer_at as_tcp state_in self.now.slots number }
    {
        looks::state(self.seen_sockets(), number)
    }

    /// Why the last connection ended, if one did and the socket is closed.
    pub fn tcp_end_reason(&self, number: usize) -> Result<Option<tcp::EndReason>, Code>
        ensures { TellsEnd (found_at as_tcp self.now.slots number) result }
    {
        looks::end_reason(self.seen_sockets(), number)
    }

    /// The own endpoint of the connection and the remote's.
    pub fn tcp_ends(&self, number: usize) -> Result<(IpEndpoint, IpEndpoint), Code>
        ensures { result ≡ answer_at as_tcp ends_in self.now.slots number }
    {
        looks::ends(self.seen_sockets(), number)
    }

    /// How many bytes wait to be read, and how many are queued that aren't acknowledged.
    pub fn tcp_queues(&self, number: usize) -> Result<(usize, usize), Code>
        ensures { result ≡ answer_at as_tcp queues_in self.now.slots number }
    {
        looks::queues(self.seen_sockets(), number)
    }

    /// How many bytes more can be queued.
    pub fn tcp_room(&self, number: usize) -> Result<usize, Code>
        ensures { result ≡ answer_at as_tcp room_in self.now.slots number }
    {
        looks::room(self.seen_sockets(), number)
    }
}
