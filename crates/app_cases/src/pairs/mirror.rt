//! A socket alongside one of a pair, which is told the same: it says of an offer what the pair's answer doesn't, whether there was a packet
//! and whether it changed anything.
ghost use Rattle.std.specs.Prelude.{◌≢◌, IfSome, Some};
ghost use Rattle.tcp_pair.specs.Promises.{IsInitial};

use crate::pairs::lines::{Todo, at_port};
use ip_wire::TcpRepr;
use net_base::{Instant, ManagedSlice, RingBuffer};
use sockets::tcp::{Socket, SocketBuffer};
use sockets::{Context, Offer, PollAt};
use std::alloc::Global;
use tcp_pair::{PairContext, SentSegment, Side, TcpSetting};

/// The longest buffer that a socket takes.
const LONGEST: usize = 1 << 30;

/// A closed socket with such buffers, if there is memory for them and they aren't too long.
pub fn socket(alloc: Global, sizes: (usize, usize)) -> Option<Socket>
    ensures { IfSome result IsInitial }
{
    let received = buffer(alloc, sizes.0)?;
    let queued = buffer(alloc, sizes.1)?;
    if Socket::fits_buffer(&received) && Socket::fits_buffer(&queued) {
        Some(Socket::new(received, queued))
    } else {
        None
    }
}

fn buffer(alloc: Global, size: usize) -> Option<SocketBuffer> {
    if size > LONGEST {
        return None;
    }
    let room = vec![in alloc; 0u8; size].ok()?;
    Some(RingBuffer::new(ManagedSlice::Owned(room)))
}

/// The socket, and what it knows.
#[derive(Drop)]
pub struct Beside {
    socket: Socket,
    context: PairContext,
}

impl Beside {
    pub fn new(alloc: Global, side: Side, sizes: (usize, usize)) -> Option<Beside> {
        let context = PairContext::new(side);
        socket(alloc, sizes).map(|socket| Beside { socket, context })
    }

    /// When a socket of this side wants to be polled.
    pub fn poll_at(&self, socket: &Socket) -> PollAt {
        socket.poll_at(&self.context)
    }

    /// Is told what happens at its side: what it says of an offer. `others` are the segments that the other side sent.
    pub fn take(&mut self, todo: &Todo, others: &[SentSegment]) -> Option<Offer> {
        match todo {
            Todo::Offer(_, instant, sent) => return self.offer(*instant, *sent),
            Todo::Listen(_, port) => {
                let _ = self.socket.listen(at_port(*port));
            }
            Todo::Connect(_, remote, port) => {
                let _ = self
                    .socket
                    .connect(&mut self.context, *remote, at_port(*port));
            }
            Todo::Send(_, bytes) => {
                let _ = self.socket.send_slice(bytes.as_slice());
            }
            Todo::Recv(_, count) => self.recv(*count),
            Todo::Close(_) => self.socket.close(),
            Todo::Abort(_) => self.socket.abort(),
            Todo::Set(_, setting) => self.set(setting),
            Todo::Clock(_, instant) => self.set_now(*instant),
            Todo::Deliver(_, k) => self.deliver(others, *k),
        }
        None
    }

    fn set_now(&mut self, instant: Instant) {
        if instant.is_moment() {
            self.context.set_now(instant);
        }
    }

    fn offer(&mut self, instant: Instant, sent: bool) -> Option<Offer> {
        if !instant.is_moment() {
            return None;
        }
        self.context.set_now(instant);
        let offer = self.socket.offer(&self.context);
        self.socket.settle(sent);
        Some(offer)
    }

    /// Reads at most so many bytes.
    fn recv(&mut self, count: usize) {
        let most = self.socket.recv_queue().min(count);
        for _ in 0..most {
            let _ = self.socket.recv_slice(&mut [0]);
        }
    }

    fn deliver(&mut self, others: &[SentSegment], k: usize) {
        if let Some(x) = others.get(k) {
            let segment = TcpRepr::new(&x.segment, x.bytes.as_slice());
            if self.socket.accepts(&self.context, &x.header, &segment) {
                let _ = self.socket.process(&mut self.context, &x.header, &segment);
            }
        }
    }

    fn set(&mut self, setting: &TcpSetting) {
        match setting {
            TcpSetting::Timeout(duration) => self.socket.set_timeout(*duration),
            TcpSetting::AckDelay(duration) => self.socket.set_ack_delay(*duration),
            TcpSetting::KeepAlive(interval) => self.socket.set_keep_alive(*interval),
            TcpSetting::NagleEnabled(enabled) => self.socket.set_nagle_enabled(*enabled),
            TcpSetting::HopLimit(limit) => self.socket.set_hop_limit(limit_of(*limit)),
            TcpSetting::TsvalGenerator(generator) => self.socket.set_tsval_generator(*generator),
            TcpSetting::CongestionControl(control) => {
                self.socket.set_congestion_control(*control)
            }
            TcpSetting::Retries(limit) => self.socket.set_retries(*limit),
            TcpSetting::MinRto(least) => self.socket.set_min_rto(*least),
            TcpSetting::FineTimer(fine) => self.socket.set_fine_timer(*fine),
            TcpSetting::PauseSynack(pause) => self.socket.pause_synack(*pause),
        }
    }
}

/// A hop limit of 0 counts as none.
fn limit_of(limit: Option<u8>) -> Option<u8>
    ensures { result ≢ Some 0 }
{
    match limit {
        None => None,
        Some(n) => { if n == 0 { None } else { Some(n) } }
    }
}
