//! One of the two sockets, with what a pair keeps of it.
ghost use Rattle.std.specs.Prelude.{◌≡◌, ◌<◌, ◌+◌, ◌^◌, true, false, [], length, slice_get, IfOk, OnOk, OnErr, vec_len, vec_capacity, min, max};
ghost use Rattle.net_base.specs.Time.{IsMoment};
ghost use Rattle.tcp_refinement.specs.declared.pair.event.PairEvent.TheVariants as Event;
ghost use Rattle.tcp_refinement.specs.Pair.History.{side_of};
ghost use Rattle.tcp_block.specs.Calls.{recv_answer};
ghost use Rattle.tcp_refinement.specs.Pair.Steps.{acts, set_by, reads, offered_at, handed, comes_to};
ghost use Rattle.tcp_refinement.specs.Pair.Values.{and_reply, and_offer};
ghost use Rattle.tcp_pair.specs.Ends.{initial_end, refusal_at, MayAct, on_host, with_own, after_event, IsShort, HasRoom};
ghost use Rattle.tcp_socket.specs.Replies.{replies_in};

use crate::answer::{
    Twins, connect_says, count_in, is_done, limit_of, listen_says, recv_fault, segment_of,
    send_says, twins,
};
use crate::context::{IP_MTU, PairContext};
use ip_wire::{IpEndpoint, IpListenEndpoint, IpRepr, TcpRepr};
use net_base::Instant;
use socket_context::Context;
use std::alloc::{AllocError, Global};
use std::marker::Model;
use tcp_refinement::pair::{
    Bytes, PairAnswer, PairEvent, PairRefused, SentSegment, Side, TcpSetting,
};
use tcp_socket::Socket;

/// So many bytes and more aren't taken from a user: the numbers of one stream stay near one another.
const MOST_BYTES: usize = 1 << 29;

/// A socket, what it knows, the segments that it sent, whether it was opened, and how many bytes it took for
/// sending.
#[derive(Drop)]
pub(crate) struct End {
    socket: Socket,
    context: PairContext,
    sent: Vec<SentSegment>,
    opened: bool,
    accepted: usize,
}

impl Model for End {
    ghost use Rattle.tcp_pair.specs.Ends.{EndValue};

    ghost Value = { EndValue };

    ghost view = { λ e. record {
      side = e.context.side;
      own =
          record { socket = e.socket; sent = e.sent.items; instant = e.context.instant; random = e.context.random };
      opened = e.opened;
      accepted = e.accepted;
    } };
}

impl End {
    /// A socket to which nothing happened yet.
    pub(crate) fn new(alloc: Global, side: Side, socket: Socket) -> End
        ensures { result ≡ initial_end side socket }
    {
        End {
            socket,
            context: PairContext::new(side),
            sent: Vec::new(alloc),
            opened: false,
            accepted: 0,
        }
    }

    pub(crate) fn socket(&self) -> &Socket
        ensures { result.now ≡ self.now.own.socket }
    {
        &self.socket
    }

    /// Its last instant.
    pub(crate) fn instant(&self) -> Instant
        ensures { result ≡ self.now.own.instant }
    {
        self.context.now()
    }

    /// The segments that it sent, the oldest first.
    pub(crate) fn sent(&self) -> &[SentSegment]
        ensures { result.now ≡ self.now.own.sent }
    {
        self.sent.as_slice()
    }

    /// Why it doesn't take an event that names it, but for lack of memory.
    pub(crate) fn refusal(&self, event: &PairEvent) -> Option<PairRefused>
        ensures { result ≡ refusal_at self.now event.now }
    {
        match event {
            PairEvent::Deliver(_, k) => {
                let was_sent = *k < self.sent.len();
                (!was_sent).then_some(PairRefused::NoSegment)
            }
            PairEvent::Listen(_, _) | PairEvent::Connect(_, _, _) => {
                self.opened.then_some(PairRefused::OpenedTwice)
            }
            PairEvent::Send(_, bytes) => {
                let all = self.accepted.saturating_add(bytes.as_slice().len());
                (MOST_BYTES <= all).then_some(PairRefused::TooManyBytes)
            }
            PairEvent::Clock(_, instant) | PairEvent::Offer(_, instant, _) => {
                let may_come = instant.is_moment() && self.context.now() <= *instant;
                (!may_come).then_some(PairRefused::Moment)
            }
            PairEvent::Recv(_, _)
            | PairEvent::Close(_)
            | PairEvent::Abort(_)
            | PairEvent::TcpSetting(_, _) => None,
        }
    }

    /// Does what an event for this side says, and answers it twice. All memory is taken first: where there is
    /// none, nothing has changed. `others` are the segments that the other side sent.
    pub(crate) fn act(
        &mut self,
        alloc: Global,
        others: &[SentSegment],
        event: &PairEvent,
    ) -> Result<Twins, AllocError>
        requires side { side_of event.now ≡ self.old.side }
        requires allowed { MayAct self.old event.now }
        ensures answer { IfOk result (λ r. r.0 ≡ (acts (on_host self.old) others.now event.now).answer) }
        ensures twin { IfOk result (λ r. r.1 ≡ r.0) }
        ensures after { IfOk result (λ r. self.new ≡ after_event self.old others.now event.now r.0) }
        ensures unchanged { OnErr result (self.new ≡ self.old) }
    {
        match event {
            PairEvent::Listen(_, endpoint) => Ok(twins(self.listen(*endpoint))),
            PairEvent::Connect(_, remote, local) => Ok(twins(self.connect(*remote, *local))),
            PairEvent::Send(_, bytes) => Ok(twins(self.send(bytes))),
            PairEvent::Recv(_, count) => self.recv(alloc, *count),
            PairEvent::Close(_) => {
                self.socket.close();
                Ok((PairAnswer::Done, PairAnswer::Done))
            }
            PairEvent::Abort(_) => {
                self.socket.abort();
                Ok((PairAnswer::Done, PairAnswer::Done))
            }
            PairEvent::TcpSetting(_, setting) => {
                self.set(setting);
                Ok((PairAnswer::Done, PairAnswer::Done))
            }
            PairEvent::Clock(_, instant) => {
                self.context.set_now(*instant);
                Ok((PairAnswer::Done, PairAnswer::Done))
            }
            PairEvent::Offer(_, instant, sent) => {
                self.offer(alloc, *instant, *sent)?;
                Ok((PairAnswer::Done, PairAnswer::Done))
            }
            PairEvent::Deliver(_, k) => {
                self.deliver(alloc, others, *k)?;
                Ok((PairAnswer::Done, PairAnswer::Done))
            }
        }
    }

    fn listen(&mut self, endpoint: IpListenEndpoint) -> PairAnswer
        ensures answer { result ≡ (acts (on_host self.old) [] (Event.Listen self.old.side endpoint)).answer }
        ensures short { IsShort result }
        ensures after { self.new ≡ after_event self.old [] (Event.Listen self.old.side endpoint) result }
    {
        let answer = listen_says(self.socket.listen(endpoint));
        self.opened = is_done(&answer) || self.opened;
        answer
    }

    fn connect(&mut self, remote: IpEndpoint, local: IpListenEndpoint) -> PairAnswer
        ensures answer { result ≡ (acts (on_host self.old) [] (Event.Connect self.old.side remote local)).answer }
        ensures short { IsShort result }
        ensures after { self.new ≡ after_event self.old [] (Event.Connect self.old.side remote local) result }
    {
        let answer = connect_says(self.socket.connect(&mut self.context, remote, local));
        self.opened = is_done(&answer) || self.opened;
        answer
    }

    fn send(&mut self, bytes: &Bytes) -> PairAnswer
        requires { self.old.accepted + length bytes.now < 2 ^ 29 }
        ensures answer { result ≡ (acts (on_host self.old) [] (Event.Send self.old.side bytes.now)).answer }
        ensures short { IsShort result }
        ensures after { self.new ≡ after_event self.old [] (Event.Send self.old.side bytes.now) result }
    {
        let answer = send_says(self.socket.send_slice(bytes.as_slice()));
        self.accepted += count_in(&answer);
        answer
    }

    /// Reads at most so many bytes.
    fn recv(&mut self, alloc: Global, count: usize) -> Result<Twins, AllocError>
        ensures answer { IfOk result (λ r. r.0 ≡ (reads (on_host self.old) (recv_answer self.old.own.socket count)).answer) }
        ensures twin { IfOk result (λ r. r.1 ≡ r.0) }
        ensures after { OnOk result (self.new ≡ with_own self.old (reads (on_host self.old) (recv_answer self.old.own.socket count)).side) }
        ensures unchanged { OnErr result (self.new ≡ self.old) }
    {
        let count = count.min(self.socket.recv_queue());
        let mut bytes = vec![in alloc; 0; count]?;
        let mut twin = vec![in alloc; 0; count]?;
        match self.socket.recv_slice(&mut bytes) {
            Ok(_) => {
                twin.copy_from_slice(bytes.as_slice());
                Ok((
                    PairAnswer::Bytes(Bytes::from_vec(bytes)),
                    PairAnswer::Bytes(Bytes::from_vec(twin)),
                ))
            }
            Err(fault) => Ok(twins(recv_fault(fault))),
        }
    }

    fn set(&mut self, setting: &TcpSetting)
        ensures { self.new ≡ with_own self.old (record (on_host self.old) { socket = set_by setting.now self.old.own.socket }) }
    {
        match setting {
            TcpSetting::Timeout(duration) => self.socket.set_timeout(*duration),
            TcpSetting::AckDelay(duration) => self.socket.set_ack_delay(*duration),
            TcpSetting::KeepAlive(interval) => self.socket.set_keep_alive(*interval),
            TcpSetting::NagleEnabled(enabled) => self.socket.set_nagle_enabled(*enabled),
            TcpSetting::HopLimit(limit) => self.socket.set_hop_limit(limit_of(*limit)),
            TcpSetting::TsvalGenerator(generator) => self.socket.set_tsval_generator(*generator),
            TcpSetting::CongestionControl(control) => {
                self.socket.set_congestion_control(*control);
            }
            TcpSetting::PauseSynack(paused) => self.socket.pause_synack(*paused),
            TcpSetting::Retries(limit) => self.socket.set_retries(*limit),
            TcpSetting::MinRto(duration) => self.socket.set_min_rto(*duration),
            TcpSetting::FineTimer(fine) => self.socket.set_fine_timer(*fine),
        }
    }

    fn offer(&mut self, alloc: Global, instant: Instant, sent: bool) -> Result<(), AllocError>
        requires { IsMoment instant }
        ensures after { OnOk result (self.new ≡ with_own self.old (offered_at self.old.side (record (on_host self.old) { instant = instant }) sent)) }
        ensures unchanged { OnErr result (self.new ≡ self.old) }
    {
        if sent {
            self.offer_sent(alloc, instant)
        } else {
            self.offer_unsent(instant);
            Ok(())
        }
    }

    fn offer_unsent(&mut self, instant: Instant)
        requires { IsMoment instant }
        ensures { self.new ≡ with_own self.old (offered_at self.old.side (record (on_host self.old) { instant = instant }) false) }
    {
        self.context.set_now(instant);
        self.socket.offer(&self.context);
        self.socket.settle(false);
    }

    /// The segment that is offered joins those that were sent.
    fn offer_sent(&mut self, alloc: Global, instant: Instant) -> Result<(), AllocError>
        requires { IsMoment instant }
        ensures after { OnOk result (self.new ≡ with_own self.old (offered_at self.old.side (record (on_host self.old) { instant = instant }) true)) }
        ensures unchanged { OnErr result (self.new ≡ self.old) }
    {
        self.sent.try_reserve(1)?;
        let room = room_for(self.socket.send_queue());
        let bytes = Vec::with_capacity(alloc, room)?;
        self.context.set_now(instant);
        self.socket.offer(&self.context);
        join_offered(&self.socket, &mut self.sent, bytes);
        self.socket.settle(true);
        Ok(())
    }

    /// A segment of the other side comes: the one of this number, if there is one.
    fn deliver(&mut self, alloc: Global, others: &[SentSegment], k: usize) -> Result<(), AllocError>
        ensures after { OnOk result (self.new ≡ with_own self.old (handed self.old.side (on_host self.old) (slice_get others.now k))) }
        ensures unchanged { OnErr result (self.new ≡ self.old) }
    {
        match others.get(k) {
            Some(segment) => self.take(alloc, segment),
            None => Ok(()),
        }
    }

    /// A segment comes. It is dropped where the socket doesn't accept it; what answers it joins those that were
    /// sent.
    fn take(&mut self, alloc: Global, x: &SentSegment) -> Result<(), AllocError>
        ensures after { OnOk result (self.new ≡ with_own self.old (comes_to self.old.side (on_host self.old) x.now)) }
        ensures unchanged { OnErr result (self.new ≡ self.old) }
    {
        self.sent.try_reserve(1)?;
        let segment = TcpRepr::new(&x.segment, x.bytes.as_slice());
        if self.socket.accepts(&self.context, &x.header, &segment) {
            let answer = self.socket.process(&mut self.context, &x.header, &segment);
            join_answer(alloc, &mut self.sent, answer);
        }
        Ok(())
    }
}

/// What answers a segment joins those that were sent.
fn join_answer(
    alloc: Global,
    sent: &mut Vec<SentSegment>,
    answer: Option<(IpRepr, TcpRepr<'static>)>,
)
    requires offset { vec_len sent.old < vec_capacity sent.old }
    ensures { sent.new.items ≡ and_reply sent.old.items (replies_in answer.entry) }
{
    match answer {
        None => {}
        Some((header, reply)) => sent.push_reserved(SentSegment {
            header,
            segment: reply.header(),
            bytes: Bytes::from_vec(Vec::new(alloc)),
        }),
    }
}

/// The segment of an open offer joins those that were sent, its payload in memory that is there.
fn join_offered(socket: &Socket, sent: &mut Vec<SentSegment>, bytes: Vec<u8>)
    requires empty { bytes.items ≡ [] }
    requires room { HasRoom (vec_capacity bytes) socket.now }
    requires offset { vec_len sent.old < vec_capacity sent.old }
    ensures { sent.new.items ≡ and_offer sent.old.items socket.now.offered socket.now.queued.queue }
{
    match socket.offered() {
        None => {}
        Some(packet) => sent.push_reserved(segment_of(&packet, bytes)),
    }
}

/// Room for the payload of an offer, where so many bytes are queued: a packet holds no more, and a keep-alive
/// has one byte.
fn room_for(queued: usize) -> usize
    ensures { result ≡ max (min queued 1500) 1 }
{
    queued.min(IP_MTU).max(1)
}
