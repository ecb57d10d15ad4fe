//! What a socket offers when it is asked for a segment.
ghost use Rattle.std.specs.Prelude.{◌≡◌, ◌<◌, ◌^◌, true, false, None, is_some, IfSome, if◌then◌else◌, take, drop};
ghost use Rattle.socket_context.specs.Context.{ContextValue};
ghost use Rattle.tcp_block.specs.Choices.{choice_of};
ghost use Rattle.tcp_block.specs.Due.{poll_open, poll_between, poll_of};
ghost use Rattle.tcp_block.specs.Offers.{offer_segment, silent, offer_choice, offer_ack, offer_syn, offer_reset, offer_keep_alive, offer_window_limited, last_rules};
ghost use Rattle.tcp_block.specs.Offers.{first_rules, offer_between, offer_of, payload_of, offered_packet};
ghost use Rattle.tcp_block.specs.Moments.{is_due};
ghost use Rattle.tcp_block.specs.Probing.{probe_deadline};
ghost use Rattle.tcp_block.specs.Retries.{given_up};
ghost use Rattle.tcp_block.specs.Rules.{payload_choice, has_payload, resend_choice, updates_window};
ghost use Rattle.tcp_block.specs.Settled.{settled};
ghost use Rattle.tcp_block.specs.Value.{unoffered, queued_in, free_in, room_of};
ghost use Rattle.tcp_socket.specs.Dispatch.{TakesOffered, Hands};
ghost use Rattle.tcp_socket.specs.Offered.{lent_value};
ghost use Rattle.tcp_socket.specs.Opening.{open_offer, MayOpen, IsPartOf};
ghost use Rattle.socket_context.specs.Packet.{option_value, IsSendable};
ghost use Rattle.socket_context.specs.SegmentPayload.{payload_bytes};

use crate::Socket;
use ip_wire::{IpRepr, TcpHeader};
use socket_context::{Context, IpPayload, Offer, Packet, PollAt, SegmentPayload};
use tcp_block::{AddressPair, EndEvent, FourTuple, OfferKind, OpenOffer, PROBE, Part, is_due};

/// The packet of an open offer, whose headers are lent from where they lie in the socket.
#[derive(Clone, Copy, Debug)]
pub struct OfferedSegment<'a> {
    pub header: &'a IpRepr,
    pub segment: &'a TcpHeader,
    pub payload: SegmentPayload<'a>,
}

impl Socket {
    /// Offers the segment of the first rule that applies.
    pub fn offer<C: Context>(&mut self, cx: &C) -> Offer
        ensures answer { result ≡ (offer_of (C.context cx.now) self.old).answer }
        ensures socket { self.new ≡ (offer_of (C.context cx.now) self.old).socket }
        ensures sendable { IfSome (offered_packet self.new) IsSendable }
    {
        let before = self.tcb.state;
        let offer = self.offer_next(cx);
        self.note_end(EndEvent::Timer, before);
        offer
    }

    fn offer_next<C: Context>(&mut self, cx: &C) -> Offer
        ensures answer { result ≡ (offer_of (C.context cx.now) self.old).answer }
        ensures socket { self.new ≡ (offer_of (C.context cx.now) self.old).socket }
    {
        self.unoffer();
        match self.tcb.names.pair {
            None => Offer::Silent { changed: false },
            Some(pair) => self.offer_between(cx, &pair),
        }
    }

    fn offer_between<C: Context>(&mut self, cx: &C, pair: &FourTuple) -> Offer
        requires unoffered { self.old.offered ≡ None }
        ensures answer { result ≡ (offer_between (C.context cx.now) self.old pair.now).answer }
        ensures socket { self.new ≡ (offer_between (C.context cx.now) self.old pair.now).socket }
    {
        let (now, queued) = (cx.now(), self.queued.len());
        if is_due(now, self.tcb.time_wait_end()) {
            self.tcb.forget();
            return Offer::Silent { changed: true };
        }
        if is_due(now, self.tcb.timeout_end(queued)) {
            self.tcb.time_out();
            return Offer::Silent { changed: true };
        }
        if self.tcb.state.is_closed() {
            return self.offer_reset(cx, pair);
        }
        if self.tcb.gives_up(now, queued) {
            self.give_up();
            return Offer::Silent { changed: true };
        }
        self.tcb.start_timeout(now, queued);
        self.tcb.back_off(now);
        self.offer_first(cx, pair)
    }

    /// The connection gives up: a listener whose connection isn't there yet listens again, any other ends
    /// as by the user timeout.
    fn give_up(&mut self)
        requires unoffered { self.old.offered ≡ None }
        ensures { self.new ≡ given_up self.old }
    {
        if self.tcb.falls_back() {
            self.listen_on(self.tcb.names.listen);
        } else {
            self.tcb.time_out();
        }
    }

    fn offer_reset<C: Context>(&mut self, cx: &C, pair: &FourTuple) -> Offer
        ensures answer { result ≡ (if self.old.tcb.sender.reset_due then offer_reset (C.context cx.now) self.old pair.now else silent false self.old).answer }
        ensures socket { self.new ≡
            (if self.old.tcb.sender.reset_due then offer_reset (C.context cx.now) self.old pair.now else silent false self.old).socket }
    {
        if !self.tcb.sender.reset_due {
            return Offer::Silent { changed: false };
        }
        let window = self.window();
        let header = self.tcb.reset_segment(pair, cx.now(), window);
        self.offer_segment(OfferKind::Reset, cx, pair, &header, 0, 0)
    }

    /// The SYN, the segment at SND.UNA after the third duplicate, payload from SND.NXT on.
    fn offer_first<C: Context>(&mut self, cx: &C, pair: &FourTuple) -> Offer
        requires unoffered { self.old.offered ≡ None }
        ensures answer { result ≡ (first_rules (C.context cx.now) self.old pair.now).answer }
        ensures socket { self.new ≡ (first_rules (C.context cx.now) self.old pair.now).socket }
    {
        if self.tcb.owes_syn() {
            return self.offer_syn(cx, pair);
        }
        if self.tcb.resends_first() {
            let part = self.resend_part(&pair.addresses, cx.ip_mtu());
            return self.offer_part(OfferKind::FastRetransmission, cx, pair, &part);
        }
        if let Some(part) = self.payload_part(&pair.addresses, cx.ip_mtu()) {
            return self.offer_part(OfferKind::Payload, cx, pair, &part);
        }
        if self.tcb.resends_last() {
            let part = self.resend_part(&pair.addresses, cx.ip_mtu());
            return self.offer_part(OfferKind::FastRetransmission, cx, pair, &part);
        }
        self.tcb.start_probe(cx.now(), self.queued.len());
        self.offer_last(cx, pair)
    }

    /// A probe, a due acknowledgement, a window update, a keep-alive.
    fn offer_last<C: Context>(&mut self, cx: &C, pair: &FourTuple) -> Offer
        ensures answer { result ≡ (last_rules (C.context cx.now) self.old pair.now).answer }
        ensures socket { self.new ≡ (last_rules (C.context cx.now) self.old pair.now).socket }
    {
        let now = cx.now();
        if is_due(now, self.tcb.probe_deadline(self.queued.len())) {
            self.offer_window_limited(cx, pair)
        } else if is_due(now, self.tcb.ack_deadline()) {
            self.offer_ack(OfferKind::Ack, cx, pair)
        } else if self.updates_window() {
            self.offer_ack(OfferKind::WindowUpdate, cx, pair)
        } else if is_due(now, self.tcb.keep_alive_deadline()) {
            self.offer_keep_alive(cx, pair)
        } else {
            Offer::Silent { changed: false }
        }
    }

    /// What the remote's window held back: the byte at SND.UNA where it is closed, else as much as it
    /// takes.
    fn offer_window_limited<C: Context>(&mut self, cx: &C, pair: &FourTuple) -> Offer
        requires due { is_due (C.context cx.now).instant (probe_deadline self.old.tcb (queued_in self.old)) ≡ true }
        ensures answer { result ≡ (offer_window_limited (C.context cx.now) self.old pair.now).answer }
        ensures socket { self.new ≡ (offer_window_limited (C.context cx.now) self.old pair.now).socket }
    {
        if self.tcb.peer.window == 0 {
            self.offer_part(OfferKind::Probe, cx, pair, &PROBE)
        } else {
            let part = self.ready_part(&pair.addresses, cx.ip_mtu());
            self.offer_part(OfferKind::Payload, cx, pair, &part)
        }
    }

    /// Whether so much space came free that it is worth a segment of its own.
    fn updates_window(&self) -> bool
        ensures { result ≡ updates_window self.now.tcb (room_of self.now.received) (free_in self.now) }
    {
        self.tcb
            .updates_window(self.received.capacity(), self.received.window())
    }

    fn offer_syn<C: Context>(&mut self, cx: &C, pair: &FourTuple) -> Offer
        ensures answer { result ≡ (offer_syn (C.context cx.now) self.old pair.now).answer }
        ensures socket { self.new ≡ (offer_syn (C.context cx.now) self.old pair.now).socket }
    {
        let (capacity, free) = (self.received.capacity(), self.received.window());
        let header = self
            .tcb
            .syn_segment(pair, cx.now(), cx.ip_mtu(), capacity, free);
        self.offer_segment(OfferKind::Syn, cx, pair, &header, 0, 0)
    }

    fn offer_ack<C: Context>(&mut self, kind: OfferKind, cx: &C, pair: &FourTuple) -> Offer
        ensures answer { result ≡ (offer_ack kind (C.context cx.now) self.old pair.now).answer }
        ensures socket { self.new ≡ (offer_ack kind (C.context cx.now) self.old pair.now).socket }
    {
        let window = self.window();
        let header = self.tcb.ack_segment(pair, cx.now(), window);
        self.offer_segment(kind, cx, pair, &header, 0, 0)
    }

    fn offer_keep_alive<C: Context>(&mut self, cx: &C, pair: &FourTuple) -> Offer
        ensures answer { result ≡ (offer_keep_alive (C.context cx.now) self.old pair.now).answer }
        ensures socket { self.new ≡ (offer_keep_alive (C.context cx.now) self.old pair.now).socket }
    {
        let window = self.window();
        let header = self.tcb.keep_alive_segment(pair, cx.now(), window);
        self.offer_segment(OfferKind::KeepAlive, cx, pair, &header, 0, 1)
    }

    /// Offers a part of the send queue.
    fn offer_part<C: Context>(
        &mut self,
        kind: OfferKind,
        cx: &C,
        pair: &FourTuple,
        part: &Part,
    ) -> Offer
        requires part { IsPartOf self.old (choice_of part.now) }
        ensures answer { result ≡ (offer_choice kind (C.context cx.now) self.old pair.now (choice_of part.now)).answer }
        ensures socket { self.new ≡ (offer_choice kind (C.context cx.now) self.old pair.now (choice_of part.now)).socket }
    {
        let control = part.control(self.queued.len());
        let number = self.tcb.number_at(part.offset);
        let window = self.window();
        let header = self.tcb.segment(pair, cx.now(), window, control, number);
        self.offer_segment(kind, cx, pair, &header, part.offset, part.len)
    }

    /// Offers this segment, whose payload is this part of the send queue. Inlined, it makes the header
    /// where the offer lies, in place of copying it there.
    #[inline(always)]
    fn offer_segment<C: Context>(
        &mut self,
        kind: OfferKind,
        cx: &C,
        pair: &FourTuple,
        segment: &TcpHeader,
        offset: usize,
        len: usize,
    ) -> Offer
        requires open { MayOpen self.old (open_offer kind (C.context cx.now) self.old pair.now segment.now offset len) }
        requires small { len < 2 ^ 32 }
        ensures answer { result ≡ (offer_segment kind (C.context cx.now) self.old pair.now segment.now offset len).answer }
        ensures socket { self.new ≡ (offer_segment kind (C.context cx.now) self.old pair.now segment.now offset len).socket }
    {
        let header = pair
            .addresses
            .header_for(self.tcb.hop_limit(), segment.header_len() + len);
        self.offered = Some(OpenOffer {
            kind,
            instant: cx.now(),
            header,
            segment: *segment,
            offset,
            len,
        });
        Offer::Packet { changed: false }
    }

    /// What may go from SND.NXT on.
    fn ready_part(&self, addresses: &AddressPair, ip_mtu: usize) -> Part
        ensures { choice_of result ≡ payload_choice self.now.tcb addresses.now ip_mtu self.now.queued }
    {
        self.tcb.payload_part(addresses, ip_mtu, self.queued.len())
    }

    /// What may go from SND.NXT on, if it is worth it.
    fn payload_part(&self, addresses: &AddressPair, ip_mtu: usize) -> Option<Part>
        ensures has { is_some result ≡ has_payload self.now.tcb addresses.now ip_mtu self.now.queued }
        ensures value { IfSome result (λ part. choice_of part ≡ payload_choice self.now.tcb addresses.now ip_mtu self.now.queued) }
        ensures part { IfSome result (λ part. IsPartOf self.now (choice_of part)) }
    {
        let part = self.ready_part(addresses, ip_mtu);
        let limit = self.tcb.size_limit(addresses, ip_mtu);
        if self.tcb.sends_part(self.queued.len(), limit, &part) {
            Some(part)
        } else {
            None
        }
    }

    /// What is to be retransmitted.
    fn resend_part(&self, addresses: &AddressPair, ip_mtu: usize) -> Part
        ensures part { IsPartOf self.now (choice_of result) }
        ensures value { choice_of result ≡ resend_choice self.now.tcb addresses.now ip_mtu self.now.queued }
    {
        let queued = self.queued.len();
        let offset = self.tcb.resend_offset(addresses, ip_mtu, queued);
        self.tcb.sent_part(addresses, ip_mtu, offset, queued)
    }

    /// A part of the send queue, in one piece or round the end of its storage.
    fn queued_payload(&self, offset: usize, len: usize) -> SegmentPayload<'_>
        ensures { payload_bytes result ≡ take len (drop offset self.now.queued.queue) }
    {
        let first = self.queued.get_allocated(offset, len);
        let rest = self
            .queued
            .get_allocated(offset + first.len(), len - first.len());
        SegmentPayload { first, rest }
    }

    /// The payload of an open offer.
    fn data_of(&self, offer: &OpenOffer) -> SegmentPayload<'_>
        ensures { payload_bytes result ≡ payload_of offer.now offer.now.kind self.now.queued.queue }
    {
        match offer.kind {
            OfferKind::KeepAlive => SegmentPayload::whole(&[0]),
            _ => self.queued_payload(offer.offset, offer.len),
        }
    }

    /// The packet of the open offer, lent from where it lies.
    pub fn offered_segment(&self) -> Option<OfferedSegment<'_>>
        ensures { lent_value result ≡ offered_packet self.now }
    {
        match &self.offered {
            None => None,
            Some(offer) => Some(OfferedSegment {
                header: &offer.header,
                segment: &offer.segment,
                payload: self.data_of(offer),
            }),
        }
    }

    /// The packet of the open offer.
    pub fn offered(&self) -> Option<Packet<'_>>
        ensures { option_value result ≡ offered_packet self.now }
    {
        match self.offered_segment() {
            None => None,
            Some(lent) => {
                let payload = IpPayload::Tcp(*lent.segment, lent.payload);
                Some(Packet::new(*lent.header, payload))
            }
        }
    }

    /// Says what became of the offered packet. One that was sent is recorded; another one leaves all as
    /// it is.
    pub fn settle(&mut self, sent: bool)
        ensures { self.new ≡ settled sent self.old }
    {
        if sent {
            self.record();
        } else {
            self.unoffer();
        }
    }

    /// Records that what was offered was sent.
    fn record(&mut self)
        ensures { self.new ≡ settled true self.old }
    {
        if let Some(offer) = &self.offered {
            let capacity = self.received.capacity();
            self.tcb.sent(offer, self.queued.len(), capacity);
            self.offered = None;
        }
    }

    /// An offer that isn't settled counts as not sent. Mostly there is none, and then nothing is
    /// written.
    pub(crate) fn unoffer(&mut self)
        ensures { self.new ≡ unoffered self.old }
    {
        if self.offered.is_some() {
            self.offered = None;
        }
    }

    /// Offers a segment and hands its packet to `emit`. Where that answers `Ok` the segment counts as
    /// sent.
    pub fn dispatch<C: Context, E, F: FnOnce(Packet<'_>) -> Result<(), E>>(
        &mut self,
        cx: &C,
        emit: F,
    ) -> Result<(), E>
    where
        F: Drop,
        requires { TakesOffered F.FnOnce emit (offer_of (C.context cx.now) self.old).socket }
        ensures { Hands F.FnOnce emit (offer_of (C.context cx.now) self.old).socket result self.new }
    {
        self.offer(cx);
        let Some(answer) = self.offered().map(emit) else {
            return Ok(());
        };
        self.settle(answer.is_ok());
        answer
    }

    /// When the socket wants to be polled.
    pub fn poll_at<C: Context>(&self, cx: &C) -> PollAt
        ensures { result ≡ poll_of (C.context cx.now).ip_mtu self.now }
    {
        match &self.tcb.names.pair {
            None => PollAt::Ingress,
            Some(pair) => self.poll_between(pair, cx.ip_mtu()),
        }
    }

    fn poll_between(&self, pair: &FourTuple, ip_mtu: usize) -> PollAt
        ensures { result ≡ poll_between ip_mtu self.now pair.now }
    {
        if !self.tcb.state.is_closed() {
            self.poll_open(pair, ip_mtu)
        } else if self.tcb.sender.reset_due {
            PollAt::Now
        } else {
            PollAt::Ingress
        }
    }

    /// When a socket that isn't closed wants to be polled.
    fn poll_open(&self, pair: &FourTuple, ip_mtu: usize) -> PollAt
        ensures { result ≡ poll_open ip_mtu self.now pair.now }
    {
        let queued = self.queued.len();
        let has_payload = self.payload_part(&pair.addresses, ip_mtu).is_some();
        let (capacity, free) = (self.received.capacity(), self.received.window());
        if self.tcb.has_wish(has_payload, queued, capacity, free) {
            return PollAt::Now;
        }
        match self.tcb.earliest_deadline(queued) {
            None => PollAt::Ingress,
            Some(instant) => PollAt::Time(instant),
        }
    }
}
