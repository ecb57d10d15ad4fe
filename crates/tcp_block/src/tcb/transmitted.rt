//! What an offer is told.
ghost use Rattle.std.specs.Prelude.{◌≡◌, ◌+◌, ◌≤◌, ◌<◌, ◌^◌};
ghost use Rattle.net_base.specs.Time.{IsMoment};
ghost use Rattle.tcp_block.specs.Unsettled.{EndsNear};
ghost use Rattle.tcp_block.specs.Settled.{rcv_adv_by, recorded, end_of, past_sacked, nxt_past_held, nxt_moved, timer_started, was_sent, resent, probed};
ghost use Rattle.tcp_block.specs.Settled.{sent_as};

use super::acknowledged::or_number;
use super::opening::or_mss;
use crate::{OfferKind, OpenOffer, Tcb};
use net_base::Instant;
use tcp_state::controls::is_syn;
use tcp_state::instants::{later_by, timeout_from};

impl Tcb {
    /// Records what each segment that went counts for.
    fn record(&mut self, offer: &OpenOffer, capacity: usize)
        requires instant { IsMoment offer.now.instant }
        requires capacity { capacity ≤ 2 ^ 30 }
        ensures { self.new ≡ recorded self.old offer.now capacity }
    {
        self.receiver.rcv_adv = self.rcv_adv_by(offer, capacity);
        self.receiver.last_ack = or_number(self.receiver.last_ack, offer.segment.ack_number);
        if offer.segment.ack_number.is_some() {
            self.timers.ack_at = None;
            self.timers.data_unacked = false;
        }
        self.settings.keep_alive_at = later_by(offer.instant, self.settings.keep_alive);
    }

    /// The right edge of the window after a segment announced it, of a receive buffer with this capacity.
    fn rcv_adv_by(&self, offer: &OpenOffer, capacity: usize) -> u32
        requires { capacity ≤ 2 ^ 30 }
        ensures { result ≡ rcv_adv_by self.now offer.now capacity }
    {
        if is_syn(offer.segment.control) {
            capacity as u32
        } else {
            self.rcv_adv_after(capacity, offer.segment.window_len)
        }
    }

    /// SND.NXT moves so far past SND.UNA, if that is higher. The round trip is timed of a segment that
    /// reaches further than anything before.
    fn move_nxt(&mut self, end: u32, queued: usize, now: Instant)
        requires { IsMoment now }
        ensures { self.new ≡ nxt_moved self.old end queued now }
    {
        if self.sender.snd_max < end {
            self.round_trip.time(end, now);
        }
        self.sender.flight_size = self.sender.flight_size.max(self.past_sacked(end, queued));
        self.sender.snd_max = self.sender.snd_max.max(end);
    }

    /// So far past SND.UNA, and past what the remote holds there of the send queue.
    fn past_sacked(&self, end: u32, queued: usize) -> u32
        ensures { result ≡ past_sacked self.now end queued }
    {
        let sent = (self.sender.snd_max as usize).min(queued.saturating_add(
            self.sender.syn_unacked as usize,
        ));
        if sent as u32 <= end {
            return end;
        }
        end.max(self.loss.board.first_missing(end).min(sent as u32))
    }

    /// Where the remote holds what begins at SND.NXT, that moves after it.
    pub fn skip_sacked(&mut self, queued: usize)
        ensures { self.new ≡ nxt_past_held self.old queued }
    {
        if self.sender.flight_size != 0 {
            self.sender.flight_size = self.past_sacked(self.sender.flight_size, queued);
        }
    }

    fn start_timer(&mut self, now: Instant)
        requires { IsMoment now }
        ensures { self.new ≡ timer_started self.old now }
    {
        if self.timers.retransmit_at.is_none() {
            self.timers.retransmit_at = Some(timeout_from(now, &self.round_trip));
        }
    }

    /// How far past SND.UNA the segment of an offer ends.
    fn end_of(&self, offer: &OpenOffer) -> u32
        requires { end_of self.now offer.now < 2 ^ 32 }
        ensures { result ≡ end_of self.now offer.now }
    {
        let start = self.sender.una.distance(offer.segment.seq_number) as usize;
        (start + offer.len + offer.segment.control.len()) as u32
    }

    /// A segment from the send queue, or a SYN, went.
    fn was_sent(&mut self, offer: &OpenOffer, queued: usize)
        requires instant { IsMoment offer.now.instant }
        requires end { end_of self.old offer.now < 2 ^ 32 }
        ensures { self.new ≡ was_sent self.old offer.now queued }
    {
        let end = self.end_of(offer);
        self.move_nxt(end, queued, offer.instant);
        self.start_timer(offer.instant);
        self.mark_undo(offer.instant);
        self.arm_probe(offer.instant);
        self.keep_probe(queued);
    }

    /// Something was retransmitted, up to so far past SND.UNA. In recovery the timer is to start again.
    fn resent(&mut self, end: u32)
        ensures { self.new ≡ resent self.old end }
    {
        if self.reno.recovers() && self.is_first_lost() {
            self.timers.retransmit_at = None;
        }
        self.lose_resent(end);
        self.sender.resend = false;
        self.round_trip.forget_sample();
    }

    /// A probe went that ends so far past SND.UNA: the next waits twice as long.
    fn probed(&mut self, end: u32, now: Instant)
        requires { IsMoment now }
        ensures { self.new ≡ probed self.old end now }
    {
        self.sender.snd_max = self.sender.snd_max.max(end);
        self.round_trip.back_off();
        self.timers.probe_at = Some(timeout_from(now, &self.round_trip));
    }

    /// The pending packet was transmitted, where the receive buffer has this capacity.
    pub fn sent(&mut self, offer: &OpenOffer, queued: usize, capacity: usize)
        requires instant { IsMoment offer.now.instant }
        requires end { EndsNear offer.now.kind self.old offer.now }
        requires capacity { capacity ≤ 2 ^ 30 }
        ensures { self.new ≡ sent_as offer.now.kind (recorded self.old offer.now capacity) offer.now queued }
    {
        self.record(offer, capacity);
        match offer.kind {
            OfferKind::Reset => self.forget(),
            OfferKind::Syn => {
                self.begin_stamps(offer.instant);
                self.receiver.mss = or_mss(offer.segment.options.max_seg_size);
                self.was_sent(offer, queued);
            }
            OfferKind::FastRetransmission => {
                let end = self.end_of(offer);
                self.resent(end);
                self.was_sent(offer, queued);
            }
            OfferKind::Payload => {
                let snd_max = self.sender.snd_max;
                self.was_sent(offer, queued);
                self.data_sent(snd_max, offer.instant);
            }
            OfferKind::Probe => {
                let end = self.end_of(offer);
                self.probed(end, offer.instant);
                self.ask(offer.instant);
            }
            OfferKind::KeepAlive => self.ask(offer.instant),
            OfferKind::Ack | OfferKind::WindowUpdate => {}
        }
    }
}
