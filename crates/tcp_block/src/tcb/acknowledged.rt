//! The acknowledgement and the window of an accepted segment.
ghost use Rattle.std.specs.Prelude.{◌≡◌, ◌≤◌, ◌<◌, ◌^◌, IfSome, if◌then◌else◌};
ghost use Rattle.net_base.specs.Time.{IsMoment};
ghost use Rattle.tcp_state.specs.Reno.{started};
ghost use Rattle.tcp_state.specs.RoundTrip.{begun_late};
ghost use Rattle.tcp_block.specs.Acknowledged.{freed_by, sender_moved, retransmit_after, acks_local_syn, acks_in_recovery, is_partial, round_trip_after};
ghost use Rattle.tcp_block.specs.Acknowledged.{recovery_after, reno_after, una_moved, acks_fin, state_after_ack, in_state, tcb_acknowledged, scaled};
ghost use Rattle.tcp_block.specs.Acknowledged.{acks_no_less, or_number, names_window, windowed, window_set, end_past, highest_end, sacked_by, ranges_taken};
ghost use Rattle.tcp_block.specs.Acknowledged.{tells_of_loss, is_duplicate, duplicates_after, is_third, is_lost_since, is_missed, begins_recovery, reorder_until};
ghost use Rattle.tcp_block.specs.Acknowledged.{may_be_missed, is_blind, partly_after, una_risen, reno_counted, counted};

use crate::{State, Tcb};
use ip_wire::{MAX_WINDOW_SCALE, SeqNumber, TcpHeader};
use net_base::{Duration, Instant};
use tcp_state::controls::is_fin;
use tcp_state::instants::{later, time_wait_from, timeout_from};
use tcp_state::offsets::{advanced_by, distance_after, distance_before};

/// What a window field means.
fn scaled(scale: Option<u8>, field: u16) -> u32
    ensures { result ≡ scaled scale field }
{
    match scale {
        None => field as u32,
        Some(scale) => (field as u32) << scale.min(MAX_WINDOW_SCALE),
    }
}

/// Whether an acknowledgement isn't less than the one before.
fn acks_no_less(last: SeqNumber, ack_number: Option<SeqNumber>) -> bool
    ensures { result ≡ acks_no_less last ack_number }
{
    match ack_number {
        None => true,
        Some(number) => distance_before(last, number) == 0,
    }
}

/// The number that is named, or the last one.
pub fn or_number(last: SeqNumber, number: Option<SeqNumber>) -> SeqNumber
    ensures { result ≡ or_number last number }
{
    match number {
        None => last,
        Some(number) => number,
    }
}

/// How far past a number the highest of these ranges ends.
fn highest_end(una: SeqNumber, ranges: &[Option<(u32, u32)>; 3]) -> u32
    ensures { result ≡ highest_end una ranges.now }
{
    let [first, second, third] = *ranges;
    end_past(una, first).max(end_past(una, second).max(end_past(una, third)))
}

/// How far past a number a range ends.
fn end_past(una: SeqNumber, range: Option<(u32, u32)>) -> u32
    ensures { result ≡ end_past una range }
{
    match range {
        None => 0,
        Some((_, end)) => distance_after(una, SeqNumber(end)),
    }
}

impl Tcb {
    /// How many bytes of the send queue are acknowledged.
    pub fn freed_by(&self, by: u32, queued: usize) -> usize
        ensures value { result ≡ freed_by self.now by queued }
        ensures within { result ≤ queued }
    {
        (by as usize)
            .saturating_sub(self.sender.syn_unacked as usize)
            .min(queued)
    }

    /// SND.UNA rises by so much, where so many bytes were queued.
    pub fn move_una(&mut self, by: u32, queued: usize, now: Instant)
        requires { IsMoment now }
        ensures { self.new ≡ una_moved self.old by queued now }
    {
        if by == 0 {
            self.keep_una(queued, now);
            return;
        }
        let partial = self.is_partial(by);
        self.raise_una(by, partial, queued, now);
        self.lower_loss(by, partial, now);
    }

    /// SND.UNA stays, as where a host mostly receives: apart, this comes to a few instructions.
    fn keep_una(&mut self, queued: usize, now: Instant)
        requires { IsMoment now }
        ensures { self.new ≡ una_moved self.old 0 queued now }
    {
        self.time_una(0, queued, now);
        self.move_sender(0);
    }

    /// SND.UNA rises, but for what is known of losses.
    fn raise_una(&mut self, by: u32, partial: bool, queued: usize, now: Instant)
        requires instant { IsMoment now }
        requires partial { partial ≡ is_partial self.old by }
        ensures { self.new ≡ una_risen self.old by queued now }
    {
        let blind = self.is_blind(by, partial);
        let again = self.sender.partial & blind;
        let first = partial & (self.loss.resent.saturating_sub(by) == 0);
        let validation = self.validation_after(by, now);
        self.time_una(by, queued, now);
        self.validation = validation;
        self.move_sender(by);
        self.sender.resend |= first;
        self.sender.partial |= blind;
        self.timers.retransmit_at = self.retransmit_after(by, again, now);
    }

    /// Whether nothing says of a partial acknowledgement how much else is lost.
    fn is_blind(&self, by: u32, partial: bool) -> bool
        requires { partial ≡ is_partial self.now by }
        ensures { result ≡ is_blind self.now by }
    {
        partial && !(self.peer.sack && (self.loss.resent != 0 || self.is_lost_at(by)))
    }

    /// The instant of the retransmission timer after SND.UNA rose by so much. It stays after a blind
    /// acknowledgement that isn't the first.
    fn retransmit_after(&self, by: u32, stays: bool, now: Instant) -> Option<Instant>
        requires { IsMoment now }
        ensures { result ≡ retransmit_after self.now.timers by self.now.sender.flight_size stays now self.now.round_trip }
    {
        if by == 0 {
            self.timers.retransmit_at
        } else if self.sender.flight_size == 0 {
            None
        } else if stays {
            self.timers.retransmit_at
        } else {
            Some(timeout_from(now, &self.round_trip))
        }
    }

    /// Whether something new is acknowledged in fast recovery.
    fn acks_in_recovery(&self, by: u32) -> bool
        ensures { result ≡ acks_in_recovery self.now by }
    {
        self.reno.recovers() && by != 0
    }

    /// Whether something new is acknowledged in fast recovery, and not all up to `recover`.
    fn is_partial(&self, by: u32) -> bool
        ensures { result ≡ is_partial self.now by }
    {
        self.acks_in_recovery(by) && (by as u64 + 1) < self.sender.recover as u64
    }

    /// What a partial acknowledgement makes of the congestion window: with selective acknowledgements it
    /// stays.
    fn recover_partly(&mut self, by: u32, freed: usize, queued: usize)
        requires { freed ≡ freed_by self.old by queued }
        ensures { self.new ≡ record self.old { reno = partly_after self.old by queued } }
    {
        if !self.peer.sack {
            self.reno.acknowledged_partly(freed);
        }
    }

    /// What fast recovery makes of this.
    fn recover_una(&mut self, by: u32, freed: usize, queued: usize)
        requires { freed ≡ freed_by self.old by queued }
        ensures { self.new ≡ record self.old { reno = recovery_after self.old by queued } }
    {
        if self.is_partial(by) {
            self.recover_partly(by, freed, queued);
        } else {
            self.reno.recover();
        }
    }

    /// What round trip and congestion control learn of this. A connection begins with its first window.
    fn time_una(&mut self, by: u32, queued: usize, now: Instant)
        requires { IsMoment now }
        ensures { self.new ≡ record self.old { round_trip = round_trip_after self.old by now; reno = reno_after self.old by queued now } }
    {
        let freed = self.freed_by(by, queued);
        self.round_trip.advance(by, now, self.settings.fine_timer);
        if self.acks_local_syn(by) {
            self.begin();
        } else if self.acks_in_recovery(by) {
            self.recover_una(by, freed, queued);
        } else {
            self.grow_if_used(freed, now);
        }
    }

    /// The connection begins, maybe after its SYN was lost.
    fn begin(&mut self)
        ensures { self.new ≡ record self.old {
          round_trip = if self.old.sender.syn_lost then begun_late self.old.round_trip else self.old.round_trip;
          reno = started self.old.reno self.old.sender.syn_lost;
        } }
    {
        self.reno.start(self.sender.syn_lost);
        if self.sender.syn_lost {
            self.round_trip.begin_late();
        }
    }

    /// Whether the own SYN is acknowledged.
    fn acks_local_syn(&self, by: u32) -> bool
        ensures { result ≡ acks_local_syn self.now by }
    {
        self.sender.syn_unacked && by != 0
    }

    /// SND.UNA and what is counted from it.
    fn move_sender(&mut self, by: u32)
        ensures { self.new ≡ record self.old { sender = sender_moved self.old.sender by } }
    {
        let stays = by == 0;
        self.sender.una = advanced_by(self.sender.una, by as usize);
        self.sender.past_iss = self.sender.past_iss.saturating_add(by);
        self.sender.syn_unacked &= stays;
        self.sender.flight_size = self.sender.flight_size.saturating_sub(by);
        self.sender.snd_max = self.sender.snd_max.saturating_sub(by);
        self.sender.sacked = self.sender.sacked.saturating_sub(by);
        self.sender.resend &= stays;
        self.sender.recover = self.sender.recover.saturating_sub(by);
        self.sender.timeouts = 0;
        self.sender.unanswered = 0;
    }

    /// The state after an acknowledgement, which may be of the FIN.
    fn state_after_ack(&self, by: u32, queued: usize) -> State
        requires { queued ≤ 2 ^ 30 }
        ensures { result ≡ state_after_ack self.now by queued }
    {
        if self.state.owes_fin() && by as usize == self.unacked(queued) {
            self.state.after_ack_of_fin()
        } else {
            self.state.after_ack()
        }
    }

    /// Goes to a state. TIME-WAIT begins where this leads to it.
    pub fn enter(&mut self, state: State, now: Instant)
        requires { IsMoment now }
        ensures { self.new ≡ in_state self.old state now }
    {
        if state.is_time_wait() && !self.state.is_time_wait() {
            self.timers.time_wait_ends = Some(time_wait_from(now));
        }
        self.state = state;
    }

    /// Takes the acknowledgement of an accepted segment.
    pub fn acknowledge(&mut self, by: u32, queued: usize, now: Instant)
        requires instant { IsMoment now }
        requires queued { queued ≤ 2 ^ 30 }
        ensures { self.new ≡ tcb_acknowledged self.old by queued now }
    {
        let state = self.state_after_ack(by, queued);
        self.move_una(by, queued, now);
        self.enter(state, now);
        if state.is_closed() {
            self.forget();
        }
    }

    /// Whether a segment is no older than the one that set the window last.
    fn names_window(&self, header: &TcpHeader) -> bool
        ensures { result ≡ names_window self.now header.now }
    {
        distance_before(self.peer.snd_wl1, header.seq_number) == 0
            && (distance_after(self.peer.snd_wl1, header.seq_number) != 0
                || acks_no_less(self.peer.snd_wl2, header.ack_number))
    }

    /// Takes the window that a segment names.
    fn on_window(&mut self, header: &TcpHeader)
        ensures { self.new ≡ windowed self.old header.now }
    {
        let window = scaled(self.peer.scale, header.window_len);
        self.peer.window = window;
        self.peer.largest_window = self.peer.largest_window.max(window);
        self.peer.snd_wl1 = header.seq_number;
        self.peer.snd_wl2 = or_number(self.peer.snd_wl2, header.ack_number);
    }

    /// Takes the window of an accepted segment, if no newer one was named, and its timestamp.
    pub fn set_window(&mut self, header: &TcpHeader, now: Instant)
        requires { IsMoment now }
        ensures { self.new ≡ window_set self.old header.now now }
    {
        if self.names_window(header) {
            self.on_window(header);
        }
        self.take_tsval(header, now);
    }

    /// How far past SND.UNA the highest position lies that the SACK ranges of a segment name, if both
    /// SYNs permitted them.
    fn sacked_by(&self, header: &TcpHeader) -> u32
        ensures { result ≡ sacked_by self.now header.now }
    {
        if self.peer.sack {
            highest_end(self.sender.una, &header.options.sack_ranges)
        } else {
            0
        }
    }

    /// Takes what the ranges of a segment name.
    pub fn on_sack_blocks(&mut self, header: &TcpHeader, now: Instant)
        requires { IsMoment now }
        ensures { self.new ≡ ranges_taken self.old header.now now }
    {
        self.note_ranges(header, now);
        self.sender.sacked = self.sender.sacked.max(self.sacked_by(header));
    }

    /// Whether the window is the same, or the ranges tell of payload that came since.
    fn tells_of_loss(&self, header: &TcpHeader) -> bool
        ensures { result ≡ tells_of_loss self.now header.now }
    {
        scaled(self.peer.scale, header.window_len) == self.peer.window
            || self.sender.sacked < self.sacked_by(header)
    }

    /// Whether a segment only acknowledges SND.UNA again, while something is in flight.
    pub fn is_duplicate(&self, header: &TcpHeader, size: usize, by: u32) -> bool
        ensures { result ≡ is_duplicate self.now header.now size by }
    {
        by == 0
            && size == 0
            && !is_fin(header.control)
            && self.tells_of_loss(header)
            && self.sender.flight_size != 0
    }

    /// The duplicates in a row after a segment, counted up to 4.
    pub fn duplicates_after(&self, header: &TcpHeader, size: usize, by: u32) -> u8
        ensures { result ≡ duplicates_after self.now header.now size by }
    {
        if self.is_duplicate(header, size, by) {
            self.sender.duplicates.min(3) + 1
        } else {
            0
        }
    }

    /// Whether the ranges say that what was retransmitted after the timer ran out is lost: what was first sent after
    /// it is held.
    fn is_lost_since(&self) -> bool
        ensures { result ≡ is_lost_since self.now }
    {
        self.sender.recover != 0
            && self.peer.sack
            && !self.reno.recovers()
            && self.is_passed(self.sender.recover)
    }

    /// Whether what is missing is news: no recovery goes on, and it isn't on its way again since the last one.
    fn may_be_missed(&self) -> bool
        ensures { result ≡ may_be_missed self.now }
    {
        self.sender.recover == 0 && (self.loss.resent == 0 || self.is_passed(self.loss.mark))
    }

    /// Whether the third duplicate, or what the ranges say, tells of a loss outside of a recovery.
    fn is_missed(&self, count: u8) -> bool
        ensures { result ≡ is_missed self.now count }
    {
        self.may_be_missed() && (count == 3 || self.is_first_lost())
    }

    /// Whether it begins fast recovery, since it isn't only late.
    fn begins_recovery(&self, count: u8) -> bool
        ensures { result ≡ begins_recovery self.now count }
    {
        self.is_missed(count) && !self.may_be_late() || self.is_lost_since()
    }

    /// Until when what may only be late is waited for. The instant is set once.
    fn reorder_until(&self, count: u8, now: Instant) -> Option<Instant>
        requires { IsMoment now }
        ensures { result ≡ reorder_until self.now count now }
    {
        if self.loss.reorder_until.is_none() && self.may_be_late() && self.is_missed(count) {
            let wait = self.round_trip.late_wait(self.loss.reo_wnd_mult);
            Some(later(now, Duration::from_micros(wait)))
        } else {
            self.loss.reorder_until
        }
    }

    /// Congestion control after so many duplicates in a row, of which the last begins recovery, or what
    /// was retransmitted is lost.
    fn count_reno(&mut self, count: u8, begins: bool, again: bool)
        ensures { self.new ≡ record self.old {
          reno = reno_counted self.old.reno self.old.peer.sack count self.old.sender.flight_size begins again;
        } }
    {
        let (sack, flight) = (self.peer.sack, self.sender.flight_size);
        if begins && !sack {
            self.reno.lost(flight);
        } else if begins || again {
            self.reno.reduce(flight);
        } else if count != 0 && !sack {
            self.reno.inflate();
        }
    }

    /// There were so many duplicates in a row. At the third the segment at SND.UNA is to be retransmitted, and fast
    /// recovery begins where more than `recover` is acknowledged; or it is waited for.
    pub fn count(&mut self, count: u8, now: Instant)
        requires { IsMoment now }
        ensures { self.new ≡ counted self.old count now }
    {
        let begins = self.begins_recovery(count);
        let again = self.is_lost_again();
        let third = count == 3 && !self.reno.recovers() && self.sender.recover != 0;
        self.loss.reorder_until = self.reorder_until(count, now);
        if begins {
            self.loss.undo = self.undo_begun();
            self.loss.rescue_rxt = 0;
        }
        self.count_reno(count, begins, again);
        self.sender.duplicates = count;
        self.sender.resend |= third | begins;
        self.sender.partial &= !begins;
        if begins {
            self.sender.recover = self.past_snd_max();
        }
        if begins || again {
            self.loss.resent = 0;
        }
    }
}
