//! What a socket offers: a test for each rule, and what the rules for payload may send.
ghost use Rattle.std.specs.Bool.{OnTrue};
ghost use Rattle.std.specs.Prelude.{◌≡◌, ◌+◌, ◌-◌, ◌≤◌, ◌<◌, ◌^◌, ◌&&◌, true, min};
ghost use Rattle.tcp_state.specs.States.{may_send_data};
ghost use Rattle.tcp_block.specs.Rules.{time_wait_end, owes_syn, resends_beside, ack_deadline, Choice, timestamps_len, size_limit, congestion_limit, beyond};
ghost use Rattle.tcp_block.specs.Rules.{window_limit, next_offset, fin_is_sent, payload_of_size, ready, may_be_small, fills_enough, is_sendable, sends_choice, sent_count};
ghost use Rattle.tcp_block.specs.LossRecovery.{is_sent_early, retransmit_offset, hole_len};
ghost use Rattle.tcp_block.specs.Rules.{congestion_room, sent_payload, probe_choice, control_for, updates_window, keep_alive_deadline, backed_off_now};
ghost use Rattle.tcp_block.specs.Offers.{number_at, backed_off};
ghost use Rattle.tcp_block.specs.Choices.{choice_of};

use super::retries::one_more;
use crate::{AddressPair, CongestionControl, Tcb};
use ip_wire::{SeqNumber, TcpControl};
use net_base::Instant;
use tcp_state::instants::is_due;
use tcp_state::offsets::advanced_by;

/// The longest IP packet: the length field has 16 bits.
const LONGEST_PACKET: usize = 65_535;

/// How much of the send queue is to go, from which offset, and whether the FIN goes with it.
#[derive(Clone, Copy, PartialEq, Eq)]
pub struct Part {
    pub offset: usize,
    pub len: usize,
    pub fin: bool,
}

/// The byte at SND.UNA, which probes a closed window.
pub const PROBE: Part = Part {
    offset: 0,
    len: 1,
    fin: false,
};

impl Part {
    /// What a segment with this part of the send queue says: the last byte is pushed.
    pub fn control(&self, queued: usize) -> TcpControl
        requires { self.now.offset + self.now.len < 2 ^ 64 }
        ensures { result ≡ control_for (choice_of self.now) queued }
    {
        if self.fin {
            TcpControl::Fin
        } else if self.len != 0 && self.offset + self.len == queued {
            TcpControl::Psh
        } else {
            TcpControl::None
        }
    }
}

impl Tcb {
    /// The end of TIME-WAIT.
    pub fn time_wait_end(&self) -> Option<Instant>
        ensures { result ≡ time_wait_end self.now }
    {
        if self.state.is_time_wait() {
            self.timers.time_wait_ends
        } else {
            None
        }
    }

    /// Whether the own SYN is to go.
    pub fn owes_syn(&self) -> bool
        ensures { result ≡ owes_syn self.now }
    {
        self.state.sends_syn()
            && !(self.state.is_answering() && self.settings.synack_paused)
            && self.sender.syn_unacked
            && self.sender.flight_size == 0
    }

    /// Whether something is to be retransmitted before any payload: the segment at SND.UNA, the last one as a probe, or
    /// what is lost at the next hole.
    pub fn resends_first(&self) -> bool
        ensures { result ≡ resends_beside self.now true }
    {
        self.state.may_send_data() && (self.sender.resend || self.loss.probes || self.fills_hole())
    }

    /// Whether something is to be retransmitted where no payload goes.
    pub fn resends_last(&self) -> bool
        ensures { result ≡ may_send_data self.now.state && is_sent_early self.now }
    {
        self.state.may_send_data() && self.is_sent_early()
    }

    /// Whether something is to be retransmitted, where `payload` says whether payload may go.
    pub(crate) fn resends(&self, payload: bool) -> bool
        ensures { result ≡ resends_beside self.now payload }
    {
        self.state.may_send_data()
            && (self.sender.resend
                || self.loss.probes
                || self.fills_hole()
                || self.is_sent_early() && !payload)
    }

    /// When an acknowledgement is due, where there is something to acknowledge.
    pub fn ack_deadline(&self) -> Option<Instant>
        ensures { result ≡ ack_deadline self.now }
    {
        if self.receiver.took_syn {
            self.timers.ack_at
        } else {
            None
        }
    }

    /// The length of the timestamps option with its padding.
    fn timestamps_len(&self) -> usize
        ensures value { result ≡ timestamps_len self.now }
        ensures small { result ≤ 12 }
    {
        if self.uses_stamps() { 12 } else { 0 }
    }

    /// The longest payload of a segment: what the remote takes, and a packet holds after headers without
    /// options, less the options, but at least a byte.
    pub fn size_limit(&self, addresses: &AddressPair, ip_mtu: usize) -> usize
        ensures value { result ≡ size_limit self.now addresses.now ip_mtu }
        ensures small { result ≤ 65_535 }
    {
        ip_mtu
            .min(LONGEST_PACKET)
            .saturating_sub(addresses.ip_header_len())
            .saturating_sub(20)
            .min(self.peer.mss as usize)
            .saturating_sub(self.timestamps_len())
            .max(1)
    }

    /// What both windows leave of so many bytes.
    pub fn window_limit(&self, size: usize) -> usize
        ensures value { result ≡ window_limit self.now size }
        ensures small { result ≤ size }
    {
        let flight = self.sender.flight_size;
        let size = size.min(self.peer.window.saturating_sub(flight) as usize);
        match self.settings.congestion_control {
            CongestionControl::None => size,
            _ if self.takes_following_flight(size) => size,
            CongestionControl::Reno | CongestionControl::Cubic => {
                size.min(self.congestion_room() as usize)
            }
        }
    }

    /// Whether the congestion window has room for so much after all that is in flight. Outside of
    /// recovery no more is on its way.
    fn takes_following_flight(&self, size: usize) -> bool
        ensures { OnTrue result (size ≤ congestion_room self.now) }
    {
        !self.reno.recovers()
            && (self.sender.flight_size as u64).saturating_add(size as u64)
                <= self.reno.window() as u64
    }

    /// How much the congestion window lets go beyond what is on its way.
    fn congestion_room(&self) -> u32
        ensures { result ≡ congestion_room self.now }
    {
        if self.peer.sack {
            self.reno.window().saturating_sub(self.pipe())
        } else {
            (self.reno.window() + self.beyond()).saturating_sub(self.sender.flight_size)
        }
    }

    /// How far the first two duplicates let what goes lie beyond the congestion window.
    fn beyond(&self) -> u32
        ensures value { result ≡ beyond self.now }
        ensures small { result ≤ 131_070 }
    {
        if self.sender.recover == 0 {
            self.reno.mss() as u32 * self.sender.duplicates.min(2) as u32
        } else {
            0
        }
    }

    /// Where SND.NXT stands in the send queue.
    pub fn next_offset(&self) -> usize
        ensures value { result ≡ next_offset self.now }
        ensures small { result < 2 ^ 32 }
    {
        (self.sender.flight_size as usize).saturating_sub(self.sender.syn_unacked as usize)
    }

    /// Whether the FIN goes with the last byte or after it.
    fn fin_is_sent(&self, queued: usize, end: usize) -> bool
        ensures { result ≡ fin_is_sent self.now queued end }
    {
        self.state.owes_fin() && end == queued
    }

    /// What may go from SND.NXT on, where so many bytes are queued.
    pub fn payload_part(&self, addresses: &AddressPair, ip_mtu: usize, queued: usize) -> Part
        ensures { choice_of result ≡ payload_of_size self.now queued (ready self.now (size_limit self.now addresses.now ip_mtu) queued) }
    {
        let offset = self.next_offset();
        let len = self.ready(self.size_limit(addresses, ip_mtu), queued);
        let fin = self.fin_is_sent(queued, offset + len);
        Part { offset, len, fin }
    }

    /// Whether bytes or a FIN are to go from SND.NXT, and what may go is worth it.
    pub fn sends_part(&self, queued: usize, limit: usize, part: &Part) -> bool
        requires { queued ≤ 2 ^ 30 }
        ensures { result ≡ sends_choice self.now queued limit (choice_of part.now) }
    {
        let flight = self.sender.flight_size;
        self.state.may_send_data()
            && self.sender.syn_unacked as u32 <= flight
            && (flight as usize) < self.unacked(queued)
            && self.is_sendable(queued, limit, part)
    }

    /// How much of the send queue may go from SND.NXT.
    fn ready(&self, limit: usize, queued: usize) -> usize
        ensures value { result ≡ ready self.now limit queued }
        ensures small { result ≤ limit }
    {
        self.window_limit(limit.min(queued.saturating_sub(self.next_offset())))
    }

    /// Whether Nagle's rule doesn't hold back a small segment.
    fn may_be_small(&self) -> bool
        ensures { result ≡ may_be_small self.now }
    {
        !self.settings.nagle || self.sender.flight_size == 0
    }

    /// Whether all that is queued may go, or half of the largest window that the remote named.
    fn fills_enough(&self, queued: usize, size: usize) -> bool
        ensures { result ≡ fills_enough self.now queued size }
    {
        let offset = self.next_offset();
        offset <= queued && queued - offset == size || self.peer.largest_window as usize / 2 <= size
    }

    /// Whether something goes, and so much is worth a segment: a full one, or enough where small ones
    /// may go.
    fn is_sendable(&self, queued: usize, limit: usize, part: &Part) -> bool
        ensures { result ≡ is_sendable self.now queued limit (choice_of part.now) }
    {
        if part.fin || part.len == 0 {
            return part.fin;
        }
        limit <= part.len || self.may_be_small() && self.fills_enough(queued, part.len)
    }

    /// How many offsets of the send queue, and one for the FIN after it, were ever sent.
    fn sent_count(&self) -> usize
        ensures value { result ≡ sent_count self.now }
        ensures small { result < 2 ^ 32 }
    {
        (self.sender.snd_max as usize).saturating_sub(self.sender.syn_unacked as usize)
    }

    /// From which place of the send queue something is retransmitted.
    pub fn resend_offset(&self, addresses: &AddressPair, ip_mtu: usize, queued: usize) -> usize
        ensures value { result ≡ retransmit_offset self.now (size_limit self.now addresses.now ip_mtu) (sent_count self.now) queued }
        ensures within { result ≤ queued }
    {
        self.retransmit_offset(
            self.size_limit(addresses, ip_mtu),
            self.sent_count(),
            queued,
        )
    }

    /// What was sent again from an offset on, up to what is held, where so many bytes are queued.
    pub fn sent_part(
        &self,
        addresses: &AddressPair,
        ip_mtu: usize,
        offset: usize,
        queued: usize,
    ) -> Part
        requires { offset < 2 ^ 32 }
        ensures { choice_of result ≡ sent_payload self.now queued offset
            (min (hole_len self.now offset (sent_count self.now)) (min (size_limit self.now addresses.now ip_mtu) (queued - offset))) }
    {
        let sent = self.sent_count();
        let len = self
            .size_limit(addresses, ip_mtu)
            .min(queued.saturating_sub(offset))
            .min(self.hole_len(offset, sent));
        let end = offset + len;
        Part {
            offset,
            len,
            fin: self.fin_is_sent(queued, end) && end < sent,
        }
    }

    /// The number of an offset in the send queue.
    pub fn number_at(&self, offset: usize) -> SeqNumber
        requires { offset < 2 ^ 63 }
        ensures { result ≡ number_at self.now offset }
    {
        advanced_by(self.sender.una, self.sender.syn_unacked as usize + offset)
    }

    /// Whether so much space came free that it is worth a segment of its own.
    pub fn updates_window(&self, capacity: usize, free: usize) -> bool
        requires { capacity ≤ 2 ^ 30 }
        ensures { result ≡ updates_window self.now capacity free }
    {
        self.state.accepts_data() && self.is_worth_telling(capacity, free)
    }

    /// When a keep-alive is due.
    pub fn keep_alive_deadline(&self) -> Option<Instant>
        ensures { result ≡ keep_alive_deadline self.now }
    {
        if self.state.keeps_alive() && self.sender.flight_size == 0 {
            self.settings.keep_alive_at
        } else {
            None
        }
    }

    /// Where the retransmission timer has run out, or else where a loss probe is due.
    pub fn back_off(&mut self, now: Instant)
        ensures { self.new ≡ backed_off now self.old }
    {
        if is_due(now, self.timers.retransmit_at) {
            self.time_out_flight();
        } else {
            self.probe_loss(now);
        }
    }

    /// SND.NXT goes back to SND.UNA, and the retransmission timer is off until a segment goes. Congestion
    /// control isn't told of a SYN.
    fn time_out_flight(&mut self)
        ensures { self.new ≡ backed_off_now self.old }
    {
        self.lose_all();
        if !self.sender.syn_unacked {
            self.reno.timed_out(self.sender.flight_size);
            self.sender.recover = self.past_snd_max();
        }
        self.sender.syn_lost = self.sender.syn_lost || self.sender.syn_unacked;
        self.sender.flight_size = 0;
        self.sender.timeouts = one_more(self.sender.timeouts);
        self.timers.retransmit_at = None;
        self.round_trip.back_off();
        self.round_trip.forget_sample();
    }
}
