//! Loss recovery by selective acknowledgements, and loss probes.
ghost use Rattle.std.specs.Prelude.{◌≡◌, ◌+◌, ◌≤◌, ◌<◌, ◌^◌, nat_le, nat_lt, min};
ghost use Rattle.net_base.specs.Time.{IsMoment};
ghost use Rattle.tcp_state.specs.Scoreboard.{missing, lost_end};
ghost use Rattle.tcp_block.specs.TcbRules.{initial_loss};
ghost use Rattle.tcp_block.specs.LossRecovery.{with_board, after_wait, probe_from, probes_losses, probe_armed, loss_probe_deadline, run_within, run_of};
ghost use Rattle.tcp_block.specs.LossRecovery.{range_noted, all_noted};
ghost use Rattle.tcp_block.specs.LossRecovery.{heard_more, ranges_noted, threshold, is_lost_at, is_first_lost, is_lost_again};
ghost use Rattle.tcp_block.specs.LossRecovery.{pipe_in_recovery, pipe, next_hole};
ghost use Rattle.tcp_block.specs.LossRecovery.{is_passed, mends_lost, credited_window, mends_credited};
ghost use Rattle.tcp_block.specs.LossRecovery.{fills_hole, retransmit_offset, hole_len, loss_lowered, loss_acked, loss_resent, loss_timed_out, probes_tail};
ghost use Rattle.tcp_block.specs.LossRecovery.{arrived_late, may_be_late, probe_begins, loss_probed, loss_probed_by};
ghost use Rattle.tcp_block.specs.LossRecovery.{has_room, may_send_early, fills_early, rescues, is_sent_early, is_rescue, hole_offset};

use crate::{Loss, Run, Scoreboard, Tcb};
use ip_wire::{SeqNumber, TcpHeader};
use net_base::{Duration, Instant};
use tcp_state::instants::{is_due, later};
use tcp_state::offsets::distance_after;

/// DupThresh: once so many runs after a position are held, or more than two segments, it is lost.
const THRESHOLD: u8 = 3;

/// Where the least timeout is as long, in microseconds, no probe goes.
const LONG_TIMEOUT: u64 = 1_000_000;

impl Loss {
    /// Of a new connection.
    pub const NONE: Loss = Loss {
        board: Scoreboard::EMPTY,
        resent: 0,
        credit: 0,
        mark: 0,
        dupthresh_one: false,
        probes: false,
        probed: false,
        rescue_rxt: 0,
        probe_at: None,
        reo_wnd_mult: 0,
        reorder_until: None,
        undo: None,
    };
}

// PROBES

impl Tcb {
    /// When a probe goes, if that is set now, and anything is in flight.
    fn probe_from(&self, now: Instant) -> Option<Instant>
        requires { IsMoment now }
        ensures { result ≡ probe_from self.now now }
    {
        if self.sender.flight_size == 0 {
            return None;
        }
        let alone = self.sender.flight_size <= self.reno.mss() as u32;
        after_wait(now, self.round_trip.probe_wait(alone))
    }

    /// Whether probes go: the least timeout is below a second, and both SYNs permitted selective
    /// acknowledgements.
    fn probes_losses(&self) -> bool
        ensures { result ≡ probes_losses self.now }
    {
        self.peer.sack && self.settings.min_rto.total_micros() < LONG_TIMEOUT
    }

    /// A probe goes some time from now, unless one went already since something new was acknowledged.
    pub fn arm_probe(&mut self, now: Instant)
        requires { IsMoment now }
        ensures { self.new ≡ record self.old { loss = probe_armed self.old self.old.loss now } }
    {
        if self.probes_losses() && !self.loss.probed {
            self.loss.probe_at = self.probe_from(now);
        }
    }

    /// When a probe is due, or what may be late was waited for long enough: while payload or a FIN is in flight.
    pub fn loss_probe_deadline(&self) -> Option<Instant>
        ensures { result ≡ loss_probe_deadline self.now }
    {
        if self.state.may_send_data() && !self.sender.syn_unacked && self.sender.flight_size != 0 {
            self.loss.reorder_until.or(self.loss.probe_at)
        } else {
            None
        }
    }

    /// Whether nothing is held, nor was lost: then a probe is the last segment. What was waited for is lost.
    fn probes_tail(&self) -> bool
        ensures { result ≡ probes_tail self.now }
    {
        self.loss.reorder_until.is_none() && self.sender.recover == 0 && self.loss.board.held() == 0
    }

    /// A probe is due. Where something is held, or was lost, all that isn't held is lost. Or the segment at
    /// SND.UNA was waited for long enough.
    fn probe(&mut self)
        ensures { self.new ≡ loss_probed self.old }
    {
        let tail = self.probes_tail();
        let probe = self.loss.reorder_until.is_none();
        let begins = !tail && self.sender.recover == 0;
        if begins {
            self.loss.undo = self.undo_begun();
            self.loss.rescue_rxt = 0;
        }
        if !tail {
            self.reno.reduce(self.sender.flight_size);
            self.loss.resent = 0;
        }
        self.sender.resend |= !tail;
        if begins {
            self.sender.recover = self.past_snd_max();
        }
        self.sender.partial &= !begins;
        self.loss.dupthresh_one = probe;
        self.loss.probes = tail;
        self.loss.probed = probe;
        self.loss.probe_at = None;
        self.loss.reorder_until = None;
    }

    /// Where a probe is due: the last segment is to be retransmitted, or the one at SND.UNA.
    pub fn probe_loss(&mut self, now: Instant)
        ensures { self.new ≡ loss_probed_by now self.old }
    {
        if is_due(now, self.loss_probe_deadline()) {
            self.probe();
        }
    }
}

// WHAT THE REMOTE HOLDS

impl Tcb {
    /// A run past SND.UNA, in what was sent.
    fn run_within(&self, start: u32, end: u32) -> Run
        ensures { result ≡ run_within self.now start end }
    {
        if start != 0 && start < end && end <= self.sender.snd_max {
            Run { start, end }
        } else {
            Run::NONE
        }
    }

    /// The run that a range names.
    fn run_of(&self, range: Option<(u32, u32)>) -> Run
        ensures { result ≡ run_of self.now range }
    {
        match range {
            None => Run::NONE,
            Some((start, end)) => {
                let start = distance_after(self.sender.una, SeqNumber(start));
                self.run_within(start, distance_after(self.sender.una, SeqNumber(end)))
            }
        }
    }

    /// Notes the run that a range names.
    fn note(&self, board: &mut Scoreboard, range: Option<(u32, u32)>)
        ensures { board.new.runs ≡ range_noted self.now board.old.runs range }
    {
        let run = self.run_of(range);
        if run.is_run() {
            board.note(run);
        }
    }

    /// What is held with what these ranges name.
    fn noted(&self, ranges: &[Option<(u32, u32)>; 3]) -> Scoreboard
        ensures { result.runs ≡ all_noted self.now self.now.loss.board.runs ranges.now }
    {
        let [first, second, third] = *ranges;
        let mut board = self.loss.board;
        self.note(&mut board, first);
        self.note(&mut board, second);
        self.note(&mut board, third);
        board
    }

    /// So much is held. More than before is something new.
    fn hear_more(&mut self, board: Scoreboard, now: Instant)
        requires { IsMoment now }
        ensures { self.new ≡ record self.old { loss = heard_more self.old board.runs now } }
    {
        let more = self.loss.board.held() < board.held();
        self.loss.board = board;
        if more {
            self.loss.probes = false;
            self.loss.probed = false;
            self.arm_probe(now);
        }
    }

    /// Notes what the ranges of a segment name, if both SYNs permitted them.
    pub fn note_ranges(&mut self, header: &TcpHeader, now: Instant)
        requires { IsMoment now }
        ensures { self.new ≡ record self.old { loss = ranges_noted self.old header.now now } }
    {
        let [first, second, third] = header.options.sack_ranges;
        if self.peer.sack && (first.is_some() || second.is_some() || third.is_some()) {
            let board = self.noted(&header.options.sack_ranges);
            self.hear_more(board, now);
        }
    }
}

// WHAT IS LOST, AND WHAT MAY GO

impl Tcb {
    fn threshold(&self) -> u8
        ensures value { result ≡ threshold self.now }
        ensures low { 1 ≤ result }
        ensures high { result ≤ 3 }
    {
        if self.loss.dupthresh_one {
            1
        } else {
            THRESHOLD
        }
    }

    /// Whether a position that isn't held is lost.
    pub(crate) fn is_lost_at(&self, offset: u32) -> bool
        ensures { result ≡ is_lost_at self.now offset }
    {
        self.loss
            .board
            .is_lost(self.threshold(), self.reno.mss(), offset)
    }

    /// Whether the segment at SND.UNA is lost, as the ranges say.
    pub fn is_first_lost(&self) -> bool
        ensures { result ≡ is_first_lost self.now }
    {
        self.peer.sack && self.is_lost_at(0)
    }

    /// Whether so much is held of what was first sent from this position on that what went before is lost.
    pub(crate) fn is_passed(&self, offset: u32) -> bool
        ensures { result ≡ is_passed self.now offset }
    {
        let few = (self.threshold() - 1) as u32 * self.reno.mss() as u32;
        few < self.loss.board.sacked_from(offset)
    }

    /// Whether what was retransmitted is lost once more: what was first sent after it is held.
    pub fn is_lost_again(&self) -> bool
        ensures { result ≡ is_lost_again self.now }
    {
        self.peer.sack
            && self.reno.recovers()
            && self.loss.resent != 0
            && self.is_passed(self.loss.mark)
    }

    /// Whether what is missing may only be late: something came late, and no probe went since.
    pub(crate) fn may_be_late(&self) -> bool
        ensures { result ≡ may_be_late self.now }
    {
        self.loss.reo_wnd_mult != 0 && self.peer.sack && !self.loss.dupthresh_one
    }

    /// How much of what is in flight isn't held below this position.
    fn missing_below(&self, offset: u32) -> u32
        ensures { result ≡ missing self.now.loss.board.runs (min offset self.now.sender.flight_size) }
    {
        self.loss.board.missing(offset.min(self.sender.flight_size))
    }

    /// The position after the last one that is lost.
    fn lost_end(&self) -> u32
        ensures { result ≡ lost_end self.now.loss.board.runs (threshold self.now) self.now.reno.mss }
    {
        self.loss.board.lost_end(self.threshold(), self.reno.mss())
    }

    /// Pipe in recovery.
    fn pipe_in_recovery(&self) -> u32
        ensures { result ≡ pipe_in_recovery self.now }
    {
        let missing = self.loss.board.missing(self.sender.flight_size);
        missing
            .saturating_sub(self.missing_below(self.lost_end()))
            .saturating_add(self.missing_below(self.loss.resent))
    }

    /// Pipe: how much is on its way, as far as that is known.
    pub fn pipe(&self) -> u32
        ensures { result ≡ pipe self.now }
    {
        if self.sender.flight_size == 0 {
            0
        } else if self.reno.recovers() {
            self.pipe_in_recovery()
        } else {
            self.loss.board.missing(self.sender.flight_size)
        }
    }

    /// The first position after what was retransmitted that isn't held.
    fn next_hole(&self) -> u32
        ensures { result ≡ next_hole self.now }
    {
        self.loss.board.first_missing(self.loss.resent)
    }

    /// Whether the congestion window has room for a segment alongside Pipe.
    fn has_room(&self) -> bool
        ensures { result ≡ has_room self.now }
    {
        self.pipe() as u64 + self.reno.mss() as u64 <= self.reno.window() as u64
    }

    /// Whether the next hole is lost, and the congestion window has room.
    fn mends_lost(&self) -> bool
        ensures { result ≡ mends_lost self.now }
    {
        self.is_lost_at(self.next_hole()) && self.has_room()
    }

    /// How much of the congestion window what is retransmitted for a partial acknowledgement takes: the second
    /// segment no more than half.
    fn credited_window(&self) -> u32
        ensures { result ≡ credited_window self.now }
    {
        if self.loss.credit == 1 {
            self.reno.window() / 2
        } else {
            self.reno.window()
        }
    }

    /// Whether the next hole was sent before this recovery began.
    fn is_hole_older(&self) -> bool
        ensures { result ≡ nat_lt (next_hole self.now + 1) self.now.sender.recover }
    {
        (self.next_hole() as u64 + 1) < self.sender.recover as u64
    }

    /// Whether that part of the congestion window has room for a segment alongside what was retransmitted.
    fn has_credited_room(&self) -> bool
        ensures { result ≡ nat_le (missing self.now.loss.board.runs (min self.now.loss.resent self.now.sender.flight_size) + self.now.reno.mss) (credited_window self.now) }
    {
        self.missing_below(self.loss.resent) as u64 + self.reno.mss() as u64
            <= self.credited_window() as u64
    }

    /// Whether the next hole was sent before this recovery began, a partial acknowledgement lets a segment
    /// go there, and the congestion window has room for it alongside what was retransmitted.
    fn mends_credited(&self) -> bool
        ensures { result ≡ mends_credited self.now }
    {
        self.loss.credit != 0 && self.is_hole_older() && self.has_credited_room()
    }

    /// Whether a segment goes into the next hole.
    pub fn fills_hole(&self) -> bool
        ensures { result ≡ fills_hole self.now }
    {
        self.peer.sack
            && self.reno.recovers()
            && !self.sender.syn_unacked
            && self.next_hole() < self.sender.flight_size
            && (self.mends_lost() || self.mends_credited())
    }

    /// Whether what isn't lost may are retransmitted, too, where no new payload goes.
    fn may_send_early(&self) -> bool
        ensures { result ≡ may_send_early self.now }
    {
        self.peer.sack
            && self.reno.recovers()
            && !self.sender.syn_unacked
            && self.next_hole() < self.sender.flight_size
            && self.has_room()
    }

    /// Whether the next hole lies below what is held.
    fn fills_early(&self) -> bool
        ensures { result ≡ fills_early self.now }
    {
        self.may_send_early() && self.next_hole() < self.loss.board.end()
    }

    /// Whether the last segment of what is in flight may go, as it may once in a recovery, where SND.UNA
    /// passed RescueRxt and nothing that is held lies after the next hole.
    fn rescues(&self) -> bool
        ensures { result ≡ rescues self.now }
    {
        self.may_send_early()
            && self.loss.rescue_rxt == 0
            && self.loss.board.end() <= self.next_hole()
            && self.sender.flight_size == self.sender.snd_max
    }

    /// Whether a segment is retransmitted that isn't lost, where no new payload goes.
    pub fn is_sent_early(&self) -> bool
        ensures { result ≡ is_sent_early self.now }
    {
        self.fills_early() || self.rescues()
    }

    /// Whether what is retransmitted is a rescue.
    fn is_rescue(&self) -> bool
        ensures { result ≡ is_rescue self.now }
    {
        !(self.sender.resend || self.loss.probes || self.fills_hole() || self.fills_early())
            && self.rescues()
    }

    /// Where something is retransmitted in recovery: at the next hole, or as a rescue at the last segment.
    fn hole_offset(&self, limit: usize, sent: usize) -> usize
        ensures { result ≡ hole_offset self.now limit sent }
    {
        let hole = self.next_hole() as usize;
        if self.is_rescue() {
            sent.saturating_sub(limit).max(hole)
        } else {
            hole
        }
    }

    /// From which place of the send queue something is retransmitted, where a segment takes so much, and so much
    /// was sent.
    pub fn retransmit_offset(&self, limit: usize, sent: usize, queued: usize) -> usize
        ensures value { result ≡ retransmit_offset self.now limit sent queued }
        ensures within { result ≤ queued }
    {
        if self.sender.resend || self.sender.flight_size == 0 {
            0
        } else if self.loss.probes {
            sent.saturating_sub(limit).min(queued)
        } else {
            self.hole_offset(limit, sent).min(sent.min(queued))
        }
    }

    /// How much from there on was sent and isn't held.
    pub fn hole_len(&self, offset: usize, sent: usize) -> usize
        requires offset { offset < 2 ^ 32 }
        requires sent { sent < 2 ^ 32 }
        ensures { result ≡ hole_len self.now offset sent }
    {
        if self.sender.syn_unacked {
            return sent.saturating_sub(offset);
        }
        let end = self.loss.board.gap_end(offset as u32, sent as u32);
        (end as usize).saturating_sub(offset)
    }
}

// WHAT HAPPENS

impl Loss {
    /// Whether SND.UNA rises over what went once, though what was sent later is held.
    fn arrived_late(&self) -> bool
        ensures { result ≡ arrived_late self.now }
    {
        self.mark == 0 && !self.board.is_empty()
    }

    /// SND.UNA rose by so much. `partial` says that fast recovery goes on.
    fn lower(&mut self, by: u32, partial: bool)
        ensures { self.new ≡ loss_lowered self.old by partial }
    {
        if self.arrived_late() {
            self.reo_wnd_mult = self.reo_wnd_mult.max(1);
        }
        self.board.acknowledge(by);
        self.credit = if partial && self.resent != 0 { 2 } else { 0 };
        self.resent = self.resent.saturating_sub(by);
        self.mark = self.mark.saturating_sub(by);
        self.dupthresh_one &= partial;
        self.probes = false;
        self.probed = false;
        self.rescue_rxt = self.rescue_rxt.saturating_sub(by);
        self.reorder_until = None;
        self.undo = None;
    }
}

impl Tcb {
    /// SND.UNA rose by so much.
    pub fn lower_loss(&mut self, by: u32, partial: bool, now: Instant)
        requires { IsMoment now }
        ensures { self.new ≡ record self.old { loss = loss_acked self.old by partial now } }
    {
        if by != 0 {
            self.loss.lower(by, partial);
            self.arm_probe(now);
        }
    }

    /// Something was retransmitted, up to so far past SND.UNA.
    pub fn lose_resent(&mut self, end: u32)
        ensures { self.new ≡ record self.old { loss = loss_resent self.old end } }
    {
        let rescue_rxt = self.is_rescue();
        if self.sender.resend || self.reno.recovers() && !(self.loss.probes || rescue_rxt) {
            self.loss.resent = self.loss.resent.max(end);
        }
        if self.reno.recovers() && self.sender.resend {
            self.loss.rescue_rxt = self.loss.rescue_rxt.max(end.saturating_add(1));
        } else if rescue_rxt {
            self.loss.rescue_rxt = self.sender.recover;
        }
        self.loss.credit = self.loss.credit.saturating_sub(1);
        self.loss.mark = self.sender.snd_max;
        self.loss.probes = false;
    }

    /// The retransmission timer ran out: what is held stays known, and what the window was before.
    pub fn lose_all(&mut self)
        ensures { self.new ≡ record self.old { loss = loss_timed_out self.old } }
    {
        let board = self.loss.board;
        let reo_wnd_mult = self.loss.reo_wnd_mult;
        let undo = if self.sender.syn_unacked {
            None
        } else {
            self.undo_begun()
        };
        self.loss = Loss::NONE;
        self.loss.board = board;
        self.loss.mark = self.sender.snd_max;
        self.loss.reo_wnd_mult = reo_wnd_mult.min(1);
        self.loss.undo = undo;
    }
}

fn after_wait(now: Instant, wait: Option<u64>) -> Option<Instant>
    requires { IsMoment now }
    ensures { result ≡ after_wait now wait }
{
    match wait {
        None => None,
        Some(wait) => Some(later(now, Duration::from_micros(wait))),
    }
}
