//! A loss that wasn't one is undone.
ghost use Rattle.std.specs.Prelude.{◌≡◌, ◌≤◌, ◌^◌, true};
ghost use Rattle.net_base.specs.Time.{IsMoment};
ghost use Rattle.tcp_block.specs.Undo.{undo_begun, undo_sent};
ghost use Rattle.tcp_block.specs.Undone.{is_tsecr_before, answers_first, answers_undo, is_needless, arrived_early, undone_if, undone, reo_wnd_raised};
ghost use Rattle.tcp_block.specs.Undone.{precedes_answer, reordering_hinted};

use super::timestamps::{is_older, value_by};
use crate::{Tcb, Undo};
use ip_wire::{TcpHeader, TcpTimestampRepr};
use net_base::{Duration, Instant};
use tcp_state::instants::later;

impl Tcb {
    /// Recovery begins, or the timer runs out: what the window was, unless a loss is being mended already, or
    /// what stands at SND.UNA was retransmitted before.
    pub fn undo_begun(&self) -> Option<Undo>
        ensures { result ≡ undo_begun self.now }
    {
        if self.reno.recovers() || self.reno.has_timed_out() {
            self.loss.undo
        } else if self.loss.resent != 0 {
            None
        } else {
            Some(Undo {
                reno: self.reno,
                tsval: None,
                answers_from: None,
            })
        }
    }

    /// Something goes. The first of it since recovery began, or the timer ran out, is retransmitted.
    pub fn mark_undo(&mut self, now: Instant)
        requires { IsMoment now }
        ensures { self.new ≡ record self.old { loss = record self.old.loss { undo = undo_sent self.old self.old.loss.undo now } } }
    {
        if let Some(undo) = self.loss.undo {
            if undo.tsval.is_none() {
                self.loss.undo = Some(Undo {
                    reno: undo.reno,
                    tsval: Some(value_by(self.stamps.generator, now)),
                    answers_from: Some(later(
                        now,
                        Duration::from_micros(self.round_trip.shortest()),
                    )),
                });
            }
        }
    }

    /// Whether what acknowledges something new answers what was sent first: its timestamp tells so, or nothing
    /// was retransmitted.
    fn answers_undo(&self, header: &TcpHeader) -> bool
        ensures { result ≡ answers_undo self.now.loss.undo self.now header.now }
    {
        match &self.loss.undo {
            None => false,
            Some(undo) => match undo.tsval {
                None => true,
                Some(tsval) => {
                    self.uses_stamps() && is_tsecr_before(header.options.timestamp, tsval)
                }
            },
        }
    }

    /// Whether a segment that makes SND.UNA rise by so much, over payload, says that nothing was lost.
    fn is_needless(&self, header: &TcpHeader, by: u32, queued: usize) -> bool
        ensures { result ≡ is_needless self.now header.now by queued }
    {
        self.freed_by(by, queued) != 0 && self.answers_undo(header)
    }

    /// Whether what was sent later came earlier, and recovery began for it.
    fn arrived_early(&self) -> bool
        ensures { result ≡ arrived_early self.now }
    {
        self.reno.recovers() && !self.loss.board.is_empty()
    }

    /// What is missing is waited for longer.
    fn raise_reo_wnd(&mut self)
        ensures { self.new ≡ record self.old { loss = record self.old.loss { reo_wnd_mult = reo_wnd_raised self.old.loss } } }
    {
        self.loss.reo_wnd_mult = self.loss.reo_wnd_mult.min(15) + 1;
    }

    /// The window is as it was, recovery is over, nothing is to be retransmitted, and all that was sent of the send
    /// queue is in flight. What is missing is waited for longer.
    fn undo(&mut self, queued: usize)
        requires { queued ≤ 2 ^ 30 }
        ensures { self.new ≡ undone_if true self.old queued }
    {
        if self.arrived_early() {
            self.raise_reo_wnd();
        }
        if let Some(undo) = &self.loss.undo {
            self.reno.restore(&undo.reno);
        }
        let sent = (self.sender.snd_max as usize).min(queued + self.sender.syn_unacked as usize);
        self.sender.flight_size = self.sender.flight_size.max(sent as u32);
        self.sender.resend = false;
        self.sender.recover = 0;
        self.loss.credit = 0;
    }

    /// Undoes what was done at a loss that wasn't one, where a segment that makes SND.UNA rise by so much
    /// says so.
    pub fn undo_loss(&mut self, header: &TcpHeader, by: u32, queued: usize)
        requires { queued ≤ 2 ^ 30 }
        ensures { self.new ≡ undone self.old header.now by queued }
    {
        if self.is_needless(header, by, queued) {
            self.undo(queued);
        }
    }

    /// Whether no answer to what was retransmitted can have come yet.
    fn precedes_answer(&self, now: Instant) -> bool
        ensures { result ≡ precedes_answer self.now.loss.undo now }
    {
        match &self.loss.undo {
            None => false,
            Some(undo) => match undo.answers_from {
                None => false,
                Some(instant) => now < instant,
            },
        }
    }

    /// What is missing is waited for longer where SND.UNA rises too soon for an answer to what was
    /// retransmitted. A path that became faster may explain it, so nothing is undone.
    pub fn hint_reordering(&mut self, by: u32, now: Instant)
        ensures { self.new ≡ reordering_hinted self.old by now }
    {
        if by != 0 && self.arrived_early() && self.precedes_answer(now) {
            self.raise_reo_wnd();
        }
    }
}

/// Whether an echo is of a timestamp before this one.
fn is_tsecr_before(tsecr: Option<TcpTimestampRepr>, tsval: u32) -> bool
    ensures { result ≡ is_tsecr_before tsecr tsval }
{
    match tsecr {
        None => false,
        Some(tsecr) => is_older(tsecr.tsecr, tsval),
    }
}
