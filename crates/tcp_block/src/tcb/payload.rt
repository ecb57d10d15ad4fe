//! The FIN of an accepted segment, and which acknowledgement becomes due.
ghost use Rattle.std.specs.Prelude.{◌≡◌, ◌+◌, ◌*◌, ◌≤◌, ◌<◌, ◌^◌, nat_le};
ghost use Rattle.net_base.specs.Time.{IsMoment};
ghost use Rattle.tcp_block.specs.Payload.{with_next, is_at_fin, takes_fin, fin_taken, with_fin};
ghost use Rattle.tcp_block.specs.Answers.{ack_recorded, may_challenge, delayed, sooner, ack_instant_after, ack_due, numbers_of};
ghost use Rattle.tcp_block.specs.Answers.{arrived_since};
ghost use Rattle.tcp_block.specs.Rules.{size_limit};

use crate::{AddressPair, Tcb};
use ip_wire::{SeqNumber, TcpHeader};
use net_base::{Duration, Instant};
use tcp_state::controls::is_fin;
use tcp_state::instants::{earlier, is_due, later};
use tcp_state::offsets::{advanced_by, distance_after, distance_before};

impl Tcb {
    /// RCV.NXT rises by so much.
    pub fn advance(&mut self, count: usize)
        ensures { self.new ≡ with_next self.old count }
    {
        self.receiver.next = advanced_by(self.receiver.next, count);
        self.receiver.rcv_adv = (self.receiver.rcv_adv as usize).saturating_sub(count) as u32;
    }

    /// Whether a segment starts at or before RCV.NXT, and ends where RCV.NXT is once it rose by so much.
    fn is_at_fin(&self, header: &TcpHeader, size: usize, advance: usize) -> bool
        requires { advance ≤ 2 ^ 30 }
        ensures { result ≡ is_at_fin self.now header.now size advance }
    {
        distance_after(self.receiver.next, header.seq_number) == 0
            && distance_before(self.receiver.next, header.seq_number) as usize + advance == size
    }

    /// Takes the FIN of a segment whose payload made RCV.NXT rise by so much. `old` is the block before
    /// that.
    pub fn on_fin(
        &mut self,
        old: &Tcb,
        header: &TcpHeader,
        size: usize,
        advance: usize,
        now: Instant,
    )
        requires instant { IsMoment now }
        requires small { advance ≤ 2 ^ 30 }
        ensures { self.new ≡ with_fin self.old old.now header.now size advance now }
    {
        if is_fin(header.control)
            && old.state.accepts_data()
            && old.is_at_fin(header, size, advance)
        {
            self.enter(self.state.after_fin(), now);
            self.receiver.next = advanced_by(self.receiver.next, 1);
            self.receiver.rcv_adv = self.receiver.rcv_adv.saturating_sub(1);
            self.receiver.took_fin = true;
        }
    }

    /// An acknowledgement of all that came was transmitted, with this window field, for a receive buffer of this
    /// capacity.
    pub fn record_ack(&mut self, capacity: usize, window: u16)
        ensures { self.new ≡ ack_recorded self.old capacity window }
    {
        self.receiver.rcv_adv = self.rcv_adv_after(capacity, window);
        self.receiver.last_ack = self.receiver.next;
        self.timers.ack_at = None;
        self.timers.data_unacked = false;
    }

    /// How many positions came since the last acknowledgement went.
    fn arrived_since(&self) -> usize
        ensures { result ≡ arrived_since self.now }
    {
        self.receiver.last_ack.distance(self.receiver.next) as usize
    }

    /// Whether as much came since the last acknowledgement went as two full segments take.
    pub fn arrived_twice(&self, addresses: &AddressPair, ip_mtu: usize) -> bool
        ensures { result ≡ nat_le (2 * size_limit self.now addresses.now ip_mtu) (arrived_since self.now) }
    {
        2 * self.size_limit(addresses, ip_mtu) <= self.arrived_since()
    }

    /// Whether an answer may be drawn.
    pub fn may_challenge(&self, now: Instant) -> bool
        ensures { result ≡ may_challenge now self.now.timers.challenges_from }
    {
        self.timers.challenges_from.is_none() || is_due(now, self.timers.challenges_from)
    }

    /// Makes an acknowledgement due: at once for a FIN, for payload in order while other payload is held, or
    /// for a second segment with payload, for a first one after the delay.
    pub fn ack_due(&mut self, header: &TcpHeader, size: usize, fills: bool, now: Instant)
        requires { IsMoment now }
        ensures { self.new ≡ ack_due self.old header.now size fills now }
    {
        self.timers.ack_at = self.ack_instant_after(header, size, fills, now);
        self.timers.data_unacked = self.timers.data_unacked || size != 0;
    }

    /// When an acknowledgement is due after a segment with so many bytes.
    fn ack_instant_after(
        &self,
        header: &TcpHeader,
        size: usize,
        fills: bool,
        now: Instant,
    ) -> Option<Instant>
        requires { IsMoment now }
        ensures { result ≡ ack_instant_after self.now header.now size fills now }
    {
        if is_fin(header.control) || fills {
            Some(now)
        } else if size == 0 {
            self.timers.ack_at
        } else if self.timers.data_unacked {
            Some(now)
        } else {
            Some(sooner(self.timers.ack_at, delayed(now, self.settings.ack_delay)))
        }
    }
}

/// The instant after the delay, if one is set.
fn delayed(now: Instant, delay: Option<Duration>) -> Instant
    requires { IsMoment now }
    ensures { result ≡ delayed now delay }
{
    match delay {
        None => now,
        Some(delay) => later(now, delay),
    }
}

fn sooner(other: Option<Instant>, instant: Instant) -> Instant
    ensures { result ≡ sooner other instant }
{
    match other {
        None => instant,
        Some(other) => earlier(other, instant),
    }
}

/// The numbers of a run of offsets, where the first place has this one.
pub fn numbers_of(next: SeqNumber, run: Option<(usize, usize)>) -> Option<(u32, u32)>
    ensures { result ≡ numbers_of next run }
{
    match run {
        None => None,
        Some((start, end)) => Some((advanced_by(next, start).0, advanced_by(next, end).0)),
    }
}
