//! Congestion control by slow start, congestion avoidance, fast retransmit and fast recovery (RFC 5681), which
//! a partial acknowledgement doesn't end (RFC 6582), and with CUBIC (RFC 9438), where that is set.
ghost use Rattle.std.specs.Prelude.{◌≡◌, ◌≤◌, ◌<◌, ◌^◌, ◌*◌, ◌/◌, ◌+◌, ℕ, ℤ, pos, min, max, nat_lt, true, false, Option, Some, None};
ghost use Rattle.net_base.specs.Time.{IsMoment};
ghost use Rattle.tcp_state.specs.Reno.{RenoValue, IsBounded, initial, initial_with, with_mss, first_window, started, lowered, acknowledged, partly};
ghost use Rattle.tcp_state.specs.Reno.{recovered, restored, lost, reduced, inflated, timed_out, most, counted, widened};
ghost use Rattle.tcp_state.specs.Reno.{slow_limit, avoidance, growth, loss_at, timeout_at, stopped, preserved, lapsed};
ghost use Rattle.tcp_state.specs.Reno.{hundred_segments, after_loss, in_stage};
ghost use Rattle.tcp_state.specs.Cubic as cubic;
ghost use Rattle.tcp_state.specs.Cubic.{CubicValue};

use crate::cubic::{Cubic, decreased};
use net_base::Instant;
use std::marker::Model;

/// Neither the congestion window nor the slow start threshold rises above it.
const MOST: u32 = 1 << 30;

const FIRST_MSS: u16 = 1024;

const FIRST_WINDOW: u32 = 2048;

/// How many bytes the first window of a connection holds, if that is between two segments and ten.
const FIRST_BYTES: u32 = 14_600;

/// The congestion window of a connection, and what it depends on. All counts are bytes.
#[derive(Clone, Copy, Debug, PartialEq, Eq)]
pub struct Reno {
    mss: u16,
    cwnd: u32,
    ssthresh: u32,
    recovers: bool,
    timed_out: bool,
    cubic: Option<Cubic>,
}

impl Model for Reno {
    ghost use Rattle.tcp_state.specs.Reno.{RenoValue, IsBounded};

    ghost Value = { RenoValue };

    ghost view = { λ r. record { mss = r.mss; cwnd = r.cwnd; ssthresh = r.ssthresh; recovers = r.recovers; timed_out = r.timed_out; cubic = r.cubic } };

    ghost invariant = { λ r. IsBounded (record {
      mss = r.mss;
      cwnd = r.cwnd;
      ssthresh = r.ssthresh;
      recovers = r.recovers;
      timed_out = r.timed_out;
      cubic = r.cubic;
    }) };

    ghost inverse = { λ v. record { mss = v.mss; cwnd = v.cwnd; ssthresh = v.ssthresh; recovers = v.recovers; timed_out = v.timed_out; cubic = v.cubic } };
}

impl Reno {
    /// The state at the start of a connection: a segment size of 1,024, a window of two of them, no threshold.
    pub const fn new() -> Reno
        ensures { result ≡ initial }
    {
        Reno {
            mss: FIRST_MSS,
            cwnd: FIRST_WINDOW,
            ssthresh: MOST,
            recovers: false,
            timed_out: false,
            cubic: None,
        }
    }

    /// The same with CUBIC, which knows nothing yet.
    pub const fn with_cubic() -> Reno
        ensures { result ≡ initial_with (Some cubic.initial) }
    {
        Reno {
            mss: FIRST_MSS,
            cwnd: FIRST_WINDOW,
            ssthresh: MOST,
            recovers: false,
            timed_out: false,
            cubic: Some(Cubic::new()),
        }
    }

    /// The congestion window.
    pub const fn window(&self) -> u32
        ensures value { result ≡ self.now.cwnd }
        ensures bounded { IsBounded self.now }
    {
        self.cwnd
    }

    /// Sets the largest payload of a segment.
    pub const fn set_mss(&mut self, mss: u16)
        requires { 1 ≤ mss }
        ensures { self.new ≡ with_mss self.old mss }
    {
        self.mss = mss;
    }

    /// The connection is there: its window is the first one, or one segment where its SYN was lost.
    pub fn start(&mut self, lost: bool)
        ensures { self.new ≡ started self.old lost }
    {
        self.cwnd = if lost {
            self.mss as u32
        } else {
            first_window(self.mss)
        };
        self.recovers = false;
    }

    /// Whether fast recovery lasts.
    pub const fn recovers(&self) -> bool
        ensures { result ≡ self.now.recovers }
    {
        self.recovers
    }

    /// Whether the retransmission timer ran out, and nothing new was acknowledged since.
    pub const fn has_timed_out(&self) -> bool
        ensures { result ≡ self.now.timed_out }
    {
        self.timed_out
    }

    /// The largest payload of a segment.
    pub const fn mss(&self) -> u16
        ensures { result ≡ self.now.mss }
    {
        self.mss
    }

    /// So many bytes were acknowledged now, outside of fast recovery, where a round trip takes so many
    /// milliseconds.
    pub fn acknowledged(&mut self, count: usize, now: Instant, rtt: u64)
        requires instant { IsMoment now }
        requires round_trip { rtt < 2 ^ 52 }
        ensures { self.new ≡ acknowledged self.old count now rtt }
    {
        if count != 0 {
            let cubic = self.counted(count, now);
            self.cwnd = self.widened(&cubic, count, now, rtt);
            self.cubic = cubic;
            self.timed_out = false;
        }
    }

    /// What CUBIC counts where so many bytes are acknowledged now.
    fn counted(&self, count: usize, now: Instant) -> Option<Cubic>
        requires { IsMoment now }
        ensures { result ≡ counted self.now count now }
    {
        if self.is_slow() {
            return self.cubic;
        }
        match self.cubic {
            None => None,
            Some(mut cubic) => {
                cubic.avoid(self.mss, self.cwnd, count, now);
                Some(cubic)
            }
        }
    }

    /// The window where so many bytes are acknowledged now.
    fn widened(&self, cubic: &Option<Cubic>, count: usize, now: Instant, rtt: u64) -> u32
        requires instant { IsMoment now }
        requires round_trip { rtt < 2 ^ 52 }
        requires counted { cubic.now ≡ counted self.now count now }
        ensures value { result ≡ widened self.now count now rtt }
        ensures small { (1 ≤ result) × (result ≤ most) }
    {
        match cubic {
            Some(cubic) if !self.is_slow() => cubic.window(self.mss, self.cwnd, now, rtt),
            _ => self.grown(count),
        }
    }

    /// In fast recovery so many bytes were acknowledged, but not all that was sent when it began.
    pub fn acknowledged_partly(&mut self, count: usize)
        ensures { self.new ≡ partly self.old count }
    {
        let mss = self.mss as u32;
        let left = (self.cwnd as usize).saturating_sub(count) as u32;
        let back = if mss as usize <= count { mss } else { 0 };
        self.cwnd = (left.max(mss) + back).min(MOST);
    }

    /// All that was sent when fast recovery began is acknowledged: it ends.
    pub const fn recover(&mut self)
        ensures { self.new ≡ recovered self.old }
    {
        self.cwnd = self.ssthresh;
        self.recovers = false;
        self.timed_out = false;
    }

    /// The third duplicate came while so much was in flight, with what went beyond the window. After a
    /// timeout it may answer a segment that was retransmitted without need.
    pub fn lost(&mut self, flight: u32)
        ensures { self.new ≡ lost self.old flight }
    {
        if self.timed_out {
            return;
        }
        self.cubic = loss_at(&self.cubic, self.cwnd);
        self.ssthresh = self.lowered(flight.min(self.cwnd));
        self.cwnd = (self.ssthresh + 3 * self.mss as u32).min(MOST);
        self.recovers = true;
    }

    /// A segment was lost while so much was in flight, where selective acknowledgements say what is still
    /// on its way.
    pub fn reduce(&mut self, flight: u32)
        ensures { self.new ≡ reduced self.old flight }
    {
        let counts = !self.timed_out;
        if counts {
            let lower = self.lowered(flight.min(self.cwnd));
            self.cubic = loss_at(&self.cubic, self.cwnd);
            self.ssthresh = lower;
            self.cwnd = lower;
            self.recovers = true;
        }
    }

    /// A duplicate beyond the third came: in recovery a segment has left.
    pub fn inflate(&mut self)
        ensures { self.new ≡ inflated self.old }
    {
        if self.recovers {
            self.cwnd = (self.cwnd + self.mss as u32).min(MOST);
        }
    }

    /// So many bytes were acknowledged, outside of fast recovery, of a window that isn't used: it doesn't grow.
    pub fn preserve(&mut self, count: usize)
        ensures { self.new ≡ preserved self.old count }
    {
        if count != 0 {
            self.cubic = stopped(&self.cubic);
            self.timed_out = false;
        }
    }

    /// So many periods ended in which the window wasn't used.
    pub fn lapse(&mut self, periods: u32)
        requires { periods ≤ 31 }
        ensures { self.new ≡ lapsed self.old periods }
    {
        if periods != 0 {
            let window = self.lapsed(periods);
            self.ssthresh = self.ssthresh.max(3 * self.cwnd / 4);
            self.cwnd = window;
            self.cubic = stopped(&self.cubic);
        }
    }

    /// The window after them.
    fn lapsed(&self, periods: u32) -> u32
        requires { periods ≤ 31 }
        ensures value { result ≡ min self.now.cwnd (max (self.now.cwnd / 2 ^ periods) (first_window self.now.mss)) }
        ensures small { (1 ≤ result) × (result ≤ most) }
    {
        (self.cwnd >> periods)
            .max(first_window(self.mss))
            .min(self.cwnd)
    }

    /// A loss that wasn't one is undone: the window is what it was before.
    pub fn restore(&mut self, prior: &Reno)
        ensures { self.new ≡ restored self.old prior.now }
    {
        self.cwnd = prior.cwnd;
        self.ssthresh = prior.ssthresh;
        self.recovers = false;
        self.timed_out = false;
        self.cubic = prior.cubic;
    }

    /// The retransmission timer ran out while so much was in flight.
    pub fn timed_out(&mut self, flight: u32)
        ensures { self.new ≡ timed_out self.old flight }
    {
        if !self.timed_out {
            self.ssthresh = self.lowered(flight);
            self.cubic = timeout_at(&self.cubic, self.cwnd);
        }
        self.cwnd = self.mss as u32;
        self.recovers = false;
        self.timed_out = true;
    }

    /// Whether the window grows by slow start.
    const fn is_slow(&self) -> bool
        ensures { result ≡ nat_lt self.now.cwnd self.now.ssthresh }
    {
        self.cwnd < self.ssthresh
    }

    /// The window in slow start, and without CUBIC, where so many bytes are acknowledged.
    fn grown(&self, count: usize) -> u32
        ensures value { result ≡ min most (self.now.cwnd + growth self.now count) }
        ensures small { (1 ≤ result) × (result ≤ most) }
    {
        (self.cwnd as u64 + self.growth(count)).min(MOST as u64) as u32
    }

    /// How much an acknowledgement widens the window by at most in slow start.
    const fn slow_limit(&self) -> u32
        ensures value { result ≡ slow_limit self.now }
        ensures small { result ≤ 131_070 }
    {
        if self.ssthresh == MOST {
            2 * self.mss as u32
        } else {
            self.mss as u32
        }
    }

    /// How much the window grows by without CUBIC where so many bytes are acknowledged.
    fn growth(&self, count: usize) -> u64
        ensures value { result ≡ growth self.now count }
        ensures small { result ≤ 2 ^ 47 }
    {
        if self.is_slow() {
            count.min(self.slow_limit() as usize) as u64
        } else {
            avoidance(self.mss, self.cwnd, count)
        }
    }

    /// What the threshold becomes at a loss.
    fn lowered(&self, flight: u32) -> u32
        ensures value { result ≡ lowered self.now flight }
        ensures small { (1 ≤ result) × (result ≤ most) }
    {
        match self.cubic {
            None => (flight / 2).max(2 * self.mss as u32).min(MOST),
            Some(_) => decreased(self.mss, flight),
        }
    }
}

/// What CUBIC keeps of a loss at this window.
fn loss_at(cubic: &Option<Cubic>, cwnd: u32) -> Option<Cubic>
    requires { cwnd ≤ most }
    ensures { result ≡ loss_at cubic.now cwnd }
{
    match *cubic {
        None => None,
        Some(mut cubic) => {
            cubic.lose(cwnd);
            Some(cubic)
        }
    }
}

/// What it keeps of a timeout.
fn timeout_at(cubic: &Option<Cubic>, cwnd: u32) -> Option<Cubic>
    requires { cwnd ≤ most }
    ensures { result ≡ timeout_at cubic.now cwnd }
{
    match *cubic {
        None => None,
        Some(mut cubic) => {
            cubic.time_out(cwnd);
            Some(cubic)
        }
    }
}

/// How much a window grows by in congestion avoidance where so many bytes are acknowledged: a segment for all of it.
fn avoidance(mss: u16, cwnd: u32, count: usize) -> u64
    requires { (1 ≤ cwnd) × (cwnd ≤ most) }
    ensures value { result ≡ avoidance mss cwnd count }
    ensures small { result ≤ 2 ^ 47 }
{
    let sent = mss as u64 * count.min(cwnd as usize) as u64;
    (sent / cwnd as u64).max(1)
}

/// What it keeps where its time doesn't run on.
fn stopped(cubic: &Option<Cubic>) -> Option<Cubic>
    ensures { result ≡ stopped cubic.now }
{
    match *cubic {
        None => None,
        Some(mut cubic) => {
            cubic.stop();
            Some(cubic)
        }
    }
}

/// The first window of a connection.
fn first_window(mss: u16) -> u32
    ensures { result ≡ first_window mss }
{
    (10 * mss as u32).min((2 * mss as u32).max(FIRST_BYTES))
}

/// Runs on numerals: slow start, and again after a loss; congestion avoidance by a segment, by two and by a whole window; a loss with half
/// of the window in flight, the end of recovery, and a timeout twice.
pub fn congestion_windows()
    ensures slow_start { (now : ℤ) (rtt : ℕ) → acknowledged (acknowledged initial 1024 now rtt) 5000 now rtt ≡ record initial { cwnd = 5120 } }
    ensures again { (now : ℤ) (rtt : ℕ) → acknowledged (record initial { ssthresh = 8192 }) 5000 now rtt ≡ record initial { cwnd = 3072; ssthresh = 8192 } }
    ensures avoidance { (now : ℤ) (rtt : ℕ)
        → acknowledged (record initial { cwnd = 4096; ssthresh = 4096 }) 1024 now rtt ≡ record initial { cwnd = 4352; ssthresh = 4096 } }
    ensures two_segments { (now : ℤ) (rtt : ℕ)
        → acknowledged (record initial { cwnd = 4096; ssthresh = 4096 }) 2048 now rtt ≡ record initial { cwnd = 4608; ssthresh = 4096 } }
    ensures whole_window { (now : ℤ) (rtt : ℕ)
        → acknowledged (record initial { cwnd = 4096; ssthresh = 4096 }) 9000 now rtt ≡ record initial { cwnd = 5120; ssthresh = 4096 } }
    ensures loss { lost (record initial { cwnd = 32768 }) 16384 ≡ record initial { cwnd = 11264; ssthresh = 8192; recovers = true } }
    ensures recovery { recovered (inflated (lost (record initial { cwnd = 32768 }) 16384)) ≡ record initial { cwnd = 8192; ssthresh = 8192 } }
    ensures limited { lost (record initial { cwnd = 8192 }) 10_240 ≡ record initial { cwnd = 7168; ssthresh = 4096; recovers = true } }
    ensures hole { partly (lost (record initial { cwnd = 32768 }) 16384) 3072 ≡ record initial { cwnd = 9216; ssthresh = 8192; recovers = true } }
    ensures small_hole { partly (lost (record initial { cwnd = 32768 }) 16384) 1000 ≡ record initial { cwnd = 10_264; ssthresh = 8192; recovers = true } }
    ensures far_hole { partly (lost (record initial { cwnd = 32768 }) 16384) 30_000 ≡ record initial { cwnd = 2048; ssthresh = 8192; recovers = true } }
    ensures first { started initial false ≡ record initial { cwnd = 10_240 } }
    ensures first_1460 { first_window 1460 ≡ 14_600 }
    ensures first_9000 { first_window 9000 ≡ 18_000 }
    ensures timeouts { timed_out (timed_out (record initial { cwnd = 32768 }) 16384) 1024 ≡ record initial { cwnd = 1024; ssthresh = 8192; timed_out = true } }
{}

/// An acknowledgement of no bytes changes nothing, a second timeout without new data acknowledged
/// leaves the threshold, and after a timeout the window stays one segment until something is
/// acknowledged, however many duplicates come.
pub fn congestion_laws()
    ensures third { (r : RenoValue) (flight other : ℕ) → lost (timed_out r flight) other ≡ timed_out r flight }
    ensures further { (r : RenoValue) (flight : ℕ) → inflated (timed_out r flight) ≡ timed_out r flight }
    ensures one_segment { (r : RenoValue) (flight : ℕ) → (timed_out r flight).cwnd ≡ r.mss }
    ensures nothing { (r : RenoValue) (now : ℤ) (rtt : ℕ) → acknowledged r 0 now rtt ≡ r }
    ensures second { (r : RenoValue) (flight other : ℕ) → (timed_out (timed_out r flight) other).ssthresh ≡ (timed_out r flight).ssthresh }
{}

/// With CUBIC: 7/10 is what a loss leaves, however it is known, and what CUBIC keeps of it is the window at the
/// loss; slow start is alike, and so is the window after a timeout; and without it congestion avoidance is
/// Reno's. A run of a hundred segments: the loss, and an acknowledged segment at once and two seconds later.
#[tactic(auto, unfolding(crate::specs::Cubic::cube_root))]
pub fn cubic_congestion()
    ensures reduced { (r : RenoValue) (c : CubicValue) (flight : ℕ)
        → reduced (record r { timed_out = false; cubic = Some c }) flight ≡ record r {
          timed_out = false;
          ssthresh = cubic.decreased r.mss (min flight r.cwnd);
          cwnd = cubic.decreased r.mss (min flight r.cwnd);
          recovers = true;
          cubic = Some (cubic.lost c r.cwnd);
        } }
    ensures third { (r : RenoValue) (c : CubicValue) (flight : ℕ)
        → (lost (record r { timed_out = false; cubic = Some c }) flight).ssthresh ≡ cubic.decreased r.mss (min flight r.cwnd) }
    ensures timeout { (r : RenoValue) (c : CubicValue) (flight : ℕ)
        → (timed_out (record r { timed_out = false; cubic = Some c }) flight).ssthresh ≡ cubic.decreased r.mss flight }
    ensures slow_start { (r : RenoValue) (count : ℕ) (now : ℤ) (rtt : ℕ) → r.cwnd < r.ssthresh
        → (acknowledged r count now rtt).cwnd ≡ (acknowledged (record r { cubic = None }) count now rtt).cwnd }
    ensures without { (r : RenoValue) (count : ℕ) (now : ℤ) (rtt : ℕ) → 1 ≤ count
        → (acknowledged (record r { cubic = None }) count now rtt).cwnd ≡ min most (r.cwnd + growth r count) }
    ensures loss { reduced hundred_segments 146_000 ≡ after_loss }
    ensures first { acknowledged (recovered after_loss) 1460 (pos 0) 100 ≡ in_stage }
    ensures later { (acknowledged in_stage 1460 (pos 2_000_000) 100).cwnd ≡ 102_757 }
{}
