//! CUBIC (RFC 9438): how the window grows in congestion avoidance, and what a loss makes of it.
ghost use Rattle.std.specs.Prelude.{◌≡◌, ◌≤◌, ◌<◌, ◌^◌, ◌*◌, ◌+◌, ◌-◌, ◌/◌, ℕ, ℤ, min, max, Option, Some, pos};
ghost use Rattle.tcp_state.specs.RoundTrip.{millis_between};
ghost use Rattle.tcp_state.specs.declared.cubic.Epoch.{Epoch};
ghost use Rattle.net_base.specs.Time.{IsMoment};
ghost use Rattle.tcp_state.specs.Cubic.{CubicValue, IsCubic, most, initial, cubed, stepped, cube_root, rise, k_of, w_cubic, target, est_growth, est_after};
ghost use Rattle.tcp_state.specs.Cubic.{begun, avoided, grown, window_in, decreased, lost, timed_out, stopped};

use crate::round_trip::millis_between;
use net_base::Instant;
use std::marker::Model;

/// No window rises above it.
const MOST: u32 = 1 << 30;

/// The cube has left every window after after so many milliseconds.
const LONGEST: u64 = 1 << 21;

/// A stage of congestion avoidance: when it began, how many milliseconds later the cube is flat, and the
/// window that Reno would have.
#[derive(Clone, Copy, Debug, PartialEq, Eq)]
pub struct Epoch {
    pub since: Instant,
    pub k: u32,
    pub w_est: u32,
}

/// What CUBIC knows of a connection, alongside the window. All counts are bytes.
#[derive(Clone, Copy, Debug, PartialEq, Eq)]
pub struct Cubic {
    w_max: u32,
    cwnd_prior: u32,
    epoch: Option<Epoch>,
}

impl Model for Cubic {
    ghost use Rattle.tcp_state.specs.Cubic.{CubicValue, IsCubic};

    ghost Value = { CubicValue };

    ghost view = { λ c. record { w_max = c.w_max; cwnd_prior = c.cwnd_prior; epoch = c.epoch } };

    ghost invariant = { λ c. IsCubic (record { w_max = c.w_max; cwnd_prior = c.cwnd_prior; epoch = c.epoch }) };

    ghost inverse = { λ v. record { w_max = v.w_max; cwnd_prior = v.cwnd_prior; epoch = v.epoch } };
}

impl Cubic {
    /// Nothing is known at the start of a connection.
    pub const fn new() -> Cubic
        ensures { result ≡ initial }
    {
        Cubic {
            w_max: 0,
            cwnd_prior: 0,
            epoch: None,
        }
    }

    /// A segment was lost at this window.
    pub fn lose(&mut self, cwnd: u32)
        requires { cwnd ≤ most }
        ensures { self.new ≡ lost self.old cwnd }
    {
        self.w_max = if cwnd < self.w_max {
            (cwnd as u64 * 17 / 20) as u32
        } else {
            cwnd
        };
        self.cwnd_prior = cwnd;
        self.epoch = None;
    }

    /// The retransmission timer ran out at this window.
    pub const fn time_out(&mut self, cwnd: u32)
        requires { cwnd ≤ most }
        ensures { self.new ≡ timed_out self.old cwnd }
    {
        self.w_max = 0;
        self.cwnd_prior = cwnd;
        self.epoch = None;
    }

    /// So many bytes were acknowledged in congestion avoidance: a stage begins, if none lasts.
    pub fn avoid(&mut self, mss: u16, cwnd: u32, count: usize, now: Instant)
        requires sizes { (1 ≤ mss) × ((1 ≤ cwnd) × (cwnd ≤ most)) }
        requires instant { IsMoment now }
        ensures { self.new ≡ avoided self.old mss cwnd count now }
    {
        let epoch = match self.epoch {
            None => {
                let begun = self.begun(mss, cwnd, now);
                self.w_max = self.w_max.max(cwnd);
                begun
            }
            Some(epoch) => epoch,
        };
        let w_est = est_after(mss, cwnd, count, self.cwnd_prior, epoch.w_est);
        self.epoch = Some(Epoch { w_est, ..epoch });
    }

    /// The window in a stage, where a round trip takes so many milliseconds.
    pub fn window(&self, mss: u16, cwnd: u32, now: Instant, rtt: u64) -> u32
        requires sizes { (1 ≤ mss) × ((1 ≤ cwnd) × (cwnd ≤ most)) }
        requires instant { IsMoment now }
        requires round_trip { rtt < 2 ^ 52 }
        ensures value { result ≡ window_in mss cwnd self.now.w_max self.now.epoch now rtt }
        ensures small { (cwnd ≤ result) × (result ≤ most) }
    {
        let Some(epoch) = self.epoch else {
            return cwnd;
        };
        let t = millis_between(epoch.since, now);
        let here = w_cubic(mss, self.w_max, epoch.k, t);
        let there = w_cubic(mss, self.w_max, epoch.k, t + rtt);
        grown(mss, cwnd, here, there, epoch.w_est).min(MOST as u64) as u32
    }

    /// The time of its stage doesn't run on.
    pub const fn stop(&mut self)
        ensures { self.new ≡ stopped self.old }
    {
        self.epoch = None;
    }

    /// A stage that begins.
    fn begun(&self, mss: u16, cwnd: u32, now: Instant) -> Epoch
        requires { (1 ≤ mss) × (cwnd ≤ most) }
        ensures value { result ≡ begun self.now mss cwnd now }
        ensures small { (result.k ≤ 2 ^ 21) × (result.since ≡ now) }
    {
        Epoch {
            since: now,
            k: k_of(mss, self.w_max.saturating_sub(cwnd)),
            w_est: cwnd,
        }
    }
}

/// What the threshold becomes at a loss, and then the window too.
pub fn decreased(mss: u16, flight: u32) -> u32
    ensures { result ≡ decreased mss flight }
{
    ((flight as u64 * 7 / 10) as u32)
        .max(2 * mss as u32)
        .min(MOST)
}

fn cubed(n: u64) -> u64
    requires { n ≤ 2 ^ 21 }
    ensures value { result ≡ cubed n }
    ensures small { result ≤ 2 ^ 63 }
{
    n * n * n
}

/// A root with a step, if its cube stays at most `n`.
fn stepped(root: u64, step: u64, n: u64) -> u64
    requires { root + step ≤ 2 ^ 21 }
    ensures value { result ≡ stepped root step n }
    ensures small { result ≤ root + step }
{
    let next = root + step;
    if cubed(next) <= n { next } else { root }
}

/// The whole cube root of a number.
fn cube_root(n: u64) -> u32
    ensures value { result ≡ cube_root n }
    ensures small { result ≤ 2 ^ 21 }
{
    let mut root = 0u64;
    let mut step = 1u64 << 20;
    for at in 0u32..21 {
        root = stepped(root, step, n);
        step /= 2;
    }
    root as u32
}

/// How long the cube takes to rise by so many bytes, in milliseconds.
fn k_of(mss: u16, bytes: u32) -> u32
    requires { (1 ≤ mss) × (bytes ≤ most) }
    ensures value { result ≡ k_of mss bytes }
    ensures small { result ≤ 2 ^ 21 }
{
    cube_root(bytes as u64 * 2_500_000_000 / mss as u64)
}

/// How far the cube rises in so many milliseconds from where it is flat.
fn rise(mss: u16, millis: u64) -> u64
    ensures value { result ≡ rise mss millis }
    ensures small { result < 2 ^ 50 }
{
    cubed(millis.min(LONGEST)) / 1_000_000 * mss as u64 / 2500
}

/// Where the cube is at a time.
fn w_cubic(mss: u16, w_max: u32, k: u32, t: u64) -> u64
    ensures { result ≡ w_cubic mss w_max k t }
{
    let (over, under) = (t.saturating_sub(k as u64), (k as u64).saturating_sub(t));
    (w_max as u64 + rise(mss, over)).saturating_sub(rise(mss, under))
}

/// What the window goes to: no less than it is, and no more than half of it above.
fn target(cwnd: u32, w: u64) -> u64
    ensures value { result ≡ target cwnd w }
    ensures low { cwnd ≤ result }
    ensures high { result ≤ cwnd + cwnd / 2 }
{
    w.min(cwnd as u64 + cwnd as u64 / 2).max(cwnd as u64)
}

/// The window that Reno would have after so many bytes are acknowledged.
fn est_after(mss: u16, cwnd: u32, count: usize, prior: u32, w_est: u32) -> u32
    requires { (1 ≤ cwnd) × ((cwnd ≤ most) × (w_est ≤ most)) }
    ensures value { result ≡ est_after mss cwnd count prior w_est }
    ensures small { result ≤ most }
{
    let sent = mss as u64 * count.min(cwnd as usize) as u64;
    let more = if prior <= w_est {
        sent / cwnd as u64
    } else {
        9 * sent / (17 * cwnd as u64)
    };
    (w_est as u64 + more).min(MOST as u64) as u32
}

/// The window where the cube is here now, and there after a round trip.
fn grown(mss: u16, cwnd: u32, here: u64, there: u64, w_est: u32) -> u64
    requires { (1 ≤ cwnd) × (cwnd ≤ most) }
    ensures value { result ≡ grown mss cwnd here there w_est }
    ensures low { cwnd ≤ result }
{
    if here < w_est as u64 {
        target(cwnd, w_est as u64)
    } else {
        let way = target(cwnd, there) - cwnd as u64;
        cwnd as u64 + way * (mss as u32).min(cwnd) as u64 / cwnd as u64
    }
}

/// Rows by the formulas in real numbers, within the bytes that are dropped: W_max of 10, 100, 1,000 and 10,000 segments.
#[tactic(auto, unfolding(crate::specs::Cubic::cube_root))]
pub fn cubes()
    ensures k_10 { k_of 1460 4380 ≡ 1957 }
    ensures k_100 { k_of 1460 43_800 ≡ 4217 }
    ensures k_1000 { k_of 1460 438_000 ≡ 9085 }
    ensures k_10_000 { k_of 1460 4_380_000 ≡ 19_574 }
    ensures start { w_cubic 1460 146_000 4217 0 ≡ 102_206 }
    ensures concave { w_cubic 1460 146_000 4217 2000 ≡ 139_637 }
    ensures flat { w_cubic 1460 146_000 4217 4217 ≡ 146_000 }
    ensures convex { w_cubic 1460 146_000 4217 8000 ≡ 177_616 }
    ensures long { w_cubic 1460 1_460_000 9085 20_000 ≡ 2_219_423 }
    ensures loss { decreased 1460 146_000 ≡ 102_200 }
    ensures least { decreased 1460 3000 ≡ 2920 }
    ensures convergence { (lost (record initial { w_max = 146_000 }) 100_000).w_max ≡ 85_000 }
    ensures estimate { est_after 1460 102_200 1460 146_000 102_200 ≡ 102_211 }
    ensures estimate_as_reno { est_after 1460 146_000 1460 146_000 146_000 ≡ 146_014 }
    ensures window_at_start { window_in 1460 102_200 146_000 (Some (record { since = pos 0; k = 4217; w_est = 102_200 })) (pos 0) 100 ≡ 102_243 }
    ensures window_concave { window_in 1460 102_200 146_000 (Some (record { since = pos 0; k = 4217; w_est = 102_200 })) (pos 2_000_000) 100 ≡ 102_746 }
    ensures window_flat { window_in 1460 102_200 146_000 (Some (record { since = pos 0; k = 4217; w_est = 102_200 })) (pos 4_217_000) 100 ≡ 102_825 }
    ensures window_convex { window_in 1460 102_200 146_000 (Some (record { since = pos 0; k = 4217; w_est = 102_200 })) (pos 8_000_000) 100 ≡ 102_930 }
    ensures window_friendly { window_in 1460 102_200 146_000 (Some (record { since = pos 0; k = 4217; w_est = 131_400 })) (pos 500_000) 100 ≡ 131_400 }
{}

/// In congestion avoidance the window doesn't fall, grows by no more than a half, and stays bounded. Where the
/// cube lies below Reno's estimate it is no less than that; elsewhere it doesn't pass the cube of a round trip
/// later, which until K lies at W_max at most. A loss leaves no more than there was, at least 7/10, and two
/// segments; where the window hadn't reached the last W_max, the next one lies below it.
pub fn cubic_laws()
    ensures grows { (mss cwnd w_max : ℕ) (e : Option Epoch) (now : ℤ) (rtt : ℕ) → cwnd ≤ most → cwnd ≤ window_in mss cwnd w_max e now rtt }
    ensures half { (mss cwnd w_max : ℕ) (e : Option Epoch) (now : ℤ) (rtt : ℕ) → window_in mss cwnd w_max e now rtt ≤ cwnd + cwnd / 2 }
    ensures bounded { (mss cwnd w_max : ℕ) (e : Option Epoch) (now : ℤ) (rtt : ℕ) → cwnd ≤ most → window_in mss cwnd w_max e now rtt ≤ most }
    ensures friendly { (mss cwnd w_max : ℕ) (e : Epoch) (now : ℤ) (rtt : ℕ) → w_cubic mss w_max e.k (millis_between e.since now) < e.w_est
        → e.w_est ≤ most → e.w_est ≤ cwnd + cwnd / 2 → e.w_est ≤ window_in mss cwnd w_max (Some e) now rtt }
    ensures cube { (mss cwnd w_max : ℕ) (e : Epoch) (now : ℤ) (rtt : ℕ) → e.w_est ≤ w_cubic mss w_max e.k (millis_between e.since now)
        → window_in mss cwnd w_max (Some e) now rtt ≤ max cwnd (w_cubic mss w_max e.k (millis_between e.since now + rtt)) }
    ensures concave { (mss w_max k t : ℕ) → t ≤ k → w_cubic mss w_max k t ≤ w_max }
    ensures seven_tenths { (mss flight : ℕ) → flight ≤ most → flight * 7 / 10 ≤ decreased mss flight }
    ensures converges { (c : CubicValue) (cwnd : ℕ) → 1 ≤ cwnd → cwnd < c.w_max → (lost c cwnd).w_max < cwnd }
    ensures falls { (mss cwnd flight : ℕ) → 2 * mss ≤ cwnd → decreased mss (min flight cwnd) ≤ cwnd }
    ensures two_segments { (mss flight : ℕ) → 2 * mss ≤ most → 2 * mss ≤ decreased mss flight }
    ensures root { (n : ℕ) → n < 2 ^ 63 → (cubed (cube_root n) ≤ n) × (n < cubed (cube_root n + 1)) }
{}
