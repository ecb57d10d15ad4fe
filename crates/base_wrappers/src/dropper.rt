//! A device that loses frames: by chance, for their length, and beyond a rate.
ghost use Rattle.std.specs.Prelude.{◌≤◌, ◌≡◌, ◌+◌, ◌<◌, ◌^◌, IsTrue, IsFalse, OnSome, MatchOption, min, vec_len, ℕ, List, length};
ghost use Rattle.std.specs.Fn.{FnOnceTakesAtMut, FnOnceReturnsAtMut};
ghost use Rattle.base_wrappers.specs.Bucket.{lets_at};
ghost use Rattle.base_wrappers.specs.Course.{drawn, rx_counted};
ghost use Rattle.base_wrappers.specs.Drop.{is_lost, is_too_long, is_lost_out, sent, may_come, came, fresh, ruled, under, NoneComes, OneComes};

use crate::bucket::Bucket;
use crate::course::Course;
use base_device::{Device, DeviceCapabilities, RxToken, SendRefused};
use base_time::{Duration, Instant};
use std::marker::Model;

/// How many frames one call looks at.
const MOST: u8 = 8;

/// What is lost, and what happened so far.
#[derive(Debug, Drop)]
pub(crate) struct Dropping {
    chance: u8,
    longest: usize,
    rx_rate: u64,
    tx_rate: u64,
    interval: Duration,
    course: Course,
    rx: Bucket,
    tx: Bucket,
    instant: Instant,
}

impl Model for Dropping {
    ghost use Rattle.base_wrappers.specs.Drop.{DropState};

    ghost Value = { DropState };

    ghost view = { λ s. record {
      rules = record { chance = s.chance; longest = s.longest; rx_rate = s.rx_rate; tx_rate = s.tx_rate; interval = s.interval };
      course = s.course;
      rx = s.rx;
      tx = s.tx;
      instant = s.instant;
    } };
}

impl Dropping {
    /// The next frames begin new intervals.
    fn begin(&mut self)
        ensures { self.new ≡ ruled self.old.rules self.old }
    {
        self.rx = Bucket::new();
        self.tx = Bucket::new();
    }

    /// Whether a frame of this length is lost, by chance or for its length.
    fn is_lost(&mut self, len: usize) -> bool
        ensures lost { result ≡ is_lost self.old.rules self.old.course len }
        ensures rules { self.new.rules ≡ self.old.rules }
        ensures course { self.new.course ≡ drawn self.old.course }
        ensures rx { self.new.rx ≡ self.old.rx }
        ensures tx { self.new.tx ≡ self.old.tx }
        ensures instant { self.new.instant ≡ self.old.instant }
    {
        let hit = self.course.hits(self.chance);
        hit || (self.longest != 0 && len > self.longest)
    }

    /// The same of a frame that came; one that is lost is counted.
    fn is_lost_in(&mut self, len: usize) -> bool
        ensures lost { result ≡ is_lost self.old.rules self.old.course len }
        ensures rules { self.new.rules ≡ self.old.rules }
        ensures counted { IsTrue result → self.new.course ≡ rx_counted (drawn self.old.course) }
        ensures kept { IsFalse result → self.new.course ≡ drawn self.old.course }
        ensures rx { self.new.rx ≡ self.old.rx }
        ensures tx { self.new.tx ≡ self.old.tx }
        ensures instant { self.new.instant ≡ self.old.instant }
    {
        let lost = self.is_lost(len);
        if lost {
            self.course.count_rx();
        }
        lost
    }

    /// Whether a frame may come.
    #[tactic(auto, unfolding(crate::specs::Drop::may_come))]
    fn may_come(&self, now: Instant) -> bool
        ensures { result ≡ may_come now self.now }
    {
        self.rx.lets(self.rx_rate, self.interval, now)
    }

    /// A frame came, and counts.
    #[tactic(auto, unfolding(crate::specs::Drop::came))]
    fn spend(&mut self, now: Instant)
        ensures { self.new ≡ came now self.old.course self.old }
    {
        let _may = self.rx.take(self.rx_rate, self.interval, now);
        self.instant = now;
    }

    /// Whether a frame of this length is lost on its way out, where there is room for one of so many bytes.
    #[tactic(auto, unfolding(crate::specs::Drop::is_lost_out, crate::specs::Drop::sent))]
    fn is_lost_out(&mut self, room: usize, len: usize) -> bool
        ensures lost { result ≡ is_lost_out room len self.old }
        ensures fits { IsTrue result → len ≤ room }
        ensures sent { self.new ≡ sent room len self.old }
    {
        let lost = self.is_lost(len);
        let lets = self.tx.take(self.tx_rate, self.interval, self.instant);
        let gone = (lost || !lets) && len <= room;
        if gone {
            self.course.count_tx();
        }
        gone
    }
}

/// Receives the first frame that isn't lost, of so many that are looked at.
fn receive_within<D: Device>(
    inner: &mut D,
    state: &mut Dropping,
    timestamp: Instant,
    most: u8,
) -> Option<(D::RxToken, D::TxToken)>
    ensures moves { MatchOption result
        (NoneComes D.moves state.old.rules timestamp most inner.old state.old.course inner.new state.new.course)
        (λ tokens. OneComes D.moves state.old.rules timestamp (D.RxToken.frame tokens.0) most inner.old state.old.course
        inner.new state.new.course) }
    ensures rules { state.new.rules ≡ state.old.rules }
    ensures rx { state.new.rx ≡ state.old.rx }
    ensures tx { state.new.tx ≡ state.old.tx }
    ensures instant { state.new.instant ≡ state.old.instant }
    ensures refusals { D.refused inner.new ≡ D.refused inner.old }
    ensures works { OnSome result (D.refused inner.old + 1 < 2 ^ 64) }
    ensures capabilities { D.described inner.new ≡ D.described inner.old }
{
    if most == 0 {
        return None;
    }
    let Some((frame, leave)) = inner.receive(timestamp) else {
        return None;
    };
    if state.is_lost_in(frame.bytes().len()) {
        return receive_within(inner, state, timestamp, most - 1);
    }
    Some((frame, leave))
}

/// Runs what writes a frame that is lost, over the front of a buffer.
fn run_lost<R: Drop, F: FnOnce(&mut [u8]) -> R>(scratch: &mut Vec<u8>, len: usize, f: F) -> R
    requires callable { (buffer : List ℕ) → length buffer ≡ len → FnOnceTakesAtMut F.FnOnce f buffer }
    requires within { len ≤ vec_len scratch.old }
    ensures ran { (buffer : List ℕ) × (frame : List ℕ) × (length buffer ≡ len) × (length frame ≡ len)
        × FnOnceReturnsAtMut F.FnOnce f buffer result frame }
    ensures room { vec_len scratch.new ≡ vec_len scratch.old }
{
    f(&mut scratch[..len])
}

/// A device that loses frames: by chance, for their length, and beyond a rate, those that come and those that are sent. It loses none
/// until it is told to.
#[derive(Debug, Drop)]
pub struct Dropper<D> {
    inner: D,
    state: Dropping,
    scratch: Vec<u8>,
}

impl<D> Model for Dropper<D> {
    ghost use Rattle.std.specs.Prelude.{vec_len};
    ghost use Rattle.base_wrappers.specs.Drop.{DropperValue, dropper_code};

    ghost Value = { DropperValue D };

    ghost coded = { dropper_code D.code };

    ghost view = { λ w. record { inner = w.inner; state = w.state; room = vec_len w.scratch } };
}

impl<D: Device> Dropper<D> {
    /// A device that loses nothing yet. Frames that are lost on their way out are written to `scratch`; one that is longer isn't lost.
    pub fn new(inner: D, seed: u64, scratch: Vec<u8>) -> Dropper<D>
        ensures { result ≡ record { inner = inner; state = fresh seed; room = vec_len scratch } }
    {
        Dropper {
            inner,
            state: Dropping {
                chance: 0,
                longest: 0,
                rx_rate: 0,
                tx_rate: 0,
                interval: Duration::ZERO,
                course: Course::new(seed),
                rx: Bucket::new(),
                tx: Bucket::new(),
                instant: Instant::ZERO,
            },
            scratch,
        }
    }

    /// The chance that a frame is lost, in percent; above 100 it is 100.
    pub fn set_drop_chance(&mut self, pct: u8)
        ensures { self.new ≡ under (record { chance = min pct 100; longest = self.old.state.rules.longest; rx_rate = self.old.state.rules.rx_rate; tx_rate = self.old.state.rules.tx_rate; interval = self.old.state.rules.interval }) self.old }
    {
        self.state.chance = pct.min(100);
        self.state.begin();
    }

    /// As it was set.
    pub fn drop_chance(&self) -> u8
        ensures { result ≡ self.now.state.rules.chance }
    {
        self.state.chance
    }

    /// The length of the longest frame that isn't lost for its length. 0 stands for no limit.
    pub fn set_max_packet_size(&mut self, bytes: usize)
        ensures { self.new ≡ under (record { chance = self.old.state.rules.chance; longest = bytes; rx_rate = self.old.state.rules.rx_rate; tx_rate = self.old.state.rules.tx_rate; interval = self.old.state.rules.interval }) self.old }
    {
        self.state.longest = bytes;
        self.state.begin();
    }

    /// As it was set.
    pub fn max_packet_size(&self) -> usize
        ensures { result ≡ self.now.state.rules.longest }
    {
        self.state.longest
    }

    /// How many frames come in an interval at most. 0 stands for no limit.
    pub fn set_max_rx_rate(&mut self, frames: u64)
        ensures { self.new ≡ under (record { chance = self.old.state.rules.chance; longest = self.old.state.rules.longest; rx_rate = frames; tx_rate = self.old.state.rules.tx_rate; interval = self.old.state.rules.interval }) self.old }
    {
        self.state.rx_rate = frames;
        self.state.begin();
    }

    /// As it was set.
    pub fn max_rx_rate(&self) -> u64
        ensures { result ≡ self.now.state.rules.rx_rate }
    {
        self.state.rx_rate
    }

    /// How many frames are sent in an interval at most. 0 stands for no limit.
    pub fn set_max_tx_rate(&mut self, frames: u64)
        ensures { self.new ≡ under (record { chance = self.old.state.rules.chance; longest = self.old.state.rules.longest; rx_rate = self.old.state.rules.rx_rate; tx_rate = frames; interval = self.old.state.rules.interval }) self.old }
    {
        self.state.tx_rate = frames;
        self.state.begin();
    }

    /// As it was set.
    pub fn max_tx_rate(&self) -> u64
        ensures { result ≡ self.now.state.rules.tx_rate }
    {
        self.state.tx_rate
    }

    /// An interval's length. It begins with the first frame behind the last one, or behind a call that sets a rule.
    pub fn set_bucket_interval(&mut self, interval: Duration)
        ensures { self.new ≡ under (record { chance = self.old.state.rules.chance; longest = self.old.state.rules.longest; rx_rate = self.old.state.rules.rx_rate; tx_rate = self.old.state.rules.tx_rate; interval = interval }) self.old }
    {
        self.state.interval = interval;
        self.state.begin();
    }

    /// As it was set.
    pub fn bucket_interval(&self) -> Duration
        ensures { result ≡ self.now.state.rules.interval }
    {
        self.state.interval
    }

    /// When a frame may come again, where as many came as the rate lets through: until then `receive` gives none.
    pub fn poll_at(&self) -> Option<Instant>
        ensures { result ≡ lets_at self.now.state.rules.rx_rate self.now.state.rules.interval self.now.state.rx }
    {
        self.state
            .rx
            .lets_at(self.state.rx_rate, self.state.interval)
    }

    /// How many frames were lost, of those that came and of those that were sent.
    pub fn dropped(&self) -> (u64, u64)
        ensures { result ≡ (self.now.state.course.rx, self.now.state.course.tx) }
    {
        (self.state.course.rx(), self.state.course.tx())
    }

    /// The device.
    pub fn get_ref(&self) -> &D
        ensures { result.now ≡ self.now.inner }
    {
        &self.inner
    }

    /// The device, out of the wrapper.
    pub fn into_inner(self) -> D
        ensures { result ≡ self.inner }
    {
        let Dropper { inner, .. } = self;
        inner
    }
}

impl<D: Device> Device for Dropper<D> {
    type RxToken = D::RxToken;

    type TxToken = D::TxToken;

    ghost use Rattle.base_wrappers.specs.Drop.{Drops};

    ghost moves = { Drops D.moves };

    ghost refused = { λ w. D.refused w.inner };

    ghost described = { λ w. D.described w.inner };

    fn receive(&mut self, timestamp: Instant) -> Option<(D::RxToken, D::TxToken)> {
        if !self.state.may_come(timestamp) {
            self.state.instant = timestamp;
            return None;
        }
        let Some(tokens) = receive_within(&mut self.inner, &mut self.state, timestamp, MOST) else {
            self.state.instant = timestamp;
            return None;
        };
        self.state.spend(timestamp);
        Some(tokens)
    }

    fn transmit(&mut self, timestamp: Instant) -> Option<D::TxToken> {
        self.state.instant = timestamp;
        self.inner.transmit(timestamp)
    }

    fn send<R: Drop, F: FnOnce(&mut [u8]) -> R>(
        &mut self,
        token: D::TxToken,
        len: usize,
        f: F,
    ) -> Result<R, SendRefused> {
        if self.state.is_lost_out(self.scratch.len(), len) {
            return Ok(run_lost(&mut self.scratch, len, f));
        }
        self.inner.send(token, len, f)
    }

    fn capabilities(&self) -> DeviceCapabilities {
        self.inner.capabilities()
    }

    fn refusals(&self) -> u64 {
        self.inner.refusals()
    }
}
