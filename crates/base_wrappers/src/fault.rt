//! A device that loses, changes and repeats frames.
ghost use Rattle.std.specs.Prelude.{◌≡◌, min, vec_len};
ghost use Rattle.base_wrappers.specs.Bucket.{lets_at};
ghost use Rattle.base_wrappers.specs.Drop.{under};
ghost use Rattle.base_wrappers.specs.Fault.{harmless, with_dropper, with_corrupter, seed_after};

use crate::corrupter::Corrupter;
use crate::dropper::Dropper;
use crate::duplicator::Duplicator;
use crate::token::FaultRxToken;
use base_device::{Device, DeviceCapabilities, SendRefused};
use base_time::{Duration, Instant};
use std::marker::Model;

/// A device over which the link of the device in it seems worse: frames are lost, changed and repeated, by chance, for their length,
/// and beyond a rate. The same seed and the same calls give the same course. A host isn't told of what is lost.
#[derive(Debug, Drop)]
pub struct FaultInjector<D> {
    parts: Duplicator<Corrupter<Dropper<D>>>,
}

impl<D> Model for FaultInjector<D> {
    ghost use Rattle.base_wrappers.specs.Fault.{FaultValue};
    ghost use Rattle.base_wrappers.specs.Drop.{dropper_code};
    ghost use Rattle.base_wrappers.specs.Corrupt.{corrupter_code};
    ghost use Rattle.base_wrappers.specs.Duplicate.{duplicator_code};

    ghost Value = { FaultValue D };

    ghost coded = { duplicator_code (corrupter_code (dropper_code D.code)) };

    ghost view = { λ w. w.parts };
}

/// A seed that lies far from this one.
fn seed_after(seed: u64) -> u64
    ensures { result ≡ seed_after seed }
{
    seed.wrapping_add(0x9e37_79b9_7f4a_7c15)
}

/// How many frames were harmed, of those that came (`rx`) and of those that were sent (`tx`).
#[derive(Clone, Copy, Debug, PartialEq, Eq)]
pub struct FaultCounts {
    pub rx_dropped: u64,
    pub tx_dropped: u64,
    pub rx_corrupted: u64,
    pub tx_corrupted: u64,
    pub rx_duplicated: u64,
}

impl<D: Device> FaultInjector<D> {
    /// A device that harms nothing yet. Frames that are lost on their way out are written to `scratch`: one that is longer isn't lost.
    /// Copies of frames that come are allocated as `scratch` was.
    pub fn new(inner: D, seed: u64, scratch: Vec<u8>) -> FaultInjector<D>
        ensures { result ≡ harmless inner seed (vec_len scratch) }
    {
        let alloc = *scratch.allocator();
        let (second, third) = (seed_after(seed), seed_after(seed_after(seed)));
        let dropper = Dropper::new(inner, seed, scratch);
        let corrupter = Corrupter::new(alloc, dropper, second);
        FaultInjector {
            parts: Duplicator::new(alloc, corrupter, third),
        }
    }

    /// The chance that a frame is lost, in percent; above 100 it is 100.
    pub fn set_drop_chance(&mut self, pct: u8)
        ensures { self.new ≡ with_dropper
            (under (record { chance = min pct 100; longest = self.old.inner.inner.state.rules.longest; rx_rate = self.old.inner.inner.state.rules.rx_rate; tx_rate = self.old.inner.inner.state.rules.tx_rate; interval = self.old.inner.inner.state.rules.interval }) self.old.inner.inner)
            self.old }
    {
        self.parts.inner.inner.set_drop_chance(pct);
    }

    /// As it was set.
    pub fn drop_chance(&self) -> u8
        ensures { result ≡ self.now.inner.inner.state.rules.chance }
    {
        self.parts.inner.inner.drop_chance()
    }

    /// The length of the longest frame that isn't lost for its length. 0 stands for no limit.
    pub fn set_max_packet_size(&mut self, bytes: usize)
        ensures { self.new ≡ with_dropper
            (under (record { chance = self.old.inner.inner.state.rules.chance; longest = bytes; rx_rate = self.old.inner.inner.state.rules.rx_rate; tx_rate = self.old.inner.inner.state.rules.tx_rate; interval = self.old.inner.inner.state.rules.interval }) self.old.inner.inner)
            self.old }
    {
        self.parts.inner.inner.set_max_packet_size(bytes);
    }

    /// As it was set.
    pub fn max_packet_size(&self) -> usize
        ensures { result ≡ self.now.inner.inner.state.rules.longest }
    {
        self.parts.inner.inner.max_packet_size()
    }

    /// How many frames come in an interval at most. 0 stands for no limit. What is beyond it waits in the device.
    pub fn set_max_rx_rate(&mut self, frames: u64)
        ensures { self.new ≡ with_dropper
            (under (record { chance = self.old.inner.inner.state.rules.chance; longest = self.old.inner.inner.state.rules.longest; rx_rate = frames; tx_rate = self.old.inner.inner.state.rules.tx_rate; interval = self.old.inner.inner.state.rules.interval }) self.old.inner.inner)
            self.old }
    {
        self.parts.inner.inner.set_max_rx_rate(frames);
    }

    /// As it was set.
    pub fn max_rx_rate(&self) -> u64
        ensures { result ≡ self.now.inner.inner.state.rules.rx_rate }
    {
        self.parts.inner.inner.max_rx_rate()
    }

    /// How many frames are sent in an interval at most. 0 stands for no limit. What is beyond it is lost.
    pub fn set_max_tx_rate(&mut self, frames: u64)
        ensures { self.new ≡ with_dropper
            (under (record { chance = self.old.inner.inner.state.rules.chance; longest = self.old.inner.inner.state.rules.longest; rx_rate = self.old.inner.inner.state.rules.rx_rate; tx_rate = frames; interval = self.old.inner.inner.state.rules.interval }) self.old.inner.inner)
            self.old }
    {
        self.parts.inner.inner.set_max_tx_rate(frames);
    }

    /// As it was set.
    pub fn max_tx_rate(&self) -> u64
        ensures { result ≡ self.now.inner.inner.state.rules.tx_rate }
    {
        self.parts.inner.inner.max_tx_rate()
    }

    /// An interval's length. It begins with the first frame behind the last one, or behind a call that sets a rule.
    pub fn set_bucket_interval(&mut self, interval: Duration)
        ensures { self.new ≡ with_dropper
            (under (record { chance = self.old.inner.inner.state.rules.chance; longest = self.old.inner.inner.state.rules.longest; rx_rate = self.old.inner.inner.state.rules.rx_rate; tx_rate = self.old.inner.inner.state.rules.tx_rate; interval = interval }) self.old.inner.inner)
            self.old }
    {
        self.parts.inner.inner.set_bucket_interval(interval);
    }

    /// As it was set.
    pub fn bucket_interval(&self) -> Duration
        ensures { result ≡ self.now.inner.inner.state.rules.interval }
    {
        self.parts.inner.inner.bucket_interval()
    }

    /// The chance that one bit of a frame is changed, in percent; above 100 it is 100.
    pub fn set_corrupt_chance(&mut self, pct: u8)
        ensures { self.new ≡ with_corrupter
            (record { inner = self.old.inner.inner; chance = min pct 100; course = self.old.inner.course }) self.old }
    {
        self.parts.inner.set_corrupt_chance(pct);
    }

    /// As it was set.
    pub fn corrupt_chance(&self) -> u8
        ensures { result ≡ self.now.inner.chance }
    {
        self.parts.inner.corrupt_chance()
    }

    /// The chance that a frame that comes does so twice, in percent; above 100 it is 100.
    pub fn set_duplicate_chance(&mut self, pct: u8)
        ensures { self.new ≡ record { inner = self.old.inner; chance = min pct 100; course = self.old.course; waiting = self.old.waiting } }
    {
        self.parts.set_duplicate_chance(pct);
    }

    /// As it was set.
    pub fn duplicate_chance(&self) -> u8
        ensures { result ≡ self.now.chance }
    {
        self.parts.duplicate_chance()
    }

    /// When a frame may come again, where as many came as the rate lets through: until then `receive` gives none that it takes from the
    /// device. A host is polled then, too, or earlier where it wants to be.
    pub fn poll_at(&self) -> Option<Instant>
        ensures { result ≡ lets_at self.now.inner.inner.state.rules.rx_rate self.now.inner.inner.state.rules.interval self.now.inner.inner.state.rx }
    {
        self.parts.inner.inner.poll_at()
    }

    /// What was harmed so far.
    pub fn counts(&self) -> FaultCounts
        ensures { result ≡ record {
          rx_dropped = self.now.inner.inner.state.course.rx;
          tx_dropped = self.now.inner.inner.state.course.tx;
          rx_corrupted = self.now.inner.course.rx;
          tx_corrupted = self.now.inner.course.tx;
          rx_duplicated = self.now.course.rx;
        } }
    {
        let (rx_dropped, tx_dropped) = self.parts.inner.inner.dropped();
        let (rx_corrupted, tx_corrupted) = self.parts.inner.corrupted();
        FaultCounts {
            rx_dropped,
            tx_dropped,
            rx_corrupted,
            tx_corrupted,
            rx_duplicated: self.parts.duplicated(),
        }
    }

    /// The device.
    pub fn get_ref(&self) -> &D
        ensures { result.now ≡ self.now.inner.inner.inner }
    {
        self.parts.inner.inner.get_ref()
    }

    /// The device, out of the wrapper.
    pub fn into_inner(self) -> D
        ensures { result ≡ self.inner.inner.inner }
    {
        let FaultInjector { parts } = self;
        parts.into_inner().into_inner().into_inner()
    }
}

impl<D: Device> Device for FaultInjector<D> {
    type RxToken = FaultRxToken<FaultRxToken<D::RxToken>>;

    type TxToken = D::TxToken;

    ghost use Rattle.base_wrappers.specs.Drop.{Drops};
    ghost use Rattle.base_wrappers.specs.Corrupt.{Corrupts};
    ghost use Rattle.base_wrappers.specs.Duplicate.{Duplicates};

    ghost moves = { Duplicates (Corrupts (Drops D.moves)) };

    ghost refused = { λ w. D.refused w.inner.inner.inner };

    ghost described = { λ w. D.described w.inner.inner.inner };

    fn receive(
        &mut self,
        timestamp: Instant,
    ) -> Option<(FaultRxToken<FaultRxToken<D::RxToken>>, D::TxToken)> {
        self.parts.receive(timestamp)
    }

    fn transmit(&mut self, timestamp: Instant) -> Option<D::TxToken> {
        self.parts.transmit(timestamp)
    }

    fn send<R: Drop, F: FnOnce(&mut [u8]) -> R>(
        &mut self,
        token: D::TxToken,
        len: usize,
        f: F,
    ) -> Result<R, SendRefused> {
        self.parts.send(token, len, f)
    }

    fn capabilities(&self) -> DeviceCapabilities {
        self.parts.capabilities()
    }

    fn refusals(&self) -> u64 {
        self.parts.refusals()
    }
}
