//! A device that gives frames a second time.
ghost use Rattle.std.specs.Prelude.{◌≡◌, min, None, IfSome};
ghost use Rattle.base_wrappers.specs.Course.{begun_at, hits};
ghost use Rattle.base_wrappers.specs.Duplicate.{Waits};

use crate::course::Course;
use crate::token::FaultRxToken;
use base_device::{Device, DeviceCapabilities, OwnedRxToken, RxToken, SendRefused};
use base_time::Instant;
use std::alloc::Global;
use std::marker::Model;

/// A device that gives some of the frames that come a second time, by chance, right behind the first.
#[derive(Debug, Drop)]
pub struct Duplicator<D> {
    pub(crate) inner: D,
    chance: u8,
    course: Course,
    waiting: Option<OwnedRxToken>,
    alloc: Global,
}

impl<D> Model for Duplicator<D> {
    ghost use Rattle.base_wrappers.specs.Duplicate.{DuplicatorValue, duplicator_code};

    ghost Value = { DuplicatorValue D };

    ghost coded = { duplicator_code D.code };

    ghost view = { λ w. record { inner = w.inner; chance = w.chance; course = w.course; waiting = w.waiting } };
}

/// A copy of a frame, if there is memory for it.
fn copy_of(frame: &[u8], alloc: Global) -> Option<OwnedRxToken>
    ensures { IfSome result (λ copy. copy ≡ frame.now) }
{
    let mut copy = Vec::new(alloc);
    if copy.extend_from_slice(frame).is_err() {
        return None;
    }
    Some(OwnedRxToken::new(copy))
}

/// What of a frame that came waits to come again.
fn second(frame: &[u8], chance: u8, course: &mut Course, alloc: Global) -> Option<OwnedRxToken>
    ensures { Waits (hits chance course.old) course.old frame.now course.new result }
{
    if !course.hits(chance) {
        return None;
    }
    let Some(copy) = copy_of(frame, alloc) else {
        return None;
    };
    course.count_rx();
    Some(copy)
}

impl<D: Device> Duplicator<D> {
    /// A device that gives each frame once, so far. `alloc` serves the copies.
    pub fn new(alloc: Global, inner: D, seed: u64) -> Duplicator<D>
        ensures { result ≡ record { inner = inner; chance = 0; course = begun_at seed; waiting = None } }
    {
        Duplicator {
            inner,
            chance: 0,
            course: Course::new(seed),
            waiting: None,
            alloc,
        }
    }

    /// The chance that a frame comes a second time, in percent; above 100 it is 100.
    pub fn set_duplicate_chance(&mut self, pct: u8)
        ensures { self.new ≡ record { inner = self.old.inner; chance = min pct 100; course = self.old.course; waiting = self.old.waiting } }
    {
        self.chance = pct.min(100);
    }

    /// As it was set.
    pub fn duplicate_chance(&self) -> u8
        ensures { result ≡ self.now.chance }
    {
        self.chance
    }

    /// How many frames were to come a second time.
    pub fn duplicated(&self) -> u64
        ensures { result ≡ self.now.course.rx }
    {
        self.course.rx()
    }

    /// The device.
    pub fn get_ref(&self) -> &D
        ensures { result.now ≡ self.now.inner }
    {
        &self.inner
    }

    /// The device, out of the wrapper.
    pub fn into_inner(self) -> D
        ensures { result ≡ self.inner }
    {
        let Duplicator { inner, .. } = self;
        inner
    }
}

impl<D: Device> Device for Duplicator<D> {
    type RxToken = FaultRxToken<D::RxToken>;

    type TxToken = D::TxToken;

    ghost use Rattle.base_wrappers.specs.Duplicate.{Duplicates};

    ghost moves = { Duplicates D.moves };

    ghost refused = { λ w. D.refused w.inner };

    ghost described = { λ w. D.described w.inner };

    fn receive(&mut self, timestamp: Instant) -> Option<(FaultRxToken<D::RxToken>, D::TxToken)> {
        if self.waiting.is_some() {
            let leave = self.inner.transmit(timestamp)?;
            let again = self.waiting.take()?;
            return Some((FaultRxToken::Copied(again), leave));
        }
        let (token, leave) = self.inner.receive(timestamp)?;
        self.waiting = second(token.bytes(), self.chance, &mut self.course, self.alloc);
        Some((FaultRxToken::Whole(token), leave))
    }

    fn transmit(&mut self, timestamp: Instant) -> Option<D::TxToken> {
        self.inner.transmit(timestamp)
    }

    fn send<R: Drop, F: FnOnce(&mut [u8]) -> R>(
        &mut self,
        token: D::TxToken,
        len: usize,
        f: F,
    ) -> Result<R, SendRefused> {
        self.inner.send(token, len, f)
    }

    fn capabilities(&self) -> DeviceCapabilities {
        self.inner.capabilities()
    }

    fn refusals(&self) -> u64 {
        self.inner.refusals()
    }
}
