//! A device that changes frames.
ghost use Rattle.std.specs.Prelude.{◌≡◌, ◌+◌, ◌<◌, ◌^◌, min, ℕ, List, length, is_ok, if◌then◌else◌, IfOk, OnErr, IfSome};
ghost use Rattle.std.specs.Fn.{FnOnceReturnsAtMut, FnOnceTakesAtMut};
ghost use Rattle.base_device.specs.Device.{Emitted, Denied};
ghost use Rattle.base_wrappers.specs.Course.{begun_at, hits};
ghost use Rattle.base_wrappers.specs.Corrupt.{flipped, Comes};

use crate::course::Course;
use crate::token::FaultRxToken;
use base_device::{Device, DeviceCapabilities, OwnedRxToken, RxToken, SendRefused};
use base_time::Instant;
use std::alloc::Global;
use std::marker::Model;

/// A device that changes one bit of some frames, by chance, of those that come and of those that are sent.
#[derive(Debug, Drop)]
pub struct Corrupter<D> {
    pub(crate) inner: D,
    chance: u8,
    course: Course,
    alloc: Global,
}

impl<D> Model for Corrupter<D> {
    ghost use Rattle.base_wrappers.specs.Corrupt.{CorrupterValue, corrupter_code};

    ghost Value = { CorrupterValue D };

    ghost coded = { corrupter_code D.code };

    ghost view = { λ w. record { inner = w.inner; chance = w.chance; course = w.course } };
}

/// One bit of one byte is other.
fn flip(frame: &mut [u8], at: u32, bit: u32)
    ensures { frame.new ≡ flipped at bit frame.old }
{
    if frame.is_empty() {
        return;
    }
    let index = at as usize % frame.len();
    frame[index] ^= 1u8 << (bit % 8);
}

/// Runs the closure, and changes what it left.
fn run_and_flip<R, F: FnOnce(&mut [u8]) -> R>(f: F, frame: &mut [u8], at: u32, bit: u32) -> R
    requires { FnOnceTakesAtMut F.FnOnce f frame.old }
    ensures { (left : List ℕ) × (length left ≡ length frame.old)
        × FnOnceReturnsAtMut F.FnOnce f frame.old result left × (frame.new ≡ flipped at bit left) }
{
    let answer = f(frame);
    flip(frame, at, bit);
    answer
}

/// Sends a frame over the device, changed.
fn send_flipped<D: Device, R: Drop, F: FnOnce(&mut [u8]) -> R>(
    device: &mut D,
    token: D::TxToken,
    len: usize,
    f: F,
    at: u32,
    bit: u32,
) -> Result<R, SendRefused>
    requires callable { (buffer : List ℕ) → length buffer ≡ len →
        FnOnceTakesAtMut F.FnOnce f buffer }
    requires room { D.refused device.old + 1 < 2 ^ 64 }
    ensures ok { IfOk result (λ r. (buffer : List ℕ) × (frame : List ℕ)
        × (length buffer ≡ len) × (length frame ≡ len)
        × FnOnceReturnsAtMut F.FnOnce f buffer r frame
        × D.moves device.old (Emitted (flipped at bit frame)) device.new) }
    ensures err { OnErr result (D.moves device.old (Denied len) device.new) }
    ensures refusals { D.refused device.new ≡
        (if is_ok result then D.refused device.old else D.refused device.old + 1) }
    ensures capabilities { D.described device.new ≡ D.described device.old }
{
    device.send(
        token,
        len,
        move |frame: &mut [u8]| run_and_flip(f, frame, at, bit),
    )
}

/// A changed copy of a frame, if there is memory for it.
fn changed_copy(frame: &[u8], alloc: Global, at: u32, bit: u32) -> Option<Vec<u8>>
    ensures { IfSome result (λ copy. copy.items ≡ flipped at bit frame.now) }
{
    let mut copy = Vec::new(alloc);
    if copy.extend_from_slice(frame).is_err() {
        return None;
    }
    flip(copy.as_mut_slice(), at, bit);
    Some(copy)
}

/// A frame that came, changed if it is drawn.
#[tactic(auto, unfolding(crate::specs::Corrupt::Comes))]
fn harm<T: RxToken>(token: T, chance: u8, course: &mut Course, alloc: Global) -> FaultRxToken<T>
    ensures { Comes (hits chance course.old) course.old (T.frame token)
        (⟦<FaultRxToken<T> as RxToken>⟧.frame result) course.new }
{
    let hit = course.hits(chance);
    let at = course.word();
    let bit = course.word();
    if !hit {
        return FaultRxToken::Whole(token);
    }
    let Some(copy) = changed_copy(token.bytes(), alloc, at, bit) else {
        return FaultRxToken::Whole(token);
    };
    course.count_rx();
    FaultRxToken::Copied(OwnedRxToken::new(copy))
}

impl<D: Device> Corrupter<D> {
    /// A device that changes nothing yet. `alloc` serves the copies of frames that come and are changed.
    pub fn new(alloc: Global, inner: D, seed: u64) -> Corrupter<D>
        ensures { result ≡ record { inner = inner; chance = 0; course = begun_at seed } }
    {
        Corrupter {
            inner,
            chance: 0,
            course: Course::new(seed),
            alloc,
        }
    }

    /// The chance that a frame is changed, in percent; above 100 it is 100.
    pub fn set_corrupt_chance(&mut self, pct: u8)
        ensures { self.new ≡ record { inner = self.old.inner; chance = min pct 100; course = self.old.course } }
    {
        self.chance = pct.min(100);
    }

    /// As it was set.
    pub fn corrupt_chance(&self) -> u8
        ensures { result ≡ self.now.chance }
    {
        self.chance
    }

    /// How many frames were changed, of those that came and of those that were sent.
    pub fn corrupted(&self) -> (u64, u64)
        ensures { result ≡ (self.now.course.rx, self.now.course.tx) }
    {
        (self.course.rx(), self.course.tx())
    }

    /// The device.
    pub fn get_ref(&self) -> &D
        ensures { result.now ≡ self.now.inner }
    {
        &self.inner
    }

    /// The device, out of the wrapper.
    pub fn into_inner(self) -> D
        ensures { result ≡ self.inner }
    {
        let Corrupter { inner, .. } = self;
        inner
    }
}

impl<D: Device> Device for Corrupter<D> {
    type RxToken = FaultRxToken<D::RxToken>;

    type TxToken = D::TxToken;

    ghost use Rattle.base_wrappers.specs.Corrupt.{Corrupts};

    ghost moves = { Corrupts D.moves };

    ghost refused = { λ w. D.refused w.inner };

    ghost described = { λ w. D.described w.inner };

    fn receive(&mut self, timestamp: Instant) -> Option<(FaultRxToken<D::RxToken>, D::TxToken)> {
        let (token, leave) = self.inner.receive(timestamp)?;
        let token = harm(token, self.chance, &mut self.course, self.alloc);
        Some((token, leave))
    }

    fn transmit(&mut self, timestamp: Instant) -> Option<D::TxToken> {
        self.inner.transmit(timestamp)
    }

    fn send<R: Drop, F: FnOnce(&mut [u8]) -> R>(
        &mut self,
        token: D::TxToken,
        len: usize,
        f: F,
    ) -> Result<R, SendRefused> {
        let hit = self.course.hits(self.chance);
        let at = self.course.word();
        let bit = self.course.word();
        if !hit {
            return self.inner.send(token, len, f);
        }
        let answer = send_flipped(&mut self.inner, token, len, f, at, bit)?;
        self.course.count_tx();
        Ok(answer)
    }

    fn capabilities(&self) -> DeviceCapabilities {
        self.inner.capabilities()
    }

    fn refusals(&self) -> u64 {
        self.inner.refusals()
    }
}
