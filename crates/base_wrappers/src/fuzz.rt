//! A device that writes anything over frames.
ghost use Rattle.std.specs.Prelude.{◌≡◌, ◌+◌, ◌<◌, ◌^◌, ℕ, List, length, is_ok, if◌then◌else◌, IfOk, OnErr, IfSome};
ghost use Rattle.std.specs.Fn.{FnOnceReturnsAtMut, FnOnceTakesAtMut};
ghost use Rattle.base_device.specs.Device.{Emitted, Denied};

use crate::token::FaultRxToken;
use base_device::{Device, DeviceCapabilities, OwnedRxToken, RxToken, SendRefused};
use base_time::Instant;
use std::alloc::Global;
use std::marker::Model;

/// What writes over a frame.
pub trait Fuzzer {
    /// Writes over a frame, whatever it wants.
    fn fuzz_packet(&self, packet_data: &mut [u8]);
}

/// A device that lets the one fuzzer write over each frame that is sent, and the other over each that comes.
#[derive(Debug, Drop)]
pub struct FuzzInjector<D, T, R> {
    inner: D,
    fuzz_tx: T,
    fuzz_rx: R,
    alloc: Global,
}

impl<D, T, R> Model for FuzzInjector<D, T, R> {
    ghost use Rattle.base_wrappers.specs.Fuzz.{FuzzValue, fuzz_code};

    ghost Value = { FuzzValue D T R };

    ghost coded = { fuzz_code D.code T.code R.code };

    ghost view = { λ w. record { inner = w.inner; fuzz_tx = w.fuzz_tx; fuzz_rx = w.fuzz_rx } };
}

/// Runs the closure, and writes over what it left.
fn run_and_fuzz<R, F: FnOnce(&mut [u8]) -> R, Z: Fuzzer>(f: F, frame: &mut [u8], fuzzer: &Z) -> R
    requires { FnOnceTakesAtMut F.FnOnce f frame.old }
    ensures { (left : List ℕ) × (length left ≡ length frame.old)
        × FnOnceReturnsAtMut F.FnOnce f frame.old result left × (length frame.new ≡ length frame.old) }
{
    let answer = f(frame);
    fuzzer.fuzz_packet(frame);
    answer
}

/// Sends a frame over the device, written over.
fn send_fuzzed<D: Device, R: Drop, F: FnOnce(&mut [u8]) -> R, Z: Fuzzer>(
    device: &mut D,
    token: D::TxToken,
    len: usize,
    f: F,
    fuzzer: &Z,
) -> Result<R, SendRefused>
    requires callable { (buffer : List ℕ) → length buffer ≡ len →
        FnOnceTakesAtMut F.FnOnce f buffer }
    requires room { D.refused device.old + 1 < 2 ^ 64 }
    ensures ok { IfOk result (λ r. (buffer : List ℕ) × (frame : List ℕ)
        × (length buffer ≡ len) × (length frame ≡ len)
        × FnOnceReturnsAtMut F.FnOnce f buffer r frame
        × ((sent : List ℕ) × (length sent ≡ length frame) × D.moves device.old (Emitted sent) device.new)) }
    ensures err { OnErr result (D.moves device.old (Denied len) device.new) }
    ensures refusals { D.refused device.new ≡
        (if is_ok result then D.refused device.old else D.refused device.old + 1) }
    ensures capabilities { D.described device.new ≡ D.described device.old }
{
    device.send(
        token,
        len,
        move |frame: &mut [u8]| run_and_fuzz(f, frame, fuzzer),
    )
}

/// A copy of a frame that is written over, if there is memory for it.
fn fuzzed_copy<Z: Fuzzer>(frame: &[u8], alloc: Global, fuzzer: &Z) -> Option<Vec<u8>>
    ensures { IfSome result (λ copy. length copy.items ≡ length frame.now) }
{
    let mut copy = Vec::new(alloc);
    if copy.extend_from_slice(frame).is_err() {
        return None;
    }
    fuzzer.fuzz_packet(copy.as_mut_slice());
    Some(copy)
}

impl<D: Device, T: Fuzzer, R: Fuzzer> FuzzInjector<D, T, R> {
    /// A device whose frames are written over. `alloc` serves copies of those that come; without memory one comes as it is.
    pub fn new(alloc: Global, inner: D, fuzz_tx: T, fuzz_rx: R) -> FuzzInjector<D, T, R>
        ensures { result ≡ record { inner = inner; fuzz_tx = fuzz_tx; fuzz_rx = fuzz_rx } }
    {
        FuzzInjector {
            inner,
            fuzz_tx,
            fuzz_rx,
            alloc,
        }
    }

    /// The device.
    pub fn get_ref(&self) -> &D
        ensures { result.now ≡ self.now.inner }
    {
        &self.inner
    }
}

impl<D: Device, T: Fuzzer, R: Fuzzer> Device for FuzzInjector<D, T, R> {
    type RxToken = FaultRxToken<D::RxToken>;

    type TxToken = D::TxToken;

    ghost use Rattle.base_wrappers.specs.Fuzz.{Fuzzes};

    ghost moves = { Fuzzes D.moves };

    ghost refused = { λ w. D.refused w.inner };

    ghost described = { λ w. D.described w.inner };

    fn receive(&mut self, timestamp: Instant) -> Option<(FaultRxToken<D::RxToken>, D::TxToken)> {
        let (token, leave) = self.inner.receive(timestamp)?;
        let Some(copy) = fuzzed_copy(token.bytes(), self.alloc, &self.fuzz_rx) else {
            return Some((FaultRxToken::Whole(token), leave));
        };
        Some((FaultRxToken::Copied(OwnedRxToken::new(copy)), leave))
    }

    fn transmit(&mut self, timestamp: Instant) -> Option<D::TxToken> {
        self.inner.transmit(timestamp)
    }

    fn send<A: Drop, F: FnOnce(&mut [u8]) -> A>(
        &mut self,
        token: D::TxToken,
        len: usize,
        f: F,
    ) -> Result<A, SendRefused> {
        send_fuzzed(&mut self.inner, token, len, f, &self.fuzz_tx)
    }

    fn capabilities(&self) -> DeviceCapabilities {
        self.inner.capabilities()
    }

    fn refusals(&self) -> u64 {
        self.inner.refusals()
    }
}
