//! What a device that harms frames does at worst.
ghost use Rattle.std.specs.Prelude.{◌≡◌, ℕ, ℤ, List, Some, length, ◌<◌, ◌≤◌, ◌*◌, int_le};
ghost use Rattle.std.specs.List.{FoldsTo};
ghost use Rattle.base_device.specs.Device.{Move};
ghost use Rattle.base_wrappers.specs.Bucket.{Level, lets, lets_at};
ghost use Rattle.base_wrappers.specs.Drop.{DropperValue};
ghost use Rattle.base_wrappers.specs.Fault.{FaultValue};
ghost use Rattle.base_wrappers.specs.Harm.{frames_in, frames_out, Harmed, HarmedOut};
ghost use Rattle.base_wrappers.specs.Rates.{instants_in, AllLet, AllWithin};

use crate::dropper::Dropper;
use crate::fault::FaultInjector;
use base_device::Device;

/// Law: what comes over a FaultInjector is, in order, what was on its device: some frames are lost, the others come once or twice, each
/// whole or with one bit other. What is sent likewise, but once.
pub fn harm_is_bounded<D: Device>()
    ensures { (moves : List Move) (old new : FaultValue D)
        → FoldsTo ⟦<FaultInjector<D> as Device>⟧.moves old moves new
        → (below : List Move) × FoldsTo D.moves old.inner.inner.inner below new.inner.inner.inner
        × Harmed old.waiting (frames_in below) (frames_in moves) × HarmedOut (frames_out moves) (frames_out below) }
{}

/// Law: within any time as long as the interval, at most twice as many frames come as the rate says; and at most so many are let through
/// on their way out.
pub fn rates_hold<D: Device>()
    ensures came { (moves : List Move) (old new : DropperValue D) (begin : ℤ)
        → FoldsTo ⟦<Dropper<D> as Device>⟧.moves old moves new
        → 0 < old.state.rules.rx_rate → old.state.rx.left ≤ old.state.rules.rx_rate
        → AllWithin begin old.state.rules.interval (instants_in moves)
        → length (frames_in moves) ≤ 2 * old.state.rules.rx_rate }
    ensures through { (rate interval : ℕ) (begin : ℤ) (instants : List ℤ) (b : Level)
        → 0 < rate → b.left ≤ rate → AllWithin begin interval instants → AllLet rate interval instants b
        → length instants ≤ 2 * rate }
{}

/// Law: the instant that a rate is waited for is the first one at which a frame may go.
pub fn rates_are_waited_for()
    ensures { (rate interval : ℕ) (b : Level) (at t : ℤ) → lets_at rate interval b ≡ Some at → lets rate interval t b ≡ int_le at t }
{}
