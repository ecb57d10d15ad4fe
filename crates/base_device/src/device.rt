//! The traits of a device and of its tokens, by which frames come and go.
ghost use Rattle.std.specs.Prelude.{◌≡◌, ℕ, ◌+◌, ◌-◌, ◌^◌, ◌<◌, List, length, is_ok, is_some, if◌then◌else◌, IfOk, OnErr, OnSome, MatchOption};
ghost use Rattle.std.specs.Fn.{FnOnceReturnsAt, FnOnceReturnsAtMut, FnOnceTakesAt, FnOnceTakesAtMut};
ghost use Rattle.base_time.specs.declared.instant.Instant.{Instant};
ghost use Rattle.base_device.specs.declared.capabilities.DeviceCapabilities.{DeviceCapabilities};
ghost use Rattle.base_device.specs.Device.{Move, Took, Empty, Allowed, Emitted, Denied};

use crate::capabilities::DeviceCapabilities;
use base_time::Instant;
use thiserror::Error;

/// What travels alongside a packet and isn't part of its bytes. Nothing does, today.
#[derive(Clone, Copy, Debug, PartialEq, Eq, Hash, Default)]
pub struct PacketMeta {}

/// A device couldn't take a frame, for lack of memory. Its count of refusals rose by one.
#[derive(Clone, Copy, Debug, PartialEq, Eq, Error)]
#[error("the device refused a frame")]
pub struct SendRefused;

/// A frame that a device received. It may be dropped, and then the frame is lost.
pub trait RxToken: Drop {
    ghost frame: { Self → List ℕ };

    /// Lends the frame.
    fn bytes(&self) -> &[u8]
        ensures { result.now ≡ frame self.now };

    /// Gives the frame to `f`, and then drops it.
    fn consume<R, F: FnOnce(&[u8]) -> R>(self, f: F) -> R
        requires { FnOnceTakesAt F.FnOnce f (frame self) }
        ensures { FnOnceReturnsAt F.FnOnce f (frame self) result };

    /// What came alongside the frame.
    fn meta(&self) -> PacketMeta {
        PacketMeta::default()
    }
}

/// Leave to send one frame, by a call of the device's `send`. It may be dropped, and then nothing
/// is sent.
pub trait TxToken: Drop {
    /// Says what goes alongside the frame.
    fn set_meta(&mut self, _meta: PacketMeta) {}
}

/// A device that sends and receives frames.
///
/// Its tokens own what they need: they hold no borrow of the device. So a frame that came can be
/// answered, by the token alongside it, while it is read.
///
/// `moves` says what a call did: what frames the device then has is the device's own matter.
pub trait Device {
    type RxToken: RxToken;

    type TxToken: TxToken;

    ghost moves: { Self → Move → Self → Type 0 };

    ghost refused: { Self → ℕ };

    ghost described: { Self → DeviceCapabilities };

    /// The next frame that came, with leave to send one. `timestamp` is the instant of the call.
    ///
    /// There is none while the count of refusals can't rise any more.
    fn receive(&mut self, timestamp: Instant) -> Option<(Self::RxToken, Self::TxToken)>
        ensures moves { MatchOption result
            (moves self.old (Empty timestamp) self.new)
            (λ tokens. moves self.old (Took timestamp (Self.RxToken.frame tokens.0)) self.new) }
        ensures refusals { refused self.new ≡ refused self.old }
        ensures capabilities { described self.new ≡ described self.old }
        ensures works { OnSome result (refused self.old + 1 < 2 ^ 64) };

    /// Leave to send one frame. `timestamp` is the instant of the call.
    ///
    /// There is none while the count of refusals can't rise any more.
    fn transmit(&mut self, timestamp: Instant) -> Option<Self::TxToken>
        ensures moves { moves self.old (Allowed timestamp (is_some result)) self.new }
        ensures refusals { refused self.new ≡ refused self.old }
        ensures capabilities { described self.new ≡ described self.old }
        ensures works { OnSome result (refused self.old + 1 < 2 ^ 64) };

    /// Sends a frame of `len` bytes, those that `f` leaves in a buffer of that length. What stands
    /// in the buffer before isn't said.
    ///
    /// The device may refuse for lack of memory. Then `f` didn't run, nothing is sent, and the
    /// count of refusals has risen by one.
    fn send<R: Drop, F: FnOnce(&mut [u8]) -> R>(
        &mut self,
        token: Self::TxToken,
        len: usize,
        f: F,
    ) -> Result<R, SendRefused>
        requires callable { (buffer : List ℕ) → length buffer ≡ len →
            FnOnceTakesAtMut F.FnOnce f buffer }
        requires room { refused self.old + 1 < 2 ^ 64 }
        ensures ok { IfOk result (λ r. (buffer : List ℕ) × (frame : List ℕ)
            × (length buffer ≡ len) × (length frame ≡ len)
            × FnOnceReturnsAtMut F.FnOnce f buffer r frame
            × moves self.old (Emitted frame) self.new) }
        ensures err { OnErr result (moves self.old (Denied len) self.new) }
        ensures refusals { refused self.new ≡
            (if is_ok result then refused self.old else refused self.old + 1) }
        ensures capabilities { described self.new ≡ described self.old };

    /// What the device says of itself, which no call changes.
    fn capabilities(&self) -> DeviceCapabilities
        ensures { result ≡ described self.now };

    /// How many frames `send` has refused.
    fn refusals(&self) -> u64
        ensures { result ≡ refused self.now };
}
