//! What frames that are watched are written as.
ghost use Rattle.std.specs.Prelude.{◌≡◌, ℕ, ℤ, Bool, List, [], OnOk};
ghost use Rattle.base_wrappers.specs.declared.writer.Direction.{Direction};

use base_time::Instant;
use std::alloc::AllocError;

/// Which way a frame went.
#[derive(Clone, Copy, Debug, PartialEq, Eq)]
pub enum Direction {
    /// It came.
    Rx,
    /// It was sent.
    Tx,
}

/// What frames are written as, and which of them.
pub trait FrameWriter {
    /// whether frames that go this way are written
    ghost takes: { Self → Direction → Bool };

    /// which bytes stand for a frame, of this instant
    ghost writes: { Self → ℤ → Direction → List ℕ → List ℕ → Type 0 };

    /// Whether frames that go this way are written.
    fn takes(&self, direction: Direction) -> bool
        ensures { result ≡ takes self.now direction };

    /// Writes a frame into an empty buffer.
    fn write(
        &self,
        instant: Instant,
        direction: Direction,
        frame: &[u8],
        line: &mut Vec<u8>,
    ) -> Result<(), AllocError>
        requires { line.old.items ≡ [] }
        ensures { OnOk result (writes self.now instant direction frame.now line.new.items) };
}
