//! A token that owns the frame that came.
ghost use Rattle.std.specs.Prelude.{◌≡◌};

use crate::device::RxToken;
use std::marker::Model;

/// A received frame that the token itself holds, as a device in memory hands it out: no byte of it
/// is copied on the way. A contract sees its bytes.
#[derive(Debug, Drop)]
pub struct OwnedRxToken {
    frame: Vec<u8>,
}

impl Model for OwnedRxToken {
    ghost use Rattle.std.specs.Prelude.{ℕ, List};

    ghost Value = { List ℕ };

    ghost view = { λ token. token.frame.items };
}

impl OwnedRxToken {
    /// A token that hands out this frame.
    pub fn new(frame: Vec<u8>) -> OwnedRxToken
        ensures { result ≡ frame.items }
    {
        OwnedRxToken { frame }
    }

    /// The frame in its own buffer, for a receiver that keeps it.
    pub fn into_frame(self) -> Vec<u8>
        ensures { result.items ≡ self }
    {
        let OwnedRxToken { frame } = self;
        frame
    }
}

impl RxToken for OwnedRxToken {
    ghost frame = { λ token. token };

    fn bytes(&self) -> &[u8] {
        self.frame.as_slice()
    }

    fn consume<R, F: FnOnce(&[u8]) -> R>(self, f: F) -> R {
        f(self.bytes())
    }
}
