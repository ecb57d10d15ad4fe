//! A frame that came, in the buffer that it came in or in another one.
use base_device::{OwnedRxToken, RxToken};

/// A frame that came, as it came or as a copy.
#[derive(Debug, Drop)]
pub enum FaultRxToken<T> {
    /// As it came.
    Whole(T),
    /// A copy.
    Copied(OwnedRxToken),
}

impl<T: RxToken> RxToken for FaultRxToken<T> {
    ghost use Rattle.base_wrappers.specs.declared.token.FaultRxToken.TheVariants.{Whole, Copied};

    ghost frame = { elim [ Whole token ↦ T.frame token | Copied token ↦ token ] };

    fn bytes(&self) -> &[u8] {
        match self {
            FaultRxToken::Whole(token) => token.bytes(),
            FaultRxToken::Copied(token) => token.bytes(),
        }
    }

    fn consume<R, F: FnOnce(&[u8]) -> R>(self, f: F) -> R {
        match self {
            FaultRxToken::Whole(token) => token.consume(f),
            FaultRxToken::Copied(token) => token.consume(f),
        }
    }
}
