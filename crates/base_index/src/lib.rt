//! Which of many slots have something to do, and which are meant by what arrives.
//!
//! A set keeps an agenda alongside its slots, so that who goes through them passes over those that are idle: a socket without anything to
//! send, on whose account no instant is to be waited for. And it keeps an index of them by key, so that what arrives is held alongside those alone
//! that it may be for: the sockets of its ports.
#![tactic(auto)]

ghost use Rattle.std.specs.Prelude.{◌≡◌};

mod bits;
mod chains;
mod index;
mod list;

pub use index::Index;
pub use list::Agenda;

/// What may have nothing to do, and is found by a key.
pub trait Idle {
    ghost use Rattle.std.specs.Prelude.{Bool, ℕ};

    /// it has nothing to do until it is called, or something arrives
    ghost idle: { Self → Bool };

    /// by which it is found when something arrives for it
    ghost key: { Self → ℕ };

    /// Whether it has nothing to do until it is called, or something arrives.
    fn is_idle(&self) -> bool
        ensures { result ≡ idle self.now };

    /// The key by which it is found when something arrives for it.
    fn key(&self) -> u64
        ensures { result ≡ key self.now };
}
