//! A value in memory of its own, so that what holds sockets of any kind takes for each what its kind takes.
ghost use Rattle.std.specs.Prelude.{◌≡◌, IfOk, IfErr};

use std::alloc::{AllocFailed, Global};
use std::fmt::{self, Debug, Formatter};
use std::marker::Model;
use std::ops::{Deref, DerefMut};

/// A `Box` that contracts see as its value.
#[derive(Drop)]
pub struct Boxed<T> {
    inner: Box<T>,
}

impl<T> Model for Boxed<T> {
    ghost Value = { T };

    ghost view = { λ b. b.inner.value };
}

impl<T> Boxed<T> {
    /// Puts the value into memory of its own, if there is any.
    pub fn new(alloc: Global, value: T) -> Result<Boxed<T>, AllocFailed<T>>
        ensures ok { IfOk result (λ b. b ≡ value) }
        ensures value_returned { IfErr result (λ e. e.value ≡ value) }
    {
        match Box::new(alloc, value) {
            Ok(inner) => Ok(Boxed { inner }),
            Err(failed) => Err(failed),
        }
    }

    /// Takes the value out of its memory.
    pub fn into_inner(self) -> T
        ensures { result ≡ self }
    {
        let Boxed { inner } = self;
        Box::into_inner(inner)
    }
}

impl<T> Deref for Boxed<T> {
    ghost use Rattle.std.specs.Prelude.{◌≡◌};

    type Target = T;

    ghost deref_gives = { λ b x. x ≡ b };

    fn deref(&self) -> &T
        ensures { result.now ≡ self.now }
    {
        &self.inner
    }
}

impl<T> DerefMut for Boxed<T> {
    ghost use Rattle.std.specs.Prelude.{◌≡◌};
    ghost use Rattle.std.specs.Borrow.{Lends, sem};
    ghost use Rattle.sockets.specs.contracts.boxed.Boxed.{the_row};

    ghost deref_mut_gives = { λ b x. x ≡ b };

    fn deref_mut(&mut self) -> &mut T
        ensures* writes_back { sem 𝓛 (Lends (the_row T.row) T.row self.entry result (λ w. w)) }
        ensures value { result.now ≡ self.old }
    {
        &mut self.inner
    }
}

impl<T: Debug> Debug for Boxed<T> {
    fn fmt<W: fmt::Write>(&self, f: &mut Formatter<W>) -> fmt::Result {
        self.inner.fmt(f)
    }
}
