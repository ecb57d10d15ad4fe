//! A value that only proofs read. It takes no memory, and making one does nothing at run time.
ghost use Rattle.std.specs.Prelude.{◌≡◌};
ghost use Rattle.std.specs.Borrow.{ftrue};

use std::marker::{Model, PhantomData};

/// A clause reads what was kept as `value`.
#[derive(Drop)]
pub(crate) struct Kept<T> {
    of: PhantomData<T>,
    pub ghost value: { T },
}

impl<T> Model for Kept<T> {
    ghost also_owns = { λ _. ftrue };
}

impl<T> Kept<T> {
    pub(crate) fn of(original: &T) -> Kept<T>
        ensures { result.value ≡ original.now }
    {
        Kept { of: PhantomData }
    }
}
