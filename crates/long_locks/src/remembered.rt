//! A value that only proofs read.
ghost use Rattle.std.specs.Prelude.{◌≡◌};
ghost use Rattle.std.specs.Borrow.{ftrue};

use std::marker::{Model, PhantomData};

/// A value as it was at some moment. It takes no bytes, and a clause reads it as `value`. A
/// `Snapshot` of std would not do: it can't be copied.
#[derive(Drop)]
pub(crate) struct Remembered<T> {
    marker: PhantomData<T>,
    pub ghost value: { T },
}

impl<T> Model for Remembered<T> {
    ghost also_owns = { λ _. ftrue };
}

impl<T> Remembered<T> {
    /// The value as it is now.
    pub(crate) fn of(x: &T) -> Remembered<T>
        ensures { result.value ≡ x.now }
    {
        let _ = x;
        Remembered {
            marker: PhantomData,
        }
    }

    /// A copy.
    pub(crate) fn again(&self) -> Remembered<T>
        ensures { result.value ≡ self.now.value }
    {
        Remembered {
            marker: PhantomData,
        }
    }
}
