//! Bytes that only proofs see.
ghost use Rattle.std.specs.Prelude.{◌≡◌, ℕ, List, [], ◌++◌};
ghost use Rattle.std.specs.Borrow.{ftrue};

use std::marker::{Model, PhantomData};

/// All bytes that went one way over a connection. It takes no memory, and its methods do nothing at run time. No memory holds the bytes: they
/// are those that its owner notes, and what an owner notes is to be read in its body.
#[derive(Drop)]
pub struct Passed {
    marker: PhantomData<u8>,
    /// The bytes.
    pub ghost bytes: { List ℕ },
}

impl Model for Passed {
    ghost also_owns = { λ _. ftrue };
}

// It owns nothing.
unsafe impl Send for Passed {}

impl Passed {
    /// None yet.
    pub(crate) fn new() -> Passed
        ensures { result.bytes ≡ [] }
    {
        Passed {
            marker: PhantomData,
        }
    }

    /// These passed, after all others.
    pub(crate) fn note(&mut self, _bytes: &[u8])
        ensures { self.new.bytes ≡ self.old.bytes ++ _bytes.now }
    {}
}
