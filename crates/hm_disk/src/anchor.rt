//! A disk as it was once. It is there for proofs alone, and takes no memory.
ghost use Rattle.std.specs.Prelude.{◌≡◌};
ghost use Rattle.std.specs.Borrow.{ftrue};

use std::marker::{Model, PhantomData};

/// A clause reads the disk as it was as `disk`.
#[derive(Drop)]
pub struct Anchor<D> {
    of: PhantomData<D>,
    pub ghost disk: { D } by { D.code },
}

impl<D> Model for Anchor<D> {
    ghost also_owns = { λ _. ftrue };
}

// It owns nothing.
unsafe impl<D: Send> Send for Anchor<D> {}

impl<D> Anchor<D> {
    /// Of this disk, as it is now.
    pub fn at(_disk: &D) -> Anchor<D>
        ensures { result.disk ≡ _disk.now }
    {
        Anchor { of: PhantomData }
    }
}
