//! Numbers that stand for keys where they are compared: of two keys, that with the lesser number is the lesser.
#![tactic(auto)]

ghost use Rattle.std.specs.Prelude.{◌≡◌, ℕ, ◌<◌};
ghost use Rattle.std.specs.declared.cmp.Ordering.TheVariants.{Less};
ghost use Rattle.std.proofs.Common.{rules};

/// Keys with hints. A search compares hints first, and looks at a key only where they are equal. Hints that are all equal are
/// right, and no help.
pub trait Hinted: Ord {
    // The hint of each key.
    ghost hint_of: { Self → ℕ };

    /// The hint of a key.
    fn own_hint(&self) -> u64
        ensures { result ≡ hint_of self.now };

    // A key with a lesser hint is a lesser key.
    ghost rises: { (a b : Self) → hint_of a < hint_of b → Self.cmp a b ≡ Less };
}

impl Hinted for u64 {
    ghost hint_of = { λ number. number };

    ghost rises = { Prim.search rules };

    fn own_hint(&self) -> u64 {
        *self
    }
}
