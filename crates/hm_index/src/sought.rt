//! What is looked for.
ghost use Rattle.std.specs.Prelude.{◌≡◌};

use hm_hints::Hinted;
use std::cmp::Ordering;

/// What stands for a key that is looked for: the key itself, or anything that keys can be compared with, so that no key has
/// to be made.
pub trait Sought<K: Hinted> {
    ghost stands_for: { Self → K };

    /// How a key compares with the one that this stands for.
    fn compared(&self, key: &K) -> Ordering
        ensures { result ≡ K.cmp key.now (stands_for self.now) };

    /// The hint of the key that this stands for.
    fn hint(&self) -> u64
        ensures { result ≡ K.hint_of (stands_for self.now) };
}

impl<K: Hinted> Sought<K> for K {
    ghost stands_for = { λ key. key };

    fn compared(&self, key: &K) -> Ordering {
        key.cmp(self)
    }

    fn hint(&self) -> u64 {
        self.own_hint()
    }
}
