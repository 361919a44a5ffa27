ghost use Rattle.std.specs.Prelude.{◌≡◌, ◌≢◌, ◌||◌, ◌&&◌, ℕ, List, [], false, IfOk, IsTrue};

use crate::copied::Copied;
use crate::row_key::RowKey;
use crate::same::Same;
use std::alloc::{AllocError, Global};

/// The rows from a start key, included, to an end key, excluded. An empty end is the open end.
#[derive(Debug, Drop, PartialEq, Eq)]
pub struct KeyRange {
    pub start: RowKey,
    pub end: RowKey,
}

impl KeyRange {
    ghost use Rattle.hm_names.specs.Ranges.{ends_behind as behind, holds, inner, overlaps, lower_part, upper_part, joined};

    fn ends_behind(&self, key: &RowKey) -> bool
        ensures { result ≡ behind self.now key.now }
    {
        self.end.as_bytes().is_empty() || *key < self.end
    }

    /// Whether the range has the key.
    pub fn holds(&self, key: &RowKey) -> bool
        ensures { result ≡ holds self.now key.now }
    {
        self.start <= *key && self.ends_behind(key)
    }

    /// Whether each range's end lies after the other's start. Ranges that only touch don't overlap.
    pub fn overlaps(&self, other: &KeyRange) -> bool
        ensures ends { result ≡ overlaps self.now other.now }
        ensures shared { (key : List ℕ)
            → IsTrue (holds self.now key) → IsTrue (holds other.now key) → IsTrue result }
    {
        self.ends_behind(&other.start) && other.ends_behind(&self.start)
    }

    /// Whether the range has the key and doesn't begin with it, so that it can be cut there.
    pub fn inner(&self, key: &RowKey) -> bool
        ensures { result ≡ inner self.now key.now }
    {
        self.holds(key) && self.start != *key
    }

    /// The parts of the range below the key and from the key on.
    pub fn cut_at(self, alloc: Global, key: &RowKey) -> Result<(KeyRange, KeyRange), AllocError>
        requires { IsTrue (inner self key.now) }
        ensures parts { IfOk result (λ p. (p.0 ≡ lower_part self key.now) × (p.1 ≡ upper_part self key.now)) }
        ensures whole { IfOk result (λ p. joined p.0 p.1 ≡ self) }
        ensures held { IfOk result (λ p. (k : List ℕ) → holds self k ≡ holds p.0 k || holds p.1 k) }
        ensures apart { IfOk result (λ p. (k : List ℕ) → (holds p.0 k && holds p.1 k) ≡ false) }
        ensures starts { IfOk result (λ p. IsTrue (holds p.0 p.0.start) × IsTrue (holds p.1 p.1.start)) }
        ensures next { IfOk result (λ p. (p.0.end ≢ []) × (p.0.end ≡ p.1.start)) }
    {
        let before = key.copy(alloc)?;
        let behind = key.copy(alloc)?;
        let KeyRange { start, end } = self;
        let lower = KeyRange { start, end: before };
        let upper = KeyRange { start: behind, end };
        Ok((lower, upper))
    }

    /// The range from the start of this one to the end of the next.
    pub fn join(self, other: KeyRange) -> KeyRange
        requires closed { self.end ≢ [] }
        requires next { self.end ≡ other.start }
        ensures whole { result ≡ joined self other }
        ensures parts { (lower_part result self.end ≡ self) × (upper_part result self.end ≡ other) }
        ensures held { IsTrue (inner result self.end)
            → (k : List ℕ) → holds result k ≡ holds self k || holds other k }
    {
        let KeyRange { start, end: _ } = self;
        let KeyRange { start: _, end } = other;
        KeyRange { start, end }
    }
}

impl Copied for KeyRange {
    fn copy(&self, alloc: Global) -> Result<KeyRange, AllocError> {
        Ok(KeyRange {
            start: self.start.copy(alloc)?,
            end: self.end.copy(alloc)?,
        })
    }
}

impl Same for KeyRange {
    fn same(&self, other: &KeyRange) -> bool {
        self == other
    }
}
