//! What has a range.
ghost use Rattle.std.specs.Prelude.{◌≡◌};
ghost use Rattle.hm_names.specs.declared.range.KeyRange.{KeyRange as Range};

use hm_names::KeyRange;

/// A range, or a reference to one.
pub trait Ranged {
    ghost range_of: { Self → Range };

    /// The range.
    fn key_range(&self) -> &KeyRange
        ensures { result.now ≡ range_of self.now };
}

impl Ranged for KeyRange {
    ghost range_of = { λ range. range };

    fn key_range(&self) -> &KeyRange {
        self
    }
}

impl Ranged for &KeyRange {
    ghost range_of = { λ range. range.now };

    fn key_range(&self) -> &KeyRange {
        self
    }
}
