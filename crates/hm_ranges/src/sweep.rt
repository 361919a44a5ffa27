//! The least key that ranges leave out.
ghost use Rattle.std.specs.Prelude.{◌≡◌, ◌==◌, if◌then◌else◌, length, map};
ghost use Rattle.std.specs.Option.{option_copied};
ghost use Rattle.std.specs.Ordering.{is_lt};
ghost use Rattle.hm_names.specs.Order.{bytes_cmp};
ghost use Rattle.hm_ranges.specs.Holes.{IsLeast, StartsRise};

use crate::ranged::Ranged;
use hm_names::KeyRange;

// Whether a range starts after a key.
fn starts_after(range: &KeyRange, key: &[u8]) -> bool
    ensures { result ≡ is_lt (bytes_cmp key.now range.now.start) }
{
    key.cmp(range.start.as_bytes()).is_lt()
}

// Whether a range has no end.
fn is_open(range: &KeyRange) -> bool
    ensures { result ≡ (length range.now.end == 0) }
{
    range.end.as_bytes().is_empty()
}

// The greater of a key and where a range ends.
fn further<'a>(range: &'a KeyRange, key: &'a [u8]) -> &'a [u8]
    ensures { result.now ≡ (if is_lt (bytes_cmp key.now range.now.end) then range.now.end else key.now) }
{
    let end = range.end.as_bytes();
    if key.cmp(end).is_lt() { end } else { key }
}

/// The least key that none of the ranges has, which stand in the order in which they start: one sweep.
pub fn least_left_out<'a, T: Ranged>(ranges: &'a [T]) -> Option<&'a [u8]>
    requires { StartsRise (map T.range_of ranges.now) }
    ensures { IsLeast (map T.range_of ranges.now) (option_copied result) }
{
    let mut least = b"".as_slice();
    for ranged in ranges {
        let range = ranged.key_range();
        if starts_after(range, least) {
            return Some(least);
        }
        if is_open(range) {
            return None;
        }
        least = further(range, least);
    }
    Some(least)
}
