//! Where a range belongs among others.
ghost use Rattle.std.specs.Prelude.{◌≡◌, ◌≤◌, ◌↔◌, IsTrue, length, true, false};
ghost use Rattle.std.specs.List.Sorted.{IsPartitionPoint};
ghost use Rattle.std.specs.Option.{option_copied};
ghost use Rattle.std.specs.Ordering.{is_lt};
ghost use Rattle.hm_names.specs.Order.{bytes_cmp};
ghost use Rattle.hm_ranges.specs.Ranges.{FitsAmong, StandApart, is_apart_if};

use hm_names::{KeyRange, RowKey};

// How many of the ranges start before a key.
pub(crate) fn starting_before(ranges: &[KeyRange], key: &RowKey) -> usize
    requires { StandApart ranges.now }
    ensures limit { result ≤ length ranges.now }
    ensures point { IsPartitionPoint (λ own. is_lt (bytes_cmp own.start key.now) ≡ true) (λ own. is_lt (bytes_cmp own.start key.now) ≡ false) ranges.now result }
{
    ranges.partition_point(|own| own.start < *key)
}

// Whether a range overlaps no neighbour, if there is one.
fn is_apart(neighbour: Option<&KeyRange>, range: &KeyRange) -> bool
    ensures { result ≡ is_apart_if (option_copied neighbour.entry) range.now }
{
    match neighbour {
        Some(own) => !own.overlaps(range),
        None => true,
    }
}

// Whether a range has its start and overlaps none of others. The two that would stand beside it decide: the others have their starts
// and don't overlap, so those further down end no later than the lower one starts, and those further up start no earlier than the
// upper one.
pub(crate) fn fits_among(ranges: &[KeyRange], range: &KeyRange) -> bool
    requires { StandApart ranges.now }
    ensures { IsTrue result ↔ FitsAmong ranges.now range.now }
{
    if !range.holds(&range.start) {
        return false;
    }
    let at = starting_before(ranges, &range.start);
    let (lower, upper) = ranges.split_at(at);
    is_apart(lower.last(), range) && is_apart(upper.first(), range)
}
