//! The ranges of the live regions of the table whose regions are being read.
ghost use Rattle.std.specs.Prelude.{◌≡◌, ◌↔◌, [], if◌then◌else◌, IsTrue, OnOk};
ghost use Rattle.hm_ranges.specs.Ranges.{FitsAmong, TakesIn};
ghost use Rattle.hm_base.specs.Live.{FitsLive, PartAmong, TakesLive, TakesPart, are_siblings as siblings};

use hm_data::{Part, Status};
use hm_names::{Copied, KeyRange};
use hm_ranges::Ranges;
use std::alloc::{AllocError, Global};

// Whether two parts are of regions of one table.
fn are_siblings(one: &Part, part: &Part) -> bool
    ensures { result ≡ siblings one.now part.now }
{
    match (one, part) {
        (Part::Region { region: one, .. }, Part::Region { region, .. }) => {
            one.table == region.table
        }
        _ => false,
    }
}

// Forgets the ranges where the part isn't of a region of the table that the one before it is of.
pub(crate) fn turn_to(ranges: &mut Ranges, one: &Part, part: &Part)
    ensures { ranges.new.ranges ≡ (if siblings one.now part.now then ranges.old.ranges else []) }
{
    if !are_siblings(one, part) {
        ranges.clear();
    }
}

// Whether a range, if it is that of a live region, has its start and overlaps none of the others.
pub(crate) fn fits_live(ranges: &Ranges, range: &KeyRange, status: Status) -> bool
    ensures { IsTrue result ↔ FitsLive ranges.now.ranges range.now status }
{
    status != Status::Live || ranges.fits(range)
}

fn add_range(alloc: Global, ranges: &mut Ranges, range: &KeyRange) -> Result<(), AllocError>
    requires { FitsAmong ranges.old.ranges range.now }
    ensures { OnOk result (TakesIn range.now ranges.old.ranges ranges.new.ranges) }
{
    let range = range.copy(alloc)?;
    ranges.reserve(alloc, 1)?;
    ranges.add(range);
    Ok(())
}

// Adds a range, if it is that of a live region.
fn add_live(
    alloc: Global,
    ranges: &mut Ranges,
    range: &KeyRange,
    status: Status,
) -> Result<(), AllocError>
    requires { FitsLive ranges.old.ranges range.now status }
    ensures { OnOk result (TakesLive range.now status ranges.old.ranges ranges.new.ranges) }
{
    match status {
        Status::Live => add_range(alloc, ranges, range),
        Status::Split | Status::Merged => Ok(()),
    }
}

// Adds the range of a part, if it is of a live region.
pub(crate) fn add_part(alloc: Global, ranges: &mut Ranges, part: &Part) -> Result<(), AllocError>
    requires { PartAmong ranges.old.ranges part.now }
    ensures { OnOk result (TakesPart part.now ranges.old.ranges ranges.new.ranges) }
{
    match part {
        Part::Region {
            region: _,
            range,
            status,
            parents: _,
            place: _,
        } => add_live(alloc, ranges, range, *status),
        _ => Ok(()),
    }
}
