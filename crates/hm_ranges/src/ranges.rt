//! The ranges of a table's live regions, in the order of their starts.
ghost use Rattle.std.specs.Prelude.{◌≡◌, ◌+◌, ◌≤◌, ◌↔◌, [], IfOk, OnOk, IsTrue, length};
ghost use Rattle.std.specs.Option.{option_copied};
ghost use Rattle.hm_ranges.specs.Holes.{IsLeast};
ghost use Rattle.hm_ranges.specs.Ranges.{FitsAmong, TakesIn, placed};

use crate::spot::{fits_among, starting_before};
use crate::sweep::least_left_out;
use hm_index::put_at;
use hm_names::KeyRange;
use std::alloc::{AllocError, Global};
use std::marker::Model;

/// The ranges of the live regions of one table, each of which has its start and overlaps no other. Contracts see them in the order of
/// their starts, for how many more there is room, and how much memory there is.
#[derive(Drop)]
pub struct Ranges {
    // In the order of their starts.
    ranges: Vec<KeyRange>,
}

impl Model for Ranges {
    ghost use Rattle.std.specs.Prelude.{◌-◌, vec_len, vec_capacity};
    ghost use Rattle.hm_ranges.specs.Ranges.{RangesView, StandApart};

    ghost Value = { RangesView };

    ghost view = { λ s. record { ranges = s.ranges.items; spare = vec_capacity s.ranges - vec_len s.ranges; room = vec_capacity s.ranges } };

    ghost invariant = { λ s. StandApart s.ranges.items };
}

impl Ranges {
    /// No range.
    pub fn new(alloc: Global) -> Result<Ranges, AllocError>
        ensures { IfOk result (λ ranges. ranges.ranges ≡ []) }
    {
        Ok(Ranges {
            ranges: Vec::new(alloc),
        })
    }

    /// Makes room for so many ranges more.
    pub fn reserve(&mut self, _alloc: Global, count: usize) -> Result<(), AllocError>
        ensures ranges { self.new.ranges ≡ self.old.ranges }
        ensures room { OnOk result (count ≤ self.new.spare) }
        ensures kept { self.old.spare ≤ self.new.spare }
    {
        self.ranges.reserve(count)
    }

    /// Whether a range has its start and overlaps none of these: a search of them.
    pub fn fits(&self, range: &KeyRange) -> bool
        ensures { IsTrue result ↔ FitsAmong self.now.ranges range.now }
    {
        fits_among(&self.ranges, range)
    }

    /// Adds a range that fits, in the room that was made for it. Those that start after it move.
    pub fn add(&mut self, range: KeyRange)
        requires room { 1 ≤ self.old.spare }
        requires fits { FitsAmong self.old.ranges range }
        ensures ranges { self.new.ranges ≡ placed self.old.ranges range }
        ensures among { TakesIn range self.old.ranges self.new.ranges }
        ensures spare { self.old.spare ≤ self.new.spare + 1 }
        ensures room { self.new.room ≡ self.old.room }
    {
        let at = starting_before(&self.ranges, &range.start);
        put_at(&mut self.ranges, at, range);
    }

    /// The least key that none of the ranges has: one sweep.
    pub fn least_left_out(&self) -> Option<&[u8]>
        ensures { IsLeast self.now.ranges (option_copied result) }
    {
        least_left_out(&self.ranges)
    }

    /// Takes all ranges out. The room stays.
    pub fn clear(&mut self)
        ensures ranges { self.new.ranges ≡ [] }
        ensures spare { self.new.spare ≡ self.old.spare + length self.old.ranges }
        ensures room { self.new.room ≡ self.old.room }
    {
        self.ranges.truncate(0);
    }
}
