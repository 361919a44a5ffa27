//! What the ranges of a table's live regions tell: laws, as functions that do nothing.
ghost use Rattle.hm_ranges.specs.Laws.{TellCover, TellFit};

/// Where ranges are those of the live regions of a table, no key is left out exactly if the table is covered, and a range fits among
/// them exactly if a base may have it for a live region of the table.
pub fn ranges_tell()
    ensures cover { TellCover }
    ensures fit { TellFit }
{}
