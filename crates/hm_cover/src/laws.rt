//! The laws.
ghost use Rattle.hm_cover.specs.Merges.{MergesKeepRanges};
ghost use Rattle.hm_cover.specs.Theorem.{DeedsKeepRanges, LiveRangesHaveKeys, LiveRegionsCover, LiveRegionsNeverOverlap, MissingTablesAreBare};

/// In the catalog of the deeds the live regions of a table never overlap and cover every key, and a table that isn't there
/// has no region's row.
pub fn deeds_keep_ranges()
    ensures { DeedsKeepRanges }
{}

/// Where no unfinished procedure asks for a table alone, the live regions of a table that is there cover every key.
pub fn live_regions_cover()
    ensures { LiveRegionsCover }
{}

/// Where none does, a table that isn't there has no region's row.
pub fn missing_tables_are_bare()
    ensures { MissingTablesAreBare }
{}

/// Live regions of one table never overlap, also while the table is made, split, merged, changed or deleted, and while
/// what was done is undone.
pub fn live_regions_never_overlap()
    ensures { LiveRegionsNeverOverlap }
{}

/// The range of each live region has a key, at any moment and in the catalog of the deeds: no live region is empty.
pub fn live_ranges_have_keys()
    ensures { LiveRangesHaveKeys }
{}

/// A merge of any number of adjacent live regions, not of two alone as requests may ask so far, keeps their table's ranges:
/// live regions have keys, don't overlap and cover every key.
pub fn merges_keep_ranges()
    ensures { MergesKeepRanges }
{}
