//! The laws.
ghost use Rattle.hm_single.specs.Picking.{PicksAreRight, PicksAreThere};
ghost use Rattle.hm_single.specs.Theorem.{LastIsRecorded, OneTransit, PlaceByRow, CallsFind, OpeningsAreSingle, OpenedAreTold, UnplacedAreFree, PlacedWhereLive, HeldPlacesStay, UnassignedAreUnplaced, ClosedAreUnplaced, PlacedLive, PlacedWhereOn, SingleOverRanges};

/// The last call about a region is recorded.
pub fn last_calls_are_recorded()
    ensures { LastIsRecorded }
{}

/// A region has one transit at a time, and its place is Opening and Closing exactly at that one's rows.
pub fn one_transit()
    ensures alone { OneTransit }
    ensures place { PlaceByRow }
{}

/// An opening finds the region's last call void and each earlier opening of it over; a close finds it opened.
pub fn openings_are_single()
    ensures find { CallsFind }
    ensures single { OpeningsAreSingle }
{}

/// A region that is open at a server was opened there by its last call. One that is neither open nor being opened or
/// closed is held by no call.
pub fn places_are_told()
    ensures opened { OpenedAreTold }
    ensures unplaced { UnplacedAreFree }
{}

/// A region gets a server only while it is live, and its table is enabled or being enabled.
pub fn live_regions_are_placed()
    ensures { PlacedWhereLive }
{}

/// While a root that hasn't ended asks for a region alone, as a split, a merge and a table's disabling do, only its tree
/// changes the region's place; and the region is neither open nor being opened or closed once an Unassign of it under the root
/// has ended, where the tree moves it by Unassigns alone. So it is under a disabling, a split and a merge.
pub fn unassigned_are_unplaced()
    ensures held { HeldPlacesStay }
    ensures unplaced { UnassignedAreUnplaced }
    ensures closed { ClosedAreUnplaced }
{}

/// A region that is open, or being opened or closed, is live, and its table is there and isn't disabled.
pub fn placed_are_live()
    ensures live { PlacedLive }
    ensures on { PlacedWhereOn }
{}

/// Single assignment over overlapping ranges: an opening finds over each earlier one of its region, and of each region of its
/// table whose last range overlaps its own, live or not.
pub fn openings_over_ranges_are_single()
    ensures { SingleOverRanges }
{}

/// Where a step needs a server to be picked and any is live, one fits: a transit that wants a live server never finds that
/// its region failed to open there before it tried. So each procedure that may make a step has a pick that is right for it.
pub fn picks_are_there()
    ensures there { PicksAreThere }
    ensures right { PicksAreRight }
{}
