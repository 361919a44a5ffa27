//! The laws.
ghost use Rattle.hm_world_model.specs.Claimed.{ClaimedOnce, NeverClash};
ghost use Rattle.hm_world_model.specs.Fleets.{FitsAreStops, FitsTheFirst, ResumedIsKept, ResumedIsStopped};
ghost use Rattle.hm_world_model.specs.Findings.{FewCome};
ghost use Rattle.hm_world_model.specs.Held.{OpenedAreHeld};
ghost use Rattle.hm_world_model.specs.Kept.{EntriesKeep, EventsKeep, OpenedIsKept, OutsideKeeps};
ghost use Rattle.hm_world_model.specs.Layouts.{LayoutsTell};
ghost use Rattle.hm_world_model.specs.Measure.{CarryingGoesOn, CarryingIsPossible, CarryingStays};
ghost use Rattle.hm_world_model.specs.Pairs.{PairsKeep, PairsNeverTwice, TakenOver};
ghost use Rattle.hm_world_model.specs.Progress.{EarlierHaveEnded, OpenIsAnswered, ReportsAreHeard};
ghost use Rattle.hm_world_model.specs.Points.{HeldAreLive, PointsHold};
ghost use Rattle.hm_world_model.specs.Rest.{IdleIsEnded, StillIsEnded};
ghost use Rattle.hm_world_model.specs.Twice.{HeldByOne, KeptIsHeldByOne, KeptIsNeverTwice, NeverTwice};

/// What is kept of a world: a master that opens a journal has it, and each event keeps it.
pub fn worlds_are_kept()
    ensures opened { OpenedIsKept }
    ensures events { EventsKeep }
{}

/// What one journal and what is outside keep, for each length of a journal that a stop may leave: an allowed entry keeps it,
/// a report where it was ever made.
pub fn entries_keep()
    ensures { EntriesKeep }
{}

/// So does each event outside.
pub fn outside_keeps()
    ensures { OutsideKeeps }
{}

/// A region that is open at a server which runs is held there.
pub fn opened_are_held()
    ensures { OpenedAreHeld }
{}

/// Where the servers fit the journal no live regions overlap, what is open at a running server is held there, and what is held is
/// placed there, once, and live: of the findings only holes and regions of servers that died may come.
pub fn few_findings_come()
    ensures { FewCome }
{}

/// Where another master opened the log of one that was deposed, the deposed one sends calls again that are recorded, has calls
/// delivered and takes reports, which leaves what is kept; so whatever both do nothing is held twice.
pub fn pairs_keep()
    ensures opened { TakenOver }
    ensures kept { PairsKeep }
    ensures never { PairsNeverTwice }
{}

/// Double service never happens: after every list of events no region is held by two running servers that aren't fenced, nor
/// are two of one table whose ranges overlap, by two such servers or by one.
pub fn never_twice()
    ensures kept { KeptIsNeverTwice }
    ensures never { NeverTwice }
{}

/// One region is held by one such server at most, whatever is known of ranges.
pub fn held_by_one()
    ensures kept { KeptIsHeldByOne }
    ensures never { HeldByOne }
{}

/// A procedure is claimed once at a time, and no two that hold what they ask for conflict, those that were claimed too.
pub fn claims_are_apart()
    ensures once { ClaimedOnce }
    ensures locks { NeverClash }
{}

/// What holds for each region, for every length of the journal that a stop may leave.
pub fn points_hold()
    ensures points { PointsHold }
    ensures live { HeldAreLive }
{}

/// What lives on while a master is stopped fits the first entries of the journal that it lived with, from so many on as a stop
/// may have left, rebased as they were or by a roll that failed: just what stops leave. A master that goes on with it over such a
/// journal is the world after that stop, and the journal is its own.
pub fn fleets_fit()
    ensures fit { FitsTheFirst }
    ensures stops { FitsAreStops }
    ensures stopped { ResumedIsStopped }
    ensures kept { ResumedIsKept }
{}

/// An open call is answered when it is delivered, and what is answered to one is recorded. About a region only the last call
/// is open.
pub fn calls_are_answered()
    ensures earlier { EarlierHaveEnded }
    ensures answered { OpenIsAnswered }
    ensures heard { ReportsAreHeard }
{}

/// There is less to carry after each call that is delivered, each that is sent where it is to be sent, each report that is
/// recorded, and each of a settled call that is ignored. An entry adds no more than the call that it records, and a flush
/// nothing. While anything is left, some of it can be carried.
pub fn carrying_goes_on()
    ensures nearer { CarryingGoesOn }
    ensures stays { CarryingStays }
    ensures possible { CarryingIsPossible }
{}

/// Where a server is live, each call to a live one and to the storage is settled and no procedure can go on, none is unfinished:
/// locks never wait in a circle. So it is where each live server runs and nothing is left to carry.
pub fn rest_is_the_end()
    ensures still { StillIsEnded }
    ensures idle { IdleIsEnded }
{}

/// The layouts that the reports of a journal show are the same in the order of their calls' numbers as in the order in which
/// they came: a layout is swept only once each call to make it has ended.
pub fn layouts_tell()
    ensures { LayoutsTell }
{}
