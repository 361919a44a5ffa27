//! The laws.
ghost use Rattle.hm_rolled.specs.Own.{EventsRecord, FrontsAreOwn, NeverTwiceOwn, OwnGoesOn, OwnIsAlike, RollsOwn, RollsToImage};
ghost use Rattle.hm_rolled.specs.Points.{OwnPointsHold};

/// The master's own journal is legal and reads as the history that it stands for, for each length that a stop may leave.
pub fn own_is_alike()
    ensures { OwnIsAlike }
{}

/// Each front of the history that a stop may leave, rebased as the master's own journal was, is that journal, with its tail,
/// without as many of its newest entries.
pub fn fronts_are_own()
    ensures { FrontsAreOwn }
{}

/// Each event but a roll and a stop records some entries or none, the same in the master's own journal, and a roll leaves the image
/// of the history. That is the image of the master's own journal, which may be replaced by it just where the history may.
pub fn own_goes_on()
    ensures record { EventsRecord }
    ensures own { OwnGoesOn }
    ensures rolls { RollsToImage }
    ensures image { RollsOwn }
{}

/// What holds for each region in terms of the master's own journal: of its calls as of those of a history, of older calls to open a
/// region that they were served, and of a region without a call that whoever holds it has it by the base. A region's place is
/// where it may be held, the storage fences whom the journal does, and what is held is live, where live regions of one table don't
/// overlap.
pub fn own_points_hold()
    ensures { OwnPointsHold }
{}

/// No region is held twice in terms of the master's own journal.
pub fn own_is_never_twice()
    ensures { NeverTwiceOwn }
{}
