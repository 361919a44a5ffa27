//! Who has ended: a law, as a function that does nothing.
ghost use Rattle.hm_records.specs.Laws.{EndedStay};

/// A procedure that has ended stays so.
pub fn ended_stay()
    ensures { EndedStay }
{}
