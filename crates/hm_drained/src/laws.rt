//! The laws.
ghost use Rattle.hm_drained.specs.Drained.{DrainedAreEmpty, MovedAreElsewhere, NoneComes};

/// While picks avoid a server no region comes to be open there, or to be opened or closed.
pub fn none_comes()
    ensures { NoneComes }
{}

/// A region whose move was submitted since picks avoid a server, wasn't aborted and has ended, isn't at that server, whatever is
/// unfinished.
pub fn moved_are_elsewhere()
    ensures { MovedAreElsewhere }
{}

/// Where each region that was at a server was to be moved since picks avoid it, no such move was aborted and nothing is
/// unfinished, the server's load is 0.
pub fn drained_are_empty()
    ensures { DrainedAreEmpty }
{}
