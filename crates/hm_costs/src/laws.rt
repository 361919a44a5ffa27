//! The laws.
ghost use Rattle.hm_costs.specs.Met.{CostsAreMet};
ghost use Rattle.hm_costs.specs.Theorem.{CostBound, CrashesEmpty, EachTreeGoesOn};

/// A root that hasn't ended has a procedure in its tree that is runnable or awaits an answer, or its latest step that has an
/// undo is to be undone.
pub fn each_tree_goes_on()
    ensures { EachTreeGoesOn }
{}

/// A tree that nothing disturbs has at most the entries that its root costs.
pub fn cost_bound()
    ensures { CostBound }
{}

/// After the crash of a server has ended, no region is open there, or being opened or closed.
pub fn crashes_empty()
    ensures { CrashesEmpty }
{}

/// Each kind of root costs just what a root of the kind takes in some legal journal: requests of each kind, with one region in
/// a table, which is the one that is split, and two and three that are merged, a crash of one region, and the transit and the
/// sweep that an undo makes; and where regions are counted one by one, with two of them.
pub fn costs_are_met()
    ensures { CostsAreMet }
{}
