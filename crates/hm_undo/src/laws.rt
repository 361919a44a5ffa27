//! What the stacks say of a journal: laws, as functions that do nothing.
ghost use Rattle.hm_undo.specs.Laws.{ForgottenLeave, OthersLeave, StepsLeave, StepsPush, UndosPop};

/// Where the stacks of some roots have what a journal has left to undo, they do so after each entry: a step that leaves an
/// undo is pushed, an undo pops, and nothing else changes them. A root that is forgotten is told of no more.
pub fn stacks_tell()
    ensures steps { StepsPush }
    ensures others { StepsLeave }
    ensures undos { UndosPop }
    ensures entries { OthersLeave }
    ensures forgotten { ForgottenLeave }
{}
