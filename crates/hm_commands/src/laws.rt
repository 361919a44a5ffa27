//! The laws.
ghost use Rattle.hm_commands.specs.Additions.{CommandsAddTheirOwn};

/// Each command, answered or not, adds to the journal entries of its own alone: a submission its Submit, `abort` its Abort, `step`
/// Steps, Undos and Reports, and so on. So is the one that a failed append may have left after the journal.
pub fn commands_add_their_own()
    ensures { CommandsAddTheirOwn }
{}
