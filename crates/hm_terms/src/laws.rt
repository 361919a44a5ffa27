//! The laws.
ghost use Rattle.hm_terms.specs.Theorem.{CommandsBring, CommandsStayWithin, DownsBring, DownsStayWithin, NewHasTravelled, NewIsWithin, RefusalsAreGranted, RepeatsCallAndReport, RepeatsTwiceTheReports, WithinIsFew};

/// Where a journal was just opened nobody is to refuse anything. Each command and each server that is held to be dead keeps to what
/// was granted, and so no more refusals are reported.
pub fn refusals_stay_within()
    ensures new { NewIsWithin }
    ensures commands { CommandsStayWithin }
    ensures downs { DownsStayWithin }
    ensures few { WithinIsFew }
{}

/// Of each server, and of the storage, a run reports no more refusals than its commands granted, whatever was lost or repeated, and
/// whoever died in between.
pub fn refusals_are_granted()
    ensures { RefusalsAreGranted }
{}

/// Where a journal was just opened all its reports are old ones. After each command, and each server that is held to be dead, the
/// others are of calls that were sent and of reports that were made, and `repeat` counts both.
pub fn reports_have_travelled()
    ensures new { NewHasTravelled }
    ensures commands { CommandsBring }
    ensures downs { DownsBring }
    ensures twice { RepeatsCallAndReport }
{}

/// What `repeat` counts is at least twice the reports that a run has recorded.
pub fn repeats_count_twice_the_reports()
    ensures { RepeatsTwiceTheReports }
{}
