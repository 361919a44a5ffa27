//! The laws over bounds: what they say of whoever may go on is read with the groups and the timers that hold some back.
ghost use Rattle.hm_tied.specs.Ables.{AblesStay};
ghost use Rattle.hm_tied.specs.AblesIn.{ClaimedStayAble};
ghost use Rattle.hm_tied.specs.CallsIn.{ClaimTies, EndOwes, GiveBackTies, GiveUpOwes, JoinOwes, KeepOnOwes, LateIsTold, NextOwes, OverIsLess, OwedIsLess, ReadyAreAvailable, SlackIsLess, WakeAllOwes, WakeHeldOwes, WakeOwes};
ghost use Rattle.hm_tied.specs.Clock.{ClocksGoOn, DuesStay, FailuresSet};
ghost use Rattle.hm_tied.specs.EntriesIn.{AbortTies, AdoptTies, DownOwes, ReportOwes, StepOwes, SubmitOwes, UndoOwes, UpOwes};
ghost use Rattle.hm_tied.specs.PaidIn.{FencePays, OnePays, OwedIsTold, ReportPays};
ghost use Rattle.hm_tied.specs.Unbound.{AvailableIsLess, FreeIsAvailable, FreeReadyAreAvailable, PickedAreAtRest, TiedIsBound};
ghost use Rattle.hm_tied.specs.Unread.{UnreadStay};
ghost use Rattle.hm_tied.specs.Uses.{EnlistingEnds, EnlistingGoesOn};
ghost use Rattle.hm_tied.specs.UsesIn.{AncestorsAreTold, BoundsOwe, DebtsMayRise, EnlistingBegins, FreeTies, KnownAreMade, NoneClashTies, NumbersTie, OpeningOwes, ReadyAreEnlisted, RoomTies, TimersOwe};

/// Whoever is available is ready, where nothing is left to do.
pub fn available_are_ready()
    ensures { ReadyAreAvailable }
{}

/// Whom `next` gives is owed.
pub fn nexts_owe()
    ensures { NextOwes }
{}

/// Who was given and can go on may be claimed.
pub fn claims_tie()
    ensures { ClaimTies }
{}

/// Who was given and isn't claimed holds again what it held before.
pub fn giving_back_ties()
    ensures { GiveBackTies }
{}

/// Whose claim ends without a commit is owed: without a step it gives its locks back and wakes those who waited for them, with
/// one it keeps them.
pub fn keeping_on_owes()
    ensures up { GiveUpOwes }
    ensures on { KeepOnOwes }
{}

/// Who becomes ready, is suspended or set aside is owed no longer.
pub fn joins_owe()
    ensures { JoinOwes }
{}

/// Who needs no call isn't owed.
pub fn less_is_owed()
    ensures owed { OwedIsLess }
    ensures slack { SlackIsLess }
    ensures over { OverIsLess }
{}

/// What the wake-ups pay of what is owed.
pub fn wakes_owe()
    ensures one { WakeOwes }
    ensures all { WakeAllOwes }
    ensures held { WakeHeldOwes }
    ensures late { LateIsTold }
{}

/// Who has ended leaves its list and the book, and those who waited for it are woken.
pub fn ends_owe()
    ensures { EndOwes }
{}

/// After a step its children, its procedure, the parent and the root are looked at, and those set aside that
/// read a row that it edits.
pub fn steps_owe()
    ensures { StepOwes }
{}

/// After an undo its followers and the root are looked at, and those set aside that read a row that it edits.
pub fn undos_owe()
    ensures { UndoOwes }
{}

/// A root that was made is to become ready; after a server that went down those that wait for one are looked at.
pub fn roots_owe()
    ensures submit { SubmitOwes }
    ensures down { DownOwes }
{}

/// After a report the one that called is woken, and those whose calls went to a server that the report fences.
pub fn reports_owe()
    ensures { ReportOwes }
{}

/// After a server that came those that wait for one are looked at.
pub fn servers_owe()
    ensures { UpOwes }
{}

/// After an abort nothing is left to do: whoever is aborted is before the point, where no server is needed.
pub fn aborts_tie()
    ensures { AbortTies }
{}

/// Nor after new sheets: whoever was made runs by the sheets of its root.
pub fn adopts_tie()
    ensures { AdoptTies }
{}

/// What a tied lock book tells of the journal.
pub fn books_tell()
    ensures none { NoneClashTies }
    ensures free { FreeTies }
    ensures ready { ReadyAreEnlisted }
    ensures made { KnownAreMade }
    ensures above { AncestorsAreTold }
{}

/// Room for more procedures, and numbers for more servers, change nothing.
pub fn room_ties()
    ensures lists { RoomTies }
    ensures numbers { NumbersTie }
{}

/// More may be said to be left to do than is; so where the tests name nobody any more, nothing is left.
pub fn debts_rise()
    ensures { DebtsMayRise }
{}

/// Where groups or timers change, those are owed whose timers aren't set any more, and those set aside are looked at; where timers alone
/// change, those set aside stay so.
pub fn bounds_owe()
    ensures any { BoundsOwe }
    ensures timers { TimersOwe }
{}

/// After an opening everybody is owed.
pub fn openings_owe()
    ensures { OpeningOwes }
{}

/// What an entry makes is enlisted one after another, before the entry.
pub fn enlisting_ties()
    ensures begins { EnlistingBegins }
    ensures goes_on { EnlistingGoesOn }
    ensures ends { EnlistingEnds }
{}

/// Where nothing is left to do: of the owed those alone are that are busy and stand nowhere; after one call for one that was
/// owed; and after the wake-ups of a report.
pub fn debts_are_paid()
    ensures told { OwedIsTold }
    ensures one { OnePays }
    ensures report { ReportPays }
    ensures fence { FencePays }
{}

/// By no entry but its own step, or what undoes a step of its tree where it is the root, does who can go on cease to. So where
/// all that are claimed can go on, all but the one that an entry is by can after it.
pub fn ables_stay()
    ensures all { AblesStay }
    ensures claimed { ClaimedStayAble }
{}

/// Whoever is available in bounds is available; where nothing is bounded it is the same.
pub fn bounds_hold_back()
    ensures less { AvailableIsLess }
    ensures free { FreeIsAvailable }
    ensures rest { PickedAreAtRest }
{}

/// What is tied without bounds is tied in any; and where nothing is bounded whoever is available is ready.
pub fn unbound_ties()
    ensures tied { TiedIsBound }
    ensures ready { FreeReadyAreAvailable }
{}

/// Whose timer is set is told by the events of a clock and the journal: a procedure's due stays but by a failure of its own, by which it is
/// due as the newest event says.
pub fn clocks_tell()
    ensures stay { DuesStay }
    ensures goes_on { ClocksGoOn }
    ensures set { FailuresSet }
{}

/// By edits of other rows what a procedure reads stays.
pub fn unread_stay()
    ensures { UnreadStay }
{}
