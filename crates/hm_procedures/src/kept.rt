//! What is kept of a procedure.
ghost use Rattle.std.specs.Prelude.{◌≡◌, ◌+◌, ◌-◌, ◌<◌, ◌≤◌, ◌^◌, ◌==◌, Bool, true, false, Some, if◌then◌else◌, length, slice_get};
ghost use Rattle.std.specs.Option.{option_copied, option_or};
ghost use Rattle.hm_model.specs.Answers.{done_with as told_by, failing as failure_of, is_stop as stops, is_stopped as has_stopped, row_after as row_behind};
ghost use Rattle.hm_model.specs.Kinds.{first_row_of as row_at_first};
ghost use Rattle.hm_model.specs.Phase.{own_phase as own_phase_of, phase_table};
ghost use Rattle.hm_model.specs.Places.{has_failed as has_failed_at, one_more};
ghost use Rattle.hm_procedures.specs.Changes.{first_made, fresh, has_ended as its_end, is_undoing, phase_by, shown_if, stepped};
ghost use Rattle.hm_procedures.specs.declared.kept.Tracked.{Tracked as TrackedOf};

use crate::kinds::{first_row_of, kind_of};
use hm_data::{Answer, Args, Cause, Phase, Place, Record, RegionState, StepOut, Told};
use hm_names::Pid;

// A procedure as it is shown, and what its phase and its steps need.
#[derive(Drop)]
pub(crate) struct Tracked {
    pub(crate) shown: Record,
    // What its last step answered.
    pub(crate) last: Option<Answer>,
    pub(crate) report: Option<Told>,
    pub(crate) has_called: bool,
    // The first failure in its tree, of a root.
    pub(crate) cause: Option<Cause>,
    // How many of its children haven't ended.
    pub(crate) open_children: u64,
    // How many of its descendants haven't ended, of a root.
    pub(crate) open_under: u64,
    // How many procedures had been made before its last step, and how many that made.
    pub(crate) made_at_step: u64,
    pub(crate) made_in_step: u64,
    // The first child that it made.
    pub(crate) first_child: Option<Pid>,
}

// Whether an answer ends a procedure.
pub(crate) fn is_stop(answer: &Answer) -> bool
    ensures { result ≡ stops answer.now }
{
    match answer {
        Answer::More(_) | Answer::Wait(_) | Answer::Await(_) => false,
        Answer::Done(_) | Answer::Fail(_) | Answer::Undone => true,
    }
}

// Whether the last step ended its procedure.
fn is_stopped(last: &Option<Answer>) -> bool
    ensures { result ≡ has_stopped last.now }
{
    match last {
        Some(answer) => is_stop(answer),
        None => false,
    }
}

// What a procedure ended with, where it ended well.
pub(crate) fn done_with(last: &Option<Answer>) -> Option<Told>
    ensures { result ≡ told_by last.now }
{
    match last {
        Some(Answer::Done(told)) => Some(*told),
        _ => None,
    }
}

// Why an answer is a failure.
pub(crate) fn failing(answer: &Answer) -> Option<Cause>
    ensures { result ≡ failure_of answer.now }
{
    match answer {
        Answer::Fail(cause) => Some(*cause),
        _ => None,
    }
}

// The row that follows an answer.
fn row_after(args: &Args, answer: &Answer) -> u8
    ensures { result ≡ row_behind (row_at_first args.now) (Some answer.now) }
{
    match answer {
        Answer::More(next) | Answer::Wait(next) | Answer::Await(next) => *next,
        Answer::Done(_) | Answer::Fail(_) | Answer::Undone => 255,
    }
}

// What the last step decides of the phase, where the children have ended or not.
fn own_phase(last: &Option<Answer>, children_ended: bool) -> Phase
    ensures { result ≡ own_phase_of last.now children_ended }
{
    let Some(answer) = last else {
        return Phase::Runnable;
    };
    match answer {
        Answer::More(_) => Phase::Runnable,
        Answer::Wait(_) if children_ended => Phase::Runnable,
        Answer::Wait(_) => Phase::Waiting,
        Answer::Await(_) => Phase::Awaiting,
        Answer::Done(_) | Answer::Undone => Phase::Success,
        Answer::Fail(cause) => Phase::Failed(*cause),
    }
}

// The phase, by the cause of the root, whether the root is rolled back, whether it is the root, and its own last step.
fn phase_of(cause: Option<Cause>, rolled_back: bool, top: bool, own: Phase) -> Phase
    ensures { result ≡ phase_table cause rolled_back top own }
{
    match cause {
        Some(cause) if rolled_back => Phase::RolledBack(cause),
        Some(cause) if top => Phase::Failed(cause),
        _ => own,
    }
}

// Whether a step left its region unopened.
fn has_failed(place: &Option<Place>) -> bool
    ensures { result ≡ has_failed_at place.now }
{
    match place {
        Some(place) => matches!(place.state, RegionState::FailedOpen),
        None => false,
    }
}

// How often a region failed to open, by this step too.
fn tries_after(tries: u32, place: &Option<Place>) -> u32
    ensures { result ≡ (if has_failed_at place.now then one_more tries else tries) }
{
    if has_failed(place) && tries < u32::MAX {
        tries + 1
    } else {
        tries
    }
}

// What is kept at a place.
pub(crate) fn kept_at(kept: &[Tracked], place: u64) -> Option<&Tracked>
    ensures { option_copied result ≡ slice_get kept.now place }
{
    kept.get(place as usize)
}

// The first child of a procedure.
pub(crate) fn first_child(kept: &[Tracked], from: u64, pid: Pid) -> Option<Pid>
    requires low { from < pid.0 }
    requires high { pid.0 ≤ from + length kept.now }
    ensures { (one : TrackedOf) → slice_get kept.now (pid.0 - from - 1) ≡ Some one → result ≡ one.first_child }
{
    kept[(pid.0 - from - 1) as usize].first_child
}

// The first child after a step, before which so many procedures had been made and which makes so many.
fn first_after(first: Option<Pid>, made: u64, count: u64) -> Option<Pid>
    requires { made + count < 2 ^ 64 }
    ensures { result ≡ option_or first (first_made made count) }
{
    match first {
        Some(first) => Some(first),
        None if count == 0 => None,
        None => Some(Pid(made + 1)),
    }
}

impl Tracked {
    // A new procedure, as a root or with its parent and its root, in an edition.
    pub(crate) fn fresh(pid: Pid, up: Option<(Pid, Pid)>, edition: u64, args: Args) -> Tracked
        ensures { result ≡ fresh pid.0 up edition args }
    {
        let (parent, root) = match up {
            Some((parent, root)) => (Some(parent), root),
            None => (None, pid),
        };
        let kind = kind_of(&args);
        let row = first_row_of(&args);
        Tracked {
            shown: Record {
                pid,
                parent,
                root,
                kind,
                edition,
                row,
                args,
                tries: 0,
                aborted: false,
                phase: Phase::Runnable,
            },
            last: None,
            report: None,
            has_called: false,
            cause: None,
            open_children: 0,
            open_under: 0,
            made_at_step: 0,
            made_in_step: 0,
            first_child: None,
        }
    }

    // Takes in its own step, before which so many had been made and which makes so many.
    pub(crate) fn step(&mut self, out: &StepOut, made: u64, count: u64)
        requires children { self.old.open_children + count < 2 ^ 64 }
        requires numbers { made + count < 2 ^ 64 }
        ensures { self.new ≡ stepped true out.now made count self.old }
    {
        self.shown.row = row_after(&self.shown.args, &out.answer);
        self.shown.tries = tries_after(self.shown.tries, &out.place);
        self.last = Some(out.answer);
        self.has_called = out.call.is_some() || self.has_called;
        self.open_children += count;
        self.made_at_step = made;
        self.made_in_step = count;
        self.first_child = first_after(self.first_child, made, count);
    }

    // The phase, by the cause of the root and whether that is rolled back.
    pub(crate) fn phase(&self, cause: Option<Cause>, rolled_back: bool) -> Phase
        ensures { result ≡ phase_by cause rolled_back self.now }
    {
        let own = own_phase(&self.last, self.open_children == 0);
        phase_of(cause, rolled_back, self.shown.parent.is_none(), own)
    }

    // Shows its phase.
    pub(crate) fn show(&mut self, cause: Option<Cause>, rolled_back: bool)
        ensures { self.new ≡ shown_if true cause rolled_back self.old }
    {
        self.shown.phase = self.phase(cause, rolled_back);
    }

    // Whether it has ended.
    pub(crate) fn has_ended(&self) -> bool
        ensures { result ≡ its_end self.now }
    {
        if self.shown.parent.is_some() {
            return is_stopped(&self.last);
        }
        match self.cause {
            Some(_) => matches!(self.shown.phase, Phase::RolledBack(_)),
            None => done_with(&self.last).is_some(),
        }
    }

    // Whether it is a failed root with its descendants ended and something left to undo.
    pub(crate) fn undoes(&self) -> bool
        ensures { result ≡ is_undoing self.now }
    {
        self.shown.parent.is_none()
            && self.cause.is_some()
            && self.open_under == 0
            && !matches!(self.shown.phase, Phase::RolledBack(_))
    }
}
