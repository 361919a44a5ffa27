//! Answers of handlers that are recorded.
ghost use Rattle.std.specs.Prelude.{◌≡◌, ◌≢◌, ◌≤◌, ℕ, IfErr, IfOk, IsErrOf, MatchOption, None, Some, if◌then◌else◌};
ghost use Rattle.std.specs.Option.{option_copied};
ghost use Rattle.hm_ports.specs.Faults.{Rose};
ghost use Rattle.hm_data.specs.declared.entry.Entry.TheVariants as entry_is;
ghost use Rattle.hm_data.specs.declared.step.StepIn.{StepIn as StepInValue};
ghost use Rattle.hm_data.specs.declared.step.Turn.TheVariants as turn_is;
ghost use Rattle.hm_exec.specs.Claiming.{AnswersCommit, Commits, GivesUp, IsAnswer, IsFresh, IsNow, RefusesCommit};
ghost use Rattle.hm_exec.specs.Moment.{IsGoing, past_of};
ghost use Rattle.hm_exec.specs.Sparing.{SparesAt, SparesCommit};
ghost use Rattle.hm_exec.specs.View.{moment_of};
ghost use Rattle.hm_model.specs.Locks.{IsIn};
ghost use Rattle.hm_model.specs.Tree.{node_of};
ghost use Rattle.hm_tied.specs.Entries.{alters as changes};

use crate::exec::Exec;
use crate::making::add_made;
use hm_data::{Entry, StepIn, StepOut, Turn};
use hm_frames::entries_fit_frames;
use hm_hall::{Given, HallFault, Recorder, Taken};
use hm_judge::laws::fresh_answers_follow;
use hm_judge::picks_right;
use hm_names::{Copied, Pid, Same, ServerName};
use hm_state::State;
use std::alloc::{AllocError, Global};

// Whether an answer changes rows.
fn alters(out: &StepOut) -> bool
    ensures { result ≡ changes out.now }
{
    !out.edits.as_slice().is_empty()
}

// The entry of a step, with a copy of its pick.
fn step_entry(
    alloc: Global,
    pid: Pid,
    pick: &Option<ServerName>,
    out: StepOut,
) -> Result<Entry, AllocError>
    ensures { IfOk result (λ entry. entry ≡ entry_is.Step pid pick.now out) }
{
    match pick.copy(alloc) {
        Ok(pick) => Ok(Entry::Step { pid, pick, out }),
        Err(fault) => {
            drop(out);
            Err(fault)
        }
    }
}

// The pick that was handed out, where it is right still.
fn pick_if(right: bool, pick: &Option<ServerName>) -> Option<&ServerName>
    ensures { option_copied result ≡ (if right then pick.now else None) }
{
    if right { pick.as_ref() } else { None }
}

// The input that a claimed procedure has now, where it isn't the one that was handed out or its pick doesn't fit any more.
fn look(state: &State, alloc: Global, taken: &Taken) -> Result<Option<StepIn>, AllocError>
    requires { node_of state.now.past taken.now.pid.0 ≢ None }
    ensures { IfOk result (λ other. MatchOption other (IsFresh state.now.past taken.now) (λ now. (IsFresh state.now.past taken.now → ⊥) × IsNow state.now.past taken.now now)) }
{
    let right = picks_right(state.records(), taken.pid, &taken.was.pick);
    let now = state.step_in(alloc, taken.pid, pick_if(right, &taken.was.pick))?;
    if right && now.same(&taken.was) {
        drop(now);
        Ok(None)
    } else {
        Ok(Some(now))
    }
}

// What became of an answer: it was recorded as the entry of this number, or the input is this one now.
#[derive(Drop)]
enum Answered {
    Kept(u64),
    Stale(StepIn),
}

impl<R: Recorder> Exec<R> {
    // Records a fresh answer to a step, and ends its claim.
    fn keep_step(&mut self, alloc: Global, taken: &Taken, out: StepOut) -> Result<u64, HallFault>
        requires going { IsGoing (moment_of R.kept self.old) }
        requires claimed { IsIn taken.now.pid.0 self.old.claimed }
        requires fresh { IsFresh (past_of (moment_of R.kept self.old)) taken.now }
        requires answer { IsAnswer (past_of (moment_of R.kept self.old)) taken.now.was out }
        requires step { taken.now.was.turn ≡ turn_is.Step }
        ensures kept { IfOk result (λ number. Commits (moment_of R.kept self.old) taken.now out number (moment_of R.kept self.new)) }
        ensures refused { IfErr result (λ fault. RefusesCommit (moment_of R.kept self.old) taken.now out fault (moment_of R.kept self.new)) }
        ensures fault { IsErrOf result HallFault.LogFault → Rose (R.faults self.old.recorder) (R.faults self.new.recorder) }
        ensures counts { IsErrOf result HallFault.Memory → R.faults self.new.recorder ≡ R.faults self.old.recorder }
        ensures later { R.faults self.old.recorder ≤ R.faults self.new.recorder }
        ensures opened { R.opened self.new.recorder ≡ R.opened self.old.recorder }
    {
        fresh_answers_follow();
        entries_fit_frames();
        let _legal = self.state.journal();
        let _fits = self.recorder.halted();
        let _apart = self.desk.holds(taken.pid);
        let low = self.state.last_pid() + 1;
        let late = alters(&out);
        let entry = step_entry(alloc, taken.pid, &taken.was.pick, out)?;
        let number = add_made(
            &mut self.state,
            &mut self.desk,
            &mut self.recorder,
            alloc,
            entry,
            Some(taken.pid),
        )?;
        self.desk
            .behind_step(self.state.records(), taken.pid, low, late);
        Ok(number)
    }

    // Records a fresh answer that undoes a step, and ends the claim of the root.
    fn keep_undo(&mut self, alloc: Global, taken: &Taken, out: StepOut) -> Result<u64, HallFault>
        requires going { IsGoing (moment_of R.kept self.old) }
        requires claimed { IsIn taken.now.pid.0 self.old.claimed }
        requires fresh { IsFresh (past_of (moment_of R.kept self.old)) taken.now }
        requires answer { IsAnswer (past_of (moment_of R.kept self.old)) taken.now.was out }
        requires undo { taken.now.was.turn ≢ turn_is.Step }
        ensures kept { IfOk result (λ number. Commits (moment_of R.kept self.old) taken.now out number (moment_of R.kept self.new)) }
        ensures refused { IfErr result (λ fault. RefusesCommit (moment_of R.kept self.old) taken.now out fault (moment_of R.kept self.new)) }
        ensures fault { IsErrOf result HallFault.LogFault → Rose (R.faults self.old.recorder) (R.faults self.new.recorder) }
        ensures counts { IsErrOf result HallFault.Memory → R.faults self.new.recorder ≡ R.faults self.old.recorder }
        ensures later { R.faults self.old.recorder ≤ R.faults self.new.recorder }
        ensures opened { R.opened self.new.recorder ≡ R.opened self.old.recorder }
    {
        fresh_answers_follow();
        entries_fit_frames();
        let _legal = self.state.journal();
        let _fits = self.recorder.halted();
        let low = self.state.last_pid() + 1;
        let late = alters(&out);
        let entry = Entry::Undo {
            pid: taken.was.pid,
            row: taken.was.row,
            out,
        };
        let number = add_made(
            &mut self.state,
            &mut self.desk,
            &mut self.recorder,
            alloc,
            entry,
            None,
        )?;
        self.desk
            .behind_undo(self.state.records(), taken.pid, low, late);
        Ok(number)
    }

    // Records a fresh answer, and ends its claim.
    fn keep(&mut self, alloc: Global, taken: &Taken, out: StepOut) -> Result<u64, HallFault>
        requires going { IsGoing (moment_of R.kept self.old) }
        requires claimed { IsIn taken.now.pid.0 self.old.claimed }
        requires fresh { IsFresh (past_of (moment_of R.kept self.old)) taken.now }
        requires answer { IsAnswer (past_of (moment_of R.kept self.old)) taken.now.was out }
        ensures kept { IfOk result (λ number. Commits (moment_of R.kept self.old) taken.now out number (moment_of R.kept self.new)) }
        ensures refused { IfErr result (λ fault. RefusesCommit (moment_of R.kept self.old) taken.now out fault (moment_of R.kept self.new)) }
        ensures fault { IsErrOf result HallFault.LogFault → Rose (R.faults self.old.recorder) (R.faults self.new.recorder) }
        ensures counts { IsErrOf result HallFault.Memory → R.faults self.new.recorder ≡ R.faults self.old.recorder }
        ensures later { R.faults self.old.recorder ≤ R.faults self.new.recorder }
        ensures opened { R.opened self.new.recorder ≡ R.opened self.old.recorder }
    {
        match &taken.was.turn {
            Turn::Step => self.keep_step(alloc, taken, out),
            Turn::Undo { edits: _ } => self.keep_undo(alloc, taken, out),
        }
    }

    // Commits an answer of a claimed procedure, but for giving back what was taken.
    fn answer(&mut self, alloc: Global, taken: &Taken, out: StepOut) -> Result<Answered, HallFault>
        requires claimed { IsIn taken.now.pid.0 self.old.claimed }
        requires answer { IsAnswer (past_of (moment_of R.kept self.old)) taken.now.was out }
        ensures kept { IfOk result (λ answered. (number : ℕ) → answered ≡ Answered.Kept number → Commits (moment_of R.kept self.old) taken.now out number (moment_of R.kept self.new)) }
        ensures stale { IfOk result (λ answered. (now : StepInValue) → answered ≡ Answered.Stale now → GivesUp (moment_of R.kept self.old) taken.now now (moment_of R.kept self.new)) }
        ensures refused { IfErr result (λ fault. RefusesCommit (moment_of R.kept self.old) taken.now out fault (moment_of R.kept self.new)) }
        ensures fault { IsErrOf result HallFault.LogFault → Rose (R.faults self.old.recorder) (R.faults self.new.recorder) }
        ensures counts { IsErrOf result HallFault.Memory → R.faults self.new.recorder ≡ R.faults self.old.recorder }
        ensures later { R.faults self.old.recorder ≤ R.faults self.new.recorder }
        ensures opened { R.opened self.new.recorder ≡ R.opened self.old.recorder }
        ensures spared_stale { IfOk result (λ answered. (now : StepInValue) → answered ≡ Answered.Stale now → self.new.recorder ≡ self.old.recorder) }
        ensures spared_fault { IfErr result (λ fault. SparesAt fault → self.new.recorder ≡ self.old.recorder) }
    {
        if let Some(why) = self.recorder.halted() {
            return Err(HallFault::Halted(why));
        }
        match look(&self.state, alloc, taken)? {
            Some(now) => {
                self.desk.put_back(self.state.records(), taken.pid);
                Ok(Answered::Stale(now))
            }
            None => Ok(Answered::Kept(self.keep(alloc, taken, out)?)),
        }
    }

    /// Commits what the handler answered to the input that was handed out: it is recorded, unless the input is another one now, or its
    /// pick doesn't fit any more. An error gives back what was taken.
    pub fn commit(
        &mut self,
        alloc: Global,
        taken: Taken,
        out: StepOut,
    ) -> Result<Given, (Taken, HallFault)>
        requires claimed { IsIn taken.pid.0 self.old.claimed }
        requires answer { IsAnswer (past_of (moment_of R.kept self.old)) taken.was out }
        ensures answers { AnswersCommit (moment_of R.kept self.old) taken out result (moment_of R.kept self.new) }
        ensures fault { IfErr result (λ e. e.1 ≡ HallFault.LogFault → Rose (R.faults self.old.recorder) (R.faults self.new.recorder)) }
        ensures counts { IfErr result (λ e. e.1 ≡ HallFault.Memory → R.faults self.new.recorder ≡ R.faults self.old.recorder) }
        ensures later { R.faults self.old.recorder ≤ R.faults self.new.recorder }
        ensures opened { R.opened self.new.recorder ≡ R.opened self.old.recorder }
        ensures spared { SparesCommit result → self.new.recorder ≡ self.old.recorder }
    {
        match self.answer(alloc, &taken, out) {
            Ok(Answered::Kept(number)) => {
                let Taken { pid: _, was } = taken;
                drop(was);
                Ok(Given::Kept(number))
            }
            Ok(Answered::Stale(now)) => {
                let Taken { pid: _, was } = taken;
                Ok(Given::Stale { was, now })
            }
            Err(fault) => Err((taken, fault)),
        }
    }
}
