//! Aborts.
ghost use Rattle.std.specs.Prelude.{◌≡◌, ◌≤◌, IfErr, IsErrOf, OnOk};
ghost use Rattle.hm_ports.specs.Faults.{Rose};
ghost use Rattle.hm_data.specs.declared.entry.Entry.TheVariants as entry_is;
ghost use Rattle.hm_exec.specs.Moment.{FaultsAt, IsAdded, IsGoing, past_of};
ghost use Rattle.hm_exec.specs.Submitting.{AnswersAbort};
ghost use Rattle.hm_exec.specs.Sparing.{SparesAbort};
ghost use Rattle.hm_exec.specs.View.{moment_of};
ghost use Rattle.hm_model.specs.Rules.{Allowed};

use crate::adding::add;
use crate::exec::Exec;
use hm_data::Entry;
use hm_frames::entries_fit_frames;
use hm_hall::{HallFault, Recorder};
use hm_names::Pid;
use hm_refusals::{AbortRefused, judge_abort};
use std::alloc::Global;

impl<R: Recorder> Exec<R> {
    // Records an abort that may follow.
    fn record_abort(&mut self, alloc: Global, pid: Pid) -> Result<(), HallFault>
        requires going { IsGoing (moment_of R.kept self.old) }
        requires allowed { Allowed (past_of (moment_of R.kept self.old)) (entry_is.Abort pid) }
        ensures added { OnOk result (IsAdded (moment_of R.kept self.old) (entry_is.Abort pid) (moment_of R.kept self.new)) }
        ensures refused { IfErr result (λ fault. FaultsAt (moment_of R.kept self.old) (entry_is.Abort pid) fault (moment_of R.kept self.new)) }
        ensures fault { IsErrOf result HallFault.LogFault → Rose (R.faults self.old.recorder) (R.faults self.new.recorder) }
        ensures counts { IsErrOf result HallFault.Memory → R.faults self.new.recorder ≡ R.faults self.old.recorder }
        ensures later { R.faults self.old.recorder ≤ R.faults self.new.recorder }
        ensures opened { R.opened self.new.recorder ≡ R.opened self.old.recorder }
    {
        entries_fit_frames();
        let _legal = self.state.journal();
        let entry = Entry::Abort { pid };
        add(&mut self.state, &mut self.recorder, alloc, entry)?;
        self.desk.behind_abort(self.state.records(), pid);
        Ok(())
    }

    /// Aborts a root, unless it was aborted before: then it answers true, and records nothing.
    pub fn abort(&mut self, alloc: Global, pid: Pid) -> Result<bool, AbortRefused>
        ensures answers { AnswersAbort (moment_of R.kept self.old) pid result (moment_of R.kept self.new) }
        ensures fault { IsErrOf result (AbortRefused.Fault HallFault.LogFault) → Rose (R.faults self.old.recorder) (R.faults self.new.recorder) }
        ensures counts { IsErrOf result (AbortRefused.Fault HallFault.Memory) → R.faults self.new.recorder ≡ R.faults self.old.recorder }
        ensures later { R.faults self.old.recorder ≤ R.faults self.new.recorder }
        ensures opened { R.opened self.new.recorder ≡ R.opened self.old.recorder }
        ensures spared { SparesAbort result → self.new.recorder ≡ self.old.recorder }
    {
        if let Some(why) = self.recorder.halted() {
            return Err(AbortRefused::Fault(HallFault::Halted(why)));
        }
        let _begun = self.state.journal();
        match judge_abort(self.state.records(), pid) {
            Err(why) => return Err(why),
            Ok(true) => return Ok(true),
            Ok(false) => {}
        }
        match self.record_abort(alloc, pid) {
            Ok(()) => Ok(false),
            Err(fault) => Err(AbortRefused::Fault(fault)),
        }
    }
}
