//! Reports.
ghost use Rattle.std.specs.Prelude.{◌≡◌, ◌≤◌, IsErrOf};
ghost use Rattle.hm_ports.specs.Faults.{Rose};
ghost use Rattle.hm_exec.specs.Hearing.{AnswersReport};
ghost use Rattle.hm_exec.specs.Sparing.{SparesReport};
ghost use Rattle.hm_exec.specs.View.{moment_of};

use crate::adding::add;
use crate::answers::Heard;
use crate::exec::Exec;
use hm_data::{Entry, ReportMsg};
use hm_frames::entries_fit_frames;
use hm_hall::{HallFault, Recorder};
use hm_refusals::judge_report;
use std::alloc::Global;

impl<R: Recorder> Exec<R> {
    /// Hears a report: it is recorded as the next entry, unless it is ignored.
    pub fn hear(&mut self, alloc: Global, message: &ReportMsg) -> Result<Heard, HallFault>
        ensures answers { AnswersReport (moment_of R.kept self.old) message.now result (moment_of R.kept self.new) }
        ensures fault { IsErrOf result HallFault.LogFault → Rose (R.faults self.old.recorder) (R.faults self.new.recorder) }
        ensures counts { IsErrOf result HallFault.Memory → R.faults self.new.recorder ≡ R.faults self.old.recorder }
        ensures later { R.faults self.old.recorder ≤ R.faults self.new.recorder }
        ensures opened { R.opened self.new.recorder ≡ R.opened self.old.recorder }
        ensures spared { SparesReport result → self.new.recorder ≡ self.old.recorder }
    {
        entries_fit_frames();
        let _legal = self.state.journal();
        if let Some(why) = self.recorder.halted() {
            return Err(HallFault::Halted(why));
        }
        if let Err(why) = judge_report(self.state.records(), message) {
            return Ok(Heard::Ignored(why));
        }
        let call = message.call;
        let told = message.told;
        let number = add(
            &mut self.state,
            &mut self.recorder,
            alloc,
            Entry::Report { call, told },
        )?;
        self.desk.behind_report(self.state.records(), call, told);
        Ok(Heard::Accepted(number))
    }

    /// The same of a report that is handed in.
    pub fn report(&mut self, alloc: Global, message: ReportMsg) -> Result<Heard, HallFault>
        ensures answers { AnswersReport (moment_of R.kept self.old) message result (moment_of R.kept self.new) }
        ensures fault { IsErrOf result HallFault.LogFault → Rose (R.faults self.old.recorder) (R.faults self.new.recorder) }
        ensures counts { IsErrOf result HallFault.Memory → R.faults self.new.recorder ≡ R.faults self.old.recorder }
        ensures later { R.faults self.old.recorder ≤ R.faults self.new.recorder }
        ensures opened { R.opened self.new.recorder ≡ R.opened self.old.recorder }
        ensures spared { SparesReport result → self.new.recorder ≡ self.old.recorder }
    {
        let heard = self.hear(alloc, &message);
        drop(message);
        heard
    }
}
