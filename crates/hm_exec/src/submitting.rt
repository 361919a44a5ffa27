//! Submissions.
ghost use Rattle.std.specs.Prelude.{◌≡◌, ◌≤◌, IfErr, IfNone, IfOk, IfSome, IsErrOf, IsTrue, None, false, true};
ghost use Rattle.hm_ports.specs.Faults.{Rose};
ghost use Rattle.hm_data.specs.declared.entry.Entry.TheVariants as entry_is;
ghost use Rattle.hm_exec.specs.Moment.{past_of};
ghost use Rattle.hm_exec.specs.Submitting.{AnswersSubmit, IsWelcome, RefusesToSubmit, Submits, refused_by};
ghost use Rattle.hm_exec.specs.Sparing.{SparesSubmit};
ghost use Rattle.hm_exec.specs.View.{moment_of};
ghost use Rattle.hm_model.specs.Rules.{Allowed};

use crate::answers::Accepted;
use crate::exec::Exec;
use crate::making::add_made;
use hm_data::{Entry, Request};
use hm_frames::{entries_fit_frames, request_fits};
use hm_hall::{HallFault, Recorder};
use hm_names::{Nonce, Pid};
use hm_refusals::{Refused, judge_submission};
use std::alloc::Global;

// The refusal of a submission that wasn't recorded.
fn refused(fault: HallFault) -> Refused
    ensures { result ≡ refused_by fault }
{
    match fault {
        HallFault::LogFault => Refused::LogFault,
        HallFault::JournalFull(bytes) => Refused::JournalFull(bytes),
        HallFault::Halted(why) => Refused::Halted(why),
        HallFault::Memory => Refused::Memory,
    }
}

impl<R: Recorder> Exec<R> {
    // Judges a submission before anything is recorded: the procedure that was made for it, if it is repeated.
    fn examine(&self, nonce: &Nonce, request: &Request) -> Result<Option<Pid>, Refused>
        ensures repeated { IfOk result (λ pid. IfSome pid (λ pid. Submits (moment_of R.kept self.now) nonce.now request.now (record { pid = pid; repeated = true }) (moment_of R.kept self.now))) }
        ensures welcome { IfOk result (λ pid. IfNone pid (IsWelcome (moment_of R.kept self.now) nonce.now request.now)) }
        ensures allowed { IfOk result (λ pid. IfNone pid (Allowed (past_of (moment_of R.kept self.now)) (entry_is.Submit nonce.now request.now))) }
        ensures refused { IfErr result (λ why. RefusesToSubmit (moment_of R.kept self.now) nonce.now request.now why (moment_of R.kept self.now)) }
    {
        if let Some(why) = self.recorder.halted() {
            return Err(Refused::Halted(why));
        }
        let _begun = self.state.journal();
        if let Some(pid) = judge_submission(self.state.records(), nonce, request)? {
            return Ok(Some(pid));
        }
        match self.recorder.soft_full() {
            Some(bytes) => Err(Refused::JournalFull(bytes)),
            None => Ok(None),
        }
    }

    // Records a submission that is new, which makes the next root.
    fn make_root(&mut self, alloc: Global, nonce: Nonce, request: Request) -> Result<Pid, HallFault>
        requires allowed { Allowed (past_of (moment_of R.kept self.old)) (entry_is.Submit nonce request) }
        requires welcome { IsWelcome (moment_of R.kept self.old) nonce request }
        ensures made { IfOk result (λ pid. Submits (moment_of R.kept self.old) nonce request (record { pid = pid; repeated = false }) (moment_of R.kept self.new)) }
        ensures refused { IfErr result (λ fault. RefusesToSubmit (moment_of R.kept self.old) nonce request (refused_by fault) (moment_of R.kept self.new)) }
        ensures fault { IsErrOf result HallFault.LogFault → Rose (R.faults self.old.recorder) (R.faults self.new.recorder) }
        ensures counts { IsErrOf result HallFault.Memory → R.faults self.new.recorder ≡ R.faults self.old.recorder }
        ensures later { R.faults self.old.recorder ≤ R.faults self.new.recorder }
        ensures opened { R.opened self.new.recorder ≡ R.opened self.old.recorder }
    {
        request_fits(&request);
        entries_fit_frames();
        let _legal = self.state.journal();
        let entry = Entry::Submit { nonce, request };
        add_made(
            &mut self.state,
            &mut self.desk,
            &mut self.recorder,
            alloc,
            entry,
            None,
        )?;
        self.desk.behind_submit(self.state.records());
        Ok(Pid(self.state.last_pid()))
    }

    /// Submits a request under a nonce: it makes the next root, unless it was submitted under this nonce before. A nonce whose
    /// number is 0 was never used.
    pub fn submit(
        &mut self,
        alloc: Global,
        nonce: Nonce,
        request: Request,
    ) -> Result<Accepted, Refused>
        ensures answers { AnswersSubmit (moment_of R.kept self.old) nonce request result (moment_of R.kept self.new) }
        ensures fault { IsErrOf result Refused.LogFault → Rose (R.faults self.old.recorder) (R.faults self.new.recorder) }
        ensures counts { IsErrOf result Refused.Memory → R.faults self.new.recorder ≡ R.faults self.old.recorder }
        ensures later { R.faults self.old.recorder ≤ R.faults self.new.recorder }
        ensures opened { R.opened self.new.recorder ≡ R.opened self.old.recorder }
        ensures spared { SparesSubmit result → self.new.recorder ≡ self.old.recorder }
    {
        match self.examine(&nonce, &request) {
            Err(why) => Err(why),
            Ok(Some(pid)) => Ok(Accepted {
                pid,
                repeated: true,
            }),
            Ok(None) => match self.make_root(alloc, nonce, request) {
                Ok(pid) => Ok(Accepted {
                    pid,
                    repeated: false,
                }),
                Err(fault) => Err(refused(fault)),
            },
        }
    }
}
