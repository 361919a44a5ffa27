//! The trait of what hands out the tasks of a master.
ghost use Rattle.std.specs.Prelude.{◌≡◌, ◌≤◌, ℕ, IfErr, IsErrOf, Ok, Some};
ghost use Rattle.hm_ports.specs.Faults.{Rose};
ghost use Rattle.hm_hall.specs.Hall.{AnswersCarry, AnswersGive, AnswersTake, GetsBack, HallView, journal_of};
ghost use Rattle.hm_model.specs.Evaluation.{answer_of};
ghost use Rattle.hm_model.specs.Journal.{Past};
ghost use Rattle.hm_model.specs.Locks.{IsIn};

use crate::fault::HallFault;
use crate::taken::{Given, Taken};
use hm_data::StepOut;
use std::alloc::Global;

/// What there is to do next.
pub enum Task {
    /// To run the handler of this procedure, which is claimed for it, and to give back what it answers.
    Run(Taken),
    /// To carry a call or a report.
    Carry,
    /// To write what was recorded. It doesn't come while each entry is written as it is recorded.
    Flush,
    /// To wait for somebody who is claimed.
    Busy,
    /// Nothing.
    Idle,
}

/// Hands out what there is to do, one task after another, and records what comes of it. A procedure that was taken is out until it
/// is given back with an answer, or put back. What stopped a hall is answered by each call before anything else, and nothing goes on.
pub trait Hall {
    // The parts of the base, what is recorded behind it, who is out, what stopped it, and the sheets of each edition, by which its
    // procedures run.
    ghost hall: { Self → HallView };

    // Which journals are at rest, back from their newest entry.
    ghost rests: { Past → Type 0 };

    // How often what it records on failed.
    ghost faults: { Self → ℕ };

    /// The next task. Nothing is recorded.
    fn take(&mut self, alloc: Global) -> Result<Task, HallFault>
        ensures answers { AnswersTake (hall self.old) result (hall self.new) }
        ensures idle { result ≡ Ok Task.Idle → rests (journal_of (hall self.old)) }
        ensures later { faults self.old ≤ faults self.new };

    /// Gives back what the handler answered to what was taken. An error gives that back.
    fn give(
        &mut self,
        alloc: Global,
        taken: Taken,
        out: StepOut,
    ) -> Result<Given, (Taken, HallFault)>
        requires claimed { IsIn taken.pid.0 (hall self.old).outs }
        requires answer { answer_of ((hall self.old).sheets taken.was.edition) taken.was ≡ Some out }
        ensures answers { AnswersGive (hall self.old) taken out result (hall self.new) }
        ensures fault { IfErr result (λ e. e.1 ≡ HallFault.LogFault → Rose (faults self.old) (faults self.new)) }
        ensures later { faults self.old ≤ faults self.new };

    /// What was taken is put back. Nothing is recorded.
    fn put_back(&mut self, taken: Taken)
        requires { IsIn taken.pid.0 (hall self.old).outs }
        ensures back { GetsBack (hall self.old) taken (hall self.new) }
        ensures later { faults self.old ≤ faults self.new };

    /// Carries a call or a report. False where there is none to carry.
    fn carry(&mut self, alloc: Global) -> Result<bool, HallFault>
        ensures answers { AnswersCarry (hall self.old) result (hall self.new) }
        ensures fault { IsErrOf result HallFault.LogFault → Rose (faults self.old) (faults self.new) }
        ensures later { faults self.old ≤ faults self.new };
}
