//! The trait of what hands out the tasks of a master, behind a gate.
ghost use Rattle.std.specs.Prelude.{◌≡◌, ◌≤◌, ℕ, List, IfErr, IfSome, IsErrOf, Ok, option_map};
ghost use Rattle.hm_ports.specs.Faults.{Rose};
ghost use Rattle.hm_data.specs.declared.entry.Entry.{Entry as EntryValue};
ghost use Rattle.hm_lend.specs.Hall.{Answers, AnswersBack, AnswersCarry, AnswersGive, AnswersLend, AnswersTake, Editions, GetsBack, HallView, IsOut, MayComeBack};
ghost use Rattle.hm_lend.specs.Ties.{Ties};

use crate::lender::Writer;
use hm_data::{Entry, StepOut};
use hm_gate::Kept;
use hm_hall::{Given, HallFault, Taken, Task};
use std::alloc::Global;

/// Hands out what there is to do, one task after another, and records what comes of it, while the log may be out to be
/// written. It stands behind a gate: each call is one stay. A procedure that was taken is out until it is given back with
/// an answer, or put back, and so is a log that was lent. What stopped a hall is answered by `take`, `give` and `carry`
/// before anything else, and nothing goes on.
pub trait Hall: Kept<Item = Entry> {
    type Out: Writer<Terms = Self::Terms> + Send;

    // What is recorded and durable, who is claimed, whether the log is out, what stopped it, and the sheets of each edition.
    ghost hall: { Self → HallView };

    // The sheets of each edition, among the terms.
    ghost editions_in: { Self.Terms → Editions };

    // Which procedures may go on, by the terms, by what is recorded and by who is claimed.
    ghost can_go: { Self.Terms → List EntryValue → List ℕ → ℕ → Type 0 };

    // Which lists of entries are at rest, by the terms.
    ghost rests: { Self.Terms → List EntryValue → Type 0 };

    // How often what it records on failed.
    ghost faults: { Self → ℕ };

    /// The next task. Nothing is recorded.
    fn take(&mut self, alloc: Global) -> Result<Task, HallFault>
        ensures answers { AnswersTake (can_go (Self.shown self.old).terms) (hall self.old) result (hall self.new) }
        ensures idle { result ≡ Ok Task.Idle → rests (Self.shown self.old).terms (hall self.old).items }
        ensures terms { (Self.shown self.new).terms ≡ (Self.shown self.old).terms }
        ensures later { faults self.old ≤ faults self.new };

    /// Gives back what the handler answered to what was taken. An error gives that back.
    fn give(
        &mut self,
        alloc: Global,
        taken: Taken,
        out: StepOut,
    ) -> Result<Given, (Taken, HallFault)>
        requires out { IsOut taken.pid.0 (hall self.old) }
        requires answer { Answers (hall self.old).editions taken.was out }
        ensures answers { AnswersGive (hall self.old) taken out result (hall self.new) }
        ensures terms { (Self.shown self.new).terms ≡ (Self.shown self.old).terms }
        ensures later { faults self.old ≤ faults self.new };

    /// What was taken is put back. Nothing is recorded.
    fn put_back(&mut self, taken: Taken)
        requires { IsOut taken.pid.0 (hall self.old) }
        ensures back { GetsBack (hall self.old) taken (hall self.new) }
        ensures terms { (Self.shown self.new).terms ≡ (Self.shown self.old).terms }
        ensures later { faults self.old ≤ faults self.new };

    /// Carries a call or a report. False where there is none to carry.
    fn carry(&mut self, alloc: Global) -> Result<bool, HallFault>
        ensures answers { AnswersCarry (hall self.old) result (hall self.new) }
        ensures terms { (Self.shown self.new).terms ≡ (Self.shown self.old).terms }
        ensures later { faults self.old ≤ faults self.new };

    /// Lends the log with what isn't durable, so that it is written outside the gate. None where there is nothing to lend.
    fn lend(&mut self) -> Option<Self::Out>
        ensures answers { AnswersLend (hall self.old) (option_map Self.Out.out result) (hall self.new) }
        ensures out { IfSome result (λ out. ((Self.Out.out out).terms ≡ (Self.shown self.old).terms) × (Self.Out.since out ≡ faults self.old)) }
        ensures terms { (Self.shown self.new).terms ≡ (Self.shown self.old).terms }
        ensures faults { faults self.new ≡ faults self.old };

    /// Takes the log back that was lent and written, and tells how many entries are durable. It fails only where the device
    /// failed since the log went out.
    fn back(&mut self, out: Self::Out) -> Result<u64, HallFault>
        requires may { MayComeBack (hall self.old) (Self.Out.out out) }
        requires terms { (Self.Out.out out).terms ≡ (Self.shown self.old).terms }
        ensures answers { AnswersBack (hall self.old) (Self.Out.out out) result (hall self.new) }
        ensures fault { IsErrOf result HallFault.LogFault → Rose (Self.Out.since out) (Self.Out.faults out) }
        ensures terms { (Self.shown self.new).terms ≡ (Self.shown self.old).terms }
        ensures later { faults self.old ≤ faults self.new };

    // What is seen of it is what the gate sees.
    ghost ties: { (h : Self) → Ties editions_in (Self.shown h) (hall h) };
}
