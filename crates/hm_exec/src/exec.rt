//! The executor.
ghost use Rattle.std.specs.Prelude.{◌≡◌, ℕ, [], IfErr, IfOk, None, length};
ghost use Rattle.hm_exec.specs.Moment.{past_of};
ghost use Rattle.hm_exec.specs.Opening.{AreInOrder};
ghost use Rattle.hm_exec.specs.View.{moment_of};
ghost use Rattle.hm_hall.specs.Recording.{halt_of, past_in};
ghost use Rattle.hm_model.specs.Holding.{NoneClash};
ghost use Rattle.hm_model.specs.Locks.{IsIn};
ghost use Rattle.hm_sched.specs.Queues.{IsReady};
ghost use Rattle.hm_tied.specs.Tied.{CanGo, IsOpen};

use hm_hall::Recorder;
use hm_names::Pid;
use hm_roster::Desk;
use hm_state::State;
use std::alloc::{AllocError, Global};
use std::marker::Model;

/// A journal with its recorder, the state that it is in, and who is claimed. Contracts see the recorder, who is claimed,
/// who stands in which list, who is enlisted, and how much memory there is for these.
pub struct Exec<R: Recorder> {
    pub(crate) state: State,
    pub(crate) recorder: R,
    pub(crate) desk: Desk,
}

impl<R: Recorder> Model for Exec<R> {
    ghost use Rattle.hm_exec.specs.View.{ExecView, IsExec};
    ghost use Rattle.hm_roster.specs.Desk.{room_on};
    ghost use Rattle.hm_roster.specs.Roster.{claims_on, lists_on, rows_on};

    ghost Value = { ExecView R };

    ghost view = { λ e. record { recorder = e.recorder; claimed = claims_on e.desk; lists = lists_on e.desk; rows = rows_on e.desk; room = room_on e.desk } };

    ghost invariant = { λ e. IsExec (R.kept e.recorder) e.state.past e.desk };
}

impl<R: Recorder> Exec<R> {
    /// The executor of a journal of which nothing is under way: all that haven't ended are ready, in the order of their numbers.
    /// An error gives the recorder back.
    pub fn new(alloc: Global, state: State, recorder: R) -> Result<Exec<R>, (R, AllocError)>
        requires same { past_in (R.kept recorder) ≡ state.past }
        requires going { halt_of (R.kept recorder) ≡ None }
        ensures recorder { IfOk result (λ exec. exec.recorder ≡ recorder) }
        ensures claimed { IfOk result (λ exec. exec.claimed ≡ []) }
        ensures order { IfOk result (λ exec. AreInOrder state.past exec.lists) }
        ensures ready { IfOk result (λ exec. (q : ℕ) → IsOpen state.past q → IsReady exec.lists q) }
        ensures back { IfErr result (λ e. e.0 ≡ recorder) }
    {
        match Desk::open(alloc, state.records()) {
            Ok(desk) => Ok(Exec {
                state,
                recorder,
                desk,
            }),
            Err(fault) => {
                drop(state);
                Err((recorder, fault))
            }
        }
    }

    /// The state of the journal.
    pub fn state(&self) -> &State
        ensures { past_in (R.kept self.now.recorder) ≡ result.now.past }
    {
        &self.state
    }

    /// What records the entries.
    pub fn recorder(&self) -> &R
        ensures { result.now ≡ self.now.recorder }
    {
        &self.recorder
    }

    /// No two that hold what they ask for conflict, and who is claimed holds too; and each that is claimed may make its step still, or
    /// have one undone: a law that does nothing.
    pub fn claims_stand(&self)
        ensures apart { NoneClash (past_of (moment_of R.kept self.now)) self.now.claimed }
        ensures able { (p : ℕ) → IsIn p self.now.claimed → CanGo (past_of (moment_of R.kept self.now)) p }
    {
        let _apart = self.desk.holds(Pid(0));
    }

    /// How many are claimed.
    pub fn claims(&self) -> u64
        ensures { result ≡ length self.now.claimed }
    {
        self.desk.claims()
    }

    /// Gives the recorder back.
    pub fn into_recorder(self) -> R
        ensures { result ≡ self.recorder }
    {
        let Exec {
            state,
            recorder,
            desk,
        } = self;
        drop(state);
        drop(desk);
        recorder
    }
}
