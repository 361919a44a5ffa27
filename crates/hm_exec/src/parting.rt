//! An executor in two parts: its recorder, and all else.
ghost use Rattle.std.specs.Prelude.{◌≡◌};
ghost use Rattle.hm_hall.specs.Recording.{past_in};

use crate::exec::Exec;
use hm_hall::Recorder;
use hm_roster::Desk;
use hm_state::State;
use std::marker::Model;

/// An executor but for its recorder. Contracts see its journal, who is claimed, who stands in which list, who is enlisted, and how much
/// memory there is for these.
pub struct ExecCore {
    state: State,
    desk: Desk,
}

impl Model for ExecCore {
    ghost use Rattle.hm_exec.specs.View.{CoreView, IsCore};
    ghost use Rattle.hm_roster.specs.Desk.{room_on};
    ghost use Rattle.hm_roster.specs.Roster.{claims_on, lists_on, rows_on};

    ghost Value = { CoreView };

    ghost view = { λ c. record { past = c.state.past; claimed = claims_on c.desk; lists = lists_on c.desk; rows = rows_on c.desk; room = room_on c.desk } };

    ghost invariant = { λ c. IsCore c.state.past c.desk };
}

impl<R: Recorder> Exec<R> {
    /// Takes an executor apart.
    pub fn part(self) -> (ExecCore, R)
        ensures recorder { result.1 ≡ self.recorder }
        ensures past { result.0.past ≡ past_in (R.kept self.recorder) }
        ensures claimed { result.0.claimed ≡ self.claimed }
        ensures lists { result.0.lists ≡ self.lists }
        ensures rows { result.0.rows ≡ self.rows }
        ensures room { result.0.room ≡ self.room }
    {
        let Exec {
            state,
            recorder,
            desk,
        } = self;
        (ExecCore { state, desk }, recorder)
    }

    /// Puts it together again, with a recorder that has the same journal.
    pub fn whole(core: ExecCore, recorder: R) -> Exec<R>
        requires { past_in (R.kept recorder) ≡ core.past }
        ensures recorder { result.recorder ≡ recorder }
        ensures claimed { result.claimed ≡ core.claimed }
        ensures lists { result.lists ≡ core.lists }
        ensures rows { result.rows ≡ core.rows }
        ensures room { result.room ≡ core.room }
    {
        let ExecCore { state, desk } = core;
        Exec {
            state,
            recorder,
            desk,
        }
    }
}
