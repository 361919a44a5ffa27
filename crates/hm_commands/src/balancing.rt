//! Balances the regions of a cluster.
ghost use Rattle.std.specs.Prelude.{◌≡◌, ◌++◌, ◌∷◌, [], IfOk, OnErr, OnOk};
ghost use Rattle.std.specs.Result.{result_ok};
ghost use Rattle.hm_commands.specs.Balancing.{Balances, IsEndOf, MayTry, SubmitsMove, Tries, head_text, move_text};
ghost use Rattle.hm_commands.specs.View.{scene_in};

use crate::answer::Answer;
use crate::cluster::Cluster;
use crate::piece::Piece;
use crate::text::append_all;
use Piece::{Number, Server, Text};
use hm_data::Request;
use hm_disk::Disk;
use hm_moves::{Move, moves};
use hm_names::{Copied, Nonce};
use std::alloc::{AllocError, Global};

// The moves have no nonce.
const NO_NONCE: Nonce = Nonce {
    group: 0,
    number: 0,
};

// The line of a plan of so many shifts.
fn heading(alloc: Global, shifts: u64) -> Result<Vec<u8>, AllocError>
    ensures { IfOk result (λ text. text.items ≡ head_text shifts) }
{
    let mut text = Vec::new(alloc);
    append_all(&mut text, &[Text("balance "), Number(shifts), Text("\n")])?;
    Ok(text)
}

// Appends the line of a move that was recorded as this procedure.
fn put_move(alloc: Global, text: &mut Vec<u8>, one: &Move, pid: u64) -> Result<(), AllocError>
    ensures { OnOk result (text.new.items ≡ text.old.items ++ move_text one.now pid) }
{
    text.extend_from_slice(b"move ")?;
    one.region.write(alloc, text)?;
    let pieces = [
        Text(" from "),
        Server(&one.from),
        Text(" to "),
        Server(&one.to),
        Text(" pid "),
        Number(pid),
        Text("\n"),
    ];
    append_all(text, &pieces)
}

// The lines of balancing that ended at a move which was answered so: where it halted the run, that alone.
fn ended(text: Vec<u8>, answer: Answer) -> Result<Answer, AllocError>
    ensures { IfOk result (IsEndOf text.items answer) }
{
    match answer {
        Answer::Halted(why) => Ok(Answer::Halted(why)),
        answer => {
            let mut text = text;
            append_all(&mut text, &answer.pieces())?;
            Ok(Answer::Balanced(text))
        }
    }
}

impl<D: Disk> Cluster<D> {
    // Submits a move.
    fn submit_move(&mut self, alloc: Global, one: &Move) -> Result<Answer, AllocError>
        ensures submits { IfOk result (λ answer. SubmitsMove one.now (scene_in self.old) answer (scene_in self.new)) }
        ensures err { OnErr result (scene_in self.new ≡ scene_in self.old) }
        ensures opened { self.new.recorder.opened ≡ self.old.recorder.opened }
    {
        let region = one.region.copy(alloc)?;
        let to = Some(one.to.copy(alloc)?);
        self.submit(alloc, NO_NONCE, Request::Move { region, to })
    }

    // Submits a move, and appends its line where it was recorded. Another answer is given back.
    fn try_move(
        &mut self,
        alloc: Global,
        text: &mut Vec<u8>,
        one: &Move,
    ) -> Result<Option<Answer>, AllocError>
        ensures tries { IfOk result (λ answer. Tries one.now text.old.items (scene_in self.old) answer text.new.items (scene_in self.new)) }
        ensures err { OnErr result (MayTry (one.now ∷ []) (scene_in self.old) (scene_in self.new)) }
        ensures opened { self.new.recorder.opened ≡ self.old.recorder.opened }
    {
        match self.submit_move(alloc, one)? {
            Answer::Pid(pid) => {
                put_move(alloc, text, one, pid)?;
                Ok(None)
            }
            answer => Ok(Some(answer)),
        }
    }

    // Has regions move so that the live servers' loads are balanced.
    pub(crate) fn balance(&mut self, alloc: Global) -> Result<Answer, AllocError>
        ensures comes { Balances (scene_in self.old) (result_ok result) (scene_in self.new) }
        ensures opened { self.new.recorder.opened ≡ self.old.recorder.opened }
    {
        let (shifts, planned) = moves(alloc, self.world.state())?;
        let mut text = heading(alloc, shifts)?;
        for one in planned {
            if let Some(answer) = self.try_move(alloc, &mut text, &one)? {
                return ended(text, answer);
            }
        }
        Ok(Answer::Balanced(text))
    }
}
