//! An executor that runs over a list, and what is claimed.
ghost use Rattle.std.specs.Prelude.{◌≡◌, ◌<◌, ◌≤◌, length, IfOk, IfSome, IsTrue, None, Some};
ghost use Rattle.hm_exec.specs.Claiming.{AnswersClaim, IsAnswer};
ghost use Rattle.hm_exec.specs.Moment.{past_of};
ghost use Rattle.hm_hall.specs.Recording.{past_in};
ghost use Rattle.hm_model.specs.Editions.{editions, sheets_in};
ghost use Rattle.hm_model.specs.Evaluation.{CanRun};
ghost use Rattle.hm_model.specs.Locks.{IsIn};
ghost use Rattle.hm_model.specs.Base.{AreSheets};
ghost use Rattle.hm_rows_exec.specs.Keeping.{IsBegun};
ghost use Rattle.hm_rows_exec.specs.Outs.{AreLeft, AreOthers, IsTaken, at_exec, sheets_at};

use crate::kept::{Bounds, Kept};
use hm_crash::CrashHands;
use hm_data::{ReportMsg, Request, Sheet, StepIn, StepOut};
use hm_exec::{AbortRefused, Accepted, DownWhy, Exec, Heard, Refused, UpWhy};
use hm_hall::{Given, HallFault, Taken};
use hm_lists::Steps;
use hm_names::{Copied, List, Nonce, Pid, ServerName};
use hm_sheet::{Handler, Registry, answer};
use hm_split::SplitHands;
use hm_state::State;
use hm_tables::TableHands;
use hm_transit::TransitHands;
use std::alloc::{AllocError, Global};
use std::marker::{Brand, Model};
use std::sync::ledger::{Blank, Ledger};

/// A procedure that is claimed, what was handed out for it, and what its handler answers.
pub(crate) type Out = (Pid, StepIn, StepOut);

/// An executor, and what is claimed.
pub(crate) struct Run {
    exec: Exec<Kept>,
    outs: Vec<Out>,
}

impl Model for Run {
    ghost use Rattle.hm_rows_exec.specs.Outs.{AreOut, RunView, at_exec};

    ghost Value = { RunView };

    ghost view = { λ r. record { exec = r.exec; outs = r.outs.items } };

    ghost invariant = { λ r. AreOut (at_exec r.exec) r.outs.items };
}

// The sheets with which a journal begins.
fn sheets(alloc: Global) -> Result<List<Sheet>, AllocError>
    ensures valid { IfOk result AreSheets }
{
    let tables = Box::new(alloc, TableHands::new(alloc)?)?;
    let splits = Box::new(alloc, SplitHands::new(alloc)?)?;
    let transits = Box::new(alloc, TransitHands::new(alloc)?)?;
    let crashes = Box::new(alloc, CrashHands::new(alloc)?)?;
    let handlers: [Box<dyn Handler>; 4] = [tables, splits, transits, crashes];
    let Ok(registry) = Registry::new(alloc, Vec::from_array(alloc, handlers)?) else {
        return Err(AllocError);
    };
    registry.sheets().copy(alloc)
}

// The executor of a journal that was recorded.
fn exec_of(alloc: Global, state: State, kept: Kept) -> Result<Exec<Kept>, AllocError>
    requires same { past_in kept ≡ state.past }
    requires going { kept.halted ≡ None }
{
    match Exec::new(alloc, state, kept) {
        Ok(exec) => Ok(exec),
        Err((kept, fault)) => {
            kept.end();
            Err(fault)
        }
    }
}

// The executor of a journal that begins with these sheets.
fn open(alloc: Global, sheets: List<Sheet>, kept: Kept) -> Result<Exec<Kept>, AllocError>
    requires valid { AreSheets sheets }
    requires begun { IsBegun sheets kept }
{
    match State::start(alloc, sheets) {
        Ok(state) => exec_of(alloc, state, kept),
        Err(fault) => {
            kept.end();
            Err(fault)
        }
    }
}

// Claims, with a count of steps of its own.
fn next_claim<L: Ledger>(
    exec: &mut Exec<Kept>,
    alloc: Global,
    blank: Blank,
) -> Result<Option<Taken>, HallFault>
    requires name { blank.name ≡ L.name }
    requires parts { blank.parts ≡ L.parts }
    requires some { 1 ≤ L.parts }
    ensures { AnswersClaim (at_exec exec.old) result (at_exec exec.new) }
{
    let mut steps = Steps::<L>::new(blank);
    exec.claim(alloc, &mut steps)
}

// What was claimed, with what its handler answers.
fn answered(alloc: Global, state: &State, taken: Taken) -> Result<Out, AllocError>
    requires edition { taken.was.edition ≤ editions state.now.past }
    requires runs { CanRun (sheets_in state.now.past taken.was.edition) taken.was }
    ensures pid { IfOk result (λ out. out.0 ≡ taken.pid) }
    ensures answer { IfOk result (λ out. IsAnswer state.now.past out.1 out.2) }
{
    let Taken { pid, was } = taken;
    let out = answer(alloc, state.records().sheets_of(was.edition), &was)?;
    Ok((pid, was, out))
}

// The place of what was claimed for a procedure.
fn place_of(outs: &[Out], pid: u64) -> Option<usize>
    ensures { IfSome result (λ place. place < length outs.now) }
{
    for (place, out) in outs.iter().enumerate() {
        if out.0.0 == pid {
            return Some(place);
        }
    }
    None
}

// Whether what is claimed is of other procedures than this.
fn are_others(outs: &[Out], pid: Pid) -> bool
    ensures { IsTrue result → AreOthers pid outs.now }
{
    for out in outs {
        if out.0.0 == pid.0 {
            return false;
        }
    }
    true
}

// Takes what is claimed at a place from the others.
fn taken_at(outs: &mut Vec<Out>, place: usize) -> Out
    requires { place < length outs.old.items }
    ensures { IsTaken outs.old.items result outs.new.items }
{
    outs.remove(place)
}

// Takes what was claimed for a procedure from the others.
fn take_out(outs: &mut Vec<Out>, pid: u64) -> Option<Out>
    ensures { AreLeft outs.old.items result outs.new.items }
{
    let Some(place) = place_of(outs, pid) else {
        return None;
    };
    let out = taken_at(outs, place);
    if are_others(outs, out.0) {
        Some(out)
    } else {
        drop(out);
        None
    }
}

impl Run {
    /// Of a journal that begins.
    pub(crate) fn begin(alloc: Global, bounds: Bounds) -> Result<Run, AllocError> {
        let sheets = sheets(alloc)?;
        let kept = Kept::begin(alloc, &sheets, bounds)?;
        let exec = open(alloc, sheets, kept)?;
        Ok(Run {
            exec,
            outs: Vec::new(alloc),
        })
    }

    pub(crate) fn recorder(&self) -> &Kept {
        self.exec.recorder()
    }

    pub(crate) fn claims(&self) -> u64 {
        self.exec.claims()
    }

    /// What was claimed last and is claimed still.
    pub(crate) fn last(&self) -> Option<&Out> {
        self.outs.last()
    }

    pub(crate) fn submit(
        &mut self,
        alloc: Global,
        nonce: Nonce,
        request: Request,
    ) -> Result<Accepted, Refused> {
        self.exec.submit(alloc, nonce, request)
    }

    pub(crate) fn abort(&mut self, alloc: Global, pid: Pid) -> Result<bool, AbortRefused> {
        self.exec.abort(alloc, pid)
    }

    pub(crate) fn up(
        &mut self,
        alloc: Global,
        server: ServerName,
    ) -> Result<Option<(ServerName, Pid)>, UpWhy> {
        self.exec.server_up(alloc, server)
    }

    pub(crate) fn down(&mut self, alloc: Global, server: &ServerName) -> Result<Pid, DownWhy> {
        self.exec.server_down(alloc, server)
    }

    pub(crate) fn report(&mut self, alloc: Global, message: ReportMsg) -> Result<Heard, HallFault> {
        self.exec.report(alloc, message)
    }

    // Keeps what was claimed, with what its handler answers.
    fn keep(&mut self, alloc: Global, taken: Taken) -> Result<(), AllocError>
        requires claimed { IsIn taken.pid.0 self.old.exec.claimed }
        requires edition { taken.was.edition ≤ editions (past_of (at_exec self.old.exec)) }
        requires runs { CanRun (sheets_at (at_exec self.old.exec) taken.was.edition) taken.was }
    {
        let out = answered(alloc, self.exec.state(), taken)?;
        match self.outs.reserve(1) {
            Ok(()) => {
                self.outs.push_reserved(out);
                Ok(())
            }
            Err(error) => {
                drop(out);
                Err(error)
            }
        }
    }

    /// Claims. False where nobody is available.
    pub(crate) fn claim(&mut self, alloc: Global) -> Result<bool, HallFault> {
        match next_claim::<Brand>(&mut self.exec, alloc, Blank::new(1)) {
            Ok(Some(taken)) => {
                self.keep(alloc, taken)?;
                Ok(true)
            }
            Ok(None) => Ok(false),
            Err(fault) => Err(fault),
        }
    }

    /// Commits what was answered for a procedure, if it is claimed. Where a fault keeps that from being recorded the claim is put
    /// back.
    pub(crate) fn commit(&mut self, alloc: Global, pid: u64) -> Result<Option<Given>, HallFault> {
        let Some((pid, was, out)) = take_out(&mut self.outs, pid) else {
            return Ok(None);
        };
        match self.exec.commit(alloc, Taken { pid, was }, out) {
            Ok(given) => Ok(Some(given)),
            Err((taken, fault)) => {
                self.exec.put_back(taken);
                Err(fault)
            }
        }
    }

    /// Puts the claim of a procedure back. False where it isn't claimed.
    pub(crate) fn put_back(&mut self, pid: u64) -> bool {
        let Some((pid, was, out)) = take_out(&mut self.outs, pid) else {
            return false;
        };
        drop(out);
        self.exec.put_back(Taken { pid, was });
        true
    }

    pub(crate) fn end(self) {
        let Run { exec, outs } = self;
        drop(outs);
        exec.into_recorder().end();
    }
}
