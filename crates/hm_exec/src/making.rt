//! An entry that makes procedures is recorded: they are enlisted first.
ghost use Rattle.std.specs.Prelude.{◌≡◌, ◌≤◌, ◌∷◌, length, IsErrOf, None, OnErr, OnOk, false};
ghost use Rattle.hm_ports.specs.Faults.{Rose};
ghost use Rattle.hm_exec.specs.Adding.{Adds};
ghost use Rattle.hm_data.specs.declared.entry.Entry.{Entry};
ghost use Rattle.hm_hall.specs.Recording.{Accepts, CanBeRecorded, halt_of, past_in};
ghost use Rattle.hm_model.specs.Laws.{is_part};
ghost use Rattle.hm_model.specs.Rules.{Allowed};
ghost use Rattle.hm_procedures.specs.Kept.{args_made};
ghost use Rattle.hm_records.specs.Parts.{size_of};
ghost use Rattle.hm_roster.specs.Desk.{HasMore, MayMake, Makes, parent_made};
ghost use Rattle.hm_roster.specs.Roster.{Follows, IsEnlistedFor, claims_on};

use crate::adding::{record, refuse};
use hm_data::{Args, Entry};
use hm_hall::{HallFault, Recorder};
use hm_names::Pid;
use hm_records::Records;
use hm_roster::Desk;
use hm_state::{Ready, State};
use std::alloc::{AllocError, Global};

// Makes room for procedures that an entry makes, and enlists them.
fn enlist(
    desk: &mut Desk,
    alloc: Global,
    records: &Records,
    made: &[Args],
    parent: Option<Pid>,
) -> Result<(), AllocError>
    requires follows { Follows records.now.past desk.old }
    requires next { MayMake records.now.past made.now parent }
    ensures ok { OnOk result ((entry : Entry) → Makes records.now.past entry made.now parent → IsEnlistedFor (entry ∷ records.now.past) entry desk.new) }
    ensures more { OnOk result (HasMore records.now.past desk.new (length made.now)) }
    ensures err { OnErr result (Follows records.now.past desk.new) }
    ensures claimed { claims_on desk.new ≡ claims_on desk.old }
{
    desk.reserve(alloc, records, made.len() as u64)?;
    desk.enlist(alloc, records, made, parent)
}

// Records an entry for which the state is ready, and whose procedures are enlisted. Where it isn't recorded they are so no longer.
fn enter<R: Recorder>(
    state: &mut State,
    desk: &mut Desk,
    recorder: &mut R,
    alloc: Global,
    ready: Ready,
) -> Result<u64, HallFault>
    requires same { past_in (R.kept recorder.old) ≡ state.old.past }
    requires going { halt_of (R.kept recorder.old) ≡ None }
    requires past { ready.past ≡ state.old.past }
    requires allowed { Allowed state.old.past ready.entry }
    requires other { is_part ready.entry ≡ false }
    requires room { size_of ready.entry ≤ state.old.spare }
    requires fits { CanBeRecorded ready.entry }
    requires accepted { Accepts (R.kept recorder.old) ready.entry }
    requires enlisted { IsEnlistedFor (ready.entry ∷ state.old.past) ready.entry desk.old }
    requires more { HasMore state.old.past desk.old (length (args_made state.old.past ready.entry)) }
    ensures adds { Adds (R.kept recorder.old) ready.entry result (R.kept recorder.new) }
    ensures past { past_in (R.kept recorder.new) ≡ state.new.past }
    ensures behind { OnOk result (IsEnlistedFor state.new.past ready.entry desk.new) }
    ensures follows { OnErr result (Follows state.new.past desk.new) }
    ensures claimed { claims_on desk.new ≡ claims_on desk.old }
    ensures fault { IsErrOf result HallFault.LogFault → Rose (R.faults recorder.old) (R.faults recorder.new) }
    ensures counts { IsErrOf result HallFault.Memory → R.faults recorder.new ≡ R.faults recorder.old }
    ensures later { R.faults recorder.old ≤ R.faults recorder.new }
    ensures opened { R.opened recorder.new ≡ R.opened recorder.old }
{
    match record(recorder, alloc, ready.entry()) {
        Ok(number) => {
            state.apply(ready);
            Ok(number)
        }
        Err(fault) => {
            desk.unlist(state.records(), ready.made().len() as u64);
            drop(ready);
            Err(fault)
        }
    }
}

// The same, whose procedures aren't enlisted yet.
fn enlist_and_enter<R: Recorder>(
    state: &mut State,
    desk: &mut Desk,
    recorder: &mut R,
    alloc: Global,
    ready: Ready,
    parent: Option<Pid>,
) -> Result<u64, HallFault>
    requires same { past_in (R.kept recorder.old) ≡ state.old.past }
    requires going { halt_of (R.kept recorder.old) ≡ None }
    requires past { ready.past ≡ state.old.past }
    requires allowed { Allowed state.old.past ready.entry }
    requires other { is_part ready.entry ≡ false }
    requires room { size_of ready.entry ≤ state.old.spare }
    requires fits { CanBeRecorded ready.entry }
    requires accepted { Accepts (R.kept recorder.old) ready.entry }
    requires parent { parent_made ready.entry ≡ parent }
    requires follows { Follows state.old.past desk.old }
    ensures adds { Adds (R.kept recorder.old) ready.entry result (R.kept recorder.new) }
    ensures past { past_in (R.kept recorder.new) ≡ state.new.past }
    ensures behind { OnOk result (IsEnlistedFor state.new.past ready.entry desk.new) }
    ensures follows { OnErr result (Follows state.new.past desk.new) }
    ensures claimed { claims_on desk.new ≡ claims_on desk.old }
    ensures fault { IsErrOf result HallFault.LogFault → Rose (R.faults recorder.old) (R.faults recorder.new) }
    ensures counts { IsErrOf result HallFault.Memory → R.faults recorder.new ≡ R.faults recorder.old }
    ensures later { R.faults recorder.old ≤ R.faults recorder.new }
    ensures opened { R.opened recorder.new ≡ R.opened recorder.old }
{
    match enlist(desk, alloc, state.records(), ready.made(), parent) {
        Ok(()) => enter(state, desk, recorder, alloc, ready),
        Err(_) => {
            drop(ready);
            Err(HallFault::Memory)
        }
    }
}

// The same of an entry for which the state isn't ready, and which would be recorded.
fn admit_made<R: Recorder>(
    state: &mut State,
    desk: &mut Desk,
    recorder: &mut R,
    alloc: Global,
    entry: Entry,
    parent: Option<Pid>,
) -> Result<u64, HallFault>
    requires same { past_in (R.kept recorder.old) ≡ state.old.past }
    requires going { halt_of (R.kept recorder.old) ≡ None }
    requires allowed { Allowed state.old.past entry }
    requires other { is_part entry ≡ false }
    requires fits { CanBeRecorded entry }
    requires accepted { Accepts (R.kept recorder.old) entry }
    requires parent { parent_made entry ≡ parent }
    requires follows { Follows state.old.past desk.old }
    ensures adds { Adds (R.kept recorder.old) entry result (R.kept recorder.new) }
    ensures past { past_in (R.kept recorder.new) ≡ state.new.past }
    ensures behind { OnOk result (IsEnlistedFor state.new.past entry desk.new) }
    ensures follows { OnErr result (Follows state.new.past desk.new) }
    ensures claimed { claims_on desk.new ≡ claims_on desk.old }
    ensures fault { IsErrOf result HallFault.LogFault → Rose (R.faults recorder.old) (R.faults recorder.new) }
    ensures counts { IsErrOf result HallFault.Memory → R.faults recorder.new ≡ R.faults recorder.old }
    ensures later { R.faults recorder.old ≤ R.faults recorder.new }
    ensures opened { R.opened recorder.new ≡ R.opened recorder.old }
{
    let ready = state.prepare_own(alloc, entry)?;
    enlist_and_enter(state, desk, recorder, alloc, ready, parent)
}

// Records an entry that may follow, whose procedures have this parent; they are enlisted after it. What the recorder would refuse
// needs no memory.
pub(crate) fn add_made<R: Recorder>(
    state: &mut State,
    desk: &mut Desk,
    recorder: &mut R,
    alloc: Global,
    entry: Entry,
    parent: Option<Pid>,
) -> Result<u64, HallFault>
    requires same { past_in (R.kept recorder.old) ≡ state.old.past }
    requires going { halt_of (R.kept recorder.old) ≡ None }
    requires allowed { Allowed state.old.past entry }
    requires other { is_part entry ≡ false }
    requires fits { CanBeRecorded entry }
    requires parent { parent_made entry ≡ parent }
    requires follows { Follows state.old.past desk.old }
    ensures adds { Adds (R.kept recorder.old) entry result (R.kept recorder.new) }
    ensures past { past_in (R.kept recorder.new) ≡ state.new.past }
    ensures behind { OnOk result (IsEnlistedFor state.new.past entry desk.new) }
    ensures follows { OnErr result (Follows state.new.past desk.new) }
    ensures claimed { claims_on desk.new ≡ claims_on desk.old }
    ensures fault { IsErrOf result HallFault.LogFault → Rose (R.faults recorder.old) (R.faults recorder.new) }
    ensures counts { IsErrOf result HallFault.Memory → R.faults recorder.new ≡ R.faults recorder.old }
    ensures later { R.faults recorder.old ≤ R.faults recorder.new }
    ensures opened { R.opened recorder.new ≡ R.opened recorder.old }
{
    if recorder.will_refuse(&entry) {
        refuse(recorder, alloc, entry)
    } else {
        admit_made(state, desk, recorder, alloc, entry, parent)
    }
}
