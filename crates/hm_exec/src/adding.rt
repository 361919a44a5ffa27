//! An entry that may follow is recorded, and the state takes it in.
ghost use Rattle.std.specs.Prelude.{◌≡◌, ◌≤◌, IsErrOf, None, false};
ghost use Rattle.hm_ports.specs.Faults.{Rose};
ghost use Rattle.hm_exec.specs.Adding.{Adds};
ghost use Rattle.hm_hall.specs.Recording.{Accepts, CanBeRecorded, halt_of, past_in};
ghost use Rattle.hm_model.specs.Laws.{is_part};
ghost use Rattle.hm_model.specs.Rules.{Allowed};

use hm_data::Entry;
use hm_hall::{HallFault, Recorder};
use hm_state::State;
use std::alloc::Global;

// Makes an entry ready, and records it.
pub(crate) fn record<R: Recorder>(
    recorder: &mut R,
    alloc: Global,
    entry: &Entry,
) -> Result<u64, HallFault>
    requires going { halt_of (R.kept recorder.old) ≡ None }
    requires fits { CanBeRecorded entry.now }
    requires other { is_part entry.now ≡ false }
    ensures adds { Adds (R.kept recorder.old) entry.now result (R.kept recorder.new) }
    ensures fault { IsErrOf result HallFault.LogFault → Rose (R.faults recorder.old) (R.faults recorder.new) }
    ensures counts { IsErrOf result HallFault.Memory → R.faults recorder.new ≡ R.faults recorder.old }
    ensures later { R.faults recorder.old ≤ R.faults recorder.new }
    ensures opened { R.opened recorder.new ≡ R.opened recorder.old }
{
    recorder.ready(alloc, entry)?;
    Ok(recorder.record_entry()?)
}

// The same of an entry that would be refused, which the state doesn't see.
pub(crate) fn refuse<R: Recorder>(
    recorder: &mut R,
    alloc: Global,
    entry: Entry,
) -> Result<u64, HallFault>
    requires going { halt_of (R.kept recorder.old) ≡ None }
    requires fits { CanBeRecorded entry }
    requires other { is_part entry ≡ false }
    requires refused { Accepts (R.kept recorder.old) entry → ⊥ }
    ensures adds { Adds (R.kept recorder.old) entry result (R.kept recorder.new) }
    ensures past { past_in (R.kept recorder.new) ≡ past_in (R.kept recorder.old) }
    ensures fault { IsErrOf result HallFault.LogFault → Rose (R.faults recorder.old) (R.faults recorder.new) }
    ensures counts { IsErrOf result HallFault.Memory → R.faults recorder.new ≡ R.faults recorder.old }
    ensures later { R.faults recorder.old ≤ R.faults recorder.new }
    ensures opened { R.opened recorder.new ≡ R.opened recorder.old }
{
    let refused = record(recorder, alloc, &entry);
    drop(entry);
    refused
}

// The same of an entry that would be recorded: the state makes room for it first.
fn admit<R: Recorder>(
    state: &mut State,
    recorder: &mut R,
    alloc: Global,
    entry: Entry,
) -> Result<u64, HallFault>
    requires same { past_in (R.kept recorder.old) ≡ state.old.past }
    requires going { halt_of (R.kept recorder.old) ≡ None }
    requires allowed { Allowed state.old.past entry }
    requires other { is_part entry ≡ false }
    requires fits { CanBeRecorded entry }
    requires accepted { Accepts (R.kept recorder.old) entry }
    ensures adds { Adds (R.kept recorder.old) entry result (R.kept recorder.new) }
    ensures past { past_in (R.kept recorder.new) ≡ state.new.past }
    ensures fault { IsErrOf result HallFault.LogFault → Rose (R.faults recorder.old) (R.faults recorder.new) }
    ensures counts { IsErrOf result HallFault.Memory → R.faults recorder.new ≡ R.faults recorder.old }
    ensures later { R.faults recorder.old ≤ R.faults recorder.new }
    ensures opened { R.opened recorder.new ≡ R.opened recorder.old }
{
    let ready = state.prepare_own(alloc, entry)?;
    match record(recorder, alloc, ready.entry()) {
        Ok(number) => {
            state.apply(ready);
            Ok(number)
        }
        Err(fault) => {
            drop(ready);
            Err(fault)
        }
    }
}

// Records an entry that may follow and makes no procedure, and the state takes it in. What the recorder would refuse needs no
// memory.
pub(crate) fn add<R: Recorder>(
    state: &mut State,
    recorder: &mut R,
    alloc: Global,
    entry: Entry,
) -> Result<u64, HallFault>
    requires same { past_in (R.kept recorder.old) ≡ state.old.past }
    requires going { halt_of (R.kept recorder.old) ≡ None }
    requires allowed { Allowed state.old.past entry }
    requires other { is_part entry ≡ false }
    requires fits { CanBeRecorded entry }
    ensures adds { Adds (R.kept recorder.old) entry result (R.kept recorder.new) }
    ensures past { past_in (R.kept recorder.new) ≡ state.new.past }
    ensures fault { IsErrOf result HallFault.LogFault → Rose (R.faults recorder.old) (R.faults recorder.new) }
    ensures counts { IsErrOf result HallFault.Memory → R.faults recorder.new ≡ R.faults recorder.old }
    ensures later { R.faults recorder.old ≤ R.faults recorder.new }
    ensures opened { R.opened recorder.new ≡ R.opened recorder.old }
{
    if recorder.will_refuse(&entry) {
        refuse(recorder, alloc, entry)
    } else {
        admit(state, recorder, alloc, entry)
    }
}
