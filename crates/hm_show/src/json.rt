//! All who are shown as JSON.
ghost use Rattle.std.specs.Prelude.{◌≡◌, ◌++◌, IfOk, OnOk, map};
ghost use Rattle.serde_json.specs.View.{view};
ghost use Rattle.hm_model.specs.OldRoots.{old_records};
ghost use Rattle.hm_show.specs.Procs.{cause_value, made_behind, parent_value as value_of_parent, proc_value as value_of, procs_json, shown};

use crate::words::{Subject, cause_name, cause_of, kind_name, state_name};
use hm_data::{Cause, Record};
use hm_names::Pid;
use hm_procedures::Procedures;
use hm_records::Records;
use serde_json::{Value, json};
use std::alloc::{AllocError, Global};

// The name of a cause, or null.
fn name_of(alloc: Global, cause: Option<Cause>) -> Result<Value, AllocError>
    ensures { IfOk result (λ v. view v ≡ cause_value cause) }
{
    match cause {
        Some(cause) => Value::try_from_str(alloc, cause_name(cause)),
        None => Ok(Value::Null),
    }
}

// A number, or null.
fn parent_value(parent: Option<Pid>) -> Value
    ensures { view result ≡ value_of_parent parent }
{
    match parent {
        Some(pid) => Value::from(pid.0),
        None => Value::Null,
    }
}

// A procedure.
fn proc_value(alloc: Global, one: &Record) -> Result<Value, AllocError>
    ensures { IfOk result (λ v. view v ≡ value_of one.now) }
{
    let cause = name_of(alloc, cause_of(one.phase))?;
    let kind = kind_name(&one.args);
    let parent = parent_value(one.parent);
    let pid = one.pid.0;
    let state = state_name(one.phase);
    let subject = Subject(&one.args).to_string(alloc)?;
    json!(in alloc; {
        "cause": cause,
        "kind": kind,
        "parent": parent,
        "pid": pid,
        "state": state,
        "subject": subject
    })
}

// Adds the roots of the base.
fn add_old(
    values: &mut Vec<Value>,
    alloc: Global,
    procedures: &Procedures,
) -> Result<(), AllocError>
    ensures { OnOk result (map view values.new.items ≡ map view values.old.items ++ map value_of (old_records procedures.now.past)) }
{
    let old = procedures.old_roots();
    for one in old {
        values.push(proc_value(alloc, one)?)?;
    }
    Ok(())
}

// Adds the procedures that entries made.
fn add_made(
    values: &mut Vec<Value>,
    alloc: Global,
    procedures: &Procedures,
) -> Result<(), AllocError>
    ensures { OnOk result (map view values.new.items ≡ map view values.old.items ++ map value_of (made_behind procedures.now.past)) }
{
    let offset = procedures.offset();
    let count = procedures.last_pid();
    for index in offset..count {
        if let Some(one) = procedures.find(Pid(index + 1)) {
            values.push(proc_value(alloc, one)?)?;
        }
    }
    Ok(())
}

// All who are shown.
fn proc_values(alloc: Global, procedures: &Procedures) -> Result<Vec<Value>, AllocError>
    ensures { IfOk result (λ values. map view values.items ≡ map value_of (shown procedures.now.past)) }
{
    let _legal = procedures.last_pid();
    let mut values = Vec::new(alloc);
    add_old(&mut values, alloc, procedures)?;
    add_made(&mut values, alloc, procedures)?;
    Ok(values)
}

// All who are shown, in the order of their numbers, as one line of JSON.
pub(crate) fn procs_json(alloc: Global, records: &Records) -> Result<Vec<u8>, AllocError>
    ensures { IfOk result (λ text. text.items ≡ procs_json records.now.past) }
{
    let values = proc_values(alloc, records.procedures())?;
    let mut text = Value::Array(values).to_string(alloc)?;
    text.push_str("\n")?;
    Ok(text.into_bytes())
}
