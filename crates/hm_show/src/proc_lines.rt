//! The table `procs`.
ghost use Rattle.std.specs.Prelude.{◌≡◌, ◌+◌, ◌<◌, ◌^◌, IfOk, OnOk, filter, map};
ghost use Rattle.hm_model.specs.Image.{counted};
ghost use Rattle.hm_show.specs.Lines.{AreLines, IsMore};
ghost use Rattle.hm_show.specs.Procs.{has_no_parent, proc_line, procs_table, shown};

use crate::lines::Lines;
use crate::words::{Subject, cause_name, cause_of, kind_name, state_name};
use hm_data::Record;
use hm_procedures::Procedures;
use hm_records::Records;
use std::alloc::{AllocError, Global};

// Adds the line of a procedure.
fn put_proc(lines: &mut Lines, one: &Record) -> Result<(), AllocError>
    requires { lines.old.count + 1 < 2 ^ 64 }
    ensures { OnOk result (IsMore (proc_line one.now) lines.old lines.new) }
{
    let pid = one.pid.0;
    let kind = kind_name(&one.args);
    let subject = Subject(&one.args);
    let state = state_name(one.phase);
    match cause_of(one.phase) {
        Some(cause) => {
            let cause = cause_name(cause);
            write!(lines.text, "{pid} {kind} {subject} {state} {cause}\n")?;
        }
        None => write!(lines.text, "{pid} {kind} {subject} {state}\n")?,
    }
    lines.count += 1;
    Ok(())
}

// The lines of the roots: of those of the base, and then of those that entries made.
fn root_lines(alloc: Global, procedures: &Procedures) -> Result<Lines, AllocError>
    ensures { IfOk result (AreLines (map proc_line (filter has_no_parent (shown procedures.now.past)))) }
{
    let _legal = procedures.last_pid();
    let mut lines = Lines::new(alloc);
    let old = procedures.old_roots();
    for one in old {
        put_proc(&mut lines, one)?;
    }
    let roots = procedures.roots();
    for root in roots {
        if let Some(one) = procedures.find(*root) {
            put_proc(&mut lines, one)?;
        }
    }
    Ok(lines)
}

// The table `procs`: the roots in the order of their numbers. So many entries were recorded.
pub(crate) fn procs(alloc: Global, entries: u64, records: &Records) -> Result<Vec<u8>, AllocError>
    requires { entries ≡ counted records.now.past }
    ensures { IfOk result (λ table. table.items ≡ procs_table records.now.past) }
{
    root_lines(alloc, records.procedures())?.into_table(alloc, "procs", entries)
}
