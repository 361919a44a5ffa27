//! What the records of a whole base tell.
use crate::roots::put_root;
use hm_data::Part;
use hm_names::Pid;
use hm_records::Records;
use std::alloc::AllocError;

// Puts how much there is: the last number, the rows, and the roots.
fn put_counts(records: &Records, out: &mut String) -> Result<(), AllocError> {
    let last = records.procedures().last_pid();
    let rows = records.catalog().len();
    let roots = records.procedures().old_roots().len();
    write!(out, "whole: last {last}, {rows} rows, {roots} roots")
}

// Puts what is told of a part: the ids of a table, or a root.
fn put_part(records: &Records, part: &Part, out: &mut String) -> Result<(), AllocError> {
    match part {
        Part::Table {
            table,
            drawn: _,
            row: _,
        } => write!(out, "; {table} drew {}", records.drawn(table)),
        Part::Root {
            pid,
            nonce,
            args: _,
            cause: _,
        } => put_root(records, *pid, nonce, out),
        _ => Ok(()),
    }
}

// Puts the roots whose layouts are there.
fn put_layouts(layouts: &[Pid], out: &mut String) -> Result<(), AllocError> {
    out.push_str("; laid out")?;
    for pid in layouts {
        write!(out, " {}", pid.0)?;
    }
    if layouts.is_empty() {
        out.push_str(" none")?;
    }
    Ok(())
}

/// Puts what the records of a whole base tell of its parts.
pub fn put_whole(records: &Records, parts: &[Part], out: &mut String) -> Result<(), AllocError> {
    put_counts(records, out)?;
    for part in parts {
        put_part(records, part, out)?;
    }
    put_layouts(records.layouts(), out)
}
