//! The parts of the roots.
ghost use Rattle.std.specs.Prelude.{◌≡◌, ◌++◌, ◌≤◌, IfOk, OnOk, length};
ghost use Rattle.hm_model.specs.Image.{root_parts};
ghost use Rattle.hm_model.specs.Rebase.{under_way};
ghost use Rattle.hm_model.specs.Records.{record_of};
ghost use Rattle.hm_image.specs.Roots.{cause_told, made_told, one_told, root_told, roots_told};

use crate::add::add_part;
use hm_data::{Cause, Part, Phase, Record};
use hm_names::{Copied, Nonce, Pid};
use hm_procedures::Procedures;
use hm_records::Records;
use std::alloc::{AllocError, Global};

// The cause for which a root was rolled back, by its phase.
fn cause_of(phase: Phase) -> Option<Cause>
    ensures { result ≡ cause_told phase }
{
    match phase {
        Phase::RolledBack(cause) => Some(cause),
        _ => None,
    }
}

// The part of a root that has ended, as it is shown, with its nonce.
fn root_part(alloc: Global, root: &Record, nonce: Nonce) -> Result<Part, AllocError>
    ensures { IfOk result (λ part. part ≡ root_told root.now nonce) }
{
    Ok(Part::Root {
        pid: root.pid,
        nonce,
        args: root.args.copy(alloc)?,
        cause: cause_of(root.phase),
    })
}

// Adds the parts of roots as they are shown, with their nonces, which come first among some.
fn add_shown(
    alloc: Global,
    roots: &[Record],
    nonces: &[Nonce],
    parts: &mut Vec<Part>,
) -> Result<(), AllocError>
    requires { length roots.now ≤ length nonces.now }
    ensures { OnOk result (parts.new.items ≡ parts.old.items ++ roots_told roots.now nonces.now) }
{
    for (place, root) in roots.iter().enumerate() {
        add_part(parts, root_part(alloc, root, nonces[place])?)?;
    }
    Ok(())
}

// Adds the part of a procedure by its number, if it is there.
fn add_one(
    alloc: Global,
    procedures: &Procedures,
    pid: Pid,
    nonce: Nonce,
    parts: &mut Vec<Part>,
) -> Result<(), AllocError>
    ensures { OnOk result (parts.new.items ≡ parts.old.items ++ one_told (record_of procedures.now.past pid.0) nonce) }
{
    match procedures.find(pid) {
        Some(root) => add_part(parts, root_part(alloc, root, nonce)?),
        None => Ok(()),
    }
}

// Adds the parts of roots by their numbers, with their nonces.
fn add_made(
    alloc: Global,
    procedures: &Procedures,
    roots: &[Pid],
    nonces: &[Nonce],
    parts: &mut Vec<Part>,
) -> Result<(), AllocError>
    requires { length roots.now ≤ length nonces.now }
    ensures { OnOk result (parts.new.items ≡ parts.old.items ++ made_told (record_of procedures.now.past) roots.now nonces.now) }
{
    for (place, pid) in roots.iter().enumerate() {
        add_one(alloc, procedures, *pid, nonces[place], parts)?;
    }
    Ok(())
}

// Adds the parts of the roots of a journal: those of the base, as it tells them, and then those that entries made.
pub(crate) fn add_roots(
    alloc: Global,
    records: &Records,
    parts: &mut Vec<Part>,
) -> Result<(), AllocError>
    requires { under_way records.now.past ≡ 0 }
    ensures { OnOk result (parts.new.items ≡ parts.old.items ++ root_parts records.now.past) }
{
    let procedures = records.procedures();
    let old = procedures.old_roots();
    let nonces = records.root_nonces();
    add_shown(alloc, old, nonces, parts)?;
    let (_told, rest) = nonces.split_at(old.len());
    add_made(alloc, procedures, procedures.roots(), rest, parts)
}
