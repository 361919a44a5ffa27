//! The procedures that an entry makes.
ghost use Rattle.std.specs.Prelude.{◌≡◌, ◌++◌, ◌==◌, [], ◌∷◌, false, map, IfOk, MatchOption, OnOk, None};
ghost use Rattle.std.specs.List.{list_any};
ghost use Rattle.hm_data.specs.declared.args.Args.TheVariants as args_are;
ghost use Rattle.hm_model.specs.Tree.{args_in as procedures_in, child_args};
ghost use Rattle.hm_procedures.specs.Kept.{args_made as made_by, part_args};
ghost use Rattle.hm_model.specs.RegionIds.{AsksForZero, children_asked as asked_by, is_zero_transit as is_one_of_zero};

use crate::ids::first_of;
use crate::records::Records;
use hm_data::{Args, Child, Entry, Goal, Part};
use hm_names::{Copied, List, RegionName, TableName};
use std::alloc::{AllocError, Global};

// The children that an entry asks for.
fn children_asked(entry: &Entry) -> &[Child]
    ensures { result.now ≡ asked_by entry.now }
{
    match entry {
        Entry::Step {
            pid: _,
            pick: _,
            out,
        } => out.children.as_slice(),
        Entry::Undo {
            pid: _,
            row: _,
            out,
        } => out.followers.as_slice(),
        _ => &[],
    }
}

// Whether one of these ids is 0.
fn has_zero(ids: &[u64]) -> bool
    ensures { result ≡ list_any (λ id. id == 0) ids.now }
{
    for id in ids {
        if *id == 0 {
            return true;
        }
    }
    false
}

// Whether a child is a transit of the number 0.
fn is_zero_transit(child: &Child) -> bool
    ensures { result ≡ is_one_of_zero child.now }
{
    match child {
        Child::Transits {
            table: _,
            ids,
            goal: _,
        } => has_zero(ids.as_slice()),
        Child::One(_) => false,
    }
}

// Whether one of these children is.
fn is_any_zero_transit(children: &[Child]) -> bool
    ensures { result ≡ list_any is_one_of_zero children.now }
{
    for child in children {
        if is_zero_transit(child) {
            return true;
        }
    }
    false
}

// Adds a transit of each of a table's regions.
fn push_transits(
    alloc: Global,
    table: &TableName,
    ids: &[u64],
    goal: Goal,
    made: &mut Vec<Args>,
) -> Result<(), AllocError>
    requires { list_any (λ id. id == 0) ids.now ≡ false }
    ensures { OnOk result (made.new.items ≡ made.old.items ++ map (λ id. args_are.Transit (record { table = table.now; id = id }) goal None) ids.now) }
{
    for id in ids {
        let table = table.copy(alloc)?;
        let region = RegionName { table, id: *id };
        made.push(Args::Transit {
            region,
            goal,
            to: None,
        })?;
    }
    Ok(())
}

// Adds the procedures that a child stands for.
fn push_child(alloc: Global, child: &Child, made: &mut Vec<Args>) -> Result<(), AllocError>
    requires { is_one_of_zero child.now ≡ false }
    ensures { OnOk result (made.new.items ≡ made.old.items ++ child_args child.now) }
{
    match child {
        Child::Transits { table, ids, goal } => {
            push_transits(alloc, table, ids.as_slice(), *goal, made)
        }
        Child::One(args) => {
            made.push(args.copy(alloc)?)?;
            Ok(())
        }
    }
}

// What the procedures work on that children stand for, in order.
fn args_in(alloc: Global, children: &[Child]) -> Result<List<Args>, AllocError>
    requires { list_any is_one_of_zero children.now ≡ false }
    ensures { IfOk result (λ made. made ≡ procedures_in children.now) }
{
    let mut made = Vec::new(alloc);
    for child in children {
        push_child(alloc, child, &mut made)?;
    }
    Ok(List::of(made))
}

// A list of one.
fn just(alloc: Global, args: Args) -> Result<List<Args>, AllocError>
    ensures { IfOk result (λ made. made ≡ args ∷ []) }
{
    let mut made = Vec::new(alloc);
    made.push(args)?;
    Ok(List::of(made))
}

// What the root of a part of a base works on, if the part is of one.
fn root_in(alloc: Global, part: &Part) -> Result<List<Args>, AllocError>
    ensures { IfOk result (λ made. made ≡ part_args part.now) }
{
    match part {
        Part::Root {
            pid: _,
            nonce: _,
            args,
            cause: _,
        } => just(alloc, args.copy(alloc)?),
        _ => Ok(List::of(Vec::new(alloc))),
    }
}

// What the procedures work on that an entry makes, in order, of a part of a base what its root works on; none where it asks for a
// transit of the number 0.
pub(crate) fn args_made(
    alloc: Global,
    records: &Records,
    entry: &Entry,
) -> Result<Option<List<Args>>, AllocError>
    ensures { IfOk result (λ made. MatchOption made (AsksForZero entry.now) (λ made. made ≡ made_by records.now.past entry.now)) }
{
    let children = children_asked(entry);
    if is_any_zero_transit(children) {
        return Ok(None);
    }
    match entry {
        Entry::Submit { nonce: _, request } => {
            let first = first_of(records, request);
            let request = request.copy(alloc)?;
            Ok(Some(just(alloc, Args::Root { request, first })?))
        }
        Entry::Down { server } => {
            let server = server.copy(alloc)?;
            Ok(Some(just(alloc, Args::Crash { server })?))
        }
        Entry::Base { part } => Ok(Some(root_in(alloc, part)?)),
        _ => Ok(Some(args_in(alloc, children)?)),
    }
}
