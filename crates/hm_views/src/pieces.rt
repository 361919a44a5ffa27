// Lists of regions in pieces, and the children that stand for them.
ghost use Rattle.std.specs.Prelude.{◌≡◌, ◌+◌, ◌≤◌, ◌<◌, ◌^◌, IfOk, length, map};
ghost use Rattle.hm_data.specs.declared.args.Args.TheVariants as args_are;
ghost use Rattle.hm_data.specs.declared.args.Child.TheVariants as child_is;
ghost use Rattle.hm_model.specs.Pieces.{numbers_from as numbered, batches as batched_by, transits as transits_of, dropping as drops, adding as adds};
ghost use Rattle.hm_model.specs.Views.{regions_in};
ghost use Rattle.hm_views.specs.Runs.{leading};

use crate::lookup::same_table;
use crate::order::{ids_of, in_name_order};
use hm_data::{Args, Child, Goal};
use hm_names::{Copied, List, RegionName, RowKey, TableName};
use std::alloc::{AllocError, Global};

// The most regions that one procedure adds or removes.
const PIECE: usize = 64;

// How many of the first regions are of the table.
fn run_of(table: &TableName, regions: &[RegionName]) -> usize
    ensures count { result ≡ leading table.now regions.now }
    ensures within { result ≤ length regions.now }
{
    for (place, region) in regions.iter().enumerate() {
        if !same_table(table, &region.table) {
            return place;
        }
    }
    regions.len()
}

// Transits of the regions of one table.
fn batch(alloc: Global, goal: Goal, table: &TableName, ids: Vec<u64>) -> Result<Child, AllocError>
    ensures { IfOk result (λ child. child ≡ child_is.Transits table.now ids.items goal) }
{
    Ok(Child::Transits {
        table: table.copy(alloc)?,
        ids: List::of(ids),
        goal,
    })
}

// Transits of regions: one child for each table whose regions stand together.
#[tactic(auto, using(crate::proofs::InPieces::batches_by, crate::proofs::InPieces::leads_first))]
fn batches(alloc: Global, goal: Goal, regions: &[RegionName]) -> Result<Vec<Child>, AllocError>
    ensures { IfOk result (λ v. v.items
        ≡ map (λ batch. child_is.Transits batch.table batch.ids goal) (batched_by regions.now)) }
{
    let mut children = Vec::new(alloc);
    let mut rest = regions;
    while !rest.is_empty() {
        let first = &rest[0];
        let count = run_of(&first.table, rest);
        let (run, behind) = rest.split_at(count);
        let ids = ids_of(alloc, run)?;
        children.push(batch(alloc, goal, &first.table, ids)?)?;
        rest = behind;
    }
    Ok(children)
}

/// Transits of regions: one child for each table, in name order, with the ids rising.
pub fn transits(alloc: Global, goal: Goal, regions: &[RegionName]) -> Result<Vec<Child>, AllocError>
    ensures { IfOk result (λ v. v.items ≡ transits_of goal regions.now) }
{
    let ordered = in_name_order(alloc, regions)?;
    batches(alloc, goal, &ordered)
}

// So many numbers from one on, rising.
#[tactic(auto, using(crate::proofs::InPieces::numbers_more))]
fn numbers_from(alloc: Global, first: u64, count: usize) -> Result<Vec<u64>, AllocError>
    requires { first + count < 2 ^ 64 }
    ensures { IfOk result (λ v. v.items ≡ numbered first count) }
{
    let mut numbers = Vec::new(alloc);
    for place in 0..count {
        numbers.push(first + place as u64)?;
    }
    Ok(numbers)
}

/// Transits of so many regions of a table from a first id on.
#[tactic(auto, using(crate::proofs::InPieces::transits_on))]
pub fn transits_from(
    alloc: Global,
    goal: Goal,
    table: &TableName,
    first: u64,
    count: usize,
) -> Result<Vec<Child>, AllocError>
    requires { first + count < 2 ^ 64 }
    ensures { IfOk result (λ v. v.items ≡ transits_of goal (regions_in table.now (numbered first count))) }
{
    let mut children = Vec::new(alloc);
    if count > 0 {
        let ids = numbers_from(alloc, first, count)?;
        children.push(batch(alloc, goal, table, ids)?)?;
    }
    Ok(children)
}

// A procedure that removes the regions with these ids.
fn drops_ids(alloc: Global, table: &TableName, ids: Vec<u64>) -> Result<Child, AllocError>
    ensures { IfOk result (λ child. child ≡ child_is.One (args_are.DropRegions table.now ids.items)) }
{
    let table = table.copy(alloc)?;
    Ok(Child::One(Args::DropRegions {
        table,
        ids: List::of(ids),
    }))
}

// A procedure that removes regions.
fn drop_piece(alloc: Global, table: &TableName, ids: &[u64]) -> Result<Child, AllocError>
    ensures { IfOk result (λ child. child ≡ child_is.One (args_are.DropRegions table.now ids.now)) }
{
    let ids = Vec::from_slice(alloc, ids)?;
    drops_ids(alloc, table, ids)
}

/// Procedures that remove regions, 64 each, the last the rest.
#[tactic(auto, using(crate::proofs::InPieces::dropping_by))]
pub fn dropping(alloc: Global, table: &TableName, ids: &[u64]) -> Result<Vec<Child>, AllocError>
    ensures { IfOk result (λ v. v.items ≡ drops table.now ids.now) }
{
    let mut children = Vec::new(alloc);
    let mut rest = ids;
    while !rest.is_empty() {
        let (piece, behind) = rest.split_at(rest.len().min(PIECE));
        children.push(drop_piece(alloc, table, piece)?)?;
        rest = behind;
    }
    Ok(children)
}

/// Copies of keys.
pub fn key_copies(alloc: Global, keys: &[RowKey]) -> Result<Vec<RowKey>, AllocError>
    ensures { IfOk result (λ v. v.items ≡ keys.now) }
{
    let mut copied = Vec::new(alloc);
    for key in keys {
        copied.push(key.copy(alloc)?)?;
    }
    Ok(copied)
}

// A procedure that adds the regions between the bounds that it is given.
fn adds_between(
    alloc: Global,
    table: &TableName,
    first: u64,
    bounds: Vec<RowKey>,
) -> Result<Child, AllocError>
    ensures { IfOk result
        (λ child. child ≡ child_is.One (args_are.AddRegions table.now first bounds.items)) }
{
    let table = table.copy(alloc)?;
    Ok(Child::One(Args::AddRegions {
        table,
        first,
        bounds: List::of(bounds),
    }))
}

// A procedure that adds the regions between bounds.
fn add_piece(
    alloc: Global,
    table: &TableName,
    first: u64,
    bounds: &[RowKey],
) -> Result<Child, AllocError>
    ensures { IfOk result
        (λ child. child ≡ child_is.One (args_are.AddRegions table.now first bounds.now)) }
{
    let bounds = key_copies(alloc, bounds)?;
    adds_between(alloc, table, first, bounds)
}

/// Procedures that add the regions between bounds, 64 each, the last the rest.
#[tactic(auto, using(crate::proofs::InPieces::adding_by))]
pub fn adding(
    alloc: Global,
    table: &TableName,
    first: u64,
    bounds: &[RowKey],
) -> Result<Vec<Child>, AllocError>
    requires { first < 2 ^ 32 }
    ensures { IfOk result (λ v. v.items ≡ adds (length bounds.now) table.now first bounds.now) }
{
    let mut children = Vec::new(alloc);
    let mut rest = bounds;
    let mut next = first;
    while rest.len() > 1 {
        let (piece, _) = rest.split_at(rest.len().min(PIECE + 1));
        children.push(add_piece(alloc, table, next, piece)?)?;
        let (done, behind) = rest.split_at(rest.len().min(PIECE));
        next += done.len() as u64;
        rest = behind;
    }
    Ok(children)
}
