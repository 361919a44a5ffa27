//! Two regions that are held and have a row in common.
ghost use Rattle.std.specs.Prelude.{◌≡◌, ◌++◌, OnOk, ◌∷◌, [], not};
ghost use Rattle.std.specs.List.{flat_map};
ghost use Rattle.std.specs.List.Sorted.{IsPermutation};
ghost use Rattle.std.specs.Option.{option_copied, option_map};
ghost use Rattle.hm_names.specs.Order.{table_cmp};
ghost use Rattle.hm_model.specs.Keys.{same_table};
ghost use Rattle.hm_model.specs.RowsSaid.{range_in};
ghost use Rattle.hm_model.specs.Single.{overlap_if};
ghost use Rattle.hm_hbck.specs.Found.{Adds, hold_of, holds_of};
ghost use Rattle.hm_hbck.specs.Pairs.{EachEndsOnce, EndsOnce, IsPairOf, RowsAgree, may_meet, meet, name_cmp, of_pair, of_pairs, reaches, start_cmp, twice};

use crate::finding::Finding;
use crate::holdings::Holding;
use hm_data::CatRow;
use hm_names::{Copied, KeyRange, RegionName, RowKey};
use std::alloc::{AllocError, Global};
use std::cmp::Ordering;

// The range of a region's row.
fn range_of<'a>(holding: &Holding<'a>) -> Option<&'a KeyRange>
    ensures { option_copied result ≡ (let hold = hold_of holding.now in range_in hold.row) }
{
    match holding.row {
        Some(CatRow::Region { range, .. }) => Some(range),
        _ => None,
    }
}

// Whether two ranges that are known overlap.
fn overlap(one: Option<&KeyRange>, other: Option<&KeyRange>) -> bool
    ensures { result ≡ overlap_if (option_copied one.entry) (option_copied other.entry) }
{
    match (one, other) {
        (Some(one), Some(other)) => one.overlaps(other),
        _ => false,
    }
}

// Whether a range that is known ends after another starts.
fn range_reaches(one: Option<&KeyRange>, other: Option<&KeyRange>) -> bool
    ensures { result ≡ reaches (option_copied one.entry) (option_copied other.entry) }
{
    match (one, other) {
        (Some(one), Some(other)) => one.end.as_bytes().is_empty() || other.start < one.end,
        _ => false,
    }
}

// Whether two regions are of one table.
fn same_table(one: &RegionName, other: &RegionName) -> bool
    ensures { result ≡ same_table one.now.table other.now.table }
{
    one.table == other.table
}

// How the tables of two regions order.
fn by_table(one: &RegionName, other: &RegionName) -> Ordering
    ensures { result ≡ table_cmp one.now.table other.now.table }
{
    one.table.cmp(&other.table)
}

// Whether two are one region, or have a row in common.
fn do_meet(one: &Holding<'_>, other: &Holding<'_>) -> bool
    ensures { result ≡ meet (hold_of one.now) (hold_of other.now) }
{
    one.region == other.region
        || same_table(one.region, other.region) && overlap(range_of(one), range_of(other))
}

// Whether one that starts no earlier can't meet it.
fn is_past(one: &Holding<'_>, other: &Holding<'_>) -> bool
    ensures { result ≡ not (may_meet (hold_of one.now) (hold_of other.now)) }
{
    let meets = one.region == other.region
        || same_table(one.region, other.region) && range_reaches(range_of(one), range_of(other));
    !meets
}

// How two order by their names.
fn by_name(one: &Holding<'_>, other: &Holding<'_>) -> Ordering
    ensures { result ≡ name_cmp (hold_of one.now) (hold_of other.now) }
{
    one.region
        .cmp(other.region)
        .then(one.server.cmp(other.server))
}

// Where the range of a region's row starts.
fn start_of<'a>(holding: &Holding<'a>) -> Option<&'a RowKey>
    ensures { option_copied result ≡ (let hold = hold_of holding.now in option_map (λ range. range.start) (range_in hold.row)) }
{
    match range_of(holding) {
        Some(range) => Some(&range.start),
        None => None,
    }
}

// How two order by table, then by where their ranges start, then by region.
fn by_start(one: &Holding<'_>, other: &Holding<'_>) -> Ordering
    ensures { result ≡ start_cmp (hold_of one.now) (hold_of other.now) }
{
    by_table(one.region, other.region)
        .then(start_of(one).cmp(&start_of(other)))
        .then(one.region.cmp(other.region))
}

// Adds the finding of two.
fn add_twice(
    alloc: Global,
    one: &Holding<'_>,
    other: &Holding<'_>,
    found: &mut Vec<Finding>,
) -> Result<(), AllocError>
    ensures { OnOk result (found.new.items ≡ found.old.items ++ twice (hold_of one.now) (hold_of other.now) ∷ []) }
{
    let finding = Finding::Twice {
        one: one.region.copy(alloc)?,
        at: one.server.copy(alloc)?,
        other: other.region.copy(alloc)?,
        there: other.server.copy(alloc)?,
    };
    found.push(finding)?;
    Ok(())
}

// Adds what is found of two.
fn add_pair(
    alloc: Global,
    one: &Holding<'_>,
    other: &Holding<'_>,
    found: &mut Vec<Finding>,
) -> Result<(), AllocError>
    ensures { OnOk result (found.new.items ≡ found.old.items ++ of_pair (hold_of one.now) (hold_of other.now)) }
{
    if !do_meet(one, other) {
        return Ok(());
    }
    match by_name(one, other) {
        Ordering::Less => add_twice(alloc, one, other, found),
        Ordering::Equal => Ok(()),
        Ordering::Greater => add_twice(alloc, other, one, found),
    }
}

// Adds what is found of one and any of those after it.
fn add_pairs_with(
    alloc: Global,
    one: &Holding<'_>,
    after: &[Holding<'_>],
    found: &mut Vec<Finding>,
) -> Result<(), AllocError>
    requires { EndsOnce (hold_of one.now) (holds_of after.now) }
    ensures { OnOk result (found.new.items ≡ found.old.items ++ flat_map (of_pair (hold_of one.now)) (holds_of after.now)) }
{
    for other in after {
        if is_past(one, other) {
            return Ok(());
        }
        add_pair(alloc, one, other, found)?;
    }
    Ok(())
}

// Adds what is found of any two.
fn add_all(alloc: Global, list: &[Holding<'_>], found: &mut Vec<Finding>) -> Result<(), AllocError>
    requires { EachEndsOnce (holds_of list.now) }
    ensures { OnOk result (found.new.items ≡ found.old.items ++ of_pairs (holds_of list.now)) }
{
    let mut at = 0;
    while at < list.len() {
        add_pairs_with(alloc, &list[at], &list[at + 1..], found)?;
        at += 1;
    }
    Ok(())
}

// Sorts by where the ranges start.
fn sort_holdings(list: &mut Vec<Holding<'_>>) -> Result<(), AllocError>
    requires { RowsAgree (holds_of list.old.items) }
    ensures sorted { OnOk result (EachEndsOnce (holds_of list.new.items)) }
    ensures same { IsPermutation list.old.items list.new.items }
{
    list.sort_by(|one, other| by_start(one, other))
}

// Adds what is found of any two that are held.
pub(crate) fn add_pairs(
    alloc: Global,
    list: Vec<Holding<'_>>,
    found: &mut Vec<Finding>,
) -> Result<(), AllocError>
    requires { RowsAgree (holds_of list.items) }
    ensures { OnOk result (Adds (IsPairOf (holds_of list.entry.items)) found.old.items found.new.items) }
{
    let mut sorted = list;
    sort_holdings(&mut sorted)?;
    add_all(alloc, &sorted, found)
}
