//! Merges: what stands against one, and its edits.
ghost use Rattle.std.specs.Prelude.{◌≡◌, ℕ, List, ◌≤◌, ◌++◌, ◌&&◌, ◌==◌, not, length, map, IfNone, IfOk, IfSome, OnOk, Some, [], ◌∷◌, is_none};
ghost use Rattle.std.specs.List.{insert, list_any};
ghost use Rattle.std.specs.Str.{bytes_eq};
ghost use Rattle.arrayvec.specs.ArrayVec.{array_vec_len};
ghost use Rattle.hm_model.specs.Catalog.{row_at};
ghost use Rattle.hm_model.specs.Changes.{add_merged, mark_merged as marks, merge_edits as merging};
ghost use Rattle.hm_model.specs.Checks.{by_start as started, hull as hull_of, parts_of, regions_live, rows_of, with_part};
ghost use Rattle.hm_model.specs.Deeds.{cause_of_merge};
ghost use Rattle.hm_model.specs.Kinds.{table_of_first};
ghost use Rattle.hm_model.specs.Locks.{in_name_order as ordered, with_region};
ghost use Rattle.hm_model.specs.RowsSaid.{is_live_status, status_in};
ghost use Rattle.hm_catalog.specs.Merges.{are_chained, part_of, pieces_of};

use crate::catalog::Catalog;
use crate::checks::{is_live, is_missing, range_of, table_enabled};
use crate::edits::{Change, adding, changing};
use crate::name::Name;
use arrayvec::ArrayVec;
use hm_data::{CatKey, Cause, Edit, Status};
use hm_names::{Copied, KeyRange, RegionName, RowKey};
use std::alloc::{AllocError, Global};
use std::cmp::Ordering;

/// A region that is merged, by its id, and its range.
#[derive(Clone, Copy)]
pub(crate) struct Piece<'a> {
    id: u64,
    range: &'a KeyRange,
}

// The regions of a merge, by their start keys.
type Pieces<'a> = ArrayVec<Option<Piece<'a>>, 10>;

// A region among some has no row.
fn is_one_missing(regions: &[RegionName], catalog: &Catalog) -> bool
    ensures { result ≡ list_any (λ row. is_none (status_in row)) (rows_of (row_at catalog.now.rows) regions.now) }
{
    for region in regions {
        if is_missing(catalog.get(&Name::Region(region))) {
            return true;
        }
    }
    false
}

// A region among some isn't live.
fn is_one_dead(regions: &[RegionName], catalog: &Catalog) -> bool
    ensures { result ≡ list_any (λ row. not (is_live_status (status_in row))) (rows_of (row_at catalog.now.rows) regions.now) }
{
    for region in regions {
        if !is_live(catalog.get(&Name::Region(region))) {
            return true;
        }
    }
    false
}

// Each of some regions is there, and each is live.
fn all_live(regions: &[RegionName], catalog: &Catalog) -> Option<Cause>
    ensures { result ≡ regions_live (rows_of (row_at catalog.now.rows) regions.now) }
{
    if is_one_missing(regions, catalog) {
        return Some(Cause::RegionMissing);
    }
    if is_one_dead(regions, catalog) {
        return Some(Cause::RegionNotLive);
    }
    None
}

// The first of some pieces, and those after it.
fn split_first<'a, 'b>(
    pieces: &'b [Option<Piece<'a>>],
) -> Option<(Piece<'a>, &'b [Option<Piece<'a>>])>
    ensures some { IfSome result (λ p. pieces.now ≡ Some p.0 ∷ p.1.now) }
    ensures none { IfNone result (pieces_of pieces.now ≡ []) }
{
    let [first, rest @ ..] = pieces else {
        return None;
    };
    let piece = (*first)?;
    Some((piece, rest))
}

// Where a piece goes among pieces.
fn place_for(pieces: &[Option<Piece<'_>>], piece: Piece<'_>) -> usize
    requires { length pieces.now ≤ 10 }
    ensures within { result ≤ length pieces.now }
    ensures place { pieces_of (insert pieces.now result (Some piece.entry)) ≡ with_part (part_of piece.entry) (pieces_of pieces.now) }
{
    match split_first(pieces) {
        Some((first, rest)) => {
            if piece.range.start <= first.range.start {
                return 0;
            }
            place_for(rest, piece) + 1
        }
        None => 0,
    }
}

// The regions of a merge that have ranges, by their start keys.
fn by_start<'a>(regions: &[RegionName], catalog: &'a Catalog) -> Pieces<'a>
    requires { length regions.now ≤ 10 }
    ensures pieces { pieces_of result.items ≡ started (parts_of (row_at catalog.now.rows) regions.now) }
    ensures few { array_vec_len result ≤ length regions.now }
{
    let [region, more @ ..] = regions else {
        return ArrayVec::new();
    };
    let mut pieces = by_start(more, catalog);
    if let Some(range) = range_of(catalog.get(&Name::Region(region))) {
        let piece = Piece {
            id: region.id,
            range,
        };
        let place = place_for(pieces.as_slice(), piece);
        pieces.insert(place, Some(piece));
    }
    pieces
}

// The range's end isn't the open one and is the next one's start.
fn meets(range: &KeyRange, next: &KeyRange) -> bool
    ensures { result ≡ (not (length range.now.end == 0) && bytes_eq range.now.end next.now.start) }
{
    !range.end.as_bytes().is_empty() && range.end.as_bytes() == next.start.as_bytes()
}

// Each piece meets the next.
fn is_chain(pieces: &[Option<Piece<'_>>]) -> bool
    ensures { result ≡ are_chained (pieces_of pieces.now) }
{
    let Some((first, mut rest)) = split_first(pieces) else {
        return true;
    };
    let mut range = first.range;
    while let Some((piece, more)) = split_first(rest) {
        if !meets(range, piece.range) {
            return false;
        }
        range = piece.range;
        rest = more;
    }
    true
}

/// The first cause against a merge.
pub(crate) fn against_merge(regions: &[RegionName], catalog: &Catalog) -> Option<Cause>
    requires { length regions.now ≤ 10 }
    ensures { result ≡ cause_of_merge (table_of_first regions.now) (row_at catalog.now.rows) regions.now }
{
    let [region, ..] = regions else {
        return None;
    };
    let cause = table_enabled(catalog.get(&Name::Table(&region.table)));
    if cause.is_some() {
        return cause;
    }
    let cause = all_live(regions, catalog);
    if cause.is_some() {
        return cause;
    }
    if is_chain(by_start(regions, catalog).as_slice()) {
        None
    } else {
        Some(Cause::NotAdjacent)
    }
}

// Where a region goes among regions in name order.
fn place_by_name(sorted: &[RegionName], region: &RegionName) -> usize
    ensures within { result ≤ length sorted.now }
    ensures place { insert sorted.now result region.now ≡ with_region region.now sorted.now }
{
    for (place, other) in sorted.iter().enumerate() {
        if !matches!(region.cmp(other), Ordering::Greater) {
            return place;
        }
    }
    sorted.len()
}

// Copies of the regions, in name order.
fn in_name_order(alloc: Global, regions: &[RegionName]) -> Result<Vec<RegionName>, AllocError>
    ensures { IfOk result (λ v. v.items ≡ ordered regions.now) }
{
    let mut sorted = Vec::new(alloc);
    let count = regions.len();
    for done in 0..count {
        let region = &regions[count - 1 - done];
        let place = place_by_name(&sorted, region);
        sorted.insert(place, region.copy(alloc)?)?;
    }
    Ok(sorted)
}

// Regions marked as merged.
fn mark_merged(
    alloc: Global,
    catalog: &Catalog,
    regions: &[RegionName],
) -> Result<Vec<Edit>, AllocError>
    ensures { IfOk result (λ edits. edits.items ≡ marks (row_at catalog.now.rows) regions.now) }
{
    let mut edits = Vec::new(alloc);
    for region in regions {
        let key = CatKey::Region(region.copy(alloc)?);
        edits.push(changing(alloc, catalog, key, Change::Status(Status::Merged))?)?;
    }
    Ok(edits)
}

// The range of the last piece, or else this one.
fn last_range<'a>(range: &'a KeyRange, pieces: &[Option<Piece<'a>>]) -> &'a KeyRange
    ensures { (start : List ℕ) → hull_of (record { start = start; end = range.now.end }) (pieces_of pieces.now) ≡ record { start = start; end = result.now.end } }
{
    match split_first(pieces) {
        Some((piece, more)) => last_range(piece.range, more),
        None => range,
    }
}

// From the start of a range to the end of the last piece.
fn hull(
    alloc: Global,
    first: &KeyRange,
    pieces: &[Option<Piece<'_>>],
) -> Result<KeyRange, AllocError>
    ensures { IfOk result (λ range. range ≡ hull_of first.now (pieces_of pieces.now)) }
{
    let last = last_range(first, pieces);
    Ok(KeyRange {
        start: first.start.copy(alloc)?,
        end: last.end.copy(alloc)?,
    })
}

// The ids of pieces.
fn ids_of(alloc: Global, pieces: &[Option<Piece<'_>>]) -> Result<Vec<u64>, AllocError>
    ensures { IfOk result (λ ids. ids.items ≡ map (λ part. part.id) (pieces_of pieces.now)) }
{
    let mut ids = Vec::new(alloc);
    for piece in pieces {
        let Some(piece) = piece else {
            return Ok(ids);
        };
        ids.push(piece.id)?;
    }
    Ok(ids)
}

// Adds the region that others become.
fn push_merged(
    alloc: Global,
    catalog: &Catalog,
    regions: &[RegionName],
    first: u64,
    edits: &mut Vec<Edit>,
) -> Result<(), AllocError>
    requires first { 1 ≤ first }
    requires few { length regions.now ≤ 10 }
    ensures { OnOk result (edits.new.items ≡ edits.old.items ++ add_merged (row_at catalog.now.rows) first regions.now regions.now) }
{
    let [region, ..] = regions else {
        return Ok(());
    };
    let pieces = by_start(regions, catalog);
    if let Some((piece, more)) = split_first(pieces.as_slice()) {
        let range = hull(alloc, piece.range, more)?;
        let ids = ids_of(alloc, pieces.as_slice())?;
        edits.push(adding(alloc, catalog, &region.table, first, range, ids)?)?;
    }
    Ok(())
}

/// Regions are merged: each is marked, in name order, and one is added.
pub(crate) fn merge_regions(
    alloc: Global,
    catalog: &Catalog,
    regions: &[RegionName],
    first: u64,
) -> Result<Vec<Edit>, AllocError>
    requires first { 1 ≤ first }
    requires few { length regions.now ≤ 10 }
    ensures { IfOk result (λ edits. edits.items ≡ merging (row_at catalog.now.rows) regions.now first) }
{
    let ordered = in_name_order(alloc, regions)?;
    let mut edits = mark_merged(alloc, catalog, &ordered)?;
    push_merged(alloc, catalog, regions, first, &mut edits)?;
    Ok(edits)
}
