//! Keys that stand together, and their rows.
ghost use Rattle.std.specs.Prelude.{◌≡◌};
ghost use Rattle.std.specs.Iterator.{YieldsFirstBy, item_count};
ghost use Rattle.hm_catalog.specs.Kept.{key_of, rows_ahead};
ghost use Rattle.hm_catalog.specs.Spans.{in_span, is_from as from, low_of};

use crate::name::Name;
use hm_data::{CatKey, CatRow};
use hm_index::Iter;
use hm_names::{Ns, TableName};
use std::marker::Model;

/// Keys that stand together in key order.
#[derive(Clone, Copy)]
pub enum Span<'a> {
    /// Those of a namespace's tables.
    Tables(&'a Ns),
    /// Those of a table's regions.
    Regions(&'a TableName),
    /// Those of all regions.
    AllRegions,
    /// Those of a table's regions with one of so many numbers, from the first on.
    Numbers {
        table: &'a TableName,
        first: u64,
        count: u64,
    },
}

impl<'a> Span<'a> {
    pub(crate) fn start(&self) -> Name<'a>
        ensures { key_of result ≡ low_of self.now }
    {
        match self {
            Span::Tables(ns) => Name::FirstTable(ns),
            Span::Regions(table) => Name::RegionsFrom(table, 0),
            Span::AllRegions => Name::FirstRegion,
            Span::Numbers {
                table,
                first,
                count: _,
            } => Name::RegionsFrom(table, *first),
        }
    }

    pub(crate) fn holds(&self, key: &CatKey) -> bool
        ensures { result ≡ in_span self.now key.now }
    {
        match key {
            CatKey::Ns(_) => false,
            CatKey::Table(table) => match self {
                Span::Tables(ns) => table.ns == **ns,
                _ => false,
            },
            CatKey::Region(region) => match self {
                Span::Tables(_) => false,
                Span::Regions(table) => region.table == **table,
                Span::AllRegions => true,
                Span::Numbers {
                    table,
                    first,
                    count,
                } => region.table == **table && is_from(region.id, *first, *count),
            },
        }
    }
}

// A number is one of so many from the first on.
fn is_from(id: u64, first: u64, count: u64) -> bool
    ensures { result ≡ from first count id }
{
    first <= id && id - first < count
}

/// The rows of keys that stand together, in key order. Contracts see the list of those that are left.
#[derive(Drop)]
pub struct RowsOf<'a> {
    span: Span<'a>,
    pairs: Iter<'a, CatKey, Option<CatRow>>,
    ended: bool,
}

impl<'a> Model for RowsOf<'a> {
    ghost use Rattle.std.specs.Prelude.{[], if◌then◌else◌};
    ghost use Rattle.hm_model.specs.RowsSaid.{Rows};
    ghost use Rattle.hm_catalog.specs.Kept.{rows_ahead};
    ghost use Rattle.hm_catalog.specs.Spans.{in_span};

    ghost Value = { Rows };

    ghost view = { λ s. if s.ended then [] else rows_ahead (in_span s.span) s.pairs };
}

impl<'a> RowsOf<'a> {
    pub(crate) fn new(span: Span<'a>, pairs: Iter<'a, CatKey, Option<CatRow>>) -> RowsOf<'a>
        ensures { result ≡ rows_ahead (in_span span.entry) pairs.entry }
    {
        RowsOf {
            span,
            pairs,
            ended: false,
        }
    }
}

impl<'a> Iterator for RowsOf<'a> {
    type Item = (&'a CatKey, &'a CatRow);

    ghost next_gives = { YieldsFirstBy (λ row. (row.0.now, row.1.now)) (λ rest. rest) };

    ghost remaining = { item_count (λ rest. rest) };

    fn next(&mut self) -> Option<(&'a CatKey, &'a CatRow)> {
        while !self.ended {
            match self.pairs.next() {
                Some((key, row)) if self.span.holds(key) => {
                    if let Some(row) = row {
                        return Some((key, row));
                    }
                }
                _ => self.ended = true,
            }
        }
        None
    }
}
