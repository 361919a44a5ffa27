//! What a catalog shows of its rows.
ghost use Rattle.std.specs.Prelude.{◌≡◌};
ghost use Rattle.std.specs.Iterator.{YieldsFirstBy, YieldsFirstRef, item_count};
ghost use Rattle.hm_catalog.specs.Kept.{present};
ghost use Rattle.hm_catalog.specs.Spans.{regions_in};

use crate::span::RowsOf;
use hm_data::{CatKey, CatRow};
use hm_index::Iter;
use hm_names::RegionName;
use std::marker::Model;

/// Rows with their keys, in key order. Contracts see the list of those that are left.
#[derive(Drop)]
pub struct Rows<'a> {
    pairs: Iter<'a, CatKey, Option<CatRow>>,
}

impl<'a> Model for Rows<'a> {
    ghost use Rattle.hm_model.specs.RowsSaid.{Rows as RowsOf};
    ghost use Rattle.hm_catalog.specs.Kept.{present};

    ghost Value = { RowsOf };

    ghost view = { λ s. present s.pairs };
}

impl<'a> Rows<'a> {
    pub(crate) fn new(pairs: Iter<'a, CatKey, Option<CatRow>>) -> Rows<'a>
        ensures { result ≡ present pairs.entry }
    {
        Rows { pairs }
    }
}

impl<'a> Iterator for Rows<'a> {
    type Item = (&'a CatKey, &'a CatRow);

    ghost next_gives = { YieldsFirstBy (λ row. (row.0.now, row.1.now)) (λ rest. rest) };

    ghost remaining = { item_count (λ rest. rest) };

    fn next(&mut self) -> Option<(&'a CatKey, &'a CatRow)> {
        loop {
            let pair = self.pairs.next()?;
            if let Some(row) = &pair.1 {
                return Some((&pair.0, row));
            }
        }
    }
}

/// The regions of a table that have a row, in name order. Contracts see the list of those that are left.
#[derive(Drop)]
pub struct Regions<'a> {
    rows: RowsOf<'a>,
}

impl<'a> Model for Regions<'a> {
    ghost use Rattle.std.specs.Prelude.{List};
    ghost use Rattle.hm_names.specs.Region.{Region};
    ghost use Rattle.hm_catalog.specs.Spans.{regions_in};

    ghost Value = { List Region };

    ghost view = { λ s. regions_in s.rows };
}

impl<'a> Regions<'a> {
    pub(crate) fn new(rows: RowsOf<'a>) -> Regions<'a>
        ensures { result ≡ regions_in rows.entry }
    {
        Regions { rows }
    }
}

impl<'a> Iterator for Regions<'a> {
    type Item = &'a RegionName;

    ghost next_gives = { YieldsFirstRef (λ rest. rest) };

    ghost remaining = { item_count (λ rest. rest) };

    fn next(&mut self) -> Option<&'a RegionName> {
        loop {
            let (key, _row) = self.rows.next()?;
            if let CatKey::Region(region) = key {
                return Some(region);
            }
        }
    }
}
