//! The rows of the catalog.
ghost use Rattle.std.specs.Prelude.{◌≡◌, ◌+◌, ◌^◌, ◌≤◌, ◌<◌, [], length, slice_get, Ok, IfOk, OnOk, IfSome};
ghost use Rattle.std.specs.Option.{option_copied, option_map};
ghost use Rattle.hm_data.specs.declared.catalog.CatKey.TheVariants as Key_is;
ghost use Rattle.hm_names.specs.Names.{read_ns};
ghost use Rattle.hm_model.specs.Catalog.{row_at};
ghost use Rattle.hm_model.specs.RowLaws.{AreInOrder};
ghost use Rattle.hm_model.specs.NamespaceActs.{has_table};
ghost use Rattle.hm_model.specs.RowsSaid.{all_among};
ghost use Rattle.hm_data.specs.Keys.{key_cmp};
ghost use Rattle.hm_catalog.specs.Kept.{keys_kept, one_if};
ghost use Rattle.hm_catalog.specs.Rows.{keys_in, rows_in, with_row};
ghost use Rattle.hm_catalog.specs.Spans.{in_span, rows_of};

use crate::rows::{Regions, Rows};
use crate::span::{RowsOf, Span};
use hm_data::laws::keys_order_by_name;
use hm_data::{CatKey, CatRow, Edit};
use hm_index::{Index, Sought};
use hm_names::{Ns, TableName};
use std::alloc::{AllocError, Global};
use std::marker::Model;

/// The rows of namespaces, tables and regions. Contracts see them in the order of their keys, and for how many edits more
/// there is room.
#[derive(Drop)]
pub struct Catalog {
    // A key that lost its row keeps its place.
    pairs: Index<CatKey, Option<CatRow>>,
    // How many have a row.
    count: usize,
}

impl Model for Catalog {
    ghost use Rattle.std.specs.Prelude.{◌≡◌, length};
    ghost use Rattle.hm_data.specs.Keys.{key_cmp};
    ghost use Rattle.hm_catalog.specs.Kept.{keys_kept, one_if};
    ghost use Rattle.hm_catalog.specs.Rows.{CatalogView};
    ghost use Rattle.hm_catalog.specs.Kept.{present};

    ghost Value = { CatalogView };

    ghost view = { λ s. record { rows = present s.pairs.pairs; spare = s.pairs.spare; room = s.pairs.room } };

    ghost invariant = { λ s. length (present s.pairs.pairs) ≡ s.count };
}

impl Catalog {
    /// No row: so a base begins.
    pub fn empty(alloc: Global) -> Result<Catalog, AllocError>
        ensures { IfOk result (λ catalog. catalog.rows ≡ []) }
    {
        Ok(Catalog {
            pairs: Index::new(alloc)?,
            count: 0,
        })
    }

    /// The namespaces that are there from the start.
    pub fn start(alloc: Global) -> Result<Catalog, AllocError>
        ensures { IfOk result (λ catalog. catalog.rows ≡ rows_in []) }
    {
        let mut catalog = Catalog::empty(alloc)?;
        catalog.reserve(alloc, 1)?;
        catalog.set(first_ns(alloc, b"default")?, Some(CatRow::Ns));
        catalog.reserve(alloc, 1)?;
        catalog.set(first_ns(alloc, b"hbase")?, Some(CatRow::Ns));
        Ok(catalog)
    }

    /// The row of a key, or of what stands for one.
    pub fn get<S: Sought<CatKey>>(&self, key: &S) -> Option<&CatRow>
        ensures { option_copied result ≡ row_at self.now.rows (S.stands_for key.now) }
    {
        in_order(&self.pairs);
        self.pairs.get(key)?.as_ref()
    }

    /// The row of a key, or of what stands for one, with the key.
    pub fn find<S: Sought<CatKey>>(&self, key: &S) -> Option<(&CatKey, &CatRow)>
        ensures key { IfSome result (λ found. found.0.now ≡ S.stands_for key.now) }
        ensures row { option_map (λ found. found.1.now) result ≡ row_at self.now.rows (S.stands_for key.now) }
    {
        in_order(&self.pairs);
        let (first, row) = self.pairs.iter_from(key).next()?;
        if key.compared(first).is_ne() {
            return None;
        }
        Some((first, row.as_ref()?))
    }

    /// How many rows there are.
    pub fn len(&self) -> usize
        ensures count { result ≡ length self.now.rows }
        ensures order { AreInOrder (keys_in self.now.rows) }
    {
        in_order(&self.pairs);
        self.count
    }

    /// All rows, in key order.
    pub fn rows(&self) -> Rows<'_>
        ensures { result ≡ self.now.rows }
    {
        Rows::new(self.pairs.view().iter())
    }

    /// The row that stands at a number in key order, counted from 0. It goes there from the front.
    pub fn row(&self, number: usize) -> Option<(&CatKey, &CatRow)>
        ensures { option_map (λ row. (row.0.now, row.1.now)) result ≡ slice_get self.now.rows number }
    {
        self.rows().nth(number)
    }

    /// The regions of a table that have a row, in name order.
    pub fn regions_of<'a>(&'a self, table: &'a TableName) -> Regions<'a>
        ensures { result ≡ all_among table.now self.now.rows }
    {
        Regions::new(self.rows_of(Span::Regions(table)))
    }

    /// The rows of keys that stand together, in key order.
    pub fn rows_of<'a>(&'a self, span: Span<'a>) -> RowsOf<'a>
        ensures { result ≡ rows_of (in_span span.entry) self.now.rows }
    {
        in_order(&self.pairs);
        RowsOf::new(span, self.pairs.iter_from(&span.start()))
    }

    /// Whether a table of a namespace has a row.
    pub fn has_table(&self, ns: &Ns) -> bool
        ensures { result ≡ has_table ns.now self.now.rows }
    {
        self.rows_of(Span::Tables(ns)).next().is_some()
    }

    /// Makes room for so many edits more.
    pub fn reserve(&mut self, alloc: Global, edits: u64) -> Result<(), AllocError>
        ensures rows { self.new.rows ≡ self.old.rows }
        ensures room { OnOk result (edits ≤ self.new.spare) }
        ensures kept { self.old.spare ≤ self.new.spare }
    {
        self.pairs.reserve(alloc, edits as usize)
    }

    /// Gives a key the row that an edit leaves, in the room that was made for it. The row before must be the one that is there.
    pub fn apply(&mut self, edit: Edit)
        requires room { 1 ≤ self.old.spare }
        requires before { edit.before ≡ row_at self.old.rows edit.key }
        ensures rows { self.new.rows ≡ with_row edit.key edit.after self.old.rows }
        ensures spare { self.old.spare ≤ self.new.spare + 1 }
        ensures room { self.new.room ≡ self.old.room }
    {
        self.set(edit.key, edit.after);
    }

    /// Gives a key a row, or takes the one that it has, in the room that was made for it.
    pub fn set(&mut self, key: CatKey, after: Option<CatRow>)
        requires { 1 ≤ self.old.spare }
        ensures rows { self.new.rows ≡ with_row key after self.old.rows }
        ensures spare { self.old.spare ≤ self.new.spare + 1 }
        ensures room { self.new.room ≡ self.old.room }
    {
        in_order(&self.pairs);
        let had = self.get(&key).is_some();
        let has = after.is_some();
        self.pairs.set(key, after);
        in_order(&self.pairs);
        self.count = recounted(self.count, had, has);
    }
}

// The keys are in order: a law that does nothing.
fn in_order(pairs: &Index<CatKey, Option<CatRow>>)
    ensures same { ⟦<CatKey as Ord>⟧.cmp ≡ key_cmp }
    ensures order { AreInOrder (keys_kept pairs.now.pairs) }
    ensures fits { length pairs.now.pairs < 2 ^ 64 }
{
    keys_order_by_name();
    let _count = pairs.view().len();
}

// How many rows there are, when one key had one or not, and has one or not.
fn recounted(count: usize, had: bool, has: bool) -> usize
    requires fits { count + one_if has < 2 ^ 64 + one_if had }
    requires had { one_if had ≤ count }
    ensures { result + one_if had ≡ count + one_if has }
{
    match (had, has) {
        (false, true) => count + 1,
        (true, false) => count - 1,
        _ => count,
    }
}

// A namespace that is there from the start.
fn first_ns(alloc: Global, name: &[u8]) -> Result<CatKey, AllocError>
    requires { read_ns name.now ≡ Ok name.now }
    ensures { IfOk result (λ key. key ≡ Key_is.Ns name.now) }
{
    match Ns::of(alloc, name) {
        Ok(ns) => Ok(CatKey::Ns(ns)),
        Err(_) => Err(AllocError),
    }
}
