//! The records of a journal.
ghost use Rattle.std.specs.Prelude.{◌≡◌, ◌≢◌, ◌+◌, ◌≤◌, [], ◌∷◌, ℕ, IfOk, IfSome, MatchOption, OnOk, Some, ◌⊎◌};
ghost use Rattle.std.specs.Option.{option_copied, option_map};
ghost use Rattle.hm_model.specs.Editions.{editions as editions_in, sheets_in};
ghost use Rattle.hm_model.specs.Nonces.{by_nonce};
ghost use Rattle.hm_model.specs.OldRoots.{shown_of};
ghost use Rattle.hm_model.specs.RegionIds.{AsksForZero, NamesIds};
ghost use Rattle.hm_model.specs.Rules.{IsLegal};
ghost use Rattle.hm_model.specs.Sheets.{sheets_of as sheets_in_force};
ghost use Rattle.hm_model.specs.Standings.{standings_of};
ghost use Rattle.hm_model.specs.Tree.{Node, drawn, node_of, pid_of};
ghost use Rattle.hm_model.specs.Loads.{places_of};
ghost use Rattle.hm_catalog.specs.Rows.{rows_in};
ghost use Rattle.hm_undo.specs.Laws.{Tells};
ghost use Rattle.hm_locks.specs.Laws.{IsBookOf};
ghost use Rattle.hm_records.specs.Book.{AreRows, ListOpen};
ghost use Rattle.hm_records.specs.Lists.{laid_in_base, root_nonces as nonces_of_roots};
ghost use Rattle.hm_records.specs.Parts.{AdoptsInvalid, AreParts, size_of};
ghost use Rattle.hm_records.specs.Records.{AreDrawn, AreForgotten, is_open};

use crate::blank::Blank;
use crate::book::{enlist_made, release_ended};
use crate::fleet::set_servers;
use crate::ids::{count_ids, drawn_in};
use crate::lists::Lists;
use crate::named::entry_names;
use crate::nonces::add_nonce;
use crate::parts::{Parts, parts_of};
use crate::regions::set_place;
use crate::rows::set_rows;
use crate::steps::{enter_tree, tree_of};
use hm_catalog::Catalog;
use hm_data::{Entry, Record};
use hm_ids::ids_are_named;
use hm_index::{Index, View};
use hm_locks::LockBook;
use hm_names::{List, Nonce, Pid, TableName};
use hm_places::{Places, Servers};
use hm_procedures::Procedures;
use hm_sheet::Valid;
use hm_undo::Stack;
use std::alloc::{AllocError, Global};
use std::marker::Model;

/// What a legal journal says that has an entry: a start, or a base's head, and what follows. Contracts see the journal, back from
/// its newest entry, and for how much more there is room.
#[derive(Drop)]
pub struct Records {
    procedures: Procedures,
    catalog: Catalog,
    stack: Stack,
    places: Places,
    servers: Servers,
    nonces: Index<Nonce, Pid>,
    // How many region ids were drawn for a table.
    drawn: Index<TableName, u64>,
    lists: Lists,
    book: LockBook,
}

impl Model for Records {
    ghost use Rattle.std.specs.Prelude.{◌+◌, min};
    ghost use Rattle.hm_records.specs.Records.{AreRecords, RecordsView};

    ghost Value = { RecordsView };

    ghost view = { λ s. record { past = s.procedures.past; spare = min (min s.procedures.spare s.catalog.spare) (min (min s.stack.spare s.places.spare) (min (min s.servers.spare (min s.nonces.spare s.drawn.spare)) (min s.lists.spare (min s.book.spare s.book.spare_asks)))); room = s.procedures.room + s.catalog.room + (s.stack.room + s.places.room) + (s.servers.room + (s.nonces.room + s.drawn.room)) + s.lists.room + s.book.room } };

    ghost invariant = { λ s. AreRecords s.procedures.past (record { rows = s.catalog.rows; stacks = s.stack.stacks; places = s.places.places; servers = s.servers.servers; nonces = s.nonces.pairs; drawn_ids = s.drawn.pairs; sheets = s.lists.sheets; layouts = s.lists.layouts; root_nonces = s.lists.root_nonces; book = s.book.rows }) };
}

// The procedures of a journal that has one entry: none.
fn begun(alloc: Global, entry: &Entry) -> Result<Procedures, AllocError>
    requires { IsLegal (entry.now ∷ []) }
    ensures { IfOk result (λ procedures. procedures.past ≡ entry.now ∷ []) }
{
    let mut procedures = Procedures::new(alloc)?;
    procedures.enter(entry, List::of(Vec::new(alloc)), true);
    Ok(procedures)
}

impl Records {
    /// What the journal says whose only entry this is, a start or a base's head, with its sheets.
    pub fn begin(alloc: Global, entry: &Entry, sheets: Vec<Valid>) -> Result<Records, AllocError>
        requires legal { IsLegal (entry.now ∷ []) }
        requires sheets { sheets.items ≡ sheets_in_force (entry.now ∷ []) }
        ensures { IfOk result (λ records. records.past ≡ entry.now ∷ []) }
    {
        let procedures = begun(alloc, entry)?;
        let blank = Blank::new(alloc, entry)?;
        let lists = Lists::begin(alloc, entry, sheets)?;
        Ok(Records {
            procedures,
            catalog: blank.rows.catalog,
            stack: blank.rows.stack,
            places: blank.fleet.places,
            servers: blank.fleet.servers,
            nonces: blank.count.nonces,
            drawn: blank.count.drawn,
            lists,
            book: blank.book,
        })
    }

    /// Its procedures, as they stand.
    pub fn procedures(&self) -> &Procedures
        ensures past { result.now.past ≡ self.now.past }
        ensures begun { self.now.past ≢ [] }
        ensures legal { IsLegal self.now.past }
    {
        let _last = self.procedures.last_pid();
        &self.procedures
    }

    /// Who is shown by a number: a procedure that was made behind the base, or else a root of the base.
    pub fn shown(&self, pid: Pid) -> Option<&Record>
        ensures { option_copied result ≡ shown_of self.now.past pid.0 }
    {
        match self.procedures.find(pid) {
            Some(found) => Some(found),
            None => self.procedures.find_old(pid),
        }
    }

    /// Each procedure names regions by ids from 1 on, and the first id that it draws or adds is below 2^32: a law that does
    /// nothing.
    pub fn procedures_name_regions(&self)
        ensures { (p : ℕ) (node : Node) → node_of self.now.past p ≡ Some node → NamesIds node.args }
    {
        let _legal = self.procedures.last_pid();
        ids_are_named();
    }

    /// An entry that may follow asks for no transit of the region number 0, so that it can be prepared: a law that does nothing.
    pub fn asks_for_regions(&self, entry: &Entry)
        ensures { IsLegal (entry.now ∷ self.now.past) → AsksForZero entry.now → ⊥ }
    {
        let _procedures = &self.procedures;
        entry_names(entry);
        ids_are_named();
    }

    /// An entry that may follow adopts valid sheets alone, so that it can be prepared: a law that does nothing.
    pub fn adopts_valid(&self, entry: &Entry)
        ensures { IsLegal (entry.now ∷ self.now.past) → AdoptsInvalid entry.now → ⊥ }
    {
        let _procedures = &self.procedures;
        let _entry = entry;
    }

    /// The rows of the catalog.
    pub fn catalog(&self) -> &Catalog
        ensures { result.now.rows ≡ rows_in self.now.past }
    {
        &self.catalog
    }

    /// The steps that may be undone, of each root that hasn't ended. Of one that has, none is left.
    pub fn stack(&self) -> &Stack
        ensures forgotten { AreForgotten self.now.past result.now.stacks }
        ensures tells { Tells (is_open self.now.past) self.now.past result.now.stacks }
    {
        &self.stack
    }

    /// The places of regions.
    pub fn places(&self) -> &Places
        ensures { result.now.places ≡ places_of self.now.past }
    {
        &self.places
    }

    /// The servers that ever came up.
    pub fn servers(&self) -> &Servers
        ensures { result.now.servers ≡ standings_of self.now.past }
    {
        &self.servers
    }

    /// The sheets in force.
    pub fn sheets(&self) -> &[Valid]
        ensures { result.now ≡ sheets_in_force self.now.past }
    {
        self.lists.sheets_of(self.lists.editions())
    }

    /// The edition in force: how often sheets were adopted, since the base where there is one.
    pub fn editions(&self) -> u64
        ensures { result ≡ editions_in self.now.past }
    {
        self.lists.editions()
    }

    /// The sheets of an edition.
    pub fn sheets_of(&self, edition: u64) -> &[Valid]
        requires { edition ≤ editions_in self.now.past }
        ensures { result.now ≡ sheets_in self.now.past edition }
    {
        self.lists.sheets_of(edition)
    }

    /// The roots of the base whose layouts it has, as it tells them.
    pub fn layouts(&self) -> &[Pid]
        ensures { result.now ≡ laid_in_base self.now.past }
    {
        self.lists.layouts()
    }

    /// The nonce of each root, 0:0 where it was made under none: of those of the base, as it tells them, and then of those that
    /// entries made, in the order of their numbers.
    pub fn root_nonces(&self) -> &[Nonce]
        ensures { result.now ≡ nonces_of_roots self.now.past }
    {
        self.lists.root_nonces()
    }

    /// The procedure that was made under a nonce; none under one whose number is 0.
    pub fn by_nonce(&self, nonce: &Nonce) -> Option<Pid>
        ensures { result ≡ option_map pid_of (by_nonce self.now.past nonce.now) }
    {
        self.nonces.get(nonce).copied()
    }

    /// How many region ids were drawn for a table.
    pub fn drawn(&self, table: &TableName) -> u64
        ensures { result ≡ drawn self.now.past table.now }
    {
        drawn_in(&self.drawn, table)
    }

    /// The tables for which region ids were drawn, in name order, with how many.
    pub fn drawn_tables(&self) -> View<'_, TableName, u64>
        ensures { AreDrawn self.now.past result }
    {
        self.drawn.view()
    }

    /// The lock book: each procedure that hasn't ended is enlisted, and holds from its first step on.
    pub fn book(&self) -> &LockBook
        ensures rows { AreRows self.now.past result.now.rows }
        ensures book { IsBookOf self.now.past [] result.now.rows }
        ensures open { ListOpen self.now.past result.now.rows }
    {
        &self.book
    }

    // Makes room for so many more of each.
    fn reserve(&mut self, alloc: Global, count: u64) -> Result<(), AllocError>
        ensures past { self.new.past ≡ self.old.past }
        ensures room { OnOk result (count ≤ self.new.spare) }
        ensures kept { self.old.spare ≤ self.new.spare }
    {
        self.procedures.reserve(alloc, count)?;
        self.catalog.reserve(alloc, count)?;
        self.stack.reserve(alloc, count)?;
        self.places.reserve(alloc, count)?;
        self.servers.reserve(alloc, count)?;
        self.nonces.reserve(alloc, count as usize)?;
        self.drawn.reserve(alloc, count as usize)?;
        self.lists.reserve(count)?;
        self.book.reserve(alloc, count, count)
    }

    /// Makes what is kept of an entry, and room for it. There is none where the entry asks for a transit of the number 0, which
    /// no region has, or adopts a sheet that isn't valid.
    pub fn prepare(&mut self, alloc: Global, entry: &Entry) -> Result<Option<Parts>, AllocError>
        ensures past { self.new.past ≡ self.old.past }
        ensures parts { IfOk result (λ parts. MatchOption parts (AsksForZero entry.now ⊎ AdoptsInvalid entry.now) (AreParts self.old.past entry.now)) }
        ensures room { IfOk result (λ parts. IfSome parts (λ parts. size_of entry.now ≤ self.new.spare)) }
        ensures kept { self.old.spare ≤ self.new.spare }
    {
        let Some(parts) = parts_of(alloc, self, entry)? else {
            return Ok(None);
        };
        self.reserve(alloc, parts.size())?;
        Ok(Some(parts))
    }

    /// Takes in an entry that may follow. It takes no memory.
    pub fn enter(&mut self, entry: &Entry, parts: Parts)
        requires legal { IsLegal (entry.now ∷ self.old.past) }
        requires parts { AreParts self.old.past entry.now parts }
        requires room { size_of entry.now ≤ self.old.spare }
        ensures past { self.new.past ≡ entry.now ∷ self.old.past }
        ensures spare { self.old.spare ≤ self.new.spare + size_of entry.now }
        ensures room { self.new.room ≡ self.old.room }
    {
        let Parts {
            made,
            drafts,
            edits,
            step,
            nonce,
            ids,
            up,
            placed,
            sheets,
        } = parts;
        entry_names(entry);
        let past = &self.procedures;
        let tree = tree_of(past, entry);
        enlist_made(&mut self.book, past, entry, drafts.list);
        set_rows(&mut self.catalog, past, entry, edits);
        set_place(&mut self.places, past, entry, placed);
        set_servers(&mut self.servers, past, entry, up);
        add_nonce(&mut self.nonces, past, entry, nonce);
        count_ids(&mut self.drawn, past, entry, ids);
        self.lists
            .enter(past, entry, sheets, made.as_slice().len() as u64);
        enter_tree(
            &mut self.procedures,
            &mut self.stack,
            entry,
            tree,
            made,
            step,
        );
        release_ended(&mut self.book, &self.procedures, entry, tree);
    }
}
