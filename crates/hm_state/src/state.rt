//! A state, its entries one by one, and what it shows.
ghost use Rattle.std.specs.Prelude.{◌≡◌, ◌≢◌, ◌+◌, ◌<◌, ◌≤◌, ◌^◌, ◌∷◌, [], None, OnOk, IfOk, IfErr, false};
ghost use Rattle.std.specs.Option.{option_copied, option_map};
ghost use Rattle.hm_data.specs.declared.entry.Entry.{Entry};
ghost use Rattle.hm_model.specs.Editions.{editions as editions_in, sheets_in};
ghost use Rattle.hm_model.specs.Evaluation.{CanRun};
ghost use Rattle.hm_model.specs.Image.{counted as counted_in, image as image_of};
ghost use Rattle.hm_model.specs.Laws.{is_part};
ghost use Rattle.hm_model.specs.Loads.{places_of};
ghost use Rattle.hm_model.specs.Nonces.{by_nonce};
ghost use Rattle.hm_model.specs.OldRoots.{shown_of};
ghost use Rattle.hm_model.specs.Rebase.{MayRoll, based};
ghost use Rattle.hm_model.specs.Records.{record_of, unfinished};
ghost use Rattle.hm_model.specs.Reports.{call_of, is_settled};
ghost use Rattle.hm_model.specs.Rules.{Allowed, IsLegal};
ghost use Rattle.hm_model.specs.Base.{AreSheets, IsBegun};
ghost use Rattle.hm_model.specs.Sheets.{sheets_of as sheets_in_force};
ghost use Rattle.hm_model.specs.Standings.{standings_of};
ghost use Rattle.hm_model.specs.Tree.{drawn, made, node_of, pid_of};
ghost use Rattle.hm_base.specs.Read.{IsNoBase};
ghost use Rattle.hm_catalog.specs.Rows.{rows_in};
ghost use Rattle.hm_image.specs.Image.{IsNoImage};
ghost use Rattle.hm_judge.specs.Inputs.{CanEvaluate, IsInput};
ghost use Rattle.hm_judge.specs.Judge.{IsWhy};
ghost use Rattle.hm_procedures.specs.Procedures.{children, unfinished_procedures};
ghost use Rattle.hm_rebase.specs.Alike.{Alike};
ghost use Rattle.hm_records.specs.Parts.{AreParts, size_of};
ghost use Rattle.hm_records.specs.Records.{AreForgotten, is_open};
ghost use Rattle.hm_undo.specs.Laws.{Tells};

use crate::based::entries_in;
use crate::ready::Ready;
use crate::room::{beside, can_count};
use crate::sheets::valid_sheets;
use hm_base::{BaseWhy, read_base};
use hm_catalog::Catalog;
use hm_data::{Call, Entry, Part, Record, Sheet, StepIn};
use hm_image::ImageWhy;
use hm_judge::NotAllowed;
use hm_names::{Copied, List, Nonce, Pid, ServerName, TableName};
use hm_places::{Places, Servers};
use hm_procedures::Procedures;
use hm_rebase::images_are_bases;
use hm_records::{Parts, Records};
use hm_sheet::Valid;
use hm_undo::Stack;
use std::alloc::{AllocError, Global};
use std::marker::Model;

/// What a legal journal says that has begun, by a start or by a base. Contracts see the journal, back from its newest entry, and
/// for how much more there is room.
#[derive(Drop)]
pub struct State {
    records: Records,
    // How many entries were recorded, with those that the base stands for. What they say is kept, and not they.
    count: u64,
}

impl Model for State {
    ghost use Rattle.std.specs.Prelude.{◌-◌, ◌^◌, min};
    ghost use Rattle.hm_state.specs.State.{IsState, StateView};

    ghost Value = { StateView };

    ghost view = { λ s. record { past = s.records.past; spare = min s.records.spare (2 ^ 63 - 1 - s.count); room = s.records.room } };

    ghost invariant = { λ s. IsState s.records.past s.count };
}

// What a journal says whose one entry is its start.
fn begin(alloc: Global, entry: Entry, sheets: Vec<Valid>) -> Result<Records, AllocError>
    requires starts { entry ≡ Entry.Start sheets.items }
    requires sheets { AreSheets sheets.items }
    ensures { IfOk result (λ records. records.past ≡ entry ∷ []) }
{
    let records = Records::begin(alloc, &entry, sheets);
    drop(entry);
    records
}

impl State {
    /// The state of the journal that starts with these sheets.
    pub fn start(alloc: Global, sheets: List<Sheet>) -> Result<State, AllocError>
        requires { AreSheets sheets }
        ensures { IfOk result (λ s. s.past ≡ Entry.Start sheets ∷ []) }
    {
        let valid = valid_sheets(alloc, sheets.as_slice())?;
        let records = begin(alloc, Entry::Start { sheets }, valid)?;
        Ok(State { records, count: 1 })
    }

    /// The state of the journal that has these parts of a base and nothing else; or the part that is wrong, or that memory ran out.
    pub fn from_base(alloc: Global, parts: List<Part>) -> Result<State, BaseWhy>
        ensures past { IfOk result (λ s. s.past ≡ based parts) }
        ensures why { IfErr result (IsNoBase parts) }
    {
        let records = read_base(alloc, parts.as_slice())?;
        let count = entries_in(parts.as_slice());
        Ok(State { records, count })
    }

    /// How many entries were recorded: those that the base stands for, and each entry behind it.
    pub fn counted(&self) -> u64
        ensures count { result ≡ counted_in self.now.past }
        ensures small { result < 2 ^ 63 }
    {
        self.count
    }

    /// The journal is legal and has begun: a law that does nothing.
    pub fn journal(&self)
        ensures legal { IsLegal self.now.past }
        ensures begun { IsBegun self.now.past }
    {
        let _records = &self.records;
    }

    /// What the journal says.
    pub fn records(&self) -> &Records
        ensures { result.now.past ≡ self.now.past }
    {
        &self.records
    }

    /// The procedures as they stand.
    pub fn procedures(&self) -> &Procedures
        ensures { result.now.past ≡ self.now.past }
    {
        self.records.procedures()
    }

    /// The rows of the catalog.
    pub fn catalog(&self) -> &Catalog
        ensures { result.now.rows ≡ rows_in self.now.past }
    {
        self.records.catalog()
    }

    /// The steps that may be undone, of each root that hasn't ended. Of one that has, none is left.
    pub fn stack(&self) -> &Stack
        ensures forgotten { AreForgotten self.now.past result.now.stacks }
        ensures tells { Tells (is_open self.now.past) self.now.past result.now.stacks }
    {
        self.records.stack()
    }

    /// The places of regions.
    pub fn places(&self) -> &Places
        ensures { result.now.places ≡ places_of self.now.past }
    {
        self.records.places()
    }

    /// The servers that ever came up.
    pub fn servers(&self) -> &Servers
        ensures { result.now.servers ≡ standings_of self.now.past }
    {
        self.records.servers()
    }

    /// The sheets in force.
    pub fn sheets(&self) -> &[Valid]
        ensures { result.now ≡ sheets_in_force self.now.past }
    {
        self.records.sheets()
    }

    /// The edition in force: how often sheets were adopted, since the base where there is one.
    pub fn editions(&self) -> u64
        ensures { result ≡ editions_in self.now.past }
    {
        self.records.editions()
    }

    /// The sheets of an edition.
    pub fn sheets_of(&self, edition: u64) -> &[Valid]
        requires { edition ≤ editions_in self.now.past }
        ensures { result.now ≡ sheets_in self.now.past edition }
    {
        self.records.sheets_of(edition)
    }

    /// The number of the procedure that was made last; 0 where there is none.
    pub fn last_pid(&self) -> u64
        ensures last { result ≡ made self.now.past }
        ensures small { result ≤ 2 ^ 63 + 2 ^ 48 }
    {
        self.procedures().last_pid()
    }

    /// A procedure that an entry made, as it stands.
    pub fn find(&self, pid: Pid) -> Option<&Record>
        ensures { option_copied result ≡ record_of self.now.past pid.0 }
    {
        self.procedures().find(pid)
    }

    /// Who is shown by a number: a procedure that an entry made, as it stands, or else a root of the base.
    pub fn shown(&self, pid: Pid) -> Option<&Record>
        ensures { option_copied result ≡ shown_of self.now.past pid.0 }
    {
        self.records.shown(pid)
    }

    /// The children of a procedure, in the order of their numbers.
    pub fn children(&self, alloc: Global, pid: Pid) -> Result<List<Pid>, AllocError>
        ensures { IfOk result (λ list. list ≡ children self.now.past pid.0) }
    {
        self.procedures().children(alloc, pid)
    }

    /// The call that a procedure made, with its number as the id.
    pub fn call(&self, alloc: Global, pid: Pid) -> Result<Option<Call>, AllocError>
        ensures { IfOk result (λ call. call ≡ call_of self.now.past pid.0) }
    {
        self.procedures().call(alloc, pid)
    }

    /// Whether the call of a procedure, if it made one, is settled: it has a report, or the procedure has ended.
    pub fn is_settled(&self, pid: Pid) -> bool
        ensures { result ≡ is_settled self.now.past pid.0 }
    {
        self.procedures().is_settled(pid)
    }

    /// The procedure that was made under a nonce; none under one whose number is 0.
    pub fn by_nonce(&self, nonce: &Nonce) -> Option<Pid>
        ensures { result ≡ option_map pid_of (by_nonce self.now.past nonce.now) }
    {
        self.records.by_nonce(nonce)
    }

    /// How many region ids were drawn for a table.
    pub fn drawn(&self, table: &TableName) -> u64
        ensures { result ≡ drawn self.now.past table.now }
    {
        self.records.drawn(table)
    }

    /// How many roots haven't ended.
    pub fn unfinished(&self) -> u64
        ensures { result ≡ unfinished self.now.past }
    {
        self.procedures().unfinished()
    }

    /// How many procedures haven't ended, roots and descendants.
    pub fn unfinished_procedures(&self) -> u64
        ensures { result ≡ unfinished_procedures self.now.past }
    {
        self.procedures().unfinished_procedures()
    }

    /// The image of the journal: what it came to, as the parts of a base. It is refused while a procedure is unfinished, and else
    /// where the journal is too old; each before memory is taken.
    pub fn image(&self, alloc: Global) -> Result<List<Part>, ImageWhy>
        ensures image { IfOk result (λ parts. parts ≡ image_of self.now.past) }
        ensures rolls { OnOk result (MayRoll self.now.past) }
        ensures why { IfErr result (IsNoImage self.now.past) }
    {
        hm_image::image(alloc, &self.records, self.count)
    }

    /// The image of the journal, unless it is refused, is a whole base, and reads as the journal does: a law that does nothing.
    pub fn image_is_base(&self)
        requires { MayRoll self.now.past }
        ensures legal { IsLegal (based (image_of self.now.past)) }
        ensures begun { IsBegun (based (image_of self.now.past)) }
        ensures alike { Alike self.now.past (based (image_of self.now.past)) }
    {
        images_are_bases();
        let _records = &self.records;
    }

    /// Whether an entry may follow; else the rule that refuses it, or that memory ran out before that was known.
    pub fn allowed(&self, alloc: Global, entry: &Entry) -> Result<(), NotAllowed>
        ensures ok { OnOk result (Allowed self.now.past entry.now) }
        ensures other { OnOk result (is_part entry.now ≡ false) }
        ensures why { IfErr result (IsWhy self.now.past entry.now) }
    {
        hm_judge::allowed(alloc, &self.records, entry)
    }

    /// What the next call of a procedure's handler sees.
    pub fn step_in(
        &self,
        alloc: Global,
        pid: Pid,
        pick: Option<&ServerName>,
    ) -> Result<StepIn, AllocError>
        requires { node_of self.now.past pid.0 ≢ None }
        ensures input { IfOk result (IsInput self.now.past pid.0 (option_copied pick.entry)) }
        ensures runs { IfOk result (λ at. CanEvaluate self.now.past pid.0 (option_copied pick.entry) → CanRun (sheets_in self.now.past at.edition) at) }
        ensures edition { IfOk result (λ at. at.edition ≤ editions_in self.now.past) }
    {
        hm_judge::step_in(alloc, &self.records, pid, pick)
    }

    /// Makes room for an entry that is allowed, of which it makes a copy.
    pub fn prepare(&mut self, alloc: Global, entry: &Entry) -> Result<Ready, AllocError>
        requires allowed { Allowed self.old.past entry.now }
        ensures past { self.new.past ≡ self.old.past }
        ensures ready { IfOk result (λ ready. (ready.entry ≡ entry.now) × (ready.past ≡ self.old.past)) }
        ensures room { OnOk result (size_of entry.now ≤ self.new.spare) }
        ensures kept { self.old.spare ≤ self.new.spare }
    {
        let copy = entry.copy(alloc)?;
        self.prepare_own(alloc, copy)
    }

    /// Makes room for an entry that is allowed, without a copy of it.
    pub fn prepare_own(&mut self, alloc: Global, entry: Entry) -> Result<Ready, AllocError>
        requires allowed { Allowed self.old.past entry }
        ensures past { self.new.past ≡ self.old.past }
        ensures ready { IfOk result (λ ready. (ready.entry ≡ entry) × (ready.past ≡ self.old.past)) }
        ensures room { OnOk result (size_of entry ≤ self.new.spare) }
        ensures kept { self.old.spare ≤ self.new.spare }
    {
        let journal = self.records.procedures().journal_with(&entry);
        let parts = self.make_room(alloc, &entry);
        let (parts, entry) = beside(parts, entry)?;
        Ok(Ready::with(journal, entry, parts))
    }

    // Makes what is kept of an entry that is allowed, and room for both.
    fn make_room(&mut self, alloc: Global, entry: &Entry) -> Result<Parts, AllocError>
        requires allowed { Allowed self.old.past entry.now }
        ensures past { self.new.past ≡ self.old.past }
        ensures parts { IfOk result (AreParts self.old.past entry.now) }
        ensures room { OnOk result (size_of entry.now ≤ self.new.spare) }
        ensures kept { self.old.spare ≤ self.new.spare }
    {
        self.records.asks_for_regions(entry);
        self.records.adopts_valid(entry);
        let Some(parts) = self.records.prepare(alloc, entry)? else {
            unreachable!()
        };
        let (_, parts) = beside(can_count(self.count, parts.size()), parts)?;
        Ok(parts)
    }

    /// Adds an entry, in the room that was made for it after the same journal. It takes no memory.
    pub fn apply(&mut self, ready: Ready)
        requires past { ready.past ≡ self.old.past }
        requires allowed { Allowed self.old.past ready.entry }
        requires other { is_part ready.entry ≡ false }
        requires room { size_of ready.entry ≤ self.old.spare }
        ensures past { self.new.past ≡ ready.entry ∷ self.old.past }
        ensures spare { self.old.spare ≤ self.new.spare + size_of ready.entry }
        ensures room { self.new.room ≡ self.old.room }
    {
        let Ready {
            journal: _,
            entry,
            parts,
        } = ready;
        self.records.enter(&entry, parts);
        self.count += 1;
        drop(entry);
    }
}
