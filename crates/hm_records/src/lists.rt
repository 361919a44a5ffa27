//! The sheets of each edition, the layouts of the base, and the nonces of the roots.
ghost use Rattle.std.specs.Prelude.{◌≡◌, ◌≢◌, ◌+◌, ◌-◌, ◌<◌, ◌≤◌, ◌^◌, ◌++◌, [], ◌∷◌, length, IfOk, MatchOption, OnOk, Some, slice_get, vec_capacity, vec_len};
ghost use Rattle.hm_model.specs.Editions.{editions as editions_in};
ghost use Rattle.hm_model.specs.Rules.{IsLegal};
ghost use Rattle.hm_model.specs.Sheets.{sheets_of as sheets_in_force};
ghost use Rattle.hm_procedures.specs.Kept.{args_made};
ghost use Rattle.hm_records.specs.Lists.{AreEditions, laid_in_base, layout_told as told_by, nonce_made as made_under, part_layout as laid_by, part_nonce_made as made_in_base, repeated, root_nonces as nonces_of_roots, so_often};
ghost use Rattle.hm_records.specs.Parts.{AdoptsInvalid, adopted as adopted_by};

use hm_data::{Entry, Part};
use hm_names::{List, Nonce, Pid};
use hm_procedures::Procedures;
use hm_sheet::{Valid, valid_copies};
use std::alloc::{AllocError, Global};
use std::marker::Model;

// The sheets that an entry adopts, if it adopts any.
type Adopted = Option<List<Valid>>;

// The sheets that an entry adopts; there is no answer where one of them isn't valid.
pub(crate) fn adopted(alloc: Global, entry: &Entry) -> Result<Option<Adopted>, AllocError>
    ensures { IfOk result (λ sheets. MatchOption sheets (AdoptsInvalid entry.now) (λ list. list ≡ adopted_by entry.now)) }
{
    let Entry::Adopt { sheets } = entry else {
        return Ok(Some(None));
    };
    match valid_copies(alloc, sheets.as_slice())? {
        Some(copies) => Ok(Some(Some(List::of(copies)))),
        None => Ok(None),
    }
}

// The sheets of each edition, the oldest first, the roots of the base whose layouts it has, and the nonce of each root. Contracts
// see them, and for how many more there is room.
#[derive(Drop)]
pub(crate) struct Lists {
    sheets: Vec<List<Valid>>,
    layouts: Vec<Pid>,
    root_nonces: Vec<Nonce>,
}

impl Model for Lists {
    ghost use Rattle.std.specs.Prelude.{◌+◌, ◌-◌, min, vec_capacity, vec_len};
    ghost use Rattle.hm_records.specs.Lists.{ListsView};

    ghost Value = { ListsView };

    ghost view = { λ s. record { sheets = s.sheets.items; layouts = s.layouts.items; root_nonces = s.root_nonces.items; spare = min (vec_capacity s.sheets - vec_len s.sheets) (min (vec_capacity s.layouts - vec_len s.layouts) (vec_capacity s.root_nonces - vec_len s.root_nonces)); room = vec_capacity s.sheets + vec_capacity s.layouts + vec_capacity s.root_nonces } };
}

// Adds the sheets that an entry adopts, as one edition more.
fn push_edition(
    editions: &mut Vec<List<Valid>>,
    past: &Procedures,
    entry: &Entry,
    sheets: Option<List<Valid>>,
)
    requires legal { IsLegal (entry.now ∷ past.now.past) }
    requires begun { past.now.past ≢ [] }
    requires editions { AreEditions past.now.past editions.old.items }
    requires sheets { sheets ≡ adopted_by entry.now }
    requires room { 1 ≤ vec_capacity editions.old - vec_len editions.old }
    ensures editions { AreEditions (entry.now ∷ past.now.past) editions.new.items }
    ensures spare { vec_len editions.new ≤ vec_len editions.old + 1 }
    ensures room { vec_capacity editions.new ≡ vec_capacity editions.old }
{
    let _past = past;
    let _entry = entry;
    if let Some(sheets) = sheets {
        editions.push_reserved(sheets);
    }
}

// The same; there are fewer editions than a number can tell, since each has its sheets.
fn add_edition(
    editions: &mut Vec<List<Valid>>,
    past: &Procedures,
    entry: &Entry,
    sheets: Option<List<Valid>>,
)
    requires legal { IsLegal (entry.now ∷ past.now.past) }
    requires begun { past.now.past ≢ [] }
    requires editions { AreEditions past.now.past editions.old.items }
    requires sheets { sheets ≡ adopted_by entry.now }
    requires room { 1 ≤ vec_capacity editions.old - vec_len editions.old }
    ensures editions { AreEditions (entry.now ∷ past.now.past) editions.new.items }
    ensures few { editions_in (entry.now ∷ past.now.past) < 2 ^ 64 }
    ensures spare { vec_len editions.new ≤ vec_len editions.old + 1 }
    ensures room { vec_capacity editions.new ≡ vec_capacity editions.old }
{
    push_edition(editions, past, entry, sheets);
    let _count = editions.len();
}

// The root whose layout a part tells.
fn part_layout(part: &Part) -> Option<Pid>
    ensures { result ≡ laid_by part.now }
{
    match part {
        Part::Layout { pid } => Some(*pid),
        _ => None,
    }
}

// The root whose layout an entry tells, as a part of a base.
fn layout_told(entry: &Entry) -> Option<Pid>
    ensures { result ≡ told_by entry.now }
{
    match entry {
        Entry::Base { part } => part_layout(part),
        _ => None,
    }
}

// Takes in the layout that a part of a base tells.
fn add_layout(layouts: &mut Vec<Pid>, past: &Procedures, entry: &Entry)
    requires layouts { layouts.old.items ≡ laid_in_base past.now.past }
    requires room { 1 ≤ vec_capacity layouts.old - vec_len layouts.old }
    ensures layouts { layouts.new.items ≡ laid_in_base (entry.now ∷ past.now.past) }
    ensures spare { vec_len layouts.new ≤ vec_len layouts.old + 1 }
    ensures room { vec_capacity layouts.new ≡ vec_capacity layouts.old }
{
    let _past = past;
    if let Some(pid) = layout_told(entry) {
        layouts.push_reserved(pid);
    }
}

// The nonce of the root of a part.
fn part_nonce(part: &Part) -> Option<Nonce>
    ensures { result ≡ made_in_base part.now }
{
    match part {
        Part::Root {
            pid: _,
            nonce,
            args: _,
            cause: _,
        } => Some(*nonce),
        _ => None,
    }
}

// The nonce of each root that an entry makes or, as a part of a base, tells: 0:0 where it was made under none.
fn nonce_made(entry: &Entry) -> Option<Nonce>
    ensures { result ≡ made_under entry.now }
{
    let none = Nonce {
        group: 0,
        number: 0,
    };
    match entry {
        Entry::Submit { nonce, request: _ } => Some(*nonce),
        Entry::Undo {
            pid: _,
            row: _,
            out: _,
        } => Some(none),
        Entry::Down { server: _ } => Some(none),
        Entry::Base { part } => part_nonce(part),
        _ => None,
    }
}

// Adds a nonce so often.
fn push_nonces(nonces: &mut Vec<Nonce>, nonce: Nonce, count: u64)
    requires { count ≤ vec_capacity nonces.old - vec_len nonces.old }
    ensures items { nonces.new.items ≡ nonces.old.items ++ repeated nonce count }
    ensures spare { vec_len nonces.new ≤ vec_len nonces.old + count }
    ensures room { vec_capacity nonces.new ≡ vec_capacity nonces.old }
{
    for _ in 0..count {
        nonces.push_reserved(nonce);
    }
}

// Adds the nonce of each root that an entry makes or tells, of so many procedures.
fn add_root_nonces(nonces: &mut Vec<Nonce>, entry: &Entry, count: u64)
    requires { count ≤ vec_capacity nonces.old - vec_len nonces.old }
    ensures items { nonces.new.items ≡ nonces.old.items ++ so_often (made_under entry.now) count }
    ensures spare { vec_len nonces.new ≤ vec_len nonces.old + count }
    ensures room { vec_capacity nonces.new ≡ vec_capacity nonces.old }
{
    if let Some(nonce) = nonce_made(entry) {
        push_nonces(nonces, nonce, count);
    }
}

impl Lists {
    // The lists of a journal that has one entry: its sheets are the first edition.
    pub(crate) fn begin(
        alloc: Global,
        entry: &Entry,
        sheets: Vec<Valid>,
    ) -> Result<Lists, AllocError>
        requires legal { IsLegal (entry.now ∷ []) }
        requires sheets { sheets.items ≡ sheets_in_force (entry.now ∷ []) }
        ensures sheets { IfOk result (λ lists. AreEditions (entry.now ∷ []) lists.sheets) }
        ensures layouts { IfOk result (λ lists. lists.layouts ≡ laid_in_base (entry.now ∷ [])) }
        ensures root_nonces { IfOk result (λ lists. lists.root_nonces ≡ nonces_of_roots (entry.now ∷ [])) }
    {
        let _entry = entry;
        let mut editions = Vec::new(alloc);
        editions.push(List::of(sheets))?;
        Ok(Lists {
            sheets: editions,
            layouts: Vec::new(alloc),
            root_nonces: Vec::new(alloc),
        })
    }

    // The edition in force.
    pub(crate) fn editions(&self) -> u64
        requires { 1 ≤ length self.now.sheets }
        ensures { result + 1 ≡ length self.now.sheets }
    {
        self.sheets.len() as u64 - 1
    }

    // The sheets of an edition.
    pub(crate) fn sheets_of(&self, edition: u64) -> &[Valid]
        requires { edition < length self.now.sheets }
        ensures { slice_get self.now.sheets edition ≡ Some result.now }
    {
        self.sheets[edition as usize].as_slice()
    }

    // The roots of the base whose layouts it has.
    pub(crate) fn layouts(&self) -> &[Pid]
        ensures { result.now ≡ self.now.layouts }
    {
        self.layouts.as_slice()
    }

    // The nonce of each root.
    pub(crate) fn root_nonces(&self) -> &[Nonce]
        ensures { result.now ≡ self.now.root_nonces }
    {
        self.root_nonces.as_slice()
    }

    // Makes room for so many more of each.
    pub(crate) fn reserve(&mut self, count: u64) -> Result<(), AllocError>
        ensures sheets { self.new.sheets ≡ self.old.sheets }
        ensures layouts { self.new.layouts ≡ self.old.layouts }
        ensures root_nonces { self.new.root_nonces ≡ self.old.root_nonces }
        ensures room { OnOk result (count ≤ self.new.spare) }
        ensures kept { self.old.spare ≤ self.new.spare }
    {
        self.sheets.reserve(count as usize)?;
        self.layouts.reserve(count as usize)?;
        self.root_nonces.reserve(count as usize)
    }

    // Takes in an entry that makes or, as a part of a base, tells so many procedures.
    pub(crate) fn enter(
        &mut self,
        past: &Procedures,
        entry: &Entry,
        sheets: Option<List<Valid>>,
        made: u64,
    )
        requires legal { IsLegal (entry.now ∷ past.now.past) }
        requires begun { past.now.past ≢ [] }
        requires editions { AreEditions past.now.past self.old.sheets }
        requires layouts { self.old.layouts ≡ laid_in_base past.now.past }
        requires root_nonces { self.old.root_nonces ≡ nonces_of_roots past.now.past }
        requires sheets { sheets ≡ adopted_by entry.now }
        requires made { made ≡ length (args_made past.now.past entry.now) }
        requires room { 1 + made ≤ self.old.spare }
        ensures editions { AreEditions (entry.now ∷ past.now.past) self.new.sheets }
        ensures few { editions_in (entry.now ∷ past.now.past) < 2 ^ 64 }
        ensures layouts { self.new.layouts ≡ laid_in_base (entry.now ∷ past.now.past) }
        ensures root_nonces { self.new.root_nonces ≡ nonces_of_roots (entry.now ∷ past.now.past) }
        ensures spare { self.old.spare ≤ self.new.spare + 1 + made }
        ensures room { self.new.room ≡ self.old.room }
    {
        add_edition(&mut self.sheets, past, entry, sheets);
        add_layout(&mut self.layouts, past, entry);
        add_root_nonces(&mut self.root_nonces, entry, made);
    }
}
