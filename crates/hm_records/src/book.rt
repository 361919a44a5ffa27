//! Who is enlisted in the lock book, and who holds what it asks for.
ghost use Rattle.std.specs.Prelude.{◌≡◌, ℕ, ◌+◌, ◌<◌, ◌≤◌, ◌^◌, ◌≢◌, ◌∷◌, length, map, None, IfOk};
ghost use Rattle.hm_locks.specs.Book.{above_child, row_of};
ghost use Rattle.hm_model.specs.Apart.{tree_of};
ghost use Rattle.hm_model.specs.Journal.{Past};
ghost use Rattle.hm_model.specs.Phase.{ended};
ghost use Rattle.hm_model.specs.Rules.{IsLegal};
ghost use Rattle.hm_model.specs.Tree.{pid_of};
ghost use Rattle.hm_procedures.specs.Kept.{args_made};
ghost use Rattle.hm_records.specs.Book.{AreRows, AreRowsWith, asked as asked_by, asks_in, asks_of, draft_of as drafted_with, drafts_of as drafts_by, enlisted as enlisted_of, has_first as has_first_of, or_drafted, or_taken, stepper_of as stepper_by, unless_ended};

use crate::records::Records;
use hm_data::{Args, Entry};
use hm_locks::laws::free_in_book_is_free;
use hm_locks::{Draft, LockBook, asks};
use hm_model::Ask;
use hm_names::{List, Pid};
use hm_procedures::Procedures;
use std::alloc::{AllocError, Global};

// What will be enlisted of the procedures that an entry makes, in order, and for how much they ask in all.
#[derive(Drop)]
pub(crate) struct Drafts {
    pub(crate) list: Vec<Draft>,
    pub(crate) asks: u64,
}

/// The procedure whose step an entry is, which is the parent of all that the entry makes; none where that are roots.
pub fn stepper_of(entry: &Entry) -> Option<Pid>
    ensures { result ≡ stepper_by entry.now }
{
    match entry {
        Entry::Step {
            pid,
            pick: _,
            out: _,
        } => Some(*pid),
        _ => None,
    }
}

// Whether a root's first region id is one that can be drawn.
fn has_first(args: &Args) -> bool
    ensures { result ≡ has_first_of args.now }
{
    match args {
        Args::Root { request: _, first } => 0 < *first && *first < 0x1_0000_0000,
        _ => true,
    }
}

// What a procedure asks for; nothing where its first region id can't be drawn.
fn asked(alloc: Global, args: &Args) -> Result<List<Ask>, AllocError>
    ensures { IfOk result (λ list. list ≡ asked_by args.now) }
{
    if !has_first(args) {
        return Ok(List::of(Vec::new(alloc)));
    }
    asks(alloc, args)
}

// What will be enlisted of a procedure.
fn draft_of(
    alloc: Global,
    book: &LockBook,
    parent: Option<Pid>,
    args: &Args,
) -> Result<Draft, AllocError>
    ensures above { IfOk result (λ draft. draft.above ≡ above_child book.now.rows parent) }
    ensures asks { IfOk result (λ draft. draft.asks ≡ asked_by args.now) }
{
    let list = asked(alloc, args)?;
    book.draft(alloc, parent, list)
}

// The same of several, in order.
fn draft_all(
    alloc: Global,
    book: &LockBook,
    parent: Option<Pid>,
    made: &[Args],
) -> Result<Vec<Draft>, AllocError>
    ensures { IfOk result (λ drafts. drafts.items ≡ map (drafted_with (above_child book.now.rows parent)) made.now) }
{
    let mut drafts = Vec::new(alloc);
    for args in made {
        drafts.push(draft_of(alloc, book, parent, args)?)?;
    }
    Ok(drafts)
}

// For how much drafts ask in all: more than a number can tell is more than there is memory for.
fn count_asks(drafts: &[Draft]) -> Result<u64, AllocError>
    ensures { IfOk result (λ count. count ≡ asks_in drafts.now) }
{
    let mut count: u64 = 0;
    for draft in drafts {
        count = count
            .checked_add(draft.asks().len() as u64)
            .ok_or(AllocError)?;
    }
    Ok(count)
}

// Those of what an entry makes that are procedures, to be enlisted: the roots of a base aren't.
fn enlisted<'a>(entry: &Entry, made: &'a [Args]) -> &'a [Args]
    ensures { result.now ≡ enlisted_of entry.now made.now }
{
    match entry {
        Entry::Base { part: _ } => &[],
        _ => made,
    }
}

// What will be enlisted of the procedures that an entry makes.
pub(crate) fn drafts_of(
    alloc: Global,
    records: &Records,
    entry: &Entry,
    made: &[Args],
) -> Result<Drafts, AllocError>
    requires { made.now ≡ args_made records.now.past entry.now }
    ensures list { IfOk result (λ drafts. let list = drafts.list in list.items ≡ drafts_by records.now.past entry.now) }
    ensures asks { IfOk result (λ drafts. drafts.asks ≡ asks_of entry.now) }
{
    let _legal = records.procedures();
    let list = draft_all(
        alloc,
        records.book(),
        stepper_of(entry),
        enlisted(entry, made),
    )?;
    let asks = count_asks(&list)?;
    Ok(Drafts { list, asks })
}

// The procedure of a step holds what it asks for.
fn take(book: &mut LockBook, past: &Procedures, entry: &Entry)
    requires legal { IsLegal (entry.now ∷ past.now.past) }
    requires rows { AreRows past.now.past book.old.rows }
    ensures rows { (p : ℕ) → row_of book.new.rows p ≡ or_taken (stepper_by entry.now) p (row_of book.old.rows p) }
    ensures spare { (book.new.spare ≡ book.old.spare) × (book.new.spare_asks ≡ book.old.spare_asks) }
    ensures room { book.new.room ≡ book.old.room }
{
    free_in_book_is_free();
    let _past = past;
    if let Some(pid) = stepper_of(entry) {
        book.take(pid);
    }
}

// Enlists procedures after the last, in the room that was made for them.
fn enlist(book: &mut LockBook, last: u64, drafts: Vec<Draft>)
    requires small { last ≤ 2 ^ 63 + 2 ^ 48 }
    requires new { (p : ℕ) → last < p → row_of book.old.rows p ≡ None }
    requires spare { length drafts.items ≤ book.old.spare }
    requires asks { asks_in drafts.items ≤ book.old.spare_asks }
    ensures rows { (p : ℕ) → row_of book.new.rows p ≡ or_drafted last drafts.items p (row_of book.old.rows p) }
    ensures spare { book.old.spare ≤ book.new.spare + length drafts.items }
    ensures asks { book.old.spare_asks ≤ book.new.spare_asks + asks_in drafts.items }
    ensures room { book.new.room ≡ book.old.room }
{
    let mut pid = last;
    for draft in drafts {
        pid += 1;
        book.enlist_draft(Pid(pid), draft);
    }
}

// The procedure of a step holds what it asks for, and what the entry makes is enlisted.
pub(crate) fn enlist_made(book: &mut LockBook, past: &Procedures, entry: &Entry, drafts: Vec<Draft>)
    requires legal { IsLegal (entry.now ∷ past.now.past) }
    requires rows { AreRows past.now.past book.old.rows }
    requires drafts { drafts.items ≡ drafts_by past.now.past entry.now }
    requires spare { length drafts.items ≤ book.old.spare }
    requires asks { asks_in drafts.items ≤ book.old.spare_asks }
    ensures rows { AreRowsWith past.now.past entry.now book.new.rows }
    ensures spare { book.old.spare ≤ book.new.spare + length drafts.items }
    ensures asks { book.old.spare_asks ≤ book.new.spare_asks + asks_in drafts.items }
    ensures room { book.new.room ≡ book.old.room }
{
    take(book, past, entry);
    enlist(book, past.last_pid(), drafts);
}

// Who has ended is enlisted no longer.
fn release(book: &mut LockBook, procedures: &Procedures, pid: Pid)
    ensures own { row_of book.new.rows pid.0 ≡ unless_ended (ended procedures.now.past pid.0) (row_of book.old.rows pid.0) }
    ensures others { (p : ℕ) → p ≢ pid.0 → row_of book.new.rows p ≡ row_of book.old.rows p }
    ensures spare { (book.new.spare ≡ book.old.spare) × (book.new.spare_asks ≡ book.old.spare_asks) }
    ensures room { book.new.room ≡ book.old.room }
{
    if procedures.has_ended(pid) && book.lists(pid) {
        book.release(pid);
    }
}

// After an entry, the root of its tree and the procedure of its step are enlisted no longer where they have ended.
pub(crate) fn release_ended(book: &mut LockBook, procedures: &Procedures, entry: &Entry, tree: Pid)
    ensures rows { (before : Past) → procedures.now.past ≡ entry.now ∷ before → tree ≡ pid_of (tree_of before entry.now) → AreRowsWith before entry.now book.old.rows → AreRows procedures.now.past book.new.rows }
    ensures spare { (book.new.spare ≡ book.old.spare) × (book.new.spare_asks ≡ book.old.spare_asks) }
    ensures room { book.new.room ≡ book.old.room }
{
    let _legal = procedures.last_pid();
    release(book, procedures, tree);
    if let Some(pid) = stepper_of(entry) {
        release(book, procedures, pid);
    }
}
