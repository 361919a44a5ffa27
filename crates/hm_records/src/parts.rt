//! What is kept of an entry.
ghost use Rattle.std.specs.Prelude.{◌≡◌, IfOk, MatchOption, ◌⊎◌};
ghost use Rattle.hm_data.specs.declared.entry.Entry.{Entry as EntryValue};
ghost use Rattle.hm_model.specs.Journal.{Past};
ghost use Rattle.hm_procedures.specs.Kept.{args_made as made_by};
ghost use Rattle.hm_model.specs.RegionIds.{AsksForZero};
ghost use Rattle.hm_places.specs.Laws.{placed_now as placed_by};
ghost use Rattle.hm_records.specs.Parts.{AdoptsInvalid, AreParts, adopted as adopted_by, comes_up as up_by, edits_of as edited_by, ids_drawn as drawn_by, nonce_used as used_by, size_of, step_left as left_by};

use crate::book::{Drafts, drafts_of};
use crate::fleet::comes_up;
use crate::ids::ids_drawn;
use crate::lists::adopted;
use crate::made::args_made;
use crate::nonces::nonce_used;
use crate::records::Records;
use crate::regions::placed_now;
use crate::rows::edits_of;
use crate::steps::step_left;
use hm_data::{Args, Edit, Entry, Place};
use hm_names::{List, Nonce, Pid, RegionName, ServerName, TableName};
use hm_sheet::Valid;
use hm_undo::Step;
use std::alloc::{AllocError, Global};

/// What is kept of an entry, in memory of its own.
#[derive(Drop)]
pub struct Parts {
    // What the procedures work on that it makes.
    pub(crate) made: List<Args>,
    pub(crate) drafts: Drafts,
    pub(crate) edits: List<Edit>,
    // The step that it leaves to be undone.
    pub(crate) step: Option<Step>,
    // The nonce that it uses, and the root that is made under it.
    pub(crate) nonce: Option<(Nonce, Pid)>,
    // The table for which it draws region ids, and how many.
    pub(crate) ids: Option<(TableName, u64)>,
    // The server that comes up, and whether it is fenced.
    pub(crate) up: Option<(ServerName, bool)>,
    // The place that it gives a region.
    pub(crate) placed: Option<(RegionName, Place)>,
    // The sheets that it adopts.
    pub(crate) sheets: Option<List<Valid>>,
}

impl Parts {
    /// For how much more there has to be room.
    pub fn size(&self) -> u64
        ensures { (before : Past) (entry : EntryValue) → AreParts before entry self.now → result ≡ size_of entry }
    {
        let entries = 1 + self.edits.as_slice().len() as u64 + self.made.as_slice().len() as u64;
        entries.max(self.drafts.asks)
    }

    /// What the procedures work on that the entry makes, in order.
    pub fn made(&self) -> &[Args]
        ensures { (before : Past) (entry : EntryValue) → AreParts before entry self.now → result.now ≡ made_by before entry }
    {
        self.made.as_slice()
    }
}

// The edits of an entry, the step that it leaves to be undone, and the nonce that it uses.
type Changes = (List<Edit>, Option<Step>, Option<(Nonce, Pid)>);

fn changes_of(alloc: Global, records: &Records, entry: &Entry) -> Result<Changes, AllocError>
    ensures { IfOk result (λ changes. (changes.0 ≡ edited_by entry.now) × (changes.1 ≡ left_by records.now.past entry.now) × (changes.2 ≡ used_by records.now.past entry.now)) }
{
    let edits = edits_of(alloc, entry)?;
    let step = step_left(alloc, records, entry)?;
    Ok((edits, step, nonce_used(records.procedures(), entry)))
}

// The table and the count of region ids that an entry draws, the server that comes up, and the place that it gives a region.
type Named = (
    Option<(TableName, u64)>,
    Option<(ServerName, bool)>,
    Option<(RegionName, Place)>,
);

fn named_by(alloc: Global, records: &Records, entry: &Entry) -> Result<Named, AllocError>
    ensures { IfOk result (λ named. (named.0 ≡ drawn_by entry.now) × (named.1 ≡ up_by entry.now) × (named.2 ≡ placed_by records.now.past entry.now)) }
{
    let ids = ids_drawn(alloc, entry)?;
    let up = comes_up(alloc, entry)?;
    let placed = placed_now(alloc, records.procedures(), entry)?;
    Ok((ids, up, placed))
}

// What the procedures work on that an entry makes, in order, and the sheets that it adopts; none where it asks for a transit of
// the number 0, or adopts a sheet that isn't valid.
type Given = (List<Args>, Option<List<Valid>>);

fn given_by(alloc: Global, records: &Records, entry: &Entry) -> Result<Option<Given>, AllocError>
    ensures { IfOk result (λ given. MatchOption given (AsksForZero entry.now ⊎ AdoptsInvalid entry.now) (λ given. (given.0 ≡ made_by records.now.past entry.now) × (given.1 ≡ adopted_by entry.now))) }
{
    let Some(sheets) = adopted(alloc, entry)? else {
        return Ok(None);
    };
    let Some(made) = args_made(alloc, records, entry)? else {
        drop(sheets);
        return Ok(None);
    };
    Ok(Some((made, sheets)))
}

// What is kept of an entry; none where it asks for a transit of the number 0, or adopts a sheet that isn't valid.
pub(crate) fn parts_of(
    alloc: Global,
    records: &Records,
    entry: &Entry,
) -> Result<Option<Parts>, AllocError>
    ensures { IfOk result (λ parts. MatchOption parts (AsksForZero entry.now ⊎ AdoptsInvalid entry.now) (AreParts records.now.past entry.now)) }
{
    let Some(given) = given_by(alloc, records, entry)? else {
        return Ok(None);
    };
    let drafts = drafts_of(alloc, records, entry, given.0.as_slice())?;
    let changes = changes_of(alloc, records, entry)?;
    let named = named_by(alloc, records, entry)?;
    let (made, sheets) = given;
    let (edits, step, nonce) = changes;
    let (ids, up, placed) = named;
    Ok(Some(Parts {
        made,
        drafts,
        edits,
        step,
        nonce,
        ids,
        up,
        placed,
        sheets,
    }))
}
