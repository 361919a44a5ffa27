//! Parts, read one after another.
ghost use Rattle.std.specs.Prelude.{◌≡◌, ◌↔◌, ◌+◌, ◌∷◌, ◌≤◌, [], IfOk, IsTrue, MatchBool, MatchOption, OnOk, length};
ghost use Rattle.hm_data.specs.declared.entry.Entry.TheVariants as entry_is;
ghost use Rattle.hm_model.specs.Base.{IsWhole, PartFits, announced};
ghost use Rattle.hm_model.specs.Rules.{IsLegal};
ghost use Rattle.hm_model.specs.Sheets.{sheets_of};
ghost use Rattle.hm_records.specs.Parts.{AreParts, size_of};
ghost use Rattle.hm_base.specs.Read.{IsPart, IsReadOn, IsReadTo, past_of};

use crate::fits::suits;
use crate::live::{add_part, turn_to};
use crate::order::rises;
use crate::sheets::taken_sheets;
use crate::whole::{regions_served, spaces_there, tables_covered};
use hm_data::{Entry, Part};
use hm_names::Copied;
use hm_ranges::{Ranges, ranges_tell};
use hm_records::{Parts, Records};
use hm_sheet::Valid;
use std::alloc::{AllocError, Global};

// How many entries may have been recorded, and the greatest number of a procedure.
const MOST: u64 = 1 << 48;

// What the parts say that were read.
#[derive(Drop)]
pub(crate) struct Reader {
    pub(crate) records: Records,
    // Those of the live regions of the last part's table, if it is of a region.
    ranges: Ranges,
    // How many parts the head announces behind itself.
    follow: u64,
}

// The entry that is a part, in memory of its own.
fn entry_of(alloc: Global, part: &Part) -> Result<Entry, AllocError>
    ensures { IfOk result (λ entry. entry ≡ entry_is.Base part.now) }
{
    Ok(Entry::Base {
        part: part.copy(alloc)?,
    })
}

// What a head says by itself, with its sheets.
fn begin(alloc: Global, head: &Part, sheets: Vec<Valid>) -> Result<Records, AllocError>
    requires legal { IsLegal (entry_is.Base head.now ∷ []) }
    requires sheets { sheets.items ≡ sheets_of (entry_is.Base head.now ∷ []) }
    ensures { IfOk result (λ records. records.past ≡ entry_is.Base head.now ∷ []) }
{
    match entry_of(alloc, head) {
        Ok(entry) => {
            let records = Records::begin(alloc, &entry, sheets);
            drop(entry);
            records
        }
        Err(error) => {
            drop(sheets);
            Err(error)
        }
    }
}

// Makes what is kept of an entry that is a part, and room for it.
fn make_room(alloc: Global, records: &mut Records, entry: &Entry) -> Result<Parts, AllocError>
    requires { IsPart entry.now }
    ensures past { records.new.past ≡ records.old.past }
    ensures parts { IfOk result (AreParts records.old.past entry.now) }
    ensures room { OnOk result (size_of entry.now ≤ records.new.spare) }
{
    match records.prepare(alloc, entry)? {
        Some(parts) => Ok(parts),
        None => unreachable!(),
    }
}

// Takes in an entry that is a part, and fits.
fn enter_entry(alloc: Global, records: &mut Records, entry: &Entry) -> Result<(), AllocError>
    requires part { IsPart entry.now }
    requires legal { IsLegal (entry.now ∷ records.old.past) }
    ensures { OnOk result (records.new.past ≡ entry.now ∷ records.old.past) }
{
    let parts = make_room(alloc, records, entry)?;
    records.enter(entry, parts);
    Ok(())
}

// Takes in a part that fits.
fn enter(alloc: Global, records: &mut Records, part: &Part) -> Result<(), AllocError>
    requires { IsLegal (entry_is.Base part.now ∷ records.old.past) }
    ensures { OnOk result (records.new.past ≡ entry_is.Base part.now ∷ records.old.past) }
{
    let entry = entry_of(alloc, part)?;
    let entered = enter_entry(alloc, records, &entry);
    drop(entry);
    entered
}

impl Reader {
    // Reads the first part, if it fits: a head.
    pub(crate) fn begin(alloc: Global, first: &Part) -> Result<Option<Reader>, AllocError>
        ensures past { IfOk result (λ reader. MatchOption reader (PartFits first.now [] → ⊥) (λ reader. past_of reader ≡ entry_is.Base first.now ∷ [])) }
        ensures read { IfOk result (λ reader. MatchOption reader (PartFits first.now [] → ⊥) (IsReadTo first.now)) }
    {
        let Part::Head {
            entries,
            last,
            parts,
            sheets,
        } = first
        else {
            return Ok(None);
        };
        if *entries > MOST || last.0 > MOST {
            return Ok(None);
        }
        let ranges = Ranges::new(alloc)?;
        match taken_sheets(alloc, sheets.as_slice())? {
            Some(sheets) => {
                let records = begin(alloc, first, sheets)?;
                Ok(Some(Reader {
                    records,
                    ranges,
                    follow: *parts,
                }))
            }
            None => Ok(None),
        }
    }

    // Reads one part more behind the last, if it fits.
    pub(crate) fn take(
        &mut self,
        alloc: Global,
        last: &Part,
        part: &Part,
    ) -> Result<bool, AllocError>
        requires { IsReadTo last.now self.old }
        ensures legal { IsLegal (past_of self.old) }
        ensures taken { IfOk result (λ taken. MatchBool taken (IsReadOn part.now self.old self.new) (PartFits part.now (past_of self.old) → ⊥)) }
    {
        ranges_tell();
        let _legal = self.records.procedures();
        if !rises(last, part) {
            return Ok(false);
        }
        turn_to(&mut self.ranges, last, part);
        if !suits(&self.records, &self.ranges, part) {
            return Ok(false);
        }
        add_part(alloc, &mut self.ranges, part)?;
        enter(alloc, &mut self.records, part)?;
        Ok(true)
    }

    // Whether the parts that were read, which are so many, are a whole base.
    pub(crate) fn is_whole(&self, alloc: Global, count: usize) -> Result<bool, AllocError>
        requires count { length (past_of self.now) ≡ count }
        requires announces { announced (past_of self.now) ≡ self.now.follow + 1 }
        ensures legal { IsLegal (past_of self.now) }
        ensures whole { IfOk result (λ whole. IsTrue whole ↔ IsWhole (past_of self.now)) }
    {
        let _legal = self.records.procedures();
        let count = count as u64;
        if count <= self.follow || count - self.follow > 1 {
            return Ok(false);
        }
        let spaces = spaces_there(alloc, &self.records)?;
        let covered = tables_covered(alloc, &self.records)?;
        Ok(spaces && covered && regions_served(&self.records))
    }
}
