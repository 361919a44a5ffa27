ghost use Rattle.std.specs.Prelude.{◌≡◌, IfOk, MatchResult};
ghost use Rattle.hm_data.specs.declared.entry.Entry.{Entry};
ghost use Rattle.hm_data.specs.declared.entry.Entry.TheVariants as entry_is;
ghost use Rattle.hm_entry.specs.declared.fault.EntryFault.TheVariants.{Memory};
ghost use Rattle.hm_entry.specs.Fits.{EntryFits};
ghost use Rattle.hm_entry.specs.Spelling.{entry as spelling};
ghost use Rattle.hm_entry.specs.Reading.{Gives, GivesAll, of_two, of_three, option_at, byte_at, pid_at, nonce_at, server_at, told_at};
ghost use Rattle.hm_entry.specs.Reading.{request_at, out_at, entry_of, entry_at, all_of};

use crate::codes::told;
use crate::fault::EntryFault;
use crate::fields::byte;
use crate::get::{list, option};
use crate::names::{nonce, pid, server};
use crate::parts::part;
use crate::requests::request;
use crate::steps::out;
use hm_data::Entry;
use hm_wire::Reader;
use std::alloc::Global;

// The fields of a request that came in.
fn submitted(alloc: Global, r: &mut Reader) -> Result<Entry, EntryFault>
    ensures { Gives result (of_two entry_is.Submit nonce_at request_at r.old) r.new }
{
    Ok(Entry::Submit {
        nonce: nonce(r)?,
        request: request(alloc, r)?,
    })
}

// The fields of a step.
fn step(alloc: Global, r: &mut Reader) -> Result<Entry, EntryFault>
    ensures { Gives result (of_three entry_is.Step pid_at (option_at server_at) out_at r.old) r.new }
{
    Ok(Entry::Step {
        pid: pid(r)?,
        pick: option(alloc, r)?,
        out: out(alloc, r)?,
    })
}

// The fields of a step that was undone.
fn undone(alloc: Global, r: &mut Reader) -> Result<Entry, EntryFault>
    ensures { Gives result (of_three entry_is.Undo pid_at byte_at out_at r.old) r.new }
{
    Ok(Entry::Undo {
        pid: pid(r)?,
        row: byte(r)?,
        out: out(alloc, r)?,
    })
}

// The fields of an answer to a call.
fn reported(r: &mut Reader) -> Result<Entry, EntryFault>
    ensures { Gives result (of_two entry_is.Report pid_at told_at r.old) r.new }
{
    Ok(Entry::Report {
        call: pid(r)?,
        told: told(r)?,
    })
}

// An entry of this kind, which stood at the place.
#[tactic(auto, unfolding(crate::specs::Reading::entry_of))]
fn entry_behind(alloc: Global, place: u64, kind: u8, r: &mut Reader) -> Result<Entry, EntryFault>
    ensures { Gives result (entry_of place kind r.old) r.new }
{
    match kind {
        0 => Ok(Entry::Start {
            sheets: list(alloc, r)?,
        }),
        1 => submitted(alloc, r),
        2 => step(alloc, r),
        3 => undone(alloc, r),
        4 => reported(r),
        5 => Ok(Entry::Up {
            server: server(alloc, r)?,
        }),
        6 => Ok(Entry::Down {
            server: server(alloc, r)?,
        }),
        7 => Ok(Entry::Abort { pid: pid(r)? }),
        8 => Ok(Entry::Base {
            part: part(alloc, r)?,
        }),
        9 => Ok(Entry::Adopt {
            sheets: list(alloc, r)?,
        }),
        _ => Err(EntryFault::Field(place)),
    }
}

#[tactic(auto, unfolding(crate::specs::Reading::entry_at))]
fn entry(alloc: Global, r: &mut Reader) -> Result<Entry, EntryFault>
    ensures { Gives result (entry_at r.old) r.new }
{
    let place = r.at();
    let kind = byte(r)?;
    entry_behind(alloc, place, kind, r)
}

// The entry that all of the bytes are read as.
#[tactic(auto, unfolding(crate::specs::Reading::all_of))]
fn all(alloc: Global, bytes: &[u8]) -> Result<Entry, EntryFault>
    ensures { GivesAll result (all_of bytes.now) }
{
    let mut r = Reader::new(bytes);
    let entry = entry(alloc, &mut r)?;
    if r.left() > 0 {
        drop(entry);
        return Err(EntryFault::Rest(r.at()));
    }
    Ok(entry)
}

/// The entry that the bytes spell, all of the bytes. Places count bytes from 0, and a fault is the first one from the
/// left: `Short` is at a number, a text or a kind that runs past the end, `Field` at one that is no value, and `Rest`
/// at the first byte after a whole entry.
pub fn decode(alloc: Global, bytes: &[u8]) -> Result<Entry, EntryFault>
    // What is read is spelled by the bytes.
    ensures found { IfOk result (λ e. EntryFits e × (bytes.now ≡ spelling e)) }
    // What is spelled by the bytes is read, unless memory runs out.
    ensures only { (e : Entry) → EntryFits e → bytes.now ≡ spelling e
        → MatchResult result (λ x. x ≡ e) (λ f. f ≡ Memory) }
    // Which fault it is.
    ensures exact { GivesAll result (all_of bytes.now) }
{
    all(alloc, bytes)
}
