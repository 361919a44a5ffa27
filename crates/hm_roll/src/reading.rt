//! Frames as parts.
ghost use Rattle.std.specs.Prelude.{◌≡◌, ◌⊎◌, ◌<◌, ◌++◌, ◌∷◌, [], ℕ, List as PlainList, length, IfOk, IfErr, OnOk, MatchResult};
ghost use Rattle.hm_data.specs.declared.part.Part.{Part as PartValue};
ghost use Rattle.hm_data.specs.declared.entry.Entry.TheVariants as entry_is;
ghost use Rattle.hm_roll.specs.Parts.{because, IsFirstWrong, IsNoImage, IsNotRead, IsOther, Spells, SpellsAt};

use crate::why::PartsWhy;
use hm_data::{Entry, Part};
use hm_entry::{EntryFault, decode};
use hm_log::Frames;
use hm_names::List;
use std::alloc::Global;

// Why the frame of this number spells no entry.
fn fault_of(number: u64, fault: EntryFault) -> PartsWhy
    ensures { result ≡ because number fault }
{
    match fault {
        EntryFault::Short(at) => PartsWhy::Entry { number, at },
        EntryFault::Field(at) => PartsWhy::Entry { number, at },
        EntryFault::Rest(at) => PartsWhy::Entry { number, at },
        EntryFault::Memory => PartsWhy::Memory,
    }
}

// The part that an entry is of a base, else why not.
fn part_in(number: u64, entry: Entry) -> Result<Part, PartsWhy>
    ensures part { IfOk result (λ part. entry ≡ entry_is.Base part) }
    ensures why { IfErr result (λ why. IsOther entry × (why ≡ PartsWhy.Entry number 0)) }
{
    match entry {
        Entry::Base { part } => Ok(part),
        other => {
            drop(other);
            // Its first byte tells its kind.
            Err(PartsWhy::Entry { number, at: 0 })
        }
    }
}

// The part that the frame of this number spells.
fn read_part(alloc: Global, frames: &Frames, number: u64) -> Result<Part, PartsWhy>
    requires { number < length frames.now }
    ensures part { IfOk result (SpellsAt frames.now number) }
    ensures why { IfErr result (IsNotRead frames.now number) }
{
    match decode(alloc, frames.frame(number)) {
        Ok(entry) => part_in(number, entry),
        Err(fault) => Err(fault_of(number, fault)),
    }
}

// Adds the part that the frame of this number spells.
fn add_part(
    alloc: Global,
    parts: &mut Vec<Part>,
    frames: &Frames,
    number: u64,
) -> Result<(), PartsWhy>
    requires { number < length frames.now }
    ensures added { OnOk result ((part : PartValue) × SpellsAt frames.now number part × (parts.new.items ≡ parts.old.items ++ part ∷ [])) }
    ensures why { IfErr result (IsNotRead frames.now number) }
{
    parts.reserve(1)?;
    let part = read_part(alloc, frames, number)?;
    parts.push_reserved(part);
    Ok(())
}

// Puts the parts that the frames spell into a vector that is empty.
fn add_parts(alloc: Global, parts: &mut Vec<Part>, frames: &Frames) -> Result<(), PartsWhy>
    requires { parts.old.items ≡ [] }
    ensures parts { OnOk result (Spells frames.now parts.new.items) }
    ensures why { IfErr result (IsNoImage frames.now) }
{
    for number in 0..frames.count() {
        add_part(alloc, parts, frames, number)?;
    }
    Ok(())
}

/// The parts whose frames these are, in order.
pub fn parts_of(alloc: Global, frames: &Frames) -> Result<List<Part>, PartsWhy>
    // What is read is spelled by the frames.
    ensures parts { IfOk result (Spells frames.now) }
    // What is spelled by the frames is read, unless memory runs out: so it gives back what `frames_of` was given.
    ensures inverse { (parts : PlainList PartValue) → Spells frames.now parts →
        MatchResult result (λ found. found ≡ parts) (λ why. why ≡ PartsWhy.Memory) }
    // Where a frame spells no part, the first such frame is told, unless memory runs out, and nothing else is.
    ensures wrong { (number at : ℕ) → IsFirstWrong frames.now number at →
        MatchResult result (λ _. ⊥) (λ why. (why ≡ PartsWhy.Entry number at) ⊎ (why ≡ PartsWhy.Memory)) }
    ensures why { IfErr result (IsNoImage frames.now) }
{
    let mut parts = Vec::new(alloc);
    match add_parts(alloc, &mut parts, frames) {
        Ok(()) => Ok(List::of(parts)),
        Err(why) => {
            drop(parts);
            Err(why)
        }
    }
}
