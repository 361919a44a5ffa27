//! The whole image: its head, and what it shows.
ghost use Rattle.std.specs.Prelude.{◌≡◌, [], IfErr, IfOk, OnOk};
ghost use Rattle.hm_data.specs.declared.part.Part.TheVariants as part_is;
ghost use Rattle.hm_model.specs.Base.{IsBegun};
ghost use Rattle.hm_model.specs.Image.{counted, image as image_of, shown as shown_in};
ghost use Rattle.hm_model.specs.Rebase.{MayRoll, under_way};
ghost use Rattle.hm_model.specs.Sheets.{sheets_of};
ghost use Rattle.hm_model.specs.Tree.{made, pid_of};
ghost use Rattle.hm_image.specs.Image.{IsNoImage, IsRefused};

use crate::catalog::add_catalog;
use crate::layouts::add_layouts;
use crate::roots::add_roots;
use crate::servers::add_servers;
use crate::why::ImageWhy;
use hm_data::{Part, Sheet};
use hm_names::{Copied, List, Pid};
use hm_records::Records;
use hm_sheet::Valid;
use std::alloc::{AllocError, Global};

// How many entries may have been recorded, and the greatest number of a procedure, for a base to tell them.
const MOST: u64 = 1 << 48;

// Whether an image may take a journal's place, and else why not. It takes no memory.
fn may_roll(records: &Records, count: u64) -> Result<(), ImageWhy>
    requires { count ≡ counted records.now.past }
    ensures may { OnOk result (MayRoll records.now.past) }
    ensures why { IfErr result (IsRefused records.now.past) }
{
    let procedures = records.procedures();
    let unfinished = procedures.unfinished_procedures();
    if unfinished > 0 {
        return Err(ImageWhy::Unsettled(unfinished));
    }
    let age = count.max(procedures.last_pid());
    if age > MOST {
        return Err(ImageWhy::TooOld(age));
    }
    Ok(())
}

// Copies of sheets.
fn copies(alloc: Global, sheets: &[Valid]) -> Result<List<Sheet>, AllocError>
    ensures { IfOk result (λ list. list ≡ sheets.now) }
{
    let mut list = Vec::new(alloc);
    for valid in sheets {
        list.push(valid.sheet().copy(alloc)?)?;
    }
    Ok(List::of(list))
}

// The head, before so many parts.
fn head(alloc: Global, records: &Records, count: u64, parts: u64) -> Result<Part, AllocError>
    ensures { IfOk result (λ head. head ≡ part_is.Head count (pid_of (made records.now.past)) parts (sheets_of records.now.past)) }
{
    let last = Pid(records.procedures().last_pid());
    Ok(Part::Head {
        entries: count,
        last,
        parts,
        sheets: copies(alloc, records.sheets())?,
    })
}

// Adds the parts behind the head.
fn add_shown(alloc: Global, records: &Records, parts: &mut Vec<Part>) -> Result<(), AllocError>
    requires begun { IsBegun records.now.past }
    requires settled { under_way records.now.past ≡ 0 }
    requires none { parts.old.items ≡ [] }
    ensures { OnOk result (parts.new.items ≡ shown_in records.now.past) }
{
    add_catalog(alloc, records, parts)?;
    add_servers(alloc, records, parts)?;
    add_roots(alloc, records, parts)?;
    add_layouts(alloc, records, parts)
}

// The parts of a journal that an image may take the place of.
fn parts_of(alloc: Global, records: &Records, count: u64) -> Result<List<Part>, AllocError>
    requires count { count ≡ counted records.now.past }
    requires begun { IsBegun records.now.past }
    requires settled { under_way records.now.past ≡ 0 }
    ensures { IfOk result (λ parts. parts ≡ image_of records.now.past) }
{
    let mut parts = Vec::new(alloc);
    add_shown(alloc, records, &mut parts)?;
    let first = head(alloc, records, count, parts.len() as u64)?;
    parts.insert(0, first)?;
    Ok(List::of(parts))
}

/// The image of a journal that has begun, of which so many entries were recorded: what it came to, as the parts of a base. It is
/// refused while a procedure is unfinished, and else where the journal is too old; each before memory is taken.
pub fn image(alloc: Global, records: &Records, count: u64) -> Result<List<Part>, ImageWhy>
    requires count { count ≡ counted records.now.past }
    requires begun { IsBegun records.now.past }
    ensures image { IfOk result (λ parts. parts ≡ image_of records.now.past) }
    ensures rolls { OnOk result (MayRoll records.now.past) }
    ensures why { IfErr result (IsNoImage records.now.past) }
{
    may_roll(records, count)?;
    Ok(parts_of(alloc, records, count)?)
}
