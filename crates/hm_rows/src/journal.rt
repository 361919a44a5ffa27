//! Journals that are opened and recorded in, over memory.
ghost use Rattle.std.specs.Prelude.{◌≡◌, IfOk, ◌≤◌, false};
ghost use Rattle.hm_hall.specs.Recording.{CanBeRecorded};
ghost use Rattle.hm_model.specs.Base.{AreSheets};
ghost use Rattle.hm_model.specs.Laws.{is_part};

use crate::runs::{boxes, disk};
use hm_data::{Entry, Request, Sheet};
use hm_disk::MemDisk;
use hm_journal::{Journal, Limits, entries_fit_frames};
use hm_names::{Copied, List, Nonce, Ns};
use hm_sheet::{Handler, Registry};
use std::alloc::{AllocError, Global};
use std::fmt::Write;

// The sheets with which a journal begins.
fn sheets(alloc: Global) -> Result<List<Sheet>, AllocError>
    ensures valid { IfOk result AreSheets }
{
    let (tables, splits, transits, crashes) = boxes(alloc, 0)?;
    let handlers: [Box<dyn Handler>; 4] = [tables, splits, transits, crashes];
    let handlers = Vec::from_array(alloc, handlers)?;
    let Ok(registry) = Registry::new(alloc, handlers) else {
        return Err(AllocError);
    };
    let sheets = registry.sheets().copy(alloc);
    drop(registry);
    sheets
}

// The entry that asks for a namespace `more`.
fn submission(alloc: Global) -> Result<Entry, AllocError>
    ensures fits { IfOk result CanBeRecorded }
    ensures other { IfOk result (λ entry. is_part entry ≡ false) }
{
    let Ok(ns) = Ns::of(alloc, b"more") else {
        return Err(AllocError);
    };
    let _named = ns.as_bytes();
    entries_fit_frames();
    let nonce = Nonce {
        group: 1,
        number: 1,
    };
    Ok(Entry::Submit {
        nonce,
        request: Request::CreateNamespace { ns },
    })
}

// Opens the log as a journal of these sheets.
fn open_with(
    alloc: Global,
    log: &[u8],
    sheets: &[Sheet],
    limits: Limits,
) -> Result<Journal<MemDisk>, AllocError>
    requires valid { AreSheets sheets.now }
    requires hard { 65552 ≤ limits.hard }
{
    let disk = disk(alloc, log, None)?;
    match Journal::open(alloc, disk, sheets, limits) {
        Ok((journal, state)) => {
            drop(state);
            Ok(journal)
        }
        Err((disk, _)) => {
            drop(disk);
            Err(AllocError)
        }
    }
}

fn open(alloc: Global, log: &[u8], limits: Limits) -> Result<Journal<MemDisk>, AllocError> {
    if limits.hard < 65_552 {
        return Err(AllocError);
    }
    let sheets = sheets(alloc)?;
    let opened = open_with(alloc, log, sheets.as_slice(), limits);
    drop(sheets);
    opened
}

// Says how long a journal is, and whether it is at its soft mark.
fn add_lengths(text: &mut String, journal: &Journal<MemDisk>) -> Result<(), AllocError> {
    let durable = journal.durable();
    let bytes = journal.bytes();
    let full = journal.soft_full();
    write!(
        text,
        "durable {durable}, bytes {bytes}, soft full {full:?}\n"
    )?;
    Ok(())
}

// Makes the entry ready, records it, and says what is answered.
fn record(
    alloc: Global,
    journal: &mut Journal<MemDisk>,
    text: &mut String,
) -> Result<(), AllocError> {
    let entry = submission(alloc)?;
    let readied = journal.ready(alloc, &entry);
    drop(entry);
    readied?;
    let recorded = journal.record_entry();
    write!(text, "{recorded:?}, ")?;
    add_lengths(text, journal)
}

/// What a journal over this log answers where the entry is recorded so many times.
pub(crate) fn recordings(
    alloc: Global,
    log: &[u8],
    limits: Limits,
    count: u64,
) -> Result<String, AllocError> {
    let mut text = String::new(alloc);
    let mut journal = open(alloc, log, limits)?;
    add_lengths(&mut text, &journal)?;
    for _ in 0..count {
        record(alloc, &mut journal, &mut text)?;
    }
    Ok(text)
}
