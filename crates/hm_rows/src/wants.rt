//! What a run did, beside what its row wants.
use crate::cases::number_or;
use crate::runs::Played;
use hm_play::{Fault, Names, Row, Wrong, first_wrong, numbers};
use hm_top::RunStatus;
use std::alloc::Global;
use std::str;

/// What isn't as it is wanted.
#[derive(Clone, Copy, Debug)]
pub(crate) enum Complaint<'a> {
    Text(Wrong<'a>),
    NoText,
    Ends(RunStatus),
    Leaves(&'a [u8]),
    Marks(&'a [u64]),
    Runs(&'a [u64]),
}

fn of_text<'a>(row: &Row<'a>, text: &'a [u8]) -> Option<Complaint<'a>> {
    match str::from_utf8(text) {
        Ok(text) => first_wrong(row, text).map(Complaint::Text),
        Err(_) => Some(Complaint::NoText),
    }
}

// The status is that of a row, or 0.
fn of_status<'a>(row: &Row<'_>, status: RunStatus) -> Result<Option<Complaint<'a>>, Fault> {
    if u64::from(status.code()) == number_or(row, "ends", 0)? {
        Ok(None)
    } else {
        Ok(Some(Complaint::Ends(status)))
    }
}

// What the disk reads is the log of a row, where it has one, or what it read before.
fn of_log<'a>(
    alloc: Global,
    names: &Names,
    row: &Row<'_>,
    before: &[u8],
    left: &'a [u8],
) -> Result<Option<Complaint<'a>>, Fault> {
    let is_left = match row.value("leaves") {
        Some("same") => before == left,
        Some(words) => names.bytes(alloc, words)?.as_slice() == left,
        None => true,
    };
    if is_left {
        Ok(None)
    } else {
        Ok(Some(Complaint::Leaves(left)))
    }
}

// These numbers are those of a row after a word, where it has any.
fn are_wanted(alloc: Global, row: &Row<'_>, word: &str, found: &[u64]) -> Result<bool, Fault> {
    let mut lines = 0u64;
    for line in row.values(alloc, word)? {
        if numbers(alloc, line)?.as_slice() == found {
            return Ok(true);
        }
        lines = lines.saturating_add(1);
    }
    Ok(lines == 0)
}

fn of_numbers<'a>(
    alloc: Global,
    row: &Row<'_>,
    played: &'a Played,
) -> Result<Option<Complaint<'a>>, Fault> {
    if !are_wanted(alloc, row, "marks", &played.marks)? {
        Ok(Some(Complaint::Marks(&played.marks)))
    } else if !are_wanted(alloc, row, "runs", &played.runs)? {
        Ok(Some(Complaint::Runs(&played.runs)))
    } else {
        Ok(None)
    }
}

/// The first of what isn't as a row wants it, of a run over this log.
pub(crate) fn complaint_of<'a>(
    alloc: Global,
    names: &Names,
    row: &Row<'a>,
    log: &[u8],
    played: &'a Played,
) -> Result<Option<Complaint<'a>>, Fault> {
    if let Some(complaint) = of_text(row, &played.text) {
        return Ok(Some(complaint));
    }
    if let Some(complaint) = of_status(row, played.status)? {
        return Ok(Some(complaint));
    }
    if let Some(complaint) = of_log(alloc, names, row, log, played.disk.bytes())? {
        return Ok(Some(complaint));
    }
    of_numbers(alloc, row, played)
}
