//! What a row says of its runs.
use crate::runs::Fails;
use hm_disk::Choice;
use hm_journal::Limits;
use hm_play::{Fault, Names, Row, add_plain, behind, number, numbers};
use std::alloc::{AllocError, Global};

/// One of the runs of a row over one log: its words, the calls of devices that fail, and the stop after it.
#[derive(Clone, Copy)]
pub(crate) struct Case<'a> {
    pub(crate) words: &'a str,
    pub(crate) fails: Fails,
    pub(crate) stop: Option<Choice>,
}

// Adds a line of a script. One that ends in `%` has no newline.
fn add_line(script: &mut Vec<u8>, line: &str) -> Result<(), Fault> {
    match line.strip_suffix('%') {
        Some(line) => add_plain(script, line),
        None => {
            add_plain(script, line)?;
            script.push(b'\n')?;
            Ok(())
        }
    }
}

// Adds a line so many times, with its number from 0 on in place of each `#`.
fn add_lines(
    alloc: Global,
    script: &mut Vec<u8>,
    line: &str,
    count: u64,
) -> Result<(), AllocError> {
    for number in 0..count {
        let number = number.to_string(alloc)?;
        for (place, piece) in line.split('#').enumerate() {
            if place > 0 {
                script.extend_from_slice(number.as_bytes())?;
            }
            script.extend_from_slice(piece.as_bytes())?;
        }
        script.push(b'\n')?;
    }
    Ok(())
}

/// The script of a row.
pub(crate) fn script_of(alloc: Global, row: &Row<'_>) -> Result<Vec<u8>, Fault> {
    let mut script = Vec::new(alloc);
    let mut times = None;
    for line in row.lines("<") {
        if let Some(count) = behind(line, "times") {
            times = Some(number(count)?);
        } else if let Some(line) = behind(line, "<") {
            match times.take() {
                Some(count) => add_lines(alloc, &mut script, line, count)?,
                None => add_line(&mut script, line)?,
            }
        }
    }
    Ok(script)
}

// The calls of a device that fail, each in turn, or none.
fn calls_of(alloc: Global, row: &Row<'_>, device: &str) -> Result<Vec<Option<u64>>, Fault> {
    let mut calls = Vec::new(alloc);
    match row.value(device) {
        Some(text) => {
            for call in numbers(alloc, text)? {
                calls.push(Some(call))?;
            }
        }
        None => calls.push(None)?,
    }
    Ok(calls)
}

// The calls that fail, of all devices together.
fn fails_of(alloc: Global, row: &Row<'_>) -> Result<Vec<Fails>, Fault> {
    let sources = calls_of(alloc, row, "source")?;
    let sinks = calls_of(alloc, row, "sink")?;
    let disks = calls_of(alloc, row, "disk")?;
    let mut fails = Vec::new(alloc);
    for source in &sources {
        for sink in &sinks {
            for disk in &disks {
                fails.push(Fails {
                    source: *source,
                    sink: *sink,
                    disk: *disk,
                })?;
            }
        }
    }
    Ok(fails)
}

// What a stop leaves, by a word.
fn choice(word: &str) -> Result<Choice, Fault> {
    match word {
        "synced" => Ok(Choice::Synced),
        "read" => Ok(Choice::AsRead),
        _ => {
            let byte = u8::from_str_radix(word, 16).map_err(|_| Fault::Unread)?;
            Ok(Choice::Fill(byte))
        }
    }
}

// The stops after a run, each in turn, or none.
fn stops_of(alloc: Global, row: &Row<'_>) -> Result<Vec<Option<Choice>>, Fault> {
    let mut stops = Vec::new(alloc);
    match row.value("stop") {
        Some(words) => {
            for word in words.split_whitespace() {
                stops.push(Some(choice(word)?))?;
            }
        }
        None => stops.push(None)?,
    }
    Ok(stops)
}

// The words of a row's runs, of each in turn.
fn words_of<'a>(alloc: Global, row: &Row<'a>) -> Result<Vec<&'a str>, AllocError> {
    let mut words = row.values(alloc, "words")?;
    if words.is_empty() {
        words.push("run a.log")?;
    }
    Ok(words)
}

/// The runs of a row over each of its logs.
pub(crate) fn cases_of<'a>(alloc: Global, row: &Row<'a>) -> Result<Vec<Case<'a>>, Fault> {
    let words = words_of(alloc, row)?;
    let fails = fails_of(alloc, row)?;
    let stops = stops_of(alloc, row)?;
    let mut cases = Vec::new(alloc);
    for words in &words {
        for fails in &fails {
            for stop in &stops {
                cases.push(Case {
                    words: *words,
                    fails: *fails,
                    stop: *stop,
                })?;
            }
        }
    }
    Ok(cases)
}

/// The marks of a row's journals, where it has any.
pub(crate) fn limits_of(alloc: Global, row: &Row<'_>) -> Result<Option<Limits>, Fault> {
    let Some(text) = row.value("within") else {
        return Ok(None);
    };
    match numbers(alloc, text)?.as_slice() {
        [soft, hard] => Ok(Some(Limits {
            soft: *soft,
            hard: *hard,
        })),
        _ => Err(Fault::Unread),
    }
}

/// The number that a row has after a word, or what counts where it has none.
pub(crate) fn number_or(row: &Row<'_>, word: &str, other: u64) -> Result<u64, Fault> {
    match row.value(word) {
        Some(text) => number(text),
        None => Ok(other),
    }
}

/// The logs of a row, each in turn: by their bytes, or those that the row above has left.
pub(crate) fn logs_of(
    alloc: Global,
    names: &Names,
    left: &[Vec<u8>],
    row: &Row<'_>,
) -> Result<Vec<Vec<u8>>, Fault> {
    let mut logs = Vec::new(alloc);
    for words in row.values(alloc, "over")? {
        if words == "left" {
            for log in left {
                logs.push(log.to_vec(alloc)?)?;
            }
        } else {
            logs.push(names.bytes(alloc, words)?)?;
        }
    }
    if logs.is_empty() {
        logs.push(Vec::new(alloc))?;
    }
    Ok(logs)
}
