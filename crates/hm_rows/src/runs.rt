//! A run over memory.
ghost use Rattle.std.specs.Prelude.{All};
ghost use Rattle.hm_sheet.specs.Registry.{IsRegistry};

use crate::hands::Counted;
use hm_crash::CrashHands;
use hm_disk::MemDisk;
use hm_journal::Limits;
use hm_ports::{MemSink, MemSource};
use hm_sheet::{Handler, Registry};
use hm_split::SplitHands;
use hm_top::{Ended, RunStatus, hands_agree, run, run_within};
use hm_transit::TransitHands;
use std::alloc::{AllocError, Global};

/// The call of each device that fails, by its number.
#[derive(Clone, Copy)]
pub(crate) struct Fails {
    pub(crate) source: Option<u64>,
    pub(crate) sink: Option<u64>,
    pub(crate) disk: Option<u64>,
}

/// What a run is given.
#[derive(Clone, Copy)]
pub(crate) struct Setting<'a> {
    pub(crate) words: &'a str,
    pub(crate) script: &'a [u8],
    pub(crate) log: &'a [u8],
    pub(crate) fails: Fails,
    pub(crate) limits: Option<Limits>,
    /// How many steps a handler of tables answers before its memory runs out.
    pub(crate) steps: u64,
}

/// A run that has ended, how often each of its registries was run, and what its sink has got.
#[derive(Drop)]
pub(crate) struct Played {
    pub(crate) status: RunStatus,
    pub(crate) disk: MemDisk,
    pub(crate) marks: Vec<u64>,
    pub(crate) runs: Vec<u64>,
    pub(crate) text: Vec<u8>,
}

// What a run is given beside its handlers.
#[derive(Drop)]
struct Devices {
    words: Vec<String>,
    source: MemSource,
    sink: MemSink,
    disk: MemDisk,
}

// The words of a line, in which `''` is the empty one.
fn words_of(alloc: Global, line: &str) -> Result<Vec<String>, AllocError> {
    let mut words = Vec::new(alloc);
    for word in line.split_whitespace() {
        let word = if word == "''" { "" } else { word };
        words.push(word.to_string(alloc)?)?;
    }
    Ok(words)
}

fn call(alloc: Global, number: Option<u64>) -> Result<Vec<u64>, AllocError> {
    let mut calls = Vec::new(alloc);
    if let Some(number) = number {
        calls.push(number)?;
    }
    Ok(calls)
}

/// A log with much room after it, on a disk of which a call may fail.
pub(crate) fn disk(alloc: Global, log: &[u8], fails: Option<u64>) -> Result<MemDisk, AllocError> {
    let bytes = log.to_vec(alloc)?;
    let room = (bytes.len() as u64).saturating_add(131_072);
    MemDisk::new(alloc, room, bytes, call(alloc, fails)?)
}

// A source of a script, of which a call may fail.
fn source(alloc: Global, script: &[u8], fails: Option<u64>) -> Result<MemSource, AllocError> {
    let calls = call(alloc, fails)?;
    Ok(MemSource::new(script.to_vec(alloc)?, calls))
}

// A sink with much room, of which a call may fail.
fn sink(alloc: Global, fails: Option<u64>) -> Result<MemSink, AllocError> {
    let calls = call(alloc, fails)?;
    Ok(MemSink::new(vec![in alloc; 0; 16_384]?, calls))
}

fn streams_of(alloc: Global, setting: &Setting<'_>) -> Result<(MemSource, MemSink), AllocError> {
    let source = source(alloc, setting.script, setting.fails.source)?;
    let sink = sink(alloc, setting.fails.sink)?;
    Ok((source, sink))
}

fn devices_of(alloc: Global, setting: &Setting<'_>) -> Result<Devices, AllocError> {
    let words = words_of(alloc, setting.words)?;
    let disk = disk(alloc, setting.log, setting.fails.disk)?;
    let (source, sink) = streams_of(alloc, setting)?;
    Ok(Devices {
        words,
        source,
        sink,
        disk,
    })
}

fn runs_of(alloc: Global, hands: &[Registry]) -> Result<Vec<u64>, AllocError> {
    let mut runs = Vec::new(alloc);
    for registry in hands {
        runs.push(registry.runs())?;
    }
    Ok(runs)
}

// A run that has ended so, with what its sink has got.
fn with_text(
    status: RunStatus,
    disk: MemDisk,
    numbers: (Vec<u64>, Vec<u64>),
    text: Result<Vec<u8>, AllocError>,
) -> Result<Played, AllocError> {
    let (marks, runs) = numbers;
    match text {
        Ok(text) => Ok(Played {
            status,
            disk,
            marks,
            runs,
            text,
        }),
        Err(lack) => {
            drop(disk);
            drop(marks);
            drop(runs);
            Err(lack)
        }
    }
}

// What a run that has ended left, with what its sink has got.
fn outcome(
    alloc: Global,
    ended: Ended<MemDisk>,
    text: Result<Vec<u8>, AllocError>,
) -> Result<Played, AllocError> {
    let Ended {
        status,
        disk,
        marks,
        hands,
    } = ended;
    let runs = runs_of(alloc, &hands);
    drop(hands);
    match runs {
        Ok(runs) => with_text(status, disk, (marks, runs), text),
        Err(lack) => {
            drop(disk);
            drop(marks);
            drop(text);
            Err(lack)
        }
    }
}

// Runs with these registries.
fn play_hands(
    alloc: Global,
    devices: Devices,
    hands: Vec<Registry>,
    limits: Option<Limits>,
) -> Result<Played, AllocError>
    requires { All (IsRegistry ⟦<dyn Handler as Handler>⟧) hands.items }
{
    if !hands_agree(&hands) {
        drop(devices);
        drop(hands);
        return Err(AllocError);
    }
    let Devices {
        words,
        source,
        sink,
        disk,
    } = devices;
    let mut source = source;
    let mut sink = sink;
    let ended = match limits {
        Some(limits) if limits.hard >= 65_552 => run_within(
            alloc,
            &words,
            &mut source,
            &mut sink,
            disk,
            hands,
            limits,
        ),
        _ => run(alloc, &words, &mut source, &mut sink, disk, hands),
    };
    drop(words);
    drop(source);
    let text = sink.got().to_vec(alloc);
    drop(sink);
    outcome(alloc, ended, text)
}

// Runs with a registry for each of these groups of handlers.
fn play_with(
    alloc: Global,
    setting: &Setting<'_>,
    groups: Vec<Vec<Box<dyn Handler>>>,
) -> Result<Played, AllocError> {
    let mut hands = Vec::new(alloc);
    for handlers in groups {
        let Ok(registry) = Registry::new(alloc, handlers) else {
            return Err(AllocError);
        };
        hands.push(registry)?;
    }
    let devices = devices_of(alloc, setting)?;
    play_hands(alloc, devices, hands, setting.limits)
}

// Boxes that have, together, each kind of procedures.
pub(crate) type Boxes = (
    Box<Counted>,
    Box<SplitHands>,
    Box<TransitHands>,
    Box<CrashHands>,
);

fn first_boxes(alloc: Global, steps: u64) -> Result<(Box<Counted>, Box<SplitHands>), AllocError> {
    let tables = Box::new(alloc, Counted::new(alloc, steps)?)?;
    let splits = Box::new(alloc, SplitHands::new(alloc)?)?;
    Ok((tables, splits))
}

fn last_boxes(alloc: Global) -> Result<(Box<TransitHands>, Box<CrashHands>), AllocError> {
    let transits = Box::new(alloc, TransitHands::new(alloc)?)?;
    let crashes = Box::new(alloc, CrashHands::new(alloc)?)?;
    Ok((transits, crashes))
}

/// Boxes of which that of tables answers so many steps.
pub(crate) fn boxes(alloc: Global, steps: u64) -> Result<Boxes, AllocError> {
    let (tables, splits) = first_boxes(alloc, steps)?;
    let (transits, crashes) = last_boxes(alloc)?;
    Ok((tables, splits, transits, crashes))
}

/// Runs with a group of handlers for each of the seventeen registries that a run asks for.
pub(crate) fn play(alloc: Global, setting: &Setting<'_>) -> Result<Played, AllocError> {
    let mut groups: Vec<Vec<Box<dyn Handler>>> = Vec::new(alloc);
    for _ in 0..17 {
        let (tables, splits, transits, crashes) = boxes(alloc, setting.steps)?;
        let handlers: [Box<dyn Handler>; 4] = [tables, splits, transits, crashes];
        groups.push(Vec::from_array(alloc, handlers)?)?;
    }
    play_with(alloc, setting, groups)
}
