//! Rows that are played.
use crate::cases::{cases_of, limits_of, logs_of, number_or, script_of};
use crate::journal::recordings;
use crate::runs::{Fails, Setting, play};
use crate::wants::complaint_of;
use hm_disk::{Choice, MemDisk};
use hm_play::{Fault, Names, Player, Row, complain, first_wrong, number};
use hm_top::RunStatus;
use std::alloc::{AllocError, Global};

// What a disk reads, after a stop if there is one.
fn left_on(alloc: Global, disk: MemDisk, stop: Option<Choice>) -> Result<Vec<u8>, AllocError> {
    let disk = match stop {
        Some(choice) => disk.stop(choice),
        None => disk,
    };
    disk.bytes().to_vec(alloc)
}

// Plays a run of a row, says what isn't as the row wants it, and gives what the disk then reads.
fn play_run(
    alloc: Global,
    names: &Names,
    row: &Row<'_>,
    setting: &Setting<'_>,
    stop: Option<Choice>,
    report: &mut String,
) -> Result<Vec<u8>, Fault> {
    let played = play(alloc, setting)?;
    if let Some(complaint) = complaint_of(alloc, names, row, setting.log, &played)? {
        complain(report, row, &complaint)?;
    }
    Ok(left_on(alloc, played.disk, stop)?)
}

// A call of the disk that a run makes, or doesn't make, other than its row wants it.
#[derive(Debug, Drop)]
struct Calls(u64);

// A run makes fewer calls of its disk than this number: the one of this number doesn't fail.
fn makes_fewer(alloc: Global, setting: &Setting<'_>, call: u64) -> Result<bool, AllocError> {
    let fails = Fails {
        disk: Some(call),
        ..setting.fails
    };
    let played = play(alloc, &Setting { fails, ..*setting })?;
    Ok(played.status == RunStatus::Done)
}

// Says where a run makes more or fewer calls of its disk than its row wants.
fn count_calls(
    alloc: Global,
    row: &Row<'_>,
    setting: &Setting<'_>,
    report: &mut String,
) -> Result<(), Fault> {
    let Some(wanted) = row.value("calls") else {
        return Ok(());
    };
    let wanted = number(wanted)?;
    for call in 0..=wanted {
        if makes_fewer(alloc, setting, call)? != (call == wanted) {
            complain(report, row, &Calls(call))?;
        }
    }
    Ok(())
}

// Records in a journal over the log, where a row asks for that in place of a run.
fn play_records(
    alloc: Global,
    row: &Row<'_>,
    setting: &Setting<'_>,
    report: &mut String,
) -> Result<bool, Fault> {
    let (Some(count), Some(limits)) = (row.value("records"), setting.limits) else {
        return Ok(false);
    };
    let text = recordings(alloc, setting.log, limits, number(count)?)?;
    if let Some(wrong) = first_wrong(row, &text) {
        complain(report, row, &wrong)?;
    }
    Ok(true)
}

// Plays one of a row's cases, and gives what the disk then reads.
fn play_case(
    alloc: Global,
    names: &Names,
    row: &Row<'_>,
    setting: &Setting<'_>,
    stop: Option<Choice>,
    report: &mut String,
) -> Result<Vec<u8>, Fault> {
    if play_records(alloc, row, setting, report)? {
        return Ok(Vec::new(alloc));
    }
    count_calls(alloc, row, setting, report)?;
    play_run(alloc, names, row, setting, stop, report)
}

// Plays the cases of a row over its logs, and gives how many they are. What each leaves is left for the row below.
fn play_cases(
    alloc: Global,
    names: &Names,
    left: &mut Vec<Vec<u8>>,
    row: &Row<'_>,
    report: &mut String,
) -> Result<u64, Fault> {
    let logs = logs_of(alloc, names, left, row)?;
    let cases = cases_of(alloc, row)?;
    let script = script_of(alloc, row)?;
    left.clear();
    for log in &logs {
        for case in &cases {
            let setting = Setting {
                words: case.words,
                script: &script,
                log,
                fails: case.fails,
                limits: limits_of(alloc, row)?,
                steps: number_or(row, "steps", u64::MAX)?,
            };
            left.push(play_case(alloc, names, row, &setting, case.stop, report)?)?;
        }
    }
    Ok(left.len() as u64)
}

/// What the rows of tables go on with: bytes by name, and the logs that the row above has left.
#[derive(Drop)]
pub(crate) struct Runs {
    names: Names,
    left: Vec<Vec<u8>>,
}

impl Runs {
    pub(crate) fn new(alloc: Global) -> Runs {
        Runs {
            names: Names::new(alloc),
            left: Vec::new(alloc),
        }
    }
}

impl Player for Runs {
    fn begin(&mut self, alloc: Global, head: &Row<'_>) -> Result<(), Fault> {
        for line in head.values(alloc, "bytes")? {
            self.names.define(alloc, line)?;
        }
        Ok(())
    }

    fn play(&mut self, alloc: Global, row: &Row<'_>, report: &mut String) -> Result<u64, Fault> {
        let runs = play_cases(alloc, &self.names, &mut self.left, row, report)?;
        if let (Some(name), Some(log)) = (row.value("keep"), self.left.last()) {
            self.names.add(alloc, name, log)?;
        }
        Ok(runs)
    }
}
