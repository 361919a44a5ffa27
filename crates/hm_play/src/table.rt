//! Tables that are played, row by row.
use crate::fault::Fault;
use crate::rows::{Row, lines_of, rows_of};
use std::alloc::{AllocError, Global};
use std::fmt::{Debug, Write};
use std::rt::{Env, Files};
use std::{env, fs, io};

/// What plays the rows of tables.
pub trait Player {
    /// Takes what the head of a part says.
    fn begin(&mut self, alloc: Global, head: &Row<'_>) -> Result<(), Fault>;

    /// Plays a row, reports what isn't as the row wants it, and gives how many runs it had.
    fn play(&mut self, alloc: Global, row: &Row<'_>, report: &mut String) -> Result<u64, Fault>;
}

// A part of a table: what it is called, and how many rows and runs it has had.
#[derive(Clone, Copy)]
struct Part<'a> {
    heading: &'a str,
    rows: u64,
    runs: u64,
}

// The part that begins with a head.
fn part_at<'a>(heading: &'a str) -> Part<'a> {
    Part {
        heading,
        rows: 0,
        runs: 0,
    }
}

fn tell(part: &Part<'_>, report: &mut String) -> Result<(), AllocError> {
    let heading = part.heading;
    let rows = part.rows;
    let runs = part.runs;
    if !heading.is_empty() {
        write!(report, "{rows} rows, {runs} runs: {heading}\n")?;
    }
    Ok(())
}

/// Reports what isn't as a row wants it.
pub fn complain<T: Debug>(report: &mut String, row: &Row<'_>, what: &T) -> Result<(), AllocError> {
    let line = row.line;
    write!(report, "line {line}: {what:?}\n")?;
    Ok(())
}

// How many runs a row had. One that can't be read has none, and is reported.
fn runs_of(
    played: Result<u64, Fault>,
    row: &Row<'_>,
    report: &mut String,
) -> Result<u64, AllocError> {
    match played {
        Ok(runs) => Ok(runs),
        Err(Fault::Memory) => Err(AllocError),
        Err(Fault::Unread) => {
            complain(report, row, &Fault::Unread)?;
            Ok(0)
        }
    }
}

// Plays a block, and gives the part after it.
fn play_block<'a, P: Player>(
    alloc: Global,
    player: &mut P,
    row: &Row<'a>,
    before: &Part<'a>,
    report: &mut String,
) -> Result<Part<'a>, AllocError> {
    if let Some(heading) = row.heading() {
        tell(before, report)?;
        let begun = player.begin(alloc, row);
        runs_of(begun.map(|()| 0), row, report)?;
        return Ok(part_at(heading));
    }
    let played = player.play(alloc, row, report);
    let runs = runs_of(played, row, report)?;
    Ok(Part {
        heading: before.heading,
        rows: before.rows.saturating_add(1),
        runs: before.runs.saturating_add(runs),
    })
}

// Plays a table, and reports of each part how many rows and runs it has.
fn play_table<P: Player>(
    alloc: Global,
    player: &mut P,
    text: &str,
    report: &mut String,
) -> Result<(), AllocError> {
    let lines = lines_of(alloc, text)?;
    let rows = rows_of(alloc, &lines)?;
    let mut last = part_at("");
    for row in &rows {
        last = play_block(alloc, player, row, &last, report)?;
    }
    tell(&last, report)
}

/// Plays the tables in the files that the program's words name, and prints what is reported of each.
pub fn play_tables<R: Env + Files + Print + AllocGlobal, P: Player>(
    rt: &R,
    player: &mut P,
) -> io::Result<()> {
    for table in env::args(rt)?.skip(1) {
        let text = fs::read_to_string(rt, table.as_str())?;
        let mut report = String::new(rt.alloc());
        play_table(rt.alloc(), player, text.as_str(), &mut report)?;
        println!(rt; "{table}\n{report}")?;
    }
    Ok(())
}
