//! `hmaster run LOG` runs a script of commands, from standard input, over the log in the file LOG. It
//! writes the answers to standard output, and its exit status says how the run ended. `hmaster check LOG`
//! says how many entries the journal in a log has, and `hmaster gen SEED N LOG` makes a cluster of N regions by a
//! script that it makes of a number.
#![tactic(auto)]

ghost use Rattle.std.specs.Prelude.{◌≡◌, map, string_bytes};
ghost use Rattle.std.specs.Process.{exit_status};
ghost use Rattle.hm_top.specs.Status.{status_code};
ghost use Rattle.hm_top.specs.Words.{misfit_of};
ghost use Rattle.hmaster.specs.Program.{Fits};

use hm_crash::CrashHands;
use hm_disk::{Disk, FileDisk, MemDisk};
use hm_ports::{StdSink, StdSource, write_all};
use hm_sheet::{Handler, Registry};
use hm_split::SplitHands;
use hm_tables::TableHands;
use hm_top::{RunStatus, form_of, hands_agree, log_path, run};
use hm_transit::TransitHands;
use std::alloc::{AllocError, Global};
use std::process::ExitCode;
use std::{env, io};

// The words after the program's name. Words that aren't text count as no words.
fn program_words(rt: &HostRuntime) -> Result<Vec<String>, AllocError> {
    match env::args(rt) {
        Ok(words) => words.skip(1).collect(rt.alloc()),
        Err(error) if error.kind() == io::ErrorKind::OutOfMemory => Err(AllocError),
        Err(_) => Ok(Vec::new(rt.alloc())),
    }
}

// Does what the words ask for over a disk, with the script on standard input and a registry for each group of handlers. It runs nothing where they
// don't agree; those that `run_over` makes are all alike.
fn run_with<D: Disk>(
    rt: &HostRuntime,
    words: &[String],
    disk: D,
    groups: Vec<Vec<Box<dyn Handler>>>,
) -> RunStatus
    ensures { Fits (misfit_of (map string_bytes words.now)) result }
{
    let mut hands = Vec::new(rt.alloc());
    for handlers in groups {
        let Ok(registry) = Registry::new(rt.alloc(), handlers) else {
            return RunStatus::Memory;
        };
        let Ok(()) = hands.push(registry) else {
            return RunStatus::Memory;
        };
    }
    if !hands_agree(&hands) {
        return RunStatus::Memory;
    }
    let mut script = StdSource::new(rt.reader());
    let mut out = StdSink::new(io::writer(rt));
    run(rt.alloc(), words, &mut script, &mut out, disk, hands).status
}

// Boxes that have, together, each kind of procedures.
type Boxes = (
    Box<TableHands>,
    Box<SplitHands>,
    Box<TransitHands>,
    Box<CrashHands>,
);

fn boxes(alloc: Global) -> Result<Boxes, AllocError> {
    Ok((
        Box::new(alloc, TableHands::new(alloc)?)?,
        Box::new(alloc, SplitHands::new(alloc)?)?,
        Box::new(alloc, TransitHands::new(alloc)?)?,
        Box::new(alloc, CrashHands::new(alloc)?)?,
    ))
}

// Runs the script on standard input over a disk, with a group of handlers for the caller and one for each of sixteen
// workers.
fn run_over<D: Disk>(rt: &HostRuntime, words: &[String], disk: D) -> RunStatus
    ensures { Fits (misfit_of (map string_bytes words.now)) result }
{
    let mut groups: Vec<Vec<Box<dyn Handler>>> = Vec::new(rt.alloc());
    for _ in 0..17 {
        let Ok((tables, splits, transits, crashes)) = boxes(rt.alloc()) else {
            return RunStatus::Memory;
        };
        let handlers: [Box<dyn Handler>; 4] = [tables, splits, transits, crashes];
        let Ok(handlers) = Vec::from_array(rt.alloc(), handlers) else {
            return RunStatus::Memory;
        };
        let Ok(()) = groups.push(handlers) else {
            return RunStatus::Memory;
        };
    }
    run_with(rt, words, disk, groups)
}

// Says that the log's file can't be opened. As every last line, it is tried once.
fn cannot_open(rt: &HostRuntime) -> RunStatus
    ensures { result ≡ RunStatus.LogFault }
{
    let _ = write_all(&mut StdSink::new(io::writer(rt)), b"hmaster: log fault\n");
    RunStatus::LogFault
}

// Opens the log that the words name, for reading alone where they ask for no more, and runs over it. Words that are no
// command need no log: the run answers them before it looks at a disk.
fn run_words(rt: &HostRuntime, words: &[String]) -> RunStatus
    ensures { Fits (misfit_of (map string_bytes words.now)) result }
{
    let Some(path) = log_path(words) else {
        return match MemDisk::new(rt.alloc(), 0, Vec::new(rt.alloc()), Vec::new(rt.alloc())) {
            Ok(disk) => run_over(rt, words, disk),
            Err(_) => RunStatus::Memory,
        };
    };
    let opened = match form_of(words) {
        Ok(form) if form.only_reads() => FileDisk::read_only(rt, path),
        _ => FileDisk::writable(rt, path),
    };
    match opened {
        Ok(disk) => run_over(rt, words, disk),
        Err(_) => cannot_open(rt),
    }
}

// What the process ends with.
fn exit_code(status: RunStatus) -> ExitCode
    ensures { exit_status result ≡ status_code status }
{
    ExitCode::from(status.code())
}

fn main(rt: HostRuntime) -> ExitCode {
    match program_words(&rt) {
        Ok(words) => exit_code(run_words(&rt, &words)),
        Err(_) => exit_code(RunStatus::Memory),
    }
}
