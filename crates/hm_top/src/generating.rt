//! Makes a cluster by a script that is made of a number, and says what came of it.
ghost use Rattle.std.specs.Prelude.{◌≡◌, ◌≤◌, [], map, length, All, IfOk, Some, None};
ghost use Rattle.hm_ports.specs.Faults.{Rose};
ghost use Rattle.hm_sheet.specs.Registry.{IsRegistry, sheets_of};
ghost use Rattle.hm_world.specs.Scene.{past_in};
ghost use Rattle.hm_commands.specs.Answer.{answer_text};
ghost use Rattle.hm_commands.specs.Census.{census_of};
ghost use Rattle.hm_commands.specs.Hands.{HandsAgree, RunBy, hands_use};
ghost use Rattle.hm_commands.specs.Scenes.{halt_at, journal_at};
ghost use Rattle.hm_commands.specs.View.{IsLeftBy, scene_in};
ghost use Rattle.hm_top.specs.Generating.{EndsGen, IsFresh, TellsOf, census_text, gen_text, made_text};
ghost use Rattle.hm_top.specs.Left.{AcceptsJournal};
ghost use Rattle.hm_top.specs.Ports.{disk_use, sink_use};
ghost use Rattle.hm_top.specs.Run.{before_line};

use crate::nowhere::Nowhere;
use crate::piece::{joined, say};
use crate::status::{LogWhy, RunStatus, status_of, status_of_halt};
use crate::talking::{answer_over, open_for};
use Piece::{Number, Text};
use hm_commands::{Answer, Census, Cluster, Piece};
use hm_disk::Disk;
use hm_gen::generate;
use hm_journal::Limits;
use hm_ports::Sink;
use hm_sheet::{Handler, Registry};
use std::alloc::{AllocError, Global};

// What was made, and how many entries the journal has.
fn made(alloc: Global, seed: u64, count: u32, entries: u64) -> Result<Vec<u8>, AllocError>
    ensures { IfOk result (λ text. text.items ≡ made_text seed count entries) }
{
    let pieces = [
        Text("gen "),
        Number(seed),
        Text(" "),
        Number(count as u64),
        Text(": entries "),
        Number(entries),
    ];
    joined(alloc, &pieces)
}

// What is counted in it.
fn counted(alloc: Global, census: Census) -> Result<Vec<u8>, AllocError>
    ensures { IfOk result (λ text. text.items ≡ census_text census) }
{
    let pieces = [
        Text(" procedures "),
        Number(census.procedures),
        Text(" regions "),
        Number(census.regions),
        Text(" open "),
        Number(census.opened),
        Text("\n"),
    ];
    joined(alloc, &pieces)
}

// What is said of a cluster that was made.
fn line(
    alloc: Global,
    seed: u64,
    count: u32,
    entries: u64,
    census: Census,
) -> Result<Answer, AllocError>
    ensures { IfOk result (λ answer. answer_text answer ≡ gen_text seed count entries census) }
{
    let mut text = made(alloc, seed, count, entries)?;
    text.extend_from_slice(&counted(alloc, census)?)?;
    Ok(Answer::Table(text))
}

// Says what came of a script that was answered, unless that halted the journal.
fn tell<D: Disk, K: Sink>(
    alloc: Global,
    cluster: &Cluster<D>,
    seed: u64,
    count: u32,
    out: &mut K,
) -> RunStatus
    ensures tells { TellsOf (sink_use K.Sink out.old out.new) (before_line (sink_use K.Sink out.old out.new)) seed count (scene_in cluster.now) result }
    ensures later { K.faults out.old ≤ K.faults out.new }
{
    if let Some(why) = cluster.halted() {
        return status_of_halt(Some(why));
    }
    let Ok(line) = line(alloc, seed, count, cluster.counted(), cluster.census()) else {
        return RunStatus::Memory;
    };
    match say(alloc, out, line) {
        Ok(()) => RunStatus::Done,
        Err(_) => RunStatus::WriteFault,
    }
}

/// Opens a log whose journal is at most one entry long, has the script answered that is made of the seed, and says what came of it.
pub(crate) fn generate_over<D: Disk, K: Sink>(
    alloc: Global,
    seed: u64,
    count: u32,
    out: &mut K,
    disk: D,
    hands: &mut Vec<Registry>,
    limits: Limits,
    marks: &mut Vec<u64>,
) -> (RunStatus, D)
    requires some { 1 ≤ count }
    requires most { count ≤ 16384 }
    requires fresh { marks.old.items ≡ [] }
    requires agree { HandsAgree (map (sheets_of ⟦<dyn Handler as Handler>⟧) hands.old.items) }
    requires each { All (IsRegistry ⟦<dyn Handler as Handler>⟧) hands.old.items }
    requires hard { 65552 ≤ limits.hard }
    ensures ends { EndsGen limits (disk_use D.Disk disk result.1) (hands_use ⟦<dyn Handler as Handler>⟧ hands.old.items hands.new.items) marks.new.items seed count
        (sink_use K.Sink out.old out.new) (before_line (sink_use K.Sink out.old out.new)) result.0 }
    ensures accepts { AcceptsJournal (disk_use D.Disk disk result.1) (hands_use ⟦<dyn Handler as Handler>⟧ hands.old.items hands.new.items) IsFresh result.0 }
    ensures later { K.faults out.old ≤ K.faults out.new }
    ensures run_by { RunBy (hands_use ⟦<dyn Handler as Handler>⟧ hands.old.items hands.new.items) 0 }
{
    let Ok(commands) = generate(alloc, seed, count) else {
        return (RunStatus::Memory, disk);
    };
    let store = match open_for(alloc, disk, hands, limits) {
        Ok(store) => store,
        Err((disk, why)) => return (status_of(why), disk),
    };
    let entries = store.counted();
    if entries > 1 {
        let status = RunStatus::LogRefused(LogWhy::NotEmpty(entries));
        return (status, store.into_disk());
    }
    match answer_over(alloc, store, commands, &mut Nowhere, hands, marks) {
        Ok(cluster) => (tell(alloc, &cluster, seed, count, out), cluster.into_disk()),
        Err((disk, stop)) => (stop.status(), disk),
    }
}
