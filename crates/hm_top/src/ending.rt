//! A run, from its words to its last line.
ghost use Rattle.std.specs.Prelude.{◌≡◌, ◌⊎◌, ◌≤◌, List, ℕ, [], length, map, string_bytes, IfOk, IfErr, OnOk, Ok, All};
ghost use Rattle.hm_ports.specs.Faults.{Rose};
ghost use Rattle.hm_script.specs.declared.bad.Bad.{Bad as BadValue};
ghost use Rattle.hm_commands.specs.Hands.{HandsAgree, RunBy, hands_use};
ghost use Rattle.hm_commands.specs.Offered.{IsOffered};
ghost use Rattle.hm_top.specs.declared.words.Form.{Form as FormValue};
ghost use Rattle.hm_top.specs.Left.{AcceptsJournal};
ghost use Rattle.hm_top.specs.Ports.{disk_use, sink_use, source_use};
ghost use Rattle.hm_sheet.specs.Registry.{IsRegistry, sheets_of};
ghost use Rattle.hm_top.specs.Run.{EndsRun, EndsUnfinished, KeepsTo, before_line, taken_by};
ghost use Rattle.hm_top.specs.Script.{IsBad, IsScript};
ghost use Rattle.hm_top.specs.Session.{Outcome};
ghost use Rattle.hm_top.specs.Words.{form_of as form_of_words};

use crate::checking::check;
use crate::generating::generate_over;
use crate::last_line::finish;
use crate::status::{RunStatus, status_of, status_of_halt};
use crate::talking::{answer_over, open_for};
use crate::words::{Form, form_of};
use hm_commands::Offered;
use hm_disk::Disk;
use hm_journal::Limits;
use hm_ports::{ReadWhy, Sink, Source, read_all};
use hm_script::{Bad, Command, Why, parse_for};
use hm_sheet::{Handler, Registry};
use std::alloc::Global;

// The marks of a run's journal.
const LIMITS: Limits = Limits {
    soft: 50_331_648,
    hard: 67_108_864,
};

const MAX_SCRIPT: usize = 1_048_576;

/// What a run leaves: how it ended, the disk, for each command that was answered how many entries the journal had when its answer was
/// written, with those that its base stands for, and the registries.
#[derive(Drop)]
pub struct Ended<D: Disk> {
    pub status: RunStatus,
    pub disk: D,
    pub marks: Vec<u64>,
    pub hands: Vec<Registry>,
}

// Why a script isn't read.
enum ScriptEnd {
    Bad(Bad),
    ReadFault,
    Memory,
}

// The commands of the script.
fn read_script<S: Source>(alloc: Global, script: &mut S) -> Result<Vec<Command>, ScriptEnd>
    ensures ok { S.tells → IfOk result (λ commands. IsScript (S.left script.old) commands.items) }
    ensures end { S.tells → OnOk result (S.left script.new ≡ []) }
    ensures few { IfOk result (λ commands. length commands.items ≤ 1048576) }
    ensures offered { IfOk result (λ commands. All IsOffered commands.items) }
    ensures refusal { IfErr result (λ why. (bad : BadValue) → why ≡ ScriptEnd.Bad bad → (bytes : List ℕ) × IsBad bytes bad) }
    ensures bad { S.tells → IfErr result (λ why. (bad : BadValue) → why ≡ ScriptEnd.Bad bad → IsBad (S.left script.old) bad) }
    ensures whole { S.tells → IfErr result (λ why. (bad : BadValue) → why ≡ ScriptEnd.Bad bad → (bad.why ≡ Why.TooLong) ⊎ (S.left script.new ≡ [])) }
    ensures fault { IfErr result (λ why. why ≡ ScriptEnd.ReadFault → Rose (S.faults script.old) (S.faults script.new)) }
{
    let bytes = match read_all(alloc, script, MAX_SCRIPT) {
        Ok(bytes) => bytes,
        Err(ReadWhy::Failed) => return Err(ScriptEnd::ReadFault),
        Err(ReadWhy::TooLong) => {
            return Err(ScriptEnd::Bad(Bad {
                line: 0,
                why: Why::TooLong,
            }));
        }
        Err(ReadWhy::Memory) => return Err(ScriptEnd::Memory),
    };
    match parse_for::<Offered>(alloc, &bytes) {
        Ok(commands) => Ok(commands),
        Err(bad) => match bad.why {
            Why::Memory => Err(ScriptEnd::Memory),
            _ => Err(ScriptEnd::Bad(bad)),
        },
    }
}

// Opens the log, begins a run over it, and answers the commands.
fn converse<D: Disk, K: Sink>(
    alloc: Global,
    commands: Vec<Command>,
    out: &mut K,
    disk: D,
    hands: &mut Vec<Registry>,
    limits: Limits,
    marks: &mut Vec<u64>,
) -> (RunStatus, D)
    requires fresh { marks.old.items ≡ [] }
    requires agree { HandsAgree (map (sheets_of ⟦<dyn Handler as Handler>⟧) hands.old.items) }
    requires each { All (IsRegistry ⟦<dyn Handler as Handler>⟧) hands.old.items }
    requires offered { All IsOffered commands.items }
    requires hard { 65552 ≤ limits.hard }
    ensures outcome { Outcome (record {
      takes = λ old. Unit {0};
      given = λ read. read ≡ commands.items;
      said = before_line (sink_use K.Sink out.old out.new);
      limits = limits;
      out = sink_use K.Sink out.old out.new;
      disk = disk_use D.Disk disk result.1;
      hands = hands_use ⟦<dyn Handler as Handler>⟧ hands.old.items hands.new.items;
      marks = marks.new.items;
    }) result.0 }
    ensures accepts { AcceptsJournal (disk_use D.Disk disk result.1) (hands_use ⟦<dyn Handler as Handler>⟧ hands.old.items hands.new.items) (λ journal. Unit {0}) result.0 }
    ensures later { K.faults out.old ≤ K.faults out.new }
    ensures run_by { RunBy (hands_use ⟦<dyn Handler as Handler>⟧ hands.old.items hands.new.items) 0 }
{
    let store = match open_for(alloc, disk, hands, limits) {
        Ok(store) => store,
        Err((disk, why)) => return (status_of(why), disk),
    };
    match answer_over(alloc, store, commands, out, hands, marks) {
        Ok(cluster) => (status_of_halt(cluster.halted()), cluster.into_disk()),
        Err((disk, stop)) => (stop.status(), disk),
    }
}

// Reads the script, and answers its commands.
fn answer_script<S: Source, K: Sink, D: Disk>(
    alloc: Global,
    script: &mut S,
    out: &mut K,
    disk: D,
    hands: &mut Vec<Registry>,
    limits: Limits,
    marks: &mut Vec<u64>,
) -> (RunStatus, D)
    requires fresh { marks.old.items ≡ [] }
    requires agree { HandsAgree (map (sheets_of ⟦<dyn Handler as Handler>⟧) hands.old.items) }
    requires each { All (IsRegistry ⟦<dyn Handler as Handler>⟧) hands.old.items }
    requires hard { 65552 ≤ limits.hard }
    ensures ends { (words : List (List ℕ)) → EndsRun (record {
      words = words;
      limits = limits;
      script = source_use S.Source script.old script.new;
      out = sink_use K.Sink out.old out.new;
      disk = disk_use D.Disk disk result.1;
      hands = hands_use ⟦<dyn Handler as Handler>⟧ hands.old.items hands.new.items;
      marks = marks.new.items;
    }) before_line result.0 }
    ensures accepts { AcceptsJournal (disk_use D.Disk disk result.1) (hands_use ⟦<dyn Handler as Handler>⟧ hands.old.items hands.new.items) (λ journal. Unit {0}) result.0 }
    ensures later { K.faults out.old ≤ K.faults out.new }
    ensures run_by { RunBy (hands_use ⟦<dyn Handler as Handler>⟧ hands.old.items hands.new.items) 0 }
{
    match read_script(alloc, script) {
        Ok(commands) => converse(alloc, commands, out, disk, hands, limits, marks),
        Err(ScriptEnd::Bad(bad)) => (RunStatus::BadScript(bad), disk),
        Err(ScriptEnd::ReadFault) => (RunStatus::ReadFault, disk),
        Err(ScriptEnd::Memory) => (RunStatus::Memory, disk),
    }
}

// All of a run but its last line.
fn answer_words<S: Source, K: Sink, D: Disk>(
    alloc: Global,
    words: &[String],
    script: &mut S,
    out: &mut K,
    disk: D,
    hands: &mut Vec<Registry>,
    limits: Limits,
    marks: &mut Vec<u64>,
) -> (RunStatus, D)
    requires fresh { marks.old.items ≡ [] }
    requires agree { HandsAgree (map (sheets_of ⟦<dyn Handler as Handler>⟧) hands.old.items) }
    requires each { All (IsRegistry ⟦<dyn Handler as Handler>⟧) hands.old.items }
    requires hard { 65552 ≤ limits.hard }
    ensures ends { EndsUnfinished (record {
      words = map string_bytes words.now;
      limits = limits;
      script = source_use S.Source script.old script.new;
      out = sink_use K.Sink out.old out.new;
      disk = disk_use D.Disk disk result.1;
      hands = hands_use ⟦<dyn Handler as Handler>⟧ hands.old.items hands.new.items;
      marks = marks.new.items;
    }) result.0 }
    ensures accepts { (form : FormValue) → form_of_words (map string_bytes words.now) ≡ Ok form
        → AcceptsJournal (disk_use D.Disk disk result.1) (hands_use ⟦<dyn Handler as Handler>⟧ hands.old.items hands.new.items) (taken_by form) result.0 }
    ensures later { K.faults out.old ≤ K.faults out.new }
    ensures run_by { RunBy (hands_use ⟦<dyn Handler as Handler>⟧ hands.old.items hands.new.items) 0 }
{
    match form_of(words) {
        Ok(Form::Run) => answer_script(alloc, script, out, disk, hands, limits, marks),
        Ok(Form::Check) => {
            let mut disk = disk;
            let status = check(alloc, out, &mut disk, hands);
            (status, disk)
        }
        Ok(Form::Gen { seed, count }) => {
            generate_over(alloc, seed, count, out, disk, hands, limits, marks)
        }
        Err(word) => (RunStatus::Usage(word), disk),
    }
}

/// Runs a script over the log on a disk, whose journal may have 67,108,864 bytes, and takes submissions below
/// 50,331,648. It judges in this order: the words, the script, the opening of the log, the commands. It waits for
/// nobody, and returns. Of the registries, which have equal sheets, the first runs all steps so far; the clause binds what
/// all together were run, and gives the others for workers.
pub fn run<S: Source, K: Sink, D: Disk>(
    alloc: Global,
    words: &[String],
    script: &mut S,
    out: &mut K,
    disk: D,
    hands: Vec<Registry>,
) -> Ended<D>
    requires agree { HandsAgree (map (sheets_of ⟦<dyn Handler as Handler>⟧) hands.items) }
    requires each { All (IsRegistry ⟦<dyn Handler as Handler>⟧) hands.items }
    ensures { KeepsTo (record {
      words = map string_bytes words.now;
      limits = record { soft = 50331648; hard = 67108864 };
      script = source_use S.Source script.old script.new;
      out = sink_use K.Sink out.old out.new;
      disk = disk_use D.Disk disk result.disk;
      hands = hands_use ⟦<dyn Handler as Handler>⟧ hands.items result.hands.items;
      marks = result.marks.items;
    }) result.status }
{
    run_within(alloc, words, script, out, disk, hands, LIMITS)
}

/// The same with other marks.
pub fn run_within<S: Source, K: Sink, D: Disk>(
    alloc: Global,
    words: &[String],
    script: &mut S,
    out: &mut K,
    disk: D,
    hands: Vec<Registry>,
    limits: Limits,
) -> Ended<D>
    requires agree { HandsAgree (map (sheets_of ⟦<dyn Handler as Handler>⟧) hands.items) }
    requires each { All (IsRegistry ⟦<dyn Handler as Handler>⟧) hands.items }
    requires hard { 65552 ≤ limits.hard }
    ensures { KeepsTo (record {
      words = map string_bytes words.now;
      limits = limits;
      script = source_use S.Source script.old script.new;
      out = sink_use K.Sink out.old out.new;
      disk = disk_use D.Disk disk result.disk;
      hands = hands_use ⟦<dyn Handler as Handler>⟧ hands.items result.hands.items;
      marks = result.marks.items;
    }) result.status }
{
    let mut hands = hands;
    let mut marks = Vec::new(alloc);
    let (status, disk) = answer_words(
        alloc, words, script, out, disk, &mut hands, limits, &mut marks,
    );
    finish(out, status);
    Ended {
        status,
        disk,
        marks,
        hands,
    }
}
