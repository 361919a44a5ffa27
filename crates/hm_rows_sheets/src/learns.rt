//! Registries that learnt editions: by which sheet a step runs, and whether the box of its kind is called for it.
ghost use Rattle.std.specs.Prelude.{◌≡◌, ◌≢◌, IsTrue, None};
ghost use Rattle.hm_model.specs.Base.{AreSheets};
ghost use Rattle.hm_model.specs.Evaluation.{CanRun};
ghost use Rattle.hm_sheet.specs.Registry.{IsRegistry, sheets_at};

use crate::asks::can_step;
use crate::names::first_word;
use crate::runs::registry;
use crate::steps::{compare, nothing, parts};
use crate::words::number;
use hm_data::{Sheet, StepIn, StepOut};
use hm_names::{Copied, List};
use hm_sheet::{Handler, Registry, Valid, listed};
use std::alloc::AllocGlobal;
use std::process::Abort;

const CLOSES: &str =
    "8 1 | root 4 split t,1 m; table t enabled 1; region t,1 live * * | wait 2; child transits t unassign 1";

const REOPENS: &str = "8 1 | root 4 split t,1 m; undo | undone; follower transits t assign 1";

const LAYS_OUT: &str =
    "8 1 | root 4 split t,1 m; table t enabled 1; region t,1 live * * | wait 2; child layout-call 5";

const SWEEPS: &str = "8 1 | root 4 split t,1 m; undo | undone; follower sweep-layout 5";

const MERGES: &str =
    "9 1 | root 9 merge t,5 t,2; table t enabled 1; region t,2 live m *; region t,5 live * m | wait 2; child transits t unassign 2 5";

// The editions that a registry learns, in turn, each with the sheets of the boxes (`own`), or with another one of splits
// (`other`); the edition of a step; the step; and whether the box of its kind is called for it.
const CASES: [(&str, u64, &str, bool); 14] = [
    ("", 0, CLOSES, true),
    ("1 own", 1, CLOSES, true),
    ("1 own", 1, REOPENS, true),
    ("1 other", 1, LAYS_OUT, false),
    ("1 other", 1, SWEEPS, false),
    ("1 other", 1, MERGES, true),
    ("1 other", 0, CLOSES, true),
    ("0 other", 0, LAYS_OUT, false),
    ("0 other", 0, MERGES, true),
    ("0 other; 0 own", 0, CLOSES, true),
    ("1 own; 1 other", 1, LAYS_OUT, false),
    ("1 own; 2 other", 1, CLOSES, true),
    ("1 own; 2 other", 2, LAYS_OUT, false),
    ("2 other; 1 own; 2 own; 1 other", 1, LAYS_OUT, false),
];

// The sheets of the boxes, or those with another one of splits.
fn sheets(rt: &(impl Abort + AllocGlobal), word: &str) -> List<Sheet>
    ensures { AreSheets result }
{
    let letters = if word == "own" { "tsrc" } else { "tlrc" };
    let registry = registry(rt, letters).expect(rt, "a registry");
    let sheets = registry.sheets().copy(rt.alloc()).expect(rt, "memory");
    drop(registry);
    sheets
}

// The sheets that a registry has for an edition that learnt nothing yet.
fn begun(rt: &(impl Abort + AllocGlobal), registry: &Registry, edition: u64) -> Option<List<Sheet>>
    requires own { IsRegistry ⟦<dyn Handler as Handler>⟧ registry.now }
    requires others { edition ≢ 0 → sheets_at registry.now edition ≡ None }
    ensures { sheets_at registry.now edition ≡ result }
{
    if edition == 0 {
        Some(registry.sheets().copy(rt.alloc()).expect(rt, "memory"))
    } else {
        None
    }
}

// Whether the sheets have one for the input's kind, which can be asked there.
fn can_run(rt: &(impl Abort + AllocGlobal), sheets: &List<Sheet>, at: &StepIn) -> bool
    ensures { IsTrue result → CanRun sheets.now at.now }
{
    let Some(sheet) = listed(sheets.as_slice(), at.kind) else {
        return false;
    };
    match Valid::new(sheet.copy(rt.alloc()).expect(rt, "memory")) {
        Ok(valid) => {
            let can = can_step(&valid, at);
            drop(valid);
            can
        }
        Err(back) => {
            drop(back);
            false
        }
    }
}

// A lesson, and what the registry then has for an edition, where it had these sheets for it.
fn learn(
    rt: &(impl Abort + AllocGlobal),
    registry: &mut Registry,
    lesson: &str,
    edition: u64,
    had: Option<List<Sheet>>,
) -> Option<List<Sheet>>
    requires { sheets_at registry.old edition ≡ had }
    ensures { sheets_at registry.new edition ≡ result }
{
    let (taught, word) = first_word(lesson);
    let taught = number(rt, taught);
    let sheets = sheets(rt, word);
    if taught != edition {
        registry.learn(taught, sheets).expect(rt, "memory");
        return had;
    }
    drop(had);
    let has = sheets.copy(rt.alloc()).expect(rt, "memory");
    registry.learn(taught, sheets).expect(rt, "memory");
    Some(has)
}

// A registry of these handlers after these lessons, and the sheets that it has for an edition.
fn taught(
    rt: &(impl Abort + AllocGlobal),
    letters: &str,
    lessons: &str,
    edition: u64,
) -> (Registry, Option<List<Sheet>>)
    ensures { sheets_at result.0 edition ≡ result.1 }
{
    let mut registry = registry(rt, letters).expect(rt, "a registry");
    let mut has = begun(rt, &registry, edition);
    for lesson in lessons.split("; ") {
        if !lesson.is_empty() {
            has = learn(rt, &mut registry, lesson, edition, has);
        }
    }
    (registry, has)
}

// What a registry of these handlers answers after these lessons, if there is memory, and how many runs it counts.
fn ran(
    rt: &(impl Abort + AllocGlobal),
    letters: &str,
    lessons: &str,
    at: &StepIn,
) -> (Option<StepOut>, u64) {
    let (mut registry, has) = taught(rt, letters, lessons, at.edition);
    let sheets = has.expect(rt, "an edition");
    assert!(rt; can_run(rt, &sheets, at));
    drop(sheets);
    let mut out = nothing(rt.alloc());
    let done = registry.run(rt.alloc(), at, &mut out);
    let runs = registry.runs();
    drop(registry);
    match done {
        Ok(()) => (Some(out), runs),
        Err(_) => {
            drop(out);
            (None, runs)
        }
    }
}

#[test]
fn a_registry_runs_by_the_sheets_of_the_edition(rt: HostRuntime) {
    for (lessons, edition, step, boxed) in CASES {
        let (mut at, done) = parts(&rt, step);
        at.edition = edition;
        let (out, runs) = ran(&rt, "tsrc", lessons, &at);
        assert!(rt; runs == 1, "{lessons}");
        compare(&rt, step, out.expect(&rt, "memory"), done);
        let (out, runs) = ran(&rt, "tnrc", lessons, &at);
        drop(at);
        assert!(rt; out.is_none() == boxed, "{lessons}");
        assert!(rt; (runs == 0) == boxed, "{lessons}");
        if let Some(out) = out {
            compare(&rt, step, out, done);
        }
    }
}
