//! The parts of the layouts that are there.
ghost use Rattle.std.specs.Prelude.{◌≡◌, ◌++◌, ◌+◌, ℕ, Bool, IfOk, OnOk};
ghost use Rattle.std.specs.List.{flat_map};
ghost use Rattle.std.specs.Option.{option_map};
ghost use Rattle.hm_names.specs.declared.pid.Pid.{Pid as PidValue};
ghost use Rattle.hm_model.specs.Answers.{report_of};
ghost use Rattle.hm_model.specs.Image.{layout_parts};
ghost use Rattle.hm_model.specs.Layouts.{laid_by, laid_if, layout_called};
ghost use Rattle.hm_model.specs.Reports.{verb_of};
ghost use Rattle.hm_model.specs.Tree.{made};
ghost use Rattle.hm_model.specs.Verbs.{verb_in};
ghost use Rattle.hm_world_model.specs.Layouts.{laid_told};
ghost use Rattle.hm_image.specs.Layouts.{AreLaid, AreOfBase, layout_told, noted};

use crate::add::add_part;
use hm_data::{Args, Part, Told};
use hm_index::Index;
use hm_names::Pid;
use hm_procedures::Procedures;
use hm_records::Records;
use hm_world_model::layouts_tell;
use std::alloc::{AllocError, Global};

// The root whose layout a procedure with these arguments calls for.
fn layout_of(args: &Args) -> Option<Pid>
    ensures { option_map (λ (root : PidValue). root.0) result ≡ layout_called (verb_in args.now) }
{
    match args {
        Args::LayoutCall { root } => Some(*root),
        Args::SweepLayout { root } => Some(*root),
        _ => None,
    }
}

// Whether a report leaves a layout there, if it is about one.
fn leaves_layout(told: Told) -> Option<bool>
    ensures { result ≡ laid_by told }
{
    match told {
        Told::LaidOut => Some(true),
        Told::Swept => Some(false),
        _ => None,
    }
}

// The root whose layout the report of a procedure's call is about, if it is about one, and whether that is there.
fn told_layout(procedures: &Procedures, pid: Pid) -> Option<(Pid, bool)>
    ensures { (root : ℕ) (before : Bool) → laid_if (layout_called (verb_of procedures.now.past pid.0)) (laid_told (report_of procedures.now.past pid.0)) root before ≡ noted result root before }
{
    let _legal = procedures.last_pid();
    let told = procedures.report(pid)?;
    let record = procedures.find(pid)?;
    let root = layout_of(&record.args)?;
    let there = leaves_layout(told)?;
    Some((root, there))
}

// Notes what the report of a procedure's call says of a layout, if it is about one.
fn note_report(
    alloc: Global,
    procedures: &Procedures,
    pid: Pid,
    laid: &mut Index<Pid, bool>,
) -> Result<(), AllocError>
    requires { AreLaid procedures.now.past pid.0 laid.old.pairs }
    ensures { OnOk result (AreLaid procedures.now.past (pid.0 + 1) laid.new.pairs) }
{
    let Some(told) = told_layout(procedures, pid) else {
        return Ok(());
    };
    laid.reserve(alloc, 1)?;
    laid.set(told.0, told.1);
    Ok(())
}

// The layouts of these roots are there.
fn laid_first(alloc: Global, roots: &[Pid]) -> Result<Index<Pid, bool>, AllocError>
    ensures { IfOk result (λ laid. AreOfBase roots.now laid.pairs) }
{
    let mut laid = Index::new(alloc)?;
    for root in roots {
        laid.reserve(alloc, 1)?;
        laid.set(*root, true);
    }
    Ok(laid)
}

// Which layouts are there: those of the base, and then as the reports of the procedures that entries made say, one after another.
fn laid_in(alloc: Global, records: &Records) -> Result<Index<Pid, bool>, AllocError>
    ensures { IfOk result (λ laid. AreLaid records.now.past (made records.now.past + 1) laid.pairs) }
{
    let procedures = records.procedures();
    let mut laid = laid_first(alloc, records.layouts())?;
    let last = procedures.last_pid();
    for number in procedures.offset() + 1..last + 1 {
        note_report(alloc, procedures, Pid(number), &mut laid)?;
    }
    Ok(laid)
}

// Adds the parts of the layouts that are there.
fn add_laid(laid: &Index<Pid, bool>, parts: &mut Vec<Part>) -> Result<(), AllocError>
    ensures { OnOk result (parts.new.items ≡ parts.old.items ++ flat_map layout_told laid.now.pairs) }
{
    for (pid, there) in laid.view().iter() {
        if *there {
            add_part(parts, Part::Layout { pid: *pid })?;
        }
    }
    Ok(())
}

// Adds the parts of the layouts of a journal.
pub(crate) fn add_layouts(
    alloc: Global,
    records: &Records,
    parts: &mut Vec<Part>,
) -> Result<(), AllocError>
    ensures { OnOk result (parts.new.items ≡ parts.old.items ++ layout_parts records.now.past) }
{
    layouts_tell();
    let _legal = records.procedures();
    let laid = laid_in(alloc, records)?;
    let _rising = laid.view().len();
    let added = add_laid(&laid, parts);
    drop(laid);
    added
}
