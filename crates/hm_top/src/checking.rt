//! Looks at a log, and says how many entries its journal has.
ghost use Rattle.std.specs.Prelude.{◌≡◌, ◌≤◌, map, All, IfOk};
ghost use Rattle.std.specs.List.{flat_map};
ghost use Rattle.hm_sheet.specs.Registry.{IsRegistry, sheets_of};
ghost use Rattle.hm_commands.specs.Answer.{answer_text};
ghost use Rattle.hm_commands.specs.Hands.{HandsAgree, hands_use, sheets_used};
ghost use Rattle.hm_top.specs.Checking.{EndsCheck, legal_text};
ghost use Rattle.hm_top.specs.Left.{AcceptsJournal};
ghost use Rattle.hm_top.specs.Ports.{disk_use, sink_use};
ghost use Rattle.hm_top.specs.Run.{before_line};

use crate::piece::{joined, say};
use crate::status::{RunStatus, status_of};
use Piece::{Number, Text};
use hm_commands::{Answer, Piece};
use hm_disk::Disk;
use hm_journal::Journal;
use hm_ports::Sink;
use hm_sheet::{Handler, Registry};
use std::alloc::{AllocError, Global};

// What is said of a legal journal.
fn legal(alloc: Global, entries: u64) -> Result<Answer, AllocError>
    ensures { IfOk result (λ answer. answer_text answer ≡ legal_text entries) }
{
    let text = joined(alloc, &[Text("legal "), Number(entries), Text("\n")])?;
    Ok(Answer::Table(text))
}

/// Says how many entries the legal journal has that the disk holds, or why it holds none of the sheets of the first registry.
/// The disk is only read.
pub(crate) fn check<D: Disk, K: Sink>(
    alloc: Global,
    out: &mut K,
    disk: &mut D,
    hands: &Vec<Registry>,
) -> RunStatus
    requires agree { HandsAgree (map (sheets_of ⟦<dyn Handler as Handler>⟧) hands.now.items) }
    requires each { All (IsRegistry ⟦<dyn Handler as Handler>⟧) hands.now.items }
    ensures ends { EndsCheck (sink_use K.Sink out.old out.new) (disk_use D.Disk disk.old disk.new) (sheets_used (hands_use ⟦<dyn Handler as Handler>⟧ hands.now.items hands.now.items))
        (before_line (sink_use K.Sink out.old out.new)) result }
    ensures accepts { AcceptsJournal (disk_use D.Disk disk.old disk.new) (hands_use ⟦<dyn Handler as Handler>⟧ hands.now.items hands.now.items) (λ journal. Unit {0}) result }
    ensures later { K.faults out.old ≤ K.faults out.new }
{
    let sheets = hands[0].sheets();
    let entries = match Journal::check(alloc, disk, sheets.as_slice()) {
        Ok(entries) => entries,
        Err(why) => return status_of(why),
    };
    let Ok(line) = legal(alloc, entries) else {
        return RunStatus::Memory;
    };
    match say(alloc, out, line) {
        Ok(()) => RunStatus::Done,
        Err(_) => RunStatus::WriteFault,
    }
}
