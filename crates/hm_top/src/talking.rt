//! Opens a log and answers commands over it.
ghost use Rattle.std.specs.Prelude.{◌≡◌, ◌≤◌, [], length, map, Some, None, IfOk, IfErr, Ok, All};
ghost use Rattle.hm_ports.specs.Faults.{Rose};
ghost use Rattle.hm_sheet.specs.Registry.{IsRegistry, sheets_of};
ghost use Rattle.hm_world.specs.Scene.{Scene as SceneValue};
ghost use Rattle.hm_commands.specs.Hands.{HandsAgree, Ran, Serve, hands_use, sheets_used};
ghost use Rattle.hm_commands.specs.Offered.{IsOffered};
ghost use Rattle.hm_commands.specs.Scenes.{journal_at, new_scene};
ghost use Rattle.hm_commands.specs.View.{IsLeftBy, scene_in};
ghost use Rattle.hm_top.specs.Answering.{IsAnswering};
ghost use Rattle.hm_top.specs.Ending.{stop_status};
ghost use Rattle.hm_top.specs.Left.{FailedToOpen};
ghost use Rattle.hm_top.specs.Ports.{disk_use};
ghost use Rattle.hm_top.specs.Talking.{IsCalledToOpen, IsOpened, StopsBy};

use crate::answering::answer_all;
use crate::opening::begin;
use crate::status::{EarlyEnd, RunStatus, status_of_end};
use crate::store::Store;
use hm_commands::Cluster;
use hm_disk::Disk;
use hm_journal::{JournalWhy, Limits};
use hm_ports::Sink;
use hm_script::Command;
use hm_sheet::{Handler, Registry};
use std::alloc::Global;

/// Why commands weren't answered to the end.
#[derive(Clone, Copy, Debug, PartialEq, Eq)]
pub(crate) enum Stop {
    /// Memory ran out before the first line.
    NoRoom,
    Early(EarlyEnd),
}

impl Stop {
    /// How a run ends that was stopped so.
    pub fn status(self) -> RunStatus
        ensures { result ≡ stop_status self }
    {
        match self {
            Stop::NoRoom => RunStatus::Memory,
            Stop::Early(end) => status_of_end(end),
        }
    }
}

/// Opens a disk as a journal of the sheets of the first registry. An error gives the disk back.
pub(crate) fn open_for<D: Disk>(
    alloc: Global,
    disk: D,
    hands: &Vec<Registry>,
    limits: Limits,
) -> Result<Store<D>, (D, JournalWhy)>
    requires agree { HandsAgree (map (sheets_of ⟦<dyn Handler as Handler>⟧) hands.now.items) }
    requires each { All (IsRegistry ⟦<dyn Handler as Handler>⟧) hands.now.items }
    requires hard { 65552 ≤ limits.hard }
    ensures opened { IfOk result (λ store. IsOpened D.Disk (sheets_used (hands_use ⟦<dyn Handler as Handler>⟧ hands.now.items hands.now.items)) limits disk store) }
    ensures called { IfOk result (λ store. IsCalledToOpen D.Disk disk store.opened.disk) }
    ensures serve { IfOk result (λ store. Serve (map (sheets_of ⟦<dyn Handler as Handler>⟧) hands.now.items) store.kept.entries) }
    ensures failed { IfErr result (λ e. FailedToOpen (disk_use D.Disk disk e.0) (hands_use ⟦<dyn Handler as Handler>⟧ hands.now.items hands.now.items) e.1) }
{
    let sheets = hands[0].sheets();
    Store::open(alloc, disk, sheets.as_slice(), limits)
}

/// Begins a run over a journal that was opened, and answers the commands. Where it stops the disk is given back.
pub(crate) fn answer_over<D: Disk, K: Sink>(
    alloc: Global,
    store: Store<D>,
    commands: Vec<Command>,
    out: &mut K,
    hands: &mut Vec<Registry>,
    marks: &mut Vec<u64>,
) -> Result<Cluster<D>, (D, Stop)>
    requires fresh { marks.old.items ≡ [] }
    requires offered { All IsOffered commands.items }
    requires going { store.kept.halted ≡ None }
    requires hands { Serve (map (sheets_of ⟦<dyn Handler as Handler>⟧) hands.old.items) store.kept.entries }
    requires each { All (IsRegistry ⟦<dyn Handler as Handler>⟧) hands.old.items }
    ensures done { IfOk result (λ cluster. IsAnswering K.tells (K.got out.old) (K.got out.new) (Ok tt) commands.items (new_scene store.kept) marks.new.items (scene_in cluster)) }
    ensures opened { IfOk result (λ cluster. cluster.recorder.opened ≡ store.opened) }
    ensures ran { IfOk result (λ cluster. Ran (hands_use ⟦<dyn Handler as Handler>⟧ hands.old.items hands.new.items) store.kept.entries (journal_at (scene_in cluster))) }
    ensures stopped { IfErr result (λ e. (new : SceneValue) × StopsBy K.tells (K.got out.old) (K.got out.new) e.1 commands.items (new_scene store.kept) marks.new.items new
        × IsLeftBy D.Disk store.opened new e.0
        × Ran (hands_use ⟦<dyn Handler as Handler>⟧ hands.old.items hands.new.items) store.kept.entries (journal_at new)) }
    ensures later { K.faults out.old ≤ K.faults out.new }
    ensures fault { IfErr result (λ e. e.1 ≡ Stop.Early EarlyEnd.WriteFault → Rose (K.faults out.old) (K.faults out.new)) }
{
    let cluster = match store.into_cluster(alloc) {
        Ok(cluster) => cluster,
        Err(disk) => return Err((disk, Stop::NoRoom)),
    };
    let Ok(()) = marks.reserve(commands.len()) else {
        return Err((cluster.into_disk(), Stop::NoRoom));
    };
    let begun = match begin(alloc, cluster, out) {
        Ok(begun) => begun,
        Err((disk, end)) => return Err((disk, Stop::Early(end))),
    };
    match answer_all(alloc, begun, hands, commands, out, marks) {
        Ok(cluster) => Ok(cluster),
        Err((disk, end)) => Err((disk, Stop::Early(end))),
    }
}
