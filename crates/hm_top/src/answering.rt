//! Answers commands, one after another.
ghost use Rattle.std.specs.Prelude.{◌≡◌, ◌≤◌, ◌+◌, [], length, map, vec_len, vec_capacity, All, IfOk, IfErr, Ok, Err};
ghost use Rattle.hm_ports.specs.Faults.{Rose};
ghost use Rattle.hm_sheet.specs.Registry.{IsRegistry, sheets_of};
ghost use Rattle.hm_world.specs.Scene.{Scene as SceneValue};
ghost use Rattle.hm_commands.specs.Hands.{Ran, Serve, hands_use};
ghost use Rattle.hm_commands.specs.Offered.{IsOffered};
ghost use Rattle.hm_commands.specs.Scenes.{journal_at};
ghost use Rattle.hm_commands.specs.View.{IsLeftBy, scene_in};
ghost use Rattle.hm_top.specs.Answering.{IsAnsweringOn};

use crate::piece::say;
use crate::status::EarlyEnd;
use hm_commands::Cluster;
use hm_disk::Disk;
use hm_ports::Sink;
use hm_script::Command;
use hm_sheet::{Handler, Registry};
use std::alloc::Global;

/// Answers the commands in turn. A mark is how many entries the journal has, and stands before its answer is written; there is room
/// for all marks. An early end gives the disk back.
pub(crate) fn answer_all<D: Disk, K: Sink>(
    alloc: Global,
    cluster: Cluster<D>,
    hands: &mut Vec<Registry>,
    commands: Vec<Command>,
    out: &mut K,
    marks: &mut Vec<u64>,
) -> Result<Cluster<D>, (D, EarlyEnd)>
    requires fresh { marks.old.items ≡ [] }
    requires room { vec_len marks.old + length commands.items ≤ vec_capacity marks.old }
    requires offered { All IsOffered commands.items }
    requires hands { Serve (map (sheets_of ⟦<dyn Handler as Handler>⟧) hands.old.items) (journal_at (scene_in cluster)) }
    requires each { All (IsRegistry ⟦<dyn Handler as Handler>⟧) hands.old.items }
    ensures done { IfOk result (λ answered. IsAnsweringOn K.tells (K.got out.old) (K.got out.new) (Ok tt) commands.items (scene_in cluster) marks.new.items (scene_in answered)) }
    ensures opened { IfOk result (λ answered. answered.recorder.opened ≡ cluster.recorder.opened) }
    ensures ran { IfOk result (λ answered. Ran (hands_use ⟦<dyn Handler as Handler>⟧ hands.old.items hands.new.items) (journal_at (scene_in cluster)) (journal_at (scene_in answered))) }
    ensures early { IfErr result (λ e. (new : SceneValue) × IsAnsweringOn K.tells (K.got out.old) (K.got out.new) (Err e.1) commands.items (scene_in cluster) marks.new.items new
        × IsLeftBy D.Disk cluster.recorder.opened new e.0
        × Ran (hands_use ⟦<dyn Handler as Handler>⟧ hands.old.items hands.new.items) (journal_at (scene_in cluster)) (journal_at new)) }
    ensures later { K.faults out.old ≤ K.faults out.new }
    ensures fault { IfErr result (λ e. e.1 ≡ EarlyEnd.WriteFault → Rose (K.faults out.old) (K.faults out.new)) }
{
    let mut cluster = cluster;
    for command in commands {
        let (next, answer) = match cluster.answer(alloc, hands, command) {
            Ok(answered) => answered,
            Err((disk, _)) => return Err((disk, EarlyEnd::Memory)),
        };
        cluster = next;
        cluster.keeps();
        marks.push_reserved(cluster.counted());
        let said = say(alloc, out, answer);
        if let Err(_) = said {
            return Err((cluster.into_disk(), EarlyEnd::WriteFault));
        }
    }
    Ok(cluster)
}
