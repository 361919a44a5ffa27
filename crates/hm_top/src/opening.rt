//! Begins a run over a log that was opened.
ghost use Rattle.std.specs.Prelude.{◌≡◌, ◌≤◌, ◌++◌, List, [], Some, IfOk, IfErr, Err, slice_get, true};
ghost use Rattle.hm_ports.specs.Faults.{Rose};
ghost use Rattle.hm_names.specs.Server.{Server};
ghost use Rattle.hm_model.specs.Fleet.{is_live, servers_of};
ghost use Rattle.hm_script.specs.declared.command.Command.{Command as CommandValue};
ghost use Rattle.hm_world.specs.Scene.{GoesOn, Scene as SceneValue, past_in};
ghost use Rattle.hm_commands.specs.declared.answer.Answer.{Answer as AnswerValue};
ghost use Rattle.hm_commands.specs.View.{IsLeftBy, scene_in};
ghost use Rattle.hm_top.specs.Answering.{IsAnswering};
ghost use Rattle.hm_top.specs.Opening.{AddsNoStep, GoesDown, IsEndOf, IsPassing, PassesBy, StopsAt};
ghost use Rattle.hm_top.specs.Transcript.{text_of};

use crate::piece::say;
use crate::status::EarlyEnd;
use hm_commands::{Answer, Cluster};
use hm_disk::Disk;
use hm_names::ServerName;
use hm_ports::Sink;
use std::alloc::Global;

// Holds a server that is live to be dead, and says so.
fn put_down<D: Disk, K: Sink>(
    alloc: Global,
    cluster: Cluster<D>,
    out: &mut K,
    server: ServerName,
) -> Result<Cluster<D>, (D, EarlyEnd)>
    requires going { GoesOn (scene_in cluster) }
    requires live { is_live (past_in (scene_in cluster)) server ≡ true }
    ensures done { IfOk result (λ next. (lines : List AnswerValue) × GoesDown server (scene_in cluster) lines (scene_in next) × (K.tells → K.got out.new ≡ K.got out.old ++ text_of lines)) }
    ensures early { IfErr result (λ e. (new : SceneValue) × StopsAt K.tells (K.got out.old) (K.got out.new) server (scene_in cluster) e.1 new × IsLeftBy D.Disk cluster.recorder.opened new e.0) }
    ensures opened { IfOk result (λ next. next.recorder.opened ≡ cluster.recorder.opened) }
    ensures later { K.faults out.old ≤ K.faults out.new }
    ensures fault { IfErr result (λ e. e.1 ≡ EarlyEnd.WriteFault → Rose (K.faults out.old) (K.faults out.new)) }
{
    let mut cluster = cluster;
    let answer = match cluster.expire(alloc, server) {
        Ok(answer) => answer,
        Err(_) => return Err((cluster.into_disk(), EarlyEnd::Memory)),
    };
    if let Answer::Halted(why) = answer {
        return Err((cluster.into_disk(), EarlyEnd::Halted(why)));
    }
    cluster.keeps();
    let said = say(alloc, out, answer);
    match said {
        Ok(()) => Ok(cluster),
        Err(_) => Err((cluster.into_disk(), EarlyEnd::WriteFault)),
    }
}

// Holds the server at this place to be dead, if it is live, and says so.
fn pass_by<D: Disk, K: Sink>(
    alloc: Global,
    cluster: Cluster<D>,
    out: &mut K,
    place: u64,
) -> Result<Cluster<D>, (D, EarlyEnd)>
    requires going { GoesOn (scene_in cluster) }
    ensures done { IfOk result (λ next. (server : Server) → slice_get (servers_of (past_in (scene_in cluster))) place ≡ Some server
        → (lines : List AnswerValue) × PassesBy server (scene_in cluster) lines (scene_in next) × (K.tells → K.got out.new ≡ K.got out.old ++ text_of lines)) }
    ensures early { IfErr result (λ e. (server : Server) × (slice_get (servers_of (past_in (scene_in cluster))) place ≡ Some server)
        × (new : SceneValue) × StopsAt K.tells (K.got out.old) (K.got out.new) server (scene_in cluster) e.1 new × IsLeftBy D.Disk cluster.recorder.opened new e.0) }
    ensures opened { IfOk result (λ next. next.recorder.opened ≡ cluster.recorder.opened) }
    ensures later { K.faults out.old ≤ K.faults out.new }
    ensures fault { IfErr result (λ e. e.1 ≡ EarlyEnd.WriteFault → Rose (K.faults out.old) (K.faults out.new)) }
{
    match cluster.live_at(alloc, place) {
        Ok(Some(server)) => put_down(alloc, cluster, out, server),
        Ok(None) => Ok(cluster),
        Err(_) => Err((cluster.into_disk(), EarlyEnd::Memory)),
    }
}

/// Says how many entries the journal has, and holds each server that it calls live to be dead, with a line each. An early end gives the
/// disk back.
pub(crate) fn begin<D: Disk, K: Sink>(
    alloc: Global,
    cluster: Cluster<D>,
    out: &mut K,
) -> Result<Cluster<D>, (D, EarlyEnd)>
    requires going { GoesOn (scene_in cluster) }
    ensures done { IfOk result (λ begun. IsPassing K.tells (K.got out.old) (K.got out.new) (scene_in cluster) (servers_of (past_in (scene_in cluster))) (scene_in begun)) }
    ensures opened { IfOk result (λ begun. begun.recorder.opened ≡ cluster.recorder.opened) }
    ensures early { IfErr result (λ e. (new : SceneValue) × IsLeftBy D.Disk cluster.recorder.opened new e.0 × AddsNoStep (scene_in cluster) new × IsEndOf e.1 new
        × ((commands : List CommandValue) → IsAnswering K.tells (K.got out.old) (K.got out.new) (Err e.1) commands (scene_in cluster) [] new)) }
    ensures later { K.faults out.old ≤ K.faults out.new }
    ensures fault { IfErr result (λ e. e.1 ≡ EarlyEnd.WriteFault → Rose (K.faults out.old) (K.faults out.new)) }
{
    if let Err(_) = say(alloc, out, Answer::Opened(cluster.counted())) {
        return Err((cluster.into_disk(), EarlyEnd::WriteFault));
    }
    let mut cluster = cluster;
    for place in 0..cluster.server_count() {
        cluster = match pass_by(alloc, cluster, out, place) {
            Ok(next) => next,
            Err(early) => return Err(early),
        };
    }
    Ok(cluster)
}
