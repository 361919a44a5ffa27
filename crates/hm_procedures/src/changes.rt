//! What entries change of what is kept.
ghost use Rattle.std.specs.Prelude.{◌≡◌, ℕ, ◌+◌, ◌-◌, ◌<◌, ◌≤◌, ◌^◌, ◌&&◌, ◌==◌, true, Some, if◌then◌else◌, is_some, length, slice_get};
ghost use Rattle.hm_model.specs.Answers.{is_stop as stops};
ghost use Rattle.std.specs.Option.{option_map};
ghost use Rattle.hm_data.specs.declared.answer.Cause.{Cause as CauseOf};
ghost use Rattle.hm_names.specs.declared.pid.Pid.{Pid as PidOf};
ghost use Rattle.hm_procedures.specs.Changes.{aborted, child_ended, is_this, noted, reported, stepped, tree_stepped};
ghost use Rattle.hm_procedures.specs.declared.kept.Tracked.{Tracked as TrackedOf};

use crate::kept::{Tracked, failing, is_stop};
use hm_data::{Cause, StepOut, Told};
use hm_names::Pid;

// A step, before which so many had been made and which makes so many.
pub(crate) fn note_step(
    kept: &mut [Tracked],
    from: u64,
    pid: Pid,
    out: &StepOut,
    made: u64,
    count: u64,
)
    requires low { from < pid.0 }
    requires high { pid.0 ≤ from + length kept.old }
    requires small { (one : TrackedOf) → slice_get kept.old (pid.0 - from - 1) ≡ Some one → one.open_children + count < 2 ^ 64 }
    requires numbers { made + count < 2 ^ 64 }
    ensures { (p : ℕ) → slice_get kept.new p ≡ option_map (stepped (from + p + 1 == pid.0) out.now made count) (slice_get kept.old p) }
{
    kept[(pid.0 - from - 1) as usize].step(out, made, count);
}

// The end of a child.
pub(crate) fn note_end(kept: &mut [Tracked], from: u64, parent: Pid)
    requires low { from < parent.0 }
    requires high { parent.0 ≤ from + length kept.old }
    requires some { (one : TrackedOf) → slice_get kept.old (parent.0 - from - 1) ≡ Some one → 1 ≤ one.open_children }
    ensures { (p : ℕ) → slice_get kept.new p ≡ option_map (child_ended (parent.0 == from + p + 1)) (slice_get kept.old p) }
{
    kept[(parent.0 - from - 1) as usize].open_children -= 1;
}

// The end of a child, or none.
pub(crate) fn note_end_if(kept: &mut [Tracked], from: u64, parent: Option<Pid>, ends: bool)
    requires low { ends ≡ true → (up : PidOf) → parent ≡ Some up → from < up.0 }
    requires high { ends ≡ true → (up : PidOf) → parent ≡ Some up → up.0 ≤ from + length kept.old }
    requires some { ends ≡ true → (up : PidOf) → parent ≡ Some up → (one : TrackedOf) → slice_get kept.old (up.0 - from - 1) ≡ Some one → 1 ≤ one.open_children }
    ensures { (p : ℕ) → slice_get kept.new p ≡ option_map (child_ended (is_this parent (from + p + 1) && ends)) (slice_get kept.old p) }
{
    match parent {
        Some(parent) if ends => note_end(kept, from, parent),
        _ => {}
    }
}

// A step in the tree of a root, which makes so many procedures, by which a descendant ends or not, and which fails or not.
pub(crate) fn note_tree(
    kept: &mut [Tracked],
    from: u64,
    root: Pid,
    count: u64,
    ends: bool,
    failure: Option<Cause>,
)
    requires low { from < root.0 }
    requires high { root.0 ≤ from + length kept.old }
    requires small { (one : TrackedOf) → slice_get kept.old (root.0 - from - 1) ≡ Some one → one.open_under + count < 2 ^ 64 }
    requires some { ends ≡ true → (one : TrackedOf) → slice_get kept.old (root.0 - from - 1) ≡ Some one → 1 ≤ one.open_under + count }
    ensures { (p : ℕ) → slice_get kept.new p ≡ option_map (tree_stepped (root.0 == from + p + 1) count ends failure) (slice_get kept.old p) }
{
    let root = &mut kept[(root.0 - from - 1) as usize];
    root.open_under += count;
    if ends {
        root.open_under -= 1;
    }
    if root.cause.is_none() {
        root.cause = failure;
    }
}

// Whether a descendant ends.
fn ends_below(parent: Option<Pid>, stops: bool) -> bool
    ensures { result ≡ (stops && is_some parent) }
{
    stops && parent.is_some()
}

// A step, told of its procedure, its parent and its root.
pub(crate) fn note_all(
    kept: &mut [Tracked],
    from: u64,
    pid: Pid,
    parent: Option<Pid>,
    root: Pid,
    out: &StepOut,
    made: u64,
    count: u64,
)
    requires pid_low { from < pid.0 }
    requires pid_high { pid.0 ≤ from + length kept.old }
    requires parent_low { (up : PidOf) → parent ≡ Some up → from < up.0 }
    requires parent_high { (up : PidOf) → parent ≡ Some up → up.0 ≤ from + length kept.old }
    requires root_low { from < root.0 }
    requires root_high { root.0 ≤ from + length kept.old }
    requires small { (one : TrackedOf) → slice_get kept.old (pid.0 - from - 1) ≡ Some one → one.open_children + count < 2 ^ 64 }
    requires numbers { made + count < 2 ^ 64 }
    requires child { let answer = (let now = out.now in now.answer) in stops answer ≡ true → (up : PidOf) → parent ≡ Some up → (one : TrackedOf) → slice_get kept.old (up.0 - from - 1) ≡ Some one → 1 ≤ one.open_children }
    requires few { (one : TrackedOf) → slice_get kept.old (root.0 - from - 1) ≡ Some one → one.open_under + count < 2 ^ 64 }
    requires under { let answer = (let now = out.now in now.answer) in (stops answer && is_some parent) ≡ true → (one : TrackedOf) → slice_get kept.old (root.0 - from - 1) ≡ Some one → 1 ≤ one.open_under + count }
    ensures { (p : ℕ) → slice_get kept.new p ≡ option_map (noted (from + p + 1) pid parent root out.now made count) (slice_get kept.old p) }
{
    let ended = is_stop(&out.answer);
    note_step(kept, from, pid, out, made, count);
    note_end_if(kept, from, parent, ended);
    let ends = ends_below(parent, ended);
    note_tree(kept, from, root, count, ends, failing(&out.answer));
}

// The report of a call.
pub(crate) fn note_report(kept: &mut [Tracked], from: u64, call: Pid, told: Told)
    requires low { from < call.0 }
    requires high { call.0 ≤ from + length kept.old }
    ensures { (p : ℕ) → slice_get kept.new p ≡ option_map (reported (from + p + 1 == call.0) told) (slice_get kept.old p) }
{
    kept[(call.0 - from - 1) as usize].report = Some(told);
}

// An abort.
pub(crate) fn note_abort(kept: &mut [Tracked], from: u64, pid: Pid)
    requires low { from < pid.0 }
    requires high { pid.0 ≤ from + length kept.old }
    ensures { (p : ℕ) → slice_get kept.new p ≡ option_map (aborted (from + p + 1 == pid.0)) (slice_get kept.old p) }
{
    kept[(pid.0 - from - 1) as usize].shown.aborted = true;
}
