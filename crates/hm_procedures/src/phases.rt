//! The phases of the procedures of a tree.
ghost use Rattle.std.specs.Prelude.{◌≡◌, ℕ, ◌+◌, ◌-◌, ◌<◌, ◌≤◌, ◌&&◌, ◌==◌, true, Some, length, slice_get};
ghost use Rattle.std.specs.Option.{option_map};
ghost use Rattle.hm_names.specs.declared.pid.Pid.{Pid as PidOf};
ghost use Rattle.hm_procedures.specs.Changes.{has_ended as its_end, is_shown, is_this, is_touched, shown_if};
ghost use Rattle.hm_procedures.specs.Kept.{root_shown};
ghost use Rattle.hm_procedures.specs.declared.kept.Tracked.{Tracked as TrackedOf};

use crate::kept::Tracked;
use crate::trees::Trees;
use hm_data::Cause;
use hm_names::Pid;

// The parent and the root of a procedure.
pub(crate) fn family(kept: &[Tracked], from: u64, pid: Pid) -> (Option<Pid>, Pid)
    requires low { from < pid.0 }
    requires high { pid.0 ≤ from + length kept.now }
    ensures { (one : TrackedOf) → slice_get kept.now (pid.0 - from - 1) ≡ Some one → (result.0 ≡ (let shown = one.shown in shown.parent)) × (result.1 ≡ (let shown = one.shown in shown.root)) }
{
    let shown = &kept[(pid.0 - from - 1) as usize].shown;
    (shown.parent, shown.root)
}

// The edition of a procedure.
pub(crate) fn edition_of(kept: &[Tracked], from: u64, pid: Pid) -> u64
    requires low { from < pid.0 }
    requires high { pid.0 ≤ from + length kept.now }
    ensures { (one : TrackedOf) → slice_get kept.now (pid.0 - from - 1) ≡ Some one → result ≡ (let shown = one.shown in shown.edition) }
{
    kept[(pid.0 - from - 1) as usize].shown.edition
}

// The cause of a root, and whether it is rolled back where it has one and nothing is left to undo.
fn standing(kept: &[Tracked], from: u64, root: Pid, nothing_left: bool) -> (Option<Cause>, bool)
    requires low { from < root.0 }
    requires high { root.0 ≤ from + length kept.now }
    ensures { (one : TrackedOf) → slice_get kept.now (root.0 - from - 1) ≡ Some one → (result.0 ≡ one.cause) × (result.1 ≡ ((one.open_under == 0) && nothing_left)) }
{
    let root = &kept[(root.0 - from - 1) as usize];
    (root.cause, root.open_under == 0 && nothing_left)
}

// Shows the phase of a procedure.
fn show(kept: &mut [Tracked], from: u64, pid: Pid, cause: Option<Cause>, rolled_back: bool)
    requires low { from < pid.0 }
    requires high { pid.0 ≤ from + length kept.old }
    ensures { (p : ℕ) → slice_get kept.new p ≡ option_map (shown_if (pid.0 == from + p + 1) cause rolled_back) (slice_get kept.old p) }
{
    kept[(pid.0 - from - 1) as usize].show(cause, rolled_back);
}

// Shows the phases of a procedure, its parent and its root.
fn show_few(
    kept: &mut [Tracked],
    from: u64,
    pid: Pid,
    parent: Option<Pid>,
    root: Pid,
    cause: Option<Cause>,
    rolled_back: bool,
)
    requires pid_low { from < pid.0 }
    requires pid_high { pid.0 ≤ from + length kept.old }
    requires root_low { from < root.0 }
    requires root_high { root.0 ≤ from + length kept.old }
    requires parent_low { (up : PidOf) → parent ≡ Some up → from < up.0 }
    requires parent_high { (up : PidOf) → parent ≡ Some up → up.0 ≤ from + length kept.old }
    ensures { (p : ℕ) → slice_get kept.new p ≡ option_map (shown_if (is_touched pid parent root (from + p + 1)) cause rolled_back) (slice_get kept.old p) }
{
    show(kept, from, pid, cause, rolled_back);
    if let Some(parent) = parent {
        show(kept, from, parent, cause, rolled_back);
    }
    show(kept, from, root, cause, rolled_back);
}

// Shows all procedures of a tree as rolled back.
fn roll_back(kept: &mut [Tracked], from: u64, trees: &Trees, root: Pid, cause: Cause)
    requires from { trees.now.from ≡ from }
    requires low { from < root.0 }
    requires root { slice_get trees.now.roots (root.0 - from - 1) ≡ Some root }
    requires roots { (p : ℕ) → slice_get trees.now.roots p ≡ option_map root_shown (slice_get kept.old p) }
    ensures { (p : ℕ) → slice_get kept.new p ≡ option_map (λ one. shown_if (is_shown (Some cause) true root (Some root) root (from + p + 1) one) (Some cause) true one) (slice_get kept.old p) }
{
    let mut at = trees.first(root);
    while let Some(pid) = at {
        show(kept, from, pid, Some(cause), true);
        at = trees.next(pid);
    }
}

// Shows the phases of those of a root's tree that a step or an undo of one of them may change: of all where the root is
// rolled back by it, of the procedure, its parent and its root where it isn't.
pub(crate) fn show_phases(
    kept: &mut [Tracked],
    from: u64,
    trees: &Trees,
    pid: Pid,
    parent: Option<Pid>,
    root: Pid,
    nothing_left: bool,
)
    requires from { trees.now.from ≡ from }
    requires pid_low { from < pid.0 }
    requires pid_high { pid.0 ≤ from + length kept.old }
    requires parent_low { (up : PidOf) → parent ≡ Some up → from < up.0 }
    requires parent_high { (up : PidOf) → parent ≡ Some up → up.0 ≤ from + length kept.old }
    requires root_low { from < root.0 }
    requires root { slice_get trees.now.roots (root.0 - from - 1) ≡ Some root }
    requires roots { (p : ℕ) → slice_get trees.now.roots p ≡ option_map root_shown (slice_get kept.old p) }
    ensures { (top : TrackedOf) → slice_get kept.old (root.0 - from - 1) ≡ Some top → (p : ℕ) → slice_get kept.new p ≡ option_map (λ one. shown_if (is_shown top.cause ((top.open_under == 0) && nothing_left) pid parent root (from + p + 1) one) top.cause ((top.open_under == 0) && nothing_left) one) (slice_get kept.old p) }
{
    let (cause, rolled_back) = standing(kept, from, root, nothing_left);
    match cause {
        Some(cause) if rolled_back => roll_back(kept, from, trees, root, cause),
        _ => show_few(kept, from, pid, parent, root, cause, rolled_back),
    }
}

// Whether a procedure has ended.
pub(crate) fn has_ended(kept: &[Tracked], from: u64, pid: Pid) -> bool
    requires low { from < pid.0 }
    requires high { pid.0 ≤ from + length kept.now }
    ensures { (one : TrackedOf) → slice_get kept.now (pid.0 - from - 1) ≡ Some one → result ≡ its_end one }
{
    kept[(pid.0 - from - 1) as usize].has_ended()
}
