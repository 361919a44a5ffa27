//! What is kept of a root.
ghost use Rattle.std.specs.Prelude.{◌≡◌, ◌+◌, ◌<◌, ◌^◌, ◌∷◌, drop, length};

use hm_data::Edit;
use hm_names::{List, Pid};
use std::collections::LinkedList;
use std::mem;

/// A step that may be undone: whose it is, its row, and its edits.
#[derive(Drop)]
pub struct Step {
    pub pid: Pid,
    pub row: u8,
    pub edits: List<Edit>,
}

// The steps of a root, the latest first.
#[derive(Drop)]
pub(crate) struct Slot {
    pub(crate) root: Pid,
    pub(crate) steps: LinkedList<Step>,
}

// Moves the first node of a list to the front of another, with this step in it.
pub(crate) fn move_first(from: &mut LinkedList<Step>, to: &mut LinkedList<Step>, step: Step)
    requires some { 0 < length from.old }
    requires fits { length to.old + 1 < 2 ^ 63 }
    ensures from { from.new ≡ drop 1 from.old }
    ensures to { to.new ≡ step ∷ to.old }
{
    let Ok(rest) = from.split_off(1) else {
        unreachable!()
    };
    let mut node = mem::replace(from, rest);
    if let Some(first) = node.front_mut() {
        *first = step;
    }
    let _ = node.append(to);
    *to = node;
}
