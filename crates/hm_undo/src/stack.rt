//! The stacks of all roots.
ghost use Rattle.std.specs.Prelude.{◌≡◌, ◌≢◌, ◌+◌, ◌≤◌, ◌<◌, [], ◌∷◌, drop, length, vec_len, vec_capacity, IfOk, OnOk, MatchOption, Some};
ghost use Rattle.hm_names.specs.Order.{pid_cmp};
ghost use Rattle.hm_names.specs.declared.pid.Pid.{Pid as PidOf};
ghost use Rattle.hm_index.specs.Index.{find};
ghost use Rattle.hm_undo.specs.Kept.{AreFound, find_place, stacks_of};
ghost use Rattle.hm_undo.specs.Stacks.{AreWith, edits_told, held, steps_of, told};
ghost use Rattle.hm_undo.specs.declared.slot.Step.{Step as StepOf};

use crate::slot::{Slot, Step, move_first};
use hm_data::Edit;
use hm_index::Index;
use hm_names::laws::names_order_by_parts;
use hm_names::{List, Pid};
use std::alloc::{AllocError, Global};
use std::collections::LinkedList;
use std::marker::Model;

// How many nodes there may be.
const LIMIT: usize = 0x4000_0000_0000_0000;

/// The steps that may be undone, of each root. Contracts see the steps of each root, the latest first, and for how many more
/// there is room.
#[derive(Drop)]
pub struct Stack {
    // Where the slot of a root stands.
    places: Index<Pid, usize>,
    // A root that was forgotten keeps its slot, without steps.
    slots: Vec<Slot>,
    // Nodes for steps to come.
    pool: LinkedList<Step>,
    // How many nodes were made.
    nodes: usize,
}

impl Model for Stack {
    ghost use Rattle.std.specs.Prelude.{◌+◌, ◌-◌, length, min, vec_len, vec_capacity};
    ghost use Rattle.hm_undo.specs.Stacks.{StackView};
    ghost use Rattle.hm_undo.specs.Kept.{IsKept, stacks_of};

    ghost Value = { StackView };

    ghost view = { λ s. record { stacks = stacks_of s.slots.items; idle = length s.pool; spare = min (length s.pool) (min (vec_capacity s.slots - vec_len s.slots) s.places.spare); room = vec_capacity s.slots + s.places.room + s.nodes } };

    ghost invariant = { λ s. IsKept s.places.pairs (stacks_of s.slots.items) s.pool s.nodes };
}

impl Stack {
    /// No step.
    pub fn new(alloc: Global) -> Result<Stack, AllocError>
        ensures { IfOk result (λ stack. stack.stacks ≡ []) }
    {
        Ok(Stack {
            places: Index::new(alloc)?,
            slots: Vec::new(alloc),
            pool: LinkedList::new(alloc),
            nodes: 0,
        })
    }

    /// Makes room for so many steps more.
    pub fn reserve(&mut self, alloc: Global, steps: u64) -> Result<(), AllocError>
        ensures stacks { self.new.stacks ≡ self.old.stacks }
        ensures room { OnOk result (steps ≤ self.new.spare) }
        ensures kept { self.old.spare ≤ self.new.spare }
    {
        let count = steps as usize;
        self.slots.reserve(count)?;
        self.places.reserve(alloc, count)?;
        while self.pool.len() < count {
            if self.nodes + 1 >= LIMIT {
                return Err(AllocError);
            }
            self.pool.push_back(blank(alloc))?;
            self.nodes += 1;
        }
        Ok(())
    }

    /// Puts a step on top of its root's.
    pub fn push(&mut self, root: Pid, pid: Pid, row: u8, edits: List<Edit>)
        requires { 1 ≤ self.old.spare }
        ensures steps { let step : StepOf = record { pid = pid; row = row; edits = edits } in AreWith self.old.stacks root (step ∷ steps_of self.old.stacks root) self.new.stacks }
        ensures held { held self.new.stacks ≡ held self.old.stacks + 1 }
        ensures idle { self.new.idle + 1 ≡ self.old.idle }
        ensures spare { self.old.spare ≤ self.new.spare + 1 }
        ensures room { self.new.room ≡ self.old.room }
    {
        let alloc = *self.pool.allocator();
        let place = place_for(&mut self.places, &mut self.slots, alloc, root);
        let slot = &mut self.slots[place];
        move_first(&mut self.pool, &mut slot.steps, Step { pid, row, edits });
    }

    // The steps of a root that has had one.
    fn steps(&self, root: Pid) -> Option<&LinkedList<Step>>
        ensures { MatchOption result (steps_of self.now.stacks root ≡ []) (λ steps. steps.now ≡ steps_of self.now.stacks root) }
    {
        let place = place_of(&self.places, root)?;
        Some(&self.slots[place].steps)
    }

    /// Whose step is undone next of a root's, and its row: the latest that was pushed and not popped.
    pub fn next_undo(&self, root: Pid) -> Option<(Pid, u8)>
        ensures { result ≡ told (steps_of self.now.stacks root) }
    {
        let step = self.steps(root)?.front()?;
        Some((step.pid, step.row))
    }

    /// The edits of the step that is undone next.
    pub fn edits(&self, root: Pid) -> &[Edit]
        requires { steps_of self.now.stacks root ≢ [] }
        ensures { Some result.now ≡ edits_told (steps_of self.now.stacks root) }
    {
        let Some(steps) = self.steps(root) else {
            unreachable!()
        };
        let Some(step) = steps.front() else {
            unreachable!()
        };
        step.edits.as_slice()
    }

    /// Takes the step that was undone off its root's.
    pub fn pop(&mut self, root: Pid)
        requires { steps_of self.old.stacks root ≢ [] }
        ensures steps { AreWith self.old.stacks root (drop 1 (steps_of self.old.stacks root)) self.new.stacks }
        ensures held { held self.new.stacks + 1 ≡ held self.old.stacks }
        ensures idle { self.new.idle ≡ self.old.idle + 1 }
        ensures spare { self.old.spare ≤ self.new.spare }
        ensures room { self.new.room ≡ self.old.room }
    {
        let Some(place) = place_of(&self.places, root) else {
            unreachable!()
        };
        let blank = blank(*self.pool.allocator());
        let slot = &mut self.slots[place];
        move_first(&mut slot.steps, &mut self.pool, blank);
    }

    /// Drops the steps of a root that has ended. Their memory serves other steps.
    pub fn forget(&mut self, root: Pid)
        ensures steps { AreWith self.old.stacks root [] self.new.stacks }
        ensures held { held self.new.stacks + length (steps_of self.old.stacks root) ≡ held self.old.stacks }
        ensures idle { self.new.idle ≡ self.old.idle + length (steps_of self.old.stacks root) }
        ensures spare { self.old.spare ≤ self.new.spare }
        ensures room { self.new.room ≡ self.old.room }
    {
        while self.next_undo(root).is_some() {
            self.pop(root);
        }
    }
}

// Where the slot of a root stands.
fn place_of(places: &Index<Pid, usize>, root: Pid) -> Option<usize>
    ensures { result ≡ find pid_cmp places.now.pairs root }
{
    names_order_by_parts();
    places.get(&root).copied()
}

// Where the slot of a root stands, which is made where there is none.
fn place_for(
    places: &mut Index<Pid, usize>,
    slots: &mut Vec<Slot>,
    alloc: Global,
    root: Pid,
) -> usize
    requires found { AreFound places.old.pairs (stacks_of slots.old.items) }
    requires place_room { 1 ≤ places.old.spare }
    requires slot_room { vec_len slots.old < vec_capacity slots.old }
    ensures found { AreFound places.new.pairs (stacks_of slots.new.items) }
    ensures place { find_place (stacks_of slots.new.items) root ≡ Some result }
    ensures steps { (other : PidOf) → steps_of (stacks_of slots.new.items) other ≡ steps_of (stacks_of slots.old.items) other }
    ensures held { held (stacks_of slots.new.items) ≡ held (stacks_of slots.old.items) }
    ensures len { vec_len slots.new ≤ vec_len slots.old + 1 }
    ensures slots { vec_capacity slots.new ≡ vec_capacity slots.old }
    ensures spare { places.old.spare ≤ places.new.spare + 1 }
    ensures room { places.new.room ≡ places.old.room }
{
    if let Some(place) = place_of(places, root) {
        return place;
    }
    let place = slots.len();
    slots.push_reserved(Slot {
        root,
        steps: LinkedList::new(alloc),
    });
    names_order_by_parts();
    places.set(root, place);
    place
}

// A step that isn't one, for a node of the pool.
fn blank(alloc: Global) -> Step
    ensures { result.edits ≡ [] }
{
    Step {
        pid: Pid(0),
        row: 0,
        edits: List::of(Vec::new(alloc)),
    }
}
