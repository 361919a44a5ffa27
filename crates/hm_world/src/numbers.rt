//! Numbers, of which the lowest comes first.
ghost use Rattle.std.specs.Prelude.{◌≡◌, ◌+◌, ◌≤◌, ℕ, [], length, true, IfOk, IfSome, IfNone, OnOk};
ghost use Rattle.hm_model.specs.Locks.{IsIn};
ghost use Rattle.hm_world.specs.Numbers.{AreWithout, IsLowest};

use std::alloc::{AllocError, Global};
use std::cmp::Reverse;
use std::collections::BinaryHeap;
use std::marker::Model;

// Numbers, of which the lowest comes first. Contracts see them in no order, and for how many more there is room.
#[derive(Drop)]
pub(crate) struct Numbers {
    heap: BinaryHeap<Reverse<u64>>,
}

impl Model for Numbers {
    ghost use Rattle.std.specs.Prelude.{◌-◌, map};
    ghost use Rattle.std.specs.BinaryHeap.{IsHeap, heap_capacity, heap_items, heap_len};
    ghost use Rattle.hm_world.specs.Numbers.{NumbersView, lowest_first, number};

    ghost Value = { NumbersView };

    ghost view = { λ s. record { items = map number (heap_items s.heap); spare = heap_capacity s.heap - heap_len s.heap } };

    ghost invariant = { λ s. IsHeap lowest_first (heap_items s.heap) };
}

impl Numbers {
    // None.
    pub(crate) fn new(alloc: Global) -> Numbers
        ensures { result.items ≡ [] }
    {
        Numbers {
            heap: BinaryHeap::new(alloc),
        }
    }

    // Makes room for so many more.
    pub(crate) fn reserve(&mut self, count: usize) -> Result<(), AllocError>
        ensures items { self.new.items ≡ self.old.items }
        ensures room { OnOk result (count ≤ self.new.spare) }
    {
        self.heap.reserve(count)
    }

    // One more, in the room that was made for it.
    pub(crate) fn push(&mut self, number: u64)
        requires { 1 ≤ self.old.spare }
        ensures new { IsIn number self.new.items }
        ensures old { (q : ℕ) → IsIn q self.old.items → IsIn q self.new.items }
        ensures spare { self.old.spare ≤ self.new.spare + 1 }
    {
        match self.heap.push(Reverse(number)) {
            Ok(()) => {}
            Err(_) => unreachable!(),
        }
    }

    // The same, where it is wanted.
    pub(crate) fn push_if(&mut self, wanted: bool, number: u64)
        requires { wanted ≡ true → 1 ≤ self.old.spare }
        ensures new { wanted ≡ true → IsIn number self.new.items }
        ensures old { (q : ℕ) → IsIn q self.old.items → IsIn q self.new.items }
    {
        if wanted {
            self.push(number);
        }
    }

    // The lowest.
    pub(crate) fn first(&self) -> Option<u64>
        ensures some { IfSome result (λ p. IsLowest p self.now.items) }
        ensures none { IfNone result (self.now.items ≡ []) }
    {
        match self.heap.peek() {
            Some(first) => Some(first.0),
            None => None,
        }
    }

    // Takes the lowest out.
    pub(crate) fn pop(&mut self)
        ensures without { (p : ℕ) → IsLowest p self.old.items → AreWithout p self.old.items self.new.items }
        ensures less { (p : ℕ) → IsIn p self.old.items → length self.new.items + 1 ≡ length self.old.items }
    {
        let Some(_) = self.heap.pop() else {
            return;
        };
    }
}
