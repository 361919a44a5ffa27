//! Nodes that come into the lists of what they hold, and leave them.
ghost use Rattle.std.specs.Prelude.{◌≡◌, ◌≢◌, ◌+◌, ◌<◌, ◌≤◌, ◌^◌, ℕ, ◌⊎◌, ◌↔◌, length, Some, slice_get};
ghost use Rattle.hm_lists.specs.Chains.{IsIn, list_at};
ghost use Rattle.hm_lists.specs.Map.{IsHeld, IsOut};
ghost use Rattle.hm_locks.specs.declared.entry.Want.{Want};
ghost use Rattle.hm_locks.specs.Kept.{HasLanes, IsAmong};

use crate::entry::{Want, lane};
use hm_lists::{Lists, Steps};
use std::marker::Brand;
use std::sync::ledger::{Blank, Ledger};

// Puts a node after the last of a list, with a count of steps of its own.
pub(crate) fn link<L: Ledger>(lists: &mut Lists, list: u32, node: u32, blank: Blank)
    requires name { blank.name ≡ L.name }
    requires parts { blank.parts ≡ L.parts }
    requires some { 1 ≤ L.parts }
    requires list { list < length lists.old.lists }
    requires node { node < lists.old.spare }
    requires out { IsOut lists.old.lists node }
    ensures lists { (l n : ℕ) → IsIn n (list_at lists.new.lists l) ↔ (IsIn n (list_at lists.old.lists l) ⊎ ((l ≡ list) × (n ≡ node))) }
    ensures count { length lists.new.lists ≡ length lists.old.lists }
    ensures spare { lists.new.spare ≡ lists.old.spare }
    ensures room { lists.new.room ≡ lists.old.room }
{
    let mut steps = Steps::<L>::new(blank);
    lists.push_back(list, node, &mut steps);
}

// Takes a node out of its list, with a count of steps of its own.
pub(crate) fn unlink<L: Ledger>(lists: &mut Lists, node: u32, blank: Blank)
    requires name { blank.name ≡ L.name }
    requires parts { blank.parts ≡ L.parts }
    requires some { 1 ≤ L.parts }
    requires held { IsHeld lists.old.lists node }
    ensures lists { (l n : ℕ) → IsIn n (list_at lists.new.lists l) ↔ (IsIn n (list_at lists.old.lists l) × (n ≢ node)) }
    ensures count { length lists.new.lists ≡ length lists.old.lists }
    ensures spare { lists.new.spare ≡ lists.old.spare }
    ensures room { lists.new.room ≡ lists.old.room }
{
    let mut steps = Steps::<L>::new(blank);
    lists.unlink(node, &mut steps);
}

// Puts so many nodes from one on into the lists of what they want.
pub(crate) fn seat(lists: &mut Lists, wants: &[Want], first: usize, count: usize)
    requires within { first + count ≤ length wants.now }
    requires nodes { length wants.now ≤ lists.old.spare }
    requires small { length wants.now < 2 ^ 32 }
    requires lanes { (n : ℕ) (w : Want) → slice_get wants.now n ≡ Some w → HasLanes lists.old.lists w }
    requires out { (n : ℕ) → first ≤ n → n < first + count → IsOut lists.old.lists n }
    ensures lists { (l n : ℕ) → IsIn n (list_at lists.new.lists l) ↔ (IsIn n (list_at lists.old.lists l) ⊎ IsAmong wants.now first count l n) }
    ensures count { length lists.new.lists ≡ length lists.old.lists }
    ensures spare { lists.new.spare ≡ lists.old.spare }
    ensures room { lists.new.room ≡ lists.old.room }
{
    for done in 0..count {
        let node = first + done;
        let want = wants[node];
        link::<Brand>(
            lists,
            lane(want.desk, want.exclusive),
            node as u32,
            Blank::new(1),
        );
    }
}

// Takes so many nodes from one on out of their lists.
pub(crate) fn unseat(lists: &mut Lists, first: usize, count: usize)
    requires small { first + count < 2 ^ 32 }
    requires held { (n : ℕ) → first ≤ n → n < first + count → IsHeld lists.old.lists n }
    ensures lists { (l n : ℕ) → IsIn n (list_at lists.new.lists l) ↔ (IsIn n (list_at lists.old.lists l) × ((n < first) ⊎ (first + count ≤ n))) }
    ensures count { length lists.new.lists ≡ length lists.old.lists }
    ensures spare { lists.new.spare ≡ lists.old.spare }
    ensures room { lists.new.room ≡ lists.old.room }
{
    for done in 0..count {
        unlink::<Brand>(lists, (first + done) as u32, Blank::new(1));
    }
}
