//! Who holds what clashes with what a procedure asks for.
ghost use Rattle.std.specs.Prelude.{◌≡◌, ◌+◌, ◌<◌, ◌≤◌, ◌^◌, ℕ, length, Some, slice_get};
ghost use Rattle.hm_lists.specs.Chains.{list_at};
ghost use Rattle.hm_locks.specs.declared.entry.Want.{Want};
ghost use Rattle.hm_locks.specs.Kept.{HasLanes, lane};
ghost use Rattle.hm_locks.specs.Lowest.{has, holder_at, is_apart, lower, lowest_by, lowest_in, lowest_of};

use crate::entry::{Entry, Want, entry_at, lane};
use hm_lists::{Lists, Steps};
use std::sync::ledger::Ledger;

// Whether a number is in the list.
fn has(numbers: &[u64], one: u64) -> bool
    ensures { result ≡ has numbers.now one }
{
    numbers.contains(&one)
}

// Whether neither entry's procedure is the other or an ancestor of it.
fn is_apart(own: &Entry, other: &Entry) -> bool
    ensures { result ≡ is_apart own.now other.now }
{
    own.pid != other.pid
        && !has(own.above.as_slice(), other.pid)
        && !has(other.above.as_slice(), own.pid)
}

// The lower of two that may be there.
fn lower(one: Option<u64>, other: Option<u64>) -> Option<u64>
    ensures { result ≡ lower one other }
{
    match (one, other) {
        (None, _) => other,
        (Some(_), None) => one,
        (Some(a), Some(b)) => Some(if b < a { b } else { a }),
    }
}

// The entries and their asks, and the one that asks now.
#[derive(Clone, Copy)]
pub(crate) struct Search<'a> {
    pub(crate) own: &'a Entry,
    pub(crate) entries: &'a [Option<Entry>],
    pub(crate) wants: &'a [Want],
    pub(crate) lists: &'a Lists,
}

impl<'a> Search<'a> {
    // The procedure of a node, unless it is related to the one that asks.
    fn holder_at(&self, node: u32) -> Option<u64>
        ensures { result ≡ holder_at self.now.own.now self.now.entries.now self.now.wants.now node }
    {
        let want = self.wants.get(node as usize)?;
        let other = entry_at(self.entries, want.place)?;
        if is_apart(self.own, other) {
            Some(other.pid)
        } else {
            None
        }
    }

    // The lowest procedure of a list that isn't related.
    fn lowest_in(&self, list: u32) -> Option<u64>
        requires { list < length self.now.lists.now.lists }
        ensures { result ≡ lowest_in (holder_at self.now.own.now self.now.entries.now self.now.wants.now) (list_at self.now.lists.now.lists list) }
    {
        let mut first = None;
        for node in self.lists.iter(list) {
            first = lower(first, self.holder_at(node));
        }
        first
    }

    // The lowest unrelated procedure that holds what clashes with one want.
    fn lowest_by(&self, want: Want) -> Option<u64>
        requires { HasLanes self.now.lists.now.lists want }
        ensures { result ≡ lowest_by want.exclusive (holder_at self.now.own.now self.now.entries.now self.now.wants.now) self.now.lists.now.lists want.desk }
    {
        let alone = self.lowest_in(lane(want.desk, true));
        if want.exclusive {
            lower(alone, self.lowest_in(lane(want.desk, false)))
        } else {
            alone
        }
    }

    // The lowest unrelated procedure that holds what clashes with what this one asks for, in one step for each ask.
    pub(crate) fn lowest<L: Ledger>(&self, count: usize, steps: &mut Steps<L>) -> Option<u64>
        requires within { self.now.own.now.first + count ≤ length self.now.wants.now }
        requires lanes { (n : ℕ) (w : Want) → slice_get self.now.wants.now n ≡ Some w → HasLanes self.now.lists.now.lists w }
        ensures lowest { result ≡ lowest_of (holder_at self.now.own.now self.now.entries.now self.now.wants.now) self.now.lists.now.lists self.now.wants.now self.now.own.now.first count }
        ensures steps { steps.new ≡ steps.old + count }
    {
        let mut first = None;
        for ask in 0..count {
            steps.tick();
            let want = self.wants[self.own.first + ask];
            first = lower(first, self.lowest_by(want));
        }
        first
    }
}
