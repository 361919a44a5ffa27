//! Numbers of resources.
ghost use Rattle.std.specs.Prelude.{◌≡◌, ◌+◌, ◌-◌, ◌<◌, ◌≤◌, ◌^◌, ℕ, [], Some, max, IfOk, OnOk, OnErr};
ghost use Rattle.hm_index.specs.Index.{find};
ghost use Rattle.hm_model.specs.declared.lock.Resource.{Resource};
ghost use Rattle.hm_locks.specs.Kept.{desk_of};
ghost use Rattle.hm_locks.specs.Keys.{lock_cmp};
ghost use Rattle.hm_locks.specs.declared.key.Key.{Key as KeyOf};

use crate::key::{Key, locks_order_by_name};
use hm_index::Index;
use std::alloc::{AllocError, Global};
use std::marker::Model;

// How many resources may have a number: each has two lists, whose numbers fit a u32.
const LIMIT: u32 = 0x7FFF_FFFF;

// A number for each resource that was ever asked for.
#[derive(Drop)]
pub(crate) struct Desks {
    numbers: Index<Key, u32>,
    // The next number.
    count: u32,
    // Below which numbers may be given.
    limit: u32,
}

impl Model for Desks {
    ghost use Rattle.std.specs.Prelude.{◌-◌, min};
    ghost use Rattle.hm_locks.specs.Kept.{DesksView, AreDesks};

    ghost Value = { DesksView };

    ghost view = { λ s. record { numbers = s.numbers.pairs; count = s.count; limit = s.limit; spare = min s.numbers.spare (s.limit - s.count); room = s.numbers.room } };

    ghost invariant = { λ s. AreDesks s.numbers.pairs s.count s.limit };
}

impl Desks {
    // No number.
    pub(crate) fn new(alloc: Global) -> Result<Desks, AllocError>
        ensures numbers { IfOk result (λ desks. desks.numbers ≡ []) }
        ensures limit { IfOk result (λ desks. desks.limit ≡ 0) }
    {
        Ok(Desks {
            numbers: Index::new(alloc)?,
            count: 0,
            limit: 0,
        })
    }

    // The limit with which so many resources more may have a number.
    pub(crate) fn limit_for(&self, more: usize) -> Result<u32, AllocError>
        ensures limit { IfOk result (λ limit. limit ≡ self.now.count + more) }
        ensures few { IfOk result (λ limit. limit + limit < 2 ^ 32) }
    {
        let limit = (self.count as usize).checked_add(more).ok_or(AllocError)?;
        if limit > LIMIT as usize {
            return Err(AllocError);
        }
        Ok(limit as u32)
    }

    // Makes room for the numbers below a limit.
    pub(crate) fn reserve(&mut self, alloc: Global, limit: u32) -> Result<(), AllocError>
        requires { limit + limit < 2 ^ 32 }
        ensures numbers { self.new.numbers ≡ self.old.numbers }
        ensures limit { self.new.limit ≤ max self.old.limit limit }
        ensures room { OnOk result (limit - self.old.count ≤ self.new.spare) }
        ensures spare { self.old.spare ≤ self.new.spare }
    {
        let count = limit.saturating_sub(self.count);
        self.numbers.reserve(alloc, count as usize)?;
        self.limit = self.limit.max(limit);
        Ok(())
    }

    // The number of a resource by its key, a new one where it had none.
    pub(crate) fn number_of(&mut self, key: Key) -> u32
        requires { 1 ≤ self.old.spare }
        ensures number { find lock_cmp self.new.numbers key ≡ Some result }
        ensures kept { (other : KeyOf) (d : ℕ) → find lock_cmp self.old.numbers other ≡ Some d → find lock_cmp self.new.numbers other ≡ Some d }
        ensures limit { self.new.limit ≡ self.old.limit }
        ensures spare { self.old.spare ≤ self.new.spare + 1 }
        ensures room { self.new.room ≡ self.old.room }
    {
        locks_order_by_name();
        if let Some(number) = self.numbers.get(&key) {
            return *number;
        }
        let number = self.count;
        self.numbers.set(key, number);
        self.count = number + 1;
        number
    }

    // Numbers are below the limit, and no two resources have one number: a law that does nothing.
    pub(crate) fn are_apart(&self)
        ensures within { (key : KeyOf) (d : ℕ) → find lock_cmp self.now.numbers key ≡ Some d → d < self.now.limit }
        ensures few { self.now.limit + self.now.limit < 2 ^ 32 }
        ensures apart { (a b : Resource) (d : ℕ) → desk_of self.now.numbers a ≡ Some d → desk_of self.now.numbers b ≡ Some d → a ≡ b }
    {
        let _count = self.count;
    }
}
