//! The trees of procedures, to go over one.
ghost use Rattle.std.specs.Prelude.{◌≡◌, ◌+◌, ◌-◌, ◌<◌, ◌≤◌, ◌^◌, ◌++◌, [], ◌∷◌, ◌==◌, ℕ, length, OnOk, Some, slice_get};
ghost use Rattle.std.specs.Option.{option_map};
ghost use Rattle.hm_names.specs.declared.pid.Pid.{Pid as PidOf};
ghost use Rattle.hm_procedures.specs.Trees.{IsLast, IsNext, lasted, nexted, tops_from};

use hm_names::Pid;
use std::alloc::{AllocError, Global};
use std::marker::Model;

// A procedure in its tree: the root, and the next procedure of the tree; of a root also the last of its tree.
#[derive(Clone, Copy)]
pub(crate) struct Member {
    pub(crate) root: Pid,
    pub(crate) next: Option<Pid>,
    pub(crate) last: Pid,
}

/// The procedures in their trees. Contracts see the number before that of the first, the root of each, in the order of their
/// numbers, and for how many more there is room.
#[derive(Drop)]
pub(crate) struct Trees {
    // The number before that of the first procedure.
    from: u64,
    members: Vec<Member>,
    // The roots.
    tops: Vec<Pid>,
}

impl Model for Trees {
    ghost use Rattle.std.specs.Prelude.{◌≡◌, ◌+◌, ◌-◌, ◌≤◌, ◌^◌, min, vec_len, vec_capacity};
    ghost use Rattle.hm_procedures.specs.Trees.{AreLinked, TreesView, roots_of, tops_from};

    ghost Value = { TreesView };

    ghost view = { λ s. record { from = s.from; roots = roots_of s.members.items; spare = min (vec_capacity s.members - vec_len s.members) (vec_capacity s.tops - vec_len s.tops); room = vec_capacity s.members + vec_capacity s.tops } };

    ghost invariant = { λ s. AreLinked s.from s.members.items × (s.tops.items ≡ tops_from (s.from + 1) (roots_of s.members.items)) × (s.from ≤ 2 ^ 48) };
}

// Has a procedure lead to this one.
fn set_next(members: &mut [Member], from: u64, pid: Pid, next: Pid)
    requires low { from < pid.0 }
    requires high { pid.0 ≤ from + length members.old }
    ensures { (i : ℕ) → slice_get members.new i ≡ option_map (nexted (pid.0 == from + i + 1) next) (slice_get members.old i) }
{
    members[(pid.0 - from - 1) as usize].next = Some(next);
}

// Has a root lead to this one as the last of its tree.
fn set_last(members: &mut [Member], from: u64, root: Pid, last: Pid)
    requires low { from < root.0 }
    requires high { root.0 ≤ from + length members.old }
    ensures { (i : ℕ) → slice_get members.new i ≡ option_map (lasted (root.0 == from + i + 1) last) (slice_get members.old i) }
{
    members[(root.0 - from - 1) as usize].last = last;
}

impl Trees {
    // No procedure.
    pub(crate) fn new(alloc: Global) -> Trees
        ensures roots { result.roots ≡ [] }
        ensures from { result.from ≡ 0 }
    {
        Trees {
            from: 0,
            members: Vec::new(alloc),
            tops: Vec::new(alloc),
        }
    }

    // Lets the first procedure have the number after this one, while there is none.
    pub(crate) fn begin(&mut self, from: u64)
        requires none { self.old.roots ≡ [] }
        requires small { from ≤ 2 ^ 48 }
        ensures roots { self.new.roots ≡ [] }
        ensures from { self.new.from ≡ from }
        ensures spare { self.new.spare ≡ self.old.spare }
        ensures room { self.new.room ≡ self.old.room }
    {
        self.from = from;
    }

    // Makes room for so many procedures more.
    pub(crate) fn reserve(&mut self, count: usize) -> Result<(), AllocError>
        ensures from { self.new.from ≡ self.old.from }
        ensures roots { self.new.roots ≡ self.old.roots }
        ensures room { OnOk result (count ≤ self.new.spare) }
        ensures kept { self.old.spare ≤ self.new.spare }
    {
        self.members.reserve(count)?;
        self.tops.reserve(count)
    }

    // Adds a root.
    pub(crate) fn add_root(&mut self)
        requires { 1 ≤ self.old.spare }
        ensures from { self.new.from ≡ self.old.from }
        ensures roots { let own : PidOf = record { 0 = self.old.from + length self.old.roots + 1 } in self.new.roots ≡ self.old.roots ++ own ∷ [] }
        ensures spare { self.old.spare ≤ self.new.spare + 1 }
        ensures room { self.new.room ≡ self.old.room }
    {
        let own = Pid(self.from + self.members.len() as u64 + 1);
        self.members.push_reserved(Member {
            root: own,
            next: None,
            last: own,
        });
        self.tops.push_reserved(own);
    }

    // Adds a procedure to the tree of a root.
    pub(crate) fn add(&mut self, root: Pid)
        requires low { self.old.from < root.0 }
        requires root { slice_get self.old.roots (root.0 - self.old.from - 1) ≡ Some root }
        requires room { 1 ≤ self.old.spare }
        ensures from { self.new.from ≡ self.old.from }
        ensures roots { self.new.roots ≡ self.old.roots ++ root ∷ [] }
        ensures spare { self.old.spare ≤ self.new.spare + 1 }
        ensures room { self.new.room ≡ self.old.room }
    {
        let own = Pid(self.from + self.members.len() as u64 + 1);
        let last = self.last(root);
        set_next(&mut self.members, self.from, last, own);
        set_last(&mut self.members, self.from, root, own);
        self.members.push_reserved(Member {
            root,
            next: None,
            last: own,
        });
    }

    // The roots, in the order of their numbers.
    pub(crate) fn tops(&self) -> &[Pid]
        ensures { result.now ≡ tops_from (self.now.from + 1) self.now.roots }
    {
        let _members = &self.members;
        self.tops.as_slice()
    }

    // The last procedure of a root's tree.
    fn last(&self, root: Pid) -> Pid
        requires low { self.now.from < root.0 }
        requires root { slice_get self.now.roots (root.0 - self.now.from - 1) ≡ Some root }
        ensures { IsLast self.now.from self.now.roots root result }
    {
        self.members[(root.0 - self.from - 1) as usize].last
    }

    // The first procedure of a root's tree, which is the root.
    pub(crate) fn first(&self, root: Pid) -> Option<Pid>
        requires low { self.now.from < root.0 }
        requires root { slice_get self.now.roots (root.0 - self.now.from - 1) ≡ Some root }
        ensures root { result ≡ Some root }
        ensures first { (i : ℕ) → self.now.from + i + 1 < root.0 → slice_get self.now.roots i ≡ Some root → ⊥ }
    {
        Some(self.members[(root.0 - self.from - 1) as usize].root)
    }

    // The next procedure of the tree, in the order of their numbers.
    pub(crate) fn next(&self, pid: Pid) -> Option<Pid>
        requires low { self.now.from < pid.0 }
        requires high { pid.0 ≤ self.now.from + length self.now.roots }
        ensures { (root : PidOf) → slice_get self.now.roots (pid.0 - self.now.from - 1) ≡ Some root → IsNext self.now.from self.now.roots root (pid.0 - self.now.from - 1) result }
    {
        self.members[(pid.0 - self.from - 1) as usize].next
    }
}
