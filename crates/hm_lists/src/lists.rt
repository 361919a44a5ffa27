//! Lists of nodes, as callers see them.
ghost use Rattle.std.specs.Prelude.{◌≡◌, ◌+◌, ◌-◌, ◌<◌, ◌++◌, [], ◌∷◌, length, map, max, drop, replicate, slice_set, slice_get, IfOk, OnOk, OnErr, MatchOption};
ghost use Rattle.hm_lists.specs.Chains.{IsIn, list_at};
ghost use Rattle.hm_lists.specs.Map.{AreApart, IsHeld, IsOut, without};

use crate::links::Links;
use crate::nodes::Nodes;
use crate::steps::Steps;
use std::alloc::{AllocError, Global};
use std::marker::Model;
use std::sync::ledger::Ledger;

/// Lists of nodes, both by number. A node is in one list at most, and links to its neighbours there, so that it leaves from
/// the middle in one step. Contracts see the list of each number, and how many nodes are there.
#[derive(Drop)]
pub struct Lists {
    links: Links,
}

impl Model for Lists {
    ghost use Rattle.std.specs.Prelude.{length};
    ghost use Rattle.hm_lists.specs.Map.{Map};
    ghost use Rattle.hm_lists.specs.Links.{AreLinked, held, room_of};

    ghost Value = { Map };

    ghost view = { λ s. record { lists = held s.links; spare = length s.links.nodes.items; room = room_of s.links } };

    ghost invariant = { λ s. AreLinked s.links };
}

impl Lists {
    /// Empty lists, and no node yet.
    pub fn new(alloc: Global, lists: u32) -> Result<Lists, AllocError>
        ensures lists { IfOk result (λ v. v.lists ≡ replicate lists []) }
        ensures spare { IfOk result (λ v. v.spare ≡ 0) }
    {
        let links = Links::new(alloc, lists)?;
        Ok(Lists { links })
    }

    /// Makes the nodes below a number.
    pub fn reserve_nodes(&mut self, _alloc: Global, count: u32) -> Result<(), AllocError>
        ensures lists { self.new.lists ≡ self.old.lists }
        ensures ok { OnOk result (self.new.spare ≡ max self.old.spare count) }
        ensures err { OnErr result (self.new.spare ≡ self.old.spare) }
    {
        self.links.grow_nodes(count as usize)
    }

    /// Makes the lists below a number.
    pub fn reserve_lists(&mut self, _alloc: Global, count: u32) -> Result<(), AllocError>
        ensures ok { OnOk result (self.new.lists ≡ self.old.lists ++ replicate (count - length self.old.lists) []) }
        ensures err { OnErr result (self.new.lists ≡ self.old.lists) }
        ensures spare { self.new.spare ≡ self.old.spare }
    {
        self.links.grow_ends(count as usize)
    }

    /// Puts a node that is in no list after the last of a list.
    pub fn push_back<L: Ledger>(&mut self, list: u32, node: u32, steps: &mut Steps<L>)
        requires list { list < length self.old.lists }
        requires node { node < self.old.spare }
        requires out { IsOut self.old.lists node }
        ensures lists { self.new.lists ≡ slice_set self.old.lists list (list_at self.old.lists list ++ node ∷ []) }
        ensures spare { self.new.spare ≡ self.old.spare }
        ensures room { self.new.room ≡ self.old.room }
        ensures steps { steps.new ≡ steps.old + 1 }
    {
        steps.tick();
        self.links.push_back(list, node);
    }

    /// Takes the first node of a list; none from an empty one.
    pub fn pop_front<L: Ledger>(&mut self, list: u32, steps: &mut Steps<L>) -> Option<u32>
        requires { list < length self.old.lists }
        ensures first { result ≡ slice_get (list_at self.old.lists list) 0 }
        ensures lists { self.new.lists ≡ slice_set self.old.lists list (drop 1 (list_at self.old.lists list)) }
        ensures spare { self.new.spare ≡ self.old.spare }
        ensures room { self.new.room ≡ self.old.room }
        ensures steps { steps.new ≡ steps.old + 1 }
    {
        steps.tick();
        self.links.pop_front(list)
    }

    /// Takes a node out of its list, wherever in it the node stands.
    pub fn unlink<L: Ledger>(&mut self, node: u32, steps: &mut Steps<L>)
        requires { IsHeld self.old.lists node }
        ensures lists { self.new.lists ≡ map (without node) self.old.lists }
        ensures spare { self.new.spare ≡ self.old.spare }
        ensures room { self.new.room ≡ self.old.room }
        ensures steps { steps.new ≡ steps.old + 1 }
    {
        steps.tick();
        self.links.unlink(node);
    }

    /// Goes over the nodes of a list, from the first on.
    pub fn iter(&self, list: u32) -> Nodes<'_>
        requires { list < length self.now.lists }
        ensures { result ≡ list_at self.now.lists list }
    {
        Nodes::new(&self.links, list)
    }

    /// The list that a node is in; none for a node that isn't there.
    pub fn list_of(&self, node: u32) -> Option<u32>
        ensures list { MatchOption result (IsOut self.now.lists node) (λ l. IsIn node (list_at self.now.lists l)) }
        ensures apart { AreApart self.now.lists }
    {
        self.links.list_of(node)
    }
}
