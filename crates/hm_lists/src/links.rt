//! Nodes and ends of lists that link to one another.
ghost use Rattle.std.specs.Prelude.{◌≡◌, ◌-◌, ◌<◌, ◌++◌, [], ◌∷◌, Some, None, drop, length, map, max, replicate, vec_len, slice_get, slice_set, IfOk, OnOk, OnErr, MatchOption};
ghost use Rattle.hm_lists.specs.Chains.{IsThere, ends_at, node_at, pushed, taken_out, with_next, with_prev, IsIn, list_at};
ghost use Rattle.hm_lists.specs.Map.{AreApart, IsHeld, IsOut, without};

use crate::node::{EMPTY, Ends, FREE, Node};
use std::alloc::{AllocError, Global};

// The nodes, and the ends of the lists.
#[derive(Drop)]
pub(crate) struct Links {
    pub(crate) nodes: Vec<Node>,
    pub(crate) ends: Vec<Ends>,
}

impl Links {
    ghost use Rattle.hm_lists.specs.Links.{AreLinked, chains_of, held, room_of};

    // Puts a node after a place of a list.
    fn set_next(&mut self, list: u32, place: Option<u32>, next: Option<u32>)
        requires list { list < vec_len self.old.ends }
        requires place { IsThere (chains_of self.old) place }
        ensures chains { chains_of self.new ≡ with_next (chains_of self.old) list place next }
        ensures nodes { vec_len self.new.nodes ≡ vec_len self.old.nodes }
        ensures ends { vec_len self.new.ends ≡ vec_len self.old.ends }
        ensures memory { room_of self.new ≡ room_of self.old }
    {
        match place {
            Some(node) => self.nodes[node as usize].next = next,
            None => self.ends[list as usize].first = next,
        }
    }

    // Puts a node before a place of a list.
    fn set_prev(&mut self, list: u32, place: Option<u32>, prev: Option<u32>)
        requires list { list < vec_len self.old.ends }
        requires place { IsThere (chains_of self.old) place }
        ensures chains { chains_of self.new ≡ with_prev (chains_of self.old) list place prev }
        ensures nodes { vec_len self.new.nodes ≡ vec_len self.old.nodes }
        ensures ends { vec_len self.new.ends ≡ vec_len self.old.ends }
        ensures memory { room_of self.new ≡ room_of self.old }
    {
        match place {
            Some(node) => self.nodes[node as usize].prev = prev,
            None => self.ends[list as usize].last = prev,
        }
    }

    // Links a node after the last of a list.
    fn push(&mut self, list: u32, node: u32)
        requires list { list < vec_len self.old.ends }
        requires node { node < vec_len self.old.nodes }
        requires last { IsThere (chains_of self.old) (ends_at (chains_of self.old) list).last }
        ensures chains { chains_of self.new ≡ pushed (chains_of self.old) list node }
        ensures nodes { vec_len self.new.nodes ≡ vec_len self.old.nodes }
        ensures ends { vec_len self.new.ends ≡ vec_len self.old.ends }
        ensures memory { room_of self.new ≡ room_of self.old }
    {
        let last = self.ends[list as usize].last;
        self.nodes[node as usize] = Node {
            list: Some(list),
            prev: last,
            next: None,
        };
        self.set_next(list, last, Some(node));
        self.set_prev(list, None, Some(node));
    }

    // Takes a node out of its list.
    fn take_out(&mut self, list: u32, node: u32)
        requires list { list < vec_len self.old.ends }
        requires node { node < vec_len self.old.nodes }
        requires prev { IsThere (chains_of self.old) (node_at (chains_of self.old) node).prev }
        requires next { IsThere (chains_of self.old) (node_at (chains_of self.old) node).next }
        ensures chains { chains_of self.new ≡ taken_out (chains_of self.old) list node }
        ensures nodes { vec_len self.new.nodes ≡ vec_len self.old.nodes }
        ensures ends { vec_len self.new.ends ≡ vec_len self.old.ends }
        ensures memory { room_of self.new ≡ room_of self.old }
    {
        let Node {
            list: _,
            prev,
            next,
        } = self.nodes[node as usize];
        self.set_next(list, prev, next);
        self.set_prev(list, next, prev);
        self.nodes[node as usize] = FREE;
    }

    // Puts a node that is in no list after the last of a list.
    pub(crate) fn push_back(&mut self, list: u32, node: u32)
        requires linked { AreLinked self.old }
        requires list { list < length (held self.old) }
        requires node { node < length self.old.nodes.items }
        requires out { IsOut (held self.old) node }
        ensures linked { AreLinked self.new }
        ensures lists { held self.new ≡ slice_set (held self.old) list (list_at (held self.old) list ++ node ∷ []) }
        ensures nodes { vec_len self.new.nodes ≡ vec_len self.old.nodes }
        ensures memory { room_of self.new ≡ room_of self.old }
    {
        self.push(list, node);
    }

    // The first node of a list.
    pub(crate) fn first_of(&self, list: u32) -> Option<u32>
        requires { list < vec_len self.now.ends }
        ensures { result ≡ (ends_at (chains_of self.now) list).first }
    {
        self.ends[list as usize].first
    }

    // Takes the first node of a list.
    pub(crate) fn pop_front(&mut self, list: u32) -> Option<u32>
        requires linked { AreLinked self.old }
        requires list { list < length (held self.old) }
        ensures linked { AreLinked self.new }
        ensures first { result ≡ slice_get (list_at (held self.old) list) 0 }
        ensures lists { held self.new ≡ slice_set (held self.old) list (drop 1 (list_at (held self.old) list)) }
        ensures nodes { vec_len self.new.nodes ≡ vec_len self.old.nodes }
        ensures memory { room_of self.new ≡ room_of self.old }
    {
        let node = self.first_of(list)?;
        self.take_out(list, node);
        Some(node)
    }

    // Takes a node out of its list.
    pub(crate) fn unlink(&mut self, node: u32)
        requires linked { AreLinked self.old }
        requires held { IsHeld (held self.old) node }
        ensures linked { AreLinked self.new }
        ensures lists { held self.new ≡ map (without node) (held self.old) }
        ensures nodes { vec_len self.new.nodes ≡ vec_len self.old.nodes }
        ensures memory { room_of self.new ≡ room_of self.old }
    {
        if let Some(list) = self.nodes[node as usize].list {
            self.take_out(list, node);
        }
    }

    // The list that a node is in.
    pub(crate) fn list_of(&self, node: u32) -> Option<u32>
        requires { AreLinked self.now }
        ensures list { MatchOption result (IsOut (held self.now) node) (λ l. IsIn node (list_at (held self.now) l)) }
        ensures apart { AreApart (held self.now) }
    {
        if (node as usize) < self.nodes.len() {
            self.nodes[node as usize].list
        } else {
            None
        }
    }

    // Empty lists, and no node.
    pub(crate) fn new(alloc: Global, lists: u32) -> Result<Links, AllocError>
        ensures linked { IfOk result AreLinked }
        ensures lists { IfOk result (λ v. held v ≡ replicate lists []) }
        ensures nodes { IfOk result (λ v. vec_len v.nodes ≡ 0) }
    {
        let mut ends = Vec::new(alloc);
        ends.resize(lists as usize, EMPTY)?;
        Ok(Links {
            nodes: Vec::new(alloc),
            ends,
        })
    }

    // Makes the nodes below a number.
    pub(crate) fn grow_nodes(&mut self, count: usize) -> Result<(), AllocError>
        requires { AreLinked self.old }
        ensures linked { AreLinked self.new }
        ensures lists { held self.new ≡ held self.old }
        ensures ok { OnOk result (vec_len self.new.nodes ≡ max (vec_len self.old.nodes) count) }
        ensures err { OnErr result (vec_len self.new.nodes ≡ vec_len self.old.nodes) }
    {
        if count > self.nodes.len() {
            self.nodes.resize(count, FREE)?;
        }
        Ok(())
    }

    // Makes the lists below a number.
    pub(crate) fn grow_ends(&mut self, count: usize) -> Result<(), AllocError>
        requires { AreLinked self.old }
        ensures linked { AreLinked self.new }
        ensures ok { OnOk result (held self.new ≡ held self.old ++ replicate (count - length (held self.old)) []) }
        ensures err { OnErr result (held self.new ≡ held self.old) }
        ensures nodes { vec_len self.new.nodes ≡ vec_len self.old.nodes }
    {
        if count > self.ends.len() {
            self.ends.resize(count, EMPTY)?;
        }
        Ok(())
    }
}
