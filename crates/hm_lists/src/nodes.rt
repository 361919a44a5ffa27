//! The nodes of a list, one after another.
ghost use Rattle.std.specs.Prelude.{◌≡◌, ◌<◌, length};
ghost use Rattle.std.specs.Iterator.{YieldsFirst, item_count};
ghost use Rattle.hm_lists.specs.Chains.{list_at};
ghost use Rattle.hm_lists.specs.Links.{AreLinked, held};

use crate::links::Links;
use std::marker::Model;

/// The nodes of a list from one on. Contracts see those that are left.
#[derive(Drop)]
pub struct Nodes<'a> {
    links: &'a Links,
    node: Option<u32>,
}

impl<'a> Model for Nodes<'a> {
    ghost use Rattle.std.specs.Prelude.{ℕ, List};
    ghost use Rattle.hm_lists.specs.Links.{chains_of, rest_from, IsOnWay};

    ghost Value = { List ℕ };

    ghost view = { λ s. rest_from (chains_of s.links.now) s.node };

    ghost invariant = { λ s. IsOnWay (chains_of s.links.now) s.node };
}

impl<'a> Nodes<'a> {
    // The nodes of a list, from the first on.
    pub(crate) fn new(links: &'a Links, list: u32) -> Nodes<'a>
        requires linked { AreLinked links.now }
        requires list { list < length (held links.now) }
        ensures { result ≡ list_at (held links.now) list }
    {
        Nodes {
            links,
            node: links.first_of(list),
        }
    }
}

impl<'a> Iterator for Nodes<'a> {
    type Item = u32;

    ghost next_gives = { YieldsFirst (λ rest. rest) };

    ghost remaining = { item_count (λ rest. rest) };

    fn next(&mut self) -> Option<u32> {
        let node = self.node?;
        self.node = self.links.nodes[node as usize].next;
        Some(node)
    }
}
