//! Marks of some pairs that stand one after another in the order of their keys, in room for as many as a block holds.
ghost use Rattle.std.specs.Prelude.{◌≡◌, ◌+◌, ◌^◌, ◌≤◌, ◌<◌, ◌++◌, [], ◌↔◌, length, take, drop, slice_get, slice_index_or, IfOk, IsTrue};
ghost use Rattle.std.specs.List.{insert as inserted};
ghost use Rattle.std.specs.List.Sorted.{IsSearchInRange, IsBinarySearchResult};
ghost use Rattle.hm_index.specs.Blocks.{first_mark, mark_rank, places, rank_at};

use crate::room::{put_all, put_at};
use crate::sought::Sought;
use hm_hints::Hinted;
use std::alloc::{AllocError, Global};
use std::cmp::Ordering;
use std::marker::Model;

// How many marks a block holds.
pub(crate) const BLOCK: usize = 128;

// How many of them stay when a full block is split.
pub(crate) const HALF: usize = 64;

// What stands for a pair: the hint of its key, and its place.
#[derive(Clone, Copy)]
pub(crate) struct Mark {
    pub(crate) hint: u64,
    pub(crate) place: u32,
}

#[derive(Drop)]
pub(crate) struct Block {
    marks: Vec<Mark>,
}

impl Model for Block {
    ghost use Rattle.std.specs.Prelude.{◌≡◌, ◌≤◌, List, length, vec_capacity};
    ghost use Rattle.hm_index.specs.declared.block.Mark.{Mark};

    ghost Value = { List Mark };

    ghost view = { λ s. s.marks.items };

    ghost invariant = { λ s. (vec_capacity s.marks ≡ 128) × (length s.marks.items ≤ 128) };
}

impl Block {
    // No mark.
    pub(crate) fn new(alloc: Global) -> Result<Block, AllocError>
        ensures { IfOk result (λ block. block ≡ []) }
    {
        Ok(Block {
            marks: Vec::with_capacity(alloc, BLOCK)?,
        })
    }

    pub(crate) fn len(&self) -> usize
        ensures count { result ≡ length self.now }
        ensures limit { result ≤ 128 }
    {
        self.marks.len()
    }

    // The place that is marked there.
    pub(crate) fn get(&self, at: usize) -> usize
        requires { at < length self.now }
        ensures { result ≡ slice_index_or (places self.now) at 0 }
    {
        self.marks[at].place as usize
    }

    // The first mark.
    pub(crate) fn first(&self) -> Mark
        requires { 0 < length self.now }
        ensures { result ≡ first_mark self.now }
    {
        self.marks[0]
    }

    // Puts a mark in.
    pub(crate) fn put(&mut self, at: usize, mark: Mark)
        requires within { at ≤ length self.old }
        requires room { length self.old < 128 }
        ensures { self.new ≡ inserted self.old at mark }
    {
        put_at(&mut self.marks, at, mark);
    }

    // Moves what stands after the first half into a block that is empty.
    pub(crate) fn split(&mut self, upper: &mut Block)
        requires full { length self.old ≡ 128 }
        requires empty { upper.old ≡ [] }
        ensures lower { self.new ≡ take 64 self.old }
        ensures upper { upper.new ≡ drop 64 self.old }
    {
        put_all(&mut upper.marks, &self.marks[HALF..]);
        self.marks.truncate(HALF);
    }

    // Where among the marks a key of this hint stands, or where it belongs.
    pub(crate) fn search<K: Hinted, V, S: Sought<K>>(
        &self,
        pairs: &[(K, V)],
        key: &S,
        hint: u64,
    ) -> Result<usize, usize>
        ensures limit { IfOk result (λ at. at < 128) }
        ensures range { IsSearchInRange result (length self.now) }
        ensures position { IsBinarySearchResult (mark_rank (rank_at K.cmp pairs.now (S.stands_for key.now)) hint) self.now result }
    {
        self.marks
            .binary_search_by(|mark| compare_mark(pairs, mark, key, hint))
    }
}

// How a mark compares with a key of this hint: the pair is read only where the hints are equal.
pub(crate) fn compare_mark<K: Hinted, V, S: Sought<K>>(
    pairs: &[(K, V)],
    mark: &Mark,
    key: &S,
    hint: u64,
) -> Ordering
    ensures { result ≡ mark_rank (rank_at K.cmp pairs.now (S.stands_for key.now)) hint mark.now }
{
    match mark.hint.cmp(&hint) {
        Ordering::Less => Ordering::Less,
        Ordering::Equal => compare_at(pairs, mark.place as usize, key),
        Ordering::Greater => Ordering::Greater,
    }
}

// How the key of the pair at a place compares with this one. A place without a pair would stand lowest.
fn compare_at<K: Hinted, V, S: Sought<K>>(pairs: &[(K, V)], place: usize, key: &S) -> Ordering
    ensures { result ≡ rank_at K.cmp pairs.now (S.stands_for key.now) place }
{
    match pairs.get(place) {
        Some(pair) => key.compared(&pair.0),
        None => Ordering::Less,
    }
}
