//! The order of the pairs: marks of them, in blocks.
ghost use Rattle.std.specs.Prelude.{◌≡◌, ◌+◌, ◌^◌, ◌≤◌, ◌<◌, [], ◌==◌, if◌then◌else◌, length, vec_len, vec_capacity, slice_get, slice_set, slice_index_or, IfOk, IfErr, OnOk};
ghost use Rattle.std.specs.List.{All, insert as inserted};
ghost use Rattle.std.specs.List.Sorted.{IsSearchInRange, IsBinarySearchResult};
ghost use Rattle.hm_index.specs.Blocks.{AreHinted, laid, places, start, block_at, split_at, mark_rank, IsBlockFor, IsSpot, IsFound, IsAbsent, rank_at};

use crate::block::{BLOCK, Block, HALF, Mark, compare_mark};
use crate::room::put_at;
use crate::sought::Sought;
use hm_hints::Hinted;
use std::alloc::{AllocError, Global};
use std::marker::Model;

// Where a mark stands or may be put in: the number of a block among the blocks, and how many marks of the block stand before it.
#[derive(Clone, Copy)]
pub(crate) struct Spot {
    pub(crate) block: usize,
    pub(crate) at: usize,
}

#[derive(Drop)]
pub(crate) struct Order {
    // Never none. Each but the first has a mark.
    blocks: Vec<Block>,
    // The first mark of each block, side by side, so that a search for a block needn't look at the blocks. The first of them isn't read.
    leads: Vec<Mark>,
    // Blocks with no mark, for those that will be split.
    pool: Vec<Block>,
}

impl Model for Order {
    ghost use Rattle.std.specs.Prelude.{◌≡◌, ◌+◌, ◌-◌, ◌*◌, min, [], map, vec_len, vec_capacity};
    ghost use Rattle.std.specs.List.{All};
    ghost use Rattle.hm_index.specs.Blocks.{OrderView, IsPacked, first_mark};

    ghost Value = { OrderView };

    ghost view = { λ s. record { blocks = s.blocks.items; spare = min (vec_capacity s.blocks - vec_len s.blocks) (min (vec_capacity s.leads - vec_len s.leads) (vec_len s.pool)); room = vec_capacity s.blocks + vec_capacity s.leads + vec_capacity s.pool + 128 * (vec_len s.blocks + vec_len s.pool) } };

    ghost invariant = { λ s. IsPacked s.blocks.items × All (λ block. block ≡ []) s.pool.items × (s.leads.items ≡ map first_mark s.blocks.items) };
}

impl Order {
    // No mark.
    pub(crate) fn new(alloc: Global) -> Result<Order, AllocError>
        ensures { IfOk result (λ order. laid order.blocks ≡ []) }
    {
        let mut blocks = Vec::with_capacity(alloc, 1)?;
        blocks.push(Block::new(alloc)?)?;
        let mut leads = Vec::with_capacity(alloc, 1)?;
        leads.push(Mark { hint: 0, place: 0 })?;
        Ok(Order {
            blocks,
            leads,
            pool: Vec::new(alloc),
        })
    }

    // Makes room for so many marks more.
    pub(crate) fn reserve(&mut self, alloc: Global, count: usize) -> Result<(), AllocError>
        ensures blocks { self.new.blocks ≡ self.old.blocks }
        ensures room { OnOk result (count ≤ self.new.spare) }
        ensures kept { self.old.spare ≤ self.new.spare }
    {
        self.blocks.reserve(count)?;
        self.leads.reserve(count)?;
        fill(&mut self.pool, alloc, count)
    }

    // The place that is marked at a spot.
    pub(crate) fn get(&self, spot: Spot) -> usize
        requires block { spot.block < length self.now.blocks }
        requires within { spot.at < length (block_at self.now.blocks spot.block) }
        ensures { result ≡ slice_index_or (places (laid self.now.blocks)) (start self.now.blocks spot.block + spot.at) result }
    {
        self.blocks[spot.block].get(spot.at)
    }

    // Where a key stands, or where it belongs.
    pub(crate) fn search<K: Hinted, V, S: Sought<K>>(
        &self,
        pairs: &[(K, V)],
        key: &S,
    ) -> Result<Spot, Spot>
        requires { AreHinted K.hint_of pairs.now (laid self.now.blocks) }
        ensures found { IfOk result (λ spot. IsFound (rank_at K.cmp pairs.now (S.stands_for key.now)) self.now.blocks spot.block spot.at) }
        ensures absent { IfErr result (λ spot. IsAbsent (rank_at K.cmp pairs.now (S.stands_for key.now)) self.now.blocks spot.block spot.at) }
    {
        let hint = key.hint();
        let block = self.block_for(pairs, key, hint);
        match self.blocks[block].search(pairs, key, hint) {
            Ok(at) => Ok(Spot { block, at }),
            Err(at) => Err(Spot { block, at }),
        }
    }

    // The block in which a key of this hint stands or belongs: the first is taken where no other begins at or below it.
    fn block_for<K: Hinted, V, S: Sought<K>>(&self, pairs: &[(K, V)], key: &S, hint: u64) -> usize
        ensures within { result < length self.now.blocks }
        ensures block { IsBlockFor (mark_rank (rank_at K.cmp pairs.now (S.stands_for key.now)) hint) self.now.blocks result }
    {
        let others = &self.leads[1..];
        match others.binary_search_by(|mark| compare_mark(pairs, mark, key, hint)) {
            Ok(before) => before + 1,
            Err(before) => before,
        }
    }

    // Puts a mark in, in the room that was made for it.
    pub(crate) fn insert(&mut self, spot: Spot, mark: Mark)
        requires spot { IsSpot self.old.blocks spot.block spot.at }
        requires room { 1 ≤ self.old.spare }
        ensures order { laid self.new.blocks ≡ inserted (laid self.old.blocks) (start self.old.blocks spot.block + spot.at) mark }
        ensures spare { self.old.spare ≤ self.new.spare + 1 }
        ensures memory { self.new.room ≡ self.old.room }
    {
        let spot = self.with_room(spot);
        keep_lead(&mut self.leads, spot, mark);
        let block = &mut self.blocks[spot.block];
        block.put(spot.at, mark);
    }

    // Splits the block of a spot where it is full, with a block of the pool. Answers where the spot is then.
    fn with_room(&mut self, spot: Spot) -> Spot
        requires spot { IsSpot self.old.blocks spot.block spot.at }
        requires room { 1 ≤ self.old.spare }
        ensures order { laid self.new.blocks ≡ laid self.old.blocks }
        ensures spot { IsSpot self.new.blocks result.block result.at }
        ensures same { start self.new.blocks result.block + result.at ≡ start self.old.blocks spot.block + spot.at }
        ensures room { length (block_at self.new.blocks result.block) < 128 }
        ensures spare { self.old.spare ≤ self.new.spare + 1 }
        ensures memory { self.new.room ≡ self.old.room }
    {
        let count = self.blocks[spot.block].len();
        if count < BLOCK {
            return spot;
        }
        self.split(spot.block);
        if spot.at <= HALF {
            return spot;
        }
        Spot {
            block: spot.block + 1,
            at: spot.at - HALF,
        }
    }

    // Splits a full block, with a block of the pool.
    fn split(&mut self, block: usize)
        requires block { block < length self.old.blocks }
        requires full { length (block_at self.old.blocks block) ≡ 128 }
        requires room { 1 ≤ self.old.spare }
        ensures blocks { self.new.blocks ≡ split_at self.old.blocks block 64 }
        ensures spare { self.old.spare ≤ self.new.spare + 1 }
        ensures memory { self.new.room ≡ self.old.room }
    {
        let Some(mut upper) = self.pool.pop() else {
            unreachable!()
        };
        let lower = &mut self.blocks[block];
        lower.split(&mut upper);
        put_at(&mut self.leads, block + 1, upper.first());
        put_at(&mut self.blocks, block + 1, upper);
    }

    // The spot with which the order begins.
    pub(crate) fn first(&self) -> Spot
        ensures spot { IsSpot self.now.blocks result.block result.at }
        ensures first { start self.now.blocks result.block + result.at ≡ 0 }
    {
        let _blocks = &self.blocks;
        Spot { block: 0, at: 0 }
    }

    // The place that is marked at a spot, or after the end of its block at the first of the next block.
    pub(crate) fn next(&self, spot: Spot) -> Option<usize>
        requires { IsSpot self.now.blocks spot.block spot.at }
        ensures { result ≡ slice_get (places (laid self.now.blocks)) (start self.now.blocks spot.block + spot.at) }
    {
        let block = &self.blocks[spot.block];
        if spot.at < block.len() {
            return Some(block.get(spot.at));
        }
        let after = spot.block + 1;
        if after < self.blocks.len() {
            return Some(self.blocks[after].get(0));
        }
        None
    }

    // The spot after one where there is a mark, or whose block ends while another follows.
    pub(crate) fn following(&self, spot: Spot) -> Spot
        requires spot { IsSpot self.now.blocks spot.block spot.at }
        requires more { start self.now.blocks spot.block + spot.at < length (laid self.now.blocks) }
        ensures spot { IsSpot self.now.blocks result.block result.at }
        ensures next { start self.now.blocks result.block + result.at ≡ start self.now.blocks spot.block + spot.at + 1 }
    {
        if spot.at < self.blocks[spot.block].len() {
            return Spot {
                block: spot.block,
                at: spot.at + 1,
            };
        }
        Spot {
            block: spot.block + 1,
            at: 1,
        }
    }

    // The place that is marked at a number in the order.
    pub(crate) fn at(&self, number: usize) -> Option<usize>
        ensures { result ≡ slice_get (places (laid self.now.blocks)) number }
    {
        let mut rest = number;
        for block in &self.blocks {
            if rest < block.len() {
                return Some(block.get(rest));
            }
            rest -= block.len();
        }
        None
    }
}

// Keeps the first marks of blocks true when a mark is put in at a spot: where that begins a block, the mark is its first.
fn keep_lead(leads: &mut Vec<Mark>, spot: Spot, mark: Mark)
    requires { spot.block < vec_len leads.old }
    ensures items { leads.new.items ≡ (if spot.at == 0 then slice_set leads.old.items spot.block mark else leads.old.items) }
    ensures len { vec_len leads.new ≡ vec_len leads.old }
    ensures capacity { vec_capacity leads.new ≡ vec_capacity leads.old }
{
    if spot.at == 0 {
        leads[spot.block] = mark;
    }
}

// Fills a pool with blocks that have no mark, until it has so many.
fn fill(pool: &mut Vec<Block>, alloc: Global, count: usize) -> Result<(), AllocError>
    requires { All (λ block. block ≡ []) pool.old.items }
    ensures empty { All (λ block. block ≡ []) pool.new.items }
    ensures count { OnOk result (count ≤ vec_len pool.new) }
    ensures kept { vec_len pool.old ≤ vec_len pool.new }
{
    let had = pool.len();
    for _i in had..count {
        pool.push(Block::new(alloc)?)?;
    }
    Ok(())
}
