//! What an index shows of its pairs: all of them, or those from one on.
ghost use Rattle.std.specs.Prelude.{◌≡◌, ◌+◌, ◌<◌, ◌↔◌, [], length, drop, slice_get, slice_index_or, IsTrue};
ghost use Rattle.std.specs.Iterator.{YieldsFirstRef, item_count};
ghost use Rattle.std.specs.Option.{option_copied};
ghost use Rattle.hm_index.specs.Blocks.{IsKept, IsSpot, laid, picked, places, start};
ghost use Rattle.hm_index.specs.Index.{IsRising};

use crate::order::{Order, Spot};
use std::marker::Model;

/// The pairs of an index in the order of their keys. Contracts see the list of them.
#[derive(Drop)]
pub struct View<'a, K: Ord, V> {
    pairs: &'a [(K, V)],
    order: &'a Order,
}

impl<'a, K: Ord, V> Model for View<'a, K, V> {
    ghost use Rattle.std.specs.Prelude.{List};
    ghost use Rattle.hm_index.specs.Blocks.{IsKept, laid, picked, places};

    ghost Value = { List (K × V) };

    ghost view = { λ s. picked s.pairs.now (places (laid s.order.now.blocks)) };

    ghost invariant = { λ s. IsKept K.cmp s.pairs.now (places (laid s.order.now.blocks)) };
}

impl<'a, K: Ord, V> View<'a, K, V> {
    // The pairs as they came, and the order of their places.
    pub(crate) fn new(pairs: &'a [(K, V)], order: &'a Order) -> View<'a, K, V>
        requires { IsKept K.cmp pairs.now (places (laid order.now.blocks)) }
        ensures { result ≡ picked pairs.now (places (laid order.now.blocks)) }
    {
        View { pairs, order }
    }

    /// How many pairs there are.
    pub fn len(&self) -> usize
        ensures count { result ≡ length self.now }
        ensures rising { IsRising K.cmp self.now }
    {
        self.pairs.len()
    }

    /// Whether there is no pair.
    pub fn is_empty(&self) -> bool
        ensures { IsTrue result ↔ (self.now ≡ []) }
    {
        self.len() == 0
    }

    /// The pair that stands at a number, counted from 0.
    pub fn get(&self, number: usize) -> Option<&'a (K, V)>
        ensures { option_copied result ≡ slice_get self.now number }
    {
        let place = self.order.at(number)?;
        Some(pair_at(self.pairs, place))
    }

    /// Goes over all pairs.
    pub fn iter(&self) -> Iter<'a, K, V>
        ensures { result ≡ self.now }
    {
        Iter::new(self.pairs, self.order, self.order.first())
    }
}

/// The pairs of an index from one on, in the order of their keys. Contracts see the list of those that are left.
#[derive(Drop)]
pub struct Iter<'a, K: Ord, V> {
    pairs: &'a [(K, V)],
    order: &'a Order,
    spot: Spot,
}

impl<'a, K: Ord, V> Model for Iter<'a, K, V> {
    ghost use Rattle.std.specs.Prelude.{◌+◌, List, drop};
    ghost use Rattle.hm_index.specs.Blocks.{IsKept, IsSpot, laid, picked, places, start};

    ghost Value = { List (K × V) };

    ghost view = { λ s. drop (start s.order.now.blocks s.spot.block + s.spot.at) (picked s.pairs.now (places (laid s.order.now.blocks))) };

    ghost invariant = { λ s. IsKept K.cmp s.pairs.now (places (laid s.order.now.blocks)) × IsSpot s.order.now.blocks s.spot.block s.spot.at };
}

impl<'a, K: Ord, V> Iter<'a, K, V> {
    // The pairs from a spot of their order on.
    pub(crate) fn new(pairs: &'a [(K, V)], order: &'a Order, spot: Spot) -> Iter<'a, K, V>
        requires kept { IsKept K.cmp pairs.now (places (laid order.now.blocks)) }
        requires spot { IsSpot order.now.blocks spot.block spot.at }
        ensures { result ≡ drop (start order.now.blocks spot.block + spot.at) (picked pairs.now (places (laid order.now.blocks))) }
    {
        Iter { pairs, order, spot }
    }
}

impl<'a, K: Ord, V> Iterator for Iter<'a, K, V> {
    type Item = &'a (K, V);

    ghost next_gives = { YieldsFirstRef (λ rest. rest) };

    ghost remaining = { item_count (λ rest. rest) };

    fn next(&mut self) -> Option<&'a (K, V)> {
        let place = self.order.next(self.spot)?;
        self.spot = self.order.following(self.spot);
        Some(pair_at(self.pairs, place))
    }
}

// The pair at a place.
fn pair_at<K, V>(pairs: &[(K, V)], place: usize) -> &(K, V)
    requires { place < length pairs.now }
    ensures { result.now ≡ slice_index_or pairs.now place result.now }
{
    &pairs[place]
}
