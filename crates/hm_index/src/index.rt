//! A map whose pairs are only added, in the order of their keys.
ghost use Rattle.std.specs.Prelude.{◌≡◌, ℕ, ◌+◌, ◌≤◌, [], IfOk, OnOk, IfSome, IsSome, Some, if◌then◌else◌, slice_get};
ghost use Rattle.std.specs.Option.{option_copied};
ghost use Rattle.std.specs.Ordering.{is_eq};
ghost use Rattle.std.specs.declared.cmp.Ordering.TheVariants.{Equal};
ghost use Rattle.hm_index.specs.Index.{IsRising, find, placed, pairs_from, changed, key_if, PutAt, HasPut};

use crate::block::Mark;
use crate::order::{Order, Spot};
use crate::sought::Sought;
use crate::view::{Iter, View};
use hm_hints::Hinted;
use std::alloc::{AllocError, Global};
use std::marker::Model;

// How many pairs there may be, at most: each place has to fit a u32.
const LIMIT: usize = 0x1_0000_0000;

/// Values by their keys. Contracts see the pairs in the order of their keys and in the order in which they came, for how many more
/// there is room, and how much memory there is.
#[derive(Drop)]
pub struct Index<K: Hinted, V> {
    // In the order in which they came.
    pairs: Vec<(K, V)>,
    // Marks of them, in the order of their keys.
    order: Order,
}

impl<K: Hinted, V> Model for Index<K, V> {
    ghost use Rattle.std.specs.Prelude.{◌-◌, ◌+◌, ◌^◌, min, vec_len, vec_capacity};
    ghost use Rattle.hm_index.specs.Blocks.{AreHinted, IsKept, picked, places, laid};
    ghost use Rattle.hm_index.specs.Index.{IndexView};

    ghost Value = { IndexView K V };

    ghost view = { λ s. record { pairs = picked s.pairs.items (places (laid s.order.blocks)); came = s.pairs.items; spare = min (2 ^ 32 - vec_len s.pairs) (min (vec_capacity s.pairs - vec_len s.pairs) s.order.spare); room = vec_capacity s.pairs + s.order.room } };

    ghost invariant = { λ s. IsKept K.cmp s.pairs.items (places (laid s.order.blocks)) × AreHinted K.hint_of s.pairs.items (laid s.order.blocks) };
}

impl<K: Hinted + Drop, V: Drop> Index<K, V> {
    /// No pair.
    pub fn new(alloc: Global) -> Result<Index<K, V>, AllocError>
        ensures { IfOk result (λ index. index.pairs ≡ []) }
    {
        Ok(Index {
            pairs: Vec::new(alloc),
            order: Order::new(alloc)?,
        })
    }

    /// The value of a key.
    pub fn get<S: Sought<K>>(&self, key: &S) -> Option<&V>
        ensures { option_copied result ≡ find K.cmp self.now.pairs (S.stands_for key.now) }
    {
        match self.order.search(&self.pairs, key) {
            Ok(spot) => Some(&self.pairs[self.order.get(spot)].1),
            Err(_) => None,
        }
    }

    /// The pair of a number, counted from 0 in the order in which the keys came.
    pub fn pair(&self, number: u32) -> Option<&(K, V)>
        ensures { option_copied result ≡ slice_get self.now.came number }
    {
        self.pairs.get(number as usize)
    }

    /// The pairs in the order of their keys.
    pub fn view(&self) -> View<'_, K, V>
        ensures { result ≡ self.now.pairs }
    {
        View::new(&self.pairs, &self.order)
    }

    /// The pairs in the order of their keys, from the first on whose key isn't below this one.
    pub fn iter_from<S: Sought<K>>(&self, key: &S) -> Iter<'_, K, V>
        ensures { result ≡ pairs_from K.cmp self.now.pairs (S.stands_for key.now) }
    {
        match self.order.search(&self.pairs, key) {
            Ok(spot) => Iter::new(&self.pairs, &self.order, spot),
            Err(spot) => Iter::new(&self.pairs, &self.order, spot),
        }
    }

    /// Makes room for so many pairs more.
    pub fn reserve(&mut self, alloc: Global, count: usize) -> Result<(), AllocError>
        ensures pairs { self.new.pairs ≡ self.old.pairs }
        ensures came { self.new.came ≡ self.old.came }
        ensures room { OnOk result (count ≤ self.new.spare) }
        ensures kept { self.old.spare ≤ self.new.spare }
    {
        let len = self.pairs.len();
        if LIMIT < len || LIMIT - len < count {
            return Err(AllocError);
        }
        self.pairs.reserve(count)?;
        self.order.reserve(alloc, count)
    }

    /// Gives a key a value, in the room that was made for it.
    pub fn set(&mut self, key: K, value: V)
        requires { 1 ≤ self.old.spare }
        ensures order { self.new.pairs ≡ placed K.cmp self.old.pairs key value }
        ensures pairs { (other : K) → find K.cmp self.new.pairs other ≡ (if is_eq (K.cmp key other) then Some value else find K.cmp self.old.pairs other) }
        ensures came { HasPut (key, value) self.old.came self.new.came }
        ensures spare { self.old.spare ≤ self.new.spare + 1 }
        ensures room { self.new.room ≡ self.old.room }
    {
        let _number = self.put(key, value);
    }

    /// The same, and tells the pair's number: that of the key where it is there, or else how many pairs came before.
    pub fn put(&mut self, key: K, value: V) -> u32
        requires { 1 ≤ self.old.spare }
        ensures order { self.new.pairs ≡ placed K.cmp self.old.pairs key value }
        ensures pairs { (other : K) → find K.cmp self.new.pairs other ≡ (if is_eq (K.cmp key other) then Some value else find K.cmp self.old.pairs other) }
        ensures came { PutAt result (key, value) self.old.came self.new.came }
        ensures same { IfSome (slice_get self.old.came result) (λ pair. K.cmp pair.0 key ≡ Equal) }
        ensures known { IsSome (find K.cmp self.old.pairs key) → IsSome (slice_get self.old.came result) }
        ensures rising { IsRising K.cmp self.new.pairs }
        ensures spare { self.old.spare ≤ self.new.spare + 1 }
        ensures room { self.new.room ≡ self.old.room }
    {
        match self.order.search(&self.pairs, &key) {
            Ok(spot) => {
                let place = self.order.get(spot);
                self.pairs[place] = (key, value);
                place as u32
            }
            Err(spot) => {
                let hint = key.own_hint();
                let place = self.pairs.len() as u32;
                self.pairs.push_reserved((key, value));
                self.order.insert(spot, Mark { hint, place });
                place
            }
        }
    }

    /// Gives a key that is there another value.
    pub fn change<S: Sought<K>>(&mut self, key: &S, value: V)
        requires { IsSome (find K.cmp self.old.pairs (S.stands_for key.now)) }
        ensures order { self.new.pairs ≡ changed K.cmp self.old.pairs (S.stands_for key.now) value }
        ensures pairs { (other : K) → find K.cmp self.new.pairs other ≡ (if is_eq (K.cmp (S.stands_for key.now) other) then Some value else find K.cmp self.old.pairs other) }
        ensures keys { (n : ℕ) → key_if (slice_get self.new.came n) ≡ key_if (slice_get self.old.came n) }
        ensures rising { IsRising K.cmp self.new.pairs }
        ensures spare { self.new.spare ≡ self.old.spare }
        ensures room { self.new.room ≡ self.old.room }
    {
        match self.order.search(&self.pairs, key) {
            Ok(spot) => {
                let place = self.order.get(spot);
                self.pairs[place].1 = value;
            }
            Err(_) => unreachable!(),
        }
    }
}
