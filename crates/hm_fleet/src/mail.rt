//! What was ever sent, and what of it travels.
ghost use Rattle.std.specs.Prelude.{◌≡◌, ◌<◌, ◌≤◌, ◌+◌, ◌^◌, ◌++◌, ◌∷◌, [], OnOk, drop, length, slice_get};
ghost use Rattle.std.specs.List.{range_with_len};
ghost use Rattle.std.specs.Option.{option_copied};
ghost use Rattle.std.specs.VecDeque.{deque_len, deque_capacity};

use std::alloc::{AllocError, Global};
use std::collections::VecDeque;
use std::marker::Model;

// What was ever sent, and what of it travels, the oldest first. Contracts see both, and for how many more there is room.
#[derive(Drop)]
pub(crate) struct Mail<T> {
    all: Vec<T>,
    // The places in `all` of what travels.
    places: VecDeque<usize>,
}

impl<T> Model for Mail<T> {
    ghost use Rattle.std.specs.Prelude.{◌-◌, ◌<◌, length, vec_len, vec_capacity};
    ghost use Rattle.std.specs.List.{All};
    ghost use Rattle.std.specs.VecDeque.{deque_len, deque_capacity};
    ghost use Rattle.hm_index.specs.Blocks.{picked};
    ghost use Rattle.hm_fleet.specs.Mail.{MailView};

    ghost Value = { MailView T };

    ghost view = { λ s. record { all = s.all.items; travels = picked s.all.items s.places.items; spare = vec_capacity s.all - vec_len s.all; room = deque_capacity s.places - deque_len s.places } };

    ghost invariant = { λ s. All (λ place. place < length s.all.items) s.places.items };
}

impl<T: Drop> Mail<T> {
    // Nothing was sent.
    pub(crate) fn new(alloc: Global) -> Mail<T>
        ensures all { result.all ≡ [] }
        ensures travels { result.travels ≡ [] }
    {
        Mail {
            all: Vec::new(alloc),
            places: VecDeque::new(alloc),
        }
    }

    // How many travel.
    pub(crate) fn len(&self) -> usize
        ensures count { result ≡ length self.now.travels }
        ensures fits { result < 2 ^ 63 }
    {
        self.places.len()
    }

    // The oldest that travels.
    pub(crate) fn oldest(&self) -> Option<&T>
        ensures { option_copied result ≡ slice_get self.now.travels 0 }
    {
        match self.places.front() {
            Some(place) => Some(&self.all[*place]),
            None => None,
        }
    }

    // Makes room for one more.
    pub(crate) fn reserve(&mut self) -> Result<(), AllocError>
        ensures all { self.new.all ≡ self.old.all }
        ensures travels { self.new.travels ≡ self.old.travels }
        ensures room { OnOk result ((1 ≤ self.new.spare) × (1 ≤ self.new.room)) }
    {
        self.all.reserve(1)?;
        self.places.reserve(1)
    }

    // Sends one more, in the room that was made for it.
    pub(crate) fn send(&mut self, item: T)
        requires spare { 1 ≤ self.old.spare }
        requires room { 1 ≤ self.old.room }
        ensures all { self.new.all ≡ self.old.all ++ item ∷ [] }
        ensures travels { self.new.travels ≡ self.old.travels ++ item ∷ [] }
    {
        self.places.push_back_reserved(self.all.len());
        self.all.push_reserved(item);
    }

    // The oldest that travels arrives.
    pub(crate) fn arrive(&mut self)
        ensures all { self.new.all ≡ self.old.all }
        ensures travels { self.new.travels ≡ drop 1 self.old.travels }
    {
        let _place = self.places.pop_front();
    }

    // Loses all that travel.
    pub(crate) fn lose(&mut self)
        ensures all { self.new.all ≡ self.old.all }
        ensures travels { self.new.travels ≡ [] }
    {
        self.places.clear();
    }

    // Makes room for each to travel once more.
    pub(crate) fn reserve_all(&mut self) -> Result<(), AllocError>
        ensures all { self.new.all ≡ self.old.all }
        ensures travels { self.new.travels ≡ self.old.travels }
        ensures room { OnOk result (length self.new.all ≤ self.new.room) }
    {
        self.places.reserve(self.all.len())
    }

    // Each travels once more, in the room that was made. How many these are.
    pub(crate) fn repeat(&mut self) -> usize
        requires { length self.old.all ≤ self.old.room }
        ensures count { result ≡ length self.old.all }
        ensures fits { result < 2 ^ 63 }
        ensures all { self.new.all ≡ self.old.all }
        ensures travels { self.new.travels ≡ self.old.travels ++ self.old.all }
    {
        let count = self.all.len();
        push_below(&mut self.places, count);
        count
    }
}

// Adds the numbers below this one, in room that is there.
fn push_below(numbers: &mut VecDeque<usize>, count: usize)
    requires { deque_len numbers.old + count ≤ deque_capacity numbers.old }
    ensures { numbers.new.items ≡ numbers.old.items ++ range_with_len 0 count }
{
    for number in 0..count {
        numbers.push_back_reserved(number);
    }
}
