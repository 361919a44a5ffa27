//! The gate.
ghost use Rattle.std.specs.Prelude.{◌≡◌, ℕ, ◌%◌, ◌^◌, ◌≤◌, [], IfOk, IfErr};
ghost use Rattle.hm_gate.specs.Gate.{opened, IsOutside};
ghost use Rattle.hm_gate.specs.Seats.{fewer, fresh, merged, Ends};
ghost use Rattle.hm_gate.specs.Plays.{IsInside, positioned, entered, left, Found, May};
ghost use Rattle.hm_gate.specs.declared.view.Position.TheVariants.{Waits};

use crate::kept::Kept;
use crate::law::Turns;
use crate::plays::{Advance, Draw, Glue, Halve, Look, Raise};
use crate::seat::{Held, Seat, SeatOf};
use crate::view::View;
use atomic_table::{Refused, Table};
use std::alloc::{AllocError, AllocFailed, Global};
use std::marker::Model;
use std::snapshot::Snapshot;
use std::sync::Wait;
use std::sync::atomic::AtomicU64;
use std::sync::atomic::Ordering::SeqCst;

/// A value that seats enter one at a time. Contracts see which gate it is.
#[derive(Drop)]
pub struct Gate<V: Kept> {
    table: Table<Option<V>, View<V::Item, V::Terms>, (Snapshot<V>, u32), Turns<V>, Global>,
    changes: AtomicU64,
}

impl<V: Kept> Model for Gate<V> {
    ghost use Rattle.std.specs.Prelude.{◌≡◌};
    ghost use Rattle.atomic_table.specs.Seated.{TableId};

    ghost Value = { TableId };

    ghost view = { λ g. g.table.shared.table_id };

    ghost invariant = { λ g. (g.table.shared.table_id.words ≡ 3) × (g.table.shared.table_id.slots ≡ 1) };
}

impl<V: Kept> Gate<V> {
    /// A gate round the value, and a seat with all parts.
    pub fn new(alloc: Global, value: V, seats: u32) -> Result<(Gate<V>, Seat<V>), (V, AllocError)>
        requires seats { 1 ≤ seats }
        requires outs { (V.shown value).outs ≡ [] }
        ensures gate { IfOk result (λ r. r.1.gate ≡ r.0) }
        ensures view { IfOk result (λ r. r.1.view ≡ opened V.shown value seats) }
        ensures err { IfErr result (λ r. r.0 ≡ value) }
    {
        let count = value.count();
        let start = (Snapshot::of(&value), seats);
        let mut slots = Vec::new(alloc);
        if let Err(failed) = slots.push(Some(value)) {
            let AllocFailed { value: slot } = failed;
            slots.destroy_empty();
            return Err((slot.unwrap(), AllocError));
        }
        match Table::new(alloc, &[count, 0, 0], slots, &start) {
            Ok((table, place)) => {
                let gate = Gate {
                    table,
                    changes: AtomicU64::new(0),
                };
                Ok((gate, SeatOf::of(place, count)))
            }
            Err(refused) => {
                let Refused { mut slots } = refused;
                let slot = slots.pop().unwrap();
                slots.destroy_empty();
                Err((slot.unwrap(), AllocError))
            }
        }
    }

    /// Cuts one part off, as a seat of its own that has seen as much.
    pub fn split_seat(&self, seat: &mut Seat<V>) -> Seat<V>
        requires gate { seat.old.gate ≡ self.now }
        requires out { IsOutside seat.old.view }
        requires parts { 2 ≤ seat.old.view.parts }
        ensures old { (seat.new.gate ≡ seat.old.gate) × (seat.new.view ≡ fewer seat.old.view) }
        ensures new { (result.gate ≡ seat.old.gate) × (result.view ≡ fresh seat.old.view) }
    {
        let seen = seat.seen;
        let place = self.table.shared.split_seat::<Halve>(&mut seat.place);
        SeatOf::of(place, seen)
    }

    /// Makes two seats one, with what both added and owe, and the longer of what they had seen.
    pub fn join_seat(&self, seat: &mut Seat<V>, other: Seat<V>)
        requires gate { (seat.old.gate ≡ self.now) × (other.gate ≡ self.now) }
        requires out { IsOutside seat.old.view × IsOutside other.view }
        ensures { (seat.new.gate ≡ seat.old.gate) × (seat.new.view ≡ merged seat.old.view other.view) }
    {
        let SeatOf { place, seen } = other;
        self.table.shared.join_seat::<Glue>(&mut seat.place, place);
        if seat.seen < seen {
            seat.seen = seen;
        }
    }

    /// Ends the gate, and gives the value: its list is what the gate was made of and, after it, what the seat added.
    pub fn close(self, seat: Seat<V>) -> V
        requires gate { seat.gate ≡ self }
        requires out { IsOutside seat.view }
        requires whole { seat.view.parts ≡ seat.view.seats }
        ensures { Ends V.shown seat.view result }
    {
        let Gate { table, changes } = self;
        drop(changes);
        let SeatOf { place, seen: _ } = seat;
        let mut closed = table.close_with(place);
        let value = closed.take(0).unwrap();
        closed.free();
        value
    }

    /// The word of changes, which only serves to wait.
    pub fn changes(&self) -> u64 {
        self.changes.load(SeqCst)
    }

    /// Waits while the word of changes is `seen`. It may return for no reason.
    pub fn park<R: Wait>(&self, rt: &R, seat: &mut Seat<V>, seen: u64)
        ensures { seat.new ≡ seat.old }
    {
        if self.changes() == seen {
            self.changes.park(rt, (seen & 0xffff_ffff) as u32);
        }
    }

    /// Raises the word of changes, and wakes.
    pub fn wake_all(&self) {
        self.changes.fetch_add(1, SeqCst);
        self.changes.wake_all();
    }

    // Draws a ticket.
    fn draw(&self, seat: &mut Seat<V>) -> u64
        requires gate { seat.old.gate ≡ self.now }
        requires out { IsOutside seat.old.view }
        ensures gate { seat.new.gate ≡ seat.old.gate }
        ensures ticket { (t : ℕ) × (result ≡ t % 2 ^ 64) × (seat.new.view ≡ positioned seat.old.view (Waits t)) }
    {
        self.table.shared.fetch_add::<Draw>(&mut seat.place, 1, 1)
    }

    // Takes the value, where it is the ticket's turn.
    fn look(&self, seat: &mut Seat<V>, ticket: u64) -> Result<V, u64>
        requires gate { seat.old.gate ≡ self.now }
        requires waits { (t : ℕ) × (ticket ≡ t % 2 ^ 64) × (seat.old.view.position ≡ Waits t) }
        ensures gate { seat.new.gate ≡ seat.old.gate }
        ensures none { IfErr result (λ _. seat.new.view ≡ seat.old.view) }
        ensures some { IfOk result (λ x. Found V.shown seat.old.view x × ((t : ℕ) × (seat.new.view ≡ entered V.shown seat.old.view t x))) }
    {
        let shared = &self.table.shared;
        let found = shared.load::<Look>(&mut seat.place, 2);
        if found == ticket {
            let value = shared.exchange(&mut seat.place, 0, None).unwrap();
            seat.seen = value.count();
            return Ok(value);
        }
        Err(found)
    }

    /// Waits for its turn, and takes the value, which begins with all that the seat had seen.
    pub fn enter<R: Wait>(&self, rt: &R, seat: &mut Seat<V>) -> Held<V>
        requires gate { seat.old.gate ≡ self.now }
        requires out { IsOutside seat.old.view }
        ensures same { result.entered.value ≡ result.value }
        ensures seat { (seat.new.gate ≡ seat.old.gate) × ((t : ℕ) × (seat.new.view ≡ entered V.shown seat.old.view t result.value)) }
        ensures found { Found V.shown seat.old.view result.value }
        ensures inside { IsInside (V.shown result.entered.value).items (V.shown result.entered.value).outs seat.new.view }
    {
        let ticket = self.draw(seat);
        for _ in rt.forever() {
            match self.look(seat, ticket) {
                Ok(value) => {
                    return Held {
                        entered: Snapshot::of(&value),
                        value,
                    };
                }
                Err(found) => self.table.shared.park(rt, 2, (found & 0xffff_ffff) as u32),
            }
        }
        unreachable!()
    }

    /// Gives the value back. What it gained since `enter` is the seat's.
    pub fn leave(&self, seat: &mut Seat<V>, held: Held<V>)
        requires gate { seat.old.gate ≡ self.now }
        requires inside { IsInside (V.shown held.entered.value).items (V.shown held.entered.value).outs seat.old.view }
        requires may { May V.shown seat.old.view held.value }
        ensures seat { (seat.new.gate ≡ seat.old.gate) × (seat.new.view ≡ left V.shown seat.old.view held.value) }
    {
        let Held { value, entered: _ } = held;
        let seen = value.count();
        let shared = &self.table.shared;
        let nothing = shared.exchange(&mut seat.place, 0, Some(value));
        let None = nothing else { unreachable!() };
        shared.store::<Raise>(&mut seat.place, 0, seen);
        seat.seen = seen;
        shared.fetch_add::<Advance>(&mut seat.place, 2, 1);
        shared.wake_all(2);
    }
}
