//! A gate, or what stands in for one.
ghost use Rattle.std.specs.Prelude.{◌≡◌, ℕ};
ghost use Rattle.atomic_table.specs.Seated.{TableId};
ghost use Rattle.hm_gate.specs.Gate.{IsOutside};
ghost use Rattle.hm_gate.specs.Plays.{IsInside, entered, left, Found, May};

use hm_gate::{Gate, Held, Kept, Seat};
use std::sync::Wait;

/// What a worker goes in by: each call does what the gate's call of that name does.
pub trait Door<H: Kept> {
    // Which gate it is.
    ghost table: { Self → TableId };

    /// Waits for the seat's turn, and takes the value.
    fn enter<R: Wait>(&self, rt: &R, seat: &mut Seat<H>) -> Held<H>
        requires gate { seat.old.gate ≡ table self.now }
        requires out { IsOutside seat.old.view }
        ensures same { result.entered.value ≡ result.value }
        ensures seat { (seat.new.gate ≡ seat.old.gate) × ((t : ℕ) × (seat.new.view ≡ entered H.shown seat.old.view t result.value)) }
        ensures found { Found H.shown seat.old.view result.value }
        ensures inside { IsInside (H.shown result.entered.value).items (H.shown result.entered.value).outs seat.new.view };

    /// Gives the value back. What it gained since `enter` is the seat's.
    fn leave(&self, seat: &mut Seat<H>, held: Held<H>)
        requires gate { seat.old.gate ≡ table self.now }
        requires inside { IsInside (H.shown held.entered.value).items (H.shown held.entered.value).outs seat.old.view }
        requires may { May H.shown seat.old.view held.value }
        ensures seat { (seat.new.gate ≡ seat.old.gate) × (seat.new.view ≡ left H.shown seat.old.view held.value) };

    /// Waits while the word of changes is `seen`. It may return for no reason.
    fn park<R: Wait>(&self, rt: &R, seat: &mut Seat<H>, seen: u64)
        ensures { seat.new ≡ seat.old };

    /// The word of changes, which only serves to wait.
    fn changes(&self) -> u64;

    /// Raises the word of changes, and wakes.
    fn wake_all(&self);
}

impl<H: Kept> Door<H> for Gate<H> {
    ghost table = { λ gate. gate };

    fn enter<R: Wait>(&self, rt: &R, seat: &mut Seat<H>) -> Held<H> {
        Gate::enter(self, rt, seat)
    }

    fn leave(&self, seat: &mut Seat<H>, held: Held<H>)
        requires gate { seat.old.gate ≡ self.now }
        requires inside { IsInside (H.shown held.entered.value).items (H.shown held.entered.value).outs seat.old.view }
        requires may { May H.shown seat.old.view held.value }
        ensures seat { (seat.new.gate ≡ seat.old.gate) × (seat.new.view ≡ left H.shown seat.old.view held.value) }
    {
        Gate::leave(self, seat, held);
    }

    fn park<R: Wait>(&self, rt: &R, seat: &mut Seat<H>, seen: u64) {
        Gate::park(self, rt, seat, seen);
    }

    fn changes(&self) -> u64 {
        Gate::changes(self)
    }

    fn wake_all(&self) {
        Gate::wake_all(self);
    }
}
