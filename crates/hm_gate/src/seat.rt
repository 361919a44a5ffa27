//! What a thread enters the gate with.
ghost use Rattle.std.specs.Prelude.{◌≡◌, length};
ghost use Rattle.hm_gate.specs.Chair.{IsFaithful};

use crate::kept::Kept;
use crate::view::View;
use atomic_table::Seat as Place;
use std::marker::Model;
use std::snapshot::Snapshot;

/// A seat of a gate that keeps a `V`. Contracts see of which gate it is, and what it knows. It names no bound, so that
/// a trait's methods may take it.
#[derive(Drop)]
pub struct SeatOf<V, I, T> {
    pub(crate) place: Place<Option<V>, View<I, T>>,
    pub(crate) seen: u64,
}

impl<V, I, T> Model for SeatOf<V, I, T> {
    ghost use Rattle.hm_gate.specs.Chair.{Chair, IsFaithful};

    ghost Value = { Chair I T };

    ghost view = { λ s. record { gate = s.place.table_id; view = s.place.me.0 } };

    ghost invariant = { λ s. IsFaithful s.seen s.place.me };
}

/// The value, while a seat is inside, and as it was entered.
#[derive(Drop)]
pub struct Held<V> {
    pub value: V,
    pub entered: Snapshot<V>,
}

/// A seat of a gate that keeps a `V`.
pub type Seat<V> = SeatOf<V, <V as Kept>::Item, <V as Kept>::Terms>;

impl<V, I, T> SeatOf<V, I, T> {
    pub(crate) fn of(place: Place<Option<V>, View<I, T>>, seen: u64) -> SeatOf<V, I, T>
        requires { IsFaithful seen place.me }
        ensures gate { result.gate ≡ place.table_id }
        ensures view { result.view ≡ place.me.0 }
    {
        SeatOf { place, seen }
    }

    /// How many items it had seen.
    pub fn seen(&self) -> u64
        ensures { result ≡ length self.now.view.front }
    {
        self.seen
    }
}
