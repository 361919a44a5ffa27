use crate::kept::Kept;
use crate::view::View;
use atomic_table::TableRule;
use std::marker::PhantomData;
use std::snapshot::Snapshot;

pub struct Turns<V> {
    of: PhantomData<V>,
}

impl<V: Kept> TableRule<Option<V>, View<V::Item, V::Terms>, (Snapshot<V>, u32)> for Turns<V> {
    ghost use Rattle.hm_gate.specs.Gate.{Ruled, opened};

    ghost holds = { λ key. Ruled V.shown key.0.value key.1 };

    ghost first = { λ key. opened V.shown key.0.value key.1 };
}
