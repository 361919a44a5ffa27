//! What each step on the table tells.
ghost use Rattle.hm_gate.specs.Plays.{drew_one, looked, raised, went};
ghost use Rattle.hm_gate.specs.Seats.{fewer, fresh, merged, spent};

use crate::kept::Kept;
use crate::view::View;
use atomic_table::{Join, Play, Split};

pub(crate) struct Draw;

impl<V: Kept> Play<Option<V>, View<V::Item, V::Terms>> for Draw {
    ghost then = { drew_one };
}

pub(crate) struct Look;

impl<V: Kept> Play<Option<V>, View<V::Item, V::Terms>> for Look {
    ghost then = { looked V.shown };
}

pub(crate) struct Raise;

impl<V: Kept> Play<Option<V>, View<V::Item, V::Terms>> for Raise {
    ghost then = { raised V.shown };
}

pub(crate) struct Advance;

impl<V: Kept> Play<Option<V>, View<V::Item, V::Terms>> for Advance {
    ghost then = { went };
}

pub(crate) struct Halve;

impl<I, T> Split<View<I, T>> for Halve {
    ghost left = { fewer };

    ghost right = { fresh };
}

pub(crate) struct Glue;

impl<I, T> Join<View<I, T>> for Glue {
    ghost both = { merged };

    ghost spent = { spent };
}
