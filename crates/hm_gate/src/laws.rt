//! What the numbers that a seat owes keep, and what its items weigh: laws, as functions that do nothing.
ghost use Rattle.hm_gate.specs.Laws.{OwingAddsUp, OwesNothing};
ghost use Rattle.hm_gate.specs.Weights.{MineWeighs};

use crate::kept::Kept;

/// What a seat owes once it left, with what it noted as it went in, is what it owed with the outs that it left.
pub fn owing_adds_up()
    ensures { OwingAddsUp }
{}

/// A seat that owes no number owes nothing.
pub fn owes_nothing()
    ensures { OwesNothing }
{}

/// However items are weighed, what the seat that closes the gate added weighs what the list gained while it was open.
pub fn mine_weighs<V: Kept>()
    ensures { MineWeighs V.shown }
{}
