//! The rules, by number.
ghost use Rattle.std.specs.Prelude.{◌≡◌, OnOk, IfErr, IsTrue, false};
ghost use Rattle.hm_model.specs.Base.{IsBegun};
ghost use Rattle.hm_model.specs.Laws.{is_part};
ghost use Rattle.hm_model.specs.Rules.{Allowed};
ghost use Rattle.hm_judge.specs.Judge.{HoldsBut, IsRefusedBy, IsUnrefused, IsWhy};

use crate::aborts::{can_abort, is_before_point};
use crate::adopts::can_adopt;
use crate::evaluation::evaluated;
use crate::picks::picks_right;
use crate::reports::{fits_call, is_outstanding};
use crate::servers::{has_newer, has_older_live, is_live};
use crate::steps::{is_free, may_step};
use crate::submissions::{is_fresh, may_submit, stays_within};
use crate::undos::is_latest;
use crate::why::NotAllowed;
use hm_data::Entry;
use hm_records::Records;
use std::alloc::Global;

// Refuses by the number of a rule, unless it holds.
fn rule(number: u8, holds: bool) -> Result<(), u8>
    ensures ok { OnOk result (IsTrue holds) }
    ensures broken { IfErr result (λ broken. (broken ≡ number) × (holds ≡ false)) }
{
    if holds { Ok(()) } else { Err(number) }
}

// Judges an entry behind a journal that has begun by all its rules but its evaluation, from the lowest on.
pub(crate) fn judged(records: &Records, entry: &Entry) -> Result<(), u8>
    requires begun { IsBegun records.now.past }
    ensures ok { OnOk result (HoldsBut records.now.past entry.now) }
    ensures other { OnOk result (is_part entry.now ≡ false) }
    ensures broken { IfErr result (IsRefusedBy records.now.past entry.now) }
{
    match entry {
        Entry::Start { sheets: _ } => Err(1),
        Entry::Submit { nonce, request } => {
            rule(2, may_submit(request))?;
            rule(3, is_fresh(records, nonce))?;
            rule(4, stays_within(records, request))
        }
        Entry::Step { pid, pick, out: _ } => {
            rule(5, may_step(records, *pid))?;
            rule(6, is_free(records, *pid))?;
            rule(7, picks_right(records, *pid, pick))
        }
        Entry::Undo { pid, row, out: _ } => rule(9, is_latest(records, *pid, *row)),
        Entry::Report { call, told } => {
            rule(11, is_outstanding(records, *call))?;
            rule(12, fits_call(records, *call, *told))
        }
        Entry::Up { server } => {
            rule(13, !has_newer(records, server))?;
            rule(14, !has_older_live(records, server))
        }
        Entry::Down { server } => rule(15, is_live(records, server)),
        Entry::Abort { pid } => {
            rule(16, can_abort(records, *pid))?;
            rule(17, is_before_point(records, *pid))
        }
        Entry::Base { part: _ } => Err(18),
        Entry::Adopt { sheets } => rule(19, can_adopt(records, sheets.as_slice())),
    }
}

/// Whether an entry may follow a journal that has begun; else the rule that refuses it, or that memory ran out before that was
/// known. All rules that take no memory come before the evaluation of a step or an undo, which its sheet answers once.
pub fn allowed(alloc: Global, records: &Records, entry: &Entry) -> Result<(), NotAllowed>
    requires begun { IsBegun records.now.past }
    ensures ok { OnOk result (Allowed records.now.past entry.now) }
    ensures other { OnOk result (is_part entry.now ≡ false) }
    ensures why { IfErr result (IsWhy records.now.past entry.now) }
{
    match judged(records, entry) {
        Ok(()) => evaluated(alloc, records, entry),
        Err(number) => Err(NotAllowed::Rule(number)),
    }
}

/// Whether all rules hold of an entry behind a journal that has begun that are judged without memory, that is all but the
/// evaluation of a step or an undo; else the rule that refuses the entry.
pub fn unrefused(records: &Records, entry: &Entry) -> Result<(), u8>
    requires begun { IsBegun records.now.past }
    ensures holds { OnOk result (HoldsBut records.now.past entry.now) }
    ensures ok { OnOk result (IsUnrefused records.now.past entry.now) }
    ensures other { OnOk result (is_part entry.now ≡ false) }
    ensures rule { IfErr result (IsRefusedBy records.now.past entry.now) }
{
    judged(records, entry)
}
