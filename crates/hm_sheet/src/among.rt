// Sheets by kind: among checked ones, and among those of boxed handlers.
ghost use Rattle.std.specs.Prelude.{◌≡◌, ◌<◌, ◌-◌, ◌^◌, min, map, length, slice_get, option_copied, IsSome, IfSome, IfNone, IfOk, None, Some, is_some};
ghost use Rattle.std.specs.List.{flat_map};
ghost use Rattle.hm_model.specs.Sheets.{sheet_for as first_of};
ghost use Rattle.hm_model.specs.Evaluation.{CanRun, answer_of};
ghost use Rattle.hm_sheet.specs.Words.{count_of as counted, place_for};

use crate::handler::Handler;
use crate::plain::plain_step;
use crate::valid::Valid;
use hm_data::{Sheet, StepIn, StepOut};
use std::alloc::{AllocError, Global};

/// The first sheet of a kind.
pub fn sheet_for(sheets: &[Valid], kind: u8) -> Option<&Valid>
    ensures { option_copied result ≡ first_of sheets.now kind }
{
    for valid in sheets {
        if valid.sheet().kind == kind {
            return Some(valid);
        }
    }
    None
}

/// The first sheet of a kind in a list.
pub fn listed(sheets: &[Sheet], kind: u8) -> Option<&Sheet>
    ensures { option_copied result ≡ first_of sheets.now kind }
{
    for sheet in sheets {
        if sheet.kind == kind {
            return Some(sheet);
        }
    }
    None
}

// How many sheets have the kind.
fn count_in(sheets: &[Valid], kind: u8) -> u64
    ensures { result ≡ counted sheets.now kind }
{
    let mut count = 0;
    for valid in sheets {
        if valid.sheet().kind == kind {
            count += 1;
        }
    }
    count
}

fn count_at(handler: &Box<dyn Handler>, kind: u8) -> u64
    ensures { result ≡ counted (sheets_are handler.now) kind }
{
    count_in(handler.sheets(), kind)
}

/// How many sheets of all handlers have the kind, up to the greatest number.
pub(crate) fn count_of(handlers: &[Box<dyn Handler>], kind: u8) -> u64
    ensures { result ≡ min (counted (flat_map (λ h. sheets_are h) handlers.now) kind) (2 ^ 64 - 1) }
{
    let mut count: u64 = 0;
    for handler in handlers {
        count = count.saturating_add(count_at(handler, kind));
    }
    count
}

fn has_sheet(handler: &Box<dyn Handler>, kind: u8) -> bool
    ensures { result ≡ is_some (first_of (sheets_are handler.now) kind) }
{
    sheet_for(handler.sheets(), kind).is_some()
}

/// The place of the first handler that has a sheet of the kind.
pub(crate) fn place_of(handlers: &[Box<dyn Handler>], kind: u8) -> Option<usize>
    ensures none { IfNone result (first_of (flat_map (λ h. sheets_are h) handlers.now) kind ≡ None) }
    ensures within { IfSome result (λ place. place < length handlers.now) }
    ensures served { IfSome result (λ place. IfSome (slice_get handlers.now place)
        (λ h. first_of (sheets_are h) kind ≡ first_of (flat_map (λ h. sheets_are h) handlers.now) kind)) }
    ensures first { IfSome result (λ place. place ≡ place_for kind (map (λ h. sheets_are h) handlers.now)) }
    ensures there { IfSome result (λ place. IsSome (first_of (flat_map (λ h. sheets_are h) handlers.now) kind)) }
{
    for (place, handler) in handlers.iter().enumerate() {
        if has_sheet(handler, kind) {
            return Some(place);
        }
    }
    None
}

/// What the sheet of the input's kind says, as `plain_step` computes it.
pub fn answer(alloc: Global, sheets: &[Valid], at: &StepIn) -> Result<StepOut, AllocError>
    requires { CanRun sheets.now at.now }
    ensures { IfOk result (λ out. answer_of sheets.now at.now ≡ Some out) }
{
    match sheet_for(sheets, at.kind) {
        Some(valid) => plain_step(alloc, valid, at),
        None => unreachable!(),
    }
}
