// The acts of calls.
ghost use Rattle.std.specs.Prelude.{◌≡◌, IfOk};
ghost use Rattle.hm_model.specs.CallActs.{call_assign as asks_to_open, call_close as asks_to_close, settle_call as settled, call_fence as asks_to_fence, call_layout as asks_to_lay_out, layout_told as laid, settle_layout as settled_layout, call_sweep as asks_to_sweep, ends_as_told as told_end};

use crate::outs::{calls, ends_with, fails, goes_on};
use hm_data::{Args, Cause, StepOut, Told, Verb};
use hm_names::Copied;
use hm_views::views::{layout_of, region_of, server_of};
use std::alloc::{AllocError, Global};

/// Calls the server to open the region; a server that is fenced is gone.
pub(crate) fn call_assign(
    alloc: Global,
    next: u8,
    args: &Args,
    fenced: bool,
) -> Result<StepOut, AllocError>
    ensures { IfOk result (λ out. out ≡ asks_to_open next args.now fenced) }
{
    if fenced {
        return Ok(ends_with(alloc, Told::Gone));
    }
    let Some(region) = region_of(args) else {
        return Ok(goes_on(alloc, next));
    };
    let verb = Verb::AssignRegion(region.copy(alloc)?);
    Ok(calls(alloc, next, verb))
}

/// Calls the server to close the region; a server that is fenced is gone.
pub(crate) fn call_close(
    alloc: Global,
    next: u8,
    args: &Args,
    fenced: bool,
) -> Result<StepOut, AllocError>
    ensures { IfOk result (λ out. out ≡ asks_to_close next args.now fenced) }
{
    if fenced {
        return Ok(ends_with(alloc, Told::Gone));
    }
    let Some(region) = region_of(args) else {
        return Ok(goes_on(alloc, next));
    };
    let verb = Verb::CloseRegion(region.copy(alloc)?);
    Ok(calls(alloc, next, verb))
}

// The end, with the report that was made, if there is one.
fn ends_as_told(alloc: Global, report: Option<Told>) -> StepOut
    ensures { result ≡ told_end report }
{
    match report {
        None => ends_with(alloc, Told::Nothing),
        Some(told) => ends_with(alloc, told),
    }
}

/// Ends with the report; a server that is fenced is gone.
pub(crate) fn settle_call(alloc: Global, fenced: bool, report: Option<Told>) -> StepOut
    ensures { result ≡ settled fenced report }
{
    if fenced {
        ends_with(alloc, Told::Gone)
    } else {
        ends_as_told(alloc, report)
    }
}

/// Calls the storage to fence the server.
pub(crate) fn call_fence(alloc: Global, next: u8, args: &Args) -> Result<StepOut, AllocError>
    ensures { IfOk result (λ out. out ≡ asks_to_fence next args.now) }
{
    let Some(server) = server_of(args) else {
        return Ok(goes_on(alloc, next));
    };
    let verb = Verb::Fence(server.copy(alloc)?);
    Ok(calls(alloc, next, verb))
}

/// Calls the storage to lay out the files of the root.
pub(crate) fn call_layout(alloc: Global, next: u8, args: &Args) -> StepOut
    ensures { result ≡ asks_to_lay_out next args.now }
{
    match layout_of(args) {
        None => goes_on(alloc, next),
        Some(root) => calls(alloc, next, Verb::Layout(root)),
    }
}

// What a report of the layout comes to.
fn layout_told(alloc: Global, told: Told) -> StepOut
    ensures { result ≡ laid told }
{
    match told {
        Told::Refused => fails(alloc, Cause::LayoutRefused),
        told => ends_with(alloc, told),
    }
}

/// Ends with the report, and fails where the layout was refused.
pub(crate) fn settle_layout(alloc: Global, report: Option<Told>) -> StepOut
    ensures { result ≡ settled_layout report }
{
    match report {
        None => ends_with(alloc, Told::Nothing),
        Some(told) => layout_told(alloc, told),
    }
}

/// Calls the storage to sweep away the files of the root.
pub(crate) fn call_sweep(alloc: Global, next: u8, args: &Args) -> StepOut
    ensures { result ≡ asks_to_sweep next args.now }
{
    match layout_of(args) {
        None => goes_on(alloc, next),
        Some(root) => calls(alloc, next, Verb::Sweep(root)),
    }
}
