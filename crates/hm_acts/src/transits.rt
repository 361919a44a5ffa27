// The acts of transits.
ghost use Rattle.std.specs.Prelude.{◌≡◌, [], ◌∷◌, IfOk, None, Some};
ghost use Rattle.hm_data.specs.declared.answer.Answer.TheVariants as answer_is;
ghost use Rattle.hm_data.specs.declared.args.Args.TheVariants as args_are;
ghost use Rattle.hm_data.specs.declared.args.Child.TheVariants as child_is;
ghost use Rattle.hm_data.specs.declared.call.Told.TheVariants as told_is;
ghost use Rattle.hm_data.specs.declared.place.RegionState.TheVariants as state_is;
ghost use Rattle.hm_model.specs.Outs.{given, places as placing};
ghost use Rattle.hm_model.specs.TransitActs.{is_open as opened, is_state as in_state, lost_if as lost, candidate as candidate_is, get_assign_candidate as get_candidate, open_there as opens, confirm_opened as confirms, behind_close as behind, close_at as closes_at, close_or_go as closes_or_goes, close_there as closes, confirm_closed as confirms_closed, check_move as checks};

use crate::outs::{checked, ends_with, goes_on, one_child, places, spawns_one};
use hm_data::{
    Answer, Args, CatKey, CatRow, Child, Goal, Place, RegionState, StepIn, StepOut, Told,
};
use hm_names::{Copied, List, Pid, RegionName, ServerName};
use hm_views::checks::region_ready;
use hm_views::lookup::{region_row, table_row};
use hm_views::places::{
    closed_or_lost, is_open, is_placed, is_state, is_told, lost_if, may_open_in, nowhere,
    told_place,
};
use hm_views::views::{goal_in, region_of};
use std::alloc::{AllocError, Global};

// Where the region may be opened and isn't open, it is placed at the server that was picked.
fn candidate(
    alloc: Global,
    next: u8,
    may_open: bool,
    place: &Place,
    at: &StepIn,
) -> Result<StepOut, AllocError>
    ensures { IfOk result (λ out. out ≡ candidate_is next may_open place.now at.now.fenced at.now.pick) }
{
    if !may_open {
        let lost = lost_if(is_placed(place) && at.fenced);
        return Ok(places(alloc, Answer::Done(Told::Nothing), lost));
    }
    if is_open(place, at.fenced) {
        return Ok(ends_with(alloc, Told::Nothing));
    }
    let place = Place {
        state: RegionState::Opening,
        server: at.pick.copy(alloc)?,
    };
    Ok(places(alloc, Answer::More(next), Some(place)))
}

/// Places the region at the server that was picked.
pub(crate) fn get_assign_candidate(
    alloc: Global,
    next: u8,
    at: &StepIn,
) -> Result<StepOut, AllocError>
    ensures { IfOk result
        (λ out. out ≡ get_candidate next at.now.args at.now.rows at.now.place at.now.fenced at.now.pick) }
{
    let Some(region) = region_of(&at.args) else {
        return Ok(goes_on(alloc, next));
    };
    let may_open = may_open_in(at.rows.as_slice(), region);
    let place = told_place(alloc, &at.place)?;
    candidate(alloc, next, may_open, &place, at)
}

/// Has the region opened at its place's server.
pub(crate) fn open_there(
    alloc: Global,
    next: u8,
    args: &Args,
    place: &Option<Place>,
) -> Result<StepOut, AllocError>
    ensures { IfOk result (λ out. out ≡ opens next args.now place.now) }
{
    let Some(region) = region_of(args) else {
        return Ok(goes_on(alloc, next));
    };
    let Some(server) = told_place(alloc, place)?.server else {
        return Ok(goes_on(alloc, next));
    };
    let region = region.copy(alloc)?;
    spawns_one(alloc, next, Args::AssignCall { region, server })
}

/// Takes in whether the region was opened.
pub(crate) fn confirm_opened(
    alloc: Global,
    next: u8,
    ends: &[(Pid, Told)],
    place: &Option<Place>,
) -> Result<StepOut, AllocError>
    ensures { IfOk result (λ out. out ≡ confirms next ends.now place.now) }
{
    let server = told_place(alloc, place)?.server;
    if is_told(Told::Opened, ends) {
        let place = Place {
            state: RegionState::Opened,
            server,
        };
        Ok(places(alloc, Answer::Done(Told::Opened), Some(place)))
    } else {
        let place = Place {
            state: RegionState::FailedOpen,
            server,
        };
        Ok(places(alloc, Answer::More(next), Some(place)))
    }
}

// After a close: the end for a region that is to be unassigned, and for others the way to another server.
fn behind_close(goal: Goal, told: Told) -> Answer
    ensures { result ≡ behind goal told }
{
    match goal {
        Goal::Unassign => Answer::Done(told),
        _ => Answer::More(0),
    }
}

// The procedure that closes a region at a server, as the one child.
fn one_close(
    alloc: Global,
    region: RegionName,
    server: &ServerName,
) -> Result<Vec<Child>, AllocError>
    ensures { IfOk result (λ v. v.items ≡ child_is.One (args_are.CloseCall region server.now) ∷ []) }
{
    let server = server.copy(alloc)?;
    one_child(alloc, Args::CloseCall { region, server })
}

// A region that is closing, for whose close is waited.
fn closing(alloc: Global, next: u8, children: Vec<Child>, server: ServerName) -> StepOut
    ensures { result ≡ record {
      answer = answer_is.Wait next;
      edits = [];
      children = children.items;
      call = None;
      place = Some (record { state = state_is.Closing; server = Some server });
      followers = [];
    } }
{
    StepOut {
        answer: Answer::Wait(next),
        edits: List::of(Vec::new(alloc)),
        children: List::of(children),
        call: None,
        place: Some(Place {
            state: RegionState::Closing,
            server: Some(server),
        }),
        followers: List::of(Vec::new(alloc)),
    }
}

fn close_at(
    alloc: Global,
    next: u8,
    region: &RegionName,
    server: ServerName,
) -> Result<StepOut, AllocError>
    ensures { IfOk result (λ out. out ≡ closes_at next region.now server) }
{
    let region = region.copy(alloc)?;
    let children = one_close(alloc, region, &server)?;
    Ok(closing(alloc, next, children, server))
}

// A region is closed at the server where it is, if there is one.
fn close_where(
    alloc: Global,
    next: u8,
    region: &RegionName,
    server: Option<ServerName>,
) -> Result<StepOut, AllocError>
    ensures { IfOk result (λ out. out ≡ given server next (closes_at next region.now)) }
{
    match server {
        None => Ok(goes_on(alloc, next)),
        Some(server) => close_at(alloc, next, region, server),
    }
}

// What there is to do with a region that isn't open: where its server is lost, so is it.
fn go_behind(alloc: Global, goal: Goal, place: &Place) -> StepOut
    ensures { result ≡ placing (behind goal told_is.Nothing) (lost (in_state state_is.Opened place.now)) }
{
    let lost = lost_if(is_state(RegionState::Opened, place));
    places(alloc, behind_close(goal, Told::Nothing), lost)
}

// A region is closed where it is open; where its server is lost, so is it.
fn close_or_go(
    alloc: Global,
    next: u8,
    goal: Goal,
    region: &RegionName,
    place: Place,
    fenced: bool,
) -> Result<StepOut, AllocError>
    ensures { IfOk result
        (λ out. out ≡ closes_or_goes next goal region.now place (opened place fenced)) }
{
    if is_open(&place, fenced) {
        let Place { state: _, server } = place;
        close_where(alloc, next, region, server)
    } else {
        let out = go_behind(alloc, goal, &place);
        drop(place);
        Ok(out)
    }
}

/// Has the region closed where it is open.
pub(crate) fn close_there(
    alloc: Global,
    next: u8,
    args: &Args,
    place: &Option<Place>,
    fenced: bool,
) -> Result<StepOut, AllocError>
    ensures { IfOk result (λ out. out ≡ closes next args.now place.now fenced) }
{
    let Some(region) = region_of(args) else {
        return Ok(goes_on(alloc, next));
    };
    let place = told_place(alloc, place)?;
    close_or_go(alloc, next, goal_in(args), region, place, fenced)
}

/// Takes in whether the region was closed.
pub(crate) fn confirm_closed(alloc: Global, args: &Args, ends: &[(Pid, Told)]) -> StepOut
    ensures { result ≡ confirms_closed args.now ends.now }
{
    let state = closed_or_lost(is_told(Told::Closed, ends));
    let answer = behind_close(goal_in(args), Told::Closed);
    places(alloc, answer, Some(nowhere(state)))
}

/// The region can be moved.
pub(crate) fn check_move(alloc: Global, next: u8, args: &Args, rows: &[(CatKey, CatRow)]) -> StepOut
    ensures { result ≡ checks next args.now rows.now }
{
    let Some(region) = region_of(args) else {
        return goes_on(alloc, next);
    };
    let cause = region_ready(table_row(rows, &region.table), region_row(rows, region));
    checked(alloc, next, cause)
}
