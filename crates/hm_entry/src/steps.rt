ghost use Rattle.hm_data.specs.declared.args.Args.TheVariants as args_are;
ghost use Rattle.hm_data.specs.declared.args.Child.TheVariants as child_is;
ghost use Rattle.hm_entry.specs.Reading.{Gives, of_one, of_two, of_three, list_at, option_at, u64_at, key_at, table_at, region_at, server_at, goal_at};
ghost use Rattle.hm_entry.specs.Reading.{args_of, child_of, child_at, verb_of, verb_at, place_at, undone_of, coded, answer_of, answer_at, edit_at, out_at};

use crate::codes::{cause, goal, region_state, told};
use crate::fault::EntryFault;
use crate::fields::{byte, u64};
use crate::get::{Get, list, option};
use crate::names::{pid, region, server, table};
use hm_data::{Answer, Args, Child, Edit, Place, StepOut, Verb};
use hm_names::List;
use hm_wire::Reader;
use std::alloc::Global;

// The fields of regions to add.
fn added(alloc: Global, r: &mut Reader) -> Result<Args, EntryFault>
    ensures { Gives result (of_three args_are.AddRegions table_at u64_at (list_at key_at) r.old) r.new }
{
    Ok(Args::AddRegions {
        table: table(alloc, r)?,
        first: u64(r)?,
        bounds: list(alloc, r)?,
    })
}

// The fields of regions to drop.
fn dropped(alloc: Global, r: &mut Reader) -> Result<Args, EntryFault>
    ensures { Gives result (of_two args_are.DropRegions table_at (list_at u64_at) r.old) r.new }
{
    Ok(Args::DropRegions {
        table: table(alloc, r)?,
        ids: list(alloc, r)?,
    })
}

// The fields of a region to open at a server.
fn assigned(alloc: Global, r: &mut Reader) -> Result<Args, EntryFault>
    ensures { Gives result (of_two args_are.AssignCall region_at server_at r.old) r.new }
{
    Ok(Args::AssignCall {
        region: region(alloc, r)?,
        server: server(alloc, r)?,
    })
}

// The fields of a region to close at a server.
fn closed(alloc: Global, r: &mut Reader) -> Result<Args, EntryFault>
    ensures { Gives result (of_two args_are.CloseCall region_at server_at r.old) r.new }
{
    Ok(Args::CloseCall {
        region: region(alloc, r)?,
        server: server(alloc, r)?,
    })
}

// What a procedure of this kind works on. The kind stood at the place.
#[tactic(auto, unfolding(crate::specs::Reading::args_of))]
pub(crate) fn args_behind(
    alloc: Global,
    place: u64,
    kind: u8,
    r: &mut Reader,
) -> Result<Args, EntryFault>
    ensures { Gives result (args_of place kind r.old) r.new }
{
    match kind {
        11 => Ok(Args::Crash {
            server: server(alloc, r)?,
        }),
        20 => added(alloc, r),
        21 => dropped(alloc, r),
        23 => assigned(alloc, r),
        24 => closed(alloc, r),
        25 => Ok(Args::FenceCall {
            server: server(alloc, r)?,
        }),
        26 => Ok(Args::LayoutCall { root: pid(r)? }),
        27 => Ok(Args::SweepLayout { root: pid(r)? }),
        _ => Err(EntryFault::Field(place)),
    }
}

// The fields of transits of a table's regions.
fn transits(alloc: Global, r: &mut Reader) -> Result<Child, EntryFault>
    ensures { Gives result (of_three child_is.Transits table_at (list_at u64_at) goal_at r.old) r.new }
{
    Ok(Child::Transits {
        table: table(alloc, r)?,
        ids: list(alloc, r)?,
        goal: goal(r)?,
    })
}

// Transits, or a procedure of this kind, which stood at the place.
#[tactic(auto, unfolding(crate::specs::Reading::child_of))]
fn child_behind(alloc: Global, place: u64, kind: u8, r: &mut Reader) -> Result<Child, EntryFault>
    ensures { Gives result (child_of place kind r.old) r.new }
{
    if kind == 0 {
        return transits(alloc, r);
    }
    Ok(Child::One(args_behind(alloc, place, kind, r)?))
}

impl Get for Child {
    ghost read = { child_at };

    #[tactic(auto, unfolding(crate::specs::Reading::child_at))]
    fn get(alloc: Global, r: &mut Reader) -> Result<Child, EntryFault> {
        let place = r.at();
        let kind = byte(r)?;
        child_behind(alloc, place, kind, r)
    }
}

// A verb of this kind, which stood at the place.
#[tactic(auto, unfolding(crate::specs::Reading::verb_of))]
fn verb_behind(alloc: Global, place: u64, kind: u8, r: &mut Reader) -> Result<Verb, EntryFault>
    ensures { Gives result (verb_of place kind r.old) r.new }
{
    match kind {
        0 => Ok(Verb::AssignRegion(region(alloc, r)?)),
        1 => Ok(Verb::CloseRegion(region(alloc, r)?)),
        2 => Ok(Verb::Fence(server(alloc, r)?)),
        3 => Ok(Verb::Layout(pid(r)?)),
        4 => Ok(Verb::Sweep(pid(r)?)),
        _ => Err(EntryFault::Field(place)),
    }
}

impl Get for Verb {
    ghost read = { verb_at };

    #[tactic(auto, unfolding(crate::specs::Reading::verb_at))]
    fn get(alloc: Global, r: &mut Reader) -> Result<Verb, EntryFault> {
        let place = r.at();
        let kind = byte(r)?;
        verb_behind(alloc, place, kind, r)
    }
}

impl Get for Place {
    ghost read = { place_at };

    #[tactic(auto, unfolding(crate::specs::Reading::place_at))]
    fn get(alloc: Global, r: &mut Reader) -> Result<Place, EntryFault> {
        let state = region_state(r)?;
        let server = option(alloc, r)?;
        Ok(Place { state, server })
    }
}

// The byte after the kind of Undone.
fn undone(r: &mut Reader) -> Result<Answer, EntryFault>
    ensures { Gives result (coded undone_of r.old) r.new }
{
    let at = r.at();
    match byte(r)? {
        0 => Ok(Answer::Undone),
        _ => Err(EntryFault::Field(at)),
    }
}

// An answer of this kind, which stood at the place.
#[tactic(auto, unfolding(crate::specs::Reading::answer_of))]
fn answer_behind(place: u64, kind: u8, r: &mut Reader) -> Result<Answer, EntryFault>
    ensures { Gives result (answer_of place kind r.old) r.new }
{
    match kind {
        0 => Ok(Answer::More(byte(r)?)),
        1 => Ok(Answer::Wait(byte(r)?)),
        2 => Ok(Answer::Await(byte(r)?)),
        3 => Ok(Answer::Done(told(r)?)),
        4 => Ok(Answer::Fail(cause(r)?)),
        5 => undone(r),
        _ => Err(EntryFault::Field(place)),
    }
}

#[tactic(auto, unfolding(crate::specs::Reading::answer_at))]
fn answer(r: &mut Reader) -> Result<Answer, EntryFault>
    ensures { Gives result (answer_at r.old) r.new }
{
    let place = r.at();
    let kind = byte(r)?;
    answer_behind(place, kind, r)
}

// What follows a call and a place, behind the other fields of what a step does.
fn followed(
    alloc: Global,
    changes: (Answer, List<Edit>, List<Child>),
    asks: (Option<Verb>, Option<Place>),
    r: &mut Reader,
) -> Result<StepOut, EntryFault>
    ensures { Gives result (of_one (λ followers. record { answer = changes.0; edits = changes.1; children = changes.2; call = asks.0; place = asks.1; followers = followers }) (list_at child_at) r.old) r.new }
{
    match list(alloc, r) {
        Ok(followers) => Ok(StepOut {
            answer: changes.0,
            edits: changes.1,
            children: changes.2,
            call: asks.0,
            place: asks.1,
            followers,
        }),
        Err(fault) => {
            drop(changes);
            drop(asks);
            Err(fault)
        }
    }
}

// The fields of what a step does, behind its children.
fn out_behind(
    alloc: Global,
    changes: (Answer, List<Edit>, List<Child>),
    r: &mut Reader,
) -> Result<StepOut, EntryFault>
    ensures { Gives result (of_three (λ call place followers. record { answer = changes.0; edits = changes.1; children = changes.2; call = call; place = place; followers = followers }) (option_at verb_at) (option_at place_at) (list_at child_at) r.old) r.new }
{
    let call = option(alloc, r)?;
    let place = option(alloc, r)?;
    followed(alloc, changes, (call, place), r)
}

#[tactic(auto, unfolding(crate::specs::Reading::out_at))]
pub(crate) fn out(alloc: Global, r: &mut Reader) -> Result<StepOut, EntryFault>
    ensures { Gives result (out_at r.old) r.new }
{
    let answer = answer(r)?;
    let edits = list(alloc, r)?;
    let children = list(alloc, r)?;
    out_behind(alloc, (answer, edits, children), r)
}
