ghost use Rattle.hm_entry.specs.Reading.{Gives, told_at, cause_at, act_at, back_at, goal_at, table_state_at, status_at, region_state_at};

use crate::fault::EntryFault;
use crate::fields::byte;
use hm_data::{Act, Back, Cause, Goal, RegionState, Status, TableState, Told};
use hm_wire::Reader;

#[tactic(auto, unfolding(crate::specs::Reading::told_at))]
pub(crate) fn told(r: &mut Reader) -> Result<Told, EntryFault>
    ensures { Gives result (told_at r.old) r.new }
{
    let at = r.at();
    match Told::of(byte(r)?) {
        Some(value) => Ok(value),
        None => Err(EntryFault::Field(at)),
    }
}

#[tactic(auto, unfolding(crate::specs::Reading::cause_at))]
pub(crate) fn cause(r: &mut Reader) -> Result<Cause, EntryFault>
    ensures { Gives result (cause_at r.old) r.new }
{
    let at = r.at();
    match Cause::of(byte(r)?) {
        Some(value) => Ok(value),
        None => Err(EntryFault::Field(at)),
    }
}

#[tactic(auto, unfolding(crate::specs::Reading::act_at))]
pub(crate) fn act(r: &mut Reader) -> Result<Act, EntryFault>
    ensures { Gives result (act_at r.old) r.new }
{
    let at = r.at();
    match Act::of(byte(r)?) {
        Some(value) => Ok(value),
        None => Err(EntryFault::Field(at)),
    }
}

#[tactic(auto, unfolding(crate::specs::Reading::back_at))]
pub(crate) fn undo(r: &mut Reader) -> Result<Back, EntryFault>
    ensures { Gives result (back_at r.old) r.new }
{
    let at = r.at();
    match Back::of(byte(r)?) {
        Some(value) => Ok(value),
        None => Err(EntryFault::Field(at)),
    }
}

#[tactic(auto, unfolding(crate::specs::Reading::goal_at))]
pub(crate) fn goal(r: &mut Reader) -> Result<Goal, EntryFault>
    ensures { Gives result (goal_at r.old) r.new }
{
    let at = r.at();
    match Goal::of(byte(r)?) {
        Some(value) => Ok(value),
        None => Err(EntryFault::Field(at)),
    }
}

#[tactic(auto, unfolding(crate::specs::Reading::table_state_at))]
pub(crate) fn table_state(r: &mut Reader) -> Result<TableState, EntryFault>
    ensures { Gives result (table_state_at r.old) r.new }
{
    let at = r.at();
    match TableState::of(byte(r)?) {
        Some(value) => Ok(value),
        None => Err(EntryFault::Field(at)),
    }
}

#[tactic(auto, unfolding(crate::specs::Reading::status_at))]
pub(crate) fn status(r: &mut Reader) -> Result<Status, EntryFault>
    ensures { Gives result (status_at r.old) r.new }
{
    let at = r.at();
    match Status::of(byte(r)?) {
        Some(value) => Ok(value),
        None => Err(EntryFault::Field(at)),
    }
}

#[tactic(auto, unfolding(crate::specs::Reading::region_state_at))]
pub(crate) fn region_state(r: &mut Reader) -> Result<RegionState, EntryFault>
    ensures { Gives result (region_state_at r.old) r.new }
{
    let at = r.at();
    match RegionState::of(byte(r)?) {
        Some(value) => Ok(value),
        None => Err(EntryFault::Field(at)),
    }
}
