ghost use Rattle.std.specs.Prelude.{Result};
ghost use Rattle.hm_wire.specs.Input.{Input};
ghost use Rattle.hm_entry.specs.declared.fault.EntryFault.{EntryFault};
ghost use Rattle.hm_entry.specs.Reading.{Gives, GivesBy, items_at, list_at, option_at};

use crate::fault::EntryFault;
use crate::fields::{byte, u16};
use hm_names::List;
use hm_wire::Reader;
use std::alloc::Global;

/// What options and lists of an entry hold.
pub(crate) trait Get: Sized + Drop {
    ghost read: { Input → Result (Self × Input) EntryFault };

    fn get(alloc: Global, r: &mut Reader) -> Result<Self, EntryFault>
        ensures { Gives result (read r.old) r.new };
}

#[tactic(auto, unfolding(crate::specs::Reading::option_at))]
pub(crate) fn option<T: Get>(alloc: Global, r: &mut Reader) -> Result<Option<T>, EntryFault>
    ensures { Gives result (option_at T.read r.old) r.new }
{
    let at = r.at();
    match byte(r)? {
        0 => Ok(None),
        1 => Ok(Some(T::get(alloc, r)?)),
        _ => Err(EntryFault::Field(at)),
    }
}

fn items<T: Get>(alloc: Global, count: u16, r: &mut Reader) -> Result<Vec<T>, EntryFault>
    ensures { GivesBy (λ v. v.items) result (items_at T.read count r.old) r.new }
{
    let mut items = Vec::new(alloc);
    for _ in 0..count {
        let item = T::get(alloc, r)?;
        items.push(item)?;
    }
    Ok(items)
}

#[tactic(auto, unfolding(crate::specs::Reading::list_at))]
pub(crate) fn list<T: Get>(alloc: Global, r: &mut Reader) -> Result<List<T>, EntryFault>
    ensures { Gives result (list_at T.read r.old) r.new }
{
    let count = u16(r)?;
    let items = items(alloc, count, r)?;
    Ok(List::of(items))
}
