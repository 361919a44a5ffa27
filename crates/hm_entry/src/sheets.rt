ghost use Rattle.hm_entry.specs.Reading.{Gives, of_two, flag_at, back_at, row_at, sheet_at};

use crate::codes::{act, undo};
use crate::fault::EntryFault;
use crate::fields::{byte, flag};
use crate::get::{Get, list};
use hm_data::{Act, Row, Sheet};
use hm_wire::Reader;
use std::alloc::Global;

// The fields of a row behind its act and what follows it.
fn row_behind(act: Act, next: u8, r: &mut Reader) -> Result<Row, EntryFault>
    ensures { Gives result (of_two (λ after undo. record { act = act; next = next; after = after; undo = undo }) flag_at back_at r.old) r.new }
{
    let after = flag(r)?;
    let undo = undo(r)?;
    Ok(Row {
        act,
        next,
        after,
        undo,
    })
}

impl Get for Row {
    ghost read = { row_at };

    #[tactic(auto, unfolding(crate::specs::Reading::row_at))]
    fn get(_alloc: Global, r: &mut Reader) -> Result<Row, EntryFault> {
        let act = act(r)?;
        let next = byte(r)?;
        row_behind(act, next, r)
    }
}

impl Get for Sheet {
    ghost read = { sheet_at };

    #[tactic(auto, unfolding(crate::specs::Reading::sheet_at))]
    fn get(alloc: Global, r: &mut Reader) -> Result<Sheet, EntryFault> {
        let kind = byte(r)?;
        let rows = list(alloc, r)?;
        Ok(Sheet { kind, rows })
    }
}
