// Whether a step is cut off, and whether it wants a server.
ghost use Rattle.std.specs.Prelude.{◌≡◌};
ghost use Rattle.hm_model.specs.Evaluation.{is_cut_off as cut_off, wants_server as wanting};
ghost use Rattle.hm_model.specs.Views.{region_of as region_in};

use crate::places::{is_open_at, may_open_in};
use crate::views::region_of;
use hm_data::{Row, StepIn};

/// A step of an aborted procedure fails at a row that isn't after the point.
pub fn is_cut_off(row: Row, at: &StepIn) -> bool
    ensures { result ≡ cut_off row at.now }
{
    at.aborted && !row.after
}

/// The region of a transit may be opened, and isn't open.
pub fn wants_server(at: &StepIn) -> bool
    ensures { result ≡ wanting (region_in at.now.args) at.now }
{
    match region_of(&at.args) {
        None => false,
        Some(region) => {
            may_open_in(at.rows.as_slice(), region) && !is_open_at(&at.place, at.fenced)
        }
    }
}
