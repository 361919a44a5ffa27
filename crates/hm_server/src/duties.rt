//! What a server last served about each region.
ghost use Rattle.std.specs.Prelude.{◌≡◌, IsSome, OnErr, OnOk, Some, if◌then◌else◌};
ghost use Rattle.std.specs.Option.{option_copied, option_map};
ghost use Rattle.std.specs.Ordering.{is_eq};
ghost use Rattle.hm_names.specs.Order.{region_cmp};
ghost use Rattle.hm_names.specs.Region.{Region};
ghost use Rattle.hm_index.specs.Index.{find, IsRising};
ghost use Rattle.hm_model.specs.Actors.{age};
ghost use Rattle.hm_server.specs.Actors.{duties_of, left_in, served};

use crate::duty::Duty;
use hm_index::{Index, Iter};
use hm_names::{Pid, RegionName};
use std::alloc::{AllocError, Global};
use std::cmp::Ordering;

// None until something was served.
pub(crate) type Duties = Option<Index<RegionName, Duty>>;

// What was last served about a region, if anything was.
pub(crate) fn last_of<'a>(duties: &'a Duties, region: &RegionName) -> Option<&'a Duty>
    ensures { option_copied result ≡ find region_cmp (duties_of duties.now) region.now }
{
    match duties {
        Some(index) => index.get(region),
        None => None,
    }
}

// What was last served about each region, in name order.
pub(crate) fn each_of(duties: &Duties) -> Option<Iter<'_, RegionName, Duty>>
    ensures pairs { left_in result ≡ duties_of duties.now }
    ensures rising { IsRising region_cmp (duties_of duties.now) }
{
    match duties {
        Some(index) => {
            let pairs = index.view();
            let _count = pairs.len();
            Some(pairs.iter())
        }
        None => None,
    }
}

// How a call's id stands to the last that was served: less is older, equal the same, greater new.
pub(crate) fn age_of(last: Option<&Duty>, id: Pid) -> Ordering
    ensures { result ≡ age (option_map served (option_copied last.entry)) id }
{
    match last {
        Some(last) => id.0.cmp(&last.id.0),
        None => Ordering::Greater,
    }
}

// Keeps what was served about a region now.
pub(crate) fn keep(
    duties: &mut Duties,
    alloc: Global,
    region: RegionName,
    duty: Duty,
) -> Result<(), AllocError>
    ensures kept { OnErr result (duties_of duties.new ≡ duties_of duties.old) }
    ensures duties { OnOk result ((other : Region) → find region_cmp (duties_of duties.new) other ≡ (if is_eq (region_cmp region other) then Some duty else find region_cmp (duties_of duties.old) other)) }
{
    begin(duties, alloc)?;
    match duties {
        Some(index) => {
            index.reserve(alloc, 1)?;
            index.set(region, duty);
            Ok(())
        }
        None => unreachable!(),
    }
}

// Makes what keeps them, where there is none yet.
fn begin(duties: &mut Duties, alloc: Global) -> Result<(), AllocError>
    ensures same { duties_of duties.new ≡ duties_of duties.old }
    ensures some { OnOk result (IsSome duties.new) }
{
    if duties.is_none() {
        *duties = Some(Index::new(alloc)?);
    }
    Ok(())
}
