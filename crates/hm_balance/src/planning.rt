ghost use Rattle.std.specs.Prelude.{◌≡◌, ◌++◌, IfOk, OnOk};
ghost use Rattle.hm_balance.specs.Loads.{NamesDiffer, Balance, IsFewest};
ghost use Rattle.hm_balance.specs.Plan.{IsPlan, givers as givers_of, takers as takers_of, paired, times};

use crate::share::{Share, shares};
use crate::shift::Shift;
use hm_names::{Copied, ServerName};
use std::alloc::{AllocError, Global};

/// Puts a name after others, so many times.
fn push_times(
    alloc: Global,
    names: &mut Vec<ServerName>,
    name: &ServerName,
    count: u32,
) -> Result<(), AllocError>
    ensures { OnOk result (names.new.items ≡ names.old.items ++ times count name.now) }
{
    for _ in 0..count {
        names.push(name.copy(alloc)?)?;
    }
    Ok(())
}

/// The names of the servers above their target, each once for each region above it.
fn givers(alloc: Global, shares: &[Share]) -> Result<Vec<ServerName>, AllocError>
    ensures { IfOk result (λ v. v.items ≡ givers_of shares.now) }
{
    let mut names = Vec::new(alloc);
    for share in shares {
        let over = share.load.saturating_sub(share.target);
        push_times(alloc, &mut names, &share.name, over)?;
    }
    Ok(names)
}

/// The names of the servers below their target, each once for each region that it lacks.
fn takers(alloc: Global, shares: &[Share]) -> Result<Vec<ServerName>, AllocError>
    ensures { IfOk result (λ v. v.items ≡ takers_of shares.now) }
{
    let mut names = Vec::new(alloc);
    for share in shares {
        let lack = share.target.saturating_sub(share.load);
        push_times(alloc, &mut names, &share.name, lack)?;
    }
    Ok(names)
}

/// Each giver with the taker at the same place.
#[tactic(auto, using(crate::proofs::Lists::paired_none))]
fn pairs(
    alloc: Global,
    givers: Vec<ServerName>,
    takers: Vec<ServerName>,
) -> Result<Vec<Shift>, AllocError>
    ensures { IfOk result (λ v. v.items ≡ paired givers.items takers.items) }
{
    let mut takers = takers.into_iter();
    let mut shifts = Vec::new(alloc);
    for from in givers {
        if let Some(to) = takers.next() {
            shifts.push(Shift { from, to })?;
        }
    }
    Ok(shifts)
}

/// The shifts that balance the loads: in name order each server above its target gives one region at a
/// time to the first in name order that is below its own. No list of shifts that leaves balanced loads
/// is shorter.
pub fn plan(alloc: Global, loads: &[(ServerName, u32)]) -> Result<Vec<Shift>, AllocError>
    requires { NamesDiffer loads.now }
    ensures plan { IfOk result (λ v. IsPlan loads.now v.items) }
    ensures balanced { IfOk result (λ v. Balance loads.now v.items) }
    ensures fewest { IfOk result (λ v. IsFewest loads.now v.items) }
{
    if loads.is_empty() {
        return Ok(Vec::new(alloc));
    }
    let shares = shares(alloc, loads)?;
    pairs(alloc, givers(alloc, &shares)?, takers(alloc, &shares)?)
}
