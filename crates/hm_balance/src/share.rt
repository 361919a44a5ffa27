ghost use Rattle.std.specs.Prelude.{◌≡◌, ◌/◌, ◌%◌, ◌<◌, ◌≤◌, ◌*◌, length, map, IfOk, IsPermutation, IsSorted};
ghost use Rattle.hm_balance.specs.Loads.{total};
ghost use Rattle.hm_balance.specs.Plan.{by_load, falling_cmp, with_targets, AreShares};

use hm_names::{Copied, ServerName};
use std::alloc::{AllocError, Global};
use std::cmp::Reverse;

/// A server with the regions that it has and the regions that it is to have. In name order.
#[derive(Drop, PartialEq, Eq, PartialOrd, Ord)]
pub(crate) struct Share {
    pub name: ServerName,
    pub load: u32,
    pub target: u32,
}

/// A server with the regions that it has. By falling load, ties in name order.
#[derive(Drop, PartialEq, Eq, PartialOrd, Ord)]
pub(crate) struct Falling {
    pub load: Reverse<u32>,
    pub name: ServerName,
}

/// The sum of the loads.
fn sum(loads: &[(ServerName, u32)]) -> u128
    ensures sum { result ≡ total loads.now }
    ensures bound { result ≤ length loads.now * 4294967295 }
{
    let mut sum = 0;
    for (_, load) in loads {
        sum += u128::from(*load);
    }
    sum
}

/// The servers by falling load.
fn sorted_by_load(alloc: Global, loads: &[(ServerName, u32)]) -> Result<Vec<Falling>, AllocError>
    ensures same { IfOk result (λ v. IsPermutation (map by_load loads.now) v.items) }
    ensures falls { IfOk result (λ v. IsSorted falling_cmp v.items) }
{
    let mut servers = Vec::new(alloc);
    for (name, load) in loads {
        servers.push(Falling {
            load: Reverse(*load),
            name: name.copy(alloc)?,
        })?;
    }
    servers.sort()?;
    Ok(servers)
}

/// The average load, and how much is left.
fn average(sum: u128, count: usize) -> (u32, usize)
    requires some { 1 ≤ count }
    requires small { sum ≤ count * 4294967295 }
    ensures average { result.0 ≡ sum / count }
    ensures rest { result.1 ≡ sum % count }
    ensures more { 0 < result.1 → result.0 < 4294967295 }
{
    let count = count as u128;
    ((sum / count) as u32, (sum % count) as usize)
}

/// The servers with their targets.
fn targeted(
    alloc: Global,
    falling: Vec<Falling>,
    least: u32,
    more: usize,
) -> Result<Vec<Share>, AllocError>
    requires { 0 < more → least < 4294967295 }
    ensures { IfOk result (λ v. v.items ≡ with_targets least more falling.items) }
{
    let mut more = more;
    let mut shares = Vec::new(alloc);
    for Falling {
        load: Reverse(load),
        name,
    } in falling {
        let target = if more > 0 { least + 1 } else { least };
        shares.push(Share { name, load, target })?;
        more = more.saturating_sub(1);
    }
    Ok(shares)
}

/// The servers with their targets, in name order.
pub(crate) fn shares(alloc: Global, loads: &[(ServerName, u32)]) -> Result<Vec<Share>, AllocError>
    requires { 1 ≤ length loads.now }
    ensures { IfOk result (λ v. AreShares loads.now v.items) }
{
    let falling = sorted_by_load(alloc, loads)?;
    let (least, more) = average(sum(loads), loads.len());
    let mut shares = targeted(alloc, falling, least, more)?;
    shares.sort()?;
    Ok(shares)
}
