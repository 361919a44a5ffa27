//! The tables of a state.
ghost use Rattle.std.specs.Prelude.{◌≡◌, IfOk};
ghost use Rattle.hm_show.specs.Locks.{locks_table};
ghost use Rattle.hm_show.specs.Procs.{procs_json as json_of, procs_table};
ghost use Rattle.hm_show.specs.Regions.{regions_table};
ghost use Rattle.hm_show.specs.Servers.{servers_table};

use crate::{json, lock_lines, proc_lines, region_lines, server_lines};
use hm_state::State;
use std::alloc::{AllocError, Global};

/// The table `procs`: the roots in the order of their numbers.
pub fn procs(alloc: Global, state: &State) -> Result<Vec<u8>, AllocError>
    ensures { IfOk result (λ table. table.items ≡ procs_table state.now.past) }
{
    proc_lines::procs(alloc, state.counted(), state.records())
}

/// All who are shown by a number, in the order of their numbers, as one line of JSON: the roots of the base, and the procedures that
/// entries made.
pub fn procs_json(alloc: Global, state: &State) -> Result<Vec<u8>, AllocError>
    ensures { IfOk result (λ text. text.items ≡ json_of state.now.past) }
{
    json::procs_json(alloc, state.records())
}

/// The table `regions`: the regions that have a row, in name order, each with its range, its status, its place and its server.
pub fn regions(alloc: Global, state: &State) -> Result<Vec<u8>, AllocError>
    ensures { IfOk result (λ table. table.items ≡ regions_table state.now.past) }
{
    region_lines::regions(alloc, state.counted(), state.records())
}

/// The table `servers`: the servers that ever came up, in name order, each with how it stands and its load.
pub fn servers(alloc: Global, state: &State) -> Result<Vec<u8>, AllocError>
    ensures { IfOk result (λ table. table.items ≡ servers_table state.now.past) }
{
    server_lines::servers(alloc, state.counted(), state.records())
}

/// The table `locks`: what is held, by resource in name order and then by the number of the procedure that holds it.
pub fn locks(alloc: Global, state: &State) -> Result<Vec<u8>, AllocError>
    ensures { IfOk result (λ table. table.items ≡ locks_table state.now.past) }
{
    lock_lines::locks(alloc, state.counted(), state.records())
}
