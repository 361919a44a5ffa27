//! Commands that show a table.
ghost use Rattle.std.specs.Result.{result_ok};
ghost use Rattle.hm_show.specs.Locks.{locks_table};
ghost use Rattle.hm_show.specs.Procs.{procs_json as json_of, procs_table};
ghost use Rattle.hm_show.specs.Regions.{regions_table};
ghost use Rattle.hm_show.specs.Servers.{servers_table};
ghost use Rattle.hm_world.specs.Scene.{past_in};
ghost use Rattle.hm_commands.specs.Commands.{IsTable};
ghost use Rattle.hm_commands.specs.View.{scene_in};

use crate::answer::Answer;
use crate::cluster::Cluster;
use hm_disk::Disk;
use hm_show::{locks, procs, procs_json, regions, servers};
use std::alloc::{AllocError, Global};

impl<D: Disk> Cluster<D> {
    // The roots.
    pub(crate) fn show_procs(&self, alloc: Global) -> Result<Answer, AllocError>
        ensures { IsTable (procs_table (past_in (scene_in self.now))) (result_ok result) }
    {
        Ok(Answer::Table(procs(alloc, self.world.state())?))
    }

    // All procedures, as JSON.
    pub(crate) fn show_json(&self, alloc: Global) -> Result<Answer, AllocError>
        ensures { IsTable (json_of (past_in (scene_in self.now))) (result_ok result) }
    {
        Ok(Answer::Table(procs_json(alloc, self.world.state())?))
    }

    // The regions.
    pub(crate) fn show_regions(&self, alloc: Global) -> Result<Answer, AllocError>
        ensures { IsTable (regions_table (past_in (scene_in self.now))) (result_ok result) }
    {
        Ok(Answer::Table(regions(alloc, self.world.state())?))
    }

    // The locks that are held.
    pub(crate) fn show_locks(&self, alloc: Global) -> Result<Answer, AllocError>
        ensures { IsTable (locks_table (past_in (scene_in self.now))) (result_ok result) }
    {
        Ok(Answer::Table(locks(alloc, self.world.state())?))
    }

    // The servers.
    pub(crate) fn show_servers(&self, alloc: Global) -> Result<Answer, AllocError>
        ensures { IsTable (servers_table (past_in (scene_in self.now))) (result_ok result) }
    {
        Ok(Answer::Table(servers(alloc, self.world.state())?))
    }
}
