//! The servers that a journal calls live.
ghost use Rattle.std.specs.Prelude.{◌≡◌, ◌≢◌, IfOk, IfErr, None, length, slice_get};
ghost use Rattle.hm_model.specs.Fleet.{servers_of};
ghost use Rattle.hm_world.specs.Scene.{past_in};
ghost use Rattle.hm_commands.specs.Live.{live_if};
ghost use Rattle.hm_commands.specs.View.{scene_in};

use crate::cluster::Cluster;
use hm_disk::Disk;
use hm_names::{Copied, ServerName};
use std::alloc::{AllocError, Global};

impl<D: Disk> Cluster<D> {
    /// How many servers ever came up.
    pub fn server_count(&self) -> u64
        ensures { result ≡ length (servers_of (past_in (scene_in self.now))) }
    {
        self.world.state().servers().all().len() as u64
    }

    /// The server at this place of those that ever came up, in name order, where there is one and it is live.
    pub fn live_at(&self, alloc: Global, place: u64) -> Result<Option<ServerName>, AllocError>
        ensures found { IfOk result (λ found. found ≡ live_if (past_in (scene_in self.now)) (slice_get (servers_of (past_in (scene_in self.now))) place)) }
        ensures lack { IfErr result (λ e. live_if (past_in (scene_in self.now)) (slice_get (servers_of (past_in (scene_in self.now))) place) ≢ None) }
    {
        match self.world.state().servers().all().get(place as usize) {
            Some((server, standing)) if standing.live => Ok(Some(server.copy(alloc)?)),
            _ => Ok(None),
        }
    }
}
