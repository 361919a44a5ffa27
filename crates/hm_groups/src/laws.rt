//! What a pick says: a law, as a function that does nothing.
ghost use Rattle.hm_groups.specs.Picking.{PicksFit};

use hm_places::{places_follow, servers_follow};

/// Over the servers and the places of a legal journal a pick is live, fits by the rule that the journal is judged by, and is allowed
/// by the groups, and no server that is all this has a lower load; and where there is no pick, no server is all this.
pub fn picks_fit()
    ensures { PicksFit }
{
    places_follow();
    servers_follow();
}
