//! The rules of servers that come up and go down.
ghost use Rattle.std.specs.Prelude.{◌≡◌};
ghost use Rattle.hm_model.specs.Fleet.{has_live as some_live, has_newer as newer, has_older_live as older, has_other_live as other, is_fenced as fenced, is_live as live, same_server};
ghost use Rattle.hm_model.specs.Standings.{standings_of};
ghost use Rattle.hm_places.specs.Laws.{StandingsTell};

use hm_names::ServerName;
use hm_places::{Servers, servers_follow};
use hm_records::Records;

/// The servers, which tell what a legal journal says of them.
pub(crate) fn standings(records: &Records) -> &Servers
    ensures are { result.now.servers ≡ standings_of records.now.past }
    ensures tell { StandingsTell records.now.past }
{
    servers_follow();
    let _procedures = records.procedures();
    records.servers()
}

/// Whether a server of its host and port came up with its start code or a greater one.
pub(crate) fn has_newer(records: &Records, server: &ServerName) -> bool
    ensures { result ≡ newer records.now.past server.now }
{
    standings(records).has_newer(server)
}

/// Whether an older server of its host and port is live.
pub(crate) fn has_older_live(records: &Records, server: &ServerName) -> bool
    ensures { result ≡ older records.now.past server.now }
{
    standings(records).has_older_live(server)
}

/// Whether another server is live.
pub(crate) fn has_other_live(records: &Records, server: &ServerName) -> bool
    ensures { result ≡ other records.now.past server.now }
{
    standings(records).has_other_live(server)
}

/// Whether some server is live.
pub(crate) fn has_live(records: &Records) -> bool
    ensures { result ≡ some_live records.now.past }
{
    standings(records).any_live()
}

/// Whether the server is live.
pub(crate) fn is_live(records: &Records, server: &ServerName) -> bool
    ensures { result ≡ live records.now.past server.now }
{
    standings(records).live(server)
}

/// Whether the server is fenced.
pub(crate) fn is_fenced(records: &Records, server: &ServerName) -> bool
    ensures { result ≡ fenced records.now.past server.now }
{
    standings(records).fenced(server)
}

/// Whether two servers are one.
pub(crate) fn is_one(server: &ServerName, other: &ServerName) -> bool
    ensures { result ≡ same_server server.now other.now }
{
    server.host == other.host && server.port == other.port && server.start == other.start
}
