//! The servers of a group.
ghost use Rattle.std.specs.Prelude.{◌≡◌, length};
ghost use Rattle.std.specs.List.Sorted.{IsBinarySearchResult, IsSearchInRange};
ghost use Rattle.hm_names.specs.Server.{Server};
ghost use Rattle.hm_places.specs.Servers.{address_cmp};
ghost use Rattle.hm_groups.specs.Groups.{has_address};

use hm_names::{List, ServerName};
use std::cmp::Ordering;
use std::marker::Model;

/// The servers of a group, in name order. What counts is the host and port of each.
#[derive(Drop)]
pub(crate) struct Members {
    servers: Vec<ServerName>,
}

impl Model for Members {
    ghost use Rattle.std.specs.Prelude.{List};
    ghost use Rattle.std.specs.List.Sorted.{IsSorted};
    ghost use Rattle.hm_names.specs.Order.{server_cmp};
    ghost use Rattle.hm_names.specs.Server.{Server};

    ghost Value = { List Server };

    ghost view = { λ s. s.servers.items };

    ghost invariant = { λ s. IsSorted server_cmp s.servers.items };
}

// How the address of a server compares with that of another one.
fn compare_address(server: &ServerName, other: &ServerName) -> Ordering
    ensures { result ≡ address_cmp server.now other.now }
{
    let hosts = server.host.cmp(&other.host);
    hosts.then(server.port.cmp(&other.port))
}

// Where among some servers one of the address of another one stands, or where it belongs.
fn seek(servers: &[ServerName], server: &ServerName) -> Result<usize, usize>
    ensures range { IsSearchInRange result (length servers.now) }
    ensures position { IsBinarySearchResult (λ other. address_cmp other server.now) servers.now result }
{
    servers.binary_search_by(|other| compare_address(other, server))
}

impl Members {
    /// These servers. It takes no memory.
    pub(crate) fn of(servers: List<ServerName>) -> Members
        ensures { (server : Server) → has_address result server ≡ has_address servers server }
    {
        let mut servers = servers.into_vec();
        servers.sort_unstable();
        Members { servers }
    }

    /// Whether one of them has the host and port of a server. It takes as long as a look-up in a sorted list.
    pub(crate) fn has(&self, server: &ServerName) -> bool
        ensures { result ≡ has_address self.now server.now }
    {
        seek(&self.servers, server).is_ok()
    }
}
