//! The live servers: the numbers of their rows, in name order.
ghost use Rattle.std.specs.Prelude.{◌≡◌, ◌≤◌, ◌<◌, Some, length, map, true, false, vec_len, vec_capacity, slice_get};
ghost use Rattle.std.specs.List.{AllWithin};
ghost use Rattle.std.specs.List.Sorted.{IsSearchInRange, IsBinarySearchResult};
ghost use Rattle.std.specs.Option.{option_copied};
ghost use Rattle.std.specs.Ordering.{is_lt};
ghost use Rattle.hm_names.specs.Order.{server_cmp};
ghost use Rattle.hm_index.specs.Index.{IsRising, key_if, pairs_from};
ghost use Rattle.hm_model.specs.Fleet.{same_address, same_server};
ghost use Rattle.hm_model.specs.Standings.{greatest_start, is_live_in, live_servers};
ghost use Rattle.hm_places.specs.Chosen.{cmp_if, HasGap};
ghost use Rattle.hm_places.specs.Servers.{address_cmp, name_of, first_there, has_newer_in, has_older_in, has_other_live_in, AreLive, AreLiveBut, AreServers};

use hm_index::Index;
use hm_model::Standing;
use hm_names::ServerName;
use std::cmp::Ordering;

pub(crate) type Rows = Index<ServerName, Standing>;

// Whether two servers have one host and one port.
pub(crate) fn at_address(server: &ServerName, other: &ServerName) -> bool
    ensures { result ≡ same_address server.now other.now }
{
    server.host == other.host && server.port == other.port
}

// How the server of a row compares with another one. No row stands lowest.
fn compare(row: Option<&(ServerName, Standing)>, server: &ServerName) -> Ordering
    ensures { result ≡ cmp_if server_cmp (key_if (option_copied row.entry)) (Some server.now) }
{
    match row {
        Some((name, _)) => name.cmp(server),
        None => Ordering::Less,
    }
}

// Where a server stands among those that are live, or where it belongs.
fn seek(rows: &Rows, live: &[u32], server: &ServerName) -> Result<usize, usize>
    ensures range { IsSearchInRange result (length live.now) }
    ensures position { IsBinarySearchResult (λ number. cmp_if server_cmp (name_of rows.now.came number) (Some server.now)) live.now result }
{
    live.binary_search_by(|number| compare(rows.pair(*number), server))
}

// Takes a server out of those that are live.
pub(crate) fn let_go(rows: &Rows, live: &mut Vec<u32>, server: &ServerName)
    requires { AreLive rows.now.came rows.now.pairs live.old.items }
    ensures live { AreLiveBut server.now rows.now.came rows.now.pairs live.new.items }
    ensures len { vec_len live.new ≤ vec_len live.old }
    ensures capacity { vec_capacity live.new ≡ vec_capacity live.old }
{
    if let Ok(at) = seek(rows, live, server) {
        let _number = live.remove(at);
    }
}

// Where a server that isn't live belongs among those that are.
pub(crate) fn spot_for(rows: &Rows, live: &[u32], server: &ServerName) -> usize
    requires live { AreLive rows.now.came rows.now.pairs live.now }
    requires absent { is_live_in rows.now.pairs server.now ≡ false }
    ensures { HasGap (cmp_if server_cmp) (map (name_of rows.now.came) live.now) (Some server.now) result }
{
    match seek(rows, live, server) {
        Ok(_) => unreachable!(),
        Err(at) => at,
    }
}

// How the address of a row's server compares with that of another one. No row stands lowest.
fn compare_address(row: Option<&(ServerName, Standing)>, server: &ServerName) -> Ordering
    ensures { result ≡ cmp_if address_cmp (key_if (option_copied row.entry)) (Some server.now) }
{
    match row {
        Some((name, _)) => {
            let hosts = name.host.cmp(&server.host);
            hosts.then(name.port.cmp(&server.port))
        }
        None => Ordering::Less,
    }
}

// Where among those that are live the servers begin whose address isn't below that of one.
fn address_from(rows: &Rows, live: &[u32], server: &ServerName) -> usize
    requires { AreLive rows.now.came rows.now.pairs live.now }
    ensures low { AllWithin (λ number. is_lt (cmp_if address_cmp (name_of rows.now.came number) (Some server.now)) ≡ true) live.now 0 result }
    ensures high { AllWithin (λ number. is_lt (cmp_if address_cmp (name_of rows.now.came number) (Some server.now)) ≡ false) live.now result (length live.now) }
{
    live.partition_point(|number| compare_address(rows.pair(*number), server).is_lt())
}

// The live server at the address of one, if there is one.
pub(crate) fn live_there<'a>(
    rows: &'a Rows,
    live: &[u32],
    server: &ServerName,
) -> Option<&'a ServerName>
    requires live { AreLive rows.now.came rows.now.pairs live.now }
    requires rising { IsRising server_cmp rows.now.pairs }
    ensures { option_copied result ≡ first_there (live_servers rows.now.pairs) server.now }
{
    let number = live.get(address_from(rows, live, server))?;
    match rows.pair(*number) {
        Some((other, _)) if at_address(server, other) => Some(other),
        Some(_) => None,
        None => unreachable!(),
    }
}

// The greatest start code at the address of a server, from its own on, and 0 where there is none.
pub(crate) fn greatest_from(rows: &Rows, server: &ServerName) -> u64
    requires { IsRising server_cmp rows.now.pairs }
    ensures { result ≡ greatest_start (pairs_from server_cmp rows.now.pairs server.now) server.now }
{
    let mut greatest = 0;
    for (other, _) in rows.iter_from(server) {
        if !at_address(server, other) {
            break;
        }
        greatest = other.start.max(greatest);
    }
    greatest
}

// Whether a server of an address came up with this start code or a greater one: in name order it would come next.
pub(crate) fn newer_there(rows: &Rows, server: &ServerName) -> bool
    requires { IsRising server_cmp rows.now.pairs }
    ensures { result ≡ has_newer_in rows.now.pairs server.now }
{
    match rows.iter_from(server).next() {
        Some((other, _)) => at_address(server, other),
        None => false,
    }
}

// Whether an older server of an address is live.
pub(crate) fn older_there(rows: &Rows, live: &[u32], server: &ServerName) -> bool
    requires { AreServers rows.now.came rows.now.pairs live.now }
    ensures { result ≡ has_older_in rows.now.pairs server.now }
{
    match live_there(rows, live, server) {
        Some(other) => other.start < server.start,
        None => false,
    }
}

// Whether two servers are one.
fn is_one(server: &ServerName, other: &ServerName) -> bool
    ensures { result ≡ same_server server.now other.now }
{
    at_address(server, other) && server.start == other.start
}

// Whether another server than this is live.
pub(crate) fn other_live(rows: &Rows, live: &[u32], server: &ServerName) -> bool
    requires { AreServers rows.now.came rows.now.pairs live.now }
    ensures { result ≡ has_other_live_in rows.now.pairs server.now }
{
    for number in live {
        if let Some((other, _)) = rows.pair(*number)
            && !is_one(server, other)
        {
            return true;
        }
    }
    false
}
