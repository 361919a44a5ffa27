//! What may be asked for.
ghost use Rattle.std.specs.Prelude.{◌≡◌, []};
ghost use Rattle.std.specs.List.{list_all};
ghost use Rattle.std.specs.Ordering.{is_lt};
ghost use Rattle.hm_names.specs.Order.{bytes_cmp};
ghost use Rattle.hm_model.specs.Requests.{are_apart as apart, are_siblings as siblings, is_fixed as fixed, may_merge as mergeable, rise, wrong_in as wrong, wrong_keys as keys_wrong};

use hm_data::Request;
use hm_names::{Ns, RegionName, RowKey};

// The namespaces that are there from the start.
fn is_fixed(ns: &Ns) -> bool
    ensures { result ≡ fixed ns.now }
{
    let name = ns.as_bytes();
    name == b"default".as_slice() || name == b"hbase".as_slice()
}

fn is_below(one: &[u8], other: &[u8]) -> bool
    ensures { result ≡ is_lt (bytes_cmp one.now other.now) }
{
    one.cmp(other).is_lt()
}

// Each key is greater than the one before, and the first isn't empty.
fn are_rising(keys: &[RowKey]) -> bool
    ensures { result ≡ rise [] keys.now }
{
    let mut before = b"".as_slice();
    for key in keys {
        let bytes = key.as_bytes();
        if !is_below(before, bytes) {
            return false;
        }
        before = bytes;
    }
    true
}

fn wrong_keys(keys: &[RowKey]) -> Option<u64>
    ensures { result ≡ keys_wrong keys.now }
{
    if !are_rising(keys) {
        return Some(2);
    }
    if keys.len() > 255 {
        return Some(3);
    }
    None
}

// Two regions are of one table, and not the same.
fn are_apart(one: &RegionName, other: &RegionName) -> bool
    ensures { result ≡ apart one.now other.now }
{
    one.table == other.table && one.id != other.id
}

// A region is apart from each of others.
fn is_apart_from(region: &RegionName, others: &[RegionName]) -> bool
    ensures { result ≡ list_all (apart region.now) others.now }
{
    for other in others {
        if !are_apart(region, other) {
            return false;
        }
    }
    true
}

// Different regions of one table.
fn are_siblings(regions: &[RegionName]) -> bool
    ensures { result ≡ siblings regions.now }
{
    let mut rest = regions;
    while let [region, more @ ..] = rest {
        if !is_apart_from(region, more) {
            return false;
        }
        rest = more;
    }
    true
}

// Two to ten different regions of one table.
fn may_merge(regions: &[RegionName]) -> bool
    ensures { result ≡ mergeable regions.now }
{
    2 <= regions.len() && regions.len() <= 10 && are_siblings(regions)
}

/// The number of what is wrong with a request by itself, the lowest that applies: 1, it drops a namespace that is there from
/// the start; 2, a split key of the table is empty or isn't greater than the one before; 3, there are more than 255; 4, it
/// doesn't merge two to ten different regions of one table; 5, the region is split at the empty key.
pub fn wrong_in(request: &Request) -> Option<u64>
    ensures { result ≡ wrong request.now }
{
    match request {
        Request::DropNamespace { ns } if is_fixed(ns) => Some(1),
        Request::CreateTable { table: _, keys } => wrong_keys(keys.as_slice()),
        Request::SplitRegion { region: _, key } if key.as_bytes().is_empty() => Some(5),
        Request::MergeRegions { regions } if !may_merge(regions.as_slice()) => Some(4),
        _ => None,
    }
}
