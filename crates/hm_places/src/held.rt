//! The regions at servers: the numbers of their rows, by server and then by region.
ghost use Rattle.std.specs.Prelude.{◌≡◌, ◌+◌, ◌-◌, ◌≤◌, ◌<◌, Some, length, take, drop, vec_len, vec_capacity, slice_get};
ghost use Rattle.std.specs.Iterator.{YieldsFirstRef, item_count};
ghost use Rattle.std.specs.List.Sorted.{IsSearchInRange, IsBinarySearchResult};
ghost use Rattle.std.specs.Option.{option_copied};
ghost use Rattle.hm_names.specs.Order.{region_cmp};
ghost use Rattle.hm_index.specs.Index.{IsRising};
ghost use Rattle.hm_model.specs.Loads.{regions_at};
ghost use Rattle.hm_places.specs.Chosen.{cmp_if, Splits};
ghost use Rattle.hm_places.specs.Places.{held_at, held_cmp, held_by, holder, key_of, names_of, side, AreHeld, AreHeldBut, HaveNames, IsSpotFor};

use hm_data::{Place, RegionState};
use hm_index::Index;
use hm_names::{RegionName, ServerName};
use std::cmp::Ordering;
use std::marker::Model;

pub(crate) type Rows = Index<RegionName, Place>;

// The server of a place that is at one.
pub(crate) fn holder_of(place: &Place) -> Option<&ServerName>
    ensures { option_copied result ≡ holder place.now }
{
    match place.state {
        RegionState::Opening | RegionState::Opened | RegionState::Closing => place.server.as_ref(),
        _ => None,
    }
}

// How the server of a row's place compares with another one. No server stands lowest.
fn side_of(row: Option<&(RegionName, Place)>, server: &ServerName) -> Ordering
    ensures { result ≡ side server.now (held_by (option_copied row.entry)) }
{
    match row {
        Some((_, place)) => match &place.server {
            Some(there) => there.cmp(server),
            None => Ordering::Less,
        },
        None => Ordering::Less,
    }
}

// How where a row is held compares with a region at a server.
fn compare_held(
    row: Option<&(RegionName, Place)>,
    server: &ServerName,
    region: &RegionName,
) -> Ordering
    ensures { result ≡ cmp_if held_cmp (held_by (option_copied row.entry)) (Some (server.now, region.now)) }
{
    match row {
        Some((name, place)) => match &place.server {
            Some(there) => there.cmp(server).then(name.cmp(region)),
            None => Ordering::Less,
        },
        None => Ordering::Less,
    }
}

// Where a region at a server stands among those held, or where it belongs.
fn seek(rows: &Rows, held: &[u32], server: &ServerName, region: &RegionName) -> Result<usize, usize>
    ensures range { IsSearchInRange result (length held.now) }
    ensures position { IsBinarySearchResult (λ number. cmp_if held_cmp (key_of rows.now.came number) (Some (server.now, region.now))) held.now result }
{
    held.binary_search_by(|number| compare_held(rows.pair(*number), server, region))
}

// Takes a region out of those held.
pub(crate) fn let_go(rows: &Rows, held: &mut Vec<u32>, region: &RegionName)
    requires { AreHeld rows.now.came rows.now.pairs held.old.items }
    ensures held { AreHeldBut region.now rows.now.came rows.now.pairs held.new.items }
    ensures len { vec_len held.new ≤ vec_len held.old }
    ensures capacity { vec_capacity held.new ≡ vec_capacity held.old }
{
    let Some(place) = rows.get(region) else {
        return;
    };
    let Some(server) = holder_of(place) else {
        return;
    };
    if let Ok(at) = seek(rows, held, server, region) {
        let _number = held.remove(at);
    }
}

// Where a region with a place belongs among those held, if the place is at a server.
pub(crate) fn spot_for(
    rows: &Rows,
    held: &[u32],
    region: &RegionName,
    place: &Place,
) -> Option<usize>
    requires { AreHeldBut region.now rows.now.came rows.now.pairs held.now }
    ensures { IsSpotFor rows.now.came held.now (held_at region.now (holder place.now)) result }
{
    let server = holder_of(place)?;
    match seek(rows, held, server, region) {
        Ok(_) => unreachable!(),
        Err(at) => Some(at),
    }
}

// The numbers of the regions at a server.
pub(crate) fn run_of<'a>(rows: &Rows, held: &'a [u32], server: &ServerName) -> &'a [u32]
    requires held { AreHeld rows.now.came rows.now.pairs held.now }
    requires rising { IsRising region_cmp rows.now.pairs }
    ensures names { names_of rows.now.came result.now ≡ regions_at rows.now.pairs server.now }
    ensures count { HaveNames rows.now.came result.now }
{
    let (from, to) = bounds(rows, held, server);
    part(held, from, to)
}

// Where the numbers of the regions at a server begin and end.
fn bounds(rows: &Rows, held: &[u32], server: &ServerName) -> (usize, usize)
    requires { AreHeld rows.now.came rows.now.pairs held.now }
    ensures limit { (result.0 ≤ length held.now) × (result.1 ≤ length held.now) }
    ensures splits { Splits (λ number. side server.now (key_of rows.now.came number)) held.now result.0 result.1 }
{
    let from = held.partition_point(|number| side_of(rows.pair(*number), server).is_lt());
    let to = held.partition_point(|number| side_of(rows.pair(*number), server).is_le());
    (from, to)
}

// The numbers from one place up to another.
fn part(numbers: &[u32], from: usize, to: usize) -> &[u32]
    requires order { from ≤ to }
    requires within { to ≤ length numbers.now }
    ensures { result.now ≡ take (to - from) (drop from numbers.now) }
{
    &numbers[from..to]
}

/// Regions at a server, in name order. Contracts see the list of those that are left.
#[derive(Drop)]
pub struct OnServer<'a> {
    rows: &'a Rows,
    numbers: &'a [u32],
}

impl<'a> Model for OnServer<'a> {
    ghost use Rattle.std.specs.Prelude.{List};
    ghost use Rattle.hm_names.specs.Region.{Region};
    ghost use Rattle.hm_places.specs.Places.{names_of, HaveNames};

    ghost Value = { List Region };

    ghost view = { λ s. names_of s.rows.now.came s.numbers.now };

    ghost invariant = { λ s. HaveNames s.rows.now.came s.numbers.now };
}

impl<'a> OnServer<'a> {
    // The first regions with these numbers, at most so many.
    pub(crate) fn new(rows: &'a Rows, numbers: &'a [u32], most: usize) -> OnServer<'a>
        requires { HaveNames rows.now.came numbers.now }
        ensures { result ≡ take most (names_of rows.now.came numbers.now) }
    {
        let count = numbers.len().min(most);
        OnServer {
            rows,
            numbers: part(numbers, 0, count),
        }
    }
}

impl<'a> Iterator for OnServer<'a> {
    type Item = &'a RegionName;

    ghost next_gives = { YieldsFirstRef (λ rest. rest) };

    ghost remaining = { item_count (λ rest. rest) };

    fn next(&mut self) -> Option<&'a RegionName> {
        let (number, rest) = self.numbers.split_first()?;
        self.numbers = rest;
        match self.rows.pair(*number) {
            Some(pair) => Some(&pair.0),
            None => unreachable!(),
        }
    }
}
