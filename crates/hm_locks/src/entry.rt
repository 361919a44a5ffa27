//! What is kept of a procedure and of each of its asks.
ghost use Rattle.std.specs.Prelude.{◌≡◌, ◌<◌, ◌≤◌, ◌+◌, ◌^◌, ◌∷◌, List, [], None, vec_len, vec_capacity, slice_set, IfOk};
ghost use Rattle.std.specs.Option.{option_map, option_copied};
ghost use Rattle.hm_locks.specs.Kept.{entry_at, lane, standing_of};
ghost use Rattle.hm_locks.specs.Entries.{with_holds};

use hm_index::Index;
use hm_model::Ask;
use hm_names::List;
use std::alloc::{AllocError, Global};

// A procedure that is enlisted. Its asks have nodes one after another, from the first on.
#[derive(Drop)]
pub(crate) struct Entry {
    pub(crate) pid: u64,
    // Its ancestors, from its parent up.
    pub(crate) above: List<u64>,
    pub(crate) asked: List<Ask>,
    pub(crate) first: usize,
    pub(crate) holds: bool,
}

// An ask: the place of its procedure, and the number of what it asks for.
#[derive(Clone, Copy)]
pub(crate) struct Want {
    pub(crate) place: usize,
    pub(crate) desk: u32,
    pub(crate) exclusive: bool,
}

// Where a procedure's entry is, its nodes, and whether it holds them.
#[derive(Clone, Copy)]
pub(crate) struct Standing {
    pub(crate) place: usize,
    pub(crate) first: usize,
    pub(crate) count: usize,
    pub(crate) holds: bool,
}

// The list of those that hold the resource of a number so.
pub(crate) fn lane(desk: u32, exclusive: bool) -> u32
    requires { desk + desk + 1 < 2 ^ 32 }
    ensures { result ≡ lane desk exclusive }
{
    desk + desk + u32::from(exclusive)
}

// The entry at a place.
pub(crate) fn entry_at(entries: &[Option<Entry>], place: usize) -> Option<&Entry>
    ensures { option_copied result ≡ entry_at entries.now place }
{
    entries.get(place)?.as_ref()
}

// How a procedure stands.
pub(crate) fn standing_of(
    places: &Index<u64, usize>,
    entries: &[Option<Entry>],
    pid: u64,
) -> Option<Standing>
    ensures { result ≡ standing_of places.now.pairs entries.now pid }
{
    let place = *places.get(&pid)?;
    let entry = entry_at(entries, place)?;
    Some(Standing {
        place,
        first: entry.first,
        count: entry.asked.as_slice().len(),
        holds: entry.holds,
    })
}

// Whether the entry at a place holds, from now on.
pub(crate) fn set_holds(entries: &mut Vec<Option<Entry>>, place: usize, holds: bool)
    requires { place < vec_len entries.old }
    ensures items { entries.new.items ≡ slice_set entries.old.items place (option_map (with_holds holds) (entry_at entries.old.items place)) }
    ensures capacity { vec_capacity entries.new ≡ vec_capacity entries.old }
{
    if let Some(entry) = &mut entries[place] {
        entry.holds = holds;
    }
}

// The numbers with one in front.
pub(crate) fn with_front(alloc: Global, one: u64, numbers: &[u64]) -> Result<List<u64>, AllocError>
    ensures { IfOk result (λ all. all ≡ one ∷ numbers.now) }
{
    let mut all = Vec::new(alloc);
    all.push(one)?;
    all.extend_from_slice(numbers)?;
    Ok(List::of(all))
}
