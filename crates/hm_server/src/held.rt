//! The regions that a server holds.
ghost use Rattle.std.specs.Prelude.{◌≡◌, ◌≤◌, length};
ghost use Rattle.std.specs.Iterator.{YieldsFirstRef, item_count};
ghost use Rattle.hm_server.specs.Actors.{held_in, left_in};

use crate::duty::Duty;
use hm_index::Iter;
use hm_names::RegionName;
use std::marker::Model;

/// The regions that a server holds, in name order. Contracts see the list of those that are left.
#[derive(Drop)]
pub struct Held<'a> {
    duties: Option<Iter<'a, RegionName, Duty>>,
}

impl<'a> Model for Held<'a> {
    ghost use Rattle.std.specs.Prelude.{List};
    ghost use Rattle.hm_names.specs.Region.{Region};
    ghost use Rattle.hm_server.specs.Actors.{held_in, left_in};

    ghost Value = { List Region };

    ghost view = { λ s. held_in (left_in s.duties) };
}

impl<'a> Held<'a> {
    pub(crate) fn new(duties: Option<Iter<'a, RegionName, Duty>>) -> Held<'a>
        ensures { result ≡ held_in (left_in duties.entry) }
    {
        Held { duties }
    }
}

impl<'a> Iterator for Held<'a> {
    type Item = &'a RegionName;

    ghost next_gives = { YieldsFirstRef (λ rest. rest) };

    ghost remaining = { item_count (λ rest. rest) };

    fn next(&mut self) -> Option<&'a RegionName> {
        match &mut self.duties {
            Some(duties) => next_held(duties),
            None => None,
        }
    }
}

// The next region that is held.
fn next_held<'a>(duties: &mut Iter<'a, RegionName, Duty>) -> Option<&'a RegionName>
    ensures first { YieldsFirstRef held_in duties.old result duties.new }
{
    loop {
        let (region, duty) = duties.next()?;
        if duty.holds {
            return Some(region);
        }
    }
}
