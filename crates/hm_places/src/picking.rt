//! Which server is picked.
ghost use Rattle.std.specs.Prelude.{◌≡◌, MatchOption, if◌then◌else◌, nat_lt};
ghost use Rattle.std.specs.Option.{option_copied};
ghost use Rattle.hm_names.specs.Order.{server_cmp};
ghost use Rattle.hm_index.specs.Index.{IsRising};
ghost use Rattle.hm_model.specs.Loads.{load_in};
ghost use Rattle.hm_model.specs.Standings.{live_servers};
ghost use Rattle.hm_model.specs.Choice.{avoids, lowest, without};
ghost use Rattle.hm_places.specs.Servers.{AreLive};

use crate::places::Places;
use crate::up::{Rows, at_address};
use hm_names::ServerName;

// A server, and how many regions are there.
#[derive(Clone, Copy)]
struct Loaded<'a> {
    server: &'a ServerName,
    load: u64,
}

// The first of the live servers with the lowest load, without one that is to be avoided.
pub(crate) fn lowest_of<'a>(
    rows: &'a Rows,
    live: &[u32],
    places: &Places,
    avoid: Option<&ServerName>,
) -> Option<&'a ServerName>
    requires live { AreLive rows.now.came rows.now.pairs live.now }
    requires rising { IsRising server_cmp rows.now.pairs }
    ensures { option_copied result ≡ lowest (load_in places.now.places) (without (option_copied avoid.entry) (live_servers rows.now.pairs)) }
{
    let mut best: Option<Loaded> = None;
    for number in live {
        if let Some((server, _)) = rows.pair(*number)
            && !is_avoided(avoid, server)
        {
            let load = places.load(server);
            best = Some(better(best, Loaded { server, load }));
        }
    }
    match best {
        Some(best) => Some(best.server),
        None => None,
    }
}

// Whether a server is the one that is to be avoided.
fn is_avoided(avoid: Option<&ServerName>, server: &ServerName) -> bool
    ensures { result ≡ avoids (option_copied avoid.entry) server.now }
{
    match avoid {
        Some(other) => at_address(other, server) && other.start == server.start,
        None => false,
    }
}

// The better one of two: the first, unless its load is greater.
fn better<'a>(best: Option<Loaded<'a>>, next: Loaded<'a>) -> Loaded<'a>
    ensures { MatchOption best.entry (result ≡ next.entry) (λ other. result ≡ (if nat_lt next.entry.load other.load then next.entry else other)) }
{
    match best {
        Some(best) if best.load <= next.load => best,
        _ => next,
    }
}
