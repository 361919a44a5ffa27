//! Which server is picked.
ghost use Rattle.std.specs.Prelude.{◌≡◌, ◌&&◌, MatchOption, if◌then◌else◌, nat_lt};
ghost use Rattle.std.specs.Option.{option_copied};
ghost use Rattle.hm_model.specs.Fleet.{same_server};
ghost use Rattle.hm_model.specs.Loads.{load_in};
ghost use Rattle.hm_model.specs.Places.{is_the_server as the_server};
ghost use Rattle.hm_model.specs.TransitActs.{told_place};
ghost use Rattle.hm_model.specs.Wanted.{wanted_of as wanted};
ghost use Rattle.hm_model.specs.Whereabouts.{moved_by as moved};
ghost use Rattle.hm_groups.specs.Picking.{allows as allowed, fits_among, is_another as another, is_as_wanted as as_wanted, passes, picked, picked_for};

use crate::groups::Groups;
use hm_data::{Args, Place, RegionState, Request, StepIn};
use hm_names::{RegionName, ServerName};
use hm_places::{Places, Servers};

// A server, and how many regions are there.
#[derive(Clone, Copy)]
struct Loaded<'a> {
    server: &'a ServerName,
    load: u64,
}

// The better one of two: the first, unless its load is greater.
fn better<'a>(best: Option<Loaded<'a>>, next: Loaded<'a>) -> Loaded<'a>
    ensures { MatchOption best.entry (result ≡ next.entry) (λ other. result ≡ (if nat_lt next.entry.load other.load then next.entry else other)) }
{
    match best {
        Some(best) if best.load <= next.load => best,
        _ => next,
    }
}

// Whether two servers are one.
fn is_one(server: &ServerName, other: &ServerName) -> bool
    ensures { result ≡ same_server server.now other.now }
{
    server.host == other.host && server.port == other.port && server.start == other.start
}

// Whether it is the server, if there is one.
fn is_the_server(server: &ServerName, other: &Option<ServerName>) -> bool
    ensures { result ≡ the_server server.now other.now }
{
    match other {
        Some(other) => is_one(server, other),
        None => false,
    }
}

// The server that a procedure is to bring its region to, where one is named.
fn wanted_of(args: &Args) -> Option<&ServerName>
    ensures { option_copied result ≡ wanted args.now }
{
    match args {
        Args::Root {
            request: Request::Move { region: _, to },
            first: _,
        } => to.as_ref(),
        Args::Transit {
            region: _,
            goal: _,
            to,
        } => to.as_ref(),
        _ => None,
    }
}

// The region that a procedure moves, where it moves one.
fn moved_by(args: &Args) -> Option<&RegionName>
    ensures { option_copied result ≡ moved args.now }
{
    match args {
        Args::Root {
            request: Request::Move { region, to: _ },
            first: _,
        } => Some(region),
        Args::Transit {
            region,
            goal: _,
            to: _,
        } => Some(region),
        _ => None,
    }
}

// Whether the first try goes to the server that is wanted, where that one is live.
fn is_as_wanted(servers: &Servers, args: &Args, tries: u32, server: &ServerName) -> bool
    ensures { result ≡ as_wanted servers.now.servers (wanted args.now) tries server.now }
{
    match wanted_of(args) {
        Some(wanted) => tries != 0 || !servers.live(wanted) || is_one(server, wanted),
        None => true,
    }
}

// Whether it isn't the server at which the region just failed to open, where another one is live.
fn is_another(servers: &Servers, place: Option<&Place>, server: &ServerName) -> bool
    ensures { result ≡ another servers.now.servers (told_place (option_copied place.entry)) server.now }
{
    match place {
        Some(place) => {
            place.state != RegionState::FailedOpen
                || !is_the_server(server, &place.server)
                || !servers.has_other_live(server)
        }
        None => true,
    }
}

// Whether a live server fits what a procedure's next step sees.
fn fits(
    servers: &Servers,
    args: &Args,
    tries: u32,
    place: Option<&Place>,
    server: &ServerName,
) -> bool
    ensures { result ≡ fits_among servers.now.servers args.now tries (option_copied place.entry) server.now }
{
    is_as_wanted(servers, args, tries, server) && is_another(servers, place, server)
}

impl Groups {
    // Whether the groups allow a server for the region that a step moves, if it moves one.
    fn allows(&self, args: &Args, server: &ServerName) -> bool
        ensures { result ≡ allowed self.now (moved args.now) server.now }
    {
        match moved_by(args) {
            Some(region) => self.may(&region.table, server),
            None => true,
        }
    }

    // Whether the groups allow a live server for what a procedure's next step sees, and it fits.
    fn passes(
        &self,
        servers: &Servers,
        args: &Args,
        tries: u32,
        place: Option<&Place>,
        server: &ServerName,
    ) -> bool
        ensures { result ≡ passes self.now servers.now.servers args.now tries (option_copied place.entry) server.now }
    {
        self.allows(args, server) && fits(servers, args, tries, place, server)
    }

    /// The server of the lowest load, the first in name order among equals, of those that are live, that the groups allow, and that
    /// fit what a procedure's next step sees: what it was made of, how often its region failed to open, and its region's place. None
    /// exactly where there is none: so a server that is wanted and drained is waited for. It goes over all servers that ever came
    /// up.
    pub fn pick_for<'a>(
        &self,
        servers: &'a Servers,
        places: &Places,
        args: &Args,
        tries: u32,
        place: Option<&Place>,
    ) -> Option<&'a ServerName>
        ensures { option_copied result ≡ picked_for self.now servers.now.servers (load_in places.now.places) args.now tries (option_copied place.entry) }
    {
        let mut best: Option<Loaded> = None;
        for (server, standing) in servers.all().iter() {
            if standing.live && self.passes(servers, args, tries, place, server) {
                let load = places.load(server);
                best = Some(better(best, Loaded { server, load }));
            }
        }
        match best {
            Some(best) => Some(best.server),
            None => None,
        }
    }

    /// The same for what a step sees.
    pub fn pick<'a>(
        &self,
        servers: &'a Servers,
        places: &Places,
        at: &StepIn,
    ) -> Option<&'a ServerName>
        ensures { option_copied result ≡ picked self.now servers.now.servers (load_in places.now.places) at.now }
    {
        self.pick_for(servers, places, &at.args, at.tries, at.place.as_ref())
    }
}
