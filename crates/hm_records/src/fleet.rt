//! The servers that ever came up.
ghost use Rattle.std.specs.Prelude.{◌≡◌, ◌+◌, ◌≤◌, ◌∷◌, IfOk};
ghost use Rattle.std.specs.Option.{option_copied};
ghost use Rattle.hm_names.specs.Server.{Server};
ghost use Rattle.hm_data.specs.declared.entry.Entry.TheVariants as entry_is;
ghost use Rattle.hm_model.specs.Parts.{part_server as told_by};
ghost use Rattle.hm_model.specs.Rules.{IsLegal};
ghost use Rattle.hm_model.specs.Standings.{standings_of};
ghost use Rattle.hm_model.specs.Tree.{node_of};
ghost use Rattle.hm_places.specs.Laws.{shown_fenced as fenced_by, with_fence};
ghost use Rattle.hm_records.specs.Parts.{comes_up as up_by};

use hm_data::{Args, Entry, Part, Told};
use hm_names::{Copied, Pid, ServerName};
use hm_places::{Servers, servers_follow};
use hm_procedures::Procedures;
use std::alloc::{AllocError, Global};

// The server that a part of a base tells, and whether it is fenced.
fn part_server(alloc: Global, part: &Part) -> Result<Option<(ServerName, bool)>, AllocError>
    ensures { IfOk result (λ told. told ≡ told_by part.now) }
{
    match part {
        Part::Server { server, fenced } => Ok(Some((server.copy(alloc)?, *fenced))),
        _ => Ok(None),
    }
}

// The server that comes up, or that a part of a base tells, and whether it is fenced.
pub(crate) fn comes_up(
    alloc: Global,
    entry: &Entry,
) -> Result<Option<(ServerName, bool)>, AllocError>
    ensures { IfOk result (λ up. up ≡ up_by entry.now) }
{
    match entry {
        Entry::Up { server } => Ok(Some((server.copy(alloc)?, false))),
        Entry::Base { part } => part_server(alloc, part),
        _ => Ok(None),
    }
}

// The server that a report of a procedure's call shows to be fenced.
fn shown_fenced(past: &Procedures, pid: Pid, told: Told) -> Option<&ServerName>
    ensures { option_copied result ≡ fenced_by (node_of past.now.past pid.0) told }
{
    let record = past.find(pid)?;
    match (&record.args, told) {
        (Args::FenceCall { server }, Told::Fenced) => Some(server),
        _ => None,
    }
}

// Takes in that a report shows a server to be fenced.
fn fence_shown(servers: &mut Servers, past: &Procedures, pid: Pid, told: Told)
    requires { servers.old.servers ≡ standings_of past.now.past }
    ensures servers { servers.new.servers ≡ with_fence (standings_of past.now.past) (fenced_by (node_of past.now.past pid.0) told) }
    ensures spare { servers.old.spare ≤ servers.new.spare }
    ensures room { servers.new.room ≡ servers.old.room }
{
    servers_follow();
    let _legal = past.last_pid();
    if let Some(server) = shown_fenced(past, pid, told) {
        servers.fence(server);
    }
}

// Takes in that a server goes down.
fn put_down(servers: &mut Servers, past: &Procedures, entry: &Entry)
    requires legal { IsLegal (entry.now ∷ past.now.past) }
    requires servers { servers.old.servers ≡ standings_of past.now.past }
    ensures servers { (server : Server) → entry.now ≡ entry_is.Down server → servers.new.servers ≡ standings_of (entry.now ∷ past.now.past) }
    ensures spare { servers.old.spare ≤ servers.new.spare }
    ensures room { servers.new.room ≡ servers.old.room }
{
    servers_follow();
    let Entry::Down { server } = entry else {
        return;
    };
    let Ok(()) = servers.down(server) else {
        unreachable!()
    };
}

// Takes in a server that comes up or that a part of a base tells, one that goes down, and one that a report shows to be fenced.
pub(crate) fn set_servers(
    servers: &mut Servers,
    past: &Procedures,
    entry: &Entry,
    up: Option<(ServerName, bool)>,
)
    requires legal { IsLegal (entry.now ∷ past.now.past) }
    requires servers { servers.old.servers ≡ standings_of past.now.past }
    requires up { up ≡ up_by entry.now }
    requires room { 1 ≤ servers.old.spare }
    ensures servers { servers.new.servers ≡ standings_of (entry.now ∷ past.now.past) }
    ensures spare { servers.old.spare ≤ servers.new.spare + 1 }
    ensures room { servers.new.room ≡ servers.old.room }
{
    servers_follow();
    if let Some((server, fenced)) = up {
        servers.tell(server, fenced);
        return;
    }
    match entry {
        Entry::Report { call, told } => fence_shown(servers, past, *call, *told),
        Entry::Down { server: _ } => put_down(servers, past, entry),
        _ => {}
    }
}
