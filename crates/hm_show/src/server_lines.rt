//! The table `servers`.
ghost use Rattle.std.specs.Prelude.{◌≡◌, ◌+◌, ◌<◌, ◌^◌, IfOk, OnOk};
ghost use Rattle.hm_model.specs.Image.{counted};
ghost use Rattle.hm_show.specs.Lines.{AreLines, IsMore};
ghost use Rattle.hm_show.specs.Servers.{line_of, lines_by, servers_table};

use crate::lines::Lines;
use crate::words::standing_name;
use hm_model::Standing;
use hm_names::ServerName;
use hm_places::{Places, Servers, places_follow};
use hm_records::Records;
use std::alloc::{AllocError, Global};

// Adds the line of a server that stands so and has this load.
fn put_server(
    lines: &mut Lines,
    server: &ServerName,
    standing: &Standing,
    load: u64,
) -> Result<(), AllocError>
    requires { lines.old.count + 1 < 2 ^ 64 }
    ensures { OnOk result (IsMore (line_of server.now standing.now load) lines.old lines.new) }
{
    let standing = standing_name(standing.live, standing.fenced);
    write!(lines.text, "{server} {standing} {load}\n")?;
    lines.count += 1;
    Ok(())
}

// The lines of servers, by where regions are.
fn server_lines(alloc: Global, servers: &Servers, places: &Places) -> Result<Lines, AllocError>
    ensures { IfOk result (AreLines (lines_by places.now.places servers.now.servers)) }
{
    let rows = servers.all();
    let _most = rows.len();
    let mut lines = Lines::new(alloc);
    for (server, standing) in rows.iter() {
        put_server(&mut lines, server, standing, places.load(server))?;
    }
    Ok(lines)
}

// The table `servers`: those that ever came up, in name order. So many entries were recorded.
pub(crate) fn servers(alloc: Global, entries: u64, records: &Records) -> Result<Vec<u8>, AllocError>
    requires { entries ≡ counted records.now.past }
    ensures { IfOk result (λ table. table.items ≡ servers_table records.now.past) }
{
    places_follow();
    server_lines(alloc, records.servers(), records.places())?.into_table(alloc, "servers", entries)
}
