//! The parts of the servers.
ghost use Rattle.std.specs.Prelude.{◌≡◌, ◌++◌, IfOk, OnOk, map, not};
ghost use Rattle.hm_data.specs.declared.part.Part.TheVariants as part_is;
ghost use Rattle.hm_model.specs.Image.{server_parts};
ghost use Rattle.hm_image.specs.Image.{server_told};

use crate::add::add_part;
use hm_data::Part;
use hm_names::{Copied, ServerName};
use hm_places::Servers;
use hm_records::Records;
use std::alloc::{AllocError, Global};

// The part of a server: one that isn't live is told as fenced.
fn server_part(alloc: Global, server: &ServerName, live: bool) -> Result<Part, AllocError>
    ensures { IfOk result (λ part. part ≡ part_is.Server server.now (not live)) }
{
    Ok(Part::Server {
        server: server.copy(alloc)?,
        fenced: !live,
    })
}

// Adds the parts of these servers.
fn add_all(alloc: Global, servers: &Servers, parts: &mut Vec<Part>) -> Result<(), AllocError>
    ensures { OnOk result (parts.new.items ≡ parts.old.items ++ map server_told servers.now.servers) }
{
    for (server, standing) in servers.all().iter() {
        add_part(parts, server_part(alloc, server, standing.live)?)?;
    }
    Ok(())
}

// Adds the parts of the servers of a journal.
pub(crate) fn add_servers(
    alloc: Global,
    records: &Records,
    parts: &mut Vec<Part>,
) -> Result<(), AllocError>
    ensures { OnOk result (parts.new.items ≡ parts.old.items ++ server_parts records.now.past) }
{
    add_all(alloc, records.servers(), parts)
}
