//! The names and keys of a request have a spelling, as their types keep it, and its lists are short: a law that does nothing.
ghost use Rattle.std.specs.Prelude.{◌≡◌, ◌≤◌, ◌<◌, ◌^◌, All, None};
ghost use Rattle.hm_names.specs.Keys.{IsByteString};
ghost use Rattle.hm_names.specs.Names.{IsNs};
ghost use Rattle.hm_names.specs.Regions.{IsRegion};
ghost use Rattle.hm_names.specs.Servers.{IsServer};
ghost use Rattle.hm_names.specs.Tables.{IsTable};
ghost use Rattle.hm_entry.specs.Fits.{KeyFits, RequestFits};
ghost use Rattle.hm_model.specs.Requests.{wrong_in};

use hm_data::Request;
use hm_names::{Ns, RegionName, RowKey, ServerName, TableName};

fn ns_fits(ns: &Ns)
    ensures { IsNs ns.now }
{
    let _named = ns.as_bytes();
}

fn table_fits(table: &TableName)
    ensures { IsTable table.now }
{
    ns_fits(&table.ns);
    let _named = table.qualifier.as_bytes();
}

fn region_fits(region: &RegionName)
    ensures { IsRegion region.now }
{
    table_fits(&region.table);
    let _id = region.id;
}

// A number of 16 bits.
fn fits_two(number: u16)
    ensures { number ≤ 65535 }
{}

// A number of 64 bits.
fn fits_eight(number: u64)
    ensures { number < 2 ^ 64 }
{}

/// A server's name has a spelling.
pub fn server_fits(server: &ServerName)
    ensures { IsServer server.now }
{
    let _host = server.host.as_bytes();
    fits_two(server.port);
    fits_eight(server.start);
}

// Each item of a slice of bytes fits eight bits.
fn are_bytes(bytes: &[u8])
    ensures { IsByteString bytes.now }
{}

fn key_fits(key: &RowKey)
    ensures { KeyFits key.now }
{
    are_bytes(key.as_bytes());
}

fn keys_fit(keys: &[RowKey])
    ensures { All KeyFits keys.now }
{
    for key in keys {
        key_fits(key);
    }
}

fn regions_fit(regions: &[RegionName])
    ensures { All IsRegion regions.now }
{
    for region in regions {
        region_fits(region);
    }
}

/// A request with which nothing is wrong by itself has a spelling.
pub fn request_fits(request: &Request)
    requires { wrong_in request.now ≡ None }
    ensures { RequestFits request.now }
{
    match request {
        Request::CreateNamespace { ns } | Request::DropNamespace { ns } => ns_fits(ns),
        Request::CreateTable { table, keys } => {
            table_fits(table);
            keys_fit(keys.as_slice());
        }
        Request::DeleteTable { table } => table_fits(table),
        Request::EnableTable { table } => table_fits(table),
        Request::DisableTable { table } => table_fits(table),
        Request::ModifyTable { table, version } => {
            table_fits(table);
            fits_eight(*version);
        }
        Request::SplitRegion { region, key } => {
            region_fits(region);
            key_fits(key);
        }
        Request::MergeRegions { regions } => regions_fit(regions.as_slice()),
        Request::Move { region, to } => {
            region_fits(region);
            if let Some(server) = to {
                server_fits(server);
            }
        }
    }
}
