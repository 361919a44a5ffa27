//! Commands printed as a script.
ghost use Rattle.std.specs.Prelude.{◌≡◌, ◌≤◌, ◌-◌, ◌^◌, ◌++◌, ◌∷◌, [], ℕ, true, IfOk, OnOk, length, map};
ghost use Rattle.std.specs.List.{flat_map};
ghost use Rattle.hm_script.specs.Values.{nonce as need_nonce, ns as need_ns, table as need_table, region as need_region, key as need_key, server as need_server, number as need_number, target as need_target, json as need_json, of_nonce, of_ns, of_table, of_region, of_key, of_server, of_number, of_storage, of_json, of_keyword, server_values};
ghost use Rattle.hm_script.specs.Keywords.{keyword_text};
ghost use Rattle.hm_script.specs.Programs.{may_be_old};
ghost use Rattle.hm_script.specs.Shapes.{nothing, maybe, upto, many, any_number};
ghost use Rattle.hm_script.specs.Spellings.{behind_space, order_spelling, spelling};
ghost use Rattle.hm_script.specs.Printing.{IsReadBack, FitRest, Fit, FitPlain, IsFitting, are_bytes};
ghost use Rattle.hm_script.specs.Script.{AreMergeable, IsOrder, IsPrintableTo, IsScriptTo, IsSpelled, Reader, line_text, script_text};

use crate::command::{Command, Order};
use crate::keyword::{Keyword, LoneWord, NsWord, NumberWord, ServerWord, TableWord};
use hm_names::{Nonce, Ns, RegionName, RowKey, ServerName, TableName};
use itoa::Buffer;
use std::alloc::{AllocError, Global};

impl Command {
    // The word that begins the command's line.
    fn keyword(&self) -> Keyword
        ensures { result ≡ (spelling self.now).keyword }
    {
        match self {
            Command::Workers { .. } => Keyword::Workers,
            Command::Namespace { .. } => Keyword::OfNs(NsWord::Namespace),
            Command::DropNamespace { .. } => Keyword::OfNs(NsWord::DropNamespace),
            Command::Create { .. } => Keyword::Create,
            Command::Delete { .. } => Keyword::OfTable(TableWord::Delete),
            Command::Enable { .. } => Keyword::OfTable(TableWord::Enable),
            Command::Disable { .. } => Keyword::OfTable(TableWord::Disable),
            Command::Modify { .. } => Keyword::Modify,
            Command::Split { .. } => Keyword::Split,
            Command::Merge { .. } => Keyword::Merge,
            Command::Move { .. } => Keyword::Move,
            Command::Abort { .. } => Keyword::OfNumber(NumberWord::Abort),
            Command::Step { .. } => Keyword::OfNumber(NumberWord::Step),
            Command::Server { .. } => Keyword::OfServer(ServerWord::Server),
            Command::Die { .. } => Keyword::OfServer(ServerWord::Die),
            Command::Expire { .. } => Keyword::OfServer(ServerWord::Expire),
            Command::Drain { .. } => Keyword::OfServer(ServerWord::Drain),
            Command::Undrain { .. } => Keyword::OfServer(ServerWord::Undrain),
            Command::Refuse { .. } | Command::RefuseStorage { .. } => Keyword::Refuse,
            Command::Procs | Command::ProcsJson => Keyword::Procs,
            Command::Backoff { .. } => Keyword::Backoff,
            Command::Tick { .. } => Keyword::Tick,
            Command::Group { .. } => Keyword::Group,
            Command::TableGroup { .. } => Keyword::TableGroup,
            Command::Cut { .. } => Keyword::Cut,
            Command::Old { .. } => Keyword::Old,
            Command::Settle => Keyword::Alone(LoneWord::Settle),
            Command::Lose => Keyword::Alone(LoneWord::Lose),
            Command::Repeat => Keyword::Alone(LoneWord::Repeat),
            Command::Balance => Keyword::Alone(LoneWord::Balance),
            Command::Regions => Keyword::Alone(LoneWord::Regions),
            Command::Locks => Keyword::Alone(LoneWord::Locks),
            Command::Servers => Keyword::Alone(LoneWord::Servers),
            Command::Reopen => Keyword::Alone(LoneWord::Reopen),
            Command::Roll => Keyword::Alone(LoneWord::Roll),
            Command::Timers => Keyword::Alone(LoneWord::Timers),
            Command::Hbck => Keyword::Alone(LoneWord::Hbck),
            Command::Follow => Keyword::Alone(LoneWord::Follow),
            Command::Takeover => Keyword::Alone(LoneWord::Takeover),
        }
    }
}

impl Order {
    // The word that begins the line of the command of the same name.
    fn keyword(&self) -> Keyword
        ensures word { result ≡ (order_spelling self.now).keyword }
        ensures old { may_be_old result ≡ true }
    {
        match self {
            Order::Namespace { .. } => Keyword::OfNs(NsWord::Namespace),
            Order::DropNamespace { .. } => Keyword::OfNs(NsWord::DropNamespace),
            Order::Create { .. } => Keyword::Create,
            Order::Delete { .. } => Keyword::OfTable(TableWord::Delete),
            Order::Enable { .. } => Keyword::OfTable(TableWord::Enable),
            Order::Disable { .. } => Keyword::OfTable(TableWord::Disable),
            Order::Modify { .. } => Keyword::Modify,
            Order::Split { .. } => Keyword::Split,
            Order::Merge { .. } => Keyword::Merge,
            Order::Move { .. } => Keyword::Move,
            Order::Abort { .. } => Keyword::OfNumber(NumberWord::Abort),
            Order::Expire { .. } => Keyword::OfServer(ServerWord::Expire),
            Order::Step { .. } => Keyword::OfNumber(NumberWord::Step),
        }
    }
}

// Each item of a slice of bytes fits eight bits: a law that does nothing.
fn fit_eight_bits(bytes: &[u8])
    ensures { are_bytes bytes.now ≡ true }
{}

fn put_nonce(alloc: Global, out: &mut Vec<u8>, nonce: &Nonce) -> Result<(), AllocError>
    ensures written { OnOk result (out.new.items ≡ out.old.items ++ behind_space (of_nonce nonce.now)) }
    ensures read_back { OnOk result (IsReadBack need_nonce (of_nonce nonce.now)) }
{
    let _group = nonce.group;
    let _number = nonce.number;
    out.push(b' ')?;
    nonce.write(alloc, out)?;
    Ok(())
}

fn put_ns(alloc: Global, out: &mut Vec<u8>, ns: &Ns) -> Result<(), AllocError>
    ensures written { OnOk result (out.new.items ≡ out.old.items ++ behind_space (of_ns ns.now)) }
    ensures read_back { OnOk result (IsReadBack need_ns (of_ns ns.now)) }
{
    let _named = ns.as_bytes();
    out.push(b' ')?;
    ns.write(alloc, out)?;
    Ok(())
}

fn put_table(alloc: Global, out: &mut Vec<u8>, table: &TableName) -> Result<(), AllocError>
    ensures written { OnOk result (out.new.items ≡ out.old.items ++ behind_space (of_table table.now)) }
    ensures read_back { OnOk result (IsReadBack need_table (of_table table.now)) }
{
    let _ns = table.ns.as_bytes();
    let _qualifier = table.qualifier.as_bytes();
    out.push(b' ')?;
    table.write(alloc, out)?;
    Ok(())
}

fn put_region(alloc: Global, out: &mut Vec<u8>, region: &RegionName) -> Result<(), AllocError>
    ensures written { OnOk result (out.new.items ≡ out.old.items ++ behind_space (of_region region.now)) }
    ensures read_back { OnOk result (IsReadBack need_region (of_region region.now)) }
{
    let _ns = region.table.ns.as_bytes();
    let _qualifier = region.table.qualifier.as_bytes();
    let _id = region.id;
    out.push(b' ')?;
    region.write(alloc, out)?;
    Ok(())
}

fn put_key(alloc: Global, out: &mut Vec<u8>, key: &RowKey) -> Result<(), AllocError>
    ensures written { OnOk result (out.new.items ≡ out.old.items ++ behind_space (of_key key.now)) }
    ensures read_back { OnOk result (IsReadBack need_key (of_key key.now)) }
{
    fit_eight_bits(key.as_bytes());
    out.push(b' ')?;
    key.write(alloc, out)?;
    Ok(())
}

fn put_server(alloc: Global, out: &mut Vec<u8>, server: &ServerName) -> Result<(), AllocError>
    ensures written { OnOk result (out.new.items ≡ out.old.items ++ behind_space (of_server server.now)) }
    ensures read_back { OnOk result (IsReadBack need_server (of_server server.now)) }
{
    let _host = server.host.as_bytes();
    let _port = server.port;
    let _start = server.start;
    out.push(b' ')?;
    server.write(alloc, out)?;
    Ok(())
}

fn put_number(out: &mut Vec<u8>, number: u64) -> Result<(), AllocError>
    ensures written { OnOk result (out.new.items ≡ out.old.items ++ behind_space (of_number number)) }
    ensures read_back { (least most : ℕ) → least ≤ number → number ≤ most → OnOk result (IsReadBack (need_number least most) (of_number number)) }
{
    out.push(b' ')?;
    out.extend_from_slice(Buffer::new().format(number).as_bytes())?;
    Ok(())
}

fn put_keys(alloc: Global, out: &mut Vec<u8>, keys: &[RowKey]) -> Result<(), AllocError>
    ensures written { OnOk result (out.new.items ≡ out.old.items ++ flat_map behind_space (map of_key keys.now)) }
    ensures read_back { OnOk result (FitRest (many need_key) (map of_key keys.now)) }
{
    for key in keys {
        put_key(alloc, out, key)?;
    }
    Ok(())
}

fn put_regions(alloc: Global, out: &mut Vec<u8>, regions: &[RegionName]) -> Result<(), AllocError>
    ensures written { OnOk result (out.new.items ≡ out.old.items ++ flat_map behind_space (map of_region regions.now)) }
    ensures read_back { OnOk result (FitRest (many need_region) (map of_region regions.now)) }
{
    for region in regions {
        put_region(alloc, out, region)?;
    }
    Ok(())
}

fn put_servers(alloc: Global, out: &mut Vec<u8>, servers: &[ServerName]) -> Result<(), AllocError>
    ensures written { OnOk result (out.new.items ≡ out.old.items ++ flat_map behind_space (map of_server servers.now)) }
    ensures read_back { OnOk result (FitRest (many need_server) (map of_server servers.now)) }
{
    for server in servers {
        put_server(alloc, out, server)?;
    }
    Ok(())
}

fn put_ns_request(
    alloc: Global,
    out: &mut Vec<u8>,
    nonce: &Nonce,
    ns: &Ns,
) -> Result<(), AllocError>
    ensures written { OnOk result (out.new.items ≡ out.old.items ++ flat_map behind_space (of_nonce nonce.now ∷ of_ns ns.now ∷ [])) }
    ensures fit { OnOk result (Fit (need_nonce ∷ need_ns ∷ []) nothing (of_nonce nonce.now ∷ of_ns ns.now ∷ [])) }
{
    put_nonce(alloc, out, nonce)?;
    put_ns(alloc, out, ns)?;
    Ok(())
}

fn put_create(
    alloc: Global,
    out: &mut Vec<u8>,
    nonce: &Nonce,
    table: &TableName,
    keys: &[RowKey],
) -> Result<(), AllocError>
    ensures written { OnOk result (out.new.items ≡ out.old.items ++ flat_map behind_space (of_nonce nonce.now ∷ of_table table.now ∷ map of_key keys.now)) }
    ensures fit { OnOk result (Fit (need_nonce ∷ need_table ∷ []) (many need_key) (of_nonce nonce.now ∷ of_table table.now ∷ map of_key keys.now)) }
{
    put_nonce(alloc, out, nonce)?;
    put_table(alloc, out, table)?;
    put_keys(alloc, out, keys)?;
    Ok(())
}

fn put_table_request(
    alloc: Global,
    out: &mut Vec<u8>,
    nonce: &Nonce,
    table: &TableName,
) -> Result<(), AllocError>
    ensures written { OnOk result (out.new.items ≡ out.old.items ++ flat_map behind_space (of_nonce nonce.now ∷ of_table table.now ∷ [])) }
    ensures fit { OnOk result (Fit (need_nonce ∷ need_table ∷ []) nothing (of_nonce nonce.now ∷ of_table table.now ∷ [])) }
{
    put_nonce(alloc, out, nonce)?;
    put_table(alloc, out, table)?;
    Ok(())
}

fn put_modify(
    alloc: Global,
    out: &mut Vec<u8>,
    nonce: &Nonce,
    table: &TableName,
    version: u64,
) -> Result<(), AllocError>
    ensures written { OnOk result (out.new.items ≡ out.old.items ++ flat_map behind_space (of_nonce nonce.now ∷ of_table table.now ∷ of_number version ∷ [])) }
    ensures fit { OnOk result (Fit (need_nonce ∷ need_table ∷ any_number ∷ []) nothing (of_nonce nonce.now ∷ of_table table.now ∷ of_number version ∷ [])) }
{
    put_nonce(alloc, out, nonce)?;
    put_table(alloc, out, table)?;
    put_number(out, version)?;
    Ok(())
}

fn put_split(
    alloc: Global,
    out: &mut Vec<u8>,
    nonce: &Nonce,
    region: &RegionName,
    key: &RowKey,
) -> Result<(), AllocError>
    ensures written { OnOk result (out.new.items ≡ out.old.items ++ flat_map behind_space (of_nonce nonce.now ∷ of_region region.now ∷ of_key key.now ∷ [])) }
    ensures fit { OnOk result (Fit (need_nonce ∷ need_region ∷ need_key ∷ []) nothing (of_nonce nonce.now ∷ of_region region.now ∷ of_key key.now ∷ [])) }
{
    put_nonce(alloc, out, nonce)?;
    put_region(alloc, out, region)?;
    put_key(alloc, out, key)?;
    Ok(())
}

fn put_merge(
    alloc: Global,
    out: &mut Vec<u8>,
    nonce: &Nonce,
    regions: &[RegionName],
) -> Result<(), AllocError>
    ensures written { OnOk result (out.new.items ≡ out.old.items ++ flat_map behind_space (of_nonce nonce.now ∷ map of_region regions.now)) }
    ensures fit { (most : ℕ) → AreMergeable most (length regions.now) →
        OnOk result (Fit (need_nonce ∷ need_region ∷ need_region ∷ []) (upto (most - 2) need_region) (of_nonce nonce.now ∷ map of_region regions.now)) }
{
    put_nonce(alloc, out, nonce)?;
    put_regions(alloc, out, regions)?;
    Ok(())
}

fn put_perhaps_server(
    alloc: Global,
    out: &mut Vec<u8>,
    server: &Option<ServerName>,
) -> Result<(), AllocError>
    ensures written { OnOk result (out.new.items ≡ out.old.items ++ flat_map behind_space (server_values server.now)) }
    ensures fit { OnOk result (FitRest (maybe need_server) (server_values server.now)) }
{
    match server {
        Some(server) => {
            put_server(alloc, out, server)?;
            Ok(())
        }
        None => Ok(()),
    }
}

fn put_move(
    alloc: Global,
    out: &mut Vec<u8>,
    nonce: &Nonce,
    region: &RegionName,
    to: &Option<ServerName>,
) -> Result<(), AllocError>
    ensures written { OnOk result (out.new.items ≡ out.old.items ++ flat_map behind_space (of_nonce nonce.now ∷ of_region region.now ∷ server_values to.now)) }
    ensures fit { OnOk result (Fit (need_nonce ∷ need_region ∷ []) (maybe need_server) (of_nonce nonce.now ∷ of_region region.now ∷ server_values to.now)) }
{
    put_nonce(alloc, out, nonce)?;
    put_region(alloc, out, region)?;
    put_perhaps_server(alloc, out, to)?;
    Ok(())
}

fn put_refuse(
    alloc: Global,
    out: &mut Vec<u8>,
    server: &ServerName,
    count: u64,
) -> Result<(), AllocError>
    ensures written { OnOk result (out.new.items ≡ out.old.items ++ flat_map behind_space (of_server server.now ∷ of_number count ∷ [])) }
    ensures fit { count ≤ 2 ^ 32 - 1 → OnOk result (Fit (need_target ∷ need_number 0 (2 ^ 32 - 1) ∷ []) nothing (of_server server.now ∷ of_number count ∷ [])) }
{
    put_server(alloc, out, server)?;
    put_number(out, count)?;
    Ok(())
}

fn put_refuse_storage(out: &mut Vec<u8>, count: u64) -> Result<(), AllocError>
    ensures written { OnOk result (out.new.items ≡ out.old.items ++ flat_map behind_space (of_storage ∷ of_number count ∷ [])) }
    ensures fit { count ≤ 2 ^ 32 - 1 → OnOk result (Fit (need_target ∷ need_number 0 (2 ^ 32 - 1) ∷ []) nothing (of_storage ∷ of_number count ∷ [])) }
{
    out.extend_from_slice(b" storage")?;
    put_number(out, count)?;
    Ok(())
}

fn put_cut(out: &mut Vec<u8>, changes: u64, bytes: u64) -> Result<(), AllocError>
    ensures written { OnOk result (out.new.items ≡ out.old.items ++ flat_map behind_space (of_number changes ∷ of_number bytes ∷ [])) }
    ensures fit { OnOk result (Fit (any_number ∷ any_number ∷ []) nothing (of_number changes ∷ of_number bytes ∷ [])) }
{
    put_number(out, changes)?;
    put_number(out, bytes)?;
    Ok(())
}

fn put_group(
    alloc: Global,
    out: &mut Vec<u8>,
    name: &Ns,
    servers: &[ServerName],
) -> Result<(), AllocError>
    ensures written { OnOk result (out.new.items ≡ out.old.items ++ flat_map behind_space (of_ns name.now ∷ map of_server servers.now)) }
    ensures fit { 1 ≤ length servers.now → OnOk result (Fit (need_ns ∷ need_server ∷ []) (many need_server) (of_ns name.now ∷ map of_server servers.now)) }
{
    put_ns(alloc, out, name)?;
    put_servers(alloc, out, servers)?;
    Ok(())
}

fn put_table_group(
    alloc: Global,
    out: &mut Vec<u8>,
    table: &TableName,
    name: &Ns,
) -> Result<(), AllocError>
    ensures written { OnOk result (out.new.items ≡ out.old.items ++ flat_map behind_space (of_table table.now ∷ of_ns name.now ∷ [])) }
    ensures fit { OnOk result (Fit (need_table ∷ need_ns ∷ []) nothing (of_table table.now ∷ of_ns name.now ∷ [])) }
{
    put_table(alloc, out, table)?;
    put_ns(alloc, out, name)?;
    Ok(())
}

fn put_lone_number(out: &mut Vec<u8>, number: u64) -> Result<(), AllocError>
    ensures written { OnOk result (out.new.items ≡ out.old.items ++ flat_map behind_space (of_number number ∷ [])) }
    ensures fit { (least most : ℕ) → least ≤ number → number ≤ most → OnOk result (Fit (need_number least most ∷ []) nothing (of_number number ∷ [])) }
{
    put_number(out, number)?;
    Ok(())
}

fn put_lone_server(alloc: Global, out: &mut Vec<u8>, server: &ServerName) -> Result<(), AllocError>
    ensures written { OnOk result (out.new.items ≡ out.old.items ++ flat_map behind_space (of_server server.now ∷ [])) }
    ensures fit { OnOk result (Fit (need_server ∷ []) nothing (of_server server.now ∷ [])) }
{
    put_server(alloc, out, server)?;
    Ok(())
}

fn put_json(out: &mut Vec<u8>) -> Result<(), AllocError>
    ensures written { OnOk result (out.new.items ≡ out.old.items ++ flat_map behind_space (of_json ∷ [])) }
    ensures fit { OnOk result (Fit [] (maybe need_json) (of_json ∷ [])) }
{
    out.extend_from_slice(b" json")?;
    Ok(())
}

// The words after the keyword of an order, each after a space.
fn put_order_values(alloc: Global, out: &mut Vec<u8>, order: &Order) -> Result<(), AllocError>
    ensures written { OnOk result (out.new.items ≡ out.old.items ++ flat_map behind_space (order_spelling order.now).values) }
    ensures fit { (most : ℕ) → IsOrder most order.now → OnOk result (FitPlain most (order_spelling order.now).keyword (order_spelling order.now).values) }
{
    match order {
        Order::Namespace { nonce, ns } => put_ns_request(alloc, out, nonce, ns),
        Order::DropNamespace { nonce, ns } => put_ns_request(alloc, out, nonce, ns),
        Order::Create { nonce, table, keys } => put_create(
            alloc,
            out,
            nonce,
            table,
            keys.as_slice(),
        ),
        Order::Delete { nonce, table } => put_table_request(alloc, out, nonce, table),
        Order::Enable { nonce, table } => put_table_request(alloc, out, nonce, table),
        Order::Disable { nonce, table } => put_table_request(alloc, out, nonce, table),
        Order::Modify {
            nonce,
            table,
            version,
        } => put_modify(alloc, out, nonce, table, *version),
        Order::Split { nonce, region, key } => put_split(alloc, out, nonce, region, key),
        Order::Merge { nonce, regions } => put_merge(alloc, out, nonce, regions.as_slice()),
        Order::Move { nonce, region, to } => put_move(alloc, out, nonce, region, to),
        Order::Abort { pid } => put_lone_number(out, pid.0),
        Order::Expire { server } => put_lone_server(alloc, out, server),
        Order::Step { count } => put_lone_number(out, *count),
    }
}

// The words after `old`, each after a space.
fn put_order(alloc: Global, out: &mut Vec<u8>, order: &Order) -> Result<(), AllocError>
    ensures written { OnOk result (out.new.items ≡ out.old.items ++ flat_map behind_space (spelling (Command.Old order.now)).values) }
    ensures fit { (most : ℕ) → IsOrder most order.now → OnOk result (IsFitting most (spelling (Command.Old order.now))) }
{
    out.push(b' ')?;
    out.extend_from_slice(order.keyword().text().as_bytes())?;
    put_order_values(alloc, out, order)?;
    Ok(())
}

// The words after a command's keyword, each after a space.
fn put_values(alloc: Global, out: &mut Vec<u8>, command: &Command) -> Result<(), AllocError>
    ensures written { OnOk result (out.new.items ≡ out.old.items ++ flat_map behind_space (spelling command.now).values) }
    ensures fit { (most : ℕ) → IsSpelled most command.now → OnOk result (IsFitting most (spelling command.now)) }
{
    match command {
        Command::Workers { count } => put_lone_number(out, u64::from(*count)),
        Command::Namespace { nonce, ns } => put_ns_request(alloc, out, nonce, ns),
        Command::DropNamespace { nonce, ns } => put_ns_request(alloc, out, nonce, ns),
        Command::Create { nonce, table, keys } => put_create(
            alloc,
            out,
            nonce,
            table,
            keys.as_slice(),
        ),
        Command::Delete { nonce, table } => put_table_request(alloc, out, nonce, table),
        Command::Enable { nonce, table } => put_table_request(alloc, out, nonce, table),
        Command::Disable { nonce, table } => put_table_request(alloc, out, nonce, table),
        Command::Modify {
            nonce,
            table,
            version,
        } => put_modify(alloc, out, nonce, table, *version),
        Command::Split { nonce, region, key } => put_split(alloc, out, nonce, region, key),
        Command::Merge { nonce, regions } => put_merge(alloc, out, nonce, regions.as_slice()),
        Command::Move { nonce, region, to } => put_move(alloc, out, nonce, region, to),
        Command::Abort { pid } => put_lone_number(out, pid.0),
        Command::Server { server } => put_lone_server(alloc, out, server),
        Command::Die { server } => put_lone_server(alloc, out, server),
        Command::Expire { server } => put_lone_server(alloc, out, server),
        Command::Drain { server } => put_lone_server(alloc, out, server),
        Command::Undrain { server } => put_lone_server(alloc, out, server),
        Command::Refuse { server, count } => put_refuse(alloc, out, server, u64::from(*count)),
        Command::RefuseStorage { count } => put_refuse_storage(out, u64::from(*count)),
        Command::Step { count } => put_lone_number(out, *count),
        Command::ProcsJson => put_json(out),
        Command::Backoff { ticks } => put_lone_number(out, u64::from(*ticks)),
        Command::Tick { ticks } => put_lone_number(out, *ticks),
        Command::Group { name, servers } => put_group(alloc, out, name, servers.as_slice()),
        Command::TableGroup { table, name } => put_table_group(alloc, out, table, name),
        Command::Cut { changes, bytes } => put_cut(out, *changes, *bytes),
        Command::Old { order } => put_order(alloc, out, order),
        _ => Ok(()),
    }
}

// The line that says a command, with its newline.
fn put_line(alloc: Global, out: &mut Vec<u8>, command: &Command) -> Result<(), AllocError>
    ensures written { OnOk result (out.new.items ≡ out.old.items ++ line_text command.now) }
    ensures fit { (most : ℕ) → IsSpelled most command.now → OnOk result (IsFitting most (spelling command.now)) }
{
    out.extend_from_slice(command.keyword().text().as_bytes())?;
    put_values(alloc, out, command)?;
    out.extend_from_slice(b"\n")?;
    Ok(())
}

/// The script of these commands, a line each.
pub fn print(alloc: Global, commands: &[Command]) -> Result<Vec<u8>, AllocError>
    ensures text { IfOk result (λ bytes. bytes.items ≡ script_text commands.now) }
    ensures reads_back { IfOk result (λ bytes. (reader : Reader) → IsPrintableTo reader commands.now → length bytes.items ≤ 1048576 → IsScriptTo reader bytes.items commands.now) }
{
    let mut out = Vec::new(alloc);
    for command in commands {
        put_line(alloc, &mut out, command)?;
    }
    Ok(out)
}
